//! Writing an archive.
ghost use Rattle.std.specs.Prelude.{◌≡◌, ◌+◌, ◌*◌, ◌<◌, ◌≤◌, length};
ghost use Rattle.octets.specs.Block.{block_of};
ghost use Rattle.store.specs.World.{world};
ghost use Rattle.archive.specs.Layout.{archive_block, archive_of, blocks_for};
ghost use Rattle.archive.specs.Writing.{in_hand, writing};
ghost use Rattle.archive.specs.Good.{Sizes};

use crate::parts::{Body, add_cell, add_front, add_places, blocks_for, part_of};
use contents::Contents;
use machine::types::{Card, Phase};
use octets::write_block;
use refusal::Refusal;
use store::Store;

fn in_hand(cards: &[Card]) -> bool
    ensures { result ≡ in_hand cards.now }
{
    cards.iter().any(|card| card.update.is_some())
}

// Writes a block into a part that is just as long.
// kept: tried parts that are arrays; the library says nothing of what a slice ends as that is written through `as_chunks_mut`.
fn seal(out: &mut [u8], number: u16, count: u16, body: &[u8])
    requires block { length out.old ≡ 512 }
    requires room { length body.now ≤ 504 }
    ensures { out.new ≡ block_of number count body.now }
{
    let _ = write_block(out, number, count, body);
}

fn write_head<C: Contents>(out: &mut [u8], store: &Store<'_, C>)
    requires { length out.old ≡ 512 }
    ensures { out.new ≡ archive_block C.CODE C.form (world store.now) 0 }
{
    let mut body = Body::new();
    add_front(&mut body, store);
    add_places(&mut body, store);
    seal(out, 0, 0, body.as_slice());
}

fn write_cells<C: Contents>(out: &mut [u8], store: &Store<'_, C>, b: usize)
    requires block { length out.old ≡ 512 }
    requires some { 18 * b < length (world store.now).cells }
    ensures { out.new ≡ archive_block C.CODE C.form (world store.now) (b + 1) }
{
    let count = part_of(store.cells().len(), b);
    let mut body = Body::new();
    for k in 18 * b..18 * b + count {
        add_cell(&mut body, store, k);
    }
    seal(out, b as u16 + 1, count as u16, body.as_slice());
}

// Writes all blocks.
fn write_blocks<C: Contents>(store: &Store<'_, C>, out: &mut [u8])
    requires { length out.old ≡ 512 * blocks_for (length (world store.now).cells) }
    ensures { out.new ≡ archive_of C.CODE C.form (world store.now) }
{
    let n = store.cells().len();
    write_head(&mut out[0..512], store);
    // kept: tried with chunks_exact_mut, after which nothing is known of the bytes of `out`, so the proof does not close.
    for b in 0..n.div_ceil(18) {
        let at = 512 + 512 * b;
        write_cells(&mut out[at..at + 512], store, b);
    }
}

/// The number of blocks that a store's archive has: 512 bytes each. The store is of a size that an archive can hold.
pub fn blocks_of<C: Copy>(store: &Store<'_, C>) -> u32
    ensures is { result ≡ blocks_for (length (world store.now).cells) }
    ensures sizes { Sizes (world store.now) }
{
    let _state = store.round();
    blocks_for(store.cells().len()) as u32
}

/// Writes the archive of a store over `out`, and answers the number of its blocks. Refused with 4 where an update is in
/// hand on a card, with 7 outside Rest, and with 14 where `out` is not of the archive's length; `out` then stays as it was.
pub fn write_archive<C: Contents>(store: &Store<'_, C>, out: &mut [u8]) -> Result<u32, Refusal>
    ensures { (result, out.new) ≡ writing C.CODE C.form (world store.now) out.old }
{
    if in_hand(store.cards()) {
        return Err(Refusal::UpdateInHand);
    }
    if !matches!(store.round().phase, Phase::Rest) {
        return Err(Refusal::WrongPhase);
    }
    let blocks = blocks_for(store.cells().len());
    if out.len() != 512 * blocks {
        return Err(Refusal::OutOfRange);
    }
    write_blocks(store, out);
    Ok(blocks as u32)
}
