//! The parts of an archive as they are written.
ghost use Rattle.std.specs.Prelude.{◌≡◌, ◌+◌, ◌*◌, ◌<◌, ◌≤◌, ◌++◌, length};
ghost use Rattle.arrayvec.specs.ArrayVec.{array_vec_len};
ghost use Rattle.store.specs.World.{world};
ghost use Rattle.archive.specs.Layout.{told, told_free, after, free_bytes, cell_bytes, front_of, place_bytes, blocks_for, part_of, names_bytes};
ghost use Rattle.archive.specs.Runs.{run};

use arrayvec::ArrayVec;
use contents::Contents;
use machine::types::Cell;
use store::Store;

/// What a block has after its number and count, as it is put together.
pub(crate) type Body = ArrayVec<u8, 504>;

/// The number of blocks for n cells.
pub(crate) fn blocks_for(n: usize) -> usize
    ensures { result ≡ blocks_for n }
{
    1 + n.div_ceil(18)
}

/// How many of n cells stand in block b of the cells.
pub(crate) fn part_of(n: usize, b: usize) -> usize
    requires { 18 * b < n }
    ensures { result ≡ part_of n b }
{
    18.min(n - 18 * b)
}

// Appends to a body. There is room, so it cannot fail.
// kept: each part of a body says the room that it needs, which no one fact of a body says for all of them.
fn add(body: &mut Body, part: &[u8])
    requires { array_vec_len body.old + length part.now ≤ 504 }
    ensures { body.new.items ≡ body.old.items ++ part.now }
{
    let _ = body.try_extend_from_slice(part);
}

// A name as it is written: a cell's number plus one; none, or a cell without a record, as 0.
fn told(cells: &[Cell], name: Option<u16>) -> u16
    requires { length cells.now ≤ 4096 }
    ensures { result ≡ told cells.now name }
{
    name.map_or(0, |x| match cells.get(x as usize) {
        Some(Some(_)) => x + 1,
        _ => 0,
    })
}

// A free cell's number plus one, and 0 for none.
fn told_free(n: usize, name: Option<u16>) -> u16
    requires { n ≤ 4096 }
    ensures { result ≡ told_free n name }
{
    name.map_or(0, |x| if (x as usize) < n { x + 1 } else { 0 })
}

// Appends some names, as each is written.
fn add_names(body: &mut Body, cells: &[Cell], names: &[Option<u16>])
    requires few { length cells.now ≤ 4096 }
    requires room { array_vec_len body.old + 2 * length names.now ≤ 504 }
    ensures { body.new.items ≡ body.old.items ++ names_bytes cells.now names.now }
{
    for name in names {
        add(body, &told(cells, *name).to_le_bytes());
    }
}

// The free cell after cell k of the free list.
fn after<C: Copy>(store: &Store<'_, C>, k: u16) -> Option<u16>
    ensures { result ≡ after (world store.now).free k }
{
    // the search stops at the list's end too, after which comes nothing
    let at = (0..store.cells().len()).find(|i| {
        let cell = store.free_cell(*i);
        cell.is_none() || cell == Some(k)
    })?;
    store.free_cell(at + 1)
}

fn add_free(body: &mut Body, next: u16)
    requires { array_vec_len body.old + 28 ≤ 504 }
    ensures { body.new.items ≡ body.old.items ++ free_bytes next }
{
    add(body, &[0; 20]);
    add(body, &next.to_le_bytes());
    add(body, &[0; 6]);
}

/// Appends the 28 bytes of cell k.
pub(crate) fn add_cell<C: Contents>(body: &mut Body, store: &Store<'_, C>, k: usize)
    requires cell { k < length (world store.now).cells }
    requires room { array_vec_len body.old + 28 ≤ 504 }
    ensures is { body.new.items ≡ body.old.items ++ cell_bytes C.form (world store.now) k }
    ensures long { array_vec_len body.new ≡ array_vec_len body.old + 28 }
{
    let cells = store.cells();
    match cells[k] {
        None => add_free(body, told_free(cells.len(), after(store, k as u16))),
        Some(record) => {
            add(body, &record.serial.to_le_bytes());
            add(body, &store.contents()[k].form());
            add_names(body, cells, &record.links);
        }
    }
}

/// Appends the numbers of the head.
pub(crate) fn add_front<C: Contents>(body: &mut Body, store: &Store<'_, C>)
    requires { array_vec_len body.old + 18 ≤ 504 }
    ensures { body.new.items ≡ body.old.items ++ front_of C.CODE (world store.now) }
{
    let n = store.cells().len();
    let state = store.round();
    add(body, &(n as u16).to_le_bytes());
    add(body, &(store.cards().len() as u16).to_le_bytes());
    add(body, &4u16.to_le_bytes());
    add(body, &C::CODE.to_le_bytes());
    add(body, &state.next.to_le_bytes());
    add(body, &state.rounds.to_le_bytes());
    add(body, &told_free(n, store.free_cell(0)).to_le_bytes());
}

/// Appends the places of all cards.
pub(crate) fn add_places<C: Copy>(body: &mut Body, store: &Store<'_, C>)
    requires { array_vec_len body.old + 128 ≤ 504 }
    ensures { body.new.items ≡ body.old.items ++ run (place_bytes (world store.now)) (length (world store.now).cards) }
{
    for card in store.cards() {
        add_names(body, store.cells(), &card.places);
    }
}
