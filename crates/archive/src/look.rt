//! What an archive's bytes say, place by place.
ghost use Rattle.std.specs.Prelude.{◌≡◌, ◌*◌, ◌<◌, ◌≤◌, length, take, drop, cond, nat_lt, is_some, None, Some, IfSome, ◌==◌, ◌&&◌};
ghost use Rattle.archive.specs.Heads.{head_in};
ghost use Rattle.archive.specs.Layout.{blocks_for};
ghost use Rattle.archive.specs.Bytes.{cells_in, free_in};
ghost use Rattle.archive.specs.Rules.{chunk, head_right, limits};

use crate::bytes::bytes_at;
use crate::entry::Entry;
use crate::head::Head;
use crate::pages::Pages;
use crate::parts::blocks_for;

impl Head {
    // The numbers, if there is a block of them.
    fn of(bytes: &[u8]) -> Option<Head>
        ensures { result ≡ cond (nat_lt (length bytes.now) 512) None (Some (head_in bytes.now)) }
    {
        if bytes.len() < 512 {
            return None;
        }
        Some(Head {
            cells: u16::from_le_bytes(bytes_at(bytes, 4)),
            cards: u16::from_le_bytes(bytes_at(bytes, 6)),
            links: u16::from_le_bytes(bytes_at(bytes, 8)),
            code: u16::from_le_bytes(bytes_at(bytes, 10)),
            next: u32::from_le_bytes(bytes_at(bytes, 12)),
            rounds: u32::from_le_bytes(bytes_at(bytes, 16)),
            first: u16::from_le_bytes(bytes_at(bytes, 20)),
        })
    }

    // Whether the numbers are within their limits, with the code of a kind.
    fn right(&self, kind: u16) -> bool
        ensures { result ≡ limits self.now.cells self.now.cards self.now.links self.now.code kind self.now.next self.now.rounds }
    {
        matches!(self.cells, 1..=4096)
            && matches!(self.cards, 1..=8)
            && self.links == 4
            && self.code == kind
            && self.next >= 2
            && self.rounds <= 1_073_741_823
    }
}

impl<'a> Pages<'a> {
    /// The bytes as an archive of a kind, if their head and their length are right.
    #[tactic(auto, unfolding(crate::specs::Rules::head_right))]
    pub(crate) fn of(bytes: &'a [u8], kind: u16) -> Option<Pages<'a>>
        ensures is { is_some result ≡ (head_right kind bytes.now && length bytes.now == 512 * blocks_for (cells_in bytes.now)) }
        ensures same { IfSome result (λ p. p.bytes.now ≡ bytes.now) }
    {
        let head = Head::of(bytes)?;
        if head.right(kind) && bytes.len() == 512 * blocks_for(head.cells as usize) {
            Some(Pages { bytes, head })
        } else {
            None
        }
    }

    /// The 512 bytes of block b.
    pub(crate) fn block(&self, b: usize) -> &'a [u8]
        requires { b < blocks_for self.now.head.cells }
        ensures is { result.now ≡ chunk self.now.bytes.now b }
        ensures long { length result.now ≡ 512 }
    {
        &self.bytes[512 * b..512 * b + 512]
    }

    /// Cell k.
    pub(crate) fn entry(&self, k: usize) -> Entry<'a>
        requires { k < self.now.head.cells }
        ensures of { result.pages ≡ self.now }
        ensures at { result.k ≡ k }
    {
        Entry { pages: *self, k }
    }

    pub(crate) fn is_free(&self, k: usize) -> bool
        ensures { result ≡ free_in self.now.bytes.now self.now.head.cells k }
    {
        k < self.head.cells as usize && self.entry(k).serial() == 0
    }

    /// The bytes of the places of all cards.
    pub(crate) fn places(&self) -> &'a [u8]
        ensures is { result.now ≡ take (16 * self.now.head.cards) (drop 22 self.now.bytes.now) }
        ensures long { length result.now ≡ 16 * self.now.head.cards }
    {
        &self.bytes[22..22 + 16 * self.head.cards as usize]
    }
}
