//! The rules of an archive. Each function says whether one of them is kept.
ghost use Rattle.std.specs.Prelude.{◌≡◌, ℕ, ◌+◌, ◌*◌, ◌/◌, ◌<◌, ◌≤◌, length, drop, is_some, IfSome};
ghost use Rattle.octets.specs.Numbers.{un16};
ghost use Rattle.archive.specs.Runs.{every};
ghost use Rattle.archive.specs.Layout.{part_of};
ghost use Rattle.archive.specs.Bytes.{cells_in, cards_in, place_in, serial_in, link_in, next_in, free_in};
ghost use Rattle.archive.specs.Rules.{chunk, checks_right, framed, frames_right, name_right, cell_right, shared, count_free, follows, chain_right, rules_right, archive_right};

use crate::bytes::{blank, bytes_at, unnamed};
use crate::pages::Pages;
use crate::parts::part_of;
use contents::Contents;
use octets::check_right;

pub(crate) fn checks_right(bytes: &[u8]) -> bool
    ensures { result ≡ checks_right bytes.now }
{
    let (blocks, _) = bytes.as_chunks::<512>();
    blocks.iter().all(|block| check_right(block))
}

// Whether a block has this number and this count, and zeros after the bytes that it needs.
#[tactic(auto, unfolding(crate::specs::Rules::framed))]
fn framed(block: &[u8], number: u16, count: u16, needs: usize) -> bool
    requires long { length block.now ≡ 512 }
    requires room { needs ≤ 504 }
    ensures { result ≡ framed number count needs block.now }
{
    let [n0, n1, c0, c1, rest @ ..] = block else {
        return false;
    };
    u16::from_le_bytes([*n0, *n1]) == number
        && u16::from_le_bytes([*c0, *c1]) == count
        && blank(&rest[needs..504])
}

impl Pages<'_> {
    // Whether block b of the cells is framed right.
    fn frame_right(&self, b: usize) -> bool
        requires { 18 * b < self.now.head.cells }
        ensures { result ≡ framed (b + 1) (part_of self.now.head.cells b) (28 * part_of self.now.head.cells b) (chunk self.now.bytes.now (b + 1)) }
    {
        let count = part_of(self.head.cells as usize, b);
        framed(self.block(b + 1), b as u16 + 1, count as u16, 28 * count)
    }

    fn frames_right(&self) -> bool
        ensures { result ≡ frames_right self.now.bytes.now }
    {
        let blocks = (self.head.cells as usize).div_ceil(18);
        framed(self.block(0), 0, 0, 18 + 16 * self.head.cards as usize)
            && (0..blocks).all(|b| self.frame_right(b))
    }

    // Whether a number is 0 or names a cell with a record.
    #[tactic(auto, unfolding(crate::specs::Rules::name_right))]
    fn name_right(&self, number: u16) -> bool
        ensures { result ≡ name_right self.now.bytes.now self.now.head.cells number }
    {
        number == 0 || number <= self.head.cells && self.entry(number as usize - 1).serial() != 0
    }

    /// Whether each number in some bytes does.
    pub(crate) fn names_right(&self, names: &[u8]) -> bool
        ensures { result ≡ every (λ i. name_right self.now.bytes.now self.now.head.cells (un16 (drop (2 * i) names.now))) (length names.now / 2) }
    {
        let (names, _) = names.as_chunks::<2>();
        names
            .iter()
            .all(|name| self.name_right(u16::from_le_bytes(*name)))
    }

    fn places_right(&self) -> bool
        ensures { result ≡ every (λ i. name_right self.now.bytes.now self.now.head.cells (place_in self.now.bytes.now i)) (8 * self.now.head.cards) }
    {
        self.names_right(self.places())
    }

    fn cells_right<C: Contents>(&self) -> bool
        ensures { result ≡ every (cell_right C.read self.now.bytes.now self.now.head.cells) self.now.head.cells }
    {
        (0..self.head.cells as usize).all(|k| self.entry(k).right::<C>())
    }

    // Whether two records share a serial. Among the other rules this loop would lack a register, and take a third longer.
    #[inline(never)]
    fn share(&self) -> bool
        ensures { result ≡ shared (serial_in self.now.bytes.now) self.now.head.cells }
    {
        // kept: the rules of the project name this form, a loop over pairs that is left from inside by a label.
        let mut found = false;
        'pairs: for i in 0..self.head.cells as usize {
            let x = self.entry(i).serial();
            for j in 0..i {
                if x != 0 && self.entry(j).serial() == x {
                    found = true;
                    break 'pairs;
                }
            }
        }
        found
    }

    pub(crate) fn count_free(&self) -> usize
        ensures is { result ≡ count_free (free_in self.now.bytes.now self.now.head.cells) self.now.head.cells }
        ensures most { result ≤ self.now.head.cells }
    {
        (0..self.head.cells as usize)
            .filter(|k| self.is_free(*k))
            .count()
    }

    // Whether the chain from `first` on has just so many cells, all of them free.
    // kept: the rules of the project name this form, a chain as its first cell and then the chain after it.
    fn follow(&self, first: Option<u16>, left: usize) -> bool
        ensures { result ≡ follows (next_in self.now.bytes.now) (free_in self.now.bytes.now self.now.head.cells) left first }
    {
        match first {
            None => left == 0,
            Some(k) => {
                left > 0
                    && self.is_free(k as usize)
                    && self.follow(self.entry(k as usize).link(0), left - 1)
            }
        }
    }

    #[tactic(auto, unfolding(crate::specs::Rules::chain_right))]
    fn chain_right(&self) -> bool
        ensures { result ≡ chain_right self.now.bytes.now self.now.head.cells }
    {
        self.follow(unnamed(self.head.first), self.count_free())
    }

    #[tactic(auto, unfolding(crate::specs::Rules::rules_right))]
    fn rules_right<C: Contents>(&self) -> bool
        ensures { result ≡ rules_right C.read self.now.bytes.now }
    {
        self.frames_right()
            && self.cells_right::<C>()
            && self.places_right()
            && !self.share()
            && self.chain_right()
    }

    /// The bytes as an archive that keeps all rules but those of length and check.
    pub(crate) fn archive<C: Contents>(bytes: &[u8]) -> Option<Pages<'_>>
        ensures is { is_some result ≡ archive_right C.CODE C.read bytes.now }
        ensures same { IfSome result (λ p. p.bytes.now ≡ bytes.now) }
    {
        Pages::of(bytes, C::CODE).filter(|pages| pages.rules_right::<C>())
    }
}
