//! The tables and lists of a store, filled from an archive's bytes.
ghost use Rattle.std.specs.Prelude.{◌≡◌, ◌<◌, ◌≤◌, length, vec_len, vec_capacity};
ghost use Rattle.store.specs.Model.{stack};
ghost use Rattle.archive.specs.Runs.{tab};
ghost use Rattle.archive.specs.Bytes.{next_in, free_in};
ghost use Rattle.archive.specs.Reading.{cell_in, value_in, filled, card_in, chain_from};

use crate::bytes::names;
use crate::pages::Pages;
use contents::Contents;
use machine::types::{Card, Cell, Colour};

impl Pages<'_> {
    pub(crate) fn fill_cells(&self, cells: &mut [Cell])
        requires { length cells.old ≡ self.now.head.cells }
        ensures { cells.new ≡ tab (cell_in self.now.bytes.now) (length cells.old) }
    {
        for (k, cell) in cells.iter_mut().enumerate() {
            *cell = self.entry(k).cell();
        }
    }

    pub(crate) fn fill_contents<C: Contents>(&self, contents: &mut [C])
        requires { length contents.old ≡ self.now.head.cells }
        ensures { contents.new ≡ filled (value_in C.read self.now.bytes.now) contents.old (length contents.old) }
    {
        for (k, content) in contents.iter_mut().enumerate() {
            if let Some(x) = self.entry(k).value() {
                *content = x;
            }
        }
    }

    fn card(&self, c: usize) -> Card
        requires { c < 8 }
        ensures { result ≡ card_in self.now.bytes.now c }
    {
        Card {
            places: names(&self.bytes[22 + 16 * c..38 + 16 * c]),
            snoop: false,
            logging: false,
            birth: Colour::Zero,
            last: 4 * self.head.rounds,
            update: None,
        }
    }

    /// The cards of all eight places of the head, also of those that the store does not have.
    pub(crate) fn cards(&self) -> [Card; 8]
        ensures { result ≡ tab (card_in self.now.bytes.now) 8 }
    {
        std::array::from_fn(|c| self.card(c))
    }

    /// Lists the free cells of a chain, at most so many. The list has its front at the end, so the first cell comes last.
    // kept: the rules of the project name this form, a chain as its first cell and then the chain after it.
    pub(crate) fn list_chain(&self, first: Option<u16>, left: usize, free: &mut Vec<u16>)
        requires empty { vec_len free.old ≡ 0 }
        requires room { left ≤ vec_capacity free.old }
        ensures does { stack free.new ≡ chain_from (next_in self.now.bytes.now) (free_in self.now.bytes.now self.now.head.cells) left first }
        ensures len { vec_len free.new ≤ left }
        ensures capacity { vec_capacity free.new ≡ vec_capacity free.old }
    {
        let Some(k) = first else {
            return;
        };
        if left > 0 && self.is_free(k as usize) {
            self.list_chain(self.entry(k as usize).link(0), left - 1, free);
            free.push_reserved(k);
        }
    }
}
