//! A cell of an archive, and what its bytes say.
ghost use Rattle.std.specs.Prelude.{◌≡◌, ◌+◌, ◌<◌, length, take, drop};
ghost use Rattle.archive.specs.Runs.{every};
ghost use Rattle.archive.specs.Bytes.{spot, unname, serial_in, form_in, link_in, rest_in};
ghost use Rattle.archive.specs.Rules.{is_blank, name_right, cell_right};
ghost use Rattle.archive.specs.Reading.{cell_in, value_in};

use crate::bytes::{blank, bytes_at, names, unnamed};
use crate::pages::Pages;
use contents::Contents;
use machine::types::{Cell, Colour, Record};

/// Cell k of some pages. That there is such a cell is known here, so nothing below asks for it.
#[derive(Clone, Copy)]
pub(crate) struct Entry<'a> {
    pub pages: Pages<'a>,
    pub k: usize,
    ghost inside: { k < pages.head.cells },
}

impl<'a> Entry<'a> {
    // Its 28 bytes.
    fn record(&self) -> &'a [u8]
        ensures is { result.now ≡ take 28 (drop (spot self.now.k) self.now.pages.bytes.now) }
        ensures long { length result.now ≡ 28 }
    {
        let at = 4 + 28 * (self.k % 18);
        &self.pages.block(self.k / 18 + 1)[at..at + 28]
    }

    // kept: the format has 0 where there is no record, and its rules go by that number.
    pub(crate) fn serial(&self) -> u32
        ensures { result ≡ serial_in self.now.pages.bytes.now self.now.k }
    {
        u32::from_le_bytes(bytes_at(self.record(), 0))
    }

    fn form(&self) -> [u8; 16]
        ensures { result ≡ form_in self.now.pages.bytes.now self.now.k }
    {
        bytes_at(self.record(), 4)
    }

    // The bytes of its links.
    fn links(&self) -> &'a [u8]
        ensures is { result.now ≡ take 8 (drop (spot self.now.k + 20) self.now.pages.bytes.now) }
        ensures long { length result.now ≡ 8 }
    {
        &self.record()[20..28]
    }

    /// What link i names. Link 0 of a free cell names the free cell after it.
    pub(crate) fn link(&self, i: usize) -> Option<u16>
        requires { i < 4 }
        ensures { result ≡ unname (link_in self.now.pages.bytes.now self.now.k i) }
    {
        unnamed(u16::from_le_bytes(bytes_at(self.links(), 2 * i)))
    }

    // Whether the six bytes after link 0 are zeros.
    fn rest_blank(&self) -> bool
        ensures { result ≡ is_blank (rest_in self.now.pages.bytes.now self.now.k) }
    {
        blank(&self.record()[22..28])
    }

    // Whether each link names none, or a cell with a record.
    fn links_right(&self) -> bool
        ensures { result ≡ every (λ i. name_right self.now.pages.bytes.now self.now.pages.head.cells (link_in self.now.pages.bytes.now self.now.k i)) 4 }
    {
        self.pages.names_right(self.links())
    }

    /// Whether it keeps the rules of one cell.
    #[tactic(auto, unfolding(crate::specs::Rules::cell_right))]
    pub(crate) fn right<C: Contents>(&self) -> bool
        ensures { result ≡ cell_right C.read self.now.pages.bytes.now self.now.pages.head.cells self.now.k }
    {
        let serial = self.serial();
        let form = self.form();
        if serial == 0 {
            blank(&form) && self.rest_blank()
        } else {
            serial < self.pages.head.next && C::reading(&form).is_some() && self.links_right()
        }
    }

    /// The cell as it is after reading.
    pub(crate) fn cell(&self) -> Cell
        ensures { result ≡ cell_in self.now.pages.bytes.now self.now.k }
    {
        let serial = self.serial();
        if serial == 0 {
            return None;
        }
        Some(Record {
            serial,
            links: names(self.links()),
            colour: Colour::Zero,
            waiting: false,
            snooped: false,
            log: None,
        })
    }

    /// Its contents, if it has a record.
    pub(crate) fn value<C: Contents>(&self) -> Option<C>
        ensures { result ≡ value_in C.read self.now.pages.bytes.now self.now.k }
    {
        if self.serial() == 0 {
            return None;
        }
        C::reading(&self.form())
    }
}
