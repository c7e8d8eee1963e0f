//! The numbers of a store that is to be made.
ghost use Rattle.std.specs.Prelude.{◌≡◌, false, IfOk, IfErr};
ghost use Rattle.store.specs.Ready.{RoomFor, bad_tables, bad_numbers, unfit};
ghost use Rattle.store.specs.Making.{Tells};

use crate::lists::Lists;
use crate::types::LAST_ROUND;
use crate::why::Why;
use refusal::Refusal;
use std::alloc::Global;

/// How long the two tables are, and what else a store is asked for.
#[derive(Clone, Copy)]
pub(crate) struct Size {
    pub cells: usize,
    pub contents: usize,
    pub cards: u8,
    pub first: u32,
    pub rounds: u32,
}

impl Size {
    fn has_bad_tables(&self) -> bool
        ensures { result ≡ bad_tables self.now.cells self.now.contents }
    {
        self.contents != self.cells || !(1..=4096).contains(&self.cells)
    }

    fn has_bad_numbers(&self) -> bool
        ensures { result ≡ bad_numbers self.now.cards self.now.first self.now.rounds }
    {
        !(1..=8).contains(&self.cards)
            || self.first == 0
            || self.first == u32::MAX
            || self.rounds > LAST_ROUND
    }

    /// Memory for the lists of a store of this size, if there is such a store.
    pub(crate) fn lists(&self, heap: Global) -> Result<Lists, Why>
        ensures made { IfOk result (λ l. (unfit self.now.cells self.now.contents self.now.cards self.now.first self.now.rounds ≡ false) × RoomFor self.now.cells l.free l.waiting) }
        ensures refused { IfErr result (λ w. Tells w (unfit self.now.cells self.now.contents self.now.cards self.now.first self.now.rounds)) }
    {
        if self.has_bad_tables() || self.has_bad_numbers() {
            return Err(Why::Refused(Refusal::OutOfRange));
        }
        Ok(Lists::with_room(heap, self.cells)?)
    }
}
