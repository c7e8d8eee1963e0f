//! What a making is handed, and why one fails.
ghost use Rattle.std.specs.Prelude.{◌≡◌, false, length};
ghost use Rattle.store.specs.Ready.{unfit, RoomFor};

use crate::lists::Lists;
use crate::why::Why;
use machine::types::Cell;

/// A store that can be made: everything was found right, memory is at hand, and nothing is written yet.
#[derive(Drop)]
pub struct Plan<'a, C> {
    pub(crate) cells: &'a mut [Cell],
    pub(crate) contents: &'a mut [C],
    pub(crate) cards: u8,
    pub(crate) first: u32,
    pub(crate) rounds: u32,
    pub(crate) lists: Lists,
    ghost fit: { unfit (length cells.now) (length contents.now) cards first rounds ≡ false },
    ghost room: { RoomFor (length cells.now) lists.free lists.waiting },
}

/// No store is made: why, and the tables, handed back as they were.
#[derive(Drop)]
pub struct NotMade<'a, C> {
    pub why: Why,
    pub cells: &'a mut [Cell],
    pub contents: &'a mut [C],
}
