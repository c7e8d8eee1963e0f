ghost use Rattle.std.specs.Prelude.{◌≡◌, length};
ghost use Rattle.store.specs.Ready.{RoomFor};

use crate::pages::Pages;
use machine::types::Cell;
use store::Lists;

/// An archive that can be read: everything was found right, memory is at hand, and nothing is written yet.
#[derive(Drop)]
pub struct Reading<'a, 'b, C> {
    pub(crate) pages: Pages<'b>,
    pub(crate) cells: &'a mut [Cell],
    pub(crate) contents: &'a mut [C],
    pub(crate) lists: Lists,
    ghost every_cell: { length cells.now ≡ pages.head.cells },
    ghost every_content: { length contents.now ≡ pages.head.cells },
    ghost room: { RoomFor (length cells.now) lists.free lists.waiting },
}
