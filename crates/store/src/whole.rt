//! The store as its users hold it: what it asks of itself is held in its type, so that its calls ask nothing of the caller.
ghost use Rattle.std.specs.Prelude.{◌≡◌};
ghost use Rattle.store.specs.Model.{Tables, Lists, Numbers};

use crate::types::RoundState;
use arrayvec::ArrayVec;
use machine::types::{Card, Cell};

/// A store of up to 4,096 records over tables that are lent to it, for any contents that can be copied.
#[derive(Drop)]
pub struct Store<'a, C> {
    // kept: the memory is lent, as a table of records and one of contents of any type, and records name cells by number.
    pub(crate) cells: &'a mut [Cell],
    pub(crate) contents: &'a mut [C],
    pub(crate) cards: ArrayVec<Card, 8>,
    // kept: as one value of `Lists` each use would say `lists.` before its list, and nothing would be shorter.
    pub(crate) free: Vec<u16>,
    pub(crate) waiting: Vec<u16>,
    pub(crate) state: RoundState,
    ghost tables: { Tables cells.now contents.now cards.items },
    ghost lists: { Lists cells.now state.answered free waiting },
    ghost numbers: { Numbers cells.now free waiting state },
}
