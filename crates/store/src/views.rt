//! What a store holds, for whoever only looks at it.
ghost use Rattle.std.specs.Prelude.{◌≡◌, length};
ghost use Rattle.std.specs.List.{slice_get};
ghost use Rattle.store.specs.Model.{stack};
ghost use Rattle.store.specs.World.{world, round_of, round_in};

use crate::types::RoundState;
use crate::whole::Store;
use machine::types::{Card, Cell};

// Number i of a list that has its top at the end.
fn from_top(list: &Vec<u16>, i: usize) -> Option<u16>
    ensures { result ≡ slice_get (stack list.now) i }
{
    if i >= list.len() {
        return None;
    }
    Some(list[list.len() - 1 - i])
}

impl<C: Copy> Store<'_, C> {
    /// The cells, in order.
    pub fn cells(&self) -> &[Cell]
        ensures { result.now ≡ (world self.now).cells }
    {
        self.cells
    }

    /// The contents, one for each cell; those of a free cell mean nothing.
    pub fn contents(&self) -> &[C]
        ensures { result.now ≡ (world self.now).contents }
    {
        self.contents
    }

    /// The cards, in order.
    pub fn cards(&self) -> &[Card]
        ensures { result.now ≡ (world self.now).cards }
    {
        self.cards.as_slice()
    }

    /// Colours, counts, phase, order number, answers and sweep cell. Of the answers only those of the store's cards count.
    pub fn round(&self) -> RoundState
        ensures { round_of result (length (world self.now).cards) ≡ round_in (world self.now) }
    {
        self.state
    }

    /// Number i of the free list, counted from its front.
    pub fn free_cell(&self, i: usize) -> Option<u16>
        ensures { result ≡ slice_get (world self.now).free i }
    {
        from_top(&self.free, i)
    }

    /// Number i of the waiting list, counted from its front.
    pub fn waiting_cell(&self, i: usize) -> Option<u16>
        ensures { result ≡ slice_get (world self.now).waiting i }
    {
        from_top(&self.waiting, i)
    }
}
