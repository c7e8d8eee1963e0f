//! A store that is put together again, at rest, from tables that are filled already.
ghost use Rattle.std.specs.Prelude.{◌≡◌};
ghost use Rattle.store.specs.Restored.{Fitting, Counted, Listed, restored};
ghost use Rattle.store.specs.World.{world};

use crate::stock::Stock;
use crate::types::RoundState;
use crate::whole::Store;

/// Parts that make a store: what a store asks of them is held in the type, so that putting them together cannot fail.
#[derive(Drop)]
pub struct Restore<'a, C> {
    pub stock: Stock<'a, C>,
    ghost fitting: { Fitting stock },
    ghost counted: { Counted stock },
    ghost listed: { Listed stock },
}

impl<'a, C: Copy> Restore<'a, C> {
    /// Puts the store together. Colours, phase, answers, sweep cell and order are as after creation.
    pub fn make(self) -> Store<'a, C>
        ensures { world result ≡ restored self.entry.stock }
    {
        let Restore { stock } = self;
        let Stock {
            cells,
            contents,
            cards,
            free,
            waiting,
            next,
            rounds,
        } = stock;
        Store {
            cells,
            contents,
            cards,
            free,
            waiting,
            state: RoundState::at_rest(next, rounds),
        }
    }
}
