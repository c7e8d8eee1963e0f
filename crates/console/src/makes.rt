//! Making a store, and choosing a line: what a script may say with a store or without one.
use crate::said::{capped, pattern_in};
use crate::told::Told;
use crate::unheard::Unheard;
use crate::wire::Wire;
use anyhow::anyhow;
use contents::{Effect, Event};
use machine::types::Cell;
use refusal::Refusal;
use std::alloc::{AllocError, Global};
use store::{Plan, Why};

// A store has no more cells, so no larger tables are ever taken.
const MOST_CELLS: usize = 4096;

/// The numbers of a store.
// kept: the store's own type for them is private, and counts two tables.
#[derive(Clone, Copy)]
pub struct Size {
    cells: usize,
    cards: u8,
    first: u32,
    rounds: u32,
}

/// The tables of a store that is wanted, its numbers, and the contents of its index record.
#[derive(Drop)]
pub struct Tables<C: Copy> {
    cells: Vec<Cell>,
    contents: Vec<C>,
    size: Size,
    index: C,
}

/// A store that is wanted.
#[derive(Drop)]
pub enum Wanted {
    Events(Tables<Event>),
    Effects(Tables<Effect>),
}

/// Why words make no store.
#[derive(Drop)]
pub enum Unmade {
    Unheard(Unheard),
    /// There is no memory, and the program ends.
    Failed(anyhow::Error),
}

impl From<Unheard> for Unmade {
    fn from(unheard: Unheard) -> Unmade {
        Unmade::Unheard(unheard)
    }
}

impl From<AllocError> for Unmade {
    fn from(error: AllocError) -> Unmade {
        Unmade::Failed(anyhow::Error::from(error))
    }
}

impl From<Why> for Unmade {
    fn from(why: Why) -> Unmade {
        match why {
            Why::Refused(refusal) => Unmade::Unheard(Unheard::from(refusal)),
            Why::NoMemory => Unmade::Failed(no_memory()),
        }
    }
}

pub(crate) fn no_memory() -> anyhow::Error {
    anyhow!("there is no memory for a store")
}

// The numbers that the words say, if they are numbers.
fn size_said(cells: &str, cards: &str, first: &str, rounds: &str) -> Result<Size, Unheard> {
    Ok(Size {
        cells: capped(cells, usize::MAX)?,
        cards: capped(cards, u8::MAX)?,
        first: capped(first, u32::MAX)?,
        rounds: capped(rounds, u32::MAX)?,
    })
}

impl<C: Told> Tables<C> {
    // The tables of a store with this size and the index contents that the words say, if such a store can be made.
    fn said(heap: Global, size: Size, words: &[&str]) -> Result<Self, Unmade> {
        let index = C::said(words)?;
        if size.cells > MOST_CELLS {
            return Err(Unmade::from(Unheard::from(Refusal::OutOfRange)));
        }
        let mut tables = Tables {
            cells: vec![in heap; None; size.cells]?,
            contents: vec![in heap; index; size.cells]?,
            size,
            index,
        };
        tables.plan(heap)?;
        Ok(tables)
    }

    // The contents of the index record.
    pub(crate) fn index(&self) -> C {
        self.index
    }

    // Checks whether a store can be made of the tables; nothing is written.
    pub(crate) fn plan(&mut self, heap: Global) -> Result<Plan<'_, C>, Why> {
        let Size {
            cards,
            first,
            rounds,
            ..
        } = self.size;
        let cells = self.cells.as_mut_slice();
        let contents = self.contents.as_mut_slice();
        // kept: tried `map_err`; the borrow rules do not cover a closure that is handed the tables
        match Plan::check(heap, cells, contents, cards, first, rounds) {
            Ok(plan) => Ok(plan),
            Err(not_made) => Err(not_made.why),
        }
    }
}

// The store that the words want, if it can be made.
pub(crate) fn wanted_said(heap: Global, words: &[&str]) -> Result<Wanted, Unmade> {
    let ["make", kind, cells, cards, first, rounds, rest @ ..] = words else {
        return Err(Unmade::from(Unheard::Unknown));
    };
    let size = size_said(cells, cards, first, rounds)?;
    match *kind {
        "events" => Ok(Wanted::Events(Tables::said(heap, size, rest)?)),
        "effects" => Ok(Wanted::Effects(Tables::said(heap, size, rest)?)),
        _ => Err(Unmade::from(Unheard::Unknown)),
    }
}

// The line that the words choose.
pub(crate) fn wire_said(words: &[&str]) -> Option<Wire> {
    match words {
        ["line", "direct"] => Some(Wire::straight()),
        ["line", "leaky", pattern] => Some(Wire::lossy(pattern_in(pattern)?)),
        _ => None,
    }
}
