//! The answers to a script that need no store.
use crate::desk::Desk;
use crate::makes::{Unmade, Wanted, wanted_said, wire_said};
use crate::picture::show_store;
use crate::said::{Spoken, call_said};
use crate::source::Item;
use crate::told::Told;
use crate::unheard::Unheard;
use crate::wire::Wire;
use contents::{Effect, Event};
use std::alloc::Global;
use std::fmt::Display;
use store::Store;

/// What outlasts the stores of a script: where it is answered, and the line that it has chosen.
#[derive(Clone, Copy)]
pub struct Player<'a> {
    pub(crate) desk: Desk<'a>,
    pub(crate) wire: Wire,
}

impl<'a> Player<'a> {
    pub(crate) fn new(desk: Desk<'a>) -> Self {
        Player {
            desk,
            wire: Wire::straight(),
        }
    }

    pub(crate) fn heap(&self) -> Global {
        self.desk.rt.alloc()
    }

    pub(crate) fn answer<T: Display + Drop>(&self, words: &str, answer: T) -> anyhow::Result<()> {
        self.desk.answer(words, answer)
    }

    pub(crate) fn show<C: Copy>(&self, store: &Store<'_, C>) -> anyhow::Result<()> {
        show_store(self.desk.rt, store)
    }

    // Takes an item while there is no store; answers the store that it makes.
    pub(crate) fn take_early(&mut self, item: Item<'_>) -> anyhow::Result<Option<Wanted>> {
        let Item::Words(text) = item else {
            self.tell_aside(item)?;
            return Ok(None);
        };
        let line = Spoken::of(self.heap(), text)?;
        if line.words.is_empty() {
            return Ok(None);
        }
        if wants_store(line.words.as_slice()) {
            self.answer(line.shown.as_str(), "no store")?;
            return Ok(None);
        }
        self.take_other(&line)
    }

    // Tells what an item says that is no line of words.
    pub(crate) fn tell_aside(&self, item: Item<'_>) -> anyhow::Result<()> {
        match item {
            Item::Words(_) => {}
            Item::Sentence(text) => println!(self.desk.rt; "{text}")?,
            Item::Bad(number, bad) => println!(self.desk.rt; "line {number}: {bad}")?,
        }
        Ok(())
    }

    // Answers a line that is no call: it makes a store, chooses a line, or is not understood.
    pub(crate) fn take_other(&mut self, line: &Spoken<'_>) -> anyhow::Result<Option<Wanted>> {
        let words = line.words.as_slice();
        let shown = line.shown.as_str();
        if let Some(chosen) = wire_said(words) {
            self.wire = chosen;
            self.answer(shown, "ready")?;
            return Ok(None);
        }
        match wanted_said(self.heap(), words) {
            Ok(wanted) => {
                self.answer(shown, "made")?;
                Ok(Some(wanted))
            }
            Err(Unmade::Unheard(unheard)) => {
                self.answer(shown, unheard)?;
                Ok(None)
            }
            Err(Unmade::Failed(error)) => Err(error),
        }
    }
}

// Whether the words are a call on a store of some kind, or ask for its state.
fn wants_store(words: &[&str]) -> bool {
    matches!(words, ["state"]) || is_call::<Event>(words) || is_call::<Effect>(words)
}

fn is_call<C: Told>(words: &[&str]) -> bool {
    !matches!(call_said::<C>(words), Err(Unheard::Unknown))
}
