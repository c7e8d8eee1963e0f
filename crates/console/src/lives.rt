//! The lives of the stores of a script: each from its making to the next making, or to the end of the script.
use crate::batch::Batch;
use crate::desk::Desk;
use crate::makes::{Tables, Wanted, no_memory};
use crate::player::Player;
use crate::said::{Spoken, call_said};
use crate::source::{Item, Source};
use crate::told::Told;
use crate::unheard::Unheard;
use promises::begin;
use std::alloc::Global;
use store::Store;

/// A store that a script plays on, and its calls that are not played yet.
#[derive(Drop)]
struct Life<'p, 'd, 's, C: Copy> {
    player: &'p mut Player<'d>,
    store: Store<'s, C>,
    batch: Batch<C>,
}

// Plays a script from its beginning to its end.
pub(crate) fn live<S: Source>(desk: Desk<'_>, source: &mut S) -> anyhow::Result<()> {
    let mut player = Player::new(desk);
    let mut wanted = until_made(source, |item| player.take_early(item))?;
    // kept: a loop over input has no measure but a count; how many stores a script makes is known by reading it alone
    for _ in 0..u64::MAX {
        wanted = match wanted {
            None => return Ok(()),
            Some(Wanted::Events(tables)) => with_store(&mut player, source, tables)?,
            Some(Wanted::Effects(tables)) => with_store(&mut player, source, tables)?,
        };
    }
    Ok(())
}

// Takes items until one makes a store; answers which.
fn until_made<S: Source, F: FnMut(Item<'_>) -> anyhow::Result<Option<Wanted>>>(
    source: &mut S,
    mut take: F,
) -> anyhow::Result<Option<Wanted>>
    requires { F.IsAlwaysCallable take }
{
    // kept: a loop over input has no measure but a count, and an item lends its line, which an iterator's items cannot
    for _ in 0..u64::MAX {
        let Some(item) = source.next_item()? else {
            return Ok(None);
        };
        if let Some(wanted) = take(item)? {
            return Ok(Some(wanted));
        }
    }
    Ok(None)
}

// Makes a store over the tables and plays on it until the next one is wanted; answers which.
fn with_store<C: Told, S: Source>(
    player: &mut Player<'_>,
    source: &mut S,
    mut tables: Tables<C>,
) -> anyhow::Result<Option<Wanted>> {
    let heap = player.heap();
    let index = tables.index();
    let Ok(plan) = tables.plan(heap) else {
        return Err(no_memory());
    };
    let mut life = Life::new(heap, player, begin(plan, index));
    let wanted = until_made(source, |item| life.take_item(item))?;
    life.flush()?;
    Ok(wanted)
}

impl<'p, 'd, 's, C: Told> Life<'p, 'd, 's, C> {
    fn new(heap: Global, player: &'p mut Player<'d>, store: Store<'s, C>) -> Self {
        Life {
            player,
            store,
            batch: Batch::new(heap),
        }
    }

    fn flush(&mut self) -> anyhow::Result<()> {
        self.batch.flush(self.player, &mut self.store)
    }

    fn take_item(&mut self, item: Item<'_>) -> anyhow::Result<Option<Wanted>> {
        let Item::Words(text) = item else {
            self.flush()?;
            self.player.tell_aside(item)?;
            return Ok(None);
        };
        let line = Spoken::of(self.player.heap(), text)?;
        if line.words.is_empty() {
            return Ok(None);
        }
        self.take_line(line)
    }

    // Collects the call that a line says, or plays what was collected and then answers the line.
    fn take_line(&mut self, line: Spoken<'_>) -> anyhow::Result<Option<Wanted>> {
        match call_said(line.words.as_slice()) {
            Ok(call) => {
                self.batch.add(call, line.shown)?;
                if self.batch.is_full() {
                    self.flush()?;
                }
                Ok(None)
            }
            Err(Unheard::Unknown) => {
                self.flush()?;
                self.take_other(&line)
            }
            Err(refused) => {
                self.flush()?;
                self.player.answer(line.shown.as_str(), refused)?;
                Ok(None)
            }
        }
    }

    // Answers a line that is no call.
    fn take_other(&mut self, line: &Spoken<'_>) -> anyhow::Result<Option<Wanted>> {
        if let ["state"] = line.words.as_slice() {
            self.player.show(&self.store)?;
            return Ok(None);
        }
        self.player.take_other(line)
    }
}
