//! The calls of a round that go over no line.
ghost use Rattle.std.specs.Prelude.{◌≡◌, ℕ, ◌+◌, ◌-◌, ◌*◌, ◌/◌, ◌%◌, ◌^◌, ◌<◌, ◌≤◌, true, length, Some, None};
ghost use Rattle.machine.specs.World.{at};
ghost use Rattle.machine.specs.Rounds.{open_call, sweep_call, settle_call};
ghost use Rattle.store.specs.World.{world};

use crate::parts::{after_sweep, other, pale, push};
use crate::records::unlog_all;
use crate::types::LAST_ROUND;
use crate::whole::Store;
use machine::types::{Cell, Phase};
use refusal::Refusal;

impl<C: Copy> Store<'_, C> {
    /// Opens a round. Answers the order number.
    pub fn open(&mut self) -> Result<u32, Refusal>
        ensures { (result, world self.new) ≡ open_call (world self.old) }
    {
        let Phase::Rest = self.state.phase else {
            return Err(Refusal::WrongPhase);
        };
        if self.state.rounds == LAST_ROUND {
            return Err(Refusal::Exhausted);
        }
        self.state.marked = other(self.state.marked);
        self.enter(Phase::Alert);
        Ok(self.state.order)
    }

    /// Frees the record in the sweep cell unless it is marked or waiting. Answers its serial, or 0.
    pub fn sweep(&mut self) -> Result<u32, Refusal>
        ensures { (result, world self.new) ≡ sweep_call (world self.old) }
    {
        let Phase::Sweep = self.state.phase else {
            return Err(Refusal::WrongPhase);
        };
        let x = self.state.sweep;
        let cell = self.cells[x as usize];
        let go = pale(self.state.marked, cell);
        self.state.sweep = x + 1;
        self.state.phase = after_sweep(self.cells.len(), x);
        let Some(r) = cell else {
            return Ok(0);
        };
        if !go {
            return Ok(0);
        }
        self.cells[x as usize] = None;
        push(&mut self.free, x);
        Ok(r.serial)
    }

    /// Closes the round. Answers 0.
    pub fn settle(&mut self) -> Result<u32, Refusal>
        ensures { (result, world self.new) ≡ settle_call (world self.old) }
    {
        let Phase::Settle = self.state.phase else {
            return Err(Refusal::WrongPhase);
        };
        unlog_all(self.cells);
        self.state.rounds += 1;
        self.state.phase = Phase::Rest;
        Ok(0)
    }
}
