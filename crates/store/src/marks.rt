//! The waiting list.
ghost use Rattle.std.specs.Prelude.{◌≡◌, ℕ, ◌+◌, ◌-◌, ◌*◌, ◌/◌, ◌%◌, ◌^◌, ◌<◌, ◌≤◌, true, length};
ghost use Rattle.machine.specs.Waiting.{put_waiting, put_all};
ghost use Rattle.machine.specs.Rounds.{enter, trace_call};
ghost use Rattle.store.specs.Model.{given, within, sweeping};
ghost use Rattle.store.specs.World.{world};

use crate::parts::{pale, pop, push, view_of};
use crate::records::{blacken, greyen};
use crate::whole::Store;
use machine::types::{Cell, Phase};
use refusal::Refusal;

impl<C: Copy> Store<'_, C> {
    pub(crate) fn put_waiting(&mut self, v: Option<u16>)
        ensures { world self.new ≡ put_waiting (world self.old) v }
    {
        let Some(x) = v else {
            return;
        };
        let marked = self.state.marked;
        let cell = self.at(x);
        if !pale(marked, cell) {
            return;
        }
        greyen(self.cells, x, marked);
        push(&mut self.waiting, x);
    }

    // Puts the names on the waiting list one after the other, the first first: a card's places, or a record's links.
    pub(crate) fn put_all(&mut self, vs: &[Option<u16>])
        ensures { world self.new ≡ put_all (world self.old) vs.now }
    {
        for v in vs {
            self.put_waiting(*v);
        }
    }

    pub(crate) fn enter(&mut self, p: Phase)
        requires next { given p ≡ given self.old.state.phase + 1 }
        requires room { self.old.state.rounds + within p ≤ 1073741823 }
        requires unswept { sweeping p ≡ 0 }
        ensures { world self.new ≡ enter (world self.old) p }
    {
        self.state.phase = p;
        self.state.order += 1;
        self.state.answered = [false; 8];
    }

    /// Marks the first waiting record and puts what it names on the waiting list. Answers its serial, or 0.
    pub fn trace(&mut self) -> Result<u32, Refusal>
        ensures { (result, world self.new) ≡ trace_call (world self.old) }
    {
        let Phase::Trace = self.state.phase else {
            return Err(Refusal::WrongPhase);
        };
        let Some(k) = pop(&mut self.waiting) else {
            self.enter(Phase::Ease);
            return Ok(0);
        };
        let cell = self.at(k);
        let marked = self.state.marked;
        blacken(self.cells, k, marked);
        let Some(r) = cell else {
            return Ok(0);
        };
        let view = view_of(r);
        self.put_all(&view);
        Ok(r.serial)
    }
}
