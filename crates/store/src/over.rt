//! The calls over a line.
ghost use Rattle.std.specs.Prelude.{◌≡◌, ℕ, ◌+◌, ◌-◌, ◌*◌, ◌/◌, ◌%◌, ◌^◌, ◌<◌, ◌≤◌, true, length, Some};
ghost use Rattle.machine.specs.Rounds.{obey, ordering, leave_gather, start_sweep, all_of, everyone, answered_by, hear_done};
ghost use Rattle.machine.specs.Waiting.{put_all, snooped_names};
ghost use Rattle.store.specs.World.{world};
ghost use Rattle.store.specs.Over.{KnocksBy, AttendsBy, HearsBy};

use crate::parts::{heed_order, idle, ordering, snooped_name, within};
use crate::records::unsnoop_all;
use crate::whole::Store;
use line::Line;
use machine::types::Phase;
use refusal::Refusal;

// kept: three steps are of a card that a call has found known; a type of known cards would have to borrow them.
// kept: a call is lent the line, which is not the store's, and is given any card number.
impl<C: Copy> Store<'_, C> {
    fn obey(&mut self, c: u8, n: u32)
        requires { c < length (world self.old).cards }
        ensures { world self.new ≡ obey (world self.old) c n }
    {
        let card = self.cards[c as usize];
        heed_order(&mut self.cards, c, self.state.marked, n);
        if n % 4 == 3 {
            self.put_all(&card.places);
        }
    }

    /// Card c fetches an order, obeys it if it is the next one, and replies. Answers the number replied, or 0.
    pub fn attend<L: Line>(&mut self, c: u8, line: &mut L) -> Result<u32, Refusal>
        ensures { AttendsBy L.Line.fetches L.Line.replies c (world self.old) line.old result (world self.new) line.new }
    {
        within(c, self.cards.len(), Refusal::NoCard)?;
        let card = self.cards[c as usize];
        idle(&card)?;
        let Some(n) = line.fetch(c) else {
            return Ok(0);
        };
        if n <= card.last {
            line.reply(c, n);
            return Ok(n);
        }
        if n - card.last > 1 {
            return Ok(0);
        }
        self.obey(c, n);
        line.reply(c, n);
        Ok(n)
    }

    /// Sends card c the order number, and answers it.
    pub fn knock<L: Line>(&self, c: u8, line: &mut L) -> Result<u32, Refusal>
        ensures { KnocksBy L.Line.sends c (world self.now) line.old result line.new }
    {
        within(c, self.cards.len(), Refusal::NoCard)?;
        if !ordering(self.state.phase) {
            return Err(Refusal::WrongPhase);
        }
        let number = self.state.order;
        line.send(c, number);
        Ok(number)
    }

    fn gather_snooped(&mut self)
        ensures { world self.new ≡ put_all (world self.old) (snooped_names 0 self.old.cells.now) }
    {
        let n = self.cells.len() as u16;
        // kept: each turn writes the table that it walks, so nothing may borrow the table while the loop goes on.
        for i in 0..n {
            let v = snooped_name(self.at(i), i);
            self.put_waiting(v);
        }
    }

    fn leave_gather(&mut self)
        requires { self.old.state.phase ≡ Phase.Gather }
        ensures { world self.new ≡ leave_gather (world self.old) }
    {
        self.gather_snooped();
        unsnoop_all(self.cells);
        self.state.phase = Phase::Trace;
    }

    fn all_answered(&self) -> bool
        ensures { result ≡ all_of (length (world self.now).cards) (world self.now).answered }
    {
        self.state.answered[..self.cards.len()].iter().all(|a| *a)
    }

    // Card c has answered; whether all have.
    fn answered(&mut self, c: u8) -> bool
        requires { c < length (world self.old).cards }
        ensures does { world self.new ≡ answered_by (world self.old) c }
        ensures all { result ≡ everyone (world self.new) }
    {
        self.state.answered[c as usize] = true;
        self.all_answered()
    }

    fn start_sweep(&mut self)
        requires { self.old.state.phase ≡ Phase.Ease }
        ensures { world self.new ≡ start_sweep (world self.old) }
    {
        self.state.phase = Phase::Sweep;
        self.state.sweep = 0;
    }

    // The collector's step on a reply of card c: the phase and whether the reply is to the order of now decide together.
    // kept: the rules of the project name this form, the collector's own phase matched together with the reply's number.
    fn step(&mut self, c: u8, n: u32)
        requires card { c < length (world self.old).cards }
        requires phase { ordering self.old.state.phase ≡ true }
        ensures { world self.new ≡ hear_done (world self.old) c (Some n) }
    {
        match (self.state.phase, n == self.state.order) {
            (Phase::Alert, true) => {
                if self.answered(c) {
                    self.enter(Phase::Log);
                }
            }
            (Phase::Log, true) => {
                if self.answered(c) {
                    self.enter(Phase::Gather);
                }
            }
            (Phase::Gather, true) => {
                if self.answered(c) {
                    self.leave_gather();
                }
            }
            (Phase::Ease, true) => {
                if self.answered(c) {
                    self.start_sweep();
                }
            }
            (_, _) => {}
        }
    }

    /// Collects a reply of card c; when the last card has answered, the phase moves on. Answers the number, or 0.
    pub fn hear<L: Line>(&mut self, c: u8, line: &mut L) -> Result<u32, Refusal>
        ensures { HearsBy L.Line.collects c (world self.old) line.old result (world self.new) line.new }
    {
        within(c, self.cards.len(), Refusal::NoCard)?;
        if !ordering(self.state.phase) {
            return Err(Refusal::WrongPhase);
        }
        let Some(n) = line.collect(c) else {
            return Ok(0);
        };
        self.step(c, n);
        Ok(n)
    }
}
