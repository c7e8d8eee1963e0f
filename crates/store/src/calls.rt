//! The eight calls of a card. Each is the definition of its name in the machine's specs, refusals in the table's order.
ghost use Rattle.std.specs.Prelude.{◌≡◌, ℕ, ◌+◌, ◌-◌, ◌*◌, ◌/◌, ◌%◌, ◌^◌, ◌<◌, ◌≤◌, not, ◌&&◌, length, is_some, if◌then◌else◌, Some, None};
ghost use Rattle.std.specs.Option.{option_and_then};
ghost use Rattle.machine.specs.World.{at, named, serial_of, read_all, same_colour};
ghost use Rattle.machine.specs.Cards.{drop_call, load_call, copy_call, new_call, read_call, look_call, note_call, store_call};
ghost use Rattle.store.specs.World.{world};

use crate::parts::{idle, newborn, noted, pop, put, set_place, set_update, within};
use crate::records::{log, relink, snoop_on};
use crate::whole::Store;
use machine::types::{Cell, Record, Stage, Update};
use refusal::Refusal;

// kept: card, place and link are plain numbers, since a call may be given any and answers each with a refusal of its own.
impl<C: Copy> Store<'_, C> {
    // Cell x; past the table there is nothing but free cells.
    pub(crate) fn at(&self, x: u16) -> Cell
        ensures { result ≡ at (world self.now) x }
    {
        *self.cells.get(x as usize)?
    }

    // The record that a name names.
    fn record(&self, v: Option<u16>) -> Option<Record>
        ensures { result ≡ option_and_then (at (world self.now)) v }
    {
        self.at(v?)
    }

    // A name as it is read.
    fn named(&self, v: Option<u16>) -> Option<u16>
        ensures { result ≡ named (world self.now) v }
    {
        self.record(v).and(v)
    }

    // kept: the rules have calls answer 0 where there is no record.
    fn serial_of(&self, v: Option<u16>) -> u32
        ensures { result ≡ serial_of (world self.now) v }
    {
        self.record(v).map_or(0, |r| r.serial)
    }

    /// Place p becomes blank. Answers 0.
    pub fn drop_place(&mut self, c: u8, p: u8) -> Result<u32, Refusal>
        ensures { (result, world self.new) ≡ drop_call (world self.old) c p }
    {
        within(c, self.cards.len(), Refusal::NoCard)?;
        within(p, 8, Refusal::NoPlace)?;
        idle(&self.cards[c as usize])?;
        set_place(&mut self.cards, c, p, None);
        Ok(0)
    }

    /// Link i of the record in place p goes into place q. Answers the serial then in q, or 0.
    pub fn load(&mut self, c: u8, p: u8, i: u8, q: u8) -> Result<u32, Refusal>
        ensures { (result, world self.new) ≡ load_call (world self.old) c p i q }
    {
        within(c, self.cards.len(), Refusal::NoCard)?;
        within(p, 8, Refusal::NoPlace)?;
        within(q, 8, Refusal::NoPlace)?;
        within(i, 4, Refusal::NoLink)?;
        idle(&self.cards[c as usize])?;
        let r = self
            .record(self.cards[c as usize].places[p as usize])
            .ok_or(Refusal::Blank)?;
        let v = self.named(r.links[i as usize]);
        let serial = self.serial_of(v);
        set_place(&mut self.cards, c, q, v);
        Ok(serial)
    }

    /// A new record with contents x in place p of card c. Answers its serial.
    pub fn new(&mut self, c: u8, p: u8, x: C) -> Result<u32, Refusal>
        ensures { (result, world self.new) ≡ new_call (world self.old) c p x }
    {
        within(c, self.cards.len(), Refusal::NoCard)?;
        within(p, 8, Refusal::NoPlace)?;
        idle(&self.cards[c as usize])?;
        let serial = self.state.next;
        if serial == u32::MAX {
            return Err(Refusal::Exhausted);
        }
        let k = pop(&mut self.free).ok_or(Refusal::NoCell)?;
        let record = newborn(serial, self.cards[c as usize].birth);
        put(self.cells, k as usize, Some(record));
        put(self.contents, k as usize, x);
        set_place(&mut self.cards, c, p, Some(k));
        self.state.next = serial + 1;
        Ok(serial)
    }

    fn read_links(&self, r: Record) -> [Option<u16>; 4]
        ensures { result ≡ read_all (world self.now) r.links }
    {
        r.links.map(
            |name| -> Option<u16>
                ensures { result ≡ named (world self.entry.now) name }
            { self.named(name) },
        )
    }

    // what a look keeps of the links of r
    fn draft(&self, logging: bool, r: Record) -> Option<[Option<u16>; 4]>
        ensures { result ≡ (if logging && not (same_colour r.colour self.now.state.marked) && not (is_some r.log) then Some (read_all (world self.now) r.links) else None) }
    {
        if logging && r.colour != self.state.marked && r.log.is_none() {
            Some(self.read_links(r))
        } else {
            None
        }
    }

    /// Takes an update in hand: link i of the record in place p is to become what place q holds. Answers 0.
    pub fn look(&mut self, c: u8, p: u8, i: u8, q: u8) -> Result<u32, Refusal>
        ensures { (result, world self.new) ≡ look_call (world self.old) c p i q }
    {
        within(c, self.cards.len(), Refusal::NoCard)?;
        within(p, 8, Refusal::NoPlace)?;
        within(q, 8, Refusal::NoPlace)?;
        within(i, 4, Refusal::NoLink)?;
        let card = self.cards[c as usize];
        idle(&card)?;
        let y = card.places[p as usize].ok_or(Refusal::Blank)?;
        let r = self.at(y).ok_or(Refusal::Blank)?;
        let update = Update {
            cell: y,
            link: i,
            target: self.named(card.places[q as usize]),
            stage: Stage::Looked(self.draft(card.logging, r)),
        };
        set_update(&mut self.cards, c, Some(update));
        Ok(0)
    }

    /// Makes the record of the update in hand logged, where its draft is wanted. Answers 0.
    pub fn note(&mut self, c: u8) -> Result<u32, Refusal>
        ensures { (result, world self.new) ≡ note_call (world self.old) c }
    {
        within(c, self.cards.len(), Refusal::NoCard)?;
        let u = self.cards[c as usize].update.ok_or(Refusal::NoUpdate)?;
        let Stage::Looked(draft) = u.stage else {
            return Err(Refusal::NoUpdate);
        };
        log(self.cells, u.cell, draft);
        set_update(&mut self.cards, c, Some(noted(u)));
        Ok(0)
    }

    /// Sets the link of the update in hand and ends the update. Answers the target's serial, or 0.
    pub fn store(&mut self, c: u8) -> Result<u32, Refusal>
        ensures { (result, world self.new) ≡ store_call (world self.old) c }
    {
        within(c, self.cards.len(), Refusal::NoCard)?;
        let card = self.cards[c as usize];
        let u = card.update.ok_or(Refusal::NoUpdate)?;
        let Stage::Noted = u.stage else {
            return Err(Refusal::NoUpdate);
        };
        let t = self.named(u.target);
        let serial = self.serial_of(t);
        relink(self.cells, u.cell, u.link, t);
        snoop_on(self.cells, card.snoop, t);
        set_update(&mut self.cards, c, None);
        Ok(serial)
    }

    /// Place p goes into place q. Answers the serial then in q, or 0.
    pub fn copy(&mut self, c: u8, p: u8, q: u8) -> Result<u32, Refusal>
        ensures { (result, world self.new) ≡ copy_call (world self.old) c p q }
    {
        within(c, self.cards.len(), Refusal::NoCard)?;
        within(p, 8, Refusal::NoPlace)?;
        within(q, 8, Refusal::NoPlace)?;
        idle(&self.cards[c as usize])?;
        let v = self.named(self.cards[c as usize].places[p as usize]);
        let serial = self.serial_of(v);
        set_place(&mut self.cards, c, q, v);
        Ok(serial)
    }

    /// The serial and the contents of the record in place p.
    pub fn read(&self, c: u8, p: u8) -> Result<(u32, C), Refusal>
        ensures { result ≡ read_call (world self.now) c p }
    {
        within(c, self.cards.len(), Refusal::NoCard)?;
        within(p, 8, Refusal::NoPlace)?;
        let y = self.cards[c as usize].places[p as usize].ok_or(Refusal::Blank)?;
        let r = self.at(y).ok_or(Refusal::Blank)?;
        let contents = self.contents.get(y as usize).copied();
        Ok((r.serial, contents.ok_or(Refusal::Blank)?))
    }
}
