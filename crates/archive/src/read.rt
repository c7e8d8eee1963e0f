//! Reading an archive: a check that refuses, and then a making that cannot.
ghost use Rattle.std.specs.Prelude.{◌≡◌, ◌/◌, length, IfOk, IfErr};
ghost use Rattle.std.specs.Result.{result_err};
ghost use Rattle.store.specs.World.{world};
ghost use Rattle.archive.specs.Rules.{refusal_of};
ghost use Rattle.archive.specs.Reading.{world_in};
ghost use Rattle.archive.specs.Checked.{Checked, Tells};
ghost use Rattle.archive.specs.Ready.{Ready};
ghost use Rattle.store.specs.Restored.{Fitting, Counted, Listed, restored};

use crate::bytes::unnamed;
use crate::pages::Pages;
use crate::reading::Reading;
use crate::rules::checks_right;
use arrayvec::ArrayVec;
use contents::Contents;
use machine::types::Cell;
use refusal::Refusal;
use std::alloc::Global;
use store::{Lists, NotMade, Restore, Stock, Store, Why};

// The bytes as an archive that can be read into tables of these lengths, or what that is refused with.
#[tactic(auto, unfolding(crate::specs::Rules::refusal_of))]
fn readable<C: Contents>(bytes: &[u8], cells: usize, contents: usize) -> Result<Pages<'_>, Refusal>
    ensures is { result_err result ≡ refusal_of C.CODE C.read bytes.now cells contents }
    ensures same { IfOk result (λ p. (p.bytes.now ≡ bytes.now) × (cells ≡ p.head.cells) × (contents ≡ p.head.cells)) }
{
    if bytes.is_empty() || bytes.len() % 512 != 0 {
        return Err(Refusal::BadLength);
    }
    if !checks_right(bytes) {
        return Err(Refusal::BadCheck);
    }
    let pages = Pages::archive::<C>(bytes).ok_or(Refusal::BadArchive)?;
    let n = pages.head.cells as usize;
    if cells != n || contents != n {
        return Err(Refusal::OutOfRange);
    }
    Ok(pages)
}

// The same, with memory for the lists of the store.
fn ready<C: Contents>(
    heap: Global,
    bytes: &[u8],
    cells: usize,
    contents: usize,
) -> Result<(Pages<'_>, Lists), Why>
    ensures ready { IfOk result (λ r. Ready C.CODE C.read bytes.now cells contents r.0 r.1) }
    ensures refused { IfErr result (λ why. Tells why (refusal_of C.CODE C.read bytes.now cells contents)) }
{
    let pages = readable::<C>(bytes, cells, contents)?;
    Ok((pages, Lists::with_room(heap, cells)?))
}

impl<'a, 'b, C: Contents> Reading<'a, 'b, C> {
    /// Checks the bytes of an archive and the two tables that its store is to be read into. Nothing is written; where the
    /// archive cannot be read the tables are handed back.
    pub fn check(
        heap: Global,
        bytes: &'b [u8],
        cells: &'a mut [Cell],
        contents: &'a mut [C],
    ) -> Result<Reading<'a, 'b, C>, NotMade<'a, C>>
        ensures { Checked C.CODE C.read bytes.now cells.old contents.old result }
    {
        match ready::<C>(heap, bytes, cells.len(), contents.len()) {
            Ok((pages, lists)) => Ok(Reading {
                pages,
                cells,
                contents,
                lists,
            }),
            Err(why) => Err(NotMade {
                why,
                cells,
                contents,
            }),
        }
    }

    /// The number of the archive's blocks.
    pub fn blocks(&self) -> u32
        ensures { result ≡ length self.now.pages.bytes.now / 512 }
    {
        (self.pages.bytes.len() / 512) as u32
    }

    // Fills the tables and lists what else the store is made of.
    fn stock(self) -> Stock<'a, C>
        ensures is { restored result ≡ world_in C.read self.entry.pages.bytes.now self.entry.contents.now }
        ensures fitting { Fitting result }
        ensures counted { Counted result }
        ensures listed { Listed result }
    {
        let Reading {
            pages,
            cells,
            contents,
            lists,
        } = self;
        let Lists { mut free, waiting } = lists;
        pages.fill_cells(cells);
        pages.fill_contents(contents);
        pages.list_chain(unnamed(pages.head.first), pages.count_free(), &mut free);
        let mut cards = ArrayVec::from(pages.cards());
        cards.truncate(pages.head.cards as usize);
        Stock {
            cells,
            contents,
            cards,
            free,
            waiting,
            next: pages.head.next,
            rounds: pages.head.rounds,
        }
    }

    /// Fills the tables and makes the store. It cannot fail.
    pub fn make(self) -> Store<'a, C>
        ensures { world result ≡ world_in C.read self.entry.pages.bytes.now self.entry.contents.now }
    {
        Restore {
            stock: self.stock(),
        }
        .make()
    }
}

#[cfg(test)]
mod tests {
    use super::*;
    use crate::write::write_archive;
    use contents::{Effect, Event};
    use std::test::Fail;
    use store::Plan;

    // Reads an archive of two cells and writes the store again.
    fn again(heap: Global, bytes: &[u8], blank: Effect, out: &mut [u8]) -> bool {
        let mut cells = [None; 2];
        let mut contents = [blank; 2];
        let Ok(reading) = Reading::check(heap, bytes, &mut cells, &mut contents) else {
            return false;
        };
        let blocks = reading.blocks();
        let store = reading.make();
        match write_archive(&store, out) {
            Ok(n) => n == blocks,
            Err(_) => false,
        }
    }

    #[test]
    fn effects_come_back(rt: HostRuntime) -> Result<(), Fail> {
        let Ok(blank) = Effect::new(64, 600) else {
            return Err(Fail::new("relay 64 was refused"));
        };
        let mut cells = [None; 2];
        let mut contents = [blank; 2];
        let Ok(plan) = Plan::check(rt.alloc(), &mut cells, &mut contents, 1, 1, 0) else {
            return Err(Fail::new("no store was made"));
        };
        let store = plan.make(blank);
        let mut out = [0u8; 1024];
        assert!(rt; write_archive(&store, &mut out).is_ok());
        let mut other = [0u8; 1024];
        assert!(rt; again(rt.alloc(), &out, blank, &mut other));
        assert!(rt; out == other);
        Ok(())
    }

    #[test]
    fn a_changed_byte_is_found(rt: HostRuntime) -> Result<(), Fail> {
        let Ok(blank) = Event::new(7, 1, 1, 1) else {
            return Err(Fail::new("device 1 was refused"));
        };
        let mut cells = [None; 3];
        let mut contents = [blank; 3];
        let Ok(plan) = Plan::check(rt.alloc(), &mut cells, &mut contents, 2, 5, 3) else {
            return Err(Fail::new("no store was made"));
        };
        let store = plan.make(blank);
        let mut out = [0u8; 1024];
        assert!(rt; write_archive(&store, &mut out).is_ok());
        out[600] = 1;
        let mut cells = [None; 3];
        let mut contents = [blank; 3];
        match Reading::check(rt.alloc(), &out, &mut cells, &mut contents) {
            Ok(_) => Err(Fail::new("a changed byte was not found")),
            Err(e) => match e.why {
                Why::NoMemory => Err(Fail::new("no memory")),
                Why::Refused(r) => {
                    assert_eq!(rt; r.number(), 12);
                    Ok(())
                },
            },
        }
    }
}
