//! A store as it is made.
ghost use Rattle.std.specs.Prelude.{false, ◌≡◌, ℕ, ◌+◌, ◌-◌, ◌*◌, ◌/◌, ◌%◌, ◌^◌, ◌<◌, ◌≤◌, [], IfOk, IfErr, length, replicate, vec_len, vec_capacity};
ghost use Rattle.machine.specs.World.{count_up, fresh_card};
ghost use Rattle.store.specs.Model.{stack};
ghost use Rattle.store.specs.Ready.{RoomFor, bad_tables, bad_numbers, unfit};
ghost use Rattle.store.specs.Making.{Checked, Tells, asked, made_of};
ghost use Rattle.store.specs.World.{world};

use crate::lists::Lists;
use crate::parts::{newborn, push};
use crate::plan::{NotMade, Plan};
use crate::size::Size;
use crate::types::RoundState;
use crate::whole::Store;
use arrayvec::ArrayVec;
use machine::types::{Card, Cell, Colour};
use std::alloc::Global;

// kept: the library's `fill` gives each cell a copy, and took up to 1.8 times as long.
fn clear_cells(cells: &mut [Cell])
    ensures { cells.new ≡ replicate (length cells.old) None }
{
    for cell in cells.iter_mut() {
        *cell = None;
    }
}

fn fresh_card(rounds: u32) -> Card
    requires { rounds ≤ 1073741823 }
    ensures { result ≡ fresh_card rounds }
{
    Card {
        places: [Some(0), None, None, None, None, None, None, None],
        snoop: false,
        logging: false,
        birth: Colour::Zero,
        last: 4 * rounds,
        update: None,
    }
}

fn fill_free(free: &mut Vec<u16>, n: usize)
    requires some { 1 ≤ n }
    requires most { n ≤ 4096 }
    requires room { n ≤ vec_capacity free.old }
    requires empty { vec_len free.old ≡ 0 }
    ensures does { stack free.new ≡ count_up 1 (n - 1) }
    ensures len { vec_len free.new ≡ n - 1 }
    ensures capacity { n ≤ vec_capacity free.new }
{
    for k in (1..n as u16).rev() {
        push(free, k);
    }
}

impl<'a, C: Copy> Plan<'a, C> {
    /// Checks what a store is to be made of: its two tables, the number of cards, the first serial and the closed rounds.
    /// Nothing is written; where no store can be made the tables are handed back.
    pub fn check(
        heap: Global,
        cells: &'a mut [Cell],
        contents: &'a mut [C],
        cards: u8,
        first: u32,
        rounds: u32,
    ) -> Result<Plan<'a, C>, NotMade<'a, C>>
        ensures { Checked (record { cells = cells.old; contents = contents.old; cards = cards; first = first; rounds = rounds }) result }
    {
        let size = Size {
            cells: cells.len(),
            contents: contents.len(),
            cards,
            first,
            rounds,
        };
        match size.lists(heap) {
            Ok(lists) => Ok(Plan {
                cells,
                contents,
                cards,
                first,
                rounds,
                lists,
            }),
            Err(why) => Err(NotMade {
                why,
                cells,
                contents,
            }),
        }
    }

    /// Makes the store, with these contents for its index record. It cannot fail.
    pub fn make(self, index: C) -> Store<'a, C>
        ensures { world result ≡ made_of (asked self.entry) index }
    {
        let Plan {
            cells,
            contents,
            cards,
            first,
            rounds,
            lists,
        } = self;
        let Lists { mut free, waiting } = lists;
        fill_free(&mut free, cells.len());
        clear_cells(cells);
        cells[0] = Some(newborn(first, Colour::Zero));
        contents[0] = index;
        let mut all = ArrayVec::from([fresh_card(rounds); 8]);
        all.truncate(cards as usize);
        Store {
            cells,
            contents,
            cards: all,
            free,
            waiting,
            state: RoundState::at_rest(first + 1, rounds),
        }
    }
}
