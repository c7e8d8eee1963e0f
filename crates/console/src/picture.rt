//! The whole store as text.
use machine::types::{Card, Record, Stage, Update};
use std::fmt;
use std::fmt::Display;
use store::{RoundState, Store};

/// What may be missing; a dash stands for it.
#[derive(Clone, Copy)]
struct OrDash<T>(Option<T>);

impl<T: Display> Display for OrDash<T> {
    fn fmt<W: fmt::Write>(&self, f: &mut fmt::Formatter<W>) -> fmt::Result {
        match &self.0 {
            Some(x) => write!(f, "{x}"),
            None => write!(f, "-"),
        }
    }
}

/// Items with a space between them, or a dash where there is none.
#[derive(Clone, Copy)]
struct Listed<'a, T>(&'a [T]);

impl<T: Display> Display for Listed<'_, T> {
    fn fmt<W: fmt::Write>(&self, f: &mut fmt::Formatter<W>) -> fmt::Result {
        let Some((first, others)) = self.0.split_first() else {
            return write!(f, "-");
        };
        write!(f, "{first}")?;
        for item in others {
            write!(f, " {item}")?;
        }
        Ok(())
    }
}

/// The links of a record.
#[derive(Clone, Copy)]
struct Links([Option<u16>; 4]);

impl Display for Links {
    fn fmt<W: fmt::Write>(&self, f: &mut fmt::Formatter<W>) -> fmt::Result {
        let names = self.0.map(OrDash);
        let links = Listed(&names);
        write!(f, "{links}")
    }
}

/// A part of the store, as the picture shows it.
#[derive(Clone, Copy)]
struct Shown<T>(T);

impl Display for Shown<bool> {
    fn fmt<W: fmt::Write>(&self, f: &mut fmt::Formatter<W>) -> fmt::Result {
        write!(f, "{}", if self.0 { "on" } else { "off" })
    }
}

impl Display for Shown<Update> {
    fn fmt<W: fmt::Write>(&self, f: &mut fmt::Formatter<W>) -> fmt::Result {
        let Update {
            cell,
            link,
            target,
            stage,
        } = self.0;
        let target = OrDash(target);
        match stage {
            Stage::Looked(draft) => {
                let draft = OrDash(draft.map(Links));
                write!(
                    f,
                    "looked cell {cell} link {link} target {target} draft {draft}"
                )
            }
            Stage::Noted => write!(f, "noted cell {cell} link {link} target {target}"),
        }
    }
}

impl Display for Shown<Card> {
    fn fmt<W: fmt::Write>(&self, f: &mut fmt::Formatter<W>) -> fmt::Result {
        let card = self.0;
        let places = card.places.map(OrDash);
        let places = Listed(&places);
        let snoop = Shown(card.snoop);
        let logging = Shown(card.logging);
        let birth = card.birth;
        let last = card.last;
        let update = OrDash(card.update.map(Shown));
        write!(
            f,
            "places {places} snoop {snoop} logging {logging} birth {birth} last {last} update {update}"
        )
    }
}

impl Display for Shown<Record> {
    fn fmt<W: fmt::Write>(&self, f: &mut fmt::Formatter<W>) -> fmt::Result {
        let record = self.0;
        let serial = record.serial;
        let colour = record.colour;
        let links = Links(record.links);
        write!(f, "serial {serial} colour {colour} links {links} marks")?;
        if record.waiting {
            write!(f, " waiting")?;
        }
        if record.snooped {
            write!(f, " snooped")?;
        }
        match record.log.map(Links) {
            Some(links) => write!(f, " logged log {links}"),
            None if record.waiting || record.snooped => Ok(()),
            None => write!(f, " -"),
        }
    }
}

// Prints the whole store.
pub(crate) fn show_store<C: Copy>(rt: &HostRuntime, store: &Store<'_, C>) -> anyhow::Result<()> {
    show_round(rt, store.round(), store.cards().len())?;
    let most = store.cells().len();
    show_list(rt, "free", most, |i| store.free_cell(i))?;
    show_list(rt, "waiting", most, |i| store.waiting_cell(i))?;
    for (number, card) in store.cards().iter().enumerate() {
        let card = Shown(*card);
        println!(rt; "card {number} {card}")?;
    }
    for (number, cell) in store.cells().iter().enumerate() {
        match cell.map(Shown) {
            Some(record) => println!(rt; "cell {number} {record}")?,
            None => println!(rt; "cell {number} free")?,
        }
    }
    Ok(())
}

fn show_round(rt: &HostRuntime, round: RoundState, cards: usize) -> anyhow::Result<()> {
    let phase = round.phase;
    let order = round.order;
    let rounds = round.rounds;
    let marked = round.marked;
    let next = round.next;
    let sweep = round.sweep;
    let answered: Vec<usize> = (0..cards)
        .zip(round.answered)
        .filter_map(|(card, answered)| answered.then_some(card))
        .collect(rt.alloc())?;
    let answered = Listed(answered.as_slice());
    println!(rt;
        "phase {phase} order {order} rounds {rounds} marked {marked} next {next} sweep {sweep} answered {answered}"
    )?;
    Ok(())
}

// Prints a list of at most so many cells, of which `cell_at` gives each by its place in the list.
fn show_list<F: Fn(usize) -> Option<u16>>(
    rt: &HostRuntime,
    name: &str,
    most: usize,
    cell_at: F,
) -> anyhow::Result<()>
    requires { (state : F) (i : _) → F.pre state i }
{
    let cells: Vec<u16> = (0..most).map_while(cell_at).collect(rt.alloc())?;
    let cells = Listed(cells.as_slice());
    println!(rt; "{name} {cells}")?;
    Ok(())
}
