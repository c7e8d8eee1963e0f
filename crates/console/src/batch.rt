//! Calls that are collected and then played together.
use crate::player::Player;
use crate::told::Told;
use crate::unheard::Unheard;
use machine::types::{Answer, Call, Given};
use std::alloc::Global;
use std::fmt;
use store::Store;

const MOST: usize = 1000;

/// The calls that are not played yet, each with its words.
#[derive(Drop)]
pub struct Batch<C: Copy> {
    calls: Vec<(Call<C>, String)>,
}

/// What is printed of an answer.
#[derive(Clone, Copy)]
struct Shown<'a, C>(&'a Answer<C>);

impl<C: Told> fmt::Display for Shown<'_, C> {
    fn fmt<W: fmt::Write>(&self, f: &mut fmt::Formatter<W>) -> fmt::Result {
        match self.0 {
            Ok(Given::Number(number)) => write!(f, "{number}"),
            Ok(Given::Contents(serial, x)) => write!(f, "{serial} {x}"),
            Err(refusal) => {
                let refused = Unheard::from(*refusal);
                write!(f, "{refused}")
            }
        }
    }
}

impl<C: Told> Batch<C> {
    pub(crate) fn new(heap: Global) -> Self {
        Batch {
            calls: Vec::new(heap),
        }
    }

    pub(crate) fn is_full(&self) -> bool {
        self.calls.len() >= MOST
    }

    pub(crate) fn add(&mut self, call: Call<C>, words: String) -> anyhow::Result<()> {
        self.calls.push((call, words))?;
        Ok(())
    }

    // Plays what was collected and prints each call with its answer.
    pub(crate) fn flush(
        &mut self,
        player: &mut Player<'_>,
        store: &mut Store<'_, C>,
    ) -> anyhow::Result<()> {
        if self.calls.is_empty() {
            return Ok(());
        }
        let Player { desk, wire } = player;
        let heap = desk.rt.alloc();
        let calls: Vec<Call<C>> = self.calls.iter().map(|(call, _)| *call).collect(heap)?;
        let answers = wire.play_over(heap, store, calls.as_slice())?;
        for (i, ((_, words), answer)) in self.calls.iter().zip(answers.iter()).enumerate() {
            let before = if i == 0 {
                desk.manner.lead()
            } else {
                desk.manner.parting()
            };
            let answer = Shown(answer);
            print!(desk.rt; "{before}{words} -> {answer}")?;
        }
        println!(desk.rt; "")?;
        self.calls.clear();
        Ok(())
    }
}
