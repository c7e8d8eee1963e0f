//! `panel bench`: how long calls take on this machine. The figures are the best of many tries, in nanoseconds.
#![tactic(auto)]

mod work;

use anyhow::{Context, anyhow};
use contents::Effect;
use line::Direct;
use promises::begin;
use store::Plan;
use work::{CARD_CALLS, Site, timed};

// How often each measurement is repeated; the best counts.
const TRIES: u32 = 200;

/// Measures a card call, a whole round over 4,096 live records, and the longest call of such a round.
pub fn run(rt: &HostRuntime) -> anyhow::Result<()> {
    let heap = rt.alloc();
    let x = Effect::new(1, 0)
        .ok()
        .context("no contents to measure with")?;
    let mut cells = vec![in heap; None; 4096]?;
    let mut contents = vec![in heap; x; 4096]?;
    // kept: tried `map_err`; the borrow rules do not cover a closure that is handed the tables.
    let Ok(plan) = Plan::check(heap, cells.as_mut_slice(), contents.as_mut_slice(), 8, 1, 0) else {
        return Err(anyhow!("no store to measure"));
    };
    let mut site = Site {
        store: begin(plan, x),
        line: Direct::new(),
    };
    site.grow(x);
    measure(rt, &mut site)
}

fn measure(rt: &HostRuntime, site: &mut Site<'_>) -> anyhow::Result<()> {
    let calls = best(|i| timed(rt, || site.card_calls(i)))?;
    // in hundredths of a nanosecond there is nothing to see: whole ones, rounded up
    let card = calls.div_ceil(CARD_CALLS);
    println!(rt; "card-call {card}")?;
    let whole = best(|_| timed(rt, || site.round()))?;
    println!(rt; "round-4096 {whole}")?;
    let long = best(|_| site.longest(rt))?;
    println!(rt; "longest-call {long}")?;
    Ok(())
}

// The shortest time of many tries, each with a number of its own.
fn best<F: FnMut(u32) -> anyhow::Result<u64>>(mut attempt: F) -> anyhow::Result<u64>
    requires { F.IsAlwaysCallable attempt }
{
    let mut best = u64::MAX;
    for i in 0..TRIES {
        best = best.min(attempt(i)?);
    }
    Ok(best)
}
