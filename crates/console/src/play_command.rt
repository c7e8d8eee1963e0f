use crate::desk::{Desk, Manner};
use crate::input::Lines;
use crate::lives::live;

/// Plays the script on standard input, and prints each call with its answer.
pub(crate) fn run_play(rt: &HostRuntime) -> anyhow::Result<()> {
    let manner = Manner::Lines;
    live(Desk { rt, manner }, &mut Lines::new(rt)?)
}
