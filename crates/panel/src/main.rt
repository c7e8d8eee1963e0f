//! The program: its first argument is the command.
#![tactic(auto)]

use std::env;

fn main(rt: HostRuntime) -> anyhow::Result<()> {
    command(&rt)
}

fn command(rt: &HostRuntime) -> anyhow::Result<()> {
    match env::args(rt)?.nth(1).as_deref() {
        None => console::run(rt, "help"),
        Some("bench") => speed::run(rt),
        Some(other) => console::run(rt, other),
    }
}
