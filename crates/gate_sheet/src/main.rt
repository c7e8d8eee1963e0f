//! Runs `panel sheet`, so that the gate holds what it prints to a stored output.
#![tactic(auto)]

fn main(rt: HostRuntime) -> anyhow::Result<()> {
    console::run(&rt, "sheet")
}
