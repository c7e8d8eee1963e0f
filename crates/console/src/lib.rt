//! The commands of the program: a thin shell over the proved libraries. It reads words, calls the libraries and prints
//! what they answer.
#![tactic(auto)]

mod batch;
mod desk;
mod help_command;
mod input;
mod lives;
mod makes;
mod picture;
mod play_command;
mod player;
mod said;
mod sheet_command;
mod source;
mod story_command;
mod told;
mod unheard;
mod wire;

use anyhow::anyhow;
use help_command::run_help;
use play_command::run_play;
use sheet_command::run_sheet;
use story_command::run_story;

/// Runs the command of this name.
pub fn run(rt: &HostRuntime, command: &str) -> anyhow::Result<()> {
    // kept: the match is the table; one of functions would have to be made of them and searched.
    match command {
        "help" => run_help(rt),
        "play" => run_play(rt),
        "sheet" => run_sheet(rt),
        "story" => run_story(rt),
        _ => Err(anyhow!("no such command: 'panel help' tells what there is")),
    }
}
