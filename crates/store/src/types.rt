ghost use Rattle.std.specs.Prelude.{◌≡◌, ◌*◌, ◌≤◌, false, replicate};

use machine::types::{Colour, Phase};

/// The plain numbers of a store.
#[derive(Clone, Copy)]
pub struct RoundState {
    pub marked: Colour,
    pub next: u32,
    pub rounds: u32,
    pub phase: Phase,
    pub order: u32,
    // kept: this type is public and Copy, which an ArrayVec is not; `round` says that answers of other cards do not count.
    pub answered: [bool; 8],
    pub sweep: u16,
}

impl RoundState {
    /// At rest, with nothing marked and nothing swept.
    pub(crate) fn at_rest(next: u32, rounds: u32) -> RoundState
        requires { rounds ≤ 1073741823 }
        ensures { result ≡ record { marked = Colour.Zero; next = next; rounds = rounds; phase = Phase.Rest; order = 4 * rounds; answered = replicate 8 false; sweep = 0 } }
    {
        RoundState {
            marked: Colour::Zero,
            next,
            rounds,
            phase: Phase::Rest,
            order: 4 * rounds,
            answered: [false; 8],
            sweep: 0,
        }
    }
}

/// The rounds of a store are counted up to this one.
pub(crate) const LAST_ROUND: u32 = 1_073_741_823;
