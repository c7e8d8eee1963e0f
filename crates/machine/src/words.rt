ghost use Rattle.std.specs.Prelude.{Some};
ghost use Rattle.machine.specs.Words.{phase_word, colour_digit};

use crate::types::{Colour, Phase};
use std::fmt;

impl fmt::Display for Phase {
    ghost output = { λ phase. Some (phase_word phase) };

    fn fmt<W: fmt::Write>(&self, f: &mut fmt::Formatter<W>) -> fmt::Result {
        match self {
            Phase::Rest => write!(f, "Rest"),
            Phase::Alert => write!(f, "Alert"),
            Phase::Log => write!(f, "Log"),
            Phase::Gather => write!(f, "Gather"),
            Phase::Trace => write!(f, "Trace"),
            Phase::Ease => write!(f, "Ease"),
            Phase::Sweep => write!(f, "Sweep"),
            Phase::Settle => write!(f, "Settle"),
        }
    }
}

impl fmt::Display for Colour {
    ghost output = { λ colour. Some (colour_digit colour) };

    fn fmt<W: fmt::Write>(&self, f: &mut fmt::Formatter<W>) -> fmt::Result {
        match self {
            Colour::Zero => write!(f, "0"),
            Colour::One => write!(f, "1"),
        }
    }
}
