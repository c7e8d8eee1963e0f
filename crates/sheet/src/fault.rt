ghost use Rattle.std.specs.Prelude.{◌≡◌};
ghost use Rattle.sheet.specs.declared.fault.Fault.TheVariants.{Refused};

use refusal::Refusal;
use std::error::Error;
use std::fmt;

/// Why a line of a sheet makes no value.
#[derive(Clone, Copy, PartialEq, Eq, Debug)]
pub enum Fault {
    /// A word that has to be a number is none.
    NotANumber,
    /// The word for the kind is neither a kind nor a number.
    NoSuchKind,
    /// The numbers were understood, and refused.
    Refused(Refusal),
}

impl From<Refusal> for Fault {
    ghost from_gives = { λ refusal fault. fault ≡ Refused refusal };

    fn from(refusal: Refusal) -> Fault {
        Fault::Refused(refusal)
    }
}

impl fmt::Display for Fault {
    fn fmt<W: fmt::Write>(&self, f: &mut fmt::Formatter<W>) -> fmt::Result {
        match self {
            Fault::NotANumber => write!(f, "a word that should be a number is none"),
            Fault::NoSuchKind => write!(f, "there is no such kind of event"),
            Fault::Refused(why) => write!(f, "{why}"),
        }
    }
}

impl Error for Fault {}
