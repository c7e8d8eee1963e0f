//! Why no store is made.
ghost use Rattle.std.specs.Prelude.{◌≡◌, Some};
ghost use Rattle.store.specs.declared.why.Why.TheVariants.{Refused, NoMemory};

use refusal::Refusal;
use std::alloc::AllocError;
use std::error::Error;
use std::fmt;

/// Why a store is not made.
#[derive(Clone, Copy, PartialEq, Eq, Debug)]
pub enum Why {
    /// A number or a table is out of range.
    Refused(Refusal),
    /// There is no memory for the two lists. No call of a store that was made can fail for this.
    NoMemory,
}

impl From<Refusal> for Why {
    ghost from_gives = { λ r w. w ≡ Refused r };

    fn from(refusal: Refusal) -> Why {
        Why::Refused(refusal)
    }
}

impl From<AllocError> for Why {
    ghost from_gives = { λ _ w. w ≡ NoMemory };

    fn from(_error: AllocError) -> Why {
        Why::NoMemory
    }
}

impl fmt::Display for Why {
    ghost use Rattle.store.specs.Reasons.{why_text};

    ghost output = { λ w. Some (why_text w) };

    fn fmt<W: fmt::Write>(&self, f: &mut fmt::Formatter<W>) -> fmt::Result {
        match self {
            Why::Refused(refusal) => write!(f, "{refusal}"),
            Why::NoMemory => write!(f, "there is no memory for the lists of a store"),
        }
    }
}

impl Error for Why {}

#[cfg(test)]
mod tests {
    use super::*;
    use std::test::Fail;

    #[test]
    fn it_is_printed(rt: HostRuntime) -> Result<(), Fail> {
        let heap = rt.alloc();
        let refused = format!(in heap; "{}", Why::from(Refusal::OutOfRange))?;
        assert_eq!(rt;
            refused.as_str(),
            "refused with 14: a number or a size is out of range"
        );
        let no_memory = format!(in heap; "{}", Why::NoMemory)?;
        assert_eq!(rt;
            no_memory.as_str(),
            "there is no memory for the lists of a store"
        );
        Ok(())
    }
}
