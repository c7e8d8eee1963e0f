//! What is answered to words that make no call and no store.
use refusal::Refusal;
use sheet::Fault;
use std::fmt;

/// Why words say nothing that can be done.
#[derive(Clone, Copy, PartialEq, Eq, Debug)]
pub enum Unheard {
    /// They were understood, and are refused.
    Refused(Refusal),
    /// They are not understood.
    Unknown,
}

impl fmt::Display for Unheard {
    fn fmt<W: fmt::Write>(&self, f: &mut fmt::Formatter<W>) -> fmt::Result {
        match self {
            Unheard::Refused(refusal) => {
                let number = refusal.number();
                write!(f, "refused {number}")
            }
            Unheard::Unknown => write!(f, "not understood"),
        }
    }
}

impl From<Refusal> for Unheard {
    fn from(refusal: Refusal) -> Unheard {
        Unheard::Refused(refusal)
    }
}

impl From<Fault> for Unheard {
    fn from(fault: Fault) -> Unheard {
        match fault {
            Fault::Refused(refusal) => Unheard::Refused(refusal),
            Fault::NotANumber | Fault::NoSuchKind => Unheard::Unknown,
        }
    }
}
