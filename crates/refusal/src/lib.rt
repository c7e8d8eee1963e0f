//! The refusals of the whole system: one enum, one number each, one reason in words each.
//! Every crate that refuses anything answers one of these.
#![tactic(auto)]

mod kinds;

ghost use Rattle.std.specs.Prelude.{◌≡◌, Some};
ghost use Rattle.refusal.specs.Refusals.{number, reason, text};

pub use kinds::Refusal;
use std::fmt;

impl Refusal {
    /// The number under which the rules and the technician's handbook list the refusal.
    pub fn number(self) -> u8
        ensures { result ≡ number self }
    {
        self as u8
    }

    /// Why, in words.
    pub fn reason(self) -> &'static str
        ensures { result.now ≡ reason self }
    {
        match self {
            Refusal::NoCard => "the store has no such card",
            Refusal::NoPlace => "a card has places 0 to 7 only",
            Refusal::NoLink => "a record has links 0 to 3 only",
            Refusal::UpdateInHand => "an update is still in hand",
            Refusal::NoUpdate => "no update in hand is at this stage",
            Refusal::Blank => "the place is blank",
            Refusal::WrongPhase => "not in this phase of the round",
            Refusal::Exhausted => "no serial or no round is left",
            Refusal::NoCell => "no cell is free",
            Refusal::BadLength => "the archive is empty or not made of whole blocks",
            Refusal::BadCheck => "a block's check is wrong",
            Refusal::BadArchive => "the archive breaks a rule of its format",
            Refusal::OutOfRange => "a number or a size is out of range",
        }
    }
}

impl fmt::Display for Refusal {
    ghost output = { λ r. Some (text r) };

    fn fmt<W: fmt::Write>(&self, f: &mut fmt::Formatter<W>) -> fmt::Result {
        let number = self.number();
        let reason = self.reason();
        write!(f, "refused with {number}: {reason}")
    }
}

impl std::error::Error for Refusal {}
