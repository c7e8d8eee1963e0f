ghost use Rattle.std.specs.Prelude.{◌≡◌, Some, codes};
ghost use Rattle.std.specs.Option.{ok_or};
ghost use Rattle.refusal.specs.declared.kinds.Refusal.TheVariants.{OutOfRange};
ghost use Rattle.contents.specs.Kinds.{kind_number, kind_word, kind_numbered, kind_called, unknown_kind};

use refusal::Refusal;
use std::error::Error;
use std::fmt;
use std::str::FromStr;

/// What happened, with the number that stands in a form.
#[derive(Clone, Copy, PartialEq, Eq, Debug)]
pub enum Kind {
    Fire = 1,
    Fault = 2,
    Test = 3,
    Acknowledged = 4,
    Silenced = 5,
    Reset = 6,
}

impl Kind {
    /// Every kind, in the order of the numbers.
    pub const ALL: [Kind; 6] = [
        Kind::Fire,
        Kind::Fault,
        Kind::Test,
        Kind::Acknowledged,
        Kind::Silenced,
        Kind::Reset,
    ];

    /// The number of the kind, as it stands in a form.
    pub fn number(self) -> u8
        ensures { result ≡ kind_number self }
    {
        self as u8
    }

    /// The word for the kind, as people write it.
    pub fn word(self) -> &'static str
        ensures { result.now ≡ kind_word self }
    {
        match self {
            Kind::Fire => "fire",
            Kind::Fault => "fault",
            Kind::Test => "test",
            Kind::Acknowledged => "acknowledged",
            Kind::Silenced => "silenced",
            Kind::Reset => "reset",
        }
    }

    // kept: these two are public and exact; `try_from` and `parse` are them with an error.
    /// The kind with this number, or none.
    #[tactic(auto, unfolding(crate::specs::Kinds::kind_numbered))]
    pub fn numbered(number: u8) -> Option<Kind>
        ensures { result ≡ kind_numbered number }
    {
        Kind::ALL
            .iter()
            .copied()
            .find(|kind| kind.number() == number)
    }

    /// The kind with this word, or none.
    #[tactic(auto, unfolding(crate::specs::Kinds::kind_called))]
    pub fn called(word: &str) -> Option<Kind>
        ensures { result ≡ kind_called word.now }
    {
        Kind::ALL.iter().copied().find(|kind| kind.word() == word)
    }
}

impl fmt::Display for Kind {
    ghost output = { λ k. Some (kind_word k) };

    fn fmt<W: fmt::Write>(&self, f: &mut fmt::Formatter<W>) -> fmt::Result {
        f.write_str(self.word())
    }
}

/// A word that is the word of no kind.
#[derive(Clone, Copy, PartialEq, Eq, Debug)]
pub struct UnknownKind;

impl fmt::Display for UnknownKind {
    ghost output = { λ _. Some (codes "there is no such kind of event") };

    fn fmt<W: fmt::Write>(&self, f: &mut fmt::Formatter<W>) -> fmt::Result {
        f.write_str("there is no such kind of event")
    }
}

impl Error for UnknownKind {}

impl TryFrom<u8> for Kind {
    type Error = Refusal;

    ghost try_from_gives = { λ number r. r ≡ ok_or (kind_numbered number) OutOfRange };

    fn try_from(number: u8) -> Result<Kind, Refusal> {
        Kind::numbered(number).ok_or(Refusal::OutOfRange)
    }
}

impl FromStr for Kind {
    type Err = UnknownKind;

    ghost from_str_gives = { λ word r. r ≡ ok_or (kind_called word) unknown_kind };

    fn from_str(word: &str) -> Result<Kind, UnknownKind> {
        Kind::called(word).ok_or(UnknownKind)
    }
}
