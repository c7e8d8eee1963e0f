//! What the words of a line say.
use crate::told::Told;
use crate::unheard::Unheard;
use machine::types::Call;
use sheet::number_in;
use std::alloc::{AllocError, Global};
use std::num::TryFromIntError;

/// The words of a line, and how they are shown: with single spaces between them.
#[derive(Drop)]
pub struct Spoken<'a> {
    pub(crate) words: Vec<&'a str>,
    pub(crate) shown: String,
}

impl<'a> Spoken<'a> {
    pub(crate) fn of(heap: Global, text: &'a str) -> Result<Self, AllocError> {
        let words: Vec<&str> = text.split_whitespace().collect(heap)?;
        let shown = words.join(heap, " ")?;
        Ok(Spoken { words, shown })
    }
}

// The number that a word says; one too large counts as the largest of its type.
pub(crate) fn capped<T: TryFrom<u64, Error = TryFromIntError> + Drop>(
    word: &str,
    largest: T,
) -> Result<T, Unheard> {
    let number = number_in(word).ok_or(Unheard::Unknown)?;
    Ok(T::try_from(number).unwrap_or(largest))
}

// The number of a card, a place or a link.
pub(crate) fn byte_in(word: &str) -> Result<u8, Unheard> {
    capped(word, u8::MAX)
}

// The lowest 32 bits of a number of any size.
pub(crate) fn pattern_in(word: &str) -> Option<u32> {
    number_in(word)?;
    Some(
        word.bytes().fold(0, |pattern: u32, digit| {
            pattern
                .wrapping_mul(10)
                .wrapping_add(u32::from(digit.saturating_sub(b'0')))
        }),
    )
}

// The call that words say, of a store with contents of this kind.
pub(crate) fn call_said<C: Told>(words: &[&str]) -> Result<Call<C>, Unheard> {
    match words {
        ["new", c, p, rest @ ..] => Ok(Call::New(byte_in(c)?, byte_in(p)?, C::said(rest)?)),
        ["load", c, p, i, q] => Ok(Call::Load(byte_in(c)?, byte_in(p)?, byte_in(i)?, byte_in(q)?)),
        ["look", c, p, i, q] => Ok(Call::Look(byte_in(c)?, byte_in(p)?, byte_in(i)?, byte_in(q)?)),
        ["copy", c, p, q] => Ok(Call::Copy(byte_in(c)?, byte_in(p)?, byte_in(q)?)),
        ["drop", c, p] => Ok(Call::Drop(byte_in(c)?, byte_in(p)?)),
        ["read", c, p] => Ok(Call::Read(byte_in(c)?, byte_in(p)?)),
        ["note", c] => Ok(Call::Note(byte_in(c)?)),
        ["store", c] => Ok(Call::Store(byte_in(c)?)),
        ["knock", c] => Ok(Call::Knock(byte_in(c)?)),
        ["attend", c] => Ok(Call::Attend(byte_in(c)?)),
        ["hear", c] => Ok(Call::Hear(byte_in(c)?)),
        ["open"] => Ok(Call::Open),
        ["trace"] => Ok(Call::Trace),
        ["sweep"] => Ok(Call::Sweep),
        ["settle"] => Ok(Call::Settle),
        _ => Err(Unheard::Unknown),
    }
}
