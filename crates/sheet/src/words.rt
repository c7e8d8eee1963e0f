ghost use Rattle.std.specs.Prelude.{◌≡◌};
ghost use Rattle.std.specs.Option.{ok_or};
ghost use Rattle.refusal.specs.declared.kinds.Refusal.TheVariants.{OutOfRange};
ghost use Rattle.contents.specs.Events.{event_of};
ghost use Rattle.contents.specs.Effects.{effect_of};
ghost use Rattle.sheet.specs.Words.{goes_on, is_digit, digits_after, number_in, kind_in, in_range, event_said, effect_said};

use crate::fault::Fault;
use contents::{Effect, Event, Kind};
use refusal::Refusal;

fn is_digit(b: u8) -> bool
    ensures { result ≡ is_digit b }
{
    b.is_ascii_digit()
}

// The number n with one more digit, or the largest number there is.
fn goes_on(n: u64, b: u8) -> u64
    ensures { result ≡ goes_on n b }
{
    n.saturating_mul(10)
        .saturating_add(u64::from(b.saturating_sub(b'0')))
}

/// The number that a word of decimal digits says, or none. A number too large counts as the largest there is.
#[tactic(auto, using(crate::proofs::Sealing::number_none, crate::proofs::Sealing::number_some))]
pub fn number_in(word: &str) -> Option<u64>
    ensures { result ≡ number_in word.now }
{
    if word.is_empty() {
        return None;
    }
    digits(word.as_bytes())
}

fn digits(word: &[u8]) -> Option<u64>
    ensures { result ≡ digits_after 0 word.now }
{
    let mut n: u64 = 0;
    for b in word {
        if !is_digit(*b) {
            return None;
        }
        n = goes_on(n, *b);
    }
    Some(n)
}

// The number of the kind that a word names, or the number that it says.
fn kind_in(word: &str) -> Option<u64>
    ensures { result ≡ kind_in word.now }
{
    Kind::called(word)
        .map(|kind| u64::from(kind.number()))
        .or_else(|| number_in(word))
}

// Events and effects of numbers that need not fit: those that do not are out of range too.
#[tactic(auto, using(crate::proofs::Sealing::event_out))]
fn event_of(moment: u64, device: u64, zone: u64, kind: u64) -> Result<Event, Fault>
    ensures { result ≡ in_range (event_of moment device zone kind) }
{
    let (Ok(moment), Ok(device), Ok(zone), Ok(kind)) = (
        u32::try_from(moment),
        u16::try_from(device),
        u16::try_from(zone),
        u8::try_from(kind),
    ) else {
        return Err(Fault::Refused(Refusal::OutOfRange));
    };
    Ok(Event::new(moment, device, zone, kind)?)
}

#[tactic(auto, using(crate::proofs::Sealing::effect_out))]
fn effect_of(relay: u64, delay: u64) -> Result<Effect, Fault>
    ensures { result ≡ in_range (effect_of relay delay) }
{
    let (Ok(relay), Ok(delay)) = (u16::try_from(relay), u16::try_from(delay)) else {
        return Err(Fault::Refused(Refusal::OutOfRange));
    };
    Ok(Effect::new(relay, delay)?)
}

/// The event that four words say, the kind by its word or its number, or what is wrong with them.
pub fn event_said(moment: &str, device: &str, zone: &str, kind: &str) -> Result<Event, Fault>
    ensures { result ≡ event_said moment.now device.now zone.now kind.now }
{
    let moment = number_in(moment).ok_or(Fault::NotANumber)?;
    let device = number_in(device).ok_or(Fault::NotANumber)?;
    let zone = number_in(zone).ok_or(Fault::NotANumber)?;
    let kind = kind_in(kind).ok_or(Fault::NoSuchKind)?;
    event_of(moment, device, zone, kind)
}

/// The effect that two words say, or what is wrong with them.
pub fn effect_said(relay: &str, delay: &str) -> Result<Effect, Fault>
    ensures { result ≡ effect_said relay.now delay.now }
{
    let relay = number_in(relay).ok_or(Fault::NotANumber)?;
    let delay = number_in(delay).ok_or(Fault::NotANumber)?;
    effect_of(relay, delay)
}
