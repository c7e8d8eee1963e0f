ghost use Rattle.std.specs.Prelude.{◌≡◌, ◌++◌, length};
ghost use Rattle.octets.specs.Numbers.{le16};
ghost use Rattle.sheet.specs.declared.value.Value.TheVariants.{Happened, Does};
ghost use Rattle.sheet.specs.Values.{value_bytes, value_in};

use crate::value::Value;
use contents::{Contents, Effect, Event};
use std::fmt;

// A kind's code and a value's form, one after the other.
fn coded<C: Contents>(value: &C) -> [u8; 18]
    ensures { result ≡ le16 C.CODE ++ C.form value.now }
{
    let mut bytes = [0u8; 18];
    bytes[0..2].copy_from_slice(&C::CODE.to_le_bytes());
    bytes[2..18].copy_from_slice(&value.form());
    bytes
}

impl From<Event> for Value {
    ghost from_gives = { λ event value. value ≡ Happened event };

    fn from(event: Event) -> Value {
        Value::Happened(event)
    }
}

impl From<Effect> for Value {
    ghost from_gives = { λ effect value. value ≡ Does effect };

    fn from(effect: Effect) -> Value {
        Value::Does(effect)
    }
}

impl Value {
    // The eighteen bytes of the value.
    pub(crate) fn bytes(&self) -> [u8; 18]
        ensures { result ≡ value_bytes self.now }
    {
        match self {
            Value::Happened(event) => coded(event),
            Value::Does(effect) => coded(effect),
        }
    }

    // The value that eighteen bytes say, or none.
    #[tactic(auto, unfolding(crate::specs::Values::value_in))]
    pub(crate) fn of_bytes(bytes: &[u8]) -> Option<Value>
        requires { length bytes.now ≡ 18 }
        ensures { result ≡ value_in bytes.now }
    {
        let Some(([c0, c1], form)) = bytes.split_last_chunk::<16>() else {
            return None;
        };
        match u16::from_le_bytes([*c0, *c1]) {
            Event::CODE => Event::reading(form).map(Value::from),
            Effect::CODE => Effect::reading(form).map(Value::from),
            _ => None,
        }
    }
}

impl fmt::Display for Value {
    fn fmt<W: fmt::Write>(&self, f: &mut fmt::Formatter<W>) -> fmt::Result {
        match self {
            Value::Happened(event) => write!(f, "event {event}"),
            Value::Does(effect) => write!(f, "effect {effect}"),
        }
    }
}
