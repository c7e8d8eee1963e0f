//! What the program needs of a kind of contents: a value from words, and a value in words.
use crate::unheard::Unheard;
use contents::{Effect, Event};
use sheet::{effect_said, event_said, number_in};
use std::fmt;

pub trait Told: Sized + Copy + fmt::Display {
    /// The value that words say.
    fn said(words: &[&str]) -> Result<Self, Unheard>;
}

impl Told for Event {
    // The kind is a number here, and no word.
    fn said(words: &[&str]) -> Result<Event, Unheard> {
        let [moment, device, zone, kind] = words else {
            return Err(Unheard::Unknown);
        };
        number_in(kind).ok_or(Unheard::Unknown)?;
        Ok(event_said(moment, device, zone, kind)?)
    }
}

impl Told for Effect {
    fn said(words: &[&str]) -> Result<Effect, Unheard> {
        let [relay, delay] = words else {
            return Err(Unheard::Unknown);
        };
        Ok(effect_said(relay, delay)?)
    }
}
