//! Kinds of contents: what a record can say. A kind has a code and a form of sixteen bytes; events and effects are two.
//! The store itself needs no form, only contents that can be copied.
#![tactic(auto)]

mod effect;
mod effects;
mod event;
mod events;
mod form;
mod kind;

pub use effect::Effect;
pub use event::Event;
pub use form::Contents;
pub use kind::{Kind, UnknownKind};
