//! The commissioning sheet: what its words say, and a block that seals the values of a sheet.
#![tactic(auto)]

mod fault;
mod seal;
mod value;
mod values;
mod words;

pub use fault::Fault;
pub use seal::{seal_values, value_at};
pub use value::Value;
pub use words::{effect_said, event_said, number_in};
