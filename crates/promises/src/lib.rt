//! The calls that carry the promises: `play`, which plays a script, and `Panel`, a store and its line used by nothing else.
#![tactic(auto)]

mod script;
mod unit;
mod units;

pub use script::play;
pub use unit::Panel;
pub use units::begin;
