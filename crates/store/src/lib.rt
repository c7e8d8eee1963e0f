//! The running store: up to 4,096 records in lent tables, up to eight cards, the eight card calls and the seven round calls.
#![tactic(auto)]

mod calls;
mod lists;
mod making;
mod marks;
mod over;
mod parts;
mod plan;
mod records;
mod restore;
mod rounds;
mod size;
mod stock;
mod types;
mod views;
mod whole;
mod why;

pub use lists::Lists;
pub use plan::{NotMade, Plan};
pub use restore::Restore;
pub use stock::Stock;
pub use types::RoundState;
pub use whole::Store;
pub use why::Why;
