//! The line between the main processor and the cards: what any line means and may do, the direct line and the leaky line.
#![tactic(auto)]

mod direct;
mod directs;
mod leaky;
mod leakys;
mod link;
mod pass;
mod queue;
mod queues;
mod slot;
mod way;

pub use direct::Direct;
pub use leaky::Leaky;
pub use link::Line;
pub use pass::passes;
pub use queue::Queue;
pub use slot::Slot;
pub use way::Way;
