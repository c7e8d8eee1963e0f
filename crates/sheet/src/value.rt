use contents::{Effect, Event};

/// A value of either kind of contents.
#[derive(Clone, Copy, PartialEq, Eq, Debug)]
pub enum Value {
    Happened(Event),
    Does(Effect),
}
