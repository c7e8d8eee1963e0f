use crate::way::Way;

/// The direct line: one order and one reply a card. A sending replaces what waits, a taking empties it.
#[derive(Clone, Copy)]
pub struct Direct {
    pub orders: Way<Option<u32>>,
    pub replies: Way<Option<u32>>,
}
