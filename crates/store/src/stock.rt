use arrayvec::ArrayVec;
use machine::types::{Card, Cell};

/// The parts of a store that is put together again: its tables are filled, its cards and its free list are known.
// kept: it shares five fields with a store, but what is asked of them is less, and callers fill it.
#[derive(Drop)]
pub struct Stock<'a, C> {
    pub cells: &'a mut [Cell],
    pub contents: &'a mut [C],
    pub cards: ArrayVec<Card, 8>,
    pub free: Vec<u16>,
    pub waiting: Vec<u16>,
    pub next: u32,
    pub rounds: u32,
}
