//! The numbers of an archive's head.

/// The numbers that stand before the places, as they are written.
#[derive(Clone, Copy)]
pub(crate) struct Head {
    pub cells: u16,
    pub cards: u16,
    pub links: u16,
    pub code: u16,
    pub next: u32,
    pub rounds: u32,
    pub first: u16,
}
