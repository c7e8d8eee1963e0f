//! The line that a script has chosen.
use line::{Direct, Leaky};
use machine::types::{Answer, Call};
use promises::play;
use std::alloc::{AllocError, Global};
use store::Store;

#[derive(Clone, Copy)]
pub enum Wire {
    Straight(Direct),
    Lossy(Leaky),
}

impl Wire {
    pub(crate) fn straight() -> Self {
        Wire::Straight(Direct::new())
    }

    pub(crate) fn lossy(pattern: u32) -> Self {
        Wire::Lossy(Leaky::new(pattern))
    }

    // Plays calls on a store over this line.
    pub(crate) fn play_over<C: Copy>(
        &mut self,
        heap: Global,
        store: &mut Store<'_, C>,
        calls: &[Call<C>],
    ) -> Result<Vec<Answer<C>>, AllocError> {
        // kept: as an `impl Line for Wire` there would be four such matches, and the four laws again, in place of this one
        match self {
            Wire::Straight(line) => play(heap, store, line, calls),
            Wire::Lossy(line) => play(heap, store, line, calls),
        }
    }
}
