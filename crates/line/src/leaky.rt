ghost use Rattle.std.specs.Prelude.{◌<◌};

use crate::queue::Queue;
use crate::way::Way;

/// The leaky line: queues of up to four numbers a card and way, and a pattern that says which sendings are lost.
#[derive(Clone, Copy)]
pub struct Leaky {
    pub orders: Way<Queue>,
    pub replies: Way<Queue>,
    /// Bit j mod 32 of the pattern is 1 where sending j is lost.
    pub pattern: u32,
    /// The number of sendings so far, both ways together, as a remainder by 32: so it never overflows.
    pub count: u32,
    ghost turns: { count < 32 },
}
