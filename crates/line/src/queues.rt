ghost use Rattle.line.specs.Leaky.{held, joins};

use crate::queue::Queue;
use crate::slot::Slot;

impl Slot for Queue {
    ghost held = { held };

    ghost joins = { joins };

    fn joined(self, n: u32) -> Queue {
        match self {
            Queue::Empty => Queue::One(n),
            Queue::One(a) => Queue::Two(a, n),
            Queue::Two(a, b) => Queue::Three(a, b, n),
            Queue::Three(a, b, c) => Queue::Four(a, b, c, n),
            Queue::Four(a, b, c, d) => Queue::Four(a, b, c, d),
        }
    }

    fn first(self) -> Option<u32> {
        match self {
            Queue::Empty => None,
            Queue::One(a) => Some(a),
            Queue::Two(a, _) => Some(a),
            Queue::Three(a, _, _) => Some(a),
            Queue::Four(a, _, _, _) => Some(a),
        }
    }

    fn rest(self) -> Queue {
        match self {
            Queue::Empty => Queue::Empty,
            Queue::One(_) => Queue::Empty,
            Queue::Two(_, b) => Queue::One(b),
            Queue::Three(_, b, c) => Queue::Two(b, c),
            Queue::Four(_, b, c, d) => Queue::Three(b, c, d),
        }
    }
}
