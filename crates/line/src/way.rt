ghost use Rattle.std.specs.Prelude.{◌≡◌, map, replicate};
ghost use Rattle.line.specs.Way.{put_in, taken_from, first_of};

use crate::slot::Slot;

/// One way of a line: a slot for each of the cards 0 to 7.
#[derive(Clone, Copy)]
pub struct Way<S> {
    pub slots: [S; 8],
}

impl<S: Slot> Way<S> {
    /// A way with the same in each slot.
    pub fn all(slot: S) -> Self
        ensures { map S.held result.slots ≡ replicate 8 (S.held slot) }
    {
        Way { slots: [slot; 8] }
    }

    /// A number joins the slot of a card; an unknown card gets nothing.
    pub fn send(&mut self, card: u8, number: u32)
        ensures { map S.held self.new.slots ≡ put_in S.joins (map S.held self.old.slots) card number }
    {
        if card < 8 {
            let slot = self.slots[card as usize];
            self.slots[card as usize] = slot.joined(number);
        }
    }

    /// Takes the first number out of a card's slot; an unknown card has none.
    pub fn take(&mut self, card: u8) -> Option<u32>
        ensures got { result ≡ first_of (map S.held self.old.slots) card }
        ensures left { map S.held self.new.slots ≡ taken_from (map S.held self.old.slots) card }
    {
        if card >= 8 {
            return None;
        }
        let slot = self.slots[card as usize];
        self.slots[card as usize] = slot.rest();
        slot.first()
    }
}
