ghost use Rattle.std.specs.Prelude.{◌≡◌, [], replicate};
ghost use Rattle.std.proofs.Common.{ap};
ghost use Rattle.line.specs.Way.{first_of};
ghost use Rattle.line.specs.Direct.{waiting_in, replaces, ways, direct_means, order_put, order_taken, reply_put, reply_taken, Ways};
ghost use Rattle.line.specs.WayLemmas.{put, taken, replaced_of};

use crate::direct::Direct;
use crate::link::Line;
use crate::slot::Slot;
use crate::way::Way;

impl Slot for Option<u32> {
    ghost held = { waiting_in };

    ghost joins = { replaces };

    fn joined(self, number: u32) -> Self {
        Some(number)
    }

    fn first(self) -> Option<u32> {
        self
    }

    fn rest(self) -> Self {
        None
    }
}

impl Direct {
    /// A direct line with nothing on it.
    pub fn new() -> Self
        ensures { ways result ≡ record { orders = replicate 8 []; replies = replicate 8 [] } }
    {
        Direct {
            orders: Way::all(None),
            replies: Way::all(None),
        }
    }
}

impl Line for Direct {
    ghost means = { direct_means };

    ghost sends = { λ s c n t. ways t ≡ order_put (ways s) c n };

    ghost fetches = { λ s c got t. (got ≡ first_of (ways s).orders c) × (ways t ≡ order_taken (ways s) c) };

    ghost replies = { λ s c n t. ways t ≡ reply_put (ways s) c n };

    ghost collects = { λ s c got t. (got ≡ first_of (ways s).replies c) × (ways t ≡ reply_taken (ways s) c) };

    ghost sending = { λ s t c n h. put replaces replaced_of (ways s).orders (ways t).orders (ways s).replies (ways t).replies c n (ap (λ (w : Ways). w.orders) h) (ap (λ (w : Ways). w.replies) h) };

    ghost fetching = { λ s t c got h. taken (ways s).orders (ways t).orders (ways s).replies (ways t).replies c got h.0 (ap (λ (w : Ways). w.orders) h.1) (ap (λ (w : Ways). w.replies) h.1) };

    ghost replying = { λ s t c n h. put replaces replaced_of (ways s).replies (ways t).replies (ways s).orders (ways t).orders c n (ap (λ (w : Ways). w.replies) h) (ap (λ (w : Ways). w.orders) h) };

    ghost collecting = { λ s t c got h. taken (ways s).replies (ways t).replies (ways s).orders (ways t).orders c got h.0 (ap (λ (w : Ways). w.replies) h.1) (ap (λ (w : Ways). w.orders) h.1) };

    fn send(&mut self, card: u8, number: u32) {
        self.orders.send(card, number);
    }

    fn fetch(&mut self, card: u8) -> Option<u32> {
        self.orders.take(card)
    }

    fn reply(&mut self, card: u8, number: u32) {
        self.replies.send(card, number);
    }

    fn collect(&mut self, card: u8) -> Option<u32> {
        self.replies.take(card)
    }
}
