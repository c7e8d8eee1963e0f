ghost use Rattle.std.specs.Prelude.{◌≡◌, [], replicate, nat_lt};
ghost use Rattle.std.proofs.Common.{ap, ◌∙◌};
ghost use Rattle.line.specs.Way.{first_of};
ghost use Rattle.line.specs.Leaky.{wire, leaky_means, lost, counted, order_sent, order_off, reply_sent, reply_off, Wire};
ghost use Rattle.line.specs.WayLemmas.{put_or_lost, field, both, taken};

use crate::leaky::Leaky;
use crate::link::Line;
use crate::queue::Queue;
use crate::way::Way;

fn is_lost(pattern: u32, count: u32) -> bool
    ensures { result ≡ lost pattern count }
{
    (pattern >> (count % 32)) % 2 == 1
}

impl Leaky {
    /// A leaky line with nothing on it, and no sending counted.
    pub fn new(pattern: u32) -> Self
        ensures { wire result ≡ record { orders = replicate 8 []; replies = replicate 8 []; pattern = pattern; count = 0 } }
    {
        Leaky {
            orders: Way::all(Queue::Empty),
            replies: Way::all(Queue::Empty),
            pattern,
            count: 0,
        }
    }

    // Counts a sending, and says whether it is lost.
    fn loses_next(&mut self) -> bool
        ensures lost { result ≡ lost self.old.pattern self.old.count }
        ensures counted { wire self.new ≡ counted (wire self.old) }
    {
        let gone = is_lost(self.pattern, self.count);
        self.count = (self.count + 1) % 32;
        gone
    }
}

impl Line for Leaky {
    ghost means = { leaky_means };

    ghost sends = { λ s c n t. wire t ≡ order_sent (wire s) c n };

    ghost fetches = { λ s c got t. (got ≡ first_of (wire s).orders c) × (wire t ≡ order_off (wire s) c) };

    ghost replies = { λ s c n t. wire t ≡ reply_sent (wire s) c n };

    ghost collects = { λ s c got t. (got ≡ first_of (wire s).replies c) × (wire t ≡ reply_off (wire s) c) };

    ghost sending = { λ s t c n h.
        put_or_lost (nat_lt c 8) (lost s.pattern s.count) (wire s).orders (wire t).orders (wire s).replies (wire t).replies c n
        (ap (λ (w : Wire). w.orders) h ∙ field (λ w. w.orders) (nat_lt c 8) _ _) (ap (λ (w : Wire). w.replies) h ∙ field (λ w. w.replies) (nat_lt c 8) _ _ ∙ both (nat_lt c 8) _) };

    ghost fetching = { λ s t c got h.
        taken (wire s).orders (wire t).orders (wire s).replies (wire t).replies c got h.0 (ap (λ (w : Wire). w.orders) h.1) (ap (λ (w : Wire). w.replies) h.1) };

    ghost replying = { λ s t c n h.
        put_or_lost (nat_lt c 8) (lost s.pattern s.count) (wire s).replies (wire t).replies (wire s).orders (wire t).orders c n
        (ap (λ (w : Wire). w.replies) h ∙ field (λ w. w.replies) (nat_lt c 8) _ _) (ap (λ (w : Wire). w.orders) h ∙ field (λ w. w.orders) (nat_lt c 8) _ _ ∙ both (nat_lt c 8) _) };

    ghost collecting = { λ s t c got h.
        taken (wire s).replies (wire t).replies (wire s).orders (wire t).orders c got h.0 (ap (λ (w : Wire). w.replies) h.1) (ap (λ (w : Wire). w.orders) h.1) };

    fn send(&mut self, card: u8, number: u32) {
        if card < 8 && !self.loses_next() {
            self.orders.send(card, number);
        }
    }

    fn fetch(&mut self, card: u8) -> Option<u32> {
        self.orders.take(card)
    }

    fn reply(&mut self, card: u8, number: u32) {
        if card < 8 && !self.loses_next() {
            self.replies.send(card, number);
        }
    }

    fn collect(&mut self, card: u8) -> Option<u32> {
        self.replies.take(card)
    }
}

#[cfg(test)]
mod tests {
    use super::*;

    #[test]
    fn pattern_5_loses_0_2_and_32(rt: HostRuntime) {
        let mut line = Leaky::new(5);
        for j in 0..36u32 {
            line.send(3, j);
            let lost = j == 0 || j == 2 || j == 32 || j == 34;
            assert_eq!(rt; line.fetch(3).is_none(), lost);
        }
    }

    #[test]
    fn four_wait_and_no_more(rt: HostRuntime) {
        let mut line = Leaky::new(0);
        for j in 1..6u32 {
            line.reply(7, j);
        }
        for j in 1..5u32 {
            assert_eq!(rt; line.collect(7), Some(j));
        }
        assert!(rt; line.collect(7).is_none());
    }

    #[test]
    fn an_unknown_card_is_not_counted(rt: HostRuntime) {
        let mut line = Leaky::new(1);
        line.send(8, 1);
        assert!(rt; line.fetch(8).is_none());
        line.send(0, 2);
        assert!(rt; line.fetch(0).is_none());
        line.send(0, 3);
        assert_eq!(rt; line.fetch(0), Some(3));
    }
}
