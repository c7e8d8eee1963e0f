ghost use Rattle.std.specs.Prelude.{ℕ, Option as Maybe};
ghost use Rattle.line.specs.Lines.{Meaning, Sent, Fetched, Replied, Collected};

/// A line between the main processor and the cards. It may lose, repeat, delay and reorder numbers, but it makes none up.
///
/// Each act has a ghost member that says exactly what the act does; the methods ensure those, so that over a line whose
/// acts are equations everything is fixed. The four rules are laws about the acts, and are all that another line owes.
pub trait Line {
    // for each card, the orders on the way to it and the replies on the way back
    ghost means: { Self → Meaning };

    ghost sends: { Self → ℕ → ℕ → Self → Type 0 };

    ghost fetches: { Self → ℕ → Maybe ℕ → Self → Type 0 };

    ghost replies: { Self → ℕ → ℕ → Self → Type 0 };

    ghost collects: { Self → ℕ → Maybe ℕ → Self → Type 0 };

    // kept: card and number are two parameters, since what is taken off a line is a number alone.
    /// Sends an order to a card.
    fn send(&mut self, card: u8, number: u32)
        ensures { sends self.old card number self.new };

    /// The card takes an order off the line, if one has come.
    fn fetch(&mut self, card: u8) -> Option<u32>
        ensures { fetches self.old card result self.new };

    /// The card sends a reply.
    fn reply(&mut self, card: u8, number: u32)
        ensures { replies self.old card number self.new };

    /// The main processor takes a reply of a card off the line, if one has come.
    fn collect(&mut self, card: u8) -> Option<u32>
        ensures { collects self.old card result self.new };

    ghost sending: { (s t : Self) (c n : ℕ) → sends s c n t → Sent c n (means s) (means t) };

    ghost fetching: { (s t : Self) (c : ℕ) (got : Maybe ℕ) → fetches s c got t → Fetched c got (means s) (means t) };

    ghost replying: { (s t : Self) (c n : ℕ) → replies s c n t → Replied c n (means s) (means t) };

    ghost collecting: { (s t : Self) (c : ℕ) (got : Maybe ℕ) → collects s c got t → Collected c got (means s) (means t) };
}
