ghost use Rattle.std.specs.Prelude.{◌≡◌, ℕ, List};
ghost use Rattle.line.specs.Way.{front, later};

/// What the numbers on their way to one card, or from it, wait in.
pub trait Slot: Sized + Copy {
    // the numbers that wait, the first to come out first
    ghost held: { Self → List ℕ };

    // what one number more makes of those that wait
    ghost joins: { List ℕ → ℕ → List ℕ };

    /// The slot once a number has joined it.
    fn joined(self, number: u32) -> Self
        ensures { held result ≡ joins (held self) number };

    /// The number that comes out first, if one waits.
    fn first(self) -> Option<u32>
        ensures { result ≡ front (held self) };

    /// The slot without the number that comes out first.
    fn rest(self) -> Self
        ensures { held result ≡ later (held self) };
}
