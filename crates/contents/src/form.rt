ghost use Rattle.std.specs.Prelude.{◌≡◌, ℕ, List, length, Some, Option as Maybe};

/// A kind of contents with a form of sixteen bytes, which an archive can hold.
pub trait Contents: Sized + Copy {
    /// The number by which an archive tells of which kind its contents are.
    const CODE: u16;

    // the same number, for contracts
    ghost CODE: { ℕ };

    ghost form: { Self → List ℕ };

    ghost read: { List ℕ → Maybe Self };

    /// The code again, as a call gives it.
    fn tag() -> u16
        ensures { result ≡ CODE }
    {
        Self::CODE
    }

    /// The sixteen bytes of the value.
    fn form(&self) -> [u8; 16]
        ensures { result ≡ form self.now };

    /// The value with this form, or none.
    fn reading(bytes: &[u8; 16]) -> Option<Self>
        ensures { result ≡ read bytes.now };

    // a form has sixteen bytes
    ghost sixteen: { (x : Self) → length (form x) ≡ 16 };

    // reading a form gives the value
    ghost back: { (x : Self) → read (form x) ≡ Some x };

    // a value that was read has those bytes as its form
    ghost forth: { (bytes : List ℕ) (x : Self) → read bytes ≡ Some x → form x ≡ bytes };
}
