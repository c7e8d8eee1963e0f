ghost use Rattle.std.specs.Prelude.{◌≡◌, false, ◌==◌};
ghost use Rattle.octets.specs.Check.{check_of, DifferOnce};

/// The check of some bytes: it starts at 0, and for each byte it is rotated left by five places and the byte is added.
#[tactic(auto, unfolding(crate::specs::Check::check_of))]
pub fn check_of(bytes: &[u8]) -> u32
    ensures { result ≡ check_of bytes.now }
{
    bytes.iter().fold(
        0u32,
        |check, byte| check.rotate_left(5).wrapping_add(u32::from(*byte)),
    )
}

/// Whether two byte strings have the same check. Two of one length that differ in exactly one place never have.
#[tactic(auto, using(crate::proofs::Telling::tells))]
pub fn same_check(a: &[u8], b: &[u8]) -> bool
    ensures is { result ≡ (check_of a.now == check_of b.now) }
    ensures tells { DifferOnce a.now b.now → result ≡ false }
{
    check_of(a) == check_of(b)
}

#[cfg(test)]
mod tests {
    use super::*;

    #[test]
    fn worked_example(rt: HostRuntime) {
        assert_eq!(rt; check_of(&[1, 2, 3]), 1091);
        assert_eq!(rt; check_of(&[]), 0);
    }
}
