//! Bytes and the numbers in them.
ghost use Rattle.std.specs.Prelude.{◌≡◌, ◌+◌, ◌*◌, ◌≤◌, length, take, drop};
ghost use Rattle.octets.specs.Numbers.{un16};
ghost use Rattle.archive.specs.Bytes.{unname};
ghost use Rattle.archive.specs.Rules.{is_blank};
ghost use Rattle.archive.specs.Runs.{tab};

/// The N bytes at a place.
pub(crate) fn bytes_at<const N: usize>(bytes: &[u8], at: usize) -> [u8; N]
    requires { at + N ≤ length bytes.now }
    ensures { result ≡ take N (drop at bytes.now) }
{
    let mut part = [0; N];
    part.copy_from_slice(&bytes[at..at + N]);
    part
}

pub(crate) fn blank(bytes: &[u8]) -> bool
    ensures { result ≡ is_blank bytes.now }
{
    bytes.iter().all(|byte| *byte == 0)
}

/// The cell that a written number names.
pub(crate) fn unnamed(number: u16) -> Option<u16>
    ensures { result ≡ unname number }
{
    number.checked_sub(1)
}

/// The N names at the front of some bytes.
pub(crate) fn names<const N: usize>(bytes: &[u8]) -> [Option<u16>; N]
    requires { 2 * N ≤ length bytes.now }
    ensures { result ≡ tab (λ i. unname (un16 (drop (2 * i) bytes.now))) N }
{
    std::array::from_fn(|i| unnamed(u16::from_le_bytes(bytes_at(bytes, 2 * i))))
}
