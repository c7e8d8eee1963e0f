ghost use Rattle.std.specs.Prelude.{◌≡◌, ◌+◌, ◌≤◌, ◌++◌, length};
ghost use Rattle.arrayvec.specs.ArrayVec.{array_vec_len};
ghost use Rattle.std.specs.List.{flat_map};
ghost use Rattle.sheet.specs.Values.{value_bytes, value_in, sealing, value_at, ReadBack};

use crate::value::Value;
use arrayvec::ArrayVec;
use octets::write_block;
use refusal::Refusal;

/// Seals up to eighteen values into a block of 512 bytes with this number.
#[tactic(auto, using(crate::proofs::Sealing::seals, crate::proofs::Sealing::read_back))]
pub fn seal_values(out: &mut [u8], number: u16, values: &[Value]) -> Result<(), Refusal>
    ensures is { (result, out.new) ≡ sealing out.old number values.now }
    ensures back { length values.now ≤ 18 → ReadBack values.now }
{
    if values.len() > 18 {
        return Err(Refusal::OutOfRange);
    }
    let body = bytes_of(values);
    write_block(out, number, values.len() as u16, body.as_slice())
}

// Appends a value's bytes to the body of a block. There is room, so it cannot fail.
// kept: the archive has its like for 504 bytes; below both it would be public and have a condition, which public functions have not.
fn add(body: &mut ArrayVec<u8, 324>, value: &Value)
    requires { array_vec_len body.old + 18 ≤ 324 }
    ensures { body.new.items ≡ body.old.items ++ value_bytes value.now }
{
    let _ = body.try_extend_from_slice(&value.bytes());
}

// The values' bytes, one after the other.
fn bytes_of(values: &[Value]) -> ArrayVec<u8, 324>
    requires { length values.now ≤ 18 }
    ensures { result.items ≡ flat_map value_bytes values.now }
{
    let mut body = ArrayVec::new();
    for value in values {
        add(&mut body, value);
    }
    body
}

/// Value k of the body of a block of values, or none.
pub fn value_at(body: &[u8], k: usize) -> Option<Value>
    ensures { result ≡ value_at body.now k }
{
    if k >= 18 {
        return None;
    }
    // kept: tried `as_chunks` and `first_chunk`, and the proof did not close.
    let bytes = body.get(18 * k..18 * k + 18)?;
    Value::of_bytes(bytes)
}
