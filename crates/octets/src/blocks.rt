ghost use Rattle.std.specs.Prelude.{◌≡◌, ◌≤◌, length};
ghost use Rattle.octets.specs.Block.{writing, block_right, opening, outcome_of, SaysWhatWasWritten};

use crate::block::Block;
use crate::check::check_of;
use refusal::Refusal;

// kept: what is written is three values; a `Block` is what was read and found right.
/// Writes a whole block over `out`, which has to be 512 bytes long; the body has at most 504.
#[tactic(auto, using(crate::proofs::Filled::says))]
pub fn write_block(out: &mut [u8], number: u16, count: u16, body: &[u8]) -> Result<(), Refusal>
    ensures is { (result, out.new) ≡ writing out.old number count body.now }
    ensures back { length body.now ≤ 504 → SaysWhatWasWritten number count body.now }
{
    if out.len() != 512 || body.len() > 504 {
        return Err(Refusal::OutOfRange);
    }
    let end = 4 + body.len();
    out[0..2].copy_from_slice(&number.to_le_bytes());
    out[2..4].copy_from_slice(&count.to_le_bytes());
    out[4..end].copy_from_slice(body);
    out[end..508].fill(0);
    let check = check_of(&out[0..508]);
    out[508..512].copy_from_slice(&check.to_le_bytes());
    Ok(())
}

/// Whether the last four bytes of a block are the check of those before. Other than of 512 bytes nothing is right.
pub fn check_right(block: &[u8]) -> bool
    ensures { result ≡ block_right block.now }
{
    let Some((body, told)) = block.split_last_chunk::<4>() else {
        return false;
    };
    body.len() == 508 && u32::from_le_bytes(*told) == check_of(body)
}

/// Takes a block apart, or says that its length (11) or its check (12) is wrong.
pub fn open_block(block: &[u8]) -> Result<Block<'_>, Refusal>
    ensures { outcome_of result ≡ opening block.now }
{
    let [n0, n1, c0, c1, rest @ ..] = block else {
        return Err(Refusal::BadLength);
    };
    if rest.len() != 508 {
        return Err(Refusal::BadLength);
    }
    if !check_right(block) {
        return Err(Refusal::BadCheck);
    }
    let number = u16::from_le_bytes([*n0, *n1]);
    let count = u16::from_le_bytes([*c0, *c1]);
    Ok(Block {
        number,
        count,
        body: &rest[0..504],
    })
}
