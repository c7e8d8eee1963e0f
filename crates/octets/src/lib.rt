//! Bytes as they are stored: numbers low byte first (specs/Numbers), the check of a block, and the block of 512 bytes
//! with number, count, body and check.
#![tactic(auto)]

mod block;
mod blocks;
mod check;

pub use block::Block;
pub use blocks::{check_right, open_block, write_block};
pub use check::{check_of, same_check};
