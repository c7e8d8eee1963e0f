//! A store as bytes: blocks of 512 bytes, the head first and then the cells in order, written and read once for every kind
//! of contents.
#![tactic(auto)]

mod bytes;
mod entry;
mod fill;
mod head;
mod look;
mod pages;
mod parts;
mod read;
mod reading;
mod rules;
mod theorems;
mod write;

pub use reading::Reading;
pub use theorems::{archive_laws, reached_is_good};
pub use write::{blocks_of, write_archive};
