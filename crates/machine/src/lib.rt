//! The machine: the types of the record store, and in specs/ what each call makes of a store. There is no code here but
//! the words of a phase and a colour; the crate `store` is the code, and its contracts are these definitions.
#![tactic(auto)]

pub mod types;
mod words;
