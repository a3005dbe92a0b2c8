//! From a checked rule to balanced lines, which never branch.
#![tactic(auto)]

pub mod balance;
pub mod fault;
mod write;
