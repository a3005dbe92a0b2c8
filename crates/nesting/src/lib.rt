//! What passes over the lines of a table share: the lines open around a line, and sums that are cut off where more would be too much.
#![tactic(auto)]

pub mod capped;
pub mod limits;
pub mod open;
pub mod pass;
pub mod stack;
