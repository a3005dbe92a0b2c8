//! Lines and what they are made of: fields and operations. Tables of lines are slices that the caller lends.
#![tactic(auto)]

pub mod field;
pub mod line;
pub mod operation;
pub mod writer;
