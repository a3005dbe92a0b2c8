//! Rules: the tree that a table of lines stands for, what it costs, and the check of a table.
#![tactic(auto)]

pub mod check;
pub mod fault;
pub mod rule;
