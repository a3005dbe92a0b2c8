//! From a rule text to a balanced table in one call.
#![tactic(auto)]

pub mod explain;
pub mod fault;
pub mod prepare;
