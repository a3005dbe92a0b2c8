//! Tests of the reader of rule texts, in a crate of their own so that the reader is proved once.
#![tactic(auto)]

#[cfg(test)]
mod tests;
