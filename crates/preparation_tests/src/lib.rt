//! Tests of checking, balancing, admission and preparing, in a crate of their own so that what they test is proved once.
#![tactic(auto)]

#[cfg(test)]
mod admissions;
#[cfg(test)]
mod checks;
#[cfg(test)]
mod explanations;
#[cfg(test)]
mod texts;

/// A refusal by its number and its place.
// `text_tests` has its like: the two share no crate that is for tests alone.
#[cfg(test)]
fn refused<T, F: faults::Fault + Drop>(answer: Result<T, F>) -> Result<T, (u32, usize)> {
    answer.map_err(|fault| (fault.number(), fault.place()))
}
