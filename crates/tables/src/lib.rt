//! Tables of lines that never branch: the balanced lines they stand for, their steps, and admission.
#![tactic(auto)]

pub mod admit;
pub mod fault;
