//! Limits that rules and balanced tables share.

/// The most rounds of a loop or a turn.
pub const MAX_ROUNDS: u32 = 1000;

/// The most steps of a balanced rule or table.
pub const MAX_STEPS: u32 = 65_535;
