ghost use Rattle.std.specs.Prelude.{Some};
ghost use Rattle.rules.specs.Faults.{fault_number, fault_place, check_sentence};

use faults::Fault;
use std::error::Error;
use std::fmt;

/// Why a table is no rule. Each case holds its place: the line, from 0, or the line count where no one line is at fault.
#[derive(Clone, Copy, PartialEq, Eq, Debug)]
pub enum CheckFault {
    /// Over 256 lines.
    TooManyLines(usize),
    /// A `turn`, which only balanced tables have.
    TurnInRule(usize),
    /// A field over 63.
    FieldOffCard(usize),
    /// `else` where the innermost open line is no `if`.
    StrayElse(usize),
    /// A second `else` of one `if`.
    SecondElse(usize),
    /// `end` where no line is open.
    StrayEnd(usize),
    /// `end` of an `if` that had no `else`.
    MissingElse(usize),
    /// An `if` or a `loop` inside eight others.
    TooDeep(usize),
    /// `break` outside every loop.
    BreakOutsideLoop(usize),
    /// A loop of over 1,000 rounds.
    TooManyRounds(usize),
    /// A line left open at the end.
    Unclosed(usize),
    /// Over 65,535 steps once balanced.
    TooManySteps(usize),
}

impl Fault for CheckFault {
    ghost number_of = { fault_number };

    ghost place_of = { fault_place };

    ghost sentence_of = { check_sentence };

    fn number(&self) -> u32 {
        match self {
            CheckFault::TooManyLines(_) => 10,
            CheckFault::TurnInRule(_) => 11,
            CheckFault::FieldOffCard(_) => 12,
            CheckFault::StrayElse(_)
            | CheckFault::SecondElse(_)
            | CheckFault::StrayEnd(_)
            | CheckFault::MissingElse(_)
            | CheckFault::Unclosed(_) => 13,
            CheckFault::TooDeep(_) => 14,
            CheckFault::BreakOutsideLoop(_) => 15,
            CheckFault::TooManyRounds(_) => 16,
            CheckFault::TooManySteps(_) => 17,
        }
    }

    fn place(&self) -> usize {
        match self {
            CheckFault::TurnInRule(line)
            | CheckFault::FieldOffCard(line)
            | CheckFault::StrayElse(line)
            | CheckFault::SecondElse(line)
            | CheckFault::StrayEnd(line)
            | CheckFault::MissingElse(line)
            | CheckFault::TooDeep(line)
            | CheckFault::BreakOutsideLoop(line)
            | CheckFault::TooManyRounds(line) => *line,
            CheckFault::TooManyLines(count)
            | CheckFault::TooManySteps(count)
            | CheckFault::Unclosed(count) => *count,
        }
    }

    fn sentence(&self) -> &'static str {
        match self {
            CheckFault::TooManyLines(_) => "the rule has more than 256 lines",
            CheckFault::TurnInRule(_) => "a rule has no `turn`",
            CheckFault::FieldOffCard(_) => "a field is over f63",
            CheckFault::StrayElse(_) => "the innermost open line is no `if`",
            CheckFault::SecondElse(_) => "the `if` has an `else` already",
            CheckFault::StrayEnd(_) => "no line is open here",
            CheckFault::MissingElse(_) => "the `if` has no `else`",
            CheckFault::TooDeep(_) => "the line opens inside eight others",
            CheckFault::BreakOutsideLoop(_) => "the `break` is outside every loop",
            CheckFault::TooManyRounds(_) => "the loop has more than 1,000 rounds",
            CheckFault::Unclosed(_) => "a line is left open at the end",
            CheckFault::TooManySteps(_) => "the rule takes more than 65,535 steps once balanced",
        }
    }
}

/// The sentence.
// By hand: the derive of `thiserror` promises nothing of what is printed, and Rust refuses one impl for all refusals.
impl fmt::Display for CheckFault {
    ghost output = { λ fault. Some (check_sentence fault) };

    fn fmt<W: fmt::Write>(&self, f: &mut fmt::Formatter<W>) -> fmt::Result {
        f.write_str(self.sentence())
    }
}

impl Error for CheckFault {}
