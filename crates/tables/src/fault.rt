ghost use Rattle.std.specs.Prelude.{Some};
ghost use Rattle.tables.specs.Faults.{admission_number, admission_place, admission_sentence};

use faults::Fault;
use std::error::Error;
use std::fmt;

/// Why a table may not run. Each case holds its place: the line, from 0, or the line count where no one line is at fault.
#[derive(Clone, Copy, PartialEq, Eq, Debug)]
pub enum AdmissionFault {
    /// Over 2,400 lines.
    TooManyLines(usize),
    /// An `if`, `else`, `loop` or `break`, which only rules have.
    RuleLine(usize),
    /// A field over 95.
    FieldOffTable(usize),
    /// `end` where no turn is open.
    StrayEnd(usize),
    /// A turn inside eight others.
    TooDeep(usize),
    /// A turn of over 1,000 rounds.
    TooManyRounds(usize),
    /// A turn left open at the end.
    Unclosed(usize),
    /// Over 65,535 steps.
    TooManySteps(usize),
}

impl Fault for AdmissionFault {
    ghost number_of = { admission_number };

    ghost place_of = { admission_place };

    ghost sentence_of = { admission_sentence };

    fn number(&self) -> u32 {
        match self {
            AdmissionFault::TooManyLines(_) => 30,
            AdmissionFault::RuleLine(_) => 31,
            AdmissionFault::FieldOffTable(_) => 32,
            AdmissionFault::StrayEnd(_) | AdmissionFault::Unclosed(_) => 33,
            AdmissionFault::TooDeep(_) => 34,
            AdmissionFault::TooManyRounds(_) => 35,
            AdmissionFault::TooManySteps(_) => 36,
        }
    }

    fn place(&self) -> usize {
        match self {
            AdmissionFault::TooManyLines(count)
            | AdmissionFault::Unclosed(count)
            | AdmissionFault::TooManySteps(count) => *count,
            AdmissionFault::RuleLine(line)
            | AdmissionFault::FieldOffTable(line)
            | AdmissionFault::TooDeep(line)
            | AdmissionFault::TooManyRounds(line)
            | AdmissionFault::StrayEnd(line) => *line,
        }
    }

    fn sentence(&self) -> &'static str {
        match self {
            AdmissionFault::TooManyLines(_) => "the table has more than 2,400 lines",
            AdmissionFault::RuleLine(_) => "a balanced table has no such line",
            AdmissionFault::FieldOffTable(_) => "a field is over f95",
            AdmissionFault::StrayEnd(_) => "no turn is open here",
            AdmissionFault::TooDeep(_) => "the turn opens inside eight others",
            AdmissionFault::TooManyRounds(_) => "the turn has more than 1,000 rounds",
            AdmissionFault::Unclosed(_) => "a turn is left open at the end",
            AdmissionFault::TooManySteps(_) => "the table takes more than 65,535 steps",
        }
    }
}

/// The sentence.
// By hand: the derive of `thiserror` promises nothing of what is printed, and Rust refuses one impl for all refusals.
impl fmt::Display for AdmissionFault {
    ghost output = { λ fault. Some (admission_sentence fault) };

    fn fmt<W: fmt::Write>(&self, f: &mut fmt::Formatter<W>) -> fmt::Result {
        f.write_str(self.sentence())
    }
}

impl Error for AdmissionFault {}
