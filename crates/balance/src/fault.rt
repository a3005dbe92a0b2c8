ghost use Rattle.std.specs.Prelude.{Some};
ghost use Rattle.balance.specs.Faults.{balance_number, balance_place, balance_sentence};

use faults::Fault;
use std::error::Error;
use std::fmt;

/// Why a rule was not balanced.
#[derive(Clone, Copy, PartialEq, Eq, Debug)]
pub enum BalanceFault {
    /// The lent table is too short for the balanced lines.
    TableTooShort,
}

impl Fault for BalanceFault {
    ghost number_of = { balance_number };

    ghost place_of = { balance_place };

    ghost sentence_of = { balance_sentence };

    fn number(&self) -> u32 {
        match self {
            BalanceFault::TableTooShort => 20,
        }
    }

    fn place(&self) -> usize {
        match self {
            BalanceFault::TableTooShort => 0,
        }
    }

    fn sentence(&self) -> &'static str {
        match self {
            BalanceFault::TableTooShort => "the table has no room for the balanced lines",
        }
    }
}

/// The sentence.
// By hand: the derive of `thiserror` promises nothing of what is printed, and Rust refuses one impl for all refusals.
impl fmt::Display for BalanceFault {
    ghost output = { λ fault. Some (balance_sentence fault) };

    fn fmt<W: fmt::Write>(&self, f: &mut fmt::Formatter<W>) -> fmt::Result {
        f.write_str(self.sentence())
    }
}

impl Error for BalanceFault {}
