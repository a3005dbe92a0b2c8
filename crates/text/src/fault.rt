ghost use Rattle.std.specs.Prelude.{Some};
ghost use Rattle.text.specs.Faults.{read_number, read_place, read_sentence};

use faults::Fault;
use std::error::Error;
use std::fmt;

/// Why a text is refused. Each case but the first holds the number of the text line, from 1.
#[derive(Clone, Copy, PartialEq, Eq, Debug)]
pub enum ReadFault {
    TextTooLong,
    /// The first token is no line word.
    NoLineWord(usize),
    MissingOperand(usize),
    /// An operand of the wrong kind, malformed or too large.
    BadOperand(usize),
    ExtraToken(usize),
    /// A good line for which the table has no room.
    TooManyLines(usize),
}

/// The place is the text line, from 1, or 0 where the whole text is refused.
impl Fault for ReadFault {
    ghost number_of = { read_number };

    ghost place_of = { read_place };

    ghost sentence_of = { read_sentence };

    fn number(&self) -> u32 {
        match self {
            ReadFault::TextTooLong => 1,
            ReadFault::NoLineWord(_) => 2,
            ReadFault::MissingOperand(_) | ReadFault::BadOperand(_) | ReadFault::ExtraToken(_) => 3,
            ReadFault::TooManyLines(_) => 4,
        }
    }

    fn place(&self) -> usize {
        match self {
            ReadFault::TextTooLong => 0,
            ReadFault::NoLineWord(line)
            | ReadFault::MissingOperand(line)
            | ReadFault::BadOperand(line)
            | ReadFault::ExtraToken(line)
            | ReadFault::TooManyLines(line) => *line,
        }
    }

    fn sentence(&self) -> &'static str {
        match self {
            ReadFault::TextTooLong => "the text has more than 65,536 bytes",
            ReadFault::NoLineWord(_) => "the line does not begin with a line word",
            ReadFault::MissingOperand(_) => "an operand is missing",
            ReadFault::BadOperand(_) =>
                "an operand is not what the line word asks for, is malformed or is too large",
            ReadFault::ExtraToken(_) => "there is a token too many",
            ReadFault::TooManyLines(_) => "the table has no room for this line",
        }
    }
}

/// The sentence.
// By hand: the derive of `thiserror` promises nothing of what is printed, and Rust refuses one impl for all refusals.
impl fmt::Display for ReadFault {
    ghost output = { λ fault. Some (read_sentence fault) };

    fn fmt<W: fmt::Write>(&self, f: &mut fmt::Formatter<W>) -> fmt::Result {
        f.write_str(self.sentence())
    }
}

impl Error for ReadFault {}
