ghost use Rattle.std.specs.Prelude.{Some};
ghost use Rattle.listing.specs.Faults.{list_number, list_place, list_sentence};

use faults::Fault;
use std::error::Error;
use std::fmt;

/// Why a table is not listed.
#[derive(Clone, Copy, PartialEq, Eq, Debug)]
pub enum ListFault {
    /// The buffer has no room for the whole listing.
    BufferTooShort,
}

impl Fault for ListFault {
    ghost number_of = { list_number };

    ghost place_of = { list_place };

    ghost sentence_of = { list_sentence };

    fn number(&self) -> u32 {
        match self {
            ListFault::BufferTooShort => 60,
        }
    }

    fn place(&self) -> usize {
        match self {
            ListFault::BufferTooShort => 0,
        }
    }

    fn sentence(&self) -> &'static str {
        match self {
            ListFault::BufferTooShort => "the buffer has no room for the whole listing",
        }
    }
}

/// The sentence.
// By hand: the derive of `thiserror` promises nothing of what is printed, and Rust refuses one impl for all refusals.
impl fmt::Display for ListFault {
    ghost output = { λ fault. Some (list_sentence fault) };

    fn fmt<W: fmt::Write>(&self, f: &mut fmt::Formatter<W>) -> fmt::Result {
        f.write_str(self.sentence())
    }
}

impl Error for ListFault {}
