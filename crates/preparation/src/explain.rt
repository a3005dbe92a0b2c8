//! What is said of a refusal: the line that reports it, and the line of the text that is at fault.

ghost use Rattle.std.specs.Prelude.{◌≡◌, Some};
ghost use Rattle.preparation.specs.Explaining.{fault_line};
ghost use Rattle.preparation.specs.Faults.{refusal_line};

use crate::fault::PrepareFault;
use faults::Fault;
use rules::fault::CheckFault;
use std::fmt;
use text::fault::ReadFault;
use text::text_lines::text_line_of;

/// The number, from 1, of the text line that is at fault; none where no one line is.
pub fn fault_line(fault: &PrepareFault, text: &[u8]) -> Option<usize>
    ensures { result ≡ fault_line text.now fault.now }
{
    match fault {
        PrepareFault::Read(ReadFault::TextTooLong)
        | PrepareFault::Balance(_)
        | PrepareFault::Check(CheckFault::TooManyLines(_))
        | PrepareFault::Check(CheckFault::TooManySteps(_))
        | PrepareFault::Check(CheckFault::Unclosed(_)) => None,
        PrepareFault::Read(fault) => Some(fault.place()),
        PrepareFault::Check(fault) => text_line_of(text, fault.place()),
    }
}

/// The line that reports a refusal, `refused STAGE NUMBER PLACE`.
#[derive(Clone, Copy)]
pub struct Refusal(pub PrepareFault);

impl fmt::Display for Refusal {
    ghost output = { λ refusal. Some (refusal_line refusal.0) };

    fn fmt<W: fmt::Write>(&self, f: &mut fmt::Formatter<W>) -> fmt::Result {
        let stage = self.0.stage();
        let number = self.0.number();
        let place = self.0.place();
        write!(f, "refused {stage} {number} {place}")
    }
}
