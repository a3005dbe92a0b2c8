ghost use Rattle.std.specs.Prelude.{◌≡◌, ◌≤◌, length};
ghost use Rattle.lines.specs.Sizes.{TableBelow};
ghost use Rattle.text.specs.Reading.{reading, answer, filled};
ghost use Rattle.text.specs.RuleTexts.{AcceptsExactly};

use crate::fault::ReadFault;
use crate::reader::Reader;
use lines::line::Line;

/// How many bytes a text may have.
pub const MAX_TEXT: usize = 65_536;

/// How many lines a table may take from a text. Admission has the same limit for tables that come from no text.
pub const MAX_LINES: usize = 2_400;

/// Reads a rule text into the table, and answers how many lines it wrote. Where it refuses, the lines before the refused one are written; the entries past those written stay. The lines read keep within the limits of a text: fields below 96, numbers of 32 bits, at most 2,400 lines.
// A count is answered, since a part of the table would keep the whole lent, and a refusal leaves lines in it too.
#[tactic(auto, using(crate::proofs::RuleTexts::accepts, crate::proofs::Limits::limited_below, crate::proofs::Filling::filling))]
pub fn read(text: &[u8], table: &mut [Line]) -> Result<usize, ReadFault>
    ensures answer { result ≡ answer (reading text.now (length table.old)) }
    ensures table { table.new ≡ filled (reading text.now (length table.old)) table.old }
    ensures exact { AcceptsExactly text.now (length table.old) }
    ensures below { TableBelow 96 (reading text.now (length table.old)).lines }
    ensures few { length (reading text.now (length table.old)).lines ≤ 2400 }
{
    if text.len() > MAX_TEXT {
        return Err(ReadFault::TextTooLong);
    }
    let room = table.len().min(MAX_LINES);
    let mut reader = Reader::new(text);
    let slots = &mut table[..room];
    for (count, slot) in slots.iter_mut().enumerate() {
        let Some((_, line)) = reader.next_entry()? else {
            return Ok(count);
        };
        *slot = line;
    }
    match reader.entry()? {
        Some((number, _)) => Err(ReadFault::TooManyLines(number)),
        None => Ok(room),
    }
}
