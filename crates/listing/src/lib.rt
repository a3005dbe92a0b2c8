//! Tables of lines written out as text: a text line for each line, its words with single spaces between them.
#![tactic(auto)]

ghost use Rattle.std.specs.Prelude.{◌≡◌, ◌-◌, ◌*◌, ◌^◌, ◌≤◌, length, min, IfOk};
ghost use Rattle.lines.specs.Overwrites.{overwrite};
ghost use Rattle.lines.specs.Sizes.{TableBelow};
ghost use Rattle.listing.specs.Listing.{listing};
ghost use Rattle.listing.specs.Answers.{listed, buffer_after};
ghost use Rattle.listing.specs.RoundTrip.{ReadsBack};

pub mod fault;
mod line;
mod number;

use fault::ListFault;
use line::write_line;
use lines::line::Line;
use lines::writer::Writer;

/// The most bytes of a line with fields to f95, its end included, as `list` promises: `word f95 4294967295` has as many.
pub const MAX_LINE_BYTES: usize = 20;

/// Writes what fits of the listing, and answers how many bytes it has.
// `balance` has its like: one function for both would need a trait and two types, and is no plainer.
#[tactic(auto, using(lines::proofs::Overwrites::wrote_none))]
fn write_lines(table: &[Line], buffer: &mut [u8]) -> usize
    ensures bytes { buffer.new ≡ overwrite buffer.old 0 (listing table.now) }
    ensures count { result ≡ min (length (listing table.now)) (2 ^ 64 - 1) }
{
    let mut out = Writer::new(buffer);
    for line in table {
        write_line(&mut out, line);
    }
    out.count()
}

/// Writes the listing of a table into the buffer, and answers how many bytes it has. A buffer too short for the whole of it stays as it was.
/// A table within the limits of a text is what reading the listing gives.
// A count is answered, since a part of the buffer would keep the whole lent.
#[tactic(auto, using(crate::proofs::RoundTrip::listing_short, crate::proofs::RoundTrip::reads_back, crate::proofs::Writing::fit_buffer))]
pub fn list(table: &[Line], buffer: &mut [u8]) -> Result<usize, ListFault>
    ensures answer { result ≡ listed table.now (length buffer.old) }
    ensures bytes { buffer.new ≡ buffer_after table.now buffer.old }
    ensures within { IfOk result (λ n. n ≤ length buffer.old) }
    ensures short { TableBelow 96 table.now → length (listing table.now) ≤ MAX_LINE_BYTES * length table.now }
    ensures roundtrip { TableBelow 96 table.now → length table.now ≤ 2400 → ReadsBack table.now }
{
    // Nothing may be written where there is too little room: into an empty buffer the bytes are only counted.
    let needed = write_lines(table, &mut []);
    if needed > buffer.len() {
        return Err(ListFault::BufferTooShort);
    }
    Ok(write_lines(table, buffer))
}

#[cfg(test)]
mod tests {
    use super::*;
    use faults::Fault;
    use lines::field::Field;
    use lines::operation::Operation;

    // What a buffer holds before, so that each byte that is written shows.
    const UNUSED: u8 = b'#';

    const LENGTH: usize = 120;

    const TEXT: &[u8; LENGTH] =
        b"word f66 7\nand f66 f66 f68\nnot f67 f68\nturn f3 1000\nend\nbreak\nelse\nif f255\nloop f0 4294967295\nless f1 f2 f3\ncopy f0 f10\n";

    fn table() -> [Line; 11] {
        [
            Line::Operation(Operation::Word(Field(66), 7)),
            Line::Operation(Operation::And(Field(66), Field(66), Field(68))),
            Line::Operation(Operation::Not(Field(67), Field(68))),
            Line::Turn(Field(3), 1000),
            Line::End,
            Line::Break,
            Line::Else,
            Line::If(Field(255)),
            Line::Loop(Field(0), 4294967295),
            Line::Operation(Operation::Less(Field(1), Field(2), Field(3))),
            Line::Operation(Operation::Copy(Field(0), Field(10))),
        ]
    }

    #[test]
    fn exact_buffer_holds_the_listing(rt: HostRuntime) {
        let mut buffer = [UNUSED; LENGTH];
        assert_eq!(rt; list(&table(), &mut buffer), Ok(LENGTH));
        assert!(rt; &buffer == TEXT);
    }

    #[test]
    fn bytes_past_the_listing_stay(rt: HostRuntime) {
        let mut buffer = [UNUSED; 8];
        assert_eq!(rt; list(&[Line::End], &mut buffer), Ok(4));
        assert!(rt; &buffer == b"end\n####");
    }

    #[test]
    fn short_buffer_is_refused_and_stays(rt: HostRuntime) {
        let mut buffer = [UNUSED; 3];
        assert_eq!(rt;
            list(&[Line::End], &mut buffer),
            Err(ListFault::BufferTooShort)
        );
        assert!(rt; &buffer == b"###");
        assert_eq!(rt; ListFault::BufferTooShort.number(), 60);
        assert_eq!(rt; ListFault::BufferTooShort.place(), 0);
    }
}
