ghost use Rattle.std.specs.Prelude.{decimal};
ghost use Rattle.lines.specs.Overwrites.{Wrote};

use lines::writer::Writer;

/// Writes a number in decimal.
// By hand: what the kit's `itoa` states of itself would be trusted too, and it clears a buffer for each number.
pub(crate) fn write_number(out: &mut Writer<'_, u8>, n: u32)
    ensures { Wrote out.old (decimal n) out.new }
{
    if n >= 10 {
        write_number(out, n / 10);
    }
    out.write(&[b'0' + (n % 10) as u8]);
}
