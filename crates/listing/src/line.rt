//! The text of one line, written as far as there is room. No `impl Display`: `fmt` says nothing of what was written where it fails, and never that it does not fail, so `list` could not promise its answer.

ghost use Rattle.std.specs.Prelude.{[], ◌∷◌, map, decimal};
ghost use Rattle.lines.specs.Overwrites.{Wrote};
ghost use Rattle.listing.specs.Listing.{field_word, spaced_word, spaced, operation_words, line_words, line_bytes};

use crate::number::write_number;
use lines::field::Field;
use lines::line::Line;
use lines::operation::Operation;
use lines::writer::Writer;

/// Writes a space and the field.
fn write_field(out: &mut Writer<'_, u8>, field: Field)
    ensures { Wrote out.old (spaced_word (field_word field)) out.new }
{
    out.write(b" f");
    write_number(out, u32::from(field.0));
}

/// Writes a name and the fields after it.
fn write_fields(out: &mut Writer<'_, u8>, name: &[u8], fields: &[Field])
    ensures { Wrote out.old (spaced (name.now ∷ map field_word fields.now)) out.new }
{
    out.write(name);
    for field in fields {
        write_field(out, *field);
    }
}

/// Writes a name, a field and a number.
fn write_counted(out: &mut Writer<'_, u8>, name: &[u8], field: Field, n: u32)
    ensures { Wrote out.old (spaced (name.now ∷ field_word field ∷ decimal n ∷ [])) out.new }
{
    out.write(name);
    write_field(out, field);
    out.write(b" ");
    write_number(out, n);
}

/// Writes an operation.
fn write_operation(out: &mut Writer<'_, u8>, operation: &Operation)
    ensures { Wrote out.old (spaced (operation_words operation.now)) out.new }
{
    match operation {
        Operation::Word(d, n) => write_counted(out, b"word", *d, *n),
        Operation::Copy(d, a) => write_fields(out, b"copy", &[*d, *a]),
        Operation::Not(d, a) => write_fields(out, b"not", &[*d, *a]),
        Operation::Add(d, a, b) => write_fields(out, b"add", &[*d, *a, *b]),
        Operation::Sub(d, a, b) => write_fields(out, b"sub", &[*d, *a, *b]),
        Operation::Mul(d, a, b) => write_fields(out, b"mul", &[*d, *a, *b]),
        Operation::And(d, a, b) => write_fields(out, b"and", &[*d, *a, *b]),
        Operation::Or(d, a, b) => write_fields(out, b"or", &[*d, *a, *b]),
        Operation::Xor(d, a, b) => write_fields(out, b"xor", &[*d, *a, *b]),
        Operation::Same(d, a, b) => write_fields(out, b"same", &[*d, *a, *b]),
        Operation::Less(d, a, b) => write_fields(out, b"less", &[*d, *a, *b]),
    }
}

/// Writes the words of a line.
fn write_words(out: &mut Writer<'_, u8>, line: &Line)
    ensures { Wrote out.old (spaced (line_words line.now)) out.new }
{
    match line {
        Line::End => write_fields(out, b"end", &[]),
        Line::Else => write_fields(out, b"else", &[]),
        Line::Break => write_fields(out, b"break", &[]),
        Line::Operation(operation) => write_operation(out, operation),
        Line::If(a) => write_fields(out, b"if", &[*a]),
        Line::Loop(i, n) => write_counted(out, b"loop", *i, *n),
        Line::Turn(i, n) => write_counted(out, b"turn", *i, *n),
    }
}

/// Writes a line with the byte that ends it.
pub(crate) fn write_line(out: &mut Writer<'_, u8>, line: &Line)
    ensures { Wrote out.old (line_bytes line.now) out.new }
{
    write_words(out, line);
    out.write(b"\n");
}
