use crate::field::Field;
use crate::operation::Operation;

/// A line of a table. A rule has no `turn`; a balanced table has operations, `turn` and `end` alone.
#[derive(Clone, Copy, PartialEq, Eq, Debug)]
pub enum Line {
    /// Closes the innermost open `if`, `loop` or `turn`.
    End,
    Else,
    /// Ends the innermost loop.
    Break,
    Operation(Operation),
    If(Field),
    /// The body so many times, the field counting the rounds from 0; afterwards the field is as it was.
    Loop(Field, u32),
    /// The body so many times, the field counting the rounds from 0; nothing is restored.
    Turn(Field, u32),
}
