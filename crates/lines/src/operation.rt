ghost use Rattle.std.specs.Prelude.{◌≡◌};
ghost use Rattle.lines.specs.Operations.{destination, into, within, immediate};
ghost use Rattle.lines.specs.Sizes.{Short};

use crate::field::Field;

/// An operation line: what is computed from which fields, and the field that it goes to, always the first.
// Eleven flat cases: with an operator in one of them, a loop that does operations took half as long again (docs/DECISIONS.md).
#[derive(Clone, Copy, PartialEq, Eq, Debug)]
pub enum Operation {
    /// The field becomes the number.
    Word(Field, u32),
    Copy(Field, Field),
    /// Each bit turned.
    Not(Field, Field),
    Add(Field, Field, Field),
    Sub(Field, Field, Field),
    Mul(Field, Field, Field),
    And(Field, Field, Field),
    Or(Field, Field, Field),
    Xor(Field, Field, Field),
    /// 1 for equal words, else 0.
    Same(Field, Field, Field),
    /// 1 where the first is below the second, without sign, else 0.
    Less(Field, Field, Field),
}

impl Operation {
    /// The field that the operation writes.
    pub fn destination(&self) -> Field
        ensures { result ≡ destination self.now }
    {
        match self {
            Operation::Word(d, _)
            | Operation::Copy(d, _)
            | Operation::Not(d, _)
            | Operation::Add(d, _, _)
            | Operation::Sub(d, _, _)
            | Operation::Mul(d, _, _)
            | Operation::And(d, _, _)
            | Operation::Or(d, _, _)
            | Operation::Xor(d, _, _)
            | Operation::Same(d, _, _)
            | Operation::Less(d, _, _) => *d,
        }
    }

    /// The same operation, its result put into another field. The number that it holds has, as its type says, at most 32 bits.
    pub fn into_field(self, d: Field) -> Operation
        ensures value { result ≡ into self d }
        ensures short { Short (immediate self) }
    {
        match self {
            Operation::Word(_, n) => Operation::Word(d, n),
            Operation::Copy(_, a) => Operation::Copy(d, a),
            Operation::Not(_, a) => Operation::Not(d, a),
            Operation::Add(_, a, b) => Operation::Add(d, a, b),
            Operation::Sub(_, a, b) => Operation::Sub(d, a, b),
            Operation::Mul(_, a, b) => Operation::Mul(d, a, b),
            Operation::And(_, a, b) => Operation::And(d, a, b),
            Operation::Or(_, a, b) => Operation::Or(d, a, b),
            Operation::Xor(_, a, b) => Operation::Xor(d, a, b),
            Operation::Same(_, a, b) => Operation::Same(d, a, b),
            Operation::Less(_, a, b) => Operation::Less(d, a, b),
        }
    }

    /// Whether each field of the operation is below a count.
    pub fn is_within(&self, count: u8) -> bool
        ensures { result ≡ within count self.now }
    {
        match self {
            Operation::Word(d, _) => d.0 < count,
            Operation::Copy(d, a) | Operation::Not(d, a) => d.0 < count && a.0 < count,
            Operation::Add(d, a, b)
            | Operation::Sub(d, a, b)
            | Operation::Mul(d, a, b)
            | Operation::And(d, a, b)
            | Operation::Or(d, a, b)
            | Operation::Xor(d, a, b)
            | Operation::Same(d, a, b)
            | Operation::Less(d, a, b) => d.0 < count && a.0 < count && b.0 < count,
        }
    }
}
