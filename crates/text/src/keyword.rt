ghost use Rattle.std.specs.Prelude.{◌≡◌};
ghost use Rattle.text.specs.Keywords.{keyword_of, applied};

use lines::field::Field;
use lines::operation::Operation;

/// The line word of an operation with two operands.
#[derive(Clone, Copy, PartialEq, Eq, Debug)]
pub enum Binary {
    Add,
    Sub,
    Mul,
    And,
    Or,
    Xor,
    Same,
    Less,
}

/// A line word.
#[derive(Clone, Copy, PartialEq, Eq, Debug)]
pub enum Keyword {
    Word,
    Copy,
    Not,
    Binary(Binary),
    If,
    Else,
    End,
    Loop,
    Break,
    Turn,
}

impl Binary {
    /// The operation on these fields.
    pub(crate) fn apply(self, d: Field, a: Field, b: Field) -> Operation
        ensures { result ≡ applied self d a b }
    {
        match self {
            Binary::Add => Operation::Add(d, a, b),
            Binary::Sub => Operation::Sub(d, a, b),
            Binary::Mul => Operation::Mul(d, a, b),
            Binary::And => Operation::And(d, a, b),
            Binary::Or => Operation::Or(d, a, b),
            Binary::Xor => Operation::Xor(d, a, b),
            Binary::Same => Operation::Same(d, a, b),
            Binary::Less => Operation::Less(d, a, b),
        }
    }
}

impl Keyword {
    /// The line word that the bytes spell.
    // No `TryFrom`: its error would have nothing to say.
    pub(crate) fn from_bytes(part: &[u8]) -> Option<Keyword>
        ensures { result ≡ keyword_of part.now }
    {
        match part {
            b"word" => Some(Keyword::Word),
            b"copy" => Some(Keyword::Copy),
            b"not" => Some(Keyword::Not),
            b"add" => Some(Keyword::Binary(Binary::Add)),
            b"sub" => Some(Keyword::Binary(Binary::Sub)),
            b"mul" => Some(Keyword::Binary(Binary::Mul)),
            b"and" => Some(Keyword::Binary(Binary::And)),
            b"or" => Some(Keyword::Binary(Binary::Or)),
            b"xor" => Some(Keyword::Binary(Binary::Xor)),
            b"same" => Some(Keyword::Binary(Binary::Same)),
            b"less" => Some(Keyword::Binary(Binary::Less)),
            b"if" => Some(Keyword::If),
            b"else" => Some(Keyword::Else),
            b"end" => Some(Keyword::End),
            b"loop" => Some(Keyword::Loop),
            b"break" => Some(Keyword::Break),
            b"turn" => Some(Keyword::Turn),
            _ => None,
        }
    }
}
