ghost use Rattle.std.specs.Prelude.{◌≡◌};
ghost use Rattle.text.specs.Meanings.{seen, meant};

use crate::keyword::Keyword;
use crate::numeral::{field_of, number_of};
use lines::field::Field;

/// A token: the part of the text that it is, the place of its first byte in the text, and what it means.
// Each case holds part and place, since callers match a case and take its part: a form fixed for the product (docs/DECISIONS.md, "Named forms").
#[derive(Clone, Copy)]
pub enum Token<'a> {
    Word {
        part: &'a [u8],
        place: usize,
        keyword: Keyword,
    },
    Field {
        part: &'a [u8],
        place: usize,
        field: Field,
    },
    Number {
        part: &'a [u8],
        place: usize,
        number: u32,
    },
    /// Neither a line word nor a well-formed field or number.
    Junk {
        part: &'a [u8],
        place: usize,
    },
}

impl<'a> Token<'a> {
    /// The token that a part of a text is.
    pub(crate) fn new(part: &'a [u8], place: usize) -> Token<'a>
        ensures { seen result ≡ meant (record { place = place; bytes = part.now }) }
    {
        if let Some(keyword) = Keyword::from_bytes(part) {
            Token::Word {
                part,
                place,
                keyword,
            }
        } else if let Some(field) = field_of(part) {
            Token::Field { part, place, field }
        } else if let Some(number) = number_of(part) {
            Token::Number {
                part,
                place,
                number,
            }
        } else {
            Token::Junk { part, place }
        }
    }
}
