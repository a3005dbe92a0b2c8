ghost use Rattle.std.specs.Prelude.{◌≡◌, Option};
ghost use Rattle.text.specs.Meanings.{Meaning, seen, as_word, as_field, as_number};

use crate::keyword::Keyword;
use crate::token::Token;
use lines::field::Field;

/// A kind of token: the line words, and the operands that follow them.
pub(crate) trait FromToken: Drop {
    ghost kind: { Meaning → Option Self };

    /// What the token is, if it is one of this kind.
    fn from_token(token: Token<'_>) -> Option<Self>
        ensures { result ≡ kind (seen token.entry).means };
}

impl FromToken for Keyword {
    ghost kind = { as_word };

    fn from_token(token: Token<'_>) -> Option<Keyword> {
        match token {
            Token::Word { keyword, .. } => Some(keyword),
            _ => None,
        }
    }
}

impl FromToken for Field {
    ghost kind = { as_field };

    fn from_token(token: Token<'_>) -> Option<Field> {
        match token {
            Token::Field { field, .. } => Some(field),
            _ => None,
        }
    }
}

impl FromToken for u32 {
    ghost kind = { as_number };

    fn from_token(token: Token<'_>) -> Option<u32> {
        match token {
            Token::Number { number, .. } => Some(number),
            _ => None,
        }
    }
}
