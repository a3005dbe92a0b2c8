ghost use Rattle.std.specs.Prelude.{◌≡◌, ◌+◌, ◌≤◌, length, take, drop, nat_le, nat_lt, if◌then◌else◌};
ghost use Rattle.text.specs.Meanings.{viewed, first_seen, IsPart};
ghost use Rattle.text.specs.TextLines.{has_end, line_length, next_line};
ghost use Rattle.text.specs.Tokens.{tokens_at, after_token};

use crate::scan::{blanks, line_length, solids};
use crate::token::Token;

/// Goes over a text from line to line, and over a line from token to token. It copies none of the text.
#[derive(Drop)]
pub struct Reader<'a> {
    text: &'a [u8],
    at: usize,
    /// One more than the line ends before the place.
    number: usize,
    ghost within: { at ≤ length text.now },
    ghost counted: { number ≤ at + 1 },
}

impl<'a> Reader<'a> {
    /// A reader at the beginning of the text.
    pub fn new(text: &'a [u8]) -> Reader<'a>
        ensures text { result.text.now ≡ text.now }
        ensures at { result.at ≡ 0 }
        ensures number { result.number ≡ 1 }
    {
        Reader {
            text,
            at: 0,
            number: 1,
        }
    }

    /// Whether no line is left.
    pub fn is_at_end(&self) -> bool
        ensures { result ≡ nat_le (length self.now.text.now) self.now.at }
    {
        self.at >= self.text.len()
    }

    /// The number of the line, from 1.
    pub fn line_number(&self) -> usize
        ensures { result ≡ self.now.number }
    {
        self.number
    }

    /// What is left of the text.
    fn rest(&self) -> &'a [u8]
        ensures { result.now ≡ drop self.now.at self.now.text.now }
    {
        &self.text[self.at..]
    }

    /// What is left of the line.
    pub fn rest_of_line(&self) -> &'a [u8]
        ensures { result.now ≡ take (line_length (drop self.now.at self.now.text.now)) (drop self.now.at self.now.text.now) }
    {
        let rest = self.rest();
        &rest[..line_length(rest)]
    }

    /// The next token of the line. At the line's end or a comment there is none, and the reader stays there.
    #[tactic(auto, using(crate::proofs::Lexing::found_place, crate::proofs::Lexing::found_none, crate::proofs::Lexing::found_some))]
    pub fn next_token(&mut self) -> Option<Token<'a>>
        ensures text { self.new.text.now ≡ self.old.text.now }
        ensures at { self.new.at ≡ after_token self.old.text.now self.old.at }
        ensures number { self.new.number ≡ self.old.number }
        ensures part { IsPart self.old.text.now (viewed result) }
        ensures token { viewed result ≡ first_seen (tokens_at self.old.text.now self.old.at) }
    {
        self.at += blanks(self.rest());
        let place = self.at;
        let rest = self.rest();
        let part = &rest[..solids(rest)];
        self.at += part.len();
        if part.is_empty() {
            None
        } else {
            Some(Token::new(part, place))
        }
    }

    /// What is left of the line, past whose end the reader goes. At the text's end the reader stays.
    #[tactic(auto, using(crate::proofs::Runs::next_line_is, crate::proofs::Runs::line_length_line))]
    pub(crate) fn take_line(&mut self) -> &'a [u8]
        ensures line { result.now ≡ take (line_length (drop self.old.at self.old.text.now)) (drop self.old.at self.old.text.now) }
        ensures text { self.new.text.now ≡ self.old.text.now }
        ensures at { self.new.at ≡ next_line self.old.text.now self.old.at }
        ensures number { self.new.number ≡ (if has_end self.old.text.now self.old.at then self.old.number + 1 else self.old.number) }
    {
        let line = self.rest_of_line();
        self.at += line.len();
        if !self.is_at_end() {
            self.at += 1;
            self.number += 1;
        }
        line
    }

    /// Goes past the line's end, and answers whether another line begins there. At the text's end the reader stays.
    pub fn next_line(&mut self) -> bool
        ensures text { self.new.text.now ≡ self.old.text.now }
        ensures at { self.new.at ≡ next_line self.old.text.now self.old.at }
        ensures number { self.new.number ≡ (if has_end self.old.text.now self.old.at then self.old.number + 1 else self.old.number) }
        ensures more { result ≡ nat_lt (next_line self.old.text.now self.old.at) (length self.old.text.now) }
    {
        let _line = self.take_line();
        !self.is_at_end()
    }
}
