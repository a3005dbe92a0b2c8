//! The part of the reader that makes a line of the tokens of a text line.

ghost use Rattle.std.specs.Prelude.{◌≡◌, ℕ};
ghost use Rattle.text.specs.Operands.{operand, no_more, last, two, three, alone, line_of, line_read, left, SameLine};
ghost use Rattle.text.specs.Reading.{unread, unread_behind, taken};
ghost use Rattle.text.specs.Tokens.{rest_of};

use crate::fault::ReadFault;
use crate::from_token::FromToken;
use crate::keyword::Keyword;
use crate::reader::Reader;
use lines::line::Line;
use lines::operation::Operation;

impl<'a> Reader<'a> {
    /// The next token, which has to be an operand of the kind.
    #[tactic(auto, using(crate::proofs::Taking::taking))]
    fn operand<T: FromToken>(&mut self) -> Result<T, ReadFault>
        ensures value { result ≡ operand T.kind self.old.number (left self.old) }
        ensures rest { left self.new ≡ rest_of (left self.old) }
        ensures same { SameLine self.old self.new }
    {
        let number = self.line_number();
        let token = self.next_token().ok_or(ReadFault::MissingOperand(number))?;
        T::from_token(token).ok_or(ReadFault::BadOperand(number))
    }

    /// The line has to end here.
    #[tactic(auto, using(crate::proofs::Taking::taking))]
    fn no_more(&mut self) -> Result<(), ReadFault>
        ensures value { result ≡ no_more self.old.number (left self.old) }
        ensures same { SameLine self.old self.new }
    {
        let number = self.line_number();
        match self.next_token() {
            Some(_) => Err(ReadFault::ExtraToken(number)),
            None => Ok(()),
        }
    }

    /// One operand and nothing else.
    fn last<A: FromToken>(&mut self) -> Result<A, ReadFault>
        ensures value { result ≡ last A.kind self.old.number (left self.old) }
        ensures same { SameLine self.old self.new }
    {
        let a = self.operand()?;
        self.no_more()?;
        Ok(a)
    }

    /// Two operands and nothing else.
    fn two<A: FromToken, B: FromToken>(&mut self) -> Result<(A, B), ReadFault>
        ensures value { result ≡ two A.kind B.kind self.old.number (left self.old) }
        ensures same { SameLine self.old self.new }
    {
        let a = self.operand()?;
        let b = self.last()?;
        Ok((a, b))
    }

    /// Three operands and nothing else.
    fn three<A: FromToken, B: FromToken, C: FromToken>(&mut self) -> Result<(A, B, C), ReadFault>
        ensures value { result ≡ three A.kind B.kind C.kind self.old.number (left self.old) }
        ensures same { SameLine self.old self.new }
    {
        let a = self.operand()?;
        let (b, c) = self.two()?;
        Ok((a, b, c))
    }

    /// The line, if no operand follows its line word.
    fn alone(&mut self, line: Line) -> Result<Line, ReadFault>
        ensures value { result ≡ alone self.old.number line (left self.old) }
        ensures same { SameLine self.old self.new }
    {
        self.no_more()?;
        Ok(line)
    }

    /// The line of a line word and the operands that follow it.
    fn line_of(&mut self, keyword: Keyword) -> Result<Line, ReadFault>
        ensures value { result ≡ line_of self.old.number keyword (left self.old) }
        ensures same { SameLine self.old self.new }
    {
        match keyword {
            Keyword::Word => self
                .two()
                .map(|(d, n)| Line::Operation(Operation::Word(d, n))),
            Keyword::Copy => self
                .two()
                .map(|(d, a)| Line::Operation(Operation::Copy(d, a))),
            Keyword::Not => self
                .two()
                .map(|(d, a)| Line::Operation(Operation::Not(d, a))),
            Keyword::Binary(binary) => self
                .three()
                .map(|(d, a, b)| Line::Operation(binary.apply(d, a, b))),
            Keyword::If => self.last().map(Line::If),
            Keyword::Else => self.alone(Line::Else),
            Keyword::End => self.alone(Line::End),
            Keyword::Loop => self.two().map(|(i, n)| Line::Loop(i, n)),
            Keyword::Break => self.alone(Line::Break),
            Keyword::Turn => self.two().map(|(i, n)| Line::Turn(i, n)),
        }
    }

    /// The line that the text line writes, or none where it has no token.
    #[tactic(auto, using(crate::proofs::Taking::taking))]
    pub(crate) fn line(&mut self) -> Result<Option<Line>, ReadFault>
        ensures value { result ≡ line_read self.old.number (left self.old) }
        ensures same { SameLine self.old self.new }
    {
        let number = self.line_number();
        let Some(token) = self.next_token() else {
            return Ok(None);
        };
        let keyword = Keyword::from_token(token).ok_or(ReadFault::NoLineWord(number))?;
        Ok(Some(self.line_of(keyword)?))
    }

    /// The next line that a text line writes, with the number of this text line, in which the reader stays.
    #[tactic(auto, using(crate::proofs::Unread::shrinks, crate::proofs::Unread::unread_fault))]
    pub(crate) fn entry(&mut self) -> Result<Option<(usize, Line)>, ReadFault>
        ensures { (room : ℕ) → unread room self.old ≡ taken room result (λ k. unread_behind k self.new) }
    {
        while !self.is_at_end() {
            let number = self.line_number();
            if let Some(line) = self.line()? {
                return Ok(Some((number, line)));
            }
            self.next_line();
        }
        Ok(None)
    }

    /// The same, and the reader goes past this text line.
    pub(crate) fn next_entry(&mut self) -> Result<Option<(usize, Line)>, ReadFault>
        ensures { (room : ℕ) → unread room self.old ≡ taken room result (λ k. unread k self.new) }
    {
        let entry = self.entry()?;
        self.next_line();
        Ok(entry)
    }
}
