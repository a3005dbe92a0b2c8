ghost use Rattle.std.specs.Iterator.{YieldsFirstRef, item_count};
ghost use Rattle.std.specs.Prelude.{◌≡◌};
ghost use Rattle.text.specs.Reading.{lines_left, written_by};
ghost use Rattle.text.specs.RuleTexts.{ReadFromText};
ghost use Rattle.text.specs.TextLines.{LinesOf, held, line_start, numbered_line, text_lines};
ghost use Rattle.text.specs.Tokens.{PartAt};

use crate::reader::Reader;

/// The lines of a text, without their ends.
#[derive(Drop)]
struct Lines<'a>(Reader<'a>);

impl<'a> Iterator for Lines<'a> {
    type Item = &'a [u8];

    ghost next_gives = { YieldsFirstRef (λ s. lines_left s.0) };

    ghost remaining = { item_count (λ s. lines_left s.0) };

    #[tactic(auto, using(crate::proofs::Unread::lines_more))]
    fn next(&mut self) -> Option<&'a [u8]> {
        if self.0.is_at_end() {
            return None;
        }
        Some(self.0.take_line())
    }
}

/// The text line of that number, counted from 1, without its end. There is none for 0 and past the text's end.
pub fn line_text(text: &[u8], number: usize) -> Option<&[u8]>
    ensures value { held result ≡ numbered_line text.now number }
    ensures part { PartAt text.now (line_start text.now number) (held result) }
    ensures lines { LinesOf text.now (text_lines text.now) }
{
    let before = number.checked_sub(1)?;
    Lines(Reader::new(text)).nth(before)
}

/// The number, from 1, of the text line that table line `n`, from 0, was read from: of the text lines with a token, the one with `n` before it.
// No chain over `Lines`: of the line that is found no more is read than its first token.
#[tactic(auto, using(crate::proofs::RuleTexts::read_from))]
pub fn text_line_of(text: &[u8], n: usize) -> Option<usize>
    ensures value { result ≡ written_by text.now n }
    ensures source { ReadFromText text.now n }
{
    let mut reader = Reader::new(text);
    let mut before = n;
    while !reader.is_at_end() {
        if reader.next_token().is_some() {
            if before == 0 {
                return Some(reader.line_number());
            }
            before -= 1;
        }
        reader.next_line();
    }
    None
}
