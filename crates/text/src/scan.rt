//! How far the bytes of one sort go at the front of a text.

ghost use Rattle.std.specs.Prelude.{◌≡◌, ◌≤◌, length};
ghost use Rattle.text.specs.TextLines.{line_length};
ghost use Rattle.text.specs.Tokens.{blanks, solids};

const LINE_END: u8 = b'\n';

const COMMENT: u8 = b';';

const BLANK: u8 = b' ';

/// How many bytes in front are blank.
pub(crate) fn blanks(text: &[u8]) -> usize
    ensures value { result ≡ blanks text.now }
    ensures within { result ≤ length text.now }
{
    text.iter().take_while(|b| **b == BLANK).count()
}

/// How many bytes in front are of a token.
pub(crate) fn solids(text: &[u8]) -> usize
    ensures value { result ≡ solids text.now }
    ensures within { result ≤ length text.now }
{
    text.iter()
        .take_while(|b| **b != BLANK && **b != LINE_END && **b != COMMENT)
        .count()
}

/// How many bytes the first line has, without its end.
pub(crate) fn line_length(text: &[u8]) -> usize
    ensures value { result ≡ line_length text.now }
    ensures within { result ≤ length text.now }
{
    text.iter().take_while(|b| **b != LINE_END).count()
}
