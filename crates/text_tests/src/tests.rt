use faults::Fault;
use lines::field::Field;
use lines::line::Line;
use lines::operation::Operation;
use std::alloc::{AllocError, Global};
use std::test::Fail;
use text::fault::ReadFault;
use text::reader::Reader;
use text::table::{MAX_LINES, MAX_TEXT, read};
use text::text_lines::{line_text, text_line_of};
use text::token::Token;

/// The number and the place of a refusal in place of the refusal itself.
// `preparation_tests` has its like: the two share no crate that is for tests alone.
fn refusal<T, F: Fault + Drop>(outcome: Result<T, F>) -> Result<T, (u32, usize)> {
    outcome.map_err(|fault| (fault.number(), fault.place()))
}

fn is_junk(text: &[u8]) -> bool {
    match Reader::new(text).next_token() {
        Some(Token::Junk { part, .. }) => part.len() == text.len(),
        _ => false,
    }
}

/// The line so many times, and then the tail.
fn repeated(heap: Global, line: &[u8], times: usize, tail: &[u8]) -> Result<Vec<u8>, AllocError> {
    let mut text = line.repeat(heap, times)?;
    text.extend_from_slice(tail)?;
    Ok(text)
}

#[test]
fn reads_lines(rt: HostRuntime) {
    let mut table = [Line::Break; 4];
    let text = b"; a comment\n  word f0 4294967295 ; more\n\nless f95 f1 f2;x\nturn f66 10";
    assert_eq!(rt; refusal(read(text, &mut table)), Ok(3));
    assert_eq!(rt;
        table[0],
        Line::Operation(Operation::Word(Field(0), 4_294_967_295))
    );
    assert_eq!(rt;
        table[1],
        Line::Operation(Operation::Less(Field(95), Field(1), Field(2)))
    );
    assert_eq!(rt; table[2], Line::Turn(Field(66), 10));
    assert_eq!(rt; table[3], Line::Break);
}

/// Texts with the number and the place of their refusal, or the count of their lines.
const CASES: [(&[u8], Result<usize, (u32, usize)>); 25] = [
    (b"", Ok(0)),
    (b"\n", Ok(0)),
    (b";", Ok(0)),
    (b"  ; end end\n ;\n", Ok(0)),
    (b"word\tf0 1", Err((2, 1))),
    (b"end\n\nEnd", Err((2, 3))),
    (b"f0 1", Err((2, 1))),
    (b"f96", Err((2, 1))),
    (b"007", Err((2, 1))),
    (b"4294967296", Err((2, 1))),
    (b"end\0", Err((2, 1))),
    (b"\xff", Err((2, 1))),
    (b"word f0 1\r\n", Err((3, 1))),
    (b"word f00 1", Err((3, 1))),
    (b"word f96 1", Err((3, 1))),
    (b"word f0 007", Err((3, 1))),
    (b"word f0 4294967296", Err((3, 1))),
    (b"word f0 99999999999999999999999999", Err((3, 1))),
    (b"end\nadd f0 f1", Err((3, 2))),
    (b"add f0 f1;f2", Err((3, 1))),
    (b"add f0 f1 f2 f3", Err((3, 1))),
    (b"if", Err((3, 1))),
    (b"if 0", Err((3, 1))),
    (b"loop f0 f1", Err((3, 1))),
    (b"else else", Err((3, 1))),
];

#[test]
fn refuses_texts(rt: HostRuntime) {
    for (text, expected) in CASES {
        let mut table = [Line::End; 8];
        assert_eq!(rt; refusal(read(text, &mut table)), expected);
    }
}

#[test]
fn refuses_a_full_table(rt: HostRuntime) {
    let mut table = [Line::Break; 1];
    assert_eq!(rt; refusal(read(b"else\n;\nend\n", &mut table)), Err((4, 3)));
    assert_eq!(rt; table[0], Line::Else);
    assert_eq!(rt; refusal(read(b"end\n\nnothing", &mut table)), Err((2, 3)));
    assert_eq!(rt; refusal(read(b"end\nend end", &mut table)), Err((3, 2)));
    let mut none = [Line::Break; 0];
    assert_eq!(rt; refusal(read(b"end", &mut none)), Err((4, 1)));
}

#[test]
fn prints_the_sentence(rt: HostRuntime) -> Result<(), Fail> {
    let printed = format!(in rt.alloc(); "{}", ReadFault::MissingOperand(3))?;
    assert_eq!(rt; printed.as_str(), "an operand is missing");
    Ok(())
}

/// Texts of one token, and whether it is junk.
const TOKENS: [(&[u8], bool); 9] = [
    (b"f", true),
    (b"f00", true),
    (b"f96", true),
    (b"00", true),
    (b"4294967296", true),
    (b"word\t", true),
    (b"f95", false),
    (b"0", false),
    (b"4294967295", false),
];

#[test]
fn knows_junk(rt: HostRuntime) {
    for (text, junk) in TOKENS {
        assert_eq!(rt; is_junk(text), junk);
    }
}

#[test]
fn goes_over_tokens(rt: HostRuntime) {
    let mut reader = Reader::new(b" if  f7;x\n12");
    assert!(rt; matches!(reader.next_token(), Some(Token::Word { place: 1, .. })));
    assert!(rt; matches!(reader.next_token(), Some(Token::Field { place: 5, .. })));
    assert!(rt; reader.next_token().is_none());
    assert!(rt; reader.next_token().is_none());
    assert_eq!(rt; reader.line_number(), 1);
    assert!(rt; reader.next_line());
    assert_eq!(rt; reader.line_number(), 2);
    assert!(rt;
        matches!(
            reader.next_token(),
            Some(Token::Number {
                place: 10,
                number: 12,
                ..
            })
        )
    );
    assert!(rt; !reader.next_line());
    assert!(rt; reader.is_at_end());
}

#[test]
fn gives_numbered_lines(rt: HostRuntime) -> Result<(), Fail> {
    let text = b"one\n\nthree\n";
    assert_eq!(rt; line_text(text, 0), None);
    assert_eq!(rt; line_text(text, 1).ok_or("no line")?, b"one".as_slice());
    assert_eq!(rt; line_text(text, 2).ok_or("no line")?, b"".as_slice());
    assert_eq!(rt; line_text(text, 3).ok_or("no line")?, b"three".as_slice());
    assert_eq!(rt; line_text(text, 4), None);
    assert_eq!(rt; line_text(b"", 1), None);
    assert_eq!(rt;
        line_text(b"\nlast", 2).ok_or("no line")?,
        b"last".as_slice()
    );
    assert_eq!(rt; line_text(b"\n", usize::MAX), None);
    Ok(())
}

#[test]
fn finds_the_lines_of_a_table(rt: HostRuntime) {
    let text = b"; no line\nend\n\n  \nelse ; yes\n";
    assert_eq!(rt; text_line_of(text, 0), Some(2));
    assert_eq!(rt; text_line_of(text, 1), Some(5));
    assert_eq!(rt; text_line_of(text, 2), None);
    assert_eq!(rt; text_line_of(b"", 0), None);
}

#[test]
fn limits_the_text(rt: HostRuntime) -> Result<(), Fail> {
    let mut table = [Line::End; 1];
    let mut text = repeated(rt.alloc(), b" ", MAX_TEXT, b"")?;
    assert_eq!(rt; refusal(read(&text, &mut table)), Ok(0));
    text.push(b' ')?;
    assert_eq!(rt; refusal(read(&text, &mut table)), Err((1, 0)));
    Ok(())
}

#[test]
fn limits_the_lines(rt: HostRuntime) -> Result<(), Fail> {
    let mut table = vec![in rt.alloc(); Line::Else; MAX_LINES + 1]?;
    let text = repeated(rt.alloc(), b"end\n", MAX_LINES, b";\n\n")?;
    assert_eq!(rt; refusal(read(&text, &mut table)), Ok(2400));
    let text = repeated(rt.alloc(), b"end\n", MAX_LINES, b";\n\nend")?;
    assert_eq!(rt; refusal(read(&text, &mut table)), Err((4, 2403)));
    let text = repeated(rt.alloc(), b"end\n", MAX_LINES, b"word f0\nend")?;
    assert_eq!(rt; refusal(read(&text, &mut table)), Err((3, 2401)));
    let text = repeated(rt.alloc(), b"end\n", MAX_LINES, b"words\nend")?;
    assert_eq!(rt; refusal(read(&text, &mut table)), Err((2, 2401)));
    Ok(())
}
