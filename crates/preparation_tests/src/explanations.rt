//! What is said of refused texts: the line that reports the refusal, the sentence, and the text line at fault.
use lines::line::Line;
use preparation::explain::{Refusal, fault_line};
use preparation::fault::{PrepareFault, Stage};
use preparation::prepare::prepare;
use std::test::Fail;
use text::text_lines::line_text;

/// The refusal of a text, with tables of so few entries that both can be too short.
fn refusal(text: &[u8]) -> Option<PrepareFault> {
    let mut rule = [Line::Break; 4];
    let mut table = [Line::Break; 8];
    prepare(text, &mut rule, &mut table).err()
}

/// A text with what is said of it, and the number and text of the line at fault, if one is.
struct Case {
    text: &'static [u8],
    refusal: &'static str,
    sentence: &'static str,
    line: Option<(usize, &'static [u8])>,
}

const CASES: [Case; 8] = [
    Case {
        text: b"; first\nwords f0 1\n",
        refusal: "refused read 2 2",
        sentence: "the line does not begin with a line word",
        line: Some((2, b"words f0 1")),
    },
    Case {
        text: b"word f0",
        refusal: "refused read 3 1",
        sentence: "an operand is missing",
        line: Some((1, b"word f0")),
    },
    Case {
        text: b"\nend\xff end ; more\n",
        refusal: "refused read 2 2",
        sentence: "the line does not begin with a line word",
        line: Some((2, b"end\xff end ; more")),
    },
    Case {
        text: b"end\nend\nend\nend\n\nend",
        refusal: "refused read 4 6",
        sentence: "the table has no room for this line",
        line: Some((6, b"end")),
    },
    Case {
        text: b"word f0 7\n\n  break ; out\n",
        refusal: "refused check 15 1",
        sentence: "the `break` is outside every loop",
        line: Some((3, b"  break ; out")),
    },
    Case {
        text: b"if f0\n\nelse",
        refusal: "refused check 13 2",
        sentence: "a line is left open at the end",
        line: None,
    },
    Case {
        text: b"loop f0 1000\nloop f1 1000\nend\nend",
        refusal: "refused check 17 4",
        sentence: "the rule takes more than 65,535 steps once balanced",
        line: None,
    },
    Case {
        text: b"not f0 f0\nnot f0 f0",
        refusal: "refused balance 20 0",
        sentence: "the table has no room for the balanced lines",
        line: None,
    },
];

#[test]
fn refusals_are_explained(rt: HostRuntime) -> Result<(), Fail> {
    for case in &CASES {
        let fault = refusal(case.text).ok_or("the text is not refused")?;
        let refusal = Refusal(fault);
        assert!(rt; format!(in rt.alloc(); "{refusal}")?.as_str() == case.refusal);
        assert!(rt; format!(in rt.alloc(); "{fault}")?.as_str() == case.sentence);
        let number = fault_line(&fault, case.text);
        assert_eq!(rt; number, case.line.map(|line| line.0));
        if let (Some(number), Some(line)) = (number, case.line) {
            assert!(rt; line_text(case.text, number).ok_or("no such line")? == line.1);
        }
    }
    Ok(())
}

#[test]
fn stages_are_named(rt: HostRuntime) {
    assert!(rt; Stage::Read.name() == "read");
    assert!(rt; Stage::Check.name() == "check");
    assert!(rt; Stage::Balance.name() == "balance");
}
