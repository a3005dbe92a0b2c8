//! Rule texts and what preparing them answers.
use faults::Fault;
use lines::line::Line;
use listing::list;
use preparation::fault::Stage;
use preparation::fault::Stage::{Balance, Check, Read};
use preparation::prepare::prepare;
use std::test::Fail;

/// The steps and the balanced lines, or the stage that refuses with the fault's number and place.
type Outcome = Result<(u32, usize), (Stage, u32, usize)>;

fn outcome(text: &[u8], rule: &mut [Line], table: &mut [Line]) -> Outcome {
    match prepare(text, rule, table) {
        Ok(prepared) => Ok((prepared.costs.balanced, prepared.balanced_lines)),
        Err(fault) => Err((fault.stage(), fault.number(), fault.place())),
    }
}

/// Short texts with their outcomes.
const CASES: [(&[u8], Outcome); 26] = [
    (b"", Ok((3, 3))),
    (b"word f0 7", Ok((8, 8))),
    (b"loop f0 0\nend", Ok((7, 8))),
    (b"loop f1 3\nadd f0 f0 f1\nend", Ok((25, 13))),
    (b"loop f1 2\nword f1 50\nadd f0 f0 f1\nend", Ok((29, 18))),
    (
        b"loop f1 5\nsame f2 f1 f3\nif f2\nbreak\nelse\nend\nadd f0 f0 f1\nend",
        Ok((102, 26)),
    ),
    (b"loop f0 1000\nend", Ok((1007, 8))),
    (b"word f0 1 2", Err((Read, 3, 1))),
    (b"turn f0 1\nend", Err((Check, 11, 0))),
    (b"word f64 1", Err((Check, 12, 0))),
    (b"add f0 f1 f95", Err((Check, 12, 0))),
    (b"if f64\nelse\nend", Err((Check, 12, 0))),
    (b"loop f64 1001\nend", Err((Check, 12, 0))),
    (b"else", Err((Check, 13, 0))),
    (b"end", Err((Check, 13, 0))),
    (b"if f0\nend", Err((Check, 13, 1))),
    (b"if f0\nelse\nelse\nend", Err((Check, 13, 2))),
    (b"loop f0 1\nelse\nend", Err((Check, 13, 1))),
    (b"if f0\nelse", Err((Check, 13, 2))),
    (b"loop f0 1\nif f1", Err((Check, 13, 2))),
    (b"break", Err((Check, 15, 0))),
    (b"if f0\nbreak\nelse\nend", Err((Check, 15, 1))),
    (b"loop f0 1\nend\nbreak", Err((Check, 15, 2))),
    (b"loop f0 1001\nend", Err((Check, 16, 0))),
    (b"loop f0 1001", Err((Check, 16, 0))),
    (b"loop f0 1000\nloop f1 1000\nend\nend", Err((Check, 17, 4))),
];

#[test]
fn short_texts(rt: HostRuntime) {
    for (text, expected) in CASES {
        let mut rule = [Line::Break; 16];
        let mut table = [Line::Break; 32];
        assert_eq!(rt; outcome(text, &mut rule, &mut table), expected);
    }
}

#[test]
fn edges_and_a_real_rule(rt: HostRuntime) {
    let mut rule = [Line::Break; 16];
    let mut table = [Line::Break; 40];
    assert_eq!(rt; outcome(b"word f63 7", &mut rule, &mut table), Ok((8, 8)));
    assert_eq!(rt; outcome(b"add 7", &mut rule, &mut table), Err((Read, 3, 1)));
    // The wedding songs: open 30 years after the singer's death.
    let text = b"word f3 30\nadd f3 f3 f1\nless f4 f0 f3\nif f4\nword f2 0\nelse\nword f2 1\nend";
    assert_eq!(rt; outcome(text, &mut rule, &mut table), Ok((33, 33)));
}

/// A long text, a first part, another so many times and a last one, with its outcome.
struct Long {
    first: &'static [u8],
    middle: &'static [u8],
    times: usize,
    last: &'static [u8],
    expected: Outcome,
}

const LONG: [Long; 10] = [
    Long {
        first: b"",
        middle: b"\n",
        times: 65_536,
        last: b"",
        expected: Ok((3, 3)),
    },
    Long {
        first: b"",
        middle: b"\n",
        times: 65_537,
        last: b"",
        expected: Err((Read, 1, 0)),
    },
    Long {
        first: b"",
        middle: b"not f0 f0\n",
        times: 256,
        last: b"",
        expected: Ok((1283, 1283)),
    },
    Long {
        first: b"",
        middle: b"not f0 f0\n",
        times: 257,
        last: b"",
        expected: Err((Check, 10, 257)),
    },
    Long {
        first: b"",
        middle: b"else\n",
        times: 257,
        last: b"",
        expected: Err((Check, 10, 257)),
    },
    Long {
        first: b"",
        middle: b"loop f0 1\n",
        times: 8,
        last: b"end\nend\nend\nend\nend\nend\nend\nend\n",
        expected: Ok((43, 43)),
    },
    Long {
        first: b"",
        middle: b"loop f0 1\n",
        times: 9,
        last: b"end\nend\nend\nend\nend\nend\nend\nend\nend\n",
        expected: Err((Check, 14, 8)),
    },
    Long {
        first: b"loop f0 1000\nloop f1 10\nadd f2 f2 f1\nend\nend\n",
        middle: b"",
        times: 0,
        last: b"",
        expected: Ok((65_007, 18)),
    },
    Long {
        first: b"loop f0 1000\nloop f1 10\nadd f2 f2 f1\nend\nend\n",
        middle: b"not f0 f0\n",
        times: 105,
        last: b"",
        expected: Ok((65_532, 543)),
    },
    Long {
        first: b"loop f0 1000\nloop f1 10\nadd f2 f2 f1\nend\nend\n",
        middle: b"not f0 f0\n",
        times: 106,
        last: b"",
        expected: Err((Check, 17, 111)),
    },
];

#[test]
fn long_texts(rt: HostRuntime) -> Result<(), Fail> {
    let mut rule = vec![in rt.alloc(); Line::Break; 2400]?;
    let mut table = vec![in rt.alloc(); Line::Break; 2400]?;
    for long in &LONG {
        let mut text = long.first.to_vec(rt.alloc())?;
        text.extend_from_slice(&long.middle.repeat(rt.alloc(), long.times)?)?;
        text.extend_from_slice(long.last)?;
        assert_eq!(rt; outcome(&text, &mut rule, &mut table), long.expected);
    }
    Ok(())
}

#[test]
fn listing_of_a_prepared_rule(rt: HostRuntime) {
    let mut rule = [Line::Break; 2];
    let mut table = [Line::Break; 9];
    let mut buffer = [b'#'; 125];
    assert_eq!(rt; outcome(b"word f0 7", &mut rule, &mut table), Ok((8, 8)));
    assert!(rt; list(&table[0..8], &mut buffer).is_ok());
    let listed =
        b"word f64 0\nword f65 1\nsub f68 f64 f65\nword f66 7\nand f66 f66 f68\nnot f67 f68\nand f67 f67 f0\nor f0 f66 f67\n";
    assert!(rt; buffer.starts_with(listed));
}

#[test]
fn refusals_leave_the_tables(rt: HostRuntime) {
    let mut rule = [Line::Break; 3];
    let mut table = [Line::Break; 8];
    // Refused after reading: the lines read stay in the first table, the second is as it was.
    assert_eq!(rt;
        outcome(b"end\nelse", &mut rule, &mut table),
        Err((Check, 13, 0))
    );
    assert!(rt; rule == [Line::End, Line::Else, Line::Break]);
    assert!(rt; table == [Line::Break; 8]);
    // One balanced line too many for the second table, then just enough room.
    assert_eq!(rt;
        outcome(b"not f0 f0\n", &mut rule, &mut table[0..7]),
        Err((Balance, 20, 0))
    );
    assert!(rt; table == [Line::Break; 8]);
    assert_eq!(rt; outcome(b"not f0 f0\n", &mut rule, &mut table), Ok((8, 8)));
}
