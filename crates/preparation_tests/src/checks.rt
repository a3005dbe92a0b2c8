//! Checks of tables that no text gives.
use crate::refused;
use lines::field::Field;
use lines::line::Line;
use lines::operation::Operation;
use rules::check::{Costs, check};

/// The costs, or the fault's number and place.
fn outcome(table: &[Line]) -> Result<Costs, (u32, usize)> {
    refused(check(table)).map(|rule| rule.costs())
}

#[test]
fn fields_of_any_byte(rt: HostRuntime) {
    assert_eq!(rt; outcome(&[Line::If(Field(255))]), Err((12, 0)));
    assert_eq!(rt;
        outcome(&[Line::Operation(Operation::Copy(Field(0), Field(200)))]),
        Err((12, 0))
    );
    assert_eq!(rt; outcome(&[Line::Turn(Field(255), 0)]), Err((11, 0)));
}

#[test]
fn costs_of_a_rule(rt: HostRuntime) {
    let rule = [
        Line::Loop(Field(1), 3),
        Line::Operation(Operation::Add(Field(0), Field(0), Field(1))),
        Line::If(Field(0)),
        Line::Break,
        Line::Else,
        Line::End,
        Line::End,
    ];
    // Plain: 1 + 3 × (1 + 1 + 1). Balanced: 3 + 4 + 3 × (5 + 5 + 3 + 1).
    let expected = Costs {
        plain: 10,
        balanced: 49,
    };
    assert_eq!(rt; outcome(&rule), Ok(expected));
}
