//! Tables and what admission answers.
use crate::refused;
use lines::field::Field;
use lines::line::Line;
use lines::operation::Operation;
use std::alloc::{AllocError, Global};
use std::test::Fail;
use tables::admit::admit;

/// The steps, or the fault's number and place.
fn outcome(table: &[Line]) -> Result<u32, (u32, usize)> {
    refused(admit(table))
}

fn turn(rounds: u32) -> Line {
    Line::Turn(Field(0), rounds)
}

fn not(field: u8) -> Line {
    Line::Operation(Operation::Not(Field(field), Field(95)))
}

#[test]
fn short_tables(rt: HostRuntime) {
    assert_eq!(rt; outcome(&[]), Ok(0));
    assert_eq!(rt; outcome(&[not(95)]), Ok(1));
    assert_eq!(rt; outcome(&[not(96)]), Err((32, 0)));
    assert_eq!(rt;
        outcome(&[not(0), Line::Turn(Field(96), 1001)]),
        Err((32, 1))
    );
    assert_eq!(rt; outcome(&[turn(3), not(0), Line::End]), Ok(7));
    assert_eq!(rt; outcome(&[Line::If(Field(0))]), Err((31, 0)));
    assert_eq!(rt; outcome(&[Line::Else]), Err((31, 0)));
    assert_eq!(rt; outcome(&[not(0), Line::Loop(Field(0), 1)]), Err((31, 1)));
    assert_eq!(rt; outcome(&[Line::Break]), Err((31, 0)));
    assert_eq!(rt; outcome(&[Line::End]), Err((33, 0)));
    assert_eq!(rt; outcome(&[turn(1)]), Err((33, 1)));
    assert_eq!(rt; outcome(&[turn(1000), Line::End]), Ok(1001));
    assert_eq!(rt; outcome(&[turn(1001), Line::End]), Err((35, 0)));
}

/// So many turns of one round inside one another.
fn nested(heap: Global, turns: usize) -> Result<Vec<Line>, AllocError> {
    let mut table = [turn(1)].repeat(heap, turns)?;
    table.extend_from_slice(&[Line::End].repeat(heap, turns)?)?;
    Ok(table)
}

#[test]
fn nested_turns(rt: HostRuntime) -> Result<(), Fail> {
    assert_eq!(rt; outcome(&nested(rt.alloc(), 8)?), Ok(16));
    assert_eq!(rt; outcome(&nested(rt.alloc(), 9)?), Err((34, 8)));
    Ok(())
}

#[test]
fn long_tables(rt: HostRuntime) -> Result<(), Fail> {
    let mut table = vec![in rt.alloc(); not(0); 2400]?;
    assert_eq!(rt; outcome(&table), Ok(2400));
    table.push(not(0))?;
    assert_eq!(rt; outcome(&table), Err((30, 2401)));
    Ok(())
}

#[test]
fn many_steps(rt: HostRuntime) -> Result<(), Fail> {
    // 1 + 1000 × (1 + 63 × 1 + 1) = 65,001 steps, and 534 more are the most.
    let mut table = Vec::new(rt.alloc());
    table.extend_from_slice(&[turn(1000), turn(63), Line::End, Line::End])?;
    table.extend_from_slice(&[not(0)].repeat(rt.alloc(), 534)?)?;
    assert_eq!(rt; outcome(&table), Ok(65_535));
    table.push(not(0))?;
    assert_eq!(rt; outcome(&table), Err((36, 539)));
    Ok(())
}
