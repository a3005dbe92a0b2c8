//! The balanced lines that stand for one line of a rule.

ghost use Rattle.std.specs.Prelude.{◌≡◌, ◌+◌, ◌-◌, ◌≤◌};
ghost use Rattle.lines.specs.Overwrites.{Wrote};
ghost use Rattle.lines.specs.Operations.{immediate};
ghost use Rattle.lines.specs.Sizes.{OperationShort, Short};
ghost use Rattle.nesting.specs.declared.open.Open.TheVariants.{Loop};
ghost use Rattle.nesting.specs.Levels.{opens};
ghost use Rattle.balance.specs.Fields.{f};
ghost use Rattle.balance.specs.Writing.{beginning, operating, choosing, turning, looping, ending, ending_of, breaking, written};

use lines::field::Field;
use lines::line::Line;
use lines::operation::Operation;
use lines::writer::Writer;
use nesting::open::{Frame, Open};
use nesting::stack::Stack;

/// Always 0.
const ZERO: Field = Field(64);
/// Always 1.
const ONE: Field = Field(65);
/// Where a result is held before it is merged.
const RESULT: Field = Field(66);
/// Where the old word is held for the merge.
const OLD: Field = Field(67);

/// How many lines are open around a line.
#[derive(Clone, Copy)]
struct Level {
    depth: usize,
    ghost shallow: { depth ≤ 8 },
}

/// Fields that hold something for each level: that of level 0 has this number, the others follow.
#[derive(Clone, Copy)]
struct Levels {
    first: u8,
    ghost low: { first ≤ 84 },
}

/// The mask of each level.
const MASK: Levels = Levels { first: 68 };
/// Which part the `if` around each level takes.
const CHOICE: Levels = Levels { first: 76 };
/// Where the counter of the loop around each level is kept.
const SAVED: Levels = Levels { first: 84 };

impl Levels {
    /// The field of the level.
    fn at(self, level: Level) -> Field
        ensures { result ≡ f (self.first + level.depth) }
    {
        Field(self.first + level.depth as u8)
    }

    /// The field of the level inside it.
    fn inside(self, level: Level) -> Field
        ensures { result ≡ f (self.first + (level.depth + 1)) }
    {
        Field(self.first + level.depth as u8 + 1)
    }
}

/// The fields that hold 0 and 1, and the mask of level 0, which is all ones.
pub(crate) fn beginning_lines() -> [Line; 3]
    ensures { result ≡ beginning }
{
    [
        Line::Operation(Operation::Word(ZERO, 0)),
        Line::Operation(Operation::Word(ONE, 1)),
        Line::Operation(Operation::Sub(MASK.at(Level { depth: 0 }), ZERO, ONE)),
    ]
}

/// The operation is done on the side, and kept only under the mask: elsewhere the old word stays.
fn operation_lines(level: Level, operation: Operation) -> [Line; 5]
    ensures lines { result ≡ operating level.depth operation }
    ensures short { Short (immediate operation) }
{
    let d = operation.destination();
    let mask = MASK.at(level);
    [
        Line::Operation(operation.into_field(RESULT)),
        Line::Operation(Operation::And(RESULT, RESULT, mask)),
        Line::Operation(Operation::Not(OLD, mask)),
        Line::Operation(Operation::And(OLD, OLD, d)),
        Line::Operation(Operation::Or(d, RESULT, OLD)),
    ]
}

/// The first part counts where the field is not 0 on arrival, which is kept for the `else`.
fn if_lines(level: Level, tested: Field) -> [Line; 3]
    ensures { result ≡ choosing level.depth tested }
{
    let choice = CHOICE.inside(level);
    [
        Line::Operation(Operation::Same(RESULT, tested, ZERO)),
        Line::Operation(Operation::Sub(choice, RESULT, ONE)),
        Line::Operation(Operation::And(MASK.inside(level), MASK.at(level), choice)),
    ]
}

/// The second part counts where the first did not.
fn else_lines(level: Level) -> [Line; 2]
    ensures { result ≡ turning level.depth }
{
    [
        Line::Operation(Operation::Not(RESULT, CHOICE.inside(level))),
        Line::Operation(Operation::And(MASK.inside(level), MASK.at(level), RESULT)),
    ]
}

/// The counter is saved, and the body has a mask of its own, which a break clears for all rounds that follow.
fn loop_lines(level: Level, counter: Field, rounds: u32) -> [Line; 3]
    ensures { result ≡ looping level.depth counter rounds }
{
    [
        Line::Operation(Operation::Copy(SAVED.inside(level), counter)),
        Line::Operation(Operation::Copy(MASK.inside(level), MASK.at(level))),
        Line::Turn(counter, rounds),
    ]
}

/// The end of a loop restores its counter.
fn loop_end_lines(level: Level, counter: Field) -> [Line; 2]
    ensures { result ≡ ending (Loop counter 0) level.depth }
{
    [
        Line::End,
        Line::Operation(Operation::Copy(counter, SAVED.inside(level))),
    ]
}

/// Writes the end of the innermost open line: that of an `if` has no lines, and neither has an `end` where none is open.
// An arm without lines writes none: that the count fits is known only of a writer that was used. The stack is no part of the writer, which knows no lines.
fn write_end<T: Copy>(out: &mut Writer<'_, Line>, stack: &Stack<Frame<T>>)
    ensures { Wrote out.old (ending_of (opens stack.now)) out.new }
{
    let level = Level {
        depth: stack.len().saturating_sub(1),
    };
    match stack.peek(0) {
        Some(frame) => match frame.part {
            Open::Loop(counter, _) => out.write(&loop_end_lines(level, counter)),
            Open::Then | Open::Else => out.write(&[]),
        },
        None => out.write(&[]),
    }
}

/// Where a break is reached, the masks from the loop's body up to its own level are cleared: the rest of the loop counts no more.
fn write_break(out: &mut Writer<'_, Line>, level: Level, body: usize)
    requires { body ≤ level.depth }
    ensures { Wrote out.old (breaking level.depth body) out.new }
{
    out.write(&[Line::Operation(Operation::Not(RESULT, MASK.at(level)))]);
    for cleared in body..level.depth + 1 {
        let mask = MASK.at(Level { depth: cleared });
        out.write(&[Line::Operation(Operation::And(mask, mask, RESULT))]);
    }
}

/// Writes the lines that stand for one line of the rule.
#[tactic(auto, using(crate::proofs::Clears::levels))]
pub(crate) fn write_line<T: Copy>(out: &mut Writer<'_, Line>, stack: &Stack<Frame<T>>, line: &Line)
    ensures wrote { Wrote out.old (written (opens stack.now) line.now) out.new }
    ensures short { OperationShort line.now }
{
    let level = Level { depth: stack.len() };
    match line {
        Line::Operation(operation) => out.write(&operation_lines(level, *operation)),
        Line::If(tested) => out.write(&if_lines(level, *tested)),
        Line::Else => out.write(&else_lines(Level {
            depth: level.depth.saturating_sub(1),
        })),
        Line::End => write_end(out, stack),
        Line::Loop(counter, rounds) => out.write(&loop_lines(level, *counter, *rounds)),
        // In a checked rule a `break` is inside a loop.
        Line::Break => write_break(out, level, stack.loop_level().unwrap_or(0)),
        Line::Turn(_, _) => out.write(&[]),
    }
}
