ghost use Rattle.std.specs.Prelude.{◌≡◌, ◌-◌, ◌^◌, [], ◌++◌, length, min, take, IfOk};
ghost use Rattle.std.specs.List.{AllByRecursion};
ghost use Rattle.lines.specs.Overwrites.{Wrote, overwrite};
ghost use Rattle.lines.specs.Sizes.{OperationShort, TableBelow};
ghost use Rattle.nesting.specs.Levels.{opens};
ghost use Rattle.rules.specs.Checks.{Checked, after};
ghost use Rattle.balance.specs.Balancing.{balanced_lines_of, balance_answer, table_after, Written, AlwaysAdmitted};
ghost use Rattle.balance.specs.Nested.{Nested};
ghost use Rattle.balance.specs.Writing.{pass, beginning};

use crate::fault::BalanceFault;
use crate::write::{beginning_lines, write_line};
use lines::line::Line;
use lines::writer::Writer;
use nesting::open::{Frame, Open};
use nesting::stack::Stack;

/// Keeps track of the open lines past one line of a checked rule.
#[tactic(auto, using(crate::proofs::Clears::levels))]
fn advance(stack: &mut Stack<Frame<()>>, line: &Line)
    requires { Nested (opens stack.old) line.now }
    ensures { opens stack.new ≡ after (opens stack.old) line.now }
{
    let opened = match line {
        Line::If(_) => Open::Then,
        Line::Loop(counter, rounds) => Open::Loop(*counter, *rounds),
        Line::Else => {
            let _ = stack.pop();
            Open::Else
        }
        Line::End => {
            let _ = stack.pop();
            return;
        }
        Line::Operation(_) | Line::Break | Line::Turn(_, _) => return,
    };
    let _ = stack.push(Frame {
        part: opened,
        kept: (),
    });
}

/// Writes the balanced lines of a rule.
#[tactic(auto, using(crate::proofs::Passed::passing), unfolding(crate::specs::Writing::pass))]
fn write_lines(lines: &[Line], out: &mut Writer<'_, Line>)
    requires { Checked lines.now }
    ensures wrote { Wrote out.old (beginning ++ pass [] lines.now) out.new }
    ensures short { AllByRecursion OperationShort lines.now }
{
    out.write(&beginning_lines());
    let mut stack = Stack::new(Frame {
        part: Open::Then,
        kept: (),
    });
    for line in lines {
        write_line(out, &stack, line);
        advance(&mut stack, line);
    }
}

/// Writes what fits of the balanced lines into the table, and answers how many there are.
// `listing` has its like: one function for both would need a trait and two types, and is no plainer.
fn write_rule(lines: &[Line], table: &mut [Line]) -> usize
    requires { Checked lines.now }
    ensures table { table.new ≡ overwrite table.old 0 (beginning ++ pass [] lines.now) }
    ensures count { result ≡ min (length (beginning ++ pass [] lines.now)) (2 ^ 64 - 1) }
    ensures short { AllByRecursion OperationShort lines.now }
{
    let mut out = Writer::new(table);
    write_lines(lines, &mut out);
    out.count()
}

/// Balances a rule into the lent table, and answers how many lines it wrote. A table too short for all of them stays as it was.
// A count is answered, since a part of the table would keep the whole lent. Lines, and no `CheckedRule`: whoever knows that they pass need not check them.
#[tactic(auto, using(crate::proofs::Lent::lent))]
pub fn balance(lines: &[Line], table: &mut [Line]) -> Result<usize, BalanceFault>
    requires { Checked lines.now }
    ensures answer { result ≡ balance_answer (balanced_lines_of lines.now) (length table.old) }
    ensures table { table.new ≡ table_after (balanced_lines_of lines.now) table.old }
    ensures written { IfOk result (λ n. Written n table.new) }
    ensures always { AlwaysAdmitted lines.now }
    ensures lines { IfOk result (λ n. take n table.new ≡ balanced_lines_of lines.now) }
    ensures sized { IfOk result (λ n. TableBelow 96 (take n table.new)) }
{
    // Nothing may be written where there is too little room: into a table of no entries the lines are only counted.
    let needed = write_rule(lines, &mut []);
    if needed > table.len() {
        return Err(BalanceFault::TableTooShort);
    }
    Ok(write_rule(lines, table))
}
