ghost use Rattle.std.specs.Prelude.{◌≡◌, [], OnOk};
ghost use Rattle.tables.specs.Admission.{admission, Admitted, IsTable};
ghost use Rattle.nesting.specs.Passes.{standing};
ghost use Rattle.tables.specs.Counting.{turn_steps, closing, opening, step, finish};

use crate::fault::AdmissionFault;
use lines::line::Line;
use nesting::capped::{capped_product, capped_sum};
use nesting::limits::{MAX_ROUNDS, MAX_STEPS};
use nesting::pass::{Pass, pass_over};
use nesting::stack::{DEPTH, Stack};

/// The most lines of a balanced table.
pub const MAX_TABLE_LINES: usize = 2400;

/// How many fields the lines of a table may use.
pub const TABLE_FIELDS: u8 = 96;

/// A turn whose `end` is still to come: its rounds, and the steps before it in its block.
#[derive(Clone, Copy)]
pub struct OpenTurn {
    rounds: u32,
    before: u32,
}

impl OpenTurn {
    /// The steps of the turn, whose body has so many, with those before it.
    fn steps(self, body: u32) -> u32
        ensures { result ≡ turn_steps self body }
    {
        let rounds = capped_product(self.rounds, capped_sum(body, 1));
        capped_sum(capped_sum(self.before, 1), rounds)
    }
}

/// Where admission of a table stands: the open turns, and the steps of the innermost block so far.
#[derive(Drop)]
pub struct StepCounter {
    stack: Stack<OpenTurn>,
    steps: u32,
}

impl StepCounter {
    /// Before the first line.
    fn new() -> StepCounter
        ensures { result ≡ record { stack = []; steps = 0 } }
    {
        StepCounter {
            stack: Stack::new(OpenTurn {
                rounds: 0,
                before: 0,
            }),
            steps: 0,
        }
    }

    /// A turn opens: the steps before it are kept until its end.
    fn open_turn(&mut self, at: usize, rounds: u32) -> Result<(), AdmissionFault>
        ensures { opening at rounds self.old ≡ standing result self.new }
    {
        if self.stack.len() >= DEPTH {
            return Err(AdmissionFault::TooDeep(at));
        }
        if rounds > MAX_ROUNDS {
            return Err(AdmissionFault::TooManyRounds(at));
        }
        let _ = self.stack.push(OpenTurn {
            rounds,
            before: self.steps,
        });
        self.steps = 0;
        Ok(())
    }

    /// `end`: the steps of the innermost turn are added to those before it.
    fn close_turn(&mut self, at: usize) -> Result<(), AdmissionFault>
        ensures { closing at self.old ≡ standing result self.new }
    {
        let turn = self.stack.pop().ok_or(AdmissionFault::StrayEnd(at))?;
        self.steps = turn.steps(self.steps);
        Ok(())
    }
}

impl Pass for StepCounter {
    type Answer = u32;

    type Fault = AdmissionFault;

    ghost step = { step };

    ghost ending = { finish };

    fn check_line(&mut self, at: usize, line: &Line) -> Result<(), AdmissionFault> {
        match line {
            Line::Operation(operation) if operation.is_within(TABLE_FIELDS) => {
                self.steps = capped_sum(self.steps, 1);
                Ok(())
            }
            Line::Turn(counter, rounds) if counter.0 < TABLE_FIELDS => self.open_turn(at, *rounds),
            Line::Operation(_) | Line::Turn(_, _) => Err(AdmissionFault::FieldOffTable(at)),
            Line::End => self.close_turn(at),
            Line::Else | Line::Break | Line::If(_) | Line::Loop(_, _) => {
                Err(AdmissionFault::RuleLine(at))
            }
        }
    }

    // The table has to be closed and not to take too many steps.
    fn finish(&self, lines: usize) -> Result<u32, AdmissionFault> {
        if !self.stack.is_empty() {
            Err(AdmissionFault::Unclosed(lines))
        } else if self.steps > MAX_STEPS {
            Err(AdmissionFault::TooManySteps(lines))
        } else {
            Ok(self.steps)
        }
    }
}

/// Whether a table may run: its steps, or the first fault.
#[tactic(auto, using(crate::proofs::Admits::admits, crate::proofs::Tables::stands, crate::proofs::Tables::lines_flat))]
pub fn admit(table: &[Line]) -> Result<u32, AdmissionFault>
    ensures answer { result ≡ admission table.now }
    ensures passed { OnOk result (Admitted table.now) }
    ensures table { Admitted table.now → IsTable table.now }
{
    if table.len() > MAX_TABLE_LINES {
        return Err(AdmissionFault::TooManyLines(table.len()));
    }
    pass_over(StepCounter::new(), table)
}
