ghost use Rattle.std.specs.Prelude.{◌≡◌, ◌≤◌, [], IfOk, OnOk};
ghost use Rattle.rules.specs.Checks.{checked, Checked, IsRule};
ghost use Rattle.rules.specs.CheckedRules.{priced};
ghost use Rattle.rules.specs.Costs.{plain_cost, balanced_cost};
ghost use Rattle.rules.specs.Trees.{rule_of};
ghost use Rattle.nesting.specs.Passes.{standing};
ghost use Rattle.rules.specs.Passes.{plus, if_costs, loop_costs, opening, looping, halving, closing, breaking, step, start, finish};

use crate::fault::CheckFault;
use crate::rule::CheckedRule;
use lines::field::Field;
use lines::line::Line;
use nesting::capped::{capped_product, capped_sum};
use nesting::limits::{MAX_ROUNDS, MAX_STEPS};
use nesting::open::{Frame, Open};
use nesting::pass::{Pass, pass_over};
use nesting::stack::{DEPTH, Stack};

/// The most lines of a rule.
pub const MAX_RULE_LINES: usize = 256;

/// How many fields a card has.
pub const CARD_FIELDS: u8 = 64;

/// What a rule costs.
#[derive(Clone, Copy, PartialEq, Eq, Debug)]
pub struct Costs {
    /// The most entries that a plain run writes to its roll.
    pub plain: u32,
    /// The steps of the balanced rule.
    pub balanced: u32,
}

/// What was summed up before an open line, and of an open `if` its first part.
#[derive(Clone, Copy)]
pub struct Sums {
    before: Costs,
    first: Costs,
}

const FREE: Costs = Costs {
    plain: 0,
    balanced: 0,
};

/// Before the first line: a balanced rule begins with three lines of its own.
const START: Costs = Costs {
    plain: 0,
    balanced: 3,
};

impl Costs {
    fn plus(self, plain: u32, balanced: u32) -> Costs
        ensures { result ≡ plus self plain balanced }
    {
        Costs {
            plain: capped_sum(self.plain, plain),
            balanced: capped_sum(self.balanced, balanced),
        }
    }
}

impl Sums {
    /// With the costs of an `if` whose second part costs so much.
    fn with_if(self, second: Costs) -> Costs
        ensures { result ≡ if_costs self second }
    {
        let longer = capped_sum(1, self.first.plain.max(second.plain));
        self.before
            .plus(longer, capped_sum(5, self.first.balanced))
            .plus(0, second.balanced)
    }

    /// With the costs of a loop whose body costs so much.
    fn with_loop(self, rounds: u32, body: Costs) -> Costs
        ensures { result ≡ loop_costs rounds self body }
    {
        self.before.plus(1, 4).plus(
            capped_product(rounds, body.plain),
            capped_product(rounds, capped_sum(body.balanced, 1)),
        )
    }
}

/// Where the check of a table stands: the open lines, and what the innermost block costs so far.
#[derive(Drop)]
pub struct Checker {
    stack: Stack<Frame<Sums>>,
    costs: Costs,
}

impl Checker {
    /// Before the first line.
    fn new() -> Checker
        ensures { result ≡ record { stack = []; costs = start } }
    {
        let kept = Sums {
            before: FREE,
            first: FREE,
        };
        Checker {
            stack: Stack::new(Frame {
                part: Open::Then,
                kept,
            }),
            costs: START,
        }
    }

    /// An `if` or a loop opens: what was summed up before it is kept until its end.
    fn open_line(&mut self, at: usize, part: Open) -> Result<(), CheckFault>
        ensures { opening at part self.old ≡ standing result self.new }
    {
        let kept = Sums {
            before: self.costs,
            first: FREE,
        };
        self.stack
            .push(Frame { part, kept })
            .map_err(|_| CheckFault::TooDeep(at))?;
        self.costs = FREE;
        Ok(())
    }

    /// `loop`: its depth is tested before its rounds.
    fn open_loop(&mut self, at: usize, counter: Field, rounds: u32) -> Result<(), CheckFault>
        ensures { looping at counter rounds self.old ≡ standing result self.new }
    {
        if self.stack.len() >= DEPTH {
            return Err(CheckFault::TooDeep(at));
        }
        if rounds > MAX_ROUNDS {
            return Err(CheckFault::TooManyRounds(at));
        }
        self.open_line(at, Open::Loop(counter, rounds))
    }

    /// `else`: the costs so far are those of the first part.
    fn halve_line(&mut self, at: usize) -> Result<(), CheckFault>
        ensures { halving at self.old ≡ standing result self.new }
    {
        let frame = self.stack.pop().ok_or(CheckFault::StrayElse(at))?;
        match frame.part {
            Open::Then => {
                let kept = Sums {
                    before: frame.kept.before,
                    first: self.costs,
                };
                let _ = self.stack.push(Frame {
                    part: Open::Else,
                    kept,
                });
                self.costs = FREE;
                Ok(())
            }
            Open::Else => Err(CheckFault::SecondElse(at)),
            Open::Loop(_, _) => Err(CheckFault::StrayElse(at)),
        }
    }

    /// `end`: the costs of the innermost open line are added to those before it.
    fn close_line(&mut self, at: usize) -> Result<(), CheckFault>
        ensures { closing at self.old ≡ standing result self.new }
    {
        let frame = self.stack.pop().ok_or(CheckFault::StrayEnd(at))?;
        self.costs = match frame.part {
            Open::Then => return Err(CheckFault::MissingElse(at)),
            Open::Else => frame.kept.with_if(self.costs),
            Open::Loop(_, rounds) => frame.kept.with_loop(rounds, self.costs),
        };
        Ok(())
    }

    /// `break`, which has to be inside a loop.
    fn break_line(&mut self, at: usize) -> Result<(), CheckFault>
        ensures { breaking at self.old ≡ standing result self.new }
    {
        let level = self.stack.len();
        let body = self
            .stack
            .loop_level()
            .ok_or(CheckFault::BreakOutsideLoop(at))?;
        self.costs = self.costs.plus(1, (level - body) as u32 + 2);
        Ok(())
    }
}

impl Pass for Checker {
    type Answer = Costs;

    type Fault = CheckFault;

    ghost step = { step };

    ghost ending = { finish };

    fn check_line(&mut self, at: usize, line: &Line) -> Result<(), CheckFault> {
        match line {
            Line::Operation(operation) if operation.is_within(CARD_FIELDS) => {
                self.costs = self.costs.plus(1, 5);
                Ok(())
            }
            Line::If(field) if field.0 < CARD_FIELDS => self.open_line(at, Open::Then),
            Line::Loop(counter, rounds) if counter.0 < CARD_FIELDS => {
                self.open_loop(at, *counter, *rounds)
            }
            Line::Operation(_) | Line::If(_) | Line::Loop(_, _) => {
                Err(CheckFault::FieldOffCard(at))
            }
            Line::Else => self.halve_line(at),
            Line::End => self.close_line(at),
            Line::Break => self.break_line(at),
            Line::Turn(_, _) => Err(CheckFault::TurnInRule(at)),
        }
    }

    // The rule has to be closed and not to take too many steps.
    fn finish(&self, count: usize) -> Result<Costs, CheckFault> {
        if !self.stack.is_empty() {
            Err(CheckFault::Unclosed(count))
        } else if self.costs.balanced > MAX_STEPS {
            Err(CheckFault::TooManySteps(count))
        } else {
            Ok(self.costs)
        }
    }
}

/// Whether a table is a rule: the rule with what it costs, or the first fault.
#[tactic(auto, using(crate::proofs::Checked::checks, crate::proofs::Checked::plain_below, crate::proofs::Parsed::stands, crate::proofs::Parsed::rule_flat), unfolding(crate::specs::Costs::balanced_cost))]
pub fn check(lines: &[Line]) -> Result<CheckedRule<'_>, CheckFault>
    ensures answer { priced result ≡ checked lines.now }
    ensures same { IfOk result (λ rule. rule.lines.now ≡ lines.now) }
    ensures passed { OnOk result (Checked lines.now) }
    ensures rule { Checked lines.now → IsRule lines.now }

    // A plain run is never longer than the balanced one.
    ensures plain { plain_cost (rule_of lines.now) ≤ balanced_cost (rule_of lines.now) }
{
    if lines.len() > MAX_RULE_LINES {
        return Err(CheckFault::TooManyLines(lines.len()));
    }
    let costs = pass_over(Checker::new(), lines)?;
    Ok(CheckedRule::new(lines, costs))
}
