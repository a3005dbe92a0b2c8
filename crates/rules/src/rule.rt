ghost use Rattle.std.specs.Prelude.{◌≡◌};
ghost use Rattle.rules.specs.Checks.{Checked, costs_of};
ghost use Rattle.rules.specs.Trees.{rule_of};

use crate::check::{Costs, check};
use lines::line::Line;

/// A table that passed the check, with what the rule costs.
#[derive(Clone, Copy, PartialEq, Eq, Debug)]
pub struct CheckedRule<'a> {
    lines: &'a [Line],
    costs: Costs,
    pub ghost checked: { Checked lines.now },
    pub ghost priced: { costs ≡ costs_of (rule_of lines.now) },
}

impl<'a> CheckedRule<'a> {
    pub(crate) fn new(lines: &'a [Line], costs: Costs) -> CheckedRule<'a>
        requires checked { Checked lines.now }
        requires priced { costs ≡ costs_of (rule_of lines.now) }
        ensures lines { result.lines.now ≡ lines.now }
        ensures costs { result.costs ≡ costs }
    {
        CheckedRule { lines, costs }
    }

    /// The rule of a table of which it is known already that it passes.
    pub fn of(lines: &'a [Line]) -> CheckedRule<'a>
        requires { Checked lines.now }
        ensures { result.lines.now ≡ lines.now }
    {
        match check(lines) {
            Ok(rule) => rule,
            Err(_) => unreachable!(),
        }
    }

    /// The lines of the table.
    pub fn lines(&self) -> &'a [Line]
        ensures { result.now ≡ self.now.lines.now }
    {
        self.lines
    }

    /// What the rule costs.
    pub fn costs(&self) -> Costs
        ensures { result ≡ self.now.costs }
    {
        self.costs
    }
}
