ghost use Rattle.std.specs.Prelude.{◌≡◌, length, take, IfOk, IfErr};
ghost use Rattle.rules.specs.Checks.{Checked, checked};
ghost use Rattle.balance.specs.Balancing.{Written};
ghost use Rattle.listing.specs.RoundTrip.{ReadsBack};
ghost use Rattle.text.specs.Reading.{reading, filled};
ghost use Rattle.preparation.specs.Explaining.{Explained};
ghost use Rattle.preparation.specs.Preparing.{balancing, checked_after, preparing, second_table, Balanced, Ready};

use crate::fault::PrepareFault;
use balance::balance::balance;
use lines::line::Line;
use listing::MAX_LINE_BYTES;
use rules::check::{Costs, check};
use tables::admit::MAX_TABLE_LINES;
use text::table::read;

/// Room for the listing of any balanced table.
pub const MAX_LISTING_BYTES: usize = MAX_LINE_BYTES * MAX_TABLE_LINES;

/// What was prepared: how many lines of each lent table it fills, and what the rule costs.
// Counts, since parts of the tables would keep both lent.
#[derive(Clone, Copy, PartialEq, Eq, Debug)]
pub struct Prepared {
    pub rule_lines: usize,
    pub balanced_lines: usize,
    pub costs: Costs,
}

/// Checks a rule and balances it: what it costs, and how many balanced lines there are.
#[tactic(auto, using(balance::proofs::Lent::always))]
fn check_and_balance(lines: &[Line], table: &mut [Line]) -> Result<(Costs, usize), PrepareFault>
    ensures answer { result ≡ balancing lines.now (length table.old) }
    ensures table { table.new ≡ checked_after (checked lines.now) lines.now table.old }
    ensures ready { IfOk result (λ p. Checked lines.now × Written p.1 table.new) }
    ensures balanced { IfOk result (λ p. Balanced lines.now (take p.1 table.new) p.0) }
{
    let rule = check(lines)?;
    let balanced_lines = balance(lines, table)?;
    Ok((rule.costs(), balanced_lines))
}

/// Reads a rule text into the first table, checks it, and balances it into the second. Refused after reading, it leaves all lines read in the first
/// table and the second as it was.
#[tactic(auto, using(crate::proofs::Fronts::fronts))]
pub fn prepare(text: &[u8], rule: &mut [Line], table: &mut [Line]) -> Result<Prepared, PrepareFault>
    ensures answer { result ≡ preparing text.now (length rule.old) (length table.old) }
    ensures rule { rule.new ≡ filled (reading text.now (length rule.old)) rule.old }
    ensures table { table.new ≡ second_table text.now (length rule.old) table.old }
    ensures ready { IfOk result (λ p. Ready p rule.new table.new) }
    ensures balanced { IfOk result (λ p. Balanced (take p.rule_lines rule.new) (take p.balanced_lines table.new) p.costs) }

    // The listing of each table reads back as that table.
    ensures rule_back { IfOk result (λ p. ReadsBack (take p.rule_lines rule.new)) }
    ensures table_back { IfOk result (λ p. ReadsBack (take p.balanced_lines table.new)) }
    ensures explained { IfErr result (λ fault. Explained text.now fault) }
{
    let rule_lines = read(text, rule)?;
    let (costs, balanced_lines) = check_and_balance(&rule[..rule_lines], table)?;
    Ok(Prepared {
        rule_lines,
        balanced_lines,
        costs,
    })
}
