//! The listed resources that a unit uses whatever it takes of a range.

ghost use Rattle.std.specs.Prelude.{◌≡◌, ℕ, ◌^◌, ◌<◌, ◌≤◌, min, length, slice_index, IfOk, OnOk};
ghost use Rattle.choice_problem.specs.declared.problems.TheConstants.{MOST_USES};
ghost use Rattle.finite_sums.specs.Sums.{least_within};
ghost use Rattle.choice_problem.specs.Problems.{unit_count, alt_count, alt_uses, resource_count};
ghost use Rattle.branch_tree.specs.Lists.{times_in, AreWithin, AreRanksOf};
ghost use Rattle.window_counts.specs.Placed.{AreZero};

use crate::listing::places_of;
use crate::rows::{Row, lower_row, move_twos, row_before, twos_of};
use crate::runs::alt_runs;
use choice_problem::Problem;
use slot_text::Memory;
use std::alloc::Global;

// The places of the listed resources that each alternative of a unit from one to another uses, each
// as often as each of them does; `ranks` are the ranks of all resources among the listed ones, so
// that no other is looked at. In a row of alternatives with the same first part this is what that
// part uses, and what their second parts have in common. From row to row mostly the same second
// parts come again, so that each part is looked at once; and what they have in common is kept only
// as far as the rows before have it. The last row is tried first, since it has least in common with
// the first alternative. `zeros` is room to count in.
pub(crate) fn least_list(
    alloc: Global,
    problem: &Problem,
    unit: u32,
    low: u32,
    high: u32,
    listed: &[u32],
    ranks: &[u32],
    zeros: &mut [u32],
) -> Result<Vec<u32>, Memory>
    requires unit { unit < unit_count problem.now }
    requires ordered { low ≤ high }
    requires there { high < alt_count problem.now unit }
    requires ranks { AreRanksOf (resource_count problem.now) listed.now ranks.now }
    requires count { length zeros.old ≡ length listed.now }
    requires zeros { AreZero zeros.old }
    ensures least { IfOk result (λ list. (i : ℕ) → i < length listed.now → times_in list.items i
        ≡ least_within low high (λ a. alt_uses problem.now unit a (slice_index listed.now i))) }
    ensures within { IfOk result (λ list. AreWithin (length listed.now) list.items) }
    ensures same { zeros.new ≡ zeros.old }
    ensures few { (r : ℕ) → least_within low high (λ a. alt_uses problem.now unit a r) ≤ MOST_USES }
{
    let first = alt_runs(alloc, problem, unit, low, listed, ranks)?;
    let mut list = places_of(alloc, &first, listed)?;
    if low == high {
        return Ok(list);
    }
    lower_rows(
        alloc, problem, unit, low, high, listed, ranks, &mut list, zeros,
    )?;
    Ok(list)
}

// Lowers a list of what the first alternative uses to what each of them does, row by row from the
// last one.
fn lower_rows(
    alloc: Global,
    problem: &Problem,
    unit: u32,
    low: u32,
    high: u32,
    listed: &[u32],
    ranks: &[u32],
    list: &mut Vec<u32>,
    zeros: &mut [u32],
) -> Result<(), Memory>
    requires unit { unit < unit_count problem.now }
    requires ordered { low ≤ high }
    requires there { high < alt_count problem.now unit }
    requires alts { alt_count problem.now unit < 2 ^ 32 }
    requires ranks { AreRanksOf (resource_count problem.now) listed.now ranks.now }
    requires first { (i : ℕ) → i < length listed.now → times_in list.old.items i
        ≡ alt_uses problem.now unit low (slice_index listed.now i) }
    requires within { AreWithin (length listed.now) list.old.items }
    requires count { length zeros.old ≡ length listed.now }
    requires zeros { AreZero zeros.old }
    ensures least { OnOk result ((i : ℕ) → i < length listed.now → times_in list.new.items i
        ≡ least_within low high (λ a. alt_uses problem.now unit a (slice_index listed.now i))) }
    ensures within { OnOk result (AreWithin (length listed.now) list.new.items) }
    ensures same { zeros.new ≡ zeros.old }
{
    let mut twos = twos_of(alloc, problem, unit, high, listed, ranks, list, zeros)?;
    let mut row = Row {
        first: high,
        last: high,
    };
    let mut done = high + 1;
    while low < done {
        if list.is_empty() {
            return Ok(());
        }
        let next = row_before(problem, unit, low, done);
        move_twos(
            alloc, problem, unit, row, next, listed, ranks, list, &mut twos, zeros,
        )?;
        lower_row(
            alloc, problem, unit, next, listed, ranks, &twos, list, zeros,
        )?;
        done = next.first;
        row = next;
    }
    Ok(())
}
