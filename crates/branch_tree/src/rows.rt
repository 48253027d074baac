//! Rows of alternatives: those one after the other that name the same first part.

ghost use Rattle.std.specs.Prelude.{◌≡◌, ℕ, ◌-◌, ◌<◌, ◌≤◌, min, length, slice_index, IfOk, OnOk, IsTrue};
ghost use Rattle.finite_sums.specs.Sums.{least_within};
ghost use Rattle.choice_problem.specs.Problems.{unit_count, alt_count, alt_uses, resource_count};
ghost use Rattle.branch_tree.specs.Lists.{times_in, AreWithin, AreRanksOf};
ghost use Rattle.window_counts.specs.Placed.{AreZero};
ghost use Rattle.branch_tree.specs.Rows.{IsRow, EndAlike, AreLeastTwos};

use crate::runs::part_runs;
use crate::tallies::lower;
use choice_problem::Problem;
use slot_text::Memory;
use std::alloc::Global;

// Alternatives from one to another.
#[derive(Clone, Copy)]
pub(crate) struct Row {
    pub first: u32,
    pub last: u32,
}

// The row of a unit that ends before an alternative, and begins at the lowest or after it.
pub(crate) fn row_before(problem: &Problem, unit: u32, low: u32, end: u32) -> Row
    requires unit { unit < unit_count problem.now }
    requires some { low < end }
    requires there { end ≤ alt_count problem.now unit }
    ensures last { result.last ≡ end - 1 }
    ensures from { low ≤ result.first }
    ensures some { result.first < end }
    ensures row { IsRow problem.now unit result.first result.last }
{
    let alts = problem.unit_alts(unit);
    let last = end - 1;
    for back in 0..last - low {
        let before = last - back - 1;
        if !is_same(alts[before as usize].one, alts[last as usize].one) {
            return Row {
                first: before + 1,
                last,
            };
        }
    }
    Row { first: low, last }
}

// Whether two alternatives name the same part.
fn is_same(one: Option<u32>, other: Option<u32>) -> bool
    ensures { IsTrue result → one ≡ other }
{
    one == other
}

// Moves the least uses of second parts from a row to another one. Where the second row ends as the
// first one does, only its other parts are listed. They are wanted only as far as a list has them.
pub(crate) fn move_twos(
    alloc: Global,
    problem: &Problem,
    unit: u32,
    was: Row,
    row: Row,
    listed: &[u32],
    ranks: &[u32],
    list: &[u32],
    twos: &mut Vec<u32>,
    zeros: &mut [u32],
) -> Result<(), Memory>
    requires unit { unit < unit_count problem.now }
    requires was { was.first ≤ was.last }
    requires was_there { was.last < alt_count problem.now unit }
    requires row { row.first ≤ row.last }
    requires row_there { row.last < alt_count problem.now unit }
    requires ranks { AreRanksOf (resource_count problem.now) listed.now ranks.now }
    requires twos { AreLeastTwos problem.now listed.now unit
        was.first was.last list.now twos.old.items }
    requires within { AreWithin (length listed.now) twos.old.items }
    requires list { AreWithin (length listed.now) list.now }
    requires count { length zeros.old ≡ length listed.now }
    requires zeros { AreZero zeros.old }
    ensures twos { OnOk result (AreLeastTwos problem.now listed.now unit
        row.first row.last list.now twos.new.items) }
    ensures within { OnOk result (AreWithin (length listed.now) twos.new.items) }
    ensures same { zeros.new ≡ zeros.old }
{
    let from = begin_twos(
        alloc, problem, unit, was, row, listed, ranks, list, twos, zeros,
    )?;
    lower_twos(
        alloc, problem, unit, row, from, listed, ranks, list, twos, zeros,
    )
}

// Moves the least uses of second parts from a row to the last alternatives of another one, and
// tells the first of these: they are as many as the first row has, where the second one ends as it
// does, and else one.
fn begin_twos(
    alloc: Global,
    problem: &Problem,
    unit: u32,
    was: Row,
    row: Row,
    listed: &[u32],
    ranks: &[u32],
    list: &[u32],
    twos: &mut Vec<u32>,
    zeros: &mut [u32],
) -> Result<u32, Memory>
    requires unit { unit < unit_count problem.now }
    requires was { was.first ≤ was.last }
    requires was_there { was.last < alt_count problem.now unit }
    requires row { row.first ≤ row.last }
    requires row_there { row.last < alt_count problem.now unit }
    requires ranks { AreRanksOf (resource_count problem.now) listed.now ranks.now }
    requires twos { AreLeastTwos problem.now listed.now unit
        was.first was.last list.now twos.old.items }
    requires within { AreWithin (length listed.now) twos.old.items }
    requires list { AreWithin (length listed.now) list.now }
    requires count { length zeros.old ≡ length listed.now }
    requires zeros { AreZero zeros.old }
    ensures from { IfOk result (λ from. row.first ≤ from) }
    ensures to { IfOk result (λ from. from ≤ row.last) }
    ensures twos { IfOk result (λ from.
        AreLeastTwos problem.now listed.now unit from row.last list.now twos.new.items) }
    ensures within { OnOk result (AreWithin (length listed.now) twos.new.items) }
    ensures same { zeros.new ≡ zeros.old }
{
    let known = was.last - was.first;
    if known <= row.last - row.first && end_alike(problem, unit, was, row.last) {
        return Ok(row.last - known);
    }
    *twos = twos_of(alloc, problem, unit, row.last, listed, ranks, list, zeros)?;
    Ok(row.last)
}

// What the second part of an alternative uses, as far as a list has it.
pub(crate) fn twos_of(
    alloc: Global,
    problem: &Problem,
    unit: u32,
    alt: u32,
    listed: &[u32],
    ranks: &[u32],
    list: &[u32],
    zeros: &mut [u32],
) -> Result<Vec<u32>, Memory>
    requires unit { unit < unit_count problem.now }
    requires alt { alt < alt_count problem.now unit }
    requires ranks { AreRanksOf (resource_count problem.now) listed.now ranks.now }
    requires list { AreWithin (length listed.now) list.now }
    requires count { length zeros.old ≡ length listed.now }
    requires zeros { AreZero zeros.old }
    ensures twos { IfOk result (λ twos.
        AreLeastTwos problem.now listed.now unit alt alt list.now twos.items) }
    ensures within { IfOk result (λ twos. AreWithin (length listed.now) twos.items) }
    ensures same { zeros.new ≡ zeros.old }
{
    let runs = part_runs(alloc, problem, unit, alt, true, listed, ranks)?;
    let mut twos = Vec::from_slice(alloc, list)?;
    lower(&mut twos, &runs, &[], zeros);
    Ok(twos)
}

// Lowers the least uses of the second parts of a row's alternatives from one on to those of the
// whole row. The first alternative is tried first, since it has least in common with the last ones.
fn lower_twos(
    alloc: Global,
    problem: &Problem,
    unit: u32,
    row: Row,
    from: u32,
    listed: &[u32],
    ranks: &[u32],
    list: &[u32],
    twos: &mut Vec<u32>,
    zeros: &mut [u32],
) -> Result<(), Memory>
    requires unit { unit < unit_count problem.now }
    requires row { row.first ≤ from }
    requires from { from ≤ row.last }
    requires row_there { row.last < alt_count problem.now unit }
    requires ranks { AreRanksOf (resource_count problem.now) listed.now ranks.now }
    requires twos { AreLeastTwos problem.now listed.now unit
        from row.last list.now twos.old.items }
    requires within { AreWithin (length listed.now) twos.old.items }
    requires count { length zeros.old ≡ length listed.now }
    requires zeros { AreZero zeros.old }
    ensures twos { OnOk result (AreLeastTwos problem.now listed.now unit
        row.first row.last list.now twos.new.items) }
    ensures within { OnOk result (AreWithin (length listed.now) twos.new.items) }
    ensures same { zeros.new ≡ zeros.old }
{
    let _list = list;
    for alt in row.first..from {
        if twos.is_empty() {
            return Ok(());
        }
        let other = part_runs(alloc, problem, unit, alt, true, listed, ranks)?;
        lower(twos, &other, &[], zeros);
    }
    Ok(())
}

// Whether the alternatives up to an end name the second parts of a row, one by one from the last.
fn end_alike(problem: &Problem, unit: u32, row: Row, end: u32) -> bool
    requires unit { unit < unit_count problem.now }
    requires row { row.first ≤ row.last }
    requires row_there { row.last < alt_count problem.now unit }
    requires room { row.last - row.first ≤ end }
    requires there { end < alt_count problem.now unit }
    ensures { IsTrue result → EndAlike problem.now unit row.first row.last end }
{
    let alts = problem.unit_alts(unit);
    for back in 0..row.last - row.first + 1 {
        if !is_same(
            alts[(end - back) as usize].two,
            alts[(row.last - back) as usize].two,
        ) {
            return false;
        }
    }
    true
}

// Lowers a list to what each alternative of a row uses, by what their first part uses and the least
// uses of their second parts.
pub(crate) fn lower_row(
    alloc: Global,
    problem: &Problem,
    unit: u32,
    row: Row,
    listed: &[u32],
    ranks: &[u32],
    twos: &[u32],
    list: &mut Vec<u32>,
    zeros: &mut [u32],
) -> Result<(), Memory>
    requires unit { unit < unit_count problem.now }
    requires ordered { row.first ≤ row.last }
    requires there { row.last < alt_count problem.now unit }
    requires row { IsRow problem.now unit row.first row.last }
    requires ranks { AreRanksOf (resource_count problem.now) listed.now ranks.now }
    requires twos { AreLeastTwos problem.now listed.now unit
        row.first row.last list.old.items twos.now }
    requires within { AreWithin (length listed.now) twos.now }
    requires list { AreWithin (length listed.now) list.old.items }
    requires count { length zeros.old ≡ length listed.now }
    requires zeros { AreZero zeros.old }
    ensures lowered { OnOk result ((i : ℕ) → i < length listed.now → times_in list.new.items i
        ≡ min (times_in list.old.items i) (least_within row.first row.last
        (λ a. alt_uses problem.now unit a (slice_index listed.now i)))) }
    ensures within { OnOk result (AreWithin (length listed.now) list.new.items) }
    ensures same { zeros.new ≡ zeros.old }
{
    let ones = part_runs(alloc, problem, unit, row.last, false, listed, ranks)?;
    lower(list, &ones, twos, zeros);
    Ok(())
}
