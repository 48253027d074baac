//! Runs of places: what a part uses of listed resources, at their places in the list.

ghost use Rattle.std.specs.Prelude.{◌≡◌, ℕ, ◌+◌, ◌^◌, ◌<◌, ◌≤◌, All, length, slice_index, IfOk, OnOk};
ghost use Rattle.choice_problem.specs.declared.problems.TheConstants.{MOST_USES};
ghost use Rattle.std.specs.Option.{ForSome};
ghost use Rattle.choice_problem.specs.Problems.{unit_count, alt_count, part_count, alt_uses, named_uses, chooser_at, resource_count};
ghost use Rattle.choice_problem.specs.Strips.{strip_uses, part_uses, IsStripInRange, IsPartInRange};
ghost use Rattle.choice_problem.specs.Loops.{run_uses};
ghost use Rattle.branch_tree.specs.Lists.{AreRanksOf};
ghost use Rattle.branch_tree.specs.Rows.{side_uses};
ghost use Rattle.branch_tree.specs.Runs.{times_held, IsRunBelow, AppendsRuns};

use choice_problem::{Problem, Strip};
use slot_text::Memory;
use std::alloc::Global;

// For how many runs there is room before more is made.
const FIRST_RUNS: usize = 256;

// The places from one to another.
#[derive(Clone, Copy)]
pub(crate) struct Run {
    pub from: u32,
    pub to: u32,
}

// The places of the listed resources that an alternative uses, each as often as it does.
pub(crate) fn alt_runs(
    alloc: Global,
    problem: &Problem,
    unit: u32,
    alt: u32,
    listed: &[u32],
    ranks: &[u32],
) -> Result<Vec<Run>, Memory>
    requires unit { unit < unit_count problem.now }
    requires alt { alt < alt_count problem.now unit }
    requires ranks { AreRanksOf (resource_count problem.now) listed.now ranks.now }
    ensures uses { IfOk result (λ runs. (i : ℕ) → i < length listed.now → times_held runs.items i
        ≡ alt_uses problem.now unit alt (slice_index listed.now i)) }
    ensures below { IfOk result (λ runs. All (IsRunBelow (length listed.now)) runs.items) }
    ensures few { (r : ℕ) → alt_uses problem.now unit alt r ≤ MOST_USES }
    ensures alts { alt_count problem.now unit < 2 ^ 32 }
{
    let chosen = problem.unit_alts(unit)[alt as usize];
    let mut runs = Vec::with_capacity(alloc, FIRST_RUNS)?;
    push_named(problem, unit, chosen.one, listed, ranks, &mut runs)?;
    push_named(problem, unit, chosen.two, listed, ranks, &mut runs)?;
    Ok(runs)
}

// The places of those that the part uses that an alternative names first, or second, each as often
// as it does.
pub(crate) fn part_runs(
    alloc: Global,
    problem: &Problem,
    unit: u32,
    alt: u32,
    second: bool,
    listed: &[u32],
    ranks: &[u32],
) -> Result<Vec<Run>, Memory>
    requires unit { unit < unit_count problem.now }
    requires alt { alt < alt_count problem.now unit }
    requires ranks { AreRanksOf (resource_count problem.now) listed.now ranks.now }
    ensures uses { IfOk result (λ runs. (i : ℕ) → i < length listed.now → times_held runs.items i
        ≡ side_uses second problem.now unit alt (slice_index listed.now i)) }
    ensures below { IfOk result (λ runs. All (IsRunBelow (length listed.now)) runs.items) }
    ensures few { (r : ℕ) → alt_uses problem.now unit alt r ≤ MOST_USES }
{
    let part = part_of(problem, unit, alt, second);
    let mut runs = Vec::with_capacity(alloc, FIRST_RUNS)?;
    push_named(problem, unit, part, listed, ranks, &mut runs)?;
    Ok(runs)
}

// The part that an alternative names first, or second.
fn part_of(problem: &Problem, unit: u32, alt: u32, second: bool) -> Option<u32>
    requires unit { unit < unit_count problem.now }
    requires alt { alt < alt_count problem.now unit }
    ensures uses { (r : ℕ) → named_uses (chooser_at problem.now unit) result r
        ≡ side_uses second problem.now unit alt r }
    ensures there { ForSome result (λ k. k < part_count problem.now unit) }
    ensures few { (r : ℕ) → alt_uses problem.now unit alt r ≤ MOST_USES }
{
    let chosen = problem.unit_alts(unit)[alt as usize];
    if second { chosen.two } else { chosen.one }
}

// Appends the places of the listed resources of the part that an alternative may name.
fn push_named(
    problem: &Problem,
    unit: u32,
    part: Option<u32>,
    listed: &[u32],
    ranks: &[u32],
    runs: &mut Vec<Run>,
) -> Result<(), Memory>
    requires unit { unit < unit_count problem.now }
    requires part { ForSome part (λ k. k < part_count problem.now unit) }
    requires ranks { AreRanksOf (resource_count problem.now) listed.now ranks.now }
    requires below { All (IsRunBelow (length listed.now)) runs.old.items }
    ensures uses { OnOk result (AppendsRuns listed.now runs.old.items runs.new.items
        (λ r. named_uses (chooser_at problem.now unit) part r)) }
    ensures below { OnOk result (All (IsRunBelow (length listed.now)) runs.new.items) }
{
    match part {
        Some(n) => {
            let resources = problem.resources();
            push_strips(
                runs,
                problem.part(unit, n).strips(),
                resources,
                listed,
                ranks,
            )
        }
        None => Ok(()),
    }
}

// Appends the places of the listed resources of strips, which stay within so many resources.
fn push_strips(
    runs: &mut Vec<Run>,
    strips: &[Strip],
    resources: u32,
    listed: &[u32],
    ranks: &[u32],
) -> Result<(), Memory>
    requires there { IsPartInRange resources strips.now }
    requires ranks { AreRanksOf resources listed.now ranks.now }
    requires below { All (IsRunBelow (length listed.now)) runs.old.items }
    ensures uses { OnOk result (AppendsRuns listed.now runs.old.items runs.new.items
        (λ r. part_uses strips.now r)) }
    ensures below { OnOk result (All (IsRunBelow (length listed.now)) runs.new.items) }
{
    for strip in strips {
        push_strip(runs, strip, resources, listed, ranks)?;
    }
    Ok(())
}

fn push_strip(
    runs: &mut Vec<Run>,
    strip: &Strip,
    resources: u32,
    listed: &[u32],
    ranks: &[u32],
) -> Result<(), Memory>
    requires there { IsStripInRange resources strip.now }
    requires ranks { AreRanksOf resources listed.now ranks.now }
    requires below { All (IsRunBelow (length listed.now)) runs.old.items }
    ensures uses { OnOk result (AppendsRuns listed.now runs.old.items runs.new.items
        (λ r. strip_uses strip.now r)) }
    ensures below { OnOk result (All (IsRunBelow (length listed.now)) runs.new.items) }
{
    for i in 0..strip.times {
        let (start, end) = strip.run(i);
        push_run(runs, start, end, resources, listed, ranks)?;
    }
    Ok(())
}

// Appends the places of the listed resources from one to another, where there are any.
fn push_run(
    runs: &mut Vec<Run>,
    start: u64,
    end: u64,
    resources: u32,
    listed: &[u32],
    ranks: &[u32],
) -> Result<(), Memory>
    requires ordered { start ≤ end }
    requires there { end ≤ resources }
    requires ranks { AreRanksOf resources listed.now ranks.now }
    requires below { All (IsRunBelow (length listed.now)) runs.old.items }
    ensures uses { OnOk result (AppendsRuns listed.now runs.old.items runs.new.items
        (λ r. run_uses start end r)) }
    ensures below { OnOk result (All (IsRunBelow (length listed.now)) runs.new.items) }
{
    let (_resources, _listed) = (resources, listed);
    let from = ranks[start as usize];
    let to = ranks[end as usize];
    if from < to {
        runs.push(Run { from, to })?;
    }
    Ok(())
}
