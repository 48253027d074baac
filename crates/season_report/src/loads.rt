//! Loads of alternatives of a problem, added and taken away.

ghost use Rattle.std.specs.Prelude.{◌≡◌, ◌<◌, ◌^◌, length, slice_index, IfOk};
ghost use Rattle.std.specs.Option.{ForSome};
ghost use Rattle.window_counts.specs.Placed.{AreZero};
ghost use Rattle.choice_problem.specs.declared.problems.TheConstants.{MOST_USES};
ghost use Rattle.choice_problem.specs.Problems.{unit_count, alt_count, part_count, alt_uses, resource_count, chooser_at, named_uses};
ghost use Rattle.choice_problem.specs.Counts.{GrowsBy, HasRoom, HasUses};

use choice_problem::Problem;
use slot_text::Memory;
use std::alloc::Global;
use window_counts::Counts;

// Adds the uses of the part that an alternative may name.
fn add_named(problem: &Problem, unit: u32, part: Option<u32>, counts: &mut Counts)
    requires unit { unit < unit_count problem.now }
    requires part { ForSome part (λ k. k < part_count problem.now unit) }
    requires counts { length counts.old ≡ resource_count problem.now }
    requires room { HasRoom counts.old (λ r. named_uses (chooser_at problem.now unit) part r) }
    ensures length { length counts.new ≡ length counts.old }
    ensures added { GrowsBy counts.old counts.new
        (λ r. named_uses (chooser_at problem.now unit) part r) }
{
    if let Some(n) = part {
        counts.add(problem.part(unit, n));
    }
}

// Takes the uses of the part that an alternative may name away.
fn take_named(problem: &Problem, unit: u32, part: Option<u32>, counts: &mut Counts)
    requires unit { unit < unit_count problem.now }
    requires part { ForSome part (λ k. k < part_count problem.now unit) }
    requires counts { length counts.old ≡ resource_count problem.now }
    requires added { HasUses counts.old (λ r. named_uses (chooser_at problem.now unit) part r) }
    ensures length { length counts.new ≡ length counts.old }
    ensures taken { GrowsBy counts.new counts.old
        (λ r. named_uses (chooser_at problem.now unit) part r) }
{
    if let Some(n) = part {
        counts.take(problem.part(unit, n));
    }
}

/// Adds the uses of an alternative: one step a use.
pub(crate) fn add_alt(problem: &Problem, unit: u32, alt: u32, counts: &mut Counts)
    requires unit { unit < unit_count problem.now }
    requires alt { alt < alt_count problem.now unit }
    requires counts { length counts.old ≡ resource_count problem.now }
    requires room { HasRoom counts.old (λ _. MOST_USES) }
    ensures length { length counts.new ≡ length counts.old }
    ensures added { GrowsBy counts.old counts.new (λ r. alt_uses problem.now unit alt r) }
{
    let chosen = problem.unit_alts(unit)[alt as usize];
    add_named(problem, unit, chosen.one, counts);
    add_named(problem, unit, chosen.two, counts);
}

/// Takes the uses of an alternative away: one step a use.
pub(crate) fn take_alt(problem: &Problem, unit: u32, alt: u32, counts: &mut Counts)
    requires unit { unit < unit_count problem.now }
    requires alt { alt < alt_count problem.now unit }
    requires counts { length counts.old ≡ resource_count problem.now }
    requires added { HasUses counts.old (λ r. alt_uses problem.now unit alt r) }
    ensures length { length counts.new ≡ length counts.old }
    ensures taken { GrowsBy counts.new counts.old (λ r. alt_uses problem.now unit alt r) }
{
    let chosen = problem.unit_alts(unit)[alt as usize];
    take_named(problem, unit, chosen.one, counts);
    take_named(problem, unit, chosen.two, counts);
}

/// Loads of 0, one for each resource.
pub(crate) fn no_loads(alloc: Global, resources: u32) -> Result<Vec<u32>, Memory>
    ensures count { IfOk result (λ loads. length loads.items ≡ resources) }
    ensures zeros { IfOk result (λ loads. AreZero loads.items) }
{
    let loads = vec![in alloc; 0; resources as usize]?;
    Ok(loads)
}

/// Counts of 0, one for each resource.
pub(crate) fn no_counts(alloc: Global, resources: u32) -> Result<Counts, Memory>
    ensures count { IfOk result (λ counts. length counts ≡ resources) }
    ensures zeros { IfOk result (λ counts. AreZero counts) }
{
    let loads = no_loads(alloc, resources)?;
    Ok(Counts::with(loads))
}

/// Adds counts to loads, resource by resource.
pub(crate) fn add_counts(loads: &mut [u32], counts: &Counts)
    requires count { length loads.old ≡ length counts.now }
    requires few { length loads.old < 2 ^ 32 }
    requires room { HasRoom loads.old (λ r. slice_index counts.now r) }
    ensures length { length loads.new ≡ length loads.old }
    ensures added { GrowsBy loads.old loads.new (λ r. slice_index counts.now r) }
{
    for at in 0..loads.len() {
        loads[at] += counts.count(at as u32);
    }
}
