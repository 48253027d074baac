//! The least that the units of a problem use of each resource, whatever they take.

ghost use Rattle.std.specs.Prelude.{◌≡◌, ◌+◌, ◌++◌, ◌<◌, ◌≤◌, ◌^◌, ℕ, min, length, slice_index, IfOk, OnOk};
ghost use Rattle.std.specs.Option.{ForSome};
ghost use Rattle.choice_problem.specs.declared.problems.TheConstants.{MOST_USES};
ghost use Rattle.choice_problem.specs.Problems.{unit_count, alt_count, alt_uses, part_count, resource_count, chooser_at, named_uses};
ghost use Rattle.choice_problem.specs.Strips.{strip_uses, part_uses, IsStripInRange, IsPartInRange};
ghost use Rattle.choice_problem.specs.Bounds.{least_load, whole_of};
ghost use Rattle.choice_problem.specs.Counts.{GrowsBy, HasRoom, HasUses};
ghost use Rattle.choice_problem.specs.Loops.{run_uses};
ghost use Rattle.window_counts.specs.Placed.{AreZero};
ghost use Rattle.report_lines.specs.Private.{AreBelow, AreUsed, MovesUses, KeepsLesser, uses_in, lesser_entry, least_uses};

use choice_problem::{Part, Problem, Strip};
use slot_text::Memory;
use std::alloc::Global;

// A resource, and the least number of uses of it by some alternatives of a unit, which is not 0.
#[derive(Clone, Copy, Debug, PartialEq, Eq)]
pub(crate) struct Used {
    resource: u32,
    uses: u32,
}

// Moves the count of a place into the list, where it is not 0.
fn move_one(counts: &mut [u32], at: usize, used: &mut Vec<Used>) -> Result<(), Memory>
    requires there { at < length counts.old }
    requires few { length counts.old < 2 ^ 32 }
    ensures { OnOk result
        (MovesUses counts.old used.old.items counts.new used.new.items (run_uses at (at + 1))) }
{
    let uses = counts[at];
    if uses == 0 {
        return Ok(());
    }
    used.push(Used {
        resource: at as u32,
        uses,
    })?;
    counts[at] = 0;
    Ok(())
}

// The same of the places from one to another.
fn move_run(
    counts: &mut [u32],
    start: usize,
    end: usize,
    used: &mut Vec<Used>,
) -> Result<(), Memory>
    requires ordered { start ≤ end }
    requires there { end ≤ length counts.old }
    requires few { length counts.old < 2 ^ 32 }
    ensures { OnOk result
        (MovesUses counts.old used.old.items counts.new used.new.items (run_uses start end)) }
{
    for at in start..end {
        move_one(counts, at, used)?;
    }
    Ok(())
}

// The same of the resources of a strip.
fn move_strip(counts: &mut [u32], strip: &Strip, used: &mut Vec<Used>) -> Result<(), Memory>
    requires there { IsStripInRange (length counts.old) strip.now }
    requires few { length counts.old < 2 ^ 32 }
    ensures { OnOk result
        (MovesUses counts.old used.old.items counts.new used.new.items (strip_uses strip.now)) }
{
    for i in 0..strip.times {
        let (start, end) = strip.run(i);
        move_run(counts, start as usize, end as usize, used)?;
    }
    Ok(())
}

// The same of the resources of a part.
fn move_part(counts: &mut [u32], part: &Part, used: &mut Vec<Used>) -> Result<(), Memory>
    requires there { IsPartInRange (length counts.old) part.now }
    requires few { length counts.old < 2 ^ 32 }
    ensures { OnOk result
        (MovesUses counts.old used.old.items counts.new used.new.items (part_uses part.now)) }
{
    for strip in part.strips() {
        move_strip(counts, strip, used)?;
    }
    Ok(())
}

// The same of the part that an alternative may name.
fn move_named(
    counts: &mut [u32],
    problem: &Problem,
    unit: u32,
    part: Option<u32>,
    used: &mut Vec<Used>,
) -> Result<(), Memory>
    requires unit { unit < unit_count problem.now }
    requires part { ForSome part (λ k. k < part_count problem.now unit) }
    requires count { length counts.old ≡ resource_count problem.now }
    requires few { length counts.old < 2 ^ 32 }
    ensures { OnOk result (MovesUses counts.old used.old.items counts.new used.new.items
        (named_uses (chooser_at problem.now unit) part)) }
{
    match part {
        Some(n) => {
            move_part(counts, problem.part(unit, n), used)?;
            Ok(())
        }
        None => Ok(()),
    }
}

// What an alternative uses, each resource once. All counts are 0 before and after.
fn used_by(
    alloc: Global,
    problem: &Problem,
    unit: u32,
    alt: u32,
    counts: &mut [u32],
) -> Result<Vec<Used>, Memory>
    requires unit { unit < unit_count problem.now }
    requires alt { alt < alt_count problem.now unit }
    requires count { length counts.old ≡ resource_count problem.now }
    requires few { length counts.old < 2 ^ 32 }
    requires zeros { AreZero counts.old }
    ensures few { (r : ℕ) → alt_uses problem.now unit alt r ≤ MOST_USES }
    ensures used { IfOk result (λ used.
        AreUsed (alt_uses problem.now unit alt) (resource_count problem.now) used.items) }
    ensures zeros { OnOk result (AreZero counts.new) }
    ensures count { OnOk result (length counts.new ≡ length counts.old) }
{
    let mut used = Vec::new(alloc);
    problem.add_uses(unit, alt, counts);
    let named = problem.alt(unit, alt);
    move_named(counts, problem, unit, named.one, &mut used)?;
    move_named(counts, problem, unit, named.two, &mut used)?;
    Ok(used)
}

// Takes the uses of the part that an alternative may name away.
fn take_named(counts: &mut [u32], problem: &Problem, unit: u32, part: Option<u32>)
    requires unit { unit < unit_count problem.now }
    requires part { ForSome part (λ k. k < part_count problem.now unit) }
    requires count { length counts.old ≡ resource_count problem.now }
    requires uses { HasUses counts.old (named_uses (chooser_at problem.now unit) part) }
    ensures count { length counts.new ≡ length counts.old }
    ensures taken { GrowsBy counts.new counts.old (named_uses (chooser_at problem.now unit) part) }
{
    if let Some(n) = part {
        problem.part(unit, n).take_uses(counts);
    }
}

// Appends a resource with the lesser of its uses and a count, where that is not 0.
fn keep_lesser(kept: &mut Vec<Used>, one: Used, count: u32) -> Result<(), Memory>
    ensures { OnOk result (kept.new.items ≡ kept.old.items ++ lesser_entry one count) }
{
    let uses = one.uses.min(count);
    if uses == 0 {
        return Ok(());
    }
    kept.push(Used {
        resource: one.resource,
        uses,
    })?;
    Ok(())
}

// Those that are used by the counts too, each with the lesser number of uses.
fn lesser(alloc: Global, used: &[Used], counts: &[u32]) -> Result<Vec<Used>, Memory>
    requires { AreBelow (length counts.now) used.now }
    ensures { IfOk result (λ kept. KeepsLesser counts.now used.now kept.items) }
{
    let mut kept = Vec::new(alloc);
    for one in used {
        keep_lesser(&mut kept, *one, counts[one.resource as usize])?;
    }
    Ok(kept)
}

// Those that one more alternative uses too. All counts are 0 before and after.
fn used_too(
    alloc: Global,
    problem: &Problem,
    unit: u32,
    alt: u32,
    used: &[Used],
    counts: &mut [u32],
) -> Result<Vec<Used>, Memory>
    requires unit { unit < unit_count problem.now }
    requires alt { alt < alt_count problem.now unit }
    requires count { length counts.old ≡ resource_count problem.now }
    requires zeros { AreZero counts.old }
    requires there { AreBelow (resource_count problem.now) used.now }
    ensures used { IfOk result (λ kept. (uses : ℕ → ℕ) →
        AreUsed uses (resource_count problem.now) used.now →
        AreUsed (λ r. min (uses r) (alt_uses problem.now unit alt r))
        (resource_count problem.now) kept.items) }
    ensures zeros { OnOk result (AreZero counts.new) }
    ensures count { OnOk result (length counts.new ≡ length counts.old) }
{
    problem.add_uses(unit, alt, counts);
    let kept = lesser(alloc, used, counts)?;
    let named = problem.alt(unit, alt);
    take_named(counts, problem, unit, named.one);
    take_named(counts, problem, unit, named.two);
    Ok(kept)
}

// What all alternatives of a unit use, each resource with its least number of uses. The last one is
// looked at after the first, since times far apart have few windows in common.
fn used_by_all(
    alloc: Global,
    problem: &Problem,
    unit: u32,
    counts: &mut [u32],
) -> Result<Vec<Used>, Memory>
    requires unit { unit < unit_count problem.now }
    requires count { length counts.old ≡ resource_count problem.now }
    requires few { length counts.old < 2 ^ 32 }
    requires zeros { AreZero counts.old }
    ensures few { (r : ℕ) → least_uses problem.now unit r ≤ MOST_USES }
    ensures used { IfOk result (λ used.
        AreUsed (least_uses problem.now unit) (resource_count problem.now) used.items) }
    ensures zeros { OnOk result (AreZero counts.new) }
    ensures count { OnOk result (length counts.new ≡ length counts.old) }
{
    let alts = problem.alts(unit);
    let mut used = used_by(alloc, problem, unit, 0, counts)?;
    for i in 1..alts {
        if used.is_empty() {
            return Ok(used);
        }
        used = used_too(alloc, problem, unit, alts - i, &used, counts)?;
    }
    Ok(used)
}

// Adds the least uses of a unit to the loads.
fn add_used(loads: &mut [u32], used: &[Used])
    requires there { AreBelow (length loads.old) used.now }
    requires room { HasRoom loads.old (uses_in used.now) }
    ensures { GrowsBy loads.old loads.new (uses_in used.now) }
{
    for one in used {
        loads[one.resource as usize] += one.uses;
    }
}

// Adds the least uses of all units to the loads. All counts are 0 before and after.
fn add_units(
    alloc: Global,
    problem: &Problem,
    loads: &mut [u32],
    counts: &mut [u32],
) -> Result<(), Memory>
    requires few { resource_count problem.now < 2 ^ 32 }
    requires loads { length loads.old ≡ resource_count problem.now }
    requires counts { length counts.old ≡ resource_count problem.now }
    requires zeros { AreZero loads.old }
    requires zero_counts { AreZero counts.old }
    ensures { OnOk result ((r : ℕ) → r < resource_count problem.now →
        slice_index loads.new r ≡ least_load problem.now (whole_of problem.now) r) }
{
    for unit in 0..problem.units() {
        let used = used_by_all(alloc, problem, unit, counts)?;
        add_used(loads, &used);
    }
    Ok(())
}

/// The least load of each resource over all choices of a problem, unit by unit. One step a use of
/// the first alternative of each unit, and of each other one while all those before it share a
/// resource: of most units two.
pub(crate) fn least_loads(alloc: Global, problem: &Problem) -> Result<Vec<u32>, Memory>
    ensures count { IfOk result (λ loads. length loads.items ≡ resource_count problem.now) }
    ensures each { IfOk result (λ loads. (r : ℕ) → r < resource_count problem.now →
        slice_index loads.items r ≡ least_load problem.now (whole_of problem.now) r) }
{
    let mut loads = vec![in alloc; 0; problem.resources() as usize]?;
    let mut counts = vec![in alloc; 0; problem.resources() as usize]?;
    add_units(alloc, problem, &mut loads, &mut counts)?;
    Ok(loads)
}
