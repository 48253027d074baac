//! How often alternatives use each resource, by where the runs of their strips begin and end: two
//! steps a run, and one a resource at the end.

ghost use Rattle.std.specs.Prelude.{◌≡◌, ℕ, ◌+◌, ◌-◌, ◌^◌, ◌<◌, ◌≤◌, IfOk, length, slice_index};
ghost use Rattle.std.specs.Option.{ForSome};
ghost use Rattle.choice_problem.specs.Strips.{strip_uses, part_uses, IsStripInRange, IsPartInRange};
ghost use Rattle.choice_problem.specs.Loops.{run_uses};
ghost use Rattle.choice_problem.specs.Problems.{unit_count, alt_count, part_count, resource_count, chooser_at, named_uses, alt_uses};
ghost use Rattle.dual_bound.specs.Ends.{AreEnds, AddEnds};

use choice_problem::{Part, Problem, Strip};
use slot_text::Memory;
use std::alloc::Global;

// Adds the runs of an alternative of a unit.
pub(crate) fn add_alt(problem: &Problem, unit: u32, alt: u32, begins: &mut [u32], ends: &mut [u32])
    requires unit { unit < unit_count problem.now }
    requires alt { alt < alt_count problem.now unit }
    requires begins { length begins.old ≡ resource_count problem.now + 1 }
    requires ends { length ends.old ≡ resource_count problem.now + 1 }
    ensures { AddEnds begins.old ends.old begins.new ends.new
        (λ r. alt_uses problem.now unit alt r) }
{
    let chosen = problem.alt(unit, alt);
    add_named(problem, unit, chosen.one, begins, ends);
    add_named(problem, unit, chosen.two, begins, ends);
}

// Adds the runs of the part that an alternative may name.
fn add_named(problem: &Problem, unit: u32, named: Option<u32>, begins: &mut [u32], ends: &mut [u32])
    requires unit { unit < unit_count problem.now }
    requires named { ForSome named (λ k. k < part_count problem.now unit) }
    requires begins { length begins.old ≡ resource_count problem.now + 1 }
    requires ends { length ends.old ≡ resource_count problem.now + 1 }
    ensures { AddEnds begins.old ends.old begins.new ends.new
        (λ r. named_uses (chooser_at problem.now unit) named r) }
{
    if let Some(number) = named {
        add_part(problem.part(unit, number), begins, ends);
    }
}

// Adds the runs of a part.
fn add_part(part: &Part, begins: &mut [u32], ends: &mut [u32])
    requires begins { 0 < length begins.old }
    requires ends { length ends.old ≡ length begins.old }
    requires there { IsPartInRange (length begins.old - 1) part.now }
    ensures { AddEnds begins.old ends.old begins.new ends.new (λ r. part_uses part.now r) }
{
    for strip in part.strips() {
        add_strip(strip, begins, ends);
    }
}

// Adds the runs of a strip.
fn add_strip(strip: &Strip, begins: &mut [u32], ends: &mut [u32])
    requires begins { 0 < length begins.old }
    requires ends { length ends.old ≡ length begins.old }
    requires there { IsStripInRange (length begins.old - 1) strip.now }
    ensures { AddEnds begins.old ends.old begins.new ends.new (λ r. strip_uses strip.now r) }
{
    for run in 0..strip.times {
        let (start, end) = strip.run(run);
        add_run(start as usize, end as usize, begins, ends);
    }
}

// Adds a run, if it is not empty.
fn add_run(start: usize, end: usize, begins: &mut [u32], ends: &mut [u32])
    requires ordered { start ≤ end }
    requires within { end < length begins.old }
    requires ends { length ends.old ≡ length begins.old }
    ensures { AddEnds begins.old ends.old begins.new ends.new (λ r. run_uses start end r) }
{
    if start < end {
        begins[start] = begins[start].saturating_add(1);
        ends[end] = ends[end].saturating_add(1);
    }
}

// How often the runs use each resource.
pub(crate) fn loads_of(
    alloc: Global,
    resources: u32,
    begins: &[u32],
    ends: &[u32],
) -> Result<Vec<u32>, Memory>
    requires begins { length begins.now ≡ resources + 1 }
    requires ends { length ends.now ≡ resources + 1 }
    ensures count { IfOk result (λ loads. length loads.items ≡ resources) }
    ensures each { IfOk result (λ loads. (uses : ℕ → ℕ) →
        AreEnds resources uses begins.now ends.now →
        ((r : ℕ) → r < resources → uses r < 2 ^ 31) →
        (r : ℕ) → r < resources → slice_index loads.items r ≡ uses r) }
{
    let mut loads = Vec::with_capacity(alloc, resources as usize)?;
    let mut load: u32 = 0;
    for at in 0..resources as usize {
        load = load.saturating_add(begins[at]).saturating_sub(ends[at]);
        loads.push(load)?;
    }
    Ok(loads)
}
