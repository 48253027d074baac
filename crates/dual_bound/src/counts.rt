//! How often the units of a problem together can use each resource, at most.

ghost use Rattle.std.specs.Prelude.{◌≡◌, ◌+◌, ◌^◌, ◌-◌, ◌<◌, ◌≤◌, min, ℕ, IfOk, [], length, slice_index, slice_index_or, false, true, Some, All};
ghost use Rattle.std.specs.Option.{ForSome};
ghost use Rattle.finite_sums.specs.Sums.{sum_below};
ghost use Rattle.choice_problem.specs.Strips.{strip_uses, part_uses, IsStripInRange, IsPartInRange};
ghost use Rattle.choice_problem.specs.Loops.{run_uses};
ghost use Rattle.choice_problem.specs.Problems.{unit_count, alt_count, resource_count, alt_uses};
ghost use Rattle.dual_bound.specs.Kept.{AreAtLeast, AreRaised, MarkNamed, AreNamed, named_part};
ghost use Rattle.dual_bound.specs.Covers.{AreHeldIn, cover_uses};

use crate::covers::{Held, cover_of};
use choice_problem::{Alt, Part, Problem, Strip};
use slot_text::Memory;
use std::alloc::Global;

// At least as many uses of each resource as the units can have together, whatever alternatives they
// take, as far as 32 bits hold them: for each unit the uses of strips that cover the parts that its
// alternatives name first, and of strips that cover those that they name second. For each strip of
// a part at most one step a covering strip of its unit; one a use of the covering strips; and some
// a part, an alternative and a resource. For each resource 4 bytes, and for one unit at a time its
// covering strips and two flags a part.
pub(crate) fn greatest_uses(alloc: Global, problem: &Problem) -> Result<Vec<u32>, Memory>
    ensures count { IfOk result (λ counts. length counts.items ≡ resource_count problem.now) }
    ensures most { IfOk result (λ counts. (x : ℕ → ℕ) →
        ((u : ℕ) → u < unit_count problem.now → x u < alt_count problem.now u) →
        AreAtLeast counts.items (λ r. sum_below (unit_count problem.now)
        (λ u. alt_uses problem.now u (x u) r))) }
{
    let resources = problem.resources() as usize;
    let mut counts = vec![in alloc; 0; resources]?;
    count_units(alloc, problem, &mut counts)?;
    Ok(counts)
}

// Counts at least the uses of an alternative of each unit, whichever they are.
fn count_units(alloc: Global, problem: &Problem, counts: &mut [u32]) -> Result<(), Memory>
    requires count { length counts.old ≡ resource_count problem.now }
    ensures { IfOk result (λ _. (x : ℕ → ℕ) →
        ((u : ℕ) → u < unit_count problem.now → x u < alt_count problem.now u) →
        AreAtLeast counts.new (λ r. sum_below (unit_count problem.now)
        (λ u. alt_uses problem.now u (x u) r))) }
{
    for unit in 0..problem.units() {
        count_unit(alloc, problem, unit, counts)?;
    }
    Ok(())
}

// Counts at least the uses of each alternative of a unit.
fn count_unit(alloc: Global, problem: &Problem, unit: u32, counts: &mut [u32]) -> Result<(), Memory>
    requires unit { unit < unit_count problem.now }
    requires count { length counts.old ≡ resource_count problem.now }
    ensures counted { IfOk result (λ _. (a : ℕ) → a < alt_count problem.now unit →
        AreAtLeast counts.new (λ r. slice_index counts.old r + alt_uses problem.now unit a r)) }
{
    let (parts, alts) = (problem.unit_parts(unit), problem.unit_alts(unit));
    let first = marked_parts(alloc, alts, parts.len(), false)?;
    count_marked(alloc, parts, &first, counts)?;
    let second = marked_parts(alloc, alts, parts.len(), true)?;
    count_marked(alloc, parts, &second, counts)?;
    Ok(())
}

// A mark for each part that the alternatives name first, or second.
fn marked_parts(
    alloc: Global,
    alts: &[Alt],
    parts: usize,
    second: bool,
) -> Result<Vec<bool>, Memory>
    requires { AreNamed second alts.now parts }
    ensures count { IfOk result (λ marks. length marks.items ≡ parts) }
    ensures marked { IfOk result (λ marks.
        MarkNamed second alts.now (length alts.now) marks.items) }
{
    let mut marks = vec![in alloc; false; parts]?;
    mark_parts(alts, second, &mut marks);
    Ok(marks)
}

// Marks the parts that the alternatives name first, or second.
fn mark_parts(alts: &[Alt], second: bool, marks: &mut [bool])
    requires { AreNamed second alts.now (length marks.old) }
    ensures { MarkNamed second alts.now (length alts.now) marks.new }
{
    for at in 0..alts.len() {
        mark_part(marks, named_part(&alts[at], second));
    }
}

// The part that an alternative names first, or second.
fn named_part(alt: &Alt, second: bool) -> Option<u32>
    ensures { result ≡ named_part second alt.now }
{
    if second { alt.two } else { alt.one }
}

fn mark_part(marks: &mut [bool], part: Option<u32>)
    requires { ForSome part (λ k. k < length marks.old) }
    ensures new { (k : ℕ) → part ≡ Some k → slice_index_or marks.new k false ≡ true }
    ensures old { (k : ℕ) → slice_index_or marks.old k false ≡ true →
        slice_index_or marks.new k false ≡ true }
{
    if let Some(part) = part {
        marks[part as usize] = true;
    }
}

// Counts at least the uses of each marked part.
fn count_marked(
    alloc: Global,
    parts: &[Part],
    marks: &[bool],
    counts: &mut [u32],
) -> Result<(), Memory>
    requires marks { length marks.now ≡ length parts.now }
    requires within { All (λ strips. IsPartInRange (length counts.old) strips) parts.now }
    ensures counted { IfOk result (λ _. (n : ℕ) → n < length parts.now →
        slice_index_or marks.now n false ≡ true →
        AreAtLeast counts.new (λ r. slice_index counts.old r
        + part_uses (slice_index_or parts.now n []) r)) }
    ensures raised { AreRaised counts.old counts.new }
{
    let cover = cover_of(alloc, parts, marks)?;
    count_cover(&cover, counts);
    Ok(())
}

// Counts the uses of held strips.
fn count_cover(cover: &[Held], counts: &mut [u32])
    requires within { AreHeldIn (length counts.old) cover.now }
    ensures counted { AreAtLeast counts.new
        (λ r. slice_index counts.old r + cover_uses cover.now r) }
    ensures raised { AreRaised counts.old counts.new }
{
    for held in cover {
        count_strip(&held.strip, counts);
    }
}

// Counts the uses of a strip.
fn count_strip(strip: &Strip, counts: &mut [u32])
    requires within { IsStripInRange (length counts.old) strip.now }
    ensures counted { (uses : ℕ → ℕ) → AreAtLeast counts.old uses →
        AreAtLeast counts.new (λ r. uses r + strip_uses strip.now r) }
    ensures raised { AreRaised counts.old counts.new }
{
    for run in 0..strip.times {
        let (start, end) = strip.run(run);
        count_run(start as usize, end as usize, counts);
    }
}

// Counts the uses of a run.
fn count_run(start: usize, end: usize, counts: &mut [u32])
    requires ordered { start ≤ end }
    requires within { end ≤ length counts.old }
    ensures counted { (uses : ℕ → ℕ) → AreAtLeast counts.old uses →
        AreAtLeast counts.new (λ r. uses r + run_uses start end r) }
    ensures raised { AreRaised counts.old counts.new }
{
    for at in start..end {
        counts[at] = one_more(counts[at]);
    }
}

// A count with a use more, as far as 32 bits hold it.
fn one_more(count: u32) -> u32
    ensures value { result ≡ min (count + 1) (2 ^ 32 - 1) }
    ensures raised { count ≤ result }
{
    count.saturating_add(1)
}
