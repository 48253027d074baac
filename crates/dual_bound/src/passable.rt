//! The resources of a problem that can be passed.

ghost use Rattle.std.specs.Prelude.{◌≡◌, ℕ, ◌<◌, IfOk, length, slice_index};
ghost use Rattle.choice_problem.specs.Problems.{resource_count};
ghost use Rattle.dual_bound.specs.Kept.{ListPassable, AreAbove};
ghost use Rattle.dual_bound.specs.Classes.{AreFirstOnes};

use crate::counts::greatest_uses;
use crate::refine::equal_resources;
use crate::same::same_parts;
use choice_problem::Problem;
use slot_text::Memory;
use std::alloc::Global;

/// Resources of a problem by rising number, such that each other one is never used above its limit,
/// whatever alternatives the units take, or has the same limit as a lower one of them that each
/// alternative uses equally often.
///
/// To find those that can be passed takes for each strip of a part at most one step a strip of
/// those that cover the parts of its unit, which parts at nearby times share; one a use of the
/// covering strips; and some a part, an alternative and a resource. For that time 4 bytes a
/// resource, and for one unit at a time 24 bytes a covering strip and two flags a part.
///
/// Of a season's resources a few of a hundred can be passed. Where more than a quarter can, equal
/// ones are looked for: two steps a strip, some for each use by a part, but for parts with the same
/// strips as one of an earlier unit, and some a resource; for that time at most some 100 bytes a
/// resource, 8 a part, 24 a unit, 50 for each class that the uses of one unit make, and 5 MB.
pub fn passable_resources(alloc: Global, problem: &Problem) -> Result<Vec<u32>, Memory>
    ensures { IfOk result (λ list. ListPassable problem.now list.items) }
{
    let counts = greatest_uses(alloc, problem)?;
    let above = resources_above(alloc, problem, &counts)?;
    if above.len() <= problem.resources() as usize / 4 {
        return Ok(above);
    }
    let same = same_parts(alloc, problem)?;
    let firsts = equal_resources(alloc, problem, &same)?;
    first_ones(alloc, &above, &firsts)
}

// Those resources of a list that are the first of equal ones.
fn first_ones(alloc: Global, list: &[u32], firsts: &[u32]) -> Result<Vec<u32>, Memory>
    requires { (i : ℕ) → i < length list.now → slice_index list.now i < length firsts.now }
    ensures { IfOk result (λ ones. AreFirstOnes firsts.now list.now (length list.now) ones.items) }
{
    let mut ones = Vec::new(alloc);
    for at in 0..list.len() {
        if firsts[list[at] as usize] == list[at] {
            ones.push(list[at])?;
        }
    }
    Ok(ones)
}

// The resources whose counts are above their limits.
fn resources_above(alloc: Global, problem: &Problem, counts: &[u32]) -> Result<Vec<u32>, Memory>
    requires { length counts.now ≡ resource_count problem.now }
    ensures { IfOk result (λ list.
        AreAbove problem.now counts.now (resource_count problem.now) list.items) }
{
    let mut list = Vec::new(alloc);
    for resource in 0..problem.resources() {
        if i64::from(counts[resource as usize]) > problem.limit(resource) {
            list.push(resource)?;
        }
    }
    Ok(list)
}
