//! Classes of equal resources: those with the same limit that each part uses equally often.
//!
//! At first those with the same limit are one class. Then each part splits the classes, by how
//! often it uses their resources (partition refinement: Paige and Tarjan 1987, "Three partition
//! refinement algorithms", SIAM Journal on Computing 16).

ghost use Rattle.std.specs.Prelude.{◌≡◌, ℕ, ◌+◌, ◌<◌, ◌≤◌, IfOk, length, slice_index};
ghost use Rattle.choice_problem.specs.declared.problems.TheConstants.{MOST_UNITS, MOST_RESOURCES};
ghost use Rattle.choice_problem.specs.Strips.{strip_uses, part_uses, IsStripInRange, IsPartInRange};
ghost use Rattle.choice_problem.specs.Loops.{run_uses};
ghost use Rattle.choice_problem.specs.Problems.{unit_count, part_count, resource_count, limit_of};
ghost use Rattle.dual_bound.specs.Same.{AreSameTo, AreSameParts, strips_at};
ghost use Rattle.dual_bound.specs.Classes.{IsByClass, IsUnitByClass, AreClasses, AreSplit, AreSplitBy, IsSplitOff, IsFirstWith, AreFirstsIn, AreFirsts, part_order};

use crate::same::{PartOf, SameParts};
use choice_problem::{Problem, Strip};
use slot_text::Memory;
use std::alloc::Global;

// The last part that split a class, by its number from 1 on, and the class of those resources of it
// that the part uses once more.
#[derive(Clone, Copy)]
pub(crate) struct Split {
    pub(crate) part: u64,
    pub(crate) class: u32,
}

// How many numbers of classes there may be for each resource before the classes are numbered anew.
const NUMBERS_A_RESOURCE: usize = 2;

// For each resource an equal one, the first that was found: some steps for each use by a part, also
// by one that no alternative names, but for those with the same strips as one of an earlier unit,
// and some a resource. 4 bytes a resource, and for that time at most some 100 a resource, 50 for
// each class that the uses of one unit make, and 4 for each number up to the highest limit.
pub(crate) fn equal_resources(
    alloc: Global,
    problem: &Problem,
    same: &[SameParts],
) -> Result<Vec<u32>, Memory>
    requires { AreSameTo problem.now (unit_count problem.now) same.now }
    ensures { IfOk result (λ firsts. AreFirsts problem.now firsts.items) }
{
    let resources = problem.resources() as usize;
    let mut classes = limit_classes(alloc, problem)?;
    let mut splits = vec![in alloc; Split { part: 0, class: 0 }; resources]?;
    for unit in 0..problem.units() {
        let parts = same[unit as usize].items();
        split_by_unit(problem, unit, parts, &mut classes, &mut splits)?;
        classes = numbered(alloc, classes, &mut splits)?;
    }
    firsts_in(alloc, &classes)
}

// The classes, numbered anew by their first resources where there are many numbers of classes.
fn numbered(alloc: Global, classes: Vec<u32>, splits: &mut Vec<Split>) -> Result<Vec<u32>, Memory>
    requires few { length classes.items ≤ MOST_RESOURCES }
    requires enough { length classes.items ≤ length splits.old.items }
    ensures classes { IfOk result (λ numbered. (next : ℕ) →
        AreClasses next (length classes.items) classes.items splits.old.items →
        AreClasses next (length classes.items) numbered.items splits.new.items) }
    ensures enough { IfOk result (λ _. length classes.items ≤ length splits.new.items) }
    ensures kept { IfOk result (λ numbered. (f : ℕ → ℕ) →
        IsByClass (length classes.items) classes.items f →
        IsByClass (length classes.items) numbered.items f) }
{
    if splits.len() / NUMBERS_A_RESOURCE <= classes.len() {
        return Ok(classes);
    }
    let firsts = firsts_in(alloc, &classes)?;
    splits.truncate(classes.len());
    Ok(firsts)
}

// For each resource the first one with the same limit.
fn limit_classes(alloc: Global, problem: &Problem) -> Result<Vec<u32>, Memory>
    ensures count { IfOk result (λ classes. length classes.items ≡ resource_count problem.now) }
    ensures there { IfOk result (λ classes. (r : ℕ) → r < resource_count problem.now →
        slice_index classes.items r < resource_count problem.now) }
    ensures limits { IfOk result (λ classes. IsByClass (resource_count problem.now) classes.items
        (λ r. limit_of problem.now r)) }
{
    let mut limits = Vec::with_capacity(alloc, problem.resources() as usize)?;
    for resource in 0..problem.resources() {
        limits.push(problem.limit(resource) as u32)?;
    }
    firsts_in(alloc, &limits)
}

// Splits the classes by all parts of a unit.
fn split_by_unit(
    problem: &Problem,
    unit: u32,
    same: &[PartOf],
    classes: &mut [u32],
    splits: &mut Vec<Split>,
) -> Result<(), Memory>
    requires unit { unit < unit_count problem.now }
    requires few { unit < MOST_UNITS }
    requires same { AreSameParts problem.now unit same.now }
    requires classes { AreClasses (part_order unit 0) (resource_count problem.now)
        classes.old splits.old.items }
    requires earlier { (v : ℕ) → v < unit → IsUnitByClass problem.now v classes.old }
    ensures classes { IfOk result (λ _. AreClasses (part_order (unit + 1) 0)
        (resource_count problem.now) classes.new splits.new.items) }
    ensures more { IfOk result (λ _. length splits.old.items ≤ length splits.new.items) }
    ensures kept { IfOk result (λ _. (f : ℕ → ℕ) →
        IsByClass (resource_count problem.now) classes.old f →
        IsByClass (resource_count problem.now) classes.new f) }
    ensures unit { IfOk result (λ _. IsUnitByClass problem.now unit classes.new) }
{
    for number in 0..problem.parts(unit) {
        let part = PartOf { unit, number };
        split_by_part(problem, part, same[number as usize], classes, splits)?;
    }
    Ok(())
}

// Splits the classes by a part, unless one with the same strips has split them before.
fn split_by_part(
    problem: &Problem,
    part: PartOf,
    other: PartOf,
    classes: &mut [u32],
    splits: &mut Vec<Split>,
) -> Result<(), Memory>
    requires unit { part.unit < unit_count problem.now }
    requires few { part.unit < MOST_UNITS }
    requires number { part.number < part_count problem.now part.unit }
    requires same { strips_at problem.now other ≡ strips_at problem.now part }
    requires classes { AreClasses (part_order part.unit part.number) (resource_count problem.now)
        classes.old splits.old.items }
    requires earlier { (v : ℕ) → v < part.unit → IsUnitByClass problem.now v classes.old }
    ensures classes { IfOk result (λ _. AreClasses (part_order part.unit (part.number + 1))
        (resource_count problem.now) classes.new splits.new.items) }
    ensures more { IfOk result (λ _. length splits.old.items ≤ length splits.new.items) }
    ensures kept { IfOk result (λ _. (f : ℕ → ℕ) →
        IsByClass (resource_count problem.now) classes.old f →
        IsByClass (resource_count problem.now) classes.new f) }
    ensures part { IfOk result (λ _. IsByClass (resource_count problem.now) classes.new
        (λ r. part_uses (strips_at problem.now part) r)) }
{
    if other.unit < part.unit && other.number < problem.parts(other.unit) {
        return Ok(());
    }
    let order = part_order(part);
    let strips = problem.part(part.unit, part.number).strips();
    split_by_strips(strips, order, classes, splits)
}

// The number of a part, above those of the parts before it.
fn part_order(part: PartOf) -> u64
    requires { part.unit < MOST_UNITS }
    ensures { result ≡ part_order part.unit part.number }
{
    (u64::from(part.unit) << 32) + u64::from(part.number) + 1
}

// Splits the classes by the uses of some strips of a part.
fn split_by_strips(
    strips: &[Strip],
    part: u64,
    classes: &mut [u32],
    splits: &mut Vec<Split>,
) -> Result<(), Memory>
    requires within { IsPartInRange (length classes.old) strips.now }
    requires split { AreSplit part (length classes.old) classes.old splits.old.items }
    ensures { IfOk result (λ _. AreSplitBy part (length classes.old)
        classes.old splits.old.items classes.new splits.new.items (λ r. part_uses strips.now r)) }
{
    for strip in strips {
        split_by_strip(strip, part, classes, splits)?;
    }
    Ok(())
}

// Splits the classes by the uses of a strip of a part.
fn split_by_strip(
    strip: &Strip,
    part: u64,
    classes: &mut [u32],
    splits: &mut Vec<Split>,
) -> Result<(), Memory>
    requires within { IsStripInRange (length classes.old) strip.now }
    requires split { AreSplit part (length classes.old) classes.old splits.old.items }
    ensures { IfOk result (λ _. AreSplitBy part (length classes.old)
        classes.old splits.old.items classes.new splits.new.items (λ r. strip_uses strip.now r)) }
{
    for run in 0..strip.times {
        let (start, end) = strip.run(run);
        split_by_run(start as usize, end as usize, part, classes, splits)?;
    }
    Ok(())
}

// Splits the classes by the uses of a run of a part.
fn split_by_run(
    start: usize,
    end: usize,
    part: u64,
    classes: &mut [u32],
    splits: &mut Vec<Split>,
) -> Result<(), Memory>
    requires ordered { start ≤ end }
    requires within { end ≤ length classes.old }
    requires split { AreSplit part (length classes.old) classes.old splits.old.items }
    ensures { IfOk result (λ _. AreSplitBy part (length classes.old)
        classes.old splits.old.items classes.new splits.new.items (λ r. run_uses start end r)) }
{
    for at in start..end {
        classes[at] = used_once_more(classes[at], part, splits)?;
    }
    Ok(())
}

// The class of those resources of a class that a part uses once more; a new one with the first of
// them.
fn used_once_more(class: u32, part: u64, splits: &mut Vec<Split>) -> Result<u32, Memory>
    requires { class < length splits.old.items }
    ensures { IfOk result (λ other. IsSplitOff class part other splits.old.items splits.new.items) }
{
    let split = splits[class as usize];
    if split.part == part {
        return Ok(split.class);
    }
    let Ok(made) = u32::try_from(splits.len()) else {
        return Err(Memory);
    };
    splits[class as usize] = Split { part, class: made };
    splits.push(Split { part: 0, class: 0 })?;
    Ok(made)
}

// For each place the first one with the same number.
fn firsts_in(alloc: Global, numbers: &[u32]) -> Result<Vec<u32>, Memory>
    requires { length numbers.now ≤ MOST_RESOURCES }
    ensures { IfOk result (λ firsts. AreFirstsIn numbers.now firsts.items) }
{
    let mut known = vec![in alloc; 0; count_of(numbers)]?;
    known_firsts(alloc, numbers, &mut known)
}

// For each place the first one with the same number, where for each number a place is known that is
// 0 at first.
fn known_firsts(alloc: Global, numbers: &[u32], known: &mut [u32]) -> Result<Vec<u32>, Memory>
    requires few { length numbers.now ≤ MOST_RESOURCES }
    requires known { (r : ℕ) → r < length numbers.now →
        slice_index numbers.now r < length known.old }
    requires zeros { (c : ℕ) → c < length known.old → slice_index known.old c ≡ 0 }
    ensures { IfOk result (λ firsts. AreFirstsIn numbers.now firsts.items) }
{
    let mut firsts = Vec::with_capacity(alloc, numbers.len())?;
    for at in 0..numbers.len() {
        firsts.push(first_with(numbers, at, known))?;
    }
    Ok(firsts)
}

// A number above all of these.
fn count_of(numbers: &[u32]) -> usize
    ensures { (k : ℕ) → k < length numbers.now → slice_index numbers.now k < result }
{
    let mut count = 0;
    for number in numbers {
        count = count.max(*number as usize + 1);
    }
    count
}

// The first place with the number at a place: the known one, or this place, which is known from
// then on.
fn first_with(numbers: &[u32], at: usize, known: &mut [u32]) -> u32
    requires at { at < length numbers.now }
    requires few { length numbers.now ≤ MOST_RESOURCES }
    requires known { slice_index numbers.now at < length known.old }
    ensures { IsFirstWith numbers.now at known.old known.new result }
{
    let number = numbers[at];
    let first = known[number as usize];
    if (first as usize) < at && numbers[first as usize] == number {
        return first;
    }
    known[number as usize] = at as u32;
    at as u32
}
