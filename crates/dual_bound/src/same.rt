//! Parts of a problem with the same strips: they cost the same, so mostly one of them is priced.

ghost use Rattle.std.specs.Prelude.{◌≡◌, ◌+◌, ◌<◌, IfOk, IsTrue, length};
ghost use Rattle.choice_problem.specs.Problems.{unit_count, part_count, resource_count};
ghost use Rattle.price_table.specs.Strips.{capped_cost};
ghost use Rattle.dual_bound.specs.Same.{AreSameParts, AreSameTo, AreCosts, AreCostsTo, strips_at};

use choice_problem::{Problem, Strip};
use price_table::StripPrices;
use slot_text::Memory;
use std::alloc::Global;
use std::marker::Model;

// A part of a unit, by its number.
#[derive(Clone, Copy)]
pub(crate) struct PartOf {
    pub(crate) unit: u32,
    pub(crate) number: u32,
}

// For each part of a unit a part with the same strips.
#[derive(Drop)]
pub(crate) struct SameParts {
    parts: Vec<PartOf>,
}

impl Model for SameParts {
    ghost use Rattle.std.specs.Prelude.{List};
    ghost use Rattle.dual_bound.specs.declared.same.PartOf.{PartOf};

    ghost Value = { List PartOf };

    ghost view = { λ s. s.parts.items };
}

impl SameParts {
    pub(crate) fn items(&self) -> &[PartOf]
        ensures { result.now ≡ self.now }
    {
        &self.parts
    }
}

// What each part of a unit costs.
#[derive(Drop)]
pub(crate) struct PartCosts {
    costs: Vec<u128>,
}

impl Model for PartCosts {
    ghost use Rattle.std.specs.Prelude.{List, ℕ};

    ghost Value = { List ℕ };

    ghost view = { λ c. c.costs.items };
}

impl PartCosts {
    pub(crate) fn items(&self) -> &[u128]
        ensures { result.now ≡ self.now }
    {
        &self.costs
    }
}

// How many places for parts there are, by a hash of their strips. Each holds a part with the same
// strips as the last one whose strips have that hash.
const PLACES: usize = 65_536;

// For each part of all units a part with the same strips, an earlier one where one is found: two
// steps a strip, 8 bytes a part, and 8 a place for that time.
pub(crate) fn same_parts(alloc: Global, problem: &Problem) -> Result<Vec<SameParts>, Memory>
    ensures { IfOk result (λ units. AreSameTo problem.now (unit_count problem.now) units.items) }
{
    let none = PartOf { unit: 0, number: 0 };
    let mut last = vec![in alloc; none; PLACES]?;
    let mut units = Vec::new(alloc);
    for unit in 0..problem.units() {
        units.push(same_in_unit(alloc, problem, unit, &mut last)?)?;
    }
    Ok(units)
}

// For each part of a unit a part with the same strips.
fn same_in_unit(
    alloc: Global,
    problem: &Problem,
    unit: u32,
    last: &mut [PartOf],
) -> Result<SameParts, Memory>
    requires unit { unit < unit_count problem.now }
    ensures same { IfOk result (λ parts. AreSameParts problem.now unit parts) }
{
    let mut parts = Vec::new(alloc);
    for number in 0..problem.parts(unit) {
        parts.push(same_part(problem, PartOf { unit, number }, last))?;
    }
    Ok(SameParts { parts })
}

// A part with the same strips: the one at its place, or itself, which takes that place then.
fn same_part(problem: &Problem, part: PartOf, last: &mut [PartOf]) -> PartOf
    requires unit { part.unit < unit_count problem.now }
    requires number { part.number < part_count problem.now part.unit }
    ensures { strips_at problem.now result ≡ strips_at problem.now part }
{
    let place = place_of(problem.part(part.unit, part.number).strips());
    if place < last.len() {
        let other = last[place];
        if is_same(problem, part, other) {
            return other;
        }
        last[place] = part;
    }
    part
}

// Whether there is another part, with the same strips.
fn is_same(problem: &Problem, part: PartOf, other: PartOf) -> bool
    requires unit { part.unit < unit_count problem.now }
    requires number { part.number < part_count problem.now part.unit }
    ensures { IsTrue result → strips_at problem.now other ≡ strips_at problem.now part }
{
    if other.unit >= problem.units() || other.number >= problem.parts(other.unit) {
        return false;
    }
    let strips = problem.part(part.unit, part.number).strips();
    are_equal(problem.part(other.unit, other.number).strips(), strips)
}

// Whether two lists of strips are the same.
fn are_equal(one: &[Strip], other: &[Strip]) -> bool
    ensures { IsTrue result → one.now ≡ other.now }
{
    if one.len() != other.len() {
        return false;
    }
    for place in 0..one.len() {
        if one[place] != other[place] {
            return false;
        }
    }
    true
}

// The place of a part with these strips, their hash: the high bits of a sum of products that mixes
// their numbers.
fn place_of(strips: &[Strip]) -> usize {
    let mut mixed: u32 = 0;
    for strip in strips {
        mixed = mixed.wrapping_add(mixed_strip(strip));
    }
    (mixed >> 16) as usize
}

fn mixed_strip(strip: &Strip) -> u32 {
    let mixed = strip.hash_code();
    (mixed ^ (mixed >> 15)).wrapping_mul(0x2C1B_3C6D)
}

// What the parts of all units cost.
pub(crate) fn part_costs(
    alloc: Global,
    problem: &Problem,
    same: &[SameParts],
    strips: &mut StripPrices,
) -> Result<Vec<PartCosts>, Memory>
    requires same { AreSameTo problem.now (unit_count problem.now) same.now }
    requires sums { length strips.old ≡ resource_count problem.now + 1 }
    ensures costs { IfOk result (λ costs.
        AreCostsTo problem.now strips.old (unit_count problem.now) costs.items) }
    ensures same { strips.new ≡ strips.old }
{
    let mut units = Vec::new(alloc);
    for unit in 0..problem.units() {
        let parts = same[unit as usize].items();
        units.push(unit_costs(alloc, problem, unit, parts, &units, strips)?)?;
    }
    Ok(units)
}

// What the parts of a unit cost, where those of the earlier units do so much.
fn unit_costs(
    alloc: Global,
    problem: &Problem,
    unit: u32,
    same: &[PartOf],
    earlier: &[PartCosts],
    strips: &mut StripPrices,
) -> Result<PartCosts, Memory>
    requires unit { unit < unit_count problem.now }
    requires same { AreSameParts problem.now unit same.now }
    requires earlier { AreCostsTo problem.now strips.old unit earlier.now }
    requires sums { length strips.old ≡ resource_count problem.now + 1 }
    ensures costs { IfOk result (λ costs. AreCosts problem.now strips.old unit costs) }
    ensures same { strips.new ≡ strips.old }
{
    let mut costs = Vec::with_capacity(alloc, same.len())?;
    for number in 0..problem.parts(unit) {
        let other = same[number as usize];
        costs.push(part_cost(problem, PartOf { unit, number }, other, earlier, strips))?;
    }
    Ok(PartCosts { costs })
}

// What a part costs: what another one with the same strips does, if that one is priced.
fn part_cost(
    problem: &Problem,
    part: PartOf,
    other: PartOf,
    earlier: &[PartCosts],
    strips: &mut StripPrices,
) -> u128
    requires unit { part.unit < unit_count problem.now }
    requires number { part.number < part_count problem.now part.unit }
    requires same { strips_at problem.now other ≡ strips_at problem.now part }
    requires earlier { AreCostsTo problem.now strips.old part.unit earlier.now }
    requires sums { length strips.old ≡ resource_count problem.now + 1 }
    ensures cost { result ≡ capped_cost strips.old (strips_at problem.now part) }
    ensures same { strips.new ≡ strips.old }
{
    if other.unit < part.unit {
        let costs = earlier[other.unit as usize].items();
        if (other.number as usize) < costs.len() {
            return costs[other.number as usize];
        }
    }
    strips.part(problem.part(part.unit, part.number))
}
