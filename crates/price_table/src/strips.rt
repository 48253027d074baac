//! Prices of strips and parts, by sums of the prices of the resources.

ghost use Rattle.std.specs.Prelude.{◌≡◌, ℕ, ◌+◌, ◌-◌, ◌<◌, ◌≤◌, ◌^◌, IsTrue, IfOk, length, slice_index};
ghost use Rattle.choice_problem.specs.declared.problems.TheConstants.{MOST_RESOURCES};
ghost use Rattle.choice_problem.specs.Strips.{IsStripInRange};
ghost use Rattle.choice_problem.specs.Problems.{resource_count};
ghost use Rattle.price_table.specs.Strips.{ArePrices, AreSums, strip_cost};
ghost use Rattle.price_table.specs.Private.Strided.{IsTotalled, AreGapTotals, strided_cost};

use crate::bounds::{Least, first_least};
use choice_problem::{Part, Problem, Ranges, Strip};
use slot_text::Memory;
use std::alloc::Global;
use std::marker::Model;

// What each part of a unit costs.
#[derive(Drop)]
pub(crate) struct UnitPrices {
    pub(crate) parts: Vec<u128>,
}

impl Model for UnitPrices {
    ghost use Rattle.std.specs.Prelude.{List, ℕ};

    ghost Value = { List ℕ };

    ghost view = { λ t. t.parts.items };
}

impl UnitPrices {
    pub(crate) fn items(&self) -> &[u128]
        ensures { result.now ≡ self.now }
    {
        &self.parts
    }
}

// So few strips that what they cost together fits 128 bits.
const MOST_SUMMED: usize = 4_294_967_296;

/// The prices of strips, at one price for each resource: the sums of the prices before each
/// resource, and totals of these sums along one gap, since most strips of several runs have the
/// same gap: at each resource the sum there, and those at all whole gaps from it on. Contracts see
/// the sums. 8 bytes a resource, and as many again from the first strip of several runs on; where
/// there is no memory for these, or a total does not fit 64 bits, each strip is priced run by run.
#[derive(Drop)]
pub struct StripPrices {
    sums: Vec<u64>,
    // One for each sum, or none.
    totals: Vec<u64>,
    // The gap of the totals, or 0 while none were asked for.
    gap: u32,
}

impl Model for StripPrices {
    ghost use Rattle.std.specs.Prelude.{List, ℕ};
    ghost use Rattle.price_table.specs.Private.Strided.{AreGapTotals};

    ghost Value = { List ℕ };

    ghost view = { λ t. t.sums.items };

    ghost invariant = { λ t. AreGapTotals t.sums.items t.totals.items t.gap };
}

impl StripPrices {
    ghost use Rattle.std.specs.Prelude.{◌≡◌, ℕ, ◌+◌, ◌-◌, ◌<◌, ◌≤◌, ◌^◌, IfOk, List, length, map, slice_index};
    ghost use Rattle.choice_problem.specs.declared.closing.TheConstants.{SCALE_BOUND};
    ghost use Rattle.choice_problem.specs.declared.problems.TheConstants.{MOST_RESOURCES};
    ghost use Rattle.choice_problem.specs.declared.vectors.Price.{Price};
    ghost use Rattle.choice_problem.specs.Strips.{IsStripInRange, IsPartInRange};
    ghost use Rattle.choice_problem.specs.Problems.{unit_count, alt_count, part_count, resource_count, chooser_at, part_at};
    ghost use Rattle.choice_problem.specs.Bounds.{AreRanges};
    ghost use Rattle.price_table.specs.Tables.{PricesUnit};
    ghost use Rattle.price_table.specs.Strips.{ArePrices, AreSums, AreSumsOf, IsPricedBy, strip_cost, part_cost, capped_cost};
    ghost use Rattle.price_table.specs.Strips.{least_alt, unit_least};

    /// The sums of these prices, one below 2^40 for each resource, and no totals of them yet: one
    /// step a resource.
    pub fn new(alloc: Global, problem: &Problem, prices: &[u64]) -> Result<StripPrices, Memory>
        requires { ArePrices problem.now prices.now }
        ensures sums { IfOk result (λ sums. AreSums prices.now sums) }
        ensures few { IfOk result (λ _. resource_count problem.now ≤ MOST_RESOURCES) }
    {
        let sums = sums_of(alloc, problem, prices)?;
        Ok(StripPrices {
            sums,
            totals: Vec::new(alloc),
            gap: 0,
        })
    }

    // What each part of a unit costs.
    pub(crate) fn unit(
        &mut self,
        alloc: Global,
        problem: &Problem,
        unit: u32,
    ) -> Result<UnitPrices, Memory>
        requires unit { unit < unit_count problem.now }
        requires sums { length self.old ≡ resource_count problem.now + 1 }
        ensures parts { IfOk result (λ parts. parts
            ≡ map (λ strips. capped_cost self.old strips) (chooser_at problem.now unit).parts) }
        ensures priced { IfOk result (λ parts. (prices : List Price) →
            AreSumsOf (resource_count problem.now) prices self.old →
            PricesUnit problem.now prices unit parts) }
        ensures same { self.new ≡ self.old }
    {
        let mut parts = Vec::with_capacity(alloc, problem.parts(unit) as usize)?;
        for part in problem.unit_parts(unit) {
            parts.push(self.part(part))?;
        }
        Ok(UnitPrices { parts })
    }

    /// The first alternative of a unit's range that is least by `scale` times its cost and what its
    /// parts cost at these sums, and that least: one step an alternative in range.
    pub fn first_least(
        &self,
        problem: &Problem,
        ranges: &Ranges,
        unit: u32,
        parts: &[u128],
        scale: u64,
    ) -> Least
        requires ranges { AreRanges problem.now ranges.now }
        requires unit { unit < unit_count problem.now }
        requires priced { (prices : List Price) × IsPricedBy problem.now prices self.now }
        requires count { length parts.now ≡ part_count problem.now unit }
        requires each { (n : ℕ) → n < part_count problem.now unit → slice_index parts.now n
            ≡ capped_cost self.now (part_at (chooser_at problem.now unit) n) }
        requires scale { scale < SCALE_BOUND }
        ensures alt { (prices : List Price) → IsPricedBy problem.now prices self.now →
            result.alt ≡ least_alt problem.now ranges.now prices scale unit }
        ensures cost { (prices : List Price) → IsPricedBy problem.now prices self.now →
            result.cost ≡ unit_least problem.now ranges.now prices scale unit }
        ensures there { result.alt < alt_count problem.now unit }
        ensures small { result.cost < 2 ^ 101 }
    {
        let (_sums, _parts) = (&self.sums, problem.unit_parts(unit));
        let (low, high) = (ranges.low(unit), ranges.high(unit));
        first_least(problem.unit_alts(unit), low, high, parts, scale)
    }

    /// What a part costs, within 128 bits, in one step a strip whose gap is that of the totals, and
    /// one a run of others; the first strip of several runs makes the totals, at one step a
    /// resource. Parts that an alternative names stay far below.
    pub fn part(&mut self, part: &Part) -> u128
        requires some { 0 < length self.old }
        requires there { IsPartInRange (length self.old - 1) part.now }
        ensures cost { result ≡ capped_cost self.old part.now }
        ensures same { self.new ≡ self.old }
    {
        let strips = part.strips();
        if strips.len() < MOST_SUMMED {
            self.sum(strips)
        } else {
            self.capped_sum(strips)
        }
    }

    // What strips cost together, so few that the sum fits.
    fn sum(&mut self, strips: &[Strip]) -> u128
        requires some { 0 < length self.old }
        requires there { IsPartInRange (length self.old - 1) strips.now }
        requires few { length strips.now < 2 ^ 32 }
        ensures cost { result ≡ part_cost self.old strips.now }
        ensures same { self.new ≡ self.old }
    {
        let mut total = 0;
        for strip in strips {
            total += self.strip(strip);
        }
        total
    }

    // What strips cost together, within 128 bits.
    fn capped_sum(&mut self, strips: &[Strip]) -> u128
        requires some { 0 < length self.old }
        requires there { IsPartInRange (length self.old - 1) strips.now }
        ensures cost { result ≡ capped_cost self.old strips.now }
        ensures same { self.new ≡ self.old }
    {
        let mut total: u128 = 0;
        for strip in strips {
            total = total.saturating_add(self.strip(strip));
        }
        total
    }

    // What a strip costs. One of a single run costs two sums, and needs no totals.
    fn strip(&mut self, strip: &Strip) -> u128
        requires some { 0 < length self.old }
        requires there { IsStripInRange (length self.old - 1) strip.now }
        ensures cost { result ≡ strip_cost self.old strip.now }
        ensures small { result < 2 ^ 96 }
        ensures same { self.new ≡ self.old }
    {
        if strip.times <= 1 {
            strip_price(&self.sums, strip)
        } else {
            self.several(strip)
        }
    }

    // What a strip of several runs costs. It stays apart from the loops over strips, most of which
    // have one run.
    #[inline(never)]
    fn several(&mut self, strip: &Strip) -> u128
        requires some { 0 < length self.old }
        requires there { IsStripInRange (length self.old - 1) strip.now }
        ensures cost { result ≡ strip_cost self.old strip.now }
        ensures small { result < 2 ^ 96 }
        ensures same { self.new ≡ self.old }
    {
        self.make_totals(strip.gap);
        several_price(&self.sums, &self.totals, self.gap, strip)
    }

    // Makes the totals along a gap, if it is the first one above 0.
    fn make_totals(&mut self, gap: u32)
        ensures same { self.new ≡ self.old }
    {
        if self.gap == 0 && gap > 0 {
            self.gap = gap;
            put_totals(&mut self.totals, &self.sums, gap as usize);
        }
    }
}

// For each resource the sum of the prices before it, and of all.
fn sums_of(alloc: Global, problem: &Problem, prices: &[u64]) -> Result<Vec<u64>, Memory>
    requires { ArePrices problem.now prices.now }
    ensures sums { IfOk result (λ sums. AreSums prices.now sums.items) }
    ensures few { IfOk result (λ _. resource_count problem.now ≤ MOST_RESOURCES) }
{
    let mut sums = vec![in alloc; 0; problem.resources() as usize + 1]?;
    add_up(prices, &mut sums);
    Ok(sums)
}

// Puts the sum of the numbers before each place, and of all.
fn add_up(numbers: &[u64], sums: &mut [u64])
    requires count { length sums.old ≡ length numbers.now + 1 }
    requires few { length numbers.now ≤ MOST_RESOURCES }
    requires small { (r : ℕ) → r < length numbers.now → slice_index numbers.now r < 2 ^ 40 }
    ensures { AreSums numbers.now sums.new }
{
    let mut total = 0;
    sums[0] = 0;
    for (place, number) in numbers.iter().enumerate() {
        total += *number;
        sums[place + 1] = total;
    }
}

// What a strip costs: a run costs the sum up to its end less the sum up to its start.
fn strip_price(sums: &[u64], strip: &Strip) -> u128
    requires some { 0 < length sums.now }
    requires there { IsStripInRange (length sums.now - 1) strip.now }
    ensures cost { result ≡ strip_cost sums.now strip.now }
    ensures small { result < 2 ^ 96 }
{
    let mut total = 0;
    for i in 0..strip.times {
        let (start, end) = strip.run(i);
        total += u128::from(sums[end as usize].saturating_sub(sums[start as usize]));
    }
    total
}

// Puts the totals of numbers along a gap, or none where memory does not allow it or one does not
// fit.
fn put_totals(totals: &mut Vec<u64>, numbers: &[u64], gap: usize)
    requires { 0 < gap }
    ensures { length totals.new.items ≡ length numbers.now →
        IsTotalled numbers.now totals.new.items gap }
{
    totals.clear();
    if totals.extend_from_slice(numbers).is_err() || !add_along(totals, gap) {
        totals.clear();
    }
}

// Adds to each number those at all whole gaps from it on, and answers whether all fit.
fn add_along(numbers: &mut [u64], gap: usize) -> bool
    requires { 0 < gap }
    ensures { IsTrue result → IsTotalled numbers.old numbers.new gap }
{
    let count = numbers.len();
    for added in gap..count {
        let place = count - 1 - added;
        match numbers[place].checked_add(numbers[place + gap]) {
            Some(total) => numbers[place] = total,
            None => return false,
        }
    }
    true
}

// What a strip costs: by the totals, if there are some along its gap, else run by run.
fn several_price(sums: &[u64], totals: &[u64], gap: u32, strip: &Strip) -> u128
    requires some { 0 < length sums.now }
    requires there { IsStripInRange (length sums.now - 1) strip.now }
    requires totals { AreGapTotals sums.now totals.now gap }
    ensures cost { result ≡ strip_cost sums.now strip.now }
    ensures small { result < 2 ^ 96 }
{
    if strip.gap == gap && totals.len() == sums.len() {
        u128::from(strided_price(totals, strip))
    } else {
        strip_price(sums, strip)
    }
}

// What a strip costs by totals along its gap: a total less the one past the last run is the sum
// over the runs, here of the sums up to their ends and of the sums up to their starts.
fn strided_price(totals: &[u64], strip: &Strip) -> u64
    ensures { result ≡ strided_cost totals.now strip.now }
{
    let (start, end) = strip.run(0);
    let (past_start, past_end) = strip.run(strip.times);
    let ends = number_at(totals, end).saturating_sub(number_at(totals, past_end));
    let starts = number_at(totals, start).saturating_sub(number_at(totals, past_start));
    ends.saturating_sub(starts)
}

// A number, or 0 past the last.
fn number_at(numbers: &[u64], place: u64) -> u64
    ensures { result ≡ slice_index numbers.now place }
{
    if place < numbers.len() as u64 {
        numbers[place as usize]
    } else {
        0
    }
}
