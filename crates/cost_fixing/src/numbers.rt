//! The numbers of the alternatives that are left.

ghost use Rattle.std.specs.Prelude.{◌≡◌, ◌<◌, IfOk, map};
ghost use Rattle.std.specs.List.{range_with_len};
ghost use Rattle.choice_problem.specs.declared.closing.TheConstants.{SCALE_BOUND};
ghost use Rattle.choice_problem.specs.Problems.{unit_count, alt_count};
ghost use Rattle.choice_problem.specs.Bounds.{whole_of};
ghost use Rattle.price_table.specs.Tables.{IsTableFor};
ghost use Rattle.price_table.specs.Totals.{AreTotalsFor};
ghost use Rattle.cost_fixing.specs.Fixings.{is_out, uses_last, left_alts, left_view};
ghost use Rattle.cost_fixing.specs.Loops.{AreWholeBut};

use choice_problem::{Problem, Ranges};
use price_table::{PriceTable, Totals};
use slot_text::Memory;
use std::alloc::Global;
use std::marker::Model;

// The numbers of some alternatives of a unit.
#[derive(Drop)]
pub(crate) struct AltNumbers {
    numbers: Vec<u32>,
}

impl Model for AltNumbers {
    ghost use Rattle.std.specs.Prelude.{List, ℕ};

    ghost Value = { List ℕ };

    ghost view = { λ a. a.numbers.items };
}

impl AltNumbers {
    pub(crate) fn items(&self) -> &[u32]
        ensures { result.now ≡ self.now }
    {
        &self.numbers
    }
}

// The alternatives of each unit that are left, in their order there.
pub(crate) fn left_numbers(
    alloc: Global,
    problem: &Problem,
    table: &PriceTable,
    scale: u64,
    cost: u64,
) -> Result<Vec<AltNumbers>, Memory>
    requires table { IsTableFor problem.now table.now }
    requires scale { scale < SCALE_BOUND }
    ensures { IfOk result (λ units. units.items
        ≡ (left_view problem.now table.now.prices scale cost).alts) }
{
    let mut totals = whole_totals(alloc, problem, table, scale)?;
    numbers_by(alloc, problem, table, &mut totals, cost)
}

// The totals at all alternatives.
fn whole_totals(
    alloc: Global,
    problem: &Problem,
    table: &PriceTable,
    scale: u64,
) -> Result<Totals, Memory>
    requires table { IsTableFor problem.now table.now }
    requires scale { scale < SCALE_BOUND }
    ensures totals { IfOk result (λ totals.
        AreTotalsFor problem.now table.now.prices totals) }
    ensures whole { IfOk result (λ totals. totals.ranges ≡ whole_of problem.now) }
    ensures scale { IfOk result (λ totals. totals.scale ≡ scale) }
{
    let whole = Ranges::whole(alloc, problem)?;
    Totals::of(alloc, problem, &whole, table, scale)
}

// The alternatives of each unit that are left, by totals at all alternatives.
fn numbers_by(
    alloc: Global,
    problem: &Problem,
    table: &PriceTable,
    totals: &mut Totals,
    cost: u64,
) -> Result<Vec<AltNumbers>, Memory>
    requires table { IsTableFor problem.now table.now }
    requires totals { AreTotalsFor problem.now table.now.prices totals.old }
    requires whole { totals.old.ranges ≡ whole_of problem.now }
    ensures { IfOk result (λ units. units.items
        ≡ map (λ u. left_alts problem.now table.now.prices totals.old.scale cost u)
        (range_with_len 0 (unit_count problem.now))) }
{
    let mut units = Vec::with_capacity(alloc, problem.units() as usize)?;
    for unit in 0..problem.units() {
        units.push(unit_numbers(alloc, problem, table, totals, unit, cost)?)?;
    }
    Ok(units)
}

// The alternatives of a unit that are left, those that use the last resource behind the others. The
// totals are at all alternatives, before and after.
fn unit_numbers(
    alloc: Global,
    problem: &Problem,
    table: &PriceTable,
    totals: &mut Totals,
    unit: u32,
    cost: u64,
) -> Result<AltNumbers, Memory>
    requires table { IsTableFor problem.now table.now }
    requires totals { AreTotalsFor problem.now table.now.prices totals.old }
    requires whole { totals.old.ranges ≡ whole_of problem.now }
    requires unit { unit < unit_count problem.now }
    ensures totals { IfOk result (λ _. AreTotalsFor problem.now table.now.prices totals.new) }
    ensures whole { IfOk result (λ _. totals.new.ranges ≡ whole_of problem.now) }
    ensures scale { IfOk result (λ _. totals.new.scale ≡ totals.old.scale) }
    ensures value { IfOk result (λ numbers. numbers
        ≡ left_alts problem.now table.now.prices totals.old.scale cost unit) }
{
    let mut numbers = Vec::new(alloc);
    let mut last = Vec::new(alloc);
    for alt in 0..problem.alts(unit) {
        if !is_out(problem, table, totals, unit, alt, cost) {
            if uses_last(problem, unit, alt) {
                last.push(alt)?;
            } else {
                numbers.push(alt)?;
            }
        }
    }
    totals.set(problem, unit, 0, problem.alts(unit) - 1, table);
    numbers.extend_from_slice(&last)?;
    Ok(AltNumbers { numbers })
}

// Whether an alternative uses the last resource.
fn uses_last(problem: &Problem, unit: u32, alt: u32) -> bool
    requires unit { unit < unit_count problem.now }
    requires alt { alt < alt_count problem.now unit }
    ensures { result ≡ uses_last problem.now unit alt }
{
    problem.uses(unit, alt, problem.resources().saturating_sub(1)) > 0
}

// Whether the bound with an alternative reaches the cost. The totals are then at that alternative.
fn is_out(
    problem: &Problem,
    table: &PriceTable,
    totals: &mut Totals,
    unit: u32,
    alt: u32,
    cost: u64,
) -> bool
    requires table { IsTableFor problem.now table.now }
    requires totals { AreTotalsFor problem.now table.now.prices totals.old }
    requires whole { AreWholeBut problem.now unit totals.old.ranges }
    requires unit { unit < unit_count problem.now }
    requires alt { alt < alt_count problem.now unit }
    ensures totals { AreTotalsFor problem.now table.now.prices totals.new }
    ensures whole { AreWholeBut problem.now unit totals.new.ranges }
    ensures scale { totals.new.scale ≡ totals.old.scale }
    ensures value { result
        ≡ is_out problem.now table.now.prices totals.old.scale cost unit alt }
{
    totals.set(problem, unit, alt, alt, table);
    totals.closes(Some(cost))
}
