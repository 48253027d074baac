//! Price tables.

ghost use Rattle.std.specs.Prelude.{◌≡◌, ℕ, ◌++◌, ◌<◌, ◌≤◌, ◌^◌, All, IfOk, OnOk, length, slice_index};
ghost use Rattle.choice_problem.specs.declared.problems.TheConstants.{MOST_RESOURCES};
ghost use Rattle.choice_problem.specs.Problems.{resource_count};
ghost use Rattle.choice_problem.specs.Bounds.{IsVector};
ghost use Rattle.price_table.specs.declared.few.TheConstants.{MOST_FEW};
ghost use Rattle.price_table.specs.Tables.{ArePriced, IsTableFor, vectors_of};
ghost use Rattle.price_table.specs.Strips.{IsSpread, AreSumsOf};

use crate::few::{are_few, looked_up};
use crate::folded::{fold_prices, period_of};
use crate::strips::{StripPrices, UnitPrices};
use choice_problem::{Problem, Vector, priced_limits};
use slot_text::Memory;
use std::alloc::Global;
use std::marker::Model;

/// What the parts of all units and the limits cost at the prices of a vector, which it keeps: 16
/// bytes a part and a price. A part that no alternative names may be left out, and stand for 0.
#[derive(Drop)]
pub struct PriceTable {
    vector: Vector,
    units: Vec<UnitPrices>,
    limits: u128,
}

impl Model for PriceTable {
    ghost use Rattle.price_table.specs.Tables.{TableView};

    ghost Value = { TableView };

    ghost view = { λ t. record { prices = t.vector; units = t.units.items; limits = t.limits } };

    ghost use Rattle.std.specs.Prelude.{◌<◌, ◌^◌};

    ghost invariant = { λ t. t.limits < 2 ^ 124 };
}

impl PriceTable {
    ghost use Rattle.std.specs.Prelude.{◌≡◌, ◌<◌, ◌^◌, length, slice_index_or, []};

    /// The vector whose table it is.
    pub fn vector(&self) -> &Vector
        ensures { result.now ≡ self.now.prices }
    {
        &self.vector
    }

    pub(crate) fn unit(&self, unit: u32) -> &[u128]
        requires { unit < length self.now.units }
        ensures { result.now ≡ slice_index_or self.now.units unit [] }
    {
        self.units[unit as usize].items()
    }

    pub(crate) fn limits(&self) -> u128
        ensures value { result ≡ self.now.limits }
        ensures small { result < 2 ^ 124 }
    {
        self.limits
    }
}

/// The table of a vector for a problem, in one of two ways, by how many prices and strips there
/// are. A vector of few prices, at most 4,096, is looked up: they are sorted by their places in a
/// period, the gap of the first strip of several runs, which takes up to 12 steps a place. A strip
/// whose runs are a period apart, none past a period's end, then takes one step a price at its own
/// places; another one takes up to 12 steps, and one a price between its first resource and its
/// end. Memory beside the table is 16 bytes a price and 8 a place, of which there are at most
/// 65,536. Else the prices are summed up, at two steps a resource and one a strip of each part, or
/// one a run where a strip's gap is not that of the first strip of several runs. Memory is then 16
/// bytes a resource while it is made.
pub fn price_table(alloc: Global, problem: &Problem, vector: &Vector) -> Result<PriceTable, Memory>
    requires { IsVector problem.now vector.now }
    ensures vector { IfOk result (λ table. table.prices ≡ vector.now) }
    ensures valid { IfOk result (λ table. IsTableFor problem.now table) }
{
    let period = period_of(problem);
    let units = if are_few(problem, vector, period) {
        units_looked_up(alloc, problem, vector, period)?
    } else {
        units_by_sums(alloc, problem, vector)?
    };
    let limits = priced_limits(problem, vector);
    let vector = Vector::new(Vec::from_slice(alloc, vector.items())?);
    Ok(PriceTable {
        vector,
        units,
        limits,
    })
}

/// The tables of vectors, in their order: for each the cost of `price_table`.
pub fn tables_of(
    alloc: Global,
    problem: &Problem,
    vectors: &[Vector],
) -> Result<Vec<PriceTable>, Memory>
    requires { All (IsVector problem.now) vectors.now }
    ensures valid { IfOk result (λ tables. All (IsTableFor problem.now) tables.items) }
    ensures vectors { IfOk result (λ tables. vectors_of tables.items ≡ vectors.now) }
{
    let mut tables = Vec::with_capacity(alloc, vectors.len())?;
    push_tables(alloc, problem, vectors, &mut tables)?;
    Ok(tables)
}

/// Adds the tables of vectors to those of others, in their order: for each the cost of
/// `price_table`. After want of memory some may have been added.
pub fn push_tables(
    alloc: Global,
    problem: &Problem,
    vectors: &[Vector],
    tables: &mut Vec<PriceTable>,
) -> Result<(), Memory>
    requires tables { All (IsTableFor problem.now) tables.old.items }
    requires vectors { All (IsVector problem.now) vectors.now }
    ensures valid { OnOk result (All (IsTableFor problem.now) tables.new.items) }
    ensures vectors { OnOk result (vectors_of tables.new.items
        ≡ vectors_of tables.old.items ++ vectors.now) }
{
    for vector in vectors {
        tables.push(price_table(alloc, problem, vector)?)?;
    }
    Ok(())
}

// What the parts of each unit cost, by each price between a strip's first resource and its end.
fn units_looked_up(
    alloc: Global,
    problem: &Problem,
    vector: &Vector,
    period: u32,
) -> Result<Vec<UnitPrices>, Memory>
    requires vector { IsVector problem.now vector.now }
    requires few { length vector.now ≤ MOST_FEW }
    requires resources { resource_count problem.now ≤ MOST_RESOURCES }
    ensures { IfOk result (λ units. ArePriced problem.now vector.now units.items) }
{
    let prices = vector.items();
    let folded = fold_prices(alloc, prices, period)?;
    let mut units = Vec::new(alloc);
    for unit in 0..problem.units() {
        units.push(looked_up(alloc, problem, prices, &folded, unit)?)?;
    }
    Ok(units)
}

// What the parts of each unit cost, by sums over all resources.
fn units_by_sums(
    alloc: Global,
    problem: &Problem,
    vector: &Vector,
) -> Result<Vec<UnitPrices>, Memory>
    requires { IsVector problem.now vector.now }
    ensures { IfOk result (λ units. ArePriced problem.now vector.now units.items) }
{
    let mut strips = strip_prices(alloc, problem, vector)?;
    let mut units = Vec::new(alloc);
    for unit in 0..problem.units() {
        units.push(strips.unit(alloc, problem, unit)?)?;
    }
    Ok(units)
}

// The prices of strips at the vector.
fn strip_prices(alloc: Global, problem: &Problem, vector: &Vector) -> Result<StripPrices, Memory>
    requires { IsVector problem.now vector.now }
    ensures { IfOk result (λ strips. AreSumsOf (resource_count problem.now) vector.now strips) }
{
    let mut prices = vec![in alloc; 0; problem.resources() as usize]?;
    set_prices(problem, vector, &mut prices);
    StripPrices::new(alloc, problem, &prices)
}

// Sets the price of each resource that the vector names.
fn set_prices(problem: &Problem, vector: &Vector, prices: &mut [u64])
    requires vector { IsVector problem.now vector.now }
    requires count { length prices.old ≡ resource_count problem.now }
    requires empty { (r : ℕ) → r < length prices.old → slice_index prices.old r ≡ 0 }
    ensures { IsSpread (resource_count problem.now) vector.now prices.new }
{
    for entry in vector.items() {
        prices[entry.resource as usize] = entry.amount();
    }
}
