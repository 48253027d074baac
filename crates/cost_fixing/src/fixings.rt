//! Fixings of stages.

ghost use Rattle.std.specs.Prelude.{◌≡◌, ◌≤◌, All, IfOk, IfSome, IfNone, Some, length};
ghost use Rattle.choice_problem.specs.Bounds.{IsVector};
ghost use Rattle.choice_problem.specs.Trees.{vector_at};
ghost use Rattle.price_table.specs.Tables.{IsTableFor};
ghost use Rattle.cost_fixing.specs.Fixings.{FixingHolds, tree_problem};

use crate::left::left_of;
use choice_problem::{Problem, SCALE_BOUND, Vector, VectorList};
use price_table::{PriceTable, price_table};
use slot_text::Memory;
use std::alloc::Global;

/// Which alternatives a stage does without: those at which the bound at a listed vector and a scale
/// reaches a cost.
#[derive(Clone, Copy, Debug, PartialEq, Eq)]
pub struct Fixing {
    /// The number of the vector: 0 for the one without prices, or its place in the list, from 1.
    pub vector: u32,
    /// The number by which costs are multiplied beside the prices, below 2^20.
    pub scale: u64,
    /// The cost: at least the stage's.
    pub cost: u64,
}

impl Fixing {
    ghost use Rattle.std.specs.Prelude.{◌↔◌, ◌<◌, ◌≤◌, IsTrue, IsSomeAnd};
    ghost use Rattle.choice_problem.specs.declared.closing.TheConstants.{SCALE_BOUND};

    // Whether the vector is one of so many, the scale in its limit, and the stage's cost at most
    // the fixing's.
    fn is_for(&self, vectors: usize, cost: Option<u64>) -> bool
        ensures { IsTrue result ↔ (self.now.vector ≤ vectors) × (self.now.scale < SCALE_BOUND)
            × IsSomeAnd cost (λ n. n ≤ self.now.cost) }
    {
        match cost {
            Some(cost) => {
                self.vector as usize <= vectors && self.scale < SCALE_BOUND && cost <= self.cost
            }
            None => false,
        }
    }
}

/// The problem that the tree of a stage with a fixing is on, for a stage of this cost; none exactly
/// where the fixing does not hold. It takes a price table of the vector and the cost of `left_of`.
pub fn fixing_problem(
    alloc: Global,
    problem: &Problem,
    vectors: &VectorList,
    cost: Option<u64>,
    fixing: &Fixing,
) -> Result<Option<Problem>, Memory>
    requires { All (IsVector problem.now) vectors.now }
    ensures some { IfOk result (λ found. IfSome found (λ _.
        FixingHolds problem.now vectors.now cost fixing.now)) }
    ensures value { IfOk result (λ found. IfSome found (λ left.
        left ≡ tree_problem problem.now vectors.now (Some fixing.now))) }
    ensures none { IfOk result (λ found. IfNone found
        (FixingHolds problem.now vectors.now cost fixing.now → ⊥)) }
{
    if !fixing.is_for(vectors.items().len(), cost) {
        return Ok(None);
    }
    let table = table_at(alloc, problem, vectors, fixing.vector)?;
    match left_of(alloc, problem, &table, fixing.scale, fixing.cost)? {
        Some(left) => Ok(Some(left.into_problem())),
        None => Ok(None),
    }
}

// The price table of a listed vector, or of the one without prices.
fn table_at(
    alloc: Global,
    problem: &Problem,
    vectors: &VectorList,
    number: u32,
) -> Result<PriceTable, Memory>
    requires vectors { All (IsVector problem.now) vectors.now }
    requires there { number ≤ length vectors.now }
    ensures valid { IfOk result (λ table. IsTableFor problem.now table) }
    ensures prices { IfOk result (λ table. table.prices ≡ vector_at vectors.now number) }
{
    if number == 0 {
        return price_table(alloc, problem, &Vector::new(Vec::new(alloc)));
    }
    let vectors = vectors.items();
    price_table(alloc, problem, &vectors[number as usize - 1])
}
