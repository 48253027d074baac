//! What all workers of a search read.

ghost use Rattle.std.specs.Prelude.{◌≡◌, ◌≤◌, ◌∷◌, IfOk, List, All};
ghost use Rattle.choice_problem.specs.declared.vectors.Price.{Price};
ghost use Rattle.choice_problem.specs.Bounds.{IsVector};
ghost use Rattle.choice_problem.specs.Roots.{IsRootVector};
ghost use Rattle.price_table.specs.Tables.{IsTableFor, vectors_of};
ghost use Rattle.choice_problem.specs.declared.vectors.TheConstants.{MOST_PRICES};
ghost use Rattle.search_workers.specs.Outcomes.{price_count};

use branch_tree::Walk;
use choice_problem::{MOST_PRICES, MOST_VECTORS, Problem, Ranges, Vector, VectorList};
use dual_bound::root_vector;
use price_table::{PriceTable, price_table, push_tables};
use slot_text::Memory;
use std::alloc::Global;
use std::marker::Model;

// A walk of the problem, from which those of the workers are copied, the cost of the greedy choice,
// and the tables of the vectors: the root vector, those that were handed in, and those that rounds
// added. Contracts see the problem, the cost and the vectors.
#[derive(Drop)]
pub(crate) struct Task<'a> {
    walk: Walk<'a>,
    greedy: Option<u64>,
    tables: Vec<PriceTable>,
    given: usize,
    prices: usize,
}

impl<'a> Model for Task<'a> {
    ghost use Rattle.price_table.specs.Tables.{vectors_of};
    ghost use Rattle.search_workers.specs.Settings.{Setting, AreTables};

    ghost Value = { Setting };

    ghost view = { λ t. record {
      problem = t.walk.problem;
      greedy = t.greedy;
      vectors = vectors_of t.tables.items;
    } };

    ghost invariant = { λ t. AreTables t.walk.problem t.greedy t.tables.items t.given t.prices };
}

impl<'a> Task<'a> {
    ghost use Rattle.std.specs.Prelude.{◌≡◌, ◌↔◌, ◌<◌, ◌≤◌, ◌∷◌, [], IfOk, OnOk, IsTrue, take, drop, length, All};
    ghost use Rattle.choice_problem.specs.Bounds.{AreRanges, IsVector};
    ghost use Rattle.choice_problem.specs.Greedy.{IsGreedyCost};
    ghost use Rattle.price_table.specs.Tables.{IsTableFor, vectors_of};
    ghost use Rattle.choice_problem.specs.declared.vectors.TheConstants.{MOST_VECTORS};
    ghost use Rattle.search_workers.specs.Outcomes.{AreFurther, IsJoinedBy};
    ghost use Rattle.search_workers.specs.Settings.{IsSetting, IsWider, root_of};

    // The task of a walk's problem with these further vectors. It computes the root vector.
    pub(crate) fn new(
        alloc: Global,
        problem: &Problem,
        walk: Walk<'a>,
        greedy: Option<u64>,
        further: &[Vector],
    ) -> Result<Task<'a>, Memory>
        requires walk { walk.problem ≡ problem.now }
        requires greedy { IsGreedyCost problem.now greedy }
        requires further { AreFurther problem.now further.now }
        ensures problem { IfOk result (λ task. task.problem ≡ problem.now) }
        ensures greedy { IfOk result (λ task. task.greedy ≡ greedy) }
        ensures further { IfOk result (λ task. drop 1 task.vectors ≡ further.now) }
    {
        let tables = first_tables(alloc, problem, further)?;
        Ok(Task {
            walk,
            greedy,
            tables,
            given: further.len(),
            prices: count_prices(further),
        })
    }

    pub(crate) fn problem(&self) -> &'a Problem
        ensures { result.now ≡ self.now.problem }
    {
        self.walk.problem()
    }

    // A walk of the problem at these ranges.
    pub(crate) fn walk_at(&self, alloc: Global, ranges: Ranges) -> Result<Walk<'a>, Memory>
        requires { AreRanges self.now.problem ranges }
        ensures problem { IfOk result (λ walk. walk.problem ≡ self.now.problem) }
        ensures ranges { IfOk result (λ walk. walk.ranges ≡ ranges) }
    {
        self.walk.copy_at(alloc, ranges)
    }

    // What is known of the task.
    pub(crate) fn known(&self)
        ensures { IsSetting self.now }
    {
        let _ = &self.walk;
    }

    pub(crate) fn tables(&self) -> &[PriceTable]
        ensures valid { All (IsTableFor self.now.problem) result.now }
        ensures vectors { vectors_of result.now ≡ self.now.vectors }
        ensures few { (1 ≤ length result.now) × (length result.now ≤ MOST_VECTORS) }
    {
        &self.tables
    }

    // How many vectors were handed in.
    pub(crate) fn given(&self) -> usize
        ensures { result < length self.now.vectors }
    {
        self.given
    }

    // Whether there is no room for more vectors.
    pub(crate) fn is_full(&self) -> bool
        ensures { IsTrue result ↔ MOST_VECTORS ≤ length self.now.vectors }
    {
        self.tables.len() >= MOST_VECTORS
    }

    // Adds a vector, unless it is empty or there is no room for it.
    pub(crate) fn add(&mut self, alloc: Global, vector: &Vector) -> Result<(), Memory>
        requires { IsVector self.old.problem vector.now }
        ensures wider { IsWider self.old self.new }
        ensures joined { OnOk result
            (IsJoinedBy self.old.vectors vector.now self.new.vectors) }
    {
        let prices = self.prices + vector.items().len();
        if vector.items().is_empty() || self.tables.len() >= MOST_VECTORS || prices > MOST_PRICES {
            return Ok(());
        }
        let table = price_table(alloc, self.walk.problem(), vector)?;
        self.tables.push(table)?;
        self.prices = prices;
        Ok(())
    }

    // The first vectors, at most so many.
    pub(crate) fn vectors(&self, alloc: Global, most: usize) -> Result<VectorList, Memory>
        ensures { IfOk result (λ list. list ≡ take most self.now.vectors) }
    {
        let count = most.min(self.tables.len());
        let vectors = copy_vectors(alloc, &self.tables[..count])?;
        Ok(VectorList::new(vectors))
    }
}

// The tables of the root vector, and of the further vectors.
fn first_tables(
    alloc: Global,
    problem: &Problem,
    further: &[Vector],
) -> Result<Vec<PriceTable>, Memory>
    requires { All (IsVector problem.now) further.now }
    ensures valid { IfOk result (λ tables. All (IsTableFor problem.now) tables.items) }
    ensures root { IfOk result (λ tables. (root : List Price) × IsRootVector problem.now root
        × IsVector problem.now root × (vectors_of tables.items ≡ root ∷ further.now)) }
{
    let mut tables = Vec::new(alloc);
    tables.push(root_table(alloc, problem)?)?;
    push_tables(alloc, problem, further, &mut tables)?;
    Ok(tables)
}

// The table of the root vector.
fn root_table(alloc: Global, problem: &Problem) -> Result<PriceTable, Memory>
    ensures root { IfOk result (λ table. IsRootVector problem.now table.prices) }
    ensures valid { IfOk result (λ table. IsTableFor problem.now table) }
{
    let root = root_vector(alloc, problem)?;
    price_table(alloc, problem, &root)
}

// Copies of the tables' vectors.
fn copy_vectors(alloc: Global, tables: &[PriceTable]) -> Result<Vec<Vector>, Memory>
    ensures { IfOk result (λ vectors. vectors.items ≡ vectors_of tables.now) }
{
    let mut vectors = Vec::new(alloc);
    for table in tables {
        vectors.push(copy_of(alloc, table)?)?;
    }
    Ok(vectors)
}

// A copy of a table's vector.
fn copy_of(alloc: Global, table: &PriceTable) -> Result<Vector, Memory>
    ensures { IfOk result (λ vector. vector ≡ table.now.prices) }
{
    Ok(Vector::new(Vec::from_slice(alloc, table.vector().items())?))
}

// How many prices some vectors have together.
fn count_prices(vectors: &[Vector]) -> usize
    requires { price_count vectors.now ≤ MOST_PRICES }
    ensures { result ≡ price_count vectors.now }
{
    let mut count = 0;
    for vector in vectors {
        count += vector.items().len();
    }
    count
}
