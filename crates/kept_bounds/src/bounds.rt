//! The bounds of a tree's vectors, and whether a leaf holds.

ghost use Rattle.std.specs.Prelude.{◌≡◌, ◌<◌, ◌≤◌, ◌+◌, ◌∷◌, ℕ, All, IfOk, IfSome, None, Some, length, map, slice_index_or};
ghost use Rattle.choice_problem.specs.Bounds.{IsVector};
ghost use Rattle.choice_problem.specs.Trees.{vector_at};
ghost use Rattle.price_table.specs.Tables.{IsTableFor};

use crate::totals::{KeptTotals, renewed};
use choice_problem::{Problem, Ranges, SCALE_BOUND, Vector, VectorList};
use price_table::{PriceTable, price_table};
use slot_text::Memory;
use std::alloc::Global;
use std::marker::Model;

/// The vector and the scale that a node names.
#[derive(Clone, Copy)]
pub struct NamedBound {
    pub vector: u32,
    pub scale: u64,
}

/// The bounds of the zero vector and of listed ones, on a walk over the nodes of a tree: the table
/// of each vector, once it is made, and its totals at the ranges and the scale of the last leaf
/// that named it. `AreKept` says of which problem, vectors and ranges they are, and after which
/// changes of ranges: the list that `RangeWalk::advance` adds to.
///
/// Memory: for each vector that is named its table and 24 bytes a unit.
#[derive(Drop)]
pub struct KeptBounds {
    tables: Vec<Option<PriceTable>>,
    totals: Vec<Option<KeptTotals>>,
}

impl Model for KeptBounds {
    ghost use Rattle.kept_bounds.specs.Kept.{BoundsView};

    ghost Value = { BoundsView };

    ghost view = { λ b. record { tables = b.tables.items; totals = b.totals.items } };
}

impl KeptBounds {
    ghost use Rattle.std.specs.Prelude.{◌≡◌, ◌↔◌, ℕ, List, [], All, IsTrue, IfOk};
    ghost use Rattle.choice_problem.specs.Problems.{ProblemView};
    ghost use Rattle.choice_problem.specs.Bounds.{AreRanges, IsVector};
    ghost use Rattle.choice_problem.specs.Trees.{LeafHolds};
    ghost use Rattle.price_table.specs.Tables.{IsTableFor, vectors_of};
    ghost use Rattle.kept_bounds.specs.Kept.{AreKept};

    /// Nothing kept yet, and no table made.
    pub fn empty(alloc: Global, vectors: &VectorList) -> Result<KeptBounds, Memory>
        ensures { IfOk result (λ kept. (p : ProblemView) (ranges : List (ℕ × ℕ)) →
            AreKept p vectors.now ranges [] kept) }
    {
        let count = vectors.items().len();
        Ok(KeptBounds {
            tables: empty_places(alloc, count)?,
            totals: empty_places(alloc, count)?,
        })
    }

    /// No totals kept yet, with these tables of the listed vectors.
    pub fn of_tables(alloc: Global, tables: Vec<PriceTable>) -> Result<KeptBounds, Memory>
        ensures { IfOk result (λ kept. (p : ProblemView) (ranges : List (ℕ × ℕ)) →
            All (IsTableFor p) tables.items →
            AreKept p (vectors_of tables.items) ranges [] kept) }
    {
        let count = tables.len();
        Ok(KeptBounds {
            tables: listed_tables(alloc, tables)?,
            totals: empty_places(alloc, count)?,
        })
    }

    /// Whether the bound that a leaf names closes its ranges for a cost, or for none; false where
    /// it names a vector that is not there or a scale that is too great. The vector's table is made
    /// if there is none. The first leaf that names the vector, and one that names another scale
    /// than the one before, costs one step an alternative in range; else a leaf costs one step for
    /// each change of a range since one last named the vector, and one an alternative of each range
    /// that differs. After want of memory nothing is said of what is kept.
    pub fn leaf_holds(
        &mut self,
        alloc: Global,
        problem: &Problem,
        vectors: &VectorList,
        ranges: &Ranges,
        changes: &[u32],
        cost: Option<u64>,
        named: NamedBound,
    ) -> Result<bool, Memory>
        requires vectors { All (IsVector problem.now) vectors.now }
        requires ranges { AreRanges problem.now ranges.now }
        requires kept { AreKept problem.now vectors.now ranges.now changes.now self.old }
        ensures kept { IfOk result
            (λ holds. AreKept problem.now vectors.now ranges.now changes.now self.new) }
        ensures holds { IfOk result
            (λ holds. IsTrue holds
            ↔ LeafHolds problem.now vectors.now cost ranges.now named.vector named.scale) }
    {
        let place = named.vector as usize;
        if place > vectors.items().len() || named.scale >= SCALE_BOUND {
            return Ok(false);
        }
        let made = self.tables[place].take();
        let table = table_of(alloc, problem, vectors, named.vector, made)?;
        let old = self.totals[place].take();
        let kept = renewed(alloc, problem, &table, old, ranges, changes, named.scale)?;
        let holds = kept.totals.closes(cost);
        self.tables[place] = Some(table);
        self.totals[place] = Some(kept);
        Ok(holds)
    }
}

// A place for the zero vector and for each of so many, all empty.
fn empty_places<T: Drop>(alloc: Global, count: usize) -> Result<Vec<Option<T>>, Memory>
    ensures count { IfOk result (λ places. length places.items ≡ count + 1) }
    ensures none { IfOk result (λ places. (i : ℕ) → slice_index_or places.items i None ≡ None) }
{
    let mut places = Vec::new(alloc);
    places.push(None)?;
    for _ in 0..count {
        places.push(None)?;
    }
    Ok(places)
}

// An empty place for the table of the zero vector, and these tables.
fn listed_tables(alloc: Global, tables: Vec<PriceTable>) -> Result<Vec<Option<PriceTable>>, Memory>
    ensures { IfOk result (λ places. places.items ≡ None ∷ map Some tables.items) }
{
    let mut places = Vec::new(alloc);
    places.push(None)?;
    for table in tables {
        places.push(Some(table))?;
    }
    Ok(places)
}

// The table of a vector that is there, if it is not made yet.
fn table_of(
    alloc: Global,
    problem: &Problem,
    vectors: &VectorList,
    vector: u32,
    made: Option<PriceTable>,
) -> Result<PriceTable, Memory>
    requires vectors { All (IsVector problem.now) vectors.now }
    requires there { vector ≤ length vectors.now }
    requires made { IfSome made (λ table. IsTableFor problem.now table
        × (table.prices ≡ vector_at vectors.now vector)) }
    ensures table { IfOk result (λ table. IsTableFor problem.now table) }
    ensures vector { IfOk result (λ table. table.prices ≡ vector_at vectors.now vector) }
{
    if let Some(table) = made {
        return Ok(table);
    }
    if vector == 0 {
        return price_table(alloc, problem, &Vector::new(Vec::new(alloc)));
    }
    price_table(alloc, problem, &vectors.items()[vector as usize - 1])
}
