//! The floors of a tree's undone nodes, and the bound that they state.

ghost use Rattle.std.specs.Prelude.{◌≡◌, ◌≤◌, ◌∷◌, ◌++◌, [], ℕ, List, Option, All, IfOk, OnOk, length};
ghost use Rattle.choice_problem.specs.declared.vectors.TheConstants.{MOST_VECTORS};
ghost use Rattle.choice_problem.specs.Bounds.{AreRanges, whole_of};
ghost use Rattle.choice_problem.specs.Grafts.{open_ranges};
ghost use Rattle.choice_problem.specs.Walks.{AreWalkable};
ghost use Rattle.price_table.specs.Tables.{IsTableFor, vectors_of};
ghost use Rattle.dual_bound.specs.Stated.{scale_at};
ghost use Rattle.season_run.specs.Ends.{undone_ranges};
ghost use Rattle.season_run.specs.Steps.{AreFound, undone_at, least_with};

use cert_format::Floor;
use choice_problem::{Node, PRICED_SCALE, Problem, RangeWalk, Ranges};
use dual_bound::KeptFloors;
use price_table::PriceTable;
use slot_text::Memory;
use std::alloc::Global;

// The floors of undone nodes, and the least of a cost and of what they give.
#[derive(Drop)]
pub(crate) struct Stated {
    pub(crate) floors: Vec<Floor>,
    pub(crate) bound: Option<u64>,
}

// The floors of a tree's undone nodes, in preorder, and the least of a cost and of what they give.
// What they are read from is kept while the tree is walked.
pub(crate) fn stated_floors(
    alloc: Global,
    problem: &Problem,
    tables: &[PriceTable],
    tree: &[Node],
    cost: Option<u64>,
) -> Result<Stated, Memory>
    requires tables { All (IsTableFor problem.now) tables.now }
    requires few { length tables.now ≤ MOST_VECTORS }
    requires tree { AreWalkable (whole_of problem.now ∷ []) tree.now }
    ensures { IfOk result (λ stated. AreFound problem.now (vectors_of tables.now) cost
        (undone_ranges problem.now tree.now) stated) }
{
    let whole = Ranges::whole(alloc, problem)?;
    let mut kept = KeptFloors::of(alloc, problem, tables, &whole)?;
    let mut walk = RangeWalk::new(alloc, whole);
    let mut changed = Vec::new(alloc);
    let mut stated = Stated {
        floors: Vec::new(alloc),
        bound: cost,
    };
    walk_floors(&mut kept, &mut walk, tree, &mut stated, &mut changed)?;
    Ok(stated)
}

// Adds the floors of a tree's undone nodes on the ranges of a walk, where none are stated yet.
fn walk_floors(
    kept: &mut KeptFloors<'_>,
    walk: &mut RangeWalk,
    tree: &[Node],
    stated: &mut Stated,
    changed: &mut Vec<u32>,
) -> Result<(), Memory>
    requires ranges { All (AreRanges kept.old.problem) walk.old }
    requires tree { AreWalkable walk.old tree.now }
    requires none { stated.old.floors.items ≡ [] }
    ensures { OnOk result (AreFound kept.old.problem kept.old.vectors stated.old.bound
        (open_ranges walk.old tree.now) stated.new) }
{
    for node in tree {
        add_floor(kept, walk.ranges(), *node, stated)?;
        changed.clear();
        walk.advance(*node, changed)?;
    }
    Ok(())
}

// Adds the floor of a node's ranges, where it is undone.
fn add_floor(
    kept: &mut KeptFloors<'_>,
    ranges: &Ranges,
    node: Node,
    stated: &mut Stated,
) -> Result<(), Memory>
    requires { AreRanges kept.old.problem ranges.now }
    ensures problem { kept.new.problem ≡ kept.old.problem }
    ensures vectors { kept.new.vectors ≡ kept.old.vectors }
    ensures found { OnOk result ((cost : Option ℕ) (pieces : List (List (ℕ × ℕ))) →
        AreFound kept.old.problem kept.old.vectors cost pieces stated.old →
        AreFound kept.old.problem kept.old.vectors cost
        (pieces ++ undone_at ranges.now node) stated.new) }
{
    match node {
        Node::Undone => push_floor(kept, ranges, stated),
        Node::Split { .. } => Ok(()),
        Node::Leaf { .. } => Ok(()),
        Node::Over { .. } => Ok(()),
    }
}

// Adds the floor of ranges.
fn push_floor(kept: &mut KeptFloors<'_>, ranges: &Ranges, stated: &mut Stated) -> Result<(), Memory>
    requires { AreRanges kept.old.problem ranges.now }
    ensures problem { kept.new.problem ≡ kept.old.problem }
    ensures vectors { kept.new.vectors ≡ kept.old.vectors }
    ensures found { OnOk result ((cost : Option ℕ) (pieces : List (List (ℕ × ℕ))) →
        AreFound kept.old.problem kept.old.vectors cost pieces stated.old →
        AreFound kept.old.problem kept.old.vectors cost (pieces ++ ranges.now ∷ []) stated.new) }
{
    kept.go(ranges);
    let found = kept.floor();
    stated.floors.push(Floor {
        vector: found.vector,
        scale: scale_of(found.vector),
    })?;
    stated.bound = Some(least_with(stated.bound, found.cost));
    Ok(())
}

// The scale at which a vector's bound is a floor.
fn scale_of(vector: u32) -> u64
    ensures { result ≡ scale_at vector }
{
    if vector == 0 { 1 } else { PRICED_SCALE }
}

// The lesser of two costs, of which the first may be none.
fn least_with(bound: Option<u64>, cost: u64) -> u64
    ensures { result ≡ least_with bound cost }
{
    match bound {
        Some(least) => least.min(cost),
        None => cost,
    }
}
