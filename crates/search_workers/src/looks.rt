//! One visit of a place.

ghost use Rattle.std.specs.Prelude.{◌≡◌, ◌<◌, ◌≤◌, ℕ, IfOk, IfSome, None, length, All};
ghost use Rattle.choice_problem.specs.declared.nodes.Node.TheVariants as node;
ghost use Rattle.choice_problem.specs.Bounds.{AreRanges};
ghost use Rattle.search_workers.specs.Settings.{Drives, IsLook, IsPlaceIn};

use crate::places::Place;
use crate::tasks::Task;
use branch_tree::{Visit, visited_nodes};
use choice_problem::{Choice, Node, Ranges, closed_ranges};
use price_table::closes;
use slot_text::Memory;
use std::alloc::Global;

// Visits a place: the node that it gets, and the choice that was found.
pub(crate) fn look(
    alloc: Global,
    task: &Task<'_>,
    place: &Place<'_>,
    seen: Option<u64>,
) -> Result<(Node, Option<Choice>), Memory>
    requires { IsPlaceIn task.now place.now }
    ensures { IfOk result (λ r. IsLook task.now place.now.walk.ranges seen r.0 r.1) }
{
    visited_nodes();
    closed_ranges();
    let tables = task.tables();
    let ranges = place.walk.ranges();
    let visit = place.walk.visit_kept(
        alloc,
        task.problem(),
        &tables[0],
        &tables[1..],
        &place.totals,
        seen,
    )?;
    match visit {
        Visit::Close(leaf) => Ok((leaf, None)),
        Visit::Found(choice, leaf) => Ok((leaf, Some(choice))),
        Visit::Split { unit, cut } => {
            if let Some(leaf) = leaf_without_cost(task, ranges, seen) {
                return Ok((leaf, None));
            }
            Ok((Node::Split { unit, cut, seen }, None))
        }
    }
}

// Where no cost is known, the leaf of the first vector that was handed in and closes the ranges at
// scale 0: there is no feasible choice within them.
fn leaf_without_cost(task: &Task<'_>, ranges: &Ranges, seen: Option<u64>) -> Option<Node>
    requires { AreRanges task.now.problem ranges.now }
    ensures { IfSome result (λ leaf. IsLook task.now ranges.now seen leaf None) }
{
    if seen.is_some() {
        return None;
    }
    let tables = task.tables();
    for place in 1..=task.given() {
        if closes(task.problem(), ranges, &tables[place], 0, None) {
            return Some(Node::Leaf {
                vector: place as u32 + 1,
                scale: 0,
                seen: None,
            });
        }
    }
    None
}
