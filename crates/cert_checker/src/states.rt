//! What is kept from node to node of a tree.

ghost use Rattle.std.specs.Prelude.{◌≡◌, ◌↔◌, ◌<◌, ◌∷◌, [], All, IsTrue, IfOk, length};
ghost use Rattle.choice_problem.specs.Bounds.{AreRanges, IsVector, whole_of};
ghost use Rattle.choice_problem.specs.Trees.{LeafHolds, OverHolds};
ghost use Rattle.choice_problem.specs.Walks.{CanStep, IsStep};
ghost use Rattle.cert_checker.specs.States.{IsState, IsStateFirst};

use crate::loads::{Loads, first_loads, over_holds};
use crate::marked::mark_all;
use choice_problem::{Node, Problem, RangeWalk, Ranges, VectorList};
use kept_bounds::{KeptBounds, NamedBound, agreeing_ranges, walked_bounds};
use slot_text::Memory;
use std::alloc::Global;

// Bounds of vectors and least loads of resources at the ranges of a node, and the units whose
// ranges changed on the way to it.
#[derive(Drop)]
pub(crate) struct State {
    pub(crate) bounds: KeptBounds,
    pub(crate) loads: Loads,
    pub(crate) changes: Vec<u32>,
}

/// The state at the root of a tree of these nodes.
pub(crate) fn first_state(
    alloc: Global,
    problem: &Problem,
    vectors: &VectorList,
    nodes: &[Node],
) -> Result<State, Memory>
    ensures { IfOk result
        (λ state. IsState problem.now vectors.now (whole_of problem.now) state) }
{
    Ok(State {
        bounds: KeptBounds::empty(alloc, vectors)?,
        loads: first_loads(alloc, problem, nodes)?,
        changes: Vec::new(alloc),
    })
}

/// Whether a resource is there, and its least load at the ranges of a node passes its limit.
pub(crate) fn resource_over(
    alloc: Global,
    problem: &Problem,
    vectors: &VectorList,
    state: &mut State,
    ranges: &Ranges,
    resource: u32,
) -> Result<bool, Memory>
    requires ranges { AreRanges problem.now ranges.now }
    requires state { IsState problem.now vectors.now ranges.now state.old }
    ensures state { IfOk result (λ holds. IsState problem.now vectors.now ranges.now state.new) }
    ensures holds { IfOk result
        (λ holds. IsTrue holds ↔ OverHolds problem.now ranges.now resource) }
{
    over_holds(
        alloc,
        problem,
        ranges,
        &mut state.loads,
        &state.changes,
        resource,
    )
}

/// Whether the bound that a node names closes its ranges for a cost, or for none.
pub(crate) fn leaf_holds(
    alloc: Global,
    problem: &Problem,
    vectors: &VectorList,
    state: &mut State,
    cost: Option<u64>,
    ranges: &Ranges,
    named: NamedBound,
) -> Result<bool, Memory>
    requires ranges { AreRanges problem.now ranges.now }
    requires vectors { All (IsVector problem.now) vectors.now }
    requires state { IsState problem.now vectors.now ranges.now state.old }
    ensures state { IfOk result (λ holds. IsState problem.now vectors.now ranges.now state.new) }
    ensures holds { IfOk result
        (λ holds. IsTrue holds
        ↔ LeafHolds problem.now vectors.now cost ranges.now named.vector named.scale) }
{
    state.bounds.leaf_holds(alloc, problem, vectors, ranges, &state.changes, cost, named)
}

/// Goes on by a node, where it may stand.
pub(crate) fn go_on(
    problem: &Problem,
    vectors: &VectorList,
    walk: &mut RangeWalk,
    node: Node,
    state: &mut State,
) -> Result<bool, Memory>
    requires some { 0 < length walk.old }
    requires ranges { All (AreRanges problem.now) walk.old }
    requires state { IsStateFirst problem.now vectors.now walk.old state.old }
    ensures step { IfOk result (λ yes. IsTrue yes → IsStep walk.old node walk.new) }
    ensures stop { IfOk result (λ yes. CanStep walk.old node → IsTrue yes) }
    ensures ranges { IfOk result (λ yes. All (AreRanges problem.now) walk.new) }
    ensures state { IfOk result
        (λ yes. IsTrue yes → IsStateFirst problem.now vectors.now walk.new state.new) }
{
    walked_bounds();
    agreeing_ranges();
    let before = state.changes.len();
    let goes_on = walk.advance(node, &mut state.changes)?;
    if goes_on && !walk.is_done() {
        mark_all(&mut state.loads.changed, &state.changes[before..])?;
    }
    Ok(goes_on)
}
