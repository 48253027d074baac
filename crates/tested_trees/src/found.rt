//! What is answered of a tree that was found, after its test.

ghost use Rattle.std.specs.Prelude.{◌≡◌, ◌↔◌, ◌<◌, ◌≤◌, ◌^◌, ℕ, List, All, IsTrue, IfOk, IfSome, drop, length, sum_by, Some, None};
ghost use Rattle.choice_problem.specs.declared.vectors.Price.{Price};
ghost use Rattle.choice_problem.specs.Choices.{IsFeasible, choice_cost};
ghost use Rattle.choice_problem.specs.Bounds.{IsVector, whole_of};
ghost use Rattle.choice_problem.specs.Trees.{IsSound, IsWhole, node_count};
ghost use Rattle.cost_fixing.specs.Fixings.{FixingHolds, tree_problem};
ghost use Rattle.tested_trees.specs.Closed.{ClosesWhole, IsClosed, IsClosedAtMost, IsKnownAtMost};

use crate::closed::Closed;
use crate::exact::{are_vectors, is_proof, leaf_tables};
use choice_problem::{
    Choice, MOST_PRICES, MOST_VECTORS, Node, Problem, Tree, Vector, VectorList, cost_of,
    count_nodes, fits, sound_tree,
};
use cost_fixing::{Fixing, fixed_best, fixing_problem, left_problems};
use kept_bounds::KeptBounds;
use slot_text::Memory;
use std::alloc::Global;
use std::thread::Threads;

/// A tree that was found: its nodes, in preorder; the vectors that its leaves name by number,
/// from 1; the fixing, where it is a tree of what one leaves of the problem; and the choice that it
/// is to prove best, or none where it is to prove that there is none. Nothing is known of them.
#[derive(Drop)]
pub struct Found {
    pub choice: Option<Choice>,
    pub fixing: Option<Fixing>,
    pub nodes: Vec<Node>,
    pub vectors: VectorList,
}

/// What was found, if it passes the test: only where the tree has at most `budget` nodes and proves
/// what it is to prove, at most 64 vectors have at most 1,000,000 prices after the first one, and
/// the choice is feasible and no dearer than the start, where there is one. A start is a feasible
/// choice. Who found it, and how, is not asked; and nothing is promised of what does not pass.
///
/// The test takes what a price table takes for each vector; the tables are made on up to four
/// threads, and on no more than there are workers. Then a leaf takes one step for each change of a
/// range since a leaf last named its vector, and one an alternative of each range that differs; the
/// first leaf that names a vector, and one that names another scale than the one before, takes one
/// an alternative in range. Beside the tables there are 24 bytes a unit for each vector that is
/// named, and 4 bytes for each of these changes, of which there are at most three a split. Memory
/// alone may run out.
pub fn accepted<R: Threads + Sync>(
    rt: &R,
    alloc: Global,
    problem: &Problem,
    start: &Option<Choice>,
    budget: u32,
    found: Found,
    workers: u32,
) -> Result<Option<Closed>, Memory>
    requires { IfSome start.now (IsFeasible problem.now) }
    ensures closed { IfOk result (λ found. IfSome found (IsClosed problem.now budget)) }
    ensures start { IfOk result (λ found. IfSome found (λ closed. IfSome start.now
        (λ x. IsClosedAtMost (choice_cost problem.now x) closed))) }
{
    let Found {
        choice,
        fixing,
        nodes,
        vectors,
    } = found;
    let tree = Tree::new(nodes);
    match choice {
        Some(choice) => {
            accepted_best(
                rt, alloc, problem, start, budget, choice, fixing, tree, vectors, workers,
            )
        }
        None if start.is_some() => Ok(None),
        None => accepted_none(rt, alloc, problem, budget, tree, vectors, workers),
    }
}

/// The cheaper one of a start, which is a feasible choice, and of a choice that was found, if this
/// is feasible; the start where both cost the same. Memory alone may run out.
pub fn known_best(
    alloc: Global,
    problem: &Problem,
    start: Option<Choice>,
    found: Option<Choice>,
) -> Result<Option<Choice>, Memory>
    requires { IfSome start (IsFeasible problem.now) }
    ensures feasible { IfOk result (λ best. IfSome best (IsFeasible problem.now)) }
    ensures start { IfOk result (λ best. IfSome start
        (λ x. IsKnownAtMost problem.now (choice_cost problem.now x) best)) }
{
    let Some(found) = found else {
        return Ok(start);
    };
    if !found.is_for(problem) || !fits(alloc, problem, &found)? {
        return Ok(start);
    }
    let Some(start) = start else {
        return Ok(Some(found));
    };
    if cost_of(problem, &start) <= cost_of(problem, &found) {
        return Ok(Some(start));
    }
    Ok(Some(found))
}

// A best choice, if it passes the test.
fn accepted_best<R: Threads + Sync>(
    rt: &R,
    alloc: Global,
    problem: &Problem,
    start: &Option<Choice>,
    budget: u32,
    choice: Choice,
    fixing: Option<Fixing>,
    tree: Tree,
    vectors: VectorList,
    workers: u32,
) -> Result<Option<Closed>, Memory>
    requires { IfSome start.now (IsFeasible problem.now) }
    ensures closed { IfOk result (λ found. IfSome found (IsClosed problem.now budget)) }
    ensures start { IfOk result (λ found. IfSome found (λ closed. IfSome start.now
        (λ x. IsClosedAtMost (choice_cost problem.now x) closed))) }
{
    if !choice.is_for(problem) || !fits(alloc, problem, &choice)? {
        return Ok(None);
    }
    let cost = cost_of(problem, &choice);
    if !is_within(problem, start, cost) {
        return Ok(None);
    }
    if !closes_whole(
        rt,
        alloc,
        problem,
        budget,
        Some(cost),
        &fixing,
        &tree,
        &vectors,
        workers,
    )? {
        return Ok(None);
    }
    let closed = optimal(problem, start, budget, choice, cost, fixing, tree, vectors);
    Ok(Some(closed))
}

// The answer that passed the test.
fn optimal(
    problem: &Problem,
    start: &Option<Choice>,
    _budget: u32,
    choice: Choice,
    cost: u64,
    fixing: Option<Fixing>,
    tree: Tree,
    vectors: VectorList,
) -> Closed
    requires feasible { IsFeasible problem.now choice }
    requires cost { choice_cost problem.now choice ≡ cost }
    requires within { IfSome start.now (λ x. cost ≤ choice_cost problem.now x) }
    requires closes { ClosesWhole problem.now _budget (Some cost) fixing tree vectors }
    ensures closed { IsClosed problem.now _budget result }
    ensures start { IfSome start.now (λ x. IsClosedAtMost (choice_cost problem.now x) result) }
{
    fixed_best();
    let _problem = problem;
    let _start = start;
    Closed::Optimal {
        choice,
        cost,
        fixing,
        tree,
        vectors,
    }
}

// That there is no choice, if it passes the test.
fn accepted_none<R: Threads + Sync>(
    rt: &R,
    alloc: Global,
    problem: &Problem,
    budget: u32,
    tree: Tree,
    vectors: VectorList,
    workers: u32,
) -> Result<Option<Closed>, Memory>
    ensures { IfOk result (λ found. IfSome found (IsClosed problem.now budget)) }
{
    if !closes_whole(
        rt, alloc, problem, budget, None, &None, &tree, &vectors, workers,
    )? {
        return Ok(None);
    }
    let closed = infeasible(problem, budget, tree, vectors);
    Ok(Some(closed))
}

// The answer that passed the test, where there is no choice.
fn infeasible(problem: &Problem, _budget: u32, tree: Tree, vectors: VectorList) -> Closed
    requires { ClosesWhole problem.now _budget None None tree vectors }
    ensures { IsClosed problem.now _budget result }
{
    sound_tree();
    let _problem = problem;
    Closed::Infeasible { tree, vectors }
}

// Whether a cost is at most that of the start, if there is one.
fn is_within(problem: &Problem, start: &Option<Choice>, cost: u64) -> bool
    requires { IfSome start.now (IsFeasible problem.now) }
    ensures { IsTrue result ↔ IfSome start.now (λ x. cost ≤ choice_cost problem.now x) }
{
    match start {
        Some(start) => cost <= cost_of(problem, start),
        None => true,
    }
}

// Whether the tree keeps the limits on nodes, vectors and prices, the fixing holds, if there is
// one, and the tree of what it leaves is whole and sound for the cost, or for none.
fn closes_whole<R: Threads + Sync>(
    rt: &R,
    alloc: Global,
    problem: &Problem,
    budget: u32,
    cost: Option<u64>,
    fixing: &Option<Fixing>,
    tree: &Tree,
    vectors: &VectorList,
    workers: u32,
) -> Result<bool, Memory>
    ensures { IfOk result (λ yes. IsTrue yes →
        ClosesWhole problem.now budget cost fixing.now tree.now vectors.now) }
{
    if !has_few_nodes(tree, budget) || !are_listable(vectors) {
        return Ok(false);
    }
    if !are_vectors(problem, vectors.items()) {
        return Ok(false);
    }
    is_sound(rt, alloc, problem, cost, fixing, tree, vectors, workers)
}

// Whether the fixing holds, if there is one, and a tree of what it leaves is whole and sound for
// the cost, or for none.
fn is_sound<R: Threads + Sync>(
    rt: &R,
    alloc: Global,
    problem: &Problem,
    cost: Option<u64>,
    fixing: &Option<Fixing>,
    tree: &Tree,
    vectors: &VectorList,
    workers: u32,
) -> Result<bool, Memory>
    requires { All (IsVector problem.now) vectors.now }
    ensures holds { IfOk result (λ yes. IsTrue yes →
        IfSome fixing.now (FixingHolds problem.now vectors.now cost)) }
    ensures sound { IfOk result (λ yes. IsTrue yes →
        IsSound (tree_problem problem.now vectors.now fixing.now) vectors.now cost
        (whole_of (tree_problem problem.now vectors.now fixing.now)) tree.now) }
    ensures whole { IfOk result (λ yes. IsTrue yes → IsWhole tree.now) }
{
    left_problems();
    let Some(fixing) = fixing else {
        return proves(rt, alloc, problem, cost, tree, vectors, workers);
    };
    match fixing_problem(alloc, problem, vectors, cost, fixing)? {
        Some(left) => proves(rt, alloc, &left, cost, tree, vectors, workers),
        None => Ok(false),
    }
}

// Whether a tree of a problem is whole and sound for the cost, or for none.
fn proves<R: Threads + Sync>(
    rt: &R,
    alloc: Global,
    problem: &Problem,
    cost: Option<u64>,
    tree: &Tree,
    vectors: &VectorList,
    workers: u32,
) -> Result<bool, Memory>
    requires { All (IsVector problem.now) vectors.now }
    ensures sound { IfOk result (λ yes. IsTrue yes →
        IsSound problem.now vectors.now cost (whole_of problem.now) tree.now) }
    ensures whole { IfOk result (λ yes. IsTrue yes → IsWhole tree.now) }
{
    let tables = leaf_tables(rt, alloc, problem, vectors.items(), workers)?;
    let bounds = KeptBounds::of_tables(alloc, tables)?;
    is_proof(alloc, problem, vectors, bounds, cost, tree.items())
}

// Whether a tree has at most so many nodes.
fn has_few_nodes(tree: &Tree, budget: u32) -> bool
    ensures { IsTrue result → node_count tree.now ≤ budget }
{
    tree.items().len() < 1 << 32 && count_nodes(tree) <= budget
}

/// Whether vectors keep the limits on their number, 64, and on their prices, 1,000,000 after the
/// first one.
pub fn are_listable(vectors: &VectorList) -> bool
    ensures few { IsTrue result → length vectors.now ≤ 64 }
    ensures prices { IsTrue result →
        sum_by (λ (prices : List Price). length prices) (drop 1 vectors.now) ≤ 1000000 }
{
    let vectors = vectors.items();
    vectors.len() <= MOST_VECTORS && are_few_prices(after_first(vectors))
}

// All but the first.
fn after_first(vectors: &[Vector]) -> &[Vector]
    ensures { result.now ≡ drop 1 vectors.now }
{
    match vectors {
        [_, rest @ ..] => rest,
        _ => vectors,
    }
}

// Whether some vectors have together at most 1,000,000 prices.
fn are_few_prices(vectors: &[Vector]) -> bool
    ensures { IsTrue result →
        sum_by (λ (prices : List Price). length prices) vectors.now ≤ 1000000 }
{
    let mut count = 0;
    for vector in vectors {
        let more = vector.items().len();
        if more > MOST_PRICES - count {
            return false;
        }
        count += more;
    }
    true
}
