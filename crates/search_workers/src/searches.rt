//! The search of a problem.

ghost use Rattle.std.specs.Prelude.{◌≡◌, ℕ, ◌+◌, ◌*◌, Some, None, ◌<◌, ◌≤◌, List, [], ◌∷◌, ◌++◌, drop, length, IfOk, IfSome, OnOk, ◌⊎◌};
ghost use Rattle.choice_problem.specs.declared.nodes.Node.{Node};
ghost use Rattle.choice_problem.specs.declared.vectors.Price.{Price};
ghost use Rattle.std.specs.Option.{option_map};
ghost use Rattle.choice_problem.specs.Bounds.{AreRanges, whole_of};
ghost use Rattle.choice_problem.specs.Greedy.{IsGreedyCost};
ghost use Rattle.choice_problem.specs.Choices.{IsFeasible, choice_cost};
ghost use Rattle.choice_problem.specs.Named.{NamesUpTo};
ghost use Rattle.choice_problem.specs.Trees.{IsWhole, node_count};
ghost use Rattle.incumbent_word.specs.Core.{AtMost};
ghost use Rattle.branch_tree.specs.Visits.{NoneOver, ClosesBy};
ghost use Rattle.search_workers.specs.Outcomes.{AreAllOf, AreFurther, IsOutcome, IsSettled, OutcomeCostsAtMost, choice_count};
ghost use Rattle.search_workers.specs.Rounds.{AreSoFarJoined, IsRoundJoined, ListsAll};
ghost use Rattle.search_workers.specs.Settings.{IsWider, HasGiven};
ghost use Rattle.search_workers.specs.Work.{IsSoFar, IsStart};

use crate::opening::{first_visit, open_parts};
use crate::outcomes::Outcome;
use crate::places::Place;
use crate::rounds::{first_open, round};
use crate::states::{Start, State};
use crate::tasks::Task;
use crate::trees::is_whole;
use branch_tree::{Walk, greedy, visited_nodes};
use choice_problem::{
    Choice, MOST_VECTORS, Node, Problem, Ranges, Tree, Vector, VectorList, closed_ranges,
    driven_tree, fewer_vectors, greatest_named, node_vector_exists, search_start, sound_tree,
};
use dual_bound::node_vector;
use slot_text::Memory;
use std::alloc::Global;
use std::thread::Threads;
use worker_gate::Gate;

/// Searches a problem with at most `budget` visits, by `workers` workers on threads of their own,
/// from the greedy choice. Each worker passes `gate` before a visit. Where no thread can be made,
/// the workers go one after another.
///
/// Memory: for each worker, and twice more, what a `Walk` takes; for each worker 24 bytes a unit
/// and a vector, and the ranges of its open parts; for each vector a price table; and the tree
/// twice, at 24 bytes a node.
pub fn search<R: Threads + Sync, G: Gate>(
    rt: &R,
    alloc: Global,
    problem: &Problem,
    budget: u32,
    workers: u32,
    gate: &G,
) -> Result<Outcome, Memory>
    requires workers { (1 ≤ workers) × (workers ≤ 16) }
    ensures outcome { IfOk result (IsOutcome problem.now [] budget) }
    ensures settled { 2 * choice_count problem.now ≤ budget + 1 → IfOk result IsSettled }
{
    let none = Vec::new(alloc);
    search_from(rt, alloc, problem, budget, workers, gate, None, none)
}

/// The same from the cheaper of the greedy choice and one that is handed in, whose cost the first
/// visit records, and with further vectors, which have the numbers from 2 on. Where no choice is
/// known, they are also tried at scale 0 on ranges that a visit would split.
pub fn search_from<R: Threads + Sync, G: Gate>(
    rt: &R,
    alloc: Global,
    problem: &Problem,
    budget: u32,
    workers: u32,
    gate: &G,
    start: Option<Choice>,
    further: Vec<Vector>,
) -> Result<Outcome, Memory>
    requires workers { (1 ≤ workers) × (workers ≤ 16) }
    requires start { IfSome start (IsFeasible problem.now) }
    requires further { AreFurther problem.now further.items }
    ensures outcome { IfOk result (IsOutcome problem.now further.items budget) }
    ensures start { 1 ≤ budget → IfOk result (λ outcome. IfSome start
        (λ x. OutcomeCostsAtMost problem.now (choice_cost problem.now x) outcome)) }
    ensures settled { 2 * choice_count problem.now ≤ budget + 1 → IfOk result IsSettled }
{
    search_with(rt, alloc, problem, budget, workers, gate, start, &further)
}

// The same with vectors that the caller keeps.
fn search_with<R: Threads + Sync, G: Gate>(
    rt: &R,
    alloc: Global,
    problem: &Problem,
    budget: u32,
    workers: u32,
    gate: &G,
    start: Option<Choice>,
    further: &[Vector],
) -> Result<Outcome, Memory>
    requires workers { (1 ≤ workers) × (workers ≤ 16) }
    requires start { IfSome start (IsFeasible problem.now) }
    requires further { AreFurther problem.now further.now }
    ensures outcome { IfOk result (IsOutcome problem.now further.now budget) }
    ensures start { 1 ≤ budget → IfOk result (λ outcome. IfSome start
        (λ x. OutcomeCostsAtMost problem.now (choice_cost problem.now x) outcome)) }
    ensures settled { 2 * choice_count problem.now ≤ budget + 1 → IfOk result IsSettled }
{
    let first = greedy(alloc, problem)?;
    if budget == 0 {
        return unvisited(alloc, problem, further, first);
    }
    let start = Start::new(problem, first, start);
    let walk = whole_walk(alloc, problem)?;
    if let Some(leaf) = walk.unpriced_leaf(problem, start.cost) {
        return closed_at_once(alloc, problem, further, budget, start, leaf);
    }
    search_priced(
        rt, alloc, gate, walk, problem, further, start, budget, workers,
    )
}

// A walk at all alternatives.
fn whole_walk<'a>(alloc: Global, problem: &'a Problem) -> Result<Walk<'a>, Memory>
    ensures problem { IfOk result (λ walk. walk.problem ≡ problem.now) }
    ensures ranges { IfOk result (λ walk. walk.ranges ≡ whole_of problem.now) }
    ensures whole { OnOk result (AreRanges problem.now (whole_of problem.now)) }
{
    let whole = Ranges::whole(alloc, problem)?;
    Walk::of(alloc, problem, whole)
}

// What is answered where no visit may be made: the greedy choice, if there is one, and nothing
// searched.
fn unvisited(
    alloc: Global,
    problem: &Problem,
    _further: &[Vector],
    best: Option<Choice>,
) -> Result<Outcome, Memory>
    requires greedy { IsGreedyCost problem.now (option_map (choice_cost problem.now) best) }
    requires feasible { IfSome best (IsFeasible problem.now) }
    ensures outcome { IfOk result (IsOutcome problem.now _further.now 0) }
    ensures settled { 2 * choice_count problem.now ≤ 1 → IfOk result IsSettled }
{
    node_vector_exists();
    driven_tree();
    let _whole = Ranges::whole(alloc, problem)?;
    let tree = Tree::new(vec![in alloc; Node::Undone; 1]?);
    let vectors = VectorList::new(Vec::new(alloc));
    Ok(Outcome::Spent {
        best,
        tree,
        vectors,
    })
}

// What is answered where the first visit closes all alternatives without prices.
fn closed_at_once(
    alloc: Global,
    problem: &Problem,
    _further: &[Vector],
    _budget: u32,
    start: Start,
    leaf: Node,
) -> Result<Outcome, Memory>
    requires start { IsStart problem.now start }
    requires closes { (root : List Price) (further : List (List Price)) →
        ClosesBy problem.now root further (whole_of problem.now) start.cost leaf }
    requires zero { NamesUpTo 0 leaf }
    requires budget { 1 ≤ _budget }
    ensures outcome { IfOk result (IsOutcome problem.now _further.now _budget) }
    ensures settled { IfOk result IsSettled }
    ensures start { IfOk result (λ outcome. (x : List ℕ) → IsFeasible problem.now x →
        AtMost start.cost (Some (choice_cost problem.now x)) →
        OutcomeCostsAtMost problem.now (choice_cost problem.now x) outcome) }
{
    node_vector_exists();
    visited_nodes();
    driven_tree();
    fewer_vectors();
    sound_tree();
    closed_ranges();
    let tree = Tree::new(vec![in alloc; leaf; 1]?);
    let vectors = VectorList::new(Vec::new(alloc));
    let Start { cost, best, .. } = start;
    Ok(settled(tree, vectors, cost, best))
}

// The answer of a search that is whole.
fn settled(tree: Tree, vectors: VectorList, cost: Option<u64>, best: Option<Choice>) -> Outcome
    ensures optimal { (x : List ℕ) (c : ℕ) → best ≡ Some x → cost ≡ Some c →
        result ≡ Outcome.Optimal x c tree vectors }
    ensures infeasible { best ≡ None → result ≡ Outcome.Infeasible tree vectors }
{
    match (best, cost) {
        (Some(choice), Some(cost)) => Outcome::Optimal {
            choice,
            cost,
            tree,
            vectors,
        },
        _ => Outcome::Infeasible { tree, vectors },
    }
}

// The search where the first visit wants prices.
fn search_priced<R: Threads + Sync, G: Gate>(
    rt: &R,
    alloc: Global,
    gate: &G,
    walk: Walk<'_>,
    problem: &Problem,
    further: &[Vector],
    start: Start,
    budget: u32,
    workers: u32,
) -> Result<Outcome, Memory>
    requires workers { (1 ≤ workers) × (workers ≤ 16) }
    requires budget { 1 ≤ budget }
    requires further { AreFurther problem.now further.now }
    requires walk { (walk.problem ≡ problem.now) × (walk.ranges ≡ whole_of problem.now) }
    requires start { IsStart problem.now start }
    requires whole { AreRanges problem.now (whole_of problem.now) }
    requires none_over { NoneOver problem.now (whole_of problem.now) }
    ensures outcome { IfOk result (IsOutcome problem.now further.now budget) }
    ensures settled { 2 * choice_count problem.now ≤ budget + 1 → IfOk result IsSettled }
    ensures start { IfOk result (λ outcome. (x : List ℕ) → IsFeasible problem.now x →
        AtMost start.cost (Some (choice_cost problem.now x)) →
        OutcomeCostsAtMost problem.now (choice_cost problem.now x) outcome) }
{
    let mut task = Task::new(alloc, problem, walk, start.greedy, further)?;
    search_task(rt, alloc, gate, &mut task, further, start, budget, workers)
}

// The first visits of a task, rounds, and what they answer.
fn search_task<R: Threads + Sync, G: Gate>(
    rt: &R,
    alloc: Global,
    gate: &G,
    task: &mut Task<'_>,
    further: &[Vector],
    start: Start,
    budget: u32,
    workers: u32,
) -> Result<Outcome, Memory>
    requires workers { (1 ≤ workers) × (workers ≤ 16) }
    requires budget { 1 ≤ budget }
    requires further { drop 1 task.old.vectors ≡ further.now }
    requires greedy { task.old.greedy ≡ start.greedy }
    requires start { IsStart task.old.problem start }
    requires whole { AreRanges task.old.problem (whole_of task.old.problem) }
    requires none_over { NoneOver task.old.problem (whole_of task.old.problem) }
    ensures outcome { IfOk result (IsOutcome task.old.problem further.now budget) }
    ensures settled { 2 * choice_count task.old.problem ≤ budget + 1 → IfOk result IsSettled }
    ensures start { IfOk result (λ outcome. (x : List ℕ) → IsFeasible task.old.problem x →
        AtMost start.cost (Some (choice_cost task.old.problem x)) →
        OutcomeCostsAtMost task.old.problem (choice_cost task.old.problem x) outcome) }
{
    task.known();
    let (state, taken) = first_visits(alloc, task, start, budget, workers)?;
    let state = run(rt, alloc, gate, task, budget, workers, state, taken)?;
    finish(alloc, task, further, budget, state)
}

// The visits before the rounds, and how many there were.
fn first_visits(
    alloc: Global,
    task: &Task<'_>,
    start: Start,
    budget: u32,
    workers: u32,
) -> Result<(State, u32), Memory>
    requires workers { workers ≤ 16 }
    requires budget { 1 ≤ budget }
    requires greedy { task.now.greedy ≡ start.greedy }
    requires start { IsStart task.now.problem start }
    requires none_over { NoneOver task.now.problem (whole_of task.now.problem) }
    ensures so_far { IfOk result (λ r. IsSoFar task.now r.0.cost r.0.best r.0.tree.items) }
    ensures count { IfOk result (λ r. node_count r.0.tree.items ≡ r.1) }
    ensures within { IfOk result (λ r. r.1 ≤ budget) }
    ensures fell { IfOk result (λ r. AtMost r.0.cost start.cost) }
{
    let whole = Ranges::whole(alloc, task.problem())?;
    let mut place = Place::at(alloc, task, whole)?;
    let state = first_visit(alloc, task, &place, start)?;
    open_parts(alloc, task, &mut place, budget, workers, state)
}

// Rounds until no node is undone or the budget is spent.
fn run<R: Threads + Sync, G: Gate>(
    rt: &R,
    alloc: Global,
    gate: &G,
    task: &mut Task<'_>,
    budget: u32,
    workers: u32,
    state: State,
    taken: u32,
) -> Result<State, Memory>
    requires workers { (1 ≤ workers) × (workers ≤ 16) }
    requires so_far { IsSoFar task.old state.cost state.best state.tree.items }
    requires count { (node_count state.tree.items ≡ taken) × (taken ≤ budget) }
    ensures wider { OnOk result (IsWider task.old task.new) }
    ensures so_far { IfOk result (λ s. IsSoFar task.new s.cost s.best s.tree.items) }
    ensures within { IfOk result (λ s. node_count s.tree.items ≤ budget) }
    ensures ended { IfOk result (λ s. IsWhole s.tree.items ⊎ (node_count s.tree.items ≡ budget)) }
    ensures fell { IfOk result (λ s. AtMost s.cost state.cost) }
    ensures joined { IfOk result (λ s. AreSoFarJoined task.old.problem budget
        (node_count s.tree.items) task.old.vectors task.new.vectors) }
{
    let mut state = state;
    let mut taken = taken;
    while taken < budget && !is_whole(&state.tree) {
        let (next, more) = round(rt, alloc, gate, task, budget - taken, workers, state)?;
        state = next;
        taken += more;
        widen(alloc, task, &state, budget, taken)?;
    }
    Ok(state)
}

// Adds the vector of the first undone node's ranges, if visits are left and there is room for it.
fn widen(
    alloc: Global,
    task: &mut Task<'_>,
    state: &State,
    budget: u32,
    taken: u32,
) -> Result<(), Memory>
    requires so_far { IsSoFar task.old state.now.cost state.now.best state.now.tree.items }
    requires count { node_count state.now.tree.items ≡ taken }
    ensures wider { OnOk result (IsWider task.old task.new) }
    ensures so_far { OnOk result (IsSoFar task.new state.now.cost state.now.best
        state.now.tree.items) }
    ensures joined { OnOk result (IsRoundJoined task.old.problem budget state.now.tree.items
        task.old.vectors task.new.vectors) }
{
    driven_tree();
    search_start();
    node_vector_exists();
    task.known();
    if taken >= budget {
        return Ok(());
    }
    if is_whole(&state.tree) {
        return Ok(());
    }
    if task.is_full() {
        return Ok(());
    }
    let pieces = first_open(alloc, task, state, 1)?;
    let vector = node_vector(alloc, task.problem(), &pieces[0])?;
    task.add(alloc, &vector)?;
    task.known();
    Ok(())
}

// What the search answers.
fn finish(
    alloc: Global,
    task: &Task<'_>,
    _given: &[Vector],
    budget: u32,
    state: State,
) -> Result<Outcome, Memory>
    requires so_far { IsSoFar task.now state.cost state.best state.tree.items }
    requires whole { AreRanges task.now.problem (whole_of task.now.problem) }
    requires given { HasGiven task.now _given.now }
    requires all { AreAllOf task.now.problem _given.now budget task.now.vectors }
    requires within { node_count state.tree.items ≤ budget }
    requires ended { IsWhole state.tree.items ⊎ (node_count state.tree.items ≡ budget) }
    ensures outcome { IfOk result (IsOutcome task.now.problem _given.now budget) }
    ensures all { IfOk result (ListsAll task.now.vectors) }
    ensures settled { 2 * choice_count task.now.problem ≤ budget + 1 → IfOk result IsSettled }
    ensures start { IfOk result (λ outcome. (x : List ℕ) → IsFeasible task.now.problem x →
        AtMost state.cost (Some (choice_cost task.now.problem x)) →
        OutcomeCostsAtMost task.now.problem (choice_cost task.now.problem x) outcome) }
{
    driven_tree();
    task.known();
    if !is_whole(&state.tree) {
        let vectors = task.vectors(alloc, MOST_VECTORS)?;
        let State { tree, best, .. } = state;
        let tree = Tree::new(tree);
        return Ok(Outcome::Spent {
            best,
            tree,
            vectors,
        });
    }
    whole_outcome(alloc, task, _given, budget, state)
}

// What the search answers where no node is undone.
fn whole_outcome(
    alloc: Global,
    task: &Task<'_>,
    _given: &[Vector],
    _budget: u32,
    state: State,
) -> Result<Outcome, Memory>
    requires so_far { IsSoFar task.now state.cost state.best state.tree.items }
    requires given { HasGiven task.now _given.now }
    requires all { AreAllOf task.now.problem _given.now _budget task.now.vectors }
    requires within { node_count state.tree.items ≤ _budget }
    requires whole { IsWhole state.tree.items }
    ensures { IfOk result (λ outcome.
        IsOutcome task.now.problem _given.now _budget outcome × IsSettled outcome) }
{
    driven_tree();
    fewer_vectors();
    sound_tree();
    task.known();
    let named = greatest_named(&state.tree);
    let vectors = task.vectors(alloc, named as usize)?;
    let State { tree, cost, best } = state;
    Ok(settled(Tree::new(tree), vectors, cost, best))
}
