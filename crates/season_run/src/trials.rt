//! How a stage is tried: by which searches, and from which start.

ghost use Rattle.std.specs.Prelude.{◌≡◌, ◌+◌, ◌*◌, ◌≤◌, ◌∷◌, [], IfOk, IfSome, IsTrue, ◌↔◌};
ghost use Rattle.choice_problem.specs.Bounds.{IsVector};
ghost use Rattle.choice_problem.specs.Choices.{IsFeasible};
ghost use Rattle.search_workers.specs.Outcomes.{AreFurther, IsOutcome, IsSettled, choice_count};
ghost use Rattle.season_run.specs.Searches.{IsFreeSearch, KeepsKnown, closed_end, found_choice, visited_end};
ghost use Rattle.season_run.specs.Steps.{IsTrialEnd};

use choice_problem::{Choice, Problem, Vector};
use closing_search::{Ending, closing_search};
use cost_fixing::Fixing;
use search_workers::{Outcome, search, search_from};
use slot_text::Memory;
use std::alloc::Global;
use std::thread::Threads;
use tested_trees::Closed;
use worker_gate::Gate;

/// The greatest budget with which a stage is searched from its greedy choice and by the vectors of
/// the search alone, and nothing else is tried. A stage of at most so many units is first given to
/// this search with so many visits.
pub const SMALL_BUDGET: u32 = 64;

/// How the searches of a stage ended, and the fixing of the problem that the tree is one of, if
/// that is not the whole problem.
#[derive(Drop)]
pub struct StageEnd {
    pub outcome: Outcome,
    pub fixing: Option<Fixing>,
}

// Searches the problem of a stage: a small one first by a few visits of the prescribed search;
// then, where the budget has more, by free splits; and where that closes nothing, by the prescribed
// search with the whole budget, from what is known by then.
pub(crate) fn settle_stage<R: Threads + Sync, G: Gate>(
    rt: &R,
    alloc: Global,
    problem: &Problem,
    budget: u32,
    workers: u32,
    gate: &G,
) -> Result<StageEnd, Memory>
    requires budget { 1 ≤ budget }
    requires workers { (1 ≤ workers) × (workers ≤ 16) }
    ensures { IfOk result (IsTrialEnd problem.now budget) }
{
    if budget <= SMALL_BUDGET {
        let outcome = search(rt, alloc, problem, budget, workers, gate)?;
        return Ok(visited_end(outcome));
    }
    if problem.units() > SMALL_BUDGET {
        let end = settle_busy(rt, alloc, problem, budget, workers, gate, None)?;
        return Ok(end);
    }
    let first = search(rt, alloc, problem, SMALL_BUDGET, workers, gate)?;
    if is_settled(&first) {
        return Ok(visited_end(first));
    }
    let start = found_choice(problem, first);
    let end = settle_busy(rt, alloc, problem, budget, workers, gate, start)?;
    Ok(end)
}

// The end of a search by visits.
fn visited_end(outcome: Outcome) -> StageEnd
    ensures { result ≡ visited_end outcome }
{
    StageEnd {
        outcome,
        fixing: None,
    }
}

// Searches by free splits, and where that closes nothing, by the prescribed search.
fn settle_busy<R: Threads + Sync, G: Gate>(
    rt: &R,
    alloc: Global,
    problem: &Problem,
    budget: u32,
    workers: u32,
    gate: &G,
    start: Option<Choice>,
) -> Result<StageEnd, Memory>
    requires workers { (1 ≤ workers) × (workers ≤ 16) }
    requires budget { 1 ≤ budget }
    requires start { IfSome start (IsFeasible problem.now) }
    ensures searches { IfOk result (IsFreeSearch problem.now budget start) }
    ensures settled { 2 * choice_count problem.now ≤ budget + 1 →
        IfOk result (λ end. IsSettled end.outcome) }
{
    match closing_search(rt, alloc, problem, start, budget, workers)? {
        Ending::Closed(closed) => Ok(closed_end(closed)),
        Ending::Open { best, vector } => {
            let outcome = search_known(rt, alloc, problem, budget, workers, gate, best, vector)?;
            Ok(visited_end(outcome))
        }
    }
}

// The end of a search by free splits that closed the problem.
fn closed_end(closed: Closed) -> StageEnd
    ensures value { result ≡ closed_end closed }
    ensures settled { IsSettled result.outcome }
{
    match closed {
        Closed::Optimal {
            choice,
            cost,
            fixing,
            tree,
            vectors,
        } => StageEnd {
            outcome: Outcome::Optimal {
                choice,
                cost,
                tree,
                vectors,
            },
            fixing,
        },
        Closed::Infeasible { tree, vectors } => {
            visited_end(Outcome::Infeasible { tree, vectors })
        }
    }
}

// Whether the problem was searched whole.
fn is_settled(outcome: &Outcome) -> bool
    ensures { IsTrue result ↔ IsSettled outcome.now }
{
    match outcome {
        Outcome::Optimal { .. } => true,
        Outcome::Infeasible { .. } => true,
        Outcome::Spent { .. } => false,
    }
}

// The choice that a search found, if it did.
fn found_choice(_problem: &Problem, outcome: Outcome) -> Option<Choice>
    requires { IfSome (found_choice outcome) (IsFeasible _problem.now) }
    ensures value { result ≡ found_choice outcome }
    ensures feasible { IfSome result (IsFeasible _problem.now) }
{
    match outcome {
        Outcome::Optimal { choice, .. } => Some(choice),
        Outcome::Infeasible { .. } => None,
        Outcome::Spent { best, .. } => best,
    }
}

// The prescribed search with the whole budget, from the cheaper of the greedy choice and one that
// is known, if there is one, and with a vector of prices.
fn search_known<R: Threads + Sync, G: Gate>(
    rt: &R,
    alloc: Global,
    problem: &Problem,
    budget: u32,
    workers: u32,
    gate: &G,
    best: Option<Choice>,
    vector: Vector,
) -> Result<Outcome, Memory>
    requires budget { 1 ≤ budget }
    requires workers { (1 ≤ workers) × (workers ≤ 16) }
    requires best { IfSome best (IsFeasible problem.now) }
    requires vector { IsVector problem.now vector }
    ensures outcome { IfOk result (IsOutcome problem.now (vector ∷ []) budget) }
    ensures keeps { IfOk result (KeepsKnown problem.now best) }
    ensures settled { 2 * choice_count problem.now ≤ budget + 1 → IfOk result IsSettled }
{
    let further = one_vector(alloc, problem, vector)?;
    let outcome = search_from(rt, alloc, problem, budget, workers, gate, best, further)?;
    Ok(outcome)
}

// The list of one vector.
fn one_vector(alloc: Global, problem: &Problem, vector: Vector) -> Result<Vec<Vector>, Memory>
    requires { IsVector problem.now vector }
    ensures further { IfOk result (λ vectors. AreFurther problem.now vectors.items) }
    ensures one { IfOk result (λ vectors. vectors.items ≡ vector ∷ []) }
{
    let _resources = problem.resources();
    let mut vectors = Vec::new(alloc);
    vectors.push(vector)?;
    Ok(vectors)
}
