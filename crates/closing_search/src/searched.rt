//! The search by free splits.

ghost use Rattle.std.specs.Prelude.{IfOk, IfSome};
ghost use Rattle.choice_problem.specs.Bounds.{IsVector};
ghost use Rattle.choice_problem.specs.Choices.{IsFeasible, choice_cost};
ghost use Rattle.closing_search.specs.Endings.{IsEnding, EndsAtMost};

use crate::barred::unbarred_program;
use crate::endings::Ending;
use crate::guesses::{Guessed, close_by_guesses};
use crate::leftovers::Ground;
use crate::quotas::quotas_of;
use crate::states::{NEVER, Task};
use crate::trees::{FEW_VISITS, MOST_NODES, first_tree, further_trees};
use crate::unpriced::unpriced;
use choice_problem::{Choice, Problem, Vector};
use reduced_problem::Reduced;
use relaxed_problem::{End, Relaxation};
use slot_text::Memory;
use std::alloc::Global;
use std::thread::Threads;
use tested_trees::{Found, accepted, known_best};

// The most pivots of the first relaxation.
const ROOT_PIVOTS: u32 = 50_000;

/// A best choice of the problem, or that it has none, with a tree of at most `budget` nodes that
/// proves it; or what is known where this was not found, of which nothing is promised: neither that
/// a problem of some kind is closed, nor how much is tried, nor how good the choice and the vector
/// are.
///
/// A start is a feasible choice: what is answered costs no more.
///
/// It is a branch and bound by the linear relaxation over the resources that matter. A node is
/// closed by a vector that is there already, or by its own prices or ray, rounded; else it is split
/// where the relaxation takes shares of several alternatives, at the unit whose two parts gain most
/// in some pivots (strong branching: Applegate, Bixby, Chvátal and Cook 1995, "Finding cuts in the
/// TSP"), by its uses of a quota where these differ (branching on sets: Beale and Tomlin 1970,
/// "Special facilities in a general mathematical programming system for non-convex problems using
/// ordered sets of variables"). In the end a tree whose splits cut ranges is made of it, and where
/// its leaves name too many vectors, those of some are split further, by what the others close. Its
/// work is bounded by counts of nodes and pivots, and the same problem, start and budget give the
/// same answer for each number of workers: these solve open nodes and look at their splits before
/// their turn, side by side, on at most so many threads, while the tree grows as with one. The test
/// at its end makes a price table of each vector, on up to four threads; a leaf takes a step for
/// each change of a range since one last named its vector, and one an alternative of each range
/// that differs.
///
/// Memory: as many relaxations as there were open nodes at a time, and with several workers three
/// more for each of at most 48 of them; and some 12 more, and with several workers four for each of
/// these.
pub fn closing_search<R: Threads + Sync>(
    rt: &R,
    alloc: Global,
    problem: &Problem,
    start: Option<Choice>,
    budget: u32,
    workers: u32,
) -> Result<Ending, Memory>
    requires { IfSome start (IsFeasible problem.now) }
    ensures ending { IfOk result (IsEnding problem.now budget) }
    ensures start { IfOk result (λ ending. IfSome start
        (λ x. EndsAtMost problem.now (choice_cost problem.now x) ending)) }
{
    let found = unpriced(alloc, problem)?;
    if let Some(closed) = accepted(rt, alloc, problem, &start, budget, found, workers)? {
        return Ok(Ending::Closed(closed));
    }
    let findings = searched(rt, alloc, problem, &start, budget, workers)?;
    ending_of(rt, alloc, problem, start, budget, findings, workers)
}

// The ending by what a search found.
fn ending_of<R: Threads + Sync>(
    rt: &R,
    alloc: Global,
    problem: &Problem,
    start: Option<Choice>,
    budget: u32,
    findings: Findings,
    workers: u32,
) -> Result<Ending, Memory>
    requires start { IfSome start (IsFeasible problem.now) }
    requires vector { IsVector problem.now findings.vector }
    ensures ending { IfOk result (IsEnding problem.now budget) }
    ensures start { IfOk result (λ ending. IfSome start
        (λ x. EndsAtMost problem.now (choice_cost problem.now x) ending)) }
{
    let Findings {
        found,
        best,
        vector,
    } = findings;
    if let Some(found) = found {
        if let Some(closed) = accepted(rt, alloc, problem, &start, budget, found, workers)? {
            return Ok(Ending::Closed(closed));
        }
    }
    let best = known_best(alloc, problem, start, best)?;
    Ok(Ending::Open { best, vector })
}

// What a search found: a tree that may close the problem, a choice that may be good, and a vector.
#[derive(Drop)]
struct Findings {
    found: Option<Found>,
    best: Option<Choice>,
    vector: Vector,
}

// Searches a problem.
fn searched<R: Threads + Sync>(
    rt: &R,
    alloc: Global,
    problem: &Problem,
    start: &Option<Choice>,
    budget: u32,
    workers: u32,
) -> Result<Findings, Memory>
    ensures { IfOk result (λ s. IsVector problem.now s.vector) }
{
    let reduced = Reduced::by_workers(rt, alloc, problem, workers)?;
    let program = unbarred_program(alloc, problem, &reduced)?;
    let quotas = quotas_of(alloc, &reduced)?;
    let task = Task {
        problem,
        reduced: &reduced,
        quotas: &quotas,
        program: &program,
    };
    let most = budget.min(MOST_NODES);
    searched_by(rt, alloc, &task, start, most, workers)
}

// Searches a problem by its program.
fn searched_by<R: Threads + Sync>(
    rt: &R,
    alloc: Global,
    task: &Task<'_>,
    start: &Option<Choice>,
    most: u32,
    workers: u32,
) -> Result<Findings, Memory>
    ensures { IfOk result (λ s. IsVector task.now.problem.now s.vector) }
{
    let mut root = Relaxation::start(alloc, task.program)?;
    let ended = root.solve(alloc, task.program, ROOT_PIVOTS, NEVER)?;
    let ground = Ground {
        root: &root,
        ended,
        most,
        workers,
    };
    searched_from(rt, alloc, task, ground, start)
}

// Searches a problem from its first relaxation.
fn searched_from<R: Threads + Sync>(
    rt: &R,
    alloc: Global,
    task: &Task<'_>,
    ground: Ground<'_>,
    start: &Option<Choice>,
) -> Result<Findings, Memory>
    ensures { IfOk result (λ s. IsVector task.now.problem.now s.vector) }
{
    let vector = ground.root.vector(alloc, task.problem, task.program)?;
    let (found, best) = settled(rt, alloc, task, ground, &vector, start)?;
    Ok(Findings {
        found,
        best,
        vector,
    })
}

// Looks for a small tree first, where the first relaxation ended, and then for more.
fn settled<R: Threads + Sync>(
    rt: &R,
    alloc: Global,
    task: &Task<'_>,
    ground: Ground<'_>,
    vector: &Vector,
    start: &Option<Choice>,
) -> Result<(Option<Found>, Option<Choice>), Memory>
    requires { IsVector task.now.problem.now vector.now }
{
    if ground.ended.end == End::Above || ground.ended.end == End::Spent {
        return Ok((None, None));
    }
    let (found, best) = first_tree(rt, alloc, task, ground, start)?;
    if found.is_some() {
        return Ok((found, best));
    }
    settled_by_more(rt, alloc, task, ground, vector, best)
}

// Looks for a tree of what a fixing leaves, and then for better choices.
fn settled_by_more<R: Threads + Sync>(
    rt: &R,
    alloc: Global,
    task: &Task<'_>,
    ground: Ground<'_>,
    vector: &Vector,
    best: Option<Choice>,
) -> Result<(Option<Found>, Option<Choice>), Memory>
    requires { IsVector task.now.problem.now vector.now }
{
    if ground.ended.end == End::Infeasible || ground.most <= FEW_VISITS {
        return further_trees(rt, alloc, task, ground, best);
    }
    let guessed = close_by_guesses(rt, alloc, task, ground, vector, best)?;
    let Guessed {
        found,
        best,
        is_best,
    } = guessed;
    if found.is_some() || is_best {
        return Ok((found, best));
    }
    further_trees(rt, alloc, task, ground, best)
}
