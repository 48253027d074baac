//! Choices that are looked for apart from the trees that close the problem.

use crate::allowed::Allowed;
use crate::dives::dive;
use crate::growing::grow;
use crate::narrowed::{near_alts, program_of};
use crate::regrets::place_by;
use crate::states::{NEVER, State, Task};
use relaxed_problem::{End, Relaxation};
use slot_text::Memory;
use std::alloc::Global;
use std::thread::Threads;

// How great reduced costs are tried in turn, as parts of the first relaxation's value, and by how
// many nodes and steps.
const WIDTHS: [f64; 3] = [0.0005, 0.002, 0.008];

const FEW_NODES: u32 = 100;

const FEW_STEPS: u64 = 300_000_000;

// The part of the value that is tried where no choice is known, and by how many nodes and steps it
// is tried at last.
const WIDEST: f64 = 0.05;

const MANY_NODES: u32 = 1_000;

const MANY_STEPS: u64 = 1_000_000_000;

// The most pivots of a first relaxation of few alternatives.
const FIRST_PIVOTS: u32 = 20_000;

/// Looks for better choices, where the first relaxation is solved: first of all units by their
/// reduced costs; then by trees over the alternatives of small reduced costs, and at last over all
/// that a better choice can take.
pub(crate) fn improve<R: Threads + Sync>(
    rt: &R,
    alloc: Global,
    task: &Task<'_>,
    state: &mut State,
    root: &Relaxation,
) -> Result<(), Memory> {
    place_by(alloc, task, state, root)?;
    for width in WIDTHS {
        let most = width * root.value();
        if most < gap_of(state, root) {
            search_near(rt, alloc, task, state, root, most, (FEW_NODES, FEW_STEPS))?;
        }
    }
    let gap = gap_of(state, root);
    let widest = WIDEST * root.value();
    let most = if gap < widest { gap } else { widest };
    search_near(rt, alloc, task, state, root, most, (MANY_NODES, MANY_STEPS))
}

// How much more than the relaxation a better choice can cost.
fn gap_of(state: &State, root: &Relaxation) -> f64 {
    state.enough() - root.value()
}

// Looks for a better choice of alternatives of reduced costs of at most so much, by so many nodes
// and steps.
fn search_near<R: Threads + Sync>(
    rt: &R,
    alloc: Global,
    task: &Task<'_>,
    state: &mut State,
    root: &Relaxation,
    most: f64,
    counts: (u32, u64),
) -> Result<(), Memory> {
    let allowed = near_alts(alloc, task, root, most)?;
    let program = program_of(alloc, task, &allowed)?;
    let near = Task {
        problem: task.problem,
        reduced: task.reduced,
        quotas: task.quotas,
        program: &program,
    };
    seek_near(rt, alloc, &near, state, allowed, counts)
}

// Looks for a better choice by a program of these alternatives.
fn seek_near<R: Threads + Sync>(
    rt: &R,
    alloc: Global,
    near: &Task<'_>,
    state: &mut State,
    allowed: Allowed,
    counts: (u32, u64),
) -> Result<(), Memory> {
    let mut first = Relaxation::start(alloc, near.program)?;
    let ended = first.solve(alloc, near.program, FIRST_PIVOTS, state.enough())?;
    state.spend(near.program, ended);
    if ended.end != End::Solved {
        return Ok(());
    }
    seek_from(rt, alloc, near, state, &first, allowed, counts)
}

// Looks for a better choice of these alternatives from a relaxation that is solved.
fn seek_from<R: Threads + Sync>(
    rt: &R,
    alloc: Global,
    near: &Task<'_>,
    state: &mut State,
    first: &Relaxation,
    allowed: Allowed,
    counts: (u32, u64),
) -> Result<(), Memory> {
    let steps = counts.1.min(state.steps);
    let mut other = State::new(alloc, near, first, allowed, steps, state.workers)?;
    other.cost = state.cost;
    seek(rt, alloc, near, &mut other, first, counts.0)?;
    let spent = steps.saturating_sub(other.steps);
    state.steps = state.steps.saturating_sub(spent);
    state.take_any(alloc, near.problem, other.into_best())
}

// Looks for a better choice by a dive and by a tree.
fn seek<R: Threads + Sync>(
    rt: &R,
    alloc: Global,
    task: &Task<'_>,
    state: &mut State,
    first: &Relaxation,
    most: u32,
) -> Result<(), Memory> {
    place_by(alloc, task, state, first)?;
    dive(alloc, task, state, first)?;
    let _goes_on = grow(rt, alloc, task, state, most)?;
    Ok(())
}
