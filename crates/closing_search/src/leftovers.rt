//! A tree of what a fixing leaves.

use crate::growing::grow;
use crate::states::{State, Task};
use crate::trees::found_in;
use choice_problem::Choice;
use relaxed_problem::{End, Ended, Relaxation};
use slot_text::Memory;
use std::alloc::Global;
use std::thread::Threads;
use tested_trees::Found;

/// What a tree may take: so many visits and steps, of which it must find a choice within the first
/// ones; whether splits by the uses of quotas come first; whether more splits are looked at;
/// whether nodes of low bounds are searched first; and whether the first visits must raise the
/// least bound, where splits by quotas come first.
#[derive(Clone, Copy, Debug)]
pub(crate) struct Limits {
    pub(crate) visits: u32,
    pub(crate) steps: u64,
    pub(crate) first_steps: u64,
    pub(crate) is_by_quotas: bool,
    pub(crate) is_thorough: bool,
    pub(crate) is_by_bounds: bool,
    pub(crate) must_rise: bool,
}

// How many visits are the first ones, and by which part of what the least bound lacks of the cost
// they must raise it, where they must: where splits gain so little, others gain more.
const RISING_VISITS: u32 = 100;

const RISING_PART: f64 = 20.0;

/// What a tree came to: what may close the problem, the best choice that is below the guess,
/// whether it ended, or was stopped since its first visits did not raise its bound, and how many
/// steps are left.
#[derive(Drop)]
pub(crate) struct Grown {
    pub(crate) found: Option<Found>,
    pub(crate) best: Option<Choice>,
    pub(crate) is_ended: bool,
    pub(crate) is_flat: bool,
    pub(crate) steps: u64,
}

impl Grown {
    // What a tree came to that was not grown.
    fn nothing() -> Grown {
        Grown {
            found: None,
            best: None,
            is_ended: false,
            is_flat: false,
            steps: 0,
        }
    }
}

/// What the trees of a guess begin with: a relaxation, and what it took; and by how many nodes and
/// workers they grow.
#[derive(Clone, Copy)]
pub(crate) struct Ground<'a> {
    pub(crate) root: &'a Relaxation,
    pub(crate) ended: Ended,
    pub(crate) most: u32,
    pub(crate) workers: u32,
}

/// Grows a tree in which choices below the guess alone are looked for, or below a start.
pub(crate) fn grow_left<R: Threads + Sync>(
    rt: &R,
    alloc: Global,
    task: &Task<'_>,
    ground: Ground<'_>,
    start: Option<Choice>,
    guess: u64,
    limits: Limits,
) -> Result<Grown, Memory> {
    if ground.ended.end == End::Spent {
        return Ok(Grown::nothing());
    }
    let mut state = first_state(alloc, task, ground, start, guess, limits)?;
    let growth = grow_on(rt, alloc, task, &mut state, limits, ground.most)?;
    grown_of(alloc, task, state, growth, ground.most)
}

// A state in which choices below the guess alone are looked for, or below a start.
fn first_state(
    alloc: Global,
    task: &Task<'_>,
    ground: Ground<'_>,
    start: Option<Choice>,
    guess: u64,
    limits: Limits,
) -> Result<State, Memory> {
    let first = limits.steps.min(limits.first_steps);
    let mut state = State::of_all(alloc, task, ground.root, first, ground.workers)?;
    state.spend(task.program, ground.ended);
    state.is_by_quotas = limits.is_by_quotas && state.is_by_quotas;
    state.is_thorough = limits.is_thorough;
    state.is_by_bounds = limits.is_by_bounds;
    if start.is_none() {
        state.cost = Some(guess);
    }
    state.take_any(alloc, task.problem, start)?;
    Ok(state)
}

// How a tree grew: whether it was stopped since its first visits did not raise its bound, and how
// many steps were not given to it.
#[derive(Clone, Copy)]
struct Growth {
    is_flat: bool,
    rest: u64,
}

// Grows a tree by its first steps, and where a choice is known then by the others, unless its first
// visits do not raise its bound as they must.
fn grow_on<R: Threads + Sync>(
    rt: &R,
    alloc: Global,
    task: &Task<'_>,
    state: &mut State,
    limits: Limits,
    most: u32,
) -> Result<Growth, Memory> {
    let visits = limits.visits.min(most);
    let first = visits.min(RISING_VISITS);
    let bound = state.least_bound();
    let goes_on = grow(rt, alloc, task, state, first)?;
    let must_rise = limits.must_rise && state.is_by_quotas;
    let is_flat = goes_on && must_rise && !has_risen(state, bound);
    if goes_on && !is_flat {
        let _goes_on = grow(rt, alloc, task, state, visits.saturating_sub(first))?;
    }
    let rest = limits.steps.saturating_sub(limits.first_steps);
    if state.steps > 0 || state.best.is_none() {
        return Ok(Growth { is_flat, rest });
    }
    state.steps = rest;
    let _goes_on = grow(rt, alloc, task, state, visits)?;
    Ok(Growth { is_flat, rest: 0 })
}

// Whether the least bound, which was this, has risen by the part of what it lacked of the cost.
fn has_risen(state: &State, bound: f64) -> bool {
    (state.least_bound() - bound) * RISING_PART >= state.enough() - bound
}

// What a state has come to that grew so.
fn grown_of(
    alloc: Global,
    task: &Task<'_>,
    state: State,
    growth: Growth,
    most: u32,
) -> Result<Grown, Memory> {
    let is_ended = state.open.is_empty() && state.steps > 0;
    let found = found_at_end(alloc, task, &state, is_ended, most)?;
    let steps = state.steps;
    Ok(Grown {
        found,
        best: state.into_best(),
        is_ended,
        is_flat: growth.is_flat,
        steps: steps.saturating_add(growth.rest),
    })
}

// The tree that was found, where it ended and a choice is known.
fn found_at_end(
    alloc: Global,
    task: &Task<'_>,
    state: &State,
    is_ended: bool,
    most: u32,
) -> Result<Option<Found>, Memory> {
    if is_ended && state.best.is_some() {
        found_in(alloc, task, state, most)
    } else {
        Ok(None)
    }
}
