//! The growth of a tree by free splits.

use crate::allowed::Allowed;
use crate::entries::Entry;
use crate::pricings::{Pricing, closing};
use crate::rounding::take_rounded;
use crate::splits::{Split, best_split, looks_of};
use crate::states::{NEVER, Open, State, Task};
use crate::studies::{Known, NODE_PIVOTS, study_nodes};
use relaxed_problem::{End, Ended, Relaxation};
use slot_text::Memory;
use std::alloc::Global;
use std::mem;
use std::thread::Threads;

/// Visits open nodes, the last one first, until none is left, so many were visited, or one stays
/// open. Answers whether it can go on.
pub(crate) fn grow<R: Threads + Sync>(
    rt: &R,
    alloc: Global,
    task: &Task<'_>,
    state: &mut State,
    most: u32,
) -> Result<bool, Memory> {
    for _ in 0..most {
        if state.steps == 0 {
            return Ok(false);
        }
        study_ahead(rt, alloc, task, state)?;
        if !visit_next(alloc, task, state)? {
            return Ok(false);
        }
    }
    Ok(true)
}

// Visits the last open node, if there is one. Answers whether it did and this does not stay open.
fn visit_next(alloc: Global, task: &Task<'_>, state: &mut State) -> Result<bool, Memory> {
    let Some(mut open) = state.open.pop() else {
        return Ok(false);
    };
    match visit(alloc, task, state, &mut open)? {
        Outcome::Waits => {
            open.made = None;
            state.add_open(open)?;
            Ok(true)
        }
        Outcome::Done => {
            state.looker.spare(open.relaxation)?;
            Ok(true)
        }
        Outcome::Stays => {
            open.made = None;
            state.open.push(open)?;
            Ok(false)
        }
    }
}

// Where there are several threads and the next node was not studied, studies it and others that are
// to come side by side.
fn study_ahead<R: Threads + Sync>(
    rt: &R,
    alloc: Global,
    task: &Task<'_>,
    state: &mut State,
) -> Result<(), Memory> {
    if state.helpers.is_empty() || state.open.len() < 2 || is_ready(task, state)? {
        return Ok(());
    }
    let (enough, has_room) = (state.enough(), state.has_room());
    let State {
        open,
        helpers,
        pricings,
        cost,
        base,
        scores,
        looker,
        is_by_quotas,
        is_thorough,
        ..
    } = state;
    let known = Known {
        pricings,
        has_room,
        cost: *cost,
        enough,
        base,
        scores,
        is_by_quotas: *is_by_quotas,
        looks: looks_of(*is_thorough),
    };
    study_nodes(rt, alloc, task, known, looker, helpers, open)
}

// Whether the last open node was studied, or a vector that there is closes it.
fn is_ready(task: &Task<'_>, state: &mut State) -> Result<bool, Memory> {
    let State {
        open,
        pricings,
        cost,
        ..
    } = state;
    let Some(next) = open.last_mut() else {
        return Ok(true);
    };
    if next.is_studied(*cost) {
        return Ok(true);
    }
    next.complete_values(task, pricings)?;
    Ok(closing(pricings, &next.values, *cost).is_some())
}

// What a visit of a node came to: it is closed or split; or it waits for its next turn, as others
// have a lower bound; or it stays open.
enum Outcome {
    Done,
    Waits,
    Stays,
}

// What a visit came to that closed or split a node, or did not.
fn outcome_of(is_done: bool) -> Outcome {
    if is_done {
        Outcome::Done
    } else {
        Outcome::Stays
    }
}

// Closes or splits a node, or lets it wait.
fn visit(
    alloc: Global,
    task: &Task<'_>,
    state: &mut State,
    open: &mut Open,
) -> Result<Outcome, Memory> {
    open.complete_values(task, &state.pricings)?;
    if state.close_by_known(open) {
        return Ok(Outcome::Done);
    }
    let end = first_end(alloc, task, state, open)?;
    if end == End::Solved && state.is_behind(open.relaxation.value()) {
        return Ok(Outcome::Waits);
    }
    let is_done = close_or_split(alloc, task, state, open, end)?;
    Ok(outcome_of(is_done))
}

// Closes or splits a node whose relaxation ended so. Answers whether it did.
fn close_or_split(
    alloc: Global,
    task: &Task<'_>,
    state: &mut State,
    open: &mut Open,
    end: End,
) -> Result<bool, Memory> {
    match end {
        End::Spent => Ok(false),
        End::Solved => bound_or_split(alloc, task, state, open),
        End::Infeasible => close_empty(alloc, task, state, open),
        End::Above => {
            let is_closed = close_by_prices(alloc, task, state, open)?;
            if is_closed {
                return Ok(true);
            }
            split_bounded(alloc, task, state, open)
        }
    }
}

// Solves a node, or takes the solution of its study, if that was made for this cost. What it took
// is counted from the node that was split.
fn first_end(
    alloc: Global,
    task: &Task<'_>,
    state: &mut State,
    open: &mut Open,
) -> Result<End, Memory> {
    open.forget_others(state.cost);
    let ended = match open.take_solved() {
        Some(solved) => {
            let before = mem::replace(&mut open.relaxation, solved.relaxation);
            state.looker.spare(before)?;
            solved.ended
        }
        None => solved(alloc, task, state, &mut open.relaxation)?,
    };
    state.spend(task.program, open.whole(ended));
    Ok(ended.end)
}

// Goes on with a relaxation, until it passes the cost.
fn solved(
    alloc: Global,
    task: &Task<'_>,
    state: &mut State,
    relaxation: &mut Relaxation,
) -> Result<Ended, Memory> {
    let enough = state.enough();
    let work = &mut state.work;
    let ended = relaxation.solve_by(alloc, task.program, work, NODE_PIVOTS, enough)?;
    Ok(ended)
}

// Splits a node whose relaxation is above the cost while no vector closes it.
fn split_bounded(
    alloc: Global,
    task: &Task<'_>,
    state: &mut State,
    open: &mut Open,
) -> Result<bool, Memory> {
    open.study = None;
    match solve_whole(alloc, task, state, &mut open.relaxation)? {
        End::Solved => bound_or_split(alloc, task, state, open),
        End::Infeasible => close_empty(alloc, task, state, open),
        End::Above | End::Spent => Ok(false),
    }
}

// Goes on with a relaxation to the end.
fn solve_whole(
    alloc: Global,
    task: &Task<'_>,
    state: &mut State,
    relaxation: &mut Relaxation,
) -> Result<End, Memory> {
    let work = &mut state.work;
    let ended = relaxation.solve_by(alloc, task.program, work, NODE_PIVOTS, NEVER)?;
    state.spend(task.program, ended);
    Ok(ended.end)
}

// Closes a node whose relaxation has no solution.
fn close_empty(
    alloc: Global,
    task: &Task<'_>,
    state: &mut State,
    open: &Open,
) -> Result<bool, Memory> {
    for greatest in [1, 1_024, 1_048_576] {
        let pricing = ray_of(alloc, task, state, open, greatest)?;
        if state.is_closed_by(task, open, &pricing) {
            state.close_by(task, open, pricing)?;
            return Ok(true);
        }
    }
    Ok(false)
}

// The ray of a node's relaxation that has no solution, whose greatest price is this.
fn ray_of(
    alloc: Global,
    task: &Task<'_>,
    state: &State,
    open: &Open,
    greatest: u32,
) -> Result<Pricing, Memory> {
    let relaxation = &open.relaxation;
    let vector = relaxation.ray(alloc, task.problem, task.program, greatest)?;
    Pricing::new(alloc, task, &state.base, vector, 0)
}

// The prices of a node's relaxation, from its study, if that has them.
fn prices_of(
    alloc: Global,
    task: &Task<'_>,
    state: &State,
    open: &mut Open,
) -> Result<Pricing, Memory> {
    match open.take_pricing() {
        Some(pricing) => Ok(pricing),
        None => Pricing::of(alloc, task, &state.base, &open.relaxation),
    }
}

// Closes or splits a node whose relaxation is solved.
fn bound_or_split(
    alloc: Global,
    task: &Task<'_>,
    state: &mut State,
    open: &mut Open,
) -> Result<bool, Memory> {
    let mut pricing = None;
    if state.may_close(open.relaxation.value()) {
        let found = prices_of(alloc, task, state, open)?;
        if state.is_closed_by(task, open, &found) {
            state.close_by(task, open, found)?;
            return Ok(true);
        }
        pricing = Some(found);
    }
    let Some(split) = split_of(alloc, task, state, open)? else {
        return close_by_prices(alloc, task, state, open);
    };
    if pricing.is_none() && state.has_room() {
        pricing = Some(prices_of(alloc, task, state, open)?);
    }
    state.take_pricing(pricing)?;
    divide(alloc, task, state, open, split)
}

// The best split of a node whose relaxation is solved; where there is none, takes its choice.
fn split_of(
    alloc: Global,
    task: &Task<'_>,
    state: &mut State,
    open: &Open,
) -> Result<Option<Split>, Memory> {
    let shares = open.relaxation.shares(alloc, task.program)?;
    let split = best_split(alloc, task, state, open, &shares)?;
    if split.is_none() {
        take_rounded(alloc, task, state, &open.relaxation, &shares)?;
    }
    Ok(split)
}

// Closes a node by the prices of its relaxation, if these do. Answers whether it did.
fn close_by_prices(
    alloc: Global,
    task: &Task<'_>,
    state: &mut State,
    open: &mut Open,
) -> Result<bool, Memory> {
    let pricing = prices_of(alloc, task, state, open)?;
    let is_closed = state.is_closed_by(task, open, &pricing);
    if is_closed {
        state.close_by(task, open, pricing)?;
    }
    Ok(is_closed)
}

// Splits a node. The part whose bound seems to rise less is searched first.
fn divide(
    alloc: Global,
    task: &Task<'_>,
    state: &mut State,
    open: &mut Open,
    split: Split,
) -> Result<bool, Memory> {
    let low = state.add_entry()?;
    let high = state.add_entry()?;
    let parts = Entry::Split {
        unit: split.unit,
        rule: split.rule,
        low,
        high,
    };
    state.close(open.entry, parts);
    let (last, first) = if split.is_low_first {
        ((low, false), (high, true))
    } else {
        ((high, true), (low, false))
    };
    push_part(alloc, task, state, open, split, first)?;
    push_part(alloc, task, state, open, split, last)?;
    Ok(true)
}

// Adds a part of a node: its entry, and whether it is the high one.
fn push_part(
    alloc: Global,
    task: &Task<'_>,
    state: &mut State,
    open: &mut Open,
    split: Split,
    part: (u32, bool),
) -> Result<(), Memory> {
    let (entry, is_high) = part;
    let mut allowed = open.allowed.copy(alloc)?;
    allowed.keep(task.problem, task.reduced, split.unit, split.rule, is_high);
    let values = moved_values(alloc, task, state, open, split.unit, &allowed)?;
    let half = match open.take_part(split, is_high) {
        Some(half) => half,
        None => state.looker.take_part(alloc, is_high)?,
    };
    state.add_open(Open {
        entry,
        allowed,
        values,
        relaxation: half.relaxation,
        made: half.ended,
        study: None,
    })
}

// The bounds of a part of a node, in which a unit may take other alternatives.
fn moved_values(
    alloc: Global,
    task: &Task<'_>,
    state: &State,
    open: &Open,
    unit: u32,
    allowed: &Allowed,
) -> Result<Vec<i64>, Memory> {
    let mut values = Vec::with_capacity(alloc, open.values.len())?;
    let sets = (&open.allowed, allowed);
    for (pricing, value) in state.pricings.iter().zip(&open.values) {
        let moved = pricing.moved(*value, task.problem, task.reduced, unit, sets);
        values.push(moved)?;
    }
    Ok(values)
}
