//! Choices by the reduced costs of a relaxation.

use crate::placings::Placing;
use crate::states::{NEVER, State, Task};
use relaxed_problem::Relaxation;
use slot_text::Memory;
use std::alloc::Global;
use std::num::saturating_f64_to_i64;

// How often the units are placed anew, and how often each one moves.
const ATTEMPTS: u32 = 64;

const MOVES: u32 = 8;

/// Takes a choice: the units by falling regret, which is the difference of their two least reduced
/// costs, each take the alternative of least reduced cost that fits, and then move to the cheapest
/// one that does. Where a unit finds none, it comes first in the next attempt.
pub(crate) fn place_by(
    alloc: Global,
    task: &Task<'_>,
    state: &mut State,
    relaxation: &Relaxation,
) -> Result<(), Memory> {
    let weights = relaxation.reduced_costs(alloc, task.program)?;
    let mut order = by_regret(alloc, task, &weights)?;
    for _ in 0..ATTEMPTS {
        match place_in(alloc, task, state, &order, &weights)? {
            None => return Ok(()),
            Some(at) => to_front(&mut order, at),
        }
    }
    Ok(())
}

// Takes a choice for which the units are placed in this order. Answers the place in the order of
// the first unit that finds none.
fn place_in(
    alloc: Global,
    task: &Task<'_>,
    state: &mut State,
    order: &[u32],
    weights: &[f64],
) -> Result<Option<usize>, Memory> {
    let mut placing = Placing::none(alloc, task)?;
    let at = placing.place_all(task, order, weights)?;
    if at.is_none() {
        take_placing(alloc, task, state, &mut placing)?;
    }
    Ok(at)
}

// Takes a choice after moves.
fn take_placing(
    alloc: Global,
    task: &Task<'_>,
    state: &mut State,
    placing: &mut Placing,
) -> Result<(), Memory> {
    move_often(alloc, task, placing)?;
    let choice = placing.choice(alloc, task)?;
    state.take_any(alloc, task.problem, choice)
}

// Moves the units of a choice.
fn move_often(alloc: Global, task: &Task<'_>, placing: &mut Placing) -> Result<(), Memory> {
    let costs = costs_of(alloc, task)?;
    for _ in 0..MOVES {
        if !placing.move_all(task, &costs)? {
            break;
        }
    }
    Ok(())
}

// The costs of the alternatives.
fn costs_of(alloc: Global, task: &Task<'_>) -> Result<Vec<f64>, Memory> {
    let mut costs = Vec::with_capacity(alloc, task.program.columns().len())?;
    for column in task.program.columns() {
        costs.push(column.cost)?;
    }
    Ok(costs)
}

// The units by falling difference of their two least weights.
fn by_regret(alloc: Global, task: &Task<'_>, weights: &[f64]) -> Result<Vec<u32>, Memory> {
    let mut ranked = ranks_of(alloc, task, weights)?;
    ranked.sort_unstable();
    let mut order = Vec::with_capacity(alloc, ranked.len())?;
    for (_, unit) in &ranked {
        order.push(*unit)?;
    }
    Ok(order)
}

// The ranks of the units by the difference of their two least weights, and their numbers.
fn ranks_of(alloc: Global, task: &Task<'_>, weights: &[f64]) -> Result<Vec<(i64, u32)>, Memory> {
    let mut ranked = Vec::new(alloc);
    for unit in 0..task.program.units() {
        let first = task.program.first_column(unit) as usize;
        let count = task.program.unit_columns(unit).len();
        let regret = regret_of(costs_from(weights, first), count);
        ranked.push((saturating_f64_to_i64(regret * -1024.0), unit))?;
    }
    Ok(ranked)
}

// The costs from a place on.
fn costs_from(costs: &[f64], first: usize) -> &[f64] {
    if first <= costs.len() {
        &costs[first..]
    } else {
        &[]
    }
}

// The difference of the two least of the first weights.
fn regret_of(weights: &[f64], count: usize) -> f64 {
    let mut least = NEVER;
    let mut second = NEVER;
    for weight in weights.iter().take(count) {
        if *weight < least {
            second = least;
            least = *weight;
        } else if *weight < second {
            second = *weight;
        }
    }
    second - least
}

// Moves a unit to the front.
fn to_front(order: &mut [u32], at: usize) {
    let count = at.saturating_add(1).min(order.len());
    let mut before = u32::MAX;
    for slot in order[..count].iter_mut() {
        let unit = *slot;
        *slot = before;
        before = unit;
    }
    if let Some(slot) = order.get_mut(0) {
        *slot = before;
    }
}
