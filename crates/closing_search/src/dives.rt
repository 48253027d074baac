//! Choices that a relaxation leads to, where some of its units after the other keep the alternative
//! of which it takes most.

use crate::rounding::take_rounded;
use crate::states::{State, Task};
use relaxed_problem::{End, Relaxation, Share};
use slot_text::Memory;
use std::alloc::Global;
use std::num::saturating_f64_to_i64;

// How many times units are given their alternatives, at most; one unit of how many of those with
// shares at a time, and of how many in a fine dive; and the pivots of each time.
const ROUNDS: u32 = 400;

const PART: usize = 8;

const FINE_PART: usize = 200;

const PIVOTS: u32 = 4_000;

/// Looks for a choice from a relaxation that is solved, and then for a better one by a fine dive,
/// in which few units are given their alternatives at a time.
pub(crate) fn dive(
    alloc: Global,
    task: &Task<'_>,
    state: &mut State,
    relaxation: &Relaxation,
) -> Result<(), Memory> {
    let mut now = relaxation.copy(alloc)?;
    let mut next = relaxation.copy(alloc)?;
    dive_by(alloc, task, state, &mut now, &mut next, false)?;
    now.copy_from(relaxation)?;
    dive_by(alloc, task, state, &mut now, &mut next, true)
}

// Looks for a choice from a relaxation that is solved, with another one beside it.
fn dive_by(
    alloc: Global,
    task: &Task<'_>,
    state: &mut State,
    now: &mut Relaxation,
    next: &mut Relaxation,
    is_fine: bool,
) -> Result<(), Memory> {
    for _ in 0..ROUNDS {
        if state.steps == 0 || !dive_on(alloc, task, state, now, next, is_fine)? {
            return Ok(());
        }
    }
    Ok(())
}

// Gives some units their alternatives, or takes the choice, where each unit has one. Answers
// whether units are left and a relaxation is solved.
fn dive_on(
    alloc: Global,
    task: &Task<'_>,
    state: &mut State,
    now: &mut Relaxation,
    next: &mut Relaxation,
    is_fine: bool,
) -> Result<bool, Memory> {
    let shares = now.shares(alloc, task.program)?;
    let leaders = leaders_of(alloc, &shares)?;
    if leaders.is_empty() {
        take_rounded(alloc, task, state, now, &shares)?;
        return Ok(false);
    }
    let count = count_of(&leaders, is_fine);
    go_on(alloc, task, state, &leaders, count, now, next)
}

// How many units are given their alternatives at a time.
fn count_of(leaders: &[Leader], is_fine: bool) -> usize {
    let part = if is_fine { FINE_PART } else { PART };
    leaders.len() / part + 1
}

// Gives so many first units their alternatives, or the first one alone, or takes this alternative
// away from it. Answers whether a relaxation is solved then.
fn go_on(
    alloc: Global,
    task: &Task<'_>,
    state: &mut State,
    leaders: &[Leader],
    most: usize,
    now: &mut Relaxation,
    next: &mut Relaxation,
) -> Result<bool, Memory> {
    let counts = [most, 1, 0];
    let counts = if most > 1 { &counts[..] } else { &counts[1..] };
    for count in counts {
        next.copy_from(now)?;
        keep_first(task, next, leaders, *count);
        if is_solved(alloc, task, state, next)? {
            now.copy_from(next)?;
            return Ok(true);
        }
    }
    Ok(false)
}

// Gives so many first units their alternatives; if none, takes that of the first one away.
fn keep_first(task: &Task<'_>, next: &mut Relaxation, leaders: &[Leader], count: usize) {
    for leader in leaders.iter().take(count) {
        keep_alone(task, next, leader.unit, leader.alt);
    }
    if count == 0 {
        shut_first(task, next, leaders);
    }
}

// Goes on with a relaxation. Answers whether it is solved then.
fn is_solved(
    alloc: Global,
    task: &Task<'_>,
    state: &mut State,
    next: &mut Relaxation,
) -> Result<bool, Memory> {
    let enough = state.enough();
    let work = &mut state.work;
    let ended = next.solve_by(alloc, task.program, work, PIVOTS, enough)?;
    state.spend(task.program, ended);
    Ok(ended.end == End::Solved)
}

// The alternative of a unit of which most is taken, where others are too.
#[derive(Clone, Copy)]
struct Leader {
    rank: i64,
    unit: u32,
    alt: u32,
}

// Of each unit of which several alternatives are taken, the one of which most is: those of the
// greatest shares first.
fn leaders_of(alloc: Global, shares: &[Share]) -> Result<Vec<Leader>, Memory> {
    let mut leaders = Vec::new(alloc);
    let mut last: Option<Share> = None;
    for share in shares {
        last = match last {
            Some(other) if other.unit == share.unit => Some(greater(other, *share)),
            other => {
                add_leader(&mut leaders, other)?;
                Some(*share)
            }
        };
    }
    add_leader(&mut leaders, last)?;
    leaders.sort_unstable_by_key(|leader| (leader.rank, leader.unit));
    Ok(leaders)
}

// The greater one of two shares.
fn greater(one: Share, other: Share) -> Share {
    if other.share > one.share { other } else { one }
}

// Adds a leader, where it is not the whole.
fn add_leader(leaders: &mut Vec<Leader>, share: Option<Share>) -> Result<(), Memory> {
    if let Some(share) = share {
        if share.share < WHOLE {
            leaders.push(Leader {
                rank: saturating_f64_to_i64(share.share * -1000000.0),
                unit: share.unit,
                alt: share.alt,
            })?;
        }
    }
    Ok(())
}

// A share that counts as the whole.
const WHOLE: f64 = 0.999999;

// Lets a unit take one alternative alone.
fn keep_alone(task: &Task<'_>, relaxation: &mut Relaxation, unit: u32, alt: u32) {
    let first = task.program.first_column(unit);
    for (number, column) in (0..).zip(task.program.unit_columns(unit)) {
        if column.number != alt {
            relaxation.shut(first.saturating_add(number));
        }
    }
}

// Takes the alternative of the first leader away from its unit.
fn shut_first(task: &Task<'_>, relaxation: &mut Relaxation, leaders: &[Leader]) {
    let Some(leader) = leaders.get(0) else {
        return;
    };
    let first = task.program.first_column(leader.unit);
    for (number, column) in (0..).zip(task.program.unit_columns(leader.unit)) {
        if column.number == leader.alt {
            relaxation.shut(first.saturating_add(number));
        }
    }
}
