//! Choices from relaxations.

use crate::states::{State, Task};
use choice_problem::Choice;
use relaxed_problem::{Relaxation, Share};
use slot_text::Memory;
use std::alloc::Global;

// The choice of the alternative of which a relaxation takes most, for each unit.
fn rounded(
    alloc: Global,
    task: &Task<'_>,
    relaxation: &Relaxation,
    shares: &[Share],
) -> Result<Choice, Memory> {
    let mut alts = Vec::with_capacity(alloc, task.problem.units() as usize)?;
    for unit in 0..task.problem.units() {
        alts.push(relaxation.key(task.program, unit))?;
    }
    for share in shares {
        put_if_half(&mut alts, share);
    }
    Ok(Choice::new(alts))
}

/// Takes the choice that a relaxation is nearest to.
pub(crate) fn take_rounded(
    alloc: Global,
    task: &Task<'_>,
    state: &mut State,
    relaxation: &Relaxation,
    shares: &[Share],
) -> Result<(), Memory> {
    let choice = rounded(alloc, task, relaxation, shares)?;
    state.take(alloc, task.problem, choice)
}

// Takes an alternative for its unit, where it has more than a half.
fn put_if_half(alts: &mut [u32], share: &Share) {
    if share.share > 0.5 {
        if let Some(place) = alts.get_mut(share.unit as usize) {
            *place = share.alt;
        }
    }
}
