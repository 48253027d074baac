//! Problems of fewer alternatives, in which choices alone are looked for.

use crate::allowed::Allowed;
use crate::states::Task;
use relaxed_problem::{Program, Relaxation};
use slot_text::Memory;
use std::alloc::Global;

/// The alternatives of reduced costs of at most so much at a relaxation.
pub(crate) fn near_alts(
    alloc: Global,
    task: &Task<'_>,
    root: &Relaxation,
    most: f64,
) -> Result<Allowed, Memory> {
    let mut allowed = Allowed::none(alloc, task.problem)?;
    for unit in 0..task.program.units() {
        allow_near(task, root, unit, most, &mut allowed);
    }
    Ok(allowed)
}

// Lets a unit take its alternatives of reduced costs of at most so much.
fn allow_near(task: &Task<'_>, root: &Relaxation, unit: u32, most: f64, allowed: &mut Allowed) {
    let first = task.program.first_column(unit);
    for (number, column) in (0..).zip(task.program.unit_columns(unit)) {
        if root.reduced_cost(task.program, first.saturating_add(number)) <= most {
            allowed.allow(unit, column.number);
        }
    }
}

/// The program of these alternatives.
pub(crate) fn program_of<'a>(
    alloc: Global,
    task: &Task<'a>,
    allowed: &Allowed,
) -> Result<Program<'a>, Memory> {
    let shut = allowed.shut_flags(alloc)?;
    Program::new(alloc, task.problem, task.reduced, &shut)
}
