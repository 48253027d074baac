//! Alternatives that no feasible choice takes.

use choice_problem::{Alt, Problem};
use reduced_problem::{Reduced, UserRun};
use relaxed_problem::Program;
use slot_text::Memory;
use std::alloc::Global;

/// The program of the alternatives that are not barred.
pub(crate) fn unbarred_program<'a>(
    alloc: Global,
    problem: &'a Problem,
    reduced: &'a Reduced,
) -> Result<Program<'a>, Memory> {
    let barred = barred_alts(alloc, problem, reduced)?;
    Program::new(alloc, problem, reduced, &barred)
}

// Of each alternative, unit after unit, whether a part of it uses a resource of limit 0, where not
// all of its unit do.
fn barred_alts(alloc: Global, problem: &Problem, reduced: &Reduced) -> Result<Vec<bool>, Memory> {
    let closed = closed_parts(alloc, reduced)?;
    let mut barred = Vec::new(alloc);
    for unit in 0..problem.units() {
        let alts = problem.unit_alts(unit);
        let first = reduced.first_part(unit);
        let is_left = has_unbarred(&closed, first, alts);
        for alt in alts {
            barred.push(is_left && is_barred(&closed, first, alt))?;
        }
    }
    Ok(barred)
}

// Of each part, whether it uses a resource of limit 0.
fn closed_parts(alloc: Global, reduced: &Reduced) -> Result<Vec<bool>, Memory> {
    let mut closed = vec![in alloc; false; reduced.parts() as usize]?;
    for (number, class) in (0..).zip(reduced.classes()) {
        if class.limit == 0 {
            close_users(&mut closed, reduced.users(number));
        }
    }
    Ok(closed)
}

// Notes that these parts use a resource of limit 0.
fn close_users(closed: &mut [bool], users: &[UserRun]) {
    for run in users {
        close_run(closed, run.first as usize, run.end as usize);
    }
}

// Notes it of the parts from one to another.
fn close_run(closed: &mut [bool], first: usize, end: usize) {
    if first <= end && end <= closed.len() {
        for flag in closed[first..end].iter_mut() {
            *flag = true;
        }
    }
}

// Whether some alternative of a unit uses no resource of limit 0.
fn has_unbarred(closed: &[bool], first: u32, alts: &[Alt]) -> bool {
    for alt in alts {
        if !is_barred(closed, first, alt) {
            return true;
        }
    }
    false
}

// Whether an alternative uses a resource of limit 0.
fn is_barred(closed: &[bool], first: u32, alt: &Alt) -> bool {
    is_closed(closed, first, alt.one) || is_closed(closed, first, alt.two)
}

// Whether the part that an alternative may name uses a resource of limit 0.
fn is_closed(closed: &[bool], first: u32, part: Option<u32>) -> bool {
    let Some(number) = part else {
        return false;
    };
    match closed.get(first.saturating_add(number) as usize) {
        Some(flag) => *flag,
        None => false,
    }
}
