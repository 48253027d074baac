//! Reductions of what is left of problems, from those of the whole ones.

use crate::draws::{Draws, drawn};
use crate::problems::{parts_of, problem_of, unit_of};
use crate::reduced::agrees;
use choice_problem::{Alt, Chooser, Part, Problem};
use reduced_problem::{Narrowed, Reduced};
use std::alloc::Global;
use std::process::Abort;

// A unit with these parts and all of these alternatives but the last one, or with the only one.
fn shorter_unit(rt: &impl Abort, alloc: Global, parts: &[Part], alts: &[Alt]) -> Chooser {
    let count = alts.len().saturating_sub(1).max(1);
    let mut kept = Vec::new(alloc);
    for alt in alts.iter().take(count) {
        kept.push(*alt).expect(rt, "memory");
    }
    unit_of(rt, parts_of(rt, alloc, parts), kept)
}

// A problem without the last alternative of each unit that has several.
fn shorter(rt: &impl Abort, alloc: Global, problem: &Problem) -> Problem {
    let mut units = Vec::new(alloc);
    for unit in 0..problem.units() {
        let (parts, alts) = (problem.unit_parts(unit), problem.unit_alts(unit));
        units
            .push(shorter_unit(rt, alloc, parts, alts))
            .expect(rt, "memory");
    }
    let limits = Vec::from_slice(alloc, problem.limits()).expect(rt, "memory");
    problem_of(rt, units, limits)
}

// Flags of every other number below this one.
fn every_other(rt: &impl Abort, alloc: Global, count: usize) -> Vec<bool> {
    let mut flags = Vec::new(alloc);
    for number in 0..count {
        flags.push(number % 2 == 0).expect(rt, "memory");
    }
    flags
}

// The reduction of what is left of a problem, from that of the whole one.
fn narrowed(rt: &impl Abort, alloc: Global, problem: &Problem, left: &Problem) -> Narrowed {
    let whole = Reduced::of(alloc, problem).expect(rt, "memory");
    let wanted = every_other(rt, alloc, whole.classes().len());
    whole.narrowed(alloc, left, &wanted).expect(rt, "memory")
}

// Whether each choice of what is left of the next problem that is drawn fits exactly where it is
// within the limits of all classes that are left.
fn drawn_agrees(rt: &impl Abort, alloc: Global, draws: &mut Draws) -> bool {
    let problem = drawn(rt, alloc, draws);
    let left = shorter(rt, alloc, &problem);
    let narrowed = narrowed(rt, alloc, &problem, &left);
    agrees(rt, alloc, &left, &narrowed.reduced)
}

#[test]
fn what_fits_the_classes_left_fits(rt: HostRuntime) {
    let alloc = rt.alloc();
    let mut draws = Draws { last: 3 };
    for number in 0..500 {
        assert!(rt; drawn_agrees(&rt, alloc, &mut draws), "{number}");
    }
}
