//! Problems that are drawn, and all their choices.

use crate::problems::{problem_of, unit_of};
use choice_problem::{Alt, Choice, Chooser, Part, Problem, Strip};
use std::alloc::Global;
use std::process::Abort;

/// Numbers that follow from a first one.
#[derive(Drop)]
pub(crate) struct Draws {
    pub(crate) last: u64,
}

impl Draws {
    ghost use Rattle.std.specs.Prelude.{◌<◌};

    // The next number below another one.
    pub(crate) fn below(&mut self, end: u64) -> u64
        requires { 0 < end }
        ensures { result < end }
    {
        self.last = self
            .last
            .wrapping_mul(6_364_136_223_846_793_005)
            .wrapping_add(1_442_695_040_888_963_407);
        (self.last >> 33) % end
    }
}

/// A problem of four units with up to four alternatives each over six resources.
pub(crate) fn drawn(rt: &impl Abort, alloc: Global, draws: &mut Draws) -> Problem {
    let units = drawn_units(rt, alloc, draws);
    problem_of(rt, units, drawn_limits(rt, alloc, draws))
}

fn drawn_units(rt: &impl Abort, alloc: Global, draws: &mut Draws) -> Vec<Chooser> {
    let mut units = Vec::new(alloc);
    for _ in 0..4 {
        units
            .push(drawn_unit(rt, alloc, draws))
            .expect(rt, "memory");
    }
    units
}

fn drawn_unit(rt: &impl Abort, alloc: Global, draws: &mut Draws) -> Chooser {
    let parts = drawn_parts(rt, alloc, draws);
    unit_of(rt, parts, drawn_alts(rt, alloc, draws))
}

fn drawn_limits(rt: &impl Abort, alloc: Global, draws: &mut Draws) -> Vec<i64> {
    let mut limits = Vec::new(alloc);
    for _ in 0..6 {
        limits.push(draws.below(9) as i64).expect(rt, "memory");
    }
    limits
}

// Three parts of two strips each.
fn drawn_parts(rt: &impl Abort, alloc: Global, draws: &mut Draws) -> Vec<Part> {
    let mut parts = Vec::new(alloc);
    for _ in 0..3 {
        let strips = vec![in alloc; drawn_strip(draws), drawn_strip(draws)].expect(rt, "memory");
        parts.push(Part::new(strips)).expect(rt, "memory");
    }
    parts
}

fn drawn_strip(draws: &mut Draws) -> Strip {
    Strip {
        first: draws.below(3) as u32,
        width: draws.below(3) as u32,
        gap: draws.below(3) as u32,
        times: draws.below(3) as u32,
    }
}

// Up to four alternatives of two parts.
fn drawn_alts(rt: &impl Abort, alloc: Global, draws: &mut Draws) -> Vec<Alt> {
    let mut alts = Vec::new(alloc);
    for _ in 0..draws.below(4) + 1 {
        alts.push(Alt {
            cost: draws.below(10),
            one: drawn_part(draws),
            two: drawn_part(draws),
        })
        .expect(rt, "memory");
    }
    alts
}

// A part, or none.
fn drawn_part(draws: &mut Draws) -> Option<u32> {
    match draws.below(4) {
        3 => None,
        part => Some(part as u32),
    }
}

/// How many choices a problem has with one of the first four alternatives of each unit.
pub(crate) fn choices_of(problem: &Problem) -> u32 {
    let mut count: u32 = 1;
    for _ in 0..problem.units() {
        count = count.saturating_mul(4);
    }
    count
}

/// The choice of a number: a digit to the base 4 for each unit of a problem.
pub(crate) fn numbered(rt: &impl Abort, alloc: Global, problem: &Problem, number: u32) -> Choice {
    let mut items = Vec::new(alloc);
    let mut rest = number;
    for _ in 0..problem.units() {
        items.push(rest % 4).expect(rt, "memory");
        rest /= 4;
    }
    Choice::new(items)
}
