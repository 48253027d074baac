//! Relaxations that are solved in parts, as threads solve them: by the pivots of one at once.

use crate::crowds::crowd;
use choice_problem::{Problem, Vector};
use reduced_problem::Reduced;
use relaxed_problem::{End, Program, Relaxation};
use std::alloc::Global;
use std::process::Abort;

// Above each value.
const NEVER: f64 = 1_000_000_000_000.0;

// How many pivots a relaxation takes that is solved in parts of at most so many, and its prices.
fn solved_in_parts(
    rt: &impl Abort,
    alloc: Global,
    problem: &Problem,
    program: &Program<'_>,
    most: u32,
) -> (u32, Vector) {
    let mut relaxation = Relaxation::start(alloc, program).expect(rt, "memory");
    let pivots = solve(rt, alloc, program, &mut relaxation, most);
    let vector = relaxation.vector(alloc, problem, program);
    (pivots, vector.expect(rt, "memory"))
}

// Solves a relaxation in parts of at most so many pivots, and counts them.
fn solve(
    rt: &impl Abort,
    alloc: Global,
    program: &Program<'_>,
    relaxation: &mut Relaxation,
    most: u32,
) -> u32 {
    let mut pivots: u32 = 0;
    for _ in 0..1_000 {
        let ended = relaxation
            .solve(alloc, program, most, NEVER)
            .expect(rt, "memory");
        pivots = pivots.saturating_add(ended.pivots);
        if ended.end == End::Solved {
            return pivots;
        }
    }
    panic!(rt; "more parts than 1,000")
}

#[test]
fn a_solution_in_parts_has_the_pivots_of_one_at_once(rt: HostRuntime) {
    let alloc = rt.alloc();
    let problem = crowd(&rt, alloc);
    let reduced = Reduced::of(alloc, &problem).expect(&rt, "memory");
    parts_agree(&rt, alloc, &problem, &reduced);
}

fn parts_agree(rt: &impl Abort, alloc: Global, problem: &Problem, reduced: &Reduced) {
    let program = Program::new(alloc, problem, reduced, &[]).expect(rt, "memory");
    let (pivots, vector) = solved_in_parts(rt, alloc, problem, &program, 10_000);
    assert!(rt; pivots > 30);
    for most in [1, 2, 3, 7] {
        let (parts, found) = solved_in_parts(rt, alloc, problem, &program, most);
        let alike = parts == pivots && found.items() == vector.items();
        assert!(rt; alike, "{most}");
    }
}
