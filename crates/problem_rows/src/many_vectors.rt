//! Drawn problems whose trees take more vectors than a list may have: what fixings leave closes
//! them, leaves of vectors that few name are split further, and vectors that close no node give way
//! to others.

use crate::closed::{Outcome, least_cost, search};
use crate::draws::Draws;
use crate::problems::{add_alt, problem_of, unit_of};
use choice_problem::{Chooser, Part, Problem, Strip};
use std::alloc::Global;
use std::process::Abort;
use std::thread::Threads;

// How many of the drawn problems a fixing closes, at least.
const FIXED: u32 = 15;

// A part that uses up to 9 of each of so many resources.
fn drawn_part(rt: &impl Abort, alloc: Global, draws: &mut Draws, resources: u32) -> Part {
    let mut strips = Vec::new(alloc);
    for first in 0..resources {
        strips
            .push(Strip {
                first,
                width: 1,
                gap: 0,
                times: draws.below(10) as u32,
            })
            .expect(rt, "memory");
    }
    Part::new(strips)
}

// A unit with three alternatives of a part each, which cost up to 2, and one without a part, which
// costs 9.
fn drawn_unit(rt: &impl Abort, alloc: Global, draws: &mut Draws, resources: u32) -> Chooser {
    let mut parts = Vec::new(alloc);
    let mut alts = Vec::new(alloc);
    for part in 0..3 {
        parts
            .push(drawn_part(rt, alloc, draws, resources))
            .expect(rt, "memory");
        add_alt(rt, &mut alts, draws.below(3), Some(part));
    }
    add_alt(rt, &mut alts, 9, None);
    unit_of(rt, parts, alts)
}

// So many units and resources, with one limit for each resource.
fn drawn_tight(
    rt: &impl Abort,
    alloc: Global,
    draws: &mut Draws,
    count: u32,
    resources: u32,
    limit: i64,
) -> Problem {
    let mut units = Vec::new(alloc);
    for _ in 0..count {
        units
            .push(drawn_unit(rt, alloc, draws, resources))
            .expect(rt, "memory");
    }
    let limits = vec![in alloc; limit; resources as usize].expect(rt, "memory");
    problem_of(rt, units, limits)
}

// How the search of the problem of a number ends, which has to close it at its least cost.
fn closed_at_least<R: Abort + Threads + Sync>(
    rt: &R,
    alloc: Global,
    problem: &Problem,
    budget: u32,
    number: u64,
) -> Outcome {
    let outcome = search(rt, alloc, problem, None, budget);
    let want = least_cost(rt, alloc, problem);
    assert!(rt; outcome.cost == Some(want), "{number}");
    outcome
}

// Seven units, and 19 of each resource: of 31 that they use in the mean.
#[test]
fn problems_of_many_vectors_are_closed(rt: HostRuntime) {
    let alloc = rt.alloc();
    let mut draws = Draws { last: 7 };
    let mut fixed: u32 = 0;
    for number in 0..100 {
        if seven_are_closed(&rt, alloc, &mut draws, number) {
            fixed = fixed.saturating_add(1);
        }
    }
    assert!(rt; fixed >= FIXED, "{fixed}");
}

// Whether a fixing closes the next problem of seven units, which has to be closed at its least
// cost.
fn seven_are_closed<R: Abort + Threads + Sync>(
    rt: &R,
    alloc: Global,
    draws: &mut Draws,
    number: u64,
) -> bool {
    let problem = drawn_tight(rt, alloc, draws, 7, 6, 19);
    closed_at_least(rt, alloc, &problem, 1_000, number).has_fixing
}

// How the search of eight units ends, with 18 of each of eight resources, drawn from this number
// on.
fn eight_are_closed<R: Abort + Threads + Sync>(rt: &R, alloc: Global, last: u64) -> Outcome {
    let mut draws = Draws { last };
    let problem = drawn_tight(rt, alloc, &mut draws, 8, 8, 18);
    closed_at_least(rt, alloc, &problem, 8_000, last)
}

// The leaves of its tree name more vectors than there is room for beside that of the fixing: it is
// closed since some are spared.
#[test]
fn a_problem_of_too_many_vectors_is_closed(rt: HostRuntime) {
    let outcome = eight_are_closed(&rt, rt.alloc(), 2_431_800_024_951_663_711);
    assert_eq!(rt; outcome.vectors, 64);
}

// Its tree makes more vectors than the 128 that are kept; those that close no node give way.
#[test]
fn a_problem_of_more_vectors_than_are_kept_is_closed(rt: HostRuntime) {
    eight_are_closed(&rt, rt.alloc(), 42_219_684_172_493_183);
}
