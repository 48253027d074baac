//! What is known of problems that stay open.

use crate::closed::{cost_if_feasible, least_cost};
use crate::draws::{Draws, drawn};
use choice_problem::Problem;
use closing_search::{Ending, closing_search};
use std::alloc::Global;
use std::process::Abort;
use std::thread::Threads;

// Of how many of the drawn problems the choice that is known may cost more than the least.
const DEARER: u32 = 5;

#[test]
fn open_problems_have_good_choices(rt: HostRuntime) {
    let alloc = rt.alloc();
    let mut draws = Draws { last: 6 };
    let mut dearer: u32 = 0;
    for number in 0..500 {
        let (found, want) = drawn_costs(&rt, alloc, &mut draws);
        assert!(rt; found.is_some() == want.is_some(), "{number}");
        if found != want {
            dearer = dearer.saturating_add(1);
        }
    }
    assert!(rt; dearer <= DEARER, "{dearer}");
}

// The known and the least cost of the next problem that is drawn.
fn drawn_costs<R: Abort + Threads + Sync>(
    rt: &R,
    alloc: Global,
    draws: &mut Draws,
) -> (Option<u64>, Option<u64>) {
    let problem = drawn(rt, alloc, draws);
    let want = least_cost(rt, alloc, &problem);
    (known_cost(rt, alloc, &problem), want)
}

// The cost of the choice that is known where a tree may have no node, if there is one that is
// feasible.
fn known_cost<R: Abort + Threads + Sync>(rt: &R, alloc: Global, problem: &Problem) -> Option<u64> {
    let ending = closing_search(rt, alloc, problem, None, 0, 1).expect(rt, "memory");
    best_cost(rt, alloc, problem, &ending)
}

fn best_cost(rt: &impl Abort, alloc: Global, problem: &Problem, ending: &Ending) -> Option<u64> {
    match ending {
        Ending::Open {
            best: Some(best),
            ..
        } => cost_if_feasible(rt, alloc, problem, best),
        _ => None,
    }
}
