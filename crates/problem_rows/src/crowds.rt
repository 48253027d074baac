//! A crowd: a problem of many alternatives, which several workers close as one does.

use crate::draws::Draws;
use crate::problems::{add_alt, problem_of, unit_of};
use choice_problem::{Chooser, Node, Part, Problem, Strip};
use closing_search::{Ending, closing_search};
use std::alloc::Global;
use std::process::Abort;
use std::thread::Threads;
use tested_trees::Closed;

// How many units there are, how many alternatives each has, how many resources there are, and how
// often each may be used.
const UNITS: u32 = 60;

const ALTS: u32 = 20;

const RESOURCES: u32 = 80;

const LIMIT: i64 = 4;

pub(crate) fn crowd(rt: &impl Abort, alloc: Global) -> Problem {
    let mut draws = Draws { last: 5 };
    let mut units = Vec::new(alloc);
    for _ in 0..UNITS {
        units
            .push(crowd_unit(rt, alloc, &mut draws))
            .expect(rt, "memory");
    }
    let limits = vec![in alloc; LIMIT; RESOURCES as usize].expect(rt, "memory");
    problem_of(rt, units, limits)
}

// A unit whose alternatives have a part each.
fn crowd_unit(rt: &impl Abort, alloc: Global, draws: &mut Draws) -> Chooser {
    let mut parts = Vec::new(alloc);
    let mut alts = Vec::new(alloc);
    for number in 0..ALTS {
        parts
            .push(crowd_part(rt, alloc, draws))
            .expect(rt, "memory");
        add_alt(rt, &mut alts, draws.below(1_000), Some(number));
    }
    unit_of(rt, parts, alts)
}

fn crowd_part(rt: &impl Abort, alloc: Global, draws: &mut Draws) -> Part {
    Part::new(vec![in alloc; pair_of(draws), pair_of(draws)].expect(rt, "memory"))
}

// Two resources beside each other.
fn pair_of(draws: &mut Draws) -> Strip {
    Strip {
        first: draws.below(u64::from(RESOURCES) - 1) as u32,
        width: 2,
        gap: 0,
        times: 1,
    }
}

// The tree that closes a problem with so many workers.
fn tree_by<R: Abort + Threads + Sync>(
    rt: &R,
    alloc: Global,
    problem: &Problem,
    workers: u32,
) -> Vec<Node> {
    let ending = closing_search(rt, alloc, problem, None, 2_000, workers).expect(rt, "memory");
    nodes_of(rt, alloc, &ending)
}

// The nodes of the tree that closes a problem.
fn nodes_of(rt: &impl Abort, alloc: Global, ending: &Ending) -> Vec<Node> {
    match ending {
        Ending::Closed(Closed::Optimal { tree, .. }) => {
            Vec::from_slice(alloc, tree.items()).expect(rt, "memory")
        }
        _ => panic!(rt; "open"),
    }
}

#[test]
fn several_workers_close_a_crowd_as_one_does(rt: HostRuntime) {
    let alloc = rt.alloc();
    let problem = crowd(&rt, alloc);
    several_close_as_one(&rt, alloc, &problem);
}

fn several_close_as_one<R: Abort + Threads + Sync>(rt: &R, alloc: Global, problem: &Problem) {
    let want = tree_by(rt, alloc, problem, 1);
    assert!(rt; want.len() > 20);
    for workers in [2, 4, 16] {
        let found = tree_by(rt, alloc, problem, workers);
        assert!(rt; found.as_slice() == want.as_slice(), "{workers}");
    }
}
