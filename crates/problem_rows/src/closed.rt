//! Problems closed by free splits.

ghost use Rattle.std.specs.Prelude.{IfSome};
ghost use Rattle.choice_problem.specs.Choices.{IsFeasible};

use crate::choices::choice;
use crate::draws::{Draws, choices_of, drawn, numbered};
use crate::problems::problem;
use crate::texts::{add, check, halves, number, piece};
use choice_problem::{Choice, Problem, cost_of, fits};
use closing_search::{Ending, closing_search};
use std::alloc::Global;
use std::process::Abort;
use std::thread::Threads;
use tested_trees::Closed;

// The choice that a text says, if it says one and that is feasible.
fn start(rt: &impl Abort, alloc: Global, problem: &Problem, text: &str) -> Option<Choice>
    ensures { IfSome result (IsFeasible problem.now) }
{
    let start = choice(rt, alloc, text);
    if start.is_for(problem) && fits(alloc, problem, &start).expect(rt, "memory") {
        Some(start)
    } else {
        None
    }
}

/// How a search ended.
#[derive(Clone, Copy)]
pub(crate) struct Outcome {
    /// The cost that closes the problem, or that it has no choice; none where it stays open.
    pub(crate) cost: Option<Option<u64>>,
    /// How many nodes and vectors prove it.
    pub(crate) nodes: usize,
    pub(crate) vectors: usize,
    pub(crate) has_fixing: bool,
}

/// How the search of a problem by one worker ends, from this choice and within this budget.
pub(crate) fn search<R: Abort + Threads + Sync>(
    rt: &R,
    alloc: Global,
    problem: &Problem,
    start: Option<Choice>,
    budget: u32,
) -> Outcome
    requires { IfSome start (IsFeasible problem.now) }
{
    let ending = closing_search(rt, alloc, problem, start, budget, 1).expect(rt, "memory");
    outcome_of(&ending)
}

fn outcome_of(ending: &Ending) -> Outcome {
    match ending {
        Ending::Open { .. } => Outcome {
            cost: None,
            nodes: 0,
            vectors: 0,
            has_fixing: false,
        },
        Ending::Closed(
            Closed::Optimal {
                cost,
                tree,
                vectors,
                fixing,
                ..
            },
        ) => Outcome {
            cost: Some(Some(*cost)),
            nodes: tree.items().len(),
            vectors: vectors.items().len(),
            has_fixing: fixing.is_some(),
        },
        Ending::Closed(Closed::Infeasible { tree, .. }) => Outcome {
            cost: Some(None),
            nodes: tree.items().len(),
            vectors: 0,
            has_fixing: false,
        },
    }
}

// What closes a row's problem within its budget, from its start: the cost of a best choice, or that
// there is none, and how many nodes prove it.
fn searched<R: Abort + Threads + Sync>(rt: &R, alloc: Global, row: &str) -> String {
    let problem = problem(rt, alloc, piece(row, 0));
    let start = start(rt, alloc, &problem, piece(row, 2));
    let budget = number(rt, alloc, piece(row, 1));
    let outcome = search(rt, alloc, &problem, start, budget);
    shown(rt, alloc, outcome)
}

fn shown(rt: &impl Abort, alloc: Global, outcome: Outcome) -> String {
    let mut out = String::new(alloc);
    match outcome.cost {
        None => out.push_str("open").expect(rt, "memory"),
        Some(cost) => add_closed(rt, &mut out, cost, outcome.nodes),
    }
    out
}

fn add_closed(rt: &impl Abort, out: &mut String, cost: Option<u64>, nodes: usize) {
    match cost {
        None => out.push_str("none").expect(rt, "memory"),
        Some(cost) => add(rt, out, "", i128::from(cost)),
    }
    add(rt, out, " by ", nodes as i128);
}

// In turn: two units at one place, of which one pays, also from the choice that both pay; no unit;
// a unit with one alternative, which fits, and which does not; two such units at one place, which
// are too many. A limit of 0. A quota of 2 that a unit of three dates passes alone: at no price is
// its bound more than 3, so that it takes a split; the same beside a unit that keeps within it.
// Three units after a quota of 3, each with alternatives that use 2 of it and others in turn, so
// that a split by uses is several of ranges; with one node too few, where another tree is found;
// and with too few for that. Four units of equal costs for two places. Four units after three
// places. Two units of which the second needs more what both want. Three units of which each finds
// its own place. Two units of which one finds a place, for 3, and the other pays
// 9. A window that is full on three dates. Three units of which each two exclude each other: no
// vector shows more than 30, so that a leaf is not enough, and a tree has no two nodes; with one
// more place; with no way out, where one leaf shows that there is none.
const CLOSED: &str = "pair | 9 = 3 by 1
pair | 9 | 1 1 = 3 by 1
pair | 1 = 3 by 1
pair | 0 = open
L 1 | 9 = 0 by 1
P 0 1 0 1; A 7 0 -; U; L 1 | 9 = 7 by 1
P 0 1 0 1; A 7 0 -; U; L 0 | 9 = none by 1
P 0 1 0 1; A 7 0 -; U; P 0 1 0 1; A 2 0 -; U; L 1 | 9 = none by 1
P 0 1 1 1; A 3 0 -; A 8 - -; U; L 0 | 9 = 8 by 1
P 0 1 0 3; A 0 0 -; A 9 - -; U; L 2 | 9 = 9 by 3
P 0 1 0 3; A 0 0 -; A 9 - -; U; L 2 | 1 = open
P 0 1 0 3; A 0 0 -; A 9 - -; U; P 0 1 0 1; A 0 0 -; A 4 - -; U; L 2 | 9 = 9 by 3
P 0 1 0 2; A 0 0 -; A 5 - -; A 1 0 -; A 6 - -; U; P 0 1 0 2; A 0 0 -; A 5 - -; A 1 0 -; A 6 - -; U; P 0 1 0 2; A 0 0 -; A 5 - -; A 1 0 -; A 6 - -; U; L 3 | 99 = 10 by 55
P 0 1 0 2; A 0 0 -; A 5 - -; A 1 0 -; A 6 - -; U; P 0 1 0 2; A 0 0 -; A 5 - -; A 1 0 -; A 6 - -; U; P 0 1 0 2; A 0 0 -; A 5 - -; A 1 0 -; A 6 - -; U; L 3 | 54 = 10 by 51
P 0 1 0 2; A 0 0 -; A 5 - -; A 1 0 -; A 6 - -; U; P 0 1 0 2; A 0 0 -; A 5 - -; A 1 0 -; A 6 - -; U; P 0 1 0 2; A 0 0 -; A 5 - -; A 1 0 -; A 6 - -; U; L 3 | 50 = open
P 0 1 1 1; A 0 0 -; A 5 - -; U; P 0 1 1 1; A 0 0 -; A 5 - -; U; P 0 1 1 1; A 0 0 -; A 5 - -; U; P 0 1 1 1; A 0 0 -; A 5 - -; U; L 2 | 9 = 10 by 1
four | 9 = 35 by 1
needed | 9 = 1 by 1
ring | 9 = 0 by 1
doubled | 9 = 12 by 1
window 3 | 9 = 90 by 1
three | 99 = 40 by 3
three | 99 | 1 1 1 = 40 by 3
three | 3 = 40 by 3
three | 2 = open
three | 1 = open
three | 0 | 1 1 1 = open
three; L 2 1 1 | 9 = 20 by 1
P 0 2 1 1; A 0 0 -; U; P 1 2 1 1; A 0 0 -; U; P 0 1 2 2; A 0 0 -; U; L 1 1 1 | 9 = none by 1";

#[test]
fn problems_are_closed(rt: HostRuntime) {
    for row in CLOSED.lines() {
        let (given, _) = halves(row);
        let found = searched(&rt, rt.alloc(), given);
        check(&rt, row, &found);
    }
}

/// The cost of the choice of a number, if it is feasible.
pub(crate) fn cost_at(
    rt: &impl Abort,
    alloc: Global,
    problem: &Problem,
    number: u32,
) -> Option<u64> {
    let choice = numbered(rt, alloc, problem, number);
    cost_if_feasible(rt, alloc, problem, &choice)
}

/// The cost of a choice, if it is feasible.
pub(crate) fn cost_if_feasible(
    rt: &impl Abort,
    alloc: Global,
    problem: &Problem,
    choice: &Choice,
) -> Option<u64> {
    if choice.is_for(problem) && fits(alloc, problem, choice).expect(rt, "memory") {
        Some(cost_of(problem, choice))
    } else {
        None
    }
}

/// The least cost of a feasible choice, of all that there are.
pub(crate) fn least_cost(rt: &impl Abort, alloc: Global, problem: &Problem) -> Option<u64> {
    let mut least: Option<u64> = None;
    for number in 0..choices_of(problem) {
        least = lesser(least, cost_at(rt, alloc, problem, number));
    }
    least
}

/// The lesser of two costs that may be there.
pub(crate) fn lesser(one: Option<u64>, other: Option<u64>) -> Option<u64> {
    match (one, other) {
        (Some(one), Some(other)) => Some(one.min(other)),
        (None, other) => other,
        (one, None) => one,
    }
}

#[test]
fn drawn_problems_are_closed(rt: HostRuntime) {
    let alloc = rt.alloc();
    let mut draws = Draws { last: 5 };
    for number in 0..2_000 {
        assert!(rt; drawn_is_closed(&rt, alloc, &mut draws), "{number}");
    }
}

// Whether the next problem that is drawn is closed at its least cost.
fn drawn_is_closed<R: Abort + Threads + Sync>(rt: &R, alloc: Global, draws: &mut Draws) -> bool {
    let problem = drawn(rt, alloc, draws);
    is_closed(rt, alloc, &problem)
}

fn is_closed<R: Abort + Threads + Sync>(rt: &R, alloc: Global, problem: &Problem) -> bool {
    let want = least_cost(rt, alloc, problem);
    search(rt, alloc, problem, None, 1_000).cost == Some(want)
}
