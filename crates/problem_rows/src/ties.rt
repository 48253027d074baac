//! Ties of drawn problems, of which one is met after the other, beside all ties that there are.

ghost use Rattle.std.specs.Prelude.{◌<◌, IfSome};
ghost use Rattle.choice_problem.specs.Problems.{unit_count, alt_count};

use crate::closed::{cost_at, least_cost, lesser};
use crate::draws::{Draws, choices_of, drawn, numbered};
use crate::problems::{parts_of, problem_of, unit_of};
use choice_problem::{Choice, Chooser, Problem, fits};
use std::alloc::Global;
use std::process::Abort;
use std::thread::Threads;
use tied_choice::tied_choice;

// The units of the first problem come first.
const FIRST_UNITS: u32 = 2;

// The lowest number of a choice that costs least, and what it costs, if there is one.
fn least_of(rt: &impl Abort, alloc: Global, problem: &Problem) -> Option<(u32, u64)> {
    let mut least: Option<(u32, u64)> = None;
    for number in 0..choices_of(problem) {
        least = lesser_of(least, number, cost_at(rt, alloc, problem, number));
    }
    least
}

// The choice of this number and cost where that is less than the other one's, else the other one.
fn lesser_of(least: Option<(u32, u64)>, number: u32, cost: Option<u64>) -> Option<(u32, u64)> {
    match cost {
        Some(cost) => Some(first_least(least, number, cost)),
        None => least,
    }
}

fn first_least(least: Option<(u32, u64)>, number: u32, cost: u64) -> (u32, u64) {
    match least {
        Some((known, other)) => {
            if other <= cost {
                (known, other)
            } else {
                (number, cost)
            }
        }
        None => (number, cost),
    }
}

// A copy of a unit.
fn copy_of(rt: &impl Abort, alloc: Global, problem: &Problem, unit: u32) -> Chooser {
    assert!(rt; unit < problem.units(), "unit {unit}");
    let parts = parts_of(rt, alloc, problem.unit_parts(unit));
    let alts = Vec::from_slice(alloc, problem.unit_alts(unit)).expect(rt, "memory");
    unit_of(rt, parts, alts)
}

// Copies of these units.
fn units_of(rt: &impl Abort, alloc: Global, problem: &Problem, numbers: &[u32]) -> Vec<Chooser> {
    let mut units = Vec::new(alloc);
    for unit in numbers {
        units
            .push(copy_of(rt, alloc, problem, *unit))
            .expect(rt, "memory");
    }
    units
}

// The problem of these units under these limits.
fn with_units(
    rt: &impl Abort,
    alloc: Global,
    both: &Problem,
    numbers: &[u32],
    limits: Vec<i64>,
) -> Problem {
    problem_of(rt, units_of(rt, alloc, both, numbers), limits)
}

// Half of each limit, rounded up.
fn half_limits(rt: &impl Abort, alloc: Global, both: &Problem) -> Vec<i64> {
    let mut limits = Vec::new(alloc);
    for limit in both.limits() {
        limits.push(limit / 2 + limit % 2).expect(rt, "memory");
    }
    limits
}

// The first problem: its units, under half of each limit.
fn first_of(rt: &impl Abort, alloc: Global, both: &Problem) -> Problem {
    let limits = half_limits(rt, alloc, both);
    with_units(rt, alloc, both, &[0, 1], limits)
}

// The number of the alternative that a choice takes of a unit.
fn number_of(both: &Problem, choice: &Choice, unit: u32) -> Option<u32>
    requires { unit < unit_count both.now }
    ensures { IfSome result (λ number. number < alt_count both.now unit) }
{
    match choice.items().get(unit as usize) {
        Some(number) if *number < both.alts(unit) => Some(*number),
        _ => None,
    }
}

// Whether the alternative that a choice takes of a unit, if it takes one, has a part.
fn takes_part(both: &Problem, choice: &Choice, unit: u32) -> bool
    requires { unit < unit_count both.now }
{
    match number_of(both, choice, unit) {
        Some(number) => {
            let alt = both.alt(unit, number);
            alt.one.is_some() || alt.two.is_some()
        }
        None => false,
    }
}

// How often a choice of the first problem uses a resource.
fn uses_of(both: &Problem, choice: &Choice, resource: u32) -> i64 {
    let mut uses: i64 = 0;
    for unit in 0..both.units() {
        if let Some(number) = number_of(both, choice, unit) {
            uses = uses.saturating_add(i64::from(both.uses(unit, number, resource)));
        }
    }
    uses
}

// The units of the next problem after a choice of the first one: the others, and those that take no
// part.
fn left_units(rt: &impl Abort, alloc: Global, both: &Problem, choice: &Choice) -> Vec<u32> {
    let mut numbers = Vec::new(alloc);
    for unit in 0..both.units() {
        if !takes_part(both, choice, unit) {
            numbers.push(unit).expect(rt, "memory");
        }
    }
    numbers
}

// What a choice of the first problem leaves of each limit.
fn left_limits(rt: &impl Abort, alloc: Global, both: &Problem, choice: &Choice) -> Vec<i64> {
    let mut limits = Vec::new(alloc);
    for resource in 0..both.resources() {
        let uses = uses_of(both, choice, resource);
        let left = both.limit(resource).saturating_sub(uses);
        limits.push(left.max(0)).expect(rt, "memory");
    }
    limits
}

// The next problem after a choice of the first one.
fn next_after(rt: &impl Abort, alloc: Global, both: &Problem, choice: &Choice) -> Problem {
    let numbers = left_units(rt, alloc, both, choice);
    let limits = left_limits(rt, alloc, both, choice);
    with_units(rt, alloc, both, &numbers, limits)
}

// The least cost of the next problem after a choice of the first one.
fn cost_after(rt: &impl Abort, alloc: Global, both: &Problem, choice: &Choice) -> Option<u64> {
    let next = next_after(rt, alloc, both, choice);
    least_cost(rt, alloc, &next)
}

// The least cost of the next problem after any choice of the first one that costs so much.
fn best_after(
    rt: &impl Abort,
    alloc: Global,
    both: &Problem,
    first: &Problem,
    cost: u64,
) -> Option<u64> {
    let mut best: Option<u64> = None;
    for number in 0..choices_of(first) {
        if cost_at(rt, alloc, first, number) == Some(cost) {
            let choice = numbered(rt, alloc, first, number);
            best = lesser(best, cost_after(rt, alloc, both, &choice));
        }
    }
    best
}

// What the next problem costs after the first choice, after the tie that is found, if one is, and
// after the best of all ties.
#[derive(Clone, Copy)]
struct Costs {
    before: u64,
    after: u64,
    best: u64,
}

// Meets both problems, if that can be.
fn meet_both<R: Abort + Threads + Sync>(rt: &R, alloc: Global, both: &Problem) -> Option<Costs> {
    let first = first_of(rt, alloc, both);
    match least_of(rt, alloc, &first) {
        Some((number, cost)) => meet_next(rt, alloc, both, &first, number, cost),
        None => None,
    }
}

// Meets the next problem after the first choice, of this number and cost, if that can be.
fn meet_next<R: Abort + Threads + Sync>(
    rt: &R,
    alloc: Global,
    both: &Problem,
    first: &Problem,
    number: u32,
    cost: u64,
) -> Option<Costs> {
    let chosen = numbered(rt, alloc, first, number);
    match cost_after(rt, alloc, both, &chosen) {
        Some(before) => {
            let after = tied_cost(rt, alloc, both, first, &chosen);
            let best = best_after(rt, alloc, both, first, cost);
            Some(Costs {
                before,
                after: after.unwrap_or(before),
                best: best.unwrap_or(before),
            })
        }
        None => None,
    }
}

// What the next problem costs after the tie that is found, if one is.
fn tied_cost<R: Abort + Threads + Sync>(
    rt: &R,
    alloc: Global,
    both: &Problem,
    first: &Problem,
    chosen: &Choice,
) -> Option<u64> {
    match tie_of(rt, alloc, both, first, chosen) {
        Some(tie) => cost_after(rt, alloc, both, &tie),
        None => None,
    }
}

// The tie of a choice that is found, if one is.
fn tie_of<R: Abort + Threads + Sync>(
    rt: &R,
    alloc: Global,
    both: &Problem,
    first: &Problem,
    chosen: &Choice,
) -> Option<Choice> {
    let next = next_after(rt, alloc, both, chosen);
    match least_of(rt, alloc, &next) {
        Some((number, _)) => tie_before(rt, alloc, both, first, chosen, &next, number),
        None => None,
    }
}

// The tie of a choice that is found before the next problem, whose best choice has this number.
fn tie_before<R: Abort + Threads + Sync>(
    rt: &R,
    alloc: Global,
    both: &Problem,
    first: &Problem,
    chosen: &Choice,
    next: &Problem,
    number: u32,
) -> Option<Choice> {
    if !chosen.is_for(first) || !fits(alloc, first, chosen).expect(rt, "memory") {
        return None;
    }
    let next_chosen = numbered(rt, alloc, next, number);
    let is_first = first_marks(rt, alloc, both);
    let tie = tied_choice(
        rt,
        alloc,
        first,
        chosen,
        next,
        &next_chosen,
        both,
        &is_first,
        1,
    );
    tie.expect(rt, "memory")
}

// Of each unit, whether it is one of the first problem's.
fn first_marks(rt: &impl Abort, alloc: Global, both: &Problem) -> Vec<bool> {
    let mut marks = Vec::new(alloc);
    for unit in 0..both.units() {
        marks.push(unit < FIRST_UNITS).expect(rt, "memory");
    }
    marks
}

// Meets the next problems that are drawn.
fn meet_drawn<R: Abort + Threads + Sync>(
    rt: &R,
    alloc: Global,
    draws: &mut Draws,
) -> Option<Costs> {
    let both = drawn(rt, alloc, draws);
    meet_both(rt, alloc, &both)
}

// Each next problem costs after the tie that is found what it costs after the best of all ties; and
// for some that is less than after the first choice.
#[test]
fn ties_of_drawn_problems(rt: HostRuntime) {
    let alloc = rt.alloc();
    let mut draws = Draws { last: 7 };
    let mut gains: u32 = 0;
    for number in 0..2_000 {
        if let Some(costs) = meet_drawn(&rt, alloc, &mut draws) {
            assert!(rt; costs.after == costs.best, "{number}");
            if costs.after < costs.before {
                gains = gains.saturating_add(1);
            }
        }
    }
    assert!(rt; gains > 5, "{gains}");
}
