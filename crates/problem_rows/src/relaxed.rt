//! Linear relaxations: values, the bounds of their vectors, rays.

ghost use Rattle.std.specs.Prelude.{◌<◌};
ghost use Rattle.choice_problem.specs.declared.closing.TheConstants.{SCALE_BOUND};
ghost use Rattle.choice_problem.specs.Bounds.{AreRanges};

use crate::problems::{problem, ranges, table_of};
use crate::texts::{Case, add, numbers, piece, walk};
use choice_problem::{PRICED_SCALE, Problem, Ranges, Vector};
use price_table::bound;
use reduced_problem::Reduced;
use relaxed_problem::{End, Program, Relaxation};
use std::alloc::Global;
use std::num::saturating_f64_to_i64;
use std::process::Abort;

// The bound of ranges at a vector.
fn bound_at(
    rt: &impl Abort,
    alloc: Global,
    problem: &Problem,
    ranges: &Ranges,
    vector: &Vector,
    scale: u64,
) -> i128
    requires ranges { AreRanges problem.now ranges.now }
    requires scale { scale < SCALE_BOUND }
{
    let table = table_of(rt, alloc, problem, vector);
    bound(problem, ranges, &table, scale)
}

// Lets a unit take the alternatives of a range alone.
fn keep(program: &Program<'_>, relaxation: &mut Relaxation, unit: u32, low: u32, high: u32) {
    let mut place = program.first_column(unit);
    for column in program.unit_columns(unit) {
        if column.number < low || high < column.number {
            relaxation.shut(place);
        }
        place = place.saturating_add(1);
    }
}

// Lets each unit take the alternatives of its range alone.
fn keep_all(problem: &Problem, program: &Program<'_>, relaxation: &mut Relaxation, ranges: &Ranges)
    requires { AreRanges problem.now ranges.now }
{
    for unit in 0..problem.units() {
        let (low, high) = (ranges.low(unit), ranges.high(unit));
        keep(program, relaxation, unit, low, high);
    }
}

// Adds how a relaxation of ranges ends: solved, with the value in thousandths and the bound of its
// vector; or without a solution, and whether a ray shows it.
fn add_ending(
    rt: &impl Abort,
    alloc: Global,
    out: &mut String,
    problem: &Problem,
    program: &Program<'_>,
    relaxation: &mut Relaxation,
    ranges: &Ranges,
)
    requires { AreRanges problem.now ranges.now }
{
    keep_all(problem, program, relaxation, ranges);
    let ended = relaxation.solve(alloc, program, 1_000, 1_000_000_000_000.0);
    match ended.expect(rt, "memory").end {
        End::Solved => add_solved(rt, alloc, out, problem, program, relaxation, ranges),
        End::Infeasible => add_unsolved(rt, alloc, out, problem, program, relaxation, ranges),
        _ => panic!(rt; "more pivots than 1,000"),
    }
}

fn add_solved(
    rt: &impl Abort,
    alloc: Global,
    out: &mut String,
    problem: &Problem,
    program: &Program<'_>,
    relaxation: &Relaxation,
    ranges: &Ranges,
)
    requires { AreRanges problem.now ranges.now }
{
    let thousandths = saturating_f64_to_i64(relaxation.true_value(program) * 1_000.0 + 0.5);
    let vector = relaxation
        .vector(alloc, problem, program)
        .expect(rt, "memory");
    let scaled = bound_at(rt, alloc, problem, ranges, &vector, PRICED_SCALE);
    add(rt, out, "", i128::from(thousandths));
    add(rt, out, " ", scaled);
}

fn add_unsolved(
    rt: &impl Abort,
    alloc: Global,
    out: &mut String,
    problem: &Problem,
    program: &Program<'_>,
    relaxation: &Relaxation,
    ranges: &Ranges,
)
    requires { AreRanges problem.now ranges.now }
{
    let vector = relaxation
        .ray(alloc, problem, program, 1_024)
        .expect(rt, "memory");
    let shows = bound_at(rt, alloc, problem, ranges, &vector, 0) > 0;
    let text = if shows { "none true" } else { "none false" };
    out.push_str(text).expect(rt, "memory");
}

// The excluded alternatives: a flag for each, unit after unit.
fn flags(rt: &impl Abort, alloc: Global, numbers: &[i128]) -> Vec<bool> {
    let mut flags = Vec::new(alloc);
    for number in numbers {
        flags.push(*number == 1).expect(rt, "memory");
    }
    flags
}

// How a row's relaxation ends on all alternatives, and how a copy ends on the ranges of the row, if
// it has some.
struct RelaxedCase;

impl Case for RelaxedCase {
    fn find(rt: &impl Abort, alloc: Global, row: &str) -> String {
        let problem = problem(rt, alloc, piece(row, 0));
        let excluded = flags(rt, alloc, &numbers(rt, alloc, piece(row, 1)));
        relaxed(rt, alloc, &problem, &excluded, piece(row, 2))
    }
}

// How a relaxation without these alternatives ends.
fn relaxed(
    rt: &impl Abort,
    alloc: Global,
    problem: &Problem,
    excluded: &[bool],
    narrow: &str,
) -> String {
    let reduced = Reduced::of(alloc, problem).expect(rt, "memory");
    let program = Program::new(alloc, problem, &reduced, excluded).expect(rt, "memory");
    let mut out = String::new(alloc);
    add_endings(rt, alloc, &mut out, problem, &program, narrow);
    out
}

// Adds how a relaxation ends on all alternatives, and a copy of it on these ranges.
fn add_endings(
    rt: &impl Abort,
    alloc: Global,
    out: &mut String,
    problem: &Problem,
    program: &Program<'_>,
    narrow: &str,
) {
    let mut first = Relaxation::start(alloc, program).expect(rt, "memory");
    add_ending_on(rt, alloc, out, problem, program, &mut first, "");
    if !narrow.is_empty() {
        out.push_str(", ").expect(rt, "memory");
        let mut next = first.copy(alloc).expect(rt, "memory");
        add_ending_on(rt, alloc, out, problem, program, &mut next, narrow);
    }
}

fn add_ending_on(
    rt: &impl Abort,
    alloc: Global,
    out: &mut String,
    problem: &Problem,
    program: &Program<'_>,
    relaxation: &mut Relaxation,
    spans: &str,
) {
    let ranges = ranges(rt, alloc, problem, spans);
    add_ending(rt, alloc, out, problem, program, relaxation, &ranges);
}

// In turn: one of two units makes room, the cheaper one; whichever of them is kept from it, the
// other one does. Four units of equal costs for two places. A unit with one alternative, which
// fits, and which does not. A limit of 0, with the alternative that uses it, and with it left out.
// A quota of 2 that a unit of three dates passes alone: a third of it makes room; with it left out,
// all of it. All alternatives left out. Three units of which each two exclude each other: each
// makes room by half; and with no way out there is no solution. A problem of nothing.
const RELAXED: &str =
    "P 0 1 1 1; A 0 0 -; A 10 - -; U; P 0 1 1 1; A 0 0 -; A 7 - -; U; L 1 | | = 7000 7168
P 0 1 1 1; A 0 0 -; A 10 - -; U; P 0 1 1 1; A 0 0 -; A 7 - -; U; L 1 | | 0 1 0 0 = 7000 7168, 10000 10240
P 0 1 1 1; A 0 0 -; A 10 - -; U; P 0 1 1 1; A 0 0 -; A 7 - -; U; L 1 | | 1 1 0 1 = 7000 7168, 10000 10240
P 0 1 1 1; A 0 0 -; A 5 - -; U; P 0 1 1 1; A 0 0 -; A 5 - -; U; P 0 1 1 1; A 0 0 -; A 5 - -; U; P 0 1 1 1; A 0 0 -; A 5 - -; U; L 2 | | = 10000 10240
P 0 1 1 1; A 3 0 -; U; L 1 | | = 3000 3072
P 0 1 1 1; A 3 0 -; U; L 0 | | = none true
P 0 1 1 1; A 3 0 -; A 8 - -; U; L 0 | | = 8000 8192
P 0 1 1 1; A 3 0 -; A 8 - -; U; L 0 | 1 0 | = 8000 8192
P 0 1 0 3; A 0 0 -; A 9 - -; U; L 2 | | = 3000 3072
P 0 1 0 3; A 0 0 -; A 9 - -; U; L 2 | 1 0 | = 9000 0
P 0 1 1 1; A 3 0 -; A 8 - -; U; L 1 | 1 1 | = none false
P 0 2 1 1; A 0 0 -; A 20 - -; U; P 1 2 1 1; A 0 0 -; A 20 - -; U; P 0 1 2 2; A 0 0 -; A 20 - -; U; L 1 1 1 | | = 30000 30720
P 0 2 1 1; A 0 0 -; U; P 1 2 1 1; A 0 0 -; U; P 0 1 2 2; A 0 0 -; U; L 1 1 1 | | = none true
L | | = 0 0";

#[test]
fn relaxations_of_small_problems(rt: HostRuntime) {
    walk::<RelaxedCase>(&rt, rt.alloc(), RELAXED);
}
