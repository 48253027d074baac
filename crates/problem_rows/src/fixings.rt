//! What is left of problems below a cost, beside all their choices.

ghost use Rattle.std.specs.Prelude.{All};
ghost use Rattle.choice_problem.specs.Bounds.{IsVector};
ghost use Rattle.choice_problem.specs.Choices.{IsChoice};
ghost use Rattle.price_table.specs.Tables.{IsTableFor};

use crate::closed::{cost_if_feasible, least_cost};
use crate::draws::{Draws, choices_of, drawn, numbered};
use crate::problems::{problem, table_of, vector};
use crate::texts::{Case, add, numbers, piece, seen, small_at, walk};
use choice_problem::{
    Alt, Choice, Price, Problem, Ranges, SCALE_BOUND, Vector, VectorList, leaf_closes,
};
use cost_fixing::{Fixing, Left, fixing_problem, left_of};
use price_table::PriceTable;
use std::alloc::Global;
use std::process::Abort;

// A fixing of a stage of some cost, with one vector in the list: the costs of the alternatives that
// are left of each unit, or that it does not hold.
struct FixingCase;

impl Case for FixingCase {
    fn find(rt: &impl Abort, alloc: Global, row: &str) -> String {
        let problem = problem(rt, alloc, piece(row, 0));
        let vector = vector(rt, alloc, piece(row, 1));
        assert!(rt; vector.is_for(&problem), "a vector of another problem");
        let vectors = VectorList::new(vec![in alloc; vector].expect(rt, "memory"));
        left_by(rt, alloc, &problem, &vectors, row)
    }
}

// What a row's fixing leaves.
fn left_by(
    rt: &impl Abort,
    alloc: Global,
    problem: &Problem,
    vectors: &VectorList,
    row: &str,
) -> String
    requires { All (IsVector problem.now) vectors.now }
{
    let fixing = fixing(&numbers(rt, alloc, piece(row, 2)));
    let cost = seen(piece(row, 3));
    let left = fixing_problem(alloc, problem, vectors, cost, &fixing);
    match left.expect(rt, "memory") {
        Some(left) => shown(rt, alloc, &left),
        None => String::from_str(alloc, "no").expect(rt, "memory"),
    }
}

// The fixing of a vector's number, a scale and a cost.
fn fixing(numbers: &[i128]) -> Fixing {
    Fixing {
        vector: small_at(numbers, 0),
        scale: u64::from(small_at(numbers, 1)),
        cost: u64::from(small_at(numbers, 2)),
    }
}

fn shown(rt: &impl Abort, alloc: Global, left: &Problem) -> String {
    let mut out = String::from_str(alloc, "yes").expect(rt, "memory");
    for unit in 0..left.units() {
        out.push_str(" /").expect(rt, "memory");
        add_costs(rt, &mut out, left.unit_alts(unit));
    }
    out
}

fn add_costs(rt: &impl Abort, out: &mut String, alts: &[Alt]) {
    for alt in alts {
        add(rt, out, " ", i128::from(alt.cost));
    }
}

// Two units of which one pays 3: at the price 2 the bound is 2, and 3 where either pays; so those
// that pay are out at cost 3, and not at 4; at scale 4 the same, but with the price 9 the bound
// passes 2. One unit that alone passes a limit is out at every cost where costs count nothing. At
// cost 0 all is out. A vector, a scale or a cost that a fixing may not have. Of what is left of a
// unit the alternatives that do not use the last resource stand first.
const FIXINGS: &str = "pair | 0 2 | 1 1 3 | 3 = yes / 0 / 0
pair | 0 2 | 1 1 4 | 3 = yes / 3 0 / 3 0
pair | 0 2 | 1 1 2 | 2 = no
pair | 0 8 | 1 4 3 | 3 = yes / 0 / 0
pair | 0 8 | 1 4 4 | 0 = yes / 3 0 / 3 0
pair | 0 9 | 1 4 3 | 3 = no
pair | 0 9 | 1 4 4 | 3 = yes / 3 0 / 3 0
pair | 0 2 | 0 1 3 | 3 = yes / 0 / 0
pair | 0 2 | 0 1 0 | 0 = no
pair | 0 2 | 0 0 0 | 0 = yes / 3 0 / 3 0
three | 3 of 10 | 1 1 30 | 30 = no
three | 3 of 10 | 1 1 31 | 30 = yes / 0 20 / 20 0 / 20 0
P 0 1 0 1; A 0 0 0; A 3 - -; U; L 1 | 0 1 | 1 0 9 | 3 = yes / 3
P 0 1 0 1; A 0 0 0; U; L 1 | 0 1 | 1 0 9 | 3 = no
L | | 1 5 0 | 0 = yes
pair | 0 2 | 2 1 4 | 3 = no
pair | 0 2 | 1 1048575 4 | 3 = yes / 3 0 / 3 0
pair | 0 2 | 1 1048576 4 | 3 = no
pair | 0 2 | 1 1 4 | 5 = no
pair | 0 2 | 1 1 4 | - = no";

#[test]
fn fixings_of_small_problems(rt: HostRuntime) {
    walk::<FixingCase>(&rt, rt.alloc(), FIXINGS);
}

// The scale of the drawn vectors.
const SCALE: u64 = 4;

// A vector of a price for each resource, below 8: 0 is left out.
fn drawn_vector(rt: &impl Abort, alloc: Global, draws: &mut Draws) -> Vector {
    let mut items = Vec::new(alloc);
    for resource in 0..6 {
        let price = draws.below(8) as i64;
        if price > 0 {
            items.push(Price { resource, price }).expect(rt, "memory");
        }
    }
    Vector::new(items)
}

// How many alternatives of a unit the plain leaf does not close for the cost.
fn open_alts(
    rt: &impl Abort,
    alloc: Global,
    problem: &Problem,
    vector: &Vector,
    unit: u32,
    cost: u64,
) -> u32 {
    assert!(rt;
        unit < problem.units() && vector.is_for(problem),
        "a unit and a vector of the problem"
    );
    let mut count: u32 = 0;
    for alt in 0..problem.alts(unit) {
        let mut ranges = Ranges::whole(alloc, problem).expect(rt, "memory");
        ranges.set(unit, alt, alt);
        if !leaf_closes(problem, &ranges, vector, SCALE, Some(cost)) {
            count = count.saturating_add(1);
        }
    }
    count
}

// Whether each unit has as many alternatives left as the plain leaf does not close.
fn counts_agree(
    rt: &impl Abort,
    alloc: Global,
    problem: &Problem,
    left: &Problem,
    vector: &Vector,
    cost: u64,
) -> bool {
    for unit in 0..left.units() {
        if open_alts(rt, alloc, problem, vector, unit, cost) != left.alts(unit) {
            return false;
        }
    }
    left.units() == problem.units()
}

// Whether a cost is not below another one, or not there.
fn is_not_below(known: Option<u64>, cost: u64) -> bool {
    match known {
        Some(known) => known >= cost,
        None => true,
    }
}

// Whether a choice is one of what is left at the same cost and back again, where it costs less than
// the cost.
fn is_kept(
    rt: &impl Abort,
    alloc: Global,
    problem: &Problem,
    left: &Left,
    choice: &Choice,
    cost: u64,
) -> bool {
    let known = cost_if_feasible(rt, alloc, problem, choice);
    if choice.items().len() != left.problem().units() as usize {
        return false;
    }
    match left.left_choice(alloc, choice).expect(rt, "memory") {
        Some(place) => is_back(rt, alloc, left, choice, &place, known),
        None => is_not_below(known, cost),
    }
}

// Whether a choice of what is left is this one of the whole problem, at the same cost.
fn is_back(
    rt: &impl Abort,
    alloc: Global,
    left: &Left,
    choice: &Choice,
    place: &Choice,
    known: Option<u64>,
) -> bool
    requires { IsChoice left.now.problem place.now }
{
    let whole = left.whole_choice(alloc, place).expect(rt, "memory");
    let is_same = whole.items() == choice.items();
    is_same && cost_if_feasible(rt, alloc, left.problem(), place) == known
}

fn are_kept(rt: &impl Abort, alloc: Global, problem: &Problem, left: &Left, cost: u64) -> bool {
    for number in 0..choices_of(problem) {
        let choice = numbered(rt, alloc, problem, number);
        if !is_none_or_kept(rt, alloc, problem, left, &choice, cost) {
            return false;
        }
    }
    true
}

// Whether a choice is none of the problem, or kept.
fn is_none_or_kept(
    rt: &impl Abort,
    alloc: Global,
    problem: &Problem,
    left: &Left,
    choice: &Choice,
    cost: u64,
) -> bool {
    !choice.is_for(problem) || is_kept(rt, alloc, problem, left, choice, cost)
}

// Whether the least cost of what is left is that of the whole problem, where that is below the
// cost.
fn least_agrees(least: Option<u64>, left: Option<u64>, cost: u64) -> bool {
    match least {
        Some(known) if known < cost => left == least,
        _ => is_not_below(left, cost),
    }
}

// Whether what is left below a cost is as it should be, and how many units have fewer alternatives.
fn is_left(
    rt: &impl Abort,
    alloc: Global,
    problem: &Problem,
    vector: &Vector,
    table: &PriceTable,
    cost: u64,
) -> (bool, u32)
    requires { IsTableFor problem.now table.now }
{
    let least = least_cost(rt, alloc, problem);
    match left_of(alloc, problem, table, SCALE, cost).expect(rt, "memory") {
        Some(left) => (
            left_agrees(rt, alloc, problem, vector, &left, least, cost),
            smaller_units(problem, left.problem()),
        ),
        None => (is_not_below(least, cost), 0),
    }
}

// Whether what is left below a cost agrees with the problem, whose least cost is this one.
fn left_agrees(
    rt: &impl Abort,
    alloc: Global,
    problem: &Problem,
    vector: &Vector,
    left: &Left,
    least: Option<u64>,
    cost: u64,
) -> bool {
    least_agrees(least, least_cost(rt, alloc, left.problem()), cost)
        && counts_agree(rt, alloc, problem, left.problem(), vector, cost)
        && are_kept(rt, alloc, problem, left, cost)
}

// How many units have fewer alternatives in one problem than in another.
fn smaller_units(problem: &Problem, left: &Problem) -> u32 {
    let mut count: u32 = 0;
    for unit in 0..problem.units().min(left.units()) {
        if left.alts(unit) < problem.alts(unit) {
            count = count.saturating_add(1);
        }
    }
    count
}

// In how many of the drawn units something is out, at least.
const SMALLER: u32 = 250;

#[test]
fn what_is_left_of_drawn_problems(rt: HostRuntime) {
    let alloc = rt.alloc();
    let mut draws = Draws { last: 7 };
    let mut smaller: u32 = 0;
    for number in 0..500 {
        let (agrees, units) = drawn_is_left(&rt, alloc, &mut draws);
        assert!(rt; agrees, "{number}");
        smaller = smaller.saturating_add(units);
    }
    assert!(rt; smaller >= SMALLER, "{smaller}");
}

// The same of the next problem, vector and cost that are drawn.
fn drawn_is_left(rt: &impl Abort, alloc: Global, draws: &mut Draws) -> (bool, u32) {
    let problem = drawn(rt, alloc, draws);
    let vector = drawn_vector(rt, alloc, draws);
    let table = table_of(rt, alloc, &problem, &vector);
    is_left(rt, alloc, &problem, &vector, &table, draws.below(16))
}
