//! Vectors, their bounds, and floors.

ghost use Rattle.std.specs.Prelude.{◌≡◌, ◌<◌, ◌≤◌, All, length};
ghost use Rattle.choice_problem.specs.declared.vectors.TheConstants.{MOST_VECTORS};
ghost use Rattle.choice_problem.specs.declared.closing.TheConstants.{SCALE_BOUND};
ghost use Rattle.choice_problem.specs.Bounds.{AreRanges, IsVector};
ghost use Rattle.price_table.specs.Tables.{IsTableFor};

use crate::problems::{problem, ranges, table_of, vector};
use crate::texts::{Case, add, piece, seen, walk};
use choice_problem::{PRICED_SCALE, Price, Problem, Ranges, SCALE_BOUND, Vector, leaf_closes};
use dual_bound::{KeptFloors, StatedFloor, floor_of, node_vector, root_vector};
use price_table::{PriceTable, Totals, bound, closes};
use std::alloc::Global;
use std::process::Abort;

// Adds the prices of a vector: `N of PRICE` where the first resources have one price, else each
// resource and price.
fn add_prices(rt: &impl Abort, out: &mut String, vector: &Vector) {
    let items = vector.items();
    match items.first() {
        Some(first) if is_even(vector) => {
            add(rt, out, "", items.len() as i128);
            add(rt, out, " of ", i128::from(first.price));
        }
        _ => add_each(rt, out, items),
    }
}

fn add_each(rt: &impl Abort, out: &mut String, items: &[Price]) {
    for entry in items {
        add(rt, out, " ", i128::from(entry.resource));
        add(rt, out, " ", i128::from(entry.price));
    }
}

// Whether the first resources have the same price.
fn is_even(vector: &Vector) -> bool {
    let items = vector.items();
    for (place, entry) in items.iter().enumerate() {
        if entry.resource as usize != place || entry.price != items[0].price {
            return false;
        }
    }
    true
}

// The floor that is kept of ranges, after going there from all alternatives.
fn kept_floor(
    rt: &impl Abort,
    alloc: Global,
    problem: &Problem,
    ranges: &Ranges,
    tables: &[PriceTable],
) -> StatedFloor
    requires ranges { AreRanges problem.now ranges.now }
    requires tables { All (IsTableFor problem.now) tables.now }
    requires few { length tables.now ≤ MOST_VECTORS }
{
    let whole = Ranges::whole(alloc, problem).expect(rt, "memory");
    let mut kept = KeptFloors::of(alloc, problem, tables, &whole).expect(rt, "memory");
    kept.go(ranges);
    kept.floor()
}

// Adds the bound at a vector, and the floor with the number of the vector that gives it.
fn add_bound(
    rt: &impl Abort,
    alloc: Global,
    out: &mut String,
    problem: &Problem,
    ranges: &Ranges,
    vector: &Vector,
)
    requires { AreRanges problem.now ranges.now }
{
    let table = table_of(rt, alloc, problem, vector);
    let tables = vec![in alloc; table].expect(rt, "memory");
    add_floor(rt, alloc, out, problem, ranges, &tables);
}

fn add_floor(
    rt: &impl Abort,
    alloc: Global,
    out: &mut String,
    problem: &Problem,
    ranges: &Ranges,
    tables: &[PriceTable],
)
    requires ranges { AreRanges problem.now ranges.now }
    requires tables { All (IsTableFor problem.now) tables.now }
    requires one { length tables.now ≡ 1 }
{
    let floor = floor_of(problem, ranges, tables);
    let kept = kept_floor(rt, alloc, problem, ranges, tables);
    assert!(rt; kept == floor, "the floor that is kept");
    let scaled = scaled_bound(rt, alloc, problem, ranges, &tables[0]);
    add(rt, out, " | ", scaled);
    add(rt, out, " ", i128::from(floor.cost));
    add(rt, out, " by ", i128::from(floor.vector));
}

// The bound at a table, where the totals that are kept give the same.
fn scaled_bound(
    rt: &impl Abort,
    alloc: Global,
    problem: &Problem,
    ranges: &Ranges,
    table: &PriceTable,
) -> i128
    requires ranges { AreRanges problem.now ranges.now }
    requires table { IsTableFor problem.now table.now }
{
    let scaled = bound(problem, ranges, table, PRICED_SCALE);
    let totals = Totals::of(alloc, problem, ranges, table, PRICED_SCALE).expect(rt, "memory");
    let kept = totals.bound();
    assert!(rt; kept == scaled, "the totals that are kept");
    scaled
}

// The vector that a row asks for: the one of its ranges, or of the problem, or its own.
fn asked(rt: &impl Abort, alloc: Global, problem: &Problem, ranges: &Ranges, text: &str) -> Vector
    requires { AreRanges problem.now ranges.now }
{
    match text {
        "node" => node_vector(alloc, problem, ranges).expect(rt, "memory"),
        "root" => root_vector(alloc, problem).expect(rt, "memory"),
        _ => vector(rt, alloc, text),
    }
}

// The prices of a row's vector, its bound and its floor.
struct JudgedCase;

impl Case for JudgedCase {
    fn find(rt: &impl Abort, alloc: Global, row: &str) -> String {
        let problem = problem(rt, alloc, piece(row, 0));
        judged(rt, alloc, &problem, row)
    }
}

fn judged(rt: &impl Abort, alloc: Global, problem: &Problem, row: &str) -> String {
    let ranges = ranges(rt, alloc, problem, piece(row, 1));
    let vector = asked(rt, alloc, problem, &ranges, piece(row, 2));
    shown(rt, alloc, problem, &ranges, &vector)
}

fn shown(
    rt: &impl Abort,
    alloc: Global,
    problem: &Problem,
    ranges: &Ranges,
    vector: &Vector,
) -> String
    requires { AreRanges problem.now ranges.now }
{
    let mut out = String::new(alloc);
    add_prices(rt, &mut out, vector);
    add_bound(rt, alloc, &mut out, problem, ranges, vector);
    out
}

// A window at half past six; three units that exclude each other, at the root and on both sides of
// a split; two units by their limits; four units; a problem of nothing; six resources in four
// classes, two of which are used alike and have other limits; 20,000 resources in one class, whose
// prices together pass 2^40 at the ninth step, so that the steps begin again on each resource.
const VECTORS: &str = "window 1 | | root = 1 of 32768 | 30720 30 by 1
window 210 | | root = 210 of 32768 | 6451200 6300 by 1
three | | node = 3 of 10240 | 30720 30 by 1
three | 0 0 | node = 2 of 32768 | 40960 40 by 1
three | 1 1 | node = 2 20480 | 40960 40 by 1
two; L 1 1 | | node = 2 of 4096 | 3072 3 by 1
two; L 0 0 | | node = 0 49152 1 32768 | 16384 16 by 1
two; L 5 5 | | node = | 0 0 by 0
four | | node = 0 30720 1 29696 2 26624 | 35840 35 by 1
four | 0 1 0 2 1 3 0 3 | node = 0 30976 1 29952 2 26880 | 35584 35 by 1
L | | node = | 0 0 by 0
P 0 1 4 2; A 0 0 -; A 30 - -; U; P 0 2 2 3; P 2 2 0 2; A 0 0 -; A 10 1 -; A 40 - -; U; P 0 6 0 1; A 0 0 -; A 50 - -; U; L 1 1 2 3 1 1 | | root = 0 16384 2 15360 4 16384 | 56320 55 by 1
P 0 20000 0 400; A 5 0 -; U; M 20000 0 | | root = 20000 of 104448000 | 835584000005120 816000000005 by 1";

#[test]
fn vectors_of_small_problems(rt: HostRuntime) {
    walk::<JudgedCase>(&rt, rt.alloc(), VECTORS);
}

// Floors at one price for all resources: a bound of 15,000 is rounded up to 15, and one of 3 to 1;
// at the root vector both sides of a split have the floor 30.
const FLOORS: &str = "three | 0 0 | 3 of 10240 = 3 of 10240 | 30720 30 by 1
three | 1 1 | 3 of 10240 = 3 of 10240 | 30720 30 by 1
three | 0 1 | 3 of 5120 = 3 of 5120 | 15360 15 by 1
three | 0 1 | 3 of 5000 = 3 of 5000 | 15000 15 by 1
three | 1 1 | 3 of 1 = 3 of 1 | 20481 21 by 1
three | 0 1 | 3 of 1 = 3 of 1 | 3 1 by 1
three | 1 1 | = | 20480 20 by 0
three | 0 1 | 3 of 20480 = 3 of 20480 | 0 0 by 0
three | 0 1 | 3 of 30000 = 3 of 30000 | -28560 0 by 0";

#[test]
fn floors_are_rounded_up(rt: HostRuntime) {
    walk::<JudgedCase>(&rt, rt.alloc(), FLOORS);
}

// Whether the bound of a table, the totals that are kept and the leaf that prices each alternative
// anew close for the same costs below 80.
fn agree(rt: &impl Abort, alloc: Global, row: &str, prices: &str) -> bool {
    let problem = problem(rt, alloc, piece(row, 0));
    let scale = seen(piece(row, 2)).unwrap_or(SCALE_BOUND);
    agree_in(rt, alloc, &problem, piece(row, 1), scale, prices)
}

fn agree_in(
    rt: &impl Abort,
    alloc: Global,
    problem: &Problem,
    spans: &str,
    scale: u64,
    prices: &str,
) -> bool {
    let ranges = ranges(rt, alloc, problem, spans);
    let vector = vector(rt, alloc, prices);
    let table = table_of(rt, alloc, problem, &vector);
    agree_at(rt, alloc, problem, &ranges, &vector, &table, scale)
}

fn agree_at(
    rt: &impl Abort,
    alloc: Global,
    problem: &Problem,
    ranges: &Ranges,
    vector: &Vector,
    table: &PriceTable,
    scale: u64,
) -> bool
    requires ranges { AreRanges problem.now ranges.now }
    requires table { IsTableFor problem.now table.now }
{
    assert!(rt; vector.is_for(problem) && scale < SCALE_BOUND, "leaf");
    let totals = Totals::of(alloc, problem, ranges, table, scale).expect(rt, "memory");
    close_alike(problem, ranges, vector, table, &totals, scale)
}

fn close_alike(
    problem: &Problem,
    ranges: &Ranges,
    vector: &Vector,
    table: &PriceTable,
    totals: &Totals,
    scale: u64,
) -> bool
    requires ranges { AreRanges problem.now ranges.now }
    requires table { IsTableFor problem.now table.now }
    requires vector { IsVector problem.now vector.now }
    requires scale { scale < SCALE_BOUND }
{
    for cost in 0..80 {
        let plain = leaf_closes(problem, ranges, vector, scale, Some(cost));
        let fast = closes(problem, ranges, table, scale, Some(cost));
        if plain != fast || plain != totals.closes(Some(cost)) {
            return false;
        }
    }
    true
}

const AGREEING: &str = "three | 0 1 | 0
three | 0 0 | 1
three | 1 1 | 1
three | 0 1 | 1024
two; L 1 1 | 0 1 | 0
two; L 1 1 | 0 0 | 1
two; L 1 1 | 1 1 | 1
two; L 1 1 | 0 1 | 1024
two; L 0 3 | 0 1 | 0
two; L 0 3 | 0 0 | 1
two; L 0 3 | 1 1 | 1
two; L 0 3 | 0 1 | 1024
four | 0 1 | 0
four | 0 0 | 1
four | 1 1 | 1
four | 0 1 | 1024";

const AGREEING_PRICES: &str = "|0 5|0 10240 1 700|0 29 1 3|1 1099511627775";

#[test]
fn bounds_close_as_leaves_do(rt: HostRuntime) {
    for row in AGREEING.lines() {
        all_agree(&rt, rt.alloc(), row);
    }
}

fn all_agree(rt: &impl Abort, alloc: Global, row: &str) {
    for prices in AGREEING_PRICES.split('|') {
        assert!(rt; agree(rt, alloc, row, prices), "{row} {prices}");
    }
}
