//! Ranges, vectors and closed leaves.

ghost use Rattle.choice_problem.specs.Bounds.{AreRanges};

use crate::choices::choice;
use crate::problems::{problem, ranges, vector};
use crate::texts::{Case, piece, seen, walk, yes_no};
use choice_problem::{
    Problem, Ranges, SCALE_BOUND, Vector, VectorList, fits, leaf_closes, over_closes,
};
use std::alloc::Global;
use std::process::Abort;

// Prices of resources, and whether they are a vector of three resources.
const VECTORS: &str = "= yes
0 1 1 1 2 1099511627775 = yes
0 1 1 0 = no
0 -1 1 1 = no
0 1 2 1099511627776 = no
0 1 0 1 = no
1 1 0 1 = no
2 1 3 1 = no";

// Whether the text is a vector of the problem.
struct VectorCase;

impl Case for VectorCase {
    fn find(rt: &impl Abort, alloc: Global, text: &str) -> String {
        let three = problem(rt, alloc, "three");
        let list = VectorList::new(vec![in alloc; vector(rt, alloc, text)].expect(rt, "memory"));
        let are_for = are_for(&three, &list);
        yes_no(rt, alloc, are_for)
    }
}

fn are_for(problem: &Problem, list: &VectorList) -> bool {
    for vector in list.items() {
        if !vector.is_for(problem) {
            return false;
        }
    }
    true
}

#[test]
fn vectors_of_three_resources(rt: HostRuntime) {
    walk::<VectorCase>(&rt, rt.alloc(), VECTORS);
}

// Whether a leaf closes, of a vector for the problem and a scale in its limit.
fn closes(
    problem: &Problem,
    ranges: &Ranges,
    vector: &Vector,
    scale: u64,
    seen: Option<u64>,
) -> Option<bool>
    requires { AreRanges problem.now ranges.now }
{
    if vector.is_for(problem) && scale < SCALE_BOUND {
        Some(leaf_closes(problem, ranges, vector, scale, seen))
    } else {
        None
    }
}

fn over(problem: &Problem, ranges: &Ranges, resource: u32) -> Option<bool>
    requires { AreRanges problem.now ranges.now }
{
    if resource < problem.resources() {
        Some(over_closes(problem, ranges, resource))
    } else {
        None
    }
}

// Whether a leaf of a row closes: the problem, the ranges, the prices, the scale, and what was
// seen. With the scale `over`, whether resource 0 is over.
fn closed(rt: &impl Abort, alloc: Global, row: &str) -> Option<bool> {
    let problem = problem(rt, alloc, piece(row, 0));
    closed_in(rt, alloc, &problem, row)
}

fn closed_in(rt: &impl Abort, alloc: Global, problem: &Problem, row: &str) -> Option<bool> {
    let ranges = ranges(rt, alloc, problem, piece(row, 1));
    if piece(row, 3) == "over" {
        over(problem, &ranges, 0)
    } else {
        closed_on(rt, alloc, problem, &ranges, row)
    }
}

fn closed_on(
    rt: &impl Abort,
    alloc: Global,
    problem: &Problem,
    ranges: &Ranges,
    row: &str,
) -> Option<bool>
    requires { AreRanges problem.now ranges.now }
{
    let vector = vector(rt, alloc, piece(row, 2));
    let scale = seen(piece(row, 3)).unwrap_or(0);
    closes(problem, ranges, &vector, scale, seen(piece(row, 4)))
}

// No prices: the bound is the least costs, 0. Ten for each use: 20 a unit, less 30 for the limits.
// Scale 0: two uses of a resource with limit 1, or one, or none. A problem of nothing closes for 0
// alone.
const LEAVES: &str = "three | | | 1 | 0 = yes
three | | | 1 | 1 = no
three | | | 0 | - = no
three | | 3 of 10 | 1 | 30 = yes
three | | 3 of 10 | 1 | 31 = no
three | | 3 of 10240 | 1024 | 30 = yes
three | | 3 of 10240 | 1024 | 31 = no
three | | 3 of 10 | 1 | - = no
three | 0 0 0 0 0 0 | 0 1 | 0 | - = yes
three | 0 0 0 0 0 0 | 0 1 | 0 | 18446744073709551615 = yes
three | 0 0 1 1 1 1 | 0 1 | 0 | - = no
three | | 0 1 | 0 | - = no
three | | 0 1 | 0 | 0 = no
three | | | over = no
three | 0 0 0 0 0 0 | | over = yes
three | 0 0 1 1 1 1 | | over = no
L | | | 1 | 0 = yes
L | | | 1 | 1 = no";

struct LeafCase;

impl Case for LeafCase {
    fn find(rt: &impl Abort, alloc: Global, row: &str) -> String {
        let closed = closed(rt, alloc, row).expect(rt, "a vector, a scale or a resource");
        yes_no(rt, alloc, closed)
    }
}

#[test]
fn leaves_of_small_problems(rt: HostRuntime) {
    walk::<LeafCase>(&rt, rt.alloc(), LEAVES);
}

// Of a unit that uses a strip, with resource 1 at a limit: whether its use fits, whether resource 1
// is over, and the first cost for which a price of 3 on it does not close.
struct EdgeCase;

impl Case for EdgeCase {
    fn find(rt: &impl Abort, alloc: Global, row: &str) -> String {
        let problem = of_strip(rt, alloc, piece(row, 0), piece(row, 1));
        edge(rt, alloc, &problem)
    }
}

// The problem of a unit that uses a strip, with resource 1 at a limit.
fn of_strip(rt: &impl Abort, alloc: Global, strip: &str, limit: &str) -> Problem {
    let clauses = format!(in alloc; "P {strip}; A 0 0 -; A 7 - -; U; L 9 {limit} 9");
    problem(rt, alloc, &clauses.expect(rt, "memory"))
}

fn edge(rt: &impl Abort, alloc: Global, problem: &Problem) -> String {
    let fits = first_fits(rt, alloc, problem);
    let ranges = ranges(rt, alloc, problem, "0 0");
    let first = first_open(rt, alloc, problem, &ranges);
    let over = over(problem, &ranges, 1);
    format!(in alloc; "{fits} {over:?} {first}").expect(rt, "memory")
}

// Whether the choice of the first alternative fits.
fn first_fits(rt: &impl Abort, alloc: Global, problem: &Problem) -> bool {
    let choice = choice(rt, alloc, "0");
    assert!(rt; choice.is_for(problem), "choice");
    fits(alloc, problem, &choice).expect(rt, "memory")
}

// The first cost for which a price of 3 on resource 1 does not close.
fn first_open(rt: &impl Abort, alloc: Global, problem: &Problem, ranges: &Ranges) -> u64
    requires { AreRanges problem.now ranges.now }
{
    let vector = vector(rt, alloc, "1 3");
    let mut first = 0;
    for seen in 0..9 {
        if closes(problem, ranges, &vector, 1, Some(seen)) == Some(true) {
            first = seen + 1;
        }
    }
    first
}

// A limit of 0; a window that holds one movement twice; four runs in one place.
const EDGES: &str = "1 1 0 1 | 0 = false Some(true) 4
0 1 0 1 | 0 = true Some(false) 1
0 2 1 2 | 2 = true Some(false) 1
0 2 1 2 | 1 = false Some(true) 4
1 1 0 4 | 4 = true Some(false) 1
1 1 0 4 | 3 = false Some(true) 4
1 1 0 4 | 9 = true Some(false) 0";

#[test]
fn leaves_of_one_unit(rt: HostRuntime) {
    walk::<EdgeCase>(&rt, rt.alloc(), EDGES);
}

// The range of the first unit has to be this one.
fn check_first(rt: &impl Abort, ranges: &Ranges, low: u32, high: u32) {
    assert!(rt; ranges.len() > 0);
    assert!(rt;
        ranges.low(0) == low && ranges.high(0) == high,
        "from {low}"
    );
}

// The first unit has two alternatives in whole ranges, and the right ones in their two parts, and
// in a copy that is set.
fn check_cuts(rt: &impl Abort, alloc: Global, whole: &Ranges) {
    assert!(rt; whole.len() > 0);
    assert!(rt; whole.low(0) == 0 && whole.high(0) == 1);
    let (low, high) = whole.split(alloc, 0, 1).expect(rt, "memory");
    check_first(rt, &low, 0, 0);
    check_first(rt, &high, 1, 1);
    check_set(rt, alloc, &high);
}

fn check_set(rt: &impl Abort, alloc: Global, ranges: &Ranges) {
    let mut set = ranges.copy(alloc).expect(rt, "memory");
    assert!(rt; set.len() > 0);
    set.set(0, 0, 0);
    check_first(rt, &set, 0, 0);
}

#[test]
fn ranges_are_cut(rt: HostRuntime) {
    let alloc = rt.alloc();
    let three = problem(&rt, alloc, "three");
    let whole = Ranges::whole(alloc, &three).expect(&rt, "memory");
    check_cuts(&rt, alloc, &whole);
}
