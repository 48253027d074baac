//! Visits of ranges by `visit` and by a walk that came from other ranges, and greedy choices.

ghost use Rattle.std.specs.Prelude.{◌≡◌, ◌≤◌, All, length};
ghost use Rattle.price_table.specs.Tables.{IsTableFor};

use crate::problems::{problem, span, table};
use crate::texts::{Case, numbers, piece, seen, walk};
use branch_tree::{Visit, Walk, greedy, visit};
use choice_problem::{Problem, Ranges, cost_of};
use price_table::PriceTable;
use std::alloc::Global;
use std::process::Abort;

fn shown(rt: &impl Abort, alloc: Global, visit: &Visit) -> String {
    let text = match visit {
        Visit::Close(node) => format!(in alloc; "{node:?}"),
        Visit::Found(choice, node) => format!(in alloc; "{:?} {node:?}", choice.items()),
        Visit::Split { unit, cut } => format!(in alloc; "{unit} at {cut}"),
    };
    text.expect(rt, "memory")
}

// A walk at the whole ranges.
fn from_whole<'a>(rt: &impl Abort, alloc: Global, problem: &'a Problem) -> Walk<'a>
    ensures { result.problem ≡ problem.now }
{
    let whole = Ranges::whole(alloc, problem).expect(rt, "memory");
    Walk::of(alloc, problem, whole).expect(rt, "memory")
}

// Sets the ranges of a walk.
fn go(rt: &impl Abort, alloc: Global, problem: &Problem, walk: &mut Walk<'_>, text: &str)
    requires { walk.old.problem ≡ problem.now }
    ensures { walk.new.problem ≡ problem.now }
{
    let spans = numbers(rt, alloc, text);
    for unit in 0..problem.units() {
        if let Some((low, high)) = span(problem, unit, &spans) {
            walk.narrow(alloc, problem, unit, low, high)
                .expect(rt, "memory");
        }
    }
}

// The answer of a walk at its ranges, which has to be that of `visit` at these.
fn answer(
    rt: &impl Abort,
    alloc: Global,
    problem: &Problem,
    walk: &Walk<'_>,
    root: &PriceTable,
    row: &str,
) -> String
    requires walk { walk.now.problem ≡ problem.now }
    requires root { IsTableFor problem.now root.now }
{
    let seen = seen(piece(row, 4));
    let anew = visit(alloc, problem, walk.ranges(), root, seen).expect(rt, "memory");
    let kept = walk.visit(alloc, problem, root, seen).expect(rt, "memory");
    both_shown(rt, alloc, row, &anew, &kept)
}

fn both_shown(rt: &impl Abort, alloc: Global, row: &str, anew: &Visit, kept: &Visit) -> String {
    let anew = shown(rt, alloc, anew);
    let kept = shown(rt, alloc, kept);
    assert!(rt;
        anew.as_str() == kept.as_str(),
        "{row}: unlike: {anew} / {kept}"
    );
    kept
}

// The answer of the visits of a row, which have to be alike: the problem, the ranges that a walk
// comes from, and those that it goes to, the root prices, and what was seen.
fn visited(rt: &impl Abort, alloc: Global, row: &str) -> String {
    let problem = problem(rt, alloc, piece(row, 0));
    let root = table(rt, alloc, &problem, piece(row, 3));
    walked(rt, alloc, &problem, &root, row)
}

fn walked(rt: &impl Abort, alloc: Global, problem: &Problem, root: &PriceTable, row: &str) -> String
    requires { IsTableFor problem.now root.now }
{
    let mut walk = from_whole(rt, alloc, problem);
    go(rt, alloc, problem, &mut walk, piece(row, 1));
    go(rt, alloc, problem, &mut walk, piece(row, 2));
    answer(rt, alloc, problem, &walk, root, row)
}

// One unit beside a full window, on all dates of a season, 30 minutes a date, and on one date: the
// bound is 1024 times 30, and with a price of 29696 it is 1024 times 29. Three units that exclude
// each other. Two units where a resource is used by both parts: over where both use it at least
// once, a split of the lowest unit that could use it less often; 9 and 0; with the price 9 and 3
// and 4, less 4 for the limit.
const VISITS: &str =
    "window 210 | 12 18 | 0 24 | 210 of 32768 | 6300 = Leaf { vector: 1, scale: 1024, seen: Some(6300) }
window 210 | 12 18 | 0 24 | 210 of 32768 | 6301 = 0 at 12
window 1 | 12 18 | 0 24 | 1 of 32768 | 30 = Leaf { vector: 1, scale: 1024, seen: Some(30) }
window 1 | 12 18 | 0 24 | 1 of 29697 | 30 = Leaf { vector: 1, scale: 1024, seen: Some(30) }
window 1 | 12 18 | 0 24 | 1 of 29696 | 30 = 0 at 12
window 1 | 12 18 | 0 24 | 1 of 32768 | 0 = Leaf { vector: 0, scale: 1, seen: Some(0) }
three | | 0 1 0 1 0 1 | 3 of 10240 | 40 = 0 at 1
three | 1 1 0 0 1 1 | 0 1 0 1 0 1 | 3 of 10240 | 40 = 0 at 1
three | | 0 0 0 1 0 1 | 3 of 10240 | 40 = 2 at 1
three | 1 1 0 0 1 1 | 0 0 0 1 0 1 | 3 of 10240 | 40 = 2 at 1
three | | 0 0 0 1 0 0 | 3 of 10240 | 40 = Over { resource: 0 }
three | 1 1 0 0 1 1 | 0 0 0 1 0 0 | 3 of 10240 | 40 = Over { resource: 0 }
three | | 0 0 0 1 1 1 | 3 of 10240 | 40 = 1 at 1
three | 1 1 0 0 1 1 | 0 0 0 1 1 1 | 3 of 10240 | 40 = 1 at 1
three | | 1 1 0 1 0 1 | 3 of 10240 | 40 = 1 at 1
three | 1 1 0 0 1 1 | 1 1 0 1 0 1 | 3 of 10240 | 40 = 1 at 1
three | | 1 1 1 1 0 1 | 3 of 10240 | 40 = Leaf { vector: 0, scale: 1, seen: Some(40) }
three | 1 1 0 0 1 1 | 1 1 1 1 0 1 | 3 of 10240 | 40 = Leaf { vector: 0, scale: 1, seen: Some(40) }
three | | 1 1 1 1 0 1 | 3 of 10240 | - = [1, 1, 0] Leaf { vector: 0, scale: 1, seen: Some(40) }
three | 1 1 0 0 1 1 | 1 1 1 1 0 1 | 3 of 10240 | - = [1, 1, 0] Leaf { vector: 0, scale: 1, seen: Some(40) }
three | | 0 1 0 1 0 1 | 3 of 10240 | 30 = Leaf { vector: 1, scale: 1024, seen: Some(30) }
three | 1 1 0 0 1 1 | 0 1 0 1 0 1 | 3 of 10240 | 30 = Leaf { vector: 1, scale: 1024, seen: Some(30) }
doubled | 0 0 1 3 | 0 2 0 2 | 1 of 4096 | - = Over { resource: 0 }
doubled | 0 0 1 3 | 3 3 0 0 | 1 of 4096 | - = Over { resource: 0 }
doubled | 0 0 1 3 | 0 3 0 2 | 1 of 4096 | - = 0 at 1
doubled | 0 0 1 3 | 3 3 0 2 | 1 of 4096 | - = 1 at 1
doubled | 0 0 1 3 | 3 3 1 2 | 1 of 4096 | - = [3, 1] Leaf { vector: 0, scale: 1, seen: Some(12) }
doubled | 0 0 1 3 | 3 3 2 3 | 1 of 4096 | 14 = [3, 2] Leaf { vector: 0, scale: 1, seen: Some(13) }
doubled | 0 0 1 3 | 3 3 0 2 | 1 of 4096 | 9 = Leaf { vector: 0, scale: 1, seen: Some(9) }
doubled | 0 0 1 3 | 3 3 0 2 | 1 of 4096 | 12 = Leaf { vector: 1, scale: 1024, seen: Some(12) }
doubled | 0 0 1 3 | 3 3 0 2 | 1 of 4096 | 13 = 1 at 1";

struct VisitCase;

impl Case for VisitCase {
    fn find(rt: &impl Abort, alloc: Global, row: &str) -> String {
        visited(rt, alloc, row)
    }
}

#[test]
fn visits_answer_alike(rt: HostRuntime) {
    walk::<VisitCase>(&rt, rt.alloc(), VISITS);
}

// Ranges of a window on three dates and of turnarounds, and what was seen: at each the visits have
// to answer the same.
const ALIKE: &str =
    "window 3 | 3 20 | # | 3 of 20000 | $ | 0 24,6 17,5 18,12 12,0 5,18 24,7 9 | -,0,60,89,90,106
turnarounds | 1 4 2 2 | $ # | 6 of 700 | 3 | 0 0,0 1,1 1,0 2,1 2,2 2,0 3,1 3,2 3,3 3,0 4,1 4,2 4,3 4,4 4,0 5,1 5,2 5,3 5,4 5,5 5,0 6,1 6,2 6,3 6,4 6,5 6,6 6 | 0 6,0 3,4 5";

// The row with its last two pieces in place of its signs.
fn filled(rt: &impl Abort, alloc: Global, row: &str, range: &str, other: &str) -> String {
    let mut out = String::new(alloc);
    for letter in row.chars() {
        match letter {
            '#' => out.push_str(range).expect(rt, "memory"),
            '$' => out.push_str(other).expect(rt, "memory"),
            _ => out.push(letter).expect(rt, "memory"),
        }
    }
    out
}

// The visits have to answer alike at the row with these ranges, and with each of its others.
fn alike_at(rt: &impl Abort, alloc: Global, row: &str, range: &str) {
    for other in piece(row, 6).split(',') {
        let filled = filled(rt, alloc, row, range, other);
        visited(rt, alloc, &filled);
    }
}

// The visits have to answer alike at the row with each of its ranges.
fn alike(rt: &impl Abort, alloc: Global, row: &str) {
    for range in piece(row, 5).split(',') {
        alike_at(rt, alloc, row, range);
    }
}

#[test]
fn visits_answer_alike_at_many_ranges(rt: HostRuntime) {
    for row in ALIKE.lines() {
        alike(&rt, rt.alloc(), row);
    }
}

// The answer of a walk at the whole ranges of the three units, with an empty root vector and two
// further ones.
struct FurtherCase;

impl Case for FurtherCase {
    fn find(rt: &impl Abort, alloc: Global, row: &str) -> String {
        let problem = problem(rt, alloc, "three");
        let first = table(rt, alloc, &problem, piece(row, 0));
        let second = table(rt, alloc, &problem, piece(row, 1));
        let tables = vec![in alloc; first, second].expect(rt, "memory");
        further(rt, alloc, &problem, &tables, seen(piece(row, 2)))
    }
}

fn further(
    rt: &impl Abort,
    alloc: Global,
    problem: &Problem,
    tables: &[PriceTable],
    seen: Option<u64>,
) -> String
    requires tables { All (IsTableFor problem.now) tables.now }
    requires few { length tables.now ≤ 2 }
{
    let root = table(rt, alloc, problem, "");
    let walk = from_whole(rt, alloc, problem);
    further_at(rt, alloc, problem, &walk, &root, tables, seen)
}

fn further_at(
    rt: &impl Abort,
    alloc: Global,
    problem: &Problem,
    walk: &Walk<'_>,
    root: &PriceTable,
    tables: &[PriceTable],
    seen: Option<u64>,
) -> String
    requires walk { walk.now.problem ≡ problem.now }
    requires root { IsTableFor problem.now root.now }
    requires tables { All (IsTableFor problem.now) tables.now }
    requires few { length tables.now ≤ 2 }
{
    let visit = walk
        .visit_with(alloc, problem, root, tables, seen)
        .expect(rt, "memory");
    shown(rt, alloc, &visit)
}

// The first further vector that closes.
const FURTHER: &str = "3 of 10240 | 3 of 1 | 30 = Leaf { vector: 2, scale: 1024, seen: Some(30) }
3 of 10240 | 3 of 10240 | 30 = Leaf { vector: 2, scale: 1024, seen: Some(30) }
3 of 1 | 3 of 10240 | 30 = Leaf { vector: 3, scale: 1024, seen: Some(30) }
3 of 1 | 3 of 10240 | 31 = 0 at 1";

#[test]
fn the_first_further_vector_that_closes(rt: HostRuntime) {
    walk::<FurtherCase>(&rt, rt.alloc(), FURTHER);
}

// The alternatives of the greedy choice of a problem, and its cost.
struct StartCase;

impl Case for StartCase {
    fn find(rt: &impl Abort, alloc: Global, text: &str) -> String {
        let problem = problem(rt, alloc, text);
        started(rt, alloc, &problem)
    }
}

fn started(rt: &impl Abort, alloc: Global, problem: &Problem) -> String {
    let text = match greedy(alloc, problem).expect(rt, "memory") {
        Some(choice) => {
            let cost = cost_of(problem, &choice);
            format!(in alloc; "{:?} {cost}", choice.items())
        }
        None => format!(in alloc; "none"),
    };
    text.expect(rt, "memory")
}

// Half an hour later costs less than 35 minutes earlier. The second and the third unit find no room
// beside the first. Of two that cost the same, the first; an alternative that does not fit is
// passed over. Two units that must both use one resource. Where the second part does not fit, the
// first part is taken back, and is then counted once.
const GREEDY: &str = "window 210 = [18] 6300
three = [0, 1, 1] 40
P 0 1 0 1 0 1 0 1; A 9 - -; A 3 0 -; A 4 - -; A 4 - -; U; L 1 = [2] 4
P 0 1 0 1; A 0 0 -; U; P 0 1 0 1; A 0 0 -; U; L 1 = none
P 0 1 0 1; P 1 1 0 1; A 0 0 1; A 5 0 -; U; P 0 1 0 1; A 0 0 -; A 1 - -; U; L 1 0 = [1, 1] 6";

#[test]
fn greedy_takes_the_cheapest_that_fits(rt: HostRuntime) {
    walk::<StartCase>(&rt, rt.alloc(), GREEDY);
}
