//! The problems of the rows, and the texts that give others.

ghost use Rattle.std.specs.Prelude.{◌<◌, ◌≤◌, IfSome};
ghost use Rattle.choice_problem.specs.Problems.{unit_count, alt_count};
ghost use Rattle.choice_problem.specs.Bounds.{AreRanges};
ghost use Rattle.price_table.specs.Tables.{IsTableFor};

use crate::texts::{NONE, at, long_at, numbers, small_at};
use choice_problem::{Alt, Chooser, Part, Price, Problem, Ranges, Strip, Vector};
use price_table::{PriceTable, price_table};
use std::alloc::Global;
use std::process::Abort;

// Clauses are divided by `;`. `P` is a part: of each strip the first resource, the width, the gap
// and the times. `A` is an alternative: its cost and the numbers of two parts. `U` ends a unit,
// whose parts and alternatives stand before it. `L` has the limits, `M` their number and one limit
// for all.

// Three units of which each two exclude each other: each uses two of three resources with limit 1,
// or pays 20.
const THREE: &str =
    "P 0 1 0 1 1 1 0 1; A 0 0 -; A 20 - -; U; P 1 1 0 1 2 1 0 1; A 0 0 -; A 20 - -; U; P 0 1 0 1 2 1 0 1; A 0 0 -; A 20 - -; U; L 1 1 1";

// Two units, of which the first uses resource 0 twice, or 1 once; the second either once.
const TWO: &str =
    "P 0 1 1 1; P 1 1 1 1; A 0 0 0; A 3 - 1; A 9 - -; U; P 0 1 1 1; P 1 1 1 1; A 0 - 0; A 2 1 -; A 7 - -; U";

// Four units after the same three resources with limit 1.
const FOUR: &str =
    "P 0 1 1 1; P 1 1 1 1; P 2 1 1 1; A 0 0 -; A 1 1 -; A 4 2 -; A 30 - -; U; P 0 1 1 1; P 1 1 1 1; P 2 1 1 1; A 0 0 -; A 1 1 -; A 4 2 -; A 30 - -; U; P 0 1 1 1; P 1 1 1 1; P 2 1 1 1; A 0 0 -; A 1 1 -; A 4 2 -; A 30 - -; U; P 0 1 1 1; P 1 1 1 1; P 2 1 1 1; A 0 0 -; A 1 1 -; A 4 2 -; A 30 - -; U; L 1 1 1";

// Two units that use the first of two resources twice and the second once, or the first once, or
// each once, or nothing.
const DOUBLED: &str =
    "P 0 1 0 1; P 0 2 0 1; A 0 0 1; A 3 0 -; A 4 - 1; A 9 - -; U; P 0 1 0 1; P 0 2 0 1; A 0 0 1; A 3 0 -; A 4 - 1; A 9 - -; U; L 1 1";

// Two units with three shifts of an arrival and of a departure, each in two windows of one
// movement; a departure is not before its arrival. The last alternative has no times.
const TURNAROUNDS: &str =
    "P 0 2 0 1; P 1 2 0 1; P 2 2 0 1; P 1 2 0 1; P 2 2 0 1; P 3 2 0 1; A 2 0 3; A 1 0 4; A 2 0 5; A 0 1 4; A 1 1 5; A 2 2 5; A 9 - -; U; P 1 2 0 1; P 2 2 0 1; P 3 2 0 1; P 2 2 0 1; P 3 2 0 1; P 4 2 0 1; A 2 0 3; A 1 0 4; A 2 0 5; A 0 1 4; A 1 1 5; A 2 2 5; A 9 - -; U; L 1 1 1 1 1 1 1 1 1 1 1 1 1 1 1";

// Three units in a ring, each of which has two ways, and the next one wants the second.
const RING: &str =
    "P 0 1 0 1; P 1 1 0 1; A 0 0 -; A 5 1 -; A 20 - -; U; P 1 1 0 1; P 2 1 0 1; A 0 0 -; A 5 1 -; A 20 - -; U; P 2 1 0 1; P 0 1 0 1; A 0 0 -; A 5 1 -; A 20 - -; U; L 1 1 1";

// Two units of which one finds no room, and pays 3.
const PAIR: &str = "P 0 1 0 1; A 0 0 -; A 3 - -; U; P 0 1 0 1; A 0 0 -; A 3 - -; U; L 1";

// Two units of which the second needs more what both want.
const NEEDED: &str =
    "P 0 1 0 1; P 1 1 0 1; A 0 0 -; A 1 1 -; U; P 0 1 0 1; A 0 0 -; A 10 - -; U; L 1 1";

// The clauses of a problem that has a name.
fn named(name: &str) -> &str {
    match name {
        "three" => THREE,
        "two" => TWO,
        "four" => FOUR,
        "doubled" => DOUBLED,
        "turnarounds" => TURNAROUNDS,
        "ring" => RING,
        "pair" => PAIR,
        "needed" => NEEDED,
        _ => name,
    }
}

// A problem whose clauses are read.
#[derive(Drop)]
struct Draft {
    units: Vec<Chooser>,
    limits: Vec<i64>,
    parts: Vec<Part>,
    alts: Vec<Alt>,
    allowed: bool,
}

impl Draft {
    // Reads clauses.
    fn read(&mut self, rt: &impl Abort, alloc: Global, text: &str) {
        for clause in text.split(';') {
            self.take(rt, alloc, clause.trim());
        }
    }

    // Reads a clause.
    fn take(&mut self, rt: &impl Abort, alloc: Global, clause: &str) {
        let (kind, rest) = clause.split_once(' ').unwrap_or((clause, ""));
        let numbers = numbers(rt, alloc, rest);
        self.put(rt, alloc, kind, &numbers);
    }

    // Puts in what a clause of a kind says.
    fn put(&mut self, rt: &impl Abort, alloc: Global, kind: &str, numbers: &[i128]) {
        match kind {
            "P" => self.put_part(rt, strips(rt, alloc, numbers)),
            "A" => self.alts.push(alt(numbers)).expect(rt, "memory"),
            "L" => self.limits = limits(rt, alloc, numbers),
            "M" => self.limits = even_limits(rt, alloc, numbers),
            "U" => self.end_unit(rt, alloc),
            "" => {}
            _ => panic!(rt; "a clause of no kind"),
        }
    }

    fn put_part(&mut self, rt: &impl Abort, strips: Vec<Strip>) {
        self.parts.push(Part::new(strips)).expect(rt, "memory");
    }

    // Ends a unit, if it is allowed.
    fn end_unit(&mut self, rt: &impl Abort, alloc: Global) {
        let parts = std::mem::replace(&mut self.parts, Vec::new(alloc));
        let alts = std::mem::replace(&mut self.alts, Vec::new(alloc));
        if Chooser::allows(&parts, &alts) {
            self.units
                .push(Chooser::new(parts, alts))
                .expect(rt, "memory");
        } else {
            self.allowed = false;
        }
    }
}

/// The strips of these numbers, four each.
pub(crate) fn strips(rt: &impl Abort, alloc: Global, numbers: &[i128]) -> Vec<Strip> {
    let mut strips = Vec::new(alloc);
    for place in 0..numbers.len() / 4 {
        strips
            .push(Strip {
                first: small_at(numbers, 4 * place),
                width: small_at(numbers, 4 * place + 1),
                gap: small_at(numbers, 4 * place + 2),
                times: small_at(numbers, 4 * place + 3),
            })
            .expect(rt, "memory");
    }
    strips
}

// The part that a number names, if it is one.
fn named_part(numbers: &[i128], place: usize) -> Option<u32> {
    if at(numbers, place) == NONE {
        None
    } else {
        Some(small_at(numbers, place))
    }
}

fn alt(numbers: &[i128]) -> Alt {
    Alt {
        cost: u64::from(small_at(numbers, 0)),
        one: named_part(numbers, 1),
        two: named_part(numbers, 2),
    }
}

/// Limits of these numbers.
pub(crate) fn limits(rt: &impl Abort, alloc: Global, numbers: &[i128]) -> Vec<i64> {
    let mut limits = Vec::new(alloc);
    for place in 0..numbers.len() {
        limits.push(long_at(numbers, place)).expect(rt, "memory");
    }
    limits
}

// So many limits, all the same.
fn even_limits(rt: &impl Abort, alloc: Global, numbers: &[i128]) -> Vec<i64> {
    vec![in alloc; long_at(numbers, 1); small_at(numbers, 0) as usize].expect(rt, "memory")
}

/// The problem of a text: a name, or clauses, or a name and further clauses. None where it is not
/// allowed.
pub(crate) fn read_problem(rt: &impl Abort, alloc: Global, text: &str) -> Option<Problem> {
    let (name, rest) = text.split_once(';').unwrap_or((text, ""));
    let mut draft = Draft {
        units: Vec::new(alloc),
        limits: Vec::new(alloc),
        parts: Vec::new(alloc),
        alts: Vec::new(alloc),
        allowed: true,
    };
    draft.read(rt, alloc, named(name));
    draft.read(rt, alloc, rest);
    let Draft {
        units,
        limits,
        allowed,
        ..
    } = draft;
    if allowed { made(units, limits) } else { None }
}

// The problem of these units and limits, where it is allowed.
fn made(units: Vec<Chooser>, limits: Vec<i64>) -> Option<Problem> {
    if Problem::allows(&units, &limits) {
        Some(Problem::new(units, limits))
    } else {
        None
    }
}

/// The problem of these units and limits, which has to be allowed.
pub(crate) fn problem_of(rt: &impl Abort, units: Vec<Chooser>, limits: Vec<i64>) -> Problem {
    assert!(rt; Problem::allows(&units, &limits), "problem");
    Problem::new(units, limits)
}

/// The unit of these parts and alternatives, which has to be allowed.
pub(crate) fn unit_of(rt: &impl Abort, parts: Vec<Part>, alts: Vec<Alt>) -> Chooser {
    assert!(rt; Chooser::allows(&parts, &alts), "unit");
    Chooser::new(parts, alts)
}

/// Adds an alternative of a part, or of none.
pub(crate) fn add_alt(rt: &impl Abort, alts: &mut Vec<Alt>, cost: u64, one: Option<u32>) {
    let two = None;
    alts.push(Alt { cost, one, two }).expect(rt, "memory");
}

/// Copies of parts.
pub(crate) fn parts_of(rt: &impl Abort, alloc: Global, parts: &[Part]) -> Vec<Part> {
    let mut copies = Vec::new(alloc);
    for part in parts {
        let strips = Vec::from_slice(alloc, part.strips()).expect(rt, "memory");
        copies.push(Part::new(strips)).expect(rt, "memory");
    }
    copies
}

/// The problem of a text: `window` and a number of dates, or as `read_problem` has it.
pub(crate) fn problem(rt: &impl Abort, alloc: Global, text: &str) -> Problem {
    match text.split_once(' ') {
        Some(("window", dates)) => window(rt, alloc, dates.parse::<u32>().unwrap_or(1)),
        _ => read_problem(rt, alloc, text).expect(rt, "a problem that is allowed"),
    }
}

// A unit on so many dates, whose times lie 5 minutes apart, the requested one in the middle; from
// half an hour before to 25 minutes after it they use a window that is full on each date: resource
// r is the window on date r.
fn window(rt: &impl Abort, alloc: Global, dates: u32) -> Problem {
    let alts = window_alts(rt, alloc, dates);
    let unit = unit_of(rt, window_parts(rt, alloc, dates), alts);
    full(rt, alloc, unit, dates)
}

// The problem of a unit where each resource is full.
fn full(rt: &impl Abort, alloc: Global, unit: Chooser, dates: u32) -> Problem {
    let units = vec![in alloc; unit].expect(rt, "memory");
    let limits = vec![in alloc; 0; dates as usize].expect(rt, "memory");
    problem_of(rt, units, limits)
}

fn window_alts(rt: &impl Abort, alloc: Global, dates: u32) -> Vec<Alt> {
    let mut alts = Vec::new(alloc);
    for place in 0..25_u64 {
        let minutes = 5 * place.abs_diff(12);
        let held = 6 <= place && place < 18;
        let one = if held { Some(0) } else { None };
        add_alt(rt, &mut alts, minutes * u64::from(dates), one);
    }
    alts
}

// A part that uses the window of each date once.
fn window_parts(rt: &impl Abort, alloc: Global, dates: u32) -> Vec<Part> {
    let strip = Strip {
        first: 0,
        width: 1,
        gap: 1,
        times: dates,
    };
    let strips = vec![in alloc; strip].expect(rt, "memory");
    vec![in alloc; Part::new(strips)].expect(rt, "memory")
}

/// The whole ranges, narrowed to these: the least and the greatest alternative of each of the first
/// units.
pub(crate) fn ranges(rt: &impl Abort, alloc: Global, problem: &Problem, text: &str) -> Ranges
    ensures { AreRanges problem.now result }
{
    let spans = numbers(rt, alloc, text);
    let mut ranges = Ranges::whole(alloc, problem).expect(rt, "memory");
    for unit in 0..problem.units() {
        narrow(problem, &mut ranges, unit, &spans);
    }
    ranges
}

/// The range of a unit that the numbers say, if it is one.
pub(crate) fn span(problem: &Problem, unit: u32, spans: &[i128]) -> Option<(u32, u32)>
    requires { unit < unit_count problem.now }
    ensures { IfSome result (λ span. (span.0 ≤ span.1) × (span.1 < alt_count problem.now unit)) }
{
    let place = 2 * unit as usize;
    let (low, high) = (small_at(spans, place), small_at(spans, place + 1));
    if place < spans.len() && low <= high && high < problem.alts(unit) {
        Some((low, high))
    } else {
        None
    }
}

// Sets the range of a unit, where it is one.
fn narrow(problem: &Problem, ranges: &mut Ranges, unit: u32, spans: &[i128])
    requires unit { unit < unit_count problem.now }
    requires ranges { AreRanges problem.now ranges.old }
    ensures { AreRanges problem.now ranges.new }
{
    if let Some((low, high)) = span(problem, unit, spans) {
        ranges.set(unit, low, high);
    }
}

/// The vector of a text: resources and prices, or `N of PRICE`, the same price for each of the
/// first resources.
pub(crate) fn vector(rt: &impl Abort, alloc: Global, text: &str) -> Vector {
    match text.split_once(" of ") {
        Some((count, price)) => even_prices(
            rt,
            alloc,
            count.parse::<u32>().unwrap_or(0),
            price.parse::<i64>().unwrap_or(0),
        ),
        None => prices(rt, alloc, &numbers(rt, alloc, text)),
    }
}

// The same price for each of the first resources.
fn even_prices(rt: &impl Abort, alloc: Global, count: u32, price: i64) -> Vector {
    let mut items = Vec::new(alloc);
    for resource in 0..count {
        items.push(Price { resource, price }).expect(rt, "memory");
    }
    Vector::new(items)
}

// A resource and its price in turn.
fn prices(rt: &impl Abort, alloc: Global, numbers: &[i128]) -> Vector {
    let mut items = Vec::new(alloc);
    for place in 0..numbers.len() / 2 {
        let resource = small_at(numbers, 2 * place);
        let price = long_at(numbers, 2 * place + 1);
        items.push(Price { resource, price }).expect(rt, "memory");
    }
    Vector::new(items)
}

/// The table of the vector of a text.
pub(crate) fn table(rt: &impl Abort, alloc: Global, problem: &Problem, text: &str) -> PriceTable
    ensures { IsTableFor problem.now result }
{
    let vector = vector(rt, alloc, text);
    table_of(rt, alloc, problem, &vector)
}

/// The table of a vector, where it is one for the problem.
pub(crate) fn table_of(
    rt: &impl Abort,
    alloc: Global,
    problem: &Problem,
    vector: &Vector,
) -> PriceTable
    ensures { IsTableFor problem.now result }
{
    assert!(rt; vector.is_for(problem), "a vector of another problem");
    price_table(alloc, problem, vector).expect(rt, "memory")
}
