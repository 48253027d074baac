//! The alternatives of a unit by rising cost, those of equal cost by rising number.

ghost use Rattle.std.specs.Prelude.{◌≡◌, ◌↔◌, ℕ, ◌+◌, ◌<◌, IsTrue, IfSome, IfNone};
ghost use Rattle.std.specs.Option.{ForSome};
ghost use Rattle.choice_problem.specs.Problems.{unit_count, alt_count};
ghost use Rattle.branch_tree.specs.Loops.{precedes, follows, leads, IsNextBelow};

use choice_problem::Problem;

// The alternative that comes next after one, or the first of all.
pub(crate) fn next_cheapest(problem: &Problem, unit: u32, after: Option<u32>) -> Option<u32>
    requires unit { unit < unit_count problem.now }
    requires after { ForSome after (λ a. a < alt_count problem.now unit) }
    ensures { IsNextBelow problem.now unit after (alt_count problem.now unit) result }
{
    let mut next = None;
    for alt in 0..problem.alts(unit) {
        next = earlier(problem, unit, after, next, alt);
    }
    next
}

// The next of the alternatives up to this one, from the next of those before it.
fn earlier(
    problem: &Problem,
    unit: u32,
    after: Option<u32>,
    next: Option<u32>,
    alt: u32,
) -> Option<u32>
    requires unit { unit < unit_count problem.now }
    requires alt { alt < alt_count problem.now unit }
    requires after { ForSome after (λ a. a < alt_count problem.now unit) }
    requires next { IsNextBelow problem.now unit after alt next }
    ensures { IsNextBelow problem.now unit after (alt + 1) result }
{
    if is_later(problem, unit, after, alt) && is_earlier(problem, unit, alt, next) {
        Some(alt)
    } else {
        next
    }
}

// Whether an alternative comes after the last one, if there is a last one.
fn is_later(problem: &Problem, unit: u32, last: Option<u32>, alt: u32) -> bool
    requires unit { unit < unit_count problem.now }
    requires alt { alt < alt_count problem.now unit }
    requires last { ForSome last (λ a. a < alt_count problem.now unit) }
    ensures { result ≡ follows problem.now unit last alt }
{
    match last {
        Some(before) => comes_before(problem, unit, before, alt),
        None => true,
    }
}

// Whether an alternative comes before the next one so far, if there is one.
fn is_earlier(problem: &Problem, unit: u32, alt: u32, next: Option<u32>) -> bool
    requires unit { unit < unit_count problem.now }
    requires alt { alt < alt_count problem.now unit }
    requires next { ForSome next (λ a. a < alt_count problem.now unit) }
    ensures { result ≡ leads problem.now unit alt next }
{
    match next {
        Some(best) => comes_before(problem, unit, alt, best),
        None => true,
    }
}

// Whether an alternative costs less than another, or as much and has the lower number.
fn comes_before(problem: &Problem, unit: u32, one: u32, other: u32) -> bool
    requires unit { unit < unit_count problem.now }
    requires one { one < alt_count problem.now unit }
    requires other { other < alt_count problem.now unit }
    ensures { result ≡ precedes problem.now unit one other }
{
    let cost = problem.alt_cost(unit, one);
    let other_cost = problem.alt_cost(unit, other);
    cost < other_cost || (cost == other_cost && one < other)
}
