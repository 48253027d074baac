//! A tie of a choice that leaves more to a next problem.

ghost use Rattle.std.specs.Prelude.{IfOk, IfSome};
ghost use Rattle.choice_problem.specs.Choices.{IsFeasible};
ghost use Rattle.tied_choice.specs.Ties.{IsTie};

use crate::joint::{joint_problem, joint_units, read_choice, start_of};
use crate::pairs::Pair;
use crate::scales::Scale;
use choice_problem::{Choice, Problem, cost_of, fits};
use closing_search::{Ending, closing_search};
use slot_text::Memory;
use std::alloc::Global;
use std::thread::Threads;
use tested_trees::Closed;

/// The most units that a joint problem may have.
pub const MOST_JOINT_UNITS: u32 = 256;

/// The most alternatives that the units of a joint problem may have together.
pub const MOST_JOINT_ALTS: usize = 20_000;

// How many nodes the search of a joint problem has.
const JOINT_BUDGET: u32 = 16;

/// Another choice of the first problem, of the same cost, after which the next problem may cost
/// less than it does after the one that is given; or none, where none was found. That the next
/// problem costs less is not promised, and is to be tested by searching it again; nor is it
/// promised that a tie is found where there is one. The same problems and choices give the same
/// answer.
///
/// `both` has the units of the first problem and of the next one as if the first one had given
/// nothing, in one order, with the limits of what both may use together; of each, `is_first` says
/// whether it is one of the first problem's units. These units have the same alternatives in `both`
/// and in `first`, and those that take no part in the first problem's choice, and all others, are
/// the units of `next`. Where this is not so, what is answered is a tie, or none, all the same.
///
/// The joint problem has the classes of resources of both stages: the costs of the first one weigh
/// more than all that the next one may gain, so that a choice of it that costs less has a tie of
/// the first choice. Nothing is tried where it would have more than 256 units or 20,000
/// alternatives, or costs or uses that a problem may not have. Time: that of listing its
/// alternatives, of `Reduced::of` twice, and of `closing_search` with 16 nodes. Memory: what these
/// take, and some 80 bytes an alternative of the joint problem.
pub fn tied_choice<R: Threads + Sync>(
    rt: &R,
    alloc: Global,
    first: &Problem,
    chosen: &Choice,
    next: &Problem,
    next_chosen: &Choice,
    both: &Problem,
    is_first: &[bool],
    workers: u32,
) -> Result<Option<Choice>, Memory>
    requires { IsFeasible first.now chosen.now }
    ensures { IfOk result (λ found. IfSome found (IsTie first.now chosen.now)) }
{
    let pair = Pair {
        first,
        chosen,
        next,
        next_chosen,
        both,
    };
    match joint_choice(rt, alloc, &pair, is_first, workers)? {
        Some(found) => tested(alloc, first, chosen, found),
        None => Ok(None),
    }
}

// A choice that was found, if it is feasible and costs as much.
fn tested(
    alloc: Global,
    first: &Problem,
    chosen: &Choice,
    found: Choice,
) -> Result<Option<Choice>, Memory>
    requires { IsFeasible first.now chosen.now }
    ensures { IfOk result (λ found. IfSome found (IsTie first.now chosen.now)) }
{
    if !found.is_for(first) || !fits(alloc, first, &found)? {
        return Ok(None);
    }
    if cost_of(first, &found) == cost_of(first, chosen) {
        Ok(Some(found))
    } else {
        Ok(None)
    }
}

// What the best choice that a search of the joint problem knows takes of the first one.
fn joint_choice<R: Threads + Sync>(
    rt: &R,
    alloc: Global,
    pair: &Pair<'_>,
    is_first: &[bool],
    workers: u32,
) -> Result<Option<Choice>, Memory> {
    if pair.both.units() > MOST_JOINT_UNITS {
        return Ok(None);
    }
    let Some(scale) = Scale::of(pair) else {
        return Ok(None);
    };
    let Some(units) = joint_units(alloc, pair, &scale, is_first, MOST_JOINT_ALTS)? else {
        return Ok(None);
    };
    let Some(joint) = joint_problem(alloc, pair, &units)? else {
        return Ok(None);
    };
    match best_choice(rt, alloc, &joint, start_of(alloc, &units)?, workers)? {
        Some(best) => read_choice(alloc, &units, &best, pair.next_cost()),
        None => Ok(None),
    }
}

// The best choice that a search from a start knows, where the start is feasible.
fn best_choice<R: Threads + Sync>(
    rt: &R,
    alloc: Global,
    joint: &Problem,
    start: Choice,
    workers: u32,
) -> Result<Option<Choice>, Memory> {
    if !start.is_for(joint) || !fits(alloc, joint, &start)? {
        return Ok(None);
    }
    match closing_search(rt, alloc, joint, Some(start), JOINT_BUDGET, workers)? {
        Ending::Closed(Closed::Optimal { choice, .. }) => Ok(Some(choice)),
        Ending::Closed(Closed::Infeasible { .. }) => Ok(None),
        Ending::Open { best, .. } => Ok(best),
    }
}
