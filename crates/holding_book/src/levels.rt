//! The shifts of a line by rising cost.

ghost use Rattle.std.specs.Prelude.{◌≡◌, IfOk, map};
ghost use Rattle.scr_reader.specs.Printed.{LineFits};
ghost use Rattle.series_model.specs.Displacement.{cost_at};
ghost use Rattle.holding_book.specs.Private.Levels.{is_passed, lesser, IsNextLevel};

use scr_reader::Line;
use season_days::Declaration;
use series_model::{Times, line_displacement};
use slot_text::Memory;
use std::alloc::Global;

/// What each of some times costs a line.
pub(crate) fn costs_of(
    alloc: Global,
    line: &Line,
    shifts: &[Times],
    declaration: &Declaration,
) -> Result<Vec<u64>, Memory>
    requires { LineFits declaration.now.season line.now }
    ensures { IfOk result (λ costs. costs.items
        ≡ map (cost_at declaration.now line.now) shifts.now) }
{
    let mut costs = Vec::with_capacity(alloc, shifts.len())?;
    for times in shifts {
        costs.push(line_displacement(line, *times, declaration))?;
    }
    Ok(costs)
}

/// The least cost behind the last one, if there is one.
pub(crate) fn next_level(costs: &[u64], last: Option<u64>) -> Option<u64>
    ensures { IsNextLevel last costs.now result }
{
    let mut least = None;
    for cost in costs {
        least = lesser(least, last, *cost);
    }
    least
}

// A cost, where it lies behind the last one and is less than the least so far; else that.
fn lesser(least: Option<u64>, last: Option<u64>, cost: u64) -> Option<u64>
    ensures { result ≡ lesser least last cost }
{
    if is_passed(last, cost) {
        return least;
    }
    match least {
        Some(least) if least <= cost => Some(least),
        _ => Some(cost),
    }
}

// Whether a cost is at most the last one, if there is one.
fn is_passed(last: Option<u64>, cost: u64) -> bool
    ensures { result ≡ is_passed last cost }
{
    match last {
        Some(last) => cost <= last,
        None => false,
    }
}
