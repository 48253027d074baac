//! What is made ready for an ask, row by row of the table.

ghost use Rattle.std.specs.Prelude.{◌≡◌, ◌+◌, ◌<◌, ◌≤◌, ◌^◌, ℕ, length, IfOk};
ghost use Rattle.season_days.specs.Capacity.{capacity_of};
ghost use Rattle.season_days.specs.declared.declaration.TheConstants.{HIGHEST_NIGHT_LIMIT};
ghost use Rattle.scr_reader.specs.Printed.{LineFits};
ghost use Rattle.capacity_windows.specs.Windows.{window_limit};
ghost use Rattle.holding_book.specs.Books.{held_movements};
ghost use Rattle.holding_book.specs.Asks.{CanAsk, new_outcome, line_outcome, outcome};
ghost use Rattle.holding_book.specs.Hints.{best_line};
ghost use Rattle.holding_book.specs.Private.Kept.{ArePlacesKept};
ghost use Rattle.holding_book.specs.Private.Loads.{AreLeft};
ghost use Rattle.holding_book.specs.Private.Steps.{held_book, IsAskStep};

use crate::answer::Answer;
use crate::finding::clashes_with_held;
use crate::holding::{Holding, State};
use crate::loads::Loads;
use crate::places::Places;
use crate::rows::{accept, exchange, list_flight, place_new, release};
use crate::step::{AskStep, stays};
use scr_reader::{Code, Item, Line};
use series_model::line_at;
use slot_text::Memory;
use std::alloc::Global;

/// The line at the cheapest times that fit, the first of several; none where it fits at none.
pub(crate) fn best_line(
    alloc: Global,
    loads: &Loads,
    holdings: &[Holding],
    line: &Line,
) -> Result<Option<Line>, Memory>
    requires line { LineFits loads.now.declaration.season line.now }
    requires left { AreLeft (capacity_of loads.now.declaration)
        (held_movements loads.now.declaration.season holdings.now) loads.now.left }
    ensures { IfOk result (λ best. best ≡ best_line (held_book loads.now holdings.now) line.now) }
{
    let best = loads.best_times(alloc, line)?;
    let Some(times) = best else {
        return Ok(None);
    };
    Ok(Some(line_at(line, times)))
}

/// The row of a new line, where the line at the cheapest times that fit is known.
pub(crate) fn hinted_step(
    alloc: Global,
    loads: &Loads,
    holdings: &[Holding],
    places: &Places,
    line: &Line,
    best: Option<Line>,
) -> Result<AskStep, Memory>
    requires line { LineFits loads.now.declaration.season line.now }
    requires few { length holdings.now + 4 < 2 ^ 32 }
    requires kept { ArePlacesKept places.now holdings.now }
    requires best { best ≡ best_line (held_book loads.now holdings.now) line.now }
    ensures { IfOk result (λ step. let b = held_book loads.now holdings.now in
        IsAskStep b (new_outcome b line.now) step) }
{
    if clashes_with_held(&loads.declaration().season, line, holdings, places) {
        return Ok(stays(Answer::W));
    }
    place_new(alloc, loads, holdings, line, best)
}

// The row of a new line. Nothing is searched where it clashes.
fn new_step(
    alloc: Global,
    loads: &Loads,
    holdings: &[Holding],
    places: &Places,
    line: &Line,
) -> Result<AskStep, Memory>
    requires line { LineFits loads.now.declaration.season line.now }
    requires few { length holdings.now + 4 < 2 ^ 32 }
    requires kept { ArePlacesKept places.now holdings.now }
    requires left { AreLeft (capacity_of loads.now.declaration)
        (held_movements loads.now.declaration.season holdings.now) loads.now.left }
    ensures { IfOk result (λ step. let b = held_book loads.now holdings.now in
        IsAskStep b (new_outcome b line.now) step) }
{
    if clashes_with_held(&loads.declaration().season, line, holdings, places) {
        return Ok(stays(Answer::W));
    }
    let best = best_line(alloc, loads, holdings, line)?;
    place_new(alloc, loads, holdings, line, best)
}

// The row of a line, by its code.
fn line_step(
    alloc: Global,
    loads: &Loads,
    holdings: &[Holding],
    places: &Places,
    line: &Line,
) -> Result<AskStep, Memory>
    requires line { LineFits loads.now.declaration.season line.now }
    requires few { length holdings.now + 4 < 2 ^ 32 }
    requires kept { ArePlacesKept places.now holdings.now }
    requires left { AreLeft (capacity_of loads.now.declaration)
        (held_movements loads.now.declaration.season holdings.now) loads.now.left }
    ensures { IfOk result (λ step. let b = held_book loads.now holdings.now in
        IsAskStep b (line_outcome b line.now line.now.code) step) }
{
    match line.code {
        Code::N | Code::B => new_step(alloc, loads, holdings, places, line),
        Code::D => release(alloc, loads, holdings, places, State::Confirmed, line),
        Code::Z => release(alloc, loads, holdings, places, State::Offered, line),
        Code::A => accept(alloc, loads, holdings, places, line),
        _ => Ok(stays(Answer::W)),
    }
}

/// The row of an ask. The loads are changed between two tests of a pair alone, and are as before
/// after it.
pub(crate) fn step_of(
    alloc: Global,
    loads: &mut Loads,
    holdings: &[Holding],
    places: &Places,
    ask: &Item,
) -> Result<AskStep, Memory>
    requires ask { CanAsk loads.old.declaration ask.now }
    requires few { length holdings.now + 4 < 2 ^ 32 }
    requires kept { ArePlacesKept places.now holdings.now }
    requires left { AreLeft (capacity_of loads.old.declaration)
        (held_movements loads.old.declaration.season holdings.now) loads.old.left }
    requires limits { (r : ℕ) →
        window_limit (capacity_of loads.old.declaration) r ≤ HIGHEST_NIGHT_LIMIT }
    ensures same { loads.new ≡ loads.old }
    ensures step { IfOk result (λ step. let b = held_book loads.old holdings.now in
        IsAskStep b (outcome b ask.now) step) }
{
    match ask {
        Item::One(line) => line_step(alloc, loads, holdings, places, line),
        Item::Pair(historic, request) => exchange(
            alloc, loads, holdings, places, historic, request,
        ),
        Item::Query(flight) => {
            let step = list_flight(alloc, holdings, places, flight)?;
            Ok(step)
        }
    }
}
