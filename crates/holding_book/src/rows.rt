//! What each ask gets: the answer, and the change of the book.

ghost use Rattle.std.specs.Prelude.{◌≡◌, ◌+◌, ◌<◌, ◌≤◌, ◌^◌, ℕ, ◌++◌, ◌∷◌, [], length, filter, IfOk};
ghost use Rattle.season_days.specs.Capacity.{capacity_of};
ghost use Rattle.season_days.specs.declared.declaration.TheConstants.{HIGHEST_NIGHT_LIMIT};
ghost use Rattle.scr_reader.specs.Printed.{LineFits};
ghost use Rattle.capacity_windows.specs.Windows.{window_limit};
ghost use Rattle.holding_book.specs.Books.{clashes_with, held_movements, best_times};
ghost use Rattle.holding_book.specs.Lines.{has_flight};
ghost use Rattle.season_days.specs.declared.declaration.Declaration.{Declaration as DeclarationValue};
ghost use Rattle.holding_book.specs.Asks.{offer_outcome, release_outcome, change_outcome, accept_outcome, query_outcome};
ghost use Rattle.holding_book.specs.Hints.{best_line};
ghost use Rattle.holding_book.specs.Private.Kept.{ArePlacesKept};
ghost use Rattle.holding_book.specs.Private.Loads.{AreLeft};
ghost use Rattle.holding_book.specs.Private.Steps.{book_with, held_book, replaced_at, IsAskStep};

use crate::answer::Answer;
use crate::cuts::{cut_holding, in_period};
use crate::finding::{clashes_after, first_match, holding_at, holdings_of};
use crate::holding::{Holding, HoldingList, State};
use crate::listing::{append_change, replace_change, swap_change};
use crate::loads::Loads;
use crate::places::Places;
use crate::step::{AskStep, stays};
use crate::uses::no_uses;
use scr_reader::{Flight, Line};
use season_days::Season;
use season_days::laws::cut_counts;
use series_model::laws::{movement_loads, shift_bounds};
use series_model::{line_displacement, line_times};
use slot_text::Memory;
use std::alloc::Global;

/// The first match in a state is replaced by what is left of it without the line's dates.
pub(crate) fn release(
    alloc: Global,
    loads: &Loads,
    holdings: &[Holding],
    places: &Places,
    state: State,
    line: &Line,
) -> Result<AskStep, Memory>
    requires line { LineFits loads.now.declaration.season line.now }
    requires few { length holdings.now + 4 < 2 ^ 32 }
    requires kept { ArePlacesKept places.now holdings.now }
    ensures { IfOk result (λ step. let b = held_book loads.now holdings.now in
        IsAskStep b (release_outcome b state line.now) step) }
{
    movement_loads();
    cut_counts();
    let season = &loads.declaration().season;
    let Some(at) = first_match(season, state, line, holdings, places) else {
        return Ok(stays(Answer::W));
    };
    let held = holding_at(holdings, at);
    let rest = cut_holding(alloc, season, &held, line.period)?;
    let freed = loads.parts_of(alloc, line)?;
    let change = replace_change(alloc, holdings, at, &rest, freed)?;
    Ok(AskStep {
        answer: Answer::X,
        change: Some(change),
    })
}

/// Of the first offered match the line's dates are confirmed.
pub(crate) fn accept(
    alloc: Global,
    loads: &Loads,
    holdings: &[Holding],
    places: &Places,
    line: &Line,
) -> Result<AskStep, Memory>
    requires line { LineFits loads.now.declaration.season line.now }
    requires few { length holdings.now + 4 < 2 ^ 32 }
    requires kept { ArePlacesKept places.now holdings.now }
    ensures { IfOk result (λ step. let b = held_book loads.now holdings.now in
        IsAskStep b (accept_outcome b line.now) step) }
{
    movement_loads();
    cut_counts();
    let season = &loads.declaration().season;
    let Some(at) = first_match(season, State::Offered, line, holdings, places) else {
        return Ok(stays(Answer::W));
    };
    let held = holding_at(holdings, at);
    let mut rest = cut_holding(alloc, season, &held, line.period)?;
    rest.push(held_as(&in_period(&held, line.period).line, State::Confirmed))?;
    let change = replace_change(alloc, holdings, at, &rest, no_uses())?;
    Ok(AskStep {
        answer: Answer::K,
        change: Some(change),
    })
}

/// The request takes the place of the historic line's dates, where it fits.
pub(crate) fn exchange(
    alloc: Global,
    loads: &mut Loads,
    holdings: &[Holding],
    places: &Places,
    historic: &Line,
    request: &Line,
) -> Result<AskStep, Memory>
    requires historic { LineFits loads.old.declaration.season historic.now }
    requires request { LineFits loads.old.declaration.season request.now }
    requires few { length holdings.now + 4 < 2 ^ 32 }
    requires kept { ArePlacesKept places.now holdings.now }
    requires left { AreLeft (capacity_of loads.old.declaration)
        (held_movements loads.old.declaration.season holdings.now) loads.old.left }
    requires limits { (r : ℕ) →
        window_limit (capacity_of loads.old.declaration) r ≤ HIGHEST_NIGHT_LIMIT }
    ensures same { loads.new ≡ loads.old }
    ensures step { IfOk result (λ step. let b = held_book loads.old holdings.now in
        IsAskStep b (change_outcome b historic.now request.now) step) }
{
    movement_loads();
    cut_counts();
    let season = loads.declaration().season;
    let Some(at) = first_match(&season, State::Confirmed, historic, holdings, places) else {
        return Ok(stays(Answer::W));
    };
    let held = holding_at(holdings, at);
    let rest = cut_holding(alloc, &season, &held, historic.period)?;
    if clashes_after(&season, request, holdings, places, at, &rest) {
        return Ok(stays(Answer::W));
    }
    let freed = loads.parts_of(alloc, historic)?;
    let taken = loads.parts_of(alloc, request)?;
    if !loads.fits_instead(&freed, &taken) {
        return Ok(stays(Answer::Held));
    }
    let new = held_as(request, State::Confirmed);
    let change = swap_change(alloc, holdings, at, &rest, &new, (freed, taken))?;
    Ok(AskStep {
        answer: Answer::KChanged,
        change: Some(change),
    })
}

/// The line comes at the end, at the cheapest times that fit, if there are any.
pub(crate) fn place_new(
    alloc: Global,
    loads: &Loads,
    holdings: &[Holding],
    line: &Line,
    best: Option<Line>,
) -> Result<AskStep, Memory>
    requires line { LineFits loads.now.declaration.season line.now }
    requires best { best ≡ best_line (held_book loads.now holdings.now) line.now }
    requires few { length holdings.now + 4 < 2 ^ 32 }
    ensures { IfOk result (λ step. let b = held_book loads.now holdings.now in
        IsAskStep b (offer_outcome b line.now (best_times b line.now)) step) }
{
    shift_bounds();
    let Some(found) = best else {
        return Ok(stays(Answer::U));
    };
    if line_displacement(line, line_times(&found), loads.declaration()) == 0 {
        let new = held_as(line, State::Confirmed);
        return append_step(alloc, loads, holdings, &new, Answer::K);
    }
    let new = held_as(&found, State::Offered);
    append_step(alloc, loads, holdings, &new, Answer::Offer(found))
}

/// A line with its slots.
pub(crate) fn held_as(line: &Line, state: State) -> Holding
    ensures line { result.line ≡ line.now }
    ensures state { result.state ≡ state }
{
    Holding { line: *line, state }
}

// A holding comes at the end.
fn append_step(
    alloc: Global,
    loads: &Loads,
    holdings: &[Holding],
    new: &Holding,
    answer: Answer,
) -> Result<AskStep, Memory>
    requires line { LineFits loads.now.declaration.season new.now.line }
    requires few { length holdings.now + 4 < 2 ^ 32 }
    ensures { IfOk result (λ step. IsAskStep (held_book loads.now holdings.now) (record {
      answer = answer;
      holdings = holdings.now ++ new.now ∷ [];
    }) step) }
{
    let taken = loads.parts_of(alloc, &new.line)?;
    let change = append_change(alloc, holdings, new, taken)?;
    Ok(AskStep {
        answer,
        change: Some(change),
    })
}

/// The holdings that have a flight as arrival or departure.
pub(crate) fn list_flight(
    alloc: Global,
    holdings: &[Holding],
    places: &Places,
    flight: &Flight,
) -> Result<AskStep, Memory>
    requires kept { ArePlacesKept places.now holdings.now }
    ensures { IfOk result (λ step. (d : DeclarationValue) → let b = book_with d holdings.now in
        IsAskStep b (query_outcome b flight.now) step) }
{
    let found = holdings_of(alloc, holdings, places, flight)?;
    if found.is_empty() {
        return Ok(stays(Answer::W));
    }
    Ok(stays(Answer::Listed(HoldingList::new(found))))
}
