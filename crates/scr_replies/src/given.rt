//! The answers to units, by what they were given.

ghost use Rattle.std.specs.Prelude.{◌≡◌, ◌++◌, OnOk, IfSome, All, Some, IsSomeAnd};
ghost use Rattle.std.specs.List.{flat_map};
ghost use Rattle.scr_reader.specs.Printed.{LineFits};
ghost use Rattle.series_model.specs.Units.{UnitFits};
ghost use Rattle.series_model.specs.Options.{line_times, are_same};
ghost use Rattle.series_model.specs.TimedLines.{line_at, IsNear};
ghost use Rattle.scr_replies.specs.SeasonReplies.{moved_answer, slots_answer, given_answer, unit_answer, IsAnswerable};

use crate::answers::{put_confirmed, put_held, put_offer, put_refused};
use scr_reader::Line;
use season_days::Season;
use series_model::{Times, Unit, UnitState, are_same, line_at, line_times};
use slot_text::Memory;
use std::alloc::Global;

// Appends the answer to a request that was given other times.
fn put_moved(
    alloc: Global,
    out: &mut Vec<u8>,
    season: &Season,
    request: &Line,
    historic: Option<Line>,
    times: Times,
) -> Result<(), Memory>
    requires request { LineFits season.now request.now }
    requires historic { IfSome historic (LineFits season.now) }
    requires offered { LineFits season.now (line_at request.now times) }
    requires near { IsNear times }
    ensures { OnOk result (out.new.items
        ≡ out.old.items ++ moved_answer season.now request.now historic times) }
{
    match historic {
        Some(historic) => put_moved_pair(alloc, out, season, request, &historic, times),
        None => put_offer(alloc, out, season, request, &line_at(request, times)),
    }
}

// Appends the answer to the request of a pair that was given other times.
fn put_moved_pair(
    alloc: Global,
    out: &mut Vec<u8>,
    season: &Season,
    request: &Line,
    historic: &Line,
    times: Times,
) -> Result<(), Memory>
    requires request { LineFits season.now request.now }
    requires historic { LineFits season.now historic.now }
    requires offered { LineFits season.now (line_at request.now times) }
    requires near { IsNear times }
    ensures { OnOk result (out.new.items
        ≡ out.old.items ++ moved_answer season.now request.now (Some historic.now) times) }
{
    if are_same(&times, &line_times(historic)) {
        put_held(alloc, out, season, request, historic)
    } else {
        put_offer(alloc, out, season, request, &line_at(request, times))
    }
}

// Appends the answer to a unit that was given slots.
fn put_slots(
    alloc: Global,
    out: &mut Vec<u8>,
    season: &Season,
    unit: &Unit,
    times: Times,
) -> Result<(), Memory>
    requires unit { UnitFits season.now unit.now }
    requires given { LineFits season.now (line_at unit.now.request times) }
    requires near { IsNear times }
    ensures { OnOk result
        (out.new.items ≡ out.old.items ++ slots_answer season.now unit.now times) }
{
    if are_same(&times, &line_times(&unit.request)) {
        put_confirmed(alloc, out, season, &unit.request)
    } else {
        put_moved(alloc, out, season, &unit.request, unit.historic, times)
    }
}

// Appends the answer to a unit.
fn put_unit(
    alloc: Global,
    out: &mut Vec<u8>,
    season: &Season,
    state: &UnitState,
) -> Result<(), Memory>
    requires { IsAnswerable season.now state.now }
    ensures { OnOk result
        (out.new.items ≡ out.old.items ++ unit_answer season.now state.now) }
{
    match state.given {
        Some(times) => put_given(alloc, out, season, &state.unit, times),
        None => put_refused(alloc, out, season, &state.unit.request),
    }
}

// Appends the answer to a unit that a stage allotted.
fn put_given(
    alloc: Global,
    out: &mut Vec<u8>,
    season: &Season,
    unit: &Unit,
    times: Times,
) -> Result<(), Memory>
    requires unit { UnitFits season.now unit.now }
    requires given { LineFits season.now (line_at unit.now.request times) }
    requires near { IsNear times }
    ensures { OnOk result
        (out.new.items ≡ out.old.items ++ given_answer season.now unit.now (Some times)) }
{
    match times {
        Times::Refused => put_refused(alloc, out, season, &unit.request),
        Times::At { .. } => put_slots(alloc, out, season, unit, times),
    }
}

/// Appends the answers to units, in their order.
pub(crate) fn put_units(
    alloc: Global,
    out: &mut Vec<u8>,
    season: &Season,
    states: &[UnitState],
) -> Result<(), Memory>
    requires { All (IsAnswerable season.now) states.now }
    ensures { OnOk result
        (out.new.items ≡ out.old.items ++ flat_map (unit_answer season.now) states.now) }
{
    for state in states {
        put_unit(alloc, out, season, state)?;
    }
    Ok(())
}
