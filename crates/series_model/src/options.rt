//! The alternatives of a unit.

ghost use Rattle.std.specs.Prelude.{◌≡◌, ◌+◌, ◌*◌, ◌<◌, ◌++◌, ◌∷◌, [], filter, IfOk, OnOk, IsSomeAnd};
ghost use Rattle.std.specs.List.{list_any};
ghost use Rattle.scr_reader.specs.Printed.{LineFits};
ghost use Rattle.series_model.specs.Units.{UnitFits, IsHistoric};
ghost use Rattle.series_model.specs.Loops.{line_shifts, AreLineShifts};
ghost use Rattle.series_model.specs.Options.{relative_minute, line_times, shifts_of, lies_between, are_same, with_times, with_refused, flexible_options, either_options, new_options, options_of};

use crate::group::Group;
use crate::shifts::{LineShifts, Span, minute_after, push_line};
use crate::times::Times;
use crate::unit::Unit;
use scr_reader::{Line, Stop};
use season_days::Declaration;
use slot_text::Memory;
use std::alloc::Global;

/// The alternatives of a unit, in their order, which numbers them from 0.
///
/// A unit of group F has the requested times. One of N or B has all shifts, and last the refusal,
/// where that has a price. One of R has the shifts whose movements lie between the historic and the
/// requested ones, and then the historic times, unless they are there; one of L has the requested
/// times, and then the historic ones, unless they are the same.
///
/// A shift moves a movement by a multiple of the step, at most the flexibility, on its own date.
/// Single movements rise; of a turnaround the arrivals rise, and of one arrival the departures,
/// where the ground time is at least the declared one, or the requested one where that is less. One
/// step for each alternative and for each shift of an arrival; the one fault is want of memory.
pub fn options_of(
    alloc: Global,
    unit: &Unit,
    declaration: &Declaration,
) -> Result<Vec<Times>, Memory>
    requires step { 0 < declaration.now.step }
    requires unit { UnitFits declaration.now.season unit.now }
    ensures { IfOk result (λ options. options.items ≡ options_of declaration.now unit.now) }
{
    let mut options = Vec::new(alloc);
    match unit.group {
        Group::F => options.push(line_times(&unit.request))?,
        Group::R => push_flexible(&mut options, declaration, &unit.request, unit.historic)?,
        Group::L => push_either(&mut options, &unit.request, unit.historic)?,
        Group::B | Group::N => return new_options(alloc, &unit.request, declaration),
    }
    Ok(options)
}

/// All shifts of a line that asks for times, in their order, without a refusal. One step for each
/// and for each shift of an arrival; the one fault is want of memory.
pub fn shifts_of(
    alloc: Global,
    line: &Line,
    declaration: &Declaration,
) -> Result<Vec<Times>, Memory>
    requires step { 0 < declaration.now.step }
    requires line { LineFits declaration.now.season line.now }
    ensures { IfOk result (λ shifts. shifts.items ≡ shifts_of declaration.now line.now) }
{
    let mut shifts = Vec::new(alloc);
    push_line(&mut shifts, &whole_shifts(line, declaration))?;
    Ok(shifts)
}

// All shifts of a line.
pub(crate) fn whole_shifts(line: &Line, declaration: &Declaration) -> LineShifts
    requires step { 0 < declaration.now.step }
    requires line { LineFits declaration.now.season line.now }
    ensures shifts { line_shifts result ≡ shifts_of declaration.now line.now }
    ensures valid { AreLineShifts result }
{
    let coming_in = Span::of_date(0);
    let going_in = Span::of_date(line.nights);
    LineShifts::of(declaration, line, coming_in, going_in)
}

// The shifts of a line between the historic and the requested times.
pub(crate) fn shifts_between(
    declaration: &Declaration,
    request: &Line,
    historic: &Line,
) -> LineShifts
    requires step { 0 < declaration.now.step }
    requires request { LineFits declaration.now.season request.now }
    requires historic { IsHistoric declaration.now.season request.now historic.now }
    ensures shifts { line_shifts result
        ≡ filter (lies_between historic.now request.now) (shifts_of declaration.now request.now) }
    ensures valid { AreLineShifts result }
{
    let coming_in = Span::of_date(0).between(arrival_minute(historic), arrival_minute(request));
    let going_in = Span::of_date(request.nights).between(
        departure_minute(historic),
        departure_minute(request),
    );
    LineShifts::of(declaration, request, coming_in, going_in)
}

// All shifts, and then the refusal.
fn new_options(
    alloc: Global,
    request: &Line,
    declaration: &Declaration,
) -> Result<Vec<Times>, Memory>
    requires step { 0 < declaration.now.step }
    requires request { LineFits declaration.now.season request.now }
    ensures { IfOk result (λ options. options.items ≡ new_options declaration.now request.now) }
{
    let mut options = shifts_of(alloc, request, declaration)?;
    let refusable = declaration.refuse.is_some();
    if !refusable {
        return Ok(options);
    }
    options.push(Times::Refused)?;
    Ok(options)
}

// The shifts between the historic and the requested times, and then the historic ones.
fn push_flexible(
    options: &mut Vec<Times>,
    declaration: &Declaration,
    request: &Line,
    historic: Option<Line>,
) -> Result<(), Memory>
    requires step { 0 < declaration.now.step }
    requires request { LineFits declaration.now.season request.now }
    requires historic { IsSomeAnd historic (IsHistoric declaration.now.season request.now) }
    requires empty { options.old.items ≡ [] }
    ensures { OnOk result
        (options.new.items ≡ flexible_options declaration.now request.now historic) }
{
    let Some(historic) = historic else {
        return Ok(());
    };
    push_line(options, &shifts_between(declaration, request, &historic))?;
    push_missing(options, line_times(&historic))
}

// The requested times, and then the historic ones.
fn push_either(
    options: &mut Vec<Times>,
    request: &Line,
    historic: Option<Line>,
) -> Result<(), Memory>
    requires empty { options.old.items ≡ [] }
    ensures { OnOk result (options.new.items ≡ either_options request.now historic) }
{
    options.push(line_times(request))?;
    match historic {
        Some(historic) => push_missing(options, line_times(&historic)),
        None => Ok(()),
    }
}

// Appends times, unless they are there.
fn push_missing(options: &mut Vec<Times>, times: Times) -> Result<(), Memory>
    ensures { OnOk result (options.new.items ≡ with_times options.old.items times) }
{
    if !has_times(options, times) {
        options.push(times)?;
    }
    Ok(())
}

// Whether the times are among these.
fn has_times(options: &[Times], times: Times) -> bool
    ensures { result ≡ list_any (are_same times) options.now }
{
    options.iter().any(|option| are_same(&times, option))
}

/// Whether these are the same times.
pub fn are_same(one: &Times, other: &Times) -> bool
    ensures { result ≡ are_same one.now other.now }
{
    match (one, other) {
        (Times::Refused, Times::Refused) => true,
        (
            Times::At { arrival, departure },
            Times::At {
                arrival: other,
                departure: later,
            },
        ) => arrival == other && departure == later,
        _ => false,
    }
}

/// The times that a line names, in minutes from the beginning of its date.
pub fn line_times(line: &Line) -> Times
    ensures { result ≡ line_times line.now }
{
    Times::At {
        arrival: arrival_minute(line),
        departure: departure_minute(line),
    }
}

pub(crate) fn arrival_minute(line: &Line) -> u32
    ensures { result ≡ relative_minute 0 line.now.arrival }
{
    relative_minute(0, line.arrival)
}

pub(crate) fn departure_minute(line: &Line) -> u32
    ensures { result ≡ relative_minute line.now.nights line.now.departure }
{
    relative_minute(line.nights, line.departure)
}

// The minutes from the beginning of a line's date to a movement some nights later; 0 where there is
// no such movement.
fn relative_minute(nights: u8, stop: Option<Stop>) -> u32
    ensures { result ≡ relative_minute nights stop }
{
    match stop {
        Some(stop) => minute_after(nights, stop.minute),
        None => 0,
    }
}
