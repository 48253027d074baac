//! An alternative of a unit by its number.

ghost use Rattle.std.specs.Prelude.{◌≡◌, ◌<◌, ◌++◌, ◌∷◌, ◌==◌, ◌&&◌, [], map, List, ℕ, true, false, None, Some, IfSome, IsSomeAnd, slice_get};
ghost use Rattle.std.specs.List.{list_any, cons_option};
ghost use Rattle.std.specs.Option.{option_map};
ghost use Rattle.scr_reader.specs.Printed.{LineFits};
ghost use Rattle.series_model.specs.Units.{UnitFits, IsHistoric};
ghost use Rattle.series_model.specs.Options.{line_times, are_same, with_times, flexible_options, either_options, new_options, options_of, pairs_of};
ghost use Rattle.series_model.specs.Loops.{shifts_from, all_shifts, AreShifts, line_shifts, AreLineShifts, numbered};
ghost use Rattle.series_model.specs.declared.shifts.TheConstants.{MINUTE_BOUND};
ghost use Rattle.series_model.specs.declared.times.Times.{Times as TimesValue};
ghost use Rattle.series_model.specs.declared.times.Times.TheVariants.{Refused, At as at_times};

use crate::group::Group;
use crate::options::{
    are_same, arrival_minute, departure_minute, line_times, shifts_between, whole_shifts,
};
use crate::shifts::{LineShifts, Shifts};
use crate::times::Times;
use crate::unit::Unit;
use scr_reader::Line;
use season_days::Declaration;

/// The alternative of a unit with a number, counted from 0 as in the list of its alternatives; none
/// where there are not so many. One step for each shift of an arrival, and where the unit is of
/// group R one more for each shift of a movement; no list is made, and no memory taken.
pub fn times_at(unit: &Unit, number: u32, declaration: &Declaration) -> Option<Times>
    requires step { 0 < declaration.now.step }
    requires unit { UnitFits declaration.now.season unit.now }
    ensures { result ≡ slice_get (options_of declaration.now unit.now) number }
{
    match unit.group {
        Group::F => or_last(only_one(line_times(&unit.request), number), None),
        Group::R => flexible_at(&unit.request, unit.historic, number, declaration),
        Group::L => either_at(&unit.request, unit.historic, number),
        Group::B | Group::N => new_at(&unit.request, number, declaration),
    }
}

// Of all shifts, and then the refusal.
fn new_at(request: &Line, number: u32, declaration: &Declaration) -> Option<Times>
    requires step { 0 < declaration.now.step }
    requires request { LineFits declaration.now.season request.now }
    ensures { result ≡ slice_get (new_options declaration.now request.now) number }
{
    let shifts = whole_shifts(request, declaration);
    or_last(nth_of_line(shifts, number), refusal(declaration))
}

// The refusal, where it has a price.
fn refusal(declaration: &Declaration) -> Option<Times>
    ensures { result ≡ option_map (λ price. Refused) declaration.now.refuse }
{
    match declaration.refuse {
        Some(_) => Some(Times::Refused),
        None => None,
    }
}

// Of the shifts between the historic and the requested times, and then the historic ones.
fn flexible_at(
    request: &Line,
    historic: Option<Line>,
    number: u32,
    declaration: &Declaration,
) -> Option<Times>
    requires step { 0 < declaration.now.step }
    requires request { LineFits declaration.now.season request.now }
    requires historic { IsSomeAnd historic (IsHistoric declaration.now.season request.now) }
    ensures { result ≡ slice_get (flexible_options declaration.now request.now historic) number }
{
    let historic = historic?;
    let shifts = shifts_between(declaration, request, &historic);
    let arrival = arrival_minute(&historic);
    let departure = departure_minute(&historic);
    let there = has_times(shifts, arrival, departure);
    let times = Times::At { arrival, departure };
    or_last(nth_of_line(shifts, number), unless(there, times))
}

// The times, unless they are there.
fn unless(there: bool, times: Times) -> Option<Times>
    ensures yes { there ≡ true → result ≡ None }
    ensures no { there ≡ false → result ≡ Some times }
{
    if there { None } else { Some(times) }
}

// Of the requested times, and then the historic ones.
fn either_at(request: &Line, historic: Option<Line>, number: u32) -> Option<Times>
    ensures { result ≡ slice_get (either_options request.now historic) number }
{
    let requested = line_times(request);
    let last = historic_last(requested, historic);
    or_last(only_one(requested, number), last)
}

// The historic times, unless they are the requested ones.
fn historic_last(requested: Times, historic: Option<Line>) -> Option<Times>
    ensures none { historic ≡ None → result ≡ None }
    ensures some { IfSome historic (λ line. (requested ∷ []) ++ cons_option result []
        ≡ with_times (requested ∷ []) (line_times line)) }
{
    let historic = historic?;
    let times = line_times(&historic);
    unless(are_same(&times, &requested), times)
}

// The element with a number of a list of one, or by how much the number is past it.
fn only_one(times: Times, number: u32) -> Result<Times, u32>
    ensures { result ≡ numbered (times ∷ []) number }
{
    if number == 0 {
        Ok(times)
    } else {
        Err(number - 1)
    }
}

// The element with a number of a list, where one more may come last.
fn or_last(found: Result<Times, u32>, last: Option<Times>) -> Option<Times>
    ensures { (options : List TimesValue) (n : ℕ) → found ≡ numbered options n →
        result ≡ slice_get (options ++ cons_option last []) n }
{
    match found {
        Ok(times) => Some(times),
        Err(left) => last_if(last, left),
    }
}

// The one that may come last, where it is the next.
fn last_if(last: Option<Times>, left: u32) -> Option<Times>
    ensures { result ≡ slice_get (cons_option last []) left }
{
    if left == 0 { last } else { None }
}

// Of the shifts from a minute on the one with a number, or by how much the number is past them.
// They are a step apart, so none is counted.
fn nth_shift(shifts: &Shifts, from: u32, number: u32) -> Result<u32, u32>
    requires { AreShifts shifts.now }
    ensures { result ≡ numbered (shifts_from shifts.now from) number }
{
    let Some(first) = shifts.first_from(from) else {
        return Err(number);
    };
    let last = shifts.last();
    let more = (last - first) / shifts.step;
    if number <= more {
        Ok(first + number * shifts.step)
    } else {
        Err(number - 1 - more)
    }
}

// The same of pairs of shifts, one step for each arrival.
fn nth_pair(arrivals: &Shifts, departures: &Shifts, least: u32, number: u32) -> Result<Times, u32>
    requires arrivals { AreShifts arrivals.now }
    requires departures { AreShifts departures.now }
    requires least { least < MINUTE_BOUND }
    ensures { result ≡ numbered (pairs_of least (all_shifts arrivals.now)
        (all_shifts departures.now)) number }
{
    let mut from = arrivals.low;
    let mut left = number;
    while let Some(arrival) = arrivals.first_from(from) {
        let first = departures.low.max(arrival + least);
        match nth_shift(departures, first, left) {
            Ok(departure) => return Ok(Times::At { arrival, departure }),
            Err(more) => left = more,
        }
        from = arrival + 1;
    }
    Err(left)
}

// The same of the shifts of a line.
fn nth_of_line(shifts: LineShifts, number: u32) -> Result<Times, u32>
    requires { AreLineShifts shifts }
    ensures { result ≡ numbered (line_shifts shifts) number }
{
    match shifts {
        LineShifts::Arrivals(arrivals) => { at_arrival(nth_shift(&arrivals, arrivals.low, number)) }
        LineShifts::Departures(departures) => {
            at_departure(nth_shift(&departures, departures.low, number))
        }
        LineShifts::Pairs {
            arrivals,
            departures,
            least,
        } => nth_pair(&arrivals, &departures, least, number),
        LineShifts::Neither => Err(number),
    }
}

// The times of an arrival that was found.
fn at_arrival(found: Result<u32, u32>) -> Result<Times, u32>
    ensures { (minutes : List ℕ) (n : ℕ) → found ≡ numbered minutes n →
        result ≡ numbered (map (λ arrival. at_times arrival 0) minutes) n }
{
    match found {
        Ok(arrival) => Ok(Times::At {
            arrival,
            departure: 0,
        }),
        Err(left) => Err(left),
    }
}

// The times of a departure that was found.
fn at_departure(found: Result<u32, u32>) -> Result<Times, u32>
    ensures { (minutes : List ℕ) (n : ℕ) → found ≡ numbered minutes n →
        result ≡ numbered (map (λ departure. at_times 0 departure) minutes) n }
{
    match found {
        Ok(departure) => Ok(Times::At {
            arrival: 0,
            departure,
        }),
        Err(left) => Err(left),
    }
}

// Whether a minute is one of the shifts from a minute on.
fn is_among(shifts: &Shifts, from: u32, minute: u32) -> bool
    requires { AreShifts shifts.now }
    ensures { result ≡ list_any (λ other. minute == other) (shifts_from shifts.now from) }
{
    let mut from = from;
    while let Some(other) = shifts.first_from(from) {
        if minute == other {
            return true;
        }
        from = other + 1;
    }
    false
}

// Whether two minutes are the same, and another is one of the shifts from a minute on.
fn is_with(shifts: &Shifts, from: u32, one: u32, other: u32, minute: u32) -> bool
    requires { AreShifts shifts.now }
    ensures { result ≡ (one == other) && list_any (λ shift. minute == shift)
        (shifts_from shifts.now from) }
{
    if one == other {
        is_among(shifts, from, minute)
    } else {
        false
    }
}

// Whether a pair of minutes is one of the pairs of shifts.
fn has_pair(
    arrivals: &Shifts,
    departures: &Shifts,
    least: u32,
    arrival: u32,
    departure: u32,
) -> bool
    requires arrivals { AreShifts arrivals.now }
    requires departures { AreShifts departures.now }
    requires least { least < MINUTE_BOUND }
    ensures { result ≡ list_any (are_same (at_times arrival departure))
        (pairs_of least (all_shifts arrivals.now) (all_shifts departures.now)) }
{
    let mut from = arrivals.low;
    while let Some(other) = arrivals.first_from(from) {
        let first = departures.low.max(other + least);
        if is_with(departures, first, arrival, other, departure) {
            return true;
        }
        from = other + 1;
    }
    false
}

// Whether times are among the shifts of a line.
fn has_times(shifts: LineShifts, arrival: u32, departure: u32) -> bool
    requires { AreLineShifts shifts }
    ensures { result ≡ list_any (are_same (at_times arrival departure)) (line_shifts shifts) }
{
    match shifts {
        LineShifts::Arrivals(arrivals) => {
            is_with(&arrivals, arrivals.low, departure, 0, arrival)
        }
        LineShifts::Departures(departures) => {
            is_with(&departures, departures.low, arrival, 0, departure)
        }
        LineShifts::Pairs {
            arrivals,
            departures,
            least,
        } => has_pair(&arrivals, &departures, least, arrival, departure),
        LineShifts::Neither => false,
    }
}
