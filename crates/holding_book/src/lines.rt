//! Lines beside one another: which clash, and which holdings match a line.

ghost use Rattle.std.specs.Prelude.{◌≡◌};
ghost use Rattle.holding_book.specs.Lines.{is_flight, has_stop_flight, has_flight, shares_flight, clashes, is_same_stop, is_state, matches};

use crate::holding::{Holding, State};
use scr_reader::{Flight, Line, Stop};
use season_days::Season;

// Whether two flights are the same.
fn is_flight(one: &Flight, other: &Flight) -> bool
    ensures { result ≡ is_flight one.now other.now }
{
    one == other
}

/// Whether a movement is of the flight.
pub(crate) fn has_stop_flight(flight: &Flight, stop: &Option<Stop>) -> bool
    ensures { result ≡ has_stop_flight flight.now stop.now }
{
    match stop {
        Some(stop) => is_flight(flight, &stop.flight),
        None => false,
    }
}

/// Whether a line has the flight as its arrival or as its departure.
pub(crate) fn has_flight(flight: &Flight, line: &Line) -> bool
    ensures { result ≡ has_flight flight.now line.now }
{
    has_stop_flight(flight, &line.arrival) || has_stop_flight(flight, &line.departure)
}

// Whether both lines have the movement, of one flight.
fn shares_flight(one: &Option<Stop>, other: &Option<Stop>) -> bool
    ensures { result ≡ shares_flight one.now other.now }
{
    match one {
        Some(stop) => has_stop_flight(&stop.flight, other),
        None => false,
    }
}

/// Whether two lines have a common date, and the same arrival flight or the same departure flight.
pub fn clashes(season: &Season, one: &Line, other: &Line) -> bool
    ensures { result ≡ clashes season.now one.now other.now }
{
    (shares_flight(&one.arrival, &other.arrival) || shares_flight(&one.departure, &other.departure))
        && season.share_date(one.period, other.period)
}

// Whether neither line has the movement, or both have it, of one flight and at one minute.
fn is_same_stop(one: &Option<Stop>, other: &Option<Stop>) -> bool
    ensures { result ≡ is_same_stop one.now other.now }
{
    match (one, other) {
        (None, None) => true,
        (Some(stop), Some(other)) => {
            is_flight(&stop.flight, &other.flight) && stop.minute == other.minute
        }
        _ => false,
    }
}

// Whether two states are the same.
fn is_state(one: State, other: State) -> bool
    ensures { result ≡ is_state one other }
{
    matches!(
        (one, other),
        (State::Confirmed, State::Confirmed) | (State::Offered, State::Offered)
    )
}

/// Whether a holding in a state has the line's flights, times and nights, and all its dates.
pub(crate) fn matches(season: &Season, state: State, line: &Line, holding: &Holding) -> bool
    ensures { result ≡ matches season.now state line.now holding.now }
{
    is_state(state, holding.state)
        && is_same_stop(&line.arrival, &holding.line.arrival)
        && is_same_stop(&line.departure, &holding.line.departure)
        && line.nights == holding.line.nights
        && season.has_all_dates(holding.line.period, line.period)
}
