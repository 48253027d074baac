//! The holdings that clash with a line, that match it, or that have a flight: all are looked for
//! among those at the places of a flight.

ghost use Rattle.std.specs.Prelude.{◌≡◌, ◌<◌, ◌≤◌, ◌^◌, ◌&&◌, ◌||◌, not, [], All, length, filter, slice_get, Some, None, IfSome, IfOk};
ghost use Rattle.std.specs.List.{list_any, flat_map};
ghost use Rattle.scr_reader.specs.Printed.{LineFits};
ghost use Rattle.holding_book.specs.Lines.{matches, has_flight};
ghost use Rattle.holding_book.specs.Books.{clashes_with, places_of};
ghost use Rattle.holding_book.specs.Private.Kept.{ArePlacesKept};
ghost use Rattle.holding_book.specs.Private.Steps.{first_place, replaced_at};
ghost use Rattle.scr_reader.specs.Printed.{StopsFit};
ghost use Rattle.holding_book.specs.Private.Found.{passes_at, is_place, clash_but, stop_places, first_of, held_at, HasEachMatch};

use crate::holding::{Holding, State};
use crate::lines::{clashes, matches};
use crate::places::Places;
use scr_reader::{Flight, Line, Stop};
use season_days::Season;
use slot_text::Memory;
use std::alloc::Global;

/// Whether a line clashes with one of the holdings.
pub(crate) fn clashes_with(season: &Season, line: &Line, holdings: &[Holding]) -> bool
    ensures { result ≡ clashes_with season.now line.now holdings.now }
{
    for holding in holdings {
        if clashes(season, line, &holding.line) {
            return true;
        }
    }
    false
}

/// The holding at a place.
pub(crate) fn holding_at(holdings: &[Holding], at: u32) -> Holding
    requires { at < length holdings.now }
    ensures { slice_get holdings.now at ≡ Some result }
{
    holdings[at as usize]
}

// Whether a line clashes with the holding at a place, which is not the one that is left out.
fn clashes_but(
    season: &Season,
    line: &Line,
    but: Option<u32>,
    place: u32,
    holding: &Holding,
) -> bool
    ensures { result ≡ clash_but season.now line.now but place holding.now }
{
    !is_place(but, place) && clashes(season, line, &holding.line)
}

// Whether a place is the one that is left out, if there is one.
fn is_place(but: Option<u32>, place: u32) -> bool
    ensures { result ≡ is_place but place }
{
    match but {
        Some(but) => but == place,
        None => false,
    }
}

// Whether a line clashes with a holding at one of the places, that at one of them left out.
fn clashes_among(
    season: &Season,
    line: &Line,
    holdings: &[Holding],
    places: &[u32],
    but: Option<u32>,
) -> bool
    requires { All (λ n. n < length holdings.now) places.now }
    ensures { result
        ≡ list_any (passes_at (clash_but season.now line.now but) holdings.now) places.now }
{
    for n in 0..places.len() {
        let held = holding_at(holdings, places[n]);
        if clashes_but(season, line, but, places[n], &held) {
            return true;
        }
    }
    false
}

// The same at the places of the flight of a stop, if there is one.
fn clashes_at(
    season: &Season,
    line: &Line,
    holdings: &[Holding],
    places: &Places,
    stop: Option<Stop>,
    but: Option<u32>,
) -> bool
    requires kept { ArePlacesKept places.now holdings.now }
    ensures { result ≡ list_any (passes_at (clash_but season.now line.now but) holdings.now)
        (stop_places stop holdings.now) }
{
    match stop {
        Some(stop) => {
            let of_flight = places.of_flight(&stop.flight);
            clashes_among(season, line, holdings, of_flight, but)
        }
        None => false,
    }
}

/// Whether a line clashes with one of the holdings.
pub(crate) fn clashes_with_held(
    season: &Season,
    line: &Line,
    holdings: &[Holding],
    places: &Places,
) -> bool
    requires kept { ArePlacesKept places.now holdings.now }
    ensures { result ≡ clashes_with season.now line.now holdings.now }
{
    if clashes_at(season, line, holdings, places, line.arrival, None) {
        return true;
    }
    clashes_at(season, line, holdings, places, line.departure, None)
}

/// Whether a line clashes with one of the holdings, of which the one at a place is replaced by
/// others.
pub(crate) fn clashes_after(
    season: &Season,
    line: &Line,
    holdings: &[Holding],
    places: &Places,
    at: u32,
    others: &[Holding],
) -> bool
    requires at { at < length holdings.now }
    requires kept { ArePlacesKept places.now holdings.now }
    ensures { result ≡ clashes_with season.now line.now
        (replaced_at at others.now holdings.now) }
{
    if clashes_with(season, line, others) {
        return true;
    }
    if clashes_at(season, line, holdings, places, line.arrival, Some(at)) {
        return true;
    }
    clashes_at(season, line, holdings, places, line.departure, Some(at))
}

/// The first of some places at which a holding in a state matches a line.
fn first_among(
    season: &Season,
    state: State,
    line: &Line,
    holdings: &[Holding],
    places: &[u32],
) -> Option<u32>
    requires { All (λ n. n < length holdings.now) places.now }
    ensures { result ≡ first_of (passes_at (λ _ holding.
        matches season.now state line.now holding) holdings.now) places.now }
{
    for n in 0..places.len() {
        let held = holding_at(holdings, places[n]);
        if matches(season, state, line, &held) {
            return Some(places[n]);
        }
    }
    None
}

/// The place of the first holding in a state that matches a line.
pub(crate) fn first_match(
    season: &Season,
    state: State,
    line: &Line,
    holdings: &[Holding],
    places: &Places,
) -> Option<u32>
    requires line { LineFits season.now line.now }
    requires kept { ArePlacesKept places.now holdings.now }
    ensures place { result ≡ first_place (matches season.now state line.now) holdings.now }
    ensures there { IfSome result (λ n. n < length holdings.now) }
{
    let flight = flight_of(line);
    let of_flight = places.of_flight(&flight);
    first_among(season, state, line, holdings, of_flight)
}

// A flight of a line: that of its arrival, or else that of its departure.
fn flight_of(line: &Line) -> Flight
    requires { StopsFit line.now line.now.arrival line.now.departure }
    ensures { HasEachMatch line.now result }
{
    match line.arrival {
        Some(coming) => coming.flight,
        None => departing_flight(line),
    }
}

// The flight of a line that is a departure alone.
fn departing_flight(line: &Line) -> Flight
    requires stops { StopsFit line.now line.now.arrival line.now.departure }
    requires alone { line.now.arrival ≡ None }
    ensures { HasEachMatch line.now result }
{
    match line.departure {
        Some(going) => going.flight,
        None => unreachable!(),
    }
}

/// The holdings that have a flight as arrival or departure.
pub(crate) fn holdings_of(
    alloc: Global,
    holdings: &[Holding],
    places: &Places,
    flight: &Flight,
) -> Result<Vec<Holding>, Memory>
    requires kept { ArePlacesKept places.now holdings.now }
    ensures { IfOk result (λ found. found.items
        ≡ filter (λ holding. has_flight flight.now holding.line) holdings.now) }
{
    let of_flight = places.of_flight(flight);
    let found = held_among(alloc, holdings, of_flight)?;
    Ok(found)
}

// The holdings at some places.
fn held_among(alloc: Global, holdings: &[Holding], places: &[u32]) -> Result<Vec<Holding>, Memory>
    requires { All (λ n. n < length holdings.now) places.now }
    ensures { IfOk result (λ found. found.items
        ≡ flat_map (held_at holdings.now) places.now) }
{
    let mut found = Vec::with_capacity(alloc, places.len())?;
    for n in 0..places.len() {
        let held = holding_at(holdings, places[n]);
        found.push(held)?;
    }
    Ok(found)
}
