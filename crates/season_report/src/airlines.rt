//! The airlines of units, each with its tally.

ghost use Rattle.std.specs.Prelude.{◌≡◌, ◌++◌, ◌<◌, ◌≤◌, [], length, slice_index_or, filter, All, IfOk, OnOk, IfSome, slice_get, take, true, false};
ghost use Rattle.choice_problem.specs.declared.problems.TheConstants.{MOST_UNITS};
ghost use Rattle.scr_reader.specs.Parts.{airline_text};
ghost use Rattle.series_model.specs.Submissions.{are_letters};
ghost use Rattle.season_report.specs.Tallies.{airline_of, is_of_airline, comes_before, with_airline, airlines_of, airline_line};
ghost use Rattle.season_report.specs.Reports.{airlines_text};
ghost use Rattle.season_report.specs.Private.{IsTold};

use crate::decided::Decided;
use crate::tallies::{put_tally, tally_of};
use report_lines::put;
use season_days::Declaration;
use slot_text::Memory;
use std::alloc::Global;

// An airline as a flight has it: its third byte is 0 where it has two letters.
type Airline = [u8; 3];

// The airline of a unit.
fn airline_of(unit: &Decided) -> Airline
    ensures { result ≡ airline_of unit.now }
{
    match (unit.unit.request.arrival, unit.unit.request.departure) {
        (Some(coming), _) => coming.flight.airline,
        (None, Some(going)) => going.flight.airline,
        (None, None) => [0, 0, 0],
    }
}

// Whether an airline comes before another, in the order of bytes.
fn comes_before(one: Airline, other: Airline) -> bool
    ensures { result ≡ comes_before one other }
{
    let [a, b, c] = one;
    let [d, e, f] = other;
    if a != d {
        return a < d;
    }
    if b != e {
        return b < e;
    }
    c < f
}

// Whether two airlines are the same.
fn are_same(one: Airline, other: Airline) -> bool
    ensures { result ≡ are_letters one other }
{
    let [a, b, c] = one;
    let [d, e, f] = other;
    a == d && b == e && c == f
}

// The place of an airline among others in the order of bytes: that of the first that does not come
// before it.
fn place_of(airlines: &[Airline], airline: Airline) -> usize
    ensures few { result ≤ length airlines.now }
    ensures before { All (λ other. comes_before other airline ≡ true) (take result airlines.now) }
    ensures next { IfSome (slice_get airlines.now result)
        (λ other. comes_before other airline ≡ false) }
{
    for i in 0..airlines.len() {
        if !comes_before(airlines[i], airline) {
            return i;
        }
    }
    airlines.len()
}

// Whether an airline is the one at a place.
fn is_there(airlines: &[Airline], at: usize, airline: Airline) -> bool
    ensures within { result ≡ true → at < length airlines.now }
    ensures same { result ≡ true → are_letters airline (slice_index_or airlines.now at []) ≡ true }
    ensures apart { result ≡ false → at < length airlines.now →
        are_letters airline (slice_index_or airlines.now at []) ≡ false }
{
    if at >= airlines.len() {
        return false;
    }
    are_same(airline, airlines[at])
}

// Puts an airline into its place among others, unless it is there.
fn add_airline(airlines: &mut Vec<Airline>, airline: Airline) -> Result<(), Memory>
    ensures { OnOk result (airlines.new.items ≡ with_airline airlines.old.items airline) }
{
    let at = place_of(airlines, airline);
    if is_there(airlines, at, airline) {
        return Ok(());
    }
    airlines.insert(at, airline)?;
    Ok(())
}

// The airlines of units, in the order of bytes: one step for each unit and airline.
fn airlines_of(alloc: Global, units: &[Decided]) -> Result<Vec<Airline>, Memory>
    ensures { IfOk result (λ airlines. airlines.items ≡ airlines_of units.now) }
{
    let mut airlines = Vec::new(alloc);
    for unit in units {
        add_airline(&mut airlines, airline_of(unit))?;
    }
    Ok(airlines)
}

// The units of an airline.
fn of_airline(alloc: Global, units: &[Decided], airline: Airline) -> Result<Vec<Decided>, Memory>
    ensures found { IfOk result
        (λ found. found.items ≡ filter (is_of_airline airline) units.now) }
    ensures few { IfOk result (λ found. length found.items ≤ length units.now) }
{
    let mut found = Vec::new(alloc);
    for unit in units {
        if are_same(airline, airline_of(unit)) {
            found.push(*unit)?;
        }
    }
    Ok(found)
}

// Appends the letters of an airline.
fn put_letters(out: &mut Vec<u8>, airline: Airline) -> Result<(), Memory>
    ensures { OnOk result (out.new.items ≡ out.old.items ++ airline_text airline) }
{
    let [a, b, c] = airline;
    if c == 0 {
        put(out, &[a, b])
    } else {
        put(out, &[a, b, c])
    }
}

// Appends an airline and the tally of its units.
fn put_airline(
    alloc: Global,
    out: &mut Vec<u8>,
    declaration: &Declaration,
    units: &[Decided],
    airline: Airline,
) -> Result<(), Memory>
    requires told { All (IsTold declaration.now) units.now }
    requires few { length units.now ≤ MOST_UNITS }
    ensures { OnOk result
        (out.new.items ≡ out.old.items ++ airline_line declaration.now units.now airline) }
{
    let own = of_airline(alloc, units, airline)?;
    put(out, b"AIRLINE ")?;
    put_letters(out, airline)?;
    put(out, b" ")?;
    put_tally(alloc, out, &tally_of(declaration, &own))?;
    put(out, b"\n")
}

/// Appends the airlines of units, each with its tally: one step for each unit and airline.
pub(crate) fn put_airlines(
    alloc: Global,
    out: &mut Vec<u8>,
    declaration: &Declaration,
    units: &[Decided],
) -> Result<(), Memory>
    requires told { All (IsTold declaration.now) units.now }
    requires few { length units.now ≤ MOST_UNITS }
    ensures { OnOk result
        (out.new.items ≡ out.old.items ++ airlines_text declaration.now units.now) }
{
    let airlines = airlines_of(alloc, units)?;
    for airline in &airlines {
        put_airline(alloc, out, declaration, units, *airline)?;
    }
    Ok(())
}
