//! The lines of units.

ghost use Rattle.std.specs.Prelude.{◌≡◌, ◌++◌, OnOk, length, All, IfSome, ◌<◌, ◌^◌};
ghost use Rattle.series_model.specs.Displacement.{stop_change};
ghost use Rattle.scr_reader.specs.Printed.{LineFits};
ghost use Rattle.series_model.specs.Units.{UnitFits};
ghost use Rattle.series_model.specs.TimedLines.{line_at, IsNear};
ghost use Rattle.season_report.specs.Reports.{decision_word, shift_word, unit_cost_word, decided_line, held_line, asked_line, slots_line, given_line, unit_text, units_text, historic_line};
ghost use Rattle.season_report.specs.Private.{IsTold, decided_words, moved_words, texts_of};

use crate::decided::{Decided, Decision};
use report_lines::{put, put_quoted, put_tagged};
use scr_reader::{Code, Line, Stop};
use season_days::{Declaration, MINUTES_OF_DAY, Season};
use series_model::{Times, Unit, displacement, line_at};
use slot_text::{Memory, put_number};
use std::alloc::Global;

// The word of what was decided.
fn decision_word(decision: Decision) -> &'static [u8]
    ensures { result.now ≡ decision_word decision }
{
    match decision {
        Decision::Unallotted => b"NONE",
        Decision::Refused => b"REFUSED",
        Decision::Kept => b"KEPT",
        Decision::Historic => b"HISTORIC",
        Decision::Moved => b"MOVED",
    }
}

// By how many minutes a movement is moved, where the line has it.
fn stop_change(nights: u8, stop: Option<Stop>, minute: u32) -> u64
    ensures value { result ≡ stop_change nights stop minute }
    ensures small { result < 2 ^ 32 }
{
    match stop {
        Some(stop) => {
            let asked = MINUTES_OF_DAY * u32::from(nights) + u32::from(stop.minute);
            u64::from(minute.abs_diff(asked))
        }
        None => 0,
    }
}

// Appends by how many minutes the movements of a date are moved, or a hyphen without slots.
fn put_shift(
    alloc: Global,
    out: &mut Vec<u8>,
    line: &Line,
    given: Option<Times>,
) -> Result<(), Memory>
    ensures { OnOk result (out.new.items ≡ out.old.items ++ shift_word line.now given) }
{
    match given {
        Some(Times::At { arrival, departure }) => {
            let coming = stop_change(0, line.arrival, arrival);
            let going = stop_change(line.nights, line.departure, departure);
            put_number(alloc, out, coming + going)
        }
        Some(Times::Refused) | None => put(out, b"-"),
    }
}

// Appends what a unit costs, or a hyphen without an allotment.
fn put_cost(
    alloc: Global,
    out: &mut Vec<u8>,
    declaration: &Declaration,
    unit: &Unit,
    given: Option<Times>,
) -> Result<(), Memory>
    requires { UnitFits declaration.now.season unit.now }
    ensures { OnOk result
        (out.new.items ≡ out.old.items ++ unit_cost_word declaration.now unit.now given) }
{
    match given {
        Some(times) => put_number(alloc, out, displacement(unit, times, declaration)),
        None => put(out, b"-"),
    }
}

// Appends the number of a unit, the last of its stages, and what that decided.
fn put_decided(alloc: Global, out: &mut Vec<u8>, unit: &Decided) -> Result<(), Memory>
    ensures { OnOk result (out.new.items ≡ out.old.items ++ decided_words unit.now) }
{
    put_tagged(alloc, out, b"UNIT ", u64::from(unit.unit.line))?;
    put_tagged(alloc, out, b" STAGE ", u64::from(unit.stage))?;
    put(out, b" ")?;
    put(out, decision_word(unit.decision()))
}

// Appends the dates of a unit, by how much it was moved, and what it costs.
fn put_moved(
    alloc: Global,
    out: &mut Vec<u8>,
    declaration: &Declaration,
    unit: &Decided,
) -> Result<(), Memory>
    requires { UnitFits declaration.now.season unit.now.unit }
    ensures { OnOk result (out.new.items ≡ out.old.items ++ moved_words declaration.now unit.now) }
{
    let line = &unit.unit.request;
    let dates = declaration.season.count_dates(line.period);
    put_tagged(alloc, out, b" DATES ", u64::from(dates))?;
    put(out, b" SHIFT ")?;
    put_shift(alloc, out, line, unit.given)?;
    put(out, b" COST ")?;
    put_cost(alloc, out, declaration, &unit.unit, unit.given)
}

// Appends the first line of a unit.
fn put_decided_line(
    alloc: Global,
    out: &mut Vec<u8>,
    declaration: &Declaration,
    unit: &Decided,
) -> Result<(), Memory>
    requires { UnitFits declaration.now.season unit.now.unit }
    ensures { OnOk result (out.new.items ≡ out.old.items ++ decided_line declaration.now unit.now) }
{
    put_decided(alloc, out, unit)?;
    put_moved(alloc, out, declaration, unit)?;
    put(out, b"\n")
}

// Appends the historic line of a pair.
fn put_held(
    alloc: Global,
    out: &mut Vec<u8>,
    season: &Season,
    historic: Option<Line>,
) -> Result<(), Memory>
    requires { IfSome historic (LineFits season.now) }
    ensures { OnOk result (out.new.items ≡ out.old.items ++ held_line season.now historic) }
{
    match historic {
        Some(historic) => put_quoted(alloc, out, season, b"HELD ", Code::C, &historic),
        None => Ok(()),
    }
}

// Appends the line of a reply that gives the historic times of a pair.
fn put_historic(
    alloc: Global,
    out: &mut Vec<u8>,
    season: &Season,
    historic: Option<Line>,
) -> Result<(), Memory>
    requires { IfSome historic (LineFits season.now) }
    ensures { OnOk result (out.new.items ≡ out.old.items ++ historic_line season.now historic) }
{
    match historic {
        Some(historic) => put_quoted(alloc, out, season, b"GIVEN ", Code::H, &historic),
        None => Ok(()),
    }
}

// Appends the line of a reply that gives slots.
fn put_slots(
    alloc: Global,
    out: &mut Vec<u8>,
    season: &Season,
    unit: &Unit,
    times: Times,
    decision: Decision,
) -> Result<(), Memory>
    requires unit { UnitFits season.now unit.now }
    requires offered { LineFits season.now (line_at unit.now.request times) }
    requires near { IsNear times }
    ensures { OnOk result
        (out.new.items ≡ out.old.items ++ slots_line season.now unit.now times decision) }
{
    match decision {
        Decision::Kept => put_quoted(alloc, out, season, b"GIVEN ", Code::K, &unit.request),
        Decision::Historic => put_historic(alloc, out, season, unit.historic),
        Decision::Moved => {
            let offered = line_at(&unit.request, times);
            put_quoted(alloc, out, season, b"GIVEN ", Code::O, &offered)
        }
        Decision::Refused | Decision::Unallotted => Ok(()),
    }
}

// Appends the lines of what a unit asked for and was given.
fn put_asked(
    alloc: Global,
    out: &mut Vec<u8>,
    season: &Season,
    unit: &Decided,
) -> Result<(), Memory>
    requires unit { UnitFits season.now unit.now.unit }
    requires given { IfSome unit.now.given
        (λ times. LineFits season.now (line_at unit.now.unit.request times) × IsNear times) }
    ensures { OnOk result (out.new.items ≡ out.old.items
        ++ (held_line season.now unit.now.unit.historic
        ++ (asked_line season.now unit.now.unit.request
        ++ given_line season.now unit.now unit.now.given))) }
{
    let request = &unit.unit.request;
    put_held(alloc, out, season, unit.unit.historic)?;
    put_quoted(alloc, out, season, b"ASKED ", request.code, request)?;
    match unit.given {
        Some(times) => put_slots(alloc, out, season, &unit.unit, times, unit.decision()),
        None => Ok(()),
    }
}

// Appends a unit with its reasons.
fn put_unit(
    alloc: Global,
    out: &mut Vec<u8>,
    declaration: &Declaration,
    unit: &Decided,
    reasons: &[u8],
) -> Result<(), Memory>
    requires { IsTold declaration.now unit.now }
    ensures { OnOk result (out.new.items ≡ out.old.items
        ++ unit_text declaration.now unit.now reasons.now) }
{
    put_decided_line(alloc, out, declaration, unit)?;
    put_asked(alloc, out, &declaration.season, unit)?;
    put(out, reasons)
}

/// Appends all units, each with its reasons.
pub(crate) fn put_units(
    alloc: Global,
    out: &mut Vec<u8>,
    declaration: &Declaration,
    units: &[Decided],
    reasons: &[Vec<u8>],
) -> Result<(), Memory>
    requires count { length reasons.now ≡ length units.now }
    requires told { All (IsTold declaration.now) units.now }
    ensures { OnOk result (out.new.items ≡ out.old.items
        ++ units_text declaration.now units.now (texts_of reasons.now)) }
{
    for i in 0..units.len() {
        put_unit(alloc, out, declaration, &units[i], &reasons[i])?;
    }
    Ok(())
}
