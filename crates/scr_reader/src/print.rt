//! Lines, headers and items, printed.

ghost use Rattle.std.specs.Prelude.{◌≡◌, ◌<◌, ◌++◌, ◌∷◌, [], ℕ, OnOk, OnErr, IfOk, Some, None};
ghost use Rattle.schedule_text.specs.Days.{days_text};
ghost use Rattle.slot_text.specs.Ended.{ended};
ghost use Rattle.season_days.specs.Seasons.{date_count};
ghost use Rattle.scr_reader.specs.Bytes.{three_digits};
ghost use Rattle.scr_reader.specs.Printed.{code_letter, flight_text, arrival_group_text, departure_group_text, day_text, dates_text, stops_text, line_text, LineFits, ItemFits, header_lines, item_text};

use crate::header::Header;
use crate::line::{Code, Flight, Item, Line, Stop};
use crate::put::{
    last_three, letter_of, put, put_arrival_group, put_date, put_day, put_departure_group,
    put_flight,
};
use schedule_text::places_of;
use season_days::{Day, Season};
use slot_text::Memory;
use std::alloc::Global;

/// The most bytes that a printed line has, without its end.
pub const LONGEST_PRINTED_LINE: usize = 70;

/// The most bytes that a printed item has: two lines, each with its LF.
pub const LONGEST_PRINTED_ITEM: usize = 142;

/// Appends the printed spelling of a line with a code: the flight's number with at least three
/// digits, both dates of the period, seven places of weekdays, no digit for no nights, and one
/// blank between two fields; no line end. After an error `out` is as before. It takes memory once
/// for the line's text, beside the growth of `out`. Lines that were read have a spelling
/// (`laws::read_lines_fit`), and `Line::fits` tests it.
pub fn print_line(
    alloc: Global,
    out: &mut Vec<u8>,
    season: &Season,
    code: Code,
    line: &Line,
) -> Result<(), Memory>
    requires { LineFits season.now line.now }
    ensures ok { OnOk result (out.new.items ≡ out.old.items ++ line_text season.now code line.now) }
    ensures unchanged { OnErr result (out.new.items ≡ out.old.items) }
{
    let mut text = Vec::new(alloc);
    put_line(&mut text, season, code, line, line.arrival, line.departure)?;
    out.extend_from_slice(&text)?;
    Ok(())
}

/// Appends the four lines of a header, each with an LF. After an error `out` is as before.
pub fn print_header(alloc: Global, out: &mut Vec<u8>, header: &Header) -> Result<(), Memory>
    ensures ok { OnOk result (out.new.items ≡ out.old.items ++ ended (header_lines header.now)) }
    ensures unchanged { OnErr result (out.new.items ≡ out.old.items) }
{
    let mut text = Vec::new(alloc);
    put_header(&mut text, header)?;
    out.extend_from_slice(&text)?;
    Ok(())
}

/// Appends the four lines of a header, each with an LF.
fn put_header(out: &mut Vec<u8>, header: &Header) -> Result<(), Memory>
    ensures { OnOk result (out.new.items ≡ out.old.items ++ ended (header_lines header.now)) }
{
    put(out, b"SCR\n")?;
    put(out, &header.season.text())?;
    put(out, b"\n")?;
    put_date(out, header.month, header.day)?;
    put(out, b"\n")?;
    put(out, &header.airport.0)?;
    put(out, b"\n")
}

/// Appends a flight: its airline, its number with at least three digits, and its letter if it has
/// one; no line end. After an error `out` is as before.
pub fn print_flight(alloc: Global, out: &mut Vec<u8>, flight: Flight) -> Result<(), Memory>
    ensures ok { OnOk result (out.new.items ≡ out.old.items ++ flight_text flight) }
    ensures unchanged { OnErr result (out.new.items ≡ out.old.items) }
{
    let mut text = Vec::new(alloc);
    put_flight(&mut text, flight)?;
    out.extend_from_slice(&text)?;
    Ok(())
}

/// Appends the date of a day of the season, as a period has it: two digits and a month; no line
/// end. After an error `out` is as before.
pub fn print_day(alloc: Global, out: &mut Vec<u8>, season: &Season, day: Day) -> Result<(), Memory>
    requires { day.0 < date_count season.now }
    ensures ok { OnOk result (out.new.items ≡ out.old.items ++ day_text season.now day.0) }
    ensures unchanged { OnErr result (out.new.items ≡ out.old.items) }
{
    let mut text = Vec::new(alloc);
    put_day(&mut text, season, day)?;
    out.extend_from_slice(&text)?;
    Ok(())
}

/// Appends an item, each of its lines with an LF: a line with its own code, both lines of a pair,
/// or Q and the flight. After an error `out` is as before. It takes memory once for the item's
/// text, beside the growth of `out`.
pub fn print_item(
    alloc: Global,
    out: &mut Vec<u8>,
    season: &Season,
    item: &Item,
) -> Result<(), Memory>
    requires { ItemFits season.now item.now }
    ensures ok { OnOk result (out.new.items ≡ out.old.items ++ item_text season.now item.now) }
    ensures unchanged { OnErr result (out.new.items ≡ out.old.items) }
{
    let mut text = Vec::new(alloc);
    put_item(&mut text, season, item)?;
    out.extend_from_slice(&text)?;
    Ok(())
}

fn put_item(out: &mut Vec<u8>, season: &Season, item: &Item) -> Result<(), Memory>
    requires { ItemFits season.now item.now }
    ensures { OnOk result (out.new.items ≡ out.old.items ++ item_text season.now item.now) }
{
    match item {
        Item::One(line) => put_own_line(out, season, line),
        Item::Pair(changed, asked) => {
            put_own_line(out, season, changed)?;
            put_own_line(out, season, asked)
        }
        Item::Query(flight) => {
            put(out, b"Q")?;
            put_flight(out, *flight)?;
            put(out, b"\n")
        }
    }
}

/// Appends a line with its own code, and an LF.
fn put_own_line(out: &mut Vec<u8>, season: &Season, line: &Line) -> Result<(), Memory>
    requires { LineFits season.now line.now }
    ensures { OnOk result (out.new.items
        ≡ out.old.items ++ (line_text season.now line.now.code line.now ++ 10 ∷ [])) }
{
    put_line(out, season, line.code, line, line.arrival, line.departure)?;
    put(out, b"\n")
}

/// Appends the spelling of a line whose movements these are.
fn put_line(
    out: &mut Vec<u8>,
    season: &Season,
    code: Code,
    line: &Line,
    arrival: Option<Stop>,
    departure: Option<Stop>,
) -> Result<(), Memory>
    requires first { line.now.period.first.0 < date_count season.now }
    requires last { line.now.period.last.0 < date_count season.now }
    ensures { OnOk result (out.new.items
        ≡ out.old.items
        ++ stops_text season.now code line.now arrival departure) }
{
    match (arrival, departure) {
        (Some(coming), Some(going)) => put_turnaround(out, season, code, line, coming, going),
        (Some(coming), None) => put_arrival(out, season, code, line, coming),
        (None, Some(going)) => put_departure(out, season, code, line, going),
        (None, None) => Ok(()),
    }
}

/// Appends a blank, and the dates, the weekdays and the seats and type, each with a blank behind
/// it.
fn put_middle(out: &mut Vec<u8>, season: &Season, line: &Line) -> Result<(), Memory>
    requires first { line.now.period.first.0 < date_count season.now }
    requires last { line.now.period.last.0 < date_count season.now }
    ensures { OnOk result (out.new.items
        ≡ out.old.items
        ++ (32
        ∷ (dates_text season.now line.now.period
        ++ (32
        ∷ (days_text line.now.period.days
        ++ (32 ∷ ((three_digits line.now.seats ++ line.now.craft.0) ++ (32 ∷ [])))))))) }
{
    put(out, b" ")?;
    put_day(out, season, line.period.first)?;
    put_day(out, season, line.period.last)?;
    put(out, b" ")?;
    put(out, &places_of(line.period.days))?;
    put(out, b" ")?;
    put(out, &last_three(line.seats))?;
    put(out, &line.craft.0)?;
    put(out, b" ")
}

fn put_arrival(
    out: &mut Vec<u8>,
    season: &Season,
    code: Code,
    line: &Line,
    coming: Stop,
) -> Result<(), Memory>
    requires first { line.now.period.first.0 < date_count season.now }
    requires last { line.now.period.last.0 < date_count season.now }
    ensures { OnOk result (out.new.items
        ≡ out.old.items
        ++ stops_text season.now code line.now (Some coming) None) }
{
    put(out, &[letter_of(code)])?;
    put_flight(out, coming.flight)?;
    put_middle(out, season, line)?;
    put_arrival_group(out, coming)?;
    put(out, &[b' ', coming.service])
}

fn put_departure(
    out: &mut Vec<u8>,
    season: &Season,
    code: Code,
    line: &Line,
    going: Stop,
) -> Result<(), Memory>
    requires first { line.now.period.first.0 < date_count season.now }
    requires last { line.now.period.last.0 < date_count season.now }
    ensures { OnOk result (out.new.items
        ≡ out.old.items
        ++ stops_text season.now code line.now None (Some going)) }
{
    put(out, &[letter_of(code), b' '])?;
    put_flight(out, going.flight)?;
    put_middle(out, season, line)?;
    put_departure_group(out, going, 0)?;
    put(out, &[b' ', going.service])
}

fn put_turnaround(
    out: &mut Vec<u8>,
    season: &Season,
    code: Code,
    line: &Line,
    coming: Stop,
    going: Stop,
) -> Result<(), Memory>
    requires first { line.now.period.first.0 < date_count season.now }
    requires last { line.now.period.last.0 < date_count season.now }
    ensures { OnOk result (out.new.items
        ≡ out.old.items
        ++ stops_text season.now code line.now (Some coming) (Some going)) }
{
    put(out, &[letter_of(code)])?;
    put_flight(out, coming.flight)?;
    put(out, b" ")?;
    put_flight(out, going.flight)?;
    put_middle(out, season, line)?;
    put_arrival_group(out, coming)?;
    put(out, b" ")?;
    put_departure_group(out, going, line.nights)?;
    put(out, &[b' ', coming.service, going.service])
}
