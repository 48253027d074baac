//! The fields of a line of a message: what each is for, and what is wrong with one.

ghost use Rattle.std.specs.Prelude.{◌≡◌, ℕ, slice_get};
ghost use Rattle.slot_text.specs.Fields.{fields_of};
ghost use Rattle.season_days.specs.Term.{Term};
ghost use Rattle.scr_reader.specs.Shapes.{shape_of};
ghost use Rattle.fault_causes.specs.Requests.{shape_named, first_name, first_word, part_named, IsDatesFlaw, IsPeriodFlaw, IsFlawOrForm, NamesWeekdays, IsGroup, IsPartFlaw};
ghost use Rattle.fault_causes.specs.Standings.{dated_fault, IsDated, IsDateReading, AreDatesReading};

use crate::cause::{FieldName, Flaw};
use schedule_text::{read_two_digits, read_weekdays};
use scr_reader::{is_flight_ahead, read_group_with_nights, read_month};
use season_days::{DayFault, Season};
use slot_text::field;

/// The movements that a line has.
#[derive(Clone, Copy)]
pub(crate) enum Movements {
    Arrival,
    Departure,
    Both,
}

/// A date beside the days of the season: one of them, a date that does not exist, or another one.
#[derive(Clone, Copy)]
pub(crate) enum Dated {
    Day,
    NoDate,
    Outside,
}

// The movements of a line.
fn movements_in(line: &[u8]) -> Movements
    ensures { shape_named result ≡ shape_of (fields_of line.now) }
{
    match field(line, 1) {
        Some(first) if first.len() == 1 => Movements::Departure,
        _ => match field(line, 2) {
            Some(second) if is_flight_ahead(second) => Movements::Both,
            _ => Movements::Arrival,
        },
    }
}

// The name of a first field with a code and a flight.
fn first_name(first: &[u8]) -> FieldName
    ensures { result ≡ first_name first.now }
{
    match first {
        [
            b'N' | b'Y' | b'B' | b'V' | b'F' | b'C' | b'R' | b'I' | b'L' | b'D' | b'A' | b'Z',
            ..
        ] => FieldName::Flight,
        _ => FieldName::Code,
    }
}

// The name of the first field of a line.
fn first_name_in(line: &[u8]) -> FieldName
    ensures { result ≡ first_name (first_word (fields_of line.now)) }
{
    match field(line, 1) {
        Some(first) => first_name(first),
        None => FieldName::Code,
    }
}

// The name of a place, counted from 0.
fn name_in(names: &[FieldName], place: usize) -> Option<FieldName>
    ensures { result ≡ slice_get names.now place }
{
    names.get(place).copied()
}

/// What the field of a number is for, counted from 1; None behind the last.
pub(crate) fn name_at(line: &[u8], number: u32) -> Option<FieldName>
    ensures { result ≡ part_named (fields_of line.now) number }
{
    use FieldName::{Arrival, Code, Days, Departure, Flight, Period, Seats, Service};
    let place = (number as usize).saturating_sub(1);
    let first = first_name_in(line);
    match movements_in(line) {
        Movements::Arrival => name_in(&[first, Period, Days, Seats, Arrival, Service], place),
        Movements::Departure => {
            let names = [Code, Flight, Period, Days, Seats, Departure, Service];
            name_in(&names, place)
        }
        Movements::Both => {
            let names = [
                first, Flight, Period, Days, Seats, Arrival, Departure, Service,
            ];
            name_in(&names, place)
        }
    }
}

// What the calendar answers for a date that is no day of the season.
fn dated_fault(fault: DayFault) -> Dated
    ensures { result ≡ dated_fault fault }
{
    match fault {
        DayFault::NoSuchDate => Dated::NoDate,
        _ => Dated::Outside,
    }
}

// What a text says as a date, and None where it has not the form of one.
fn read_date(season: &Season, text: &[u8]) -> Option<Dated>
    ensures { IsDateReading season.now text.now result }
{
    if text.len() != 5 {
        return None;
    }
    let (day, month) = text.split_at(2);
    let month = read_month(month)?;
    let day = read_two_digits(day)?;
    Some(match season.day_of(month, day) {
        Ok(_) => Dated::Day,
        Err(fault) => dated_fault(fault),
    })
}

// The same of a field of dates, for the first and for the last.
fn read_dates(season: &Season, text: &[u8]) -> Option<(Dated, Dated)>
    ensures { AreDatesReading season.now text.now result }
{
    if text.len() <= 5 {
        let date = read_date(season, text)?;
        return Some((date, date));
    }
    let (front, back) = text.split_at(5);
    let first = read_date(season, front)?;
    let last = read_date(season, back)?;
    Some((first, last))
}

// What is wrong with two dates.
fn dates_flaw(first: Dated, last: Dated) -> Flaw
    ensures { (season : Term) (one two : ℕ × ℕ) → IsDated season one first →
        IsDated season two last → IsDatesFlaw season one two result }
{
    match (first, last) {
        (Dated::NoDate, _) => Flaw::Date,
        (Dated::Day | Dated::Outside, Dated::NoDate) => Flaw::Date,
        (Dated::Day, Dated::Day) => Flaw::Reversed,
        (Dated::Day, Dated::Outside) => Flaw::Outside,
        (Dated::Outside, Dated::Day | Dated::Outside) => Flaw::Outside,
    }
}

// What is wrong with a field of dates.
fn period_flaw(season: &Season, text: &[u8]) -> Flaw
    ensures { IsPeriodFlaw season.now text.now result }
{
    match read_dates(season, text) {
        Some((first, last)) => dates_flaw(first, last),
        None => Flaw::Form,
    }
}

// What is wrong with a field of weekdays.
fn weekdays_flaw(text: &[u8]) -> Flaw
    ensures { IsFlawOrForm (NamesWeekdays text.now) Flaw.Empty result }
{
    match read_weekdays(text) {
        Some(_) => Flaw::Empty,
        None => Flaw::Form,
    }
}

// What is wrong with a field of a turnaround's departure.
fn group_flaw(text: &[u8]) -> Flaw
    ensures { IsFlawOrForm (IsGroup text.now) Flaw.Before result }
{
    match read_group_with_nights(text) {
        Some(_) => Flaw::Before,
        None => Flaw::Form,
    }
}

// What is wrong with a field of a departure.
fn departure_flaw(movements: Movements, text: &[u8]) -> Flaw
    ensures { (season : Term) →
        IsPartFlaw season (shape_named movements) FieldName.Departure text.now result }
{
    match movements {
        Movements::Arrival | Movements::Departure => Flaw::Form,
        Movements::Both => group_flaw(text),
    }
}

/// What is wrong with a field, where those before it are good.
pub(crate) fn part_flaw(season: &Season, line: &[u8], name: FieldName, text: &[u8]) -> Flaw
    ensures { IsPartFlaw season.now (shape_of (fields_of line.now)) name text.now result }
{
    match name {
        FieldName::Period => period_flaw(season, text),
        FieldName::Days => weekdays_flaw(text),
        FieldName::Departure => departure_flaw(movements_in(line), text),
        _ => Flaw::Form,
    }
}
