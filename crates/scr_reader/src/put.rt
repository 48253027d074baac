//! The parts of a printed line.

ghost use Rattle.std.specs.Prelude.{◌≡◌, ◌<◌, ◌++◌, ◌∷◌, [], ℕ, OnOk};
ghost use Rattle.schedule_text.specs.Days.{days_text};
ghost use Rattle.schedule_text.specs.Times.{time_text, two_digits};
ghost use Rattle.season_days.specs.Seasons.{date_count};
ghost use Rattle.scr_reader.specs.Bytes.{three_digits, four_digits};
ghost use Rattle.scr_reader.specs.Parts.{airline_text, suffix_text, month_text, date_text, stations_text};
ghost use Rattle.scr_reader.specs.Printed.{code_letter, number_text, flight_text, nights_text, arrival_group_text, departure_group_text, day_text};

use crate::line::{Code, Flight, Stop};
use season_days::{Day, Season};
use slot_text::{Memory, Station};

/// Appends bytes.
pub(crate) fn put(out: &mut Vec<u8>, bytes: &[u8]) -> Result<(), Memory>
    ensures { OnOk result (out.new.items ≡ out.old.items ++ bytes.now) }
{
    out.extend_from_slice(bytes)?;
    Ok(())
}

/// The letter of a code.
pub(crate) fn letter_of(code: Code) -> u8
    ensures { result ≡ code_letter code }
{
    match code {
        Code::N => b'N',
        Code::B => b'B',
        Code::F => b'F',
        Code::C => b'C',
        Code::R => b'R',
        Code::L => b'L',
        Code::D => b'D',
        Code::A => b'A',
        Code::Z => b'Z',
        Code::K => b'K',
        Code::H => b'H',
        Code::O => b'O',
        Code::U => b'U',
        Code::W => b'W',
        Code::X => b'X',
    }
}

/// The last two digits of a number.
fn last_two(n: u16) -> [u8; 2]
    ensures { result ≡ two_digits n }
{
    [b'0' + (n / 10 % 10) as u8, b'0' + (n % 10) as u8]
}

/// The last three digits of a number.
pub(crate) fn last_three(n: u16) -> [u8; 3]
    ensures { result ≡ three_digits n }
{
    [
        b'0' + (n / 100 % 10) as u8,
        b'0' + (n / 10 % 10) as u8,
        b'0' + (n % 10) as u8,
    ]
}

/// The last four digits of a number.
fn last_four(n: u16) -> [u8; 4]
    ensures { result ≡ four_digits n }
{
    [
        b'0' + (n / 1000 % 10) as u8,
        b'0' + (n / 100 % 10) as u8,
        b'0' + (n / 10 % 10) as u8,
        b'0' + (n % 10) as u8,
    ]
}

fn put_airline(out: &mut Vec<u8>, airline: [u8; 3]) -> Result<(), Memory>
    ensures { OnOk result (out.new.items ≡ out.old.items ++ airline_text airline) }
{
    let [a, b, c] = airline;
    if c == 0 {
        put(out, &[a, b])
    } else {
        put(out, &[a, b, c])
    }
}

fn put_flight_number(out: &mut Vec<u8>, number: u16) -> Result<(), Memory>
    ensures { OnOk result (out.new.items ≡ out.old.items ++ number_text number) }
{
    if number < 1000 {
        put(out, &last_three(number))
    } else {
        put(out, &last_four(number))
    }
}

fn put_suffix(out: &mut Vec<u8>, suffix: u8) -> Result<(), Memory>
    ensures { OnOk result (out.new.items ≡ out.old.items ++ suffix_text suffix) }
{
    if suffix == 0 {
        Ok(())
    } else {
        put(out, &[suffix])
    }
}

/// Appends a flight, its number with at least three digits.
pub(crate) fn put_flight(out: &mut Vec<u8>, flight: Flight) -> Result<(), Memory>
    ensures { OnOk result (out.new.items ≡ out.old.items ++ flight_text flight) }
{
    put_airline(out, flight.airline)?;
    put_flight_number(out, flight.number)?;
    put_suffix(out, flight.suffix)
}

/// The name of a month.
pub(crate) fn month_name(month: u8) -> &'static [u8]
    ensures { result.now ≡ month_text month }
{
    match month {
        0 | 1 => b"JAN",
        2 => b"FEB",
        3 => b"MAR",
        4 => b"APR",
        5 => b"MAY",
        6 => b"JUN",
        7 => b"JUL",
        8 => b"AUG",
        9 => b"SEP",
        10 => b"OCT",
        11 => b"NOV",
        12 => b"DEC",
        _ => b"",
    }
}

/// Appends two digits of the day and the name of the month.
pub(crate) fn put_date(out: &mut Vec<u8>, month: u8, day: u8) -> Result<(), Memory>
    ensures { OnOk result (out.new.items ≡ out.old.items ++ date_text month day) }
{
    put(out, &last_two(u16::from(day)))?;
    put(out, month_name(month))
}

/// Appends the date of a day of the season.
pub(crate) fn put_day(out: &mut Vec<u8>, season: &Season, day: Day) -> Result<(), Memory>
    requires { day.0 < date_count season.now }
    ensures { OnOk result (out.new.items ≡ out.old.items ++ day_text season.now day.0) }
{
    let (month, of_month) = season.date_of(day);
    put_date(out, month, of_month)
}

fn put_time(out: &mut Vec<u8>, minute: u16) -> Result<(), Memory>
    ensures { OnOk result (out.new.items ≡ out.old.items ++ time_text minute) }
{
    put(out, &last_two(minute / 60))?;
    put(out, &last_two(minute % 60))
}

fn put_stations(out: &mut Vec<u8>, near: Station, far: Option<Station>) -> Result<(), Memory>
    ensures { OnOk result (out.new.items ≡ out.old.items ++ stations_text near far) }
{
    put(out, &near.0)?;
    match far {
        Some(station) => put(out, &station.0),
        None => Ok(()),
    }
}

/// Appends the stations and the time of an arrival.
pub(crate) fn put_arrival_group(out: &mut Vec<u8>, stop: Stop) -> Result<(), Memory>
    ensures { OnOk result (out.new.items ≡ out.old.items ++ arrival_group_text stop) }
{
    put_stations(out, stop.near, stop.far)?;
    put_time(out, stop.minute)
}

fn put_nights(out: &mut Vec<u8>, nights: u8) -> Result<(), Memory>
    ensures { OnOk result (out.new.items ≡ out.old.items ++ nights_text nights) }
{
    if nights == 0 {
        Ok(())
    } else {
        put(out, &[b'0' + nights % 10])
    }
}

/// Appends the time, the nights and the stations of a departure.
pub(crate) fn put_departure_group(out: &mut Vec<u8>, stop: Stop, nights: u8) -> Result<(), Memory>
    ensures { OnOk result (out.new.items ≡ out.old.items ++ departure_group_text stop nights) }
{
    put_time(out, stop.minute)?;
    put_nights(out, nights)?;
    put_stations(out, stop.near, stop.far)
}
