//! Lines of flights, as they are drawn.

use crate::draws::Draws;
use slot_text::Memory;

/// Which movements a line has.
#[derive(Clone, Copy)]
pub enum Shape {
    Arrival,
    Departure,
    Turnaround,
}

/// A line of a flight within June, where the times of its movements are minutes of the day.
#[derive(Clone, Copy)]
pub struct Series {
    pub shape: Shape,
    pub number: u64,
    pub first: u64,
    pub last: u64,
    pub days: &'static str,
    pub arrival: u64,
    pub departure: u64,
    pub nights: &'static str,
}

/// The digit of the weekday of a day of June 2025, which begins on a Sunday.
fn digit_of(day: u64) -> &'static str {
    match day % 7 {
        0 => "6",
        1 => "7",
        2 => "1",
        3 => "2",
        4 => "3",
        5 => "4",
        _ => "5",
    }
}

/// The series of this number of a case: the same each time. Each third one lasts for all of June,
/// so that it has five dates of a weekday.
pub fn series_of(case: u64, number: u64) -> Series {
    let mut draws = Draws::new(case, number.wrapping_add(1000));
    let is_long = draws.once_in(3);
    let begin = draws.below(20).wrapping_add(1);
    let first = if is_long { 1 } else { begin };
    let last = if is_long {
        30
    } else {
        first.wrapping_add(draws.below(11))
    };
    let days = if draws.once_in(3) {
        digit_of(first)
    } else {
        "1234567"
    };
    let shape = match draws.below(5) {
        0 => Shape::Departure,
        1 | 2 => Shape::Turnaround,
        _ => Shape::Arrival,
    };
    let series = Series {
        shape,
        number: number.wrapping_add(100),
        first,
        last,
        days,
        arrival: 0,
        departure: 0,
        nights: "",
    };
    retimed(&mut draws, series)
}

/// The same series at other times: a turnaround leaves 40 minutes after it came, or later.
pub fn retimed(draws: &mut Draws, series: Series) -> Series {
    let hour: u64 = if draws.once_in(8) { 1385 } else { 355 };
    let arrival = hour.wrapping_add(draws.below(11).wrapping_mul(5));
    let stay = draws.below(8).wrapping_mul(5).wrapping_add(40);
    let leaves = match series.shape {
        Shape::Turnaround => arrival.wrapping_add(stay),
        _ => arrival,
    };
    Series {
        arrival,
        departure: leaves % 1440,
        nights: if leaves < 1440 { "" } else { "1" },
        ..series
    }
}

/// The same series within a part of its period. Its days are all days, so that there is one.
pub fn narrowed(draws: &mut Draws, series: Series) -> Series {
    let length = series.last.wrapping_sub(series.first).wrapping_add(1);
    let skipped = draws.below(11).checked_rem(length).unwrap_or(0);
    let first = series.first.wrapping_add(skipped);
    let last = if draws.once_in(2) { series.last } else { first };
    Series {
        first,
        last,
        days: "1234567",
        ..series
    }
}

/// Four digits of a time as one number.
fn clock(minute: u64) -> u64 {
    (minute / 60).wrapping_mul(100).wrapping_add(minute % 60)
}

/// Appends the flights and the period of a line, and behind them its movements.
pub fn put_line(text: &mut String, code: &str, series: &Series) -> Result<(), Memory> {
    let (first, last, days) = (series.first, series.last, series.days);
    put_flights(text, code, series.shape, series.number)?;
    write!(text, " {first:02}JUN{last:02}JUN {days} 180320 ")?;
    put_stops(text, series)
}

fn put_flights(text: &mut String, code: &str, shape: Shape, number: u64) -> Result<(), Memory> {
    let other = number.wrapping_add(500);
    match shape {
        Shape::Arrival => write!(text, "{code}BA{number}")?,
        Shape::Departure => write!(text, "{code} BA{number}")?,
        Shape::Turnaround => write!(text, "{code}BA{number} BA{other}")?,
    }
    Ok(())
}

fn put_stops(text: &mut String, series: &Series) -> Result<(), Memory> {
    let (arrival, departure) = (clock(series.arrival), clock(series.departure));
    let nights = series.nights;
    match series.shape {
        Shape::Arrival => write!(text, "JFK{arrival:04} J\n")?,
        Shape::Departure => write!(text, "{departure:04}JFK J\n")?,
        Shape::Turnaround => write!(text, "JFK{arrival:04} {departure:04}{nights}JFK JJ\n")?,
    }
    Ok(())
}

/// Appends a pair of the series and of the same at other times, asked for by a code.
pub fn put_pair(
    draws: &mut Draws,
    text: &mut String,
    code: &str,
    series: &Series,
) -> Result<(), Memory> {
    put_line(text, "C", series)?;
    put_line(text, code, &retimed(draws, *series))
}
