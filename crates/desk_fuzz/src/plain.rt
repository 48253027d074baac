//! Printed lines, read in a plain way: on which dates they have movements, and at what minutes. And
//! a list of movements, counted window by window.

use drawn_worlds::{field, word};
use slot_text::Memory;
use std::alloc::Global;

/// The number of dates of the season S25, which begins on Sunday, 30 March.
const DATES: u64 = 210;

/// The weekdays of the dates of a season from its first on.
const DIGITS: [&str; 7] = ["7", "1", "2", "3", "4", "5", "6"];

/// A movement: whether it arrives, its date, and its minute of the day.
#[derive(Clone, Copy)]
pub struct Movement {
    pub arrives: bool,
    pub date: u64,
    pub minute: u64,
}

/// The dates of a line and its movements' minutes; a departure leaves so many nights later.
#[derive(Clone, Copy)]
pub struct Plain<'a> {
    pub first: u64,
    pub last: u64,
    pub days: &'a str,
    pub arrival: Option<u64>,
    pub departure: Option<u64>,
    pub nights: u64,
}

/// Whether a date of the season is on one of these weekdays.
pub fn is_on(days: &str, date: u64) -> bool {
    let place = (date % 7) as usize;
    days.contains(DIGITS.get(place).copied().unwrap_or("x"))
}

/// The number of a date of the season, from its day and month.
fn date_of(text: &str) -> Option<u64> {
    let day = digits_of(text, 0, 2)?;
    if text.ends_with("MAR") {
        day.checked_sub(30)
    } else {
        day.checked_add(months_before(text)?)
    }
}

/// The months of the season behind its first one.
const MONTHS: [&str; 7] = ["APR", "MAY", "JUN", "JUL", "AUG", "SEP", "OCT"];

/// How many dates come before each of them, less one.
const DAYS_BEFORE: [u64; 7] = [1, 31, 62, 92, 123, 154, 184];

/// How many dates come before a month, less one.
fn months_before(text: &str) -> Option<u64> {
    for place in 0..7_usize {
        if text.ends_with(MONTHS[place]) {
            return Some(DAYS_BEFORE[place]);
        }
    }
    None
}

/// The number that stands at some places of a text.
fn digits_of(text: &str, from: usize, count: usize) -> Option<u64> {
    let bytes = text.as_bytes();
    let mut value = 0_u64;
    for place in 0..count {
        let digit = digit_at(bytes, from.saturating_add(place))?;
        value = value.saturating_mul(10).saturating_add(digit);
    }
    Some(value)
}

fn digit_at(bytes: &[u8], place: usize) -> Option<u64> {
    match bytes.get(place) {
        Some(byte) if byte.is_ascii_digit() => Some(u64::from(*byte).saturating_sub(48)),
        _ => None,
    }
}

/// The minute of a time that stands at a place of a text.
fn minute_of(text: &str, from: usize) -> Option<u64> {
    let hours = digits_of(text, from, 2)?;
    let minutes = digits_of(text, from.saturating_add(2), 2)?;
    Some(hours.saturating_mul(60).saturating_add(minutes))
}

/// What a line says, with its code or without; None where it is no printed line.
pub fn read_plain(line: &str) -> Option<Plain<'_>> {
    let count = line.split(' ').count();
    let at: usize = if count == 6 { 1 } else { 2 };
    let (first, last) = dates_in_june(word(line, at))?;
    let stop = word(line, at.saturating_add(3));
    let leaves = match count {
        7 => stop,
        _ => word(line, at.saturating_add(4)),
    };
    Some(Plain {
        first,
        last,
        days: word(line, at.saturating_add(1)),
        arrival: if count == 7 { None } else { minute_of(stop, 3) },
        departure: if count == 6 {
            None
        } else {
            minute_of(leaves, 0)
        },
        nights: digits_of(leaves, 4, 1).unwrap_or(0),
    })
}

/// The first and the last date of a period that begins in June.
fn dates_in_june(period: &str) -> Option<(u64, u64)> {
    let (first, last) = period.split_once("JUN")?;
    match (date_of_june(first), date_of(last)) {
        (Some(first), Some(last)) => Some((first, last)),
        _ => None,
    }
}

/// The number of a date of June, by its day.
fn date_of_june(day: &str) -> Option<u64> {
    if day.len() == 2 {
        digits_of(day, 0, 2)?.checked_add(62)
    } else {
        None
    }
}

/// The movements of all lines of a text that are printed lines of June.
pub fn movements_of(alloc: Global, lines: &str) -> Result<Vec<Movement>, Memory> {
    let mut list = Vec::new(alloc);
    put_lines(&mut list, lines)?;
    Ok(list)
}

fn put_lines(list: &mut Vec<Movement>, lines: &str) -> Result<(), Memory> {
    for line in lines.lines() {
        if let Some(plain) = read_plain(line) {
            put_movements(list, &plain)?;
        }
    }
    Ok(())
}

fn put_movements(list: &mut Vec<Movement>, plain: &Plain<'_>) -> Result<(), Memory> {
    for date in plain.first..plain.last.saturating_add(1).min(DATES) {
        if is_on(plain.days, date) {
            put_date(list, plain, date)?;
        }
    }
    Ok(())
}

/// The movements of a line on one of its dates. One after the season's last date is listed nowhere.
fn put_date(list: &mut Vec<Movement>, plain: &Plain<'_>, date: u64) -> Result<(), Memory> {
    if let Some(minute) = plain.arrival {
        list.push(Movement {
            arrives: true,
            date,
            minute,
        })?;
    }
    let date = date.saturating_add(plain.nights);
    match plain.departure {
        Some(minute) if date < DATES => {
            list.push(Movement {
                arrives: false,
                date,
                minute,
            })?;
        }
        _ => {}
    }
    Ok(())
}

/// Whether a list of movements is within the limits that a capacity file declares.
pub fn fits(capacity: &str, list: &[Movement]) -> bool {
    let step = step_of(capacity);
    for line in capacity.lines() {
        let holds = match field(line, 0) {
            "CAP" => is_within(line, step, list),
            "NIGHT" => is_quiet(line, list),
            _ => true,
        };
        if !holds {
            return false;
        }
    }
    true
}

fn step_of(capacity: &str) -> u64 {
    declared(capacity, "STEP").parse().unwrap_or(0)
}

/// The second field of the first line that begins with a word; empty where there is none.
pub fn declared<'a>(text: &'a str, begin: &str) -> &'a str {
    for line in text.lines() {
        if field(line, 0) == begin {
            return field(line, 1);
        }
    }
    ""
}

/// The first line of a text; empty where there is none.
pub fn first_line(text: &str) -> &str {
    text.lines().next().unwrap_or("")
}

/// How many lines begin with a word.
pub fn lines_with(text: &str, begin: &str) -> u64 {
    let mut count = 0_u64;
    for line in text.lines() {
        count = count.saturating_add(u64::from(field(line, 0) == begin));
    }
    count
}

/// How many windows a capacity file declares on the dates of S25, its night quota counted as one.
pub fn windows_of(capacity: &str) -> u64 {
    let step = step_of(capacity);
    let mut count = lines_with(capacity, "NIGHT");
    for line in capacity.lines() {
        if field(line, 0) == "CAP" {
            count = count.saturating_add(starts_of(line, step).saturating_mul(DATES));
        }
    }
    count
}

/// How many windows of a date a capacity line has.
fn starts_of(line: &str, step: u64) -> u64 {
    let from = minute_of(field(line, 3), 0).unwrap_or(0);
    let to = minute_of(field(line, 4), 0).unwrap_or(0);
    let steps = to.saturating_sub(from).checked_div(step).unwrap_or(0);
    steps.saturating_add(1)
}

/// How many dates the lines of a text have together, which are printed lines of June.
pub fn dates_of_all(lines: &str) -> u64 {
    let mut count = 0_u64;
    for line in lines.lines() {
        if let Some(plain) = read_plain(line) {
            count = count.saturating_add(dates_in(&plain));
        }
    }
    count
}

fn dates_in(plain: &Plain<'_>) -> u64 {
    let mut count = 0_u64;
    for date in plain.first..plain.last.saturating_add(1) {
        count = count.saturating_add(u64::from(is_on(plain.days, date)));
    }
    count
}

/// A field of a line as a number.
fn value(line: &str, place: usize) -> Option<u64> {
    field(line, place).parse().ok()
}

/// Whether each window of a capacity line is within its limit: on each date of its weekdays, from
/// each start.
fn is_within(line: &str, step: u64, list: &[Movement]) -> bool {
    let from = minute_of(field(line, 3), 0).unwrap_or(0);
    let to = minute_of(field(line, 4), 0).unwrap_or(0);
    for number in 0..289_u64 {
        let start = from.saturating_add(number.saturating_mul(step));
        if start <= to && !is_start_within(line, start, list) {
            return false;
        }
    }
    true
}

fn is_start_within(line: &str, start: u64, list: &[Movement]) -> bool {
    for movement in list {
        let holds = is_window_within(line, start, movement.date, list)
            && is_window_within(line, start, movement.date.saturating_sub(1), list);
        if !holds {
            return false;
        }
    }
    true
}

/// Whether the window of a date from a start holds at most as many movements as its limit.
fn is_window_within(line: &str, start: u64, date: u64, list: &[Movement]) -> bool {
    let begin = date.saturating_mul(1440).saturating_add(start);
    let end = begin.saturating_add(value(line, 2).unwrap_or(0));
    let count = held_in(field(line, 1), begin, end, list);
    !is_on(field(line, 5), date) || count <= value(line, 6).unwrap_or(0)
}

/// How many movements of a kind a window holds.
fn held_in(kind: &str, begin: u64, end: u64, list: &[Movement]) -> u64 {
    let mut count = 0_u64;
    for moved in list {
        count = count.saturating_add(u64::from(is_held(kind, begin, end, moved)));
    }
    count
}

fn is_held(kind: &str, begin: u64, end: u64, moved: &Movement) -> bool {
    let at = moved.date.saturating_mul(1440).saturating_add(moved.minute);
    let is_kind = match kind {
        "ARR" => moved.arrives,
        "DEP" => !moved.arrives,
        _ => true,
    };
    is_kind && begin <= at && at < end
}

/// Whether at most as many movements are at night as a line says.
fn is_quiet(line: &str, list: &[Movement]) -> bool {
    let from = minute_of(field(line, 1), 0).unwrap_or(0);
    let to = minute_of(field(line, 2), 0).unwrap_or(0);
    let mut count = 0_u64;
    for moved in list {
        count = count.saturating_add(u64::from(is_at_night(from, to, moved.minute)));
    }
    count <= value(line, 3).unwrap_or(0)
}

fn is_at_night(from: u64, to: u64, minute: u64) -> bool {
    if from < to {
        from <= minute && minute < to
    } else {
        from <= minute || minute < to
    }
}
