//! Usage, counted date by date; and the lines that keep precedence, written down anew for the next
//! season, S26, in which each day comes one date earlier.

use crate::plain::{Plain, is_on, read_plain};
use drawn_worlds::{count_of, word};
use slot_text::Memory;
use std::alloc::Global;

/// The header of the next season's message.
const NEXT_HEAD: &str = "SCR\nS26\n20NOV\nABC\n";

/// How many series the confirmed holdings of a listing have, and how many keep precedence.
pub fn counted(held: &str, operated: &str) -> (u64, u64) {
    let mut series = 0_u64;
    let mut kept = 0_u64;
    for line in held.lines() {
        let (own, own_kept) = counted_of(line, operated);
        series = series.saturating_add(own);
        kept = kept.saturating_add(own_kept);
    }
    (series, kept)
}

/// The same of one line, which may be no confirmed holding.
fn counted_of(line: &str, operated: &str) -> (u64, u64) {
    let mut series = 0_u64;
    let mut kept = 0_u64;
    if line.starts_with('H') {
        for weekday in 0..7 {
            let (dates, flown) = dates_of(line, weekday, operated);
            series = series.saturating_add(u64::from(dates > 0));
            kept = kept.saturating_add(u64::from(is_kept(dates, flown)));
        }
    }
    (series, kept)
}

/// Whether a series keeps precedence that has so many dates, and so many of them operated.
fn is_kept(dates: u64, flown: u64) -> bool {
    dates >= 5 && flown.saturating_mul(100) >= dates.saturating_mul(80)
}

/// How many dates a line has on a weekday, and how many of them were operated.
fn dates_of(line: &str, weekday: u64, operated: &str) -> (u64, u64) {
    let Some(plain) = read_plain(line) else {
        return (0, 0);
    };
    let mut dates = 0_u64;
    let mut flown = 0_u64;
    for date in plain.first..plain.last.saturating_add(1) {
        if date % 7 == weekday && is_on(plain.days, date) {
            dates = dates.saturating_add(1);
            flown = flown.saturating_add(u64::from(is_flown(line, &plain, date, operated)));
        }
    }
    (dates, flown)
}

/// Whether each movement of a line was operated on a date.
fn is_flown(line: &str, plain: &Plain<'_>, date: u64, operated: &str) -> bool {
    let first = word(line, 0).strip_prefix('H').unwrap_or("");
    let departs = word(line, 1);
    (plain.arrival.is_none() || is_reported(operated, "ARR", first, date))
        && (plain.departure.is_none() || is_reported(operated, "DEP", departs, date))
}

fn is_reported(operated: &str, kind: &str, flight: &str, date: u64) -> bool {
    for line in operated.lines() {
        if is_report_of(line, kind, flight, date) {
            return true;
        }
    }
    false
}

fn is_report_of(line: &str, kind: &str, flight: &str, date: u64) -> bool {
    word(line, 1) == kind && word(line, 2) == flight && has_date(word(line, 3), date)
}

/// Whether a period of June, whose days are all days, has a date.
fn has_date(period: &str, date: u64) -> bool {
    let (first, last) = days_of(period);
    first.saturating_add(62) <= date && date <= last.saturating_add(62)
}

/// The first and the last day of a period of June.
fn days_of(period: &str) -> (u64, u64) {
    let (first, rest) = period.split_once("JUN").unwrap_or(("", ""));
    let last = rest.split_once("JUN").unwrap_or(("", "")).0;
    (first.parse().unwrap_or(99), last.parse().unwrap_or(0))
}

/// Whether a message of the next season has a line for each holding that keeps precedence on some
/// weekday, and no other; where there is none it is empty.
pub fn is_next(alloc: Global, next: &str, held: &str, operated: &str) -> Result<bool, Memory> {
    let mut due = String::new(alloc);
    put_lines(alloc, &mut due, held, operated)?;
    Ok(is_message(next, &due))
}

fn is_message(next: &str, due: &str) -> bool {
    if due.is_empty() {
        return next.is_empty();
    }
    let size = NEXT_HEAD.len().saturating_add(due.len()).saturating_add(1);
    let is_message = next.starts_with(NEXT_HEAD) && next.ends_with("\n\n");
    is_message && next.len() == size && has_lines(next, due)
}

/// Whether a text has each of these lines as often as they stand here.
fn has_lines(text: &str, lines: &str) -> bool {
    for line in lines.lines() {
        if count_of(text, line) != count_of(lines, line) {
            return false;
        }
    }
    true
}

/// Appends the lines of the next season for the confirmed holdings of a listing.
fn put_lines(alloc: Global, text: &mut String, held: &str, operated: &str) -> Result<(), Memory> {
    for line in held.lines() {
        if line.starts_with('H') {
            put_kept(alloc, text, line, operated)?;
        }
    }
    Ok(())
}

/// Appends a holding that keeps precedence on some weekday.
fn put_kept(alloc: Global, text: &mut String, line: &str, operated: &str) -> Result<(), Memory> {
    let mut days = String::new(alloc);
    put_kept_days(&mut days, line, operated)?;
    if days.as_str() == "0000000" {
        return Ok(());
    }
    put_next(text, line, &days)
}

/// Appends the weekdays on which a line keeps precedence, in seven places from Monday on.
fn put_kept_days(days: &mut String, line: &str, operated: &str) -> Result<(), Memory> {
    for place in 1..8_u64 {
        let (dates, flown) = dates_of(line, place % 7, operated);
        let digit = if is_kept(dates, flown) { place } else { 0 };
        write!(days, "{digit}")?;
    }
    Ok(())
}

/// Appends a holding as a historic line of the next season, on these weekdays.
fn put_next(text: &mut String, line: &str, days: &str) -> Result<(), Memory> {
    let at = if line.split(' ').count() == 6 { 1 } else { 2 };
    let bare = line.strip_prefix('H').unwrap_or("");
    for (place, part) in bare.split(' ').enumerate() {
        text.push(if place == 0 { 'F' } else { ' ' })?;
        put_part(text, place, at, part, days)?;
    }
    text.push('\n')?;
    Ok(())
}

/// Appends a part of a line whose period stands at a place, and its weekdays behind that.
fn put_part(
    text: &mut String,
    place: usize,
    at: usize,
    part: &str,
    days: &str,
) -> Result<(), Memory> {
    if place == at {
        return put_period(text, part);
    }
    let is_days = place == at.saturating_add(1);
    text.push_str(if is_days { days } else { part })?;
    Ok(())
}

/// Appends a period of June, one date earlier.
fn put_period(text: &mut String, period: &str) -> Result<(), Memory> {
    let (first, last) = days_of(period);
    put_day(text, first.saturating_sub(1))?;
    put_day(text, last.saturating_sub(1))
}

/// Appends a day of June; day 0 is the one before it.
fn put_day(text: &mut String, day: u64) -> Result<(), Memory> {
    if day == 0 {
        text.push_str("31MAY")?;
    } else {
        write!(text, "{day:02}JUN")?;
    }
    Ok(())
}
