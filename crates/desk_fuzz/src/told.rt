//! What `inspect` tells of a season, counted anew from its files.

use crate::laws::{first_of, law};
use crate::plain::{Movement, dates_of_all, declared, fits, lines_with, movements_of, windows_of};
use crate::records::push_line;
use crate::seen::Seen;
use drawn_worlds::{count_of, word};
use slot_text::Memory;
use std::alloc::Global;

/// The name of the first law that the lines of a season break, or nothing. What depends on how the
/// lines are spelled is counted where no file is damaged.
pub fn broken_lines(alloc: Global, seen: &Seen, is_whole: bool) -> Result<&'static str, Memory> {
    let capacity = seen.before("CAP");
    let requests = seen.before("SCR");
    let said = seen.said.as_str();
    let are_front = is_front(alloc, capacity, requests, said)?;
    let are_numbers = are_front && is_fifth(alloc, capacity, said)?;
    let first = first_of(
        law(are_numbers, "numbers of a season"),
        law(are_passed(said), "limits that are passed"),
    );
    if !is_whole || declared(capacity, "SEASON") != "S25" {
        return Ok(first);
    }
    Ok(first_of(first, broken_demand(alloc, capacity, requests, said)?))
}

/// Whether the first three lines are those of the files.
fn is_front(alloc: Global, capacity: &str, requests: &str, said: &str) -> Result<bool, Memory> {
    let mut front = String::new(alloc);
    put_front(&mut front, capacity, requests)?;
    Ok(said.starts_with(front.as_str()))
}

/// Whether the fifth line is that of the files.
fn is_fifth(alloc: Global, capacity: &str, said: &str) -> Result<bool, Memory> {
    let rules = lines_with(capacity, "CAP");
    let windows = windows_of(capacity);
    let fifth = said.lines().nth(4).unwrap_or("");
    let due = format!(in alloc; "CAPS {rules} WINDOWS {windows}")?;
    Ok(fifth == due.as_str())
}

fn put_front(text: &mut String, capacity: &str, requests: &str) -> Result<(), Memory> {
    let airport = declared(capacity, "AIRPORT");
    let season = declared(capacity, "SEASON");
    let messages = lines_with(requests, "SCR");
    write!(
        text,
        "AIRPORT {airport} SEASON {season}\nMESSAGES {messages}\n"
    )?;
    put_units(text, requests)
}

/// Appends how many units there are, and how many of each group.
fn put_units(text: &mut String, requests: &str) -> Result<(), Memory> {
    let historic = coded(requests, "F", "F");
    let retimed = coded(requests, "R", "I");
    let shifted = coded(requests, "L", "L");
    let entrant = coded(requests, "B", "V");
    let new = coded(requests, "N", "Y");
    let changed = historic.saturating_add(retimed).saturating_add(shifted);
    let sum = changed.saturating_add(entrant).saturating_add(new);
    write!(
        text,
        "UNITS {sum} F {historic} R {retimed} L {shifted} B {entrant} N {new}\n"
    )?;
    Ok(())
}

/// How many lines begin with one of two codes.
fn coded(requests: &str, code: &str, other: &str) -> u64 {
    let mut count = 0_u64;
    for line in requests.lines() {
        let is_coded = line.starts_with(code) || line.starts_with(other);
        count = count.saturating_add(u64::from(is_coded));
    }
    count
}

/// Whether in each line that tells of a limit that is passed it is passed.
fn are_passed(said: &str) -> bool {
    for line in said.lines() {
        if !is_passed(line) {
            return false;
        }
    }
    true
}

fn is_passed(line: &str) -> bool {
    let limit = behind(line, "LIMIT");
    match word(line, 0) {
        "OVER" => limit < behind(line, "EARLIER").saturating_add(behind(line, "LEAST")),
        "DEMAND" => limit < behind(line, "LOAD"),
        _ => true,
    }
}

/// The number behind a word of a line; 0 where there is none.
fn behind(line: &str, name: &str) -> u64 {
    let mut is_next = false;
    for one in line.split(' ') {
        if is_next {
            return one.parse().unwrap_or(0);
        }
        is_next = one == name;
    }
    0
}

/// The first law that dates, movements, and what is asked for beyond the limits, break.
fn broken_demand(
    alloc: Global,
    capacity: &str,
    requests: &str,
    said: &str,
) -> Result<&'static str, Memory> {
    let mut asked = String::new(alloc);
    put_requested(&mut asked, requests)?;
    broken_asked(alloc, capacity, &asked, said)
}

fn broken_asked(
    alloc: Global,
    capacity: &str,
    asked: &str,
    said: &str,
) -> Result<&'static str, Memory> {
    let list = movements_of(alloc, asked)?;
    broken_movements(alloc, capacity, dates_of_all(asked), &list, said)
}

fn broken_movements(
    alloc: Global,
    capacity: &str,
    dates: u64,
    list: &[Movement],
    said: &str,
) -> Result<&'static str, Memory> {
    let moved = list.len();
    let fourth = said.lines().nth(3).unwrap_or("");
    let is_asked = (count_of(said, "DEMAND ") == 0) == fits(capacity, list);
    let due = format!(in alloc; "DATES {dates} MOVEMENTS {moved}")?;
    Ok(first_of(
        law(fourth == due.as_str(), "dates and movements"),
        law(is_asked, "what is asked for"),
    ))
}

/// Appends the lines of requests but for the historic ones of pairs.
fn put_requested(text: &mut String, requests: &str) -> Result<(), Memory> {
    for line in requests.lines() {
        if !line.starts_with('C') {
            push_line(text, line)?;
        }
    }
    Ok(())
}
