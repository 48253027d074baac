//! Drawn seasons, asks and reports of what was operated.

use crate::draws::Draws;
use crate::lines::{Series, narrowed, put_line, put_pair, series_of};
use crate::texts::put_bytes;
use memory_desk::Given;
use slot_text::Memory;
use std::alloc::Global;

/// The header of each message.
pub const HEAD: &str = "SCR\nS25\n20NOV\nABC\n";

/// How many series a case draws its lines from.
const MOST_SERIES: u64 = 12;

/// Three windows for one movement each: of the turnarounds of a knot each two share one, so that
/// one node does not settle them.
const KNOT_CAPACITY: &str = "AIRPORT ABC\nSEASON S25\nSTEP 5\nFLEX 0\nGROUND 40\nREFUSE 10\n\
    CAP TOT 10 0600 0600 1234567 1\nCAP TOT 10 0700 0700 1234567 1\n\
    CAP TOT 10 0800 0800 1234567 1\n";

/// The turnarounds of a knot.
const KNOT: &str = "NBA200 BA700 01JUN01JUN 7 180320 JFK0600 0700JFK JJ\n\
    NBA201 BA701 01JUN01JUN 7 180320 JFK0700 0800JFK JJ\n\
    NBA202 BA702 01JUN01JUN 7 180320 JFK0600 0800JFK JJ\n";

/// A season behind which none follows.
const LAST_CAPACITY: &str = "AIRPORT ABC\nSEASON S99\nSTEP 5\nFLEX 60\nGROUND 40\nREFUSE NONE\n\
    CAP ARR 60 0600 0600 1234567 1\n";

/// The requests of that season.
const LAST_REQUESTS: &str = "SCR\nS99\n20NOV\nABC\n\
    FBA001 29MAR19APR 7 180320 JFK0610 J\nNBA002 29MAR 7 180320 JFK0630 J\n";

/// Puts the capacity file and the requests of a season.
pub fn put_season(
    alloc: Global,
    draws: &mut Draws,
    case: u64,
    given: &mut Given,
) -> Result<(), Memory> {
    if draws.once_in(40) {
        put_bytes(alloc, given, "CAP", LAST_CAPACITY.as_bytes())?;
        return put_bytes(alloc, given, "SCR", LAST_REQUESTS.as_bytes());
    }
    let mut requests = String::from_str(alloc, HEAD)?;
    put_requests(draws, &mut requests, case)?;
    put_capacity_file(alloc, draws, given, &mut requests)?;
    given.put(alloc, "SCR", requests.into_bytes())
}

/// Puts a capacity file; where it is that of a knot, the knot is requested, too.
fn put_capacity_file(
    alloc: Global,
    draws: &mut Draws,
    given: &mut Given,
    requests: &mut String,
) -> Result<(), Memory> {
    if draws.once_in(8) {
        requests.push_str(KNOT)?;
        return put_bytes(alloc, given, "CAP", KNOT_CAPACITY.as_bytes());
    }
    let mut text = String::new(alloc);
    put_capacity(draws, &mut text)?;
    given.put(alloc, "CAP", text.into_bytes())
}

/// Appends a capacity file of at most three lines.
fn put_capacity(draws: &mut Draws, text: &mut String) -> Result<(), Memory> {
    let step = draws.pick(&[
        "STEP 5\nFLEX 30",
        "STEP 5\nFLEX 0",
        "STEP 10\nFLEX 60",
        "STEP 15\nFLEX 45",
        "STEP 60\nFLEX 120",
    ]);
    let share = draws.pick(&["", "", "SHARE 0\n", "SHARE 34\n", "SHARE 100\n"]);
    let refuse = draws.pick(&["NONE", "10", "1", "9999"]);
    let night = draws.pick(&["", "", "NIGHT 2300 0500 3\n", "NIGHT 0600 0620 40\n"]);
    write!(
        text,
        "AIRPORT ABC\nSEASON S25\n{step}\nGROUND 40\n{share}REFUSE {refuse}\n{night}"
    )?;
    for _ in 0..draws.below(4) {
        put_rule(draws, text)?;
    }
    Ok(())
}

fn put_rule(draws: &mut Draws, text: &mut String) -> Result<(), Memory> {
    let kind = draws.pick(&["ARR", "ARR", "DEP", "TOT"]);
    let length = draws.pick(&["60", "30", "20", "180"]);
    let starts = draws.pick(&["0600 0600", "0600 0630", "0555 0700", "2330 2330"]);
    let days = draws.pick(&["1234567", "1234567", "67", "1234500", "0000007"]);
    let limit = draws.below(4);
    write!(text, "CAP {kind} {length} {starts} {days} {limit}\n")?;
    Ok(())
}

/// Appends the requests of a season behind their header: one message, or two, of the first series
/// of the case.
fn put_requests(draws: &mut Draws, text: &mut String, case: u64) -> Result<(), Memory> {
    for number in 0..draws.below(7) {
        if draws.once_in(12) {
            text.push('\n')?;
            text.push_str(HEAD)?;
        }
        put_request(draws, text, &series_of(case, number))?;
    }
    Ok(())
}

fn put_request(draws: &mut Draws, text: &mut String, series: &Series) -> Result<(), Memory> {
    match draws.below(8) {
        0 | 1 => put_line(text, "F", series),
        2 => put_pair(draws, text, "R", series),
        3 => put_pair(draws, text, "L", series),
        4 | 5 => put_line(text, "N", series),
        _ => put_line(text, "B", series),
    }
}

/// Appends a message of at most five asks, with its empty line. Some ask about lines that replies
/// gave.
pub fn put_message(
    draws: &mut Draws,
    text: &mut String,
    case: u64,
    held: &str,
) -> Result<(), Memory> {
    text.push_str(HEAD)?;
    for _ in 0..draws.below(6) {
        put_ask(draws, text, case, held)?;
    }
    text.push('\n')?;
    Ok(())
}

fn put_ask(draws: &mut Draws, text: &mut String, case: u64, held: &str) -> Result<(), Memory> {
    let number = draws.below(MOST_SERIES);
    let series = series_of(case, number);
    match draws.below(12) {
        0..=3 => {
            let code = draws.pick(&["N", "B", "Y", "V"]);
            put_line(text, code, &series)
        }
        4 => {
            let part = narrowed(draws, series);
            put_line(text, "D", &part)
        }
        5 | 6 => {
            let code = draws.pick(&["R", "L", "I"]);
            put_pair(draws, text, code, &series)
        }
        7 => {
            let code = draws.pick(&["D", "Z", "A", "F"]);
            put_line(text, code, &series)
        }
        8 => put_query(text, number),
        _ => put_held(draws, text, held, number),
    }
}

fn put_query(text: &mut String, number: u64) -> Result<(), Memory> {
    let flight = number.wrapping_add(100);
    write!(text, "QBA{flight}\n")?;
    Ok(())
}

/// Appends an ask about one of the lines that replies gave; a query where there is none.
fn put_held(draws: &mut Draws, text: &mut String, held: &str, number: u64) -> Result<(), Memory> {
    let code = draws.pick(&["A", "A", "Z", "D"]);
    let place = draws.place(held.lines().count());
    match held.lines().nth(place) {
        Some(line) => {
            write!(text, "{code}{line}\n")?;
            Ok(())
        }
        None => put_query(text, number),
    }
}

/// A message that asks for all flights of a case, with its empty line.
pub fn queries_text(alloc: Global) -> Result<String, Memory> {
    let mut text = String::new(alloc);
    put_queries(&mut text)?;
    Ok(text)
}

fn put_queries(text: &mut String) -> Result<(), Memory> {
    text.push_str(HEAD)?;
    for number in 0..MOST_SERIES {
        put_query(text, number)?;
    }
    text.push_str("QBA200\nQBA201\nQBA202\n\n")?;
    Ok(())
}

/// Appends reports of what was operated of the first series of a case.
pub fn put_reports(draws: &mut Draws, text: &mut String, case: u64) -> Result<(), Memory> {
    for _ in 0..draws.below(12) {
        let series = series_of(case, draws.below(7));
        put_report(draws, text, series)?;
    }
    Ok(())
}

fn put_report(draws: &mut Draws, text: &mut String, series: Series) -> Result<(), Memory> {
    let part = if draws.once_in(3) {
        narrowed(draws, series)
    } else {
        series
    };
    let (first, last) = (part.first, part.last);
    let kind = draws.pick(&["ARR", "DEP"]);
    let flight = part.number.wrapping_add(draws.below(2).wrapping_mul(500));
    write!(
        text,
        "OPER {kind} BA{flight} {first:02}JUN{last:02}JUN 1234567\n"
    )?;
    Ok(())
}
