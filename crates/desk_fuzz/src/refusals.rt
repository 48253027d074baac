//! What a refusal names: a file, a line, a limit or a slot, and why, by the bytes of what was
//! given.

use crate::plain::{declared, lines_with, windows_of};
use crate::seen::Seen;
use drawn_worlds::{Command, field, file_text, has_name, number, word};
use memory_desk::Given;
use slot_text::Memory;
use std::alloc::Global;

/// The most bytes of a file that is read, but for a certificate.
const MOST_BYTES: usize = 4_194_304;

/// How a journal begins, and how many bytes each of its slots has.
const JOURNAL: &[u8] = b"SLOT JOURNAL 01\n";

const SLOT: usize = 256;

/// Whether what a refusal names is a thing of the command's, and what is said of it can be so.
pub fn is_named(
    alloc: Global,
    command: Command,
    given: &Given,
    seen: &Seen,
) -> Result<bool, Memory> {
    let line = line_at(&seen.said, 1);
    Ok(match seen.status {
        1 => is_verdict(alloc, command, given, line)?,
        3 => is_form_line(command, given, line),
        4 => is_limit(command, seen.before("CAP"), line),
        5 => is_cabinet_line(command, given, line),
        13 => is_journal_line(given, line),
        _ => true,
    })
}

fn is_form_line(command: Command, given: &Given, line: &str) -> bool {
    let name = word(line, 1);
    has_name(command.reads(), name) && is_line_of(given, name, number(line, 2))
}

/// A line of a text, by its number from 1; empty where there is none.
fn line_at(text: &str, place: u64) -> &str {
    let mut left = place;
    for line in text.lines() {
        left = left.saturating_sub(1);
        if left == 0 {
            return line;
        }
    }
    ""
}

/// Whether a verdict names a line of the certificate, or of the stage beside it, and a reason that
/// a line of this kind can have.
fn is_verdict(alloc: Global, command: Command, given: &Given, line: &str) -> Result<bool, Memory> {
    if word(line, 1) != "EXTRA" {
        return is_reason_in(alloc, given.file("CERT"), number(line, 1), word(line, 2));
    }
    if command != Command::Recheck {
        return Ok(false);
    }
    is_reason_in(alloc, given.file("EXTRA"), number(line, 2), word(line, 3))
}

fn is_reason_in(
    alloc: Global,
    bytes: Option<&[u8]>,
    place: Option<u64>,
    reason: &str,
) -> Result<bool, Memory> {
    let text = file_text(alloc, bytes)?;
    Ok(is_reason(&text, place, reason))
}

fn is_reason(text: &str, place: Option<u64>, reason: &str) -> bool {
    let line = line_at(text, place.unwrap_or(0));
    let reasons = match word(line, 0) {
        "STAGE" => "MARK",
        "CHOICES" => "MARK UNITS",
        "C" => "CHOICE",
        "COST" => "COST FIT",
        "BOUND" => "BOUND",
        "P" => "PRICE",
        "FIX" => "FIXING",
        "TREE" => "SHAPE CLOSED",
        "S" => "SPLIT",
        "L" => "LEAF",
        "O" => "OVER",
        "U" => "UNDONE FLOOR",
        _ => "",
    };
    has_name(reasons, reason)
}

/// Whether a number is that of a line of the file, or of one behind its last.
fn is_line_of(given: &Given, name: &str, place: Option<u64>) -> bool {
    let bytes = given.file(name).unwrap_or(b"");
    let mut ends = 0_u64;
    for byte in bytes {
        ends = ends.saturating_add(u64::from(*byte == b'\n'));
    }
    match place {
        Some(line) => 1 <= line && line <= ends.saturating_add(2),
        None => false,
    }
}

/// Whether a limit is passed by its number, and the number is that of the files where it is plain.
fn is_limit(command: Command, capacity: &str, line: &str) -> bool {
    let value = number(line, 2).unwrap_or(0);
    match word(line, 1) {
        "FLEX" => value > 120 && declared(capacity, "FLEX") == word(line, 2),
        "CAPS" => value > 64 && lines_with(capacity, "CAP") == value,
        "WINDOWS" => value > 1_000_000 && windows_of(capacity) == value,
        "UNITS" => value > 4096,
        "WAITING" => value > 4096 && (command == Command::Reclear || command == Command::Recheck),
        _ => false,
    }
}

fn is_cabinet_line(command: Command, given: &Given, line: &str) -> bool {
    let name = word(line, 1);
    let failed = match given.fails.cabinet {
        Some(failure) => command.file_of(usize::try_from(failure.call).unwrap_or(usize::MAX)),
        None => "",
    };
    let is_read = has_name(command.reads(), name);
    match word(line, 2) {
        "MISSING" => is_read && given.file(name).is_none(),
        "LARGE" => is_read && given.file(name).unwrap_or(b"").len() > MOST_BYTES,
        "READ" => is_read && name == failed,
        "WRITE" => has_name(command.writes(), name) && name == failed,
        _ => false,
    }
}

/// Whether a journal is refused for what its file is: there is none, it begins as none does, or one
/// of its slots is open.
fn is_journal_line(given: &Given, line: &str) -> bool {
    let Some(bytes) = &given.journal else {
        return line == "JOURNAL NONE";
    };
    let is_journal = bytes.as_slice().starts_with(JOURNAL);
    match word(line, 1) {
        "OTHER" => bytes.len() > JOURNAL.len().saturating_add(1) && !is_journal,
        "SLOT" => is_journal && is_open(bytes.as_slice(), number(line, 2)),
        _ => false,
    }
}

/// Whether a slot has an open gate, and each before it.
fn is_open(bytes: &[u8], slot: Option<u64>) -> bool {
    match slot {
        Some(slot) => slot < open_slots(bytes),
        None => false,
    }
}

/// How many slots at the front of a journal have open gates: none in a file that is made anew, of
/// no more than the first gate.
pub fn open_slots(journal: &[u8]) -> u64 {
    let mut gate = JOURNAL.len();
    let mut count = 0_u64;
    if journal.len() <= gate.saturating_add(1) {
        return 0;
    }
    for _ in 0..SLOT {
        if journal.get(gate).copied() != Some(1) {
            return count;
        }
        count = count.saturating_add(1);
        gate = gate.saturating_add(SLOT);
    }
    count
}

/// Whether the second line of a refused season can be the cause of the first one.
pub fn is_cause(seen: &Seen) -> bool {
    let first = line_at(&seen.said, 1);
    let cause = line_at(&seen.said, 2);
    let name = word(first, 1);
    if word(first, 0) == "LIMIT" {
        return is_most(name, cause);
    }
    let text = seen.before(name);
    let line = line_at(text, number(first, 2).unwrap_or(0));
    match name {
        "CAP" => is_cause_of_rules(text, line, cause),
        "SCR" => is_cause_of_requests(line, cause),
        _ => false,
    }
}

fn is_most(limit: &str, cause: &str) -> bool {
    let due = match limit {
        "FLEX" => "MOST 120",
        "CAPS" => "MOST 64",
        "WINDOWS" => "MOST 1000000",
        "UNITS" => "MOST 4096",
        _ => return false,
    };
    cause == due
}

fn is_cause_of_rules(text: &str, line: &str, cause: &str) -> bool {
    match word(cause, 0) {
        "MISSING" => lines_with(text, word(cause, 1)) == 0,
        "TWICE" => lines_with(text, word(cause, 1)) > 1 && field(line, 0) == word(cause, 1),
        "LONG" => line.len() > 200,
        "BLANK" => has_blank(line, true),
        "FIELD" => is_field("WORD VALUE KIND LENGTH FROM TO DAYS LIMIT END", cause),
        "STEP" => field(line, 0) == "FLEX",
        _ => false,
    }
}

fn is_cause_of_requests(line: &str, cause: &str) -> bool {
    let second = word(cause, 1);
    match word(cause, 0) {
        "LONG" => line.len() > 200,
        "BLANK" => has_blank(line, false),
        "FIELD" => is_field(
            "CODE FLIGHT PERIOD DAYS SEATS ARRIVAL DEPARTURE SERVICE END",
            cause,
        ),
        "HEADER" => has_name("SCR SEASON DATE AIRPORT", second),
        "UNPAIRED" => begins_with_one(line, "CRLI"),
        "OTHER" => has_name("SEASON AIRPORT", second),
        "CODE" => begins_with_one(line, "DAZQ") && line.starts_with(second),
        _ => false,
    }
}

/// Whether a cause names a field by a number, and as one of these.
fn is_field(names: &str, cause: &str) -> bool {
    let place = number(cause, 1).unwrap_or(0);
    1 <= place && place <= 9 && has_name(names, word(cause, 2))
}

/// Whether a line begins with a blank, or ends with one where that counts.
fn has_blank(line: &str, counts_end: bool) -> bool {
    line.starts_with(' ')
        || line.starts_with('\t')
        || counts_end && (line.ends_with(' ') || line.ends_with('\t'))
}

/// Whether the first character of a line is one of these.
fn begins_with_one(line: &str, codes: &str) -> bool {
    match line.chars().next() {
        Some(first) => codes.contains(first),
        None => false,
    }
}
