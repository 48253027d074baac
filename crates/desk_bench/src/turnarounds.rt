//! Seasons of daily turnarounds.

use crate::report::Size;
use crate::texts::submission_of;
use series_model::Submission;
use slot_text::{Memory, put_padded};
use std::alloc::Global;

/// A capacity line of a window of an hour each five minutes, with a limit that does not hold all
/// movements of the size.
pub fn busy_line(size: Size) -> &'static [u8] {
    match size {
        Size::Short => b"CAP TOT 60 0000 2355 1234567 1\n",
        Size::Full => b"CAP TOT 60 0000 2355 1234567 60\n",
    }
}

/// The submission of so many units, which have these action codes in turn, under so many of these
/// capacity lines. The texts have no fault but want of memory.
pub fn submission(
    alloc: Global,
    units: u32,
    codes: [u8; 4],
    lines: u32,
    line: &[u8],
) -> Result<Submission, Memory> {
    let capacity = capacity_text(alloc, lines, line)?;
    requested(alloc, &capacity, units, codes)
}

fn requested(
    alloc: Global,
    capacity: &[u8],
    units: u32,
    codes: [u8; 4],
) -> Result<Submission, Memory> {
    let mut requests = Vec::new(alloc);
    put_requests(alloc, &mut requests, units, codes)?;
    submission_of(alloc, capacity, &requests).ok_or(Memory)
}

// A capacity file with a step of five minutes and an hour to either side of a requested time.
fn capacity_text(alloc: Global, lines: u32, line: &[u8]) -> Result<Vec<u8>, Memory> {
    let mut text = Vec::new(alloc);
    put_capacity(&mut text, lines, line)?;
    Ok(text)
}

fn put_capacity(text: &mut Vec<u8>, lines: u32, line: &[u8]) -> Result<(), Memory> {
    text.extend_from_slice(b"AIRPORT ABC\nSEASON S25\nSTEP 5\nFLEX 60\nGROUND 0\nREFUSE NONE\n")?;
    for _ in 0..lines {
        text.extend_from_slice(line)?;
    }
    Ok(())
}

// A message of daily turnarounds of two hours, spread over the day, with these action codes in
// turn.
fn put_requests(
    alloc: Global,
    text: &mut Vec<u8>,
    units: u32,
    codes: [u8; 4],
) -> Result<(), Memory> {
    text.extend_from_slice(b"SCR\nS25\n20NOV\nABC\n")?;
    for number in 0..units {
        text.push(codes[(number % 4) as usize])?;
        put_request(alloc, text, u64::from(number))?;
    }
    Ok(())
}

// Appends what follows the action code of a turnaround.
fn put_request(alloc: Global, text: &mut Vec<u8>, number: u64) -> Result<(), Memory> {
    let minute = 5 * (number % 12);
    let arrival = 100 * (4 + number % 15) + minute;
    put_word(alloc, text, b"BA", number % 10_000)?;
    put_word(alloc, text, b" BA", number % 10_000)?;
    put_word(alloc, text, b" 30MAR25OCT 1234567 180320 JFK", arrival)?;
    put_word(alloc, text, b" ", arrival + 200)?;
    text.extend_from_slice(b"JFK JJ\n")?;
    Ok(())
}

// Appends a text and behind it a number of four digits.
fn put_word(alloc: Global, text: &mut Vec<u8>, front: &[u8], value: u64) -> Result<(), Memory> {
    text.extend_from_slice(front)?;
    put_padded(alloc, text, value, 4)
}
