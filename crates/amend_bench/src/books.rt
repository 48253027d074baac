//! Books with which amendments begin.

ghost use Rattle.std.specs.Prelude.{◌≤◌, length};
ghost use Rattle.season_days.specs.Capacity.{IsDeclaration};
ghost use Rattle.amend_bench.specs.declared.books.TheConstants.{MOST_BYTES};

use crate::report::Size;
use capacity_file::read_capacity;
use desk_outside::{Cabinet, RealCabinet};
use holding_book::Book;
use scr_reader::laws::read_lines_fit;
use scr_reader::read_all;
use season_days::Declaration;
use season_run::run_season;
use series_model::Submission;
use series_model::laws::read_messages;
use slot_text::{Memory, put_number, put_padded};
use std::alloc::Global;
use std::rt::Files;
use std::thread::Threads;
use wasg_stages::laws::valid_choices;
use worker_gate::RealGate;

// The most bytes of a text that is read.
const MOST_BYTES: usize = 10_000_000;

/// The book of a capacity file and a file of requests, which the words after the first one name;
/// without such words the made book of the size and the first word. None where a file cannot be
/// read or has a fault.
pub fn book_of<R: Threads + Sync + Files>(
    rt: &R,
    alloc: Global,
    size: Size,
    word: &str,
    words: &[String],
) -> Result<Option<Book>, Memory> {
    match season_of(rt, alloc, size, word, words)? {
        Some(season) => run_book(rt, alloc, &season),
        None => Ok(None),
    }
}

fn season_of<R: Files>(
    rt: &R,
    alloc: Global,
    size: Size,
    word: &str,
    words: &[String],
) -> Result<Option<Submission>, Memory> {
    if words.len() < 3 {
        let (holdings, lines) = made_size(size, word);
        made_season(alloc, holdings, lines)
    } else {
        Ok(season_of_files(rt, alloc, &words[1], &words[2]))
    }
}

// How many holdings the made book has, and how many capacity lines, for the benchmark of this word.
fn made_size(size: Size, word: &str) -> (u32, u32) {
    match size {
        Size::Short => (20, 2),
        Size::Full if word == "usage" => (4_000, 1),
        Size::Full => (500, 16),
    }
}

// The made season of so many holdings and capacity lines.
fn made_season(alloc: Global, holdings: u32, lines: u32) -> Result<Option<Submission>, Memory> {
    let capacity = capacity_text(alloc, lines, u64::from(holdings / 5))?;
    let requests = request_text(alloc, holdings)?;
    Ok(submission_of(alloc, &capacity, &requests))
}

// The season of two files, unless one of them cannot be read or has a fault.
fn season_of_files<R: Files>(
    rt: &R,
    alloc: Global,
    capacity: &str,
    requests: &str,
) -> Option<Submission> {
    let mut cabinet = RealCabinet::new(rt);
    let capacity = cabinet.read(alloc, capacity, MOST_BYTES).ok()?;
    let requests = cabinet.read(alloc, requests, MOST_BYTES).ok()?;
    submission_of(alloc, &capacity, &requests)
}

// The submission of a capacity file and messages, unless one of them is too long or has a fault.
fn submission_of(alloc: Global, capacity: &[u8], requests: &[u8]) -> Option<Submission> {
    if capacity.len() > MOST_BYTES || requests.len() > MOST_BYTES {
        return None;
    }
    let declaration = read_capacity(alloc, capacity).ok()?;
    declared(alloc, declaration, requests)
}

// The submission of a declaration and messages, unless they have a fault.
fn declared(alloc: Global, declaration: Declaration, requests: &[u8]) -> Option<Submission>
    requires keeps { IsDeclaration declaration }
    requires few { length requests.now ≤ MOST_BYTES }
{
    read_lines_fit();
    read_messages();
    let messages = read_all(alloc, requests).ok()?;
    Submission::make(alloc, declaration, messages).ok()
}

// The book of the certificate of a season.
fn run_book<R: Threads + Sync>(
    rt: &R,
    alloc: Global,
    season: &Submission,
) -> Result<Option<Book>, Memory> {
    valid_choices();
    let cert = run_season(rt, alloc, season, 100_000, 1, &RealGate)?;
    Ok(Some(Book::of(alloc, season, &cert)?))
}

// A capacity file with so many lines of windows of an hour each five minutes of the day.
fn capacity_text(alloc: Global, lines: u32, limit: u64) -> Result<Vec<u8>, Memory> {
    let mut text = Vec::new(alloc);
    put_capacity(alloc, &mut text, lines, limit)?;
    Ok(text)
}

fn put_capacity(alloc: Global, text: &mut Vec<u8>, lines: u32, limit: u64) -> Result<(), Memory> {
    text.extend_from_slice(b"AIRPORT ABC\nSEASON S25\nSTEP 5\nFLEX 60\nGROUND 40\nREFUSE 120\n")?;
    for _ in 0..lines {
        text.extend_from_slice(b"CAP TOT 60 0000 2355 1234567 ")?;
        put_number(alloc, text, limit)?;
        text.push(b'\n')?;
    }
    Ok(())
}

// Historic turnarounds of half an hour on 200 dates, each in one of ten hours, which they fill.
fn request_text(alloc: Global, units: u32) -> Result<Vec<u8>, Memory> {
    let mut text = Vec::new(alloc);
    put_requests(alloc, &mut text, units)?;
    Ok(text)
}

fn put_requests(alloc: Global, text: &mut Vec<u8>, units: u32) -> Result<(), Memory> {
    text.extend_from_slice(b"SCR\nS25\n20NOV\nABC\n")?;
    for unit in 0..units {
        put_request(alloc, text, u64::from(unit))?;
    }
    Ok(())
}

// Appends the line of a turnaround.
fn put_request(alloc: Global, text: &mut Vec<u8>, unit: u64) -> Result<(), Memory> {
    let arrival = 100 * (4 + 2 * (unit % 10)) + 5 * (unit / 10 % 6);
    put_word(alloc, text, b"FBA", unit % 10_000)?;
    put_word(alloc, text, b" BA", unit % 10_000)?;
    put_word(alloc, text, b" 04APR20OCT 1234567 180320 JFK", arrival)?;
    put_word(alloc, text, b" ", arrival + 30)?;
    text.extend_from_slice(b"JFK JJ\n")?;
    Ok(())
}

/// Appends a text and behind it a number of four digits.
pub fn put_word(alloc: Global, text: &mut Vec<u8>, front: &[u8], value: u64) -> Result<(), Memory> {
    text.extend_from_slice(front)?;
    put_padded(alloc, text, value, 4)
}
