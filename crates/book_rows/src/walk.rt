//! Tables of rows, each a line `GIVEN = WANTED`.

use crate::answers::{ask, put_answer, put_holdings};
use crate::books::start_book;
use crate::lines::{data_lines, halves};
use holding_book::Book;
use std::alloc::Global;
use std::process::Abort;

/// Walks the rows: what is found of each is what it wants. A row with strokes begins a new season,
/// and has a star before it where it is not the first: the lines of the capacity file, the
/// requests, and the stages of the certificate; wanted are the holdings. `book` wants the holdings
/// as they are by now. Every other row is an ask, and wants the lines of the answer.
pub(crate) fn walk(rt: &impl Abort, alloc: Global, rows: &str) {
    for season in rows.split('*') {
        walk_season(rt, alloc, season);
    }
}

// Walks the rows of one season.
fn walk_season(rt: &impl Abort, alloc: Global, rows: &str) {
    let mut book = begun(rt, alloc, rows);
    walk_rows(rt, alloc, &mut book, rows);
}

// The book of the season with which the rows begin.
fn begun(rt: &impl Abort, alloc: Global, rows: &str) -> Book {
    let (capacity, rest) = halves(rows, '|');
    let (requests, rest) = halves(rest, '|');
    let (stages, _) = halves(rest, '=');
    start_book(rt, alloc, capacity, requests, stages.trim())
}

fn walk_rows(rt: &impl Abort, alloc: Global, book: &mut Book, rows: &str) {
    for row in rows.lines() {
        check_row(rt, alloc, book, row);
    }
}

fn check_row(rt: &impl Abort, alloc: Global, book: &mut Book, row: &str) {
    let (given, wanted) = halves(row, '=');
    let mut found = Vec::new(alloc);
    find(rt, alloc, book, given.trim(), &mut found);
    compare(rt, alloc, &found, row, wanted);
}

// Appends what a row finds: the lines of the holdings, or of the answer to an ask.
fn find(rt: &impl Abort, alloc: Global, book: &mut Book, given: &str, out: &mut Vec<u8>) {
    if given == "book" || given.contains('|') {
        put_holdings(rt, alloc, out, &book.declaration().season, book.holdings());
    } else {
        answer(rt, alloc, book, given, out);
    }
}

// Appends the lines of the answer to an ask.
fn answer(rt: &impl Abort, alloc: Global, book: &mut Book, given: &str, out: &mut Vec<u8>) {
    assert!(rt; book.count() <= 1_000_000, "too many holdings");
    let ask = ask(rt, alloc, book.declaration(), given);
    let answer = book.apply(alloc, &ask).expect(rt, "memory");
    put_answer(rt, alloc, out, &book.declaration().season, &ask, &answer);
}

// The row wants the lines that were found.
fn compare(rt: &impl Abort, alloc: Global, found: &[u8], row: &str, wanted: &str) {
    let wanted = data_lines(rt, alloc, wanted.trim());
    if found != wanted.as_bytes() {
        let found = String::from_utf8_lossy(alloc, found).expect(rt, "memory");
        panic!(rt; "{row} has {found}");
    }
}
