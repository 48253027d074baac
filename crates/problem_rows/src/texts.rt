//! The texts of rows: pieces between strokes, numbers between blanks.

use std::alloc::Global;
use std::process::Abort;

/// What a row gives, before its last `=`, and what it wants.
pub(crate) fn halves(row: &str) -> (&str, &str) {
    match row.split_once('=') {
        Some((given, want)) => (given.trim(), want.trim()),
        None => (row, ""),
    }
}

/// A piece of a row between strokes, from 0; past the last one an empty text.
pub(crate) fn piece(row: &str, number: usize) -> &str {
    for (place, text) in row.split('|').enumerate() {
        if place == number {
            return text.trim();
        }
    }
    ""
}

/// What the rows of a table are about.
pub(crate) trait Case {
    /// What is found for what a row gives.
    fn find(rt: &impl Abort, alloc: Global, given: &str) -> String;
}

/// Walks the rows, and ends at the first whose finding is not what it wants.
pub(crate) fn walk<C: Case>(rt: &impl Abort, alloc: Global, rows: &str) {
    for row in rows.lines() {
        let (given, _) = halves(row);
        let found = C::find(rt, alloc, given);
        check(rt, row, &found);
    }
}

/// What is found for a row has to be what it wants.
pub(crate) fn check(rt: &impl Abort, row: &str, found: &str) {
    let (_, want) = halves(row);
    assert!(rt; found.trim() == want, "{row} has {found}");
}

/// Adds a word, and a number behind it.
pub(crate) fn add(rt: &impl Abort, out: &mut String, word: &str, number: i128) {
    out.push_str(word).expect(rt, "memory");
    write!(out, "{number}").expect(rt, "memory");
}

/// The word for a truth.
pub(crate) fn yes_no(rt: &impl Abort, alloc: Global, truth: bool) -> String {
    String::from_str(alloc, if truth { "yes" } else { "no" }).expect(rt, "memory")
}

/// What stands for a number that is left out.
pub(crate) const NONE: i128 = -1 << 100;

/// The numbers of a text. A word that is no number is `NONE`.
pub(crate) fn numbers(rt: &impl Abort, alloc: Global, text: &str) -> Vec<i128> {
    let mut numbers = Vec::new(alloc);
    for word in text.split_whitespace() {
        numbers
            .push(word.parse::<i128>().unwrap_or(NONE))
            .expect(rt, "memory");
    }
    numbers
}

/// The number with which a text begins, cut to 32 bits, or 0.
pub(crate) fn number(rt: &impl Abort, alloc: Global, text: &str) -> u32 {
    let numbers = numbers(rt, alloc, text);
    small_at(&numbers, 0)
}

/// The number at a place, or 0.
pub(crate) fn at(numbers: &[i128], place: usize) -> i128 {
    if place < numbers.len() {
        numbers[place]
    } else {
        0
    }
}

/// The number at a place, cut to 32 bits.
pub(crate) fn small_at(numbers: &[i128], place: usize) -> u32 {
    let number = at(numbers, place);
    if number < 0 {
        0
    } else if number > 4_294_967_295 {
        4_294_967_295
    } else {
        number as u32
    }
}

/// The number at a place, cut to 62 bits and a sign.
pub(crate) fn long_at(numbers: &[i128], place: usize) -> i64 {
    let number = at(numbers, place);
    if number < -1 {
        -1
    } else if number > 4_611_686_018_427_387_904 {
        4_611_686_018_427_387_904
    } else {
        number as i64
    }
}

/// The number of a text, if it is one.
pub(crate) fn seen(text: &str) -> Option<u64> {
    text.parse::<u64>().ok()
}
