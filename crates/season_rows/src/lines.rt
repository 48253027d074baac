//! Rows of tables, lines of texts, and texts with some lines in place of others.

use std::alloc::Global;
use std::process::Abort;

/// A row: the lines from one number to another, what stands in their place, and what is wanted.
#[derive(Clone, Copy)]
pub struct Row<'a> {
    pub wanted: &'a str,
    pub from: u32,
    pub to: u32,
    pub lines: &'a str,
}

/// A row as it is written: what is wanted, a bar, two numbers of lines, and the lines that stand
/// in their place, with a stroke between two; none where there are no more fields.
pub fn read_row<'a>(rt: &impl Abort, text: &'a str) -> Row<'a> {
    let (wanted, change) = halves(text, '|');
    let (from, rest) = halves(change, ' ');
    let (to, lines) = halves(rest, ' ');
    Row {
        wanted,
        from: from.parse::<u32>().expect(rt, "the first line of a row"),
        to: to.parse::<u32>().expect(rt, "the last line of a row"),
        lines,
    }
}

/// What stands before the first mark, and what stands behind it: nothing, where it is not there.
pub fn halves(text: &str, mark: char) -> (&str, &str) {
    text.split_once(mark).unwrap_or((text, ""))
}

/// What stands before the last mark, and what stands behind it: nothing, where it is not there.
pub fn last_halves(text: &str, mark: char) -> (&str, &str) {
    text.rsplit_once(mark).unwrap_or((text, ""))
}

/// What was found in a row is what is wanted.
pub fn check_found(rt: &impl Abort, row: &str, found: &str, wanted: &str) {
    assert!(rt; found == wanted, "{row} has {found}");
}

/// The text with the lines of a row in place of those that it names.
pub fn with_row(rt: &impl Abort, alloc: Global, text: &str, row: &Row) -> String {
    let mut out = String::new(alloc);
    let mut at = 0_u32;
    for line in text.split_inclusive('\n') {
        at = at.wrapping_add(1);
        if at == row.from && !row.lines.is_empty() {
            put_lines(rt, &mut out, row.lines, '/');
        }
        if at < row.from || at > row.to {
            out.push_str(line).expect(rt, "memory");
        }
    }
    out
}

/// Adds the lines of a text in which marks stand between them.
pub fn put_lines(rt: &impl Abort, out: &mut String, lines: &str, mark: char) {
    for line in lines.split(mark) {
        out.push_str(line).expect(rt, "memory");
        out.push('\n').expect(rt, "memory");
    }
}

/// The lines of a text in which semicolons stand between them.
pub fn lines(rt: &impl Abort, alloc: Global, text: &str) -> String {
    let mut out = String::new(alloc);
    put_lines(rt, &mut out, text, ';');
    out
}

/// The numbers of a text, with blanks between; of an empty text none.
pub fn numbers(rt: &impl Abort, alloc: Global, text: &str) -> Vec<u32> {
    let mut numbers = Vec::new(alloc);
    for word in text.split(' ') {
        if !word.is_empty() {
            let number = word.parse::<u32>().expect(rt, "a number");
            numbers.push(number).expect(rt, "memory");
        }
    }
    numbers
}

/// Adds numbers, with a blank before each.
pub fn put_numbers(rt: &impl Abort, out: &mut String, numbers: &[u32]) {
    for number in numbers {
        write!(out, " {number}").expect(rt, "memory");
    }
}
