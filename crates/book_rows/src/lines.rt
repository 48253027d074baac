//! Lines of messages in a short form.

use std::alloc::Global;
use std::process::Abort;

/// Appends texts, one behind the other.
pub(crate) fn put_texts(rt: &impl Abort, out: &mut String, texts: &[&str]) {
    for text in texts {
        out.push_str(text).expect(rt, "memory");
    }
}

/// Appends a word, a number and a text behind them.
pub(crate) fn put_number(
    rt: &impl Abort,
    out: &mut String,
    word: &str,
    number: usize,
    behind: &str,
) {
    write!(out, "{word} {number}{behind}").expect(rt, "memory");
}

/// Appends the lines of a text in which semicolons stand between them.
pub(crate) fn put_lines(rt: &impl Abort, out: &mut String, text: &str) {
    for line in text.split(';') {
        put_texts(rt, out, &[line, "\n"]);
    }
}

/// What stands before a mark, and what stands behind it: nothing, where it is not there.
pub(crate) fn halves(text: &str, mark: char) -> (&str, &str) {
    text.split_once(mark).unwrap_or((text, ""))
}

/// The data lines for which a text stands, none for an empty one. Semicolons stand between lines. A
/// line of two fields, as `NBA001 0610`, is an arrival from JFK on each day of S25; one of four, as
/// `NBA001 05MAY05MAY 1000000 0610`, is one in a period. Every other line stands as it is.
pub(crate) fn data_lines(rt: &impl Abort, alloc: Global, text: &str) -> String {
    let mut out = String::new(alloc);
    put_data_lines(rt, &mut out, text);
    out
}

fn put_data_lines(rt: &impl Abort, out: &mut String, text: &str) {
    if text.is_empty() {
        return;
    }
    for line in text.split(';') {
        put_data_line(rt, out, line);
    }
}

fn put_data_line(rt: &impl Abort, out: &mut String, line: &str) {
    let (dated, time) = line.rsplit_once(' ').unwrap_or((line, ""));
    match line.split(' ').count() {
        2 => put_texts(
            rt,
            out,
            &[dated, " 30MAR25OCT 1234567 180320 JFK", time, " J\n"],
        ),
        4 => put_texts(rt, out, &[dated, " 180320 JFK", time, " J\n"]),
        _ => put_texts(rt, out, &[line, "\n"]),
    }
}

/// The lines of one message of S25 at ABC with these data lines.
pub(crate) fn message(rt: &impl Abort, alloc: Global, items: &str) -> String {
    let mut out = String::new(alloc);
    out.push_str("SCR\nS25\n20NOV\nABC\n").expect(rt, "memory");
    put_data_lines(rt, &mut out, items);
    out
}
