//! Texts of files, and their words.

use memory_desk::Given;
use slot_text::Memory;
use std::alloc::Global;

/// Puts a file of these bytes.
pub fn put_bytes(alloc: Global, given: &mut Given, name: &str, bytes: &[u8]) -> Result<(), Memory> {
    given.put(alloc, name, Vec::from_slice(alloc, bytes)?)
}

/// Appends bytes, each as the character of its number.
pub fn put_text(text: &mut String, bytes: &[u8]) -> Result<(), Memory> {
    for byte in bytes {
        text.push(char::from(*byte))?;
    }
    Ok(())
}

/// The text of a file, empty where it is not there.
pub fn file_text(alloc: Global, bytes: Option<&[u8]>) -> Result<String, Memory> {
    let mut text = String::new(alloc);
    put_text(&mut text, bytes.unwrap_or(b""))?;
    Ok(text)
}

/// A word of a line, by its number from 0; empty where there is none.
pub fn word(line: &str, number: usize) -> &str {
    line.split(' ').nth(number).unwrap_or("")
}

/// A word of a line as a number.
pub fn number(line: &str, place: usize) -> Option<u64> {
    word(line, place).parse().ok()
}

/// A field of a line whose fields have any number of blanks between them.
pub fn field(line: &str, number: usize) -> &str {
    line.split_whitespace().nth(number).unwrap_or("")
}

/// Whether two files are the same: both not there, or with the same bytes.
pub fn are_same(one: Option<&[u8]>, other: Option<&[u8]>) -> bool {
    one == other
}

/// Whether both files are there, and the bytes of one begin the other one's.
pub fn begins(front: Option<&[u8]>, whole: Option<&[u8]>) -> bool {
    match (front, whole) {
        (Some(front), Some(whole)) => whole.starts_with(front),
        _ => false,
    }
}

/// How many lines begin with a text.
pub fn count_of(text: &str, begin: &str) -> usize {
    let mut count = 0_usize;
    for line in text.lines() {
        count = count.saturating_add(usize::from(line.starts_with(begin)));
    }
    count
}

/// The lines that replies hold slots with, without their codes: those of K, H and O.
pub fn held_lines(alloc: Global, replies: &str) -> Result<String, Memory> {
    let mut text = String::new(alloc);
    put_held_lines(&mut text, replies)?;
    Ok(text)
}

fn put_held_lines(text: &mut String, replies: &str) -> Result<(), Memory> {
    for line in replies.lines() {
        if let Some(rest) = held_line(line) {
            text.push_str(rest)?;
            text.push('\n')?;
        }
    }
    Ok(())
}

fn held_line(line: &str) -> Option<&str> {
    let rest = line
        .strip_prefix('K')
        .or(line.strip_prefix('H'))
        .or(line.strip_prefix('O'))?;
    if rest.contains("JUN") {
        Some(rest)
    } else {
        None
    }
}
