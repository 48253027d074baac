//! Tables of rows, each a line `GIVEN|WANTED`.
//!
//! In both parts `;` stands for a line end, and `<300 >` for the byte behind the number, here a
//! blank, so many times.

use slot_text::{Lines, Memory, field, read_u64};
use std::alloc::Global;
use std::fmt::{Debug, Display};
use std::path::{Path, PathBuf};
use std::process::Abort;

/// What the rows of a table are about.
pub(crate) trait Case {
    /// Appends what is found for what a row gives.
    fn find(&mut self, rt: &impl Abort, given: &[u8], out: &mut Finding);
}

/// What is found for a row. Where memory runs out it is marked, and then the row fails.
#[derive(Drop)]
pub(crate) struct Finding {
    /// What allocates.
    pub(crate) alloc: Global,
    /// What was found so far.
    pub(crate) bytes: Vec<u8>,
    /// Whether memory ran out.
    is_cut: bool,
}

impl Finding {
    /// Nothing yet.
    pub(crate) fn new(alloc: Global) -> Finding {
        Finding {
            alloc,
            bytes: Vec::new(alloc),
            is_cut: false,
        }
    }

    /// Appends bytes.
    pub(crate) fn put(&mut self, bytes: &[u8]) {
        if self.bytes.extend_from_slice(bytes).is_err() {
            self.is_cut = true;
        }
    }

    /// Appends the value as it is printed.
    pub(crate) fn say<D: Display + Drop>(&mut self, value: D) {
        match format!(in self.alloc; "{value}") {
            Ok(text) => self.put(text.as_bytes()),
            Err(_) => self.is_cut = true,
        }
    }

    /// Appends the value as debugging shows it.
    pub(crate) fn show<D: Debug + Drop>(&mut self, value: D) {
        match format!(in self.alloc; "{value:?}") {
            Ok(text) => self.put(text.as_bytes()),
            Err(_) => self.is_cut = true,
        }
    }

    /// Keeps whether what another crate appends has come whole.
    pub(crate) fn keep(&mut self, appended: Result<(), Memory>) {
        if appended.is_err() {
            self.is_cut = true;
        }
    }
}

/// Walks the rows, and fails with the first whose finding is not what it wants.
pub(crate) fn walk<C: Case>(rt: &impl Abort, alloc: Global, case: &mut C, table: &[u8]) {
    let mut rows = Lines::new(table);
    for _ in 0..199 {
        let Some(row) = rows.next_line() else {
            return;
        };
        check_row(rt, alloc, case, row);
    }
    panic!(rt; "more rows than a table may have")
}

fn check_row<C: Case>(rt: &impl Abort, alloc: Global, case: &mut C, row: &[u8]) {
    let (given, wanted) = cut(row, b'|');
    let found = found(rt, alloc, case, given);
    compare(rt, alloc, &found, wanted, row)
}

/// What is found for what a row gives.
fn found<C: Case>(rt: &impl Abort, alloc: Global, case: &mut C, given: &[u8]) -> Vec<u8> {
    let given = spelled_out(rt, alloc, given);
    let mut found = Finding::new(alloc);
    case.find(rt, &given, &mut found);
    assert!(rt; !found.is_cut, "memory");
    found.bytes
}

fn compare(rt: &impl Abort, alloc: Global, found: &[u8], wanted: &[u8], row: &[u8]) {
    let wanted = spelled_out(rt, alloc, wanted);
    if found == wanted.as_slice() {
        return;
    }
    differ(rt, alloc, found, row)
}

fn differ(rt: &impl Abort, alloc: Global, found: &[u8], row: &[u8]) {
    let row = String::from_utf8_lossy(alloc, row).expect(rt, "memory");
    let found = String::from_utf8_lossy(alloc, found).expect(rt, "memory");
    panic!(rt; "{row} has {found}")
}

/// What stands before the mark, and what stands behind it.
pub(crate) fn cut(text: &[u8], mark: u8) -> (&[u8], &[u8]) {
    for (i, byte) in text.iter().enumerate() {
        if *byte == mark {
            return (&text[..i], &text[i + 1..]);
        }
    }
    (text, &[])
}

/// The bytes for which a part of a row stands.
fn spelled_out(rt: &impl Abort, alloc: Global, part: &[u8]) -> Vec<u8> {
    let mut out = Vec::new(alloc);
    let mut count = None;
    for byte in part {
        count = spell_byte(rt, &mut out, count, *byte);
    }
    out
}

/// Appends what a byte stands for, where this count was read behind an angle bracket.
fn spell_byte(rt: &impl Abort, out: &mut Vec<u8>, count: Option<u32>, byte: u8) -> Option<u32> {
    match (count, byte) {
        (None, b'<') => return Some(0),
        (None, b';') => out.push(b'\n').expect(rt, "memory"),
        (None, _) => out.push(byte).expect(rt, "memory"),
        (Some(_), b'>') => return None,
        (Some(n), b'0'..=b'9') => return Some(n % 1_000_000 * 10 + u32::from(byte - b'0')),
        (Some(n), _) => put_times(rt, out, n, byte),
    }
    count
}

fn put_times(rt: &impl Abort, out: &mut Vec<u8>, count: u32, byte: u8) {
    for _ in 0..count {
        out.push(byte).expect(rt, "memory");
    }
}

/// The n-th field of what is given, as a number.
pub(crate) fn number(rt: &impl Abort, given: &[u8], n: u32) -> u32 {
    let text = field(given, n).expect(rt, "a field of the row is missing");
    let value = read_u64(text).expect(rt, "a number in a field of the row");
    u32::try_from(value).expect(rt, "a number of a row below 2 to the 32nd")
}

/// Fails where bytes are not those that are wanted.
pub(crate) fn check_bytes(rt: &impl Abort, found: &[u8], wanted: &[u8]) {
    assert_eq!(rt; found, wanted);
}

/// The path of a file of the process with this number, in a folder.
pub(crate) fn path_in(
    rt: &impl Abort,
    alloc: Global,
    folder: Path<'_>,
    name: &str,
    process: u32,
) -> PathBuf {
    let file = format!(in alloc; "{name}-{process}").expect(rt, "memory");
    folder.join(alloc, file.as_str()).expect(rt, "memory")
}

/// Bytes as text. A mark stands for bytes that are none.
pub(crate) fn ascii(bytes: &[u8]) -> &str {
    str::from_utf8(bytes).unwrap_or("?")
}

/// The word for a truth.
pub(crate) fn yes_no(truth: bool) -> &'static str {
    if truth { "yes" } else { "no" }
}
