//! Files that are damaged: by bytes, lines and fields.

use crate::draws::Draws;
use memory_desk::Given;
use slot_text::Memory;
use std::alloc::Global;

/// The fields that stand in place of others.
const FIELDS: [&str; 16] = [
    "",
    "0",
    "1",
    "-1",
    "9",
    "10000",
    "1440",
    "00",
    "2400",
    "NONE",
    "U",
    "01JUN31JUN",
    "4294967296",
    "18446744073709551615",
    "18446744073709551616",
    "-9223372036854775808",
];

/// The lines that stand among others.
const LINES: [&str; 11] = [
    "",
    "SCR",
    "SI",
    "END",
    "QBA100",
    "S26",
    "CAP TOT 60 0000 2355 1234567 9999",
    "FLEX 1440",
    "NBA999 01JUN30JUN 1234567 180320 JFK0600 J",
    "C 0 0",
    "STAGE 4 INFEASIBLE",
];

/// Damages one file, if it is there.
pub fn damage(
    alloc: Global,
    draws: &mut Draws,
    given: &mut Given,
    name: &str,
) -> Result<(), Memory> {
    let damaged = match given.file(name) {
        Some(bytes) => damaged_bytes(alloc, draws, bytes)?,
        None => return Ok(()),
    };
    given.put(alloc, name, damaged)
}

/// Other bytes than these, but by chance.
pub fn damaged_bytes(alloc: Global, draws: &mut Draws, bytes: &[u8]) -> Result<Vec<u8>, Memory> {
    let place = draws.place(bytes.len());
    let line = bounds(bytes, place, true);
    let field = bounds(bytes, place, false);
    match draws.below(12) {
        0 => spliced(alloc, bytes, (place, bytes.len()), b""),
        1 => spliced(alloc, bytes, (place, place.saturating_add(1)), b""),
        2 => spliced(alloc, bytes, (place, place), b"\r"),
        3 => spliced(alloc, bytes, (place, place), draws.pick(&FIELDS).as_bytes()),
        4 => spliced(alloc, bytes, (line.0, line.1.saturating_add(1)), b""),
        5 => doubled(alloc, bytes, line),
        6 => spliced(alloc, bytes, line, draws.pick(&LINES).as_bytes()),
        7 => spliced(alloc, bytes, (line.0, line.0), &[b'A'; 201]),
        8 => with_line(alloc, bytes, line.0, draws.pick(&LINES).as_bytes()),
        9 | 10 => spliced(alloc, bytes, field, draws.pick(&FIELDS).as_bytes()),
        _ => with_byte(alloc, draws, bytes, place),
    }
}

/// The bounds of the line that has a place, or of its field.
fn bounds(bytes: &[u8], place: usize, is_line: bool) -> (usize, usize) {
    let mut from = 0;
    let mut to = bytes.len();
    for (at, byte) in bytes.iter().enumerate() {
        let stops = *byte == b'\n' || !is_line && *byte == b' ';
        if stops && at < place {
            from = at.saturating_add(1);
        }
        if stops && at >= place && at < to {
            to = at;
        }
    }
    (from, to)
}

/// The bytes with others in the place of a part.
pub fn spliced(
    alloc: Global,
    bytes: &[u8],
    part: (usize, usize),
    new: &[u8],
) -> Result<Vec<u8>, Memory> {
    let mut out = Vec::new(alloc);
    for (at, byte) in bytes.iter().enumerate() {
        if at == part.0 {
            out.extend_from_slice(new)?;
        }
        if at < part.0 || part.1 <= at {
            out.push(*byte)?;
        }
    }
    if part.0 >= bytes.len() {
        out.extend_from_slice(new)?;
    }
    Ok(out)
}

/// The bytes with a line of their own twice.
fn doubled(alloc: Global, bytes: &[u8], line: (usize, usize)) -> Result<Vec<u8>, Memory> {
    let mut twice = Vec::new(alloc);
    for (at, byte) in bytes.iter().enumerate() {
        if line.0 <= at && at < line.1 {
            twice.push(*byte)?;
        }
    }
    twice.push(b'\n')?;
    spliced(alloc, bytes, (line.0, line.0), &twice)
}

/// The bytes with a line more.
fn with_line(alloc: Global, bytes: &[u8], at: usize, line: &[u8]) -> Result<Vec<u8>, Memory> {
    let mut whole = Vec::from_slice(alloc, line)?;
    whole.push(b'\n')?;
    spliced(alloc, bytes, (at, at), &whole)
}

/// The bytes with another one at a place.
fn with_byte(
    alloc: Global,
    draws: &mut Draws,
    bytes: &[u8],
    place: usize,
) -> Result<Vec<u8>, Memory> {
    let known = b"09 AZ-\n\rSUJ15";
    let drawn = draws.below(256) as u8;
    let byte = if draws.once_in(3) {
        drawn
    } else {
        let at = draws.place(known.len());
        known.get(at).copied().unwrap_or(drawn)
    };
    spliced(alloc, bytes, (place, place.saturating_add(1)), &[byte])
}
