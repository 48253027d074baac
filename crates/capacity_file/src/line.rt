//! One line by itself.

ghost use Rattle.capacity_file.specs.Readings.{IsLineReading};

use crate::entries::read_entry;
use crate::entry::Entry;
use slot_text::{LONGEST_LINE, is_trimmed, split_field};

/// What a line is by itself.
#[derive(Clone, Copy)]
pub(crate) enum Reading {
    Empty,
    Bad,
    Stated(Entry),
}

/// What a line is by itself.
pub(crate) fn read_line(line: &[u8]) -> Reading
    ensures { IsLineReading line.now result }
{
    let Some((word, rest)) = split_field(line) else {
        return Reading::Empty;
    };
    if line.len() > LONGEST_LINE {
        return Reading::Bad;
    }
    if !is_trimmed(line) {
        return Reading::Bad;
    }
    match read_entry(word, rest) {
        Some(entry) => Reading::Stated(entry),
        None => Reading::Bad,
    }
}
