//! The series that were not given the times that they asked for.

ghost use Rattle.std.specs.Prelude.{◌≡◌, ◌++◌, OnOk, false};
ghost use Rattle.slot_text.specs.Fields.{fields_of};
ghost use Rattle.slot_text.specs.Lines.{lines_of};
ghost use Rattle.report_page.specs.Rows.{is_told, unit_row, told_row, series_rows};

use crate::fill::put_filled;
use crate::layout::{ASKED, FITS, GIVEN, HELD, NOT, UNIT};
use crate::words::word_is;
use slot_text::{Lines, Memory};
use std::alloc::Global;

// Whether a line is told, where this says so of the line before it: a UNIT line decides for itself
// and the lines below it.
fn is_told(told: bool, line: &[u8]) -> bool
    ensures { result ≡ is_told told (fields_of line.now) }
{
    if word_is(line, 1, b"UNIT") {
        !word_is(line, 5, b"KEPT")
    } else {
        told
    }
}

// The template of a line of a unit; without bytes for every other line.
fn unit_row(line: &[u8]) -> &'static [u8]
    ensures { result.now ≡ unit_row (fields_of line.now) }
{
    if word_is(line, 1, b"UNIT") {
        UNIT
    } else if word_is(line, 1, b"HELD") {
        HELD
    } else if word_is(line, 1, b"ASKED") {
        ASKED
    } else if word_is(line, 1, b"GIVEN") {
        GIVEN
    } else if word_is(line, 1, b"NOT") {
        NOT
    } else if word_is(line, 1, b"FITS") {
        FITS
    } else {
        b""
    }
}

// The template of a line, where this says whether it is told.
fn told_row(told: bool, line: &[u8]) -> &'static [u8]
    ensures { result.now ≡ told_row told (fields_of line.now) }
{
    if told { unit_row(line) } else { b"" }
}

/// Appends the rows of all units with another outcome than KEPT.
pub(crate) fn put_series(alloc: Global, out: &mut Vec<u8>, report: &[u8]) -> Result<(), Memory>
    ensures { OnOk result (out.new.items
        ≡ out.old.items ++ series_rows false (lines_of report.now)) }
{
    let mut told = false;
    let mut lines = Lines::new(report);
    while let Some(line) = lines.next_line() {
        told = is_told(told, line);
        put_filled(alloc, out, told_row(told, line), line)?;
    }
    Ok(())
}
