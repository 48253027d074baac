//! Pictures of the load of each capacity line against its limit.

ghost use Rattle.std.specs.Prelude.{◌≡◌, ◌++◌, [], OnOk};
ghost use Rattle.slot_text.specs.Fields.{fields_of};
ghost use Rattle.slot_text.specs.Lines.{lines_of};
ghost use Rattle.report_page.specs.Rows.{told_load, higher, peak_from, peak_row, bar, bars, picture, chart, charts};

use crate::escape::put;
use crate::fill::put_filled;
use crate::layout::{BAR, BAR_TITLE, CAPTION, FRAME, GRID, HOURS, NO_PEAK, PEAK};
use crate::number::number_of;
use crate::words::{is_profile, word_at, word_is};
use slot_text::{Lines, Memory};
use std::alloc::Global;

// The load that a line states.
fn told_load(line: &[u8]) -> u64
    ensures { result ≡ told_load (fields_of line.now) }
{
    number_of(word_at(line, 5))
}

// The line with the greater load, the first where both have the same; a line that is not about the
// capacity line does not count.
fn higher<'a>(number: &[u8], best: &'a [u8], line: &'a [u8]) -> &'a [u8]
    ensures { result.now ≡ higher number.now best.now line.now }
{
    if is_profile(number, line) && told_load(best) < told_load(line) {
        line
    } else {
        best
    }
}

// The first line with the greatest load of a capacity line; without bytes where it has no load.
fn peak_of<'a>(number: &[u8], report: &'a [u8]) -> &'a [u8]
    ensures { result.now ≡ peak_from number.now [] (lines_of report.now) }
{
    let mut best: &'a [u8] = &[];
    let mut lines = Lines::new(report);
    while let Some(line) = lines.next_line() {
        best = higher(number, best, line);
    }
    best
}

// The template for the line with the greatest load.
fn peak_row(line: &[u8]) -> &'static [u8]
    ensures { result.now ≡ peak_row (fields_of line.now) }
{
    if word_is(line, 1, b"PROFILE") {
        PEAK
    } else {
        NO_PEAK
    }
}

// Appends the bar of a line that is about this capacity line.
fn put_bar(alloc: Global, out: &mut Vec<u8>, number: &[u8], line: &[u8]) -> Result<(), Memory>
    ensures { OnOk result (out.new.items
        ≡ out.old.items ++ bar number.now (fields_of line.now)) }
{
    if !is_profile(number, line) {
        return Ok(());
    }
    put_filled(alloc, out, BAR, line)?;
    put_filled(alloc, out, BAR_TITLE, line)
}

// Appends the bars of a capacity line.
fn put_bars(alloc: Global, out: &mut Vec<u8>, number: &[u8], report: &[u8]) -> Result<(), Memory>
    ensures { OnOk result (out.new.items
        ≡ out.old.items ++ bars number.now (lines_of report.now)) }
{
    let mut lines = Lines::new(report);
    while let Some(line) = lines.next_line() {
        put_bar(alloc, out, number, line)?;
    }
    Ok(())
}

// Appends the picture of a capacity line.
fn put_picture(alloc: Global, out: &mut Vec<u8>, report: &[u8], line: &[u8]) -> Result<(), Memory>
    ensures { OnOk result (out.new.items
        ≡ out.old.items ++ picture (lines_of report.now) (fields_of line.now)) }
{
    let number = word_at(line, 2);
    let peak = peak_of(number, report);
    put_filled(alloc, out, CAPTION, line)?;
    put_filled(alloc, out, peak_row(peak), peak)?;
    put_filled(alloc, out, FRAME, line)?;
    put_filled(alloc, out, GRID, line)?;
    put_bars(alloc, out, number, report)?;
    put(out, HOURS)
}

// Appends the picture of a line that declares a capacity.
fn put_chart(alloc: Global, out: &mut Vec<u8>, report: &[u8], line: &[u8]) -> Result<(), Memory>
    ensures { OnOk result (out.new.items
        ≡ out.old.items ++ chart (lines_of report.now) (fields_of line.now)) }
{
    if word_is(line, 1, b"CAPACITY") {
        put_picture(alloc, out, report, line)
    } else {
        Ok(())
    }
}

/// Appends the pictures of all capacity lines.
pub(crate) fn put_charts(alloc: Global, out: &mut Vec<u8>, report: &[u8]) -> Result<(), Memory>
    ensures { OnOk result (out.new.items
        ≡ out.old.items ++ charts (lines_of report.now) (lines_of report.now)) }
{
    let mut lines = Lines::new(report);
    while let Some(line) = lines.next_line() {
        put_chart(alloc, out, report, line)?;
    }
    Ok(())
}
