//! Parts of a page with one row for each line of their kinds.

ghost use Rattle.std.specs.Prelude.{◌≡◌, ◌++◌, OnOk};
ghost use Rattle.slot_text.specs.Fields.{fields_of};
ghost use Rattle.slot_text.specs.Lines.{lines_of};
ghost use Rattle.report_page.specs.Rows.{where_shown, row_of, section_rows};

use crate::fill::put_filled;
use crate::layout::{
    AIRLINE, HEADING, NIGHT, NIGHT_LOAD, OVER, RULES, STAGE, STEP, Section, TITLE,
};
use crate::words::{is_profile, word_is};
use slot_text::{Lines, Memory};
use std::alloc::Global;

// A template, where a line is shown by it.
fn where_shown(shown: bool, template: &'static [u8]) -> &'static [u8]
    ensures { result.now ≡ where_shown shown template.now }
{
    if shown { template } else { b"" }
}

// The template of a line in a part of the page; without bytes where the part does not show it.
fn row_of(section: Section, line: &[u8]) -> &'static [u8]
    ensures { result.now ≡ row_of section (fields_of line.now) }
{
    match section {
        Section::Title => where_shown(word_is(line, 1, b"AIRPORT"), TITLE),
        Section::Step => where_shown(word_is(line, 1, b"RULES"), STEP),
        Section::Heading => heading_row(line),
        Section::Stages => stage_row(line),
        Section::Airlines => where_shown(word_is(line, 1, b"AIRLINE"), AIRLINE),
        Section::Night => night_row(line),
    }
}

fn heading_row(line: &[u8]) -> &'static [u8]
    ensures { result.now ≡ row_of Section.Heading (fields_of line.now) }
{
    if word_is(line, 1, b"AIRPORT") {
        HEADING
    } else {
        where_shown(word_is(line, 1, b"RULES"), RULES)
    }
}

fn stage_row(line: &[u8]) -> &'static [u8]
    ensures { result.now ≡ row_of Section.Stages (fields_of line.now) }
{
    if word_is(line, 1, b"STAGE") {
        STAGE
    } else {
        where_shown(word_is(line, 1, b"OVER"), OVER)
    }
}

fn night_row(line: &[u8]) -> &'static [u8]
    ensures { result.now ≡ row_of Section.Night (fields_of line.now) }
{
    if word_is(line, 1, b"NIGHT") {
        NIGHT
    } else {
        where_shown(is_profile(b"NIGHT", line), NIGHT_LOAD)
    }
}

/// Appends the rows of a part of the page.
pub(crate) fn put_rows(
    alloc: Global,
    out: &mut Vec<u8>,
    section: Section,
    report: &[u8],
) -> Result<(), Memory>
    ensures { OnOk result (out.new.items
        ≡ out.old.items ++ section_rows section (lines_of report.now)) }
{
    let mut lines = Lines::new(report);
    while let Some(line) = lines.next_line() {
        put_filled(alloc, out, row_of(section, line), line)?;
    }
    Ok(())
}
