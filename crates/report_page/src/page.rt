//! The page of a report.

ghost use Rattle.std.specs.Prelude.{◌≡◌, ◌++◌, IfOk, OnOk};
ghost use Rattle.slot_text.specs.Lines.{lines_of};
ghost use Rattle.report_page.specs.Pages.{head_part, table_part, last_part, page_text};

use crate::charts::put_charts;
use crate::escape::put;
use crate::layout::{
    AIRLINES, BODY, CAPACITY, CLOSING, OPENING, PICTURES, SERIES, STAGES, STYLE, Section,
};
use crate::rows::put_rows;
use crate::series::put_series;
use slot_text::Memory;
use std::alloc::Global;

// Appends the head, and the heading.
fn put_head(alloc: Global, out: &mut Vec<u8>, report: &[u8]) -> Result<(), Memory>
    ensures { OnOk result (out.new.items ≡ out.old.items ++ head_part (lines_of report.now)) }
{
    put(out, OPENING)?;
    put_rows(alloc, out, Section::Title, report)?;
    put(out, STYLE)?;
    put_rows(alloc, out, Section::Step, report)?;
    put(out, BODY)?;
    put_rows(alloc, out, Section::Heading, report)
}

// Appends the tables of the stages and of the airlines.
fn put_tables(alloc: Global, out: &mut Vec<u8>, report: &[u8]) -> Result<(), Memory>
    ensures { OnOk result (out.new.items ≡ out.old.items ++ table_part (lines_of report.now)) }
{
    put(out, STAGES)?;
    put_rows(alloc, out, Section::Stages, report)?;
    put(out, AIRLINES)?;
    put_rows(alloc, out, Section::Airlines, report)
}

// Appends the pictures, and the series.
fn put_last(alloc: Global, out: &mut Vec<u8>, report: &[u8]) -> Result<(), Memory>
    ensures { OnOk result (out.new.items ≡ out.old.items ++ last_part (lines_of report.now)) }
{
    put(out, CAPACITY)?;
    put_rows(alloc, out, Section::Night, report)?;
    put(out, PICTURES)?;
    put_charts(alloc, out, report)?;
    put(out, SERIES)?;
    put_series(alloc, out, report)?;
    put(out, CLOSING)
}

/// The page of a report: the stages, the airlines, a picture for each capacity line, and the series
/// that were not given the times that they asked for, each with its reasons.
///
/// Every text has a page; of a text that is no report it shows what its lines have. Some passes
/// over the text, and one or two more for each of its capacity lines.
pub fn page_text(alloc: Global, report: &[u8]) -> Result<Vec<u8>, Memory>
    ensures { IfOk result (λ page. page.items ≡ page_text report.now) }
{
    let mut out = Vec::new(alloc);
    put_head(alloc, &mut out, report)?;
    put_tables(alloc, &mut out, report)?;
    put_last(alloc, &mut out, report)?;
    Ok(out)
}
