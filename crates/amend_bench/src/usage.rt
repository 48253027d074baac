//! How long it takes to watch what was operated of a book.

use crate::books::put_word;
use crate::report::{Size, Tally, calls_since, now, print_part, print_tally, print_title};
use holding_book::Book;
use slot_text::Memory;
use std::alloc::Global;
use std::io::Print;
use std::time::Clock;
use usage_watch::{Usage, read_operated, watch};

// The most bytes of reports.
const MOST_BYTES: usize = 4_194_304;

/// Reads reports of the movements of the book's lines, each for 200 dates, and watches them. Prints
/// how many series there are and are kept; at full size also how many reports that is in a second.
pub fn run<R: Print + Clock>(rt: &R, alloc: Global, size: Size, book: &Book) -> anyhow::Result<()> {
    let reports = match size {
        Size::Short => 30,
        Size::Full => 100_000,
    };
    print_title(rt, "usage of a book", book)?;
    let text = reports_text(alloc, book.count(), reports)?;
    time_reports(rt, alloc, size, book, &text, reports)
}

fn time_reports<R: Print + Clock>(
    rt: &R,
    alloc: Global,
    size: Size,
    book: &Book,
    text: &[u8],
    reports: u32,
) -> anyhow::Result<()> {
    let start = now(rt);
    let usage = watched(alloc, book, text)?;
    let tally = calls_since(rt, start, u64::from(reports));
    match &usage {
        Some(usage) => print_usage(rt, size, usage, tally),
        None => print_none(rt),
    }
}

fn print_usage<R: Print>(rt: &R, size: Size, usage: &Usage, tally: Tally) -> anyhow::Result<()> {
    print_part(rt, "series", usage.series)?;
    print_part(rt, "kept", usage.kept)?;
    print_part(rt, "lines", usage.next.items().len() as u64)?;
    print_tally(rt, size, "reports", tally)
}

fn print_none<R: Print>(rt: &R) -> anyhow::Result<()> {
    println!(rt; "no usage")?;
    Ok(())
}

// What the book keeps by the reports, unless there is too much of one of them, or no season
// follows.
fn watched(alloc: Global, book: &Book, text: &[u8]) -> anyhow::Result<Option<Usage>> {
    if text.len() > MOST_BYTES || book.count() > 100_000 {
        return Ok(None);
    }
    let season = book.declaration().season;
    let Some(next) = season.next() else {
        return Ok(None);
    };
    let operated = read_operated(alloc, &season, text)?;
    let usage = watch(alloc, &season, &next, book.holdings(), &operated)?;
    Ok(Some(usage))
}

// So many reports of the flights of a made book, arrivals and departures in turn, again and again.
fn reports_text(alloc: Global, flights: u32, reports: u32) -> Result<Vec<u8>, Memory> {
    let mut text = Vec::new(alloc);
    put_reports(alloc, &mut text, flights, reports)?;
    Ok(text)
}

fn put_reports(
    alloc: Global,
    text: &mut Vec<u8>,
    flights: u32,
    reports: u32,
) -> Result<(), Memory> {
    for report in 0..reports {
        let front: &[u8] = if report % 2 == 0 {
            b"OPER ARR BA"
        } else {
            b"OPER DEP BA"
        };
        let flight = (report / 2).checked_rem(flights).unwrap_or(0);
        put_word(alloc, text, front, u64::from(flight % 10_000))?;
        text.extend_from_slice(b" 04APR20OCT 1234567\n")?;
    }
    Ok(())
}
