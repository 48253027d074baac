//! A message from a run of lines.

ghost use Rattle.std.specs.Prelude.{◌≡◌, ◌+◌, ◌<◌, ◌≤◌, ◌^◌, IfOk, IfErr, IfSome, length, List};
ghost use Rattle.slot_text.specs.Lines.{lines_of};
ghost use Rattle.scr_reader.specs.Private.Texts.{texts_in};
ghost use Rattle.scr_reader.specs.Private.Readings.{AreReadings};
ghost use Rattle.scr_reader.specs.Private.Decided.{Decides};
ghost use Rattle.scr_reader.specs.Messages.{run_from, front_length, IsMessage, IsMessageFault};
ghost use Rattle.scr_reader.specs.declared.fault.ScrFault.TheVariants.{Memory as NoMemory};

use crate::fault::ScrFault;
use crate::header::{count_header, read_header};
use crate::message::{Message, PlacedList};
use crate::pairs::pair_rows;
use crate::rows::{Reading, read_row};
use season_days::Season;
use slot_text::{Lines, is_blank_line};
use std::alloc::Global;

/// All lines of a text, without their ends.
pub(crate) fn lines_in(alloc: Global, bytes: &[u8]) -> Result<Vec<&[u8]>, ScrFault>
    ensures found { IfOk result (λ lines. texts_in lines.items ≡ lines_of bytes.now) }
    ensures err { IfErr result (λ f. f ≡ NoMemory) }
{
    let mut lines = Vec::new(alloc);
    let mut rest = Lines::new(bytes);
    while let Some(line) = rest.next_line() {
        lines.push(line)?;
    }
    Ok(lines)
}

/// How many lines stand before the first empty one.
pub(crate) fn count_front(lines: &[&[u8]]) -> usize
    ensures exact { result ≡ front_length (texts_in lines.now) }
    ensures within { result ≤ length lines.now }
{
    for (i, line) in lines.iter().enumerate() {
        if is_blank_line(line) {
            return i;
        }
    }
    lines.len()
}

/// What each line is by itself.
fn read_rows(alloc: Global, season: &Season, lines: &[&[u8]]) -> Result<Vec<Reading>, ScrFault>
    ensures found { IfOk result (λ rows. AreReadings season.now (texts_in lines.now) rows.items) }
    ensures err { IfErr result (λ f. f ≡ NoMemory) }
{
    let mut rows = Vec::new(alloc);
    for line in lines {
        rows.push(read_row(season, line))?;
    }
    Ok(rows)
}

/// The message that a run of lines is; the first of them has the number.
pub(crate) fn read_run(alloc: Global, run: &[&[u8]], first: u32) -> Result<Message, ScrFault>
    requires few { first + 5 < 2 ^ 32 }
    requires short { first + length run.now < 2 ^ 32 }
    ensures { Decides NoMemory (IsMessage (run_from first (texts_in run.now)))
        (IsMessageFault (run_from first (texts_in run.now))) result }
{
    let header = read_header(run, first)?;
    let skipped = count_header(run);
    let (_, body) = run.split_at(skipped);
    let rows = read_rows(alloc, &header.season, body)?;
    let items = pair_rows(alloc, rows.as_slice(), first + skipped as u32)?;
    Ok(Message {
        line: first + skipped as u32 - 3,
        season: header.season,
        day: header.day,
        month: header.month,
        airport: header.airport,
        items: PlacedList::new(items),
    })
}
