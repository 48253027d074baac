//! The lines that wait.

ghost use Rattle.std.specs.Prelude.{◌≡◌, ◌<◌, ◌≤◌, ◌^◌, All, IfOk, OnOk, length};
ghost use Rattle.std.specs.List.{list_any};
ghost use Rattle.slot_text.specs.Reads.{GivesOr};
ghost use Rattle.scr_reader.specs.Printed.{LineFits};
ghost use Rattle.choice_problem.specs.declared.problems.TheConstants.{MOST_UNITS};
ghost use Rattle.holding_book.specs.declared.answer.Entry.{Entry as EntryValue};
ghost use Rattle.holding_book.specs.Asks.{CanAsk};
ghost use Rattle.holding_book.specs.Hints.{new_line};
ghost use Rattle.holding_book.specs.Lines.{clashes};
ghost use Rattle.wait_list.specs.Waiting.{unmet_line, may_wait, with_line, waiting_lines, waiting_answer};
ghost use Rattle.wait_list.specs.declared.fault.WaitFault.TheVariants.{Memory as NoMemory};

use crate::fault::WaitFault;
use choice_problem::MOST_UNITS;
use holding_book::{Answer, Book, Entry, clashes};
use scr_reader::{Code, Item, Line};
use season_days::Season;
use slot_text::Memory;
use std::alloc::Global;
use std::marker::Model;

/// The lines that wait for slots, in the order in which they were asked for; at most 4,096.
#[derive(Drop)]
pub struct Waiting {
    lines: Vec<Line>,
}

impl Model for Waiting {
    ghost use Rattle.std.specs.Prelude.{List, length, ◌≤◌};
    ghost use Rattle.choice_problem.specs.declared.problems.TheConstants.{MOST_UNITS};
    ghost use Rattle.scr_reader.specs.declared.line.Line.{Line};

    ghost Value = { List Line };

    ghost view = { λ w. w.lines.items };

    ghost invariant = { λ w. length w.lines.items ≤ MOST_UNITS };
}

impl Waiting {
    /// The lines that wait at the end of a history, beside the book that it left. Each ask of the
    /// history can be asked of the book.
    ///
    /// One step for each unmet ask and each holding of its flights, and one for each line that
    /// waits before it.
    pub fn of(alloc: Global, book: &Book, history: &[Entry]) -> Result<Waiting, WaitFault>
        requires few { length history.now < 2 ^ 31 }
        requires can { All (λ (entry : EntryValue). CanAsk book.now.book.declaration entry.ask)
            history.now }
        ensures answer { GivesOr NoMemory result
            (waiting_answer (waiting_lines book.now.book history.now)) }
        // Each of them has a spelling in the book's season.
        ensures spelled { IfOk result
            (λ waiting. All (LineFits book.now.book.declaration.season) waiting) }
    {
        let lines = collect_lines(alloc, book, history)?;
        let count = lines.len() as u32;
        if count > MOST_UNITS {
            return Err(WaitFault::TooMany { waiting: count });
        }
        Ok(Waiting { lines })
    }

    /// The lines, in their order.
    pub fn lines(&self) -> &[Line]
        ensures value { result.now ≡ self.now }
        ensures few { length result.now ≤ MOST_UNITS }
    {
        &self.lines
    }
}

// The lines that wait, however many there are.
fn collect_lines(alloc: Global, book: &Book, history: &[Entry]) -> Result<Vec<Line>, Memory>
    requires can { All (λ (entry : EntryValue). CanAsk book.now.book.declaration entry.ask)
        history.now }
    ensures lines { IfOk result
        (λ lines. lines.items ≡ waiting_lines book.now.book history.now) }
    ensures few { IfOk result (λ lines. length lines.items ≤ length history.now) }
    ensures spelled { IfOk result
        (λ lines. All (LineFits book.now.book.declaration.season) lines.items) }
{
    let mut lines = Vec::new(alloc);
    for entry in history {
        add_entry(book, entry, &mut lines)?;
    }
    Ok(lines)
}

// Adds the line of an entry, where it is unmet and may wait.
fn add_entry(book: &Book, entry: &Entry, lines: &mut Vec<Line>) -> Result<(), Memory>
    ensures { OnOk result (lines.new.items
        ≡ with_line book.now.book lines.old.items (unmet_line entry.now)) }
{
    if let Some(line) = unmet_line(entry) {
        add_line(book, &line, lines)?;
    }
    Ok(())
}

// Adds a line, where it may wait.
fn add_line(book: &Book, line: &Line, lines: &mut Vec<Line>) -> Result<(), Memory>
    ensures { OnOk result (lines.new.items
        ≡ with_line book.now.book lines.old.items (Some line.now)) }
{
    if may_wait(book, lines, line) {
        lines.push(*line)?;
    }
    Ok(())
}

// The line of an N or B ask that was answered that there are no slots.
fn unmet_line(entry: &Entry) -> Option<Line>
    ensures { result ≡ unmet_line entry.now }
{
    match entry.answer {
        Answer::U => new_line(&entry.ask),
        _ => None,
    }
}

// The line of an N or B ask.
fn new_line(ask: &Item) -> Option<Line>
    ensures { result ≡ new_line ask.now }
{
    match ask {
        Item::One(line) if matches!(line.code, Code::N | Code::B) => Some(*line),
        _ => None,
    }
}

// Whether a line clashes with no holding and with no line that waits already.
fn may_wait(book: &Book, lines: &[Line], line: &Line) -> bool
    ensures { result ≡ may_wait book.now.book lines.now line.now }
{
    !book.clashes(line) && !clashes_among(&book.declaration().season, line, lines)
}

// Whether a line clashes with one of others.
fn clashes_among(season: &Season, line: &Line, others: &[Line]) -> bool
    ensures { result ≡ list_any (clashes season.now line.now) others.now }
{
    others.iter().any(|other| clashes(season, line, other))
}
