//! What is recorded and printed of clients that were served, and how the workers at their doors
//! ended.

ghost use Rattle.std.specs.Prelude.{◌≡◌, ◌≤◌, false, length, All, IfOk};
ghost use Rattle.std.specs.String.{string_bytes};
ghost use Rattle.scr_replies.specs.History.{HasEntryLines, history_text};
ghost use Rattle.session_desk.specs.declared.doors.TheConstants.{MOST_DOORS};
ghost use Rattle.desk_commands.specs.Services.{is_door_end, is_full_end, is_memory_end, some_ended};
ghost use Rattle.desk_commands.specs.Services.{served_status, served_lines, links_total};
ghost use Rattle.desk_commands.specs.Resumed.{resumed_status, resumed_lines};

use crate::stop::Answer;
use holding_book::Entry;
use scr_replies::history_text;
use season_days::Season;
use session_desk::{DoorEnd, DoorWork};
use slot_text::Memory;
use std::alloc::Global;

/// The most entries that a history has.
pub const MOST_ENTRIES: u32 = 100_000;

/// What is recorded of clients that were served, and said.
#[derive(Drop)]
pub struct ServiceOutput {
    /// The text of the history.
    pub recorded: Vec<u8>,
    /// What is said.
    pub answer: Answer,
}

/// What is recorded and said of clients that were served by one history.
pub fn tell_served(
    alloc: Global,
    season: &Season,
    history: &[Entry],
    works: &[DoorWork],
) -> Result<ServiceOutput, Memory>
    requires lines { All (HasEntryLines season.now) history.now }
    requires few { length works.now ≤ MOST_DOORS }
    ensures recorded { IfOk result (λ output.
        output.recorded.items ≡ history_text season.now history.now) }
    ensures status { IfOk result (λ output. output.answer.status ≡ served_status works.now) }
    ensures memory { IfOk result (λ _. some_ended is_memory_end works.now ≡ false) }
    ensures printed { IfOk result (λ output. output.answer.text.items
        ≡ served_lines (length history.now) (links_total works.now)) }
{
    let status = service_status(works)?;
    let recorded = history_text(alloc, season, history)?;
    let text = served_lines(alloc, history.len(), links_total(works))?;
    Ok(ServiceOutput {
        recorded,
        answer: Answer {
            status,
            text: text.into_bytes(),
        },
    })
}

/// What is recorded and said of clients that were served by the history behind so many pairs of a
/// journal, which may have failed.
pub fn tell_resumed(
    alloc: Global,
    failed: bool,
    found: usize,
    season: &Season,
    history: &[Entry],
    works: &[DoorWork],
) -> Result<ServiceOutput, Memory>
    requires lines { All (HasEntryLines season.now) history.now }
    requires few { length works.now ≤ MOST_DOORS }
    ensures recorded { IfOk result (λ output.
        output.recorded.items ≡ history_text season.now history.now) }
    ensures status { IfOk result (λ output.
        output.answer.status ≡ resumed_status failed works.now) }
    ensures memory { IfOk result (λ _. some_ended is_memory_end works.now ≡ false) }
    ensures printed { IfOk result (λ output. output.answer.text.items
        ≡ resumed_lines found (length history.now) (links_total works.now)) }
{
    let status = resumption_status(failed, works)?;
    let recorded = history_text(alloc, season, history)?;
    let text = resumed_lines(alloc, found, history.len(), links_total(works))?;
    Ok(ServiceOutput {
        recorded,
        answer: Answer {
            status,
            text: text.into_bytes(),
        },
    })
}

/// The status after workers ended. `Memory` where one wanted memory.
fn service_status(works: &[DoorWork]) -> Result<u8, Memory>
    ensures status { IfOk result (λ status. status ≡ served_status works.now) }
    ensures memory { IfOk result (λ _. some_ended is_memory_end works.now ≡ false) }
{
    if some_memory(works) {
        return Err(Memory);
    }
    if some_door(works) {
        return Ok(10);
    }
    if some_full(works) {
        return Ok(11);
    }
    Ok(0)
}

/// The status after workers ended whose journal may have failed. `Memory` where one wanted memory.
fn resumption_status(failed: bool, works: &[DoorWork]) -> Result<u8, Memory>
    ensures status { IfOk result (λ status. status ≡ resumed_status failed works.now) }
    ensures memory { IfOk result (λ _. some_ended is_memory_end works.now ≡ false) }
{
    let status = service_status(works)?;
    Ok(if failed { 14 } else { status })
}

fn some_memory(works: &[DoorWork]) -> bool
    ensures { result ≡ some_ended is_memory_end works.now }
{
    for work in works {
        if is_memory(work.end) {
            return true;
        }
    }
    false
}

fn some_door(works: &[DoorWork]) -> bool
    ensures { result ≡ some_ended is_door_end works.now }
{
    for work in works {
        if is_door(work.end) {
            return true;
        }
    }
    false
}

fn some_full(works: &[DoorWork]) -> bool
    ensures { result ≡ some_ended is_full_end works.now }
{
    for work in works {
        if is_full(work.end) {
            return true;
        }
    }
    false
}

fn is_memory(end: DoorEnd) -> bool
    ensures { result ≡ is_memory_end end }
{
    matches!(end, DoorEnd::Memory)
}

fn is_door(end: DoorEnd) -> bool
    ensures { result ≡ is_door_end end }
{
    matches!(end, DoorEnd::Door)
}

fn is_full(end: DoorEnd) -> bool
    ensures { result ≡ is_full_end end }
{
    matches!(end, DoorEnd::Full)
}

/// How many links all workers served.
fn links_total(works: &[DoorWork]) -> u64
    requires { length works.now ≤ MOST_DOORS }
    ensures { result ≡ links_total works.now }
{
    let mut total = 0;
    for work in works {
        total += u64::from(work.links);
    }
    total
}

/// How many entries there are, and how many links were served.
fn served_lines(alloc: Global, entries: usize, links: u64) -> Result<String, Memory>
    ensures { IfOk result (λ text. string_bytes text ≡ served_lines entries links) }
{
    let text = format!(in alloc; "ENTRIES {entries}\nLINKS {links}\n")?;
    Ok(text)
}

/// How many pairs a journal had, how many entries there are since, and how many links were served.
fn resumed_lines(alloc: Global, kept: usize, entries: usize, links: u64) -> Result<String, Memory>
    ensures { IfOk result (λ text. string_bytes text ≡ resumed_lines kept entries links) }
{
    let text = format!(in alloc; "KEPT {kept}\nENTRIES {entries}\nLINKS {links}\n")?;
    Ok(text)
}
