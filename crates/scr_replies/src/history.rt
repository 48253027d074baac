//! The text of a history.

ghost use Rattle.std.specs.Prelude.{◌≡◌, ◌++◌, ◌+◌, IfOk, OnOk, All};
ghost use Rattle.scr_replies.specs.History.{entry_title, entry_text, entries_text, history_text, HasEntryLines};

use crate::asked::put_answer;
use holding_book::Entry;
use scr_reader::print_item;
use season_days::Season;
use slot_text::{Memory, put_number};
use std::alloc::Global;

// Appends the line with the numbers of an entry and of its caller.
fn put_title(alloc: Global, out: &mut Vec<u8>, number: u64, caller: u32) -> Result<(), Memory>
    ensures { OnOk result (out.new.items ≡ out.old.items ++ entry_title number caller) }
{
    out.extend_from_slice(b"ENTRY ")?;
    put_number(alloc, out, number)?;
    out.extend_from_slice(b" CALLER ")?;
    put_number(alloc, out, u64::from(caller))?;
    out.push(b'\n')?;
    Ok(())
}

// Appends an entry.
fn put_entry(
    alloc: Global,
    out: &mut Vec<u8>,
    season: &Season,
    number: u64,
    entry: &Entry,
) -> Result<(), Memory>
    requires { HasEntryLines season.now entry.now }
    ensures { OnOk result
        (out.new.items ≡ out.old.items ++ entry_text season.now number entry.now) }
{
    put_title(alloc, out, number, entry.caller)?;
    print_item(alloc, out, season, &entry.ask)?;
    put_answer(alloc, out, season, &entry.ask, &entry.answer)
}

// Appends entries, the first of which has the number 1.
fn put_entries(
    alloc: Global,
    out: &mut Vec<u8>,
    season: &Season,
    history: &[Entry],
) -> Result<(), Memory>
    requires { All (HasEntryLines season.now) history.now }
    ensures { OnOk result
        (out.new.items ≡ out.old.items ++ history_text season.now history.now) }
{
    for (i, entry) in history.iter().enumerate() {
        put_entry(alloc, out, season, i as u64 + 1, entry)?;
    }
    Ok(())
}

/// The text of a history: of each entry, counted from 1, a line with its number and its caller, the
/// line or the two lines of the ask in their printed spelling, and the lines of the answer.
pub fn history_text(alloc: Global, season: &Season, history: &[Entry]) -> Result<Vec<u8>, Memory>
    requires { All (HasEntryLines season.now) history.now }
    ensures { IfOk result (λ text. text.items ≡ history_text season.now history.now) }
{
    let mut out = Vec::new(alloc);
    put_entries(alloc, &mut out, season, history)?;
    Ok(out)
}
