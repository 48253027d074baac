//! Items from the lines below a header, and the lines that are not paired.

ghost use Rattle.std.specs.Prelude.{◌≡◌, ◌⊎◌, ◌↔◌, ◌+◌, ◌++◌, ◌∷◌, ◌<◌, ◌^◌, [], List, IfOk, IfErr, OnOk, IsTrue, MatchOption, Option, length};
ghost use Rattle.scr_reader.specs.Rows.{Row};
ghost use Rattle.scr_reader.specs.Private.Readings.{row_read};
ghost use Rattle.scr_reader.specs.Messages.{next_row, AsksChange, LineIsPaired, line_item, row_item, place, items_of};
ghost use Rattle.scr_reader.specs.Private.Pairing.{rows_read, entry_of, Follows, IsGoodReading, HasFaultAt, AreGoodReadings, IsFirstAt};
ghost use Rattle.scr_reader.specs.declared.fault.ScrFault.TheVariants.{Memory as NoMemory};
ghost use Rattle.scr_reader.specs.declared.line.Code.TheVariants.{C, R, L};

use crate::fault::ScrFault;
use crate::line::{Code, Item, Line};
use crate::message::Placed;
use crate::rows::Reading;
use std::alloc::Global;

/// The items of the lines below a header, or the fault of the first line that has one; the first
/// line has the number.
pub(crate) fn pair_rows(
    alloc: Global,
    rows: &[Reading],
    first: u32,
) -> Result<Vec<Placed>, ScrFault>
    requires { first + length rows.now < 2 ^ 32 }
    ensures found { IfOk result (λ items. AreGoodReadings [] rows.now
        × (items.items ≡ items_of first (rows_read rows.now))) }
    ensures fault { IfErr result (λ f. IsFirstAt first [] rows.now f ⊎ (f ≡ NoMemory)) }
{
    let mut items = Vec::new(alloc);
    let mut follows = false;
    let mut number = first;
    let mut rest = rows;
    while let Some((reading, after)) = rest.split_first() {
        if let Some(fault) = fault_at(number, reading, follows, after) {
            return Err(fault);
        }
        push_item(&mut items, number, item_at(reading, after))?;
        follows = follows_next(reading, follows);
        number += 1;
        rest = after;
    }
    Ok(items)
}

fn push_item(items: &mut Vec<Placed>, number: u32, item: Option<Item>) -> Result<(), ScrFault>
    ensures ok { OnOk result (items.new.items ≡ items.old.items ++ place number item []) }
    ensures err { IfErr result (λ f. f ≡ NoMemory) }
{
    if let Some(item) = item {
        items.push(Placed { line: number, item })?;
    }
    Ok(())
}

/// What is wrong with a line, given whether a line that changes stands before it, and what stands
/// after it.
fn fault_at(number: u32, reading: &Reading, follows: bool, after: &[Reading]) -> Option<ScrFault>
    ensures { (before : List (Option Row)) → Follows follows before →
        MatchOption result (IsGoodReading reading.now before (rows_read after.now))
        (λ f. HasFaultAt number reading.now before (rows_read after.now) f) }
{
    match reading {
        Reading::Remark => None,
        Reading::LongRemark => Some(ScrFault::TooLong { line: number }),
        Reading::TooLong => Some(ScrFault::TooLong { line: number }),
        Reading::Bad(field) => Some(ScrFault::BadLine {
            line: number,
            field: *field,
        }),
        Reading::Entry(line) => {
            if is_paired(line, follows, after) {
                None
            } else {
                Some(ScrFault::Unpaired { line: number })
            }
        }
        Reading::Question(_) => None,
    }
}

/// Whether a line that changes is followed by one that asks for the change, and one that asks
/// follows one that changes.
fn is_paired(line: &Line, follows: bool, after: &[Reading]) -> bool
    ensures { (before : List (Option Row)) → Follows follows before →
        (IsTrue result ↔ LineIsPaired line.now.code line.now before (rows_read after.now)) }
{
    match line.code {
        Code::C => match next_entry(after) {
            Some(asked) => asks_change(line, &asked),
            None => false,
        },
        Code::R => follows,
        Code::L => follows,
        _ => true,
    }
}

/// The next line that is no remark, if it has the form of a data line.
fn next_entry(rows: &[Reading]) -> Option<Line>
    ensures { result ≡ entry_of (next_row (rows_read rows.now)) }
{
    for reading in rows {
        match reading {
            Reading::Remark => {}
            Reading::LongRemark => {}
            Reading::Entry(line) => return Some(*line),
            Reading::TooLong => return None,
            Reading::Bad(_) => return None,
            Reading::Question(_) => return None,
        }
    }
    None
}

/// Whether a line asks for a change of the other.
pub(crate) fn asks_change(changed: &Line, asked: &Line) -> bool
    ensures { IsTrue result ↔ AsksChange changed.now asked.now }
{
    asks(asked.code)
        && changed.arrival.is_some() == asked.arrival.is_some()
        && changed.departure.is_some() == asked.departure.is_some()
        && asked.period == changed.period
}

fn asks(code: Code) -> bool
    ensures { IsTrue result ↔ ((code ≡ R) ⊎ (code ≡ L)) }
{
    match code {
        Code::R => true,
        Code::L => true,
        _ => false,
    }
}

/// Whether a line that changes stands before the line after this one.
fn follows_next(reading: &Reading, follows: bool) -> bool
    ensures { (before : List (Option Row)) → Follows follows before →
        Follows result (row_read reading.now ∷ before) }
{
    match reading {
        Reading::Remark => follows,
        Reading::LongRemark => follows,
        Reading::Entry(line) => changes(line.code),
        Reading::TooLong => false,
        Reading::Bad(_) => false,
        Reading::Question(_) => false,
    }
}

fn changes(code: Code) -> bool
    ensures { IsTrue result ↔ (code ≡ C) }
{
    match code {
        Code::C => true,
        _ => false,
    }
}

/// The item that a line makes.
fn item_at(reading: &Reading, after: &[Reading]) -> Option<Item>
    ensures { result ≡ row_item (row_read reading.now) (rows_read after.now) }
{
    match reading {
        Reading::Entry(line) => item_of(line, after),
        Reading::Question(flight) => Some(Item::Query(*flight)),
        Reading::Remark => None,
        Reading::LongRemark => None,
        Reading::TooLong => None,
        Reading::Bad(_) => None,
    }
}

fn item_of(line: &Line, after: &[Reading]) -> Option<Item>
    ensures { result ≡ line_item line.now.code line.now (rows_read after.now) }
{
    match line.code {
        Code::C => match next_entry(after) {
            Some(asked) => Some(Item::Pair(*line, asked)),
            None => None,
        },
        Code::R => None,
        Code::L => None,
        _ => Some(Item::One(*line)),
    }
}
