//! The parts of a unit: one for each minute at which one of its movements may be.

ghost use Rattle.std.specs.Prelude.{◌≡◌, ◌⊎◌, ◌+◌, ◌-◌, ◌*◌, ◌<◌, ◌≤◌, ◌^◌, ℕ, length, slice_index_or, Some, None, IfSome, IfOk, OnOk};
ghost use Rattle.season_days.specs.Seasons.{date_count};
ghost use Rattle.wasg_stages.specs.Parts.{IsKnown, AreKnown, AreParts, Grows};

use capacity_windows::Windows;
use choice_problem::Part;
use season_days::{Kind, MINUTES_OF_DAY, Period};
use slot_text::Memory;
use std::alloc::Global;

// The numbers of the parts of one kind of movement, by the minutes of a date: the first of these,
// counted from the beginning of the line's date, and the part that stands for movements at it, at
// the minute after it, and so forth, where there is one.
#[derive(Drop)]
pub(crate) struct Minutes {
    pub first: u32,
    pub parts: Vec<Option<u32>>,
}

impl Minutes {
    /// None yet, at the minutes of the date some nights after the line's.
    pub fn of_date(alloc: Global, nights: u8) -> Result<Minutes, Memory>
        ensures { IfOk result (λ minutes. (i : ℕ) →
            slice_index_or minutes.parts.items i None ≡ None) }
    {
        let first = MINUTES_OF_DAY * u32::from(nights);
        let parts = vec![in alloc; None; MINUTES_OF_DAY as usize]?;
        Ok(Minutes { first, parts })
    }

    // The part at a minute, if there is one. One step.
    fn part(&self, minute: u32) -> Option<u32>
        ensures { IfSome result (λ k. (self.now.first ≤ minute)
            × (slice_index_or self.now.parts.items (minute - self.now.first) None ≡ Some k)) }
    {
        if minute < self.first {
            return None;
        }
        let place = (minute - self.first) as usize;
        if place >= self.parts.len() {
            return None;
        }
        self.parts[place]
    }

    // Keeps the part at a minute, if it is one of the date's. One step.
    fn keep(&mut self, minute: u32, part: u32)
        ensures first { self.new.first ≡ self.old.first }
        ensures parts { (i k : ℕ) → slice_index_or self.new.parts.items i None ≡ Some k →
            (slice_index_or self.old.parts.items i None ≡ Some k)
            ⊎ ((self.old.first + i ≡ minute) × (k ≡ part)) }
    {
        if minute < self.first {
            return;
        }
        let place = (minute - self.first) as usize;
        if place < self.parts.len() {
            self.parts[place] = Some(part);
        }
    }
}

// The number of the part of the movements of a kind at a minute, which is made where it is not
// known.
pub(crate) fn part_of(
    alloc: Global,
    windows: &Windows,
    period: Period,
    kind: Kind,
    minute: u32,
    minutes: &mut Minutes,
    parts: &mut Vec<Part>,
) -> Result<u32, Memory>
    requires first { period.first.0 < date_count windows.now.season }
    requires last { period.last.0 < date_count windows.now.season }
    requires few { length parts.old.items + 1 < 2 ^ 32 }
    requires known { AreKnown windows.now period kind parts.old.items minutes.old }
    requires parts { AreParts windows.now parts.old.items }
    ensures named { IfOk result (λ k. IsKnown windows.now period kind parts.new.items minute k) }
    ensures known { OnOk result (AreKnown windows.now period kind parts.new.items minutes.new) }
    ensures parts { OnOk result (AreParts windows.now parts.new.items) }
    ensures grows { OnOk result (Grows parts.old.items parts.new.items 1) }
{
    if let Some(number) = minutes.part(minute) {
        return Ok(number);
    }
    let part = windows.strips_of(
        alloc,
        kind,
        minute % MINUTES_OF_DAY,
        minute / MINUTES_OF_DAY,
        period,
    )?;
    let number = parts.len() as u32;
    parts.push(part)?;
    minutes.keep(minute, number);
    Ok(number)
}
