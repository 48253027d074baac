//! Parts with the same list of uses.

use crate::numbers::{amount_at, number_at};
use slot_text::Memory;
use std::alloc::Global;

// For each part the first one with the same key, as far as that is found.
pub(crate) fn same_lists(alloc: Global, keys: &[u64]) -> Result<Vec<u32>, Memory> {
    let mut places = vec![in alloc; u32::MAX; keys.len().saturating_mul(4).saturating_add(1)]?;
    let mut same = Vec::with_capacity(alloc, keys.len())?;
    for (part, key) in (0..).zip(keys) {
        same.push(first_like(&mut places, keys, part, *key))?;
    }
    Ok(same)
}

// The part that is known at the place of a part's key, if it has the same one. Else the part
// itself, which is then known there.
fn first_like(places: &mut [u32], keys: &[u64], part: u32, key: u64) -> u32 {
    let place = key.checked_rem(places.len() as u64).unwrap_or(0) as usize;
    let known = number_at(places, place);
    if known < part && amount_at(keys, known as usize) == key {
        return known;
    }
    if place < places.len() {
        places[place] = part;
    }
    part
}

// Marks of the parts whose unit has a part that is the first one with its list.
pub(crate) fn listed_parts(
    alloc: Global,
    units: &[u32],
    same: &[u32],
) -> Result<Vec<bool>, Memory> {
    let mut marks = Vec::with_capacity(alloc, same.len())?;
    for (unit, start) in units.iter().enumerate() {
        let end = number_at(units, unit.saturating_add(1));
        let is_listed = has_first(same, *start, end);
        marks.resize(marks.len().max(end as usize), is_listed)?;
    }
    Ok(marks)
}

// Whether a part from one number to another is the first one with its list.
fn has_first(same: &[u32], start: u32, end: u32) -> bool {
    for part in start..end {
        if number_at(same, part as usize) == part {
            return true;
        }
    }
    false
}
