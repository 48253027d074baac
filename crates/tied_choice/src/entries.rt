//! The alternatives of a unit of a joint problem.

use crate::pairs::{Pair, Place, alts_of, is_refusal, least_cost, number_at};
use crate::scales::Scale;
use choice_problem::Alt;
use slot_text::Memory;
use std::alloc::Global;

/// An alternative of a joint problem: the number of the alternative that its unit takes in the
/// first problem, if it is there; what it costs in the next problem; and whether the two choices
/// take it.
#[derive(Clone, Copy)]
pub(crate) struct Entry {
    pub(crate) alt: Alt,
    pub(crate) number: u32,
    pub(crate) next_cost: u64,
    pub(crate) is_chosen: bool,
}

// What a unit has before the next problem: the number of its alternative there, what it costs, the
// alternative that the next choice takes, and how many parts come before those of the next problem.
#[derive(Clone, Copy)]
struct Before {
    number: u32,
    cost: u64,
    chosen: Option<u32>,
    parts: u32,
}

// The alternatives of a unit: those of the first problem, and behind its refusal, or where the unit
// is not in the first problem, those of the next one.
pub(crate) fn entries_of(
    alloc: Global,
    pair: &Pair<'_>,
    scale: &Scale,
    unit: u32,
    place: Place,
) -> Result<Vec<Entry>, Memory> {
    let mut entries = Vec::new(alloc);
    let next = next_number(pair, place);
    match place.first {
        Some(first) => add_first(&mut entries, pair, scale, unit, first, next)?,
        None => {
            let before = Before {
                number: 0,
                cost: 0,
                chosen: next,
                parts: 0,
            };
            add_next(&mut entries, alts_of(pair.both, unit), scale, before)?;
        }
    }
    Ok(entries)
}

// The alternative that the next choice takes of a unit, if it is there.
fn next_number(pair: &Pair<'_>, place: Place) -> Option<u32> {
    match place.next {
        Some(next) => Some(number_at(pair.next_chosen.items(), next)),
        None => None,
    }
}

// Adds the alternatives of a unit of the first problem that a tie may take.
fn add_first(
    entries: &mut Vec<Entry>,
    pair: &Pair<'_>,
    scale: &Scale,
    unit: u32,
    first: u32,
    next: Option<u32>,
) -> Result<(), Memory> {
    let alts = alts_of(pair.both, unit);
    let least = least_cost(pair.first, first);
    let chosen = number_at(pair.chosen.items(), first);
    for (number, alt) in (0..).zip(alts) {
        let excess = alt.cost.saturating_sub(least);
        if scale.allows(excess) {
            let before = Before {
                number,
                cost: scale.weighed(excess),
                chosen: if number == chosen { next } else { None },
                parts: parts_of(pair, unit),
            };
            add_alt(entries, alts, scale, *alt, before, number == chosen)?;
        }
    }
    Ok(())
}

// Adds an alternative of the first problem: a refusal with each alternative of the next problem.
fn add_alt(
    entries: &mut Vec<Entry>,
    alts: &[Alt],
    scale: &Scale,
    alt: Alt,
    before: Before,
    is_chosen: bool,
) -> Result<(), Memory> {
    if is_refusal(&alt) {
        return add_next(entries, alts, scale, before);
    }
    entries.push(Entry {
        alt: Alt {
            cost: before.cost,
            one: alt.one,
            two: alt.two,
        },
        number: before.number,
        next_cost: 0,
        is_chosen,
    })?;
    Ok(())
}

// Adds the alternatives of the next problem.
fn add_next(
    entries: &mut Vec<Entry>,
    alts: &[Alt],
    scale: &Scale,
    before: Before,
) -> Result<(), Memory> {
    for (number, alt) in (0..).zip(alts) {
        entries.push(Entry {
            alt: Alt {
                cost: before.cost.saturating_add(scale.rounded(alt.cost)),
                one: later_part(alt.one, before.parts),
                two: later_part(alt.two, before.parts),
            },
            number: before.number,
            next_cost: alt.cost,
            is_chosen: before.chosen == Some(number),
        })?;
    }
    Ok(())
}

// A part, so many places further on.
fn later_part(part: Option<u32>, by: u32) -> Option<u32> {
    match part {
        Some(number) => Some(number.saturating_add(by)),
        None => None,
    }
}

// How many parts a unit has.
fn parts_of(pair: &Pair<'_>, unit: u32) -> u32 {
    if unit < pair.both.units() {
        pair.both.parts(unit)
    } else {
        0
    }
}
