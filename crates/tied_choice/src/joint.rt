//! The joint problem of two stages.

use crate::entries::{Entry, entries_of};
use crate::pairs::{Pair, Place};
use crate::scales::Scale;
use crate::strips::class_part;
use choice_problem::{Alt, Choice, Chooser, Part, Problem};
use reduced_problem::Reduced;
use resource_classes::Class;
use slot_text::Memory;
use std::alloc::Global;

/// A unit of the joint problem: where it stands in both problems, and its alternatives.
#[derive(Drop)]
pub(crate) struct JointUnit {
    place: Place,
    entries: Vec<Entry>,
}

// The units, where they have together no more than so many alternatives.
pub(crate) fn joint_units(
    alloc: Global,
    pair: &Pair<'_>,
    scale: &Scale,
    is_first: &[bool],
    most: usize,
) -> Result<Option<Vec<JointUnit>>, Memory> {
    let mut units = Vec::new(alloc);
    let (mut first, mut next): (u32, u32) = (0, 0);
    let mut left = most;
    for unit in 0..pair.both.units() {
        let place = pair.place(unit, is_marked(is_first, unit), first, next);
        first = first.saturating_add(u32::from(place.first.is_some()));
        next = next.saturating_add(u32::from(place.next.is_some()));
        let entries = entries_of(alloc, pair, scale, unit, place)?;
        if entries.len() > left {
            return Ok(None);
        }
        left = left.saturating_sub(entries.len());
        units.push(JointUnit { place, entries })?;
    }
    Ok(Some(units))
}

// The mark of a unit.
fn is_marked(marks: &[bool], unit: u32) -> bool {
    match marks.get(unit as usize) {
        Some(mark) => *mark,
        None => false,
    }
}

// The joint problem, over the classes of resources of both problems together and behind them those
// of the first one, if it is within what a problem may have.
pub(crate) fn joint_problem(
    alloc: Global,
    pair: &Pair<'_>,
    units: &[JointUnit],
) -> Result<Option<Problem>, Memory> {
    let both = Reduced::of(alloc, pair.both)?;
    let first = Reduced::of(alloc, pair.first)?;
    joined(alloc, pair, &both, &first, units)
}

// The same over the classes of both problems together and of the first one.
fn joined(
    alloc: Global,
    pair: &Pair<'_>,
    both: &Reduced,
    first: &Reduced,
    units: &[JointUnit],
) -> Result<Option<Problem>, Memory> {
    let Some(choosers) = joint_choosers(alloc, pair, both, first, units)? else {
        return Ok(None);
    };
    let limits = joint_limits(alloc, both.classes(), first.classes())?;
    Ok(problem_of(choosers, limits))
}

// The problem of these units and limits, if it is within what a problem may have.
fn problem_of(choosers: Vec<Chooser>, limits: Vec<i64>) -> Option<Problem> {
    if Problem::allows(&choosers, &limits) {
        Some(Problem::new(choosers, limits))
    } else {
        None
    }
}

// The limits of classes, and behind them those of others.
fn joint_limits(alloc: Global, classes: &[Class], others: &[Class]) -> Result<Vec<i64>, Memory> {
    let mut limits = Vec::new(alloc);
    add_limits(&mut limits, classes)?;
    add_limits(&mut limits, others)?;
    Ok(limits)
}

// Adds the limits of classes.
fn add_limits(limits: &mut Vec<i64>, classes: &[Class]) -> Result<(), Memory> {
    for class in classes {
        limits.push(class.limit)?;
    }
    Ok(())
}

// The units with their parts and alternatives, if each is within what a unit may have.
fn joint_choosers(
    alloc: Global,
    pair: &Pair<'_>,
    both: &Reduced,
    first: &Reduced,
    units: &[JointUnit],
) -> Result<Option<Vec<Chooser>>, Memory> {
    let mut choosers = Vec::new(alloc);
    for (number, unit) in (0..).zip(units) {
        let parts = joint_parts(alloc, pair, both, first, number, unit.place)?;
        let alts = alts_of_entries(alloc, &unit.entries)?;
        if !Chooser::allows(&parts, &alts) {
            return Ok(None);
        }
        choosers.push(Chooser::new(parts, alts))?;
    }
    Ok(Some(choosers))
}

// The parts of a unit: where it is in the first problem those with the classes of that, and then
// those without.
fn joint_parts(
    alloc: Global,
    pair: &Pair<'_>,
    both: &Reduced,
    first: &Reduced,
    unit: u32,
    place: Place,
) -> Result<Vec<Part>, Memory> {
    let mut parts = Vec::new(alloc);
    let begin = both.first_part(unit);
    let end = both.first_part(unit.saturating_add(1));
    if let Some(place) = place.first {
        let own = first.first_part(place);
        for part in begin..end {
            let behind = own.saturating_add(part.saturating_sub(begin));
            parts.push(class_part(alloc, both, part, Some((first, behind)))?)?;
        }
    }
    for part in begin..end {
        parts.push(class_part(alloc, both, part, None)?)?;
    }
    Ok(parts)
}

// The alternatives of entries.
fn alts_of_entries(alloc: Global, entries: &[Entry]) -> Result<Vec<Alt>, Memory> {
    let mut alts = Vec::new(alloc);
    for entry in entries {
        alts.push(entry.alt)?;
    }
    Ok(alts)
}

// What the two choices take.
pub(crate) fn start_of(alloc: Global, units: &[JointUnit]) -> Result<Choice, Memory> {
    let mut items = Vec::new(alloc);
    for unit in units {
        items.push(chosen_entry(&unit.entries))?;
    }
    Ok(Choice::new(items))
}

// The number of the entry that the two choices take, or the greatest number.
fn chosen_entry(entries: &[Entry]) -> u32 {
    for (number, entry) in (0..).zip(entries) {
        if entry.is_chosen {
            return number;
        }
    }
    u32::MAX
}

// What a joint choice takes of the first problem, where it costs less than this in the next one.
pub(crate) fn read_choice(
    alloc: Global,
    units: &[JointUnit],
    choice: &Choice,
    enough: u64,
) -> Result<Option<Choice>, Memory> {
    let mut items = Vec::new(alloc);
    let mut cost: u64 = 0;
    for (unit, number) in units.iter().zip(choice.items()) {
        if let Some(entry) = unit.entries.get(*number as usize) {
            cost = cost.saturating_add(entry.next_cost);
            if unit.place.first.is_some() {
                items.push(entry.number)?;
            }
        }
    }
    if cost < enough {
        Ok(Some(Choice::new(items)))
    } else {
        Ok(None)
    }
}
