//! The parts of a problem's units, and which of them alternatives name.

use crate::classes::is_marked;
use crate::numbers::{as_number, number_at};
use crate::rows::Span;
use choice_problem::{Alt, Part, Problem, Strip};
use slot_text::Memory;
use std::alloc::Global;

// The number of each unit's first part, and that of all parts, and for each part whether it is the
// first part of an alternative, and whether it is the second one.
#[derive(Drop)]
pub(crate) struct Outline {
    pub(crate) units: Vec<u32>,
    firsts: Vec<bool>,
    seconds: Vec<bool>,
}

impl Outline {
    // The outline of a problem: one step a part, and one an alternative.
    pub(crate) fn of(alloc: Global, problem: &Problem) -> Result<Outline, Memory> {
        let mut outline = Outline {
            units: Vec::with_capacity(alloc, problem.units() as usize + 1)?,
            firsts: Vec::new(alloc),
            seconds: Vec::new(alloc),
        };
        for unit in 0..problem.units() {
            let parts = problem.unit_parts(unit).len();
            outline.add_unit(parts, problem.unit_alts(unit))?;
        }
        outline.units.push(as_number(outline.firsts.len()))?;
        Ok(outline)
    }

    // Adds a unit with so many parts.
    fn add_unit(&mut self, parts: usize, alts: &[Alt]) -> Result<(), Memory> {
        let first = self.firsts.len();
        let end = first.saturating_add(parts);
        self.units.push(as_number(first))?;
        self.firsts.resize(end, false)?;
        self.seconds.resize(end, false)?;
        for alt in alts {
            mark_part(&mut self.firsts, first, alt.one);
            mark_part(&mut self.seconds, first, alt.two);
        }
        Ok(())
    }

    // How many parts all units have.
    pub(crate) fn parts(&self) -> usize {
        self.firsts.len()
    }

    // The parts of a unit with these parts.
    pub(crate) fn of_unit<'a>(&'a self, unit: u32, parts: &'a [Part]) -> UnitParts<'a> {
        let first = number_at(&self.units, unit as usize);
        let span = Span {
            start: first as usize,
            end: (first as usize).saturating_add(parts.len()),
        };
        UnitParts {
            first,
            parts,
            firsts: span.of(&self.firsts),
            seconds: span.of(&self.seconds),
        }
    }
}

// Marks a part, if there is one, where the first one is at this place.
pub(crate) fn mark_part(marks: &mut [bool], first: usize, part: Option<u32>) {
    if let Some(part) = part {
        let at = first.saturating_add(part as usize);
        if at < marks.len() {
            marks[at] = true;
        }
    }
}

// The parts of a unit: the number of the first one among those of all units, and for each whether
// it is the first or the second part of an alternative.
#[derive(Clone, Copy)]
pub(crate) struct UnitParts<'a> {
    pub(crate) first: u32,
    parts: &'a [Part],
    pub(crate) firsts: &'a [bool],
    pub(crate) seconds: &'a [bool],
}

impl<'a> UnitParts<'a> {
    // How many there are.
    pub(crate) fn len(&self) -> u32 {
        as_number(self.parts.len())
    }

    // The strips of a part, or none where no alternative names it.
    pub(crate) fn strips(&self, part: u32) -> &'a [Strip] {
        let is_named = is_marked(self.firsts, part) || is_marked(self.seconds, part);
        match self.parts.get(part as usize) {
            Some(found) if is_named => found.strips(),
            _ => &[],
        }
    }

    // The most strips that a part has.
    pub(crate) fn most_strips(&self) -> usize {
        let mut most = 0;
        for part in 0..self.len() {
            most = self.strips(part).len().max(most);
        }
        most
    }
}
