//! Choices that are made unit by unit, each beside those that were made before.

use crate::loads::Loads;
use crate::states::Task;
use choice_problem::Choice;
use relaxed_problem::Column;
use slot_text::Memory;
use std::alloc::Global;

/// For each unit the place of the alternative that it takes among the program's columns, or
/// `NO_PLACE`, and how often these use the classes: within their limits.
#[derive(Drop)]
pub(crate) struct Placing {
    places: Vec<u32>,
    loads: Loads,
    // Of the parts of the unit that is placed, whether they fit.
    rooms: Vec<bool>,
}

// The place of no alternative.
const NO_PLACE: u32 = u32::MAX;

impl Placing {
    // No unit takes an alternative.
    pub(crate) fn none(alloc: Global, task: &Task<'_>) -> Result<Placing, Memory> {
        Ok(Placing {
            places: vec![in alloc; NO_PLACE; task.program.units() as usize]?,
            loads: Loads::none(alloc, task.reduced)?,
            rooms: Vec::new(alloc),
        })
    }

    // Lets the units take in this order the alternatives of least weight that fit. Answers the
    // place in the order of the first unit that finds none.
    pub(crate) fn place_all(
        &mut self,
        task: &Task<'_>,
        order: &[u32],
        weights: &[f64],
    ) -> Result<Option<usize>, Memory> {
        for (at, unit) in order.iter().enumerate() {
            if !self.place(task, *unit, weights)? {
                return Ok(Some(at));
            }
        }
        Ok(None)
    }

    // Lets each unit in turn take the cheapest alternative that fits beside those of the others.
    // Answers whether this changed some.
    pub(crate) fn move_all(&mut self, task: &Task<'_>, costs: &[f64]) -> Result<bool, Memory> {
        let mut is_changed = false;
        for unit in 0..task.program.units() {
            let before = self.place_of(unit);
            self.clear(task, unit);
            if !self.place(task, unit, costs)? {
                self.put(task, unit, before);
            }
            is_changed = is_changed || self.place_of(unit) != before;
        }
        Ok(is_changed)
    }

    // The choice that was made, if each unit takes an alternative.
    pub(crate) fn choice(&self, alloc: Global, task: &Task<'_>) -> Result<Option<Choice>, Memory> {
        let mut alts = Vec::with_capacity(alloc, self.places.len())?;
        for place in &self.places {
            match task.program.columns().get(*place as usize) {
                Some(column) => alts.push(column.number)?,
                None => return Ok(None),
            }
        }
        Ok(Some(Choice::new(alts)))
    }

    // Lets a unit that has none take the alternative of least weight that fits. Answers whether one
    // does.
    fn place(&mut self, task: &Task<'_>, unit: u32, weights: &[f64]) -> Result<bool, Memory> {
        self.find_rooms(task, unit)?;
        let first = task.program.first_column(unit);
        let columns = task.program.unit_columns(unit);
        let base = task.reduced.first_part(unit);
        let mut tried = Tried::nothing();
        for _ in 0..columns.len() {
            let Some((place, column)) = self.next(columns, weights, first, base, tried) else {
                return Ok(false);
            };
            if self.loads.fits(task.reduced, &column) {
                self.put(task, unit, place);
                return Ok(true);
            }
            tried = Tried {
                weight: weight_at(weights, place),
                place: Some(place),
            };
        }
        Ok(false)
    }

    // The next alternative of a unit by weight and place, whose parts fit one by one.
    fn next(
        &self,
        columns: &[Column],
        weights: &[f64],
        first: u32,
        base: u32,
        tried: Tried,
    ) -> Option<(u32, Column)> {
        let mut found = None;
        let mut least = 0.0;
        for (number, column) in (0..).zip(columns) {
            let place = first.saturating_add(number);
            let weight = weight_at(weights, place);
            let is_less = found.is_none() || weight < least;
            if is_less && tried.is_before(weight, place) && self.have_rooms(column, base) {
                least = weight;
                found = Some((place, *column));
            }
        }
        found
    }

    // Whether the parts of an alternative fit one by one.
    fn have_rooms(&self, column: &Column, base: u32) -> bool {
        self.has_room(column.one, base) && self.has_room(column.two, base)
    }

    // Whether a part of the unit fits, or is none.
    fn has_room(&self, part: u32, base: u32) -> bool {
        match self.rooms.get(part.saturating_sub(base) as usize) {
            Some(room) => *room,
            None => true,
        }
    }

    // Notes which parts of a unit fit.
    fn find_rooms(&mut self, task: &Task<'_>, unit: u32) -> Result<(), Memory> {
        self.rooms.clear();
        let first = task.reduced.first_part(unit);
        for part in first..task.reduced.first_part(unit.saturating_add(1)) {
            let room = self.loads.has_room(task.reduced, part);
            self.rooms.push(room)?;
        }
        Ok(())
    }

    // The place of the alternative that a unit takes.
    fn place_of(&self, unit: u32) -> u32 {
        match self.places.get(unit as usize) {
            Some(place) => *place,
            None => NO_PLACE,
        }
    }

    // Lets a unit that has none take an alternative.
    fn put(&mut self, task: &Task<'_>, unit: u32, place: u32) {
        if let Some(column) = task.program.columns().get(place as usize) {
            self.loads.take(task.reduced, column);
        }
        if let Some(slot) = self.places.get_mut(unit as usize) {
            *slot = place;
        }
    }

    // Takes the alternative of a unit away.
    fn clear(&mut self, task: &Task<'_>, unit: u32) {
        if let Some(column) = task.program.columns().get(self.place_of(unit) as usize) {
            self.loads.leave(task.reduced, column);
        }
        if let Some(slot) = self.places.get_mut(unit as usize) {
            *slot = NO_PLACE;
        }
    }
}

// The weight and the place of the alternative that was tried last, if one was.
#[derive(Clone, Copy)]
struct Tried {
    weight: f64,
    place: Option<u32>,
}

impl Tried {
    // None was tried.
    fn nothing() -> Tried {
        Tried {
            weight: 0.0,
            place: None,
        }
    }

    // Whether an alternative comes later.
    fn is_before(&self, weight: f64, place: u32) -> bool {
        match self.place {
            Some(tried) => weight > self.weight || (weight == self.weight && place > tried),
            None => true,
        }
    }
}

// The weight at a place.
fn weight_at(weights: &[f64], place: u32) -> f64 {
    match weights.get(place as usize) {
        Some(weight) => *weight,
        None => 0.0,
    }
}
