//! The alternatives of each unit that may come to their bounds soon: a ratio test looks at these
//! alone, and at all of a unit where others might come to their bounds as soon (partial pricing:
//! Bixby, Gregory, Lustig, Marsten and Shanno 1992, "Very large-scale linear programming: a case
//! study in combining interior point and simplex methods").
//!
//! A list has each alternative of its unit up to some cost, at what the parts cost when it was
//! made. The others cost more, and became cheaper since then by at most twice the most by which a
//! part of the unit did. So what a ratio test finds does not depend on the lists.

use crate::entering::{Entering, Entry, Falling};
use crate::leaving::Work;
use crate::named::Pair;
use crate::programs::{NO_PART, Program};
use crate::relaxations::Relaxation;
use crate::slots::{
    add, copy_span, number_or_max, part_of, place_after, put, put_number, value_at,
};
use slot_text::Memory;
use std::alloc::Global;

// How much more than a key the alternatives must cost that are not listed.
const APART: f64 = 0.000001;

// More than any alternative costs, and longer than the prices move.
const NEVER: f64 = 1000000000000000000000000000000.0;

// With fewer alternatives than this a program's lists have all of them.
pub(crate) const MANY_COLUMNS: usize = 8_000;

// The part of the way from the cost of a key to the mean of its unit up to which alternatives are
// listed.
const LISTED_PART: f64 = 0.1;

// A list of a program of many alternatives is made anew after as many looks at its entries as these
// times its unit's alternatives.
const LOOKS: u32 = 4;

// An alternative that may come to its bound soon: its place, its parts, and its changed cost.
#[derive(Clone, Copy)]
pub(crate) struct Near {
    pub(crate) place: u32,
    pub(crate) pair: Pair,
    pub(crate) changed: f64,
}

impl Near {
    // No alternative.
    pub(crate) fn nothing() -> Near {
        Near {
            place: u32::MAX,
            pair: Pair {
                one: NO_PART,
                two: NO_PART,
            },
            changed: 0.0,
        }
    }
}

// The lists of the units.
#[derive(Drop)]
pub(crate) struct Nearby {
    lists: Vec<Vec<Near>>,
    // At most what the alternatives cost that are not listed, when the list was made.
    others: Vec<f64>,
    // What each named part cost when the list of its unit was made.
    seen: Vec<f64>,
    // For each unit at most how much more a part costs now, and at most 0.
    slips: Vec<f64>,
    // How many listed alternatives were looked at since the list was made.
    looked: Vec<u32>,
    // A list is made anew after as many looks at its entries as these times its unit's
    // alternatives.
    looks: u32,
}

impl Nearby {
    // No lists.
    pub(crate) fn empty(alloc: Global) -> Nearby {
        Nearby {
            lists: Vec::new(alloc),
            others: Vec::new(alloc),
            seen: Vec::new(alloc),
            slips: Vec::new(alloc),
            looked: Vec::new(alloc),
            looks: u32::MAX,
        }
    }

    // Makes room for the lists of the units of a program, all of which are due.
    pub(crate) fn make_room(&mut self, alloc: Global, program: &Program<'_>) -> Result<(), Memory> {
        let units = program.units() as usize;
        self.others = vec![in alloc; 0.0; units]?;
        self.seen = vec![in alloc; 0.0; program.parts()]?;
        self.slips = vec![in alloc; 0.0; units]?;
        self.looked = vec![in alloc; u32::MAX; units]?;
        if program.columns().len() >= MANY_COLUMNS {
            self.looks = LOOKS;
        }
        self.add_lists(alloc, units)
    }

    // Adds so many empty lists.
    fn add_lists(&mut self, alloc: Global, units: usize) -> Result<(), Memory> {
        for _ in 0..units {
            self.lists.push(Vec::new(alloc))?;
        }
        Ok(())
    }

    // Begins with what the parts cost in a relaxation.
    pub(crate) fn begin(&mut self, program: &Program<'_>, parts: &[f64]) {
        for unit in 0..program.units() {
            let span = program.part_span(unit);
            let slip = least_difference(part_of(parts, span), part_of(&self.seen, span));
            put(&mut self.slips, unit as usize, slip);
        }
    }

    // The list of a unit.
    pub(crate) fn list(&self, unit: u32) -> &[Near] {
        match self.lists.get(unit as usize) {
            Some(list) => list,
            None => &[],
        }
    }

    // Whether the list of a unit of so many alternatives is to be made anew. Counts a look at each
    // entry of it.
    pub(crate) fn is_due(&mut self, unit: u32, alternatives: usize) -> bool {
        let at = unit as usize;
        let looked = number_or_max(&self.looked, at);
        let listed = self.list(unit).len();
        put_number(&mut self.looked, at, place_after(looked, listed));
        looked >= place_after(0, alternatives).saturating_mul(self.looks)
    }

    // Whether the alternatives of a unit that are not listed cost more than this, where its parts
    // move by at least so much.
    fn cost_more(&self, unit: u32, cost: f64, least: f64) -> bool {
        let others = value_at(&self.others, unit as usize);
        let slip = value_at(&self.slips, unit as usize) + least;
        others >= NEVER || others + slip + slip > cost + APART
    }

    // Moves the parts of a unit along a direction by so much at least.
    pub(crate) fn slip(&mut self, unit: u32, least: f64) {
        add(&mut self.slips, unit as usize, least);
    }

    // Computes how much less the parts of a unit cost now than when its list was made.
    fn renew_slip(&mut self, unit: u32, span: (usize, usize), parts: &[f64]) {
        let slip = least_difference(part_of(parts, span), part_of(&self.seen, span));
        put(&mut self.slips, unit as usize, slip);
    }

    // Notes that the list of a unit is made now, and what the others cost at least.
    fn note(&mut self, unit: u32, span: (usize, usize), parts: &[f64], others: f64) {
        copy_span(&mut self.seen, parts, span);
        put(&mut self.others, unit as usize, others);
        put(&mut self.slips, unit as usize, 0.0);
        put_number(&mut self.looked, unit as usize, 0);
    }

    // Empties the list of a unit.
    fn clear(&mut self, unit: u32) {
        if let Some(list) = self.lists.get_mut(unit as usize) {
            list.clear();
        }
    }

    // Adds an alternative to the list of its unit.
    fn push(&mut self, unit: u32, near: Near) -> Result<(), Memory> {
        if let Some(list) = self.lists.get_mut(unit as usize) {
            list.push(near)?;
        }
        Ok(())
    }
}

impl Relaxation {
    // Makes the lists of falling units that are due.
    pub(crate) fn list_due(&self, program: &Program<'_>, work: &mut Work) -> Result<(), Memory> {
        for number in 0..work.falling.len() {
            if let Some(falling) = work.due(program, number) {
                self.list_unit(program, work, falling, 0.0)?;
            }
        }
        Ok(())
    }

    // Makes the lists anew of the falling units of which alternatives that are not listed might
    // come to their bounds before this does. Answers whether there are some.
    pub(crate) fn list_missing(
        &self,
        program: &Program<'_>,
        work: &mut Work,
        entering: Entering,
    ) -> Result<bool, Memory> {
        let length = match entering.entry {
            Entry::Nothing => NEVER,
            _ => entering.length,
        };
        let mut is_any = false;
        for number in 0..work.falling.len() {
            if let Some(falling) = self.missing(program, work, number, length) {
                self.list_unit(program, work, falling, length)?;
                is_any = true;
            }
        }
        Ok(is_any)
    }

    // A falling unit by its place among these, where alternatives that are not listed might come to
    // their bounds up to a length.
    fn missing(
        &self,
        program: &Program<'_>,
        work: &mut Work,
        number: usize,
        length: f64,
    ) -> Option<Falling> {
        let falling = work.falling_at(number)?;
        let cost = falling.cost_at(length);
        let least = length * value_at(&work.leasts, falling.unit as usize);
        if work.nearby.cost_more(falling.unit, cost, least) {
            return None;
        }
        let span = program.part_span(falling.unit);
        work.nearby.renew_slip(falling.unit, span, &self.parts);
        if work.nearby.cost_more(falling.unit, cost, least) {
            return None;
        }
        Some(falling)
    }

    // Lists the alternatives of a unit that may come to their bounds up to a length, and some more.
    fn list_unit(
        &self,
        program: &Program<'_>,
        work: &mut Work,
        falling: Falling,
        length: f64,
    ) -> Result<(), Memory> {
        let unit = falling.unit;
        let most = self.most_listed(program, work, falling, length);
        let others = self.fill_list(program, &mut work.nearby, unit, most)?;
        work.nearby
            .note(unit, program.part_span(unit), &self.parts, others);
        Ok(())
    }

    // Up to what cost alternatives are listed: twice as far above the key's as is needed up to this
    // length, so that lists are made anew seldom.
    fn most_listed(
        &self,
        program: &Program<'_>,
        work: &Work,
        falling: Falling,
        length: f64,
    ) -> f64 {
        if program.columns().len() < MANY_COLUMNS || length >= NEVER {
            return NEVER;
        }
        let least = value_at(&work.leasts, falling.unit as usize);
        let key = falling.cost_at(0.0);
        let needed = falling.cost_at(length) - length * (least + least) + APART - key;
        let near = LISTED_PART * (self.mean_cost(program, falling.unit) - key);
        let enough = needed + needed;
        key + if near < enough { enough } else { near }
    }

    // The mean cost of the alternatives of a unit.
    fn mean_cost(&self, program: &Program<'_>, unit: u32) -> f64 {
        let mut total = 0.0;
        let mut count = 0.0;
        let pairs = program.unit_pairs(unit);
        for (pair, changed) in pairs.iter().zip(program.unit_costs(unit)) {
            total += *changed + self.parts_cost(*pair);
            count += 1.0;
        }
        if count > 0.5 { total / count } else { 0.0 }
    }

    // Lists the alternatives of a unit of at most this cost. Answers the least cost of the others.
    fn fill_list(
        &self,
        program: &Program<'_>,
        nearby: &mut Nearby,
        unit: u32,
        most: f64,
    ) -> Result<f64, Memory> {
        nearby.clear(unit);
        let mut others = NEVER;
        let pairs = program.unit_pairs(unit);
        let first = program.first_column(unit);
        for (place, (pair, changed)) in (first..).zip(pairs.iter().zip(program.unit_costs(unit))) {
            let cost = *changed + self.parts_cost(*pair);
            if cost <= most {
                let near = Near {
                    place,
                    pair: *pair,
                    changed: *changed,
                };
                nearby.push(unit, near)?;
            } else if cost < others {
                others = cost;
            }
        }
        Ok(others)
    }
}

// The least difference of the numbers of two lists, or 0 where it is less.
fn least_difference(values: &[f64], others: &[f64]) -> f64 {
    let mut least = 0.0;
    for (value, other) in values.iter().zip(others) {
        let difference = *value - *other;
        if difference < least {
            least = difference;
        }
    }
    least
}
