//! The state of a relaxation: its basis, prices and reduced costs, and the alternatives that it may
//! take.

use crate::inverses::Inverse;
use crate::leaving::LOOKED_AT;
use crate::named::Pair;
use crate::nearby::{MANY_COLUMNS, Near};
use crate::programs::Program;
use crate::slots::{
    NOTHING, PASSED, add, add_multiple, has_bit, is_among, number_or_max, place_after, put_bit,
    put_number, size_of_number, value_at,
};
use slot_text::Memory;
use std::alloc::Global;

/// What a relaxation takes of an alternative.
#[derive(Clone, Copy, Debug)]
pub struct Share {
    /// The unit.
    pub unit: u32,
    /// The number of the alternative in the unit.
    pub alt: u32,
    /// How much of it is taken: the shares of a unit add up to about 1.
    pub share: f64,
}

/// A linear relaxation in the making: a basis, from which `solve` goes on. It takes up to 16 bytes
/// for each part that the program's alternatives name, 8 for each entry of the inverse, and one bit
/// for each alternative.
#[derive(Drop)]
pub struct Relaxation {
    // For each alternative, in words of 64 bits, whether it may not be taken.
    shut: Vec<u64>,
    // The place of each unit's key alternative.
    pub(crate) keys: Vec<u32>,
    // These alternatives, with their parts and changed costs.
    pub(crate) heads: Vec<Near>,
    // The places of the basic alternatives.
    pub(crate) basics: Vec<u32>,
    // The classes with a price.
    pub(crate) priced: Vec<u32>,
    // The place of each class among those with a price.
    pub(crate) places: Vec<u32>,
    pub(crate) inverse: Inverse,
    // What each named part costs at the prices of the classes.
    pub(crate) parts: Vec<f64>,
    // The price of each class, with changed costs.
    pub(crate) prices: Vec<f64>,
    // How often the keys use each class.
    pub(crate) loads: Vec<f64>,
    // Of a program of many alternatives, how much of each named part was taken when all uses were
    // last counted, and how often that uses each class.
    pub(crate) amounts: Vec<f64>,
    pub(crate) totals: Vec<f64>,
    // And the key of each unit of which nothing else was taken then; else no alternative.
    pub(crate) alone: Vec<u32>,
    // The classes that were passed most when all were counted, and in how many pivots they may be
    // looked at again.
    pub(crate) tops: [u32; LOOKED_AT],
    pub(crate) again: u32,
    // The value of each basic alternative.
    pub(crate) values: Vec<f64>,
    // Where there is no solution: prices of classes that show it.
    pub(crate) ray: Vec<(u32, f64)>,
    pub(crate) value: f64,
}

impl Relaxation {
    /// The start: each unit takes its cheapest alternative, and no resource has a price.
    pub fn start(alloc: Global, program: &Program<'_>) -> Result<Relaxation, Memory> {
        let mut relaxation = Relaxation::unpriced(alloc, program)?;
        for unit in 0..program.units() {
            relaxation.start_unit(program, unit)?;
        }
        Ok(relaxation)
    }

    // One without prices, where no unit has an alternative yet.
    pub(crate) fn unpriced(alloc: Global, program: &Program<'_>) -> Result<Relaxation, Memory> {
        let mut relaxation = Relaxation::empty(alloc);
        relaxation.make_room(alloc, program)?;
        Ok(relaxation)
    }

    // One of no alternatives.
    fn empty(alloc: Global) -> Relaxation {
        Relaxation {
            shut: Vec::new(alloc),
            keys: Vec::new(alloc),
            heads: Vec::new(alloc),
            basics: Vec::new(alloc),
            priced: Vec::new(alloc),
            places: Vec::new(alloc),
            inverse: Inverse::new(alloc),
            parts: Vec::new(alloc),
            prices: Vec::new(alloc),
            loads: Vec::new(alloc),
            amounts: Vec::new(alloc),
            totals: Vec::new(alloc),
            alone: Vec::new(alloc),
            tops: [u32::MAX; LOOKED_AT],
            again: 0,
            values: Vec::new(alloc),
            ray: Vec::new(alloc),
            value: 0.0,
        }
    }

    // Makes room for the alternatives, classes and named parts of a program.
    fn make_room(&mut self, alloc: Global, program: &Program<'_>) -> Result<(), Memory> {
        let classes = program.limits().len();
        self.shut = vec![in alloc; 0; program.columns().len() / 64 + 1]?;
        self.places = vec![in alloc; u32::MAX; classes]?;
        self.parts = vec![in alloc; 0.0; program.parts()]?;
        self.prices = vec![in alloc; 0.0; classes]?;
        self.loads = vec![in alloc; 0.0; classes]?;
        if program.columns().len() >= MANY_COLUMNS {
            self.amounts = vec![in alloc; 0.0; program.parts()]?;
            self.totals = vec![in alloc; 0.0; classes]?;
            self.alone = vec![in alloc; u32::MAX; program.units() as usize]?;
        }
        Ok(())
    }

    // Lets a unit take its cheapest alternative.
    fn start_unit(&mut self, program: &Program<'_>, unit: u32) -> Result<(), Memory> {
        let (place, least) = cheapest(program, unit).unwrap_or((u32::MAX, 0.0));
        self.keys.push(place)?;
        self.heads.push(program.near(place))?;
        self.value += least;
        program.add_uses(&program.column(place), 1.0, &mut self.loads);
        Ok(())
    }

    /// A copy, from which both can go on.
    pub fn copy(&self, alloc: Global) -> Result<Relaxation, Memory> {
        Ok(Relaxation {
            shut: Vec::from_slice(alloc, &self.shut)?,
            keys: Vec::from_slice(alloc, &self.keys)?,
            heads: Vec::from_slice(alloc, &self.heads)?,
            basics: Vec::from_slice(alloc, &self.basics)?,
            priced: Vec::from_slice(alloc, &self.priced)?,
            places: Vec::from_slice(alloc, &self.places)?,
            inverse: self.inverse.copy(alloc)?,
            parts: Vec::from_slice(alloc, &self.parts)?,
            prices: Vec::from_slice(alloc, &self.prices)?,
            loads: Vec::from_slice(alloc, &self.loads)?,
            amounts: Vec::from_slice(alloc, &self.amounts)?,
            totals: Vec::from_slice(alloc, &self.totals)?,
            alone: Vec::from_slice(alloc, &self.alone)?,
            tops: self.tops,
            again: self.again,
            values: Vec::from_slice(alloc, &self.values)?,
            ray: Vec::from_slice(alloc, &self.ray)?,
            value: self.value,
        })
    }

    /// Becomes a copy of another one.
    pub fn copy_from(&mut self, other: &Relaxation) -> Result<(), Memory> {
        refill(&mut self.shut, &other.shut)?;
        refill(&mut self.keys, &other.keys)?;
        refill(&mut self.heads, &other.heads)?;
        refill(&mut self.basics, &other.basics)?;
        refill(&mut self.priced, &other.priced)?;
        refill(&mut self.places, &other.places)?;
        self.inverse.copy_from(&other.inverse)?;
        refill(&mut self.parts, &other.parts)?;
        refill(&mut self.prices, &other.prices)?;
        refill(&mut self.loads, &other.loads)?;
        refill(&mut self.amounts, &other.amounts)?;
        refill(&mut self.totals, &other.totals)?;
        refill(&mut self.alone, &other.alone)?;
        self.tops = other.tops;
        self.again = other.again;
        refill(&mut self.values, &other.values)?;
        refill(&mut self.ray, &other.ray)?;
        self.value = other.value;
        Ok(())
    }

    /// Lets an alternative be taken no more, by its place among the program's columns.
    pub fn shut(&mut self, place: u32) {
        put_bit(&mut self.shut, place);
    }

    /// The value with changed costs: where the relaxation is not solved yet, at most the
    /// solution's. A cost is changed by at most 1/10,000.
    pub fn value(&self) -> f64 {
        self.value
    }

    /// The value of the basis at the costs themselves.
    pub fn true_value(&self, program: &Program<'_>) -> f64 {
        let mut total = 0.0;
        for place in &self.keys {
            total += program.column(*place).cost;
        }
        for at in 0..self.basics.len() {
            let column = program.column(self.basic(at));
            let key = program.column(self.key_place(column.unit));
            total += self.basic_value(at) * (column.cost - key.cost);
        }
        total
    }

    // A basic alternative by its place among these.
    pub(crate) fn basic(&self, at: usize) -> u32 {
        number_or_max(&self.basics, at)
    }

    // The value of a basic alternative by its place among these.
    pub(crate) fn basic_value(&self, at: usize) -> f64 {
        value_at(&self.values, at)
    }

    /// The reduced cost of a column of the program, with changed costs, by its place.
    pub fn reduced_cost(&self, program: &Program<'_>, place: u32) -> f64 {
        let key = self.key_place(program.column(place).unit);
        self.cost_at(program, place) - self.cost_at(program, key)
    }

    /// The reduced costs of the program's columns, in their order, with changed costs.
    pub fn reduced_costs(&self, alloc: Global, program: &Program<'_>) -> Result<Vec<f64>, Memory> {
        let mut costs = Vec::with_capacity(alloc, program.columns().len())?;
        for number in 0..program.columns().len() {
            costs.push(self.reduced_cost(program, place_after(0, number)))?;
        }
        Ok(costs)
    }

    // The changed cost of an alternative with what its parts cost.
    pub(crate) fn cost_at(&self, program: &Program<'_>, place: u32) -> f64 {
        program.changed_cost(place) + self.parts_cost(program.pair(place))
    }

    // What both parts of an alternative cost.
    pub(crate) fn parts_cost(&self, pair: Pair) -> f64 {
        value_at(&self.parts, pair.one as usize) + value_at(&self.parts, pair.two as usize)
    }

    /// Whether a class has a place in the basis: only such have prices.
    pub fn is_priced(&self, class: u32) -> bool {
        number_or_max(&self.places, class as usize) != u32::MAX
    }

    /// The alternative that a unit takes where `shares` does not name it.
    pub fn key(&self, program: &Program<'_>, unit: u32) -> u32 {
        program.column(self.key_place(unit)).number
    }

    /// The shares of the units that have a basic alternative, by unit and alternative. Shares of
    /// less than 1/10,000,000 are left out.
    pub fn shares(&self, alloc: Global, program: &Program<'_>) -> Result<Vec<Share>, Memory> {
        let sums = self.sums(alloc, program)?;
        let mut places = Vec::new(alloc);
        self.add_basics(&mut places)?;
        self.add_keys(&sums, &mut places)?;
        places.sort_unstable_by_key(|entry| entry.0);
        shares_at(alloc, program, &places)
    }

    // Adds the places of the basic alternatives and their shares.
    fn add_basics(&self, places: &mut Vec<(u32, f64)>) -> Result<(), Memory> {
        for at in 0..self.basics.len() {
            let value = self.basic_value(at);
            if value > PASSED {
                places.push((self.basic(at), value))?;
            }
        }
        Ok(())
    }

    // Adds the places of the keys and their shares, beside basic alternatives of these sums.
    fn add_keys(&self, sums: &[f64], places: &mut Vec<(u32, f64)>) -> Result<(), Memory> {
        for (key, sum) in self.keys.iter().zip(sums) {
            if size_of_number(*sum) > NOTHING && 1.0 - *sum > PASSED {
                places.push((*key, 1.0 - *sum))?;
            }
        }
        Ok(())
    }

    // The sum of the values of each unit's basic alternatives.
    fn sums(&self, alloc: Global, program: &Program<'_>) -> Result<Vec<f64>, Memory> {
        let mut sums = vec![in alloc; 0.0; self.keys.len()]?;
        for at in 0..self.basics.len() {
            let unit = program.column(self.basic(at)).unit;
            add(&mut sums, unit as usize, self.basic_value(at));
        }
        Ok(sums)
    }

    // The place of a unit's key.
    pub(crate) fn key_place(&self, unit: u32) -> u32 {
        number_or_max(&self.keys, unit as usize)
    }

    // A unit's key.
    pub(crate) fn head(&self, unit: u32) -> Near {
        match self.heads.get(unit as usize) {
            Some(head) => *head,
            None => Near::nothing(),
        }
    }

    // Whether an alternative may not be taken. A place past the last may not either.
    pub(crate) fn is_shut(&self, place: u32) -> bool {
        has_bit(&self.shut, place)
    }

    // Makes an alternative the key of its unit.
    fn set_key(&mut self, program: &Program<'_>, unit: u32, place: u32) {
        let old = program.column(self.key_place(unit));
        let new = program.column(place);
        if old.one != new.one {
            program.add_part(old.one, -1.0, &mut self.loads);
            program.add_part(new.one, 1.0, &mut self.loads);
        }
        if old.two != new.two {
            program.add_part(old.two, -1.0, &mut self.loads);
            program.add_part(new.two, 1.0, &mut self.loads);
        }
        put_number(&mut self.keys, unit as usize, place);
        if let Some(head) = self.heads.get_mut(unit as usize) {
            *head = program.near(place);
        }
    }

    // Makes a basic alternative the key of its unit; the key takes its place. These are the units
    // of the basic alternatives.
    pub(crate) fn switch_key(
        &mut self,
        alloc: Global,
        program: &Program<'_>,
        units: &[u32],
        place: usize,
    ) -> Result<(), Memory> {
        let new = number_or_max(&self.basics, place);
        let unit = program.column(new).unit;
        let old = self.key_place(unit);
        let mut row = self.unit_row(alloc, units, unit)?;
        negate(&mut row);
        self.inverse.put_row(place, row);
        self.set_key(program, unit, new);
        put_number(&mut self.basics, place, old);
        Ok(())
    }

    // The sum of the rows of a unit's basic alternatives, of which these are the units.
    pub(crate) fn unit_row(
        &self,
        alloc: Global,
        units: &[u32],
        unit: u32,
    ) -> Result<Vec<f64>, Memory> {
        let mut sums = vec![in alloc; 0.0; self.priced.len()]?;
        for (other, row) in units.iter().zip(self.inverse.rows()) {
            if *other == unit {
                add_multiple(&mut sums, row, 1.0);
            }
        }
        Ok(sums)
    }

    // Lets a unit without basic alternatives take its best allowed one. Answers whether there is
    // one.
    pub(crate) fn set_best_key(&mut self, program: &Program<'_>, unit: u32) -> bool {
        let Some((place, _)) = self.best_allowed(program, unit) else {
            return false;
        };
        self.take_key(program, place);
        true
    }

    // Makes an alternative the key of its unit, which has no basic alternatives.
    pub(crate) fn take_key(&mut self, program: &Program<'_>, place: u32) {
        let unit = program.column(place).unit;
        let cost = self.reduced_cost(program, place);
        self.set_key(program, unit, place);
        self.value += cost;
    }

    // The place of a unit's first allowed alternative of least cost with its parts, and that cost.
    fn best_allowed(&self, program: &Program<'_>, unit: u32) -> Option<(u32, f64)> {
        let first = program.first_column(unit);
        let mut best: Option<(u32, f64)> = None;
        for number in 0..program.unit_columns(unit).len() {
            let at = place_after(first, number);
            let cost = self.cost_at(program, at);
            if is_less(cost, best) && !self.is_shut(at) {
                best = Some((at, cost));
            }
        }
        best
    }

    // Computes the values of the basic alternatives.
    pub(crate) fn take_values(
        &mut self,
        alloc: Global,
        program: &Program<'_>,
    ) -> Result<(), Memory> {
        let mut room = Vec::with_capacity(alloc, self.priced.len())?;
        for class in &self.priced {
            let load = value_at(&self.loads, *class as usize);
            room.push(program.limit(*class) - load)?;
        }
        self.values = self.inverse.times(alloc, &room)?;
        Ok(())
    }

    // Whether an alternative of a unit is basic or its key, or not allowed.
    pub(crate) fn is_out(&self, unit: u32, place: u32) -> bool {
        self.key_place(unit) == place || self.is_shut(place) || is_among(&self.basics, place)
    }
}

// Puts other entries in the place of those of a list.
fn refill<T: Copy + Drop>(list: &mut Vec<T>, entries: &[T]) -> Result<(), Memory> {
    list.clear();
    list.extend_from_slice(entries)?;
    Ok(())
}

// The place of a unit's first cheapest alternative with changed costs, and that cost.
fn cheapest(program: &Program<'_>, unit: u32) -> Option<(u32, f64)> {
    let first = program.first_column(unit);
    let mut best: Option<(u32, f64)> = None;
    for number in 0..program.unit_columns(unit).len() {
        let at = place_after(first, number);
        let cost = program.changed_cost(at);
        if is_less(cost, best) {
            best = Some((at, cost));
        }
    }
    best
}

// Whether a cost is less than the best one, if there is one.
fn is_less(cost: f64, best: Option<(u32, f64)>) -> bool {
    match best {
        Some((_, least)) => cost < least,
        None => true,
    }
}

// Turns the sign of each number.
fn negate(values: &mut [f64]) {
    for value in values.iter_mut() {
        *value = -*value;
    }
}

// The shares of the alternatives at these places.
fn shares_at(
    alloc: Global,
    program: &Program<'_>,
    places: &[(u32, f64)],
) -> Result<Vec<Share>, Memory> {
    let mut shares = Vec::with_capacity(alloc, places.len())?;
    for (place, share) in places {
        let column = program.column(*place);
        shares.push(Share {
            unit: column.unit,
            alt: column.number,
            share: *share,
        })?;
    }
    Ok(shares)
}
