//! What leaves the basis: of what passes its bounds, the one with the greatest ratio of the square
//! of its violation and the square of the length of its direction.

use crate::entering::{Entering, Falling};
use crate::named::Pair;
use crate::nearby::Nearby;
use crate::programs::Program;
use crate::relaxations::Relaxation;
use crate::slots::{
    NOTHING, PASSED, add, fill, number_or_max, part_of, place_after, product, put, put_number,
    size_of_number, value_at,
};
use slot_text::Memory;
use std::alloc::Global;

// How many of the most passed classes of a program of very many alternatives are looked at.
pub(crate) const LOOKED_AT: usize = 16;

// And of one of fewer.
const FEWER_LOOKED_AT: usize = 8;

// So many alternatives are very many.
const VERY_MANY_COLUMNS: usize = 100_000;

// In how many pivots after all were counted the same ones are, while something is passed still.
const LOOKED_AT_AGAIN: u32 = 4;

// How many users for each basic alternative are many.
const MANY_USERS: usize = 8;

// What leaves.
#[derive(Clone, Copy)]
pub(crate) enum Place {
    // Nothing: all bounds are kept.
    Nothing,
    // A basic alternative by its place, below 0, or above it where that is so.
    Basic(usize, bool),
    // The key of a unit.
    Key(u32),
    // A class without a price.
    Class(u32),
}

// What leaves, how far it passes its bound, and the ratio.
#[derive(Clone, Copy)]
pub(crate) struct Leaving {
    pub(crate) place: Place,
    pub(crate) violation: f64,
    pub(crate) ratio: f64,
}

impl Leaving {
    // Nothing.
    fn nothing() -> Leaving {
        Leaving {
            place: Place::Nothing,
            violation: 0.0,
            ratio: 0.0,
        }
    }

    // Takes what has a greater ratio. Answers whether it does.
    fn offer(&mut self, place: Place, violation: f64, square: f64) -> bool {
        let ratio = violation * violation / square;
        let is_greater = ratio > self.ratio;
        if is_greater {
            *self = Leaving {
                place,
                violation,
                ratio,
            };
        }
        is_greater
    }
}

/// Numbers that one step of a relaxation of a program computes and the next one overwrites.
#[derive(Drop)]
pub struct Work {
    // A number for each named part: uses of a class, or a price. All are 0 between two uses.
    pub(crate) parts: Vec<f64>,
    // For each unit whether prices of its parts move; none between two uses.
    pub(crate) marks: Vec<bool>,
    // The units of which prices of parts move, by rising number, and for each unit the least of
    // these, or 0.
    pub(crate) touched: Vec<u32>,
    pub(crate) leasts: Vec<f64>,
    // The units of which some alternatives may become cheaper beside their keys.
    pub(crate) falling: Vec<Falling>,
    // How much of each named part is taken of a program of many alternatives; and of one of few,
    // how often each class is used.
    pub(crate) targets: Vec<f64>,
    pub(crate) loads: Vec<f64>,
    // For each unit the sum of the values of its basic alternatives.
    sums: Vec<f64>,
    // For each unit the number of its basic alternatives.
    pub(crate) counts: Vec<f64>,
    // For each falling unit without basic alternatives the alternative that comes to its bound
    // first, and where.
    pub(crate) breakpoints: Vec<Entering>,
    // The unit of each basic alternative, before a pivot.
    pub(crate) units: Vec<u32>,
    // The parts of each basic alternative and of its unit's key, before a pivot.
    pub(crate) pairs: Vec<(Pair, Pair)>,
    // The alternatives that become keys in this pivot, in the order in which they come to their
    // bounds.
    pub(crate) new_keys: Vec<u32>,
    // How the prices change while that of the class without one rises by 1 that leaves.
    pub(crate) direction: Vec<f64>,
    // The alternatives that may come to their bounds soon.
    pub(crate) nearby: Nearby,
}

impl Work {
    // How many units changed their keys in the last pivot, each change counted.
    pub(crate) fn changes(&self) -> u32 {
        u32::try_from(self.new_keys.len()).unwrap_or(u32::MAX)
    }

    /// Numbers for a program: some for each class, unit and named part, and once they are used up
    /// to 24 bytes for each alternative.
    pub fn new(alloc: Global, program: &Program<'_>) -> Result<Work, Memory> {
        let mut work = Work::empty(alloc);
        work.make_room(alloc, program)?;
        work.nearby.make_room(alloc, program)?;
        Ok(work)
    }

    // Numbers for no parts, units and classes.
    fn empty(alloc: Global) -> Work {
        Work {
            parts: Vec::new(alloc),
            marks: Vec::new(alloc),
            touched: Vec::new(alloc),
            leasts: Vec::new(alloc),
            falling: Vec::new(alloc),
            targets: Vec::new(alloc),
            loads: Vec::new(alloc),
            sums: Vec::new(alloc),
            counts: Vec::new(alloc),
            breakpoints: Vec::new(alloc),
            units: Vec::new(alloc),
            pairs: Vec::new(alloc),
            new_keys: Vec::new(alloc),
            direction: Vec::new(alloc),
            nearby: Nearby::empty(alloc),
        }
    }

    // Makes room for the named parts, units and classes of a program.
    fn make_room(&mut self, alloc: Global, program: &Program<'_>) -> Result<(), Memory> {
        let units = program.units() as usize;
        self.parts = vec![in alloc; 0.0; program.parts()]?;
        self.marks = vec![in alloc; false; units]?;
        self.leasts = vec![in alloc; 0.0; units]?;
        self.targets = vec![in alloc; 0.0; program.parts()]?;
        self.loads = vec![in alloc; 0.0; program.limits().len()]?;
        self.sums = vec![in alloc; 0.0; units]?;
        self.counts = vec![in alloc; 0.0; units]?;
        Ok(())
    }

    // A falling unit by its place among these.
    pub(crate) fn falling_at(&self, number: usize) -> Option<Falling> {
        match self.falling.get(number) {
            Some(falling) => Some(*falling),
            None => None,
        }
    }

    // A falling unit by its place among these, where its list is to be made anew.
    pub(crate) fn due(&mut self, program: &Program<'_>, number: usize) -> Option<Falling> {
        let falling = self.falling_at(number)?;
        let alternatives = program.unit_pairs(falling.unit).len();
        if self.nearby.is_due(falling.unit, alternatives) {
            Some(falling)
        } else {
            None
        }
    }

    // The sum of the numbers of an alternative's parts.
    pub(crate) fn at(&self, pair: Pair) -> f64 {
        value_at(&self.parts, pair.one as usize) + value_at(&self.parts, pair.two as usize)
    }
}

impl Relaxation {
    // What leaves.
    pub(crate) fn leaving(
        &mut self,
        alloc: Global,
        program: &Program<'_>,
        work: &mut Work,
    ) -> Result<Leaving, Memory> {
        let mut leaving = Leaving::nothing();
        fill(&mut work.sums, 0.0);
        self.take_pairs(program, work)?;
        self.offer_basics(work, &mut leaving);
        self.offer_keys(alloc, program, work, &mut leaving)?;
        if self.again > 0 {
            self.again -= 1;
            let are_passed = self.offer_tops(alloc, program, work, &mut leaving)?;
            if are_passed || leaving.violation > 0.0 {
                return Ok(leaving);
            }
        }
        self.take_loads(program, work);
        self.tops = self.most_passed(program, self.class_loads(program, work));
        self.again = LOOKED_AT_AGAIN;
        let _are_passed = self.offer_tops(alloc, program, work, &mut leaving)?;
        Ok(leaving)
    }

    // Notes the parts of the basic alternatives and of their units' keys.
    fn take_pairs(&self, program: &Program<'_>, work: &mut Work) -> Result<(), Memory> {
        work.pairs.clear();
        for (at, unit) in work.units.iter().enumerate() {
            let key = self.head(*unit).pair;
            work.pairs.push((program.pair(self.basic(at)), key))?;
        }
        Ok(())
    }

    // Offers the basic alternatives, and adds up their values.
    fn offer_basics(&self, work: &mut Work, leaving: &mut Leaving) {
        for (at, unit) in work.units.iter().enumerate() {
            let value = self.basic_value(at);
            add(&mut work.sums, *unit as usize, value);
            let violation = self.violation(self.basic(at), value);
            if violation > 0.0 {
                let square = self.inverse.square(at) + NOTHING;
                let _is_taken = leaving.offer(Place::Basic(at, value > 0.0), violation, square);
            }
        }
    }

    // Offers the keys of the units with basic alternatives.
    fn offer_keys(
        &self,
        alloc: Global,
        program: &Program<'_>,
        work: &Work,
        leaving: &mut Leaving,
    ) -> Result<(), Memory> {
        for unit in 0..program.units() {
            let sum = value_at(&work.sums, unit as usize);
            if value_at(&work.counts, unit as usize) > 0.0 {
                let violation = self.violation(self.key_place(unit), 1.0 - sum);
                if violation > 0.0 {
                    let row = self.unit_row(alloc, &work.units, unit)?;
                    let square = product(&row, &row) + NOTHING;
                    let _is_taken = leaving.offer(Place::Key(unit), violation, square);
                }
            }
        }
        Ok(())
    }

    // How far an alternative with this value passes its bounds.
    fn violation(&self, place: u32, value: f64) -> f64 {
        if value < -PASSED {
            -value
        } else if value > PASSED && self.is_shut(place) {
            value
        } else {
            0.0
        }
    }

    // The classes without a price that are passed most.
    fn most_passed(&self, program: &Program<'_>, loads: &[f64]) -> [u32; LOOKED_AT] {
        let mut tops = Tops {
            classes: [u32::MAX; LOOKED_AT],
            passed: [0.0; LOOKED_AT],
            count: looked_at(program),
            least: PASSED,
        };
        for (class, (load, limit)) in loads.iter().zip(program.limits()).enumerate() {
            let passed = *load - *limit;
            if passed > tops.least && number_or_max(&self.places, class) == u32::MAX {
                tops.offer(place_after(0, class), passed);
            }
        }
        tops.classes
    }

    // Offers the classes that were passed most, where they are. Answers whether some are.
    fn offer_tops(
        &self,
        alloc: Global,
        program: &Program<'_>,
        work: &mut Work,
        leaving: &mut Leaving,
    ) -> Result<bool, Memory> {
        let mut are_passed = false;
        for class in self.tops {
            let is_passed = self.offer_class(alloc, program, work, class, leaving)?;
            are_passed = are_passed || is_passed;
        }
        Ok(are_passed)
    }

    // Offers a class without a price, where it is passed. Answers whether it is.
    fn offer_class(
        &self,
        alloc: Global,
        program: &Program<'_>,
        work: &mut Work,
        class: u32,
        leaving: &mut Leaving,
    ) -> Result<bool, Memory> {
        if class == u32::MAX || number_or_max(&self.places, class as usize) != u32::MAX {
            return Ok(false);
        }
        let weights = self.class_weights(alloc, program, work, class)?;
        let violation = self.load_of(class, &weights) - program.limit(class);
        if violation <= PASSED {
            return Ok(false);
        }
        if violation * violation <= leaving.ratio {
            return Ok(true);
        }
        let direction = self.inverse.weighted(alloc, &weights)?;
        let square = 1.0 + product(&direction, &direction);
        if leaving.offer(Place::Class(class), violation, square) {
            work.direction = direction;
        }
        Ok(true)
    }

    // How often a class is used, where the keys of the basic alternatives use it so much more often
    // than these.
    fn load_of(&self, class: u32, weights: &[f64]) -> f64 {
        let mut load = value_at(&self.loads, class as usize);
        for (at, weight) in weights.iter().enumerate() {
            load -= *weight * self.basic_value(at);
        }
        load
    }

    // How often the keys of the basic alternatives use a class more than these. Where the class has
    // many users, its uses are looked up in the parts of the basic alternatives; else it is priced
    // in those of its users.
    fn class_weights(
        &self,
        alloc: Global,
        program: &Program<'_>,
        work: &mut Work,
        class: u32,
    ) -> Result<Vec<f64>, Memory> {
        let users = program.users(class).len();
        if users / MANY_USERS > self.basics.len() {
            self.looked_up(alloc, program, class)
        } else {
            self.priced_weights(alloc, program, work, class)
        }
    }

    // How often the keys of the basic alternatives use a class more than these, by pricing its
    // users.
    fn priced_weights(
        &self,
        alloc: Global,
        program: &Program<'_>,
        work: &mut Work,
        class: u32,
    ) -> Result<Vec<f64>, Memory> {
        program.add_price(class, 1.0, &mut work.parts);
        let mut weights = Vec::with_capacity(alloc, work.pairs.len())?;
        for (basic, key) in &work.pairs {
            weights.push(work.at(*key) - work.at(*basic))?;
        }
        program.clear_users(class, &mut work.parts);
        Ok(weights)
    }

    // The same by looking it up in their parts.
    fn looked_up(
        &self,
        alloc: Global,
        program: &Program<'_>,
        class: u32,
    ) -> Result<Vec<f64>, Memory> {
        let mut weights = Vec::with_capacity(alloc, self.basics.len())?;
        for place in &self.basics {
            let column = program.column(*place);
            let key = program.column(self.key_place(column.unit));
            weights.push(program.uses(&key, class) - program.uses(&column, class))?;
        }
        Ok(weights)
    }
}

// How many of the most passed classes of a program are looked at.
fn looked_at(program: &Program<'_>) -> usize {
    if program.columns().len() < VERY_MANY_COLUMNS {
        FEWER_LOOKED_AT
    } else {
        LOOKED_AT
    }
}

// The classes that are passed most, how far, how many they are at most, and how far one must be
// passed to be among them.
#[derive(Clone, Copy)]
struct Tops {
    classes: [u32; LOOKED_AT],
    passed: [f64; LOOKED_AT],
    count: usize,
    least: f64,
}

impl Tops {
    // Takes in a class in place of the least one.
    fn offer(&mut self, class: u32, passed: f64) {
        let at = least_place(part_of(&self.passed, (0, self.count)));
        put_number(&mut self.classes, at, class);
        put(&mut self.passed, at, passed);
        let next = least_place(part_of(&self.passed, (0, self.count)));
        let least = value_at(&self.passed, next);
        if least > PASSED {
            self.least = least;
        }
    }
}

// The place of the first least number.
fn least_place(values: &[f64]) -> usize {
    let mut least = 0;
    for (at, value) in values.iter().enumerate() {
        if *value < value_at(values, least) {
            least = at;
        }
    }
    least
}
