//! The alternatives that take part in a relaxation.

use crate::named::{NamedParts, NamedRun, Pair};
use crate::nearby::Near;
use crate::slots::{
    add, add_each, fill, is_set, number_or_max, part_of, place_after, put_flag, value_at,
};
use choice_problem::{Alt, Problem};
use reduced_problem::{ClassUse, Reduced};
use slot_text::Memory;
use std::alloc::Global;
use std::num::nearest_i64_to_f64;

// How much the costs are changed at most, so that few are equal.
const MOST_CHANGE: f64 = 0.0001;

// How many uses are added side by side.
const AT_ONCE: usize = 4;

// How many parts a short run has at most, and twice as many.
const WIDE: usize = 12;

const STEPS: usize = 24;

/// The number of no part.
pub const NO_PART: u32 = u32::MAX;

/// An alternative that takes part.
#[derive(Clone, Copy, Debug)]
pub struct Column {
    /// Its unit.
    pub unit: u32,
    /// Its number in the unit.
    pub number: u32,
    /// Its cost.
    pub cost: f64,
    /// The number of a part among those of all units, or `NO_PART`.
    pub one: u32,
    /// The number of another part, or of the same one, or `NO_PART`.
    pub two: u32,
}

impl Column {
    // Whether another one has the same unit, parts and cost.
    pub(crate) fn is_alike(&self, other: &Column) -> bool {
        self.unit == other.unit
            && self.one == other.one
            && self.two == other.two
            && self.cost == other.cost
    }
}

// An alternative that does not take part, and a class of limit 0 that it uses.
#[derive(Clone, Copy)]
pub(crate) struct Barred {
    pub(crate) column: Column,
    pub(crate) class: u32,
}

/// The alternatives that take part in relaxations of a problem, by unit and number, over the
/// resources that matter.
#[derive(Drop)]
pub struct Program<'a> {
    reduced: &'a Reduced,
    columns: Vec<Column>,
    // The changed cost of each alternative.
    changed: Vec<f64>,
    firsts: Vec<u32>,
    barred: Vec<Barred>,
    limits: Vec<f64>,
    // The parts that the alternatives name, numbered without the others.
    named: NamedParts,
}

impl<'a> Program<'a> {
    /// The alternatives of a problem but for the excluded ones: a flag for each alternative, unit
    /// after unit, where those without a flag take part. A price that costs nothing keeps an
    /// excluded alternative away that uses a resource of limit 0.
    pub fn new(
        alloc: Global,
        problem: &Problem,
        reduced: &'a Reduced,
        excluded: &[bool],
    ) -> Result<Program<'a>, Memory> {
        let limits = limits_of(alloc, reduced)?;
        let mut program = Program {
            reduced,
            columns: Vec::new(alloc),
            changed: Vec::new(alloc),
            firsts: Vec::new(alloc),
            barred: Vec::new(alloc),
            limits,
            named: NamedParts::none(alloc),
        };
        program.add_units(problem, excluded)?;
        program.name_parts(alloc, problem.units())?;
        Ok(program)
    }

    // Takes in the alternatives of all units.
    fn add_units(&mut self, problem: &Problem, excluded: &[bool]) -> Result<(), Memory> {
        let mut seen: usize = 0;
        for unit in 0..problem.units() {
            self.begin_unit()?;
            let alts = problem.unit_alts(unit);
            self.add_unit(unit, alts, flags_from(excluded, seen))?;
            seen = seen.saturating_add(alts.len());
        }
        self.begin_unit()
    }

    // Numbers the parts that the alternatives of so many units name.
    fn name_parts(&mut self, alloc: Global, units: u32) -> Result<(), Memory> {
        self.named = NamedParts::of(alloc, self.reduced, &self.columns, &self.barred, units)?;
        Ok(())
    }

    // Notes where the next unit's alternatives begin.
    fn begin_unit(&mut self) -> Result<(), Memory> {
        let first = u32::try_from(self.columns.len()).unwrap_or(u32::MAX);
        self.firsts.push(first)?;
        Ok(())
    }

    // Takes in the alternatives of a unit.
    fn add_unit(&mut self, unit: u32, alts: &[Alt], excluded: &[bool]) -> Result<(), Memory> {
        let first = self.reduced.first_part(unit);
        for (number, alt) in alts.iter().enumerate() {
            let column = Column {
                unit,
                number: u32::try_from(number).unwrap_or(u32::MAX),
                cost: cost_of(alt.cost),
                one: global_part(first, alt.one),
                two: global_part(first, alt.two),
            };
            self.add_column(column, is_set(excluded, number))?;
        }
        Ok(())
    }

    // Takes in an alternative, or notes that it is left out.
    fn add_column(&mut self, column: Column, is_excluded: bool) -> Result<(), Memory> {
        if !is_excluded {
            let place = place_after(0, self.columns.len());
            self.columns.push(column)?;
            self.changed.push(changed_cost(&column, place))?;
        } else if let Some(class) = self.closed_class(&column) {
            self.barred.push(Barred { column, class })?;
        }
        Ok(())
    }

    /// Gives each alternative that another program has too, of the same unit, parts and cost, the
    /// changed cost that it has there. Both programs have the same units and number their parts
    /// alike. Where they have their alternatives in the same order, it takes a step for each
    /// alternative of both; else up to one for each two of a unit.
    pub fn change_as(&mut self, other: &Program<'_>) {
        let mut at: usize = 0;
        for (column, cost) in self.columns.iter().zip(self.changed.iter_mut()) {
            let place = other.place_from(at, column);
            if place < other.columns.len() {
                *cost = value_at(&other.changed, place);
                at = place.saturating_add(1);
            }
        }
    }

    // The place of an alternative like this one, from a place on or else before it, or past the
    // last one.
    fn place_from(&self, at: usize, column: &Column) -> usize {
        let (first, end) = self.span(column.unit);
        match self.place_within(at.max(first), end, column) {
            Some(place) => place,
            None => self
                .place_within(first, at, column)
                .unwrap_or(self.columns.len()),
        }
    }

    // The place of an alternative like this one, from one place to another.
    fn place_within(&self, first: usize, end: usize, column: &Column) -> Option<usize> {
        for place in first..end.min(self.columns.len()) {
            if self.columns[place].is_alike(column) {
                return Some(place);
            }
        }
        None
    }

    // A class of limit 0 that an alternative uses.
    fn closed_class(&self, column: &Column) -> Option<u32> {
        match self.closed_class_of(column.one) {
            Some(class) => Some(class),
            None => self.closed_class_of(column.two),
        }
    }

    // A class of limit 0 that a part uses.
    fn closed_class_of(&self, part: u32) -> Option<u32> {
        for entry in self.reduced.part_uses(part) {
            if self.limit(entry.class) < 0.5 {
                return Some(entry.class);
            }
        }
        None
    }

    /// The alternatives that take part.
    pub fn columns(&self) -> &[Column] {
        &self.columns
    }

    /// The place of a unit's first alternative among all that take part.
    pub fn first_column(&self, unit: u32) -> u32 {
        number_or_max(&self.firsts, unit as usize)
    }

    /// A unit's alternatives that take part.
    pub fn unit_columns(&self, unit: u32) -> &[Column] {
        let (first, end) = self.span(unit);
        if first <= end && end <= self.columns.len() {
            &self.columns[first..end]
        } else {
            &[]
        }
    }

    // Where a unit's alternatives begin and end.
    pub(crate) fn span(&self, unit: u32) -> (usize, usize) {
        let at = unit as usize;
        let first = number_or_max(&self.firsts, at);
        let end = number_or_max(&self.firsts, at.saturating_add(1));
        (first as usize, end as usize)
    }

    /// How many units there are.
    pub fn units(&self) -> u32 {
        u32::try_from(self.firsts.len())
            .unwrap_or(u32::MAX)
            .saturating_sub(1)
    }

    // An alternative by its place.
    pub(crate) fn column(&self, place: u32) -> Column {
        match self.columns.get(place as usize) {
            Some(column) => *column,
            None => Column {
                unit: u32::MAX,
                number: u32::MAX,
                cost: 0.0,
                one: NO_PART,
                two: NO_PART,
            },
        }
    }

    // The changed cost of an alternative.
    pub(crate) fn changed_cost(&self, place: u32) -> f64 {
        value_at(&self.changed, place as usize)
    }

    // The parts of a unit's alternatives that take part, by their numbers among the named ones.
    pub(crate) fn unit_pairs(&self, unit: u32) -> &[Pair] {
        let (first, end) = self.span(unit);
        let pairs = self.named.pairs();
        if first <= end && end <= pairs.len() {
            &pairs[first..end]
        } else {
            &[]
        }
    }

    // The changed costs of a unit's alternatives that take part.
    pub(crate) fn unit_costs(&self, unit: u32) -> &[f64] {
        part_of(&self.changed, self.span(unit))
    }

    // The parts of an alternative by its place.
    pub(crate) fn pair(&self, place: u32) -> Pair {
        match self.named.pairs().get(place as usize) {
            Some(pair) => *pair,
            None => Pair {
                one: NO_PART,
                two: NO_PART,
            },
        }
    }

    // An alternative by its place, with its parts and changed cost.
    pub(crate) fn near(&self, place: u32) -> Near {
        Near {
            place,
            pair: self.pair(place),
            changed: self.changed_cost(place),
        }
    }

    // The parts of an alternative that does not take part.
    pub(crate) fn barred_pair(&self, barred: &Barred) -> Pair {
        self.named.pair_of(&barred.column)
    }

    // Where a unit's named parts begin and end.
    pub(crate) fn part_span(&self, unit: u32) -> (usize, usize) {
        self.named.span(unit)
    }

    // The resources that matter.
    pub(crate) fn reduced(&self) -> &Reduced {
        self.reduced
    }

    // The alternatives that are kept away by prices that cost nothing.
    pub(crate) fn barred(&self) -> &[Barred] {
        &self.barred
    }

    // The limits of the classes.
    pub(crate) fn limits(&self) -> &[f64] {
        &self.limits
    }

    // The limit of a class.
    pub(crate) fn limit(&self, class: u32) -> f64 {
        value_at(&self.limits, class as usize)
    }

    // How many parts are named.
    pub(crate) fn parts(&self) -> usize {
        self.named.count()
    }

    // The named parts that use a class.
    pub(crate) fn users(&self, class: u32) -> &[NamedRun] {
        self.named.users(class)
    }

    // Adds so many times the uses of an alternative to numbers of the classes.
    pub(crate) fn add_uses(&self, column: &Column, by: f64, loads: &mut [f64]) {
        self.add_part(column.one, by, loads);
        self.add_part(column.two, by, loads);
    }

    // Adds so many times the uses of a named part, by its number among them.
    pub(crate) fn add_named(&self, part: u32, by: f64, loads: &mut [f64]) {
        self.add_part(self.named.part(part), by, loads);
    }

    // Adds so many times the uses of a part.
    pub(crate) fn add_part(&self, part: u32, by: f64, loads: &mut [f64]) {
        let (blocks, rest) = self.reduced.part_uses(part).as_chunks::<AT_ONCE>();
        for block in blocks {
            add_use(&block[0], by, loads);
            add_use(&block[1], by, loads);
            add_use(&block[2], by, loads);
            add_use(&block[3], by, loads);
        }
        add_each_use(rest, by, loads);
    }

    // How often an alternative uses a class.
    pub(crate) fn uses(&self, column: &Column, class: u32) -> f64 {
        let one = uses_in(self.reduced.part_uses(column.one), class);
        one + uses_in(self.reduced.part_uses(column.two), class)
    }

    // Adds the price of a class, so often as a part uses it, to numbers of the named parts.
    pub(crate) fn add_price(&self, class: u32, price: f64, parts: &mut [f64]) {
        let mut steps = [0.0; STEPS];
        fill(&mut steps[..WIDE], price);
        for run in self.users(class) {
            add_run(parts, run, price, &steps);
        }
    }

    // Adds the price of a class, so often as a part uses it, to numbers of the named parts, and
    // marks the units of these.
    pub(crate) fn move_price(&self, class: u32, price: f64, parts: &mut [f64], units: &mut [bool]) {
        let mut steps = [0.0; STEPS];
        fill(&mut steps[..WIDE], price);
        for run in self.users(class) {
            add_run(parts, run, price, &steps);
            put_flag(units, run.unit as usize, true);
        }
    }

    // Makes the numbers of the named parts that use a class 0.
    pub(crate) fn clear_users(&self, class: u32, parts: &mut [f64]) {
        for run in self.users(class) {
            clear_in(parts, run.first as usize, run.end as usize);
        }
    }
}

// Adds so many times some uses of classes.
fn add_each_use(uses: &[ClassUse], by: f64, loads: &mut [f64]) {
    for entry in uses {
        add_use(entry, by, loads);
    }
}

// Adds so many times the uses of a class.
fn add_use(entry: &ClassUse, by: f64, loads: &mut [f64]) {
    add(loads, entry.class as usize, times(by, entry.uses));
}

// So many times a number.
fn times(value: f64, count: u32) -> f64 {
    if count == 1 {
        value
    } else {
        value * f64::from(count)
    }
}

// Adds a price, so often as they use its class, to the numbers of a run of parts. Most runs are
// short and use it once. There as many numbers are added for each run, of `steps`: as often the
// price as the run has parts, and then 0.
fn add_run(parts: &mut [f64], run: &NamedRun, price: f64, steps: &[f64; STEPS]) {
    let first = run.first as usize;
    let end = run.end as usize;
    let wide = first.saturating_add(WIDE);
    if run.uses == 1 && first <= end && end <= wide && wide <= parts.len() {
        let place = wide - end;
        add_each(&mut parts[first..wide], &steps[place..place + WIDE]);
    } else {
        add_in(parts, first, end, times(price, run.uses));
    }
}

// Adds to the numbers from one place to another.
fn add_in(values: &mut [f64], first: usize, end: usize, value: f64) {
    if first <= end && end <= values.len() {
        for slot in values[first..end].iter_mut() {
            *slot += value;
        }
    }
}

// Makes the numbers from one place to another 0.
fn clear_in(values: &mut [f64], first: usize, end: usize) {
    if first <= end && end <= values.len() {
        for slot in values[first..end].iter_mut() {
            *slot = 0.0;
        }
    }
}

// The flags from a place on.
fn flags_from(flags: &[bool], place: usize) -> &[bool] {
    if place <= flags.len() {
        &flags[place..]
    } else {
        &[]
    }
}

// The number of a part among those of all units.
fn global_part(first: u32, part: Option<u32>) -> u32 {
    match part {
        Some(part) => first.saturating_add(part),
        None => NO_PART,
    }
}

// A cost as a float.
fn cost_of(cost: u64) -> f64 {
    match i64::try_from(cost) {
        Ok(cost) => nearest_i64_to_f64(cost),
        Err(_) => 0.0,
    }
}

// A cost, raised by up to 1/10,000 by the number of the place.
fn changed_cost(column: &Column, place: u32) -> f64 {
    let mixed = u64::from(place)
        .wrapping_add(1)
        .wrapping_mul(11_400_714_819_323_198_485);
    let folded = (mixed ^ (mixed >> 29)).wrapping_mul(13_787_848_793_156_543_929);
    let drawn = (folded >> 40) as u32;
    column.cost + MOST_CHANGE * f64::from(drawn) / 16_777_216.0
}

// The limits of the classes.
fn limits_of(alloc: Global, reduced: &Reduced) -> Result<Vec<f64>, Memory> {
    let mut limits = Vec::with_capacity(alloc, reduced.classes().len())?;
    for class in reduced.classes() {
        limits.push(nearest_i64_to_f64(class.limit))?;
    }
    Ok(limits)
}

// How often a class is used where these are the uses of a part, by rising class.
fn uses_in(uses: &[ClassUse], class: u32) -> f64 {
    let place = uses.partition_point(|entry| entry.class < class);
    match uses.get(place) {
        Some(entry) if entry.class == class => f64::from(entry.uses),
        _ => 0.0,
    }
}
