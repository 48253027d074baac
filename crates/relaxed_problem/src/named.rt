//! The parts that the alternatives of a program name, numbered without the others: what a pivot
//! does for each part, it does for these alone.

use crate::programs::{Barred, Column};
use crate::slots::{number_or_max, place_after, put_flag};
use reduced_problem::{Reduced, UserRun};
use slot_text::Memory;
use std::alloc::Global;

// Two parts of an alternative by their numbers among the named ones, or `NO_PART`.
#[derive(Clone, Copy)]
pub(crate) struct Pair {
    pub(crate) one: u32,
    pub(crate) two: u32,
}

// Named parts of one unit that follow one another and use a class equally often.
#[derive(Clone, Copy)]
pub(crate) struct NamedRun {
    pub(crate) first: u32,
    pub(crate) end: u32,
    pub(crate) unit: u32,
    pub(crate) uses: u32,
}

// The named parts.
#[derive(Drop)]
pub(crate) struct NamedParts {
    // For each part, and for the end, how many lower ones are named.
    numbers: Vec<u32>,
    // The named parts, by rising number.
    parts: Vec<u32>,
    // The parts of each alternative.
    pairs: Vec<Pair>,
    // The number of each unit's first named part, and how many there are.
    firsts: Vec<u32>,
    // For each class the runs of its users, and where they begin and the last ones end.
    runs: Vec<NamedRun>,
    starts: Vec<u32>,
}

impl NamedParts {
    // No parts.
    pub(crate) fn none(alloc: Global) -> NamedParts {
        NamedParts {
            numbers: Vec::new(alloc),
            parts: Vec::new(alloc),
            pairs: Vec::new(alloc),
            firsts: Vec::new(alloc),
            runs: Vec::new(alloc),
            starts: Vec::new(alloc),
        }
    }

    // The parts that these alternatives name, of so many units, or those that do not take part.
    pub(crate) fn of(
        alloc: Global,
        reduced: &Reduced,
        columns: &[Column],
        barred: &[Barred],
        units: u32,
    ) -> Result<NamedParts, Memory> {
        let mut named = vec![in alloc; false; reduced.parts() as usize]?;
        mark_columns(&mut named, columns);
        mark_barred(&mut named, barred);
        let mut parts = NamedParts::none(alloc);
        parts.number_all(&named)?;
        parts.add_pairs(columns)?;
        parts.add_firsts(reduced, units)?;
        parts.add_users(alloc, reduced, units)?;
        Ok(parts)
    }

    // Notes the named parts, and for each part, and for the end, how many lower ones are named.
    fn number_all(&mut self, named: &[bool]) -> Result<(), Memory> {
        for (part, is_named) in (0..).zip(named) {
            let count = self.next_number();
            self.numbers.push(count)?;
            if *is_named {
                self.parts.push(part)?;
            }
        }
        let count = self.next_number();
        self.numbers.push(count)?;
        Ok(())
    }

    // How many parts are noted.
    fn next_number(&self) -> u32 {
        place_after(0, self.parts.len())
    }

    // A named part by its number among them, or `NO_PART`.
    pub(crate) fn part(&self, number: u32) -> u32 {
        number_or_max(&self.parts, number as usize)
    }

    // Notes the parts of the alternatives.
    fn add_pairs(&mut self, columns: &[Column]) -> Result<(), Memory> {
        for column in columns {
            let pair = self.pair_of(column);
            self.pairs.push(pair)?;
        }
        Ok(())
    }

    // Notes where the parts of each unit begin, and how many there are.
    fn add_firsts(&mut self, reduced: &Reduced, units: u32) -> Result<(), Memory> {
        for unit in 0..units {
            let first = self.number(reduced.first_part(unit));
            self.firsts.push(first)?;
        }
        let end = self.number(reduced.parts());
        self.firsts.push(end)?;
        Ok(())
    }

    // Notes the named users of each class.
    fn add_users(&mut self, alloc: Global, reduced: &Reduced, units: u32) -> Result<(), Memory> {
        let part_units = units_of_parts(alloc, reduced, units)?;
        for class in 0..place_after(0, reduced.classes().len()) {
            self.begin_class()?;
            self.add_runs(reduced.users(class), &part_units)?;
        }
        self.begin_class()
    }

    // Notes where the users of the next class begin.
    fn begin_class(&mut self) -> Result<(), Memory> {
        self.starts.push(place_after(0, self.runs.len()))?;
        Ok(())
    }

    // Adds the named ones of these users of a class.
    fn add_runs(&mut self, users: &[UserRun], part_units: &[u32]) -> Result<(), Memory> {
        let start = self.runs.len();
        for run in users {
            let named = NamedRun {
                first: self.number(run.first),
                end: self.number(run.end),
                unit: number_or_max(part_units, run.first as usize),
                uses: run.uses,
            };
            if named.first < named.end {
                self.add_run(start, named)?;
            }
        }
        Ok(())
    }

    // Adds a run of users of the class whose runs begin at this place: to the last one, where it
    // goes on with that.
    fn add_run(&mut self, start: usize, run: NamedRun) -> Result<(), Memory> {
        let count = self.runs.len();
        if count > start {
            let last = self.runs[count - 1];
            if last.end == run.first && last.unit == run.unit && last.uses == run.uses {
                self.runs[count - 1].end = run.end;
                return Ok(());
            }
        }
        self.runs.push(run)?;
        Ok(())
    }

    // The number of a named part, or `NO_PART`.
    fn number(&self, part: u32) -> u32 {
        number_or_max(&self.numbers, part as usize)
    }

    // The parts of an alternative, which are named.
    pub(crate) fn pair_of(&self, column: &Column) -> Pair {
        Pair {
            one: self.number(column.one),
            two: self.number(column.two),
        }
    }

    // The parts of the alternatives.
    pub(crate) fn pairs(&self) -> &[Pair] {
        &self.pairs
    }

    // How many parts are named.
    pub(crate) fn count(&self) -> usize {
        match self.firsts.last() {
            Some(count) => *count as usize,
            None => 0,
        }
    }

    // Where a unit's parts begin and end.
    pub(crate) fn span(&self, unit: u32) -> (usize, usize) {
        let at = unit as usize;
        let first = number_or_max(&self.firsts, at);
        let end = number_or_max(&self.firsts, at.saturating_add(1));
        (first as usize, end as usize)
    }

    // The named users of a class.
    pub(crate) fn users(&self, class: u32) -> &[NamedRun] {
        let at = class as usize;
        let first = number_or_max(&self.starts, at) as usize;
        let end = number_or_max(&self.starts, at.saturating_add(1)) as usize;
        if first <= end && end <= self.runs.len() {
            &self.runs[first..end]
        } else {
            &[]
        }
    }
}

// Marks the parts of alternatives.
fn mark_columns(named: &mut [bool], columns: &[Column]) {
    for column in columns {
        put_flag(named, column.one as usize, true);
        put_flag(named, column.two as usize, true);
    }
}

// Marks the parts of alternatives that do not take part.
fn mark_barred(named: &mut [bool], barred: &[Barred]) {
    for one in barred {
        put_flag(named, one.column.one as usize, true);
        put_flag(named, one.column.two as usize, true);
    }
}

// The unit of each part.
fn units_of_parts(alloc: Global, reduced: &Reduced, units: u32) -> Result<Vec<u32>, Memory> {
    let mut part_units = Vec::with_capacity(alloc, reduced.parts() as usize)?;
    for unit in 0..units {
        for _ in reduced.first_part(unit)..reduced.first_part(unit.saturating_add(1)) {
            part_units.push(unit)?;
        }
    }
    Ok(part_units)
}
