//! Sums over the resources of strips: changes where strips begin and end, and then sums along gaps
//! and along resources, so that a strip costs some steps and not its runs.

use crate::numbers::{add_at, mix};
use crate::outline::{Outline, UnitParts};
use choice_problem::{Problem, Strip};
use slot_text::Memory;
use std::alloc::Global;

// How many gaps have changes of their own: a strip of another gap is added run by run.
const MOST_GAPS: usize = 8;

// Amounts that strips add to resources.
#[derive(Drop)]
pub(crate) struct Sums {
    // For each resource, and for the end, how much more its sum is than that of the one before it,
    // modulo 2^64.
    changes: Vec<u64>,
    // More of these changes, for strips of several runs.
    gaps: Vec<GapSums>,
}

// Amounts of strips of one gap: for each resource, and for the end, how much more its change is
// than that of the one a gap before it, modulo 2^64.
#[derive(Drop)]
struct GapSums {
    gap: u32,
    changes: Vec<u64>,
}

impl GapSums {
    // Adds an amount for each use of a strip of this gap.
    fn add(&mut self, strip: &Strip, amount: u64) {
        let start = u64::from(strip.first);
        let length = u64::from(strip.gap).wrapping_mul(u64::from(strip.times));
        add_run(&mut self.changes, start, strip.width, amount);
        add_run(
            &mut self.changes,
            start.wrapping_add(length),
            strip.width,
            amount.wrapping_neg(),
        );
    }

    // Adds the changes of resources to others, once all strips are added.
    fn add_to(&mut self, changes: &mut [u64]) {
        let gap = self.gap as usize;
        for at in 0..self.changes.len().min(changes.len()) {
            let before = if at >= gap { self.changes[at - gap] } else { 0 };
            let change = self.changes[at].wrapping_add(before);
            self.changes[at] = change;
            changes[at] = changes[at].wrapping_add(change);
        }
    }
}

impl Sums {
    // No strips.
    pub(crate) fn new(alloc: Global, resources: u32) -> Result<Sums, Memory> {
        Ok(Sums {
            changes: vec![in alloc; 0; resources as usize + 1]?,
            gaps: Vec::new(alloc),
        })
    }

    // Adds an amount for each use of a strip.
    pub(crate) fn add(&mut self, alloc: Global, strip: &Strip, amount: u64) -> Result<(), Memory> {
        if strip.gap == 0 || strip.times == 1 {
            let amount = amount.wrapping_mul(u64::from(strip.times));
            add_run(
                &mut self.changes,
                u64::from(strip.first),
                strip.width,
                amount,
            );
            return Ok(());
        }
        let place = self.gap_place(alloc, strip.gap)?;
        if place < self.gaps.len() {
            self.gaps[place].add(strip, amount);
        } else {
            self.add_runs(strip, amount);
        }
        Ok(())
    }

    // Where the changes of a gap are, which are added if it is new and there is a place for it.
    fn gap_place(&mut self, alloc: Global, gap: u32) -> Result<usize, Memory> {
        for (place, known) in self.gaps.iter().enumerate() {
            if known.gap == gap {
                return Ok(place);
            }
        }
        let place = self.gaps.len();
        if place < MOST_GAPS {
            self.gaps.push(GapSums {
                gap,
                changes: vec![in alloc; 0; self.changes.len()]?,
            })?;
        }
        Ok(place)
    }

    // Adds an amount for each use of a strip, run by run.
    fn add_runs(&mut self, strip: &Strip, amount: u64) {
        for run in 0..strip.times {
            let (start, _) = strip.run(run);
            add_run(&mut self.changes, start, strip.width, amount);
        }
    }

    // For each resource the sum of the amounts, modulo 2^64.
    pub(crate) fn total(mut self) -> Vec<u64> {
        for gap in self.gaps.iter_mut() {
            gap.add_to(&mut self.changes);
        }
        add_up_amounts(&mut self.changes);
        self.changes
    }
}

// Adds an amount where a run begins, and takes it away where it ends.
fn add_run(changes: &mut [u64], start: u64, width: u32, amount: u64) {
    add_at(changes, start, amount);
    add_at(
        changes,
        start.wrapping_add(u64::from(width)),
        amount.wrapping_neg(),
    );
}

// Puts at each place the sum of the amounts up to it.
pub(crate) fn add_up_amounts(amounts: &mut [u64]) {
    let mut total: u64 = 0;
    for at in 0..amounts.len() {
        total = total.wrapping_add(amounts[at]);
        amounts[at] = total;
    }
}

// For each resource a key that depends on which parts use it and how often, and on nothing else.
pub(crate) fn resource_keys(
    alloc: Global,
    problem: &Problem,
    outline: &Outline,
) -> Result<Vec<u64>, Memory> {
    let mut sums = Sums::new(alloc, problem.resources())?;
    for unit in 0..problem.units() {
        let parts = outline.of_unit(unit, problem.unit_parts(unit));
        add_keys(alloc, &mut sums, &parts)?;
    }
    Ok(sums.total())
}

// Adds the key of each part of a unit for its strips.
fn add_keys(alloc: Global, sums: &mut Sums, parts: &UnitParts<'_>) -> Result<(), Memory> {
    for number in 0..parts.len() {
        let key = mix(u64::from(parts.first.saturating_add(number)));
        add_strips(alloc, sums, parts.strips(number), key)?;
    }
    Ok(())
}

// Adds an amount for each use of strips.
fn add_strips(alloc: Global, sums: &mut Sums, strips: &[Strip], amount: u64) -> Result<(), Memory> {
    for strip in strips {
        sums.add(alloc, strip, amount)?;
    }
    Ok(())
}
