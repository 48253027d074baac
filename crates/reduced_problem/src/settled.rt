//! Classes that several strips of a unit use: their hits are made anew, so that no two runs of a
//! class have a part in common, and none goes on where another one with as many uses ends.

use crate::changes::{Change, ClassRun, class_runs, run_numbers};
use crate::classes::{is_marked, set_mark};
use crate::grids::{Grids, Stretch};
use crate::hits::Hit;
use crate::numbers::number_at;
use crate::rows::{Rows, add_up};
use crate::user_runs::UserRuns;
use crate::users::count_changes;
use slot_text::Memory;
use std::alloc::Global;

// With how many hits before it in its unit and column a hit is compared.
const MOST_COMPARED: usize = 64;

// For each class whether two of its hits touch or stand in the wrong order, or are at two of its
// places.
pub(crate) fn unsettled(
    alloc: Global,
    grids: &Grids,
    hits: &Rows<Hit>,
    runs: &UserRuns,
    classes: usize,
) -> Result<Vec<bool>, Memory> {
    let mut flags = vec![in alloc; false; classes]?;
    for column in 0..hits.len() {
        flag_touching(
            &mut flags,
            &grids.order,
            hits.rows(column, column.saturating_add(1)),
            runs,
        );
    }
    let counts = hit_counts(alloc, &hits.items, grids.order.len())?;
    let mut seen = vec![in alloc; false; classes]?;
    flag_twice(&mut flags, &mut seen, &grids.order, &counts);
    Ok(flags)
}

// Flags the classes of a column's hits that touch others of their unit.
fn flag_touching(flags: &mut [bool], order: &[u32], hits: &[Hit], runs: &UserRuns) {
    for (number, hit) in hits.iter().enumerate() {
        if number <= hits.len() {
            flag_with(flags, order, &hits[..number], hit, runs);
        }
    }
}

// Flags the classes of a hit that touches one before it in its unit.
fn flag_with(flags: &mut [bool], order: &[u32], before: &[Hit], hit: &Hit, runs: &UserRuns) {
    let unit = number_at(&runs.units, hit.run as usize);
    for back in 0..before.len().min(MOST_COMPARED) {
        let other = before[before.len() - 1 - back];
        if number_at(&runs.units, other.run as usize) != unit {
            return;
        }
        if touches(runs, other.run, hit.run) {
            let from = hit.classes.from.max(other.classes.from);
            let to = hit.classes.to.min(other.classes.to);
            flag_places(flags, order, from, to);
        }
    }
    if before.len() > MOST_COMPARED {
        flag_places(flags, order, hit.classes.from, hit.classes.to);
    }
}

// Whether a run begins before or where the other one before it ends.
fn touches(runs: &UserRuns, before: u32, run: u32) -> bool {
    match (
        runs.items.get(before as usize),
        runs.items.get(run as usize),
    ) {
        (Some(before), Some(run)) => run.first <= before.end,
        _ => false,
    }
}

// Flags the classes at places from one to another.
fn flag_places(flags: &mut [bool], order: &[u32], from: u32, to: u32) {
    for place in from..to {
        set_mark(flags, number_at(order, place as usize), true);
    }
}

// For each place how many hits it has, one place after it.
fn hit_counts(alloc: Global, hits: &[Hit], places: usize) -> Result<Vec<usize>, Memory> {
    let mut counts = vec![in alloc; 0; places.saturating_add(1)]?;
    count_changes(&mut counts, hits, 0);
    add_up(&mut counts);
    Ok(counts)
}

// Flags the classes that have hits at two places.
fn flag_twice(flags: &mut [bool], seen: &mut [bool], order: &[u32], counts: &[usize]) {
    for (class, count) in order.iter().zip(counts.iter().skip(1)) {
        if *count > 0 {
            if is_marked(seen, *class) {
                set_mark(flags, *class, true);
            }
            set_mark(seen, *class, true);
        }
    }
}

// The hits with those of flagged classes made anew, behind the others.
pub(crate) fn settled(
    alloc: Global,
    grids: &Grids,
    hits: &[Hit],
    flags: &[bool],
    runs: &mut UserRuns,
) -> Result<Vec<Hit>, Memory> {
    let below = grids.places_below(alloc, flags)?;
    let none = Stretch {
        column: 0,
        from: 0,
        to: 0,
    };
    let mut parted = Parted {
        kept: Vec::with_capacity(alloc, hits.len())?,
        changes: Vec::new(alloc),
        sites: vec![in alloc; none; flags.len()]?,
    };
    for hit in hits {
        parted.add(grids, *hit, &below, runs)?;
    }
    parted.end(alloc, runs)?;
    Ok(parted.kept)
}

// Hits without those of flagged classes, the changes of uses of these, and for each of them one of
// its places.
#[derive(Drop)]
struct Parted {
    kept: Vec<Hit>,
    changes: Vec<Change>,
    sites: Vec<Stretch>,
}

impl Parted {
    // Adds a hit, where `below` counts the places of flagged classes.
    fn add(
        &mut self,
        grids: &Grids,
        hit: Hit,
        below: &[u32],
        runs: &UserRuns,
    ) -> Result<(), Memory> {
        let (from, to) = (hit.classes.from, hit.classes.to);
        if number_at(below, from as usize) == number_at(below, to as usize) {
            self.kept.push(hit)?;
            return Ok(());
        }
        for place in from..to {
            let end = place.saturating_add(1);
            let classes = Stretch {
                from: place,
                to: end,
                ..hit.classes
            };
            let one = Hit { classes, ..hit };
            if number_at(below, place as usize) == number_at(below, end as usize) {
                self.kept.push(one)?;
            } else {
                self.add_flagged(number_at(&grids.order, place as usize), one, runs)?;
            }
        }
        Ok(())
    }

    // Adds a hit of a flagged class alone.
    fn add_flagged(&mut self, class: u32, hit: Hit, runs: &UserRuns) -> Result<(), Memory> {
        let Some(run) = runs.items.get(hit.run as usize) else {
            return Ok(());
        };
        let is_first = number_at(&runs.units, hit.run as usize) == run.first;
        self.changes.push(Change {
            class,
            part: run.first,
            is_first,
            by: run.uses,
        })?;
        self.changes.push(Change {
            class,
            part: run.end,
            is_first: false,
            by: run.uses.wrapping_neg(),
        })?;
        if (class as usize) < self.sites.len() {
            self.sites[class as usize] = hit.classes;
        }
        Ok(())
    }

    // Adds the hits of the flagged classes by their changes.
    fn end(&mut self, alloc: Global, runs: &mut UserRuns) -> Result<(), Memory> {
        self.changes.sort_unstable();
        let found = class_runs(alloc, &self.changes)?;
        let numbers = run_numbers(alloc, &found, runs)?;
        add_found(&mut self.kept, &found, &numbers, &self.sites)
    }
}

// Adds a hit for each run of a flagged class.
fn add_found(
    kept: &mut Vec<Hit>,
    found: &[ClassRun],
    numbers: &[u32],
    sites: &[Stretch],
) -> Result<(), Memory> {
    for (one, run) in found.iter().zip(numbers) {
        if let Some(classes) = sites.get(one.class as usize) {
            kept.push(Hit {
                classes: *classes,
                run: *run,
            })?;
        }
    }
    Ok(())
}
