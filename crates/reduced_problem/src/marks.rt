//! Of the resources with the same users, the one with the least limit.

use crate::classes::set_mark;
use crate::numbers::{amount_at, as_number, number_at};
use choice_problem::Problem;
use slot_text::Memory;
use std::alloc::Global;

// How many places there are for keys that were seen.
const PLACES: usize = 65_536;

// A resource that can be passed, with the key of its users: ordered by key, then limit, then
// number.
#[derive(Clone, Copy, Debug, PartialEq, Eq, PartialOrd, Ord)]
struct Passable {
    key: u64,
    limit: i64,
    resource: u32,
}

// Marks of the resources, one for each key of those whose greatest uses are above their limit: the
// one with the least limit, and of several the lowest.
pub(crate) fn least_limits(
    alloc: Global,
    problem: &Problem,
    uses: &[u64],
    keys: &[u64],
) -> Result<Vec<bool>, Memory> {
    let mut passable = keyed_resources(alloc, problem.limits(), uses, keys)?;
    passable.sort_unstable();
    let mut marks = vec![in alloc; false; problem.resources() as usize]?;
    mark_first(&mut marks, &passable);
    Ok(marks)
}

// The resources that can be passed. Of those with the same key, most that can be left out are.
fn keyed_resources(
    alloc: Global,
    limits: &[i64],
    uses: &[u64],
    keys: &[u64],
) -> Result<Vec<Passable>, Memory> {
    let mut found = Vec::new(alloc);
    let mut places = vec![in alloc; 0; PLACES]?;
    for (resource, limit) in limits.iter().enumerate() {
        if is_above(amount_at(uses, resource), *limit) {
            let passable = Passable {
                key: amount_at(keys, resource),
                limit: *limit,
                resource: as_number(resource),
            };
            note(&mut found, &mut places, passable)?;
        }
    }
    Ok(found)
}

// Whether a number of uses is above a limit.
fn is_above(uses: u64, limit: i64) -> bool {
    i128::from(uses) > i128::from(limit)
}

// Adds a resource, or puts it in the place of the one with its key that was seen last, if its limit
// is less.
fn note(found: &mut Vec<Passable>, places: &mut [u32], passable: Passable) -> Result<(), Memory> {
    let place = (passable.key >> 48) as usize;
    let known = number_at(places, place) as usize;
    if known < found.len() && found[known].key == passable.key {
        if passable.limit < found[known].limit {
            found[known] = passable;
        }
        return Ok(());
    }
    if place < places.len() {
        places[place] = as_number(found.len());
    }
    found.push(passable)?;
    Ok(())
}

// Marks the first resource of each key.
fn mark_first(marks: &mut [bool], passable: &[Passable]) {
    let mut last = None;
    for one in passable {
        if last != Some(one.key) {
            set_mark(marks, one.resource, true);
        }
        last = Some(one.key);
    }
}
