//! The classes that the named parts of what is left use.

use crate::candidates::Candidates;
use crate::classes::{ClassUse, UserRun, is_marked};
use crate::left_parts::LeftParts;
use crate::numbers::number_at;
use crate::rows::Rows;
use slot_text::Memory;
use std::alloc::Global;

// For each of so many named parts a row of the classes at marked places that use it, by rising
// place, under their places.
pub(crate) fn uses_of(
    alloc: Global,
    candidates: &Candidates,
    marks: &[bool],
    parts: usize,
) -> Result<Rows<ClassUse>, Memory> {
    let starts = row_starts(alloc, candidates, marks, parts)?;
    let count = match starts.last() {
        Some(last) => *last,
        None => 0,
    };
    let none = ClassUse { class: 0, uses: 0 };
    let mut items = vec![in alloc; none; count]?;
    let mut next = Vec::from_slice(alloc, &starts)?;
    for one in &candidates.items {
        if is_marked(marks, one.place) {
            put_class(
                &mut items,
                &mut next,
                one.place,
                candidates.users.row(one.place),
            );
        }
    }
    Ok(Rows { items, starts })
}

// Where the row of each part begins, and the last one ends.
fn row_starts(
    alloc: Global,
    candidates: &Candidates,
    marks: &[bool],
    parts: usize,
) -> Result<Vec<usize>, Memory> {
    let mut numbers = vec![in alloc; 0; parts.saturating_add(1)]?;
    for one in &candidates.items {
        if is_marked(marks, one.place) {
            count_changes(&mut numbers, candidates.users.row(one.place));
        }
    }
    sum_twice(&mut numbers);
    Ok(numbers)
}

// Notes how many more classes each part uses than the part before it, modulo 2^64, one place after
// it.
fn count_changes(changes: &mut [usize], runs: &[UserRun]) {
    for run in runs {
        change_after(changes, run.first, 1);
        change_after(changes, run.end, usize::MAX);
    }
}

// Adds a change one place after that of a part, modulo 2^64.
fn change_after(changes: &mut [usize], part: u32, change: usize) {
    let at = part as usize + 1;
    if at < changes.len() {
        changes[at] = changes[at].wrapping_add(change);
    }
}

// Puts the sum of the sums up to each place there, modulo 2^64.
fn sum_twice(numbers: &mut [usize]) {
    let mut change: usize = 0;
    let mut total: usize = 0;
    for number in numbers.iter_mut() {
        change = change.wrapping_add(*number);
        total = total.wrapping_add(change);
        *number = total;
    }
}

// Puts a class at the next places of the rows of its users.
fn put_class(items: &mut [ClassUse], next: &mut [usize], class: u32, runs: &[UserRun]) {
    for run in runs {
        let class_use = ClassUse {
            class,
            uses: run.uses,
        };
        put_run(items, next, run, class_use);
    }
}

// Puts a use at the next places of the rows of a run of parts.
fn put_run(items: &mut [ClassUse], next: &mut [usize], run: &UserRun, class_use: ClassUse) {
    let (first, end) = (run.first as usize, run.end as usize);
    if first <= end && end <= next.len() {
        for place in next[first..end].iter_mut() {
            if let Some(item) = items.get_mut(*place) {
                *item = class_use;
            }
            *place = place.wrapping_add(1);
        }
    }
}

// For each part of all units the classes at marked places that it uses, under their numbers.
pub(crate) fn kept_uses(
    alloc: Global,
    parts: &LeftParts,
    uses: &Rows<ClassUse>,
    marks: &[bool],
    numbers: &[u32],
) -> Result<Rows<ClassUse>, Memory> {
    let mut kept = Rows::new(alloc)?;
    for part in 0..parts.all() {
        if let Some(named) = parts.named(part) {
            add_kept(&mut kept.items, uses.row(named), marks, numbers)?;
        }
        kept.end_row()?;
    }
    Ok(kept)
}

// Adds the uses of classes at marked places, under their numbers.
fn add_kept(
    items: &mut Vec<ClassUse>,
    uses: &[ClassUse],
    marks: &[bool],
    numbers: &[u32],
) -> Result<(), Memory> {
    for one in uses {
        if is_marked(marks, one.class) {
            items.push(ClassUse {
                class: number_at(numbers, one.class as usize),
                uses: one.uses,
            })?;
        }
    }
    Ok(())
}
