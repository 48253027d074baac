//! How often alternatives that are taken use the resources that matter.

use reduced_problem::Reduced;
use relaxed_problem::Column;
use slot_text::Memory;
use std::alloc::Global;

/// How often the taken alternatives use each class.
#[derive(Drop)]
pub(crate) struct Loads {
    counts: Vec<i64>,
}

impl Loads {
    // Nothing is taken.
    pub(crate) fn none(alloc: Global, reduced: &Reduced) -> Result<Loads, Memory> {
        Ok(Loads {
            counts: vec![in alloc; 0; reduced.classes().len()]?,
        })
    }

    // Takes an alternative.
    pub(crate) fn take(&mut self, reduced: &Reduced, column: &Column) {
        self.add(reduced, column.one, 1);
        self.add(reduced, column.two, 1);
    }

    // Gives an alternative back.
    pub(crate) fn leave(&mut self, reduced: &Reduced, column: &Column) {
        self.add(reduced, column.one, -1);
        self.add(reduced, column.two, -1);
    }

    // Whether an alternative fits beside those that are taken.
    pub(crate) fn fits(&mut self, reduced: &Reduced, column: &Column) -> bool {
        if !self.has_room(reduced, column.one) {
            return false;
        }
        self.add(reduced, column.one, 1);
        let fits = self.has_room(reduced, column.two);
        self.add(reduced, column.one, -1);
        fits
    }

    // Whether a part fits by itself.
    pub(crate) fn has_room(&self, reduced: &Reduced, part: u32) -> bool {
        for entry in reduced.part_uses(part) {
            let count = self.count(entry.class);
            if count.saturating_add(i64::from(entry.uses)) > limit_at(reduced, entry.class) {
                return false;
            }
        }
        true
    }

    // How often a class is used.
    fn count(&self, class: u32) -> i64 {
        match self.counts.get(class as usize) {
            Some(count) => *count,
            None => 0,
        }
    }

    // Adds so many times the uses of a part.
    fn add(&mut self, reduced: &Reduced, part: u32, by: i64) {
        for entry in reduced.part_uses(part) {
            if let Some(count) = self.counts.get_mut(entry.class as usize) {
                *count = count.saturating_add(by.saturating_mul(i64::from(entry.uses)));
            }
        }
    }
}

// The limit of a class.
fn limit_at(reduced: &Reduced, class: u32) -> i64 {
    match reduced.classes().get(class as usize) {
        Some(class) => class.limit,
        None => i64::MAX,
    }
}
