//! Ranges of alternatives in a search.

use choice_problem::{Alt, Problem};
use slot_text::Memory;
use std::alloc::Global;

/// The lowest and the highest alternative that each unit may take.
#[derive(Drop)]
pub(crate) struct Spans {
    spans: Vec<(u32, u32)>,
}

impl Spans {
    // All alternatives of each unit.
    pub(crate) fn whole(alloc: Global, problem: &Problem) -> Result<Spans, Memory> {
        let mut spans = Vec::with_capacity(alloc, problem.units() as usize)?;
        for unit in 0..problem.units() {
            spans.push((0, problem.alts(unit) - 1))?;
        }
        Ok(Spans { spans })
    }

    // A copy.
    pub(crate) fn copy(&self, alloc: Global) -> Result<Spans, Memory> {
        Ok(Spans {
            spans: Vec::from_slice(alloc, &self.spans)?,
        })
    }

    // The range of a unit.
    pub(crate) fn of(&self, unit: u32) -> (u32, u32) {
        match self.spans.get(unit as usize) {
            Some(span) => *span,
            None => (0, 0),
        }
    }

    // Replaces the range of a unit.
    pub(crate) fn set(&mut self, unit: u32, span: (u32, u32)) {
        if let Some(place) = self.spans.get_mut(unit as usize) {
            *place = span;
        }
    }
}

// The alternatives of a range.
pub(crate) fn within(alts: &[Alt], span: (u32, u32)) -> &[Alt] {
    let (low, high) = span;
    if low <= high && (high as usize) < alts.len() {
        &alts[low as usize..high as usize + 1]
    } else {
        &[]
    }
}
