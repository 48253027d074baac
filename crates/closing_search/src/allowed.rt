//! The alternatives that units may take in a search.

use crate::rules::Rule;
use choice_problem::Problem;
use reduced_problem::Reduced;
use slot_text::Memory;
use std::alloc::Global;

/// Of each alternative, unit after unit, whether it may be taken.
#[derive(Drop)]
pub(crate) struct Allowed {
    // The place of each unit's first alternative, and past the last one.
    firsts: Vec<usize>,
    flags: Vec<bool>,
    // Of each unit, whether a split took alternatives away.
    cut: Vec<bool>,
}

impl Allowed {
    // All alternatives.
    pub(crate) fn all(alloc: Global, problem: &Problem) -> Result<Allowed, Memory> {
        Allowed::each(alloc, problem, true)
    }

    // No alternatives.
    pub(crate) fn none(alloc: Global, problem: &Problem) -> Result<Allowed, Memory> {
        Allowed::each(alloc, problem, false)
    }

    // The same for each alternative.
    fn each(alloc: Global, problem: &Problem, flag: bool) -> Result<Allowed, Memory> {
        let cut = vec![in alloc; false; problem.units() as usize]?;
        let mut allowed = Allowed {
            firsts: Vec::new(alloc),
            flags: Vec::new(alloc),
            cut,
        };
        for unit in 0..problem.units() {
            allowed.add_unit(problem.alts(unit), flag)?;
        }
        allowed.firsts.push(allowed.flags.len())?;
        Ok(allowed)
    }

    // Adds a unit of so many alternatives.
    fn add_unit(&mut self, alts: u32, flag: bool) -> Result<(), Memory> {
        self.firsts.push(self.flags.len())?;
        for _ in 0..alts {
            self.flags.push(flag)?;
        }
        Ok(())
    }

    // A copy.
    pub(crate) fn copy(&self, alloc: Global) -> Result<Allowed, Memory> {
        Ok(Allowed {
            firsts: Vec::from_slice(alloc, &self.firsts)?,
            flags: Vec::from_slice(alloc, &self.flags)?,
            cut: Vec::from_slice(alloc, &self.cut)?,
        })
    }

    // Lets a unit take an alternative.
    pub(crate) fn allow(&mut self, unit: u32, number: u32) {
        if let Some(first) = self.firsts.get(unit as usize) {
            let place = first.saturating_add(number as usize);
            if let Some(flag) = self.flags.get_mut(place) {
                *flag = true;
            }
        }
    }

    // Of each alternative, unit after unit, whether it may not be taken.
    pub(crate) fn shut_flags(&self, alloc: Global) -> Result<Vec<bool>, Memory> {
        let mut shut = Vec::with_capacity(alloc, self.flags.len())?;
        for flag in &self.flags {
            shut.push(!*flag)?;
        }
        Ok(shut)
    }

    // The flags of a unit's alternatives.
    pub(crate) fn of(&self, unit: u32) -> &[bool] {
        let place = unit as usize;
        match (
            self.firsts.get(place),
            self.firsts.get(place.saturating_add(1)),
        ) {
            (Some(first), Some(end)) if first <= end && *end <= self.flags.len() => {
                &self.flags[*first..*end]
            }
            _ => &[],
        }
    }

    // Whether a split took alternatives of a unit away.
    pub(crate) fn is_cut(&self, unit: u32) -> bool {
        match self.cut.get(unit as usize) {
            Some(is_cut) => *is_cut,
            None => true,
        }
    }

    // Lets a unit take the alternatives of one part of a split alone.
    pub(crate) fn keep(
        &mut self,
        problem: &Problem,
        reduced: &Reduced,
        unit: u32,
        rule: Rule,
        is_high: bool,
    ) {
        let Some(first) = self.firsts.get(unit as usize) else {
            return;
        };
        let first = *first;
        if let Some(is_cut) = self.cut.get_mut(unit as usize) {
            *is_cut = true;
        }
        for number in 0..count(self.of(unit)) {
            if rule.is_high(problem, reduced, unit, number) != is_high {
                if let Some(flag) = self.flags.get_mut(first.saturating_add(number as usize)) {
                    *flag = false;
                }
            }
        }
    }
}

// How many flags there are.
fn count(flags: &[bool]) -> u32 {
    u32::try_from(flags.len()).unwrap_or(u32::MAX)
}
