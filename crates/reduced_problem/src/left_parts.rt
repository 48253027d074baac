//! The parts that the alternatives of what is left name, numbered without the others.

use crate::classes::UserRun;
use crate::numbers::{as_number, number_at};
use crate::outline::mark_part;
use crate::reduce::Reduced;
use choice_problem::{Alt, Problem};
use slot_text::Memory;
use std::alloc::Global;

// The named parts.
#[derive(Drop)]
pub(crate) struct LeftParts {
    // For each part of all units, and for the end, how many lower ones are named.
    ranks: Vec<u32>,
    // The named parts.
    parts: Vec<u32>,
    // The unit of each.
    units: Vec<u32>,
    // For each, and for the end, how many lower ones are first parts of alternatives.
    firsts: Vec<u32>,
    // The same for second parts.
    seconds: Vec<u32>,
}

impl LeftParts {
    // The parts that a problem's alternatives name, numbered as in a reduction.
    pub(crate) fn of(
        alloc: Global,
        problem: &Problem,
        reduced: &Reduced,
    ) -> Result<LeftParts, Memory> {
        let mut left = LeftParts {
            ranks: Vec::with_capacity(alloc, reduced.parts() as usize + 1)?,
            parts: Vec::new(alloc),
            units: Vec::new(alloc),
            firsts: Vec::new(alloc),
            seconds: Vec::new(alloc),
        };
        for unit in 0..problem.units() {
            let count = problem.unit_parts(unit).len();
            let (ones, twos) = named_by(alloc, problem.unit_alts(unit), count)?;
            left.add_unit(unit, reduced.first_part(unit), &ones, &twos)?;
        }
        left.end()?;
        Ok(left)
    }

    // Adds the parts of a unit, of which some are first or second parts of alternatives.
    fn add_unit(
        &mut self,
        unit: u32,
        first: u32,
        ones: &[bool],
        twos: &[bool],
    ) -> Result<(), Memory> {
        for (number, (is_one, is_two)) in (0..).zip(ones.iter().zip(twos)) {
            self.ranks.push(as_number(self.parts.len()))?;
            if *is_one || *is_two {
                self.parts.push(first.saturating_add(number))?;
                self.units.push(unit)?;
                add_flag(&mut self.firsts, *is_one)?;
                add_flag(&mut self.seconds, *is_two)?;
            }
        }
        Ok(())
    }

    // Ends the lists.
    fn end(&mut self) -> Result<(), Memory> {
        self.ranks.push(as_number(self.parts.len()))?;
        add_up_flags(&mut self.firsts)?;
        add_up_flags(&mut self.seconds)
    }

    // The named ones of a run of parts, by their numbers among all that are named.
    pub(crate) fn run(&self, run: &UserRun) -> UserRun {
        UserRun {
            first: number_at(&self.ranks, run.first as usize),
            end: number_at(&self.ranks, run.end as usize),
            uses: run.uses,
        }
    }

    // How many parts all units have.
    pub(crate) fn all(&self) -> u32 {
        as_number(self.ranks.len()).saturating_sub(1)
    }

    // How many parts are named.
    pub(crate) fn count(&self) -> usize {
        self.parts.len()
    }

    // The number of a part among those that are named, if it is.
    pub(crate) fn named(&self, part: u32) -> Option<u32> {
        let at = part as usize;
        let number = number_at(&self.ranks, at);
        if number < number_at(&self.ranks, at.saturating_add(1)) {
            Some(number)
        } else {
            None
        }
    }

    // The unit of a named part.
    pub(crate) fn unit(&self, part: u32) -> u32 {
        number_at(&self.units, part as usize)
    }

    // Whether some of a run of named parts are first parts of alternatives.
    pub(crate) fn has_first(&self, run: &UserRun) -> bool {
        number_at(&self.firsts, run.first as usize) < number_at(&self.firsts, run.end as usize)
    }

    // Whether some of a run of named parts are second parts of alternatives.
    pub(crate) fn has_second(&self, run: &UserRun) -> bool {
        number_at(&self.seconds, run.first as usize) < number_at(&self.seconds, run.end as usize)
    }

    // Adds runs of named parts by their numbers among all parts.
    pub(crate) fn add_whole(
        &self,
        items: &mut Vec<UserRun>,
        runs: &[UserRun],
    ) -> Result<(), Memory> {
        for run in runs {
            let first = number_at(&self.parts, run.first as usize);
            let last = number_at(&self.parts, (run.end as usize).saturating_sub(1));
            if last.saturating_sub(first) < run.end.saturating_sub(run.first) {
                items.push(UserRun {
                    first,
                    end: last.saturating_add(1),
                    uses: run.uses,
                })?;
            } else {
                self.add_pieces(items, run)?;
            }
        }
        Ok(())
    }

    // Adds a run of named parts between which others are not named.
    fn add_pieces(&self, items: &mut Vec<UserRun>, run: &UserRun) -> Result<(), Memory> {
        let mut piece = UserRun {
            first: 0,
            end: 0,
            uses: run.uses,
        };
        for rank in run.first..run.end {
            let part = number_at(&self.parts, rank as usize);
            if piece.end != part && piece.first < piece.end {
                items.push(piece)?;
            }
            if piece.end != part || piece.first == piece.end {
                piece.first = part;
            }
            piece.end = part.saturating_add(1);
        }
        items.push(piece)?;
        Ok(())
    }
}

// For each part of a unit whether it is the first part of an alternative, and whether it is the
// second one.
fn named_by(alloc: Global, alts: &[Alt], parts: usize) -> Result<(Vec<bool>, Vec<bool>), Memory> {
    let mut ones = vec![in alloc; false; parts]?;
    let mut twos = vec![in alloc; false; parts]?;
    for alt in alts {
        mark_part(&mut ones, 0, alt.one);
        mark_part(&mut twos, 0, alt.two);
    }
    Ok((ones, twos))
}

// Adds 1 for a flag that is set, and 0 for another.
fn add_flag(numbers: &mut Vec<u32>, flag: bool) -> Result<(), Memory> {
    numbers.push(u32::from(flag))?;
    Ok(())
}

// Puts at each place the sum of the numbers before it, and at the end that of all.
fn add_up_flags(numbers: &mut Vec<u32>) -> Result<(), Memory> {
    let mut total: u32 = 0;
    for at in 0..numbers.len() {
        let before = total;
        total = total.saturating_add(numbers[at]);
        numbers[at] = before;
    }
    numbers.push(total)?;
    Ok(())
}
