//! Ranges of alternatives.

ghost use Rattle.std.specs.Prelude.{◌≡◌, ◌<◌, ◌≤◌, length, IfOk, slice_set};
ghost use Rattle.choice_problem.specs.Problems.{ProblemView, alt_count};
ghost use Rattle.choice_problem.specs.Bounds.{low_of, high_of, whole_of, AreRanges};
ghost use Rattle.choice_problem.specs.Trees.{CanSplit, low_part, high_part};

use crate::problems::Problem;
use slot_text::Memory;
use std::alloc::Global;
use std::marker::Model;

/// An interval of alternatives for each unit, both ends included: 8 bytes a unit.
#[derive(Drop)]
pub struct Ranges {
    spans: Vec<(u32, u32)>,
}

impl Model for Ranges {
    ghost use Rattle.std.specs.Prelude.{List, ℕ};

    ghost Value = { List (ℕ × ℕ) };

    ghost view = { λ r. r.spans.items };
}

impl Ranges {
    /// All alternatives of each unit.
    pub fn whole(alloc: Global, problem: &Problem) -> Result<Ranges, Memory>
        ensures value { IfOk result (λ ranges. ranges ≡ whole_of problem.now) }
        ensures there { IfOk result (λ ranges. AreRanges problem.now ranges) }
    {
        let mut spans = Vec::new(alloc);
        for unit in 0..problem.units() {
            spans.push((0, problem.alts(unit) - 1))?;
        }
        Ok(Ranges { spans })
    }

    /// How many units have a range.
    pub fn len(&self) -> usize
        ensures { result ≡ length self.now }
    {
        self.spans.len()
    }

    /// The lowest alternative in a unit's range.
    pub fn low(&self, unit: u32) -> u32
        requires { unit < length self.now }
        ensures { result ≡ low_of self.now unit }
    {
        self.spans[unit as usize].0
    }

    /// The highest alternative in a unit's range.
    pub fn high(&self, unit: u32) -> u32
        requires { unit < length self.now }
        ensures { result ≡ high_of self.now unit }
    {
        self.spans[unit as usize].1
    }

    /// A copy: 8 bytes a unit.
    pub fn copy(&self, alloc: Global) -> Result<Ranges, Memory>
        ensures { IfOk result (λ ranges. ranges ≡ self.now) }
    {
        Ok(Ranges {
            spans: Vec::from_slice(alloc, &self.spans)?,
        })
    }

    /// Replaces the range of a unit, in one step. What are ranges of a problem stay ranges of it
    /// where the new one is not empty and its alternatives are there.
    pub fn set(&mut self, unit: u32, low: u32, high: u32)
        requires { unit < length self.old }
        ensures value { self.new ≡ slice_set self.old unit (low, high) }
        ensures valid { (p : ProblemView) → AreRanges p self.old → low ≤ high →
            high < alt_count p unit →
            AreRanges p self.new }
    {
        self.spans[unit as usize] = (low, high);
    }

    /// The ranges with the unit's alternatives below the cut, and those with its alternatives from
    /// the cut on. Both are copies: 8 bytes a unit each.
    pub fn split(&self, alloc: Global, unit: u32, cut: u32) -> Result<(Ranges, Ranges), Memory>
        requires { CanSplit self.now unit cut }
        ensures low { IfOk result (λ parts. parts.0 ≡ low_part self.now unit cut) }
        ensures high { IfOk result (λ parts. parts.1 ≡ high_part self.now unit cut) }
        ensures valid { IfOk result (λ parts. (p : ProblemView) → AreRanges p self.now →
            AreRanges p parts.0 × AreRanges p parts.1) }
    {
        let (low, high) = self.spans[unit as usize];
        let mut below = Vec::from_slice(alloc, &self.spans)?;
        let mut above = Vec::from_slice(alloc, &self.spans)?;
        below[unit as usize] = (low, cut - 1);
        above[unit as usize] = (cut, high);
        Ok((Ranges { spans: below }, Ranges { spans: above }))
    }
}
