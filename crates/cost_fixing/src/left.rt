//! What is left of a problem without the alternatives that are out.

ghost use Rattle.std.specs.Prelude.{◌≡◌, ◌↔◌, ◌<◌, ℕ, IfOk, IfSome, IfNone, IsTrue, length};
ghost use Rattle.choice_problem.specs.declared.closing.TheConstants.{SCALE_BOUND};
ghost use Rattle.price_table.specs.Tables.{IsTableFor};
ghost use Rattle.cost_fixing.specs.Fixings.{LeavesSome, left_view};
ghost use Rattle.cost_fixing.specs.Loops.{alts_in};

use crate::numbers::{AltNumbers, left_numbers};
use crate::units::problem_with;
use choice_problem::{Choice, Problem};
use price_table::PriceTable;
use slot_text::Memory;
use std::alloc::Global;
use std::marker::Model;

/// A problem with some of the alternatives of a whole one, and the numbers that they have there: 4
/// bytes an alternative beside the problem.
#[derive(Drop)]
pub struct Left {
    problem: Problem,
    alts: Vec<AltNumbers>,
}

impl Model for Left {
    ghost use Rattle.cost_fixing.specs.Fixings.{LeftView};
    ghost use Rattle.cost_fixing.specs.Loops.{IsNumbering};

    ghost Value = { LeftView };

    ghost view = { λ l. record { problem = l.problem; alts = l.alts.items } };

    ghost invariant = { λ l. IsNumbering l.problem l.alts.items };
}

impl Left {
    ghost use Rattle.std.specs.Prelude.{◌≡◌, ◌<◌, ℕ, List, IfOk, IfSome, IfNone, length, slice_index};
    ghost use Rattle.choice_problem.specs.Problems.{unit_count, alt_count};
    ghost use Rattle.choice_problem.specs.Choices.{IsChoice};
    ghost use Rattle.cost_fixing.specs.Fixings.{whole_alt, whole_choice};
    ghost use Rattle.cost_fixing.specs.Loops.{alts_in};

    /// The problem with the alternatives that are left.
    pub fn problem(&self) -> &Problem
        ensures { result.now ≡ self.now.problem }
    {
        &self.problem
    }

    /// The problem alone, without a copy.
    pub fn into_problem(self) -> Problem
        ensures { result ≡ self.problem }
    {
        self.problem
    }

    /// The choice of the whole problem that a choice of what is left is: one step a unit.
    pub fn whole_choice(&self, alloc: Global, choice: &Choice) -> Result<Choice, Memory>
        requires { IsChoice self.now.problem choice.now }
        ensures { IfOk result (λ whole. whole ≡ whole_choice self.now.alts choice.now) }
    {
        let mut alts = Vec::with_capacity(alloc, self.alts.len())?;
        for unit in 0..self.problem.units() {
            alts.push(self.number(unit, choice.alt(unit)))?;
        }
        Ok(Choice::new(alts))
    }

    /// The choice of what is left that a choice of the whole problem is, and none where that takes
    /// an alternative that is not left: one step an alternative that is left.
    pub fn left_choice(&self, alloc: Global, choice: &Choice) -> Result<Option<Choice>, Memory>
        requires { length choice.now ≡ unit_count self.now.problem }
        ensures choice { IfOk result (λ found. IfSome found (IsChoice self.now.problem)) }
        ensures same { IfOk result (λ found. IfSome found (λ left.
            whole_choice self.now.alts left ≡ choice.now)) }
        ensures none { IfOk result (λ found. IfNone found ((x : List ℕ) →
            IsChoice self.now.problem x → whole_choice self.now.alts x ≡ choice.now → ⊥)) }
    {
        let mut alts = Vec::with_capacity(alloc, self.alts.len())?;
        for unit in 0..self.problem.units() {
            let Some(place) = self.place(unit, choice.alt(unit)) else {
                return Ok(None);
            };
            alts.push(place)?;
        }
        Ok(Some(Choice::new(alts)))
    }

    // The number that an alternative of a unit has in the whole problem.
    fn number(&self, unit: u32, alt: u32) -> u32
        requires unit { unit < unit_count self.now.problem }
        requires alt { alt < alt_count self.now.problem unit }
        ensures { result ≡ slice_index (alts_in self.now.alts unit) alt }
    {
        let _invariant = &self.alts;
        self.alts[unit as usize].items()[alt as usize]
    }

    // Which alternative of a unit has this number in the whole problem.
    fn place(&self, unit: u32, number: u32) -> Option<u32>
        requires unit { unit < unit_count self.now.problem }
        ensures there { IfSome result (λ a. a < alt_count self.now.problem unit) }
        ensures is { IfSome result (λ a. slice_index (alts_in self.now.alts unit) a ≡ number) }
        ensures none { IfNone result ((a : ℕ) → a < alt_count self.now.problem unit →
            slice_index (alts_in self.now.alts unit) a ≡ number → ⊥) }
    {
        for alt in 0..self.problem.alts(unit) {
            if self.number(unit, alt) == number {
                return Some(alt);
            }
        }
        None
    }
}

/// What is left of a problem below a cost: the alternatives with which the bound at the table's
/// vector and the scale does not reach the cost, those that do not use the last resource before
/// those that do. None where some unit has none. Two steps an alternative, one a strip of each that
/// is left, and a copy of the parts.
pub fn left_of(
    alloc: Global,
    problem: &Problem,
    table: &PriceTable,
    scale: u64,
    cost: u64,
) -> Result<Option<Left>, Memory>
    requires table { IsTableFor problem.now table.now }
    requires scale { scale < SCALE_BOUND }
    ensures value { IfOk result (λ found. IfSome found (λ left.
        left ≡ left_view problem.now table.now.prices scale cost)) }
    ensures some { IfOk result (λ found. IfSome found (λ _.
        LeavesSome problem.now table.now.prices scale cost)) }
    ensures none { IfOk result (λ found. IfNone found
        (LeavesSome problem.now table.now.prices scale cost → ⊥)) }
{
    let alts = left_numbers(alloc, problem, table, scale, cost)?;
    if !has_each(&alts) {
        return Ok(None);
    }
    let _units = problem.units();
    let left = problem_with(alloc, problem, &alts)?;
    Ok(Some(Left {
        problem: left,
        alts,
    }))
}

// Whether each unit has an alternative.
fn has_each(alts: &[AltNumbers]) -> bool
    ensures { IsTrue result ↔ ((u : ℕ) → u < length alts.now → 0 < length (alts_in alts.now u)) }
{
    for numbers in alts {
        if numbers.items().is_empty() {
            return false;
        }
    }
    true
}
