//! The problem of a stage.

ghost use Rattle.std.specs.Prelude.{◌≡◌, ◌+◌, ◌<◌, ◌≤◌, ℕ, List, All, length, slice_index, slice_index_or, IfOk, OnOk, pos};
ghost use Rattle.std.specs.List.{AllZip};
ghost use Rattle.season_days.specs.Capacity.{IsDeclaration};
ghost use Rattle.season_days.specs.declared.declaration.TheConstants.{HIGHEST_NIGHT_LIMIT};
ghost use Rattle.capacity_windows.specs.Windows.{capacity_of, declared_resources};
ghost use Rattle.choice_problem.specs.declared.problems.TheConstants.{MOST_UNITS};
ghost use Rattle.choice_problem.specs.Problems.{ArePartsInRange};
ghost use Rattle.series_model.specs.Units.{UnitFits};
ghost use Rattle.series_model.specs.Stages.{AreFitting, AreStates, states_after, stage_units, stage_positions};
ghost use Rattle.wasg_stages.specs.StageProblems.{IsChooserOf, IsAllotmentProblem, IsStageProblem};
ghost use Rattle.wasg_stages.specs.Steps.{AddsDue, AreChoosers};

use crate::choosers::chooser_of;
use crate::earlier::Earlier;
use crate::limits::{given_limits, stage_limits};
use capacity_windows::Windows;
use choice_problem::{Chooser, Problem};
use season_days::Declaration;
use series_model::{Submission, Unit, UnitState, is_due, stage_positions, states_after};
use slot_text::Memory;
use std::alloc::Global;

// Adds the unit, where it is one of the stage's.
fn add_due(
    alloc: Global,
    windows: &Windows,
    declaration: &Declaration,
    stage: u32,
    state: &UnitState,
    choosers: &mut Vec<Chooser>,
) -> Result<(), Memory>
    requires windows { windows.now ≡ capacity_of declaration.now }
    requires keeps { IsDeclaration declaration.now }
    requires unit { UnitFits declaration.now.season state.now.unit }
    requires range { All (ArePartsInRange
        (declared_resources (capacity_of declaration.now))) choosers.old.items }
    ensures adds { OnOk result
        (AddsDue declaration.now stage state.now choosers.old.items choosers.new.items) }
    ensures range { OnOk result
        (All (ArePartsInRange
        (declared_resources (capacity_of declaration.now))) choosers.new.items) }
    ensures few { OnOk result (length choosers.new.items ≤ length choosers.old.items + 1) }
{
    if is_due(stage, state) {
        let chooser = chooser_of(alloc, windows, declaration, &state.unit)?;
        choosers.push(chooser)?;
    }
    Ok(())
}

// The units of a stage.
fn choosers_of(
    alloc: Global,
    windows: &Windows,
    declaration: &Declaration,
    stage: u32,
    states: &[UnitState],
) -> Result<Vec<Chooser>, Memory>
    requires windows { windows.now ≡ capacity_of declaration.now }
    requires keeps { IsDeclaration declaration.now }
    requires units { AreFitting declaration.now states.now }
    ensures units { IfOk result
        (λ choosers.
        AllZip (IsChooserOf declaration.now) (stage_units stage states.now) choosers.items) }
    ensures range { IfOk result
        (λ choosers.
        All (ArePartsInRange (declared_resources (capacity_of declaration.now))) choosers.items) }
    ensures few { IfOk result (λ choosers. length choosers.items ≤ length states.now) }
{
    let mut choosers = Vec::new(alloc);
    for state in states {
        add_due(alloc, windows, declaration, stage, state, &mut choosers)?;
    }
    Ok(choosers)
}

// These units, in their order.
fn all_choosers(
    alloc: Global,
    windows: &Windows,
    declaration: &Declaration,
    units: &[Unit],
) -> Result<Vec<Chooser>, Memory>
    requires windows { windows.now ≡ capacity_of declaration.now }
    requires keeps { IsDeclaration declaration.now }
    requires units { All (UnitFits declaration.now.season) units.now }
    ensures units { IfOk result
        (λ choosers. AllZip (IsChooserOf declaration.now) units.now choosers.items) }
    ensures range { IfOk result
        (λ choosers.
        All (ArePartsInRange (declared_resources (capacity_of declaration.now))) choosers.items) }
    ensures few { IfOk result (λ choosers. length choosers.items ≤ length units.now) }
{
    let mut choosers = Vec::with_capacity(alloc, units.len())?;
    for unit in units {
        let chooser = chooser_of(alloc, windows, declaration, unit)?;
        choosers.push(chooser)?;
    }
    Ok(choosers)
}

/// The problem of some units under a limit for each resource, which need be no stage of a season:
/// the units in their order, with their alternatives and costs under the declaration.
///
/// The time is that of listing the alternatives of the units, and one step for each resource. Of
/// resources the limits alone are kept, eight bytes each.
pub fn allotment_problem(
    alloc: Global,
    windows: &Windows,
    declaration: &Declaration,
    units: &[Unit],
    limits: &[u32],
) -> Result<Problem, Memory>
    requires windows { windows.now ≡ capacity_of declaration.now }
    requires keeps { IsDeclaration declaration.now }
    requires units { All (UnitFits declaration.now.season) units.now }
    requires few { length units.now ≤ MOST_UNITS }
    requires limits { length limits.now ≡ declared_resources (capacity_of declaration.now) }
    requires low { All (λ n. n ≤ HIGHEST_NIGHT_LIMIT) limits.now }
    ensures { IfOk result (λ problem.
        IsAllotmentProblem declaration.now units.now (λ r. slice_index limits.now r) problem) }
{
    let _resources = windows.resources();
    let choosers = all_choosers(alloc, windows, declaration, units)?;
    let limits = given_limits(alloc, limits)?;
    Ok(Problem::new(choosers, limits))
}

/// The problem of a stage, after what its units were given: its units with their alternatives and
/// costs, and of each resource what is left of its limit, in stage 3 the share of new entrants of
/// that.
///
/// The time is that of listing the alternatives of the stage's units, one step for each resource
/// and capacity line, and one for each resource that a movement which was given uses: those are
/// taken from the limits once a stage, which costs about what one alternative of each given unit
/// does in its problem. A part is kept once for each minute at which a movement of the unit may be.
/// Of resources the limits alone are kept, eight bytes each.
pub fn problem_after(
    alloc: Global,
    submission: &Submission,
    stage: u32,
    states: &[UnitState],
) -> Result<Problem, Memory>
    requires { AreStates submission.now states.now }
    ensures { IfOk result
        (λ problem. IsStageProblem submission.now.declaration stage states.now problem) }
{
    let declaration = submission.declaration();
    let windows = submission.windows();
    let units = choosers_of(alloc, windows, declaration, stage, states)?;
    let limits = stage_limits(alloc, declaration, windows, stage, states)?;
    Ok(Problem::new(units, limits))
}

/// The positions of a stage's units among those of the submission, in the order of the file, after
/// these choices of the stages before it.
pub fn units_of_stage(
    alloc: Global,
    submission: &Submission,
    stage: u32,
    earlier: &Earlier,
) -> Result<Vec<u32>, Memory>
    requires { length earlier.now ≤ 3 }
    ensures { IfOk result
        (λ positions. positions.items
        ≡ stage_positions stage
        (states_after submission.now.declaration submission.now.units earlier.now)) }
{
    let states = states_after(alloc, submission, earlier.items())?;
    stage_positions(alloc, stage, &states)
}

/// The problem of a stage, after these choices of the stages before it: its units with their
/// alternatives and costs, and of each resource what is left of its limit, in stage 3 the share of
/// new entrants of that.
///
/// The time is that of `series_model::after_stage` for each earlier stage and of `problem_after`,
/// so the alternatives of the stage's own units alone are listed.
pub fn stage_problem(
    alloc: Global,
    submission: &Submission,
    stage: u32,
    earlier: &Earlier,
) -> Result<Problem, Memory>
    requires { length earlier.now ≤ 3 }
    ensures { IfOk result
        (λ problem. IsStageProblem submission.now.declaration stage
        (states_after submission.now.declaration submission.now.units earlier.now) problem) }
{
    let states = states_after(alloc, submission, earlier.items())?;
    problem_after(alloc, submission, stage, &states)
}
