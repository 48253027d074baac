//! What the units of a submission have been given, stage by stage.

ghost use Rattle.std.specs.Prelude.{◌≡◌, ◌+◌, ◌<◌, ◌≤◌, ℕ, ◌++◌, ◌∷◌, [], All, List, length, Option, Some, None, IfOk, OnOk, slice_index_or};
ghost use Rattle.series_model.specs.Units.{UnitFits};
ghost use Rattle.series_model.specs.Options.{options_of};
ghost use Rattle.choice_problem.specs.declared.problems.TheConstants.{MOST_UNITS};
ghost use Rattle.series_model.specs.declared.times.Times.TheVariants.{Refused};
ghost use Rattle.series_model.specs.Stages.{first_states, has_slots, is_due_state, after_stage, stage_positions, states_after, may_follow, AreFitting, AreStates};
ghost use Rattle.series_model.specs.Loops.{Advances};

use crate::group::Group;
use crate::numbered::times_at;
use crate::state::UnitState;
use crate::submission::Submission;
use crate::times::Times;
use crate::unit::Unit;
use choice_problem::Choice;
use season_days::Declaration;
use slot_text::Memory;
use std::alloc::Global;

/// The units of a submission before the first stage. One step a unit.
pub fn states_of(alloc: Global, submission: &Submission) -> Result<Vec<UnitState>, Memory>
    ensures states { IfOk result (λ states. states.items ≡ first_states submission.now.units) }
    ensures fit { IfOk result (λ states. AreStates submission.now states.items) }
{
    states_after(alloc, submission, &[])
}

/// The units of a submission after one more stage, which may have no choice. One step a unit, and
/// for each of the stage's units one for each shift of an arrival: no alternatives are listed.
pub fn after_stage(
    alloc: Global,
    submission: &Submission,
    stage: u32,
    states: Vec<UnitState>,
    choice: &Option<Choice>,
) -> Result<Vec<UnitState>, Memory>
    requires { AreStates submission.now states.items }
    ensures after { IfOk result
        (λ after. after.items
        ≡ after_stage submission.now.declaration stage states.items choice.now) }
    ensures fit { IfOk result (λ after. AreStates submission.now after.items) }
{
    let declaration = submission.declaration();
    after_one(alloc, declaration, stage, states, choice)
}

/// The units of a submission after these choices of its first stages: `states_of`, and then
/// `after_stage` for each.
pub fn states_after(
    alloc: Global,
    submission: &Submission,
    choices: &[Option<Choice>],
) -> Result<Vec<UnitState>, Memory>
    requires few { length choices.now ≤ 4 }
    ensures after { IfOk result
        (λ states. states.items
        ≡ states_after submission.now.declaration submission.now.units choices.now) }
    ensures fit { IfOk result (λ states. AreStates submission.now states.items) }
{
    let declaration = submission.declaration();
    all_after(alloc, declaration, submission.units(), choices)
}

/// Whether the stage after this one is tried, where this one is or is not: not where stage 1 or
/// stage 2 has no allotment.
pub fn next_may_follow(follows: bool, stage: u32, choice: &Option<Choice>) -> bool
    ensures { (earlier : List (Option (List ℕ))) → stage ≡ length earlier + 1 →
        follows ≡ may_follow earlier → result ≡ may_follow (earlier ++ choice.now ∷ []) }
{
    if stage > 2 {
        follows
    } else {
        follows && choice.is_some()
    }
}

// Before the first stage.
fn first_states(alloc: Global, units: &[Unit]) -> Result<Vec<UnitState>, Memory>
    ensures { IfOk result (λ states. states.items ≡ first_states units.now) }
{
    let mut states = Vec::new(alloc);
    for unit in units {
        states.push(UnitState {
            unit: *unit,
            given: None,
        })?;
    }
    Ok(states)
}

// Whether slots were given.
fn has_slots(given: Option<Times>) -> bool
    ensures { result ≡ has_slots given }
{
    match given {
        Some(Times::At { .. }) => true,
        Some(Times::Refused) | None => false,
    }
}

/// Whether a unit is one of a stage's, as it is before the stage.
pub fn is_due(stage: u32, state: &UnitState) -> bool
    ensures { result ≡ is_due_state stage state.now }
{
    match state.unit.group {
        Group::F => stage == 1,
        Group::R | Group::L => stage == 2,
        Group::B => stage == 3 || (stage == 4 && !has_slots(state.given)),
        Group::N => stage == 4,
    }
}

// The times of a number among a unit's alternatives.
fn times_of(declaration: &Declaration, unit: &Unit, number: u32) -> Times
    requires step { 0 < declaration.now.step }
    requires unit { UnitFits declaration.now.season unit.now }
    ensures { result ≡ slice_index_or (options_of declaration.now unit.now) number Refused }
{
    times_at(unit, number, declaration).unwrap_or(Times::Refused)
}

// A unit after the stage, where these numbers are left for it and the units after it, and how many
// of them it takes.
fn advanced(
    declaration: &Declaration,
    stage: u32,
    state: &UnitState,
    numbers: &[u32],
) -> (UnitState, usize)
    requires step { 0 < declaration.now.step }
    requires unit { UnitFits declaration.now.season state.now.unit }
    ensures few { result.1 ≤ length numbers.now }
    ensures after { Advances declaration.now stage state.now numbers.now result.0 result.1 }
{
    if !is_due(stage, state) {
        return (*state, 0);
    }
    if numbers.is_empty() {
        return (*state, 0);
    }
    let times = times_of(declaration, &state.unit, numbers[0]);
    let after = UnitState {
        unit: state.unit,
        given: Some(times),
    };
    (after, 1)
}

// What the units have after a stage with a choice.
fn with_choice(
    alloc: Global,
    declaration: &Declaration,
    stage: u32,
    states: &[UnitState],
    numbers: &[u32],
) -> Result<Vec<UnitState>, Memory>
    requires step { 0 < declaration.now.step }
    requires units { AreFitting declaration.now states.now }
    ensures { IfOk result
        (λ after. after.items ≡ after_stage declaration.now stage states.now (Some numbers.now)) }
{
    let mut after = Vec::new(alloc);
    let mut next = 0;
    for state in states {
        let (state_after, taken) = advanced(declaration, stage, state, &numbers[next..]);
        after.push(state_after)?;
        next += taken;
    }
    Ok(after)
}

// What the units have after one more stage, which may have no choice.
fn after_one(
    alloc: Global,
    declaration: &Declaration,
    stage: u32,
    states: Vec<UnitState>,
    choice: &Option<Choice>,
) -> Result<Vec<UnitState>, Memory>
    requires step { 0 < declaration.now.step }
    requires units { AreFitting declaration.now states.items }
    ensures after { IfOk result
        (λ after. after.items ≡ after_stage declaration.now stage states.items choice.now) }
    ensures fit { IfOk result (λ after. AreFitting declaration.now after.items) }
    ensures count { IfOk result (λ after. length after.items ≡ length states.items) }
{
    match choice {
        Some(choice) => {
            let after = with_choice(alloc, declaration, stage, &states, choice.items())?;
            Ok(after)
        }
        None => Ok(states),
    }
}

// What the units have after stages from stage 1 on.
fn all_after(
    alloc: Global,
    declaration: &Declaration,
    units: &[Unit],
    choices: &[Option<Choice>],
) -> Result<Vec<UnitState>, Memory>
    requires step { 0 < declaration.now.step }
    requires units { All (UnitFits declaration.now.season) units.now }
    requires few { length choices.now ≤ 4 }
    ensures after { IfOk result
        (λ states. states.items ≡ states_after declaration.now units.now choices.now) }
    ensures fit { IfOk result (λ states. AreFitting declaration.now states.items) }
    ensures count { IfOk result (λ states. length states.items ≡ length units.now) }
{
    let mut states = first_states(alloc, units)?;
    let mut stage = 1;
    for choice in choices {
        states = after_one(alloc, declaration, stage, states, choice)?;
        stage += 1;
    }
    Ok(states)
}

/// The positions of a stage's units among these. One step a unit.
pub fn stage_positions(alloc: Global, stage: u32, states: &[UnitState]) -> Result<Vec<u32>, Memory>
    requires { length states.now ≤ MOST_UNITS }
    ensures { IfOk result (λ positions. positions.items ≡ stage_positions stage states.now) }
{
    let mut positions = Vec::new(alloc);
    for (i, state) in states.iter().enumerate() {
        if is_due(stage, state) {
            positions.push(i as u32)?;
        }
    }
    Ok(positions)
}
