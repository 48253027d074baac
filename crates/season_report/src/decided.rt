//! What was decided of units.

ghost use Rattle.std.specs.Prelude.{◌≡◌, ◌≤◌, All, length, IfOk, is_some, if◌then◌else◌};
ghost use Rattle.choice_problem.specs.declared.problems.TheConstants.{MOST_UNITS};
ghost use Rattle.cert_format.specs.Printable.{IsPrintable};
ghost use Rattle.series_model.specs.Stages.{has_slots, AreStates, after_stage};
ghost use Rattle.season_report.specs.Private.{IsTold, IsAnswered};
ghost use Rattle.season_report.specs.Decisions.{choice_at, stage_of, decided_of, decided_units, season_decided, states_before, given_in, moved_decision, timed_decision, decision};

use cert_format::Certificate;
use choice_problem::Choice;
use scr_reader::Line;
use series_model::laws::{one_more_stage, option_bounds, spelled_alternatives};
use series_model::{
    Group, Submission, Times, Unit, UnitState, after_stage, are_same, line_times, states_of,
};
use slot_text::Memory;
use std::alloc::Global;

/// A unit, the last of its stages, and what that gave it: none where the stage has no allotment.
#[derive(Clone, Copy, Debug, PartialEq, Eq)]
pub struct Decided {
    pub unit: Unit,
    pub stage: u32,
    pub given: Option<Times>,
}

/// What a unit's last stage decided.
#[derive(Clone, Copy, Debug, PartialEq, Eq)]
pub enum Decision {
    /// The stage has no allotment.
    Unallotted,
    /// No slots.
    Refused,
    /// The requested times.
    Kept,
    /// The times of the historic line of a pair, which are not the requested ones.
    Historic,
    /// Other times.
    Moved,
}

impl Decided {
    /// What was decided.
    pub fn decision(&self) -> Decision
        ensures { result ≡ decision self.now }
    {
        match self.given {
            None => Decision::Unallotted,
            Some(Times::Refused) => Decision::Refused,
            Some(Times::At { arrival, departure }) => {
                timed_decision(&self.unit, Times::At { arrival, departure })
            }
        }
    }
}

// Slots at these times.
fn timed_decision(unit: &Unit, times: Times) -> Decision
    ensures { result ≡ timed_decision unit.now times }
{
    if are_same(&times, &line_times(&unit.request)) {
        Decision::Kept
    } else {
        moved_decision(unit.historic, times)
    }
}

// Slots at other times than the requested ones.
fn moved_decision(historic: Option<Line>, times: Times) -> Decision
    ensures { result ≡ moved_decision historic times }
{
    match historic {
        Some(historic) => {
            if are_same(&times, &line_times(&historic)) {
                return Decision::Historic;
            }
            Decision::Moved
        }
        None => Decision::Moved,
    }
}

// ---- all units of a season

// Whether slots were given.
fn has_slots(given: Option<Times>) -> bool
    ensures { result ≡ has_slots given }
{
    match given {
        Some(Times::At { .. }) => true,
        Some(Times::Refused) | None => false,
    }
}

// The last stage of a new entrant, by what it has after stage 3.
fn last_of_entrant(given: Option<Times>) -> u32
    ensures stage { result ≡ (if has_slots given then 3 else 4) }
    ensures some { 1 ≤ result }
{
    if has_slots(given) { 3 } else { 4 }
}

// The last of a unit's stages, by what it has after stage 3.
fn last_stage(state: &UnitState) -> u32
    ensures stage { result ≡ stage_of state.now }
    ensures some { 1 ≤ result }
{
    match state.unit.group {
        Group::F => 1,
        Group::R | Group::L => 2,
        Group::B => last_of_entrant(state.given),
        Group::N => 4,
    }
}

// Whether a stage, which counts from 1, has an allotment.
fn has_choice(cert: &Certificate, stage: u32) -> bool
    requires { 1 ≤ stage }
    ensures { result ≡ is_some (choice_at cert.now stage) }
{
    let blocks = cert.stages.items();
    let at = stage as usize - 1;
    if at >= blocks.len() {
        return false;
    }
    blocks[at].choice.is_some()
}

// What a unit has at the end, where this stage has an allotment.
fn given_in(cert: &Certificate, stage: u32, given: Option<Times>) -> Option<Times>
    requires { 1 ≤ stage }
    ensures { result ≡ given_in cert.now stage given }
{
    if has_choice(cert, stage) { given } else { None }
}

// The unit as it is after stage 3, and after stage 4.
fn decided_of(cert: &Certificate, before: &UnitState, after: &UnitState) -> Decided
    ensures { result ≡ decided_of cert.now before.now after.now }
{
    let stage = last_stage(before);
    Decided {
        unit: after.unit,
        stage,
        given: given_in(cert, stage, after.given),
    }
}

// The units as they are after stage 3, and after stage 4.
fn decided_units(
    alloc: Global,
    cert: &Certificate,
    befores: &[UnitState],
    afters: &[UnitState],
) -> Result<Vec<Decided>, Memory>
    requires { length befores.now ≡ length afters.now }
    ensures { IfOk result (λ units. units.items ≡ decided_units cert.now befores.now afters.now) }
{
    let mut units = Vec::new(alloc);
    for i in 0..befores.len() {
        units.push(decided_of(cert, &befores[i], &afters[i]))?;
    }
    Ok(units)
}

// The units after one more stage; what they have been given can be printed.
fn after_next(
    alloc: Global,
    submission: &Submission,
    stage: u32,
    states: Vec<UnitState>,
    choice: &Option<Choice>,
) -> Result<Vec<UnitState>, Memory>
    requires states { AreStates submission.now states.items }
    requires answered { All (IsAnswered submission.now.declaration) states.items }
    ensures after { IfOk result
        (λ after. after.items
        ≡ after_stage submission.now.declaration stage states.items choice.now) }
    ensures fit { IfOk result (λ after. AreStates submission.now after.items) }
    ensures answered { IfOk result
        (λ after. All (IsAnswered submission.now.declaration) after.items) }
    ensures count { IfOk result (λ after. length after.items ≡ length states.items) }
{
    option_bounds();
    spelled_alternatives();
    let _keeps = submission.declaration();
    let after = after_stage(alloc, submission, stage, states, choice)?;
    Ok(after)
}

// The units before a stage.
fn states_before(
    alloc: Global,
    submission: &Submission,
    cert: &Certificate,
    stage: u32,
) -> Result<Vec<UnitState>, Memory>
    requires form { IsPrintable cert.now }
    requires stage { 1 ≤ stage }
    requires few { stage ≤ 5 }
    ensures states { IfOk result
        (λ states. states.items ≡ states_before submission.now cert.now stage) }
    ensures answered { IfOk result
        (λ states. All (IsAnswered submission.now.declaration) states.items) }
    ensures count { IfOk result (λ states. length states.items ≡ length submission.now.units) }
    ensures few { IfOk result (λ states. length states.items ≤ MOST_UNITS) }
{
    one_more_stage();
    let mut states = states_of(alloc, submission)?;
    let blocks = cert.stages.items();
    for at in 1..stage {
        let choice = &blocks[at as usize - 1].choice;
        states = after_next(alloc, submission, at, states, choice)?;
    }
    Ok(states)
}

/// All units, in the order of the file: the time of `series_model::after_stage` for each stage, and
/// one step a unit.
pub(crate) fn season_decided(
    alloc: Global,
    submission: &Submission,
    cert: &Certificate,
) -> Result<Vec<Decided>, Memory>
    requires { IsPrintable cert.now }
    ensures units { IfOk result (λ units. units.items ≡ season_decided submission.now cert.now) }
    ensures told { IfOk result
        (λ units. All (IsTold submission.now.declaration) units.items) }
    ensures count { IfOk result (λ units. length units.items ≡ length submission.now.units) }
    ensures few { IfOk result (λ units. length units.items ≤ MOST_UNITS) }
{
    let befores = states_before(alloc, submission, cert, 4)?;
    let afters = states_before(alloc, submission, cert, 5)?;
    let units = decided_units(alloc, cert, &befores, &afters)?;
    Ok(units)
}
