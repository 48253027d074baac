//! The holdings with which amendments begin: what the stages of a certificate gave.

ghost use Rattle.std.specs.Prelude.{◌≡◌, ◌+◌, ◌<◌, ◌≤◌, ◌^◌, [], All, length, IfOk, OnOk, OnSome};
ghost use Rattle.std.specs.List.{filter_map};
ghost use Rattle.std.specs.Option.{ForSome};
ghost use Rattle.season_days.specs.Capacity.{capacity_of};
ghost use Rattle.scr_reader.specs.Printed.{LineFits};
ghost use Rattle.cert_format.specs.Choices.{choices_of};
ghost use Rattle.capacity_windows.specs.Windows.{WindowsFit};
ghost use Rattle.series_model.specs.declared.state.UnitState.{UnitState as UnitStateValue};
ghost use Rattle.series_model.specs.Options.{are_same};
ghost use Rattle.series_model.specs.Stages.{after_stage, states_after, AreStates};
ghost use Rattle.series_model.specs.TimedLines.{IsNear};
ghost use Rattle.holding_book.specs.Books.{held_movements};
ghost use Rattle.holding_book.specs.Private.Loads.{AreLeft};
ghost use Rattle.holding_book.specs.Private.Given.{IsGiven};
ghost use Rattle.holding_book.specs.Starts.{moved_holding, start_holding, holding_of};

use crate::finding::holding_at;
use crate::holding::{Holding, State};
use crate::loads::Loads;
use crate::rows::held_as;
use cert_format::Certificate;
use choice_problem::Choice;
use scr_reader::Line;
use series_model::{Submission, Times, UnitState, after_stage, line_at, line_times, states_of};
use slot_text::Memory;
use std::alloc::Global;

// The units after one more stage.
fn after_next(
    alloc: Global,
    submission: &Submission,
    stage: u32,
    states: Vec<UnitState>,
    choice: &Option<Choice>,
) -> Result<Vec<UnitState>, Memory>
    requires states { AreStates submission.now states.items }
    requires given { All (IsGiven submission.now.declaration) states.items }
    ensures after { IfOk result
        (λ after. after.items
        ≡ after_stage submission.now.declaration stage states.items choice.now) }
    ensures fit { IfOk result (λ after. AreStates submission.now after.items) }
    ensures given { IfOk result (λ after. All (IsGiven submission.now.declaration) after.items) }
{
    let after = after_stage(alloc, submission, stage, states, choice)?;
    Ok(after)
}

/// The units after all stages, in the order of the file.
pub(crate) fn final_states(
    alloc: Global,
    submission: &Submission,
    cert: &Certificate,
) -> Result<Vec<UnitState>, Memory>
    requires { length cert.now.stages ≤ 4 }
    ensures states { IfOk result (λ states. states.items
        ≡ states_after submission.now.declaration submission.now.units (choices_of cert.now)) }
    ensures few { IfOk result (λ states. length states.items < 2 ^ 32) }
    ensures given { IfOk result (λ states. All (IsGiven submission.now.declaration) states.items) }
{
    let mut states = states_of(alloc, submission)?;
    let mut stage = 1;
    for block in cert.stages.items() {
        states = after_next(alloc, submission, stage, states, &block.choice)?;
        stage += 1;
    }
    Ok(states)
}

// Whether two times are the same.
fn are_same(one: Times, other: Times) -> bool
    ensures { result ≡ are_same one other }
{
    match (one, other) {
        (Times::Refused, Times::Refused) => true,
        (
            Times::At { arrival, departure },
            Times::At {
                arrival: other,
                departure: later,
            },
        ) => arrival == other && departure == later,
        _ => false,
    }
}

// The historic times of a pair are confirmed, other times than the requested ones are offered.
fn moved_holding(request: &Line, historic: &Option<Line>, times: Times) -> Holding
    requires { IsNear times }
    ensures { result ≡ moved_holding request.now historic.now times }
{
    if let Some(historic) = historic {
        if are_same(times, line_times(historic)) {
            return held_as(historic, State::Confirmed);
        }
    }
    held_as(&line_at(request, times), State::Offered)
}

// What a unit holds that was given slots.
fn start_holding(state: &UnitState) -> Option<Holding>
    requires { ForSome state.now.given IsNear }
    ensures { result ≡ holding_of state.now }
{
    let times = state.given?;
    if matches!(times, Times::Refused) {
        return None;
    }
    if are_same(times, line_times(&state.unit.request)) {
        return Some(held_as(&state.unit.request, State::Confirmed));
    }
    Some(moved_holding(&state.unit.request, &state.unit.historic, times))
}

/// What the units hold, in their order.
pub(crate) fn start_holdings(alloc: Global, states: &[UnitState]) -> Result<Vec<Holding>, Memory>
    requires { All (λ (state : UnitStateValue). ForSome state.given IsNear) states.now }
    ensures { IfOk result (λ holdings. holdings.items ≡ filter_map holding_of states.now) }
{
    let mut holdings = Vec::new(alloc);
    for state in states {
        if let Some(holding) = start_holding(state) {
            holdings.push(holding)?;
        }
    }
    Ok(holdings)
}

/// Takes the uses of all holdings, of which nothing is taken yet.
pub(crate) fn take_all(alloc: Global, loads: &mut Loads, holdings: &[Holding]) -> Result<(), Memory>
    requires lines { All (λ holding. LineFits loads.old.declaration.season holding.line)
        holdings.now }
    requires left { AreLeft (capacity_of loads.old.declaration) [] loads.old.left }
    requires few { length holdings.now < 2 ^ 32 }
    requires fits { WindowsFit (capacity_of loads.old.declaration)
        (held_movements loads.old.declaration.season holdings.now) }
    ensures declaration { loads.new.declaration ≡ loads.old.declaration }
    ensures left { OnOk result (AreLeft (capacity_of loads.old.declaration)
        (held_movements loads.old.declaration.season holdings.now) loads.new.left) }
{
    for n in 0..holdings.len() {
        let held = holding_at(holdings, n as u32);
        let uses = loads.parts_of(alloc, &held.line)?;
        loads.take(&uses);
    }
    Ok(())
}
