//! What the units of a season have been given by all stages of a certificate.

ghost use Rattle.std.specs.Prelude.{◌≡◌, ◌≤◌, ◌<◌, All, IfOk, length, map};
ghost use Rattle.cert_format.specs.Printable.{IsPrintable};
ghost use Rattle.series_model.specs.Stages.{AreStates, after_stage};
ghost use Rattle.scr_replies.specs.SeasonReplies.{final_states, IsAnswerable};

use cert_format::Certificate;
use choice_problem::Choice;
use series_model::laws::{option_bounds, spelled_alternatives};
use series_model::{Submission, UnitState, after_stage, states_of};
use slot_text::Memory;
use std::alloc::Global;

// The units after one more stage; what they have been given can be printed.
fn after_next(
    alloc: Global,
    submission: &Submission,
    stage: u32,
    states: Vec<UnitState>,
    choice: &Option<Choice>,
) -> Result<Vec<UnitState>, Memory>
    requires states { AreStates submission.now states.items }
    requires answerable { All (IsAnswerable submission.now.declaration.season) states.items }
    ensures after { IfOk result
        (λ after. after.items
        ≡ after_stage submission.now.declaration stage states.items choice.now) }
    ensures fit { IfOk result (λ after. AreStates submission.now after.items) }
    ensures answerable { IfOk result
        (λ after. All (IsAnswerable submission.now.declaration.season) after.items) }
    ensures count { IfOk result (λ after. length after.items ≡ length states.items) }
{
    option_bounds();
    spelled_alternatives();
    let after = after_stage(alloc, submission, stage, states, choice)?;
    Ok(after)
}

/// The units after all stages, in the order of the file, and what they have been given can be
/// printed.
pub(crate) fn final_states(
    alloc: Global,
    submission: &Submission,
    cert: &Certificate,
) -> Result<Vec<UnitState>, Memory>
    requires { IsPrintable cert.now }
    ensures states { IfOk result
        (λ states. states.items ≡ final_states submission.now cert.now) }
    ensures answerable { IfOk result
        (λ states. All (IsAnswerable submission.now.declaration.season) states.items) }
    ensures count { IfOk result
        (λ states. length states.items ≡ length submission.now.units) }
{
    let mut states = states_of(alloc, submission)?;
    let mut stage = 1;
    for block in cert.stages.items() {
        states = after_next(alloc, submission, stage, states, &block.choice)?;
        stage += 1;
    }
    Ok(states)
}
