//! Stages 3 and 4: of the choices of stage 3 that displace least, one after which stage 4 displaces
//! less.

ghost use Rattle.std.specs.Prelude.{◌≡◌, ◌⊎◌, ◌≤◌, IfOk, IfSome, IsTrue};
ghost use Rattle.cert_format.specs.declared.cert.Mark.TheVariants.{Optimal};
ghost use Rattle.series_model.specs.Stages.{AreStates, IsFeasibleChoice};
ghost use Rattle.season_run.specs.Steps.{AreLastStages, FitsSeason, FollowsThird, IsCheaperStage, IsStageTie, IsTieOf};

use crate::seasons::next_stage;
use crate::trials::SMALL_BUDGET;
use cert_format::{Mark, StageCert};
use choice_problem::{Choice, Problem};
use series_model::{Submission, UnitState, after_stage, is_due, next_may_follow};
use slot_text::Memory;
use std::alloc::Global;
use std::thread::Threads;
use tied_choice::{MOST_JOINT_UNITS, tied_choice};
use wasg_stages::laws::problem_choices;
use wasg_stages::problem_after;
use worker_gate::Gate;

// Stages 3 and 4 of a season.
#[derive(Drop)]
pub(crate) struct LastStages {
    pub(crate) third: StageCert,
    pub(crate) fourth: StageCert,
}

// Stages 3 and 4, after what the units were given before. With a budget that is no small one, a
// better choice of stage 3 of the same cost is looked for.
pub(crate) fn last_stages<R: Threads + Sync, G: Gate>(
    rt: &R,
    alloc: Global,
    submission: &Submission,
    states: &[UnitState],
    follows: bool,
    budget: u32,
    workers: u32,
    gate: &G,
) -> Result<LastStages, Memory>
    requires states { AreStates submission.now states.now }
    requires budget { (1 ≤ budget) × (budget ≤ 1000000) }
    requires workers { (1 ≤ workers) × (workers ≤ 16) }
    ensures { IfOk result
        (AreLastStages submission.now.declaration states.now budget follows) }
{
    let last = stages_in_turn(
        rt, alloc, submission, states, follows, budget, workers, gate,
    )?;
    if budget <= SMALL_BUDGET {
        return Ok(last);
    }
    let better = tied_stages(
        rt, alloc, submission, states, follows, last, budget, workers, gate,
    )?;
    Ok(better)
}

// Stages 3 and 4, one after the other.
fn stages_in_turn<R: Threads + Sync, G: Gate>(
    rt: &R,
    alloc: Global,
    submission: &Submission,
    states: &[UnitState],
    follows: bool,
    budget: u32,
    workers: u32,
    gate: &G,
) -> Result<LastStages, Memory>
    requires states { AreStates submission.now states.now }
    requires budget { (1 ≤ budget) × (budget ≤ 1000000) }
    requires workers { (1 ≤ workers) × (workers ≤ 16) }
    ensures { IfOk result
        (AreLastStages submission.now.declaration states.now budget follows) }
{
    let third = next_stage(
        rt, alloc, submission, 3, states, follows, budget, workers, gate,
    )?;
    let fourth = fourth_stage(
        rt,
        alloc,
        submission,
        states,
        follows,
        &third.choice,
        budget,
        workers,
        gate,
    )?;
    Ok(LastStages { third, fourth })
}

// Stage 4 after a choice of stage 3, if that has one.
fn fourth_stage<R: Threads + Sync, G: Gate>(
    rt: &R,
    alloc: Global,
    submission: &Submission,
    states: &[UnitState],
    follows: bool,
    choice: &Option<Choice>,
    budget: u32,
    workers: u32,
    gate: &G,
) -> Result<StageCert, Memory>
    requires states { AreStates submission.now states.now }
    requires budget { (1 ≤ budget) × (budget ≤ 1000000) }
    requires workers { (1 ≤ workers) × (workers ≤ 16) }
    ensures fourth { IfOk result
        (FollowsThird submission.now.declaration states.now budget follows choice.now) }
    ensures fits { IfOk result (λ c. FitsSeason c) }
{
    let before = Vec::from_slice(alloc, states)?;
    let after = after_stage(alloc, submission, 3, before, choice)?;
    let may = next_may_follow(follows, 3, choice);
    let cert = next_stage(rt, alloc, submission, 4, &after, may, budget, workers, gate)?;
    Ok(cert)
}

// Stages 3 and 4 with another choice of stage 3 of the same cost, where both are OPTIMAL, one is
// found, and stage 4 after it is OPTIMAL and costs less; else as they are.
fn tied_stages<R: Threads + Sync, G: Gate>(
    rt: &R,
    alloc: Global,
    submission: &Submission,
    states: &[UnitState],
    follows: bool,
    last: LastStages,
    budget: u32,
    workers: u32,
    gate: &G,
) -> Result<LastStages, Memory>
    requires states { AreStates submission.now states.now }
    requires budget { (1 ≤ budget) × (budget ≤ 1000000) }
    requires workers { (1 ≤ workers) × (workers ≤ 16) }
    requires last { AreLastStages submission.now.declaration states.now budget follows last }
    ensures stages { IfOk result
        (AreLastStages submission.now.declaration states.now budget follows) }
    ensures better { IfOk result
        (λ after. (after ≡ last) ⊎ IsCheaperStage after.fourth last.fourth) }
{
    problem_choices();
    let Some(tie) = third_tie(rt, alloc, submission, states, &last, workers)? else {
        return Ok(last);
    };
    let choice = Some(tie);
    let fourth = fourth_stage(
        rt, alloc, submission, states, follows, &choice, budget, workers, gate,
    )?;
    if !is_cheaper(&fourth, &last.fourth) {
        return Ok(last);
    }
    Ok(with_stages(last, choice, fourth))
}

// Stages 3 and 4 with another choice of stage 3, and another stage 4.
fn with_stages(last: LastStages, choice: Option<Choice>, fourth: StageCert) -> LastStages
    ensures third { result.third ≡ record last.third { choice = choice } }
    ensures fourth { result.fourth ≡ fourth }
{
    let mut third = last.third;
    third.choice = choice;
    LastStages { third, fourth }
}

// Whether a stage is OPTIMAL and costs less than another one.
fn is_cheaper(cert: &StageCert, other: &StageCert) -> bool
    ensures { IsTrue result → IsCheaperStage cert.now other.now }
{
    match (cert.cost, other.cost) {
        (Some(cost), Some(most)) => cert.mark == Mark::Optimal && cost < most,
        _ => false,
    }
}

// Another choice of stage 3 of the same cost, after which stage 4 may cost less, where both stages
// are OPTIMAL, stage 4 costs something, and such a choice is found.
fn third_tie<R: Threads + Sync>(
    rt: &R,
    alloc: Global,
    submission: &Submission,
    states: &[UnitState],
    last: &LastStages,
    workers: u32,
) -> Result<Option<Choice>, Memory>
    requires states { AreStates submission.now states.now }
    requires third { IfSome last.now.third.choice
        (IsFeasibleChoice submission.now.declaration 3 states.now) }
    ensures { IfOk result (λ found. IfSome found
        (IsTieOf submission.now.declaration 3 states.now last.now.third)) }
{
    if !is_open_to_ties(last) {
        return Ok(None);
    }
    match &last.third.choice {
        Some(third) => {
            let found = stage_tie(rt, alloc, submission, states, third, &last.fourth, workers)?;
            Ok(found)
        }
        None => Ok(None),
    }
}

// Whether both stages are OPTIMAL, the second one costs something, and their units are not too
// many.
fn is_open_to_ties(last: &LastStages) -> bool
    ensures { IsTrue result → last.now.third.mark ≡ Optimal }
{
    last.third.mark == Mark::Optimal && are_few(&last.third.choice) && is_paid(&last.fourth)
}

// Whether a stage is OPTIMAL and costs something, and its units are not too many.
fn is_paid(cert: &StageCert) -> bool {
    cert.mark == Mark::Optimal && cert.cost != Some(0) && are_few(&cert.choice)
}

// Whether a choice has no more units than a joint problem may have.
fn are_few(choice: &Option<Choice>) -> bool {
    match choice {
        Some(choice) => choice.items().len() <= MOST_JOINT_UNITS as usize,
        None => false,
    }
}

// Another choice of stage 3 of the same cost, where stage 4 after its choice is this one.
fn stage_tie<R: Threads + Sync>(
    rt: &R,
    alloc: Global,
    submission: &Submission,
    states: &[UnitState],
    third: &Choice,
    fourth: &StageCert,
    workers: u32,
) -> Result<Option<Choice>, Memory>
    requires states { AreStates submission.now states.now }
    requires third { IsFeasibleChoice submission.now.declaration 3 states.now third.now }
    ensures { IfOk result (λ found. IfSome found
        (IsStageTie submission.now.declaration 3 states.now third.now)) }
{
    problem_choices();
    let Some(fourth) = &fourth.choice else {
        return Ok(None);
    };
    let first = problem_after(alloc, submission, 3, states)?;
    let both = problem_after(alloc, submission, 4, states)?;
    let next = problem_of_fourth(alloc, submission, states, third)?;
    let is_first = new_entrants(alloc, states)?;
    let found = tied_choice(
        rt, alloc, &first, third, &next, fourth, &both, &is_first, workers,
    )?;
    Ok(found)
}

// The problem of stage 4 after a choice of stage 3.
fn problem_of_fourth(
    alloc: Global,
    submission: &Submission,
    states: &[UnitState],
    third: &Choice,
) -> Result<Problem, Memory>
    requires { AreStates submission.now states.now }
{
    let before = Vec::from_slice(alloc, states)?;
    let choice = Some(Choice::new(Vec::from_slice(alloc, third.items())?));
    let after = after_stage(alloc, submission, 3, before, &choice)?;
    problem_after(alloc, submission, 4, &after)
}

// Of each unit that stage 4 has where stage 3 gives nothing, whether stage 3 has it too.
fn new_entrants(alloc: Global, states: &[UnitState]) -> Result<Vec<bool>, Memory> {
    let mut marks = Vec::new(alloc);
    for state in states {
        if is_due(4, state) {
            marks.push(is_due(3, state))?;
        }
    }
    Ok(marks)
}
