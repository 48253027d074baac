//! The stages of a season, one after the other.

ghost use Rattle.std.specs.Prelude.{◌≡◌, ◌+◌, ◌*◌, ◌≤◌, true, IfOk};
ghost use Rattle.cert_format.specs.Printable.{IsPrintableProof, IsWithinLimits};
ghost use Rattle.cert_format.specs.Spelling.{is_tried};
ghost use Rattle.cert_format.specs.declared.cert.Mark.TheVariants.{NotTried, Unsettled};
ghost use Rattle.search_workers.specs.Outcomes.{choice_count};
ghost use Rattle.series_model.specs.Stages.{AreStates};
ghost use Rattle.season_run.specs.Runs.{IsRun, IsStageRun, IsTriedRun, version_for};
ghost use Rattle.season_run.specs.Steps.{FitsSeason, IsNextStage};

use crate::stages::stage_cert;
use crate::ties::last_stages;
use crate::trials::settle_stage;
use cert_format::{Certificate, StageCert, StageList, line_counts};
use choice_problem::{Problem, fewer_vectors};
use series_model::laws::one_more_stage;
use series_model::{Submission, UnitState, after_stage, next_may_follow, states_of};
use slot_text::Memory;
use std::alloc::Global;
use std::thread::Threads;
use wasg_stages::problem_after;
use worker_gate::Gate;

/// The certificate of a season: each stage is allotted after those before it, by a search of at
/// most `budget` nodes with so many workers, each of which passes the gate before a visit.
///
/// Where stages 3 and 4 are OPTIMAL and stage 4 costs something, and the budget is above 64,
/// another choice of stage 3 of the same cost is looked for once (`tied_choice`), and taken where
/// stage 4 after it is OPTIMAL and costs less. Which of a stage's best choices is taken is in no
/// clause.
///
/// The certificate is valid, and of version 2, or 3 where some stage has a fixing. A stage may stay
/// OPEN where its search spends the budget: it then states a bound, and `settled_run` says with
/// which budget none does. A budget of at most 64 (`SMALL_BUDGET`) is spent on the search by visits
/// alone, with the vectors of that search; that it begins with the greedy choice is not in the
/// clauses.
pub fn run_season<R: Threads + Sync, G: Gate>(
    rt: &R,
    alloc: Global,
    submission: &Submission,
    budget: u32,
    workers: u32,
    gate: &G,
) -> Result<Certificate, Memory>
    requires budget { (1 ≤ budget) × (budget ≤ 1000000) }
    requires workers { (1 ≤ workers) × (workers ≤ 16) }
    ensures run { IfOk result (IsRun submission.now budget) }
{
    line_counts();
    one_more_stage();
    let mut states = states_of(alloc, submission)?;
    let mut follows = true;
    let mut stages = Vec::new(alloc);
    for stage in 1..3 {
        let cert = next_stage(
            rt, alloc, submission, stage, &states, follows, budget, workers, gate,
        )?;
        states = after_stage(alloc, submission, stage, states, &cert.choice)?;
        follows = next_may_follow(follows, stage, &cert.choice);
        stages.push(cert)?;
    }
    let last = last_stages(
        rt, alloc, submission, &states, follows, budget, workers, gate,
    )?;
    stages.push(last.third)?;
    stages.push(last.fourth)?;
    Ok(Certificate {
        version: version_for(&stages),
        stages: StageList::new(stages),
    })
}

// The version of the stages' certificate: 3 where some stage has a fixing, else 2.
fn version_for(stages: &[StageCert]) -> u32
    ensures { result ≡ version_for stages.now }
{
    for cert in stages {
        if cert.fixing.is_some() {
            return 3;
        }
    }
    2
}

// A stage, where it may follow the earlier ones.
pub(crate) fn next_stage<R: Threads + Sync, G: Gate>(
    rt: &R,
    alloc: Global,
    submission: &Submission,
    stage: u32,
    states: &[UnitState],
    follows: bool,
    budget: u32,
    workers: u32,
    gate: &G,
) -> Result<StageCert, Memory>
    requires states { AreStates submission.now states.now }
    requires budget { (1 ≤ budget) × (budget ≤ 1000000) }
    requires workers { (1 ≤ workers) × (workers ≤ 16) }
    ensures stage { IfOk result
        (λ c. IsNextStage submission.now.declaration stage states.now budget c follows) }
    ensures fits { IfOk result (λ c. FitsSeason c) }
{
    if follows {
        let cert = tried_stage(rt, alloc, submission, stage, states, budget, workers, gate)?;
        Ok(cert)
    } else {
        Ok(untried_stage(alloc))
    }
}

// A stage that is tried.
fn tried_stage<R: Threads + Sync, G: Gate>(
    rt: &R,
    alloc: Global,
    submission: &Submission,
    stage: u32,
    states: &[UnitState],
    budget: u32,
    workers: u32,
    gate: &G,
) -> Result<StageCert, Memory>
    requires states { AreStates submission.now states.now }
    requires budget { (1 ≤ budget) × (budget ≤ 1000000) }
    requires workers { (1 ≤ workers) × (workers ≤ 16) }
    ensures tried { IfOk result (λ c. is_tried c.mark ≡ true) }
    ensures run { IfOk result
        (λ c. IsTriedRun submission.now.declaration stage states.now budget c) }
    ensures fits { IfOk result (λ c. FitsSeason c) }
{
    let problem = problem_after(alloc, submission, stage, states)?;
    let cert = run_stage(rt, alloc, &problem, budget, workers, gate)?;
    Ok(cert)
}

/// Searches the problem of one stage, and gives the stage of a certificate that proves what was
/// found: by a search of at most `budget` nodes with so many workers, each of which passes the gate
/// before a visit. It is what `run_season` does with each stage that is tried, and serves any other
/// problem, as that of one more stage.
pub fn run_stage<R: Threads + Sync, G: Gate>(
    rt: &R,
    alloc: Global,
    problem: &Problem,
    budget: u32,
    workers: u32,
    gate: &G,
) -> Result<StageCert, Memory>
    requires budget { (1 ≤ budget) × (budget ≤ 1000000) }
    requires workers { (1 ≤ workers) × (workers ≤ 16) }
    ensures run { IfOk result (λ c. IsStageRun problem.now budget c) }
    ensures tried { IfOk result (λ c. is_tried c.mark ≡ true) }
    ensures printable { IfOk result (λ c. IsPrintableProof 3 c) }
    ensures limits { IfOk result (λ c. IsWithinLimits c) }
    // With a budget of at least twice the number of choices, less one, the stage is not OPEN.
    ensures settled { 2 * choice_count problem.now ≤ budget + 1 →
        IfOk result (λ c. c.mark ≡ Unsettled → ⊥) }
{
    fewer_vectors();
    let _resources = problem.resources();
    let _units = problem.units();
    let end = settle_stage(rt, alloc, problem, budget, workers, gate)?;
    let cert = stage_cert(alloc, problem, end)?;
    Ok(cert)
}

// A stage that is not tried.
fn untried_stage(alloc: Global) -> StageCert
    ensures mark { result.mark ≡ NotTried }
    ensures fits { FitsSeason result }
{
    StageCert::not_tried(alloc)
}
