//! Checks of certificates and of one stage.

ghost use Rattle.std.specs.Prelude.{◌≡◌, ◌↔◌, ◌+◌, ◌<◌, ◌≤◌, ◌^◌, ℕ, true, IfOk, length};
ghost use Rattle.cert_format.specs.Printable.{IsPrintable, IsPrintableExtra, IsPrintableProof, IsPrintableStage};
ghost use Rattle.cert_format.specs.Proofs.{IsProof};
ghost use Rattle.cert_format.specs.Spelling.{is_tried, proof_lines, stage_lines};
ghost use Rattle.cert_format.specs.declared.cert.TheConstants.{MOST_LINES};
ghost use Rattle.series_model.specs.Stages.{AreStates};
ghost use Rattle.wasg_stages.specs.Valid.{IsValid, MarksHold};
ghost use Rattle.cert_checker.specs.Verdicts.{IsStageVerdict};
ghost use Rattle.cert_checker.specs.Certificates.{IsCheck};
ghost use Rattle.cert_checker.specs.Blocks.{IsBlockVerdict};
ghost use Rattle.cert_checker.specs.declared.verdict.Verdict.TheVariants.{Yes};

use crate::laws::one_verdict;
use crate::lines::{Judged, check_lines};
use crate::verdict::{Reason, Verdict};
use cert_format::{Certificate, StageCert};
use choice_problem::Problem;
use series_model::laws::one_more_stage;
use series_model::{Submission, UnitState, after_stage, next_may_follow, states_of};
use slot_text::Memory;
use std::alloc::Global;
use wasg_stages::laws::valid_marks;
use wasg_stages::problem_after;

/// Checks one stage on its problem; `first` is the number of the line of its mark.
pub fn check_stage(
    alloc: Global,
    problem: &Problem,
    cert: &StageCert,
    first: u32,
) -> Result<Verdict, Memory>
    requires stage { IsPrintableExtra cert.now }
    requires lines { first + (length (proof_lines cert.now) + 1) ≤ MOST_LINES }
    ensures verdict { IfOk result (λ verdict. IsStageVerdict problem.now cert.now first verdict) }
    // Yes alone implies a proof of the stage, whoever made it.
    ensures proof { IfOk result (λ verdict. verdict ≡ Yes → IsProof problem.now cert.now) }
{
    let judged = check_lines(alloc, problem, cert, first)?;
    Ok(judged.verdict)
}

/// Checks a certificate of a submission, whoever made it.
///
/// `Yes` exactly where it is valid, and then each OPTIMAL stage has a least allotment, each
/// INFEASIBLE stage has none, and no feasible allotment of an OPEN stage displaces less than its
/// bound. Else `No` with the first failing line and its first reason. Each certificate that was
/// read can be printed, so it can be checked.
///
/// Each stage's problem is made once, and where the stage has a fixing, what it leaves, in as much
/// memory again: its vector is priced for that, at one step an alternative. Else a vector is priced
/// when a node of the stage first names it. Then a split costs one step; a leaf one for each change
/// of a range since a node last named its vector, and one an alternative of each range that
/// differs. A node that names a resource costs as much for the changes since one last named that
/// resource, but of each range that differs only the alternatives that use it, and the first such
/// node one step a unit. What is kept of resources is at most 2^21 units' ranges and least uses, 24
/// MiB; where another resource has the place of this one, the node costs one step for each unit
/// that a split above or before it names, and one an alternative in range that uses the resource.
/// Places are for resources that nodes name, each once, and before the walk these are sorted.
/// Beside the problem and these there are the tables and what `price_table` takes while it makes
/// one, a copy of the ranges for each vector that is named, a few numbers a node, and one number a
/// resource while a stage's choice is summed up. Nothing recurses on the depth of a tree.
pub fn check(alloc: Global, submission: &Submission, cert: &Certificate) -> Result<Verdict, Memory>
    requires { IsPrintable cert.now }
    ensures exact { IfOk result (λ verdict. IsCheck submission.now cert.now verdict) }
    ensures valid { IfOk result (λ verdict. verdict ≡ Yes ↔ IsValid submission.now cert.now) }
    ensures marks { IfOk result
        (λ verdict. verdict ≡ Yes → MarksHold submission.now cert.now) }
{
    one_verdict();
    valid_marks();
    let verdict = check_blocks(alloc, submission, cert)?;
    Ok(verdict)
}

// Checks the lines of a stage that was tried and may be, the first of which has a number.
fn check_tried(
    alloc: Global,
    submission: &Submission,
    stage: u32,
    states: &[UnitState],
    cert: &StageCert,
    first: u32,
) -> Result<Judged, Memory>
    requires states { AreStates submission.now states.now }
    requires tried { is_tried cert.now.mark ≡ true }
    requires printable { (version : ℕ) × IsPrintableProof version cert.now }
    requires lines { first + (length (proof_lines cert.now) + 1) < 2 ^ 32 }
    ensures { IfOk result (λ judged. IsBlockVerdict submission.now.declaration stage states.now true
        first cert.now judged.verdict judged.next) }
{
    let problem = problem_after(alloc, submission, stage, states)?;
    let judged = check_lines(alloc, &problem, cert, first)?;
    Ok(judged)
}

// Checks the lines of a stage, the first of which has a number.
fn check_block(
    alloc: Global,
    submission: &Submission,
    stage: u32,
    states: &[UnitState],
    follows: bool,
    cert: &StageCert,
    first: u32,
) -> Result<Judged, Memory>
    requires states { AreStates submission.now states.now }
    requires printable { (version : ℕ) × IsPrintableStage version cert.now }
    requires lines { first + length (stage_lines stage cert.now) < 2 ^ 32 }
    ensures { IfOk result (λ judged. IsBlockVerdict submission.now.declaration stage states.now
        follows first cert.now judged.verdict judged.next) }
{
    let tried = cert.mark.is_tried();
    if tried != follows {
        return Ok(Judged::refused(first, Reason::Mark));
    }
    if !tried {
        return Ok(Judged::passed(first + 1));
    }
    check_tried(alloc, submission, stage, states, cert, first)
}

// Checks the stages, one after the other.
fn check_blocks(
    alloc: Global,
    submission: &Submission,
    cert: &Certificate,
) -> Result<Verdict, Memory>
    requires { IsPrintable cert.now }
    ensures { IfOk result (λ verdict. IsCheck submission.now cert.now verdict) }
{
    one_more_stage();
    let mut states = states_of(alloc, submission)?;
    let mut follows = true;
    let mut line = 2;
    let mut stage = 1;
    for block in cert.stages.items() {
        let judged = check_block(alloc, submission, stage, &states, follows, block, line)?;
        if judged.verdict != Verdict::Yes {
            return Ok(judged.verdict);
        }
        states = after_stage(alloc, submission, stage, states, &block.choice)?;
        follows = next_may_follow(follows, stage, &block.choice);
        line = judged.next;
        stage += 1;
    }
    Ok(Verdict::Yes)
}
