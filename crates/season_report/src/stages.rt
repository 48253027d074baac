//! The lines of stages.

ghost use Rattle.std.specs.Prelude.{◌≡◌, ◌++◌, ◌≤◌, false, length, All, OnOk, IfSome, None};
ghost use Rattle.choice_problem.specs.declared.problems.TheConstants.{MOST_UNITS};
ghost use Rattle.capacity_windows.specs.Windows.{capacity_of, declared_resources};
ghost use Rattle.cert_format.specs.Spelling.{is_tried};
ghost use Rattle.window_counts.specs.Placed.{AreZero};
ghost use Rattle.series_model.specs.Stages.{AreStates, GivenFits, IsFeasibleChoice, after_stage};
ghost use Rattle.wasg_stages.specs.Valid.{IsValid};
ghost use Rattle.report_lines.specs.Peaks.{AreEarlier};
ghost use Rattle.season_report.specs.Decisions.{season_decided, states_before};
ghost use Rattle.season_report.specs.Reports.{cost_word, bound_words, mark_words, stage_line, tried_lines, stages_text, with_texts, stage_reasons, reasons_after};
ghost use Rattle.season_report.specs.Private.{IsTold, IsOpen, texts_of};

use crate::decided::Decided;
use crate::tallies::{of_stage, put_tally, tally_of};
use crate::tried::put_tried;
use cert_format::{Certificate, Mark, StageCert};
use report_lines::{put, put_tagged};
use season_days::Declaration;
use series_model::laws::{feasible_fits, one_more_stage};
use series_model::{Submission, UnitState, after_stage, states_of};
use slot_text::{Memory, put_number};
use std::alloc::Global;
use wasg_stages::laws::valid_choices;

// Appends what an allotment displaces, if there is one.
fn put_cost(alloc: Global, out: &mut Vec<u8>, cost: Option<u64>) -> Result<(), Memory>
    ensures { OnOk result (out.new.items ≡ out.old.items ++ cost_word cost) }
{
    match cost {
        Some(cost) => put_number(alloc, out, cost),
        None => put(out, b"NONE"),
    }
}

// Appends a bound, if there is one.
fn put_bound(alloc: Global, out: &mut Vec<u8>, bound: Option<u64>) -> Result<(), Memory>
    ensures { OnOk result (out.new.items ≡ out.old.items ++ bound_words bound) }
{
    match bound {
        Some(bound) => put_tagged(alloc, out, b" BOUND ", bound),
        None => Ok(()),
    }
}

// Appends the mark of a stage.
fn put_mark(alloc: Global, out: &mut Vec<u8>, block: &StageCert) -> Result<(), Memory>
    ensures { OnOk result (out.new.items ≡ out.old.items ++ mark_words block.now block.now.mark) }
{
    match block.mark {
        Mark::Optimal => {
            put(out, b"OPTIMAL ")?;
            put_cost(alloc, out, block.cost)
        }
        Mark::Infeasible => put(out, b"INFEASIBLE"),
        Mark::Unsettled => {
            put(out, b"OPEN ")?;
            put_cost(alloc, out, block.cost)?;
            put_bound(alloc, out, block.bound)
        }
        Mark::NotTried => put(out, b"NOT TRIED"),
    }
}

// Appends the line of a stage: its mark, and the tally of the units that were decided in it.
fn put_stage_line(
    alloc: Global,
    out: &mut Vec<u8>,
    declaration: &Declaration,
    units: &[Decided],
    stage: u32,
    block: &StageCert,
) -> Result<(), Memory>
    requires told { All (IsTold declaration.now) units.now }
    requires few { length units.now ≤ MOST_UNITS }
    ensures { OnOk result (out.new.items
        ≡ out.old.items ++ stage_line declaration.now units.now stage block.now) }
{
    let own = of_stage(alloc, units, stage)?;
    put_tagged(alloc, out, b"STAGE ", u64::from(stage))?;
    put(out, b" ")?;
    put_mark(alloc, out, block)?;
    put(out, b" ")?;
    put_tally(alloc, out, &tally_of(declaration, &own))?;
    put(out, b"\n")
}

// Appends what is told of a stage, and to the text of each unit its reasons; the loads then have
// what the stage gave too.
fn put_stage(
    alloc: Global,
    out: &mut Vec<u8>,
    reasons: &mut [Vec<u8>],
    submission: &Submission,
    units: &[Decided],
    stage: u32,
    states: &[UnitState],
    block: &StageCert,
    given: &mut [u32],
) -> Result<(), Memory>
    requires told { All (IsTold submission.now.declaration) units.now }
    requires few { length units.now ≤ MOST_UNITS }
    requires states { AreStates submission.now states.now }
    requires fresh { All (IsOpen stage) states.now }
    requires choice { IfSome block.now.choice
        (IsFeasibleChoice submission.now.declaration stage states.now) }
    requires untried { is_tried block.now.mark ≡ false → block.now.choice ≡ None }
    requires count { length reasons.old ≡ length states.now }
    requires loads { length given.old
        ≡ declared_resources (capacity_of submission.now.declaration) }
    requires earlier { AreEarlier submission.now.declaration states.now given.old }
    requires fits { GivenFits submission.now.declaration states.now }
    ensures text { OnOk result (out.new.items ≡ out.old.items
        ++ (stage_line submission.now.declaration units.now stage block.now
        ++ tried_lines submission.now.declaration stage states.now block.now
        (is_tried block.now.mark))) }
    ensures reasons { OnOk result (texts_of reasons.new ≡ with_texts (texts_of reasons.old)
        (stage_reasons submission.now.declaration stage states.now block.now.choice)) }
    ensures count { length reasons.new ≡ length reasons.old }
    ensures loads { length given.new ≡ length given.old }
    ensures given { OnOk result (AreEarlier submission.now.declaration
        (after_stage submission.now.declaration stage states.now block.now.choice) given.new) }
{
    put_stage_line(alloc, out, submission.declaration(), units, stage, block)?;
    if !block.mark.is_tried() {
        return Ok(());
    }
    put_tried(
        alloc,
        out,
        reasons,
        submission,
        stage,
        states,
        &block.choice,
        given,
    )?;
    Ok(())
}

/// Appends what is told of each stage, and to the text of each unit its reasons, stage by stage;
/// the loads, all 0 before, then have all that the stages gave.
///
/// Beside the texts one stage's problem is kept at a time. The time is that of
/// `wasg_stages::problem_after` for each stage, and that of the lines.
pub(crate) fn put_stages(
    alloc: Global,
    out: &mut Vec<u8>,
    reasons: &mut [Vec<u8>],
    submission: &Submission,
    cert: &Certificate,
    units: &[Decided],
    given: &mut [u32],
) -> Result<(), Memory>
    requires valid { IsValid submission.now cert.now }
    requires units { units.now ≡ season_decided submission.now cert.now }
    requires told { All (IsTold submission.now.declaration) units.now }
    requires few { length units.now ≤ MOST_UNITS }
    requires count { length reasons.old ≡ length submission.now.units }
    requires loads { length given.old
        ≡ declared_resources (capacity_of submission.now.declaration) }
    requires zeros { AreZero given.old }
    ensures text { OnOk result (out.new.items
        ≡ out.old.items ++ stages_text submission.now cert.now 1 cert.now.stages) }
    ensures reasons { OnOk result (texts_of reasons.new
        ≡ reasons_after submission.now cert.now 1 (texts_of reasons.old) cert.now.stages) }
    ensures count { OnOk result (length reasons.new ≡ length reasons.old) }
    ensures loads { OnOk result (length given.new ≡ length given.old) }
    ensures given { OnOk result (AreEarlier submission.now.declaration
        (states_before submission.now cert.now 5) given.new) }
{
    valid_choices();
    feasible_fits();
    one_more_stage();
    let _keeps = submission.declaration();
    let mut states = states_of(alloc, submission)?;
    let mut stage = 1;
    for block in cert.stages.items() {
        put_stage(
            alloc, out, reasons, submission, units, stage, &states, block, given,
        )?;
        states = after_stage(alloc, submission, stage, states, &block.choice)?;
        stage += 1;
    }
    Ok(())
}
