//! A stage that was tried: the reasons of its units, or, where it has no allotment, the windows
//! that rule out all.

ghost use Rattle.std.specs.Prelude.{◌≡◌, ◌++◌, ◌∷◌, ◌<◌, ◌≤◌, ◌^◌, All, List, length, drop, OnOk, IfOk, IfSome, Some};
ghost use Rattle.choice_problem.specs.declared.problems.TheConstants.{MOST_UNITS};
ghost use Rattle.capacity_windows.specs.Windows.{capacity_of, declared_resources};
ghost use Rattle.series_model.specs.Units.{UnitFits};
ghost use Rattle.series_model.specs.Stages.{AreStates, AreFitting, IsFeasibleChoice, GivenFits, after_stage, stage_units, stage_times};
ghost use Rattle.series_model.specs.declared.state.UnitState.{UnitState as UnitStateValue};
ghost use Rattle.wasg_stages.specs.StageProblems.{IsStageProblem};
ghost use Rattle.report_lines.specs.Peaks.{AreEarlier};
ghost use Rattle.season_report.specs.Rows.{allotted_stage, allotted_reasons};
ghost use Rattle.season_report.specs.Reports.{with_texts, stage_reasons, none_lines};
ghost use Rattle.season_report.specs.Private.{IsToldStage, told_stage, IsOpen, AreAll, texts_of, first_reasons, place_after};

use crate::loads::{add_counts, no_counts};
use crate::rows::put_unit_reasons;
use crate::told::Tried;
use choice_problem::{Choice, Problem};
use report_lines::put_over;
use season_days::Declaration;
use series_model::{Submission, UnitState, is_due};
use slot_text::Memory;
use std::alloc::Global;
use wasg_stages::laws::problem_choices;
use wasg_stages::problem_after;
use window_counts::{Counts, add_choice};

// Appends the reasons of a unit, if it is one of the stage's, and answers the place of the next.
fn put_state_reasons(
    alloc: Global,
    text: &mut Vec<u8>,
    tried: Tried<'_>,
    states: &[UnitState],
    choice: &[u32],
    place: u32,
    state: &UnitState,
    counts: &mut Counts,
) -> Result<u32, Memory>
    requires told { IsToldStage tried states.now }
    requires fits { UnitFits tried.declaration.now.season state.now.unit }
    requires choice { IsFeasibleChoice tried.declaration.now tried.stage states.now choice.now }
    requires all { AreAll
        (told_stage tried states.now choice.now) counts.old }
    requires few { place < 2 ^ 31 }
    requires at { (rest : List UnitStateValue) × (drop place (stage_units tried.stage states.now)
        ≡ stage_units tried.stage (state.now ∷ rest)) }
    ensures text { OnOk result (text.new.items ≡ text.old.items ++ first_reasons
        (told_stage tried.entry states.now choice.now) place state.now
        (drop place
        (stage_times tried.entry.declaration.now tried.entry.stage states.now choice.now))) }
    ensures place { IfOk result (λ next. next ≡ place_after tried.entry.stage place state.now) }
    ensures counts { OnOk result (counts.new ≡ counts.old) }
{
    if !is_due(tried.stage, state) {
        return Ok(place);
    }
    put_unit_reasons(
        alloc,
        text,
        tried,
        states,
        choice,
        place,
        &state.unit,
        counts,
    )?;
    Ok(place + 1)
}

// Appends the reasons of each unit of a stage to its text.
fn put_reasons(
    alloc: Global,
    reasons: &mut [Vec<u8>],
    tried: Tried<'_>,
    states: &[UnitState],
    choice: &[u32],
    counts: &mut Counts,
) -> Result<(), Memory>
    requires told { IsToldStage tried states.now }
    requires fits { AreFitting tried.declaration.now states.now }
    requires choice { IsFeasibleChoice tried.declaration.now tried.stage states.now choice.now }
    requires all { AreAll
        (told_stage tried states.now choice.now) counts.old }
    requires count { length reasons.old ≡ length states.now }
    requires few { length states.now ≤ MOST_UNITS }
    ensures texts { OnOk result (texts_of reasons.new ≡ with_texts (texts_of reasons.old)
        (allotted_reasons
        (told_stage tried.entry states.now choice.now))) }
    ensures count { length reasons.new ≡ length reasons.old }
    ensures counts { OnOk result (counts.new ≡ counts.old) }
{
    let mut place = 0;
    for i in 0..states.len() {
        place = put_state_reasons(
            alloc,
            &mut reasons[i],
            tried,
            states,
            choice,
            place,
            &states[i],
            counts,
        )?;
    }
    Ok(())
}

// The counts of what a choice of a stage uses.
fn count_taken(
    alloc: Global,
    declaration: &Declaration,
    stage: u32,
    problem: &Problem,
    states: &[UnitState],
    taken: &[u32],
) -> Result<Counts, Memory>
    requires problem { IsStageProblem declaration.now stage states.now problem.now }
    requires choice { IsFeasibleChoice declaration.now stage states.now taken.now }
    ensures { IfOk result
        (λ counts. AreAll (allotted_stage declaration.now stage states.now taken.now) counts) }
{
    problem_choices();
    let mut counts = no_counts(alloc, problem.resources())?;
    add_choice(problem, taken, &mut counts);
    Ok(counts)
}

// Appends the reasons of each unit of a stage to its text, and then the loads have what the stage
// gave too.
fn put_allotted(
    alloc: Global,
    reasons: &mut [Vec<u8>],
    submission: &Submission,
    stage: u32,
    problem: &Problem,
    states: &[UnitState],
    choice: &Choice,
    given: &mut [u32],
) -> Result<(), Memory>
    requires states { AreStates submission.now states.now }
    requires fresh { All (IsOpen stage) states.now }
    requires problem { IsStageProblem submission.now.declaration stage states.now problem.now }
    requires choice { IsFeasibleChoice submission.now.declaration stage states.now choice.now }
    requires count { length reasons.old ≡ length states.now }
    requires loads { length given.old
        ≡ declared_resources (capacity_of submission.now.declaration) }
    requires earlier { AreEarlier submission.now.declaration states.now given.old }
    requires fits { GivenFits submission.now.declaration states.now }
    ensures reasons { OnOk result (texts_of reasons.new ≡ with_texts (texts_of reasons.old)
        (stage_reasons submission.now.declaration stage states.now (Some choice.now))) }
    ensures count { length reasons.new ≡ length reasons.old }
    ensures loads { length given.new ≡ length given.old }
    ensures given { OnOk result (AreEarlier submission.now.declaration
        (after_stage submission.now.declaration stage states.now (Some choice.now)) given.new) }
{
    let declaration = submission.declaration();
    let windows = submission.windows();
    let taken = choice.items();
    let mut counts = count_taken(alloc, declaration, stage, problem, states, taken)?;
    let tried = Tried {
        declaration,
        windows,
        stage,
        problem,
        earlier: given,
    };
    put_reasons(alloc, reasons, tried, states, taken, &mut counts)?;
    add_counts(given, &counts);
    Ok(())
}

/// Appends what is told of a stage that was tried: the reasons of each of its units to the text of
/// that unit, or to `out` the windows that rule out all allotments. `given` has the loads of what
/// earlier stages gave, and then those of what this one gave too.
pub(crate) fn put_tried(
    alloc: Global,
    out: &mut Vec<u8>,
    reasons: &mut [Vec<u8>],
    submission: &Submission,
    stage: u32,
    states: &[UnitState],
    choice: &Option<Choice>,
    given: &mut [u32],
) -> Result<(), Memory>
    requires states { AreStates submission.now states.now }
    requires fresh { All (IsOpen stage) states.now }
    requires choice { IfSome choice.now
        (IsFeasibleChoice submission.now.declaration stage states.now) }
    requires count { length reasons.old ≡ length states.now }
    requires loads { length given.old
        ≡ declared_resources (capacity_of submission.now.declaration) }
    requires earlier { AreEarlier submission.now.declaration states.now given.old }
    requires fits { GivenFits submission.now.declaration states.now }
    ensures text { OnOk result (out.new.items ≡ out.old.items
        ++ none_lines submission.now.declaration stage states.now choice.now) }
    ensures reasons { OnOk result (texts_of reasons.new ≡ with_texts (texts_of reasons.old)
        (stage_reasons submission.now.declaration stage states.now choice.now)) }
    ensures count { length reasons.new ≡ length reasons.old }
    ensures loads { length given.new ≡ length given.old }
    ensures given { OnOk result (AreEarlier submission.now.declaration
        (after_stage submission.now.declaration stage states.now choice.now) given.new) }
{
    let problem = problem_after(alloc, submission, stage, states)?;
    match choice {
        Some(choice) => {
            put_allotted(
                alloc, reasons, submission, stage, &problem, states, choice, given,
            )?;
            Ok(())
        }
        None => {
            put_over(alloc, out, submission, stage, states, &problem, given)?;
            Ok(())
        }
    }
}
