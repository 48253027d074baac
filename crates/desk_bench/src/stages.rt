//! The problems of the four stages of a season.

ghost use Rattle.std.specs.Prelude.{IfOk};
ghost use Rattle.series_model.specs.Stages.{AreStates};

use crate::report::{Size, now, print_row, step};
use crate::turnarounds::{busy_line, submission};
use choice_problem::{Choice, Problem};
use series_model::{Submission, UnitState, after_stage, states_of};
use slot_text::Memory;
use std::alloc::Global;
use std::time::Instant;
use wasg_stages::problem_after;

// How many daily turnarounds, and how many capacity lines.
fn scale_of(size: Size) -> (u32, u32) {
    match size {
        Size::Short => (10, 2),
        Size::Full => (500, 16),
    }
}

/// The problem of stage 4 of so many turnarounds under so many of these capacity lines, where no
/// unit got anything before.
pub fn last_problem(
    alloc: Global,
    units: u32,
    codes: [u8; 4],
    lines: u32,
    line: &[u8],
) -> Result<Problem, Memory> {
    let made = submission(alloc, units, codes, lines, line)?;
    last_of(alloc, &made)
}

/// The problem of stage 4 of a submission, where no unit got anything before.
pub fn last_of(alloc: Global, made: &Submission) -> Result<Problem, Memory> {
    let states = states_of(alloc, made)?;
    problem_after(alloc, made, 4, &states)
}

/// The problem of a season of new requests: 625 alternatives a unit, which name 50 parts.
pub fn new_requests(alloc: Global, size: Size) -> Result<Problem, Memory> {
    let (units, lines) = scale_of(size);
    last_problem(alloc, units, *b"NNNN", lines, busy_line(size))
}

/// Makes the problems of the four stages of a season of daily turnarounds, one after the other,
/// where each unit gets its first alternative: once of new requests alone, and once of historic
/// ones, new entrants and other new requests. Prints how many units, alternatives and parts each
/// problem has.
pub fn run(rt: &HostRuntime, alloc: Global, size: Size) -> anyhow::Result<()> {
    season(rt, alloc, size, *b"NNNN")?;
    season(rt, alloc, size, *b"FBNN")
}

fn season(rt: &HostRuntime, alloc: Global, size: Size, codes: [u8; 4]) -> anyhow::Result<()> {
    let (units, lines) = scale_of(size);
    let start = now(rt);
    let made = submission(alloc, units, codes, lines, busy_line(size))?;
    time_stages(rt, alloc, size, &made, start)
}

fn time_stages(
    rt: &HostRuntime,
    alloc: Global,
    size: Size,
    made: &Submission,
    start: Option<Instant>,
) -> anyhow::Result<()> {
    step(rt, size, "reading", start)?;
    let start = now(rt);
    four_stages(rt, alloc, made)?;
    step(rt, size, "four stages", start)
}

// The stages of a submission, one after the other.
fn four_stages(rt: &HostRuntime, alloc: Global, made: &Submission) -> anyhow::Result<()> {
    let mut states = states_of(alloc, made)?;
    for stage in 1..5 {
        states = one_stage(rt, alloc, made, stage, states)?;
    }
    Ok(())
}

// Makes the problem of a stage; answers what the units have after it.
fn one_stage(
    rt: &HostRuntime,
    alloc: Global,
    made: &Submission,
    stage: u32,
    states: Vec<UnitState>,
) -> anyhow::Result<Vec<UnitState>>
    requires { AreStates made.now states.items }
    ensures { IfOk result (λ after. AreStates made.now after.items) }
{
    let choice = chosen(rt, alloc, made, stage, &states)?;
    Ok(after_stage(alloc, made, stage, states, &choice)?)
}

// The choice of first alternatives of the problem of a stage.
fn chosen(
    rt: &HostRuntime,
    alloc: Global,
    made: &Submission,
    stage: u32,
    states: &[UnitState],
) -> anyhow::Result<Option<Choice>>
    requires { AreStates made.now states.now }
{
    let problem = problem_after(alloc, made, stage, states)?;
    print_counts(rt, alloc, stage, &problem)
}

// Prints how many units, alternatives and parts a problem has, and makes the choice of their first
// alternatives.
fn print_counts(
    rt: &HostRuntime,
    alloc: Global,
    stage: u32,
    problem: &Problem,
) -> anyhow::Result<Option<Choice>> {
    let mut alts = 0_u64;
    let mut parts = 0_u64;
    for unit in 0..problem.units() {
        alts = alts.saturating_add(u64::from(problem.alts(unit)));
        parts = parts.saturating_add(u64::from(problem.parts(unit)));
    }
    let numbers = [
        ("stage", u64::from(stage)),
        ("units", u64::from(problem.units())),
        ("alternatives", alts),
        ("parts", parts),
        ("resources", u64::from(problem.resources())),
    ];
    print_row(rt, "stages", &numbers)?;
    Ok(Some(first_alternatives(alloc, problem)?))
}

/// The first alternative of each unit.
pub fn first_alternatives(alloc: Global, problem: &Problem) -> Result<Choice, Memory> {
    Ok(Choice::new(vec![in alloc; 0; problem.units() as usize]?))
}
