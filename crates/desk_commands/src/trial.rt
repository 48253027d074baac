//! A generated season run in memory, and its certificate checked.

ghost use Rattle.std.specs.Prelude.{◌≡◌, ◌≤◌, ◌↔◌, [], ℕ, length, IfOk, IsTrue};
ghost use Rattle.std.specs.String.{string_bytes};
ghost use Rattle.choice_problem.specs.declared.problems.TheConstants.{MOST_UNITS};
ghost use Rattle.cert_format.specs.Printable.{IsPrintable};
ghost use Rattle.wasg_stages.specs.Valid.{IsValid};
ghost use Rattle.season_maker.specs.Texts.{generated_capacity, generated_requests};
ghost use Rattle.season_days.specs.Capacity.{IsDeclaration};
ghost use Rattle.capacity_file.specs.Declares.{IsCapacityFile};
ghost use Rattle.desk_commands.specs.Judgements.{IsSeasonOf};
ghost use Rattle.desk_commands.specs.declared.files.TheConstants.{LONGEST_FILE};
ghost use Rattle.desk_commands.specs.Jobs.{IsTrial, trial_text};

use crate::season::{judge_capacity, judge_requests};
use crate::stage_lines::{mark_lines, marks_status, node_total};
use crate::stop::{Answer, Stop};
use cert_checker::{Verdict, check};
use cert_format::{Certificate, line_counts};
use season_days::Declaration;
use season_maker::laws::{capacity_is_read, requests_are_read, sizes, submission_is_taken};
use season_maker::make_season;
use season_run::{run_season, settled_run};
use series_model::Submission;
use slot_text::Memory;
use std::alloc::Global;
use std::thread::Threads;
use worker_gate::Gate;

/// The budget of nodes of each stage of a trial.
pub(crate) const TRIAL_NODES: u32 = 10_000;

/// Makes a season, runs it with one worker, checks its certificate, and says so.
pub(crate) fn trial<R: Threads + Sync, G: Gate>(
    rt: &R,
    alloc: Global,
    number: u32,
    units: u32,
    gate: &G,
) -> Result<Answer, Memory>
    requires { units ≤ MOST_UNITS }
    ensures { IfOk result (λ a. IsTrial number units [] a.status a.text.items) }
{
    let submission = generate(alloc, number, units)?;
    let answer = try_season(rt, alloc, &submission, gate)?;
    Ok(answer)
}

/// Runs a season with one worker, checks its certificate, and says so.
fn try_season<R: Threads + Sync, G: Gate>(
    rt: &R,
    alloc: Global,
    submission: &Submission,
    gate: &G,
) -> Result<Answer, Memory>
    ensures { IfOk result (λ a. (number units : ℕ) →
        IsSeasonOf (generated_capacity units) (generated_requests number units) submission.now →
        IsTrial number units [] a.status a.text.items) }
{
    settled_run();
    let proved = run_season(rt, alloc, submission, TRIAL_NODES, 1, gate)?;
    if !is_valid(alloc, submission, &proved)? {
        unreachable!()
    }
    let text = trial_text(alloc, &proved)?;
    let status = marks_status(proved.stages.items());
    Ok(Answer {
        status,
        text: text.into_bytes(),
    })
}

/// Whether a certificate is valid for a season, by the checker.
fn is_valid(
    alloc: Global,
    submission: &Submission,
    certificate: &Certificate,
) -> Result<bool, Memory>
    requires { IsPrintable certificate.now }
    ensures { IfOk result (λ yes. IsTrue yes ↔ IsValid submission.now certificate.now) }
{
    match check(alloc, submission, certificate)? {
        Verdict::Yes => Ok(true),
        Verdict::No { .. } => Ok(false),
    }
}

/// What is printed of a certificate that was checked.
fn trial_text(alloc: Global, certificate: &Certificate) -> Result<String, Memory>
    requires { IsPrintable certificate.now }
    ensures { IfOk result (λ text. string_bytes text ≡ trial_text certificate.now) }
{
    line_counts();
    let stages = certificate.stages.items();
    let lines = mark_lines(alloc, stages)?;
    let nodes = node_total(stages);
    let text = format!(in alloc; "{lines}NODES {nodes}\nCHECK YES\n")?;
    Ok(text)
}

/// The season that is made of a number and a count of units.
fn generate(alloc: Global, number: u32, units: u32) -> Result<Submission, Memory>
    requires { units ≤ MOST_UNITS }
    ensures { IfOk result (λ s.
        IsSeasonOf (generated_capacity units) (generated_requests number units) s) }
{
    sizes();
    let (capacity, requests) = make_season(alloc, number, units)?;
    let declaration = declare(alloc, units, &capacity)?;
    let submission = submit(alloc, number, units, declaration, &requests)?;
    Ok(submission)
}

/// The declaration of the capacity file of a generated season.
fn declare(alloc: Global, units: u32, bytes: &[u8]) -> Result<Declaration, Memory>
    requires few { units ≤ MOST_UNITS }
    requires made { bytes.now ≡ generated_capacity units }
    requires short { length bytes.now ≤ LONGEST_FILE }
    ensures declared { IfOk result (λ d. IsCapacityFile (generated_capacity units) d) }
    ensures keeps { IfOk result (λ d. IsDeclaration d) }
{
    capacity_is_read();
    match judge_capacity(alloc, 0, bytes) {
        Ok(declaration) => Ok(declaration),
        Err(stop) => Err(want_of_memory(stop)),
    }
}

/// The submission of the requests of a generated season.
fn submit(
    alloc: Global,
    number: u32,
    units: u32,
    declaration: Declaration,
    bytes: &[u8],
) -> Result<Submission, Memory>
    requires few { units ≤ MOST_UNITS }
    requires declared { IsCapacityFile (generated_capacity units) declaration }
    requires keeps { IsDeclaration declaration }
    requires made { bytes.now ≡ generated_requests number units }
    requires short { length bytes.now ≤ LONGEST_FILE }
    ensures { IfOk result (λ s.
        IsSeasonOf (generated_capacity units) (generated_requests number units) s) }
{
    capacity_is_read();
    requests_are_read();
    submission_is_taken();
    match judge_requests(alloc, 1, declaration, bytes) {
        Ok(submission) => Ok(submission),
        Err(stop) => Err(want_of_memory(stop)),
    }
}

/// A generated season is refused for nothing, so a stop is for want of memory.
fn want_of_memory(stop: Stop) -> Memory
    requires { stop ≡ Stop.Memory }
{
    let _stop = stop;
    Memory
}
