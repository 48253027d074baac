//! The waiting stage: its search, and the check of a stage that anyone may have made.

ghost use Rattle.std.specs.Prelude.{◌≡◌, ◌↔◌, ◌+◌, ◌*◌, ◌≤◌, All, IfOk, length};
ghost use Rattle.scr_reader.specs.Printed.{LineFits};
ghost use Rattle.cert_format.specs.Printable.{IsPrintableExtra, IsWithinLimits};
ghost use Rattle.cert_format.specs.declared.cert.Mark.TheVariants.{Unsettled};
ghost use Rattle.search_workers.specs.Outcomes.{choice_count};
ghost use Rattle.season_run.specs.Runs.{IsStageRun};
ghost use Rattle.cert_checker.specs.declared.verdict.Verdict.TheVariants.{Yes};
ghost use Rattle.wait_list.specs.Claims.{IsWaitingProof, IsWaitingCheck, WaitingMarkHolds};

use crate::laws::{one_waiting_line, waiting_marks};
use crate::problem::waiting_problem;
use crate::waiting::Waiting;
use cert_checker::{Verdict, check_stage};
use cert_format::{StageCert, line_counts};
use choice_problem::Problem;
use holding_book::Book;
use season_run::run_stage;
use slot_text::Memory;
use std::alloc::Global;
use std::thread::Threads;
use worker_gate::Gate;

/// Searches the problem of the waiting stage as a stage of a season is searched: of at most
/// `budget` nodes, with so many workers, each of which passes the gate before a visit. What it
/// gives can be printed as one more stage, and has a proof.
pub fn reclear<R: Threads + Sync, G: Gate>(
    rt: &R,
    alloc: Global,
    problem: &Problem,
    budget: u32,
    workers: u32,
    gate: &G,
) -> Result<StageCert, Memory>
    requires budget { (1 ≤ budget) × (budget ≤ 1000000) }
    requires workers { (1 ≤ workers) × (workers ≤ 16) }
    ensures run { IfOk result (λ c. IsStageRun problem.now budget c) }
    ensures printable { IfOk result (λ c. IsPrintableExtra c) }
    ensures limits { IfOk result (λ c. IsWithinLimits c) }
    // With a budget of at least twice the number of choices, less one, it is not OPEN.
    ensures settled { 2 * choice_count problem.now ≤ budget + 1 →
        IfOk result (λ c. c.mark ≡ Unsettled → ⊥) }
{
    line_counts();
    let cert = run_stage(rt, alloc, problem, budget, workers, gate)?;
    Ok(cert)
}

/// Checks a stage of the waiting list of a book, whoever made it, as the text of one more stage:
/// the line of its mark is the second one.
///
/// `Yes` exactly where it has a proof; then what its mark says is so. Else `No` with the first
/// failing line and its first reason.
pub fn recheck(
    alloc: Global,
    book: &Book,
    waiting: &Waiting,
    cert: &StageCert,
) -> Result<Verdict, Memory>
    requires lines { All (LineFits book.now.book.declaration.season) waiting.now }
    requires printable { IsPrintableExtra cert.now }
    ensures exact { IfOk result
        (λ verdict. IsWaitingCheck book.now.book waiting.now cert.now verdict) }
    ensures proof { IfOk result
        (λ verdict. verdict ≡ Yes ↔ IsWaitingProof book.now.book waiting.now cert.now) }
    ensures mark { IfOk result
        (λ verdict. verdict ≡ Yes → WaitingMarkHolds book.now.book waiting.now cert.now) }
{
    waiting_marks();
    one_waiting_line();
    let problem = waiting_problem(alloc, book, waiting)?;
    let verdict = check_stage(alloc, &problem, cert, 2)?;
    Ok(verdict)
}
