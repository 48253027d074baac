//! Laws of waiting lists. Each function does nothing; its contract is the law.

ghost use Rattle.std.specs.Prelude.{◌≡◌, ◌≤◌, ℕ, List, length, map, IfSome};
ghost use Rattle.scr_reader.specs.declared.line.Line.{Line as LineValue};
ghost use Rattle.choice_problem.specs.Problems.{ProblemView};
ghost use Rattle.series_model.specs.declared.times.Times.{Times as TimesValue};
ghost use Rattle.series_model.specs.declared.times.Times.TheVariants.{Refused};
ghost use Rattle.cert_format.specs.declared.cert.StageCert.{StageCert as StageCertValue};
ghost use Rattle.cert_format.specs.declared.cert.Mark.TheVariants.{Infeasible};
ghost use Rattle.cert_format.specs.declared.cert.TheConstants.{MOST_SEASON_BYTES};
ghost use Rattle.cert_format.specs.Spelling.{IsExtra, extra_spelling};
ghost use Rattle.cert_format.specs.Printable.{IsPrintableExtra, IsWithinLimits};
ghost use Rattle.cert_checker.specs.declared.verdict.Reason.{Reason as ReasonValue};
ghost use Rattle.holding_book.specs.Books.{SlotBook, BookFits};
ghost use Rattle.wait_list.specs.Claims.{named_times, IsWaitingAllotment, FitsBesideBook, IsWaitingProof, WaitingMarkHolds, WaitingFailsAt};

use cert_checker::same_tests;
use cert_format::season_bytes;
use wasg_stages::laws::{problem_choices, proven_claims};

/// A proof of the waiting stage shows what its mark claims: the allotment of an OPTIMAL one
/// displaces least of all that fit what the book leaves, and none of an OPEN one displaces less
/// than its bound.
pub fn waiting_marks()
    ensures { (b : SlotBook) (lines : List LineValue) (c : StageCertValue) →
        IsWaitingProof b lines c → WaitingMarkHolds b lines c }
{
    proven_claims();
}

/// A stage that has a proof has no failing line, and else at most one line is the first that fails,
/// with one first reason.
pub fn one_waiting_line()
    ensures never { (b : SlotBook) (lines : List LineValue) (c : StageCertValue) (line : ℕ)
        (reason : ReasonValue) →
        IsPrintableExtra c → IsWaitingProof b lines c → WaitingFailsAt b lines c line reason → ⊥ }
    ensures one { (b : SlotBook) (lines : List LineValue) (c : StageCertValue) (line other : ℕ)
        (reason why : ReasonValue) →
        WaitingFailsAt b lines c line reason → WaitingFailsAt b lines c other why →
        (line ≡ other) × (reason ≡ why) }
{
    same_tests();
}

/// One more stage within the limits of a season's stages is spelled in at most 512 MiB, as many
/// bytes as a certificate that is read may have.
pub fn extra_bytes()
    ensures { (c : StageCertValue) → IsExtra c → IsWithinLimits c →
        length (extra_spelling c) ≤ MOST_SEASON_BYTES }
{
    season_bytes();
}

/// What the waiting stage allots fits beside the book: all holdings, those that are offered too,
/// and the allotted lines together pass no limit. So does the choice of a stage that has a proof.
pub fn allotted_fit()
    ensures allotment { (b : SlotBook) (lines : List LineValue) (times : List TimesValue) →
        BookFits b → IsWaitingAllotment b lines times → FitsBesideBook b lines times }
    ensures proved { (b : SlotBook) (lines : List LineValue) (c : StageCertValue) →
        BookFits b → IsWaitingProof b lines c →
        IfSome c.choice (λ numbers. FitsBesideBook b lines (named_times b lines numbers)) }
{
    problem_choices();
}

/// To refuse all lines is feasible, so the waiting stage is never INFEASIBLE.
pub fn all_may_be_refused()
    ensures feasible { (b : SlotBook) (lines : List LineValue) →
        IsWaitingAllotment b lines (map (λ _. Refused) lines) }
    ensures never { (b : SlotBook) (lines : List LineValue) (c : StageCertValue) →
        IsWaitingProof b lines c → c.mark ≡ Infeasible → ⊥ }
{
    waiting_marks();
}
