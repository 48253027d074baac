//! Laws of verdicts. Each function does nothing; its contract is the law.

ghost use Rattle.std.specs.Prelude.{◌≡◌, ℕ, List, length, true};
ghost use Rattle.season_days.specs.declared.declaration.Declaration.{Declaration as DeclarationValue};
ghost use Rattle.choice_problem.specs.Problems.{ProblemView};
ghost use Rattle.choice_problem.specs.Alike.{AreAlike};
ghost use Rattle.cert_format.specs.declared.cert.StageCert.{StageCert as StageCertValue};
ghost use Rattle.cert_format.specs.declared.cert.Certificate.{Certificate as CertificateValue};
ghost use Rattle.cert_format.specs.Printable.{IsPrintableProof};
ghost use Rattle.cert_format.specs.Proofs.{IsProof};
ghost use Rattle.cert_format.specs.Spelling.{is_tried, proof_lines};
ghost use Rattle.series_model.specs.declared.unit.Unit.{Unit as SlotUnit};
ghost use Rattle.series_model.specs.Submissions.{SubmissionView};
ghost use Rattle.wasg_stages.specs.StageProblems.{IsAllotmentProblem};
ghost use Rattle.wasg_stages.specs.Valid.{IsValid};
ghost use Rattle.cert_checker.specs.declared.verdict.Reason.{Reason as ReasonValue};
ghost use Rattle.cert_checker.specs.Tests.{Passes, proof_tests};
ghost use Rattle.cert_checker.specs.Verdicts.{NoneFails, IsFirstFailing};
ghost use Rattle.cert_checker.specs.Certificates.{FailsAt};

use choice_problem::{alike_problems, split_trees};
use cost_fixing::alike_fixings;

/// Each line of a stage's proof has its tests, in the order in which the stage is spelled.
pub fn tested_lines()
    ensures { (p : ProblemView) (c : StageCertValue) →
        length (proof_tests p c) ≡ length (proof_lines c) }
{}

/// A stage of which no line fails is a proof, and of a proof no line fails.
pub fn passing_lines()
    ensures proof { (p : ProblemView) (version : ℕ) (c : StageCertValue) → is_tried c.mark ≡ true →
        IsPrintableProof version c → NoneFails (Passes p c) (proof_tests p c) → IsProof p c }
    ensures passes { (p : ProblemView) (version : ℕ) (c : StageCertValue) →
        IsPrintableProof version c → IsProof p c → NoneFails (Passes p c) (proof_tests p c) }
{
    split_trees();
}

/// A proof of a stage is a proof of it on each problem with the same numbers.
pub fn alike_proofs()
    ensures { (p q : ProblemView) (c : StageCertValue) →
        AreAlike p q → IsProof p c → IsProof q c }
{
    alike_problems();
    alike_fixings();
}

/// On each problem of some units under the same limits, parts and strips may differ, but the same
/// tests pass: a proof on one is a proof on the other, a line that is the first to fail on one is
/// the first on the other, with one first reason, and where there is a proof no line fails.
pub fn same_tests()
    ensures proof { (d : DeclarationValue) (units : List SlotUnit) (limit : ℕ → ℕ)
        (p q : ProblemView) (c : StageCertValue) →
        IsAllotmentProblem d units limit p → IsAllotmentProblem d units limit q →
        IsProof p c → IsProof q c }
    ensures fails { (d : DeclarationValue) (units : List SlotUnit) (limit : ℕ → ℕ)
        (p q : ProblemView) (c : StageCertValue) (number line other : ℕ)
        (reason why : ReasonValue) →
        IsAllotmentProblem d units limit p → IsAllotmentProblem d units limit q →
        IsFirstFailing (Passes p c) number (proof_tests p c) line reason →
        IsFirstFailing (Passes q c) number (proof_tests q c) other why →
        (line ≡ other) × (reason ≡ why) }
    ensures never { (d : DeclarationValue) (units : List SlotUnit) (limit : ℕ → ℕ)
        (p q : ProblemView) (version : ℕ) (c : StageCertValue) (number line : ℕ)
        (reason : ReasonValue) →
        IsAllotmentProblem d units limit p → IsAllotmentProblem d units limit q →
        IsPrintableProof version c → IsProof p c →
        IsFirstFailing (Passes q c) number (proof_tests q c) line reason → ⊥ }
{
    passing_lines();
    alike_proofs();
    alike_problems();
    alike_fixings();
}

/// A valid certificate has no failing line.
pub fn one_verdict()
    ensures { (s : SubmissionView) (c : CertificateValue) (line : ℕ) (reason : ReasonValue) →
        IsValid s c → FailsAt s c line reason → ⊥ }
{
    passing_lines();
    alike_proofs();
}

/// A certificate has at most one failing line that is the first, and there one first reason.
pub fn one_failing_line()
    ensures { (s : SubmissionView) (c : CertificateValue) (line other : ℕ)
        (reason why : ReasonValue) →
        FailsAt s c line reason → FailsAt s c other why → (line ≡ other) × (reason ≡ why) }
{
    alike_problems();
    alike_fixings();
}
