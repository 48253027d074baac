//! Laws of the problems of stages. Each function does nothing; its contract is the law.

ghost use Rattle.std.specs.Prelude.{◌≡◌, ◌≤◌, ℕ, List};
ghost use Rattle.season_days.specs.declared.declaration.Declaration.{Declaration as DeclarationValue};
ghost use Rattle.choice_problem.specs.Problems.{ProblemView};
ghost use Rattle.choice_problem.specs.Choices.{IsChoice, IsFeasible, IsBest, HasNone, choice_cost, load_of};
ghost use Rattle.series_model.specs.declared.times.Times.{Times as TimesValue};
ghost use Rattle.series_model.specs.declared.unit.Unit.{Unit as SlotUnit};
ghost use Rattle.series_model.specs.Allotments.{IsFeasibleAllotment, IsLeastAllotment, HasNoAllotment, IsDisplacementBound, total_displacement, allotted_load};
ghost use Rattle.series_model.specs.Stages.{times_named, AreFeasibleChoices};
ghost use Rattle.series_model.specs.Submissions.{SubmissionView};
ghost use Rattle.cert_format.specs.declared.cert.StageCert.{StageCert as StageCertValue};
ghost use Rattle.cert_format.specs.declared.cert.Certificate.{Certificate as CertificateValue};
ghost use Rattle.cert_format.specs.Choices.{choices_of};
ghost use Rattle.cert_format.specs.Proofs.{IsProof};
ghost use Rattle.wasg_stages.specs.Valid.{MarkClaims, IsValid, MarksHold};
ghost use Rattle.wasg_stages.specs.StageProblems.{IsAllotmentProblem, AreNumbers};

use cert_format::proven_stage;
use series_model::laws::one_more_stage;

/// The choices of the problem of some units are their allotments: a choice has the numbers of
/// alternatives, costs what the times of these displace, and uses a resource as often as that holds
/// their movements. So the feasible choices are exactly the feasible allotments, a best choice is
/// an allotment that displaces least, where no choice is feasible no allotment is, and what no
/// feasible choice costs less than bounds the allotments. A stage is one case.
pub fn problem_choices()
    ensures numbers { (d : DeclarationValue) (units : List SlotUnit) (limit : ℕ → ℕ)
        (p : ProblemView) (x : List ℕ) →
        IsAllotmentProblem d units limit p → IsChoice p x → AreNumbers d units x }
    ensures there { (d : DeclarationValue) (units : List SlotUnit) (limit : ℕ → ℕ) (p : ProblemView)
        (x : List ℕ) →
        IsAllotmentProblem d units limit p → AreNumbers d units x → IsChoice p x }
    ensures displacement { (d : DeclarationValue) (units : List SlotUnit) (limit : ℕ → ℕ)
        (p : ProblemView) (x : List ℕ) →
        IsAllotmentProblem d units limit p → IsChoice p x →
        choice_cost p x ≡ total_displacement d units (times_named d units x) }
    ensures loads { (d : DeclarationValue) (units : List SlotUnit) (limit : ℕ → ℕ) (p : ProblemView)
        (x : List ℕ) (r : ℕ) →
        IsAllotmentProblem d units limit p → IsChoice p x →
        load_of p x r ≡ allotted_load d units (times_named d units x) r }
    ensures feasible { (d : DeclarationValue) (units : List SlotUnit) (limit : ℕ → ℕ)
        (p : ProblemView) (x : List ℕ) →
        IsAllotmentProblem d units limit p → IsFeasible p x →
        IsFeasibleAllotment d units limit (times_named d units x) }
    ensures back { (d : DeclarationValue) (units : List SlotUnit) (limit : ℕ → ℕ) (p : ProblemView)
        (x : List ℕ) →
        IsAllotmentProblem d units limit p → IsChoice p x →
        IsFeasibleAllotment d units limit (times_named d units x) → IsFeasible p x }
    ensures all { (d : DeclarationValue) (units : List SlotUnit) (limit : ℕ → ℕ) (p : ProblemView)
        (times : List TimesValue) →
        IsAllotmentProblem d units limit p → IsFeasibleAllotment d units limit times →
        (x : List ℕ) × IsFeasible p x × (times_named d units x ≡ times) }
    ensures least { (d : DeclarationValue) (units : List SlotUnit) (limit : ℕ → ℕ) (p : ProblemView)
        (x : List ℕ) →
        IsAllotmentProblem d units limit p → IsBest p x →
        IsLeastAllotment d units limit (times_named d units x) }
    ensures none { (d : DeclarationValue) (units : List SlotUnit) (limit : ℕ → ℕ)
        (p : ProblemView) →
        IsAllotmentProblem d units limit p → HasNone p → HasNoAllotment d units limit }
    ensures bound { (d : DeclarationValue) (units : List SlotUnit) (limit : ℕ → ℕ) (p : ProblemView)
        (bound : ℕ) →
        IsAllotmentProblem d units limit p →
        ((x : List ℕ) → IsFeasible p x → bound ≤ choice_cost p x) →
        IsDisplacementBound d units limit bound }
{}

/// The choices of a valid certificate are feasible for their stages, each after those before it.
pub fn valid_choices()
    ensures { (s : SubmissionView) (c : CertificateValue) → IsValid s c →
        AreFeasibleChoices s.declaration s.units (choices_of c) }
{
    one_more_stage();
}

/// A proof on the problem of some units shows what its mark claims of their allotments.
pub fn proven_claims()
    ensures { (d : DeclarationValue) (units : List SlotUnit) (limit : ℕ → ℕ) (p : ProblemView)
        (c : StageCertValue) →
        IsAllotmentProblem d units limit p → IsProof p c → MarkClaims d units limit c c.mark }
{
    proven_stage();
}

/// In a valid certificate each mark is true, given the allotments of the stages before it: an
/// OPTIMAL stage has a feasible allotment and none displaces less, an INFEASIBLE stage has none,
/// and none of an OPEN stage displaces less than its bound.
pub fn valid_marks()
    ensures { (s : SubmissionView) (c : CertificateValue) → IsValid s c → MarksHold s c }
{
    proven_stage();
}
