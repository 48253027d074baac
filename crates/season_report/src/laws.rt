//! Laws of reasons. Each function does nothing; its contract is the law.

ghost use Rattle.std.specs.Prelude.{◌≡◌, ◌+◌, ◌<◌, ◌≤◌, ℕ, Some, IfSome, slice_get};
ghost use Rattle.season_days.specs.Capacity.{capacity_of, declared_resources};
ghost use Rattle.capacity_windows.specs.Windows.{window_limit};
ghost use Rattle.series_model.specs.Submissions.{SubmissionView};
ghost use Rattle.cert_format.specs.declared.cert.Mark.TheVariants.{Optimal, Infeasible};
ghost use Rattle.cert_format.specs.declared.cert.StageCert.{StageCert as StageCertValue};
ghost use Rattle.cert_format.specs.declared.cert.Certificate.{Certificate as CertificateValue};
ghost use Rattle.wasg_stages.specs.Valid.{IsValid};
ghost use Rattle.season_report.specs.Decisions.{states_before};
ghost use Rattle.report_lines.specs.Peaks.{earlier_load};
ghost use Rattle.season_report.specs.Rows.{allotted_stage};
ghost use Rattle.season_report.specs.Laws.{UsesItsBar, AllRows, NoneFits, HasOverLine};

use report_lines::laws::ruled_out;
use series_model::laws::feasible_fits;
use wasg_stages::laws::{valid_choices, valid_marks};

/// The reasons of a valid certificate; stages count from 1, and their places from 0.
///
/// In a stage that is marked OPTIMAL no line says that an alternative fits: each one that costs
/// less than the one that its unit was given is barred while all others keep theirs, since
/// otherwise an allotment would displace less. A resource that bars an alternative is used by it.
/// Where stage 1 has no allotment a line says which window rules out all, since a historic series
/// has one alternative; that each such line of any stage does so by itself is
/// `report_lines::laws::ruled_out`. What all stages gave is nowhere above a declared limit.
pub fn optimal_reasons()
    ensures none_fits { (s : SubmissionView) (c : CertificateValue) (place : ℕ)
        (block : StageCertValue) →
        IsValid s c → slice_get c.stages place ≡ Some block → block.mark ≡ Optimal →
        IfSome block.choice (λ choice. NoneFits
        (allotted_stage s.declaration (place + 1) (states_before s c (place + 1)) choice)) }
    ensures used { (s : SubmissionView) (c : CertificateValue) (place : ℕ)
        (block : StageCertValue) →
        IsValid s c → slice_get c.stages place ≡ Some block →
        IfSome block.choice (λ choice. AllRows UsesItsBar
        (allotted_stage s.declaration (place + 1) (states_before s c (place + 1)) choice)) }
    ensures first { (s : SubmissionView) (c : CertificateValue) (block : StageCertValue) →
        IsValid s c → slice_get c.stages 0 ≡ Some block → block.mark ≡ Infeasible →
        HasOverLine s.declaration 1 (states_before s c 1) }
    ensures within { (s : SubmissionView) (c : CertificateValue) (r : ℕ) →
        IsValid s c → s.declaration.share ≤ 100 →
        r < declared_resources (capacity_of s.declaration) →
        earlier_load s.declaration (states_before s c 5) r
        ≤ window_limit (capacity_of s.declaration) r }
{
    valid_choices();
    valid_marks();
    feasible_fits();
    ruled_out();
}
