//! Laws of runs. Each function does nothing; its contract is the law.

ghost use Rattle.std.specs.Prelude.{ℕ};
ghost use Rattle.cert_format.specs.declared.cert.Certificate.{Certificate as CertificateValue};
ghost use Rattle.series_model.specs.Submissions.{SubmissionView};
ghost use Rattle.season_run.specs.Runs.{IsRun, IsEnoughFor, IsSettledCert};

/// With a budget of at least twice the number of the choices of each stage's units, less one, no
/// stage of a run is OPEN.
pub fn settled_run()
    ensures { (s : SubmissionView) (budget : ℕ) (c : CertificateValue) →
        IsRun s budget c → IsEnoughFor s budget c → IsSettledCert c }
{}
