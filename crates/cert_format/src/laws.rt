//! Laws of certificates. Each function does nothing; its contract is the law.

ghost use Rattle.std.specs.Prelude.{◌≡◌, ◌≤◌, length};
ghost use Rattle.std.specs.List.{AllByRecursion};
ghost use Rattle.choice_problem.specs.Problems.{ProblemView};
ghost use Rattle.cert_format.specs.declared.cert.StageCert.{StageCert as StageCertValue};
ghost use Rattle.cert_format.specs.declared.cert.Certificate.{Certificate as CertificateValue};
ghost use Rattle.cert_format.specs.declared.cert.TheConstants.{MOST_LINES, MOST_SEASON_BYTES};
ghost use Rattle.cert_format.specs.Spelling.{proof_lines, cert_lines, extra_lines, spelling, IsCert};
ghost use Rattle.cert_format.specs.Printable.{IsWithinLimits, proof_line_count};
ghost use Rattle.cert_format.specs.Proofs.{IsProof, ClaimsOf};

use choice_problem::{floored_tree, sound_tree};
use cost_fixing::fixed_best;

/// How many lines a stage has below its mark; and a certificate of four stages within the limits of
/// a season has far fewer lines than can be printed, some 16 million, and so has one more stage by
/// itself.
pub fn line_counts()
    ensures proof { (s : StageCertValue) → length (proof_lines s) ≡ proof_line_count s }
    ensures cert { (c : CertificateValue) → length c.stages ≡ 4 →
        AllByRecursion IsWithinLimits c.stages → length (cert_lines c) ≤ MOST_LINES }
    ensures extra { (s : StageCertValue) → IsWithinLimits s → length (extra_lines s) ≤ MOST_LINES }
{}

/// A certificate of four stages within the limits of a season has at most 512 MiB: 133,099,658
/// bytes a stage at most, the most of them its 2,000,000 prices and the 1,000,000 splits and closed
/// leaves of its tree.
pub fn season_bytes()
    ensures { (c : CertificateValue) → IsCert c → AllByRecursion IsWithinLimits c.stages →
        length (spelling c) ≤ MOST_SEASON_BYTES }
{}

/// A proof of a stage shows what the stage's mark claims of all choices of its problem, whoever
/// made it: the choice of an OPTIMAL stage is best, an INFEASIBLE stage has no feasible choice, and
/// none of an OPEN stage costs less than its bound.
pub fn proven_stage()
    ensures { (p : ProblemView) (c : StageCertValue) → IsProof p c → ClaimsOf p c c.mark }
{
    sound_tree();
    fixed_best();
    floored_tree();
}
