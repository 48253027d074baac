//! One more stage by itself.

ghost use Rattle.std.specs.Prelude.{◌≡◌, ◌<◌, ◌≤◌, ◌^◌, ℕ, IfOk, Ok, Err, length};
ghost use Rattle.cert_format.specs.declared.cert.StageCert.{StageCert};
ghost use Rattle.cert_format.specs.Spelling.{IsExtra, extra_spelling};
ghost use Rattle.cert_format.specs.Printable.{IsPrintableExtra};
ghost use Rattle.cert_format.specs.Forms.{IsExtraText, IfBadLine};
ghost use Rattle.slot_text.specs.Forms.{IsFirstBadLine};
ghost use Rattle.cert_format.specs.Private.Spots.{spot_of};
ghost use Rattle.cert_format.specs.Forms.{Gives};
ghost use Rattle.cert_format.specs.Private.Reading.{extra_at, extra_of};

use crate::blocks::proof_at;
use crate::cert::{LONGEST_CERT, StageCert};
use crate::fault::CertFault;
use crate::place::Place;
use crate::printed_lines::{put_end, put_extra, put_mark};
use crate::printing::put_proof;
use crate::rows::{EndRow, ExtraRow, TriedRow};
use slot_text::Memory;
use std::alloc::Global;

// One more stage, and nothing after it.
#[tactic(auto, unfolding(crate::specs::Private::Reading::extra_at))]
fn extra_at(alloc: Global, place: Place<'_>) -> Result<StageCert, CertFault>
    ensures { Gives (λ s. s) result (extra_at (spot_of place.entry)) }
{
    let (fix, place) = place.read(&ExtraRow)?;
    let (mark, place) = place.read(&TriedRow)?;
    let (stage, place) = proof_at(alloc, 3, fix, mark, place)?;
    let (_, place) = place.read(&EndRow)?;
    match place.next_line() {
        None => Ok(stage),
        Some(_) => Err(CertFault::BadLine { line: place.line }),
    }
}

// The one more stage that the bytes spell.
fn whole_extra(alloc: Global, bytes: &[u8]) -> Result<StageCert, CertFault>
    requires { length bytes.now ≤ LONGEST_CERT }
    ensures { Gives (λ s. s) result (extra_of bytes.now) }
{
    extra_at(alloc, Place::start(bytes))
}

/// The one more stage that the bytes spell, all of the bytes: `EXTRA 1`, or `EXTRA 2` where it has
/// a fixing, stage 5 as in version 3, and `END`.
///
/// `BadLine` as `read_cert` says; memory and time as there.
pub fn read_extra(alloc: Global, bytes: &[u8]) -> Result<StageCert, CertFault>
    requires { length bytes.now ≤ LONGEST_CERT }
    // What is read is spelled so.
    ensures found { IfOk result (λ s. IsExtra s × (bytes.now ≡ extra_spelling s)) }
    // What is read can be printed.
    ensures printable { IfOk result (λ s. IsPrintableExtra s) }
    // What is spelled so is read, unless memory runs out.
    ensures only { (s : StageCert) → IsExtra s → bytes.now ≡ extra_spelling s →
        Gives (λ x. x) result (Ok s) }
    // The line of a refusal: no text of a stage begins with the lines up to it, while one begins
    // with those before it.
    ensures first { IfBadLine result (IsFirstBadLine IsExtraText bytes.now) }
    // Where some line is the first bad one, the text is refused with it, unless memory runs out.
    ensures bad { (line : ℕ) → IsFirstBadLine IsExtraText bytes.now line →
        Gives (λ x. x) result (Err line) }
{
    whole_extra(alloc, bytes)
}

/// The one spelling of one more stage, as `read_extra` reads it. A caller owes what `print_cert`
/// asks of a stage of version 3, and that the stage was tried.
#[tactic(auto, using(crate::proofs::RangeLemmas::extra_is))]
pub fn print_extra(alloc: Global, cert: &StageCert) -> Result<Vec<u8>, Memory>
    requires { IsPrintableExtra cert.now }
    ensures text { IfOk result (λ v. v.items ≡ extra_spelling cert.now) }
    // What was printed is in the form, so it is read again as the same.
    ensures again { IfOk result (λ v. IsExtra cert.now) }
{
    let mut out = Vec::new(alloc);
    put_extra(&mut out, &cert.fixing)?;
    put_mark(alloc, &mut out, 5, cert.mark)?;
    put_proof(alloc, &mut out, cert)?;
    put_end(&mut out)?;
    Ok(out)
}
