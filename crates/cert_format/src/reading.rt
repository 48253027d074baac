//! Reading a certificate.

ghost use Rattle.std.specs.Prelude.{◌≡◌, ◌<◌, ◌≤◌, ◌^◌, ℕ, List, IfOk, Ok, Err, length};
ghost use Rattle.cert_format.specs.declared.cert.Certificate.{Certificate};
ghost use Rattle.cert_format.specs.Spelling.{IsCert, spelling};
ghost use Rattle.cert_format.specs.Printable.{IsPrintable};
ghost use Rattle.cert_format.specs.Forms.{IsCertText, IfBadLine};
ghost use Rattle.slot_text.specs.Forms.{IsFirstBadLine};
ghost use Rattle.cert_format.specs.Private.Spots.{spot_of};
ghost use Rattle.cert_format.specs.Forms.{Gives};
ghost use Rattle.cert_format.specs.Private.Reading.{many, stage_at, cert_at, cert_of};

use crate::blocks::stage_at;
use crate::cert::{Certificate, LONGEST_CERT, StageCert, StageList};
use crate::fault::CertFault;
use crate::place::Place;
use crate::rows::{EndRow, VersionRow};
use std::alloc::Global;

// The stages 1 to 4, in order.
fn four_stages(
    alloc: Global,
    version: u32,
    place: Place<'_>,
) -> Result<(Vec<StageCert>, Place<'_>), CertFault>
    ensures { Gives (λ x. (x.0.items, spot_of x.1)) result
        (many (stage_at version) 1 4 (spot_of place.entry)) }
{
    let mut stages = Vec::new(alloc);
    let mut next = place;
    for number in 1..5 {
        let (stage, after) = stage_at(alloc, version, number, next)?;
        stages.push(stage)?;
        next = after;
    }
    Ok((stages, next))
}

// A certificate, and nothing after it.
#[tactic(auto, unfolding(crate::specs::Private::Reading::cert_at))]
fn cert_at(alloc: Global, place: Place<'_>) -> Result<Certificate, CertFault>
    ensures { Gives (λ c. c) result (cert_at (spot_of place.entry)) }
{
    let (version, place) = place.read(&VersionRow)?;
    let (stages, place) = four_stages(alloc, version, place)?;
    let (_, place) = place.read(&EndRow)?;
    match place.next_line() {
        None => Ok(Certificate {
            version,
            stages: StageList::new(stages),
        }),
        Some(_) => Err(CertFault::BadLine { line: place.line }),
    }
}

// The certificate that the bytes spell.
fn whole_cert(alloc: Global, bytes: &[u8]) -> Result<Certificate, CertFault>
    requires { length bytes.now ≤ LONGEST_CERT }
    ensures { Gives (λ c. c) result (cert_of bytes.now) }
{
    cert_at(alloc, Place::start(bytes))
}

/// The certificate that the bytes spell, all of the bytes.
///
/// `BadLine` names the first line that is not in the form at its place, from 1: that behind the
/// last good line, where the bytes end there or go on behind `END`. One pass over the bytes; memory
/// is taken for lines that were read, and never for a count that is only stated.
pub fn read_cert(alloc: Global, bytes: &[u8]) -> Result<Certificate, CertFault>
    requires { length bytes.now ≤ LONGEST_CERT }
    // What is read is spelled so.
    ensures found { IfOk result (λ c. IsCert c × (bytes.now ≡ spelling c)) }
    // What is read can be printed.
    ensures printable { IfOk result (λ c. IsPrintable c) }
    // What is spelled so is read, unless memory runs out.
    ensures only { (c : Certificate) → IsCert c → bytes.now ≡ spelling c →
        Gives (λ x. x) result (Ok c) }
    // The line of a refusal: no certificate begins with the lines up to it, while one begins with
    // those before it.
    ensures first { IfBadLine result (IsFirstBadLine IsCertText bytes.now) }
    // Where some line is the first bad one, the text is refused with it, unless memory runs out.
    ensures bad { (line : ℕ) → IsFirstBadLine IsCertText bytes.now line →
        Gives (λ x. x) result (Err line) }
{
    whole_cert(alloc, bytes)
}
