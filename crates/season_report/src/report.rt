//! The report.

ghost use Rattle.std.specs.Prelude.{◌≡◌, ◌++◌, ◌≤◌, [], map, length, All, IfOk, OnOk};
ghost use Rattle.choice_problem.specs.declared.problems.TheConstants.{MOST_UNITS};
ghost use Rattle.capacity_windows.specs.Windows.{capacity_of, declared_resources};
ghost use Rattle.window_counts.specs.Placed.{AreZero};
ghost use Rattle.series_model.specs.declared.unit.Unit.{Unit as SlotUnit};
ghost use Rattle.wasg_stages.specs.Valid.{IsValid};
ghost use Rattle.season_report.specs.Decisions.{season_decided};
ghost use Rattle.season_report.specs.Reports.{report_text, season_tally};
ghost use Rattle.season_report.specs.Private.{IsTold, texts_of};

use crate::airlines::put_airlines;
use crate::decided::{Decided, season_decided};
use crate::loads::no_loads;
use crate::stages::put_stages;
use crate::tallies::{put_tally, tally_of};
use crate::units::put_units;
use cert_format::Certificate;
use report_lines::{put, put_head, put_profile};
use series_model::{Submission, Unit};
use slot_text::Memory;
use std::alloc::Global;

// One empty text for each unit.
fn no_texts(alloc: Global, units: &[Unit]) -> Result<Vec<Vec<u8>>, Memory>
    ensures { IfOk result (λ texts.
        texts_of texts.items ≡ map (λ (unit : SlotUnit). []) units.now) }
{
    let mut texts = Vec::with_capacity(alloc, units.len())?;
    for _unit in units {
        texts.push(Vec::new(alloc))?;
    }
    Ok(texts)
}

// Appends the report. The texts of units are empty before, and the loads are 0.
fn put_report(
    alloc: Global,
    out: &mut Vec<u8>,
    reasons: &mut [Vec<u8>],
    given: &mut [u32],
    submission: &Submission,
    certificate: &Certificate,
    units: &[Decided],
) -> Result<(), Memory>
    requires valid { IsValid submission.now certificate.now }
    requires units { units.now ≡ season_decided submission.now certificate.now }
    requires told { All (IsTold submission.now.declaration) units.now }
    requires few { length units.now ≤ MOST_UNITS }
    requires all { length units.now ≡ length submission.now.units }
    requires texts { texts_of reasons.old ≡ map (λ (unit : SlotUnit). []) submission.now.units }
    requires loads { length given.old
        ≡ declared_resources (capacity_of submission.now.declaration) }
    requires zeros { AreZero given.old }
    ensures { OnOk result
        (out.new.items ≡ out.old.items ++ report_text submission.now certificate.now) }
{
    let declaration = submission.declaration();
    let windows = submission.windows();
    put_head(alloc, out, declaration)?;
    put_stages(alloc, out, reasons, submission, certificate, units, given)?;
    put_airlines(alloc, out, declaration, units)?;
    put_units(alloc, out, declaration, units, reasons)?;
    put_profile(alloc, out, declaration, windows, given)?;
    put(out, b"END\n")?;
    Ok(())
}

/// The report on a valid certificate, as text: what was declared; each stage with its mark and a
/// tally, and where it has no allotment the windows that rule out all; the airlines; each unit with
/// what it asked for, what it was given, and for each alternative that would have cost less the
/// lowest window, or the night quota, that it would put above its limit; and the greatest loads.
///
/// In a stage that is marked OPTIMAL each of these alternatives is barred (`optimal_reasons`); in
/// an OPEN stage one may fit.
///
/// The time is that of the four problems (`wasg_stages::problem_after`), four steps for each use of
/// an alternative that is told, and one a resource and stage. Memory is taken for the text twice,
/// for one problem at a time, and for 16 bytes a resource.
pub fn report_text(
    alloc: Global,
    submission: &Submission,
    certificate: &Certificate,
) -> Result<Vec<u8>, Memory>
    requires { IsValid submission.now certificate.now }
    ensures { IfOk result (λ text. text.items ≡ report_text submission.now certificate.now) }
{
    let units = season_decided(alloc, submission, certificate)?;
    let mut reasons = no_texts(alloc, submission.units())?;
    let mut given = no_loads(alloc, submission.windows().resources())?;
    let mut out = Vec::new(alloc);
    put_report(
        alloc,
        &mut out,
        &mut reasons,
        &mut given,
        submission,
        certificate,
        &units,
    )?;
    Ok(out)
}

/// The tally of all units, with its line end.
pub fn season_tally(
    alloc: Global,
    submission: &Submission,
    certificate: &Certificate,
) -> Result<Vec<u8>, Memory>
    requires { IsValid submission.now certificate.now }
    ensures { IfOk result (λ text. text.items ≡ season_tally submission.now certificate.now) }
{
    let units = season_decided(alloc, submission, certificate)?;
    let mut out = Vec::new(alloc);
    put_tally(alloc, &mut out, &tally_of(submission.declaration(), &units))?;
    put(&mut out, b"\n")?;
    Ok(out)
}
