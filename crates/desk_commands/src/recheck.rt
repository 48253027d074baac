//! Checking the stage of a waiting list.

ghost use Rattle.std.specs.Prelude.{◌≡◌, ◌≤◌, ◌∷◌, List, All, IfOk, IfErr, OnOk, length};
ghost use Rattle.scr_reader.specs.Printed.{LineFits};
ghost use Rattle.cert_format.specs.Printable.{IsPrintableExtra};
ghost use Rattle.cert_format.specs.declared.cert.Certificate.{Certificate as CertificateValue};
ghost use Rattle.wait_list.specs.Claims.{IsWaitingProof};
ghost use Rattle.command_words.specs.Words.{Word};
ghost use Rattle.command_words.specs.declared.job.Job.TheVariants.{Recheck as RecheckJob};
ghost use Rattle.desk_commands.specs.Judgements.{NamedBytes, IsSeasonOf, SpellsCert, SpellsExtra};
ghost use Rattle.desk_commands.specs.Judgements.{extra_form, valid_extra};
ghost use Rattle.desk_commands.specs.Jobs.{name_at};
ghost use Rattle.desk_commands.specs.Desk.{World, world_of};
ghost use Rattle.desk_commands.specs.Ends.{IsDone, JobStops};
ghost use Rattle.desk_commands.specs.Leads.{AcceptsAlone};
ghost use Rattle.desk_commands.specs.Stops.{IsJudged};
ghost use Rattle.desk_commands.specs.Waits.{SpellsAlone, IsLeftBy, IsLeft, ExtraAlone};
ghost use Rattle.desk_commands.specs.declared.files.TheConstants.{LONGEST_CERT_FILE as MOST_BYTES};

use crate::ending::yes;
use crate::files::{LONGEST_CERT_FILE, read_file};
use crate::stop::{Answer, Stop};
use crate::waits::{Left, read_waiting};
use capacity_file::laws::one_answer;
use cert_checker::Verdict;
use cert_format::{CertFault, StageCert, read_extra};
use command_words::NameList;
use desk_outside::Cabinet;
use scr_reader::laws::one_reading;
use std::alloc::Global;
use wait_list::laws::one_waiting_line;
use wait_list::recheck as check_waiting;

/// Reads a season, a certificate of it, which is valid, asks, and a stage of the lines that they
/// leave waiting, which is valid; or else says why not.
pub(crate) fn recheck<C: Cabinet>(
    alloc: Global,
    names: &NameList,
    cabinet: &mut C,
) -> Result<Answer, Stop>
    ensures done { IfOk result (λ a. IsDone (RecheckJob names.now)
        (world_of C.files C.fault_count C.log cabinet.old) a.status a.text.items
        (world_of C.files C.fault_count C.log cabinet.new)) }
    ensures stop { IfErr result (λ stop. JobStops names.now (RecheckJob names.now)
        (world_of C.files C.fault_count C.log cabinet.old) stop
        (world_of C.files C.fault_count C.log cabinet.new)) }
    ensures unchanged { C.files cabinet.new ≡ C.files cabinet.old }
{
    let left = read_waiting(alloc, names, cabinet)?;
    recheck_left(alloc, names, &left, cabinet)
}

/// Reads a stage of the lines that asks left waiting, which is valid; or else says why not.
fn recheck_left<C: Cabinet>(
    alloc: Global,
    names: &NameList,
    left: &Left,
    cabinet: &mut C,
) -> Result<Answer, Stop>
    requires { All (LineFits left.now.book.book.declaration.season) left.now.waiting }
    ensures done { (w : World) → IsLeft w names.now left.now.submission
        left.now.book.book left.now.waiting left.now.header
        (world_of C.files C.fault_count C.log cabinet.old) →
        IfOk result (λ a. IsDone (RecheckJob names.now) w a.status a.text.items
        (world_of C.files C.fault_count C.log cabinet.new)) }
    ensures stop { (w : World) → IsLeft w names.now left.now.submission
        left.now.book.book left.now.waiting left.now.header
        (world_of C.files C.fault_count C.log cabinet.old) →
        IfErr result (λ stop. JobStops names.now (RecheckJob names.now) w stop
        (world_of C.files C.fault_count C.log cabinet.new)) }
    ensures unchanged { C.files cabinet.new ≡ C.files cabinet.old }
{
    let bytes = read_file(alloc, names, 4, LONGEST_CERT_FILE, cabinet)?;
    let stage = judge_extra(alloc, 4, bytes)?;
    judge_stage(alloc, left, &stage)?;
    let text = yes(alloc)?;
    Ok(Answer {
        status: 0,
        text: text.into_bytes(),
    })
}

/// The one more stage that the bytes spell. The bytes are given back before it is checked.
fn judge_extra(alloc: Global, place: usize, bytes: Vec<u8>) -> Result<StageCert, Stop>
    requires { length bytes.items ≤ MOST_BYTES }
    ensures found { IfOk result (λ stage. SpellsExtra bytes.items stage
        × IsPrintableExtra stage) }
    ensures only { IfOk result (λ stage. ExtraAlone bytes.items stage) }
    ensures alone { OnOk result ((name : Word) (capacity requests proved asks : NamedBytes)
        (rest : List NamedBytes) → AcceptsAlone extra_form name
        (capacity ∷ requests ∷ proved ∷ asks ∷ record { name = name; bytes = bytes.items }
        ∷ rest)) }
    ensures stop { IfErr result (λ stop. (names : List Word)
        (capacity requests proved asks : NamedBytes) (rest : List NamedBytes) →
        IsJudged names extra_form (name_at names place)
        (capacity ∷ requests ∷ proved ∷ asks
        ∷ record { name = name_at names place; bytes = bytes.items } ∷ rest) stop) }
{
    match read_extra(alloc, &bytes) {
        Ok(stage) => Ok(stage),
        Err(CertFault::BadLine { line }) => Err(Stop::OutOfForm(place, line)),
        Err(CertFault::Memory) => Err(Stop::Memory),
    }
}

/// Whether a stage is valid for the lines that wait.
fn judge_stage(alloc: Global, left: &Left, stage: &StageCert) -> Result<(), Stop>
    requires printable { IsPrintableExtra stage.now }
    requires spelled { All (LineFits left.now.book.book.declaration.season) left.now.waiting }
    ensures proof { OnOk result
        (IsWaitingProof left.now.book.book left.now.waiting stage.now) }
    ensures alone { OnOk result ((name : Word) (c : CertificateValue)
        (capacity requests proved asks extra : NamedBytes) (rest : List NamedBytes) →
        IsSeasonOf capacity.bytes requests.bytes left.now.submission →
        SpellsCert proved.bytes c → SpellsAlone proved.bytes c →
        IsLeftBy left.now.submission c asks.bytes left.now.book.book left.now.waiting
        left.now.header →
        SpellsExtra extra.bytes stage.now → ExtraAlone extra.bytes stage.now →
        AcceptsAlone valid_extra name (capacity ∷ requests ∷ proved ∷ asks ∷ extra ∷ rest)) }
    ensures stop { IfErr result (λ stop. (names : List Word) (name : Word) (c : CertificateValue)
        (capacity requests proved asks extra : NamedBytes) (rest : List NamedBytes) →
        IsSeasonOf capacity.bytes requests.bytes left.now.submission →
        SpellsCert proved.bytes c → SpellsAlone proved.bytes c →
        IsLeftBy left.now.submission c asks.bytes left.now.book.book left.now.waiting
        left.now.header →
        SpellsExtra extra.bytes stage.now → ExtraAlone extra.bytes stage.now →
        IsJudged names valid_extra name (capacity ∷ requests ∷ proved ∷ asks ∷ extra ∷ rest)
        stop) }
{
    one_answer();
    one_reading();
    one_waiting_line();
    let verdict = check_waiting(alloc, &left.book, &left.waiting, stage)?;
    match verdict {
        Verdict::Yes => Ok(()),
        Verdict::No { line, reason } => Err(Stop::ExtraFails(line, reason)),
    }
}
