//! The season that a job reads: a capacity file, requests, and a certificate.

ghost use Rattle.std.specs.Prelude.{◌≡◌, ◌⊎◌, ◌≤◌, ◌<◌, ◌^◌, ◌∷◌, [], ℕ, List, length, All};
ghost use Rattle.std.specs.Prelude.{IfOk, IfErr, OnOk, Ok, Err};
ghost use Rattle.slot_text.specs.Lines.{lines_of};
ghost use Rattle.season_days.specs.Capacity.{IsDeclaration};
ghost use Rattle.capacity_file.specs.Declares.{IsCapacityFile};
ghost use Rattle.cert_format.specs.Printable.{IsPrintable};
ghost use Rattle.cert_format.specs.declared.cert.Certificate.{Certificate as CertificateValue};
ghost use Rattle.scr_reader.specs.Printed.{MessagesFit};
ghost use Rattle.series_model.specs.Submissions.{HasNumbers, MessagePairs, item_count};
ghost use Rattle.series_model.specs.Submissions.{submission_answer};
ghost use Rattle.series_model.specs.declared.fault.ModelFault.{ModelFault as ModelFaultValue};
ghost use Rattle.series_model.specs.declared.fault.ModelFault.TheVariants.{Memory as no_model};
ghost use Rattle.scr_reader.specs.Messages.{ReadsAll, HasScrFault};
ghost use Rattle.scr_reader.specs.declared.fault.ScrFault.{ScrFault as ScrFaultValue};
ghost use Rattle.scr_reader.specs.declared.fault.ScrFault.TheVariants.{Memory as no_message};
ghost use Rattle.wasg_stages.specs.Valid.{IsValid};
ghost use Rattle.command_words.specs.Words.{Word};
ghost use Rattle.desk_commands.specs.Judgements.{NamedBytes, IsSeasonOf, SpellsCert};
ghost use Rattle.desk_commands.specs.Judgements.{IsCapacityRefusal, IsMessageRefusal};
ghost use Rattle.desk_commands.specs.Judgements.{IsSubmissionRefusal};
ghost use Rattle.desk_commands.specs.Judgements.{capacity_form, requests_form, certificate_form};
ghost use Rattle.desk_commands.specs.Judgements.{valid_certificate};
ghost use Rattle.desk_commands.specs.Steps.{Step};
ghost use Rattle.desk_commands.specs.Jobs.{name_at, season_steps, certificate_steps};
ghost use Rattle.desk_commands.specs.Desk.{World, world_of};
ghost use Rattle.desk_commands.specs.Leads.{Leads, AcceptsAlone};
ghost use Rattle.desk_commands.specs.Waits.{SpellsAlone};
ghost use Rattle.desk_commands.specs.Stops.{IsRefusalBy, IsJudged, StopLeads};
ghost use Rattle.desk_commands.specs.declared.files.TheConstants.{LONGEST_FILE, LONGEST_CERT_FILE};

use crate::files::{LONGEST_CERT_FILE, LONGEST_FILE, read_file};
use crate::stop::{Limit, Stop};
use capacity_file::laws::one_answer;
use capacity_file::{CapFault, read_capacity};
use cert_checker::{Verdict, check, one_failing_line, one_verdict};
use cert_format::{CertFault, Certificate, read_cert};
use command_words::NameList;
use desk_outside::Cabinet;
use scr_reader::laws::{one_reading, read_lines_fit};
use scr_reader::{MessageList, ScrFault, read_all};
use season_days::Declaration;
use series_model::laws::read_messages;
use series_model::{ModelFault, Submission};
use slot_text::Lines;
use std::alloc::Global;

/// Reads the capacity file and the requests of a job, which are its first steps, and gives the
/// season that they make.
pub fn read_season<C: Cabinet>(
    alloc: Global,
    names: &NameList,
    cabinet: &mut C,
) -> Result<Submission, Stop>
    ensures found { IfOk result (λ s. (capacity requests : NamedBytes)
        × IsSeasonOf capacity.bytes requests.bytes s × ((steps : List Step) →
        Leads (world_of C.files C.fault_count C.log cabinet.old) (season_steps names.now steps)
        (capacity ∷ requests ∷ []) steps (world_of C.files C.fault_count C.log cabinet.new))) }
    ensures stop { IfErr result (λ stop. (steps : List Step) →
        StopLeads names.now (world_of C.files C.fault_count C.log cabinet.old)
        (season_steps names.now steps) stop (world_of C.files C.fault_count C.log cabinet.new)) }
    ensures unchanged { C.files cabinet.new ≡ C.files cabinet.old }
{
    let capacity = read_file(alloc, names, 0, LONGEST_FILE, cabinet)?;
    let declaration = judge_capacity(alloc, 0, &capacity)?;
    let requests = read_file(alloc, names, 1, LONGEST_FILE, cabinet)?;
    let submission = judge_requests(alloc, 1, declaration, &requests)?;
    Ok(submission)
}

/// Reads the certificate of a season, and gives it where it is valid.
pub fn read_certificate<C: Cabinet>(
    alloc: Global,
    names: &NameList,
    submission: &Submission,
    cabinet: &mut C,
) -> Result<Certificate, Stop>
    ensures found { IfOk result (λ c. (w : World) (all : List Step) (steps : List Step)
        (capacity requests : NamedBytes) →
        IsSeasonOf capacity.bytes requests.bytes submission.now →
        Leads w all (capacity ∷ requests ∷ []) (certificate_steps names.now steps)
        (world_of C.files C.fault_count C.log cabinet.old) →
        (certificate : NamedBytes) × SpellsCert certificate.bytes c
        × Leads w all (capacity ∷ requests ∷ certificate ∷ []) steps
        (world_of C.files C.fault_count C.log cabinet.new)) }
    ensures valid { IfOk result (IsValid submission.now) }
    // One text was read, which spells no other certificate.
    ensures leads { IfOk result (λ c. (certificate : NamedBytes)
        × SpellsCert certificate.bytes c × SpellsAlone certificate.bytes c
        × ((w : World) (all : List Step) (steps : List Step) (capacity requests : NamedBytes) →
        IsSeasonOf capacity.bytes requests.bytes submission.now →
        Leads w all (capacity ∷ requests ∷ []) (certificate_steps names.now steps)
        (world_of C.files C.fault_count C.log cabinet.old) →
        Leads w all (capacity ∷ requests ∷ certificate ∷ []) steps
        (world_of C.files C.fault_count C.log cabinet.new))) }
    ensures stop { IfErr result (λ stop. (w : World) (all : List Step) (steps : List Step)
        (capacity requests : NamedBytes) →
        IsSeasonOf capacity.bytes requests.bytes submission.now →
        Leads w all (capacity ∷ requests ∷ []) (certificate_steps names.now steps)
        (world_of C.files C.fault_count C.log cabinet.old) →
        StopLeads names.now w all stop (world_of C.files C.fault_count C.log cabinet.new)) }
    ensures unchanged { C.files cabinet.new ≡ C.files cabinet.old }
{
    let bytes = read_file(alloc, names, 2, LONGEST_CERT_FILE, cabinet)?;
    let certificate = judge_certificate(alloc, 2, bytes)?;
    judge_validity(alloc, submission, &certificate)?;
    Ok(certificate)
}

/// A season, and a certificate of it, which is valid.
#[derive(Drop)]
pub struct Proved {
    /// The season.
    pub submission: Submission,
    /// The certificate.
    pub certificate: Certificate,
}

/// Reads a season and a certificate of it, which is valid: the first steps of a job.
pub fn read_proved<C: Cabinet>(
    alloc: Global,
    names: &NameList,
    cabinet: &mut C,
) -> Result<Proved, Stop>
    ensures found { IfOk result (λ proved. (capacity requests certificate : NamedBytes)
        × IsSeasonOf capacity.bytes requests.bytes proved.submission
        × SpellsCert certificate.bytes proved.certificate
        × SpellsAlone certificate.bytes proved.certificate × ((steps : List Step) →
        Leads (world_of C.files C.fault_count C.log cabinet.old)
        (season_steps names.now (certificate_steps names.now steps))
        (capacity ∷ requests ∷ certificate ∷ []) steps
        (world_of C.files C.fault_count C.log cabinet.new))) }
    ensures valid { IfOk result (λ proved. IsValid proved.submission proved.certificate) }
    ensures stop { IfErr result (λ stop. (steps : List Step) →
        StopLeads names.now (world_of C.files C.fault_count C.log cabinet.old)
        (season_steps names.now (certificate_steps names.now steps)) stop
        (world_of C.files C.fault_count C.log cabinet.new)) }
    ensures unchanged { C.files cabinet.new ≡ C.files cabinet.old }
{
    let submission = read_season(alloc, names, cabinet)?;
    let certificate = read_certificate(alloc, names, &submission, cabinet)?;
    Ok(Proved {
        submission,
        certificate,
    })
}

/// How many lines a text has.
fn count_lines(text: &[u8]) -> u32
    requires { length text.now ≤ LONGEST_FILE }
    ensures counted { result ≡ length (lines_of text.now) }
    ensures few { result ≤ length text.now }
{
    let mut lines = Lines::new(text);
    let mut count = 0;
    while let Some(_) = lines.next_line() {
        count += 1;
    }
    count
}

/// Why a text is no capacity file.
pub(crate) fn capacity_stop(place: usize, bytes: &[u8], fault: CapFault) -> Stop
    requires { length bytes.now ≤ LONGEST_FILE }
    ensures { (names : List Word) → IsRefusalBy names
        (IsCapacityRefusal (name_at names place) (length (lines_of bytes.now)) fault) result }
{
    match fault {
        CapFault::BadLine { line } => Stop::OutOfForm(place, line),
        CapFault::Twice { line } => Stop::OutOfForm(place, line),
        CapFault::Missing { .. } => Stop::OutOfForm(place, count_lines(bytes) + 1),
        CapFault::OverLimit { name, number } => Stop::OverLimit(Limit::Capacity(name), number),
        CapFault::Memory => Stop::Memory,
    }
}

/// Why a text is no list of messages.
pub(crate) fn message_stop(place: usize, fault: ScrFault) -> Stop
    ensures { (names : List Word) → IsRefusalBy names
        (IsMessageRefusal (name_at names place) fault) result }
{
    match fault {
        ScrFault::BadLine { line, .. } => Stop::OutOfForm(place, line),
        ScrFault::BadHeader { line } => Stop::OutOfForm(place, line),
        ScrFault::Unpaired { line } => Stop::OutOfForm(place, line),
        ScrFault::TooLong { line } => Stop::OutOfForm(place, line),
        ScrFault::Memory => Stop::Memory,
    }
}

/// Why messages make no submission.
pub(crate) fn submission_stop(place: usize, fault: ModelFault) -> Stop
    ensures { (names : List Word) → IsRefusalBy names
        (IsSubmissionRefusal (name_at names place) fault) result }
{
    match fault {
        ModelFault::OtherSeason { line } => Stop::OutOfForm(place, line),
        ModelFault::OtherAirport { line } => Stop::OutOfForm(place, line),
        ModelFault::NotInitial { line } => Stop::OutOfForm(place, line),
        ModelFault::TooMany { units } => Stop::OverLimit(Limit::Units, u64::from(units)),
        ModelFault::Memory => Stop::Memory,
    }
}

/// The declaration of a capacity file.
pub(crate) fn judge_capacity(alloc: Global, place: usize, bytes: &[u8]) -> Result<Declaration, Stop>
    requires { length bytes.now ≤ LONGEST_FILE }
    ensures found { IfOk result (λ d. IsCapacityFile bytes.now d) }
    ensures keeps { IfOk result (λ d. IsDeclaration d) }
    ensures alone { OnOk result ((name : Word) (rest : List NamedBytes) →
        AcceptsAlone capacity_form name (record { name = name; bytes = bytes.now } ∷ rest)) }
    ensures stop { IfErr result (λ stop. (names : List Word) (rest : List NamedBytes) →
        IsJudged names capacity_form (name_at names place)
        (record { name = name_at names place; bytes = bytes.now } ∷ rest) stop) }
{
    one_answer();
    match read_capacity(alloc, bytes) {
        Ok(declaration) => Ok(declaration),
        Err(fault) => Err(capacity_stop(place, bytes, fault)),
    }
}

/// The submission that requests make under a declaration.
pub(crate) fn judge_requests(
    alloc: Global,
    place: usize,
    declaration: Declaration,
    bytes: &[u8],
) -> Result<Submission, Stop>
    requires short { length bytes.now ≤ LONGEST_FILE }
    requires keeps { IsDeclaration declaration }
    ensures found { IfOk result (λ s. (capacity : List ℕ) → IsCapacityFile capacity declaration →
        IsSeasonOf capacity bytes.now s) }
    ensures alone { OnOk result ((name : Word) (capacity : NamedBytes) (rest : List NamedBytes) →
        IsCapacityFile capacity.bytes declaration → AcceptsAlone requests_form name
        (capacity ∷ record { name = name; bytes = bytes.now } ∷ rest)) }
    ensures stop { IfErr result (λ stop. (names : List Word) (capacity : NamedBytes)
        (rest : List NamedBytes) → IsCapacityFile capacity.bytes declaration →
        IsJudged names requests_form (name_at names place)
        (capacity ∷ record { name = name_at names place; bytes = bytes.now } ∷ rest) stop) }
{
    one_answer();
    one_reading();
    read_messages();
    read_lines_fit();
    let messages = read_requests(alloc, place, bytes)?;
    let submission = make_submission(alloc, place, declaration, messages)?;
    Ok(submission)
}

/// The messages of a text.
fn read_requests(alloc: Global, place: usize, bytes: &[u8]) -> Result<MessageList, Stop>
    requires { length bytes.now ≤ LONGEST_FILE }
    ensures found { IfOk result (ReadsAll bytes.now) }
    ensures stop { IfErr result (λ stop. (fault : ScrFaultValue)
        × (HasScrFault bytes.now fault ⊎ (fault ≡ no_message)) × ((names : List Word) →
        IsRefusalBy names (IsMessageRefusal (name_at names place) fault) stop)) }
{
    match read_all(alloc, bytes) {
        Ok(messages) => Ok(messages),
        Err(fault) => Err(message_stop(place, fault)),
    }
}

/// The submission that messages make, which were read.
fn make_submission(
    alloc: Global,
    place: usize,
    declaration: Declaration,
    messages: MessageList,
) -> Result<Submission, Stop>
    requires keeps { IsDeclaration declaration }
    requires numbers { All HasNumbers messages }
    requires few { item_count messages < 2 ^ 31 }
    requires fits { MessagesFit messages }
    requires pairs { All MessagePairs messages }
    ensures made { IfOk result (λ s. submission_answer declaration messages ≡ Ok s) }
    ensures stop { IfErr result (λ stop. (fault : ModelFaultValue)
        × ((submission_answer declaration messages ≡ Err fault) ⊎ (fault ≡ no_model))
        × ((names : List Word) →
        IsRefusalBy names (IsSubmissionRefusal (name_at names place) fault) stop)) }
{
    match Submission::make(alloc, declaration, messages) {
        Ok(submission) => Ok(submission),
        Err(fault) => Err(submission_stop(place, fault)),
    }
}

/// The certificate that the bytes spell. The bytes are given back before it is checked.
fn judge_certificate(alloc: Global, place: usize, bytes: Vec<u8>) -> Result<Certificate, Stop>
    requires { length bytes.items ≤ LONGEST_CERT_FILE }
    ensures found { IfOk result (λ c. SpellsCert bytes.items c × IsPrintable c) }
    ensures only { IfOk result (λ c. (other : CertificateValue) → SpellsCert bytes.items other →
        other ≡ c) }
    ensures alone { OnOk result ((name : Word) (capacity requests : NamedBytes)
        (rest : List NamedBytes) → AcceptsAlone certificate_form name
        (capacity ∷ requests ∷ record { name = name; bytes = bytes.items } ∷ rest)) }
    ensures stop { IfErr result (λ stop. (names : List Word) (capacity requests : NamedBytes)
        (rest : List NamedBytes) → IsJudged names certificate_form (name_at names place)
        (capacity ∷ requests ∷ record { name = name_at names place; bytes = bytes.items } ∷ rest)
        stop) }
{
    match read_cert(alloc, &bytes) {
        Ok(certificate) => Ok(certificate),
        Err(CertFault::BadLine { line }) => Err(Stop::OutOfForm(place, line)),
        Err(CertFault::Memory) => Err(Stop::Memory),
    }
}

/// Whether a certificate is valid for a season.
fn judge_validity(
    alloc: Global,
    submission: &Submission,
    certificate: &Certificate,
) -> Result<(), Stop>
    requires { IsPrintable certificate.now }
    ensures alone { OnOk result ((name : Word) (capacity requests spelled : NamedBytes)
        (rest : List NamedBytes) → IsSeasonOf capacity.bytes requests.bytes submission.now →
        SpellsCert spelled.bytes certificate.now →
        ((other : CertificateValue) → SpellsCert spelled.bytes other → other ≡ certificate.now) →
        AcceptsAlone valid_certificate name (capacity ∷ requests ∷ spelled ∷ rest)) }
    ensures valid { OnOk result (IsValid submission.now certificate.now) }
    ensures stop { IfErr result (λ stop. (names : List Word) (name : Word)
        (capacity requests spelled : NamedBytes) (rest : List NamedBytes) →
        IsSeasonOf capacity.bytes requests.bytes submission.now →
        SpellsCert spelled.bytes certificate.now →
        ((other : CertificateValue) → SpellsCert spelled.bytes other → other ≡ certificate.now) →
        IsJudged names valid_certificate name (capacity ∷ requests ∷ spelled ∷ rest) stop) }
{
    one_answer();
    one_reading();
    one_verdict();
    one_failing_line();
    match check(alloc, submission, certificate)? {
        Verdict::Yes => Ok(()),
        Verdict::No { line, reason } => Err(Stop::NotValid(line, reason)),
    }
}
