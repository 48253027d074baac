//! Looking at a season before it is allotted: what its files hold, or why they are refused.

ghost use Rattle.std.specs.Prelude.{◌≡◌, ◌⊎◌, ◌∷◌, ◌≤◌, ◌<◌, ◌^◌, ℕ, List, length, All, IfOk};
ghost use Rattle.std.specs.Prelude.{IfErr, OnOk, Ok, Err};
ghost use Rattle.season_days.specs.declared.declaration.Declaration.{Declaration as DeclarationValue};
ghost use Rattle.season_days.specs.Capacity.{IsDeclaration};
ghost use Rattle.capacity_file.specs.Declares.{IsCapacityFile};
ghost use Rattle.capacity_file.specs.Faults.{HasCapacityFault};
ghost use Rattle.capacity_file.specs.declared.fault.CapFault.TheVariants.{Memory as no_capacity};
ghost use Rattle.scr_reader.specs.Messages.{ReadsAll, HasScrFault};
ghost use Rattle.scr_reader.specs.declared.fault.ScrFault.TheVariants.{Memory as no_message};
ghost use Rattle.scr_reader.specs.declared.message.Message.{Message as MessageValue};
ghost use Rattle.scr_reader.specs.Printed.{MessagesFit};
ghost use Rattle.series_model.specs.Submissions.{HasNumbers, MessagePairs, item_count};
ghost use Rattle.series_model.specs.Submissions.{submission_answer};
ghost use Rattle.series_model.specs.declared.fault.ModelFault.TheVariants.{Memory as no_model};
ghost use Rattle.fault_causes.specs.Requests.{HasSubmissionFault};
ghost use Rattle.command_words.specs.Words.{Word};
ghost use Rattle.command_words.specs.declared.job.Job.TheVariants.{Inspect as InspectJob};
ghost use Rattle.desk_commands.specs.Judgements.{NamedBytes, IsSeasonOf};
ghost use Rattle.desk_commands.specs.Judgements.{capacity_cause as judged_capacity};
ghost use Rattle.desk_commands.specs.Judgements.{requests_cause as judged_requests};
ghost use Rattle.desk_commands.specs.Jobs.{name_at};
ghost use Rattle.desk_commands.specs.Desk.{world_of};
ghost use Rattle.desk_commands.specs.Ends.{IsDone, JobStops};
ghost use Rattle.desk_commands.specs.Leads.{AcceptsAlone};
ghost use Rattle.desk_commands.specs.Stops.{caused, IsJudged};
ghost use Rattle.desk_commands.specs.declared.files.TheConstants.{LONGEST_FILE as MOST_BYTES};

use crate::files::{LONGEST_FILE, read_file};
use crate::inspection::inspection_text;
use crate::season::{capacity_stop, message_stop, submission_stop};
use crate::stop::{Answer, Stop};
use capacity_file::laws::one_answer;
use capacity_file::{CapFault, read_capacity};
use command_words::NameList;
use desk_outside::Cabinet;
use fault_causes::laws::one_cause;
use fault_causes::{Cause, capacity_cause, message_cause, submission_cause};
use scr_reader::laws::{one_reading, read_lines_fit};
use scr_reader::{MessageList, ScrFault, read_all};
use season_days::Declaration;
use series_model::laws::read_messages;
use series_model::{ModelFault, Submission};
use std::alloc::Global;

/// Reads a season, and says what it is; or why it is refused.
pub(crate) fn inspect<C: Cabinet>(
    alloc: Global,
    names: &NameList,
    cabinet: &mut C,
) -> Result<Answer, Stop>
    ensures done { IfOk result (λ a. IsDone (InspectJob names.now)
        (world_of C.files C.fault_count C.log cabinet.old) a.status a.text.items
        (world_of C.files C.fault_count C.log cabinet.new)) }
    ensures stop { IfErr result (λ stop. JobStops names.now (InspectJob names.now)
        (world_of C.files C.fault_count C.log cabinet.old) stop
        (world_of C.files C.fault_count C.log cabinet.new)) }
    ensures unchanged { C.files cabinet.new ≡ C.files cabinet.old }
{
    let capacity = read_file(alloc, names, 0, LONGEST_FILE, cabinet)?;
    let declaration = judge_capacity(alloc, 0, &capacity)?;
    let requests = read_file(alloc, names, 1, LONGEST_FILE, cabinet)?;
    let submission = judge_requests(alloc, 1, declaration, &requests)?;
    let text = inspection_text(alloc, &submission)?;
    Ok(Answer { status: 0, text })
}

/// The same stop with its cause.
fn with_cause(stop: Stop, cause: Cause) -> Stop
    ensures { result ≡ caused stop cause }
{
    match stop {
        Stop::OutOfForm(place, line) => Stop::BadForm(place, line, cause),
        Stop::OverLimit(limit, number) => Stop::PastLimit(limit, number, cause),
        other => other,
    }
}

/// Why a text is no capacity file, with the cause.
fn capacity_refusal(place: usize, bytes: &[u8], fault: CapFault) -> Stop
    requires short { length bytes.now ≤ MOST_BYTES }
    requires has { HasCapacityFault bytes.now fault ⊎ (fault ≡ no_capacity) }
    ensures { (names : List Word) (rest : List NamedBytes) →
        IsJudged names judged_capacity (name_at names place)
        (record { name = name_at names place; bytes = bytes.now } ∷ rest) result }
{
    one_answer();
    one_cause();
    match fault {
        CapFault::Memory => Stop::Memory,
        _ => with_cause(
            capacity_stop(place, bytes, fault),
            capacity_cause(bytes, fault),
        ),
    }
}

/// The declaration of a capacity file.
fn judge_capacity(alloc: Global, place: usize, bytes: &[u8]) -> Result<Declaration, Stop>
    requires { length bytes.now ≤ MOST_BYTES }
    ensures found { IfOk result (λ d. IsCapacityFile bytes.now d) }
    ensures keeps { IfOk result (λ d. IsDeclaration d) }
    ensures alone { OnOk result ((name : Word) (rest : List NamedBytes) →
        AcceptsAlone judged_capacity name (record { name = name; bytes = bytes.now } ∷ rest)) }
    ensures stop { IfErr result (λ stop. (names : List Word) (rest : List NamedBytes) →
        IsJudged names judged_capacity (name_at names place)
        (record { name = name_at names place; bytes = bytes.now } ∷ rest) stop) }
{
    one_answer();
    one_cause();
    match read_capacity(alloc, bytes) {
        Ok(declaration) => Ok(declaration),
        Err(fault) => Err(capacity_refusal(place, bytes, fault)),
    }
}

/// The submission that requests make under a declaration.
fn judge_requests(
    alloc: Global,
    place: usize,
    declaration: Declaration,
    bytes: &[u8],
) -> Result<Submission, Stop>
    requires short { length bytes.now ≤ MOST_BYTES }
    requires keeps { IsDeclaration declaration }
    ensures found { IfOk result (λ s. (capacity : List ℕ) → IsCapacityFile capacity declaration →
        IsSeasonOf capacity bytes.now s) }
    ensures alone { OnOk result ((name : Word) (capacity : NamedBytes) (rest : List NamedBytes) →
        IsCapacityFile capacity.bytes declaration → AcceptsAlone judged_requests name
        (capacity ∷ record { name = name; bytes = bytes.now } ∷ rest)) }
    ensures stop { IfErr result (λ stop. (names : List Word) (capacity : NamedBytes)
        (rest : List NamedBytes) → IsCapacityFile capacity.bytes declaration →
        IsJudged names judged_requests (name_at names place)
        (capacity ∷ record { name = name_at names place; bytes = bytes.now } ∷ rest) stop) }
{
    one_answer();
    one_reading();
    one_cause();
    read_messages();
    read_lines_fit();
    let messages = read_requests(alloc, place, bytes)?;
    let submission = make_submission(alloc, place, declaration, messages, bytes)?;
    Ok(submission)
}

/// Why a text is no list of messages, with the cause.
fn message_refusal(place: usize, bytes: &[u8], fault: ScrFault) -> Stop
    requires short { length bytes.now ≤ MOST_BYTES }
    requires has { HasScrFault bytes.now fault ⊎ (fault ≡ no_message) }
    ensures { (names : List Word) (capacity : NamedBytes) (rest : List NamedBytes) →
        IsJudged names judged_requests (name_at names place)
        (capacity ∷ record { name = name_at names place; bytes = bytes.now } ∷ rest) result }
{
    one_answer();
    one_reading();
    one_cause();
    match fault {
        ScrFault::Memory => Stop::Memory,
        _ => with_cause(message_stop(place, fault), message_cause(bytes, fault)),
    }
}

/// The messages of a text.
fn read_requests(alloc: Global, place: usize, bytes: &[u8]) -> Result<MessageList, Stop>
    requires { length bytes.now ≤ MOST_BYTES }
    ensures found { IfOk result (ReadsAll bytes.now) }
    ensures stop { IfErr result (λ stop. (names : List Word) (capacity : NamedBytes)
        (rest : List NamedBytes) → IsJudged names judged_requests (name_at names place)
        (capacity ∷ record { name = name_at names place; bytes = bytes.now } ∷ rest) stop) }
{
    match read_all(alloc, bytes) {
        Ok(messages) => Ok(messages),
        Err(fault) => Err(message_refusal(place, bytes, fault)),
    }
}

/// Why messages of a text make no submission, with the cause.
fn submission_refusal(place: usize, bytes: &[u8], fault: ModelFault) -> Stop
    requires short { length bytes.now ≤ MOST_BYTES }
    requires has { HasSubmissionFault bytes.now fault ⊎ (fault ≡ no_model) }
    ensures { (d : DeclarationValue) (messages : List MessageValue) → ReadsAll bytes.now messages →
        (submission_answer d messages ≡ Err fault) ⊎ (fault ≡ no_model) →
        (names : List Word) (capacity : NamedBytes) (rest : List NamedBytes) →
        IsCapacityFile capacity.bytes d → IsJudged names judged_requests (name_at names place)
        (capacity ∷ record { name = name_at names place; bytes = bytes.now } ∷ rest) result }
{
    one_answer();
    one_reading();
    one_cause();
    match fault {
        ModelFault::Memory => Stop::Memory,
        _ => with_cause(
            submission_stop(place, fault),
            submission_cause(bytes, fault),
        ),
    }
}

/// The submission that messages make, which were read from these bytes.
fn make_submission(
    alloc: Global,
    place: usize,
    declaration: Declaration,
    messages: MessageList,
    bytes: &[u8],
) -> Result<Submission, Stop>
    requires short { length bytes.now ≤ MOST_BYTES }
    requires keeps { IsDeclaration declaration }
    requires read { ReadsAll bytes.now messages }
    requires numbers { All HasNumbers messages }
    requires few { item_count messages < 2 ^ 31 }
    requires fits { MessagesFit messages }
    requires pairs { All MessagePairs messages }
    ensures made { IfOk result (λ s. submission_answer declaration messages ≡ Ok s) }
    ensures stop { IfErr result (λ stop. (names : List Word) (capacity : NamedBytes)
        (rest : List NamedBytes) → IsCapacityFile capacity.bytes declaration →
        IsJudged names judged_requests (name_at names place)
        (capacity ∷ record { name = name_at names place; bytes = bytes.now } ∷ rest) stop) }
{
    match Submission::make(alloc, declaration, messages) {
        Ok(submission) => Ok(submission),
        Err(fault) => Err(submission_refusal(place, bytes, fault)),
    }
}
