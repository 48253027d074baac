//! What waits after the asks of a file, from the book of a certificate.

ghost use Rattle.std.specs.Prelude.{◌≡◌, ◌≤◌, ◌∷◌, List, All, IfOk, IfErr, OnOk, length};
ghost use Rattle.wasg_stages.specs.Valid.{IsValid};
ghost use Rattle.holding_book.specs.declared.answer.Entry.{Entry as EntryValue};
ghost use Rattle.holding_book.specs.Asks.{CanAsk};
ghost use Rattle.holding_book.specs.Starts.{start_book};
ghost use Rattle.command_words.specs.Words.{Word};
ghost use Rattle.desk_commands.specs.Amendments.{IsOneHistory};
ghost use Rattle.desk_commands.specs.Reclearing.{IsAskedOf, last_book};
ghost use Rattle.desk_commands.specs.Judgements.{NamedBytes, IsSeasonOf, SpellsCert};
ghost use Rattle.desk_commands.specs.Judgements.{waiting_limit};
ghost use Rattle.desk_commands.specs.Steps.{Step};
ghost use Rattle.desk_commands.specs.Jobs.{waiting_steps};
ghost use Rattle.desk_commands.specs.Desk.{world_of};
ghost use Rattle.desk_commands.specs.Leads.{AcceptsAlone};
ghost use Rattle.desk_commands.specs.Stops.{IsRefusalBy, IsJudged, StopLeads};
ghost use Rattle.desk_commands.specs.Waits.{SpellsAlone, IsWaitingRefusal, IsLeftBy, IsLeft};
ghost use Rattle.desk_commands.specs.declared.files.TheConstants.{LONGEST_FILE as MOST_BYTES};

use crate::files::{LONGEST_FILE, read_file};
use crate::season::{read_certificate, read_season};
use crate::stop::{Limit, Stop};
use amend_run::{Amended, amend_messages, first_header};
use capacity_file::laws::one_answer;
use cert_format::Certificate;
use command_words::NameList;
use desk_outside::Cabinet;
use holding_book::Book;
use holding_book::laws::replays_fit;
use scr_reader::Header;
use scr_reader::laws::one_reading;
use series_model::Submission;
use slot_text::Memory;
use std::alloc::Global;
use wait_list::{WaitFault, Waiting};
use wasg_stages::laws::valid_choices;

/// What asks leave: the book after them, the lines that wait, and the header of replies to them.
#[derive(Drop)]
pub(crate) struct Left {
    pub submission: Submission,
    pub book: Book,
    pub waiting: Waiting,
    pub header: Option<Header>,
}

/// Reads a season, a certificate of it, which is valid, and asks; answers them, and gives what they
/// leave, where not too many lines wait.
pub(crate) fn read_waiting<C: Cabinet>(
    alloc: Global,
    names: &NameList,
    cabinet: &mut C,
) -> Result<Left, Stop>
    ensures left { IfOk result (λ left. IsLeft
        (world_of C.files C.fault_count C.log cabinet.old) names.now left.submission
        left.book.book left.waiting left.header
        (world_of C.files C.fault_count C.log cabinet.new)) }
    ensures stop { IfErr result (λ stop. (steps : List Step) →
        StopLeads names.now (world_of C.files C.fault_count C.log cabinet.old)
        (waiting_steps names.now steps) stop
        (world_of C.files C.fault_count C.log cabinet.new)) }
    ensures unchanged { C.files cabinet.new ≡ C.files cabinet.old }
{
    let submission = read_season(alloc, names, cabinet)?;
    let certificate = read_certificate(alloc, names, &submission, cabinet)?;
    let asks = read_file(alloc, names, 3, LONGEST_FILE, cabinet)?;
    let left = judge_asks(alloc, submission, &certificate, &asks)?;
    Ok(left)
}

/// Answers the asks of a text from the book of a certificate.
fn answer_asks(
    alloc: Global,
    submission: &Submission,
    certificate: &Certificate,
    asks: &[u8],
) -> Result<Amended, Memory>
    requires valid { IsValid submission.now certificate.now }
    requires short { length asks.now ≤ MOST_BYTES }
    ensures asked { IfOk result (λ amended.
        IsAskedOf submission.now certificate.now asks.now amended.history.items) }
    ensures only { IfOk result (λ amended. (other : List EntryValue) →
        IsAskedOf submission.now certificate.now asks.now other →
        other ≡ amended.history.items) }
    ensures one { IfOk result (λ amended.
        IsOneHistory (start_book submission.now certificate.now) amended.history.items) }
    ensures book { IfOk result (λ amended. amended.book.book
        ≡ last_book submission.now certificate.now amended.history.items) }
    ensures declared { IfOk result (λ amended.
        amended.book.book.declaration ≡ submission.now.declaration) }
    ensures can { IfOk result (λ amended.
        All (λ (entry : EntryValue). CanAsk amended.book.book.declaration entry.ask)
        amended.history.items) }
    ensures few { IfOk result (λ amended. length amended.history.items ≤ MOST_BYTES) }
{
    valid_choices();
    replays_fit();
    let _units = submission.units();
    let book = Book::of(alloc, submission, certificate)?;
    let amended = amend_messages(alloc, book, asks)?;
    Ok(amended)
}

/// What the asks of a text leave of the book of a certificate.
fn judge_asks(
    alloc: Global,
    submission: Submission,
    certificate: &Certificate,
    asks: &[u8],
) -> Result<Left, Stop>
    requires valid { IsValid submission certificate.now }
    requires short { length asks.now ≤ MOST_BYTES }
    ensures left { IfOk result (λ left. IsLeftBy submission certificate.now asks.now
        left.book.book left.waiting left.header) }
    ensures same { IfOk result (λ left. left.submission ≡ submission) }
    ensures alone { OnOk result ((name : Word) (capacity requests proved : NamedBytes)
        (rest : List NamedBytes) → IsSeasonOf capacity.bytes requests.bytes submission →
        SpellsCert proved.bytes certificate.now → SpellsAlone proved.bytes certificate.now →
        AcceptsAlone waiting_limit name
        (capacity ∷ requests ∷ proved ∷ record { name = name; bytes = asks.now } ∷ rest)) }
    ensures stop { IfErr result (λ stop. (names : List Word) (name : Word)
        (capacity requests proved : NamedBytes) (rest : List NamedBytes) →
        IsSeasonOf capacity.bytes requests.bytes submission →
        SpellsCert proved.bytes certificate.now → SpellsAlone proved.bytes certificate.now →
        IsJudged names waiting_limit name
        (capacity ∷ requests ∷ proved ∷ record { name = name; bytes = asks.now } ∷ rest) stop) }
{
    one_answer();
    one_reading();
    let declaration = submission.declaration();
    let header = first_header(alloc, declaration.season, declaration.airport, asks)?;
    let amended = answer_asks(alloc, &submission, certificate, asks)?;
    match Waiting::of(alloc, &amended.book, &amended.history) {
        Ok(waiting) => Ok(Left {
            submission,
            book: amended.book,
            waiting,
            header,
        }),
        Err(fault) => Err(waiting_stop(fault)),
    }
}

/// Why not all lines that are left may wait.
fn waiting_stop(fault: WaitFault) -> Stop
    ensures { (names : List Word) → IsRefusalBy names (IsWaitingRefusal fault) result }
{
    match fault {
        WaitFault::TooMany { waiting } => Stop::OverLimit(Limit::Waiting, u64::from(waiting)),
        WaitFault::Memory => Stop::Memory,
    }
}
