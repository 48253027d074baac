//! Watching what was operated: which series of the book of a certificate keep precedence.

ghost use Rattle.std.specs.Prelude.{◌≡◌, ◌≤◌, ◌∷◌, [], List, All, IfOk, IfErr, OnOk, length};
ghost use Rattle.std.specs.String.{string_bytes};
ghost use Rattle.season_days.specs.Seasons.{same_season_next_year};
ghost use Rattle.desk_outside.specs.Files.{ChangesOnly};
ghost use Rattle.scr_reader.specs.Again.{IsAirlineMessage};
ghost use Rattle.wasg_stages.specs.Valid.{IsValid};
ghost use Rattle.holding_book.specs.Starts.{start_book};
ghost use Rattle.usage_watch.specs.Reports.{SaysOperated};
ghost use Rattle.command_words.specs.Words.{Word};
ghost use Rattle.command_words.specs.declared.job.Job.TheVariants.{Usage as UsageJob};
ghost use Rattle.desk_commands.specs.Judgements.{NamedBytes, IsSeasonOf, reports_form, next_season};
ghost use Rattle.desk_commands.specs.Steps.{Step, reads, judges};
ghost use Rattle.desk_commands.specs.Jobs.{name_at};
ghost use Rattle.desk_commands.specs.Desk.{World, world_of};
ghost use Rattle.desk_commands.specs.Ends.{IsDone, JobStops};
ghost use Rattle.desk_commands.specs.Leads.{Leads, AcceptsAlone};
ghost use Rattle.desk_commands.specs.Stops.{IsJudged, StopLeads};
ghost use Rattle.desk_commands.specs.Usages.{IsWatched, next_header, usage_line};
ghost use Rattle.desk_commands.specs.declared.files.TheConstants.{LONGEST_FILE as MOST_BYTES};

use crate::files::{LONGEST_FILE, read_file};
use crate::season::read_proved;
use crate::stop::{Answer, Stop};
use crate::writes::write_one;
use capacity_file::laws::one_answer;
use cert_format::Certificate;
use command_words::NameList;
use desk_outside::Cabinet;
use desk_outside::laws::file_changes;
use holding_book::Book;
use scr_reader::Header;
use scr_reader::laws::read_items_can_be_asked;
use season_days::Season;
use series_model::Submission;
use slot_text::Memory;
use std::alloc::Global;
use usage_watch::laws::{next_is_read, next_lines_fit};
use usage_watch::{OperatedFault, OperatedList, print_next, read_operated, watch};
use wasg_stages::laws::valid_choices;

/// What the watch gives.
#[derive(Drop)]
struct UsageOutput {
    next: Vec<u8>,
    text: String,
}

/// Reads a season, a certificate of it, which is valid, and reports; and writes the lines of the
/// next season that keep precedence. All memory is taken before the write.
pub(crate) fn usage<C: Cabinet>(
    alloc: Global,
    names: &NameList,
    cabinet: &mut C,
) -> Result<Answer, Stop>
    ensures done { IfOk result (λ a. IsDone (UsageJob names.now)
        (world_of C.files C.fault_count C.log cabinet.old) a.status a.text.items
        (world_of C.files C.fault_count C.log cabinet.new)) }
    ensures stop { IfErr result (λ stop. JobStops names.now (UsageJob names.now)
        (world_of C.files C.fault_count C.log cabinet.old) stop
        (world_of C.files C.fault_count C.log cabinet.new)) }
    ensures others { ChangesOnly (C.files cabinet.old) (name_at names.now 4 ∷ [])
        (C.files cabinet.new) }
{
    file_changes();
    read_items_can_be_asked();
    let proved = read_proved(alloc, names, cabinet)?;
    let operated = read_reports(alloc, names, &proved.submission, cabinet)?;
    let next = judge_next(&proved.submission)?;
    let output = usage_output(
        alloc,
        &proved.submission,
        &proved.certificate,
        &operated,
        next,
    )?;
    write_one(names, 4, &output.next, cabinet)?;
    Ok(Answer {
        status: 0,
        text: output.text.into_bytes(),
    })
}

/// Reads the reports of a job, which follow its certificate.
fn read_reports<C: Cabinet>(
    alloc: Global,
    names: &NameList,
    submission: &Submission,
    cabinet: &mut C,
) -> Result<OperatedList, Stop>
    ensures found { IfOk result (λ reports. (w : World) (all steps : List Step)
        (capacity requests certificate : NamedBytes) →
        IsSeasonOf capacity.bytes requests.bytes submission.now →
        Leads w all (capacity ∷ requests ∷ certificate ∷ []) (reads (name_at names.now 3) MOST_BYTES
        ∷ judges reports_form (name_at names.now 3) ∷ steps)
        (world_of C.files C.fault_count C.log cabinet.old) →
        (text : NamedBytes)
        × SaysOperated submission.now.declaration.season text.bytes reports
        × Leads w all (capacity ∷ requests ∷ certificate ∷ text ∷ []) steps
        (world_of C.files C.fault_count C.log cabinet.new)) }
    ensures stop { IfErr result (λ stop. (w : World) (all steps : List Step)
        (capacity requests certificate : NamedBytes) →
        IsSeasonOf capacity.bytes requests.bytes submission.now →
        Leads w all (capacity ∷ requests ∷ certificate ∷ []) (reads (name_at names.now 3) MOST_BYTES
        ∷ judges reports_form (name_at names.now 3) ∷ steps)
        (world_of C.files C.fault_count C.log cabinet.old) →
        StopLeads names.now w all stop (world_of C.files C.fault_count C.log cabinet.new)) }
    ensures unchanged { C.files cabinet.new ≡ C.files cabinet.old }
{
    let bytes = read_file(alloc, names, 3, LONGEST_FILE, cabinet)?;
    let operated = judge_reports(alloc, 3, submission, &bytes)?;
    Ok(operated)
}

/// The reports of a text.
fn judge_reports(
    alloc: Global,
    place: usize,
    submission: &Submission,
    bytes: &[u8],
) -> Result<OperatedList, Stop>
    requires { length bytes.now ≤ MOST_BYTES }
    ensures found { IfOk result
        (λ reports. SaysOperated submission.now.declaration.season bytes.now reports) }
    ensures alone { OnOk result ((name : Word) (capacity requests certificate : NamedBytes)
        (rest : List NamedBytes) → IsSeasonOf capacity.bytes requests.bytes submission.now →
        AcceptsAlone reports_form name
        (capacity ∷ requests ∷ certificate ∷ record { name = name; bytes = bytes.now } ∷ rest)) }
    ensures stop { IfErr result (λ stop. (names : List Word)
        (capacity requests certificate : NamedBytes) (rest : List NamedBytes) →
        IsSeasonOf capacity.bytes requests.bytes submission.now →
        IsJudged names reports_form (name_at names place)
        (capacity ∷ requests ∷ certificate
        ∷ record { name = name_at names place; bytes = bytes.now } ∷ rest) stop) }
{
    one_answer();
    let season = submission.declaration().season;
    match read_operated(alloc, &season, bytes) {
        Ok(operated) => Ok(operated),
        Err(OperatedFault::BadLine { line }) => Err(Stop::OutOfForm(place, line)),
        Err(OperatedFault::Memory) => Err(Stop::Memory),
    }
}

/// The season one year after that of a submission.
fn judge_next(submission: &Submission) -> Result<Season, Stop>
    ensures found { IfOk result
        (λ next. next ≡ same_season_next_year submission.now.declaration.season) }
    ensures alone { OnOk result ((name : Word) (capacity requests : NamedBytes)
        (rest : List NamedBytes) → IsSeasonOf capacity.bytes requests.bytes submission.now →
        AcceptsAlone next_season name (capacity ∷ requests ∷ rest)) }
    ensures stop { IfErr result (λ stop. (names : List Word) (name : Word)
        (capacity requests : NamedBytes) (rest : List NamedBytes) →
        IsSeasonOf capacity.bytes requests.bytes submission.now →
        IsJudged names next_season name (capacity ∷ requests ∷ rest) stop) }
{
    one_answer();
    match submission.declaration().season.next() {
        Some(next) => Ok(next),
        None => Err(Stop::NoNext),
    }
}

/// What the book of a certificate keeps, and what is written and said of it.
fn usage_output(
    alloc: Global,
    submission: &Submission,
    certificate: &Certificate,
    operated: &OperatedList,
    next: Season,
) -> Result<UsageOutput, Memory>
    requires valid { IsValid submission.now certificate.now }
    requires next { next ≡ same_season_next_year submission.now.declaration.season }
    requires asked { All IsAirlineMessage submission.now.messages }
    ensures { IfOk result (λ output. IsWatched submission.now
        (start_book submission.now certificate.now) operated.now output.next.items
        (string_bytes output.text)) }
{
    valid_choices();
    let book = Book::of(alloc, submission, certificate)?;
    watched_output(alloc, submission, certificate, &book, operated, next)
}

/// What a book keeps, and what is written and said of it.
fn watched_output(
    alloc: Global,
    submission: &Submission,
    _certificate: &Certificate,
    book: &Book,
    operated: &OperatedList,
    next: Season,
) -> Result<UsageOutput, Memory>
    requires start { book.now.book ≡ start_book submission.now _certificate.now }
    requires next { next ≡ same_season_next_year submission.now.declaration.season }
    requires asked { All IsAirlineMessage submission.now.messages }
    ensures { IfOk result (λ output. IsWatched submission.now
        (start_book submission.now _certificate.now) operated.now output.next.items
        (string_bytes output.text)) }
{
    next_lines_fit();
    next_is_read();
    let _units = submission.units();
    let _year = next.year();
    let season = book.declaration().season;
    let usage = watch(alloc, &season, &next, book.holdings(), operated)?;
    let header = next_header(submission, next);
    let written = print_next(alloc, &header, usage.next.items())?;
    let text = usage_line(alloc, usage.series, usage.kept)?;
    Ok(UsageOutput {
        next: written,
        text,
    })
}

/// The header of the next season's message.
fn next_header(submission: &Submission, next: Season) -> Header
    requires { next ≡ same_season_next_year submission.now.declaration.season }
    ensures { result ≡ next_header submission.now }
{
    match submission.messages().items() {
        [first, ..] => Header {
            season: next,
            day: first.day,
            month: first.month,
            airport: first.airport,
        },
        [] => Header {
            season: next,
            day: 1,
            month: 1,
            airport: submission.declaration().airport,
        },
    }
}

/// How many series there are, and how many of them keep precedence.
fn usage_line(alloc: Global, series: u64, kept: u64) -> Result<String, Memory>
    ensures { IfOk result (λ text. string_bytes text ≡ usage_line series kept) }
{
    let text = format!(in alloc; "SERIES {series} KEPT {kept}\n")?;
    Ok(text)
}
