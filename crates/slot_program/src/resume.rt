//! Serving clients from the book of a certificate and a journal, which has each entry before it is
//! answered.

ghost use Rattle.std.specs.Prelude.{◌≡◌, ◌≤◌, ◌<◌, ◌∷◌, [], ℕ, Some, IfOk, IfErr, length};
ghost use Rattle.std.specs.Prelude.{◌^◌, All, option_map};
ghost use Rattle.desk_disk.specs.Disks.{DiskView};
ghost use Rattle.desk_outside.specs.Files.{ChangesOnly};
ghost use Rattle.wasg_stages.specs.Valid.{IsValid};
ghost use Rattle.holding_book.specs.Books.{IsBook};
ghost use Rattle.holding_book.specs.Starts.{start_book};
ghost use Rattle.amend_journal.specs.Format.{IsFit};
ghost use Rattle.amend_journal.specs.Kept.{book_after};
ghost use Rattle.amend_journal.specs.declared.asked.TheConstants.{MOST_PAIRS};
ghost use Rattle.session_desk.specs.declared.doors.TheConstants.{MOST_DOORS};
ghost use Rattle.command_words.specs.declared.job.Job.TheVariants.{Resume as ResumeJob};
ghost use Rattle.desk_commands.specs.Jobs.{name_at};
ghost use Rattle.desk_commands.specs.Outside.{outside_change};
ghost use Rattle.desk_commands.specs.Resumed.{ResumesLegally};
ghost use Rattle.desk_commands.specs.Opened.{IsOpened, DiskStops, JournalStops, open_stop};
ghost use Rattle.desk_commands.specs.Desk.{world_of};
ghost use Rattle.desk_commands.specs.Ends.{IsDoneBy, JobStopsBy};

use crate::serve::served;
use amend_journal::{Asked, Journal, JournalKept, MOST_PAIRS, OpenFault, replayed};
use cert_format::Certificate;
use command_words::NameList;
use desk_commands::laws::{ended_jobs, few_holdings};
use desk_commands::{Answer, NoJournal, ServiceOutput, Stop, read_proved, tell_resumed, write_one};
use desk_disk::Disk;
use desk_links::Door;
use desk_outside::Cabinet;
use desk_outside::laws::file_changes;
use holding_book::Book;
use holding_book::laws::{answer_lines, next_books, replays_fit};
use season_days::Season;
use series_model::Submission;
use slot_text::Memory;
use std::alloc::Global;
use std::sync::Wait;
use std::thread::Threads;
use wasg_stages::laws::valid_choices;
use worker_gate::Gate;

/// Reads a season and a certificate of it, which is valid; opens the journal of the disk and
/// answers its pairs anew; serves the clients of the doors, as `serve` does, where the journal has
/// each entry before it is answered; and then writes the text of the history since.
///
/// It waits for clients until all workers have ended. The disk is taken out, and put back whatever
/// comes, but where memory runs out.
pub(crate) fn resume<R: Threads + Wait + Sync, C: Cabinet, D: Door + Drop, G: Gate, K: Disk>(
    rt: &R,
    alloc: Global,
    names: &NameList,
    links: u32,
    cabinet: &mut C,
    doors: &mut Vec<D>,
    gate: &G,
    disk: &mut Option<K>,
) -> Result<Answer, Stop>
    requires few { length doors.old.items ≤ MOST_DOORS }
    ensures done { IfOk result (λ a. (port workers : ℕ) →
        IsDoneBy (ResumeJob names.now links port workers)
        (world_of C.files C.fault_count C.log cabinet.old)
        (outside_change D.view K.view doors.old.items disk.old doors.new.items disk.new) a.status
        a.text.items (world_of C.files C.fault_count C.log cabinet.new)) }
    ensures stop { IfErr result (λ stop. (port workers : ℕ) →
        JobStopsBy names.now (ResumeJob names.now links port workers)
        (world_of C.files C.fault_count C.log cabinet.old)
        (outside_change D.view K.view doors.old.items disk.old doors.new.items disk.new) stop
        (world_of C.files C.fault_count C.log cabinet.new)) }
    ensures others { ChangesOnly (C.files cabinet.old) (name_at names.now 4 ∷ [])
        (C.files cabinet.new) }
    ensures doors { length doors.new.items ≡ length doors.old.items }
{
    file_changes();
    ended_jobs();
    let proved = read_proved(alloc, names, cabinet)?;
    let output = resumed_output(
        rt,
        alloc,
        &proved.submission,
        &proved.certificate,
        links,
        doors,
        gate,
        disk,
    )?;
    write_one(names, 4, &output.recorded, cabinet)?;
    Ok(output.answer)
}

/// Serves the clients of doors from the book of a certificate and a journal, and gives what is
/// recorded and said.
fn resumed_output<R: Threads + Wait + Sync, D: Door + Drop, G: Gate, K: Disk>(
    rt: &R,
    alloc: Global,
    submission: &Submission,
    certificate: &Certificate,
    links: u32,
    doors: &mut Vec<D>,
    gate: &G,
    disk: &mut Option<K>,
) -> Result<ServiceOutput, Stop>
    requires valid { IsValid submission.now certificate.now }
    requires few { length doors.old.items ≤ MOST_DOORS }
    ensures served { IfOk result (λ output.
        ResumesLegally (start_book submission.now certificate.now) links
        (outside_change D.view K.view doors.old.items disk.old doors.new.items disk.new)
        output.recorded.items output.answer.status output.answer.text.items) }
    ensures stop { IfErr result (λ stop.
        JournalStops submission.now.declaration.season
        (outside_change D.view K.view doors.old.items disk.old doors.new.items disk.new) stop) }
    ensures year { submission.now.declaration.season.year < 100 }
    ensures doors { length doors.new.items ≡ length doors.old.items }
{
    answer_lines();
    next_books();
    replays_fit();
    let season = submission.declaration().season;
    let _year = season.year();
    let (journal, pairs) = opened(alloc, &season, disk)?;
    let book = book_behind(alloc, submission, certificate, &pairs)?;
    let _after = book.declaration();
    let beside = JournalKept::of(journal);
    let most = MOST_PAIRS - beside.found_pairs();
    let (history, works, kept) = served(rt, alloc, book, beside, links, most, doors, gate)?;
    let failure = kept.failure();
    let failed = failure.is_some();
    *disk = Some(kept.into_disk());
    let output = tell_resumed(alloc, failed, pairs.len(), &season, &history, &works)?;
    Ok(output)
}

/// The book of a certificate after the pairs of a journal.
fn book_behind(
    alloc: Global,
    submission: &Submission,
    certificate: &Certificate,
    pairs: &[Asked],
) -> Result<Book, Memory>
    requires valid { IsValid submission.now certificate.now }
    requires fit { All (IsFit submission.now.declaration.season) pairs.now }
    requires many { length pairs.now ≤ MOST_PAIRS }
    ensures book { IfOk result (λ b. b.book
        ≡ book_after (start_book submission.now certificate.now) pairs.now) }
    ensures declaration { IfOk result (λ b. b.book.declaration ≡ submission.now.declaration) }
    ensures start { IfOk result (λ _. IsBook (start_book submission.now certificate.now)) }
    ensures few { IfOk result (λ b. length b.book.holdings < 2 ^ 31) }
{
    valid_choices();
    few_holdings();
    let _units = submission.units();
    let start = Book::of(alloc, submission, certificate)?;
    let _declaration = start.declaration();
    let book = replayed(alloc, start, pairs)?;
    Ok(book)
}

/// Opens the journal of the disk, which is taken out, and gives the pairs that it has. Where it is
/// refused the disk is put back.
fn opened<K: Disk>(
    alloc: Global,
    season: &Season,
    disk: &mut Option<K>,
) -> Result<(Journal<K>, Vec<Asked>), Stop>
    ensures opened { IfOk result (λ opened. (d : DiskView)
        × (option_map K.view disk.old ≡ Some d)
        × IsOpened season.now opened.1.items d opened.0) }
    ensures stop { IfErr result (DiskStops season.now (option_map K.view disk.old)
        (option_map K.view disk.new)) }
{
    let Some(held) = disk.take() else {
        return Err(Stop::Unopened(NoJournal::Missing));
    };
    match Journal::open(alloc, held, season) {
        Ok((journal, pairs)) => {
            let _count = journal.count();
            Ok((journal, pairs))
        }
        Err((fault, held)) => {
            *disk = Some(held);
            Err(stop_of(fault))
        }
    }
}

/// Why a job stops since its journal was not opened.
fn stop_of(fault: OpenFault) -> Stop
    ensures { result ≡ open_stop fault }
{
    match fault {
        OpenFault::NotJournal => Stop::Unopened(NoJournal::Other),
        OpenFault::BadSlot { number } => Stop::Unopened(NoJournal::Slot(number)),
        OpenFault::DiskFault => Stop::Unopened(NoJournal::Fault),
        OpenFault::Memory => Stop::Memory,
    }
}
