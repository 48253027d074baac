//! Serving clients from the book of a certificate.

ghost use Rattle.std.specs.Prelude.{◌≡◌, ◌≤◌, ◌<◌, ◌+◌, ◌^◌, ◌∷◌, [], ℕ, List, All, Option};
ghost use Rattle.std.specs.Prelude.{true, false, IfOk, IfErr, length, map};
ghost use Rattle.desk_outside.specs.Files.{ChangesOnly};
ghost use Rattle.desk_disk.specs.Disks.{DiskView};
ghost use Rattle.turn_lock.specs.History.{StartsWith};
ghost use Rattle.scr_reader.specs.Again.{IsFitItem};
ghost use Rattle.scr_reader.specs.declared.line.Item.{Item as ItemValue};
ghost use Rattle.wasg_stages.specs.Valid.{IsValid};
ghost use Rattle.holding_book.specs.Starts.{start_book};
ghost use Rattle.holding_book.specs.Asks.{CanAsk};
ghost use Rattle.holding_book.specs.Histories.{IsLegal};
ghost use Rattle.session_desk.specs.declared.doors.TheConstants.{MOST_DOORS};
ghost use Rattle.command_words.specs.declared.job.Job.TheVariants.{Serve as ServeJob};
ghost use Rattle.desk_commands.specs.Jobs.{name_at};
ghost use Rattle.desk_commands.specs.Outside.{doors_change};
ghost use Rattle.desk_commands.specs.Services.{ServesLegally, IsWorker, AreWorkers};
ghost use Rattle.desk_commands.specs.Services.{is_full_end, is_broken_end, some_ended};
ghost use Rattle.desk_commands.specs.declared.service_lines.TheConstants.{MOST_ENTRIES};
ghost use Rattle.desk_commands.specs.Desk.{world_of};
ghost use Rattle.desk_commands.specs.Ends.{IsDoneBy, JobStopsBy};

use cert_format::Certificate;
use command_words::NameList;
use desk_commands::laws::{ended_jobs, few_holdings};
use desk_commands::{
    Answer, MOST_ENTRIES, ServiceOutput, Stop, read_proved, tell_served, write_one,
};
use desk_links::Door;
use desk_outside::Cabinet;
use desk_outside::laws::file_changes;
use holding_book::laws::{answer_lines, replays_fit};
use holding_book::{Book, Entry};
use series_model::Submission;
use session_desk::{DoorWork, serve_doors};
use slot_ledger::{Beside, Nothing};
use slot_text::Memory;
use std::alloc::Global;
use std::sync::Wait;
use std::thread::Threads;
use wasg_stages::laws::valid_choices;
use worker_gate::Gate;

/// Reads a season and a certificate of it, which is valid; serves the clients of the doors, each
/// door by a worker, at most so many links of each; and then writes the text of the one history.
///
/// It waits for clients until all workers have ended.
pub(crate) fn serve<R: Threads + Wait + Sync, C: Cabinet, D: Door + Drop, G: Gate>(
    rt: &R,
    alloc: Global,
    names: &NameList,
    links: u32,
    cabinet: &mut C,
    doors: &mut Vec<D>,
    gate: &G,
) -> Result<Answer, Stop>
    requires few { length doors.old.items ≤ MOST_DOORS }
    ensures done { IfOk result (λ a. (port workers : ℕ) (disk : Option DiskView) →
        IsDoneBy (ServeJob names.now links port workers)
        (world_of C.files C.fault_count C.log cabinet.old)
        (doors_change D.view doors.old.items doors.new.items disk) a.status a.text.items
        (world_of C.files C.fault_count C.log cabinet.new)) }
    ensures stop { IfErr result (λ stop. (port workers : ℕ) (disk : Option DiskView) →
        JobStopsBy names.now (ServeJob names.now links port workers)
        (world_of C.files C.fault_count C.log cabinet.old)
        (doors_change D.view doors.old.items doors.new.items disk) stop
        (world_of C.files C.fault_count C.log cabinet.new)) }
    ensures others { ChangesOnly (C.files cabinet.old) (name_at names.now 3 ∷ [])
        (C.files cabinet.new) }
    ensures doors { length doors.new.items ≡ length doors.old.items }
{
    file_changes();
    ended_jobs();
    let proved = read_proved(alloc, names, cabinet)?;
    let output = service_output(
        rt,
        alloc,
        &proved.submission,
        &proved.certificate,
        links,
        doors,
        gate,
    )?;
    write_one(names, 3, &output.recorded, cabinet)?;
    Ok(output.answer)
}

/// Serves the clients of doors from the book of a certificate, and gives what is recorded and said.
fn service_output<R: Threads + Wait + Sync, D: Door + Drop, G: Gate>(
    rt: &R,
    alloc: Global,
    submission: &Submission,
    certificate: &Certificate,
    links: u32,
    doors: &mut Vec<D>,
    gate: &G,
) -> Result<ServiceOutput, Memory>
    requires valid { IsValid submission.now certificate.now }
    requires few { length doors.old.items ≤ MOST_DOORS }
    ensures served { IfOk result (λ output.
        ServesLegally (start_book submission.now certificate.now) links
        (map D.view doors.old.items) (map D.view doors.new.items)
        output.recorded.items output.answer.status output.answer.text.items) }
    ensures doors { length doors.new.items ≡ length doors.old.items }
{
    valid_choices();
    answer_lines();
    replays_fit();
    few_holdings();
    let _units = submission.units();
    let season = submission.declaration().season;
    let book = Book::of(alloc, submission, certificate)?;
    let _declaration = book.declaration();
    let (history, works, _) = served(rt, alloc, book, Nothing, links, MOST_ENTRIES, doors, gate)?;
    let output = tell_served(alloc, &season, &history, &works)?;
    Ok(output)
}

/// The history from a book, what each worker did, and what was kept beside it. Without doors it is
/// empty.
pub(crate) fn served<R: Threads + Wait + Sync, D: Door + Drop, B: Beside + Send, G: Gate>(
    rt: &R,
    alloc: Global,
    book: Book,
    beside: B,
    links: u32,
    most: u32,
    doors: &mut Vec<D>,
    gate: &G,
) -> Result<(Vec<Entry>, Vec<DoorWork>, B), Memory>
    requires few { length doors.old.items ≤ MOST_DOORS }
    requires holdings { length book.book.holdings < 2 ^ 31 }
    requires most { B.found (B.start beside) + most ≡ MOST_ENTRIES }
    requires agrees { B.agrees beside [] }
    requires empty { B.told beside [] ≡ [] }
    requires takes { (n : ℕ) (ask : ItemValue) → n < length doors.old.items
        → IsFitItem book.book.declaration.season ask → B.takes (B.start beside) n ask }
    ensures doors { length doors.new.items ≡ length doors.old.items }
    ensures legal { IfOk result (λ done. IsLegal book.book done.0.items) }
    ensures few { IfOk result (λ done.
        B.found (B.start beside) + length done.0.items ≤ MOST_ENTRIES) }
    ensures asked { IfOk result (λ done.
        All (λ entry. CanAsk book.book.declaration entry.ask) done.0.items) }
    ensures callers { IfOk result (λ done.
        All (λ entry. entry.caller < length doors.old.items) done.0.items) }
    ensures full { IfOk result (λ done. some_ended is_full_end done.1.items ≡ true
        → B.found (B.start beside) + length done.0.items ≡ MOST_ENTRIES) }
    ensures broken { IfOk result (λ done. some_ended is_broken_end done.1.items ≡ true
        → (seen : List B.Told) × StartsWith (B.told done.2 done.0.items) seen
        × ((faults : ℕ) × B.broken seen faults)) }
    ensures count { IfOk result (λ done. length done.1.items ≡ length doors.old.items) }
    ensures workers { IfOk result (λ done. AreWorkers
        (IsWorker B.broken book.book links done.0.items) 0
        (map D.view doors.old.items) done.1.items (map D.view doors.new.items)) }
    ensures start { IfOk result (λ done. B.start done.2 ≡ B.start beside) }
    ensures agrees { IfOk result (λ done. B.agrees done.2 done.0.items) }
{
    if doors.is_empty() {
        return Ok((Vec::new(alloc), Vec::new(alloc), beside));
    }
    let (history, works, beside) = serve_doors(rt, alloc, gate, book, beside, doors, links, most)?;
    Ok((history, works, beside))
}
