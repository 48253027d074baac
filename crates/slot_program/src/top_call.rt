//! The desk as one call: words, files, output, and the status.

ghost use Rattle.std.specs.Prelude.{◌≡◌, ◌≢◌, ◌⊎◌, ◌++◌, ◌∷◌, [], ◌≤◌, ℕ, List, Option, Some, None};
ghost use Rattle.std.specs.Prelude.{IfOk, Contains, map, length, option_map};
ghost use Rattle.desk_outside.specs.Cause.{Rose};
ghost use Rattle.desk_outside.specs.Files.{Files, ChangesOnly};
ghost use Rattle.desk_outside.specs.Bytes.{Puts, PutsPart};
ghost use Rattle.desk_outside.specs.Passages.{put, put_failed};
ghost use Rattle.command_words.specs.Words.{words_of};
ghost use Rattle.command_words.specs.Jobs.{job_of};
ghost use Rattle.desk_commands.specs.Reports.{Report, Refusal, JournalRefusal, refused, unopened};
ghost use Rattle.desk_commands.specs.Reports.{status_of, text_of};
ghost use Rattle.desk_commands.specs.Judgements.{NamedBytes};
ghost use Rattle.desk_commands.specs.Steps.{AllPass, FirstDue, form_steps};
ghost use Rattle.desk_commands.specs.Writing.{read_of, written_of};
ghost use Rattle.desk_commands.specs.Jobs.{AreFilesOf, name_at, steps_of, finishing_of};
ghost use Rattle.desk_commands.specs.Jobs.{HeadlineHolds};
ghost use Rattle.desk_commands.specs.Jobs.{calm_statuses, served_statuses, JournalDue, JournalStands};
ghost use Rattle.desk_commands.specs.Outside.{Outside, still, outside_of, outside_change};
ghost use Rattle.desk_commands.specs.Outside.{doors_change, door_faults, disk_faults, SomeRose};
ghost use Rattle.desk_commands.specs.Outside.{DiskRose};
ghost use Rattle.desk_disk.specs.Disks.{DiskView};
ghost use Rattle.session_desk.specs.declared.doors.TheConstants.{MOST_DOORS};
ghost use Rattle.desk_commands.specs.Desk.{World, LogGrew, OnlyOfJob, world_of, Ends, IsFinished};
ghost use Rattle.desk_commands.specs.Desk.{EndsUnopened, names_changed, IsStatus};
ghost use Rattle.desk_commands.specs.Desk.{ServesNone, KeepsNone};
ghost use Rattle.desk_commands.specs.Answers.{IsAnswer};
ghost use Rattle.command_words.specs.declared.job.Job.{Job as JobValue};
ghost use Rattle.command_words.specs.declared.job.Job.TheVariants.{Check as CheckJob};
ghost use Rattle.command_words.specs.declared.job.Job.TheVariants.{Serve as ServeJob};
ghost use Rattle.command_words.specs.declared.job.Job.TheVariants.{Resume as ResumeJob};

use crate::check::check;
use crate::resume::resume;
use crate::serve::serve;
use amend_journal::laws::one_standing;
use command_words::{Job, NameList, WordFault, read_words};
use desk_commands::laws::ended_jobs;
use desk_commands::{
    Answer, carry_out_allocate, carry_out_amend, carry_out_inspect, carry_out_make,
    carry_out_recheck, carry_out_reclear, carry_out_report, carry_out_trial, carry_out_usage,
    finish,
};
use desk_disk::Disk;
use desk_links::Door;
use desk_outside::{Cabinet, Sink};
use slot_text::Memory;
use std::alloc::Global;
use std::sync::Wait;
use std::thread::Threads;
use wait_list::laws::{allotted_fit, waiting_marks};
use wasg_stages::laws::valid_marks;
use worker_gate::Gate;

/// Does what the words of a command line ask, on the files of a cabinet, and says the result to a
/// sink. Where stages are searched, each worker passes the gate before it visits a node. Where
/// clients are served, each door has a worker of its own, which passes the gate before it asks the
/// history for a line; the command then waits until all workers have ended. Where a journal is kept
/// the disk is taken out, and put back but where memory runs out.
///
/// The answer is the status of the program: 0 where the work is done; 1 where the certificate that
/// was read is not valid, or a stage of a waiting list; 2 where the words are no command's; 3 where
/// a file is not in its form; 4 where a limit is passed; 5 where the cabinet failed, or has no such
/// file or one of more bytes than are read; 6 where the sink failed; 7 for want of memory; and
/// where the work is done but not each stage is settled with an allotment, 8 where a stage is
/// INFEASIBLE, and else 9 where one is OPEN; where clients were served, 10 where a door failed, and
/// else 11 where a client found the history full, with the work done as at 0. Where a journal is to
/// be kept, 13 where there is none, it is another file, or a slot of it is bad; and 14 where its
/// disk failed: when it was opened, or while clients were served, with the work done up to then.
/// Where lines of the next season are to be written, 15 where there is none, and nothing is
/// written. The clauses say the same of every command; what a command's steps, writes and work are
/// stands in `Jobs.antt` of `desk_commands`.
pub fn desk<R: Threads + Wait + Sync, C: Cabinet, S: Sink, D: Door + Drop, G: Gate, K: Disk>(
    rt: &R,
    alloc: Global,
    words: &[String],
    cabinet: &mut C,
    out: &mut S,
    doors: &mut Vec<D>,
    gate: &G,
    disk: &mut Option<K>,
) -> u8
    requires doors { length doors.old.items ≤ MOST_DOORS }
    // The status, what passed between the desk and the cabinet, the files after it, what its doors
    // show, and what was put are those of one report, which is due by the words and by what was
    // handed out.
    ensures said { result ≢ 6 → result ≢ 7 → (report : Report) × (result ≡ status_of report)
        × Ends (job_of (words_of words.now)) (world_of C.files C.fault_count C.log cabinet.old)
        (outside_change D.view K.view doors.old.items disk.old doors.new.items disk.new) report
        (world_of C.files C.fault_count C.log cabinet.new)
        × Puts (S.contents out.old) (text_of report) (S.contents out.new)
        × (S.log out.new ≡ S.log out.old ++ put (text_of report) ∷ []) }
    ensures statuses { IsStatus result }

    // The headline: what the marks of a certificate that was written, found valid, or tried say
    // of each stage is so; amendments are answered, and clients served, by one legal history from
    // the book of such a certificate, each ask by its own place, and the book fits after each; the
    // record is its text, and each worker's sessions are right by the bytes that were taken from
    // and put to each link. With a journal that history follows the pairs which the journal had,
    // answered anew: both are one legal history from the book, and what a stop leaves of the disk
    // is a journal of the pairs and of all that was asked. One more stage that was written or read
    // proves what its mark says of the lines that wait beside the book that the asks left. A report
    // is the report on the certificate, with the page of that report. Exactly the files of the job,
    // under their names, were read and written, and exactly its text was put, also over a cabinet,
    // a sink, doors and a disk that tell nothing.
    ensures headline { (job : JobValue) → job_of (words_of words.now) ≡ Some job →
        Contains (finishing_of job) result → result ≢ 14 →
        (inputs writes : List NamedBytes) × (text : List ℕ)
        × (C.log cabinet.new ≡ C.log cabinet.old ++ (map read_of inputs ++ map written_of writes))
        × (S.log out.new ≡ S.log out.old ++ put text ∷ []) × AreFilesOf job inputs writes
        × HeadlineHolds job inputs writes
        (outside_change D.view K.view doors.old.items disk.old doors.new.items disk.new)
        result text }

    // Done: each step passed, the work is that of the files that were read, exactly its files were
    // written, its text was put, and nothing failed.
    ensures handed { (job : JobValue) → job_of (words_of words.now) ≡ Some job →
        Contains (finishing_of job) result → result ≢ 14 → (text : List ℕ)
        × IsFinished job (world_of C.files C.fault_count C.log cabinet.old)
        (outside_change D.view K.view doors.old.items disk.old doors.new.items disk.new) result text
        (world_of C.files C.fault_count C.log cabinet.new)
        × Puts (S.contents out.old) text (S.contents out.new)
        × (S.log out.new ≡ S.log out.old ++ put text ∷ []) }
    // Then, and at 13 and 15, no call of the cabinet or of the sink failed.
    ensures done { Contains calm_statuses result →
        (C.fault_count cabinet.new ≡ C.fault_count cabinet.old)
        × (S.fault_count out.new ≡ S.fault_count out.old) }

    // No door failed at 0 and 11, and at 10 one did. The disk failed at 14, and at no other status
    // but where the cabinet or the sink failed after it, or memory ran out.
    ensures calm { (result ≡ 0) ⊎ (result ≡ 11) →
        door_faults (outside_of D.view K.view doors.new.items disk.new)
        ≡ door_faults (outside_of D.view K.view doors.old.items disk.old) }
    ensures risen { result ≡ 10 →
        SomeRose (map D.view doors.old.items) (map D.view doors.new.items) }
    ensures disk_calm { result ≢ 5 → result ≢ 6 → result ≢ 7 → result ≢ 14 →
        disk_faults (outside_of D.view K.view doors.new.items disk.new)
        ≡ disk_faults (outside_of D.view K.view doors.old.items disk.old) }

    // At 14 the disk failed. The journal was not opened, and nothing was written; or all is as
    // where the work is done, but for the put that failed.
    ensures disk_risen { result ≡ 14 →
        DiskRose (option_map K.view disk.old) (option_map K.view disk.new)
        × ((job : JobValue) × (job_of (words_of words.now) ≡ Some job)
        × (((why : JournalRefusal)
        × EndsUnopened job (world_of C.files C.fault_count C.log cabinet.old)
        (outside_change D.view K.view doors.old.items disk.old doors.new.items disk.new) why
        (world_of C.files C.fault_count C.log cabinet.new))
        ⊎ ((text : List ℕ)
        × IsFinished job (world_of C.files C.fault_count C.log cabinet.old)
        (outside_change D.view K.view doors.old.items disk.old doors.new.items disk.new) result text
        (world_of C.files C.fault_count C.log cabinet.new)
        × (S.log out.new ≡ S.log out.old ++ put text ∷ [])))) }

    // The words are no command's, exactly then, and nothing of the cabinet is changed or asked.
    ensures words { result ≡ 2 → job_of (words_of words.now) ≡ None }
    ensures refused { job_of (words_of words.now) ≡ None →
        (world_of C.files C.fault_count C.log cabinet.new
        ≡ world_of C.files C.fault_count C.log cabinet.old)
        × (outside_of D.view K.view doors.new.items disk.new
        ≡ outside_of D.view K.view doors.old.items disk.old)
        × ((result ≡ 2) ⊎ ((result ≡ 6) ⊎ (result ≡ 7))) }

    // What the files give as the first refusal is answered, with its line, its number and its
    // reason, unless a call of the cabinet failed, the sink failed or memory ran out.
    ensures due { (job : JobValue) (held : Files) (refusal : Refusal)
        → job_of (words_of words.now) ≡ Some job → C.files cabinet.old ≡ Some held →
        FirstDue held (steps_of job) refusal →
        ((result ≡ status_of (refused refusal))
        × Puts (S.contents out.old) (text_of (refused refusal)) (S.contents out.new)
        × (S.log out.new ≡ S.log out.old ++ put (text_of (refused refusal)) ∷ []))
        ⊎ (((result ≡ 5) × Rose (C.fault_count cabinet.old) (C.fault_count cabinet.new))
        ⊎ ((result ≡ 6) ⊎ (result ≡ 7))) }

    // The sink failed: the files and what passed are as at the status whose text was being put, and
    // a front of that text went out.
    ensures cut { result ≡ 6 → Rose (S.fault_count out.old) (S.fault_count out.new)
        × ((report : Report)
        × Ends (job_of (words_of words.now)) (world_of C.files C.fault_count C.log cabinet.old)
        (outside_change D.view K.view doors.old.items disk.old doors.new.items disk.new) report
        (world_of C.files C.fault_count C.log cabinet.new)
        × PutsPart (S.contents out.old) (text_of report) (S.contents out.new)
        × (S.log out.new ≡ S.log out.old ++ put_failed (text_of report) ∷ [])) }

    // Whatever the status, only files that the command writes have other bytes than before, and
    // only the command's files were asked of the cabinet: it read those that it reads, and wrote
    // those that it writes.
    ensures others { ChangesOnly (C.files cabinet.old) (names_changed (job_of (words_of words.now)))
        (C.files cabinet.new) }
    ensures asked { LogGrew (C.log cabinet.old) (OnlyOfJob (job_of (words_of words.now)))
        (C.log cabinet.new) }

    // Each door is where it was. Only the commands that serve clients ask the doors, and only the
    // one that keeps a journal asks the disk.
    ensures kept { length doors.new.items ≡ length doors.old.items }
    ensures unasked { ServesNone (job_of (words_of words.now)) → doors.new.items ≡ doors.old.items }
    ensures dry { KeepsNone (job_of (words_of words.now)) → disk.new ≡ disk.old }

    // For want of memory nothing is put.
    ensures unsaid { result ≡ 7 → out.new ≡ out.old }

    // With a command's words, where each of its steps passes in the files and no count of the
    // cabinet and the sink rises, the work is done, or the journal was not opened, or memory ran
    // out. With a budget that is enough for each stage, the status of work that is done is not 9
    // (`IsRunOutput`, `IsWaitingOutput` and `IsTrial`, of which `handed` speaks).
    ensures complete { (job : JobValue) (held : Files) (inputs : List NamedBytes)
        → job_of (words_of words.now) ≡ Some job → C.files cabinet.old ≡ Some held →
        AllPass (Some held) (steps_of job) inputs →
        (Rose (C.fault_count cabinet.old) (C.fault_count cabinet.new) → ⊥) →
        (Rose (S.fault_count out.old) (S.fault_count out.new) → ⊥) →
        (Contains (finishing_of job) result ⊎ (result ≡ 7))
        ⊎ ((why : JournalRefusal) × (result ≡ status_of (unopened why))
        × EndsUnopened job (world_of C.files C.fault_count C.log cabinet.old)
        (outside_change D.view K.view doors.old.items disk.old doors.new.items disk.new) why
        (world_of C.files C.fault_count C.log cabinet.new)) }

    // Where by what the disk tells its journal is to be refused, it is, unless the disk failed.
    ensures journal { (job : JobValue) (held : Files) (inputs : List NamedBytes)
        (why : JournalRefusal)
        → job_of (words_of words.now) ≡ Some job → C.files cabinet.old ≡ Some held →
        AllPass (Some held) (steps_of job) inputs →
        (Rose (C.fault_count cabinet.old) (C.fault_count cabinet.new) → ⊥) →
        (Rose (S.fault_count out.old) (S.fault_count out.new) → ⊥) →
        JournalDue job inputs (option_map K.view disk.old) why →
        ((result ≡ status_of (unopened why))
        × (S.log out.new ≡ S.log out.old ++ put (text_of (unopened why)) ∷ []))
        ⊎ ((result ≡ 14) ⊎ (result ≡ 7)) }

    // Where by what the disk tells its file stands for pairs of the season, and no count of it
    // rises, it is opened, and clients are served.
    ensures resumes { (job : JobValue) (held : Files) (inputs : List NamedBytes)
        → job_of (words_of words.now) ≡ Some job → C.files cabinet.old ≡ Some held →
        AllPass (Some held) (steps_of job) inputs →
        (Rose (C.fault_count cabinet.old) (C.fault_count cabinet.new) → ⊥) →
        (Rose (S.fault_count out.old) (S.fault_count out.new) → ⊥) →
        (DiskRose (option_map K.view disk.old) (option_map K.view disk.new) → ⊥) →
        JournalStands job inputs (option_map K.view disk.old) →
        Contains served_statuses result ⊎ (result ≡ 7) }

    // Where all files are only in their forms, the one other answer is that the certificate, or one
    // more stage, is not valid.
    ensures in_form { (job : JobValue) (held : Files) (inputs : List NamedBytes)
        → job_of (words_of words.now) ≡ Some job → C.files cabinet.old ≡ Some held →
        AllPass (Some held) (form_steps (steps_of job)) inputs →
        (Rose (C.fault_count cabinet.old) (C.fault_count cabinet.new) → ⊥) →
        (Rose (S.fault_count out.old) (S.fault_count out.new) → ⊥) →
        ((result ≡ 1) ⊎ (Contains (finishing_of job) result ⊎ (result ≡ 7)))
        ⊎ ((why : JournalRefusal) × (result ≡ status_of (unopened why))
        × EndsUnopened job (world_of C.files C.fault_count C.log cabinet.old)
        (outside_change D.view K.view doors.old.items disk.old doors.new.items disk.new) why
        (world_of C.files C.fault_count C.log cabinet.new)) }
{
    valid_marks();
    waiting_marks();
    allotted_fit();
    one_standing();
    ended_jobs();
    match carry_out(rt, alloc, words, cabinet, doors, gate, disk) {
        Ok(answer) => match out.put(&answer.text) {
            Ok(()) => answer.status,
            Err(_) => 6,
        },
        Err(_) => 7,
    }
}

/// Does the work that the words ask for, and gives what is to be said.
fn carry_out<R: Threads + Wait + Sync, C: Cabinet, D: Door + Drop, G: Gate, K: Disk>(
    rt: &R,
    alloc: Global,
    words: &[String],
    cabinet: &mut C,
    doors: &mut Vec<D>,
    gate: &G,
    disk: &mut Option<K>,
) -> Result<Answer, Memory>
    requires doors { length doors.old.items ≤ MOST_DOORS }
    ensures answer { IfOk result (λ a. IsAnswer (job_of (words_of words.now))
        (world_of C.files C.fault_count C.log cabinet.old)
        (outside_change D.view K.view doors.old.items disk.old doors.new.items disk.new) a.status
        a.text.items (world_of C.files C.fault_count C.log cabinet.new)) }
    ensures others { ChangesOnly (C.files cabinet.old) (names_changed (job_of (words_of words.now)))
        (C.files cabinet.new) }
    ensures asked { LogGrew (C.log cabinet.old) (OnlyOfJob (job_of (words_of words.now)))
        (C.log cabinet.new) }
    ensures refused { job_of (words_of words.now) ≡ None →
        (world_of C.files C.fault_count C.log cabinet.new
        ≡ world_of C.files C.fault_count C.log cabinet.old)
        × (doors.new.items ≡ doors.old.items) × (disk.new ≡ disk.old) }
    ensures kept { length doors.new.items ≡ length doors.old.items }
    ensures unasked { ServesNone (job_of (words_of words.now)) → doors.new.items ≡ doors.old.items }
    ensures dry { KeepsNone (job_of (words_of words.now)) → disk.new ≡ disk.old }
{
    match read_words(alloc, words) {
        Ok(
            Job::Allocate {
                names,
                nodes,
                workers,
            },
        ) => carry_out_allocate(rt, alloc, &names, nodes, workers, cabinet, gate),
        Ok(Job::Check { names }) => carry_out_check(alloc, &names, cabinet),
        Ok(Job::Amend { names }) => carry_out_amend(alloc, &names, cabinet),
        Ok(
            Job::Serve {
                names,
                links,
                port: _,
                workers: _,
            },
        ) => carry_out_serve(rt, alloc, &names, links, cabinet, doors, gate),
        Ok(Job::Usage { names }) => carry_out_usage(alloc, &names, cabinet),
        Ok(Job::Report { names }) => carry_out_report(alloc, &names, cabinet),
        Ok(Job::Inspect { names }) => carry_out_inspect(alloc, &names, cabinet),
        Ok(
            Job::Reclear {
                names,
                nodes,
                workers,
            },
        ) => carry_out_reclear(rt, alloc, &names, nodes, workers, cabinet, gate),
        Ok(Job::Recheck { names }) => carry_out_recheck(alloc, &names, cabinet),
        Ok(
            Job::Resume {
                names,
                links,
                port: _,
                workers: _,
            },
        ) => carry_out_resume(rt, alloc, &names, links, cabinet, doors, gate, disk),
        Ok(
            Job::Make {
                number,
                units,
                names,
            },
        ) => carry_out_make(alloc, number, units, &names, cabinet),
        Ok(Job::Trial { number, units }) => carry_out_trial(rt, alloc, number, units, gate),
        Err(WordFault::Words) => Ok(Answer {
            status: 2,
            text: String::from_str(alloc, "WORDS\n")?.into_bytes(),
        }),
        Err(WordFault::Memory) => Err(Memory),
    }
}

/// Checks a certificate, and gives what is to be said.
fn carry_out_check<C: Cabinet>(
    alloc: Global,
    names: &NameList,
    cabinet: &mut C,
) -> Result<Answer, Memory>
    ensures answer { (o : Outside) → IfOk result (λ a.
        IsAnswer (Some (CheckJob names.now))
        (world_of C.files C.fault_count C.log cabinet.old) (still o) a.status a.text.items
        (world_of C.files C.fault_count C.log cabinet.new)) }
    ensures unchanged { C.files cabinet.new ≡ C.files cabinet.old }
    ensures asked { LogGrew (C.log cabinet.old) (OnlyOfJob (Some (CheckJob names.now)))
        (C.log cabinet.new) }
{
    let ended = check(alloc, names, cabinet);
    finish(alloc, names, ended)
}

/// Serves clients, and gives what is to be said.
fn carry_out_serve<R: Threads + Wait + Sync, C: Cabinet, D: Door + Drop, G: Gate>(
    rt: &R,
    alloc: Global,
    names: &NameList,
    links: u32,
    cabinet: &mut C,
    doors: &mut Vec<D>,
    gate: &G,
) -> Result<Answer, Memory>
    requires doors { length doors.old.items ≤ MOST_DOORS }
    ensures answer { (port workers : ℕ) (disk : Option DiskView) → IfOk result (λ a.
        IsAnswer (Some (ServeJob names.now links port workers))
        (world_of C.files C.fault_count C.log cabinet.old)
        (doors_change D.view doors.old.items doors.new.items disk) a.status a.text.items
        (world_of C.files C.fault_count C.log cabinet.new)) }
    ensures others { ChangesOnly (C.files cabinet.old) (name_at names.now 3 ∷ [])
        (C.files cabinet.new) }
    ensures asked { (port workers : ℕ) → LogGrew (C.log cabinet.old)
        (OnlyOfJob (Some (ServeJob names.now links port workers))) (C.log cabinet.new) }
    ensures kept { length doors.new.items ≡ length doors.old.items }
{
    let ended = serve(rt, alloc, names, links, cabinet, doors, gate);
    finish(alloc, names, ended)
}

/// Serves clients with a journal, and gives what is to be said.
fn carry_out_resume<R: Threads + Wait + Sync, C: Cabinet, D: Door + Drop, G: Gate, K: Disk>(
    rt: &R,
    alloc: Global,
    names: &NameList,
    links: u32,
    cabinet: &mut C,
    doors: &mut Vec<D>,
    gate: &G,
    disk: &mut Option<K>,
) -> Result<Answer, Memory>
    requires doors { length doors.old.items ≤ MOST_DOORS }
    ensures answer { (port workers : ℕ) → IfOk result (λ a.
        IsAnswer (Some (ResumeJob names.now links port workers))
        (world_of C.files C.fault_count C.log cabinet.old)
        (outside_change D.view K.view doors.old.items disk.old doors.new.items disk.new) a.status
        a.text.items (world_of C.files C.fault_count C.log cabinet.new)) }
    ensures others { ChangesOnly (C.files cabinet.old) (name_at names.now 4 ∷ [])
        (C.files cabinet.new) }
    ensures asked { (port workers : ℕ) → LogGrew (C.log cabinet.old)
        (OnlyOfJob (Some (ResumeJob names.now links port workers))) (C.log cabinet.new) }
    ensures kept { length doors.new.items ≡ length doors.old.items }
{
    let ended = resume(rt, alloc, names, links, cabinet, doors, gate, disk);
    finish(alloc, names, ended)
}
