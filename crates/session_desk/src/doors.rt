//! Sessions of a ledger: over one link, and over the links of several doors at once.
ghost use Rattle.std.specs.Prelude.{◌≡◌, ◌≤◌, ◌<◌, ◌+◌, ◌^◌, [], All, List, ℕ, length};
ghost use Rattle.std.specs.Prelude.{IfOk, IfErr, OnErr, slice_index_or, vec_capacity};
ghost use Rattle.turn_lock.specs.Seats.{SeatView, IsAtRest, new_seats};
ghost use Rattle.turn_lock.specs.History.{StartsWith, own};
ghost use Rattle.scr_reader.specs.Again.{IsFitItem};
ghost use Rattle.scr_reader.specs.declared.line.Item.{Item as ItemValue};
ghost use Rattle.holding_book.specs.Histories.{IsLegal};
ghost use Rattle.holding_book.specs.Asks.{CanAsk};
ghost use Rattle.slot_ledger.specs.Starts.{entry_caller, first_book};
ghost use Rattle.slot_ledger.specs.declared.shared.Origin.{Origin};
ghost use Rattle.desk_links.specs.Links.{IsFresh};
ghost use Rattle.amend_journal.specs.Told.{read_told, EndsBroken};
ghost use Rattle.session_desk.specs.Passed.{HasPassed};
ghost use Rattle.session_desk.specs.Sessions.{IsSession, HasSessionCause};
ghost use Rattle.session_desk.specs.Served.{HasServed};
ghost use Rattle.session_desk.specs.declared.doors.TheConstants.{MOST_DOORS};
ghost use Rattle.session_desk.specs.declared.worker.DoorWork.{DoorWork as DoorWorkValue};
ghost use Rattle.session_desk.specs.declared.worker.DoorEnd.TheVariants.{Full as full_end, Broken as broken_end};
ghost use Rattle.session_desk.specs.Stopped.{StoppedBy, StopsAt};
ghost use Rattle.session_desk.specs.Seen.{SeenGoesOn, IsLedgerHistory};
ghost use Rattle.session_desk.specs.Private.Serving.{EndStopped};
ghost use Rattle.session_desk.specs.Begun.{IsAnsweredBy, IsBegunBy, HasBroken, TakesFit};
ghost use Rattle.session_desk.specs.Begun.{desk_caller, ledger_caller};

use crate::amending::{Amending, AtGate};
use crate::session::{SessionEnd, SessionFault, serve};
use crate::time_slices::{LinkSlices, TimeSlices};
use crate::worker::{DoorWork, Worker, pair_up, serve_door, take_apart};
use amend_journal::{JournalLedger, JournalPass};
use desk_disk::Disk;
use desk_links::{Door, Link};
use holding_book::{Book, Entry};
use season_days::Season;
use slot_ledger::{Beside, SharedLedger, SharedPass};
use slot_text::{Memory, Station};
use std::alloc::Global;
use std::sync::Wait;
use std::thread;
use std::thread::Threads;
use worker_gate::Gate;

/// The most doors that are served at once.
pub const MOST_DOORS: usize = 16;

/// Serves one link: each message is answered by a text as soon as an empty line ends it, each of
/// its items an ask of the ledger by the pass's caller. The season and the airport are those of the
/// ledger's book.
///
/// It waits for the client, and for its turn. It takes memory for the longest message and for one
/// text.
pub fn serve_link<R: Wait, G: Gate, B: Beside, L: Link>(
    rt: &R,
    alloc: Global,
    gate: &G,
    ledger: &SharedLedger<B>,
    pass: &mut SharedPass<B>,
    season: &Season,
    airport: Station,
    link: &mut L,
    worker: u32,
) -> Result<SessionEnd, SessionFault>
    requires rest { IsAtRest ledger.now pass.old }
    requires season { season.now ≡ ledger.now.origin.start.declaration.season }
    requires airport { airport ≡ ledger.now.origin.start.declaration.airport }
    requires takes { TakesFit B.takes ledger.now.origin pass.old.number }
    requires fresh { IsFresh (L.view link.old) }
    ensures rest { IsAtRest ledger.now pass.new }
    ensures number { pass.new.number ≡ pass.old.number }
    ensures seen { SeenGoesOn (IsLedgerHistory ledger.now.origin.start) (B.read pass.old.seen)
        (B.read pass.new.seen) }
    ensures cause { HasSessionCause (L.view link.old).faults (L.view link.new).faults result }
    ensures told { HasPassed (L.view link.old).told (L.view link.new) }
    ensures stopped { IfErr result (StoppedBy (StopsAt B.read B.broken
        ledger.now.origin.start.most pass.new.seen)) }
    ensures session { IsSession
        (IsAnsweredBy (ledger_caller (B.found ledger.now.origin.beside) ledger.now.origin.start
        pass.old.number))
        (IsBegunBy (HasBroken B.broken)
        (ledger_caller (B.found ledger.now.origin.beside) ledger.now.origin.start pass.old.number))
        (B.read pass.old.own) result (L.view link.new) (B.read pass.new.own) }
{
    let gate = AtGate { gate, worker };
    let line = TimeSlices::new();
    let amending = Amending {
        rt,
        gate: &gate,
        ledger,
        season: *season,
        airport,
        caller: pass.number(),
        slices: LinkSlices::of(&line),
    };
    serve(rt, alloc, &amending, pass, link)
}

/// Serves one link over a ledger with a journal, which has each ask before it is answered: as
/// `serve_link`, and `Broken` where a put of the journal has failed.
pub fn serve_journaled<R: Wait, G: Gate, K: Disk, L: Link>(
    rt: &R,
    alloc: Global,
    gate: &G,
    ledger: &JournalLedger<K>,
    pass: &mut JournalPass<K>,
    season: &Season,
    airport: Station,
    link: &mut L,
    worker: u32,
) -> Result<SessionEnd, SessionFault>
    requires rest { IsAtRest ledger.now pass.old }
    requires season { season.now ≡ ledger.now.origin.start.declaration.season }
    requires airport { airport ≡ ledger.now.origin.start.declaration.airport }
    requires fresh { IsFresh (L.view link.old) }
    ensures rest { IsAtRest ledger.now pass.new }
    ensures number { pass.new.number ≡ pass.old.number }
    ensures seen { SeenGoesOn (IsLedgerHistory ledger.now.origin.start)
        (read_told pass.old.seen) (read_told pass.new.seen) }
    ensures cause { HasSessionCause (L.view link.old).faults (L.view link.new).faults result }
    ensures told { HasPassed (L.view link.old).told (L.view link.new) }
    ensures stopped { IfErr result (StoppedBy (StopsAt read_told EndsBroken
        ledger.now.origin.start.most pass.new.seen)) }
    ensures session { IsSession
        (IsAnsweredBy (ledger_caller ledger.now.origin.beside.count ledger.now.origin.start
        pass.old.number))
        (IsBegunBy (HasBroken EndsBroken)
        (ledger_caller ledger.now.origin.beside.count ledger.now.origin.start pass.old.number))
        (read_told pass.old.own) result (L.view link.new) (read_told pass.new.own) }
{
    let shared = ledger.shared();
    serve_link(rt, alloc, gate, shared, pass, season, airport, link, worker)
}

/// The work of one worker at its door.
fn work<R: Wait, G: Gate, B: Beside, D: Door>(
    rt: &R,
    alloc: Global,
    gate: &G,
    ledger: &SharedLedger<B>,
    season: Season,
    airport: Station,
    line: &TimeSlices,
    worker: &mut Worker<SharedPass<B>, D>,
    links: u32,
)
    requires rest { IsAtRest ledger.now worker.old.pass }
    requires season { season ≡ ledger.now.origin.start.declaration.season }
    requires airport { airport ≡ ledger.now.origin.start.declaration.airport }
    requires takes { TakesFit B.takes ledger.now.origin worker.old.pass.number }
    ensures rest { IsAtRest ledger.now worker.new.pass }
    ensures number { worker.new.pass.number ≡ worker.old.pass.number }
    ensures stopped { EndStopped (StopsAt B.read B.broken ledger.now.origin.start.most
        worker.new.pass.seen) worker.new.work.end }
    ensures served { HasServed
        (IsAnsweredBy (ledger_caller (B.found ledger.now.origin.beside) ledger.now.origin.start
        worker.old.pass.number))
        (IsBegunBy (HasBroken B.broken)
        (ledger_caller (B.found ledger.now.origin.beside) ledger.now.origin.start
        worker.old.pass.number))
        links (D.view worker.old.door) (B.read worker.old.pass.own) worker.new.work
        (D.view worker.new.door) (B.read worker.new.pass.own) }
{
    let caller = worker.pass.number();
    let gate = AtGate {
        gate,
        worker: caller,
    };
    let amending = Amending {
        rt,
        gate: &gate,
        ledger,
        season,
        airport,
        caller,
        slices: LinkSlices::of(line),
    };
    worker.work = serve_door(
        rt,
        alloc,
        &amending,
        &mut worker.pass,
        &mut worker.door,
        links,
    );
}

/// All workers at once, each in a thread of its own where one can be made.
fn serve_all<R: Threads + Wait + Sync, G: Gate, B: Beside + Send, D: Door>(
    rt: &R,
    alloc: Global,
    gate: &G,
    ledger: &SharedLedger<B>,
    season: Season,
    airport: Station,
    line: &TimeSlices,
    workers: &mut [Worker<SharedPass<B>, D>],
    links: u32,
)
    requires rest { All (λ w. IsAtRest ledger.now w.pass) workers.old }
    requires season { season ≡ ledger.now.origin.start.declaration.season }
    requires airport { airport ≡ ledger.now.origin.start.declaration.airport }
    requires takes { All (λ w. TakesFit B.takes ledger.now.origin w.pass.number) workers.old }
    ensures rest { All (λ w. IsAtRest ledger.now w.pass) workers.new }
    ensures numbers { (i : ℕ) (w : Worker (SeatView (Origin B.Start) B.Told) D)
        → i < length workers.old
        → (slice_index_or workers.new i w).pass.number
        ≡ (slice_index_or workers.old i w).pass.number }
    ensures stopped { (i : ℕ) (w : Worker (SeatView (Origin B.Start) B.Told) D)
        → i < length workers.old → EndStopped (StopsAt B.read B.broken ledger.now.origin.start.most
        (slice_index_or workers.new i w).pass.seen) (slice_index_or workers.new i w).work.end }
    ensures each { (i : ℕ) (w : Worker (SeatView (Origin B.Start) B.Told) D)
        → i < length workers.old → HasServed
        (IsAnsweredBy (ledger_caller (B.found ledger.now.origin.beside) ledger.now.origin.start
        (slice_index_or workers.old i w).pass.number))
        (IsBegunBy (HasBroken B.broken)
        (ledger_caller (B.found ledger.now.origin.beside) ledger.now.origin.start
        (slice_index_or workers.old i w).pass.number))
        links (D.view (slice_index_or workers.old i w).door)
        (B.read (slice_index_or workers.old i w).pass.own) (slice_index_or workers.new i w).work
        (D.view (slice_index_or workers.new i w).door)
        (B.read (slice_index_or workers.new i w).pass.own) }
{
    thread::for_each_mut(
        rt,
        workers,
        MOST_DOORS,
        &|_, worker|
            requires { IsAtRest ledger.now worker.old.pass
                × (season ≡ ledger.now.origin.start.declaration.season)
                × (airport ≡ ledger.now.origin.start.declaration.airport)
                × TakesFit B.takes ledger.now.origin worker.old.pass.number }
            ensures rest { IsAtRest ledger.entry.now worker.new.pass }
            ensures number { worker.new.pass.number ≡ worker.old.pass.number }
            ensures stopped { EndStopped (StopsAt B.read B.broken
                ledger.entry.now.origin.start.most worker.new.pass.seen) worker.new.work.end }
            ensures served { HasServed
                (IsAnsweredBy (ledger_caller (B.found ledger.entry.now.origin.beside)
                ledger.entry.now.origin.start worker.old.pass.number))
                (IsBegunBy (HasBroken B.broken)
                (ledger_caller (B.found ledger.entry.now.origin.beside)
                ledger.entry.now.origin.start worker.old.pass.number))
                links (D.view worker.old.door) (B.read worker.old.pass.own) worker.new.work
                (D.view worker.new.door) (B.read worker.new.pass.own) }
        {
            work(
                rt, alloc, gate, ledger, season, airport, line, worker, links,
            )
        },
    );
}

/// Room for so many workers, and for what they do.
fn rooms<B: Beside + Send, D: Door + Drop>(
    alloc: Global,
    count: usize,
) -> Result<(Vec<Worker<SharedPass<B>, D>>, Vec<DoorWork>), Memory>
    ensures workers { IfOk result (λ r. (r.0.items ≡ []) × (count ≤ vec_capacity r.0)) }
    ensures works { IfOk result (λ r. (r.1.items ≡ []) × (count ≤ vec_capacity r.1)) }
{
    let works = Vec::with_capacity(alloc, count)?;
    let workers = Vec::with_capacity(alloc, count)?;
    Ok((workers, works))
}

/// A ledger with so many passes, and room for as many workers and for what they do.
fn started<B: Beside + Send, D: Door + Drop>(
    alloc: Global,
    book: Book,
    beside: B,
    count: usize,
    most: u32,
) -> Result<
    (
        SharedLedger<B>,
        Vec<SharedPass<B>>,
        Vec<Worker<SharedPass<B>, D>>,
        Vec<DoorWork>,
    ),
    Memory,
>
    requires some { 1 ≤ count }
    requires few { count ≤ MOST_DOORS }
    requires most { B.found (B.start beside) + most ≤ 100000 }
    requires agrees { B.agrees beside [] }
    requires empty { B.told beside [] ≡ [] }
    requires holdings { length book.book.holdings < 2 ^ 31 }
    ensures first { IfOk result (λ r. first_book r.0.origin.start ≡ book.book) }
    ensures most { IfOk result (λ r. r.0.origin.start.most ≡ most) }
    ensures beside { IfOk result (λ r. r.0.origin.beside ≡ B.start beside) }
    ensures callers { IfOk result (λ r. r.0.callers ≡ count) }
    ensures passes { IfOk result (λ r. r.1.items ≡ new_seats r.0.id r.0.origin 0 count) }
    ensures rest { IfOk result (λ r. All (IsAtRest r.0) r.1.items) }
    ensures workers { IfOk result (λ r. (r.2.items ≡ []) × (count ≤ vec_capacity r.2)) }
    ensures works { IfOk result (λ r. (r.3.items ≡ []) × (count ≤ vec_capacity r.3)) }
{
    let (workers, works) = rooms::<B, D>(alloc, count)?;
    let (ledger, passes) = SharedLedger::start(alloc, book, beside, count as u32, most)?;
    Ok((ledger, passes, workers, works))
}

/// Serves doors at once, each by a worker and a caller of its own, with the numbers from 0 on in
/// their order. Hands out the one history, what each worker did, and what was kept beside.
///
/// Each worker serves at most so many links of its door, and the history holds at most so many
/// entries. Links that mostly have more input at hand are served in time slices, round robin;
/// others go between. It waits until all workers have ended. The doors stay, in their order, also
/// where memory runs out before they are served.
pub fn serve_doors<R: Threads + Wait + Sync, G: Gate, B: Beside + Send, D: Door + Drop>(
    rt: &R,
    alloc: Global,
    gate: &G,
    book: Book,
    beside: B,
    doors: &mut Vec<D>,
    links: u32,
    most: u32,
) -> Result<(Vec<Entry>, Vec<DoorWork>, B), Memory>
    requires some { 1 ≤ length doors.old.items }
    requires few { length doors.old.items ≤ MOST_DOORS }
    requires most { B.found (B.start beside) + most ≤ 100000 }
    requires agrees { B.agrees beside [] }
    requires empty { B.told beside [] ≡ [] }
    requires holdings { length book.book.holdings < 2 ^ 31 }
    requires takes { (n : ℕ) (ask : ItemValue) → n < length doors.old.items
        → IsFitItem book.book.declaration.season ask → B.takes (B.start beside) n ask }
    ensures unchanged { OnErr result (doors.new.items ≡ doors.old.items) }
    ensures doors { length doors.new.items ≡ length doors.old.items }
    ensures works { IfOk result (λ done. length done.1.items ≡ length doors.old.items) }
    ensures legal { IfOk result (λ done. IsLegal book.book done.0.items) }
    ensures few { IfOk result (λ done. length done.0.items ≤ most) }
    ensures asked { IfOk result (λ done.
        All (λ entry. CanAsk book.book.declaration entry.ask) done.0.items) }
    ensures callers { IfOk result (λ done.
        All (λ entry. entry.caller < length doors.old.items) done.0.items) }
    ensures full { IfOk result (λ done. (n : ℕ) (k : DoorWorkValue) → n < length doors.old.items
        → (slice_index_or done.1.items n k).end ≡ full_end → length done.0.items ≡ most) }
    ensures broken { IfOk result (λ done. (n : ℕ) (k : DoorWorkValue)
        → n < length doors.old.items → (slice_index_or done.1.items n k).end ≡ broken_end
        → (seen : List B.Told) × StartsWith (B.told done.2 done.0.items) seen
        × ((faults : ℕ) × B.broken seen faults)) }
    ensures start { IfOk result (λ done. B.start done.2 ≡ B.start beside) }
    ensures agrees { IfOk result (λ done. B.agrees done.2 done.0.items) }
    ensures each { IfOk result (λ done. (n : ℕ) (d : D) (k : DoorWork)
        → n < length doors.old.items → HasServed
        (IsAnsweredBy (desk_caller book.book.declaration (B.found (B.start beside) + most) n))
        (IsBegunBy (HasBroken B.broken)
        (desk_caller book.book.declaration (B.found (B.start beside) + most) n))
        links (D.view (slice_index_or doors.old.items n d)) [] (slice_index_or done.1.items n k)
        (D.view (slice_index_or doors.new.items n d)) (own entry_caller n done.0.items)) }
{
    beside.laws();
    let count = doors.len();
    let season = book.declaration().season;
    let airport = book.declaration().airport;
    let (ledger, mut passes, mut workers, mut works) = started::<B, D>(
        alloc, book, beside, count, most,
    )?;
    pair_up(doors, &mut passes, &mut workers);
    let line = TimeSlices::new();
    serve_all(
        rt,
        alloc,
        gate,
        &ledger,
        season,
        airport,
        &line,
        workers.as_mut_slice(),
        links,
    );
    take_apart(workers, doors, &mut passes, &mut works);
    let (_, history, beside) = ledger.close(passes);
    Ok((history, works, beside))
}
