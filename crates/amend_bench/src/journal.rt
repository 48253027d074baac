//! How long a journal takes: entries that it has before they are answered, the opening of a full
//! one, and the answers to its pairs anew.

ghost use Rattle.std.specs.Prelude.{◌≡◌, ◌<◌, ◌≤◌, All, length, IfSome};
ghost use Rattle.session_desk.specs.declared.doors.TheConstants.{MOST_DOORS};
ghost use Rattle.amend_journal.specs.Format.{IsFit};
ghost use Rattle.amend_journal.specs.declared.asked.TheConstants.{MOST_PAIRS};
ghost use Rattle.amend_bench.specs.declared.journal.TheConstants.{MOST_BYTES};

use crate::asks::{Airline, NEW_AIRLINE};
use crate::report::{
    NO_CALLS, Size, Tally, calls_since, now, print_part, print_tally, print_title,
};
use crate::sessions::{MANY_LINKS, NO_ROUNDS, can_serve, doors_of, print_rounds, rounds_of};
use amend_journal::{Asked, Journal, JournalKept, MOST_PAIRS, replayed};
use desk_disk::{Disk, MemoryDisk};
use desk_links::MemoryDoor;
use holding_book::Book;
use scr_reader::{print_item, read_item};
use session_desk::serve_doors;
use slot_text::Memory;
use std::alloc::Global;
use std::io::Print;
use std::sync::Wait;
use std::thread::Threads;
use std::time::Clock;
use worker_gate::RealGate;

// So many calls of a disk open a new journal, and so many add a pair.
const OPEN_CALLS: usize = 5;

const PAIR_CALLS: usize = 4;

// Room for a journal of the most pairs.
const MOST_BYTES: usize = 17 + 256 * MOST_PAIRS as usize;

/// Serves drawn asks over one link, then as many over eight links at once, and so on in rounds, by
/// ledgers with a journal in memory. Then fills a journal with pairs, by four calls of its disk for
/// each, opens it, and answers its pairs anew. Prints counts, and at full size how many that is in
/// a second; of the rounds the median.
pub fn run<R: Threads + Wait + Sync + Print + Clock>(
    rt: &R,
    alloc: Global,
    size: Size,
    book: &Book,
) -> anyhow::Result<()> {
    print_title(rt, "a journal of a book", book)?;
    print_kept(rt, alloc, size, book)?;
    let pairs = match size {
        Size::Short => 40,
        Size::Full => MOST_PAIRS,
    };
    let bytes = filled(alloc, book, pairs)?;
    print_filled(rt, alloc, size, book, &bytes)
}

// Serves drawn asks in rounds, by ledgers with a journal.
fn print_kept<R: Threads + Wait + Sync + Print + Clock>(
    rt: &R,
    alloc: Global,
    size: Size,
    book: &Book,
) -> anyhow::Result<()> {
    let (count, asks) = rounds_of(size);
    let mut rounds = NO_ROUNDS;
    for place in 0..count {
        rounds.one[place] = kept_over(rt, alloc, book, 1, asks)?;
        rounds.many[place] = kept_over(rt, alloc, book, MANY_LINKS, asks)?;
    }
    print_rounds(rt, size, "entries", &mut rounds, count)
}

// The entries of a ledger with a journal over so many links, each its part of the asks, and how
// long they took.
fn kept_over<R: Threads + Wait + Sync + Clock>(
    rt: &R,
    alloc: Global,
    book: &Book,
    links: u32,
    asks: u32,
) -> Result<Tally, Memory>
    requires { 0 < links }
{
    let mut doors = doors_of(alloc, book, links, asks / links)?;
    let disk = disk_of(alloc, b"", usize::MAX)?;
    kept_at(rt, alloc, book, disk, &mut doors)
}

// The entries of a ledger with a journal on this disk at doors, and how long they took.
fn kept_at<R: Threads + Wait + Sync + Clock, K: Disk>(
    rt: &R,
    alloc: Global,
    book: &Book,
    disk: K,
    doors: &mut Vec<MemoryDoor>,
) -> Result<Tally, Memory> {
    if !can_serve(book, doors) {
        return Ok(NO_CALLS);
    }
    match new_journal(alloc, book, disk) {
        Some(journal) => kept_by(rt, alloc, book, journal, doors),
        None => Ok(NO_CALLS),
    }
}

fn kept_by<R: Threads + Wait + Sync + Clock, K: Disk>(
    rt: &R,
    alloc: Global,
    book: &Book,
    journal: Journal<K>,
    doors: &mut Vec<MemoryDoor>,
) -> Result<Tally, Memory>
    requires season { journal.season ≡ book.now.book.declaration.season }
    requires holdings { length book.now.book.holdings ≤ 100000 }
    requires some { 1 ≤ length doors.old.items }
    requires few { length doors.old.items ≤ MOST_DOORS }
{
    let copy = book.copy(alloc)?;
    let beside = JournalKept::of(journal);
    let most = MOST_PAIRS - beside.found_pairs();
    let start = now(rt);
    let done = serve_doors(rt, alloc, &RealGate, copy, beside, doors, 1, most)?;
    Ok(calls_since(rt, start, done.0.len() as u64))
}

// A new journal for the book's season; none where it cannot be opened.
fn new_journal<K: Disk>(alloc: Global, book: &Book, disk: K) -> Option<Journal<K>>
    ensures { IfSome result (λ journal. journal.season ≡ book.now.book.declaration.season) }
{
    match Journal::open(alloc, disk, &book.declaration().season) {
        Ok((journal, _pairs)) => Some(journal),
        Err(_refused) => None,
    }
}

// A disk in memory that begins with these bytes, with room for a journal and so many calls.
fn disk_of(alloc: Global, bytes: &[u8], calls: usize) -> Result<MemoryDisk, Memory>
    requires { length bytes.now ≤ MOST_BYTES }
{
    MemoryDisk::new(alloc, bytes, MOST_BYTES, calls, Vec::new(alloc))
}

// The bytes of a journal with so many pairs of drawn asks, without those that have no spelling.
// There is room for four calls of the disk for each pair.
fn filled(alloc: Global, book: &Book, pairs: u32) -> Result<Vec<u8>, Memory> {
    let disk = disk_of(alloc, b"", OPEN_CALLS + PAIR_CALLS * pairs as usize)?;
    match new_journal(alloc, book, disk) {
        Some(journal) => filled_bytes(alloc, book, journal, pairs),
        None => Ok(Vec::new(alloc)),
    }
}

fn filled_bytes(
    alloc: Global,
    book: &Book,
    journal: Journal<MemoryDisk>,
    pairs: u32,
) -> Result<Vec<u8>, Memory>
    requires { journal.season ≡ book.now.book.declaration.season }
{
    let mut journal = journal;
    put_all(alloc, book, &mut journal, pairs)?;
    let disk = journal.into_disk();
    Ok(Vec::from_slice(alloc, disk.bytes())?)
}

// Adds so many pairs of drawn asks to the journal, without those that have no spelling.
fn put_all(
    alloc: Global,
    book: &Book,
    journal: &mut Journal<MemoryDisk>,
    pairs: u32,
) -> Result<(), Memory>
    requires { journal.old.season ≡ book.now.book.declaration.season }
{
    let mut airline = NEW_AIRLINE;
    for _ in 0..pairs {
        put_drawn(alloc, book, &mut airline, journal)?;
    }
    Ok(())
}

// Adds a pair of a drawn ask to the journal, if it has a spelling.
fn put_drawn(
    alloc: Global,
    book: &Book,
    airline: &mut Airline,
    journal: &mut Journal<MemoryDisk>,
) -> Result<(), Memory>
    requires { journal.old.season ≡ book.now.book.declaration.season }
    ensures { journal.new.season ≡ journal.old.season }
{
    let season = book.declaration().season;
    let ask = airline.draw_ask(book);
    if journal.count() >= MOST_PAIRS || !ask.fits(&season) {
        return Ok(());
    }
    let mut text = Vec::new(alloc);
    print_item(alloc, &mut text, &season, &ask)?;
    if let Some(ask) = read_item(alloc, &season, &text)? {
        let slot = journal.ready(alloc, (journal.count() % 8) as u8, &ask)?;
        let _done = journal.put(slot);
    }
    Ok(())
}

// Prints the bytes of a journal, opens it, and answers its pairs anew.
fn print_filled<R: Print + Clock>(
    rt: &R,
    alloc: Global,
    size: Size,
    book: &Book,
    bytes: &[u8],
) -> anyhow::Result<()> {
    println!(rt; "bytes {}", bytes.len())?;
    if bytes.len() > MOST_BYTES {
        return Ok(());
    }
    let disk = disk_of(alloc, bytes, usize::MAX)?;
    let start = now(rt);
    match pairs_in(alloc, book, disk) {
        Some(pairs) => {
            let opening = calls_since(rt, start, pairs.len() as u64);
            print_answered(rt, alloc, size, book, &pairs, opening)
        }
        None => Ok(()),
    }
}

// The pairs of a journal of the book's season; none where it cannot be opened.
fn pairs_in(alloc: Global, book: &Book, disk: MemoryDisk) -> Option<Vec<Asked>>
    ensures fit { IfSome result (λ pairs.
        All (IsFit book.now.book.declaration.season) pairs.items) }
    ensures few { IfSome result (λ pairs. length pairs.items ≤ MOST_PAIRS) }
{
    match Journal::open(alloc, disk, &book.declaration().season) {
        Ok((journal, pairs)) => {
            let _count = journal.count();
            Some(pairs)
        }
        Err(_refused) => None,
    }
}

// Prints how long the opening of a journal took, and answers its pairs on a copy of the book.
fn print_answered<R: Print + Clock>(
    rt: &R,
    alloc: Global,
    size: Size,
    book: &Book,
    pairs: &[Asked],
    opening: Tally,
) -> anyhow::Result<()>
    requires fit { All (IsFit book.now.book.declaration.season) pairs.now }
    requires few { length pairs.now ≤ MOST_PAIRS }
{
    print_tally(rt, size, "opened", opening)?;
    let start = now(rt);
    let holdings = answered_anew(alloc, book, pairs)?;
    let tally = calls_since(rt, start, pairs.len() as u64);
    print_part(rt, "holdings", u64::from(holdings))?;
    print_tally(rt, size, "answered anew", tally)
}

// How many holdings there are when the pairs are answered on a copy of the book.
fn answered_anew(alloc: Global, book: &Book, pairs: &[Asked]) -> Result<u32, Memory>
    requires fit { All (IsFit book.now.book.declaration.season) pairs.now }
    requires few { length pairs.now ≤ MOST_PAIRS }
{
    if book.count() > 100_000 {
        return Ok(0);
    }
    let copy = book.copy(alloc)?;
    Ok(replayed(alloc, copy, pairs)?.count())
}
