//! A ledger with a journal: what it answered stands in the journal, and a desk that opens the
//! journal again goes on from there.

ghost use Rattle.std.specs.Prelude.{◌≡◌, ◌≤◌, All, length, IfSome};
ghost use Rattle.turn_lock.specs.Seats.{IsAtRest};
ghost use Rattle.scr_reader.specs.Again.{IsFitItem};
ghost use Rattle.amend_journal.specs.Format.{IsFit};
ghost use Rattle.amend_journal.specs.declared.asked.TheConstants.{MOST_PAIRS};

use crate::answers::{fit_ask, put_holdings};
use crate::books::small_book;
use crate::ledgers::copied;
use amend_journal::{Asked, Journal, JournalFault, JournalLedger, JournalPass, replayed};
use desk_disk::{Disk, MemoryDisk};
use desk_outside::Failure;
use holding_book::Book;
use scr_reader::Item;
use season_days::Season;
use std::alloc::Global;
use std::process::Abort;
use std::sync::Wait;

/// Room for a journal of four pairs.
const ROOM: usize = 1041;

/// What is asked, by two callers in turn.
const ASKS: [&str; 4] = ["NBA002 0620", "NBA003 0630", "QBA003", "DBA002 0620"];

/// All asks were answered.
const ALL: Reached = Reached {
    done: 4,
    broken: false,
};

/// What is left of a run: how many pairs its journal had, what was reached, the holdings, and the
/// bytes of the disk.
#[derive(Drop)]
struct Left {
    found: usize,
    reached: Reached,
    held: Vec<u8>,
    bytes: Vec<u8>,
}

/// How many asks the journal had or were answered, and whether one was refused since the disk had
/// failed.
#[derive(Clone, Copy, PartialEq, Eq)]
struct Reached {
    done: usize,
    broken: bool,
}

/// Opens the journal of these bytes and asks what it lacks of the first so many asks, up to one
/// that is refused. None where the opening failed.
fn run<R: Abort + Wait>(
    rt: &R,
    alloc: Global,
    bytes: &[u8],
    count: usize,
    failing: &[Failure],
) -> Option<Left> {
    let book = small_book(rt, alloc);
    run_over(rt, alloc, &book, bytes, count, failing)
}

/// The same over a copy of a book.
fn run_over<R: Abort + Wait>(
    rt: &R,
    alloc: Global,
    book: &Book,
    bytes: &[u8],
    count: usize,
    failing: &[Failure],
) -> Option<Left> {
    let season = &book.declaration().season;
    let (journal, pairs) = opened(rt, alloc, season, bytes, failing)?;
    let after = book_after(rt, alloc, book, &pairs);
    Some(go_on(rt, alloc, journal, after, season, count))
}

/// A copy of the book after the pairs of a journal.
fn book_after(rt: &impl Abort, alloc: Global, book: &Book, pairs: &[Asked]) -> Book
    requires fit { All (IsFit book.now.book.declaration.season) pairs.now }
    requires many { length pairs.now ≤ MOST_PAIRS }
    ensures { result.book.declaration ≡ book.now.book.declaration }
{
    let copy = copied(rt, alloc, book);
    replayed(alloc, copy, pairs).expect(rt, "memory")
}

/// The journal of these bytes on a disk some calls of which fail, and its pairs. None where the
/// opening failed.
fn opened(
    rt: &impl Abort,
    alloc: Global,
    season: &Season,
    bytes: &[u8],
    failing: &[Failure],
) -> Option<(Journal<MemoryDisk>, Vec<Asked>)>
    ensures journal { IfSome result (λ r. r.0.season ≡ season.now) }
    ensures fit { IfSome result (λ r. All (IsFit season.now) r.1.items) }
    ensures many { IfSome result (λ r. length r.1.items ≤ MOST_PAIRS) }
{
    let disk = disk_of(rt, alloc, bytes, failing);
    Journal::open(alloc, disk, season).ok()
}

/// A disk with room for a journal of four pairs that holds these bytes, some calls of which fail.
fn disk_of(rt: &impl Abort, alloc: Global, bytes: &[u8], failing: &[Failure]) -> MemoryDisk {
    assert!(rt; bytes.len() <= ROOM, "too long");
    let failing = failing.to_vec(alloc).expect(rt, "memory");
    MemoryDisk::new(alloc, bytes, ROOM, 99, failing).expect(rt, "memory")
}

/// Asks what a journal lacks of the first so many asks, by a ledger over the book of its pairs.
fn go_on<R: Abort + Wait>(
    rt: &R,
    alloc: Global,
    journal: Journal<MemoryDisk>,
    book: Book,
    season: &Season,
    count: usize,
) -> Left
    requires journal { journal.season ≡ book.book.declaration.season }
    requires season { season.now ≡ book.book.declaration.season }
{
    let found = journal.count() as usize;
    let mut reached = Reached {
        done: found,
        broken: false,
    };
    let (book, disk) = run_by(rt, alloc, journal, book, season, &mut reached, count);
    what_is_left(rt, alloc, found, reached, season, &book, &disk)
}

/// The book and the disk after the asks of two callers from the place on that is reached.
fn run_by<R: Abort + Wait>(
    rt: &R,
    alloc: Global,
    journal: Journal<MemoryDisk>,
    book: Book,
    season: &Season,
    reached: &mut Reached,
    count: usize,
) -> (Book, MemoryDisk)
    requires journal { journal.season ≡ book.book.declaration.season }
    requires season { season.now ≡ book.book.declaration.season }
{
    let (ledger, mut first, mut second) = begun(rt, alloc, journal, book);
    ask_in_turn(
        rt,
        alloc,
        &ledger,
        season,
        &mut first,
        &mut second,
        reached,
        count,
    );
    closed(rt, alloc, ledger, first, second)
}

/// A ledger of two callers with a journal, and their passes.
fn begun(
    rt: &impl Abort,
    alloc: Global,
    journal: Journal<MemoryDisk>,
    book: Book,
) -> (
    JournalLedger<MemoryDisk>,
    JournalPass<MemoryDisk>,
    JournalPass<MemoryDisk>,
)
    requires { journal.season ≡ book.book.declaration.season }
    ensures callers { result.0.callers ≡ 2 }
    ensures first { IsAtRest result.0 result.1 }
    ensures second { IsAtRest result.0 result.2 }
    ensures declared { book.book.declaration ≡ result.0.origin.start.declaration }
{
    assert!(rt; book.count() <= 2_000_000, "too many holdings");
    let (ledger, mut passes) = JournalLedger::start(alloc, journal, book, 2).expect(rt, "memory");
    let second = passes.pop().expect(rt, "a second pass");
    let first = passes.pop().expect(rt, "a first pass");
    (ledger, first, second)
}

/// What is left of a run that has ended with this book and this disk.
fn what_is_left(
    rt: &impl Abort,
    alloc: Global,
    found: usize,
    reached: Reached,
    season: &Season,
    book: &Book,
    disk: &MemoryDisk,
) -> Left {
    let mut held = Vec::new(alloc);
    put_holdings(rt, alloc, &mut held, season, book.holdings());
    let bytes = Vec::from_slice(alloc, disk.bytes()).expect(rt, "memory");
    Left {
        found,
        reached,
        held,
        bytes,
    }
}

/// Asks from the place on that is reached, one caller's ask behind the other's, up to so many.
fn ask_in_turn<R: Abort + Wait>(
    rt: &R,
    alloc: Global,
    ledger: &JournalLedger<MemoryDisk>,
    season: &Season,
    first: &mut JournalPass<MemoryDisk>,
    second: &mut JournalPass<MemoryDisk>,
    reached: &mut Reached,
    count: usize,
)
    requires first { IsAtRest ledger.now first.old }
    requires second { IsAtRest ledger.now second.old }
    requires season { season.now ≡ ledger.now.origin.start.declaration.season }
    ensures first { IsAtRest ledger.now first.new }
    ensures second { IsAtRest ledger.now second.new }
{
    for (n, text) in ASKS.iter().enumerate() {
        if n == reached.done && n < count {
            let ask = fit_ask(rt, alloc, season, text);
            if n % 2 == 0 {
                ask_one(rt, alloc, ledger, first, reached, &ask);
            } else {
                ask_one(rt, alloc, ledger, second, reached, &ask);
            }
        }
    }
}

/// Asks once.
fn ask_one<R: Abort + Wait>(
    rt: &R,
    alloc: Global,
    ledger: &JournalLedger<MemoryDisk>,
    pass: &mut JournalPass<MemoryDisk>,
    reached: &mut Reached,
    ask: &Item,
)
    requires rest { IsAtRest ledger.now pass.old }
    requires fit { IsFitItem ledger.now.origin.start.declaration.season ask.now }
    ensures { IsAtRest ledger.now pass.new }
{
    match ledger.amend(rt, alloc, pass, ask) {
        Ok(_answer) => reached.done = reached.done.wrapping_add(1),
        Err(JournalFault::Broken { faults: 1 }) => reached.broken = true,
        Err(fault) => panic!(rt; "refused: {fault:?}"),
    }
}

/// The book and the disk of a ledger of two callers.
fn closed(
    rt: &impl Abort,
    alloc: Global,
    ledger: JournalLedger<MemoryDisk>,
    first: JournalPass<MemoryDisk>,
    second: JournalPass<MemoryDisk>,
) -> (Book, MemoryDisk)
    requires callers { ledger.callers ≡ 2 }
    requires first { IsAtRest ledger first }
    requires second { IsAtRest ledger second }
{
    let passes = vec![in alloc; first, second].expect(rt, "memory");
    let (book, _history, disk) = ledger.close(passes);
    (book, disk)
}

fn run_on<R: Abort + Wait>(rt: &R, alloc: Global, bytes: &[u8], count: usize) -> Left {
    run(rt, alloc, bytes, count, &[]).expect(rt, "a journal that is opened")
}

/// A ledger that ended behind any ask is opened again and goes on: the book and the journal are
/// those of one that never ended.
#[test]
fn a_reopened_ledger_goes_on(rt: HostRuntime) {
    let alloc = rt.alloc();
    let whole = run_on(&rt, alloc, b"", 4);
    assert!(rt; whole.reached == ALL && whole.bytes.len() == ROOM && !whole.held.is_empty());
    for count in 0..4 {
        assert!(rt; is_reopened(&rt, alloc, count, &whole), "{count}");
    }
}

/// Whether a ledger that ended behind so many asks has their pairs, and ends as the whole one once
/// it is opened again.
fn is_reopened<R: Abort + Wait>(rt: &R, alloc: Global, count: usize, whole: &Left) -> bool {
    let first = run_on(rt, alloc, b"", count);
    first.reached.done == count
        && first.bytes.len() == count.wrapping_mul(256).wrapping_add(17)
        && ends_alike(rt, alloc, &first.bytes, whole)
}

/// Whether a run over these bytes ends with all asks answered, as the whole one.
fn ends_alike<R: Abort + Wait>(rt: &R, alloc: Global, bytes: &[u8], whole: &Left) -> bool {
    let rest = run_on(rt, alloc, bytes, 4);
    is_alike(&rest, whole)
}

fn is_alike(rest: &Left, whole: &Left) -> bool {
    rest.reached == ALL
        && rest.held.as_slice() == whole.held.as_slice()
        && rest.bytes.as_slice() == whole.bytes.as_slice()
}

/// Each call of the disk fails once, five of the opening and four for each ask. Every ask that was
/// answered stands in the journal, and one more may: a desk that opens it again ends with the same
/// book.
#[test]
fn a_ledger_whose_disk_failed_is_opened_again(rt: HostRuntime) {
    let alloc = rt.alloc();
    let whole = run_on(&rt, alloc, b"", 4);
    for call in 0..21 {
        for part in [0, 1, 200, 999] {
            assert!(rt;
                is_opened_again(&rt, alloc, &whole, call, part),
                "call {call}"
            );
        }
    }
}

fn is_opened_again<R: Abort + Wait>(
    rt: &R,
    alloc: Global,
    whole: &Left,
    call: u64,
    part: usize,
) -> bool {
    match run(rt, alloc, b"", 4, &[Failure::after(call, part)]) {
        Some(left) => is_gone_on(rt, alloc, whole, call, &left),
        None => call < 5,
    }
}

/// Whether a run whose disk failed at a call kept what it had answered, and one over its bytes ends
/// as the whole one.
fn is_gone_on<R: Abort + Wait>(
    rt: &R,
    alloc: Global,
    whole: &Left,
    call: u64,
    left: &Left,
) -> bool {
    has_failed_at(call, left.reached)
        && is_kept(rt, alloc, &left.bytes, left.reached.done)
        && ends_alike(rt, alloc, &left.bytes, whole)
}

/// Whether the asks before the one at whose call the disk fails were answered, and it was refused.
fn has_failed_at(call: u64, reached: Reached) -> bool {
    reached.broken && call >= 5 && reached.done as u64 == (call - 5) / 4
}

/// Whether a journal has so many pairs or one more.
fn is_kept<R: Abort + Wait>(rt: &R, alloc: Global, bytes: &[u8], done: usize) -> bool {
    let kept = run_on(rt, alloc, bytes, 0).reached.done;
    kept == done || kept == done.wrapping_add(1)
}

/// Whether a run over an image of a stop finds so many pairs and ends as the whole one.
fn is_resumed<R: Abort + Wait>(
    rt: &R,
    alloc: Global,
    image: &[u8],
    found: usize,
    whole: &Left,
) -> bool {
    let rest = run_on(rt, alloc, image, 4);
    rest.found == found && is_alike(&rest, whole)
}

/// Whether each image is resumed that a stop leaves of a file past which these bytes are written:
/// the file with each front of them.
fn fronts_are_resumed<R: Abort + Wait>(
    rt: &R,
    alloc: Global,
    file: &[u8],
    written: &[u8],
    found: usize,
    whole: &Left,
) -> bool {
    let mut image = Vec::from_slice(alloc, file).expect(rt, "memory");
    for byte in written {
        if !is_resumed(rt, alloc, &image, found, whole) {
            return false;
        }
        image.push(*byte).expect(rt, "memory");
    }
    is_resumed(rt, alloc, &image, found, whole)
}

/// A stop while the journal is made or one of its first three slots is written: the file has any
/// length from the old one on, and other bytes than the slot's. A desk that opens it finds the
/// pairs that were answered, and ends with the same book and the same journal.
#[test]
fn each_torn_slot_is_resumed(rt: HostRuntime) {
    let alloc = rt.alloc();
    let whole = run_on(&rt, alloc, b"", 4);
    for filling in [0, 1, 255] {
        assert!(rt; fronts_are_resumed(&rt, alloc, b"", &[filling; 17], 0, &whole));
    }
    for done in 0..3 {
        assert!(rt; are_torn_resumed(&rt, alloc, done, &whole), "slot {done}");
    }
}

fn are_torn_resumed<R: Abort + Wait>(rt: &R, alloc: Global, done: usize, whole: &Left) -> bool {
    let file = run_on(rt, alloc, b"", done).bytes;
    let slot = whole
        .bytes
        .get(file.len()..file.len().wrapping_add(256))
        .expect(rt, "a slot");
    fronts_are_resumed(rt, alloc, &file, slot, done, whole)
        && fronts_are_resumed(rt, alloc, &file, &[0; 256], done, whole)
        && fronts_are_resumed(rt, alloc, &file, &[1; 256], done, whole)
        && fronts_are_resumed(rt, alloc, &file, &[255; 256], done, whole)
}

/// A stop while the gate of one of the first three slots is opened: it has any value.
#[test]
fn each_value_of_a_gate_is_resumed(rt: HostRuntime) {
    let alloc = rt.alloc();
    let whole = run_on(&rt, alloc, b"", 4);
    for done in 0..3 {
        assert!(rt; are_gates_resumed(&rt, alloc, done, &whole), "gate {done}");
    }
}

fn are_gates_resumed<R: Abort + Wait>(rt: &R, alloc: Global, done: usize, whole: &Left) -> bool {
    let mut image = run_on(rt, alloc, b"", done.wrapping_add(1)).bytes;
    for value in 0..256_u32 {
        let gate = image
            .get_mut(done.wrapping_mul(256).wrapping_add(16))
            .expect(rt, "a gate");
        *gate = value as u8;
        let found = done.wrapping_add(usize::from(value == 1));
        if !is_resumed(rt, alloc, &image, found, whole) {
            return false;
        }
    }
    true
}
