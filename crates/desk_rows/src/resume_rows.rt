//! The rows of `resume`: a journal that is begun and opened again, files that are no journal,
//! disks, links and doors of which each call fails, and images that a stop may leave at each
//! moment.

use crate::desk_calls::{bytes_of, call_with_disk, disk_of, doors_of, first_sent, new_cabinet};
use crate::play::play_script;
use crate::serve_rows::{SIX_ASKS, SIX_ENTRIES, TWO_MESSAGES, served_cabinet};
use crate::texts::{fits, folded, spelled_out};
use desk_disk::MemoryDisk;
use desk_links::MemoryDoor;
use desk_outside::{Failure, MemoryCabinet};
use memory_desk::{Fails, NO_FAILS};
use std::alloc::Global;
use std::process::Abort;
use std::sync::Wait;
use std::thread::Threads;
use worker_gate::RealGate;

const WORDS: &str = "resume CAP SCR CERT JOURNAL RECORD";

const ASKS: &str = "SCR;S25;20NOV;ABC;NBA002 30MAR25OCT 1234567 180320 JFK0620 J;\
    NBA003 30MAR25OCT 1234567 180320 JFK0630 J;;";

const QUERY: &str = "SCR;S25;20NOV;ABC;QBA003;;";

/// What a run of the desk said, what its first link was sent, and what its disk held then.
#[derive(Drop)]
struct Ran {
    said: String,
    sent: String,
    bytes: Vec<u8>,
}

/// Runs the desk on a file of these bytes, with a door for each text of clients, where these calls
/// of the disk, the output and the first door are to fail.
fn run<R: Abort + Threads + Wait + Sync>(
    rt: &R,
    alloc: Global,
    cabinet: &mut MemoryCabinet,
    file: &[u8],
    clients: &[&str],
    fails: &Fails,
) -> Ran {
    let mut disk = disk_of(rt, alloc, file, fails.disk);
    let mut doors = doors_of(rt, alloc, clients, fails.accept);
    run_over(rt, alloc, cabinet, fails.sink, &mut doors, &mut disk)
}

/// Runs the desk over these doors and this disk.
fn run_over<R: Abort + Threads + Wait + Sync>(
    rt: &R,
    alloc: Global,
    cabinet: &mut MemoryCabinet,
    sink: Option<Failure>,
    doors: &mut Vec<MemoryDoor>,
    disk: &mut Option<MemoryDisk>,
) -> Ran {
    Ran {
        said: call_with_disk(rt, alloc, WORDS, cabinet, sink, doors, &RealGate, disk),
        sent: first_sent(rt, alloc, doors.as_slice()),
        bytes: bytes_of(rt, alloc, disk),
    }
}

/// The same with one client, where no call fails.
fn resume<R: Abort + Threads + Wait + Sync>(
    rt: &R,
    alloc: Global,
    cabinet: &mut MemoryCabinet,
    file: &[u8],
    client: &str,
) -> Ran {
    run(rt, alloc, cabinet, file, &[client], &NO_FAILS)
}

/// How many pairs a desk finds that opens this file and answers a query.
fn kept<R: Abort + Threads + Wait + Sync>(
    rt: &R,
    alloc: Global,
    cabinet: &mut MemoryCabinet,
    file: &[u8],
) -> usize {
    let ran = resume(rt, alloc, cabinet, file, QUERY);
    pairs_in(rt, ran.said.as_str())
}

/// How many pairs a desk that answered a query said that it found, of at most three.
fn pairs_in(rt: &impl Abort, said: &str) -> usize {
    match said {
        "0 KEPT 0;ENTRIES 1;LINKS 1;" => 0,
        "0 KEPT 1;ENTRIES 1;LINKS 1;" => 1,
        "0 KEPT 2;ENTRIES 1;LINKS 1;" => 2,
        "0 KEPT 3;ENTRIES 1;LINKS 1;" => 3,
        _ => panic!(rt; "{said}"),
    }
}

/// A desk finds so many pairs that opens this file.
fn check_kept<R: Abort + Threads + Wait + Sync>(
    rt: &R,
    alloc: Global,
    cabinet: &mut MemoryCabinet,
    file: &[u8],
    pairs: usize,
) {
    assert_eq!(rt; kept(rt, alloc, cabinet, file), pairs);
}

/// Wants a text that fits this.
fn check_text(rt: &impl Abort, found: &str, due: &str) {
    assert!(rt; fits(found, due), "{found}");
}

/// A run said this, and its file has so many bytes.
fn check_run(rt: &impl Abort, ran: &Ran, said: &str, size: usize) {
    check_text(rt, ran.said.as_str(), said);
    assert_eq!(rt; ran.bytes.len(), size);
}

/// Two asks are answered and stand in the journal; a desk that opens it again has both, records its
/// own entries alone, and goes on behind them. Without clients it ends at once.
#[test]
fn a_journal_is_begun_and_opened_again(rt: HostRuntime) {
    let alloc = rt.alloc();
    let mut cabinet = served_cabinet(&rt, alloc);
    let two = resume(&rt, alloc, &mut cabinet, b"", ASKS);
    check_run(&rt, &two, "0 KEPT 0;ENTRIES 2;LINKS 1;", 529);
    let due = "SCR;S25;20NOV;ABC;KBA002 *;UBA003 *;OBA003 *JFK0700 J;;";
    check_text(&rt, two.sent.as_str(), due);
    check_opened(&rt, alloc, &mut cabinet, &two.bytes);
}

/// A desk that opens a journal of two pairs has both, and one that opens it then all three.
fn check_opened<R: Abort + Threads + Wait + Sync>(
    rt: &R,
    alloc: Global,
    cabinet: &mut MemoryCabinet,
    two: &[u8],
) {
    let three = resume(rt, alloc, cabinet, two, QUERY);
    check_run(rt, &three, "0 KEPT 2;ENTRIES 1;LINKS 1;", 785);
    let due = "SCR;S25;20NOV;ABC;OBA003 30MAR25OCT 1234567 180320 JFK0700 J;;";
    check_text(rt, three.sent.as_str(), due);
    check_own_record(rt, alloc, cabinet);
    check_still(rt, alloc, cabinet, &three.bytes);
}

/// The record is that of the query alone.
fn check_own_record(rt: &impl Abort, alloc: Global, cabinet: &MemoryCabinet) {
    let record = folded(rt, alloc, cabinet.file("RECORD").expect(rt, "no record"));
    check_text(rt, record.as_str(), "ENTRY 1 CALLER 0;QBA003;OBA003 *");
}

/// A desk without clients has these three pairs, and leaves the file as it is.
fn check_still<R: Abort + Threads + Wait + Sync>(
    rt: &R,
    alloc: Global,
    cabinet: &mut MemoryCabinet,
    three: &[u8],
) {
    let still = run(rt, alloc, cabinet, three, &[], &NO_FAILS);
    check_text(rt, still.said.as_str(), "0 KEPT 3;ENTRIES 0;LINKS 0;");
    assert!(rt; still.bytes.as_slice() == three);
}

/// Two workers write one journal.
#[test]
fn two_workers_keep_one_journal(rt: HostRuntime) {
    let alloc = rt.alloc();
    let mut cabinet = served_cabinet(&rt, alloc);
    let ran = run(&rt, alloc, &mut cabinet, b"", &[ASKS, QUERY], &NO_FAILS);
    check_run(&rt, &ran, "0 KEPT 0;ENTRIES 3;LINKS 2;", 785);
    check_kept(&rt, alloc, &mut cabinet, &ran.bytes, 3);
}

/// The header, and an open slot of caller 0 with this text and a closed gate behind it.
fn one_slot(rt: &impl Abort, alloc: Global, text: &str) -> Vec<u8> {
    let text = spelled_out(rt, alloc, text);
    let size = u8::try_from(text.len()).expect(rt, "too long");
    let mut file = spelled_out(rt, alloc, "SLOT JOURNAL 01;");
    put(rt, &mut file, &[1, 0, size]);
    put(rt, &mut file, &text);
    file.resize(273, 0).expect(rt, "memory");
    file
}

fn put(rt: &impl Abort, file: &mut Vec<u8>, bytes: &[u8]) {
    file.extend_from_slice(bytes).expect(rt, "memory");
}

/// The bytes from one place up to another, which the file has.
fn part<'a>(rt: &impl Abort, bytes: &'a [u8], from: usize, to: usize) -> &'a [u8] {
    assert!(rt; from <= to && to <= bytes.len(), "too short");
    &bytes[from..to]
}

/// The file with another byte at a place.
fn changed(rt: &impl Abort, alloc: Global, file: &[u8], place: usize, value: u8) -> Vec<u8> {
    let mut out = Vec::from_slice(alloc, file).expect(rt, "memory");
    assert!(rt; place < out.len(), "too short");
    out[place] = value;
    out
}

/// Whether a desk says this of a file, which stays as it is, and sends nothing.
fn is_refused<R: Abort + Threads + Wait + Sync>(
    rt: &R,
    alloc: Global,
    cabinet: &mut MemoryCabinet,
    file: &[u8],
    due: &str,
) -> bool {
    let ran = resume(rt, alloc, cabinet, file, ASKS);
    ran.said.as_str() == due && ran.bytes.as_slice() == file && ran.sent.is_empty()
}

const LINE: &str = "NBA002 30MAR25OCT 1234567 180320 JFK0620 J;";

/// A file that is no journal, and none.
#[test]
fn files_are_refused(rt: HostRuntime) {
    let alloc = rt.alloc();
    let mut cabinet = served_cabinet(&rt, alloc);
    assert!(rt; is_refused(&rt, alloc, &mut cabinet, &[0; 300], "13 JOURNAL OTHER;"));
    assert!(rt; cabinet.file("RECORD").is_none());
    assert!(rt; is_without_disk(&rt, alloc, &mut cabinet));
}

fn is_without_disk<R: Abort + Threads + Wait + Sync>(
    rt: &R,
    alloc: Global,
    cabinet: &mut MemoryCabinet,
) -> bool {
    let mut doors = doors_of(rt, alloc, &[ASKS], None);
    let mut none = None;
    let said = call_with_disk(
        rt, alloc, WORDS, cabinet, None, &mut doors, &RealGate, &mut none,
    );
    said.as_str() == "13 JOURNAL NONE;"
}

/// A slot of this season, and its front; one of another season, and one without a text.
#[test]
fn slots_are_refused(rt: HostRuntime) {
    let alloc = rt.alloc();
    let mut cabinet = served_cabinet(&rt, alloc);
    check_slot(&rt, alloc, &mut cabinet);
    for text in ["NBA002 26OCT28MAR 1234567 180320 JFK0620 J;", ""] {
        assert!(rt; is_slot_refused(&rt, alloc, &mut cabinet, text), "{text}");
    }
}

/// A slot of this season is kept, and its front is not.
fn check_slot<R: Abort + Threads + Wait + Sync>(
    rt: &R,
    alloc: Global,
    cabinet: &mut MemoryCabinet,
) {
    let here = one_slot(rt, alloc, LINE);
    check_kept(rt, alloc, cabinet, &here, 1);
    let cut = part(rt, &here, 0, 272);
    assert!(rt; is_refused(rt, alloc, cabinet, cut, "13 JOURNAL SLOT 0;"));
}

fn is_slot_refused<R: Abort + Threads + Wait + Sync>(
    rt: &R,
    alloc: Global,
    cabinet: &mut MemoryCabinet,
    text: &str,
) -> bool {
    let file = one_slot(rt, alloc, text);
    is_refused(rt, alloc, cabinet, &file, "13 JOURNAL SLOT 0;")
}

/// One byte of an open slot is another: its length, and each behind its text.
#[test]
fn damaged_slots_are_refused(rt: HostRuntime) {
    let alloc = rt.alloc();
    let mut cabinet = served_cabinet(&rt, alloc);
    let whole = one_slot(&rt, alloc, LINE);
    check_damages(&rt, alloc, &mut cabinet, &whole);
}

fn check_damages<R: Abort + Threads + Wait + Sync>(
    rt: &R,
    alloc: Global,
    cabinet: &mut MemoryCabinet,
    whole: &[u8],
) {
    for place in 18..272 {
        if place > 18 && place < 19 + LINE.len() {
            continue;
        }
        assert!(rt; is_damaged(rt, alloc, cabinet, whole, place), "{place}");
    }
}

/// Whether a slot is refused that has another byte at a place.
fn is_damaged<R: Abort + Threads + Wait + Sync>(
    rt: &R,
    alloc: Global,
    cabinet: &mut MemoryCabinet,
    whole: &[u8],
    place: usize,
) -> bool {
    let file = changed(rt, alloc, whole, place, 99);
    let ran = resume(rt, alloc, cabinet, &file, QUERY);
    ran.said.as_str() == "13 JOURNAL SLOT 0;"
}

/// Each call of the disk fails once: five of the opening, and four for each ask. What was entered
/// stands in the journal, and from the opening of a gate on one more may.
#[test]
fn each_call_of_the_disk_fails(rt: HostRuntime) {
    let alloc = rt.alloc();
    let mut cabinet = served_cabinet(&rt, alloc);
    for call in 0..13 {
        check_call(&rt, alloc, &mut cabinet, b"", ASKS, call);
    }
}

/// The same of a journal of two pairs: three of the five calls read it.
#[test]
fn each_call_of_a_later_opening_fails(rt: HostRuntime) {
    let alloc = rt.alloc();
    let mut cabinet = served_cabinet(&rt, alloc);
    let two = resume(&rt, alloc, &mut cabinet, b"", ASKS);
    for call in 0..9 {
        check_call(&rt, alloc, &mut cabinet, &two.bytes, QUERY, call);
    }
}

/// A call of the disk may fail, after any of these numbers of bytes.
fn check_call<R: Abort + Threads + Wait + Sync>(
    rt: &R,
    alloc: Global,
    cabinet: &mut MemoryCabinet,
    file: &[u8],
    client: &str,
    call: u64,
) {
    for part in [0, 1, 200, 999] {
        let failing = Failure::after(call, part);
        let is_good = may_fail(rt, alloc, cabinet, file, client, failing);
        assert!(rt; is_good, "call {call} after {part} bytes");
    }
}

/// Whether a call of the disk may fail.
fn may_fail<R: Abort + Threads + Wait + Sync>(
    rt: &R,
    alloc: Global,
    cabinet: &mut MemoryCabinet,
    file: &[u8],
    client: &str,
    failing: Failure,
) -> bool {
    let ran = run(rt, alloc, cabinet, file, &[client], &disk_fails(failing));
    let found = kept(rt, alloc, cabinet, &ran.bytes);
    ran.sent.is_empty() && is_failed(rt, alloc, file, &ran, failing.call, found as u64)
}

/// This call of the disk fails.
fn disk_fails(failing: Failure) -> Fails {
    let mut fails = NO_FAILS;
    fails.disk = Some(failing);
    fails
}

/// Whether a run on a file said that this call failed, and so many pairs were found behind it.
fn is_failed(
    rt: &impl Abort,
    alloc: Global,
    file: &[u8],
    ran: &Ran,
    call: u64,
    found: u64,
) -> bool {
    let pairs = file.len() as u64 / 256;
    let Some(behind) = call.checked_sub(5) else {
        return ran.said.as_str() == "14 JOURNAL FAULT;"
            && found == pairs
            && (file.is_empty() || ran.bytes.as_slice() == file);
    };
    let entered = behind / 4;
    let more = found.wrapping_sub(pairs).wrapping_sub(entered);
    has_entered(rt, alloc, ran.said.as_str(), pairs, entered)
        && (more == 0 || more == 1 && behind % 4 >= 2)
}

/// Whether it was said that the disk failed behind so many pairs and entries.
fn has_entered(rt: &impl Abort, alloc: Global, said: &str, pairs: u64, entered: u64) -> bool {
    let due = format!(in alloc; "14 KEPT {pairs};ENTRIES {entered};LINKS 1;").expect(rt, "memory");
    said == due.as_str()
}

/// The status of a disk that failed comes before that of a door, and a file that is not in its form
/// before any call of the disk.
#[test]
fn statuses_have_an_order(rt: HostRuntime) {
    let alloc = rt.alloc();
    let mut cabinet = served_cabinet(&rt, alloc);
    let mut fails = NO_FAILS;
    fails.accept = Some(Failure::at(0));
    check_said(
        &rt,
        alloc,
        &mut cabinet,
        &fails,
        "10 KEPT 0;ENTRIES 2;LINKS 1;",
    );
    fails.disk = Some(Failure::at(6));
    check_said(
        &rt,
        alloc,
        &mut cabinet,
        &fails,
        "14 KEPT 0;ENTRIES 0;LINKS 1;",
    );
    let _ = cabinet.load("CERT", b"CERT 4\n");
    let fails = disk_fails(Failure::at(0));
    check_said(&rt, alloc, &mut cabinet, &fails, "3 FORM CERT 1;");
}

/// A desk says this over two doors, where these calls fail.
fn check_said<R: Abort + Threads + Wait + Sync>(
    rt: &R,
    alloc: Global,
    cabinet: &mut MemoryCabinet,
    fails: &Fails,
    due: &str,
) {
    let ran = run(rt, alloc, cabinet, b"", &[QUERY, ASKS], fails);
    check_text(rt, ran.said.as_str(), due);
}

/// A front of a file, and so many bytes of a filling behind it.
fn image(rt: &impl Abort, alloc: Global, front: &[u8], count: usize, filling: &[u8]) -> Vec<u8> {
    let mut bytes = Vec::from_slice(alloc, front).expect(rt, "memory");
    for place in 0..count {
        let byte = filling.get(place).copied().unwrap_or(255);
        bytes.push(byte).expect(rt, "memory");
    }
    bytes
}

/// Whether a desk finds so many pairs in a file of a front and so many bytes of a filling.
fn finds<R: Abort + Threads + Wait + Sync>(
    rt: &R,
    alloc: Global,
    cabinet: &mut MemoryCabinet,
    front: &[u8],
    count: usize,
    filling: &[u8],
    pairs: usize,
) -> bool {
    let file = image(rt, alloc, front, count, filling);
    kept(rt, alloc, cabinet, &file) == pairs
}

/// A stop while a short file is made anew: any length, and any bytes.
#[test]
fn images_of_a_short_file_are_opened(rt: HostRuntime) {
    let alloc = rt.alloc();
    let mut cabinet = served_cabinet(&rt, alloc);
    let two = resume(&rt, alloc, &mut cabinet, b"", ASKS);
    for count in 0..18 {
        check_short(&rt, alloc, &mut cabinet, &two.bytes, count);
    }
}

/// Nothing is found in so many of these bytes, nor in as many zeros.
fn check_short<R: Abort + Threads + Wait + Sync>(
    rt: &R,
    alloc: Global,
    cabinet: &mut MemoryCabinet,
    bytes: &[u8],
    count: usize,
) {
    assert!(rt;
        finds(rt, alloc, cabinet, b"", count, bytes, 0),
        "{count} bytes"
    );
    assert!(rt;
        finds(rt, alloc, cabinet, b"", count, &[0; 18], 0),
        "{count} zeros"
    );
}

/// A stop while a pair is put, before its first sync: any length and any bytes behind what stood
/// before. Then while its gate is opened: any value of the gate.
#[test]
fn images_of_a_stop_are_opened(rt: HostRuntime) {
    let alloc = rt.alloc();
    let mut cabinet = served_cabinet(&rt, alloc);
    let two = resume(&rt, alloc, &mut cabinet, b"", ASKS);
    for pairs in 0..2 {
        check_stops(&rt, alloc, &mut cabinet, &two.bytes, pairs);
    }
}

/// The images of a stop behind so many of two pairs.
fn check_stops<R: Abort + Threads + Wait + Sync>(
    rt: &R,
    alloc: Global,
    cabinet: &mut MemoryCabinet,
    two: &[u8],
    pairs: usize,
) {
    assert!(rt; pairs < 2);
    let gate = 16 + 256 * pairs;
    let front = part(rt, two, 0, gate);
    let slot = part(rt, two, gate + 1, gate + 256);
    let closed = image(rt, alloc, front, 1, &[0]);
    for filling in [slot, &[0; 256], two, b""] {
        check_slots(rt, alloc, cabinet, &closed, filling, pairs);
    }
    check_gates(rt, alloc, cabinet, front, slot, pairs);
}

/// So many pairs are found behind a stop before the first sync, where the slot's bytes, or others,
/// have come in part.
fn check_slots<R: Abort + Threads + Wait + Sync>(
    rt: &R,
    alloc: Global,
    cabinet: &mut MemoryCabinet,
    closed: &[u8],
    filling: &[u8],
    pairs: usize,
) {
    for count in [0, 1, 2, 63, 254, 255, 256] {
        let is_found = finds(rt, alloc, cabinet, closed, count, filling, pairs);
        assert!(rt; is_found, "{pairs} pairs and {count} bytes");
    }
}

/// So many pairs are found behind a stop while the gate is opened, or with gate 1 one more.
fn check_gates<R: Abort + Threads + Wait + Sync>(
    rt: &R,
    alloc: Global,
    cabinet: &mut MemoryCabinet,
    front: &[u8],
    slot: &[u8],
    pairs: usize,
) {
    for value in [0, 1, 2, 128, 255] {
        let more = usize::from(value == 1);
        let file = image(rt, alloc, front, 1, &[value]);
        let is_found = finds(
            rt,
            alloc,
            cabinet,
            &file,
            256,
            slot,
            pairs.wrapping_add(more),
        );
        assert!(rt; is_found, "{pairs} pairs and gate {value}");
    }
}

/// A cabinet with the files of another one that the desk reads, of which a call is to fail.
fn copied(
    rt: &impl Abort,
    alloc: Global,
    files: &MemoryCabinet,
    call: Option<Failure>,
) -> MemoryCabinet {
    let mut cabinet = new_cabinet(rt, alloc, 300_000, call);
    for name in ["CAP", "SCR", "CERT"] {
        let _ = cabinet.load(name, files.file(name).expect(rt, "no such file"));
    }
    cabinet
}

/// A run on a copy of these files, of which a call is to fail, or the output.
fn run_on_copy<R: Abort + Threads + Wait + Sync>(
    rt: &R,
    alloc: Global,
    files: &MemoryCabinet,
    fails: &Fails,
) -> Ran {
    let mut cabinet = copied(rt, alloc, files, fails.cabinet);
    run(rt, alloc, &mut cabinet, b"", &[ASKS], fails)
}

/// The record cannot be written, or what is said not be put: the journal has all entries.
#[test]
fn the_journal_stands_where_the_record_fails(rt: HostRuntime) {
    let alloc = rt.alloc();
    let mut files = served_cabinet(&rt, alloc);
    let due = "5 CABINET RECORD WRITE;";
    let mut fails = NO_FAILS;
    fails.cabinet = Some(Failure::at(3));
    check_behind(&rt, alloc, &mut files, &fails, due);
    fails.cabinet = Some(Failure::after(3, 8));
    check_behind(&rt, alloc, &mut files, &fails, due);
    let mut fails = NO_FAILS;
    fails.sink = Some(Failure::at(0));
    check_behind(&rt, alloc, &mut files, &fails, "6 ");
}

/// The desk says this on these files, where a call fails, and the journal has both pairs then.
fn check_behind<R: Abort + Threads + Wait + Sync>(
    rt: &R,
    alloc: Global,
    files: &mut MemoryCabinet,
    fails: &Fails,
    due: &str,
) {
    let ran = run_on_copy(rt, alloc, files, fails);
    check_text(rt, ran.said.as_str(), due);
    check_kept(rt, alloc, files, &ran.bytes, 2);
}

/// Each read fails: nothing of the journal is asked, and no client is met.
#[test]
fn each_read_fails(rt: HostRuntime) {
    let alloc = rt.alloc();
    let files = served_cabinet(&rt, alloc);
    check_unread(&rt, alloc, &files, 0, "5 CABINET CAP READ;");
    check_unread(&rt, alloc, &files, 1, "5 CABINET SCR READ;");
    check_unread(&rt, alloc, &files, 2, "5 CABINET CERT READ;");
}

/// The desk says that this read failed, and leaves an empty file and a silent link.
fn check_unread<R: Abort + Threads + Wait + Sync>(
    rt: &R,
    alloc: Global,
    files: &MemoryCabinet,
    call: u64,
    due: &str,
) {
    let mut fails = NO_FAILS;
    fails.cabinet = Some(Failure::at(call));
    let ran = run_on_copy(rt, alloc, files, &fails);
    check_run(rt, &ran, due, 0);
    check_text(rt, ran.sent.as_str(), "");
}

/// One hour of two arrivals, one of them historic, and an empty journal.
const JOURNALED: &str = "\
file CAP AIRPORT ABC;SEASON S25;STEP 5;FLEX 60;GROUND 40;REFUSE NONE;\
    CAP ARR 60 0600 0600 1234567 2;
file SCR SCR;S25;20NOV;ABC;FBA001 30MAR25OCT 1234567 180320 JFK0610 J;
words allocate CAP SCR CERT REPLIES
says 0 STAGE 1 OPTIMAL 0;*
take CERT
file RECORD OLD;
journal
words resume CAP SCR CERT JOURNAL RECORD --links 2
";

/// Calls of a link that fail, where two messages and an end come with its first take: the desk goes
/// on with the next client, and each ask that was entered stands in the journal. Then accepts of
/// the first door, of two doors of two links.
const FAILS: &str = "\
says 0 KEPT 0;ENTRIES 0;LINKS 0;
holds RECORD 
kept 0
door SCR;S25;20NOV;ABC;NBA002 30MAR25OCT 1234567 180320 JFK0620 J;;\
    SCR;S25;20NOV;ABC;NBA003 30MAR25OCT 1234567 180320 JFK0700 J;;|SCR;S25;20NOV;ABC;QBA003;;
says 0 KEPT 0;ENTRIES 3;LINKS 2;
kept 3
link 0|0 KEPT 0;ENTRIES 1;LINKS 2;
sent 0 0 
sent 0 1 SCR;S25;20NOV;ABC;WBA003;;
holds RECORD ENTRY 1 CALLER 0;QBA003;WBA003;
kept 1
link 1|0 KEPT 0;ENTRIES 2;LINKS 2;
sent 0 0 
sent 0 1 SCR;S25;20NOV;ABC;WBA003;;
holds RECORD ENTRY 1 CALLER 0;NBA002 *;KBA002 *;ENTRY 2 CALLER 0;QBA003;WBA003;
kept 2
link 2|0 KEPT 0;ENTRIES 3;LINKS 2;
sent 0 0 SCR;S25;20NOV;ABC;KBA002 30MAR25OCT 1234567 180320 JFK0620 J;;
sent 0 1 SCR;S25;20NOV;ABC;HBA003 30MAR25OCT 1234567 180320 JFK0700 J;;
holds RECORD ENTRY 1 CALLER 0;NBA002 *;KBA002 *;ENTRY 2 CALLER 0;NBA003 *;KBA003 *;\
    ENTRY 3 CALLER 0;QBA003;HBA003 *
kept 3
link 2:6|0 KEPT 0;ENTRIES 3;LINKS 2;
sent 0 0 SCR;S25;20NOV;ABC;KBA002 30MAR25OCT 1234567 180320 JFK0620 J;;SCR;S2
sent 0 1 SCR;S25;20NOV;ABC;HBA003 30MAR25OCT 1234567 180320 JFK0700 J;;
kept 3
link 3|0 KEPT 0;ENTRIES 3;LINKS 2;
sent 0 0 SCR;S25;20NOV;ABC;KBA002 30MAR25OCT 1234567 180320 JFK0620 J;;\
    SCR;S25;20NOV;ABC;KBA003 30MAR25OCT 1234567 180320 JFK0700 J;;
kept 3
shut
door SCR;S25;20NOV;ABC;QBA001;;|SCR;S25;20NOV;ABC;QBA001;;
door SCR;S25;20NOV;ABC;QBA001;;|SCR;S25;20NOV;ABC;QBA001;;
says 0 KEPT 0;ENTRIES 4;LINKS 4;
kept 4
accept 0|10 KEPT 0;ENTRIES 2;LINKS 2;
holds RECORD ENTRY 1 CALLER 1;*ENTRY 2 CALLER 1;*
kept 2
accept 1|10 KEPT 0;ENTRIES 3;LINKS 3;
sent 0 0 SCR;S25;20NOV;ABC;HBA001 30MAR25OCT 1234567 180320 JFK0610 J;;
holds RECORD ENTRY 1 CALLER *;*ENTRY 3 CALLER *;QBA001;HBA001 *
kept 3
accept 2|0 KEPT 0;ENTRIES 4;LINKS 4;
kept 4
words resume CAP SCR CERT JOURNAL RECORD --links 3
says 0 KEPT 0;ENTRIES 4;LINKS 4;
accept 2|10 KEPT 0;ENTRIES 4;LINKS 4;
holds RECORD ENTRY 1 CALLER *;*ENTRY 4 CALLER *;QBA001;HBA001 *
kept 4";

#[test]
fn links_and_doors_fail(rt: HostRuntime) {
    let alloc = rt.alloc();
    let script = format!(in alloc; "{JOURNALED}{FAILS}").expect(&rt, "memory");
    play_script(&rt, alloc, &script);
}

/// One link in pieces of one byte, of which each take and the put fail in turn: what was sent is
/// whole or nothing, and the asks stand in the record and in the journal where their message had
/// come.
#[test]
fn each_call_of_a_link_fails(rt: HostRuntime) {
    let alloc = rt.alloc();
    let script = script_of_calls(&rt, alloc);
    play_script(&rt, alloc, &script);
}

fn script_of_calls(rt: &impl Abort, alloc: Global) -> String {
    let mut script = piecewise(rt, alloc, SIX_ASKS);
    for call in 0..SIX_ASKS.len() + 3 {
        let rows = rows_of_call(rt, alloc, call);
        script.push_str(&rows).expect(rt, "memory");
    }
    script
}

/// A journal, and a link of these messages in pieces of one byte.
fn piecewise(rt: &impl Abort, alloc: Global, messages: &str) -> String {
    format!(in alloc; "{JOURNALED}piece 1\ndoor {messages}\n").expect(rt, "memory")
}

/// What is said, sent, recorded and kept where this call of a link fails, which is a take of its
/// message, or comes behind these.
fn rows_of_call(rt: &impl Abort, alloc: Global, call: usize) -> String {
    let takes = SIX_ASKS.len();
    let (entered, record) = if call < takes {
        (0, "")
    } else {
        (6, SIX_ENTRIES)
    };
    let sent = if call <= takes {
        ""
    } else {
        "SCR;S25;20NOV;ABC;KBA002 *;WBA009 30MAR25OCT 1234567 180320 JFK0700 J;;"
    };
    format!(in alloc;
        "link {call}|0 KEPT 0;ENTRIES {entered};LINKS 1;\nsent 0 0 {sent}\n\
        holds RECORD {record}\nkept {entered}\n"
    )
    .expect(rt, "memory")
}

/// Two messages in pieces of one byte: where a take of the second one fails, the first has its
/// reply, its entry and its pair.
#[test]
fn a_reply_is_sent_before_more_is_taken(rt: HostRuntime) {
    let alloc = rt.alloc();
    let script = script_of_replies(&rt, alloc);
    play_script(&rt, alloc, &script);
}

fn script_of_replies(rt: &impl Abort, alloc: Global) -> String {
    let (first, _) = TWO_MESSAGES.split_once(";;").expect(rt, "two messages");
    let takes = first.len() + 2;
    let mut script = piecewise(rt, alloc, TWO_MESSAGES);
    // behind the takes of the first message comes one put
    for call in takes.saturating_add(1)..TWO_MESSAGES.len() + 1 {
        let rows = format!(in alloc; "link {call}|{FIRST_ROWS}").expect(rt, "memory");
        script.push_str(&rows).expect(rt, "memory");
    }
    script
}

/// The first of these messages was answered, and the second did not come.
const FIRST_ROWS: &str = "\
0 KEPT 0;ENTRIES 1;LINKS 1;
sent 0 0 SCR;S25;20NOV;ABC;KBA002 30MAR25OCT 1234567 180320 JFK0620 J;;
holds RECORD ENTRY 1 CALLER 0;NBA002 *;KBA002 *
kept 1
";
