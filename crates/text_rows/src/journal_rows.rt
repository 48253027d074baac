//! The amendment journal: which pairs a file stands for, and what a stop at each moment leaves. The
//! files are laid out by hand.

ghost use Rattle.std.specs.Prelude.{◌≡◌, ◌≤◌};
ghost use Rattle.scr_reader.specs.Again.{IsFitItem};

use crate::rows::{Case, Finding, walk};
use amend_journal::{Asked, Journal, MOST_PAIRS, OpenFault, Slot};
use desk_disk::{Disk, MemoryDisk};
use desk_outside::Failure;
use scr_reader::{Item, print_item, read_item};
use season_days::Season;
use std::alloc::Global;
use std::process::Abort;

/// Room for a journal of four pairs.
const ROOM: usize = 1041;

/// What opening a file in a season answers, and the length of the file afterwards.
#[derive(Drop)]
struct Openings {
    season: Season,
}

impl Case for Openings {
    fn find(&mut self, rt: &impl Abort, given: &[u8], out: &mut Finding) {
        assert!(rt; given.len() <= ROOM, "too long");
        let none = Vec::new(out.alloc);
        let disk = MemoryDisk::new(out.alloc, given, ROOM, 99, none).expect(rt, "memory");
        match Journal::open(out.alloc, disk, &self.season) {
            Ok((journal, asks)) => {
                say_asks(out, &self.season, &asks);
                out.say(journal.into_disk().bytes().len())
            }
            Err((fault, disk)) => {
                say_fault(out, fault);
                out.say(disk.bytes().len())
            }
        }
    }
}

fn say_asks(out: &mut Finding, season: &Season, asks: &[Asked]) {
    for asked in asks {
        out.say(format_args!("{} ", asked.caller));
        put_item(out, season, &asked.ask);
    }
}

fn say_fault(out: &mut Finding, fault: OpenFault) {
    match fault {
        OpenFault::NotJournal => out.say("OTHER "),
        OpenFault::BadSlot { number } => out.say(format_args!("SLOT {number} ")),
        OpenFault::DiskFault => out.say("FAULT "),
        OpenFault::Memory => out.put(b"MEMORY "),
    }
}

fn put_item(out: &mut Finding, season: &Season, item: &Item) {
    if item.fits(season) {
        let kept = print_item(out.alloc, &mut out.bytes, season, item);
        out.keep(kept);
    }
}

// The rows stand for: no file; short ones; one of zeros; a header with a closed gate and anything
// behind it; one pair; then slots that are not whole, and texts that are not the printed ones.
const OPENINGS: &[u8] = b"\
|17
xyz|17
<16x>|17
SLOT JOURNAL 01;\x01|17
SLOT JOURNAL 01;\x00|17
<300\x00>|OTHER 300
SLOT JOURNAL 02;<2\x00>|OTHER 18
SLOT JOURNAL 01;\x01<256\x00>|SLOT 0 273
SLOT JOURNAL 01;\x00x|18
SLOT JOURNAL 01;\x02<300x>|317
SLOT JOURNAL 01;\x01\x05\x07QBA001;<246\x00>\x00|5 QBA001;273
SLOT JOURNAL 01;\x01\xff\x07QBA001;<246\x00>\x09<99z>|255 QBA001;372
SLOT JOURNAL 01;\x01\x05\x07QBA001;<246\x00>|SLOT 0 272
SLOT JOURNAL 01;\x01\x05\x07QBA001;<246\x00>\x01|SLOT 1 273
SLOT JOURNAL 01;\x01\x05\x07QBA001;<246\x00>\x01\x06\x07QBA002;<246\x00>\x00|5 QBA001;6 QBA002;529
SLOT JOURNAL 01;\x01\x05\x07QBA001;<246\x00>\x01\x06\x07QBA002;<246\x00>|SLOT 1 528
SLOT JOURNAL 01;\x01\x05\x07QBA001;<246\x00>\x01\x06\x08QBA002;<246\x00>\x00|SLOT 1 529
SLOT JOURNAL 01;\x01\x05\x07QBA001;<245\x00>\x01\x00|SLOT 0 273
SLOT JOURNAL 01;\x01\x05\x05QBA1;<248\x00>\x00|SLOT 0 273
SLOT JOURNAL 01;\x01\x05\x06QBA001<247\x00>\x00|SLOT 0 273
SLOT JOURNAL 01;\x01\x05\x08QBA001\r;<245\x00>\x00|SLOT 0 273
SLOT JOURNAL 01;\x01\x05\x05SI x;<248\x00>\x00|SLOT 0 273
SLOT JOURNAL 01;\x01\x05\xfeQBA001;<246\x00>\x00|SLOT 0 273
SLOT JOURNAL 01;\x01\x05+NBA001 30MAR25OCT 1234567 180320 JFK0600 J;<210\x00>\x00|\
5 NBA001 30MAR25OCT 1234567 180320 JFK0600 J;273
SLOT JOURNAL 01;\x01\x05+NBA001 30MAR26OCT 1234567 180320 JFK0600 J;<210\x00>\x00|SLOT 0 273
SLOT JOURNAL 01;\x01\x05+YBA001 30MAR25OCT 1234567 180320 JFK0600 J;<210\x00>\x00|SLOT 0 273
";

#[test]
fn a_file_stands_for_pairs_or_for_none(rt: HostRuntime) {
    let season = Season::read(b"S25").expect(&rt, "season");
    walk(&rt, rt.alloc(), &mut Openings { season }, OPENINGS)
}

/// What is put into the journal of the tests below, by the callers 0, 1 and 2.
fn text_of(number: u32) -> &'static [u8] {
    match number {
        0 => b"QBA001\n",
        1 => b"QXY1234\n",
        _ => b"QBA002\n",
    }
}

/// The journal of the first so many of these, over a disk of which some calls may fail: how many
/// puts were answered, whether one call failed, and the bytes then.
fn journal_of(
    rt: &impl Abort,
    alloc: Global,
    season: &Season,
    count: u32,
    failing: Vec<Failure>,
) -> (u32, bool, Vec<u8>)
    ensures { result.0 ≤ 3 }
{
    let disk = MemoryDisk::new(alloc, b"", ROOM, 99, failing).expect(rt, "memory");
    match Journal::open(alloc, disk, season) {
        Ok((journal, _)) => filled(rt, alloc, journal, season, count),
        Err((OpenFault::DiskFault, disk)) => made(rt, alloc, 0, &disk),
        Err(_) => panic!(rt; "not opened"),
    }
}

/// What the first so many of the texts make of a journal.
fn filled(
    rt: &impl Abort,
    alloc: Global,
    mut journal: Journal<MemoryDisk>,
    season: &Season,
    count: u32,
) -> (u32, bool, Vec<u8>)
    requires { journal.season ≡ season.now }
    ensures { result.0 ≤ 3 }
{
    let done = put_texts(rt, alloc, &mut journal, season, count);
    made(rt, alloc, done, &journal.into_disk())
}

/// How many puts were answered, whether one call of the disk failed, and its bytes.
fn made(rt: &impl Abort, alloc: Global, done: u32, disk: &MemoryDisk) -> (u32, bool, Vec<u8>)
    ensures { result.0 ≡ done }
{
    let bytes = Vec::from_slice(alloc, disk.bytes()).expect(rt, "memory");
    (done, disk.faults() == 1, bytes)
}

/// Puts the first so many of the texts, up to a put that fails: how many were answered.
fn put_texts(
    rt: &impl Abort,
    alloc: Global,
    journal: &mut Journal<MemoryDisk>,
    season: &Season,
    count: u32,
) -> u32
    requires { journal.old.season ≡ season.now }
    ensures { result ≤ 3 }
{
    for done in 0..3 {
        if done == count {
            return done;
        }
        if !put_text(rt, alloc, journal, season, done) {
            return done;
        }
    }
    3
}

/// Whether a put of the text of this number was answered.
fn put_text(
    rt: &impl Abort,
    alloc: Global,
    journal: &mut Journal<MemoryDisk>,
    season: &Season,
    number: u32,
) -> bool
    requires { journal.old.season ≡ season.now }
    ensures { journal.new.season ≡ journal.old.season }
{
    assert!(rt; journal.count() < MOST_PAIRS, "full");
    let slot = slot_of(rt, alloc, journal, season, number);
    journal.put(slot).is_ok()
}

/// The text of this number, laid out for its slot.
fn slot_of(
    rt: &impl Abort,
    alloc: Global,
    journal: &Journal<MemoryDisk>,
    season: &Season,
    number: u32,
) -> Slot
    requires { journal.now.season ≡ season.now }
{
    let ask = item_of(rt, alloc, season, number);
    let caller = u8::try_from(number).expect(rt, "a caller below 256");
    journal.ready(alloc, caller, &ask).expect(rt, "memory")
}

fn item_of(rt: &impl Abort, alloc: Global, season: &Season, number: u32) -> Item
    ensures { IsFitItem season.now result }
{
    let item = read_item(alloc, season, text_of(number)).expect(rt, "memory");
    item.expect(rt, "an item")
}

/// How many pairs a file stands for, where they are the first of those above; 9 where it does not
/// stand for such pairs, or memory runs out.
fn reopened(alloc: Global, season: &Season, bytes: &[u8]) -> u32 {
    if bytes.len() > ROOM {
        return 9;
    }
    match MemoryDisk::new(alloc, bytes, ROOM, 99, Vec::new(alloc)) {
        Ok(disk) => pairs_on(alloc, season, disk),
        Err(_) => 9,
    }
}

fn pairs_on(alloc: Global, season: &Season, disk: MemoryDisk) -> u32 {
    match Journal::open(alloc, disk, season) {
        Ok((_, asks)) => pairs_of(alloc, season, &asks),
        Err(_) => 9,
    }
}

fn pairs_of(alloc: Global, season: &Season, asks: &[Asked]) -> u32 {
    for number in 0..3 {
        let Some(asked) = asks.get(number as usize) else {
            return number;
        };
        if !is_pair(alloc, season, asked, number) {
            return 9;
        }
    }
    if asks.len() == 3 { 3 } else { 9 }
}

fn is_pair(alloc: Global, season: &Season, asked: &Asked, number: u32) -> bool {
    let mut printed = Finding::new(alloc);
    put_item(&mut printed, season, &asked.ask);
    u32::from(asked.caller) == number && printed.bytes.as_slice() == text_of(number)
}

/// Each call of the disk fails once: five to open an empty file, and four for each of three puts.
#[test]
fn each_call_of_the_disk_fails_once(rt: HostRuntime) {
    let alloc = rt.alloc();
    let season = Season::read(b"S25").expect(&rt, "season");
    for call in 0..17 {
        let kept = fails_once(&rt, alloc, &season, call);
        assert!(rt; kept, "call {call}");
    }
    assert!(rt; puts_all(&rt, alloc, &season));
}

/// Whether all three puts are answered where no call fails.
fn puts_all(rt: &impl Abort, alloc: Global, season: &Season) -> bool {
    let (done, failed, bytes) = journal_of(rt, alloc, season, 3, Vec::new(alloc));
    done == 3 && !failed && bytes.len() == 785
}

/// Where this call fails, a write after so many of its bytes, what is left stands for the pairs
/// whose put was answered, or, from the opening of the gate on, for one more.
fn fails_once(rt: &impl Abort, alloc: Global, season: &Season, call: u64) -> bool {
    for part in [0, 1, 2, 100, 255, 256, 999] {
        let failing = vec![in alloc; Failure::after(call, part)].expect(rt, "memory");
        if !fails_with(rt, alloc, season, call, failing) {
            return false;
        }
    }
    true
}

fn fails_with(
    rt: &impl Abort,
    alloc: Global,
    season: &Season,
    call: u64,
    failing: Vec<Failure>,
) -> bool {
    let (done, failed, bytes) = journal_of(rt, alloc, season, 3, failing);
    let count = reopened(alloc, season, &bytes);
    let opening = call >= 5 && (call - 5) % 4 >= 2;
    failed && (count == done || opening && count == done + 1)
}

/// A stop at each moment of three puts: while the slot is written it may hold any bytes, and the
/// file may have any length from the old one on; while the gate is opened it may have any value.
/// Of two bytes all values of both are tried, of the others some of one at a time.
#[test]
fn a_stop_leaves_the_pairs(rt: HostRuntime) {
    let alloc = rt.alloc();
    let season = Season::read(b"S25").expect(&rt, "season");
    for done in 0..3 {
        assert!(rt; leaves_pairs(&rt, alloc, &season, done), "slot {done}");
    }
}

/// Whether each stop in the put behind so many pairs leaves them.
fn leaves_pairs(rt: &impl Abort, alloc: Global, season: &Season, done: u32) -> bool {
    let (_, _, old) = journal_of(rt, alloc, season, done, Vec::new(alloc));
    let (_, _, new) = journal_of(rt, alloc, season, done.wrapping_add(1), Vec::new(alloc));
    stops(rt, alloc, season, &new, old.len(), done)
}

/// Whether each stop leaves so many pairs, past a file of so many bytes.
fn stops(
    rt: &impl Abort,
    alloc: Global,
    season: &Season,
    new: &[u8],
    from: usize,
    done: u32,
) -> bool {
    stop_in_slot(rt, alloc, season, new, from, done)
        && stop_in_two_bytes(rt, alloc, season, new, from, done)
        && stop_in_gate(rt, alloc, season, new, from, done)
}

/// A file with this byte at a place.
fn with_byte(rt: &impl Abort, alloc: Global, file: &[u8], place: usize, byte: u8) -> Vec<u8> {
    let mut image = Vec::from_slice(alloc, file).expect(rt, "memory");
    put_byte(&mut image, place, byte);
    image
}

/// Whether each image of a stop while a slot is written, past a file of so many bytes, stands for
/// the old pairs: the gate is closed, each byte behind it has some other value once, and the file
/// each length.
fn stop_in_slot(
    rt: &impl Abort,
    alloc: Global,
    season: &Season,
    new: &[u8],
    from: usize,
    done: u32,
) -> bool {
    let laid = with_byte(rt, alloc, new, from.saturating_sub(1), 0);
    for place in from..laid.len() {
        if !is_torn(rt, alloc, season, &laid, place, done) {
            return false;
        }
    }
    true
}

/// Whether the file stands for so many pairs with some other bytes at a place, and where it ends
/// there.
fn is_torn(
    rt: &impl Abort,
    alloc: Global,
    season: &Season,
    laid: &[u8],
    place: usize,
    done: u32,
) -> bool {
    for byte in [0, 1, 2, 255] {
        let image = with_byte(rt, alloc, laid, place, byte);
        if reopened(alloc, season, &image) != done {
            return false;
        }
    }
    if place > laid.len() {
        return false;
    }
    reopened(alloc, season, &laid[..place]) == done
}

/// Whether the file stands for the old pairs with each value of the two bytes behind the gate,
/// which is closed.
fn stop_in_two_bytes(
    rt: &impl Abort,
    alloc: Global,
    season: &Season,
    new: &[u8],
    from: usize,
    done: u32,
) -> bool {
    let mut image = with_byte(rt, alloc, new, from.saturating_sub(1), 0);
    for value in 0..65_536_u32 {
        put_byte(&mut image, from, (value / 256) as u8);
        put_byte(&mut image, from.saturating_add(1), (value % 256) as u8);
        if reopened(alloc, season, &image) != done {
            return false;
        }
    }
    true
}

fn put_byte(image: &mut Vec<u8>, place: usize, byte: u8) {
    if let Some(old) = image.get_mut(place) {
        *old = byte;
    }
}

/// Whether each image of a stop while the gate is opened stands for the old pairs, or with gate 1
/// for one more.
fn stop_in_gate(
    rt: &impl Abort,
    alloc: Global,
    season: &Season,
    new: &[u8],
    from: usize,
    done: u32,
) -> bool {
    for value in 0..256_u32 {
        let image = with_byte(rt, alloc, new, from.saturating_sub(1), value as u8);
        let wanted = done.saturating_add(u32::from(value == 1));
        if reopened(alloc, season, &image) != wanted {
            return false;
        }
    }
    true
}

/// A journal of two pairs, of which one byte has the next value, is none of these two: it stands
/// for other pairs, for fewer, or for none.
#[test]
fn each_byte_of_a_slot_counts(rt: HostRuntime) {
    let alloc = rt.alloc();
    let season = Season::read(b"S25").expect(&rt, "season");
    let (_, _, file) = journal_of(&rt, alloc, &season, 2, Vec::new(alloc));
    assert_eq!(rt; reopened(alloc, &season, &file), 2);
    counts_bytes(&rt, alloc, &season, &file);
}

fn counts_bytes(rt: &impl Abort, alloc: Global, season: &Season, file: &[u8]) {
    for (place, byte) in file.iter().enumerate() {
        let two = has_two(rt, alloc, season, file, place, byte.wrapping_add(1));
        assert!(rt; !two, "byte {place}");
    }
}

/// Whether the file with this byte at a place stands for the first two pairs.
fn has_two(
    rt: &impl Abort,
    alloc: Global,
    season: &Season,
    file: &[u8],
    place: usize,
    byte: u8,
) -> bool {
    let image = with_byte(rt, alloc, file, place, byte);
    reopened(alloc, season, &image) == 2
}

/// A stop at each moment of the opening of a short file leaves a file of at most 17 bytes: any
/// bytes, and any length. Each is opened again as a journal of no pair.
#[test]
fn a_stop_in_an_opening_leaves_no_pair(rt: HostRuntime) {
    let alloc = rt.alloc();
    let season = Season::read(b"S25").expect(&rt, "season");
    for file in [[0; 17], [1; 17], [255; 17], *b"SLOT JOURNAL 01\n\x01"] {
        assert!(rt; are_empty(alloc, &season, &file), "{file:?}");
    }
}

/// Whether each front of a file of 17 bytes stands for no pair.
fn are_empty(alloc: Global, season: &Season, file: &[u8; 17]) -> bool {
    for size in 0..18_usize {
        if reopened(alloc, season, &file[..size]) != 0 {
            return false;
        }
    }
    true
}
