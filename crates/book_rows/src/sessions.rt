//! Sessions over links in memory, by a ledger of one caller, with a journal or without: how each
//! one ends, and what it was sent.

ghost use Rattle.std.specs.Prelude.{◌≡◌};
ghost use Rattle.turn_lock.specs.Seats.{IsAtRest};
ghost use Rattle.desk_links.specs.LinksInMemory.{IsUnused};

use crate::books::small_book;
use crate::ledgers::{begun_alone, copied};
use crate::lines::halves;
use amend_journal::{Journal, JournalLedger, JournalPass};
use desk_disk::MemoryDisk;
use desk_links::MemoryLink;
use desk_outside::Failure;
use holding_book::Book;
use season_days::{Declaration, Season};
use session_desk::{SessionEnd, SessionFault, serve_journaled, serve_link};
use slot_ledger::{Ledger, Pass};
use std::alloc::Global;
use std::process::Abort;
use std::sync::Wait;
use worker_gate::RealGate;

// Rows: the greatest length of the history, and, behind a colon, the call of the link that fails;
// the input, how the session ends, and an `H` for each reply that it was sent. `;` stands for LF,
// `~` for CR, `#` for a message of one query with its empty line, and a number in braces for so
// many blanks. `journal` in place of the length is a ledger with an empty journal; then the call
// counts those of its disk, five of the opening and four for each ask.
//
// A line that is not empty has at most 200 bytes, its blanks in front and a CR without LF counted;
// blanks alone are an empty line, however many.
const ROWS: &str = "\
9||Ended -
9|;{201};~;|Ended -
9|#|Ended H
9|#SCR;S25;20NOV;ABC;QBA001|Cut H
9|#SCR;S25;20NOV;ABC;QBA001;|Cut H
9|#{200}~|TooLong H
9|#{199}~|Cut H
9|#{201}~;#|Ended HH
9|SCR{197}~|TooLong -
9|SCR{197}~;|Cut -
9|SCR{198};#|TooLong -
9|#SCR;S25;20NOV;ABC;SI{198}x;QBA001;;#|TooLong H
3|###|Ended HHH
3|####|Full 3 HHH
3|##SCR;S25;20NOV;ABC;QBA001;QBA001;QBA001;;|Full 3 HH
0|#|Full 0 -
9:0|#|Link -
9:1|#|Link -
9:2|##|Link H
journal|#|Ended H
journal:6|#|Broken 1 -
journal:6|##|Broken 1 -
journal:10|##|Broken 1 H";

const QUERY: &str = "SCR\nS25\n20NOV\nABC\nQBA001\n\n";

const REPLY: &str = "SCR\nS25\n20NOV\nABC\nHBA001 30MAR25OCT 1234567 180320 JFK0610 J\n\n";

#[test]
fn sessions_end(rt: HostRuntime) {
    let book = small_book(&rt, rt.alloc());
    for row in ROWS.lines() {
        check_row(&rt, rt.alloc(), &book, row);
    }
}

// A session ends as its row wants.
fn check_row<R: Abort + Wait>(rt: &R, alloc: Global, book: &Book, row: &str) {
    let (most, rest) = halves(row, '|');
    let (input, due) = halves(rest, '|');
    let (most, call) = halves(most, ':');
    let said = match most {
        "journal" => journaled(rt, alloc, book, call, input),
        _ => session(rt, alloc, book, most, call, input),
    };
    assert!(rt; said.as_str() == due, "{row} has {said}");
}

fn failing_of(rt: &impl Abort, alloc: Global, call: &str) -> Vec<Failure> {
    let mut failing = Vec::new(alloc);
    if !call.is_empty() {
        let call = call.parse().expect(rt, "a call");
        failing.push(Failure::at(call)).expect(rt, "memory");
    }
    failing
}

// The bytes for which the text of an input stands.
fn input_of(rt: &impl Abort, alloc: Global, text: &str) -> Vec<u8> {
    let mut out = Vec::new(alloc);
    for (place, part) in text.split('{').enumerate() {
        put_part(rt, &mut out, place, part);
    }
    out
}

// Appends a part, which begins with a number of blanks and a brace where it is not the first.
fn put_part(rt: &impl Abort, out: &mut Vec<u8>, place: usize, part: &str) {
    if place == 0 {
        put_text(rt, out, part);
    } else {
        let (blanks, rest) = halves(part, '}');
        put_blanks(rt, out, blanks.parse().expect(rt, "a number of blanks"));
        put_text(rt, out, rest);
    }
}

fn put_blanks(rt: &impl Abort, out: &mut Vec<u8>, count: u32) {
    for _ in 0..count {
        out.push(b' ').expect(rt, "memory");
    }
}

fn put_text(rt: &impl Abort, out: &mut Vec<u8>, text: &str) {
    for byte in text.as_bytes() {
        match *byte {
            b'#' => out.extend_from_slice(QUERY.as_bytes()).expect(rt, "memory"),
            b';' => out.push(b'\n').expect(rt, "memory"),
            b'~' => out.push(b'\r').expect(rt, "memory"),
            other => out.push(other).expect(rt, "memory"),
        }
    }
}

// How a session over a link with this input ends, and what it was sent.
fn session<R: Abort + Wait>(
    rt: &R,
    alloc: Global,
    book: &Book,
    most: &str,
    call: &str,
    input: &str,
) -> String {
    let most = most.parse().expect(rt, "a length");
    let mut link = link_of(rt, alloc, input, call);
    session_over(rt, alloc, book, most, &mut link)
}

fn session_over<R: Abort + Wait>(
    rt: &R,
    alloc: Global,
    book: &Book,
    most: u32,
    link: &mut MemoryLink,
) -> String
    requires { IsUnused link.old }
{
    let (ledger, mut pass) = begun_alone(rt, alloc, book, most);
    served(rt, alloc, &ledger, &mut pass, book.declaration(), link)
}

// A link with the input of a text, of which a call is to fail, if one is named.
fn link_of(rt: &impl Abort, alloc: Global, input: &str, call: &str) -> MemoryLink
    ensures { IsUnused result }
{
    let input = input_of(rt, alloc, input);
    let failing = failing_of(rt, alloc, call);
    MemoryLink::new(alloc, input, Vec::new(alloc), 1_000, failing).expect(rt, "memory")
}

// How a session over a link ends, and what it was sent.
fn served<R: Abort + Wait>(
    rt: &R,
    alloc: Global,
    ledger: &Ledger,
    pass: &mut Pass,
    declaration: &Declaration,
    link: &mut MemoryLink,
) -> String
    requires rest { IsAtRest ledger.now pass.old }
    requires declared { declaration.now ≡ ledger.now.origin.start.declaration }
    requires link { IsUnused link.old }
{
    let end = serve_link(
        rt,
        alloc,
        &RealGate,
        ledger.shared(),
        pass,
        &declaration.season,
        declaration.airport,
        link,
        0,
    );
    said(rt, alloc, end, link.sent())
}

// How a session ends by a ledger with an empty journal, calls of whose disk are to fail.
fn journaled<R: Abort + Wait>(
    rt: &R,
    alloc: Global,
    book: &Book,
    call: &str,
    input: &str,
) -> String {
    let mut link = link_of(rt, alloc, input, "");
    journaled_over(rt, alloc, book, call, &mut link)
}

fn journaled_over<R: Abort + Wait>(
    rt: &R,
    alloc: Global,
    book: &Book,
    call: &str,
    link: &mut MemoryLink,
) -> String
    requires { IsUnused link.old }
{
    let (ledger, mut pass) = begun_journaled(rt, alloc, book, call);
    served_journaled(rt, alloc, &ledger, &mut pass, book.declaration(), link)
}

// A ledger of one caller over a copy of the book with an empty journal, and its pass.
fn begun_journaled(
    rt: &impl Abort,
    alloc: Global,
    book: &Book,
    call: &str,
) -> (JournalLedger<MemoryDisk>, JournalPass<MemoryDisk>)
    ensures rest { IsAtRest result.0 result.1 }
    ensures declared { book.now.book.declaration ≡ result.0.origin.start.declaration }
{
    let journal = journal_of(rt, alloc, &book.declaration().season, call);
    let copy = copied(rt, alloc, book);
    let (ledger, mut passes) = JournalLedger::start(alloc, journal, copy, 1).expect(rt, "memory");
    let pass = passes.pop().expect(rt, "a pass");
    (ledger, pass)
}

// An empty journal, of whose disk a call is to fail, if one is named.
fn journal_of(rt: &impl Abort, alloc: Global, season: &Season, call: &str) -> Journal<MemoryDisk>
    ensures { result.season ≡ season.now }
{
    let failing = failing_of(rt, alloc, call);
    let disk = MemoryDisk::new(alloc, b"", 1_000, 99, failing).expect(rt, "memory");
    let opened = Journal::open(alloc, disk, season).ok();
    let (journal, _pairs) = opened.expect(rt, "a journal that is opened");
    journal
}

// The same as `served`, by a ledger with a journal.
fn served_journaled<R: Abort + Wait>(
    rt: &R,
    alloc: Global,
    ledger: &JournalLedger<MemoryDisk>,
    pass: &mut JournalPass<MemoryDisk>,
    declaration: &Declaration,
    link: &mut MemoryLink,
) -> String
    requires rest { IsAtRest ledger.now pass.old }
    requires declared { declaration.now ≡ ledger.now.origin.start.declaration }
    requires link { IsUnused link.old }
{
    let end = serve_journaled(
        rt,
        alloc,
        &RealGate,
        ledger,
        pass,
        &declaration.season,
        declaration.airport,
        link,
        0,
    );
    said(rt, alloc, end, link.sent())
}

// How a session ended, and an `H` for each reply that it was sent.
fn said(
    rt: &impl Abort,
    alloc: Global,
    end: Result<SessionEnd, SessionFault>,
    sent: &[u8],
) -> String {
    let mut out = String::new(alloc);
    put_end(rt, &mut out, end);
    put_replies(rt, &mut out, sent);
    out
}

fn put_end(rt: &impl Abort, out: &mut String, end: Result<SessionEnd, SessionFault>) {
    let (word, number) = match end {
        Ok(SessionEnd::Ended) => ("Ended ", None),
        Ok(SessionEnd::Cut) => ("Cut ", None),
        Err(SessionFault::Link) => ("Link ", None),
        Err(SessionFault::TooLong) => ("TooLong ", None),
        Err(SessionFault::Full { length }) => ("Full ", Some(length)),
        Err(SessionFault::Broken { faults }) => ("Broken ", Some(faults)),
        Err(SessionFault::Memory) => panic!(rt; "memory ran out"),
    };
    out.push_str(word).expect(rt, "memory");
    if let Some(number) = number {
        write!(out, "{number} ").expect(rt, "memory");
    }
}

// Appends an `H` for each reply to a query, where there is nothing else, and `-` for none.
fn put_replies(rt: &impl Abort, out: &mut String, sent: &[u8]) {
    for part in sent.chunks(REPLY.len()) {
        assert!(rt; part == REPLY.as_bytes(), "something else was sent");
        out.push('H').expect(rt, "memory");
    }
    if sent.is_empty() {
        out.push('-').expect(rt, "memory");
    }
}
