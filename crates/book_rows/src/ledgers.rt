//! Asks of one caller and of two, one after the other and on threads of their own, to a ledger.

ghost use Rattle.std.specs.Prelude.{◌≡◌, ◌≤◌, length};
ghost use Rattle.std.specs.Thread.{IsSync};
ghost use Rattle.turn_lock.specs.Seats.{IsAtRest};
ghost use Rattle.holding_book.specs.Asks.{CanAsk};

use crate::answers::{ask, put_answer, spelled};
use crate::books::{small_book, start_book};
use crate::lines::{data_lines, halves};
use holding_book::{Answer, Book, Entry};
use scr_reader::Item;
use season_days::Declaration;
use slot_ledger::{Ledger, LedgerFault, Pass};
use std::alloc::Global;
use std::process::Abort;
use std::sync::Wait;
use std::thread::{Threads, join};

// A caller, and what it was answered.
#[derive(Drop)]
struct Caller {
    pass: Pass,
    said: Said,
}

// The entries of a caller as it knows them, and the lengths of the history where it was full.
#[derive(Drop)]
struct Said {
    entries: Vec<Entry>,
    full: Vec<u64>,
}

impl Said {
    // Keeps what was answered to an ask of this caller.
    fn note(
        &mut self,
        rt: &impl Abort,
        caller: u32,
        ask: Item,
        answer: Result<Answer, LedgerFault>,
    ) {
        match answer {
            Ok(answer) => {
                let entry = Entry {
                    caller,
                    ask,
                    answer,
                };
                self.entries.push(entry).expect(rt, "memory");
            }
            Err(LedgerFault::Full { length }) => self.full.push(length).expect(rt, "memory"),
            Err(LedgerFault::Memory) => panic!(rt; "memory"),
        }
    }
}

// Puts the ask of which this is a short line to the ledger, and keeps what is said.
fn put_ask<R: Abort + Wait>(
    rt: &R,
    alloc: Global,
    ledger: &Ledger,
    declaration: &Declaration,
    pass: &mut Pass,
    said: &mut Said,
    line: &str,
)
    requires rest { IsAtRest ledger.now pass.old }
    requires declared { declaration.now ≡ ledger.now.origin.start.declaration }
    ensures { IsAtRest ledger.now pass.new }
{
    let ask = ask(rt, alloc, declaration, line);
    let answer = ledger.amend(rt, alloc, pass, &ask);
    said.note(rt, pass.number(), ask, answer);
}

// Puts the asks of two callers to the ledger one after the other, with a stroke between two lines.
// Those of the second caller begin with `2`.
fn put_in_order<R: Abort + Wait>(
    rt: &R,
    alloc: Global,
    ledger: &Ledger,
    declaration: &Declaration,
    first: &mut Caller,
    second: &mut Caller,
    asks: &str,
)
    requires first { IsAtRest ledger.now first.old.pass }
    requires second { IsAtRest ledger.now second.old.pass }
    requires declared { declaration.now ≡ ledger.now.origin.start.declaration }
    ensures first { IsAtRest ledger.now first.new.pass }
    ensures second { IsAtRest ledger.now second.new.pass }
{
    for part in asks.split('/') {
        match part.strip_prefix('2') {
            Some(line) => put_line(rt, alloc, ledger, declaration, second, line),
            None => put_line(rt, alloc, ledger, declaration, first, part),
        }
    }
}

// Puts the ask of which this is a short line to the ledger.
fn put_line<R: Abort + Wait>(
    rt: &R,
    alloc: Global,
    ledger: &Ledger,
    declaration: &Declaration,
    caller: &mut Caller,
    line: &str,
)
    requires rest { IsAtRest ledger.now caller.old.pass }
    requires declared { declaration.now ≡ ledger.now.origin.start.declaration }
    ensures { IsAtRest ledger.now caller.new.pass }
{
    put_ask(
        rt,
        alloc,
        ledger,
        declaration,
        &mut caller.pass,
        &mut caller.said,
        line,
    );
}

// Puts the asks of one caller to the ledger, with semicolons between their lines.
fn put_own<R: Abort + Wait>(
    rt: &R,
    alloc: Global,
    ledger: &Ledger,
    declaration: &Declaration,
    caller: Caller,
    asks: &str,
) -> Caller
    requires rest { IsAtRest ledger.now caller.pass }
    requires declared { declaration.now ≡ ledger.now.origin.start.declaration }
    ensures { IsAtRest ledger.now result.pass }
{
    let mut caller = caller;
    put_lines(rt, alloc, ledger, declaration, &mut caller, asks);
    caller
}

fn put_lines<R: Abort + Wait>(
    rt: &R,
    alloc: Global,
    ledger: &Ledger,
    declaration: &Declaration,
    caller: &mut Caller,
    asks: &str,
)
    requires rest { IsAtRest ledger.now caller.old.pass }
    requires declared { declaration.now ≡ ledger.now.origin.start.declaration }
    ensures { IsAtRest ledger.now caller.new.pass }
{
    for line in asks.split(';') {
        put_line(rt, alloc, ledger, declaration, caller, line);
    }
}

// The lines of the answers of all entries, or of those of one caller.
fn entry_lines(
    rt: &impl Abort,
    alloc: Global,
    declaration: &Declaration,
    history: &[Entry],
    caller: Option<u32>,
) -> Vec<u8> {
    let mut out = Vec::new(alloc);
    for entry in history {
        if caller.is_none() || caller == Some(entry.caller) {
            put_answer(
                rt,
                alloc,
                &mut out,
                &declaration.season,
                &entry.ask,
                &entry.answer,
            );
        }
    }
    out
}

// What the book answers to the asks of a history, one after the other.
fn replay(rt: &impl Abort, alloc: Global, book: &mut Book, history: &[Entry]) -> Vec<u8> {
    let mut out = Vec::new(alloc);
    for entry in history {
        replay_one(rt, alloc, book, &mut out, &entry.ask);
    }
    out
}

fn replay_one(rt: &impl Abort, alloc: Global, book: &mut Book, out: &mut Vec<u8>, ask: &Item) {
    let ask = spelled(rt, alloc, book.declaration(), ask).expect(rt, "an ask with a spelling");
    assert!(rt; book.count() <= 1_000_000, "too many holdings");
    let answer = book.apply(alloc, &ask).expect(rt, "memory");
    put_answer(rt, alloc, out, &book.declaration().season, &ask, &answer);
}

// What there is when a ledger of two callers has ended.
#[derive(Drop)]
struct Ended {
    book: Book,
    history: Vec<Entry>,
    first: Said,
    second: Said,
}

// A ledger of two callers over a copy of the book, and their passes.
fn begun(rt: &impl Abort, alloc: Global, book: &Book, most: u32) -> (Ledger, Pass, Pass)
    ensures callers { result.0.callers ≡ 2 }
    ensures first { IsAtRest result.0 result.1 }
    ensures second { IsAtRest result.0 result.2 }
    ensures declared { book.now.book.declaration ≡ result.0.origin.start.declaration }
{
    let copy = copied(rt, alloc, book);
    assert!(rt; most <= 100_000, "too many");
    let (ledger, mut passes) = Ledger::start(alloc, copy, 2, most).expect(rt, "memory");
    let second = passes.pop().expect(rt, "a second pass");
    let first = passes.pop().expect(rt, "a first pass");
    (ledger, first, second)
}

/// A copy of a book of few holdings.
pub(crate) fn copied(rt: &impl Abort, alloc: Global, book: &Book) -> Book
    ensures same { result.book ≡ book.now.book }
    ensures few { length result.book.holdings ≤ 1000000 }
{
    assert!(rt; book.count() <= 1_000_000, "too many holdings");
    book.copy(alloc).expect(rt, "memory")
}

// A ledger of two callers over the book, closed after their asks in this order.
fn run_in_order<R: Abort + Wait>(
    rt: &R,
    alloc: Global,
    book: &Book,
    most: u32,
    asks: &str,
) -> Ended {
    let (ledger, first, second) = begun(rt, alloc, book, most);
    let mut first = new_caller(alloc, first);
    let mut second = new_caller(alloc, second);
    put_in_order(
        rt,
        alloc,
        &ledger,
        book.declaration(),
        &mut first,
        &mut second,
        asks,
    );
    closed(rt, alloc, ledger, first, second)
}

// The same after the asks of each on a thread of its own.
fn run_on_threads<R: Abort + Threads + Wait + Sync>(
    rt: &R,
    alloc: Global,
    book: &Book,
    most: u32,
    one: &str,
    two: &str,
) -> Ended {
    let (ledger, first, second) = begun(rt, alloc, book, most);
    let first = new_caller(alloc, first);
    let second = new_caller(alloc, second);
    let declaration = book.declaration();
    let (first, second) = on_threads(rt, alloc, &ledger, declaration, first, second, one, two);
    closed(rt, alloc, ledger, first, second)
}

// Each caller puts its asks to the ledger on a thread of its own.
fn on_threads<R: Abort + Threads + Wait + Sync>(
    rt: &R,
    alloc: Global,
    ledger: &Ledger,
    declaration: &Declaration,
    first: Caller,
    second: Caller,
    one: &str,
    two: &str,
) -> (Caller, Caller)
    requires first { IsAtRest ledger.now first.pass }
    requires second { IsAtRest ledger.now second.pass }
    requires declared { declaration.now ≡ ledger.now.origin.start.declaration }
    ensures first { IsAtRest ledger.now result.0.pass }
    ensures second { IsAtRest ledger.now result.1.pass }
{
    join(
        rt,
        || -> Caller
            requires { IsSync R.row × IsAtRest ledger.now first.pass
                × (declaration.now ≡ ledger.now.origin.start.declaration) }
            ensures { IsAtRest ledger.entry.now result.pass }
        { put_own(rt, alloc, ledger, declaration, first, one) },
        || -> Caller
            requires { IsSync R.row × IsAtRest ledger.now second.pass
                × (declaration.now ≡ ledger.now.origin.start.declaration) }
            ensures { IsAtRest ledger.entry.now result.pass }
        { put_own(rt, alloc, ledger, declaration, second, two) },
    )
}

// A caller that was answered nothing yet.
fn new_caller(alloc: Global, pass: Pass) -> Caller
    ensures { result.pass ≡ pass }
{
    Caller {
        pass,
        said: Said {
            entries: Vec::new(alloc),
            full: Vec::new(alloc),
        },
    }
}

fn closed(rt: &impl Abort, alloc: Global, ledger: Ledger, first: Caller, second: Caller) -> Ended
    requires callers { ledger.callers ≡ 2 }
    requires first { IsAtRest ledger first.pass }
    requires second { IsAtRest ledger second.pass }
{
    let Caller {
        pass: one,
        said: first,
    } = first;
    let Caller {
        pass: two,
        said: second,
    } = second;
    let passes = vec![in alloc; one, two].expect(rt, "memory");
    let (book, history) = ledger.close(passes);
    Ended {
        book,
        history,
        first,
        second,
    }
}

// Whether each caller was answered what its entries have, and the history is what the book answers
// to its asks, with the holdings after them.
fn is_one_history(rt: &impl Abort, alloc: Global, book: &mut Book, ended: &Ended) -> bool {
    is_replayed(rt, alloc, book, ended)
        && has_entries(rt, alloc, ended, 0, &ended.first)
        && has_entries(rt, alloc, ended, 1, &ended.second)
}

// Whether the history is what the book answers to its asks, with the holdings after them.
fn is_replayed(rt: &impl Abort, alloc: Global, book: &mut Book, ended: &Ended) -> bool {
    let all = entry_lines(rt, alloc, ended.book.declaration(), &ended.history, None);
    let replayed = replay(rt, alloc, book, &ended.history);
    replayed.as_slice() == all.as_slice() && book.holdings() == ended.book.holdings()
}

// Whether a caller was answered what its entries have.
fn has_entries(rt: &impl Abort, alloc: Global, ended: &Ended, number: u32, said: &Said) -> bool {
    let declaration = ended.book.declaration();
    let own = entry_lines(rt, alloc, declaration, &ended.history, Some(number));
    let known = entry_lines(rt, alloc, declaration, &said.entries, Some(number));
    own.as_slice() == known.as_slice()
}

// Rows: the lines of the capacity file, of a season with the series BA001 at 0610; the greatest
// length of the history; the asks; the lines that are answered; and how often the history was full,
// to the first and the second caller.
//
// The third arrival of the hour gets 0700, as worked for the book. What one caller was offered the
// other may accept, and of two that ask for the last place the first one has it, and the other an
// offer, or nothing where no shift fits.
const ROWS: &str = "\
CAP ARR 60 0600 0600 1234567 2|100000|NBA002 0620/NBA003 0630/ABA003 0700/\
    DBA002 01JUN30JUN 1234567 0620/QBA002/ZBA009 0700\
    |KBA002 0620;UBA003 0630;OBA003 0700;KBA003 0700;XBA002 01JUN30JUN 1234567 0620;\
    HBA002 30MAR31MAY 1234567 0620;HBA002 01JUL25OCT 1234567 0620;WBA009 0700|0 0
CAP ARR 60 0600 0600 1234567 2|100000|NBA001 05MAY05MAY 1000000 0800/ABA001 0610/FBA009 0900\
    |WBA001 05MAY05MAY 1000000 0800;WBA001 0610;WBA009 0900|0 0
CAP ARR 60 0600 0600 1234567 2|2|NBA002 0620/2QBA002/NBA003 0630/2QBA001/2QBA099\
    |KBA002 0620;HBA002 0620|1 2
CAP ARR 60 0600 0600 1234567 2|1|2QBA001/NBA002 0620/2NBA002 0620|HBA001 0610|1 1
CAP ARR 60 0600 0600 1234567 2|0|NBA002 0620/2QBA001||1 1
CAP ARR 60 0600 0600 1234567 1|100000|NBA002 0610/2ABA002 0555/ZBA002 0555/2DBA002 0555/QBA002\
    |UBA002 0610;OBA002 0555;KBA002 0555;WBA002 0555;XBA002 0555;WBA002|0 0
CAP ARR 60 0600 0600 1234567 2|100000|NBA002 0620/2NBA003 0630\
    |KBA002 0620;UBA003 0630;OBA003 0700|0 0
CAP ARR 60 0600 0600 1234567 2|100000|2NBA003 0630/NBA002 0620\
    |KBA003 0630;UBA002 0620;OBA002 0555|0 0
FLEX 25;REFUSE NONE;CAP ARR 60 0600 0600 1234567 2|100000|2NBA003 0630/NBA002 0630\
    |KBA003 0630;UBA002 0630|0 0";

#[test]
fn callers_have_one_history(rt: HostRuntime) {
    for row in ROWS.lines() {
        assert!(rt; is_as_wanted(&rt, rt.alloc(), row), "{row}");
    }
}

// Whether a ledger answers as a row wants.
fn is_as_wanted<R: Abort + Wait>(rt: &R, alloc: Global, row: &str) -> bool {
    let (capacity, given) = halves(row, '|');
    let mut book = start_book(rt, alloc, capacity, "FBA001 0610", "0;;;");
    answers_as(rt, alloc, &mut book, given)
}

// Whether a ledger over the book answers as the rest of a row wants.
fn answers_as<R: Abort + Wait>(rt: &R, alloc: Global, book: &mut Book, given: &str) -> bool {
    let (most, given) = halves(given, '|');
    let (asks, wanted) = halves(given, '|');
    let most = most.parse::<u32>().expect(rt, "a length");
    let ended = run_in_order(rt, alloc, book, most, asks);
    has_answers(rt, alloc, &ended, most, wanted) && is_one_history(rt, alloc, book, &ended)
}

// Whether these lines were answered, and the history was full so often.
fn has_answers(rt: &impl Abort, alloc: Global, ended: &Ended, most: u32, wanted: &str) -> bool {
    let (answers, full) = halves(wanted, '|');
    has_lines(rt, alloc, ended, answers)
        && was_full(rt, alloc, ended, full)
        && are_all(&ended.first.full, most)
        && are_all(&ended.second.full, most)
}

fn has_lines(rt: &impl Abort, alloc: Global, ended: &Ended, answers: &str) -> bool {
    let found = entry_lines(rt, alloc, ended.book.declaration(), &ended.history, None);
    let due = data_lines(rt, alloc, answers);
    found.as_slice() == due.as_bytes()
}

fn was_full(rt: &impl Abort, alloc: Global, ended: &Ended, wanted: &str) -> bool {
    let (one, two) = (ended.first.full.len(), ended.second.full.len());
    let full = format!(in alloc; "{one} {two}").expect(rt, "memory");
    full.as_str() == wanted
}

fn are_all(lengths: &[u64], most: u32) -> bool {
    for length in lengths {
        if *length != u64::from(most) {
            return false;
        }
    }
    true
}

#[test]
fn callers_on_threads_have_one_history(rt: HostRuntime) {
    for _ in 0..20 {
        assert!(rt; is_shared(&rt, rt.alloc()));
    }
}

// Whether two callers on threads have one history, in which one of them has the last place.
fn is_shared<R: Abort + Threads + Wait + Sync>(rt: &R, alloc: Global) -> bool {
    let mut book = small_book(rt, alloc);
    is_shared_over(rt, alloc, &mut book)
}

fn is_shared_over<R: Abort + Threads + Wait + Sync>(
    rt: &R,
    alloc: Global,
    book: &mut Book,
) -> bool {
    let one = "QBA001;NBA002 0620;QBA099;DBA001 05MAY05MAY 1000000 0610";
    let two = "QBA001;NBA003 0630;QBA099;DBA001 05MAY05MAY 1000000 0610";
    let ended = run_on_threads(rt, alloc, book, 8, one, two);
    has_eight(rt, alloc, book, &ended)
}

// Whether a history of eight entries was never full, and is one.
fn has_eight(rt: &impl Abort, alloc: Global, book: &mut Book, ended: &Ended) -> bool {
    ended.history.len() == 8
        && ended.first.full.is_empty()
        && ended.second.full.is_empty()
        && has_last_place(rt, alloc, ended)
        && is_one_history(rt, alloc, book, ended)
}

// Whether one of the two got the last place of the hour, and the other an offer.
fn has_last_place(rt: &impl Abort, alloc: Global, ended: &Ended) -> bool {
    have_second(rt, alloc, ended, "KBA002 0620", "UBA003 0630;OBA003 0700")
        || have_second(rt, alloc, ended, "UBA002 0620;OBA002 0555", "KBA003 0630")
}

// Whether these lines are the second answers of the two callers.
fn have_second(rt: &impl Abort, alloc: Global, ended: &Ended, first: &str, second: &str) -> bool {
    let declaration = ended.book.declaration();
    has_second(rt, alloc, declaration, &ended.first, first)
        && has_second(rt, alloc, declaration, &ended.second, second)
}

// Whether these lines are the second answer of a caller.
fn has_second(
    rt: &impl Abort,
    alloc: Global,
    declaration: &Declaration,
    said: &Said,
    wanted: &str,
) -> bool {
    let entry = said.entries.get(1).expect(rt, "a second entry");
    let mut found = Vec::new(alloc);
    put_answer(
        rt,
        alloc,
        &mut found,
        &declaration.season,
        &entry.ask,
        &entry.answer,
    );
    let due = data_lines(rt, alloc, wanted);
    found.as_slice() == due.as_bytes()
}

#[test]
fn a_full_history_stays(rt: HostRuntime) {
    let book = small_book(&rt, rt.alloc());
    for most in [0, 1, 2, 100_000] {
        assert!(rt; is_filled(&rt, rt.alloc(), &book, most), "{most}");
    }
}

fn are_questions(history: &[Entry]) -> bool {
    for entry in history {
        if entry.caller != 0 || !matches!(entry.answer, Answer::W) {
            return false;
        }
    }
    true
}

// Whether the ledger of one caller has so many questions after them and a request more, which is
// not entered; it holds what the book holds.
fn is_filled<R: Abort + Wait>(rt: &R, alloc: Global, book: &Book, most: u32) -> bool {
    let (ledger, mut pass) = begun_alone(rt, alloc, book, most);
    let end = fill(rt, alloc, &ledger, book.declaration(), &mut pass, most);
    assert!(rt; end == Some(u64::from(most)), "{most}: {end:?}");
    has_ended(rt, alloc, ledger, pass, book, most)
}

// Whether a history has so many questions, with the book as it was.
fn has_questions(book: &Book, after: &Book, history: &[Entry], most: u32) -> bool {
    history.len() as u64 == u64::from(most)
        && are_questions(history)
        && after.holdings() == book.holdings()
}

/// A ledger of one caller over a copy of the book, and its pass.
pub(crate) fn begun_alone(rt: &impl Abort, alloc: Global, book: &Book, most: u32) -> (Ledger, Pass)
    ensures callers { result.0.callers ≡ 1 }
    ensures rest { IsAtRest result.0 result.1 }
    ensures declared { book.now.book.declaration ≡ result.0.origin.start.declaration }
{
    let copy = copied(rt, alloc, book);
    assert!(rt; most <= 100_000, "too many");
    let (ledger, mut passes) = Ledger::start(alloc, copy, 1, most).expect(rt, "memory");
    let pass = passes.pop().expect(rt, "a pass");
    (ledger, pass)
}

// Whether the ledger of one caller ends with so many questions, and with the book as it was.
fn has_ended(
    rt: &impl Abort,
    alloc: Global,
    ledger: Ledger,
    pass: Pass,
    book: &Book,
    most: u32,
) -> bool
    requires callers { ledger.callers ≡ 1 }
    requires rest { IsAtRest ledger pass }
{
    let passes = vec![in alloc; pass].expect(rt, "memory");
    let (after, history) = ledger.close(passes);
    has_questions(book, &after, &history, most)
}

// Puts so many questions to the ledger, and a request: the length that the fault named.
fn fill<R: Abort + Wait>(
    rt: &R,
    alloc: Global,
    ledger: &Ledger,
    declaration: &Declaration,
    pass: &mut Pass,
    most: u32,
) -> Option<u64>
    requires rest { IsAtRest ledger.now pass.old }
    requires declared { declaration.now ≡ ledger.now.origin.start.declaration }
    ensures { IsAtRest ledger.now pass.new }
{
    let question = ask(rt, alloc, declaration, "QBA099");
    let request = ask(rt, alloc, declaration, "NBA002 0620");
    ask_often(rt, alloc, ledger, declaration, pass, &question, most);
    match ledger.amend(rt, alloc, pass, &request) {
        Err(LedgerFault::Full { length }) => Some(length),
        _ => None,
    }
}

// Puts one ask to the ledger so often.
fn ask_often<R: Abort + Wait>(
    rt: &R,
    alloc: Global,
    ledger: &Ledger,
    declaration: &Declaration,
    pass: &mut Pass,
    ask: &Item,
    count: u32,
)
    requires rest { IsAtRest ledger.now pass.old }
    requires declared { declaration.now ≡ ledger.now.origin.start.declaration }
    requires ask { CanAsk declaration.now ask.now }
    ensures { IsAtRest ledger.now pass.new }
{
    for _ in 0..count {
        let _answer = ledger.amend(rt, alloc, pass, ask).expect(rt, "an answer");
    }
}
