//! Thousands of drawn asks: what the book keeps beside its holdings against a listing of them.

ghost use Rattle.std.specs.Prelude.{◌≡◌, ◌≤◌, length};
ghost use Rattle.holding_book.specs.Asks.{CanAsk};

use crate::answers::{put_answer, spelled};
use crate::books::start_book;
use crate::draws::{Draws, drawn_ask};
use crate::listed::{Listed, all_fit, by_listing, has_flight};
use holding_book::{Answer, Book, Holding, asks_new};
use scr_reader::{Flight, Item};
use std::alloc::Global;
use std::process::Abort;

// Windows that overlap, on some weekdays, for departures alone and for both kinds over midnight,
// and a quota at night.
const CAPACITY: &str = "FLEX 10;REFUSE NONE;CAP ARR 30 0600 0620 1234567 1;\
    CAP DEP 20 0610 0630 12345 1;CAP TOT 60 2330 2330 1234567 3;NIGHT 2300 0500 40";

const REQUESTS: &str = "FBA001 30MAR09APR 1234567 0610;FBA002 30MAR09APR 1030500 0700";

const ASKS: u32 = 3_000;

// How often there was each of the answers: K, KChanged, an offer, Held, U, X, W, and a list.
#[derive(Drop)]
struct Seen {
    counts: [u32; 8],
}

impl Seen {
    fn note(&mut self, answer: &Answer) {
        let place = match answer {
            Answer::K => 0,
            Answer::KChanged => 1,
            Answer::Offer(_) => 2,
            Answer::Held => 3,
            Answer::U => 4,
            Answer::X => 5,
            Answer::W => 6,
            Answer::Listed(_) => 7,
        };
        if let Some(count) = self.counts.get_mut(place) {
            *count = count.wrapping_add(1);
        }
    }

    fn has_all(&self) -> bool {
        for count in self.counts {
            if count < 20 {
                return false;
            }
        }
        true
    }
}

#[test]
fn kept_counts_agree_with_a_listing(rt: HostRuntime) {
    let mut book = start_book(&rt, rt.alloc(), CAPACITY, REQUESTS, "0 0;;;");
    put_asks(&rt, rt.alloc(), &mut book);
}

// Puts all asks to the book: each answer is there often, and all holdings fit after them.
fn put_asks(rt: &impl Abort, alloc: Global, book: &mut Book) {
    let mut draws = Draws { last: 29 };
    let mut seen = Seen { counts: [0; 8] };
    for number in 0..ASKS {
        step(rt, alloc, book, &mut draws, &mut seen, number);
    }
    assert!(rt; seen.has_all(), "{:?}", seen.counts);
    assert!(rt;
        all_fit(rt, alloc, book.declaration(), book.holdings()),
        "what is held"
    );
}

// One ask, if what was drawn is one.
fn step(
    rt: &impl Abort,
    alloc: Global,
    book: &mut Book,
    draws: &mut Draws,
    seen: &mut Seen,
    number: u32,
) {
    let drawn = drawn_ask(draws, book.holdings());
    if let Some(ask) = spelled(rt, alloc, book.declaration(), &drawn) {
        put_ask(rt, alloc, book, seen, number, &ask);
    }
}

// The answer to an ask and the holdings after it are those of the listing.
fn put_ask(
    rt: &impl Abort,
    alloc: Global,
    book: &mut Book,
    seen: &mut Seen,
    number: u32,
    ask: &Item,
)
    requires { CanAsk book.old.book.declaration ask.now }
{
    let wanted = by_listing(rt, alloc, book.declaration(), book.holdings(), ask);
    let answer = answered(rt, alloc, book, ask, number % 2 == 0);
    seen.note(&answer);
    compare(rt, alloc, book, ask, number, &answer, &wanted);
    check_places(rt, book);
}

fn compare(
    rt: &impl Abort,
    alloc: Global,
    book: &Book,
    ask: &Item,
    number: u32,
    answer: &Answer,
    wanted: &Listed,
) {
    let mut found = Vec::new(alloc);
    let mut due = Vec::new(alloc);
    put_answer(
        rt,
        alloc,
        &mut found,
        &book.declaration().season,
        ask,
        answer,
    );
    put_answer(
        rt,
        alloc,
        &mut due,
        &book.declaration().season,
        ask,
        &wanted.answer,
    );
    if found.as_slice() != due.as_slice() || book.holdings() != wanted.holdings.as_slice() {
        differ(rt, alloc, number, &found, &due);
    }
}

fn differ(rt: &impl Abort, alloc: Global, number: u32, found: &[u8], due: &[u8]) {
    let found = String::from_utf8_lossy(alloc, found).expect(rt, "memory");
    let due = String::from_utf8_lossy(alloc, due).expect(rt, "memory");
    panic!(rt; "ask {number}: {found} for {due}");
}

// What the book answers, by itself or with the hint that was found before.
fn answered(rt: &impl Abort, alloc: Global, book: &mut Book, ask: &Item, hinted: bool) -> Answer
    requires { CanAsk book.old.book.declaration ask.now }
{
    assert!(rt; book.count() <= 1_000_000, "too many holdings");
    if hinted && asks_new(ask) {
        return by_hint(rt, alloc, book, ask);
    }
    renew(rt, alloc, book);
    book.apply(alloc, ask).expect(rt, "memory")
}

// Puts a copy in the place of the book.
fn renew(rt: &impl Abort, alloc: Global, book: &mut Book)
    ensures { book.new.book ≡ book.old.book }
{
    *book = book.copy(alloc).expect(rt, "memory");
}

// What the book answers with the hint that was found before.
fn by_hint(rt: &impl Abort, alloc: Global, book: &mut Book, ask: &Item) -> Answer
    requires ask { CanAsk book.old.book.declaration ask.now }
    requires few { length book.old.book.holdings ≤ 1000000 }
{
    let hint = book
        .hint(alloc, ask)
        .expect(rt, "memory")
        .expect(rt, "a hint");
    let room = book.prepare_with(alloc, ask, hint).expect(rt, "memory");
    book.apply_with(ask, room)
}

// The places of each flight are those of the holdings that have it.
fn check_places(rt: &impl Abort, book: &Book) {
    for number in 1..21 {
        let flight = Flight {
            airline: *b"BA\0",
            number,
            suffix: 0,
        };
        let places = book.places(&flight);
        assert!(rt;
            are_places(book.holdings(), &flight, places),
            "places of {number}"
        );
    }
}

fn are_places(holdings: &[Holding], flight: &Flight, places: &[u32]) -> bool {
    let mut count = 0_usize;
    for (at, holding) in holdings.iter().enumerate() {
        if has_flight(&holding.line, flight) {
            match places.get(count) {
                Some(place) if *place as usize == at => count = count.wrapping_add(1),
                _ => return false,
            }
        }
    }
    count == places.len()
}
