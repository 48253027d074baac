//! How many asks in a second are answered over links.

ghost use Rattle.std.specs.Prelude.{◌<◌, ◌≤◌, IsTrue, length};
ghost use Rattle.session_desk.specs.declared.doors.TheConstants.{MOST_DOORS};

use crate::asks::{Airline, NEW_AIRLINE};
use crate::report::{
    NO_CALLS, Size, Tally, calls_since, median, now, print_part, print_tally, print_title,
};
use desk_links::{MemoryDoor, MemoryLink};
use holding_book::Book;
use scr_reader::{Header, print_header, print_item};
use season_days::Declaration;
use session_desk::{MOST_DOORS, serve_doors};
use slot_ledger::Nothing;
use slot_text::Memory;
use std::alloc::Global;
use std::io::Print;
use std::sync::Wait;
use std::thread::Threads;
use std::time::Clock;
use worker_gate::RealGate;

/// How many links are served at once beside one alone, each by a worker of its own.
pub const MANY_LINKS: u32 = 8;

// How many asks a message has.
const MESSAGE_ASKS: u32 = 10;

// How many bytes of replies a link has room for.
const MOST_SENT: usize = 10_000_000;

// The most rounds.
const MOST_ROUNDS: usize = 5;

/// How long rounds took: over one link, and over many.
#[derive(Clone, Copy)]
pub struct Rounds {
    pub one: [Tally; MOST_ROUNDS],
    pub many: [Tally; MOST_ROUNDS],
}

/// No rounds.
pub const NO_ROUNDS: Rounds = Rounds {
    one: [NO_CALLS; MOST_ROUNDS],
    many: [NO_CALLS; MOST_ROUNDS],
};

/// Serves messages of ten drawn asks over one link, then as many asks over eight links at once, and
/// so on in rounds. Prints how many asks a round has, and at full size how many are answered in a
/// second, in the median of the rounds.
pub fn run<R: Threads + Wait + Sync + Print + Clock>(
    rt: &R,
    alloc: Global,
    size: Size,
    book: &Book,
) -> anyhow::Result<()> {
    let (count, asks) = rounds_of(size);
    print_title(rt, "sessions of a book", book)?;
    let mut rounds = NO_ROUNDS;
    for place in 0..count {
        rounds.one[place] = asks_over(rt, alloc, book, 1, asks)?;
        rounds.many[place] = asks_over(rt, alloc, book, MANY_LINKS, asks)?;
    }
    print_rounds(rt, size, "asks", &mut rounds, count)
}

/// How many rounds there are, and how many asks each has over one link, and over many together. At
/// full size a round lasts some seconds, so that what is paid once, as the first use of each
/// processor's cache, hardly counts.
pub fn rounds_of(size: Size) -> (usize, u32)
    ensures { result.0 ≤ 5 }
{
    match size {
        Size::Short => (1, 640),
        Size::Full => (5, 20_000),
    }
}

/// Prints the medians of what was done in so many rounds, over one link and over many.
pub fn print_rounds<R: Print>(
    rt: &R,
    size: Size,
    about: &str,
    rounds: &mut Rounds,
    count: usize,
) -> anyhow::Result<()>
    requires { count ≤ 5 }
{
    print_part(rt, "links", 1)?;
    print_tally(rt, size, about, median(&mut rounds.one[..count]))?;
    print_part(rt, "links", u64::from(MANY_LINKS))?;
    print_tally(rt, size, about, median(&mut rounds.many[..count]))
}

// The asks that were answered over so many links, each its part, and how long that took.
fn asks_over<R: Threads + Wait + Sync + Clock>(
    rt: &R,
    alloc: Global,
    book: &Book,
    links: u32,
    asks: u32,
) -> Result<Tally, Memory>
    requires { 0 < links }
{
    let mut doors = doors_of(alloc, book, links, asks / links)?;
    served(rt, alloc, book, &mut doors)
}

// The asks that were answered at doors, and how long that took.
fn served<R: Threads + Wait + Sync + Clock>(
    rt: &R,
    alloc: Global,
    book: &Book,
    doors: &mut Vec<MemoryDoor>,
) -> Result<Tally, Memory> {
    if !can_serve(book, doors) {
        return Ok(NO_CALLS);
    }
    let copy = book.copy(alloc)?;
    let start = now(rt);
    let done = serve_doors(rt, alloc, &RealGate, copy, Nothing, doors, 1, 100_000)?;
    Ok(calls_since(rt, start, done.0.len() as u64))
}

/// Whether the book is small enough to be asked over these doors, of which there are some.
pub fn can_serve(book: &Book, doors: &[MemoryDoor]) -> bool
    ensures holdings { IsTrue result → length book.now.book.holdings ≤ 100000 }
    ensures some { IsTrue result → 1 ≤ length doors.now }
    ensures few { IsTrue result → length doors.now ≤ MOST_DOORS }
{
    book.count() <= 100_000 && !doors.is_empty() && doors.len() <= MOST_DOORS
}

/// So many doors, each with one link that has so many asks. One airline draws all of them.
pub fn doors_of(
    alloc: Global,
    book: &Book,
    links: u32,
    each: u32,
) -> Result<Vec<MemoryDoor>, Memory> {
    let mut airline = NEW_AIRLINE;
    let mut doors = Vec::new(alloc);
    for _ in 0..links {
        put_door(alloc, book, &mut airline, &mut doors, each)?;
    }
    Ok(doors)
}

// Adds a door with one link that has so many asks.
fn put_door(
    alloc: Global,
    book: &Book,
    airline: &mut Airline,
    doors: &mut Vec<MemoryDoor>,
    each: u32,
) -> Result<(), Memory> {
    let text = asks_text(alloc, book, airline, each)?;
    let link = MemoryLink::new(alloc, text, Vec::new(alloc), MOST_SENT, Vec::new(alloc))?;
    let links = vec![in alloc; link]?;
    doors.push(MemoryDoor::new(alloc, links, 1, Vec::new(alloc))?)?;
    Ok(())
}

// Messages with so many drawn asks, without those that have no spelling.
fn asks_text(
    alloc: Global,
    book: &Book,
    airline: &mut Airline,
    asks: u32,
) -> Result<Vec<u8>, Memory> {
    let mut text = Vec::new(alloc);
    put_asks(alloc, book, airline, &mut text, asks)?;
    Ok(text)
}

fn put_asks(
    alloc: Global,
    book: &Book,
    airline: &mut Airline,
    text: &mut Vec<u8>,
    asks: u32,
) -> Result<(), Memory> {
    for place in 0..asks {
        if place % MESSAGE_ASKS == 0 {
            put_header(alloc, text, book.declaration())?;
        }
        put_ask(alloc, text, book, airline)?;
    }
    text.push(b'\n')?;
    Ok(())
}

// Appends an empty line and the header of a message.
fn put_header(alloc: Global, text: &mut Vec<u8>, declaration: &Declaration) -> Result<(), Memory> {
    let header = Header {
        season: declaration.season,
        day: 20,
        month: 11,
        airport: declaration.airport,
    };
    text.push(b'\n')?;
    print_header(alloc, text, &header)
}

// Appends a drawn ask, if it has a spelling.
fn put_ask(
    alloc: Global,
    text: &mut Vec<u8>,
    book: &Book,
    airline: &mut Airline,
) -> Result<(), Memory> {
    let season = book.declaration().season;
    let ask = airline.draw_ask(book);
    if ask.fits(&season) {
        print_item(alloc, text, &season, &ask)
    } else {
        Ok(())
    }
}
