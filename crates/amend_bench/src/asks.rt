//! How many drawn asks a book answers in a second.

ghost use Rattle.std.specs.Prelude.{◌≡◌, ◌<◌, IsTrue, IfSome};
ghost use Rattle.std.specs.Option.{is_some};
ghost use Rattle.holding_book.specs.Asks.{CanAsk};
ghost use Rattle.series_model.specs.Submissions.{ItemPairs};

use crate::draws::{Draws, new_line};
use crate::report::{NO_CALLS, Size, Tally, call_since, now, print_tally, print_title};
use holding_book::{Answer, Book};
use scr_reader::{Code, Flight, Item, Line, Stop};
use season_days::{Day, Declaration, Period};
use slot_text::Memory;
use std::alloc::Global;
use std::io::Print;
use std::time::Clock;

// The answers that are counted, as they are printed.
const NAMES: [&str; 8] = [
    "  K",
    "  K at other times",
    "  O",
    "  H",
    "  U",
    "  X",
    "  W",
    "  lists",
];

// The copies of the book, all asks, and the asks by their answers.
#[derive(Clone, Copy)]
struct Counts {
    copies: Tally,
    asks: Tally,
    answers: [Tally; 8],
}

// The flight that is asked about where a line has none.
const NO_FLIGHT: Flight = Flight {
    airline: *b"QQ\0",
    number: 0,
    suffix: 0,
};

/// What an airline knows that asks: the state of its draws, the number of its last new flight, and
/// the last line that it was offered.
#[derive(Clone, Copy)]
pub struct Airline {
    draws: Draws,
    number: u32,
    offer: Option<Line>,
}

/// An airline that has not asked yet.
pub const NEW_AIRLINE: Airline = Airline {
    draws: Draws { state: 7 },
    number: 0,
    offer: None,
};

/// Asks the book in rounds, each of which begins with a copy of it, so that it stays about as full.
/// Prints how they were answered, and at full size how many that is in a second.
pub fn run<R: Print + Clock>(rt: &R, alloc: Global, size: Size, book: &Book) -> anyhow::Result<()> {
    let counts = ask_rounds(rt, alloc, size, book)?;
    print_title(rt, "asks of a book", book)?;
    print_tally(rt, size, "copies", counts.copies)?;
    print_tally(rt, size, "asks", counts.asks)?;
    print_answers(rt, size, &counts.answers)
}

fn print_answers<R: Print>(rt: &R, size: Size, tallies: &[Tally; 8]) -> anyhow::Result<()> {
    for place in 0..NAMES.len() {
        print_tally(rt, size, NAMES[place], tallies[place])?;
    }
    Ok(())
}

// The copies and the asks of all rounds.
fn ask_rounds<R: Clock>(rt: &R, alloc: Global, size: Size, book: &Book) -> Result<Counts, Memory> {
    let (rounds, asks) = match size {
        Size::Short => (2, 50),
        Size::Full => (10, 500),
    };
    let mut airline = NEW_AIRLINE;
    let mut counts = Counts {
        copies: NO_CALLS,
        asks: NO_CALLS,
        answers: [NO_CALLS; 8],
    };
    for _ in 0..rounds {
        ask_round(rt, alloc, book, &mut airline, &mut counts, asks)?;
    }
    Ok(counts)
}

// Copies the book, and asks the copy.
fn ask_round<R: Clock>(
    rt: &R,
    alloc: Global,
    book: &Book,
    airline: &mut Airline,
    counts: &mut Counts,
    asks: u32,
) -> Result<(), Memory> {
    let start = now(rt);
    let mut copy = book.copy(alloc)?;
    counts.copies.add(call_since(rt, start));
    ask_many(rt, alloc, &mut copy, airline, counts, asks)
}

fn ask_many<R: Clock>(
    rt: &R,
    alloc: Global,
    book: &mut Book,
    airline: &mut Airline,
    counts: &mut Counts,
    asks: u32,
) -> Result<(), Memory> {
    for _ in 0..asks {
        ask_one(rt, alloc, book, airline, counts)?;
    }
    Ok(())
}

// Asks once. What has no spelling is not asked.
fn ask_one<R: Clock>(
    rt: &R,
    alloc: Global,
    book: &mut Book,
    airline: &mut Airline,
    counts: &mut Counts,
) -> Result<(), Memory> {
    let ask = airline.draw_ask(book);
    if book.count() > 100_000 || !can_ask(book.declaration(), &ask) {
        return Ok(());
    }
    let start = now(rt);
    let answer = book.apply(alloc, &ask)?;
    let call = call_since(rt, start);
    counts.asks.add(call);
    let place = answered_place(&answer);
    counts.answers[place].add(call);
    airline.offer = offered(&answer).or(airline.offer);
    Ok(())
}

/// The line that an answer offers.
pub fn offered(answer: &Answer) -> Option<Line> {
    match answer {
        Answer::Offer(line) => Some(*line),
        _ => None,
    }
}

/// Whether an ask can be asked of a book: whether it has a spelling.
pub fn can_ask(declaration: &Declaration, ask: &Item) -> bool
    requires { ItemPairs ask.now }
    ensures { IsTrue result → CanAsk declaration.now ask.now }
{
    ask.fits(&declaration.season)
}

impl Airline {
    /// The next ask: half of them are new lines, a quarter changes.
    pub fn draw_ask(&mut self, book: &Book) -> Item
        ensures { ItemPairs result }
    {
        let code = self.draws.below(16);
        if code < 8 {
            self.number = self.number.wrapping_add(1);
            let code = if code < 4 { Code::N } else { Code::B };
            return Item::One(new_line(&mut self.draws, code, self.number));
        }
        let line = self.held_line(book);
        match code {
            8..=11 => change_of(&line),
            12 => Item::One(first_half(&line)),
            13 => Item::One(Line {
                code: Code::Z,
                ..self.offer.take().unwrap_or(line)
            }),
            14 => Item::One(Line {
                code: Code::A,
                ..self.offer.take().unwrap_or(line)
            }),
            _ => Item::Query(flight_of(&line)),
        }
    }

    // The line of a holding.
    fn held_line(&mut self, book: &Book) -> Line {
        let count = book.count();
        if count == 0 {
            return new_line(&mut self.draws, Code::N, 0);
        }
        let place = self.draws.below(count);
        book.holding(place).line
    }
}

// A change of a line to times ten minutes later.
fn change_of(line: &Line) -> Item
    ensures { ItemPairs result }
{
    let historic = Line {
        code: Code::C,
        ..*line
    };
    let request = Line {
        code: Code::L,
        arrival: later(line.arrival),
        departure: later(line.departure),
        ..*line
    };
    Item::Pair(historic, request)
}

// A line that cancels the first half of a holding's dates.
fn first_half(line: &Line) -> Line {
    let Period { first, last, days } = line.period;
    let last = Day(first.0 / 2 + last.0 / 2);
    Line {
        code: Code::D,
        period: Period { first, last, days },
        ..*line
    }
}

fn later(stop: Option<Stop>) -> Option<Stop>
    ensures { is_some result ≡ is_some stop }
{
    match stop {
        Some(stop) => Some(Stop {
            minute: stop.minute.saturating_add(10),
            ..stop
        }),
        None => None,
    }
}

/// The flight of a line, the arriving one if there is one.
pub fn flight_of(line: &Line) -> Flight {
    match line.arrival.or(line.departure) {
        Some(stop) => stop.flight,
        None => NO_FLIGHT,
    }
}

// Where an answer is counted.
fn answered_place(answer: &Answer) -> usize
    ensures { result < 8 }
{
    match answer {
        Answer::K => 0,
        Answer::KChanged => 1,
        Answer::Offer(_) => 2,
        Answer::Held => 3,
        Answer::U => 4,
        Answer::X => 5,
        Answer::W => 6,
        Answer::Listed(_) => 7,
    }
}
