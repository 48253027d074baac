//! How many entries in a second callers on threads add to one ledger.

ghost use Rattle.std.specs.Prelude.{◌≡◌, ◌<◌, ◌^◌, All, IfOk, length};
ghost use Rattle.turn_lock.specs.Seats.{IsAtRest};
ghost use Rattle.series_model.specs.Submissions.{ItemPairs};

use crate::asks::{can_ask, flight_of, offered};
use crate::draws::{Draws, new_line};
use crate::report::{
    NO_CALLS, Size, Tally, calls_since, now, print_part, print_tally, print_title,
};
use holding_book::Book;
use scr_reader::{Code, Item, Line};
use season_days::Declaration;
use slot_ledger::{Ledger, Pass};
use slot_text::Memory;
use std::alloc::Global;
use std::io::Print;
use std::sync::Wait;
use std::thread;
use std::thread::Threads;
use std::time::Clock;

// The numbers of callers that are tried, each on a thread of its own.
const CALLERS: [u32; 4] = [1, 2, 4, 8];

/// Amends a ledger over the book by 1, 2, 4 and 8 callers, and prints how many entries they made;
/// at full size also how many that is in a second. Every other ask is an N line that finds no slot
/// at once, and the next one declines what was offered.
pub fn run<R: Threads + Wait + Sync + Print + Clock>(
    rt: &R,
    alloc: Global,
    size: Size,
    book: &Book,
) -> anyhow::Result<()> {
    let (count, entries) = match size {
        Size::Short => (64, 80),
        Size::Full => (512, 2_000),
    };
    print_title(rt, "a ledger", book)?;
    let lines = full_lines(alloc, book, count)?;
    print_callers(rt, alloc, size, book, &lines, entries)
}

fn print_callers<R: Threads + Wait + Sync + Print + Clock>(
    rt: &R,
    alloc: Global,
    size: Size,
    book: &Book,
    lines: &[Line],
    entries: u32,
) -> anyhow::Result<()> {
    for callers in CALLERS {
        let tally = entries_by(rt, alloc, book, lines, callers, entries)?;
        print_part(rt, "callers", u64::from(callers))?;
        print_tally(rt, size, "entries", tally)?;
    }
    Ok(())
}

// Drawn lines of new flights, without those that would get the times that they ask for.
fn full_lines(alloc: Global, book: &Book, count: u32) -> Result<Vec<Line>, Memory> {
    let mut draws = Draws { state: 7 };
    let mut lines = Vec::new(alloc);
    for number in 0..count {
        let line = new_line(&mut draws, Code::N, number);
        if is_full_at(alloc, book, &line)? {
            lines.push(line)?;
        }
    }
    Ok(lines)
}

// Whether a line does not get the times that it asks for.
fn is_full_at(alloc: Global, book: &Book, line: &Line) -> Result<bool, Memory> {
    if !line.fits(&book.declaration().season) {
        return Ok(false);
    }
    let best = book.best_option(alloc, line)?;
    Ok(best != Some(*line))
}

// The callers amend a ledger that begins with the book, each its part, and how long that took.
fn entries_by<R: Threads + Wait + Sync + Clock>(
    rt: &R,
    alloc: Global,
    book: &Book,
    lines: &[Line],
    callers: u32,
    entries: u32,
) -> Result<Tally, Memory>
    requires { 0 < callers }
{
    if book.count() > 100_000 {
        return Ok(NO_CALLS);
    }
    let copy = book.copy(alloc)?;
    let (ledger, passes) = Ledger::start(alloc, copy, callers, 100_000)?;
    if passes.len() != callers as usize {
        return Ok(NO_CALLS);
    }
    let declaration = book.declaration();
    let each = entries / callers;
    Ok(amended(rt, alloc, ledger, passes, declaration, lines, each))
}

// The entries of a ledger that all its callers amend, and how long that took.
fn amended<R: Threads + Wait + Sync + Clock>(
    rt: &R,
    alloc: Global,
    ledger: Ledger,
    passes: Vec<Pass>,
    declaration: &Declaration,
    lines: &[Line],
    each: u32,
) -> Tally
    requires all { length passes.items ≡ ledger.callers }
    requires rest { All (IsAtRest ledger) passes.items }
    requires declared { declaration.now ≡ ledger.origin.start.declaration }
{
    let mut passes = passes;
    let start = now(rt);
    amend_on_threads(
        rt,
        alloc,
        &ledger,
        passes.as_mut_slice(),
        declaration,
        lines,
        each,
    );
    let tally = calls_since(rt, start, 0);
    let (_, history) = ledger.close(passes);
    Tally {
        calls: history.len() as u64,
        ..tally
    }
}

fn amend_on_threads<R: Threads + Wait + Sync>(
    rt: &R,
    alloc: Global,
    ledger: &Ledger,
    passes: &mut [Pass],
    declaration: &Declaration,
    lines: &[Line],
    each: u32,
)
    requires rest { All (IsAtRest ledger.now) passes.old }
    requires declared { declaration.now ≡ ledger.now.origin.start.declaration }
    ensures { All (IsAtRest ledger.now) passes.new }
{
    thread::for_each_mut(
        rt,
        passes,
        8,
        &|_, pass| { amend_many(rt, alloc, ledger, pass, declaration, lines, each) },
    );
}

fn amend_many<R: Wait>(
    rt: &R,
    alloc: Global,
    ledger: &Ledger,
    pass: &mut Pass,
    declaration: &Declaration,
    lines: &[Line],
    each: u32,
)
    requires rest { IsAtRest ledger.now pass.old }
    requires declared { declaration.now ≡ ledger.now.origin.start.declaration }
    ensures { IsAtRest ledger.now pass.new }
{
    let mut offer = None;
    for step in 0..each {
        offer = amend_one(rt, alloc, ledger, pass, declaration, lines, step, offer);
    }
}

// One ask of a caller. The answer is what it is offered, if anything.
fn amend_one<R: Wait>(
    rt: &R,
    alloc: Global,
    ledger: &Ledger,
    pass: &mut Pass,
    declaration: &Declaration,
    lines: &[Line],
    step: u32,
    offer: Option<Line>,
) -> Option<Line>
    requires rest { IsAtRest ledger.now pass.old }
    requires declared { declaration.now ≡ ledger.now.origin.start.declaration }
    ensures { IsAtRest ledger.now pass.new }
{
    let number = 8 * u64::from(step / 2) + u64::from(pass.number() % 8);
    let place = number.checked_rem(lines.len() as u64)?;
    let line = lines.get(place as usize)?;
    let ask = next_ask(line, step, offer);
    if !can_ask(declaration, &ask) {
        return None;
    }
    match ledger.amend(rt, alloc, pass, &ask) {
        Ok(answer) => offered(&answer),
        Err(_full) => None,
    }
}

// Asks for slots at each other step. Between them declines what was offered, or else asks about the
// flight.
fn next_ask(line: &Line, step: u32, offer: Option<Line>) -> Item
    ensures { ItemPairs result }
{
    if step % 2 == 0 {
        return Item::One(*line);
    }
    match offer {
        Some(line) => Item::One(Line {
            code: Code::Z,
            ..line
        }),
        None => Item::Query(flight_of(line)),
    }
}
