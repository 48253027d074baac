//! Asks, answers and holdings as texts of lines.

ghost use Rattle.std.specs.Prelude.{IfSome};
ghost use Rattle.scr_reader.specs.Again.{IsAskedItem, IsFitItem};
ghost use Rattle.series_model.specs.Submissions.{ItemPairs};
ghost use Rattle.holding_book.specs.Asks.{CanAsk};

use crate::lines::data_lines;
use holding_book::{Answer, Holding, State};
use scr_reader::{Code, Flight, Item, Line, print_flight, print_item, print_line, read_item};
use season_days::{Declaration, Season};
use std::alloc::Global;
use std::process::Abort;

/// The ask of which these are the lines.
pub(crate) fn ask(rt: &impl Abort, alloc: Global, declaration: &Declaration, text: &str) -> Item
    ensures { CanAsk declaration.now result }
{
    let ask = fit_ask(rt, alloc, &declaration.season, text);
    fit_items_pair(&ask);
    ask
}

/// The ask of a season of which these are the lines.
pub(crate) fn fit_ask(rt: &impl Abort, alloc: Global, season: &Season, text: &str) -> Item
    ensures { IsFitItem season.now result }
{
    let text = data_lines(rt, alloc, text);
    match read_item(alloc, season, text.as_bytes()).expect(rt, "memory") {
        Some(ask) => ask,
        None => panic!(rt; "no ask: {text}"),
    }
}

/// The ask as it is read from its printed text; none where it has none.
pub(crate) fn spelled(
    rt: &impl Abort,
    alloc: Global,
    declaration: &Declaration,
    ask: &Item,
) -> Option<Item>
    ensures { IfSome result (CanAsk declaration.now) }
{
    if !ask.fits(&declaration.season) {
        return None;
    }
    let mut text = Vec::new(alloc);
    print_item(alloc, &mut text, &declaration.season, ask).expect(rt, "memory");
    let ask = read_item(alloc, &declaration.season, &text)
        .expect(rt, "memory")
        .expect(rt, "an ask that is read again");
    fit_items_pair(&ask);
    Some(ask)
}

/// The law that the lines of a pair that can be asked belong together.
pub(crate) fn fit_items_pair(ask: &Item)
    requires { IsAskedItem ask.now }
    ensures { ItemPairs ask.now }
{
    match ask {
        Item::One(_) => {}
        Item::Pair(_, _) => {}
        Item::Query(_) => {}
    }
}

/// Appends the lines of an answer: each begins with the code of what is answered.
pub(crate) fn put_answer(
    rt: &impl Abort,
    alloc: Global,
    out: &mut Vec<u8>,
    season: &Season,
    ask: &Item,
    answer: &Answer,
) {
    if let Answer::Listed(holdings) = answer {
        put_holdings(rt, alloc, out, season, holdings.items());
        return;
    }
    put_asked(rt, alloc, out, season, code_of_answer(answer), ask);
    match answer {
        Answer::Held => put_historic(rt, alloc, out, season, ask),
        Answer::Offer(line) => put(rt, alloc, out, season, Code::O, line),
        _ => {}
    }
}

fn code_of_answer(answer: &Answer) -> Code {
    match answer {
        Answer::K | Answer::KChanged => Code::K,
        Answer::X => Code::X,
        Answer::W => Code::W,
        _ => Code::U,
    }
}

/// Appends the holdings: `H` and the line of a confirmed one, `O` and that of an offered one.
pub(crate) fn put_holdings(
    rt: &impl Abort,
    alloc: Global,
    out: &mut Vec<u8>,
    season: &Season,
    holdings: &[Holding],
) {
    for holding in holdings {
        put(
            rt,
            alloc,
            out,
            season,
            code_of(holding.state),
            &holding.line,
        );
    }
}

fn code_of(state: State) -> Code {
    match state {
        State::Confirmed => Code::H,
        State::Offered => Code::O,
    }
}

// Appends what was asked for: a line, the line of a pair that asks, or a flight.
fn put_asked(
    rt: &impl Abort,
    alloc: Global,
    out: &mut Vec<u8>,
    season: &Season,
    code: Code,
    ask: &Item,
) {
    match ask {
        Item::One(line) => put(rt, alloc, out, season, code, line),
        Item::Pair(_, request) => put(rt, alloc, out, season, code, request),
        Item::Query(flight) => put_flight(rt, alloc, out, code, *flight),
    }
}

fn put_historic(rt: &impl Abort, alloc: Global, out: &mut Vec<u8>, season: &Season, ask: &Item) {
    match ask {
        Item::Pair(historic, _) => put(rt, alloc, out, season, Code::H, historic),
        _ => panic!(rt; "only a pair has a historic line"),
    }
}

// A flight is answered W alone.
fn put_flight(rt: &impl Abort, alloc: Global, out: &mut Vec<u8>, code: Code, flight: Flight) {
    assert!(rt; code == Code::W, "a flight is answered W");
    out.push(b'W').expect(rt, "memory");
    print_flight(alloc, out, flight).expect(rt, "memory");
    out.push(b'\n').expect(rt, "memory");
}

// Appends a line with a code.
fn put(
    rt: &impl Abort,
    alloc: Global,
    out: &mut Vec<u8>,
    season: &Season,
    code: Code,
    line: &Line,
) {
    assert!(rt; line.fits(season), "a line without a spelling");
    print_line(alloc, out, season, code, line).expect(rt, "memory");
    out.push(b'\n').expect(rt, "memory");
}
