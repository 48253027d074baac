//! The answers to asks.

ghost use Rattle.std.specs.Prelude.{◌≡◌, ◌++◌, OnOk, All};
ghost use Rattle.std.specs.List.{flat_map};
ghost use Rattle.scr_reader.specs.Printed.{LineFits, FlightFits};
ghost use Rattle.holding_book.specs.declared.holding.Holding.{Holding as HoldingValue};
ghost use Rattle.holding_book.specs.Replied.{IsLineAnswer, IsPairAnswer, IsQueryAnswer, HasAnswerLines};
ghost use Rattle.scr_replies.specs.Replies.{state_code, line_answer, pair_answer, query_answer, holding_answer, ask_answer};

use crate::answers::{
    put_cancelled, put_coded, put_confirmed, put_held, put_offer, put_refused, put_unknown,
    put_unprocessed,
};
use holding_book::{Answer, Holding, State};
use scr_reader::{Code, Flight, Item, Line};
use season_days::Season;
use slot_text::Memory;
use std::alloc::Global;

// The code under which a holding is listed.
fn state_code(state: State) -> Code
    ensures { result ≡ state_code state }
{
    match state {
        State::Confirmed => Code::H,
        State::Offered => Code::O,
    }
}

// Appends the lines of holdings, in their order.
fn put_holdings(
    alloc: Global,
    out: &mut Vec<u8>,
    season: &Season,
    holdings: &[Holding],
) -> Result<(), Memory>
    requires { All (λ (holding : HoldingValue). LineFits season.now holding.line) holdings.now }
    ensures { OnOk result
        (out.new.items ≡ out.old.items ++ flat_map (holding_answer season.now) holdings.now) }
{
    for holding in holdings {
        put_coded(alloc, out, season, state_code(holding.state), &holding.line)?;
    }
    Ok(())
}

// Appends the answer to a line.
fn put_line_answer(
    alloc: Global,
    out: &mut Vec<u8>,
    season: &Season,
    request: &Line,
    answer: &Answer,
) -> Result<(), Memory>
    requires request { LineFits season.now request.now }
    requires answer { IsLineAnswer season.now answer.now }
    ensures { OnOk result
        (out.new.items ≡ out.old.items ++ line_answer season.now request.now answer.now) }
{
    match answer {
        Answer::K => put_confirmed(alloc, out, season, request),
        Answer::Offer(offered) => put_offer(alloc, out, season, request, offered),
        Answer::U => put_refused(alloc, out, season, request),
        Answer::X => put_cancelled(alloc, out, season, request),
        Answer::W => put_unprocessed(alloc, out, season, request),
        Answer::KChanged | Answer::Held | Answer::Listed(_) => unreachable!(),
    }
}

// Appends the answer to a pair.
fn put_pair_answer(
    alloc: Global,
    out: &mut Vec<u8>,
    season: &Season,
    historic: &Line,
    request: &Line,
    answer: &Answer,
) -> Result<(), Memory>
    requires historic { LineFits season.now historic.now }
    requires request { LineFits season.now request.now }
    requires answer { IsPairAnswer answer.now }
    ensures { OnOk result (out.new.items
        ≡ out.old.items ++ pair_answer season.now historic.now request.now answer.now) }
{
    match answer {
        Answer::KChanged => put_confirmed(alloc, out, season, request),
        Answer::Held => put_held(alloc, out, season, request, historic),
        Answer::W => put_unprocessed(alloc, out, season, request),
        Answer::K | Answer::Offer(_) | Answer::U | Answer::X | Answer::Listed(_) => unreachable!(),
    }
}

// Appends the answer to a question about a flight.
fn put_query_answer(
    alloc: Global,
    out: &mut Vec<u8>,
    season: &Season,
    flight: Flight,
    answer: &Answer,
) -> Result<(), Memory>
    requires { IsQueryAnswer season.now answer.now }
    ensures { OnOk result
        (out.new.items ≡ out.old.items ++ query_answer season.now flight answer.now) }
{
    match answer {
        Answer::Listed(holdings) => put_holdings(alloc, out, season, holdings.items()),
        Answer::W => put_unknown(alloc, out, flight),
        Answer::K | Answer::KChanged | Answer::Offer(_) | Answer::Held | Answer::U | Answer::X =>
            unreachable!(),
    }
}

/// Appends the answer to an ask.
pub(crate) fn put_answer(
    alloc: Global,
    out: &mut Vec<u8>,
    season: &Season,
    ask: &Item,
    answer: &Answer,
) -> Result<(), Memory>
    requires { HasAnswerLines season.now ask.now answer.now }
    ensures { OnOk result
        (out.new.items ≡ out.old.items ++ ask_answer season.now ask.now answer.now) }
{
    match ask {
        Item::One(line) => put_line_answer(alloc, out, season, line, answer),
        Item::Pair(historic, request) => {
            put_pair_answer(alloc, out, season, historic, request, answer)
        }
        Item::Query(flight) => put_query_answer(alloc, out, season, *flight, answer),
    }
}
