//! Asks that are drawn.

ghost use Rattle.std.specs.Prelude.{◌<◌};

use holding_book::{Holding, State};
use scr_reader::{Code, Craft, Flight, Item, Line, Stop};
use season_days::{Day, Period};
use slot_text::Station;

/// Numbers that follow from a first one.
#[derive(Drop)]
pub(crate) struct Draws {
    pub(crate) last: u64,
}

impl Draws {
    /// The next number below another one.
    pub(crate) fn below(&mut self, end: u64) -> u64
        requires { 0 < end }
        ensures { result < end }
    {
        self.last = self
            .last
            .wrapping_mul(6_364_136_223_846_793_005)
            .wrapping_add(1_442_695_040_888_963_407);
        (self.last >> 33) % end
    }
}

/// An ask: a new line, or one about a holding or a part of it. Where much is held, every other one
/// gives a holding up.
pub(crate) fn drawn_ask(draws: &mut Draws, holdings: &[Holding]) -> Item {
    let kind = draws.below(16);
    let Some(held) = drawn_holding(draws, holdings) else {
        return Item::One(drawn_line(draws, Code::N));
    };
    if holdings.len() > 18 && draws.below(2) == 0 {
        return Item::One(with_code(held.line, release_of(held.state)));
    }
    match kind {
        0..=4 => Item::One(drawn_line(draws, Code::N)),
        5 => Item::One(drawn_line(draws, Code::B)),
        6 | 7 => Item::One(with_code(in_part(draws, held.line), release_of(held.state))),
        8 => Item::One(with_code(in_part(draws, held.line), Code::A)),
        9..=13 => drawn_pair(draws, held.line),
        14 => Item::Query(drawn_flight(draws)),
        _ => Item::One(with_code(held.line, drawn_code(draws))),
    }
}

fn release_of(state: State) -> Code {
    match state {
        State::Confirmed => Code::D,
        State::Offered => Code::Z,
    }
}

fn drawn_code(draws: &mut Draws) -> Code {
    match draws.below(4) {
        0 => Code::D,
        1 => Code::Z,
        2 => Code::A,
        _ => Code::F,
    }
}

fn drawn_holding(draws: &mut Draws, holdings: &[Holding]) -> Option<Holding> {
    let place = draws.below(24) as usize;
    match holdings.get(place) {
        Some(holding) => Some(*holding),
        None => holdings.last().copied(),
    }
}

fn with_code(line: Line, code: Code) -> Line {
    Line { code, ..line }
}

// The line on some days of its period and of the days beside it, on some weekdays or on all.
fn in_part(draws: &mut Draws, line: Line) -> Line {
    let period = line.period;
    let first = Day(
        period
            .first
            .0
            .wrapping_add(draws.below(5) as u32)
            .saturating_sub(1),
    );
    let last = Day(period.last.0.wrapping_sub(draws.below(4) as u32));
    let days = if draws.below(2) == 0 {
        period.days
    } else {
        period.days & drawn_days(draws)
    };
    Line {
        period: Period { first, last, days },
        ..line
    }
}

// A part of the line that is to be changed, and a request with the same shape and period.
fn drawn_pair(draws: &mut Draws, held: Line) -> Item {
    let historic = in_part(draws, held);
    let other = drawn_line(draws, Code::L);
    let request = Line {
        code: Code::L,
        arrival: changed(historic.arrival, other.arrival),
        departure: changed(historic.departure, other.departure),
        nights: historic.nights,
        ..historic
    };
    Item::Pair(with_code(historic, Code::C), request)
}

// The stop of the historic line at the minute of the other one, if both are there.
fn changed(historic: Option<Stop>, other: Option<Stop>) -> Option<Stop> {
    match (historic, other) {
        (Some(stop), Some(other)) => Some(Stop {
            minute: other.minute,
            ..stop
        }),
        (stop, _) => stop,
    }
}

// An arrival, a departure, or a turnaround with at most one night.
fn drawn_line(draws: &mut Draws, code: Code) -> Line {
    let shape = draws.below(4);
    let arrival = drawn_stop(draws);
    let departure = drawn_stop(draws);
    let nights = if shape < 2 && draws.below(2) == 0 {
        1
    } else {
        0
    };
    Line {
        code,
        arrival: if shape == 2 { None } else { Some(arrival) },
        departure: if shape == 3 { None } else { Some(departure) },
        nights,
        period: drawn_period(draws),
        seats: 180,
        craft: Craft(*b"320"),
    }
}

fn drawn_stop(draws: &mut Draws) -> Stop {
    let hour: u16 = match draws.below(8) {
        0 => 0,
        1 => 1385,
        _ => 350,
    };
    Stop {
        flight: drawn_flight(draws),
        minute: hour.wrapping_add(draws.below(11) as u16 * 5),
        near: Station(*b"JFK"),
        far: None,
        service: b'J',
    }
}

fn drawn_flight(draws: &mut Draws) -> Flight {
    Flight {
        airline: *b"BA\0",
        number: 1 + draws.below(20) as u16,
        suffix: 0,
    }
}

// Some days at the begin of the season, or at its end.
fn drawn_period(draws: &mut Draws) -> Period {
    let begin: u32 = if draws.below(4) == 0 { 195 } else { 0 };
    let first = begin.wrapping_add(draws.below(8) as u32);
    let last = first.wrapping_add(draws.below(8) as u32);
    Period {
        first: Day(first),
        last: Day(last),
        days: drawn_days(draws),
    }
}

fn drawn_days(draws: &mut Draws) -> u8 {
    if draws.below(2) == 0 {
        127
    } else {
        draws.below(128) as u8
    }
}
