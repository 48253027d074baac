//! Drawn lines of new flights.

ghost use Rattle.std.specs.Prelude.{◌<◌};

use scr_reader::{Code, Craft, Flight, Line, Stop};
use season_days::{Day, Period};
use slot_text::Station;

// The modulus of the generator, a prime.
const MODULUS: u32 = 65_537;

/// A generator of numbers, by its state.
#[derive(Clone, Copy)]
pub struct Draws {
    pub state: u32,
}

impl Draws {
    /// The next number below a bound.
    pub fn below(&mut self, bound: u32) -> u32
        requires { 0 < bound }
        ensures { result < bound }
    {
        self.state = ((75 * u64::from(self.state) + 74) % u64::from(MODULUS)) as u32;
        self.state % bound
    }
}

/// A turnaround of a new flight with this number, on 200 dates, at times that are drawn.
pub fn new_line(draws: &mut Draws, code: Code, number: u32) -> Line {
    let arrival = 240 + 5 * draws.below(216) as u16;
    let departure = arrival + 45 + 5 * draws.below(12) as u16;
    let first = draws.below(10);
    let stop = Stop {
        flight: Flight {
            airline: *b"QQ\0",
            number: (number % 10_000) as u16,
            suffix: 0,
        },
        minute: arrival,
        near: Station(*b"JFK"),
        far: None,
        service: b'J',
    };
    Line {
        code,
        arrival: Some(stop),
        departure: Some(Stop {
            minute: departure,
            ..stop
        }),
        nights: 0,
        period: Period {
            first: Day(first),
            last: Day(first + 199),
            days: 127,
        },
        seats: 180,
        craft: Craft(*b"320"),
    }
}
