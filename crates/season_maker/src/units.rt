//! The lines of a generated season, drawn one after the other.

ghost use Rattle.std.specs.Prelude.{◌≡◌, ◌<◌, ◌≤◌, ◌%◌, ◌+◌, ◌*◌, ℕ, Some};
ghost use Rattle.season_maker.specs.Draws.{next_state, drawn, state_after};
ghost use Rattle.scr_reader.specs.Printed.{LineFits};
ghost use Rattle.season_maker.specs.Generated.{summer_2025, airline_xy, airline_xz, stop_of, line_of, arrival_line, turnaround_line, unit_line};
ghost use Rattle.season_maker.specs.Loops.{IsBefore};
ghost use Rattle.scr_reader.specs.declared.line.Code.{Code as CodeValue};

use crate::draws::Draws;
use scr_reader::{Code, Craft, Flight, Line, Stop};
use season_days::{Day, Period};
use slot_text::Station;

// The airline of arrivals, and that of departures.
const ARRIVING: [u8; 3] = [b'X', b'Y', 0];

const DEPARTING: [u8; 3] = [b'X', b'Z', 0];

/// A flight of a unit, at a minute of the day.
fn stop_at(airline: [u8; 3], unit: u32, minute: u16) -> Stop
    requires { unit < 9000 }
    ensures { result ≡ stop_of airline unit minute }
{
    Stop {
        flight: Flight {
            airline,
            number: 1000 + unit as u16,
            suffix: 0,
        },
        minute,
        near: Station(*b"JFK"),
        far: None,
        service: b'J',
    }
}

/// A line over the whole season.
fn daily_line(code: Code, arrival: Option<Stop>, departure: Option<Stop>) -> Line
    ensures { result ≡ line_of code arrival departure }
{
    Line {
        code,
        arrival,
        departure,
        nights: 0,
        period: Period {
            first: Day(0),
            last: Day(209),
            days: 127,
        },
        seats: 180,
        craft: Craft(*b"320"),
    }
}

fn arrival_at(code: Code, unit: u32, minute: u16) -> Line
    requires { unit < 9000 }
    ensures { result ≡ arrival_line code unit minute }
{
    daily_line(code, Some(stop_at(ARRIVING, unit, minute)), None)
}

/// The minute of an arrival by the next draw.
fn draw_minute(draws: &mut Draws) -> u16
    ensures drawn { result ≡ 420 + 5 * (next_state draws.old.state % 36) }
    ensures state { draws.new.state ≡ next_state draws.old.state }
{
    420 + 5 * draws.draw(36) as u16
}

/// A turnaround, whose arrival and time on the ground are the next two draws.
fn draw_turnaround(draws: &mut Draws, unit: u32) -> Line
    requires { unit < 9000 }
    ensures line { result ≡ turnaround_line unit (420 + 5 * (next_state draws.old.state % 36))
        (420 + 5 * (next_state draws.old.state % 36)
        + (45 + 5 * (next_state (next_state draws.old.state) % 12))) }
    ensures state { draws.new.state ≡ next_state (next_state draws.old.state) }
{
    let arrival = draw_minute(draws);
    let stay = 45 + 5 * draws.draw(12) as u16;
    daily_line(
        Code::N,
        Some(stop_at(ARRIVING, unit, arrival)),
        Some(stop_at(DEPARTING, unit, arrival + stay)),
    )
}

/// The line of a unit, with the draws that it needs.
pub(crate) fn draw_line(draws: &mut Draws, unit: u32) -> Line
    requires { unit < 9000 }
    ensures fits { LineFits summer_2025 result }
    ensures line { (number : ℕ) → IsBefore number unit draws.old.state →
        result ≡ unit_line number unit }
    ensures state { (number : ℕ) → IsBefore number unit draws.old.state →
        IsBefore number (unit + 1) draws.new.state }
{
    match unit % 4 {
        0 => arrival_at(Code::F, unit, 360 + 5 * (unit % 192) as u16),
        1 => arrival_at(Code::N, unit, draw_minute(draws)),
        2 => arrival_at(Code::B, unit, draw_minute(draws)),
        _ => draw_turnaround(draws, unit),
    }
}
