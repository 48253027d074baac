//! What an alternative costs.

ghost use Rattle.std.specs.Prelude.{◌≡◌, ◌+◌, ◌*◌, ◌<◌, ◌≤◌, ◌^◌};
ghost use Rattle.scr_reader.specs.Printed.{LineFits};
ghost use Rattle.series_model.specs.Units.{UnitFits};
ghost use Rattle.series_model.specs.Displacement.{stop_change, line_change, stop_count, line_dates, cost_at, displacement_of};

use crate::shifts::minute_after;
use crate::times::Times;
use crate::unit::Unit;
use scr_reader::{Line, Stop};
use season_days::Declaration;

/// The displacement of a unit at one of its alternatives, in minutes: by how much its movements are
/// moved against the requested times, times the number of its dates. A movement that falls after
/// the season's last date counts too. A refusal costs its price for each movement on each date. The
/// dates are counted in at most 13 steps, whatever the period, and no memory is taken.
pub fn displacement(unit: &Unit, times: Times, declaration: &Declaration) -> u64
    requires { UnitFits declaration.now.season unit.now }
    ensures { result ≡ displacement_of declaration.now unit.now times }
{
    line_displacement(&unit.request, times, declaration)
}

/// The same of a line that asks for times, in a unit or by itself.
pub fn line_displacement(line: &Line, times: Times, declaration: &Declaration) -> u64
    requires { LineFits declaration.now.season line.now }
    ensures { result ≡ cost_at declaration.now line.now times }
{
    let dates = u64::from(declaration.season.count_dates(line.period));
    match times {
        Times::Refused => {
            let price = u64::from(declaration.refuse.unwrap_or(0));
            price * count_stops(line) * dates
        }
        Times::At { arrival, departure } => dates * line_change(line, arrival, departure),
    }
}

// How many movements a line has on a date.
fn count_stops(line: &Line) -> u64
    ensures count { result ≡ stop_count line.now }
    ensures few { result ≤ 2 }
{
    u64::from(line.arrival.is_some()) + u64::from(line.departure.is_some())
}

// By how many minutes the movements of a line are moved on a date.
fn line_change(line: &Line, arrival: u32, departure: u32) -> u64
    ensures change { result ≡ line_change line.now arrival departure }
    ensures small { result < 2 ^ 33 }
{
    let coming = stop_change(0, line.arrival, arrival);
    let going = stop_change(line.nights, line.departure, departure);
    u64::from(coming) + u64::from(going)
}

// By how many minutes a movement is moved.
fn stop_change(nights: u8, stop: Option<Stop>, minute: u32) -> u32
    ensures { result ≡ stop_change nights stop minute }
{
    match stop {
        Some(stop) => minute.abs_diff(minute_after(nights, stop.minute)),
        None => 0,
    }
}
