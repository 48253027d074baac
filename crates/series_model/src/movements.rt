//! The movements of a unit.

ghost use Rattle.std.specs.Prelude.{◌≡◌, ◌+◌, ◌<◌, ◌≤◌, ◌++◌, [], if◌then◌else◌, IfOk, OnOk};
ghost use Rattle.season_days.specs.Seasons.{date_count, is_on};
ghost use Rattle.series_model.specs.Units.{UnitFits};
ghost use Rattle.series_model.specs.Movements.{stop_on, movements_on, movements_at, movements_of};

use crate::times::Times;
use crate::unit::Unit;
use capacity_windows::Movement;
use scr_reader::{Line, Stop};
use season_days::laws::{lengths, listed_days};
use season_days::{Day, Kind, MINUTES_OF_DAY, Season};
use slot_text::Memory;
use std::alloc::Global;

/// The movements of a unit at one of its alternatives: for each date of its line the arrival, and
/// then the departure, on the day and minute that the times say. A movement after the season's last
/// date is left out, and a refused unit has none. One step for each day of the period; the one
/// fault is want of memory.
pub fn movements_of(
    alloc: Global,
    unit: &Unit,
    times: Times,
    season: &Season,
) -> Result<Vec<Movement>, Memory>
    requires { UnitFits season.now unit.now }
    ensures { IfOk result (λ movements. movements.items ≡ movements_of season.now unit.now times) }
{
    let mut movements = Vec::new(alloc);
    if let Times::At { arrival, departure } = times {
        push_movements(&mut movements, season, &unit.request, arrival, departure)?;
    }
    Ok(movements)
}

// Appends the movements of a line, date by date.
fn push_movements(
    movements: &mut Vec<Movement>,
    season: &Season,
    line: &Line,
    arrival: u32,
    departure: u32,
) -> Result<(), Memory>
    requires last { line.now.period.last.0 < date_count season.now }
    ensures { OnOk result (movements.new.items ≡ movements.old.items
        ++ movements_at season.now line.now (Times.At arrival departure)) }
{
    lengths();
    listed_days();
    let end = line.period.last.0 + 1;
    for date in line.period.first.0..end {
        push_date(movements, season, line, arrival, departure, date)?;
    }
    Ok(())
}

// Appends the movements of a line on a day, where it is a date of the line.
fn push_date(
    movements: &mut Vec<Movement>,
    season: &Season,
    line: &Line,
    arrival: u32,
    departure: u32,
    date: u32,
) -> Result<(), Memory>
    requires { date < 300 }
    ensures { OnOk result (movements.new.items ≡ movements.old.items
        ++ (if is_on season.now line.now.period.days date
        then movements_on season.now line.now arrival departure date else [])) }
{
    if !season.is_on(line.period.days, Day(date)) {
        return Ok(());
    }
    push_stop(movements, season, Kind::Arr, line.arrival, arrival, date)?;
    push_stop(
        movements,
        season,
        Kind::Dep,
        line.departure,
        departure,
        date,
    )
}

// Appends the movement on a date, where there is one of the kind and its day is in the season.
fn push_stop(
    movements: &mut Vec<Movement>,
    season: &Season,
    kind: Kind,
    stop: Option<Stop>,
    minute: u32,
    date: u32,
) -> Result<(), Memory>
    requires { date < 300 }
    ensures { OnOk result (movements.new.items ≡ movements.old.items
        ++ stop_on season.now kind stop minute date) }
{
    let day = date + minute / MINUTES_OF_DAY;
    if stop.is_some() && day < season.length() {
        movements.push(Movement {
            kind,
            day,
            minute: minute % MINUTES_OF_DAY,
        })?;
    }
    Ok(())
}
