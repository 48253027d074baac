//! What is said of a season before it is allotted.

ghost use Rattle.std.specs.Prelude.{◌≡◌, ◌≤◌, ◌*◌, ◌++◌, length, All, IfOk, OnOk};
ghost use Rattle.season_days.specs.declared.season.TheConstants.{MOST_DATES as LONGEST_SEASON};
ghost use Rattle.choice_problem.specs.declared.problems.TheConstants.{MOST_UNITS};
ghost use Rattle.series_model.specs.Units.{UnitFits};
ghost use Rattle.report_lines.specs.Heads.{season_line};
ghost use Rattle.desk_commands.specs.Inspections.{group_letter, group_count, unit_dates};
ghost use Rattle.desk_commands.specs.Inspections.{date_total};
ghost use Rattle.desk_commands.specs.Inspections.{movement_count, movement_total, messages_line};
ghost use Rattle.desk_commands.specs.Inspections.{units_line, dates_line, caps_line, season_counts};
ghost use Rattle.desk_commands.specs.Inspections.{inspection_text};

use report_lines::{demand_lines, over_lines, put, put_tagged};
use season_days::{Declaration, Season};
use series_model::{Group, Submission, Unit, line_times, movements_of};
use slot_text::Memory;
use std::alloc::Global;

// The letter of a group.
fn group_letter(group: Group) -> u8
    ensures { result ≡ group_letter group }
{
    match group {
        Group::F => b'F',
        Group::R => b'R',
        Group::L => b'L',
        Group::B => b'B',
        Group::N => b'N',
    }
}

// How many units ask for this.
fn group_count(group: Group, units: &[Unit]) -> u64
    ensures { result ≡ group_count group units.now }
{
    let mut count: u64 = 0;
    for unit in units {
        if group_letter(unit.group) == group_letter(group) {
            count += 1;
        }
    }
    count
}

// How many dates a unit has.
fn unit_dates(season: &Season, unit: &Unit) -> u64
    requires { UnitFits season.now unit.now }
    ensures value { result ≡ unit_dates season.now unit.now }
    ensures few { result ≤ LONGEST_SEASON }
{
    u64::from(season.count_dates(unit.request.period))
}

// How many dates the units have together.
fn date_total(season: &Season, units: &[Unit]) -> u64
    requires fits { All (UnitFits season.now) units.now }
    requires few { length units.now ≤ MOST_UNITS }
    ensures { result ≡ date_total season.now units.now }
{
    let mut dates: u64 = 0;
    for unit in units {
        dates += unit_dates(season, unit);
    }
    dates
}

// How many movements a unit has at its requested times. There are at most two on a date.
fn movement_count(alloc: Global, season: &Season, unit: &Unit) -> Result<u64, Memory>
    requires { UnitFits season.now unit.now }
    ensures value { IfOk result (λ n. n ≡ movement_count season.now unit.now) }
    ensures few { IfOk result (λ n. n ≤ 2 * LONGEST_SEASON) }
{
    let _dates = unit_dates(season, unit);
    let listed = movements_of(alloc, unit, line_times(&unit.request), season)?;
    Ok(listed.len() as u64)
}

// How many movements the units have together at their requested times.
fn movement_total(alloc: Global, season: &Season, units: &[Unit]) -> Result<u64, Memory>
    requires fits { All (UnitFits season.now) units.now }
    requires few { length units.now ≤ MOST_UNITS }
    ensures { IfOk result (λ n. n ≡ movement_total season.now units.now) }
{
    let mut movements: u64 = 0;
    for unit in units {
        movements += movement_count(alloc, season, unit)?;
    }
    Ok(movements)
}

// Appends the airport and the season.
fn put_season(out: &mut Vec<u8>, declaration: &Declaration) -> Result<(), Memory>
    ensures { OnOk result (out.new.items ≡ out.old.items ++ season_line declaration.now) }
{
    put(out, b"AIRPORT ")?;
    put(out, &declaration.airport.0)?;
    put(out, b" SEASON ")?;
    put(out, &declaration.season.text())?;
    put(out, b"\n")?;
    Ok(())
}

// Appends how many messages there are.
fn put_messages(alloc: Global, out: &mut Vec<u8>, messages: u64) -> Result<(), Memory>
    ensures { OnOk result (out.new.items ≡ out.old.items ++ messages_line messages) }
{
    put_tagged(alloc, out, b"MESSAGES ", messages)?;
    put(out, b"\n")?;
    Ok(())
}

// Appends how many units there are, and how many of each group.
fn put_units(alloc: Global, out: &mut Vec<u8>, units: &[Unit]) -> Result<(), Memory>
    ensures { OnOk result (out.new.items ≡ out.old.items ++ units_line units.now) }
{
    put_tagged(alloc, out, b"UNITS ", units.len() as u64)?;
    put_tagged(alloc, out, b" F ", group_count(Group::F, units))?;
    put_tagged(alloc, out, b" R ", group_count(Group::R, units))?;
    put_tagged(alloc, out, b" L ", group_count(Group::L, units))?;
    put_tagged(alloc, out, b" B ", group_count(Group::B, units))?;
    put_tagged(alloc, out, b" N ", group_count(Group::N, units))?;
    put(out, b"\n")?;
    Ok(())
}

// Appends how many dates the units have, and how many movements.
fn put_dates(
    alloc: Global,
    out: &mut Vec<u8>,
    season: &Season,
    units: &[Unit],
) -> Result<(), Memory>
    requires fits { All (UnitFits season.now) units.now }
    requires few { length units.now ≤ MOST_UNITS }
    ensures { OnOk result (out.new.items ≡ out.old.items ++ dates_line season.now units.now) }
{
    let movements = movement_total(alloc, season, units)?;
    put_tagged(alloc, out, b"DATES ", date_total(season, units))?;
    put_tagged(alloc, out, b" MOVEMENTS ", movements)?;
    put(out, b"\n")?;
    Ok(())
}

// Appends how many capacity lines there are, and how many windows.
fn put_caps(alloc: Global, out: &mut Vec<u8>, caps: u64, windows: u64) -> Result<(), Memory>
    ensures { OnOk result (out.new.items ≡ out.old.items ++ caps_line caps windows) }
{
    put_tagged(alloc, out, b"CAPS ", caps)?;
    put_tagged(alloc, out, b" WINDOWS ", windows)?;
    put(out, b"\n")?;
    Ok(())
}

// Appends the five lines of counts.
fn put_counts(alloc: Global, out: &mut Vec<u8>, submission: &Submission) -> Result<(), Memory>
    ensures { OnOk result (out.new.items ≡ out.old.items ++ season_counts submission.now) }
{
    let declaration = submission.declaration();
    let units = submission.units();
    let messages = submission.messages().items();
    let caps = declaration.rules.items();
    let windows = submission.windows().resources();
    put_season(out, declaration)?;
    put_messages(alloc, out, messages.len() as u64)?;
    put_units(alloc, out, units)?;
    put_dates(alloc, out, &declaration.season, units)?;
    put_caps(alloc, out, caps.len() as u64, u64::from(windows))?;
    Ok(())
}

/// What is said of a season: its counts, what rules out stage 1, and where all requests together
/// are above the declared limits.
pub(crate) fn inspection_text(alloc: Global, submission: &Submission) -> Result<Vec<u8>, Memory>
    ensures { IfOk result (λ text. text.items ≡ inspection_text submission.now) }
{
    let over = over_lines(alloc, submission)?;
    let demand = demand_lines(alloc, submission)?;
    let mut out = Vec::new(alloc);
    put_counts(alloc, &mut out, submission)?;
    put(&mut out, &over)?;
    put(&mut out, &demand)?;
    Ok(out)
}
