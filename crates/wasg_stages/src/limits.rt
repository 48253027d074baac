//! What the resources may still hold in a stage.

ghost use Rattle.std.specs.Prelude.{◌≡◌, ◌-◌, ◌<◌, ◌≤◌, ◌≤ℤ◌, ℕ, All, length, map, slice_index, slice_index_or, OnOk, IfOk, pos};
ghost use Rattle.season_days.specs.Seasons.{date_count};
ghost use Rattle.season_days.specs.declared.declaration.TheConstants.{HIGHEST_NIGHT_LIMIT, HIGHEST_SHARE};
ghost use Rattle.capacity_windows.specs.Windows.{capacity_of, declared_resources, window_limit, window_load};
ghost use Rattle.choice_problem.specs.declared.problems.TheConstants.{MOST_UNITS};
ghost use Rattle.choice_problem.specs.Strips.{strip_uses, part_uses, IsStripInRange, IsPartInRange};
ghost use Rattle.choice_problem.specs.Loops.{run_uses};
ghost use Rattle.series_model.specs.Units.{UnitFits};
ghost use Rattle.series_model.specs.Movements.{stop_load, movements_of};
ghost use Rattle.series_model.specs.Stages.{movements_once_given, movements_given, share_of, stage_limit};
ghost use Rattle.wasg_stages.specs.Steps.{LowersBy, AreLimitsOf, AreShares};
ghost use Rattle.series_model.specs.declared.state.UnitState.{UnitState as UnitStateValue};

use capacity_windows::Windows;
use choice_problem::{Part, Strip};
use scr_reader::Stop;
use season_days::{Declaration, Kind, MINUTES_OF_DAY, Period};
use series_model::laws::movement_loads;
use series_model::{Times, Unit, UnitState};
use slot_text::Memory;
use std::alloc::Global;

// One less than a limit, or 0.
fn one_less(limit: i64) -> i64
    ensures { (n : ℕ) → limit ≡ pos n → result ≡ pos (n - 1) }
{
    if limit > 0 { limit - 1 } else { limit }
}

// Takes one from each limit from one place to another, down to 0.
fn lower_run(limits: &mut [i64], start: usize, end: usize)
    requires ordered { start ≤ end }
    requires there { end ≤ length limits.old }
    ensures { LowersBy limits.old limits.new (λ r. run_uses start end r) }
{
    for at in start..end {
        limits[at] = one_less(limits[at]);
    }
}

// Takes the uses of a strip from the limits.
fn lower_strip(limits: &mut [i64], strip: &Strip)
    requires there { IsStripInRange (length limits.old) strip.now }
    ensures { LowersBy limits.old limits.new (λ r. strip_uses strip.now r) }
{
    for i in 0..strip.times {
        let (start, end) = strip.run(i);
        lower_run(limits, start as usize, end as usize);
    }
}

// Takes the uses of a part from the limits: one step a use.
fn lower_part(limits: &mut [i64], part: &Part)
    requires there { IsPartInRange (length limits.old) part.now }
    ensures { LowersBy limits.old limits.new (λ r. part_uses part.now r) }
{
    for strip in part.strips() {
        lower_strip(limits, strip);
    }
}

// Takes the movements of a stop at a minute, if the line has the stop.
fn lower_stop(
    alloc: Global,
    windows: &Windows,
    period: Period,
    kind: Kind,
    stop: Option<Stop>,
    minute: u32,
    limits: &mut [i64],
) -> Result<(), Memory>
    requires first { period.first.0 < date_count windows.now.season }
    requires last { period.last.0 < date_count windows.now.season }
    requires limits { length limits.old ≡ declared_resources windows.now }
    ensures { OnOk result
        (LowersBy limits.old limits.new (λ r. stop_load windows.now kind stop minute period r)) }
{
    match stop {
        Some(_) => {
            let part = windows.strips_of(
                alloc,
                kind,
                minute % MINUTES_OF_DAY,
                minute / MINUTES_OF_DAY,
                period,
            )?;
            lower_part(limits, &part);
            Ok(())
        }
        None => Ok(()),
    }
}

// Takes the movements of a line at times.
fn lower_times(
    alloc: Global,
    windows: &Windows,
    unit: &Unit,
    times: Times,
    limits: &mut [i64],
) -> Result<(), Memory>
    requires unit { UnitFits windows.now.season unit.now }
    requires limits { length limits.old ≡ declared_resources windows.now }
    ensures { OnOk result
        (LowersBy limits.old limits.new
        (λ r. window_load windows.now (movements_of windows.now.season unit.now times) r)) }
{
    match times {
        Times::At { arrival, departure } => {
            movement_loads();
            let line = unit.request;
            lower_stop(
                alloc,
                windows,
                line.period,
                Kind::Arr,
                line.arrival,
                arrival,
                limits,
            )?;
            lower_stop(
                alloc,
                windows,
                line.period,
                Kind::Dep,
                line.departure,
                departure,
                limits,
            )?;
            Ok(())
        }
        Times::Refused => Ok(()),
    }
}

// Takes the movements that a unit was given.
fn lower_given(
    alloc: Global,
    windows: &Windows,
    unit: &Unit,
    given: Option<Times>,
    limits: &mut [i64],
) -> Result<(), Memory>
    requires unit { UnitFits windows.now.season unit.now }
    requires limits { length limits.old ≡ declared_resources windows.now }
    ensures { OnOk result
        (LowersBy limits.old limits.new
        (λ r. window_load windows.now (movements_once_given windows.now.season unit.now given) r)) }
{
    match given {
        Some(times) => lower_times(alloc, windows, unit, times, limits),
        None => Ok(()),
    }
}

// Takes the movements that all units were given.
fn lower_all(
    alloc: Global,
    windows: &Windows,
    states: &[UnitState],
    limits: &mut [i64],
) -> Result<(), Memory>
    requires units { All (λ (state : UnitStateValue).
        UnitFits windows.now.season state.unit) states.now }
    requires limits { length limits.old ≡ declared_resources windows.now }
    ensures { OnOk result
        (LowersBy limits.old limits.new
        (λ r. window_load windows.now (movements_given windows.now.season states.now) r)) }
{
    for state in states {
        lower_given(alloc, windows, &state.unit, state.given, limits)?;
    }
    Ok(())
}

// The share of new entrants of what is left of a limit.
fn entrants_share(declaration: &Declaration, left: i64) -> u32
    requires share { declaration.now.share ≤ HIGHEST_SHARE }
    requires some { pos 0 ≤ℤ left }
    requires few { left ≤ℤ pos HIGHEST_NIGHT_LIMIT }
    ensures value { (n : ℕ) → left ≡ pos n → result ≡ share_of declaration.now.share n }
    ensures few { result ≤ HIGHEST_NIGHT_LIMIT }
{
    (left as u32 * declaration.share + 99) / 100
}

// Leaves of each limit the share of new entrants.
fn leave_shares(declaration: &Declaration, limits: &mut [i64])
    requires share { declaration.now.share ≤ HIGHEST_SHARE }
    requires limits { (limit : ℕ → ℕ) × AreLimitsOf limits.old limit }
    ensures { AreShares declaration.now.share limits.old limits.new (length limits.old) }
{
    for at in 0..limits.len() {
        let limit = entrants_share(declaration, limits[at]);
        limits[at] = i64::from(limit);
    }
}

// Makes the declared limits those of a stage.
fn lower_limits(
    alloc: Global,
    declaration: &Declaration,
    windows: &Windows,
    stage: u32,
    states: &[UnitState],
    limits: &mut [i64],
) -> Result<(), Memory>
    requires share { declaration.now.share ≤ HIGHEST_SHARE }
    requires windows { windows.now ≡ capacity_of declaration.now }
    requires units { All (λ (state : UnitStateValue).
        UnitFits windows.now.season state.unit) states.now }
    requires limits { length limits.old ≡ declared_resources windows.now }
    requires declared { AreLimitsOf limits.old (window_limit windows.now) }
    ensures { OnOk result (AreLimitsOf limits.new (stage_limit declaration.now stage states.now)) }
{
    lower_all(alloc, windows, states, limits)?;
    if stage != 3 {
        return Ok(());
    }
    leave_shares(declaration, limits);
    Ok(())
}

// The declared limits, as a problem takes them.
fn declared_limits(alloc: Global, windows: &Windows) -> Result<Vec<i64>, Memory>
    ensures count { IfOk result (λ limits. length limits.items ≡ declared_resources windows.now) }
    ensures each { IfOk result (λ limits. AreLimitsOf limits.items (window_limit windows.now)) }
{
    let declared = windows.limits(alloc)?;
    let limits = signed(alloc, &declared)?;
    Ok(limits)
}

// Numbers as signed ones.
fn signed(alloc: Global, numbers: &[u32]) -> Result<Vec<i64>, Memory>
    ensures { IfOk result (λ limits. limits.items ≡ map pos numbers.now) }
{
    let mut limits = Vec::with_capacity(alloc, numbers.len())?;
    for number in numbers {
        limits.push(i64::from(*number))?;
    }
    Ok(limits)
}

/// Limits that were given, as a problem takes them.
pub(crate) fn given_limits(alloc: Global, numbers: &[u32]) -> Result<Vec<i64>, Memory>
    requires low { All (λ n. n ≤ HIGHEST_NIGHT_LIMIT) numbers.now }
    ensures count { IfOk result (λ limits. length limits.items ≡ length numbers.now) }
    ensures each { IfOk result (λ limits.
        AreLimitsOf limits.items (λ r. slice_index numbers.now r)) }
{
    let limits = signed(alloc, numbers)?;
    Ok(limits)
}

/// The limits of a stage: of each resource its declared limit, less the movements that units were
/// given, and in stage 3 the share of new entrants of that. They are written over the declared
/// ones.
pub(crate) fn stage_limits(
    alloc: Global,
    declaration: &Declaration,
    windows: &Windows,
    stage: u32,
    states: &[UnitState],
) -> Result<Vec<i64>, Memory>
    requires share { declaration.now.share ≤ HIGHEST_SHARE }
    requires windows { windows.now ≡ capacity_of declaration.now }
    requires units { All (λ (state : UnitStateValue).
        UnitFits windows.now.season state.unit) states.now }
    requires few { length states.now ≤ MOST_UNITS }
    ensures count { IfOk result (λ limits. length limits.items ≡ declared_resources windows.now) }
    ensures each { IfOk result (λ limits. (r : ℕ) → r < declared_resources windows.now →
        slice_index_or limits.items r (pos 0)
        ≡ pos (stage_limit declaration.now stage states.now r)) }
    ensures few { IfOk result (λ limits. (r : ℕ) → r < declared_resources windows.now →
        stage_limit declaration.now stage states.now r ≤ HIGHEST_NIGHT_LIMIT) }
{
    let mut limits = declared_limits(alloc, windows)?;
    lower_limits(alloc, declaration, windows, stage, states, &mut limits)?;
    Ok(limits)
}
