//! Requests against the declared capacity, before any allotment.

ghost use Rattle.std.specs.Prelude.{◌≡◌, ◌++◌, ◌<◌, ◌≤◌, ℕ, All, length, slice_index, IfOk, OnOk};
ghost use Rattle.season_days.specs.Seasons.{date_count};
ghost use Rattle.season_days.specs.declared.season.TheConstants.{MOST_DATES};
ghost use Rattle.capacity_windows.specs.Windows.{capacity_of, declared_resources};
ghost use Rattle.choice_problem.specs.Counts.{GrowsBy, HasRoom};
ghost use Rattle.choice_problem.specs.declared.problems.TheConstants.{MOST_UNITS, MOST_USES};
ghost use Rattle.series_model.specs.Units.{UnitFits};
ghost use Rattle.series_model.specs.Movements.{stop_load};
ghost use Rattle.series_model.specs.Stages.{first_states, AreStates};
ghost use Rattle.report_lines.specs.Peaks.{over_lines, demand_lines, AreEarlier};
ghost use Rattle.report_lines.specs.Private.{line_load, lines_load};
ghost use Rattle.window_counts.specs.Placed.{AreZero};
ghost use Rattle.wasg_stages.specs.StageProblems.{IsStageProblem};

use crate::excess::ExcessLists;
use crate::least::least_loads;
use capacity_windows::Windows;
use choice_problem::Problem;
use scr_reader::Stop;
use season_days::{Kind, MINUTES_OF_DAY, Period};
use series_model::laws::movement_loads;
use series_model::{Submission, Times, Unit, UnitState, line_times, states_of};
use slot_text::Memory;
use std::alloc::Global;
use wasg_stages::problem_after;

// The limits of a problem, one for each resource.
fn limits_of(alloc: Global, problem: &Problem) -> Result<Vec<u32>, Memory>
    ensures { IfOk result (λ limits. limits.items ≡ problem.now.limits) }
{
    let resources = problem.resources();
    let mut limits = Vec::with_capacity(alloc, resources as usize)?;
    for resource in 0..resources {
        limits.push(problem.limit(resource) as u32)?;
    }
    Ok(limits)
}

/// Appends the windows that rule out all allotments of a stage, whose problem this is,
/// after earlier stages gave so much of each resource: for each capacity line and start the first
/// day on which even the least load is above the limit by most. The time is that of the least loads
/// of all units, and one step a resource.
pub fn put_over(
    alloc: Global,
    out: &mut Vec<u8>,
    submission: &Submission,
    stage: u32,
    states: &[UnitState],
    problem: &Problem,
    given: &[u32],
) -> Result<(), Memory>
    requires states { AreStates submission.now states.now }
    requires problem { IsStageProblem submission.now.declaration stage states.now problem.now }
    requires count { length given.now
        ≡ declared_resources (capacity_of submission.now.declaration) }
    requires earlier { AreEarlier submission.now.declaration states.now given.now }
    ensures { OnOk result (out.new.items ≡ out.old.items
        ++ over_lines submission.now.declaration stage states.now) }
{
    let least = least_loads(alloc, problem)?;
    let limits = limits_of(alloc, problem)?;
    let excess = ExcessLists {
        limits: &limits,
        loads: &least,
        earlier: Some(given),
    };
    excess.put_lines(alloc, out, submission.declaration(), submission.windows())?;
    Ok(())
}

/// The windows, and the night quota, on which the historic series alone are above the declared
/// limits, with the first day on which they are so by most: one line for each capacity line and
/// start. There is one exactly where stage 1 has no allotment.
pub fn over_lines(alloc: Global, submission: &Submission) -> Result<Vec<u8>, Memory>
    ensures { IfOk result (λ text. text.items
        ≡ over_lines submission.now.declaration 1 (first_states submission.now.units)) }
{
    let states = states_of(alloc, submission)?;
    let problem = problem_after(alloc, submission, 1, &states)?;
    let none = vec![in alloc; 0; problem.resources() as usize]?;
    let mut out = Vec::new(alloc);
    put_over(alloc, &mut out, submission, 1, &states, &problem, &none)?;
    Ok(out)
}

// Adds the movements of a stop at a minute, if the line has the stop.
fn add_stop(
    alloc: Global,
    windows: &Windows,
    period: Period,
    kind: Kind,
    stop: Option<Stop>,
    minute: u32,
    loads: &mut [u32],
) -> Result<(), Memory>
    requires first { period.first.0 < date_count windows.now.season }
    requires last { period.last.0 < date_count windows.now.season }
    requires count { length loads.old ≡ declared_resources windows.now }
    requires room { HasRoom loads.old (λ _. MOST_DATES) }
    ensures added { OnOk result
        (GrowsBy loads.old loads.new (stop_load windows.now kind stop minute period)) }
    ensures few { OnOk result
        ((r : ℕ) → stop_load windows.now kind stop minute period r ≤ MOST_DATES) }
{
    match stop {
        Some(_) => {
            let part = windows.strips_of(
                alloc,
                kind,
                minute % MINUTES_OF_DAY,
                minute / MINUTES_OF_DAY,
                period,
            )?;
            part.add_uses(loads);
            Ok(())
        }
        None => Ok(()),
    }
}

// Adds the movements of a unit at the requested times.
fn add_requested(
    alloc: Global,
    windows: &Windows,
    unit: &Unit,
    loads: &mut [u32],
) -> Result<(), Memory>
    requires unit { UnitFits windows.now.season unit.now }
    requires count { length loads.old ≡ declared_resources windows.now }
    requires room { HasRoom loads.old (λ _. MOST_USES) }
    ensures added { OnOk result
        (GrowsBy loads.old loads.new (line_load windows.now unit.now.request)) }
    ensures few { OnOk result ((r : ℕ) → line_load windows.now unit.now.request r ≤ MOST_USES) }
{
    movement_loads();
    let line = unit.request;
    match line_times(&line) {
        Times::At { arrival, departure } => {
            add_stop(
                alloc,
                windows,
                line.period,
                Kind::Arr,
                line.arrival,
                arrival,
                loads,
            )?;
            add_stop(
                alloc,
                windows,
                line.period,
                Kind::Dep,
                line.departure,
                departure,
                loads,
            )?;
            Ok(())
        }
        Times::Refused => Ok(()),
    }
}

// Adds the movements of units at the requested times.
fn add_all(
    alloc: Global,
    windows: &Windows,
    units: &[Unit],
    loads: &mut [u32],
) -> Result<(), Memory>
    requires units { All (UnitFits windows.now.season) units.now }
    requires few { length units.now ≤ MOST_UNITS }
    requires count { length loads.old ≡ declared_resources windows.now }
    requires zeros { AreZero loads.old }
    ensures { OnOk result ((r : ℕ) → r < declared_resources windows.now →
        slice_index loads.new r ≡ lines_load windows.now units.now r) }
{
    for unit in units {
        add_requested(alloc, windows, unit, loads)?;
    }
    Ok(())
}

// The load of each resource at the requested times of units.
fn requested_loads(alloc: Global, windows: &Windows, units: &[Unit]) -> Result<Vec<u32>, Memory>
    requires units { All (UnitFits windows.now.season) units.now }
    requires few { length units.now ≤ MOST_UNITS }
    ensures count { IfOk result
        (λ loads. length loads.items ≡ declared_resources windows.now) }
    ensures each { IfOk result (λ loads. (r : ℕ) → r < declared_resources windows.now →
        slice_index loads.items r ≡ lines_load windows.now units.now r) }
{
    let mut loads = vec![in alloc; 0; windows.resources() as usize]?;
    add_all(alloc, windows, units, &mut loads)?;
    Ok(loads)
}

/// The windows, and the night quota, on which all requests together are above the declared limits,
/// with the first day on which they are so by most: one line for each capacity line and start.
pub fn demand_lines(alloc: Global, submission: &Submission) -> Result<Vec<u8>, Memory>
    ensures { IfOk result (λ text. text.items
        ≡ demand_lines submission.now.declaration submission.now.units) }
{
    let windows = submission.windows();
    let limits = windows.limits(alloc)?;
    let loads = requested_loads(alloc, windows, submission.units())?;
    let excess = ExcessLists {
        limits: &limits,
        loads: &loads,
        earlier: None,
    };
    let mut out = Vec::new(alloc);
    excess.put_lines(alloc, &mut out, submission.declaration(), windows)?;
    Ok(out)
}
