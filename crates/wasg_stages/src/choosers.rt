//! A unit of a submission as a unit of a problem.

ghost use Rattle.std.specs.Prelude.{◌≡◌, ◌+◌, ◌*◌, ◌<◌, ◌≤◌, ◌^◌, ℕ, [], length, All, IfOk, OnOk, Option, Some, None};
ghost use Rattle.std.specs.Option.{ForSome};
ghost use Rattle.season_days.specs.Seasons.{date_count};
ghost use Rattle.season_days.specs.declared.declaration.Kind.TheVariants.{Arr, Dep};
ghost use Rattle.season_days.specs.Capacity.{IsDeclaration};
ghost use Rattle.capacity_windows.specs.Windows.{Capacity, capacity_of, declared_resources};
ghost use Rattle.choice_problem.specs.Problems.{ChooserView, named_uses, ArePartsInRange};
ghost use Rattle.choice_problem.specs.Allowed.{IsNamedAlt};
ghost use Rattle.series_model.specs.Units.{UnitFits};
ghost use Rattle.series_model.specs.Options.{options_of, TimesFit};
ghost use Rattle.series_model.specs.Displacement.{displacement_of};
ghost use Rattle.series_model.specs.Movements.{stop_load};
ghost use Rattle.wasg_stages.specs.StageProblems.{IsAltOf, IsChooserOf};
ghost use Rattle.wasg_stages.specs.Parts.{IsKnown, AreKnown, AreParts, Grows, IsTable, AreAlts};

use crate::parts::{Minutes, part_of};
use capacity_windows::Windows;
use choice_problem::{Alt, Chooser, Part, few_uses};
use scr_reader::Stop;
use season_days::{Declaration, Kind, Period};
use series_model::laws::{movement_loads, option_bounds};
use series_model::{Times, Unit, displacement, options_of};
use slot_text::Memory;
use std::alloc::Global;

// The part of a stop at a minute, if the line has the stop.
fn stop_part(
    alloc: Global,
    windows: &Windows,
    period: Period,
    kind: Kind,
    stop: Option<Stop>,
    minute: u32,
    minutes: &mut Minutes,
    parts: &mut Vec<Part>,
) -> Result<Option<u32>, Memory>
    requires first { period.first.0 < date_count windows.now.season }
    requires last { period.last.0 < date_count windows.now.season }
    requires few { length parts.old.items + 1 < 2 ^ 32 }
    requires known { AreKnown windows.now period kind parts.old.items minutes.old }
    requires parts { AreParts windows.now parts.old.items }
    ensures named { IfOk result (λ part. ForSome part (λ k. k < length parts.new.items)) }
    ensures uses { IfOk result (λ part. (r : ℕ) →
        named_uses (record { parts = parts.new.items; alts = [] }) part r
        ≡ stop_load windows.now kind stop minute period r) }
    ensures known { OnOk result (AreKnown windows.now period kind parts.new.items minutes.new) }
    ensures parts { OnOk result (AreParts windows.now parts.new.items) }
    ensures grows { OnOk result (Grows parts.old.items parts.new.items 1) }
{
    match stop {
        Some(_) => Ok(Some(part_of(alloc, windows, period, kind, minute, minutes, parts)?)),
        None => Ok(None),
    }
}

// One alternative.
fn alt_of(
    alloc: Global,
    windows: &Windows,
    declaration: &Declaration,
    unit: &Unit,
    times: Times,
    arrivals: &mut Minutes,
    departures: &mut Minutes,
    parts: &mut Vec<Part>,
) -> Result<Alt, Memory>
    requires windows { windows.now ≡ capacity_of declaration.now }
    requires unit { UnitFits declaration.now.season unit.now }
    requires cost { displacement_of declaration.now unit.now times < 2 ^ 24 }
    requires few { length parts.old.items + 2 < 2 ^ 32 }
    requires table { IsTable declaration.now unit.now.request.period
        arrivals.old departures.old parts.old.items }
    ensures alt { IfOk result
        (λ alt. IsAltOf declaration.now unit.now
        (record { parts = parts.new.items; alts = [] }) times alt) }
    ensures named { IfOk result (λ alt. IsNamedAlt parts.new.items alt) }
    ensures table { OnOk result
        (IsTable declaration.now unit.now.request.period
        arrivals.new departures.new parts.new.items) }
    ensures grows { OnOk result (Grows parts.old.items parts.new.items 2) }
{
    let cost = displacement(unit, times, declaration);
    match times {
        Times::Refused => Ok(Alt {
            cost,
            one: None,
            two: None,
        }),
        Times::At { arrival, departure } => {
            movement_loads();
            let line = unit.request;
            let one = stop_part(
                alloc,
                windows,
                line.period,
                Kind::Arr,
                line.arrival,
                arrival,
                arrivals,
                parts,
            )?;
            let two = stop_part(
                alloc,
                windows,
                line.period,
                Kind::Dep,
                line.departure,
                departure,
                departures,
                parts,
            )?;
            Ok(Alt { cost, one, two })
        }
    }
}

/// The alternatives of a unit, with a part for each minute at which its arrival or its departure
/// may be.
pub(crate) fn chooser_of(
    alloc: Global,
    windows: &Windows,
    declaration: &Declaration,
    unit: &Unit,
) -> Result<Chooser, Memory>
    requires windows { windows.now ≡ capacity_of declaration.now }
    requires keeps { IsDeclaration declaration.now }
    requires unit { UnitFits declaration.now.season unit.now }
    ensures chooser { IfOk result (λ m. IsChooserOf declaration.now unit.now m) }
    ensures range { IfOk result
        (λ m. ArePartsInRange (declared_resources (capacity_of declaration.now)) m) }
{
    option_bounds();
    few_uses();
    let options = options_of(alloc, unit, declaration)?;
    let mut arrivals = Minutes::of_date(alloc, 0)?;
    let mut departures = Minutes::of_date(alloc, unit.request.nights)?;
    let mut parts = Vec::new(alloc);
    let mut alts = Vec::new(alloc);
    for times in &options {
        let alt = alt_of(
            alloc,
            windows,
            declaration,
            unit,
            *times,
            &mut arrivals,
            &mut departures,
            &mut parts,
        )?;
        alts.push(alt)?;
    }
    Ok(Chooser::new(parts, alts))
}
