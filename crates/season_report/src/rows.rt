//! The lines of reasons of one unit of a stage.

ghost use Rattle.std.specs.Prelude.{◌≡◌, ◌++◌, ◌+◌, ◌<◌, ◌≤◌, ◌^◌, ℕ, List, [], All, length, false, OnOk, IfOk, IfSome, Some, slice_get, slice_index, slice_index_or};
ghost use Rattle.choice_problem.specs.Problems.{unit_count, alt_count, alt_cost, alt_uses, limit_of, resource_count};
ghost use Rattle.choice_problem.specs.Counts.{GrowsBy, HasUses};
ghost use Rattle.window_counts.specs.Placed.{KeepsLimits};
ghost use Rattle.scr_reader.specs.Printed.{LineFits};
ghost use Rattle.series_model.specs.Units.{UnitFits};
ghost use Rattle.series_model.specs.Options.{options_of};
ghost use Rattle.series_model.specs.Stages.{stage_units, IsFeasibleChoice};
ghost use Rattle.series_model.specs.declared.times.Times.TheVariants.{Refused};
ghost use Rattle.season_report.specs.Rows.{are_barred_alike, are_near, joins, one_row, with_dates, with_next, span_words, barred_words, unit_reasons};
ghost use Rattle.season_report.specs.Private.{IsSettled, IsToldStage, told_stage, IsPlaced, AreAll, TimesAreNear, found_reason, found_cheaper, found_at, found_row, found_rows, found_reasons, next_row, ended_row, row_after, rows_ended, rows_on, IsUnderWay};

use crate::barred::{Barred, Cheaper, Row};
use crate::loads::{add_alt, take_alt};
use crate::passed::{barred_dates, lowest_passed};
use crate::told::Tried;
use report_lines::{put, put_resource, put_tagged, put_times};
use scr_reader::Line;
use series_model::laws::option_bounds;
use series_model::{Times, Unit, UnitState, options_of};
use slot_text::Memory;
use std::alloc::Global;
use window_counts::Counts;

// ---- neighbours

// Whether both fit, or both are barred by the same resource, which they use as often.
fn are_barred_alike(one: Option<Barred>, other: Option<Barred>) -> bool
    ensures { result ≡ are_barred_alike one other }
{
    match (one, other) {
        (None, None) => true,
        (Some(one), Some(other)) => one.resource == other.resource && one.uses == other.uses,
        _ => false,
    }
}

// Whether both are times, in a turnaround with the same arrival.
fn are_near(line: &Line, one: Times, other: Times) -> bool
    ensures { result ≡ are_near line.now one other }
{
    match (one, other) {
        (Times::At { arrival, .. }, Times::At { arrival: next, .. }) => {
            !(line.arrival.is_some() && line.departure.is_some()) || arrival == next
        }
        _ => false,
    }
}

fn joins(line: &Line, row: &Row, next: &Cheaper) -> bool
    ensures { result ≡ joins line.now row.now next.now }
{
    are_near(line, row.last, next.times) && are_barred_alike(row.barred, next.barred)
}

fn one_row(next: &Cheaper) -> Row
    ensures { result ≡ one_row next.now }
{
    Row {
        first: next.times,
        last: next.times,
        count: 1,
        cost: next.cost,
        barred: next.barred,
    }
}

// With the fewer dates.
fn with_dates(one: Option<Barred>, other: Option<Barred>) -> Option<Barred>
    ensures { result ≡ with_dates one other }
{
    match (one, other) {
        (Some(one), Some(other)) => Some(Barred {
            dates: one.dates.min(other.dates),
            ..one
        }),
        (one, _) => one,
    }
}

fn with_next(row: &Row, next: &Cheaper) -> Row
    requires { row.now.count < 2 ^ 31 }
    ensures { result ≡ with_next row.now next.now }
{
    Row {
        first: row.first,
        last: next.times,
        count: row.count + 1,
        cost: row.cost.min(next.cost),
        barred: with_dates(row.barred, next.barred),
    }
}

// ---- text

// Appends the stage, the first and the last times, how many they are, and the least cost.
fn put_span(
    alloc: Global,
    out: &mut Vec<u8>,
    stage: u32,
    line: &Line,
    row: &Row,
) -> Result<(), Memory>
    ensures { OnOk result
        (out.new.items ≡ out.old.items ++ span_words stage line.now row.now) }
{
    put_tagged(alloc, out, b"", u64::from(stage))?;
    put(out, b" ")?;
    put_times(out, line, row.first)?;
    put(out, b" TO ")?;
    put_times(out, line, row.last)?;
    put_tagged(alloc, out, b" COUNT ", u64::from(row.count))?;
    put_tagged(alloc, out, b" COST ", row.cost)
}

// Appends what bars the alternatives of a line. The counts have the other units.
fn put_barred(
    alloc: Global,
    out: &mut Vec<u8>,
    tried: Tried<'_>,
    others: &Counts,
    barred: &Barred,
) -> Result<(), Memory>
    requires settled { IsSettled tried }
    requires count { length others.now ≡ resource_count tried.problem.now }
    requires there { barred.now.resource < resource_count tried.problem.now }
    ensures { OnOk result (out.new.items ≡ out.old.items
        ++ barred_words tried.entry.windows.now (limit_of tried.entry.problem.now)
        (slice_index tried.entry.earlier.now) (slice_index others.now) barred.now) }
{
    let resource = barred.resource;
    put_tagged(alloc, out, b" DATES ", u64::from(barred.dates))?;
    put(out, b" BY ")?;
    put_resource(alloc, out, tried.declaration, tried.windows, resource)?;
    let limit = tried.problem.limit(resource);
    put_tagged(alloc, out, b" LIMIT ", limit as u64)?;
    let earlier = tried.earlier[resource as usize];
    put_tagged(alloc, out, b" EARLIER ", u64::from(earlier))?;
    put_tagged(alloc, out, b" OTHERS ", u64::from(others.count(resource)))?;
    put_tagged(alloc, out, b" USES ", u64::from(barred.uses))
}

// Appends a line.
fn put_row(
    alloc: Global,
    out: &mut Vec<u8>,
    tried: Tried<'_>,
    others: &Counts,
    line: &Line,
    row: &Row,
) -> Result<(), Memory>
    requires settled { IsSettled tried }
    requires count { length others.now ≡ resource_count tried.problem.now }
    requires there { IfSome row.now.barred
        (λ barred. barred.resource < resource_count tried.problem.now) }
    ensures { OnOk result
        (out.new.items ≡ out.old.items ++ found_row tried.entry others.now line.now row.now) }
{
    match row.barred {
        None => {
            put(out, b"FITS ")?;
            put_span(alloc, out, tried.stage, line, row)?;
            put(out, b"\n")
        }
        Some(barred) => {
            put(out, b"NOT ")?;
            put_span(alloc, out, tried.stage, line, row)?;
            put_barred(alloc, out, tried, others, &barred)?;
            put(out, b"\n")
        }
    }
}

// ---- the alternatives of a unit

// What bars an alternative, where the counts have the other units and the alternative itself.
fn barred_by(
    tried: Tried<'_>,
    place: u32,
    line: &Line,
    times: Times,
    alt: u32,
    counts: &Counts,
) -> Option<Barred>
    requires settled { IsSettled tried }
    requires place { place < unit_count tried.problem.now }
    requires alt { alt < alt_count tried.problem.now place }
    requires line { LineFits tried.declaration.now.season line.now }
    requires times { TimesAreNear times }
    requires count { length counts.now ≡ resource_count tried.problem.now }
    ensures { (others : List ℕ) → KeepsLimits tried.entry.problem.now others →
        GrowsBy others counts.now (λ r. alt_uses tried.entry.problem.now place alt r) →
        result ≡ found_reason tried.entry place line.now times alt others }
{
    let problem = tried.problem;
    let limits = problem.limits();
    match lowest_passed(problem, place, alt, counts) {
        Some(resource) => {
            let uses = problem.uses(place, alt, resource);
            let dates = barred_dates(
                tried.declaration,
                tried.windows,
                line,
                times,
                counts,
                limits,
            );
            Some(Barred {
                resource,
                uses,
                dates,
            })
        }
        None => None,
    }
}

// What bars an alternative beside the others, of which the counts are, and are so again after it.
fn bar_of(
    tried: Tried<'_>,
    place: u32,
    line: &Line,
    times: Times,
    alt: u32,
    others: &mut Counts,
) -> Option<Barred>
    requires settled { IsSettled tried }
    requires place { place < unit_count tried.problem.now }
    requires alt { alt < alt_count tried.problem.now place }
    requires line { LineFits tried.declaration.now.season line.now }
    requires times { TimesAreNear times }
    requires within { KeepsLimits tried.problem.now others.old }
    ensures reason { result ≡ found_reason tried.entry place line.now times alt others.old }
    ensures others { others.new ≡ others.old }
{
    add_alt(tried.problem, place, alt, others);
    let barred = barred_by(tried, place, line, times, alt, others);
    take_alt(tried.problem, place, alt, others);
    barred
}

// An alternative with its reason.
fn cheaper_of(
    tried: Tried<'_>,
    place: u32,
    line: &Line,
    times: Times,
    alt: u32,
    others: &mut Counts,
) -> Cheaper
    requires settled { IsSettled tried }
    requires place { place < unit_count tried.problem.now }
    requires alt { alt < alt_count tried.problem.now place }
    requires line { LineFits tried.declaration.now.season line.now }
    requires times { TimesAreNear times }
    requires within { KeepsLimits tried.problem.now others.old }
    ensures cheaper { result ≡ found_cheaper tried.entry place line.now times alt others.old }
    ensures there { IfSome result.barred
        (λ barred. barred.resource < resource_count tried.entry.problem.now) }
    ensures others { others.new ≡ others.old }
{
    let cost = tried.problem.alt_cost(place, alt);
    let barred = bar_of(tried, place, line, times, alt, others);
    Cheaper {
        times,
        cost,
        barred,
    }
}

// The line under way with one alternative more; where that begins another, the line is appended.
fn next_row(
    alloc: Global,
    out: &mut Vec<u8>,
    tried: Tried<'_>,
    others: &Counts,
    line: &Line,
    row: Option<Row>,
    next: &Cheaper,
) -> Result<Row, Memory>
    requires settled { IsSettled tried }
    requires count { length others.now ≡ resource_count tried.problem.now }
    requires few { IfSome row (λ row. row.count < 2 ^ 31) }
    requires there { IfSome row (λ row. IfSome row.barred
        (λ barred. barred.resource < resource_count tried.problem.now)) }
    ensures row { IfOk result (λ after. after ≡ next_row line.now row next.now) }
    ensures text { OnOk result (out.new.items ≡ out.old.items
        ++ found_rows tried.entry others.now line.now (ended_row line.now row next.now)) }
{
    match row {
        None => Ok(one_row(next)),
        Some(row) => {
            if joins(line, &row, next) {
                return Ok(with_next(&row, next));
            }
            put_row(alloc, out, tried, others, line, &row)?;
            Ok(one_row(next))
        }
    }
}

// The line under way after one alternative, which is told where it costs less.
fn after_alt(
    alloc: Global,
    out: &mut Vec<u8>,
    tried: Tried<'_>,
    place: u32,
    line: &Line,
    times: Times,
    alt: u32,
    cost: u64,
    row: Option<Row>,
    others: &mut Counts,
) -> Result<Option<Row>, Memory>
    requires settled { IsSettled tried }
    requires place { place < unit_count tried.problem.now }
    requires alt { alt < alt_count tried.problem.now place }
    requires line { LineFits tried.declaration.now.season line.now }
    requires times { TimesAreNear times }
    requires within { KeepsLimits tried.problem.now others.old }
    requires few { alt < 2 ^ 31 }
    requires row { IfSome row (IsUnderWay (resource_count tried.problem.now) alt) }
    ensures row { IfOk result (λ after. after
        ≡ row_after line.now row (found_at tried.entry place line.now cost others.old alt times)) }
    ensures text { OnOk result (out.new.items ≡ out.old.items
        ++ found_rows tried.entry others.old line.now
        (rows_ended line.now row (found_at tried.entry place line.now cost others.old alt times))) }
    ensures under_way { IfOk result
        (λ after. IfSome after (IsUnderWay (resource_count tried.entry.problem.now) (alt + 1))) }
    ensures others { others.new ≡ others.old }
{
    let own = tried.problem.alt_cost(place, alt);
    if own >= cost {
        return Ok(row);
    }
    let next = cheaper_of(tried, place, line, times, alt, others);
    let after = next_row(alloc, out, tried, others, line, row, &next)?;
    Ok(Some(after))
}

// Appends the line under way, if there is one.
fn put_last(
    alloc: Global,
    out: &mut Vec<u8>,
    tried: Tried<'_>,
    others: &Counts,
    line: &Line,
    row: Option<Row>,
) -> Result<(), Memory>
    requires settled { IsSettled tried }
    requires count { length others.now ≡ resource_count tried.problem.now }
    requires there { IfSome row (λ row. IfSome row.barred
        (λ barred. barred.resource < resource_count tried.problem.now)) }
    ensures { OnOk result (out.new.items ≡ out.old.items
        ++ found_rows tried.entry others.now line.now (rows_on line.now row [])) }
{
    match row {
        Some(row) => {
            put_row(alloc, out, tried, others, line, &row)?;
            Ok(())
        }
        None => Ok(()),
    }
}

// Appends the lines of those of some alternatives, all of a unit, that cost less.
fn put_options(
    alloc: Global,
    out: &mut Vec<u8>,
    tried: Tried<'_>,
    place: u32,
    line: &Line,
    cost: u64,
    options: &[Times],
    others: &mut Counts,
) -> Result<(), Memory>
    requires settled { IsSettled tried }
    requires place { place < unit_count tried.problem.now }
    requires count { length options.now ≡ alt_count tried.problem.now place }
    requires few { length options.now < 2 ^ 31 }
    requires line { LineFits tried.declaration.now.season line.now }
    requires times { All TimesAreNear options.now }
    requires within { KeepsLimits tried.problem.now others.old }
    ensures text { OnOk result (out.new.items ≡ out.old.items
        ++ found_reasons tried.entry place line.now cost others.old options.now) }
    ensures others { others.new ≡ others.old }
{
    let mut row = None;
    for i in 0..options.len() {
        row = after_alt(
            alloc, out, tried, place, line, options[i], i as u32, cost, row, others,
        )?;
    }
    put_last(alloc, out, tried, others, line, row)?;
    Ok(())
}

// Appends the lines of all alternatives of a unit that cost less.
fn put_cheaper(
    alloc: Global,
    out: &mut Vec<u8>,
    tried: Tried<'_>,
    place: u32,
    unit: &Unit,
    cost: u64,
    others: &mut Counts,
) -> Result<(), Memory>
    requires settled { IsSettled tried }
    requires placed { IsPlaced tried place unit.now }
    requires within { KeepsLimits tried.problem.now others.old }
    ensures text { OnOk result (out.new.items ≡ out.old.items
        ++ found_reasons tried.entry place unit.now.request cost others.old
        (options_of tried.entry.declaration.now unit.now)) }
    ensures others { others.new ≡ others.old }
{
    option_bounds();
    let options = options_of(alloc, unit, tried.declaration)?;
    put_options(
        alloc,
        out,
        tried,
        place,
        &unit.request,
        cost,
        &options,
        others,
    )?;
    Ok(())
}

// Whether an alternative of a unit costs less.
fn has_cheaper(tried: Tried<'_>, place: u32, cost: u64) -> bool
    requires { place < unit_count tried.problem.now }
    ensures { result ≡ false → (alt : ℕ) → alt < alt_count tried.entry.problem.now place →
        cost ≤ alt_cost tried.entry.problem.now place alt }
{
    for alt in 0..tried.problem.alts(place) {
        let own = tried.problem.alt_cost(place, alt);
        if own < cost {
            return true;
        }
    }
    false
}

// Appends the lines of the alternatives that cost less than the one taken, of which the counts are
// without, and are so again after it.
fn put_found(
    alloc: Global,
    out: &mut Vec<u8>,
    tried: Tried<'_>,
    place: u32,
    unit: &Unit,
    taken: u32,
    counts: &mut Counts,
) -> Result<(), Memory>
    requires settled { IsSettled tried }
    requires placed { IsPlaced tried place unit.now }
    requires taken { taken < alt_count tried.problem.now place }
    requires within { KeepsLimits tried.problem.now counts.old }
    requires added { HasUses counts.old (λ r. alt_uses tried.problem.now place taken r) }
    ensures text { OnOk result ((others : List ℕ) → length others ≡ length counts.old →
        GrowsBy others counts.old (λ r. alt_uses tried.entry.problem.now place taken r) →
        out.new.items ≡ out.old.items
        ++ found_reasons tried.entry place unit.now.request
        (alt_cost tried.entry.problem.now place taken)
        others (options_of tried.entry.declaration.now unit.now)) }
    ensures counts { OnOk result (counts.new ≡ counts.old) }
{
    let cost = tried.problem.alt_cost(place, taken);
    if !has_cheaper(tried, place, cost) {
        return Ok(());
    }
    take_alt(tried.problem, place, taken, counts);
    put_cheaper(alloc, out, tried, place, unit, cost, counts)?;
    add_alt(tried.problem, place, taken, counts);
    Ok(())
}

/// Appends the lines of one unit of a stage, which took its alternative of the choice. The counts
/// are those of all units, and are so again after it. Four steps for each use of an alternative
/// that costs less.
pub(crate) fn put_unit_reasons(
    alloc: Global,
    out: &mut Vec<u8>,
    tried: Tried<'_>,
    states: &[UnitState],
    choice: &[u32],
    place: u32,
    unit: &Unit,
    counts: &mut Counts,
) -> Result<(), Memory>
    requires told { IsToldStage tried states.now }
    requires fits { UnitFits tried.declaration.now.season unit.now }
    requires at { slice_get (stage_units tried.stage states.now) place ≡ Some unit.now }
    requires choice { IsFeasibleChoice tried.declaration.now tried.stage states.now choice.now }
    requires all { AreAll
        (told_stage tried states.now choice.now) counts.old }
    ensures text { OnOk result (out.new.items ≡ out.old.items ++ unit_reasons
        (told_stage tried.entry states.now choice.now) place unit.now
        (slice_index_or (options_of tried.entry.declaration.now unit.now)
        (slice_index choice.now place) Refused)) }
    ensures counts { OnOk result (counts.new ≡ counts.old) }
{
    put_found(
        alloc,
        out,
        tried,
        place,
        unit,
        choice[place as usize],
        counts,
    )?;
    Ok(())
}
