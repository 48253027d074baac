//! Which resources an alternative puts above their limits, where the counts have the others and the
//! alternative itself.

ghost use Rattle.std.specs.Prelude.{◌≡◌, ◌*◌, ◌<◌, ◌≤◌, ◌^◌, length, map, count_by, false, IsTrue, pos, int_lt, ◌&&◌};
ghost use Rattle.std.specs.List.{list_any};
ghost use Rattle.std.specs.Option.{ForSome};
ghost use Rattle.capacity_windows.specs.Windows.{capacity_of, declared_resources, resource_at, holds, IsCapacity};
ghost use Rattle.season_days.specs.declared.declaration.TheConstants.{MINUTES_OF_DAY};
ghost use Rattle.choice_problem.specs.Problems.{unit_count, alt_count, alt_uses, part_count, resource_count, chooser_at, named_uses};
ghost use Rattle.choice_problem.specs.Strips.{strip_uses, part_uses, IsStripInRange, IsPartInRange};
ghost use Rattle.season_days.specs.Seasons.{date_count, is_on, dates_of};
ghost use Rattle.scr_reader.specs.Printed.{LineFits};
ghost use Rattle.series_model.specs.Movements.{listed, movement_after, stop_on, movements_on};
ghost use Rattle.season_report.specs.Reasons.{barred_dates, is_held_by};
ghost use Rattle.season_report.specs.Private.{is_above_at, resources_above, IsLowest, IsBarred, IsClearOf, IsClearOfQuota, TimesAreNear, lower_of};

use capacity_windows::laws::held_windows;
use capacity_windows::{Movement, Windows};
use choice_problem::{Part, Problem, Strip};
use scr_reader::{Line, Stop};
use season_days::laws::lengths;
use season_days::{Day, Declaration, Kind, MINUTES_OF_DAY, Season};
use series_model::Times;
use window_counts::Counts;

// Whether a count is above a limit.
fn is_more(count: u32, limit: i64) -> bool
    ensures { result ≡ int_lt limit (pos count) }
{
    i64::from(count) > limit
}

// Whether the count of a resource is above its limit.
fn is_above(counts: &Counts, limits: &[i64], resource: u32) -> bool
    requires limits { length limits.now ≡ length counts.now }
    requires there { resource < length counts.now }
    ensures { result ≡ is_above_at counts.now limits.now resource }
{
    is_more(counts.count(resource), limits[resource as usize])
}

// The lowest resource of a run that is above its limit.
fn lowest_in_run(counts: &Counts, limits: &[i64], start: u64, end: u64) -> Option<u32>
    requires limits { length limits.now ≡ length counts.now }
    requires few { length counts.now < 2 ^ 32 }
    requires there { end ≤ length counts.now }
    ensures { IsLowest counts.now limits.now (λ r. (start ≤ r) × (r < end)) result }
{
    for at in start..end {
        if is_above(counts, limits, at as u32) {
            return Some(at as u32);
        }
    }
    None
}

// The lower of two, where there are.
fn lower(one: Option<u32>, other: Option<u32>) -> Option<u32>
    ensures { result ≡ lower_of one other }
{
    match (one, other) {
        (Some(one), Some(other)) => Some(one.min(other)),
        (Some(one), None) => Some(one),
        (None, other) => other,
    }
}

// The lowest resource of a strip that is above its limit.
fn lowest_in_strip(counts: &Counts, limits: &[i64], strip: &Strip) -> Option<u32>
    requires limits { length limits.now ≡ length counts.now }
    requires few { length counts.now < 2 ^ 32 }
    requires there { IsStripInRange (length counts.now) strip.now }
    ensures { IsLowest counts.now limits.now (λ r. 0 < strip_uses strip.now r) result }
{
    let mut lowest = None;
    for i in 0..strip.times {
        let (start, end) = strip.run(i);
        lowest = lower(lowest, lowest_in_run(counts, limits, start, end));
    }
    lowest
}

// The lowest resource of a part that is above its limit.
fn lowest_in_part(counts: &Counts, limits: &[i64], part: &Part) -> Option<u32>
    requires limits { length limits.now ≡ length counts.now }
    requires few { length counts.now < 2 ^ 32 }
    requires there { IsPartInRange (length counts.now) part.now }
    ensures { IsLowest counts.now limits.now (λ r. 0 < part_uses part.now r) result }
{
    let mut lowest = None;
    for strip in part.strips() {
        lowest = lower(lowest, lowest_in_strip(counts, limits, strip));
    }
    lowest
}

// The same of the part that an alternative may name.
fn lowest_named(counts: &Counts, problem: &Problem, unit: u32, part: Option<u32>) -> Option<u32>
    requires count { length counts.now ≡ resource_count problem.now }
    requires unit { unit < unit_count problem.now }
    requires part { ForSome part (λ k. k < part_count problem.now unit) }
    ensures { IsLowest counts.now (map pos problem.now.limits)
        (λ r. 0 < named_uses (chooser_at problem.now unit) part r) result }
{
    match part {
        Some(n) => lowest_in_part(counts, problem.limits(), problem.part(unit, n)),
        None => None,
    }
}

/// The lowest resource that an alternative uses and that is above its limit: one step a use.
pub(crate) fn lowest_passed(problem: &Problem, unit: u32, alt: u32, counts: &Counts) -> Option<u32>
    requires count { length counts.now ≡ resource_count problem.now }
    requires unit { unit < unit_count problem.now }
    requires alt { alt < alt_count problem.now unit }
    ensures { IsLowest counts.now (map pos problem.now.limits)
        (λ r. 0 < alt_uses problem.now unit alt r) result }
{
    let named = problem.alt(unit, alt);
    lower(
        lowest_named(counts, problem, unit, named.one),
        lowest_named(counts, problem, unit, named.two),
    )
}

// ---- dates

// Whether a window of a capacity line that begins so many days before the movement's, and holds the
// movement, is above its limit.
fn is_barred_by_run(
    windows: &Windows,
    rule: u32,
    ago: u32,
    movement: Movement,
    counts: &Counts,
    limits: &[i64],
) -> bool
    requires count { length counts.now ≡ declared_resources windows.now }
    requires limits { length limits.now ≡ length counts.now }
    requires few { length counts.now < 2 ^ 32 }
    requires rule { rule < length windows.now.rules }
    requires ago { ago < 2 }
    requires minute { movement.minute < MINUTES_OF_DAY }
    ensures some { IsTrue result → IsBarred windows.now movement counts.now limits.now }
    ensures none { result ≡ false →
        IsClearOf windows.now rule ago movement counts.now limits.now }
{
    let (start, end) = windows.held_run(rule, ago, movement);
    let lowest = lowest_in_run(counts, limits, u64::from(start), u64::from(end));
    lowest.is_some()
}

// Whether a resource holds the movement and is above its limit.
fn is_barred_at(
    windows: &Windows,
    resource: u32,
    movement: Movement,
    counts: &Counts,
    limits: &[i64],
) -> bool
    requires limits { length limits.now ≡ length counts.now }
    requires there { resource < length counts.now }
    ensures { result ≡ holds windows.now (resource_at windows.now resource) movement
        && is_above_at counts.now limits.now resource }
{
    if !windows.is_held(resource, &movement) {
        return false;
    }
    is_above(counts, limits, resource)
}

// The same of the night quota, if there is one.
fn is_barred_by_quota(
    windows: &Windows,
    movement: Movement,
    counts: &Counts,
    limits: &[i64],
) -> bool
    requires count { length counts.now ≡ declared_resources windows.now }
    requires limits { length limits.now ≡ length counts.now }
    ensures some { IsTrue result → IsBarred windows.now movement counts.now limits.now }
    ensures none { result ≡ false →
        IsClearOfQuota windows.now movement counts.now limits.now }
{
    match windows.night() {
        Some(quota) => is_barred_at(windows, quota, movement, counts, limits),
        None => false,
    }
}

// Whether a resource that is above its limit holds the movement.
fn is_barred_movement(
    windows: &Windows,
    movement: Movement,
    counts: &Counts,
    limits: &[i64],
) -> bool
    requires keeps { IsCapacity windows.now }
    requires count { length counts.now ≡ declared_resources windows.now }
    requires limits { length limits.now ≡ length counts.now }
    requires minute { movement.minute < MINUTES_OF_DAY }
    ensures { result
        ≡ is_held_by windows.now (resources_above counts.now limits.now) movement }
{
    held_windows();
    for rule in 0..windows.lines() {
        if is_barred_by_run(windows, rule, 0, movement, counts, limits) {
            return true;
        }
        if is_barred_by_run(windows, rule, 1, movement, counts, limits) {
            return true;
        }
    }
    is_barred_by_quota(windows, movement, counts, limits)
}

// The same of the movement so many minutes after the beginning of a date, where it is listed.
fn is_barred_minute(
    windows: &Windows,
    kind: Kind,
    minute: u32,
    date: u32,
    counts: &Counts,
    limits: &[i64],
) -> bool
    requires keeps { IsCapacity windows.now }
    requires count { length counts.now ≡ declared_resources windows.now }
    requires limits { length limits.now ≡ length counts.now }
    requires date { date < date_count windows.now.season }
    requires minute { minute < 10 * MINUTES_OF_DAY }
    ensures { result
        ≡ list_any (is_held_by windows.now (resources_above counts.now limits.now))
        (listed windows.now.season (movement_after kind date minute)) }
{
    let days = windows.days();
    let movement = Movement {
        kind,
        day: date + minute / MINUTES_OF_DAY,
        minute: minute % MINUTES_OF_DAY,
    };
    if movement.day >= days {
        return false;
    }
    is_barred_movement(windows, movement, counts, limits)
}

// The same of the movement of a stop on a date, where the line has the stop.
fn is_barred_stop(
    windows: &Windows,
    kind: Kind,
    stop: Option<Stop>,
    minute: u32,
    date: u32,
    counts: &Counts,
    limits: &[i64],
) -> bool
    requires keeps { IsCapacity windows.now }
    requires count { length counts.now ≡ declared_resources windows.now }
    requires limits { length limits.now ≡ length counts.now }
    requires date { date < date_count windows.now.season }
    requires minute { minute < 10 * MINUTES_OF_DAY }
    ensures { result
        ≡ list_any (is_held_by windows.now (resources_above counts.now limits.now))
        (stop_on windows.now.season kind stop minute date) }
{
    match stop {
        Some(_) => is_barred_minute(windows, kind, minute, date, counts, limits),
        None => false,
    }
}

// The same of one of the movements of a line on a date.
fn is_barred_on(
    windows: &Windows,
    line: &Line,
    arrival: u32,
    departure: u32,
    date: u32,
    counts: &Counts,
    limits: &[i64],
) -> bool
    requires keeps { IsCapacity windows.now }
    requires count { length counts.now ≡ declared_resources windows.now }
    requires limits { length limits.now ≡ length counts.now }
    requires date { date < date_count windows.now.season }
    requires arrival { arrival < MINUTES_OF_DAY }
    requires departure { departure < 10 * MINUTES_OF_DAY }
    ensures { result
        ≡ list_any (is_held_by windows.now (resources_above counts.now limits.now))
        (movements_on windows.now.season line.now arrival departure date) }
{
    let coming = line.arrival;
    if is_barred_stop(windows, Kind::Arr, coming, arrival, date, counts, limits) {
        return true;
    }
    let going = line.departure;
    is_barred_stop(windows, Kind::Dep, going, departure, date, counts, limits)
}

// Whether a date of a line's period is one of its weekdays, and the same is so on it.
fn is_barred_date(
    season: &Season,
    windows: &Windows,
    line: &Line,
    arrival: u32,
    departure: u32,
    date: u32,
    counts: &Counts,
    limits: &[i64],
) -> bool
    requires keeps { IsCapacity windows.now }
    requires count { length counts.now ≡ declared_resources windows.now }
    requires limits { length limits.now ≡ length counts.now }
    requires date { date < date_count windows.now.season }
    requires arrival { arrival < MINUTES_OF_DAY }
    requires departure { departure < 10 * MINUTES_OF_DAY }
    ensures { result ≡ is_on season.now line.now.period.days date
        && list_any (is_held_by windows.now (resources_above counts.now limits.now))
        (movements_on windows.now.season line.now arrival departure date) }
{
    if !season.is_on(line.period.days, Day(date)) {
        return false;
    }
    is_barred_on(windows, line, arrival, departure, date, counts, limits)
}

// On how many dates of a line it is so.
fn count_barred(
    season: &Season,
    windows: &Windows,
    line: &Line,
    arrival: u32,
    departure: u32,
    counts: &Counts,
    limits: &[i64],
) -> u32
    requires season { windows.now.season ≡ season.now }
    requires keeps { IsCapacity windows.now }
    requires count { length counts.now ≡ declared_resources windows.now }
    requires limits { length limits.now ≡ length counts.now }
    requires line { LineFits season.now line.now }
    requires arrival { arrival < MINUTES_OF_DAY }
    requires departure { departure < 10 * MINUTES_OF_DAY }
    ensures { result ≡ count_by
        (λ date. list_any (is_held_by windows.now (resources_above counts.now limits.now))
        (movements_on windows.now.season line.now arrival departure date))
        (dates_of season.now line.now.period) }
{
    lengths();
    let end = line.period.last.0 + 1;
    let mut count = 0;
    for date in line.period.first.0..end {
        let barred = is_barred_date(
            season, windows, line, arrival, departure, date, counts, limits,
        );
        count += u32::from(barred);
    }
    count
}

/// On how many dates of a line one of its movements is held by a resource that is above its limit:
/// one step for each date, each capacity line, and each window that holds the movement.
pub(crate) fn barred_dates(
    declaration: &Declaration,
    windows: &Windows,
    line: &Line,
    times: Times,
    counts: &Counts,
    limits: &[i64],
) -> u32
    requires windows { windows.now ≡ capacity_of declaration.now }
    requires keeps { IsCapacity windows.now }
    requires count { length counts.now ≡ declared_resources windows.now }
    requires limits { length limits.now ≡ length counts.now }
    requires line { LineFits declaration.now.season line.now }
    requires times { TimesAreNear times }
    ensures { result ≡ barred_dates declaration.now line.now times
        (resources_above counts.now limits.now) }
{
    match times {
        Times::Refused => 0,
        Times::At { arrival, departure } => {
            let season = &declaration.season;
            count_barred(season, windows, line, arrival, departure, counts, limits)
        }
    }
}
