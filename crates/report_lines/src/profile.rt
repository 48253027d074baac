//! The greatest loads of windows over the days of a season.

ghost use Rattle.std.specs.Prelude.{◌≡◌, ◌++◌, ◌+◌, ◌*◌, ◌<◌, ◌≤◌, ◌^◌, ℕ, if◌then◌else◌, length, filter, sum_by, OnOk, Some, slice_get, slice_index};
ghost use Rattle.std.specs.List.{range_with_len};
ghost use Rattle.season_days.specs.Seasons.{date_count, is_on};
ghost use Rattle.season_days.specs.declared.declaration.TheConstants.{MOST_WINDOWS};
ghost use Rattle.season_days.specs.Capacity.{capacity_of, declared_resources, start_of, starts_of, windows_of};
ghost use Rattle.capacity_windows.specs.Windows.{first_of};
ghost use Rattle.report_lines.specs.Peaks.{profile_line, rule_profile, quota_profile, profile_lines};
ghost use Rattle.report_lines.specs.Private.{HasLoads, IsPeak, with_peak, peak_text, night_text};

use crate::appends::{put, put_tagged, put_time};
use capacity_windows::Windows;
use scr_reader::print_day;
use season_days::{Day, Declaration, Rule, Season};
use slot_text::Memory;
use std::alloc::Global;

// A load, and the first day that has it.
#[derive(Clone, Copy, Debug, PartialEq, Eq)]
pub(crate) struct Peak {
    day: u32,
    load: u32,
}

// The greatest load with one more day, where that is one of the weekdays.
fn with_day(found: Option<Peak>, is_one: bool, day: u32, load: u32) -> Option<Peak>
    ensures { result ≡ (if is_one then with_peak found day load else found) }
{
    if !is_one {
        return found;
    }
    match found {
        Some(best) if best.load >= load => Some(best),
        _ => Some(Peak { day, load }),
    }
}

// The greatest load of the windows of a start on days of these weekdays, where this is the window
// of the first day.
fn peak_of(
    season: &Season,
    loads: &[u32],
    weekdays: u8,
    days: u32,
    first: u32,
    starts: u32,
) -> Option<Peak>
    requires few { length loads.now ≤ MOST_WINDOWS }
    requires there { (day : ℕ) → day < days → first + day * starts < length loads.now }
    ensures { (load : ℕ → ℕ) →
        ((day : ℕ) → day < days → slice_index loads.now (first + day * starts) ≡ load day) →
        IsPeak load (filter (is_on season.now weekdays) (range_with_len 0 days)) result }
{
    let mut found = None;
    for day in 0..days {
        let load = loads[(first + day * starts) as usize];
        found = with_day(found, season.is_on(weekdays, Day(day)), day, load);
    }
    found
}

// Appends the line of a capacity line and a start, where its greatest load is not 0.
fn put_peak(
    alloc: Global,
    out: &mut Vec<u8>,
    declaration: &Declaration,
    rule: u32,
    of: Rule,
    start: u32,
    peak: Peak,
) -> Result<(), Memory>
    requires day { peak.day < date_count declaration.now.season }
    requires start { start_of declaration.now.step of start < 2 ^ 32 }
    ensures { OnOk result (out.new.items ≡ out.old.items
        ++ peak_text declaration.now.season declaration.now.step (rule + 1) of start peak) }
{
    if peak.load == 0 {
        return Ok(());
    }
    put_tagged(alloc, out, b"PROFILE ", u64::from(rule) + 1)?;
    put(out, b" ")?;
    put_time(out, of.from + start * declaration.step)?;
    put_tagged(alloc, out, b" LOAD ", u64::from(peak.load))?;
    put_tagged(alloc, out, b" LIMIT ", u64::from(of.limit))?;
    put(out, b" DATE ")?;
    print_day(alloc, out, &declaration.season, Day(peak.day))?;
    put(out, b"\n")?;
    Ok(())
}

// The same for a start of the capacity line, the first of whose windows has this number.
fn put_start(
    alloc: Global,
    out: &mut Vec<u8>,
    declaration: &Declaration,
    windows: &Windows,
    loads: &[u32],
    rule: u32,
    of: Rule,
    first: u32,
    start: u32,
) -> Result<(), Memory>
    requires windows { windows.now ≡ capacity_of declaration.now }
    requires loads { length loads.now ≡ declared_resources windows.now }
    requires few { length loads.now ≤ MOST_WINDOWS }
    requires rule { rule < length windows.now.rules }
    requires of { slice_get windows.now.rules rule ≡ Some of }
    requires first { first ≡ first_of windows.now rule }
    requires start { start < starts_of windows.now.step of }
    ensures { OnOk result ((load : ℕ → ℕ) → HasLoads windows.now loads.now load →
        out.new.items ≡ out.old.items
        ++ profile_line windows.now load (rule + 1) of first start) }
{
    let season = &declaration.season;
    let days = windows.days();
    let starts = windows.starts(rule);
    match peak_of(season, loads, of.days, days, first + start, starts) {
        Some(peak) => {
            put_peak(alloc, out, declaration, rule, of, start, peak)?;
            Ok(())
        }
        None => Ok(()),
    }
}

// Appends the lines of a capacity line, the first of whose windows has this number.
fn put_rule(
    alloc: Global,
    out: &mut Vec<u8>,
    declaration: &Declaration,
    windows: &Windows,
    loads: &[u32],
    rule: u32,
    of: Rule,
    first: u32,
) -> Result<(), Memory>
    requires windows { windows.now ≡ capacity_of declaration.now }
    requires loads { length loads.now ≡ declared_resources windows.now }
    requires few { length loads.now ≤ MOST_WINDOWS }
    requires rule { rule < length windows.now.rules }
    requires of { slice_get windows.now.rules rule ≡ Some of }
    requires first { first ≡ first_of windows.now rule }
    ensures { OnOk result ((load : ℕ → ℕ) → HasLoads windows.now loads.now load →
        out.new.items ≡ out.old.items ++ rule_profile windows.now load (rule + 1) of first) }
{
    for start in 0..windows.starts(rule) {
        put_start(
            alloc,
            out,
            declaration,
            windows,
            loads,
            rule,
            of,
            first,
            start,
        )?;
    }
    Ok(())
}

// Appends the line of the night quota.
fn put_night(alloc: Global, out: &mut Vec<u8>, load: u32, limit: u32) -> Result<(), Memory>
    ensures { OnOk result (out.new.items ≡ out.old.items ++ night_text load limit) }
{
    put_tagged(alloc, out, b"PROFILE NIGHT LOAD ", u64::from(load))?;
    put_tagged(alloc, out, b" LIMIT ", u64::from(limit))?;
    put(out, b"\n")?;
    Ok(())
}

// Appends the line of the night quota, if there is one.
fn put_quota(
    alloc: Global,
    out: &mut Vec<u8>,
    declaration: &Declaration,
    windows: &Windows,
    loads: &[u32],
) -> Result<(), Memory>
    requires windows { windows.now ≡ capacity_of declaration.now }
    requires loads { length loads.now ≡ declared_resources windows.now }
    ensures { OnOk result ((load : ℕ → ℕ) → HasLoads windows.now loads.now load →
        out.new.items ≡ out.old.items ++ quota_profile load windows.now.night
        (sum_by (windows_of windows.now) windows.now.rules)) }
{
    let Some(night) = declaration.night else {
        return Ok(());
    };
    let Some(quota) = windows.night() else {
        return Ok(());
    };
    put_night(alloc, out, loads[quota as usize], night.limit)?;
    Ok(())
}

/// For each start of each capacity line appends the load of the line's fullest day, where it is not
/// 0, and the first such day; and last the load of the night quota: one step a resource.
pub fn put_profile(
    alloc: Global,
    out: &mut Vec<u8>,
    declaration: &Declaration,
    windows: &Windows,
    loads: &[u32],
) -> Result<(), Memory>
    requires windows { windows.now ≡ capacity_of declaration.now }
    requires loads { length loads.now ≡ declared_resources windows.now }
    ensures { OnOk result ((load : ℕ → ℕ) →
        ((r : ℕ) → r < declared_resources windows.now → slice_index loads.now r ≡ load r) →
        out.new.items ≡ out.old.items ++ profile_lines windows.now load) }
{
    let _resources = windows.resources();
    let rules = declaration.rules.items();
    let mut first = 0;
    for rule in 0..windows.lines() {
        let of = rules[rule as usize];
        put_rule(alloc, out, declaration, windows, loads, rule, of, first)?;
        first += windows.days() * windows.starts(rule);
    }
    put_quota(alloc, out, declaration, windows, loads)?;
    Ok(())
}
