//! The windows that the movements of a stop use, in strips. A window may reach into the next day,
//! so each capacity line has two bands of windows that may hold a movement: those of the movement's
//! day and those of the day before. A band takes one strip where the line and the dates of the stop
//! are daily, and else at most one for each weekday.

ghost use Rattle.std.specs.Prelude.{◌≡◌, ◌+◌, ◌*◌, ◌<◌, ◌≤◌, ℕ, true, IfOk, OnOk, All, [], length, sum_by};
ghost use Rattle.choice_problem.specs.Strips.{part_uses, IsPartInRange};
ghost use Rattle.season_days.specs.Seasons.{date_count};
ghost use Rattle.season_days.specs.declared.declaration.Kind.{Kind};
ghost use Rattle.season_days.specs.declared.season.TheConstants.{MOST_DATES};
ghost use Rattle.season_days.specs.declared.declaration.TheConstants.{MINUTES_OF_DAY, MOST_WINDOWS};
ghost use Rattle.capacity_windows.specs.Windows.{IsRule, IsHeldRun, windows_of, resource_at, holds, window_load, stop_movements, declared_resources, band_strips, rule_strips, most_strips};
ghost use Rattle.capacity_windows.specs.Bands.{Adds, IsBand, AreStopDates, dated_movements, starts_until, band_of, band_uses, weekday_uses, rule_load, rest_load, listed_dates, option_uses, first_date, end_date, IsWide, IsOptionWide};

use crate::band::Band;
use crate::counting::{is_at_night, is_of_kind};
use crate::movement::Movement;
use crate::stop_dates::StopDates;
use crate::windows::Windows;
use choice_problem::{Part, Strip};
use season_days::laws::weekday_sets;
use season_days::{Day, Kind, MINUTES_OF_DAY, Period, Rule};
use slot_text::Memory;
use std::alloc::Global;

// The set of all weekdays.
const EVERY_DAY: u8 = 0x7f;

impl Windows {
    /// The resources that hold the movements of one stop, each as often as it holds one: the
    /// movements are of this kind, on this minute of the day (below 1,440), `later` days after each
    /// date of the period, whose first and last day are days of the season. Movements after the
    /// season's last date are held by none; a period whose first day is after its last has no
    /// dates.
    ///
    /// The part uses one resource at most 217 times, so an alternative of two such parts at most
    /// 434 times, and a window at most once, since it is at most a day long: the night quota alone
    /// can be used more often. A capacity line that holds the kind takes one strip for its windows
    /// of the movement's day and one for those of the day before where all weekdays are in its set
    /// and in the period's, and else up to seven for each; any other line takes none, and the night
    /// quota one. So a daily stop under 16 daily lines takes at most 33 strips, however many dates
    /// it has, and any part at most 897. The time is one step a strip or weekday, and for the quota
    /// one step a date. The one fault is want of memory.
    pub fn strips_of(
        &self,
        alloc: Global,
        kind: Kind,
        minute: u32,
        later: u32,
        period: Period,
    ) -> Result<Part, Memory>
        requires minute { minute < MINUTES_OF_DAY }
        requires first { period.first.0 < date_count self.now.season }
        requires last { period.last.0 < date_count self.now.season }
        ensures uses { IfOk result (λ part. (r : ℕ) →
            part_uses part r
            ≡ window_load self.now (stop_movements self.now kind minute later period) r) }
        ensures range { IfOk result (λ part. IsPartInRange (declared_resources self.now) part) }
        ensures few_uses { IfOk result
            (λ part. (r : ℕ) → part_uses part r ≤ MOST_DATES) }
        ensures once { IfOk result (λ part. (r : ℕ) →
            r < sum_by (windows_of self.now) self.now.rules → part_uses part r ≤ 1) }
        ensures few { IfOk result (λ part. length part ≤ most_strips self.now kind period) }
        ensures few_ever { IfOk result (λ part. length part ≤ 14 * length self.now.rules + 1) }
    {
        let stop = StopDates {
            kind,
            minute,
            later,
            period,
        };
        let mut strips = Vec::new(alloc);
        let mut first = 0;
        for rule in self.rules() {
            self.add_rule(&mut strips, rule, first, &stop)?;
            first += self.windows_of(rule);
        }
        self.add_night(&mut strips, first, &stop)?;
        Ok(Part::new(strips))
    }

    // Adds the strips of a capacity line's windows, the first of which has a number.
    fn add_rule(
        &self,
        strips: &mut Vec<Strip>,
        rule: &Rule,
        first: u32,
        stop: &StopDates,
    ) -> Result<(), Memory>
        requires wide { All IsWide strips.old.items }
        requires step { 0 < self.now.step }
        requires rule { IsRule rule.now }
        requires room { first + windows_of self.now rule.now ≤ MOST_WINDOWS }
        requires stop { AreStopDates self.now.season stop.now }
        ensures uses { OnOk result
            (Adds strips.old.items strips.new.items
            (λ r. rule_load self.now rule.now first (dated_movements self.now stop.now) r)) }
        ensures wide { OnOk result (All IsWide strips.new.items) }
        ensures few { OnOk result (length strips.new.items ≤ length strips.old.items
            + rule_strips stop.now.kind stop.now.period rule.now) }
    {
        if !is_of_kind(rule.kind, stop.kind) {
            return Ok(());
        }
        let same_day = self.band_of(rule, first, stop.minute, 0);
        self.add_band(strips, &same_day, stop)?;
        let day_before = self.band_of(rule, first, stop.minute, 1);
        self.add_band(strips, &day_before, stop)?;
        Ok(())
    }

    // A capacity line's windows, on the day some days before a movement's, that hold its minute.
    fn band_of(&self, rule: &Rule, first: u32, minute: u32, ago: u32) -> Band
        requires step { 0 < self.now.step }
        requires rule { IsRule rule.now }
        requires minute { minute < MINUTES_OF_DAY }
        requires ago { ago < 2 }
        ensures { result ≡ band_of self.now.step rule.now first minute ago }
    {
        let starts = self.starts_of(rule);
        let minute = minute + MINUTES_OF_DAY * ago;
        Band {
            days: rule.days,
            first,
            starts,
            low: starts.min(starts_until(rule.from + rule.length, self.step(), minute)),
            high: starts.min(starts_until(rule.from, self.step(), minute)),
            ago,
        }
    }

    /// The windows of a capacity line that begin on a movement's day (`ago` 0) or on the day before
    /// (1) and hold the movement, as a run of resources: the first, and the one after the last,
    /// which is the first where there is none. A window is at most a day long, so no other window
    /// of the line holds the movement. Two divisions; no memory.
    pub fn held_run(&self, rule: u32, ago: u32, movement: Movement) -> (u32, u32)
        requires rule { rule < length self.now.rules }
        requires minute { movement.minute < MINUTES_OF_DAY }
        requires ago { ago < 2 }
        ensures ordered { result.0 ≤ result.1 }
        ensures there { result.1 ≤ declared_resources self.now }
        ensures run { IsHeldRun self.now rule ago movement result.0 result.1 }
        ensures held { (r : ℕ) → result.0 ≤ r → r < result.1 →
            holds self.now (resource_at self.now r) movement ≡ true }
    {
        let of = self.rules()[rule as usize];
        if !self.is_listed(movement.day)
            || movement.day < ago
            || !is_of_kind(of.kind, movement.kind)
        {
            return (0, 0);
        }
        let day = movement.day - ago;
        if !self.is_on(of.days, Day(day)) {
            return (0, 0);
        }
        let first = self.first_of(rule) + day * self.starts_of(&of);
        let band = self.band_of(&of, first, movement.minute, ago);
        if band.low >= band.high {
            return (0, 0);
        }
        (first + band.low, first + band.high)
    }

    // Adds the strips of a band: one for all days, or one for each weekday.
    fn add_band(&self, strips: &mut Vec<Strip>, band: &Band, stop: &StopDates) -> Result<(), Memory>
        requires wide { All IsWide strips.old.items }
        requires band { IsBand self.now.season band.now }
        requires stop { AreStopDates self.now.season stop.now }
        ensures uses { OnOk result
            (Adds strips.old.items strips.new.items
            (λ r. band_uses self.now.season stop.now.period stop.now.later band.now r)) }
        ensures wide { OnOk result (All IsWide strips.new.items) }
        ensures few { OnOk result (length strips.new.items ≤ length strips.old.items
            + band_strips band.now.days stop.now.period.days) }
    {
        if band.low >= band.high {
            return Ok(());
        }
        if band.days == EVERY_DAY && stop.period.days == EVERY_DAY {
            if let Some(strip) = self.daily_strip(band, stop) {
                strips.push(strip)?;
            }
            return Ok(());
        }
        for weekday in 0..7 {
            if let Some(strip) = self.weekday_strip(band, stop, weekday) {
                strips.push(strip)?;
            }
        }
        Ok(())
    }

    // The first date on which a movement can be in a band.
    fn first_date(band: &Band, stop: &StopDates) -> u32
        ensures { result ≡ first_date stop.now.period stop.now.later band.now }
    {
        stop.period.first.0.max(band.ago.saturating_sub(stop.later))
    }

    // The end of the dates on which a movement is listed.
    fn end_date(&self, stop: &StopDates) -> u32
        requires { stop.now.period.last.0 < date_count self.now.season }
        ensures exact { result ≡ end_date self.now.season stop.now.period stop.now.later }
        ensures few { date_count self.now.season ≤ MOST_DATES }
    {
        let days = self.days();
        (stop.period.last.0 + 1).min(days.saturating_sub(stop.later))
    }

    // The strip of a band and a stop of every day.
    fn daily_strip(&self, band: &Band, stop: &StopDates) -> Option<Strip>
        requires dates { stop.now.period.days ≡ 127 }
        requires days { band.now.days ≡ 127 }
        requires band { IsBand self.now.season band.now }
        requires stop { AreStopDates self.now.season stop.now }
        requires some { band.now.low < band.now.high }
        ensures uses { (r : ℕ) → band_uses self.now.season stop.now.period stop.now.later band.now r
            ≡ option_uses result r }
        ensures wide { IsOptionWide result }
    {
        weekday_sets();
        let first = Windows::first_date(band, stop);
        let end = self.end_date(stop);
        if first >= end {
            return None;
        }
        let day = first + stop.later - band.ago;
        Some(Strip {
            first: band.first + day * band.starts + band.low,
            width: band.high - band.low,
            gap: band.starts,
            times: end - first,
        })
    }

    // The strip of the dates of one weekday, where 0 is the weekday of the season's first date.
    fn weekday_strip(&self, band: &Band, stop: &StopDates, weekday: u32) -> Option<Strip>
        requires weekday { weekday < 7 }
        requires band { IsBand self.now.season band.now }
        requires stop { AreStopDates self.now.season stop.now }
        requires some { band.now.low < band.now.high }
        ensures uses { (r : ℕ) →
            weekday_uses self.now.season stop.now.period stop.now.later band.now (weekday + 1) r
            ≡ weekday_uses self.now.season stop.now.period stop.now.later band.now weekday r
            + option_uses result r }
        ensures wide { IsOptionWide result }
    {
        weekday_sets();
        let low = Windows::first_date(band, stop);
        let end = self.end_date(stop);
        let first = low + (weekday + 7 - low % 7) % 7;
        if first >= end {
            return None;
        }
        if !self.is_on(stop.period.days, Day(first)) {
            return None;
        }
        let day = first + stop.later - band.ago;
        if !self.is_on(band.days, Day(day)) {
            return None;
        }
        Some(Strip {
            first: band.first + day * band.starts + band.low,
            width: band.high - band.low,
            gap: 7 * band.starts,
            times: (end + 6 - first) / 7,
        })
    }

    // Adds the strip of the night quota, which has a number.
    fn add_night(&self, strips: &mut Vec<Strip>, first: u32, stop: &StopDates) -> Result<(), Memory>
        requires wide { All IsWide strips.old.items }
        requires stop { AreStopDates self.now.season stop.now }
        ensures uses { OnOk result
            (Adds strips.old.items strips.new.items
            (λ r. rest_load self.now [] first (dated_movements self.now stop.now) r)) }
        ensures wide { OnOk result (All IsWide strips.new.items) }
        ensures few { OnOk result (length strips.new.items ≤ length strips.old.items + 1) }
    {
        let Some(night) = self.quota() else {
            return Ok(());
        };
        if !is_at_night(&night, stop.minute) {
            return Ok(());
        }
        strips.push(Strip {
            first,
            width: 1,
            gap: 0,
            times: self.listed_dates(stop.period, stop.later),
        })?;
        Ok(())
    }

    // On how many dates of a period a movement some days later is listed.
    fn listed_dates(&self, period: Period, later: u32) -> u32
        requires { period.last.0 < date_count self.now.season }
        ensures { result ≡ listed_dates self.now.season period later }
    {
        let days = self.days();
        let end = (period.last.0 + 1).min(days.saturating_sub(later));
        let mut count = 0;
        for day in period.first.0..end {
            if self.is_on(period.days, Day(day)) {
                count += 1;
            }
        }
        count
    }
}

// How many starts there are up to a minute.
fn starts_until(first: u32, step: u32, minute: u32) -> u32
    requires step { 0 < step }
    requires minute { minute < 2880 }
    ensures value { result ≡ starts_until first step minute }
    ensures bound { result ≤ 2880 }
{
    if minute < first {
        return 0;
    }
    (minute - first) / step + 1
}
