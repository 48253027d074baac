//! Periods beside one another: their dates, counted and tested, and what is left after a cut.

ghost use Rattle.std.specs.Prelude.{◌≡◌, ◌≢◌, ◌↔◌, ◌<◌, ◌≤◌, ◌-◌, [], length, true, Contains, IsTrue, Some};
ghost use Rattle.std.specs.List.{filter};
ghost use Rattle.season_days.specs.Seasons.{date_count, is_on, days_from, dates_of};
ghost use Rattle.season_days.specs.Periods.{SharesDate, HasAllDates, shares_date, has_all_dates, if_dated, cut_of, part_before, part_between, part_after};

use crate::day::{Cut, Day, Period};
use crate::season::{MOST_DATES, Season};

impl Season {
    /// How many dates a period has. Time for two weeks, whatever the period's length.
    pub fn count_dates(&self, period: Period) -> u32
        requires last { period.last.0 < date_count self.now }
        ensures count { result ≡ length (dates_of self.now period) }
        ensures few { result ≤ MOST_DATES }
    {
        // In whole weeks each weekday comes once a week, so the first week stands for all of them.
        let first = period.first.0;
        let end = period.last.0 + 1;
        if end <= first {
            return 0;
        }
        let weeks = (end - first) / 7;
        let week = self.count_days(period.days, first, first + 7);
        let rest = self.count_days(period.days, first + 7 * weeks, end);
        weeks * week + rest
    }

    /// How many days from one on and before another have a weekday of a set.
    fn count_days(&self, days: u8, first: u32, end: u32) -> u32
        ensures count { result
            ≡ length (filter (is_on self.now days) (days_from first (end - first))) }
        ensures few { result ≤ end - first }
    {
        let mut count = 0;
        for day in first..end {
            if self.is_on(days, Day(day)) {
                count += 1;
            }
        }
        count
    }

    /// Whether a period has a date. Time in proportion to its days.
    pub fn has_dates(&self, period: Period) -> bool
        ensures { IsTrue result ↔ (dates_of self.now period ≢ []) }
    {
        if period.last.0 < period.first.0 {
            return false;
        }
        for day in period.first.0..period.last.0 {
            if self.is_on(period.days, Day(day)) {
                return true;
            }
        }
        self.is_on(period.days, period.last)
    }

    /// Whether a day is a date of a period.
    pub fn has_date(&self, period: Period, day: Day) -> bool
        ensures { IsTrue result ↔ Contains (dates_of self.now period) day.0 }
    {
        if day.0 < period.first.0 || period.last.0 < day.0 {
            return false;
        }
        self.is_on(period.days, day)
    }

    /// Whether two periods have a date in common. Time in proportion to their common days.
    pub fn share_date(&self, one: Period, other: Period) -> bool
        ensures exact { IsTrue result ↔ SharesDate self.now one other }
        ensures value { result ≡ shares_date self.now one other }
    {
        self.has_dates(Period {
            first: Day(one.first.0.max(other.first.0)),
            last: Day(one.last.0.min(other.last.0)),
            days: one.days & other.days,
        })
    }

    /// Whether each date of the asked period is one of the held period. Time in proportion to the
    /// asked days.
    pub fn has_all_dates(&self, held: Period, asked: Period) -> bool
        ensures exact { IsTrue result ↔ HasAllDates self.now held asked }
        ensures value { result ≡ has_all_dates self.now held asked }
    {
        if asked.last.0 < asked.first.0 {
            return true;
        }
        for day in asked.first.0..asked.last.0 {
            if self.lacks(held, asked.days, Day(day)) {
                return false;
            }
        }
        !self.lacks(held, asked.days, asked.last)
    }

    /// Whether a day has a weekday of a set, and is no date of a period.
    fn lacks(&self, held: Period, days: u8, day: Day) -> bool
        ensures { IsTrue result ↔
            ((is_on self.now days day.0 ≡ true) × (Contains (dates_of self.now held) day.0 → ⊥)) }
    {
        self.is_on(days, day) && !self.has_date(held, day)
    }

    /// The held period without the dates of the asked one, in up to three parts. Time in proportion
    /// to the held days.
    pub fn cut(&self, held: Period, asked: Period) -> Cut
        ensures { result ≡ cut_of self.now held asked }
    {
        Cut {
            before: self.if_dated(part_before(held, asked)),
            between: self.if_dated(Some(part_between(held, asked))),
            after: self.if_dated(part_after(held, asked)),
        }
    }

    /// The part, if it has a date.
    fn if_dated(&self, part: Option<Period>) -> Option<Period>
        ensures { result ≡ if_dated self.now part }
    {
        match part {
            Some(period) if self.has_dates(period) => Some(period),
            _ => None,
        }
    }
}

/// The held days before the first asked one.
fn part_before(held: Period, asked: Period) -> Option<Period>
    ensures { result ≡ part_before held asked }
{
    if held.first.0 >= asked.first.0 {
        return None;
    }
    Some(Period {
        first: held.first,
        last: Day(held.last.0.min(asked.first.0 - 1)),
        days: held.days,
    })
}

/// The held days from the first asked one to the last, on the weekdays that are not asked.
fn part_between(held: Period, asked: Period) -> Period
    ensures { Some result ≡ part_between held asked }
{
    Period {
        first: Day(held.first.0.max(asked.first.0)),
        last: Day(held.last.0.min(asked.last.0)),
        days: held.days ^ (held.days & asked.days),
    }
}

/// The held days after the last asked one.
fn part_after(held: Period, asked: Period) -> Option<Period>
    ensures { result ≡ part_after held asked }
{
    if asked.last.0 >= held.last.0 {
        return None;
    }
    Some(Period {
        first: Day(held.first.0.max(asked.last.0 + 1)),
        last: held.last,
        days: held.days,
    })
}
