//! The days that months and days of a month name, the dates of days, and the dates of a period.

ghost use Rattle.std.specs.Prelude.{◌≡◌, ◌≢◌, ◌↔◌, ◌<◌, map, [], ℕ, Ok, IfOk, IfErr, IsErrOf, Some, IfSome, IfNone, ◌+ℤ◌, pos};
ghost use Rattle.season_days.specs.Seasons.{first_number, date_count, date_at, is_on, dates_of, IsDatesFault, NamesDate, number_named, IsDayNamed, IsOutside, IsDayOfFault};
ghost use Rattle.jiff_core.specs.Date.{epoch_day};

use crate::day::{Day, DayFault, Period};
use crate::season::Season;
use jiff_core::civil::Date;
use std::alloc::Global;

impl Season {
    /// The day of the season that a month (1 to 12) and a day of the month name. In a winter season
    /// the months July to December are those of the first year and January to June those of the
    /// second.
    ///
    /// `NoSuchDate`: that year has no such date. `OutsideSeason`: it has, before the season's first
    /// date or after its last.
    pub fn day_of(&self, month: u8, day: u8) -> Result<Day, DayFault>
        ensures found { IfOk result (λ found. IsDayNamed self.now month day found.0) }
        ensures only { (found : ℕ) → IsDayNamed self.now month day found →
            result ≡ Ok (record { 0 = found }) }
        ensures no_such_date { IsErrOf result DayFault.NoSuchDate ↔
            ¬ (NamesDate self.now month day) }
        ensures outside { IsErrOf result DayFault.OutsideSeason → NamesDate self.now month day
            × IsOutside self.now (number_named self.now month day) }
        ensures no_other { IfErr result IsDayOfFault }
    {
        let Some(date) = self.date_named(month, day) else {
            return Err(DayFault::NoSuchDate);
        };
        match self.number_of(date) {
            Some(found) => Ok(Day(found)),
            None => Err(DayFault::OutsideSeason),
        }
    }

    // The number of the day of the season that is this date.
    fn number_of(&self, date: Date) -> Option<u32>
        ensures some { IfSome result (λ number. (number < date_count self.now)
            × (first_number self.now +ℤ pos number ≡ epoch_day date)) }
        ensures only { (number : ℕ) → number < date_count self.now →
            first_number self.now +ℤ pos number ≡ epoch_day date → result ≡ Some number }
        ensures none { IfNone result (IsOutside self.now (epoch_day date)) }
    {
        let days = self.first().until(date);
        if days < 0 {
            return None;
        }
        let found = days.unsigned_abs();
        if found >= self.length() {
            return None;
        }
        Some(found)
    }

    /// The month (1 to 12) and the day of the month of a day of the season.
    pub fn date_of(&self, day: Day) -> (u8, u8)
        requires day { day.0 < date_count self.now }
        ensures month { result.0 ≡ (date_at self.now day.0).month }
        ensures of_month { result.1 ≡ (date_at self.now day.0).of_month }
        ensures named { IsDayNamed self.now result.0 result.1 day.0 }
    {
        let date = self.date_on(day);
        (date.month, date.day)
    }

    /// The dates of a period, in rising order: the days from first to last whose weekday is in the
    /// set. Time in proportion to the number of days from first to last.
    ///
    /// `Reversed`: the first day is after the last. `NoDates`: no day from first to last has one of
    /// the weekdays.
    pub fn dates_of(&self, alloc: Global, period: Period) -> Result<Vec<Day>, DayFault>
        requires first { period.first.0 < date_count self.now }
        requires last { period.last.0 < date_count self.now }
        ensures found { IfOk result
            (λ days. map (λ day. day.0) days.items ≡ dates_of self.now period) }
        ensures some { IfOk result (λ days. dates_of self.now period ≢ []) }
        ensures reversed { IsErrOf result DayFault.Reversed ↔ (period.last.0 < period.first.0) }
        ensures no_dates { IsErrOf result DayFault.NoDates → dates_of self.now period ≡ [] }
        ensures no_other { IfErr result IsDatesFault }
    {
        if period.last.0 < period.first.0 {
            return Err(DayFault::Reversed);
        }
        let mut days = Vec::new(alloc);
        let end = period.last.0 + 1;
        for day in period.first.0..end {
            if self.is_on(period.days, Day(day)) {
                days.push(Day(day))?;
            }
        }
        if days.is_empty() {
            return Err(DayFault::NoDates);
        }
        Ok(days)
    }

    /// Whether the weekday of a day is in a set, whose bit 0 is Monday.
    pub fn is_on(&self, days: u8, day: Day) -> bool
        ensures { result ≡ is_on self.now days day.0 }
    {
        let weekday = self.weekday(day);
        (days >> (weekday - 1)) % 2 == 1
    }
}
