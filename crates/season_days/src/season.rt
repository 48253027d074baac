//! Seasons: their names, first and last dates, length and weekdays.

ghost use Rattle.std.specs.Prelude.{◌≡◌, ◌↔◌, ◌<◌, ◌≤◌, ◌-◌, ◌+ℤ◌, pos, ℕ, List, IsNone, IfSome, Some, IfNone, unsigned_abs, ◌≤ℤ◌};
ghost use Rattle.std.specs.Int.{IsInRange};
ghost use Rattle.jiff_core.specs.Calendar.{IsBetween};
ghost use Rattle.jiff_core.specs.Date.{epoch_day, weekday_of};
ghost use Rattle.season_days.specs.Term.{Term};
ghost use Rattle.season_days.specs.Dates.{HasDate, IsLastSunday, last_sunday_number};
ghost use Rattle.season_days.specs.Seasons.{season_text, same_season_next_year, first_year, first_month, year_after, month_after, first_number, number_after, date_count, date_at, weekday_on, year_of_month, NamesDate, number_named, IsDayNamed};

use crate::day::Day;
use jiff_core::civil::{Date, Weekday};
use std::marker::Model;

/// The most dates of a season: 31 whole weeks.
pub const MOST_DATES: u32 = 217;

/// Northern summer or winter.
#[derive(Clone, Copy, Debug, PartialEq, Eq)]
pub enum Half {
    /// From the last Sunday of March to the Saturday before the last Sunday of October.
    Summer,
    /// From the last Sunday of October to the Saturday before the last Sunday of March of the next
    /// year.
    Winter,
}

/// A scheduling season of the Worldwide Airport Slot Guidelines: its half, and the year from 2000
/// to 2099 in which it begins.
#[derive(Clone, Copy, Debug, PartialEq, Eq)]
pub struct Season {
    half: Half,
    year: u8,
}

impl Model for Season {
    ghost use Rattle.std.specs.Prelude.{ℕ, ◌<◌};
    ghost use Rattle.season_days.specs.Term.{Term};

    ghost Value = { Term };

    ghost view = { λ s. record { half = s.half; year = s.year } };

    ghost invariant = { λ s. s.year < 100 };

    ghost inverse = { λ t. record { half = t.half; year = t.year } };
}

impl Season {
    /// The season that a letter, `S` or `W`, and the last two digits of the year name. No other
    /// text names a season.
    pub fn read(text: &[u8]) -> Option<Season>
        ensures found { IfSome result (λ season. text.now ≡ season_text season) }
        ensures digits { IfSome result (λ season. season.year < 100) }
        ensures only { (season : Term) → season.year < 100 → text.now ≡ season_text season →
            result ≡ Some season }
    {
        let [letter, tens @ b'0'..=b'9', ones @ b'0'..=b'9'] = text else {
            return None;
        };
        let half = match letter {
            b'S' => Half::Summer,
            b'W' => Half::Winter,
            _ => return None,
        };
        Some(Season {
            half,
            year: 10 * (tens - b'0') + (ones - b'0'),
        })
    }

    /// The letter and two digits that name the season.
    pub fn text(&self) -> [u8; 3]
        ensures exact { result ≡ season_text self.now }
        ensures digits { self.now.year < 100 }
    {
        let letter = match self.half {
            Half::Summer => b'S',
            Half::Winter => b'W',
        };
        [letter, b'0' + self.year / 10, b'0' + self.year % 10]
    }

    /// Summer or winter.
    pub fn half(&self) -> Half
        ensures { result ≡ self.now.half }
    {
        self.half
    }

    /// The year in which the season begins, from 2000 to 2099.
    pub fn year(&self) -> u16
        ensures exact { result ≡ first_year self.now }
        ensures digits { self.now.year < 100 }
    {
        2000 + u16::from(self.year)
    }

    /// The season of the same half one year later. A season of the year 99 has none.
    pub fn next(&self) -> Option<Season>
        ensures none { IsNone result ↔ (self.now.year ≡ 99) }
        ensures next { IfSome result (λ next. next ≡ same_season_next_year self.now) }
    {
        if self.year == 99 {
            return None;
        }
        Some(Season {
            half: self.half,
            year: self.year + 1,
        })
    }

    /// The first date: the last Sunday of March or of October.
    pub fn first(&self) -> Date
        ensures year { result.year ≡ pos (first_year self.now) }
        ensures month { result.month ≡ first_month self.now.half }
        ensures sunday { IsLastSunday result.year result.month result.day }
        ensures century { IsBetween (pos 2000) (pos 2099) result.year }
        ensures date { HasDate result (date_at self.now 0) }
        ensures number { epoch_day result ≡ first_number self.now }
    {
        match self.half {
            Half::Summer => last_sunday(self.first_year(), 3),
            Half::Winter => last_sunday(self.first_year(), 10),
        }
    }

    /// The last date: the Saturday before the last Sunday with which the next season begins.
    pub fn last(&self) -> Date
        ensures saturday { weekday_of result ≡ 5 }
        ensures date { HasDate result (date_at self.now (date_count self.now - 1)) }
        ensures before { epoch_day result +ℤ pos 1 ≡ number_after self.now }
    {
        self.after().yesterday().unwrap()
    }

    /// How many dates the season has.
    pub fn length(&self) -> u32
        ensures exact { result ≡ date_count self.now }
        ensures some { 1 ≤ result }
        ensures most { result ≤ MOST_DATES }
    {
        self.first().until(self.after()).unsigned_abs()
    }

    /// The weekday of a day: 1 is Monday and 7 is Sunday.
    pub fn weekday(&self, day: Day) -> u8
        ensures exact { result ≡ weekday_on self.now day.0 }
        ensures least { 1 ≤ result }
        ensures most { result ≤ 7 }
    {
        // Each season begins on a Sunday.
        let after_monday = (day.0 % 7 + 6) % 7;
        after_monday as u8 + 1
    }

    fn first_year(&self) -> i16
        ensures { result ≡ pos (first_year self.now) }
    {
        2000 + i16::from(self.year)
    }

    /// The date that a month and a day of the month name, in the season's year of that month.
    pub(crate) fn date_named(&self, month: u8, day: u8) -> Option<Date>
        ensures found { IfSome result
            (λ date. NamesDate self.now month day
            × (epoch_day date ≡ number_named self.now month day)) }
        ensures none { IfNone result (¬ (NamesDate self.now month day)) }
    {
        let year = self.year_of(month);
        let month = i8::try_from(month).ok()?;
        let day = i8::try_from(day).ok()?;
        Date::new(year, month, day).ok()
    }

    // The season's year of a month.
    fn year_of(&self, month: u8) -> i16
        ensures { result ≡ pos (year_of_month self.now.half (first_year self.now) month) }
    {
        match self.half {
            Half::Winter if month <= 6 => self.first_year() + 1,
            _ => self.first_year(),
        }
    }

    /// The date of a day of the season.
    pub(crate) fn date_on(&self, day: Day) -> Date
        requires day { day.0 < date_count self.now }
        ensures date { HasDate result (date_at self.now day.0) }
        ensures named { IsDayNamed self.now result.month result.day day.0 }
    {
        self.first().checked_add(i64::from(day.0)).unwrap()
    }

    /// The first date of the season that follows.
    fn after(&self) -> Date
        ensures year { result.year ≡ pos (year_after self.now.half (first_year self.now)) }
        ensures month { result.month ≡ month_after self.now.half }
        ensures sunday { IsLastSunday result.year result.month result.day }
        ensures number { epoch_day result ≡ number_after self.now }
        ensures century { self.now.year < 100 }
    {
        match self.half {
            Half::Summer => last_sunday(self.first_year(), 10),
            Half::Winter => last_sunday(self.first_year() + 1, 3),
        }
    }
}

/// The last Sunday of a month.
fn last_sunday(year: i16, month: u8) -> Date
    requires year { IsBetween (pos 2000) (pos 2100) year }
    requires month { IsInRange 1 12 month }
    ensures year { result.year ≡ year }
    ensures month { result.month ≡ month }
    ensures sunday { IsLastSunday result.year result.month result.day }
    ensures number { epoch_day result ≡ last_sunday_number year month }
{
    Date::constrain(year, month, 1)
        .nth_weekday_of_month(-1, Weekday::Sunday)
        .unwrap()
}
