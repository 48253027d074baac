//! The dates of one series, counted.

ghost use Rattle.std.specs.Prelude.{◌≡◌, ◌+◌, ◌<◌, ◌≤◌, ◌&&◌, ◌==◌, nat_lt, length, if◌then◌else◌};
ghost use Rattle.season_days.specs.Seasons.{date_count, is_on, weekday_on};
ghost use Rattle.season_days.specs.declared.season.TheConstants.{MOST_DATES};
ghost use Rattle.usage_watch.specs.Precedence.{series_dates, operated_dates, is_operated, is_enough};

use crate::reported::Reported;
use scr_reader::Line;
use season_days::Day;
use season_days::laws::{lengths, listed_days};

/// The fewest dates of a series that can have precedence.
pub const FEWEST_DATES: u32 = 5;

/// The least part of its dates, in per cent, on which a series with precedence was operated.
pub const LEAST_PER_CENT: u32 = 80;

/// How many dates a series has, and how many of them were operated.
#[derive(Clone, Copy)]
pub(crate) struct Tally {
    pub dates: u32,
    pub operated: u32,
}

impl Tally {
    /// Whether there is a date.
    pub(crate) fn is_series(&self) -> bool
        ensures { result ≡ nat_lt 0 self.now.dates }
    {
        self.dates > 0
    }

    /// Whether so many dates give precedence.
    pub(crate) fn has_precedence(&self) -> bool
        requires dates { self.now.dates ≤ MOST_DATES }
        requires operated { self.now.operated ≤ MOST_DATES }
        ensures { result ≡ is_enough self.now.operated self.now.dates }
    {
        self.dates >= FEWEST_DATES && 100 * self.operated >= LEAST_PER_CENT * self.dates
    }

    /// Counts a day, where it is a date of the line on the weekday.
    fn count(&mut self, reported: &Reported<'_>, line: &Line, weekday: u8, day: Day)
        requires day { day.0 < MOST_DATES }
        requires dates { self.old.dates ≤ day.0 }
        requires operated { self.old.operated ≤ self.old.dates }
        ensures dates { self.new.dates ≡ self.old.dates
            + (if is_on reported.now.season line.now.period.days day.0
            && (weekday_on reported.now.season day.0 == weekday) then 1 else 0) }
        ensures operated { self.new.operated ≡ self.old.operated
            + (if (is_on reported.now.season line.now.period.days day.0
            && (weekday_on reported.now.season day.0 == weekday))
            && is_operated reported.now.season reported.now.reports line.now day.0
            then 1 else 0) }
    {
        let season = reported.season();
        if season.is_on(line.period.days, day) && season.weekday(day) == weekday {
            self.dates += 1;
            if reported.is_operated(line, day) {
                self.operated += 1;
            }
        }
    }

    /// The dates of a line on a weekday. One step for each day of its period.
    pub(crate) fn of(reported: &Reported<'_>, line: &Line, weekday: u8) -> Tally
        requires last { line.now.period.last.0 < date_count reported.now.season }
        ensures dates { result.dates
            ≡ length (series_dates reported.now.season line.now weekday) }
        ensures operated { result.operated
            ≡ length (operated_dates reported.now.season reported.now.reports line.now weekday) }
        ensures few { result.dates ≤ MOST_DATES }
        ensures within { result.operated ≤ result.dates }
    {
        lengths();
        listed_days();
        let mut tally = Tally {
            dates: 0,
            operated: 0,
        };
        let end = line.period.last.0 + 1;
        for day in line.period.first.0..end {
            tally.count(reported, line, weekday, Day(day));
        }
        tally
    }
}
