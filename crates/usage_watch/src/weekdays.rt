//! The series of one line, weekday by weekday.

ghost use Rattle.std.specs.Prelude.{◌≡◌, ◌<◌, ◌≤◌, ◌^◌, if◌then◌else◌};
ghost use Rattle.season_days.specs.Seasons.{date_count};
ghost use Rattle.usage_watch.specs.NextLines.{series_of, kept_of, kept_days};

use crate::reported::Reported;
use crate::tally::Tally;
use scr_reader::Line;

/// How many series a line has, how many of them have precedence, and the set of their weekdays,
/// whose bit 0 is Monday.
#[derive(Clone, Copy)]
pub(crate) struct Weekdays {
    pub series: u64,
    pub kept: u64,
    pub days: u8,
}

/// The bit of a weekday, counted from 0 for Monday.
fn weekday_bit(weekday: u8) -> u8
    requires { weekday < 7 }
    ensures { result ≡ 2 ^ weekday }
{
    1 << weekday
}

/// The bit of a weekday where it is kept, or none.
fn bit_if(kept: bool, weekday: u8) -> u8
    requires { weekday < 7 }
    ensures { result ≡ (if kept then 2 ^ weekday else 0) }
{
    if kept { weekday_bit(weekday) } else { 0 }
}

/// One, or none.
fn one_if(counted: bool) -> u64
    ensures { result ≡ (if counted then 1 else 0) }
{
    if counted { 1 } else { 0 }
}

/// The series of a line. Seven steps for each day of its period.
pub(crate) fn weekdays_of(reported: &Reported<'_>, line: &Line) -> Weekdays
    requires last { line.now.period.last.0 < date_count reported.now.season }
    ensures series { result.series ≡ series_of reported.now.season line.now }
    ensures kept { result.kept ≡ kept_of reported.now.season reported.now.reports line.now }
    ensures days { result.days ≡ kept_days reported.now.season reported.now.reports line.now }
    ensures series_few { result.series ≤ 7 }
    ensures kept_few { result.kept ≤ 7 }
{
    let mut found = Weekdays {
        series: 0,
        kept: 0,
        days: 0,
    };
    for weekday in 0..7 {
        let tally = Tally::of(reported, line, weekday + 1);
        let kept = tally.has_precedence();
        found.series += one_if(tally.is_series());
        found.kept += one_if(kept);
        found.days += bit_if(kept, weekday);
    }
    found
}
