//! A line in the next season.

ghost use Rattle.std.specs.Prelude.{◌≡◌};
ghost use Rattle.usage_watch.specs.NextLines.{in_next};

use scr_reader::{Code, Line};
use season_days::{Day, Period, Season};

/// The historic line of the next season on some weekdays, if it has a date.
pub(crate) fn in_next(next: &Season, line: &Line, days: u8) -> Option<Line>
    ensures { result ≡ in_next next.now line.now days }
{
    let last = next.length() - 1;
    let period = Period {
        first: line.period.first,
        last: Day(line.period.last.0.min(last)),
        days,
    };
    if !next.has_dates(period) {
        return None;
    }
    Some(Line {
        code: Code::F,
        period,
        ..*line
    })
}
