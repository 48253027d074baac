//! A line at the times of an alternative.

ghost use Rattle.std.specs.Prelude.{◌≡◌};
ghost use Rattle.series_model.specs.TimedLines.{stop_at, line_at, IsNear};

use crate::times::Times;
use scr_reader::{Line, Stop};
use season_days::MINUTES_OF_DAY;

/// A line with its arrival and its departure at these times, and with so many nights between, as
/// an offer is printed. The times are those of an alternative: a departure is at most nine nights
/// later. A refusal changes nothing.
pub fn line_at(line: &Line, times: Times) -> Line
    requires near { IsNear times }
    ensures value { result ≡ line_at line.now times }
{
    match times {
        Times::Refused => *line,
        Times::At { arrival, departure } => Line {
            arrival: stop_at(line.arrival, arrival),
            departure: stop_at(line.departure, departure),
            nights: (departure / MINUTES_OF_DAY) as u8,
            ..*line
        },
    }
}

// A stop at another minute of its day.
fn stop_at(stop: Option<Stop>, minute: u32) -> Option<Stop>
    ensures { result ≡ stop_at stop minute }
{
    match stop {
        Some(stop) => Some(Stop {
            minute: (minute % MINUTES_OF_DAY) as u16,
            ..stop
        }),
        None => None,
    }
}
