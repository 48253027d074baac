//! For each flight, the days that are marked.

ghost use Rattle.std.specs.Prelude.{◌≡◌, ◌||◌, ◌&&◌, ℕ, ◌<◌, false, IfOk, OnOk, slice_index_or};
ghost use Rattle.season_days.specs.Periods.{is_date_of};
ghost use Rattle.season_days.specs.declared.season.TheConstants.{MOST_DATES as ALL_DATES};
ghost use Rattle.scr_reader.specs.declared.line.Flight.{Flight as FlightValue};
ghost use Rattle.holding_book.specs.Lines.{is_flight};
ghost use Rattle.usage_watch.specs.Private.Marks.{flight_marks, is_marked};

use indexmap::IndexMap;
use scr_reader::Flight;
use season_days::laws::date_answers;
use season_days::{Day, MOST_DATES, Period, Season};
use slot_text::Memory;
use std::alloc::Global;

/// For each flight a mark for each day that a season may have.
#[derive(Drop)]
pub(crate) struct FlightDays {
    pub(crate) days: IndexMap<Flight, Vec<bool>>,
}

/// Whether a day is marked; one that has no mark is not.
fn has_mark(marks: &[bool], day: Day) -> bool
    ensures { result ≡ slice_index_or marks.now day.0 false }
{
    match marks.get(day.0 as usize) {
        Some(mark) => *mark,
        None => false,
    }
}

/// Whether a day is a date of a period.
fn is_date(season: &Season, period: Period, day: Day) -> bool
    ensures { result ≡ is_date_of season.now period day.0 }
{
    date_answers();
    season.has_date(period, day)
}

/// Whether a day is marked, or a date of a period.
fn is_mark_or_date(season: &Season, marks: &[bool], period: Period, day: Day) -> bool
    ensures { result
        ≡ (slice_index_or marks.now day.0 false || is_date_of season.now period day.0) }
{
    has_mark(marks, day) || is_date(season, period, day)
}

/// The same marks, and one for each date of a period.
fn with_dates(
    alloc: Global,
    season: &Season,
    marks: &[bool],
    period: Period,
) -> Result<Vec<bool>, Memory>
    ensures { IfOk result (λ with. (day : ℕ) → day < ALL_DATES →
        slice_index_or with.items day false
        ≡ (slice_index_or marks.now day false || is_date_of season.now period day)) }
{
    let mut with = Vec::new(alloc);
    for day in 0..MOST_DATES {
        with.push(is_mark_or_date(season, marks, period, Day(day)))?;
    }
    Ok(with)
}

impl FlightDays {
    /// No marks.
    pub(crate) fn new(alloc: Global) -> FlightDays
        ensures { (flight : FlightValue) (day : ℕ) → is_marked result flight day ≡ false }
    {
        FlightDays {
            days: IndexMap::new(alloc),
        }
    }

    /// The marks of a flight.
    fn of_flight(&self, flight: &Flight) -> &[bool]
        ensures { result.now ≡ flight_marks self.now flight.now }
    {
        match self.days.get(flight) {
            Some(days) => days.as_slice(),
            None => &[],
        }
    }

    /// Whether a day of a flight is marked.
    pub(crate) fn has(&self, flight: &Flight, day: Day) -> bool
        ensures { result ≡ is_marked self.now flight.now day.0 }
    {
        has_mark(self.of_flight(flight), day)
    }

    /// Marks the dates of a period. One step for each day that a season may have.
    pub(crate) fn mark(
        &mut self,
        alloc: Global,
        season: &Season,
        flight: Flight,
        period: Period,
    ) -> Result<(), Memory>
        ensures { OnOk result ((other : FlightValue) (day : ℕ) → day < ALL_DATES →
            is_marked self.new other day ≡ (is_marked self.old other day
            || (is_flight flight other && is_date_of season.now period day))) }
    {
        let days = with_dates(alloc, season, self.of_flight(&flight), period)?;
        self.days.insert(flight, days)?;
        Ok(())
    }
}
