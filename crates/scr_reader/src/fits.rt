//! Whether a line and an item have a printed spelling.

ghost use Rattle.std.specs.Prelude.{◌↔◌, ◌+◌, ◌*◌, ◌<◌, ◌≤◌, IsTrue};
ghost use Rattle.slot_text.specs.Stations.{IsStation};
ghost use Rattle.scr_reader.specs.Parts.{AirlineFits, SuffixFits, StationsFit, ThreeLettersOrDigits};
ghost use Rattle.scr_reader.specs.Printed.{FlightFits, StopFits, StopsFit, LineFits, ItemFits};

use crate::bytes::{is_letter_byte, is_letter_or_digit_byte};
use crate::line::{Craft, Flight, Item, Line, Stop};
use season_days::{MINUTES_OF_DAY, Season};
use slot_text::Station;

impl Line {
    /// Whether the line has a printed spelling in the season, whatever its code; `print_line` asks
    /// for it. The period lies in the season and has a date, a departure is not before its arrival,
    /// only a turnaround has nights, and each part is in its range. One look at each day of the
    /// period at most.
    pub fn fits(&self, season: &Season) -> bool
        ensures { IsTrue result ↔ LineFits season.now self.now }
    {
        stops_fit(self, self.arrival, self.departure)
            && self.period.first.0 < season.length()
            && self.period.last.0 < season.length()
            && self.period.first.0 <= self.period.last.0
            && self.period.days < 128
            && season.has_dates(self.period)
            && self.seats < 1000
            && craft_fits(self.craft)
    }
}

impl Item {
    /// Whether each part of the item has a printed spelling in the season; `print_item` asks for
    /// it.
    pub fn fits(&self, season: &Season) -> bool
        ensures { IsTrue result ↔ ItemFits season.now self.now }
    {
        match self {
            Item::One(line) => line.fits(season),
            Item::Pair(changed, asked) => changed.fits(season) && asked.fits(season),
            Item::Query(flight) => flight_fits(flight),
        }
    }
}

/// Whether a line with these movements has them in their form.
fn stops_fit(line: &Line, arrival: Option<Stop>, departure: Option<Stop>) -> bool
    ensures { IsTrue result ↔ StopsFit line.now arrival departure }
{
    match (arrival, departure) {
        (Some(coming), Some(going)) => turnaround_fits(line.nights, &coming, &going),
        (Some(coming), None) => stop_fits(&coming) && line.nights == 0,
        (None, Some(going)) => stop_fits(&going) && line.nights == 0,
        (None, None) => false,
    }
}

/// Whether a departure so many nights after an arrival is not before it, and both have their form.
fn turnaround_fits(nights: u8, coming: &Stop, going: &Stop) -> bool
    ensures { IsTrue result
        ↔ (StopFits coming.now × StopFits going.now × (nights < 10)
        × (coming.now.minute ≤ MINUTES_OF_DAY * nights + going.now.minute)) }
{
    stop_fits(coming)
        && stop_fits(going)
        && nights < 10
        && u32::from(coming.minute) <= MINUTES_OF_DAY * u32::from(nights) + u32::from(going.minute)
}

fn stop_fits(stop: &Stop) -> bool
    ensures { IsTrue result ↔ StopFits stop.now }
{
    flight_fits(&stop.flight)
        && u32::from(stop.minute) < MINUTES_OF_DAY
        && stations_fit(stop.near, stop.far)
        && is_letter_byte(stop.service)
}

fn flight_fits(flight: &Flight) -> bool
    ensures { IsTrue result ↔ FlightFits flight.now }
{
    airline_fits(flight.airline) && flight.number < 10000 && suffix_fits(flight.suffix)
}

/// Whether an airline is three letters, or a letter and a letter or digit with 0 behind them.
fn airline_fits(airline: [u8; 3]) -> bool
    ensures { IsTrue result ↔ AirlineFits airline }
{
    let [a, b, c] = airline;
    if c == 0 {
        is_letter_or_digit_byte(a)
            && is_letter_or_digit_byte(b)
            && (is_letter_byte(a) || is_letter_byte(b))
    } else {
        is_letter_byte(a) && is_letter_byte(b) && is_letter_byte(c)
    }
}

fn suffix_fits(suffix: u8) -> bool
    ensures { IsTrue result ↔ SuffixFits suffix }
{
    suffix == 0 || is_letter_byte(suffix)
}

fn stations_fit(near: Station, far: Option<Station>) -> bool
    ensures { IsTrue result ↔ StationsFit near far }
{
    match far {
        Some(station) => station_fits(near) && station_fits(station),
        None => station_fits(near),
    }
}

fn station_fits(station: Station) -> bool
    ensures { IsTrue result ↔ IsStation station.0 }
{
    Station::read(&station.0).is_some()
}

fn craft_fits(craft: Craft) -> bool
    ensures { IsTrue result ↔ ThreeLettersOrDigits craft.0 }
{
    let [a, b, c] = craft.0;
    is_letter_or_digit_byte(a) && is_letter_or_digit_byte(b) && is_letter_or_digit_byte(c)
}
