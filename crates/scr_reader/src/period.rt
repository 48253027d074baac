//! Dates and periods.

ghost use Rattle.std.specs.Prelude.{◌≡◌, ◌≢◌, ◌<◌, ◌≤◌, ℕ, IfSome, Some, IsSomeAnd, [], ◌++◌};
ghost use Rattle.schedule_text.specs.Days.{IsDays};
ghost use Rattle.season_days.specs.Seasons.{dates_of};
ghost use Rattle.season_days.specs.declared.day.Period.{Period as PeriodValue};
ghost use Rattle.scr_reader.specs.Parts.{month_text, date_text, SpellsDay, IsPeriod};
ghost use Rattle.scr_reader.specs.Shapes.{NamesPeriod};

use crate::put::month_name;
use schedule_text::{read_two_digits, read_weekdays};
use season_days::{Day, Period, Season};

// How many months a year has.
const MONTHS_OF_YEAR: u8 = 12;

/// The month, from 1 to 12, of its name: the first three letters of its English name, as capitals.
pub fn read_month(text: &[u8]) -> Option<u8>
    ensures found { IfSome result (λ month. (1 ≤ month) × (month ≤ 12)
        × (text.now ≡ month_text month)) }
    ensures only { (month : ℕ) → 1 ≤ month → month ≤ 12 → text.now ≡ month_text month →
        result ≡ Some month }
{
    for month in 1..MONTHS_OF_YEAR + 1 {
        if text == month_name(month) {
            return Some(month);
        }
    }
    None
}

/// The day of the season that a date names.
pub(crate) fn read_day(season: &Season, text: &[u8]) -> Option<Day>
    ensures found { IfSome result (λ day. SpellsDay season.now text.now day.0) }
    ensures only { (day : ℕ) → SpellsDay season.now text.now day →
        IsSomeAnd result (λ found. found.0 ≡ day) }
{
    if text.len() != 5 {
        return None;
    }
    let (day, month) = text.split_at(2);
    let day = read_two_digits(day)?;
    let month = read_month(month)?;
    season.day_of(month, day).ok()
}

/// The first and the last day of a period.
pub(crate) fn read_dates(season: &Season, text: &[u8]) -> Option<(Day, Day)>
    ensures found { IfSome result (λ x. IsPeriod season.now text.now x.0.0 x.1.0) }
    ensures only { (first last : ℕ) → IsPeriod season.now text.now first last →
        IsSomeAnd result (λ x. (x.0.0 ≡ first) × (x.1.0 ≡ last)) }
{
    if text.len() == 5 {
        let day = read_day(season, text)?;
        return Some((day, day));
    }
    if text.len() != 10 {
        return None;
    }
    let (front, back) = text.split_at(5);
    let first = read_day(season, front)?;
    let last = read_day(season, back)?;
    if last.0 < first.0 {
        return None;
    }
    Some((first, last))
}

/// The weekdays of a period that a field names, if the period has a date on them.
pub(crate) fn read_weekdays_of(
    season: &Season,
    first: Day,
    last: Day,
    text: &[u8],
) -> Option<Period>
    ensures found { IfSome result (λ period. (period.first ≡ first) × (period.last ≡ last)
        × IsDays text.now period.days × (dates_of season.now period ≢ [])) }
    ensures only { (period : PeriodValue) → period.first ≡ first → period.last ≡ last →
        IsDays text.now period.days → dates_of season.now period ≢ [] → result ≡ Some period }
{
    let days = read_weekdays(text)?;
    let period = Period { first, last, days };
    if season.has_dates(period) {
        Some(period)
    } else {
        None
    }
}

/// The period that two fields of a data line name: one date or two, and its days of operation. None
/// where a date does not exist or lies outside the season, where the period is reversed or has no
/// date on these weekdays, and where a field has another form.
pub fn read_period(season: &Season, period: &[u8], days: &[u8]) -> Option<Period>
    ensures found { IfSome result (λ p. NamesPeriod season.now period.now days.now p) }
    ensures only { (p : PeriodValue) → NamesPeriod season.now period.now days.now p →
        result ≡ Some p }
{
    let (first, last) = read_dates(season, period)?;
    read_weekdays_of(season, first, last, days)
}
