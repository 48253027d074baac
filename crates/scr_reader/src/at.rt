//! What the field of a number says, or its number.

ghost use Rattle.std.specs.Prelude.{◌≡◌, ◌≢◌, ◌∷◌, [], List, ℕ, IfOk, IfErr, Ok, IsOkAnd, IfSome, Some, IsSome, None, true, Option};
ghost use Rattle.schedule_text.specs.Days.{IsDays};
ghost use Rattle.scr_reader.specs.Bytes.{is_letter};
ghost use Rattle.season_days.specs.declared.day.Period.{Period as PeriodValue};
ghost use Rattle.scr_reader.specs.declared.line.Code.{Code as CodeValue};
ghost use Rattle.slot_text.specs.declared.station.Station.{Station as StationValue};
ghost use Rattle.slot_text.specs.Fields.{field_at};
ghost use Rattle.season_days.specs.Seasons.{dates_of};
ghost use Rattle.scr_reader.specs.Parts.{IsFlight, IsPeriod, IsSeats, IsArrivalGroup, IsDepartureGroup};
ghost use Rattle.scr_reader.specs.Shapes.{At, IsCodeAndFlight, IsCodeAlone, IsLaterGroup};
ghost use Rattle.scr_reader.specs.declared.line.Flight.{Flight as FlightValue};

use crate::fields::Fields;
use crate::flight::{read_code, read_flight};
use crate::groups::{
    read_arrival_group, read_departure_group, read_group_with_nights, read_seats, read_service,
    read_services,
};
use crate::line::{Code, Craft, Flight};
use crate::period::{read_dates, read_weekdays_of};
use season_days::{Day, MINUTES_OF_DAY, Period, Season};
use slot_text::Station;

pub(crate) fn dates_at(season: &Season, fields: &Fields<'_>, n: u32) -> Result<(Day, Day), u32>
    ensures found { IfOk result
        (λ x. At fields.now n (λ field. IsPeriod season.now field x.0.0 x.1.0)) }
    ensures only { (first last : ℕ) →
        At fields.now n (λ field. IsPeriod season.now field first last) →
        IsOkAnd result (λ x. (x.0.0 ≡ first) × (x.1.0 ≡ last)) }
    ensures number { IfErr result (λ k. k ≡ n) }
{
    let field = fields.get(n).ok_or(n)?;
    read_dates(season, field).ok_or(n)
}

pub(crate) fn weekdays_at(
    season: &Season,
    first: Day,
    last: Day,
    fields: &Fields<'_>,
    n: u32,
) -> Result<Period, u32>
    ensures found { IfOk result (λ p. (p.first ≡ first) × (p.last ≡ last)
        × At fields.now n (λ field. IsDays field p.days × (dates_of season.now p ≢ []))) }
    ensures only { (p : PeriodValue) → p.first ≡ first → p.last ≡ last →
        At fields.now n (λ field. IsDays field p.days × (dates_of season.now p ≢ [])) →
        result ≡ Ok p }
    ensures number { IfErr result (λ k. k ≡ n) }
{
    let field = fields.get(n).ok_or(n)?;
    read_weekdays_of(season, first, last, field).ok_or(n)
}

pub(crate) fn seats_at(fields: &Fields<'_>, n: u32) -> Result<(u16, Craft), u32>
    ensures found { IfOk result (λ x. At fields.now n (λ field. IsSeats field x.0 x.1.0)) }
    ensures only { (seats : ℕ) (craft : List ℕ) →
        At fields.now n (λ field. IsSeats field seats craft) →
        IsOkAnd result (λ x. (x.0 ≡ seats) × (x.1.0 ≡ craft)) }
    ensures number { IfErr result (λ k. k ≡ n) }
{
    let field = fields.get(n).ok_or(n)?;
    read_seats(field).ok_or(n)
}

pub(crate) fn flight_at(fields: &Fields<'_>, n: u32) -> Result<Flight, u32>
    ensures found { IfOk result (λ x. At fields.now n (λ field. IsFlight field x)) }
    ensures only { (x : FlightValue) → At fields.now n (λ field. IsFlight field x) → result ≡ Ok x }
    ensures number { IfErr result (λ k. k ≡ n) }
{
    let field = fields.get(n).ok_or(n)?;
    read_flight(field).ok_or(n)
}

fn read_code_and_flight(text: &[u8]) -> Option<(Code, Flight)>
    ensures found { IfSome result (λ x. IsCodeAndFlight text.now x.0 x.1) }
    ensures only { (code : CodeValue) (flight : FlightValue) →
        IsCodeAndFlight text.now code flight → result ≡ Some (code, flight) }
{
    let [b, rest @ ..] = text else {
        return None;
    };
    let code = read_code(*b)?;
    let flight = read_flight(rest)?;
    Some((code, flight))
}

pub(crate) fn code_and_flight_at(fields: &Fields<'_>, n: u32) -> Result<(Code, Flight), u32>
    ensures found { IfOk result (λ x. At fields.now n (λ field. IsCodeAndFlight field x.0 x.1)) }
    ensures only { (code : CodeValue) (flight : FlightValue) →
        At fields.now n (λ field. IsCodeAndFlight field code flight) → result ≡ Ok (code, flight) }
    ensures number { IfErr result (λ k. k ≡ n) }
{
    let field = fields.get(n).ok_or(n)?;
    read_code_and_flight(field).ok_or(n)
}

pub(crate) fn arrival_group_at(
    fields: &Fields<'_>,
    n: u32,
) -> Result<(Station, Option<Station>, u16), u32>
    ensures found { IfOk result (λ x. At fields.now n (λ field. IsArrivalGroup field x.0 x.1 x.2)) }
    ensures only { (near : StationValue) (far : Option StationValue) (minute : ℕ) →
        At fields.now n (λ field. IsArrivalGroup field near far minute) →
        result ≡ Ok (near, far, minute) }
    ensures number { IfErr result (λ k. k ≡ n) }
{
    let field = fields.get(n).ok_or(n)?;
    read_arrival_group(field).ok_or(n)
}

pub(crate) fn service_at(fields: &Fields<'_>, n: u32) -> Result<u8, u32>
    ensures found { IfOk result (λ x. At fields.now n (λ field. (is_letter x ≡ true)
        × (field ≡ x ∷ []))) }
    ensures only { (x : ℕ) → At fields.now n (λ field. (is_letter x ≡ true) × (field ≡ x ∷ [])) →
        result ≡ Ok x }
    ensures number { IfErr result (λ k. k ≡ n) }
{
    let field = fields.get(n).ok_or(n)?;
    read_service(field).ok_or(n)
}

/// No field of the number.
pub(crate) fn end_at(fields: &Fields<'_>, n: u32) -> Result<(), u32>
    ensures ends { IfOk result (λ _. field_at fields.now n ≡ None) }
    ensures more { IfErr result (λ k. (k ≡ n) × IsSome (field_at fields.now n)) }
{
    match fields.get(n) {
        Some(_) => Err(n),
        None => Ok(()),
    }
}

fn read_code_alone(text: &[u8]) -> Option<Code>
    ensures found { IfSome result (λ code. IsCodeAlone text.now code) }
    ensures only { (code : CodeValue) → IsCodeAlone text.now code → result ≡ Some code }
{
    match text {
        [b] => read_code(*b),
        _ => None,
    }
}

pub(crate) fn code_at(fields: &Fields<'_>, n: u32) -> Result<Code, u32>
    ensures found { IfOk result (λ code. At fields.now n (λ field. IsCodeAlone field code)) }
    ensures only { (code : CodeValue) → At fields.now n (λ field. IsCodeAlone field code) →
        result ≡ Ok code }
    ensures number { IfErr result (λ k. k ≡ n) }
{
    let field = fields.get(n).ok_or(n)?;
    read_code_alone(field).ok_or(n)
}

pub(crate) fn departure_group_at(
    fields: &Fields<'_>,
    n: u32,
) -> Result<(Station, Option<Station>, u16), u32>
    ensures found { IfOk result
        (λ x. At fields.now n (λ field. IsDepartureGroup field [] x.0 x.1 x.2)) }
    ensures only { (near : StationValue) (far : Option StationValue) (minute : ℕ) →
        At fields.now n (λ field. IsDepartureGroup field [] near far minute) →
        result ≡ Ok (near, far, minute) }
    ensures number { IfErr result (λ k. k ≡ n) }
{
    let field = fields.get(n).ok_or(n)?;
    read_departure_group(field).ok_or(n)
}

/// A departure group that may name nights, where the departure is no earlier than the arrival's
/// minute.
fn read_later_group(text: &[u8], earliest: u16) -> Option<(Station, Option<Station>, u16, u8)>
    ensures found { IfSome result (λ x. IsLaterGroup text.now earliest x.0 x.1 x.2 x.3) }
    ensures only { (near : StationValue) (far : Option StationValue) (minute nights : ℕ) →
        IsLaterGroup text.now earliest near far minute nights →
        result ≡ Some (near, far, minute, nights) }
{
    let (near, far, minute, nights) = read_group_with_nights(text)?;
    if MINUTES_OF_DAY * u32::from(nights) + u32::from(minute) < u32::from(earliest) {
        return None;
    }
    Some((near, far, minute, nights))
}

pub(crate) fn later_group_at(
    fields: &Fields<'_>,
    n: u32,
    earliest: u16,
) -> Result<(Station, Option<Station>, u16, u8), u32>
    ensures found { IfOk result
        (λ x. At fields.now n (λ field. IsLaterGroup field earliest x.0 x.1 x.2 x.3)) }
    ensures only { (near : StationValue) (far : Option StationValue) (minute nights : ℕ) →
        At fields.now n (λ field. IsLaterGroup field earliest near far minute nights) →
        result ≡ Ok (near, far, minute, nights) }
    ensures number { IfErr result (λ k. k ≡ n) }
{
    let field = fields.get(n).ok_or(n)?;
    read_later_group(field, earliest).ok_or(n)
}

pub(crate) fn services_at(fields: &Fields<'_>, n: u32) -> Result<(u8, u8), u32>
    ensures found { IfOk result (λ x. At fields.now n (λ field. (is_letter x.0 ≡ true)
        × (is_letter x.1 ≡ true) × (field ≡ x.0 ∷ x.1 ∷ []))) }
    ensures only { (a d : ℕ) →
        At fields.now n (λ field. (is_letter a ≡ true) × (is_letter d ≡ true)
        × (field ≡ a ∷ d ∷ [])) → result ≡ Ok (a, d) }
    ensures number { IfErr result (λ k. k ≡ n) }
{
    let field = fields.get(n).ok_or(n)?;
    read_services(field).ok_or(n)
}
