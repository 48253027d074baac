//! Fields of seats, stations, times and services.

ghost use Rattle.std.specs.Prelude.{◌≡◌, ◌<◌, ◌≤◌, ◌++◌, ◌∷◌, [], ℕ, List, IfSome, Some, IsSomeAnd, Option, true};
ghost use Rattle.scr_reader.specs.Bytes.{is_letter, three_digits};
ghost use Rattle.scr_reader.specs.Parts.{ThreeLettersOrDigits, StationsFit, stations_text, IsSeats, IsArrivalGroup, IsDepartureGroup, IsNights};
ghost use Rattle.scr_reader.specs.Private.FieldForms.{leading_nights, after_nights};
ghost use Rattle.slot_text.specs.declared.station.Station.{Station as StationValue};

use crate::bytes::{is_letter_byte, is_letter_or_digit_byte, read_three_digits};
use crate::line::Craft;
use schedule_text::read_time;
use slot_text::Station;

/// Seats, and the type of aircraft.
pub(crate) fn read_seats(text: &[u8]) -> Option<(u16, Craft)>
    ensures found { IfSome result (λ x. IsSeats text.now x.0 x.1.0) }
    ensures only { (n : ℕ) (craft : List ℕ) → IsSeats text.now n craft →
        IsSomeAnd result (λ x. (x.0 ≡ n) × (x.1.0 ≡ craft)) }
{
    if text.len() != 6 {
        return None;
    }
    let (front, back) = text.split_at(3);
    let seats = read_three_digits(front)?;
    let craft = read_craft(back)?;
    Some((seats, craft))
}

fn read_craft(text: &[u8]) -> Option<Craft>
    ensures found { IfSome result (λ craft. ThreeLettersOrDigits craft.0 × (text.now ≡ craft.0)) }
    ensures only { ThreeLettersOrDigits text.now → IsSomeAnd result (λ craft. craft.0 ≡ text.now) }
{
    let [a, b, c] = text else {
        return None;
    };
    if is_letter_or_digit_byte(*a) && is_letter_or_digit_byte(*b) && is_letter_or_digit_byte(*c) {
        Some(Craft([*a, *b, *c]))
    } else {
        None
    }
}

/// Stations, then a time.
pub(crate) fn read_arrival_group(text: &[u8]) -> Option<(Station, Option<Station>, u16)>
    ensures found { IfSome result (λ x. IsArrivalGroup text.now x.0 x.1 x.2) }
    ensures only { (near : StationValue) (far : Option StationValue) (minute : ℕ) →
        IsArrivalGroup text.now near far minute → result ≡ Some (near, far, minute) }
{
    if text.len() < 4 {
        return None;
    }
    let (stations, time) = text.split_at(text.len() - 4);
    let (near, far) = read_stations(stations)?;
    let minute = read_time(time)?;
    Some((near, far, minute))
}

/// A time, then stations.
pub(crate) fn read_departure_group(text: &[u8]) -> Option<(Station, Option<Station>, u16)>
    ensures found { IfSome result (λ x. IsDepartureGroup text.now [] x.0 x.1 x.2) }
    ensures only { (near : StationValue) (far : Option StationValue) (minute : ℕ) →
        IsDepartureGroup text.now [] near far minute → result ≡ Some (near, far, minute) }
{
    if text.len() < 4 {
        return None;
    }
    let (time, stations) = text.split_at(4);
    let minute = read_time(time)?;
    let (near, far) = read_stations(stations)?;
    Some((near, far, minute))
}

/// The station, the further one if there is one, the minute of the day and the nights of a
/// turnaround's departure: a time, perhaps a digit of nights, then one station or two.
pub fn read_group_with_nights(text: &[u8]) -> Option<(Station, Option<Station>, u16, u8)>
    ensures found { IfSome result (λ x. (nights : List ℕ)
        × IsDepartureGroup text.now nights x.0 x.1 x.2 × IsNights nights x.3) }
    ensures only { (near : StationValue) (far : Option StationValue) (minute n : ℕ)
        (nights : List ℕ) → IsDepartureGroup text.now nights near far minute → IsNights nights n →
        result ≡ Some (near, far, minute, n) }
{
    if text.len() < 4 {
        return None;
    }
    let (time, rest) = text.split_at(4);
    let minute = read_time(time)?;
    let (nights, stations) = split_nights(rest);
    let (near, far) = read_stations(stations)?;
    Some((near, far, minute, nights))
}

/// The digit of nights in front, or 0, and what follows it.
fn split_nights(text: &[u8]) -> (u8, &[u8])
    ensures nights { result.0 ≡ leading_nights text.now }
    ensures rest { result.1.now ≡ after_nights text.now }
{
    match text {
        [b @ b'0'..=b'9', rest @ ..] => (b - b'0', rest),
        _ => (0, text),
    }
}

/// One station, or two.
fn read_stations(text: &[u8]) -> Option<(Station, Option<Station>)>
    ensures found { IfSome result (λ x. StationsFit x.0 x.1 × (text.now ≡ stations_text x.0 x.1)) }
    ensures only { (near : StationValue) (far : Option StationValue) → StationsFit near far →
        text.now ≡ stations_text near far → result ≡ Some (near, far) }
{
    if text.len() == 3 {
        return Some((Station::read(text)?, None));
    }
    if text.len() != 6 {
        return None;
    }
    let (front, back) = text.split_at(3);
    let near = Station::read(front)?;
    let far = Station::read(back)?;
    Some((near, Some(far)))
}

/// A letter for the service.
pub(crate) fn read_service(text: &[u8]) -> Option<u8>
    ensures found { IfSome result (λ service. (is_letter service ≡ true)
        × (text.now ≡ service ∷ [])) }
    ensures only { (service : ℕ) → is_letter service ≡ true → text.now ≡ service ∷ [] →
        result ≡ Some service }
{
    match text {
        [service] if is_letter_byte(*service) => Some(*service),
        _ => None,
    }
}

/// Letters for the services of an arrival and of a departure.
pub(crate) fn read_services(text: &[u8]) -> Option<(u8, u8)>
    ensures found { IfSome result (λ x. (is_letter x.0 ≡ true) × (is_letter x.1 ≡ true)
        × (text.now ≡ x.0 ∷ x.1 ∷ [])) }
    ensures only { (a d : ℕ) → is_letter a ≡ true → is_letter d ≡ true → text.now ≡ a ∷ d ∷ [] →
        result ≡ Some (a, d) }
{
    match text {
        [a, d] if is_letter_byte(*a) && is_letter_byte(*d) => Some((*a, *d)),
        _ => None,
    }
}
