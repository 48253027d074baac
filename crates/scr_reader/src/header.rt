//! The lines of a header.

ghost use Rattle.std.specs.Prelude.{◌≡◌, ◌∷◌, ◌≤◌, ◌<◌, ◌+◌, ◌^◌, ℕ, IfOk, IfErr, IfSome, Some, IsSomeAnd, IsTrue, Option, map, length, slice_get, codes, pos};
ghost use Rattle.std.specs.Option.{option_copied};
ghost use Rattle.season_days.specs.Seasons.{season_text};
ghost use Rattle.season_days.specs.Term.{Term};
ghost use Rattle.jiff_core.specs.Calendar.{days_in_month};
ghost use Rattle.slot_text.specs.Stations.{IsStation};
ghost use Rattle.slot_text.specs.declared.station.Station.{Station as StationValue};
ghost use Rattle.scr_reader.specs.declared.header.Header.{Header as HeaderValue};
ghost use Rattle.scr_reader.specs.Parts.{date_text, IsDayOfMonth};
ghost use Rattle.scr_reader.specs.Rows.{trimmed};
ghost use Rattle.scr_reader.specs.Private.Texts.{texts_in};
ghost use Rattle.scr_reader.specs.Messages.{parts_from_season, IsShort, has_address, header_parts, header_length, season_place, HeaderAgrees, IsMissingOrLong, IsPartFault, IsHeaderFault, title, address, season_name, date_name, airport_name};

use crate::fault::ScrFault;
use crate::period::read_month;
use crate::rows::trim;
use schedule_text::read_two_digits;
use season_days::Season;
use slot_text::{LONGEST_LINE, Station};

/// What the header of a message says: the season, the day and the month on which it was sent, and
/// the airport.
#[derive(Clone, Copy, Debug, PartialEq, Eq)]
pub struct Header {
    pub season: Season,
    pub day: u8,
    pub month: u8,
    pub airport: Station,
}

/// The header of the lines of a message, or the fault of the first of them that has one; the first
/// line has the number.
pub(crate) fn read_header(run: &[&[u8]], first: u32) -> Result<Header, ScrFault>
    requires { first + 5 < 2 ^ 32 }
    ensures found { IfOk result
        (λ header. HeaderAgrees 0 (header_parts (texts_in run.now)) (texts_in run.now) header) }
    ensures same { (other : HeaderValue) →
        HeaderAgrees 0 (header_parts (texts_in run.now)) (texts_in run.now) other →
        IfOk result (λ header. header ≡ other) }
    ensures fault { IfErr result
        (λ f. IsHeaderFault 0 (header_parts (texts_in run.now)) first (texts_in run.now) f) }
{
    check_title(line_at(run, 0), first)?;
    if has_address_line(run) {
        return read_names_after(run, first);
    }
    read_names(run, 1, first + 1)
}

/// How many lines the header has.
pub(crate) fn count_header(run: &[&[u8]]) -> usize
    ensures { result ≡ header_length (texts_in run.now) }
{
    if has_address_line(run) { 5 } else { 4 }
}

/// Whether the second line begins with a slash.
fn has_address_line(run: &[&[u8]]) -> bool
    ensures { result ≡ has_address (texts_in run.now) }
{
    matches!(run, [_, [b'/', ..], ..])
}

/// The line at a place, counted from 0.
fn line_at<'a>(run: &[&'a [u8]], place: usize) -> Option<&'a [u8]>
    ensures { option_copied result ≡ slice_get (texts_in run.now) place }
{
    run.get(place).copied()
}

fn read_names_after(run: &[&[u8]], first: u32) -> Result<Header, ScrFault>
    requires { first + 5 < 2 ^ 32 }
    ensures found { IfOk result
        (λ header. HeaderAgrees 1 (address ∷ parts_from_season) (texts_in run.now) header) }
    ensures same { (other : HeaderValue) →
        HeaderAgrees 1 (address ∷ parts_from_season) (texts_in run.now) other →
        IfOk result (λ header. header ≡ other) }
    ensures fault { IfErr result
        (λ f. IsHeaderFault 1 (address ∷ parts_from_season) first (texts_in run.now) f) }
{
    check_address(line_at(run, 1), first + 1)?;
    read_names(run, 2, first + 2)
}

/// The season, the date and the airport, on three lines.
fn read_names(run: &[&[u8]], place: usize, number: u32) -> Result<Header, ScrFault>
    requires place { place ≤ 2 }
    requires number { number + 2 < 2 ^ 32 }
    ensures found { IfOk result
        (λ header. HeaderAgrees place parts_from_season (texts_in run.now) header) }
    ensures same { (other : HeaderValue) →
        HeaderAgrees place parts_from_season (texts_in run.now) other →
        IfOk result (λ header. header ≡ other) }
    ensures fault { (first : ℕ) → number ≡ first + place →
        IfErr result (λ f. IsHeaderFault place parts_from_season first (texts_in run.now) f) }
{
    let season = read_season(line_at(run, place), number)?;
    let (day, month) = read_date(line_at(run, place + 1), number + 1)?;
    let airport = read_airport(line_at(run, place + 2), number + 2)?;
    Ok(Header {
        season,
        day,
        month,
        airport,
    })
}

/// A line that is there and is not too long.
fn short_line(line: Option<&[u8]>, number: u32) -> Result<&[u8], ScrFault>
    ensures found { IfOk result (λ text. IsShort text.now
        × (option_copied line.entry ≡ Some text.now)) }
    ensures fault { IfErr result (λ f. IsMissingOrLong number (option_copied line.entry) f) }
{
    let Some(text) = line else {
        return Err(ScrFault::BadHeader { line: number });
    };
    if text.len() > LONGEST_LINE {
        return Err(ScrFault::TooLong { line: number });
    }
    Ok(text)
}

fn check_title(line: Option<&[u8]>, number: u32) -> Result<(), ScrFault>
    ensures found { IfOk result (λ _. IsSomeAnd (option_copied line.entry) (λ text. IsShort text
        × (trimmed text ≡ codes "SCR"))) }
    ensures fault { IfErr result (λ f. IsPartFault title number (option_copied line.entry) f) }
{
    let text = short_line(line, number)?;
    if trim(text) != b"SCR".as_slice() {
        return Err(ScrFault::BadHeader { line: number });
    }
    Ok(())
}

fn check_address(line: Option<&[u8]>, number: u32) -> Result<(), ScrFault>
    ensures found { IfOk result (λ _. IsSomeAnd (option_copied line.entry) IsShort) }
    ensures fault { IfErr result (λ f. IsPartFault address number (option_copied line.entry) f) }
{
    short_line(line, number)?;
    Ok(())
}

fn read_season(line: Option<&[u8]>, number: u32) -> Result<Season, ScrFault>
    ensures found { IfOk result
        (λ season. IsSomeAnd (option_copied line.entry) (λ text. IsShort text
        × ((season.year < 100) × (trimmed text ≡ season_text season)))) }
    ensures same { (season : Term) →
        IsSomeAnd (option_copied line.entry) (λ text. IsShort text
        × ((season.year < 100) × (trimmed text ≡ season_text season))) →
        IfOk result (λ s. s ≡ season) }
    ensures fault { IfErr result
        (λ f. IsPartFault season_name number (option_copied line.entry) f) }
{
    let text = short_line(line, number)?;
    match Season::read(trim(text)) {
        Some(season) => Ok(season),
        None => Err(ScrFault::BadHeader { line: number }),
    }
}

fn read_date(line: Option<&[u8]>, number: u32) -> Result<(u8, u8), ScrFault>
    ensures found { IfOk result (λ x.
        IsSomeAnd (option_copied line.entry) (λ text. IsShort text
        × (IsDayOfMonth x.1 x.0 × (trimmed text ≡ date_text x.1 x.0)))) }
    ensures same { (day month : ℕ) →
        IsSomeAnd (option_copied line.entry) (λ text. IsShort text
        × (IsDayOfMonth month day × (trimmed text ≡ date_text month day))) →
        IfOk result (λ x. (x.0 ≡ day) × (x.1 ≡ month)) }
    ensures fault { IfErr result (λ f. IsPartFault date_name number (option_copied line.entry) f) }
{
    let text = short_line(line, number)?;
    match day_and_month(trim(text)) {
        Some(date) => Ok(date),
        None => Err(ScrFault::BadHeader { line: number }),
    }
}

fn read_airport(line: Option<&[u8]>, number: u32) -> Result<Station, ScrFault>
    ensures found { IfOk result
        (λ airport. IsSomeAnd (option_copied line.entry) (λ text. IsShort text
        × (IsStation airport.0 × (trimmed text ≡ airport.0)))) }
    ensures same { (airport : StationValue) →
        IsSomeAnd (option_copied line.entry) (λ text. IsShort text
        × (IsStation airport.0 × (trimmed text ≡ airport.0))) → IfOk result (λ x. x ≡ airport) }
    ensures fault { IfErr result
        (λ f. IsPartFault airport_name number (option_copied line.entry) f) }
{
    let text = short_line(line, number)?;
    match Station::read(trim(text)) {
        Some(airport) => Ok(airport),
        None => Err(ScrFault::BadHeader { line: number }),
    }
}

/// A day and a month that has it; February has 29 days.
fn day_and_month(text: &[u8]) -> Option<(u8, u8)>
    ensures found { IfSome result (λ x. IsDayOfMonth x.1 x.0 × (text.now ≡ date_text x.1 x.0)) }
    ensures only { (day month : ℕ) → IsDayOfMonth month day → text.now ≡ date_text month day →
        result ≡ Some (day, month) }
{
    if text.len() != 5 {
        return None;
    }
    let (day, month) = text.split_at(2);
    let day = read_two_digits(day)?;
    let month = read_month(month)?;
    if day == 0 {
        return None;
    }
    if day > days_of(month) {
        return None;
    }
    Some((day, month))
}

fn days_of(month: u8) -> u8
    requires { (1 ≤ month) × (month ≤ 12) }
    ensures { result ≡ days_in_month (pos 2000) month }
{
    match month {
        2 => 29,
        4 | 6 | 9 | 11 => 30,
        _ => 31,
    }
}
