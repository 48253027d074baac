//! The texts of a generated season: its capacity file and its requests.

ghost use Rattle.std.specs.Prelude.{◌≡◌, ◌<◌, ◌≤◌, ◌+◌, ◌++◌, ℕ, IfOk, OnOk};
ghost use Rattle.scr_reader.specs.Printed.{item_text};
ghost use Rattle.scr_reader.specs.Messages.{header_of};
ghost use Rattle.scr_reader.specs.declared.line.Item.TheVariants.{One};
ghost use Rattle.choice_problem.specs.declared.problems.TheConstants.{MOST_UNITS};
ghost use Rattle.season_maker.specs.Generated.{summer_2025, unit_line, generated_message};
ghost use Rattle.season_maker.specs.Loops.{IsBefore};
ghost use Rattle.season_maker.specs.Texts.{generated_capacity, generated_requests};

use crate::draws::Draws;
use crate::units::draw_line;
use scr_reader::{Header, Item, print_header, print_item};
use season_days::Season;
use slot_text::{Memory, Station, put_number};
use std::alloc::Global;

/// The capacity file and the requests of the generated season of a number and of so many units, at
/// most 4,096. Numbers that leave the same rest modulo 65,537 give the same season. Linear in the
/// units: a line of requests has at most 60 bytes.
pub fn make_season(alloc: Global, number: u32, units: u32) -> Result<(Vec<u8>, Vec<u8>), Memory>
    requires { units ≤ MOST_UNITS }
    ensures capacity { IfOk result (λ files. files.0.items ≡ generated_capacity units) }
    ensures requests { IfOk result (λ files. files.1.items ≡ generated_requests number units) }
{
    let capacity = capacity_file(alloc, units)?;
    let requests = requests_file(alloc, number, units)?;
    Ok((capacity, requests))
}

/// The capacity file.
fn capacity_file(alloc: Global, units: u32) -> Result<Vec<u8>, Memory>
    requires { units ≤ MOST_UNITS }
    ensures { IfOk result (λ text. text.items ≡ generated_capacity units) }
{
    let mut text = Vec::new(alloc);
    text.extend_from_slice(b"AIRPORT ABC\nSEASON S25\nSTEP 5\nFLEX 30\nGROUND 40\nREFUSE 60\n")?;
    text.extend_from_slice(b"CAP ARR 60 0600 2200 1234567 ")?;
    put_number(alloc, &mut text, u64::from(3 * ((units + 191) / 192) + 2))?;
    text.push(b'\n')?;
    Ok(text)
}

/// The season of the requests.
fn season() -> Season
    ensures { result ≡ summer_2025 }
{
    Season::read(b"S25").unwrap()
}

/// The file of requests.
fn requests_file(alloc: Global, number: u32, units: u32) -> Result<Vec<u8>, Memory>
    requires { units ≤ MOST_UNITS }
    ensures { IfOk result (λ text. text.items ≡ generated_requests number units) }
{
    let season = season();
    let header = Header {
        season,
        day: 20,
        month: 11,
        airport: Station(*b"ABC"),
    };
    let mut text = Vec::new(alloc);
    print_header(alloc, &mut text, &header)?;
    let mut draws = Draws::new(number);
    for unit in 0..units {
        put_unit(alloc, &mut text, &season, &mut draws, unit)?;
    }
    Ok(text)
}

/// Appends the line of a unit, with its LF.
fn put_unit(
    alloc: Global,
    text: &mut Vec<u8>,
    season: &Season,
    draws: &mut Draws,
    unit: u32,
) -> Result<(), Memory>
    requires season { season.now ≡ summer_2025 }
    requires few { unit < MOST_UNITS }
    ensures text { (number : ℕ) → IsBefore number unit draws.old.state →
        OnOk result (text.new.items
        ≡ text.old.items ++ item_text summer_2025 (One (unit_line number unit))) }
    ensures state { (number : ℕ) → IsBefore number unit draws.old.state →
        IsBefore number (unit + 1) draws.new.state }
{
    let line = draw_line(draws, unit);
    print_item(alloc, text, season, &Item::One(line))
}
