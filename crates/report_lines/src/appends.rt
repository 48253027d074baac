//! Words of a report, appended to its text.

ghost use Rattle.std.specs.Prelude.{◌≡◌, ◌++◌, OnOk};
ghost use Rattle.std.specs.Fmt.{decimal};
ghost use Rattle.season_days.specs.Capacity.{capacity_of};
ghost use Rattle.schedule_text.specs.Times.{time_text, two_digits};
ghost use Rattle.scr_reader.specs.Printed.{LineFits, nights_text};
ghost use Rattle.report_lines.specs.Words.{stop_word, times_words, name_words, resource_words, quoted, IsNamedDay};

use crate::names::{WindowName, name_of};
use capacity_windows::Windows;
use scr_reader::{Code, Line, Stop, print_day, print_line};
use season_days::{Day, Declaration, MINUTES_OF_DAY, Season};
use series_model::Times;
use slot_text::{Memory, put_number};
use std::alloc::Global;

/// Appends bytes.
pub fn put(out: &mut Vec<u8>, bytes: &[u8]) -> Result<(), Memory>
    ensures { OnOk result (out.new.items ≡ out.old.items ++ bytes.now) }
{
    out.extend_from_slice(bytes)?;
    Ok(())
}

/// Appends words, and a number after them.
pub fn put_tagged(alloc: Global, out: &mut Vec<u8>, words: &[u8], number: u64) -> Result<(), Memory>
    ensures { OnOk result (out.new.items ≡ out.old.items ++ (words.now ++ decimal number)) }
{
    put(out, words)?;
    put_number(alloc, out, number)
}

// The two digits of a number below 100.
fn two_digits(n: u32) -> [u8; 2]
    ensures { result ≡ two_digits n }
{
    [b'0' + (n / 10 % 10) as u8, b'0' + (n % 10) as u8]
}

/// Appends the time of a minute of the day.
pub fn put_time(out: &mut Vec<u8>, minute: u32) -> Result<(), Memory>
    ensures { OnOk result (out.new.items ≡ out.old.items ++ time_text minute) }
{
    put(out, &two_digits(minute / 60))?;
    put(out, &two_digits(minute % 60))
}

// Appends a number of nights, where it is not 0.
fn put_nights(out: &mut Vec<u8>, nights: u32) -> Result<(), Memory>
    ensures { OnOk result (out.new.items ≡ out.old.items ++ nights_text nights) }
{
    if nights == 0 {
        Ok(())
    } else {
        put(out, &[b'0' + (nights % 10) as u8])
    }
}

// Appends the time of a movement, or a hyphen where the line has none.
fn put_stop(out: &mut Vec<u8>, stop: Option<Stop>, minute: u32) -> Result<(), Memory>
    ensures { OnOk result (out.new.items ≡ out.old.items ++ stop_word stop minute) }
{
    match stop {
        Some(_) => {
            put_time(out, minute % MINUTES_OF_DAY)?;
            put_nights(out, minute / MINUTES_OF_DAY)
        }
        None => put(out, b"-"),
    }
}

/// Appends the two words of times of a line.
pub fn put_times(out: &mut Vec<u8>, line: &Line, times: Times) -> Result<(), Memory>
    ensures { OnOk result (out.new.items ≡ out.old.items ++ times_words line.now times) }
{
    match times {
        Times::Refused => put(out, b"- -"),
        Times::At { arrival, departure } => {
            put_stop(out, line.arrival, arrival)?;
            put(out, b" ")?;
            put_stop(out, line.departure, departure)
        }
    }
}

/// Appends the name of a window, or of the night quota.
pub fn put_name(
    alloc: Global,
    out: &mut Vec<u8>,
    season: &Season,
    name: WindowName,
) -> Result<(), Memory>
    requires { IsNamedDay season.now name }
    ensures { OnOk result (out.new.items ≡ out.old.items ++ name_words season.now name) }
{
    match name {
        WindowName::Window { line, day, minute } => {
            put_tagged(alloc, out, b"CAP ", u64::from(line))?;
            put(out, b" ")?;
            print_day(alloc, out, season, Day(day))?;
            put(out, b" ")?;
            put_time(out, minute)
        }
        WindowName::Night => put(out, b"NIGHT"),
        WindowName::Nothing => Ok(()),
    }
}

/// Appends the name of a resource of a declaration.
pub fn put_resource(
    alloc: Global,
    out: &mut Vec<u8>,
    declaration: &Declaration,
    windows: &Windows,
    resource: u32,
) -> Result<(), Memory>
    requires { windows.now ≡ capacity_of declaration.now }
    ensures { OnOk result (out.new.items ≡ out.old.items ++ resource_words windows.now resource) }
{
    let name = name_of(declaration, windows, resource);
    put_name(alloc, out, &declaration.season, name)
}

/// Appends a word, a line in its printed spelling with a code, and a line end.
pub fn put_quoted(
    alloc: Global,
    out: &mut Vec<u8>,
    season: &Season,
    word: &[u8],
    code: Code,
    line: &Line,
) -> Result<(), Memory>
    requires { LineFits season.now line.now }
    ensures { OnOk result
        (out.new.items ≡ out.old.items ++ quoted season.now word.now code line.now) }
{
    put(out, word)?;
    print_line(alloc, out, season, code, line)?;
    put(out, b"\n")
}
