//! Forms of the fields of a capacity file, and what is wrong with a field.

ghost use Rattle.std.specs.Prelude.{◌↔◌, IsTrue};
ghost use Rattle.schedule_text.specs.Days.{IsDays};
ghost use Rattle.fault_causes.specs.Forms.{HasForm, IsNotAllowed, IsFlaw};

use crate::cause::Flaw;
use schedule_text::{read_kind, read_time, read_weekdays};
use season_days::Season;
use slot_text::{Station, read_u64};

/// What a field of a capacity file has to be.
#[derive(Clone, Copy)]
pub(crate) enum Form {
    /// The three letters of an airport.
    Airport,
    /// A season.
    Season,
    /// One of the steps that are allowed.
    Step,
    /// A number from `least` to `most`.
    Number { least: u64, most: u64 },
    /// A price from 1 to `most`, or NONE.
    Price { most: u64 },
    /// A kind of movements.
    Kind,
    /// A time of the day.
    Time,
    /// A time of the day that is not before that of the field before it.
    Later,
    /// A time of the day other than that of the field before it.
    Other,
    /// Weekdays, of which there is one at least.
    Days,
}

// Whether a number from `least` to `most` is spelled.
fn is_number(text: &[u8], least: u64, most: u64) -> bool
    ensures { IsTrue result ↔ HasForm (Form.Number least most) text.now }
{
    match read_u64(text) {
        Ok(n) => n >= least && n <= most,
        Err(_) => false,
    }
}

// Whether a step is spelled.
fn is_step(text: &[u8]) -> bool
    ensures { IsTrue result ↔ HasForm Form.Step text.now }
{
    match read_u64(text) {
        Ok(n) => n == 5 || n == 10 || n == 15 || n == 20 || n == 30 || n == 60,
        Err(_) => false,
    }
}

/// Whether a field has its form, whatever stands beside it.
pub(crate) fn has_form(form: Form, text: &[u8]) -> bool
    ensures { IsTrue result ↔ HasForm form text.now }
{
    match form {
        Form::Airport => Station::read(text).is_some(),
        Form::Season => Season::read(text).is_some(),
        Form::Step => is_step(text),
        Form::Number { least, most } => is_number(text, least, most),
        Form::Price { most } => text == b"NONE".as_slice() || is_number(text, 1, most),
        Form::Kind => read_kind(text).is_some(),
        Form::Time | Form::Later | Form::Other => read_time(text).is_some(),
        Form::Days => read_weekdays(text).is_some(),
    }
}

// Whether both spell times of the day, the second an earlier one.
fn is_before(before: &[u8], text: &[u8]) -> bool
    ensures { IsTrue result ↔ IsNotAllowed Form.Later before.now text.now Flaw.Before }
{
    match (read_time(before), read_time(text)) {
        (Some(one), Some(two)) => two < one,
        _ => false,
    }
}

// Whether both spell the same time of the day.
fn is_same(before: &[u8], text: &[u8]) -> bool
    ensures { IsTrue result ↔ IsNotAllowed Form.Other before.now text.now Flaw.Same }
{
    match (read_time(before), read_time(text)) {
        (Some(one), Some(two)) => one == two,
        _ => false,
    }
}

// Whether no weekday is named.
fn is_empty(text: &[u8]) -> bool
    ensures { IsTrue result ↔ IsDays text.now 0 }
{
    match read_weekdays(text) {
        Some(days) => days == 0,
        None => false,
    }
}

/// What is wrong with a field, behind one with this text.
pub(crate) fn flaw_of(form: Form, before: &[u8], text: &[u8]) -> Option<Flaw>
    ensures { IsFlaw form before.now text.now result }
{
    if !has_form(form, text) {
        return Some(Flaw::Form);
    }
    match form {
        Form::Later if is_before(before, text) => Some(Flaw::Before),
        Form::Other if is_same(before, text) => Some(Flaw::Same),
        Form::Days if is_empty(text) => Some(Flaw::Empty),
        _ => None,
    }
}
