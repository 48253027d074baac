//! The fields behind each word of a capacity file, and the first that is bad.

ghost use Rattle.std.specs.Prelude.{◌≡◌, ◌<◌, ◌^◌, ◌∷◌, [], length};
ghost use Rattle.slot_text.specs.Fields.{fields_of};
ghost use Rattle.fault_causes.specs.Capacities.{wanted, fields_behind, IsFieldCause};

use crate::cause::{Cause, FieldName, Flaw, LineWord};
use crate::form::{Form, flaw_of};
use season_days::{
    HIGHEST_NIGHT_LIMIT, HIGHEST_REFUSAL_PRICE, HIGHEST_SHARE, HIGHEST_WINDOW_LIMIT, MINUTES_OF_DAY,
};
use slot_text::split_field;

/// A field that a line has to have.
#[derive(Clone, Copy)]
pub(crate) struct Wanted {
    pub name: FieldName,
    pub form: Form,
}

fn want(name: FieldName, form: Form) -> Wanted
    ensures { result ≡ wanted name form }
{
    Wanted { name, form }
}

fn number(name: FieldName, least: u32, most: u32) -> Wanted
    ensures { result ≡ wanted name (Form.Number least most) }
{
    let form = Form::Number {
        least: u64::from(least),
        most: u64::from(most),
    };
    Wanted { name, form }
}

// The first bad one of the fields that are wanted, counted from 2; or one too many.
fn first_bad(wants: &[Wanted], fields: &[u8]) -> Cause
    requires { length wants.now < 2 ^ 8 }
    ensures { IsFieldCause wants.now [] 2 (fields_of fields.now) result }
{
    let mut rest = fields;
    let mut before: &[u8] = &[];
    let mut place = 2;
    for wanted in wants {
        let Some((text, after)) = split_field(rest) else {
            return Cause::Field(place, wanted.name, Flaw::Missing);
        };
        if let Some(flaw) = flaw_of(wanted.form, before, text) {
            return Cause::Field(place, wanted.name, flaw);
        }
        before = text;
        rest = after;
        place += 1;
    }
    match split_field(rest) {
        Some(_) => Cause::End(place),
        None => Cause::Step,
    }
}

// Of the one value of a line.
fn value_cause(form: Form, fields: &[u8]) -> Cause
    ensures { IsFieldCause (wanted FieldName.Value form ∷ []) [] 2 (fields_of fields.now) result }
{
    first_bad(&[want(FieldName::Value, form)], fields)
}

fn count_cause(most: u32, fields: &[u8]) -> Cause
    ensures { IsFieldCause (wanted FieldName.Value (Form.Number 0 most) ∷ []) [] 2
        (fields_of fields.now) result }
{
    first_bad(&[number(FieldName::Value, 0, most)], fields)
}

fn night_cause(fields: &[u8]) -> Cause
    ensures { IsFieldCause (fields_behind LineWord.Night) [] 2 (fields_of fields.now) result }
{
    first_bad(
        &[
            want(FieldName::From, Form::Time),
            want(FieldName::To, Form::Other),
            number(FieldName::Limit, 0, HIGHEST_NIGHT_LIMIT),
        ],
        fields,
    )
}

fn cap_cause(fields: &[u8]) -> Cause
    ensures { IsFieldCause (fields_behind LineWord.Cap) [] 2 (fields_of fields.now) result }
{
    first_bad(
        &[
            want(FieldName::Kind, Form::Kind),
            number(FieldName::Length, 1, MINUTES_OF_DAY),
            want(FieldName::From, Form::Time),
            want(FieldName::To, Form::Later),
            want(FieldName::Days, Form::Days),
            number(FieldName::Limit, 0, HIGHEST_WINDOW_LIMIT),
        ],
        fields,
    )
}

/// Why a line is bad that begins with a word: the first bad field of these.
pub(crate) fn field_cause(word: LineWord, fields: &[u8]) -> Cause
    ensures { IsFieldCause (fields_behind word) [] 2 (fields_of fields.now) result }
{
    match word {
        LineWord::Airport => value_cause(Form::Airport, fields),
        LineWord::Season => value_cause(Form::Season, fields),
        LineWord::Step => value_cause(Form::Step, fields),
        LineWord::Flex => value_cause(
            Form::Number {
                least: 0,
                most: u64::MAX,
            },
            fields,
        ),
        LineWord::Ground => count_cause(MINUTES_OF_DAY, fields),
        LineWord::Share => count_cause(HIGHEST_SHARE, fields),
        LineWord::Refuse => value_cause(
            Form::Price {
                most: u64::from(HIGHEST_REFUSAL_PRICE),
            },
            fields,
        ),
        LineWord::Night => night_cause(fields),
        LineWord::Cap => cap_cause(fields),
    }
}
