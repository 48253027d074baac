//! Why a text is no list of messages, and why messages make no submission.

ghost use Rattle.std.specs.Prelude.{◌≡◌, ◌<◌, ◌^◌, ◌-◌, if◌then◌else◌, length};
ghost use Rattle.slot_text.specs.Fields.{fields_of, field_at};
ghost use Rattle.scr_reader.specs.Messages.{HasScrFault};
ghost use Rattle.scr_reader.specs.Shapes.{shape_of};
ghost use Rattle.scr_reader.specs.declared.fault.ScrFault.TheVariants.{BadLine as bad_line};
ghost use Rattle.fault_causes.specs.Requests.{header_line, part_named, IsPartCause, IsQuestionCause, IsFieldCause, IsMessageCause, IsCodeCause, IsSubmissionCause, HasSubmissionFault};
ghost use Rattle.fault_causes.specs.declared.cause.Cause.{Cause as CauseValue};

use crate::capacity::line_of;
use crate::cause::{Cause, FieldName, Flaw, HeaderName, OtherCode};
use crate::seasons::standing_of;
use crate::shape::{name_at, part_flaw};
use choice_problem::MOST_UNITS;
use scr_reader::ScrFault;
use season_days::Season;
use series_model::ModelFault;
use slot_text::{field, is_blank_byte};

// What a line of the header has to be that stands below so many, and an address.
fn header_name(above: u32, address: bool) -> HeaderName
    ensures { result ≡ header_line (if address then above - 1 else above) }
{
    let above = if address {
        above.saturating_sub(1)
    } else {
        above
    };
    match above {
        0 => HeaderName::Scr,
        1 => HeaderName::Season,
        2 => HeaderName::Date,
        _ => HeaderName::Airport,
    }
}

// Why a field of a question has not its form.
fn question_cause(number: u32) -> Cause
    ensures { IsQuestionCause number result }
{
    if number == 1 {
        Cause::Field(1, FieldName::Flight, Flaw::Form)
    } else {
        Cause::End(number)
    }
}

// Why the field of a number has not its form.
fn field_cause(season: &Season, line: &[u8], number: u32) -> Cause
    ensures { IsFieldCause season.now line.now number result }
{
    match line {
        [first, ..] if *first == b'Q' => question_cause(number),
        [first, ..] if !is_blank_byte(*first) => part_cause(season, line, number),
        _ => Cause::Blank,
    }
}

// The same of a line that is no question.
fn part_cause(season: &Season, line: &[u8], number: u32) -> Cause
    ensures { IsPartCause season.now (shape_of (fields_of line.now)) number
        (part_named (fields_of line.now) number) (field_at (fields_of line.now) number) result }
{
    match (name_at(line, number), field(line, number)) {
        (None, _) => Cause::End(number),
        (Some(name), None) => Cause::Field(number, name, Flaw::Missing),
        (Some(name), Some(text)) => {
            Cause::Field(number, name, part_flaw(season, line, name, text))
        }
    }
}

// Why a line of a message is bad.
fn line_cause(text: &[u8], number: u32, at: u32) -> Cause
    requires short { length text.now < 2 ^ 32 }
    requires has { HasScrFault text.now (bad_line number at) }
    ensures { IsMessageCause text.now (bad_line number at) result }
{
    let line = line_of(text, number);
    match field(standing_of(text, number).season, 1) {
        Some(name) => match Season::read(name) {
            Some(season) => field_cause(&season, line, at),
            None => Cause::Header(HeaderName::Season),
        },
        None => Cause::Header(HeaderName::Season),
    }
}

/// Why a text is no list of messages, by the fault that `scr_reader::read_all` answers.
pub fn message_cause(text: &[u8], fault: ScrFault) -> Cause
    requires short { length text.now < 2 ^ 32 }
    requires has { HasScrFault text.now fault }
    ensures { IsMessageCause text.now fault result }
{
    match fault {
        ScrFault::BadLine { line, field } => line_cause(text, line, field),
        ScrFault::BadHeader { line } => {
            let at = standing_of(text, line);
            Cause::Header(header_name(at.above, at.address))
        }
        ScrFault::Unpaired { .. } => Cause::Unpaired,
        ScrFault::TooLong { .. } => Cause::Long,
        ScrFault::Memory => Cause::Unpaired,
    }
}

// The code of a line that makes no unit.
fn code_cause(line: &[u8]) -> Cause
    requires { (cause : CauseValue) × IsCodeCause line.now cause }
    ensures { IsCodeCause line.now result }
{
    match line {
        [b'D', ..] => Cause::Code(OtherCode::D),
        [b'A', ..] => Cause::Code(OtherCode::A),
        [b'Z', ..] => Cause::Code(OtherCode::Z),
        _ => Cause::Code(OtherCode::Q),
    }
}

/// Why messages that were read from a text make no submission, by the fault that
/// `series_model::Submission::make` answers.
pub fn submission_cause(text: &[u8], fault: ModelFault) -> Cause
    requires short { length text.now < 2 ^ 32 }
    requires has { HasSubmissionFault text.now fault }
    ensures { IsSubmissionCause text.now fault result }
{
    match fault {
        ModelFault::OtherSeason { .. } => Cause::OtherSeason,
        ModelFault::OtherAirport { .. } => Cause::OtherAirport,
        ModelFault::NotInitial { line } => code_cause(line_of(text, line)),
        ModelFault::TooMany { .. } => Cause::Most(MOST_UNITS as u64),
        ModelFault::Memory => Cause::Blank,
    }
}
