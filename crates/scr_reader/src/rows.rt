//! What a line below a header is by itself.

ghost use Rattle.std.specs.Prelude.{◌≡◌, ◌≤◌, length, true, false};
ghost use Rattle.slot_text.specs.Fields.{is_blank};
ghost use Rattle.scr_reader.specs.Rows.{is_remark, is_question, trimmed};
ghost use Rattle.scr_reader.specs.Private.Readings.{IsRowReading};

use crate::fields::Fields;
use crate::line::{Flight, Line};
use crate::line_reader::{read_line, read_question};
use season_days::Season;
use slot_text::{LONGEST_LINE, is_blank_byte};

/// What a line below the header is by itself.
#[derive(Clone, Copy, Debug, PartialEq, Eq)]
pub(crate) enum Reading {
    Remark,
    LongRemark,
    TooLong,
    Bad(u32),
    Entry(Line),
    Question(Flight),
}

/// What a line is by itself.
pub(crate) fn read_row(season: &Season, line: &[u8]) -> Reading
    ensures { IsRowReading season.now line.now result }
{
    let long = line.len() > LONGEST_LINE;
    if is_remark_line(line) {
        return if long {
            Reading::LongRemark
        } else {
            Reading::Remark
        };
    }
    if long {
        return Reading::TooLong;
    }
    read_fields(season, line)
}

fn read_fields(season: &Season, line: &[u8]) -> Reading
    requires fields { is_remark line.now ≡ false }
    requires short { length line.now ≤ LONGEST_LINE }
    ensures { IsRowReading season.now line.now result }
{
    let fields = Fields::cut(line);
    if asks(&fields) {
        return match read_question(&fields) {
            Ok(flight) => Reading::Question(flight),
            Err(field) => Reading::Bad(field),
        };
    }
    match read_line(season, &fields) {
        Ok(line) => Reading::Entry(line),
        Err(field) => Reading::Bad(field),
    }
}

/// Whether the first field begins with Q.
fn asks(fields: &Fields<'_>) -> bool
    ensures { result ≡ is_question fields.now }
{
    matches!(fields.get(1), Some([b'Q', ..]))
}

/// Whether a line is passed over: SI or GI, followed by a blank or the end.
fn is_remark_line(line: &[u8]) -> bool
    ensures { result ≡ is_remark line.now }
{
    match line {
        [b'S' | b'G', b'I'] => true,
        [b'S' | b'G', b'I', b, ..] => *b == b' ' || *b == b'\t',
        _ => false,
    }
}

/// The line without its trailing blanks.
pub(crate) fn trim(line: &[u8]) -> &[u8]
    ensures { result.now ≡ trimmed line.now }
{
    let mut end = 0;
    for (i, b) in line.iter().enumerate() {
        if !is_blank_byte(*b) {
            end = i + 1;
        }
    }
    &line[..end]
}
