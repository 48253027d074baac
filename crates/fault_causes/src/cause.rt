//! Causes, and what each prints.

ghost use Rattle.std.specs.Prelude.{◌≡◌, Some};
ghost use Rattle.fault_causes.specs.Causes.{line_word_text, header_text, name_text, flaw_text, code_text, cause_text};

use std::fmt;

/// A word with which a line of a capacity file begins.
#[derive(Clone, Copy, Debug, PartialEq, Eq)]
pub enum LineWord {
    Airport,
    Season,
    Step,
    Flex,
    Ground,
    Share,
    Refuse,
    Night,
    Cap,
}

/// A line of a message's header.
#[derive(Clone, Copy, Debug, PartialEq, Eq)]
pub enum HeaderName {
    /// The first line, `SCR`.
    Scr,
    /// The season.
    Season,
    /// The date.
    Date,
    /// The airport.
    Airport,
}

/// What a field is for.
#[derive(Clone, Copy, Debug, PartialEq, Eq)]
pub enum FieldName {
    /// The word with which a line of a capacity file begins.
    Word,
    /// The one value of such a line.
    Value,
    Kind,
    Length,
    From,
    To,
    Days,
    Limit,
    Code,
    Flight,
    Period,
    Seats,
    Arrival,
    Departure,
    Service,
}

/// What is wrong with a field.
#[derive(Clone, Copy, Debug, PartialEq, Eq)]
pub enum Flaw {
    /// It has not its form, or a value that is not allowed.
    Form,
    /// It is not there.
    Missing,
    /// It names a time before that of the field before it, or a departure before the arrival.
    Before,
    /// It names the same time as the field before it.
    Same,
    /// It names no weekday, or none on which the period has a date.
    Empty,
    /// It names a date that does not exist.
    Date,
    /// It names a date outside the season.
    Outside,
    /// Its second date is before its first.
    Reversed,
}

/// A code with which a line by itself makes no unit.
#[derive(Clone, Copy, Debug, PartialEq, Eq)]
pub enum OtherCode {
    /// Deleted.
    D,
    /// An offer accepted.
    A,
    /// An offer declined.
    Z,
    /// A question.
    Q,
}

/// Why a file is refused.
#[derive(Clone, Copy, Debug, PartialEq, Eq)]
pub enum Cause {
    /// A limit is passed, which is this.
    Most(u64),
    /// No line begins with the word.
    NoLine(LineWord),
    /// Two lines begin with the word.
    Twice(LineWord),
    /// The line has more than 200 bytes.
    Long,
    /// A blank stands where none may.
    Blank,
    /// The field of this number, counted from 1, is bad.
    Field(u32, FieldName, Flaw),
    /// The field of this number is one too many.
    End(u32),
    /// The FLEX is no multiple of the STEP.
    Step,
    /// The line of the header has not its form.
    Header(HeaderName),
    /// A line of a pair stands alone.
    Unpaired,
    /// Another season than the declared one.
    OtherSeason,
    /// Another airport than the declared one.
    OtherAirport,
    /// A line with this code makes no unit.
    Code(OtherCode),
}

impl fmt::Display for LineWord {
    ghost output = { λ word. Some (line_word_text word) };

    fn fmt<W: fmt::Write>(&self, f: &mut fmt::Formatter<W>) -> fmt::Result {
        f.write_str(match self {
            LineWord::Airport => "AIRPORT",
            LineWord::Season => "SEASON",
            LineWord::Step => "STEP",
            LineWord::Flex => "FLEX",
            LineWord::Ground => "GROUND",
            LineWord::Share => "SHARE",
            LineWord::Refuse => "REFUSE",
            LineWord::Night => "NIGHT",
            LineWord::Cap => "CAP",
        })
    }
}

impl fmt::Display for HeaderName {
    ghost output = { λ name. Some (header_text name) };

    fn fmt<W: fmt::Write>(&self, f: &mut fmt::Formatter<W>) -> fmt::Result {
        f.write_str(match self {
            HeaderName::Scr => "SCR",
            HeaderName::Season => "SEASON",
            HeaderName::Date => "DATE",
            HeaderName::Airport => "AIRPORT",
        })
    }
}

impl fmt::Display for FieldName {
    ghost output = { λ name. Some (name_text name) };

    fn fmt<W: fmt::Write>(&self, f: &mut fmt::Formatter<W>) -> fmt::Result {
        f.write_str(match self {
            FieldName::Word => "WORD",
            FieldName::Value => "VALUE",
            FieldName::Kind => "KIND",
            FieldName::Length => "LENGTH",
            FieldName::From => "FROM",
            FieldName::To => "TO",
            FieldName::Days => "DAYS",
            FieldName::Limit => "LIMIT",
            FieldName::Code => "CODE",
            FieldName::Flight => "FLIGHT",
            FieldName::Period => "PERIOD",
            FieldName::Seats => "SEATS",
            FieldName::Arrival => "ARRIVAL",
            FieldName::Departure => "DEPARTURE",
            FieldName::Service => "SERVICE",
        })
    }
}

impl fmt::Display for Flaw {
    ghost output = { λ flaw. Some (flaw_text flaw) };

    fn fmt<W: fmt::Write>(&self, f: &mut fmt::Formatter<W>) -> fmt::Result {
        f.write_str(match self {
            Flaw::Form => "",
            Flaw::Missing => " MISSING",
            Flaw::Before => " BEFORE",
            Flaw::Same => " SAME",
            Flaw::Empty => " EMPTY",
            Flaw::Date => " DATE",
            Flaw::Outside => " OUTSIDE",
            Flaw::Reversed => " REVERSED",
        })
    }
}

impl fmt::Display for OtherCode {
    ghost output = { λ code. Some (code_text code) };

    fn fmt<W: fmt::Write>(&self, f: &mut fmt::Formatter<W>) -> fmt::Result {
        f.write_str(match self {
            OtherCode::D => "D",
            OtherCode::A => "A",
            OtherCode::Z => "Z",
            OtherCode::Q => "Q",
        })
    }
}

impl fmt::Display for Cause {
    ghost output = { λ cause. Some (cause_text cause) };

    fn fmt<W: fmt::Write>(&self, f: &mut fmt::Formatter<W>) -> fmt::Result {
        match *self {
            Cause::Most(limit) => write!(f, "MOST {limit}"),
            Cause::NoLine(word) => write!(f, "MISSING {word}"),
            Cause::Twice(word) => write!(f, "TWICE {word}"),
            Cause::Long => f.write_str("LONG"),
            Cause::Blank => f.write_str("BLANK"),
            Cause::Field(n, name, flaw) => write!(f, "FIELD {n} {name}{flaw}"),
            Cause::End(n) => write!(f, "FIELD {n} END"),
            Cause::Step => f.write_str("STEP"),
            Cause::Header(name) => write!(f, "HEADER {name}"),
            Cause::Unpaired => f.write_str("UNPAIRED"),
            Cause::OtherSeason => f.write_str("OTHER SEASON"),
            Cause::OtherAirport => f.write_str("OTHER AIRPORT"),
            Cause::Code(code) => write!(f, "CODE {code}"),
        }
    }
}
