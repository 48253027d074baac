//! One line that says a report.

ghost use Rattle.std.specs.Prelude.{◌≡◌, ℕ, List, [], ◌∷◌, Some, IfSome, MatchOption, codes};
ghost use Rattle.slot_text.specs.Fields.{fields_of};
ghost use Rattle.season_days.specs.declared.declaration.Kind.{Kind as KindValue};
ghost use Rattle.schedule_text.specs.Kinds.{kind_text};
ghost use Rattle.usage_watch.specs.Reports.{IsOneKind, IsReport};
ghost use Rattle.usage_watch.specs.declared.operated.Operated.{Operated as OperatedValue};

use crate::operated::Operated;
use scr_reader::{read_flight, read_period};
use season_days::{Kind, Season};
use slot_text::{LONGEST_LINE, is_trimmed, split_field};

/// The fields of a report behind its word.
#[derive(Clone, Copy)]
pub(crate) struct ReportFields<'a> {
    pub kind: &'a [u8],
    pub flight: &'a [u8],
    pub dates: &'a [u8],
    pub days: &'a [u8],
}

/// The fields of a line that begins with OPER, if four are left and no more.
fn report_fields(line: &[u8]) -> Option<ReportFields<'_>>
    ensures { MatchOption result
        ((a b c d : List ℕ) → fields_of line.now ≡ codes "OPER" ∷ a ∷ b ∷ c ∷ d ∷ [] → ⊥)
        (λ x. fields_of line.now ≡ codes "OPER" ∷ x.kind.now ∷ x.flight.now ∷ x.dates.now
        ∷ x.days.now ∷ []) }
{
    let (word, rest) = split_field(line)?;
    if word != b"OPER".as_slice() {
        return None;
    }
    four_fields(rest)
}

/// Four fields, if no more are left.
fn four_fields(text: &[u8]) -> Option<ReportFields<'_>>
    ensures { MatchOption result
        ((a b c d : List ℕ) → fields_of text.now ≡ a ∷ b ∷ c ∷ d ∷ [] → ⊥)
        (λ x. fields_of text.now ≡ x.kind.now ∷ x.flight.now ∷ x.dates.now ∷ x.days.now ∷ []) }
{
    let (kind, rest) = split_field(text)?;
    let (flight, rest) = split_field(rest)?;
    let (dates, rest) = split_field(rest)?;
    let (days, rest) = split_field(rest)?;
    match split_field(rest) {
        None => Some(ReportFields {
            kind,
            flight,
            dates,
            days,
        }),
        Some(_) => None,
    }
}

/// Arrivals or departures, by their word.
fn read_one_kind(text: &[u8]) -> Option<Kind>
    ensures found { IfSome result (λ kind. (text.now ≡ kind_text kind) × IsOneKind kind) }
    ensures only { (kind : KindValue) → text.now ≡ kind_text kind → IsOneKind kind →
        result ≡ Some kind }
{
    match text {
        b"ARR" => Some(Kind::Arr),
        b"DEP" => Some(Kind::Dep),
        _ => None,
    }
}

/// The report that a line says.
pub(crate) fn read_report(season: &Season, line: &[u8]) -> Option<Operated>
    ensures found { IfSome result (IsReport season.now line.now) }
    ensures only { (report : OperatedValue) → IsReport season.now line.now report →
        result ≡ Some report }
{
    if line.len() > LONGEST_LINE {
        return None;
    }
    if !is_trimmed(line) {
        return None;
    }
    let fields = report_fields(line)?;
    let kind = read_one_kind(fields.kind)?;
    let flight = read_flight(fields.flight)?;
    let period = read_period(season, fields.dates, fields.days)?;
    Some(Operated {
        kind,
        flight,
        period,
    })
}
