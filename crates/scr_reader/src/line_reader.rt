//! The line, or the query, that the fields of a line spell.

ghost use Rattle.std.specs.Prelude.{◌≡◌, IfOk, IfErr, IfSome, Some, true};
ghost use Rattle.scr_reader.specs.Shapes.{shape_of, IsLine, IsFaultyField};
ghost use Rattle.scr_reader.specs.Private.FieldForms.{shape_named};
ghost use Rattle.scr_reader.specs.Rows.{is_question, IsAskedFlight, IsQuestion, IsFaultyQuestion};
ghost use Rattle.scr_reader.specs.declared.line.Line.{Line as LineValue};
ghost use Rattle.scr_reader.specs.declared.line.Flight.{Flight as FlightValue};

use crate::at::end_at;
use crate::fields::Fields;
use crate::flight::{is_flight_ahead, read_flight};
use crate::line::{Flight, Line};
use crate::shapes::{read_arrival, read_departure, read_turnaround};
use season_days::Season;

/// The movements that a line has.
#[derive(Clone, Copy, Debug, PartialEq, Eq)]
pub(crate) enum Movements {
    Arrival,
    Departure,
    Both,
}

/// A first field of one byte makes a departure; else a second one that begins as a flight does
/// makes a turnaround.
fn movements_in(fields: &Fields<'_>) -> Movements
    ensures { shape_named result ≡ shape_of fields.now }
{
    let Some(first) = fields.get(1) else {
        return Movements::Arrival;
    };
    if first.len() == 1 {
        return Movements::Departure;
    }
    let Some(second) = fields.get(2) else {
        return Movements::Arrival;
    };
    if is_flight_ahead(second) {
        Movements::Both
    } else {
        Movements::Arrival
    }
}

/// The line that the fields spell, or the first field that has not its form.
pub(crate) fn read_line(season: &Season, fields: &Fields<'_>) -> Result<Line, u32>
    ensures found { IfOk result (λ line. IsLine season.now fields.now line) }
    ensures same { IfOk result (λ line. (other : LineValue) → IsLine season.now fields.now other →
        line ≡ other) }
    ensures fault { IfErr result (λ field. IsFaultyField season.now fields.now field) }
{
    match movements_in(fields) {
        Movements::Arrival => read_arrival(season, fields),
        Movements::Departure => read_departure(season, fields),
        Movements::Both => read_turnaround(season, fields),
    }
}

/// The flight that is asked about, or the first field that has not its form.
pub(crate) fn read_question(fields: &Fields<'_>) -> Result<Flight, u32>
    requires { is_question fields.now ≡ true }
    ensures found { IfOk result (λ flight. IsQuestion fields.now flight) }
    ensures same { IfOk result (λ flight. (other : FlightValue) → IsQuestion fields.now other →
        flight ≡ other) }
    ensures fault { IfErr result (λ field. IsFaultyQuestion fields.now field) }
{
    let first = fields.get(1).ok_or(1u32)?;
    let flight = read_asked(first).ok_or(1u32)?;
    end_at(fields, 2)?;
    Ok(flight)
}

/// The flight behind a Q.
fn read_asked(text: &[u8]) -> Option<Flight>
    ensures found { IfSome result (IsAskedFlight text.now) }
    ensures only { (flight : FlightValue) → IsAskedFlight text.now flight → result ≡ Some flight }
{
    let [b'Q', rest @ ..] = text else {
        return None;
    };
    read_flight(rest)
}
