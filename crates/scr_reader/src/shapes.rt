//! Arrivals, departures and turnarounds, read field by field.

ghost use Rattle.std.specs.Prelude.{◌≡◌, IfOk, IfErr};
ghost use Rattle.scr_reader.specs.Shapes.{arrival, departure, turnaround, shape_of, IsLine, IsFaultyField};
ghost use Rattle.scr_reader.specs.declared.line.Line.{Line as LineValue};

use crate::at::{
    arrival_group_at, code_and_flight_at, code_at, dates_at, departure_group_at, end_at, flight_at,
    later_group_at, seats_at, service_at, services_at, weekdays_at,
};
use crate::fields::Fields;
use crate::line::{Line, Stop};
use season_days::Season;

/// The arrival line that the fields spell, or its first field that has not its form.
pub(crate) fn read_arrival(season: &Season, fields: &Fields<'_>) -> Result<Line, u32>
    requires { shape_of fields.now ≡ arrival }
    ensures found { IfOk result (λ line. IsLine season.now fields.now line) }
    ensures same { IfOk result (λ line. (other : LineValue) → IsLine season.now fields.now other →
        line ≡ other) }
    ensures fault { IfErr result (λ field. IsFaultyField season.now fields.now field) }
{
    let (code, flight) = code_and_flight_at(fields, 1)?;
    let (first, last) = dates_at(season, fields, 2)?;
    let period = weekdays_at(season, first, last, fields, 3)?;
    let (seats, craft) = seats_at(fields, 4)?;
    let (near, far, minute) = arrival_group_at(fields, 5)?;
    let service = service_at(fields, 6)?;
    end_at(fields, 7)?;
    Ok(Line {
        code,
        arrival: Some(Stop {
            flight,
            minute,
            near,
            far,
            service,
        }),
        departure: None,
        nights: 0,
        period,
        seats,
        craft,
    })
}

pub(crate) fn read_departure(season: &Season, fields: &Fields<'_>) -> Result<Line, u32>
    requires { shape_of fields.now ≡ departure }
    ensures found { IfOk result (λ line. IsLine season.now fields.now line) }
    ensures same { IfOk result (λ line. (other : LineValue) → IsLine season.now fields.now other →
        line ≡ other) }
    ensures fault { IfErr result (λ field. IsFaultyField season.now fields.now field) }
{
    let code = code_at(fields, 1)?;
    let flight = flight_at(fields, 2)?;
    let (first, last) = dates_at(season, fields, 3)?;
    let period = weekdays_at(season, first, last, fields, 4)?;
    let (seats, craft) = seats_at(fields, 5)?;
    let (near, far, minute) = departure_group_at(fields, 6)?;
    let service = service_at(fields, 7)?;
    end_at(fields, 8)?;
    Ok(Line {
        code,
        arrival: None,
        departure: Some(Stop {
            flight,
            minute,
            near,
            far,
            service,
        }),
        nights: 0,
        period,
        seats,
        craft,
    })
}

pub(crate) fn read_turnaround(season: &Season, fields: &Fields<'_>) -> Result<Line, u32>
    requires { shape_of fields.now ≡ turnaround }
    ensures found { IfOk result (λ line. IsLine season.now fields.now line) }
    ensures same { IfOk result (λ line. (other : LineValue) → IsLine season.now fields.now other →
        line ≡ other) }
    ensures fault { IfErr result (λ field. IsFaultyField season.now fields.now field) }
{
    let (code, coming) = code_and_flight_at(fields, 1)?;
    let going = flight_at(fields, 2)?;
    let (first, last) = dates_at(season, fields, 3)?;
    let period = weekdays_at(season, first, last, fields, 4)?;
    let (seats, craft) = seats_at(fields, 5)?;
    let (near, far, minute) = arrival_group_at(fields, 6)?;
    let (to, beyond, leaving, nights) = later_group_at(fields, 7, minute)?;
    let (arriving, departing) = services_at(fields, 8)?;
    end_at(fields, 9)?;
    Ok(Line {
        code,
        arrival: Some(Stop {
            flight: coming,
            minute,
            near,
            far,
            service: arriving,
        }),
        departure: Some(Stop {
            flight: going,
            minute: leaving,
            near: to,
            far: beyond,
            service: departing,
        }),
        nights,
        period,
        seats,
        craft,
    })
}
