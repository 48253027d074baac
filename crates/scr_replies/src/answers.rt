//! The lines of answers, and what stands before and after those of a message.

ghost use Rattle.std.specs.Prelude.{◌≡◌, ◌++◌, ◌∷◌, [], OnOk};
ghost use Rattle.scr_reader.specs.Printed.{LineFits};
ghost use Rattle.scr_replies.specs.Answers.{coded_line, confirmed_answer, refused_answer, offer_answer, held_answer, cancelled_answer, unprocessed_answer, unknown_answer};

use scr_reader::{Code, Flight, Line, print_flight, print_line};
use season_days::Season;
use slot_text::Memory;
use std::alloc::Global;

/// Appends a line with a code, and its end.
pub(crate) fn put_coded(
    alloc: Global,
    out: &mut Vec<u8>,
    season: &Season,
    code: Code,
    line: &Line,
) -> Result<(), Memory>
    requires { LineFits season.now line.now }
    ensures { OnOk result
        (out.new.items ≡ out.old.items ++ coded_line season.now code line.now) }
{
    print_line(alloc, out, season, code, line)?;
    out.push(b'\n')?;
    Ok(())
}

/// Appends that the requested times are confirmed.
pub(crate) fn put_confirmed(
    alloc: Global,
    out: &mut Vec<u8>,
    season: &Season,
    request: &Line,
) -> Result<(), Memory>
    requires { LineFits season.now request.now }
    ensures { OnOk result
        (out.new.items ≡ out.old.items ++ confirmed_answer season.now request.now) }
{
    put_coded(alloc, out, season, Code::K, request)
}

/// Appends that there are no slots.
pub(crate) fn put_refused(
    alloc: Global,
    out: &mut Vec<u8>,
    season: &Season,
    request: &Line,
) -> Result<(), Memory>
    requires { LineFits season.now request.now }
    ensures { OnOk result
        (out.new.items ≡ out.old.items ++ refused_answer season.now request.now) }
{
    put_coded(alloc, out, season, Code::U, request)
}

/// Appends the request, and the line that is offered in its place.
pub(crate) fn put_offer(
    alloc: Global,
    out: &mut Vec<u8>,
    season: &Season,
    request: &Line,
    offered: &Line,
) -> Result<(), Memory>
    requires request { LineFits season.now request.now }
    requires offered { LineFits season.now offered.now }
    ensures { OnOk result
        (out.new.items ≡ out.old.items ++ offer_answer season.now request.now offered.now) }
{
    put_coded(alloc, out, season, Code::U, request)?;
    put_coded(alloc, out, season, Code::O, offered)
}

/// Appends the request, and the historic line, which is held.
pub(crate) fn put_held(
    alloc: Global,
    out: &mut Vec<u8>,
    season: &Season,
    request: &Line,
    historic: &Line,
) -> Result<(), Memory>
    requires request { LineFits season.now request.now }
    requires historic { LineFits season.now historic.now }
    ensures { OnOk result
        (out.new.items ≡ out.old.items ++ held_answer season.now request.now historic.now) }
{
    put_coded(alloc, out, season, Code::U, request)?;
    put_coded(alloc, out, season, Code::H, historic)
}

/// Appends that slots are cancelled.
pub(crate) fn put_cancelled(
    alloc: Global,
    out: &mut Vec<u8>,
    season: &Season,
    request: &Line,
) -> Result<(), Memory>
    requires { LineFits season.now request.now }
    ensures { OnOk result
        (out.new.items ≡ out.old.items ++ cancelled_answer season.now request.now) }
{
    put_coded(alloc, out, season, Code::X, request)
}

/// Appends that a line is not processed.
pub(crate) fn put_unprocessed(
    alloc: Global,
    out: &mut Vec<u8>,
    season: &Season,
    request: &Line,
) -> Result<(), Memory>
    requires { LineFits season.now request.now }
    ensures { OnOk result
        (out.new.items ≡ out.old.items ++ unprocessed_answer season.now request.now) }
{
    put_coded(alloc, out, season, Code::W, request)
}

/// Appends that a flight has no holding.
pub(crate) fn put_unknown(alloc: Global, out: &mut Vec<u8>, flight: Flight) -> Result<(), Memory>
    ensures { OnOk result (out.new.items ≡ out.old.items ++ unknown_answer flight) }
{
    out.push(b'W')?;
    print_flight(alloc, out, flight)?;
    out.push(b'\n')?;
    Ok(())
}
