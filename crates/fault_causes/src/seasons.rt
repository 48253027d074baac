//! Where a line stands in its message, and the season line above it.

ghost use Rattle.std.specs.Prelude.{◌≡◌, ◌<◌, ◌≤◌, ◌^◌, ◌+◌, ◌-◌, ◌++◌, ◌∷◌, [], ℕ, List, length, if◌then◌else◌};
ghost use Rattle.slot_text.specs.Fields.{is_blank_line};
ghost use Rattle.slot_text.specs.Lines.{lines_of};
ghost use Rattle.scr_reader.specs.Messages.{has_address};
ghost use Rattle.fault_causes.specs.Requests.{lines_above, line_of_season};
ghost use Rattle.fault_causes.specs.Standings.{IsStanding, address_next, is_season_next};

use slot_text::{Lines, is_blank_line};

/// Where a line stands: how many lines of its message stand above it, whether the second of them is
/// an address, and the line of the season, without bytes where it does not stand above.
#[derive(Clone, Copy)]
pub(crate) struct Standing<'a> {
    pub above: u32,
    pub address: bool,
    pub season: &'a [u8],
}

// Whether the second line of the message is an address, with this one behind those that stand
// above.
fn next_address(above: u32, address: bool, line: &[u8]) -> bool
    ensures { result ≡ address_next above address line.now }
{
    if above == 1 {
        matches!(line, [b'/', ..])
    } else {
        address
    }
}

// Whether a line is that of the season, below so many.
fn is_season(above: u32, address: bool) -> bool
    ensures { result ≡ is_season_next above address }
{
    (above == 1 && !address) || (above == 2 && address)
}

// This line or the one before, whichever is that of the season.
fn chosen<'a>(is_season: bool, line: &'a [u8], before: &'a [u8]) -> &'a [u8]
    ensures { result.now ≡ (if is_season then line.now else before.now) }
{
    if is_season { line } else { before }
}

// Where the line behind this one stands.
fn next_standing<'a>(at: Standing<'a>, line: &'a [u8]) -> Standing<'a>
    requires { at.above < 2 ^ 32 - 1 }
    ensures few { result.above ≤ at.entry.above + 1 }
    ensures stands { (before : List (List ℕ)) →
        IsStanding at.entry.above at.entry.address at.entry.season.now before →
        IsStanding result.above result.address result.season.now
        (if is_blank_line line.now then [] else before ++ line.now ∷ []) }
{
    if is_blank_line(line) {
        return Standing {
            above: 0,
            address: false,
            season: &[],
        };
    }
    let address = next_address(at.above, at.address, line);
    Standing {
        above: at.above + 1,
        address,
        season: chosen(is_season(at.above, address), line, at.season),
    }
}

/// Where the line of a number stands, counted from 1.
pub(crate) fn standing_of(text: &[u8], number: u32) -> Standing<'_>
    requires { length text.now < 2 ^ 32 }
    ensures above { result.above ≡ length (lines_above text.now number) }
    ensures address { result.address ≡ has_address (lines_above text.now number) }
    ensures season { result.season.now ≡ line_of_season (lines_above text.now number) }
{
    let mut lines = Lines::new(text);
    let mut at = Standing {
        above: 0,
        address: false,
        season: &[],
    };
    for _ in 1..number {
        let Some(line) = lines.next_line() else {
            return at;
        };
        at = next_standing(at, line);
    }
    at
}
