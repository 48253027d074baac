//! The replies to a season's messages.

ghost use Rattle.std.specs.Prelude.{◌≡◌, ◌≤◌, ◌++◌, ◌∷◌, [], All, IfOk, OnOk, length, take};
ghost use Rattle.std.specs.List.{flat_map};
ghost use Rattle.cert_format.specs.Printable.{IsPrintable};
ghost use Rattle.scr_reader.specs.Messages.{header_of};
ghost use Rattle.series_model.specs.Units.{message_units, units_of};
ghost use Rattle.series_model.specs.Submissions.{MakesUnits};
ghost use Rattle.scr_replies.specs.Answers.{message_reply};
ghost use Rattle.scr_replies.specs.SeasonReplies.{unit_answer, replies_from, replies_text, IsAnswerable};

use crate::given::put_units;
use crate::states::final_states;
use cert_format::Certificate;
use scr_reader::{Header, Message, print_header};
use season_days::Season;
use series_model::{Submission, UnitState};
use slot_text::Memory;
use std::alloc::Global;

/// The replies to all messages of a submission, in their order, by the choices of a certificate: of
/// each message the header, and the answers to its items.
///
/// The requested times give `K`. Other times give `U` with the request, and `O` with the line at
/// these times, or, where they are those of the historic line of a pair, `H` with that line. A unit
/// without slots gives `U` alone. The number of a choice that names no alternative counts as a
/// refusal; a valid certificate has no such number.
///
/// Beside the text, memory is taken for what each unit was given, and for one line at a time. The
/// time is that of `series_model::after_stage` for each stage, and one step for each item and byte.
pub fn season_replies(
    alloc: Global,
    submission: &Submission,
    cert: &Certificate,
) -> Result<Vec<u8>, Memory>
    requires { IsPrintable cert.now }
    ensures { IfOk result (λ text. text.items ≡ replies_text submission.now cert.now) }
{
    let states = final_states(alloc, submission, cert)?;
    let units = submission.units().len();
    prove!(states.len() == units);
    let season = &submission.declaration().season;
    let mut out = Vec::new(alloc);
    put_replies(
        alloc,
        &mut out,
        season,
        submission.messages().items(),
        &states,
    )?;
    Ok(out)
}

// Appends the replies to messages that have these units.
fn put_replies(
    alloc: Global,
    out: &mut Vec<u8>,
    season: &Season,
    messages: &[Message],
    states: &[UnitState],
) -> Result<(), Memory>
    requires answerable { All (IsAnswerable season.now) states.now }
    requires each { All MakesUnits messages.now }
    requires count { length states.now ≡ length (units_of messages.now) }
    ensures { OnOk result (out.new.items
        ≡ out.old.items ++ replies_from season.now messages.now states.now) }
{
    let mut next = 0;
    for message in messages {
        let count = unit_count(message);
        put_units_reply(
            alloc,
            out,
            season,
            &message.header(),
            &states[next..next + count],
        )?;
        next += count;
    }
    Ok(())
}

// Appends the reply to a message with this header that has these units.
fn put_units_reply(
    alloc: Global,
    out: &mut Vec<u8>,
    season: &Season,
    header: &Header,
    states: &[UnitState],
) -> Result<(), Memory>
    requires { All (IsAnswerable season.now) states.now }
    ensures { OnOk result (out.new.items
        ≡ out.old.items
        ++ message_reply header.now (flat_map (unit_answer season.now) states.now)) }
{
    print_header(alloc, out, header)?;
    put_units(alloc, out, season, states)?;
    out.push(b'\n')?;
    Ok(())
}

/// The reply to one message with this header, whose items are these units, by what each was given:
/// as `season_replies` answers the units of a season.
pub fn units_reply(alloc: Global, header: &Header, states: &[UnitState]) -> Result<Vec<u8>, Memory>
    requires { All (IsAnswerable header.now.season) states.now }
    ensures { IfOk result (λ text. text.items
        ≡ message_reply header.now (flat_map (unit_answer header.now.season) states.now)) }
{
    let mut out = Vec::new(alloc);
    put_units_reply(alloc, &mut out, &header.season, header, states)?;
    Ok(out)
}

// How many units a message makes, each of whose items makes one.
fn unit_count(message: &Message) -> usize
    requires { MakesUnits message.now }
    ensures { result ≡ length (message_units message.now) }
{
    message.items.items().len()
}
