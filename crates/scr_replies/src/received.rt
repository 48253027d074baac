//! What a desk receives: one message, or its bad line.

ghost use Rattle.std.specs.Prelude.{◌≡◌, ◌+◌, ◌<◌, ◌≤◌, ◌^◌, ℕ, List, IfOk, length, Some};
ghost use Rattle.slot_text.specs.Lines.{lines_of};
ghost use Rattle.slot_text.specs.declared.station.Station.{Station as StationValue};
ghost use Rattle.season_days.specs.Term.{Term};
ghost use Rattle.season_days.specs.declared.declaration.Declaration.{Declaration as DeclarationValue};
ghost use Rattle.scr_reader.specs.Faults.{fault_line};
ghost use Rattle.scr_reader.specs.Messages.{ReadsMessage};
ghost use Rattle.scr_reader.specs.Streams.{AreOfMessage};
ghost use Rattle.scr_replies.specs.declared.received.Received.{Received as ReceivedValue};
ghost use Rattle.scr_replies.specs.Received.{IsReceived, received_items, CanAskAll};

use scr_reader::laws::{
    one_reading, one_run, read_items_can_be_asked, read_lines_fit, season_lines,
};
use scr_reader::{Message, ScrFault, read_message};
use season_days::Season;
use slot_text::{Memory, Station};
use std::alloc::Global;

/// A message as a desk reads it.
#[derive(Drop)]
pub enum Received {
    /// A message of the desk's season and airport.
    Good(Message),
    /// The number of a bad line, the first of the message being 1.
    Bad { line: u32 },
}

/// The lines of a text that are those of one message are received in one way.
pub fn one_received()
    ensures { (season : Term) (airport : StationValue) (bytes : List ℕ) (a b : ReceivedValue) →
        AreOfMessage (lines_of bytes) → IsReceived season airport (lines_of bytes) a →
        IsReceived season airport (lines_of bytes) b → a ≡ b }
{
    one_run();
    one_reading();
}

/// Reads the lines of one message, and looks whether it is of this season and this airport. Its
/// items can be asked of a book of the season.
///
/// Where the message is not good its bad line is named: the lowest that has not its form, or the
/// place after the last line where the header is not whole; else the season line, if that names
/// another season, else the airport's line.
pub fn receive(
    alloc: Global,
    season: Season,
    airport: Station,
    bytes: &[u8],
) -> Result<Received, Memory>
    requires message { AreOfMessage (lines_of bytes.now) }
    requires short { length bytes.now + 6 < 2 ^ 32 }
    ensures received { IfOk result (IsReceived season airport (lines_of bytes.now)) }
    ensures only { (other : ReceivedValue) → IsReceived season airport (lines_of bytes.now) other →
        IfOk result (λ received. received ≡ other) }
    ensures asks { (d : DeclarationValue) → d.season ≡ season → IfOk result (CanAskAll d) }
    ensures few { IfOk result
        (λ received. length (received_items received) ≤ length (lines_of bytes.now)) }
{
    one_run();
    one_received();
    match read_message(alloc, bytes) {
        Ok(message) => Ok(judge(season, airport, bytes, message)),
        Err(fault) => {
            let line = bad_line(fault)?;
            Ok(Received::Bad { line })
        }
    }
}

// A message that was read, or its line that names another season or airport.
fn judge(season: Season, airport: Station, bytes: &[u8], message: Message) -> Received
    requires lines { AreOfMessage (lines_of bytes.now) }
    requires read { ReadsMessage bytes.now message }
    ensures received { IsReceived season airport (lines_of bytes.now) result }
    ensures asks { (d : DeclarationValue) → d.season ≡ season → CanAskAll d result }
    ensures few { length (received_items result) ≤ length (lines_of bytes.now) }
{
    one_run();
    season_lines();
    read_lines_fit();
    read_items_can_be_asked();
    match message.stray_line(season, airport) {
        None => Received::Good(message),
        Some(stray) => Received::Bad { line: stray.line() },
    }
}

// The line that a fault names.
fn bad_line(fault: ScrFault) -> Result<u32, Memory>
    ensures { IfOk result (λ line. fault_line fault ≡ Some line) }
{
    match fault.line() {
        Some(line) => Ok(line),
        None => Err(Memory),
    }
}
