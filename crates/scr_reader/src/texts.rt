//! All messages of a text, and its first.

ghost use Rattle.std.specs.Prelude.{◌≡◌, ◌⊎◌, ◌+◌, ◌<◌, ◌≤◌, ◌^◌, ◌++◌, ◌∷◌, [], IfOk, IfErr, Ok, Err, length, drop, List};
ghost use Rattle.slot_text.specs.Reads.{GivesOr};
ghost use Rattle.scr_reader.specs.Private.Texts.{texts_in};
ghost use Rattle.scr_reader.specs.Private.Decided.{Decides, Advances, Stops, BeginsFull};
ghost use Rattle.scr_reader.specs.Messages.{runs_of, runs_in, AreMessages, IsFirstFault, FirstIs, IsFaultOfFirst, ReadsMessage, HasMessageFault, ReadsAll, HasScrFault, front_length};
ghost use Rattle.scr_reader.specs.declared.message.Message.{Message as MessageValue};
ghost use Rattle.scr_reader.specs.declared.fault.ScrFault.{ScrFault as ScrFaultValue};
ghost use Rattle.scr_reader.specs.declared.fault.ScrFault.TheVariants.{Memory as NoMemory};

use crate::fault::ScrFault;
use crate::message::{Message, MessageList};
use crate::run_reader::{count_front, lines_in, read_run};
use slot_text::is_blank_line;
use std::alloc::Global;

/// All messages of a text, or the fault of its lowest bad line.
///
/// Messages are the longest runs of lines that are not empty. One pass over the bytes; memory for a
/// table of the lines and for what is read.
pub fn read_all(alloc: Global, bytes: &[u8]) -> Result<MessageList, ScrFault>
    requires { length bytes.now + 6 < 2 ^ 32 }
    ensures found { IfOk result (ReadsAll bytes.now) }
    ensures only { (messages : List MessageValue) → ReadsAll bytes.now messages →
        GivesOr NoMemory result (Ok messages) }
    ensures fault { IfErr result (λ e. HasScrFault bytes.now e ⊎ (e ≡ NoMemory)) }
    ensures exact { (e : ScrFaultValue) → HasScrFault bytes.now e →
        GivesOr NoMemory result (Err e) }
{
    let lines = lines_in(alloc, bytes)?;
    read_runs(alloc, lines.as_slice())
}

/// The messages that the runs of lines are.
fn read_runs(alloc: Global, lines: &[&[u8]]) -> Result<MessageList, ScrFault>
    requires { length lines.now + 6 < 2 ^ 32 }
    ensures { Decides NoMemory (AreMessages (runs_of 1 (texts_in lines.now)))
        (IsFirstFault (runs_of 1 (texts_in lines.now))) result }
{
    let mut messages = Vec::new(alloc);
    let mut at = 0;
    while at < lines.len() {
        let (_, rest) = lines.split_at(at);
        at += read_next(alloc, &mut messages, rest, 1 + at as u32)?;
    }
    Ok(MessageList::new(messages))
}

/// Passes over an empty line, or reads a message; answers how many lines that took.
fn read_next(
    alloc: Global,
    messages: &mut Vec<Message>,
    rest: &[&[u8]],
    number: u32,
) -> Result<usize, ScrFault>
    requires some { 0 < length rest.now }
    requires few { number + 5 < 2 ^ 32 }
    requires short { number + length rest.now < 2 ^ 32 }
    ensures on { IfOk result
        (λ count. Advances number (texts_in rest.now) count messages.old.items messages.new.items) }
    ensures stop { IfErr result (λ f. (f ≡ NoMemory) ⊎ Stops number (texts_in rest.now) f) }
{
    let count = count_front(rest);
    if count == 0 {
        return Ok(1);
    }
    let (run, _) = rest.split_at(count);
    messages.push(read_run(alloc, run, number)?)?;
    Ok(count)
}

/// The first message of a text, or the fault of its lowest bad line; a text without a line that is
/// not empty lacks its header after its last line. One pass over the bytes.
pub fn read_message(alloc: Global, bytes: &[u8]) -> Result<Message, ScrFault>
    requires { length bytes.now + 6 < 2 ^ 32 }
    ensures found { IfOk result (ReadsMessage bytes.now) }
    ensures only { (message : MessageValue) → ReadsMessage bytes.now message →
        GivesOr NoMemory result (Ok message) }
    ensures fault { IfErr result (λ e. HasMessageFault bytes.now e ⊎ (e ≡ NoMemory)) }
    ensures exact { (e : ScrFaultValue) → HasMessageFault bytes.now e →
        GivesOr NoMemory result (Err e) }
{
    let lines = lines_in(alloc, bytes)?;
    read_first(alloc, lines.as_slice())
}

fn read_first(alloc: Global, lines: &[&[u8]]) -> Result<Message, ScrFault>
    requires { length lines.now + 6 < 2 ^ 32 }
    ensures { Decides NoMemory (FirstIs (runs_of 1 (texts_in lines.now)))
        (IsFaultOfFirst (length (texts_in lines.now) + 1) (runs_of 1 (texts_in lines.now))) result }
{
    let blank = count_blank(lines);
    if blank == lines.len() {
        return Err(ScrFault::BadHeader {
            line: lines.len() as u32 + 1,
        });
    }
    let (_, rest) = lines.split_at(blank);
    let count = count_front(rest);
    let (run, _) = rest.split_at(count);
    read_run(alloc, run, 1 + blank as u32)
}

/// How many empty lines stand in front.
fn count_blank(lines: &[&[u8]]) -> usize
    ensures within { result ≤ length lines.now }
    ensures runs { runs_of 1 (texts_in lines.now)
        ≡ runs_of (1 + result) (texts_in (drop result lines.now)) }
    ensures full { result < length lines.now → BeginsFull (texts_in (drop result lines.now)) }
{
    for (i, line) in lines.iter().enumerate() {
        if !is_blank_line(line) {
            return i;
        }
    }
    lines.len()
}
