//! What is kept of a message that is under way.
ghost use Rattle.std.specs.Prelude.{◌≡◌, ◌≤◌, ◌++◌, ◌∷◌, [], List, ℕ, length, IfOk, OnOk, take};
ghost use Rattle.slot_text.specs.Lines.{lines_of};
ghost use Rattle.scr_reader.specs.Streams.{AreOfMessage};
ghost use Rattle.session_desk.specs.Private.Held.{IsSized, IsHeld, IsEnded, MakesProgress, EndsInput};
ghost use Rattle.session_desk.specs.Private.Held.{fills_line, breaks_with, breaks_at_end};
ghost use Rattle.session_desk.specs.Private.Held.{is_under_way};
ghost use Rattle.session_desk.specs.Private.Laws.{StreamLaws};

use scr_reader::MOST_MESSAGE_LINES;
use scr_reader::laws::{
    breaks_stay, lines_begin_anew, one_more_byte, one_under_way, runs_are_messages,
};
use slot_text::laws::lines_of_parts;
use slot_text::{LONGEST_LINE, Memory, is_blank_byte};
use std::alloc::Global;

/// What is kept of the message that is under way: its whole lines, and of the line that is under
/// way at most the first 201 bytes. A line of blanks that goes on takes no more memory.
#[derive(Drop)]
pub(crate) struct Pending {
    /// Its whole lines, each with an LF.
    pub lines: Vec<u8>,
    /// How many lines these are.
    pub count: usize,
    /// The first bytes of the line that is under way.
    pub line: Vec<u8>,
    /// That line has a byte that is not blank.
    pub full: bool,
    /// Its last byte is a CR.
    pub cr: bool,
}

/// What one more byte brings.
#[derive(Clone, Copy, Debug, PartialEq, Eq)]
pub(crate) enum Progress {
    /// No message is complete.
    More,
    /// A message is complete: its lines are those that are kept.
    Complete,
    /// A message has a line that is too long, or too many lines.
    TooLong,
}

/// What it means that no byte comes any more.
#[derive(Clone, Copy, Debug, PartialEq, Eq)]
pub(crate) enum InputEnd {
    /// Nothing is under way.
    Ended,
    /// A message is.
    Cut,
    /// A message has a line that is too long, or too many lines.
    TooLong,
}

/// What is known of texts that come byte by byte.
fn stream_laws()
    ensures { StreamLaws }
{
    lines_of_parts();
    one_more_byte();
    one_under_way();
    lines_begin_anew();
    runs_are_messages();
    breaks_stay();
}

impl Pending {
    /// Nothing has come. It takes no memory.
    pub fn new(alloc: Global) -> Pending
        ensures held { IsHeld result [] }
        ensures size { IsSized result }
    {
        stream_laws();
        Pending {
            lines: Vec::new(alloc),
            count: 0,
            line: Vec::new(alloc),
            full: false,
            cr: false,
        }
    }

    /// One more byte.
    pub fn push(&mut self, byte: u8) -> Result<Progress, Memory>
        requires size { IsSized self.old }
        requires held { (seen : List ℕ) × IsHeld self.old seen }
        ensures whole { IfOk result (λ progress. progress ≡ Progress.Complete
            → AreOfMessage (lines_of self.new.lines.items)) }
        ensures progress { IfOk result (λ progress. (text : List ℕ) → IsHeld self.old text
            → MakesProgress self.old text byte progress self.new) }
        ensures size { OnOk result (IsSized self.new) }
    {
        stream_laws();
        if byte == b'\n' {
            return self.end_line();
        }
        if self.breaks_with(byte) {
            return Ok(Progress::TooLong);
        }
        let full = self.fills_line(byte);
        self.keep(byte)?;
        self.full = full;
        self.cr = byte == b'\r';
        Ok(Progress::More)
    }

    /// Whether the open line has a byte that is not blank, once this byte follows.
    fn fills_line(&self, byte: u8) -> bool
        ensures { result ≡ fills_line self.now byte }
    {
        self.full || self.cr || !(byte == b'\r' || is_blank_byte(byte))
    }

    /// Whether the message breaks a limit, once this byte follows.
    fn breaks_with(&self, byte: u8) -> bool
        ensures { result ≡ breaks_with self.now byte }
    {
        let kept = self.line.len();
        let long = if byte == b'\r' {
            kept > LONGEST_LINE
        } else {
            kept >= LONGEST_LINE
        };
        self.fills_line(byte) && (long || self.count == MOST_MESSAGE_LINES)
    }

    /// Keeps a byte of the open line, if it is one of the first 201.
    fn keep(&mut self, byte: u8) -> Result<(), Memory>
        ensures line { OnOk result ((line : List ℕ) → self.old.line.items ≡ take 201 line
            → self.new.line.items ≡ take 201 (line ++ byte ∷ [])) }
        ensures lines { self.new.lines ≡ self.old.lines }
        ensures count { self.new.count ≡ self.old.count }
        ensures few { length self.old.line.items ≤ 201 → length self.new.line.items ≤ 201 }
    {
        if self.line.len() <= LONGEST_LINE {
            self.line.push(byte)?;
        }
        Ok(())
    }

    /// The line that is under way has its end.
    fn end_line(&mut self) -> Result<Progress, Memory>
        requires size { IsSized self.old }
        requires held { (seen : List ℕ) × IsHeld self.old seen }
        ensures whole { IfOk result (λ progress. progress ≡ Progress.Complete
            → AreOfMessage (lines_of self.new.lines.items)) }
        ensures progress { IfOk result (λ progress. (text : List ℕ) → IsHeld self.old text
            → MakesProgress self.old text 10 progress self.new) }
        ensures size { OnOk result (IsSized self.new) }
    {
        stream_laws();
        if !self.full {
            self.line.clear();
            self.cr = false;
            if self.count == 0 {
                return Ok(Progress::More);
            }
            return Ok(Progress::Complete);
        }
        if self.count == MOST_MESSAGE_LINES {
            return Ok(Progress::TooLong);
        }
        self.lines.extend_from_slice(&self.line)?;
        self.lines.push(b'\n')?;
        self.line.clear();
        self.count += 1;
        self.full = false;
        self.cr = false;
        Ok(Progress::More)
    }

    /// The message that was complete is done with. Its room is kept.
    pub fn clear(&mut self)
        ensures held { (text : List ℕ) → IsEnded self.old text → IsHeld self.new text }
        ensures size { length self.old.line.items ≤ 201 → IsSized self.new }
    {
        stream_laws();
        self.lines.clear();
        self.count = 0;
    }

    /// No byte comes any more.
    pub fn end(&self) -> InputEnd
        ensures { (text : List ℕ) → IsHeld self.now text → EndsInput text result }
    {
        stream_laws();
        if self.breaks_at_end() {
            return InputEnd::TooLong;
        }
        if self.is_under_way() {
            InputEnd::Cut
        } else {
            InputEnd::Ended
        }
    }

    /// Whether the message under way breaks a limit, where no byte comes any more.
    fn breaks_at_end(&self) -> bool
        ensures { result ≡ breaks_at_end self.now }
    {
        let long = self.line.len() > LONGEST_LINE;
        (self.full || self.cr) && (long || self.count == MOST_MESSAGE_LINES)
    }

    /// Whether a message is under way, where no byte comes any more.
    fn is_under_way(&self) -> bool
        ensures { result ≡ is_under_way self.now }
    {
        self.full || self.cr || self.count > 0
    }
}
