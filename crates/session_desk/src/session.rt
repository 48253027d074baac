//! One session over a link.
ghost use Rattle.std.specs.Prelude.{◌≡◌, ◌++◌, ◌∷◌, [], List, ℕ, IfErr, OnOk};
ghost use Rattle.std.specs.Prelude.{Option as Maybe};
ghost use Rattle.slot_text.specs.Lines.{lines_of};
ghost use Rattle.scr_reader.specs.Streams.{AreOfMessage};
ghost use Rattle.desk_outside.specs.Passages.{put};
ghost use Rattle.desk_links.specs.Links.{Transcript, taken_of, IsFresh};
ghost use Rattle.session_desk.specs.Passed.{HasPassed};
ghost use Rattle.session_desk.specs.Sessions.{IsSession, HasSessionCause};
ghost use Rattle.session_desk.specs.Private.Held.{IsSized, IsHeld, IsEnded};
ghost use Rattle.session_desk.specs.Private.Reading.{IsAt, HasStopped, HasStoppedWithin};
ghost use Rattle.session_desk.specs.Private.Reading.{IsPut, AnswerStops, EndsSo};
ghost use Rattle.session_desk.specs.Stopped.{StoppedBy};
ghost use Rattle.session_desk.specs.Seen.{SeenGoesOn};

use crate::pending::{InputEnd, Pending, Progress};
use crate::responder::{AnswerFault, Responder};
use desk_links::Link;
use desk_links::laws::joined_logs;
use scr_reader::laws::{breaks_stay, messages_stay};
use slot_text::Memory;
use std::alloc::Global;
use std::sync::Wait;

/// How many bytes of the input are taken at once, at most.
const LONGEST_PIECE: usize = 4096;

/// How a session ended with its input.
#[derive(Clone, Copy, Debug, PartialEq, Eq)]
pub enum SessionEnd {
    /// Behind an empty line, or nothing had come but blanks.
    Ended,
    /// Inside a message, of which nothing was answered.
    Cut,
}

/// Why a session was given up. Asks that were answered before stay answered.
#[derive(Clone, Copy, Debug, PartialEq, Eq)]
pub enum SessionFault {
    /// The link did not give or take bytes.
    Link,
    /// A line that is not empty has more than 200 bytes, or a message has more than 1,000 lines.
    /// Nothing of that message was answered.
    TooLong,
    /// The history holds so many entries, as many as it may.
    Full { length: u64 },
    /// What is kept beside the history has failed, with this count of faults.
    Broken { faults: u64 },
    Memory,
}

/// Serves one link: each message is answered by a text as soon as an empty line ends it.
///
/// It waits for the client. It takes memory for the longest message and for one text.
pub(crate) fn serve<R: Wait, A: Responder, L: Link>(
    rt: &R,
    alloc: Global,
    responder: &A,
    pass: &mut A::Pass,
    link: &mut L,
) -> Result<SessionEnd, SessionFault>
    requires ready { A.ready responder.now pass.old }
    requires fresh { IsFresh (L.view link.old) }
    ensures ready { A.ready responder.now pass.new }
    ensures cause { HasSessionCause (L.view link.old).faults (L.view link.new).faults result }
    ensures stopped { IfErr result (StoppedBy (A.stopped responder.now pass.new)) }
    ensures seen { SeenGoesOn (A.legal responder.now) (A.seen pass.old) (A.seen pass.new) }
    ensures session { IsSession (A.answers (A.about responder.now))
        (A.begins (A.about responder.now)) (A.own pass.old) result (L.view link.new)
        (A.own pass.new) }
    ensures told { HasPassed (L.view link.old).told (L.view link.new) }
{
    breaks_stay();
    joined_logs();
    let mut pending = Pending::new(alloc);
    let mut piece = [0u8; LONGEST_PIECE];
    for _ in rt.forever() {
        match link.take(&mut piece) {
            Err(_) => return Err(SessionFault::Link),
            Ok(0) => return end_of(&pending),
            Ok(n) => {
                let (bytes, _) = piece.split_at(n);
                let whole = n == LONGEST_PIECE;
                responder.piece_came(whole);
                match read_piece(alloc, responder, pass, link, &mut pending, bytes) {
                    Ok(()) => {}
                    Err(fault) => return Err(fault),
                }
                responder.piece_done(whole);
            }
        }
    }
    unreachable!()
}

/// Reads a piece of the input, byte by byte.
fn read_piece<A: Responder, L: Link>(
    alloc: Global,
    responder: &A,
    pass: &mut A::Pass,
    link: &mut L,
    pending: &mut Pending,
    piece: &[u8],
) -> Result<(), SessionFault>
    requires ready { A.ready responder.now pass.old }
    requires size { IsSized pending.old }
    requires held { (seen : List ℕ) × IsHeld pending.old seen }
    ensures ready { A.ready responder.now pass.new }
    ensures size { OnOk result (IsSized pending.new) }
    ensures held { OnOk result ((seen : List ℕ) × IsHeld pending.new seen) }
    ensures cause { HasSessionCause (L.view link.old).faults (L.view link.new).faults result }
    ensures stopped { IfErr result (StoppedBy (A.stopped responder.now pass.new)) }
    ensures seen { SeenGoesOn (A.legal responder.now) (A.seen pass.old) (A.seen pass.new) }
    ensures taken { taken_of (L.view link.new).log ≡ taken_of (L.view link.old).log }
    ensures told { (t : Maybe Transcript) → HasPassed t (L.view link.old)
        → HasPassed t (L.view link.new) }
    ensures ok { OnOk result ((before : List A.Entry) (seen : List ℕ)
        → IsAt (A.answers (A.about responder.now)) (A.begins (A.about responder.now)) before
        pending.old seen (L.view link.old).log (A.own pass.old)
        → IsAt (A.answers (A.about responder.now)) (A.begins (A.about responder.now)) before
        pending.new (seen ++ piece.now) (L.view link.new).log (A.own pass.new)) }
    ensures err { IfErr result (λ fault. (before : List A.Entry) (seen : List ℕ)
        → IsAt (A.answers (A.about responder.now)) (A.begins (A.about responder.now)) before
        pending.old seen (L.view link.old).log (A.own pass.old)
        → HasStoppedWithin (A.answers (A.about responder.now)) (A.begins (A.about responder.now))
        before fault seen piece.now (L.view link.new).log (A.own pass.new)) }
{
    for byte in piece {
        match read_byte(alloc, responder, pass, link, pending, *byte) {
            Ok(()) => {}
            Err(fault) => return Err(fault),
        }
    }
    Ok(())
}

/// One more byte: where it ends a message, the message is answered.
fn read_byte<A: Responder, L: Link>(
    alloc: Global,
    responder: &A,
    pass: &mut A::Pass,
    link: &mut L,
    pending: &mut Pending,
    byte: u8,
) -> Result<(), SessionFault>
    requires ready { A.ready responder.now pass.old }
    requires size { IsSized pending.old }
    requires held { (seen : List ℕ) × IsHeld pending.old seen }
    ensures ready { A.ready responder.now pass.new }
    ensures size { OnOk result (IsSized pending.new) }
    ensures held { OnOk result ((seen : List ℕ) × IsHeld pending.new seen) }
    ensures cause { HasSessionCause (L.view link.old).faults (L.view link.new).faults result }
    ensures stopped { IfErr result (StoppedBy (A.stopped responder.now pass.new)) }
    ensures seen { SeenGoesOn (A.legal responder.now) (A.seen pass.old) (A.seen pass.new) }
    ensures taken { taken_of (L.view link.new).log ≡ taken_of (L.view link.old).log }
    ensures told { (t : Maybe Transcript) → HasPassed t (L.view link.old)
        → HasPassed t (L.view link.new) }
    ensures ok { OnOk result ((before : List A.Entry) (seen : List ℕ)
        → IsAt (A.answers (A.about responder.now)) (A.begins (A.about responder.now)) before
        pending.old seen (L.view link.old).log (A.own pass.old)
        → IsAt (A.answers (A.about responder.now)) (A.begins (A.about responder.now)) before
        pending.new (seen ++ byte ∷ []) (L.view link.new).log (A.own pass.new)) }
    ensures err { IfErr result (λ fault. (before : List A.Entry) (seen : List ℕ)
        → IsAt (A.answers (A.about responder.now)) (A.begins (A.about responder.now)) before
        pending.old seen (L.view link.old).log (A.own pass.old)
        → HasStopped (A.answers (A.about responder.now)) (A.begins (A.about responder.now)) before
        fault (seen ++ byte ∷ []) (L.view link.new).log (A.own pass.new)) }
{
    messages_stay();
    breaks_stay();
    joined_logs();
    match pending.push(byte) {
        Ok(Progress::More) => Ok(()),
        Ok(Progress::TooLong) => Err(SessionFault::TooLong),
        Ok(Progress::Complete) => answer(alloc, responder, pass, link, pending),
        Err(Memory) => Err(SessionFault::Memory),
    }
}

/// Answers the message that is complete, and sends its text.
fn answer<A: Responder, L: Link>(
    alloc: Global,
    responder: &A,
    pass: &mut A::Pass,
    link: &mut L,
    pending: &mut Pending,
) -> Result<(), SessionFault>
    requires ready { A.ready responder.now pass.old }
    requires size { IsSized pending.old }
    requires whole { AreOfMessage (lines_of pending.old.lines.items) }
    ensures ready { A.ready responder.now pass.new }
    ensures size { OnOk result (IsSized pending.new) }
    ensures held { OnOk result ((seen : List ℕ) → IsEnded pending.old seen
        → IsHeld pending.new seen) }
    ensures cause { HasSessionCause (L.view link.old).faults (L.view link.new).faults result }
    ensures stopped { IfErr result (StoppedBy (A.stopped responder.now pass.new)) }
    ensures seen { SeenGoesOn (A.legal responder.now) (A.seen pass.old) (A.seen pass.new) }
    ensures taken { taken_of (L.view link.new).log ≡ taken_of (L.view link.old).log }
    ensures told { (t : Maybe Transcript) → HasPassed t (L.view link.old)
        → HasPassed t (L.view link.new) }
    ensures ok { OnOk result (IsPut (A.answers (A.about responder.now))
        (A.begins (A.about responder.now)) put (lines_of pending.old.lines.items)
        (A.own pass.old) (A.own pass.new) (L.view link.old).log (L.view link.new).log) }
    ensures err { IfErr result (λ fault. AnswerStops (A.answers (A.about responder.now))
        (A.begins (A.about responder.now)) fault (lines_of pending.old.lines.items)
        (A.own pass.old) (A.own pass.new) (L.view link.old).log (L.view link.new).log) }
{
    joined_logs();
    match responder.answer(pass, alloc, &pending.lines) {
        Ok(text) => {
            pending.clear();
            match link.put(&text) {
                Ok(()) => Ok(()),
                Err(_) => Err(SessionFault::Link),
            }
        }
        Err(AnswerFault::Full { length }) => Err(SessionFault::Full { length }),
        Err(AnswerFault::Broken { faults }) => Err(SessionFault::Broken { faults }),
        Err(AnswerFault::Memory) => Err(SessionFault::Memory),
    }
}

/// The input has ended.
fn end_of(pending: &Pending) -> Result<SessionEnd, SessionFault>
    ensures ends { (taken : List ℕ) → IsHeld pending.now taken → EndsSo result taken }
    ensures cause { (count : ℕ) → HasSessionCause count count result }
    ensures fault { IfErr result (λ fault. fault ≡ SessionFault.TooLong) }
{
    breaks_stay();
    match pending.end() {
        InputEnd::Ended => Ok(SessionEnd::Ended),
        InputEnd::Cut => Ok(SessionEnd::Cut),
        InputEnd::TooLong => Err(SessionFault::TooLong),
    }
}
