//! What is kept of a link of the system.
ghost use Rattle.std.specs.Prelude.{◌≡◌, ◌≤◌, ◌||◌, None, false, [], ◌++◌, ◌∷◌};
ghost use Rattle.desk_outside.specs.Cause.{one_more};
ghost use Rattle.desk_outside.specs.Noted.{passage_of};
ghost use Rattle.desk_links.specs.Links.{with_taken_bytes};

use desk_outside::{CallLog, Note};
use std::marker::Model;

/// Whether the input of a link ended, how often a call of it failed, and in proofs alone what
/// passed over it. It does not tell the input, nor what the client received.
#[derive(Drop)]
pub struct LinkRecord {
    ended: bool,
    calls: CallLog,
}

impl Model for LinkRecord {
    ghost use Rattle.std.specs.Prelude.{None};
    ghost use Rattle.desk_links.specs.Links.{LinkView};

    ghost Value = { LinkView };

    ghost view = { λ r. record {
      told = None;
      ended = r.ended;
      faults = r.calls.faults;
      log = r.calls.log;
    } };
}

impl LinkRecord {
    /// The record of a link that was just opened.
    pub(crate) fn new() -> LinkRecord
        ensures { result ≡ record { told = None; ended = false; faults = 0; log = [] } }
    {
        LinkRecord {
            ended: false,
            calls: CallLog::new(),
        }
    }

    /// The count of faults.
    pub fn faults(&self) -> u64
        ensures { result ≡ self.now.faults }
    {
        self.calls.faults()
    }

    /// The input has ended.
    pub fn ended(&self) -> bool
        ensures { result ≡ self.now.ended }
    {
        self.ended
    }

    /// Bytes were taken, or none since the input has ended.
    pub(crate) fn took(&mut self, bytes: &[u8])
        ensures { self.new ≡ with_taken_bytes self.old bytes.now }
    {
        self.ended = either(self.ended, bytes.is_empty());
        self.calls.note(&Note::Took(bytes));
    }

    /// Adds a passage.
    pub(crate) fn note(&mut self, note: &Note<'_>)
        ensures { self.new ≡ record self.old { log = self.old.log ++ passage_of note.now ∷ [] } }
    {
        self.calls.note(note);
    }

    /// Counts one fault more.
    pub(crate) fn fault(&mut self)
        ensures counted { self.new ≡ record self.old { faults = one_more self.old.faults } }
        ensures later { self.old.faults ≤ self.new.faults }
    {
        self.calls.fault();
    }
}

/// One of the two holds, or both.
pub(crate) fn either(one: bool, other: bool) -> bool
    ensures { result ≡ (one || other) }
{
    one || other
}
