//! The count of the faults of an object of the outside, with its log.
ghost use Rattle.std.specs.Prelude.{◌≡◌, ◌≤◌, ◌++◌, ◌∷◌, []};
ghost use Rattle.desk_outside.specs.Cause.{one_more};
ghost use Rattle.desk_outside.specs.Noted.{passage_of};

use crate::log::{Log, Note};
use std::marker::Model;

/// How often a call of an object has failed, and in proofs alone what passed through it.
#[derive(Drop)]
pub struct CallLog {
    faults: u64,
    log: Log,
}

impl Model for CallLog {
    ghost use Rattle.desk_outside.specs.Passages.{Counted};

    ghost Value = { Counted };

    ghost view = { λ calls. record { faults = calls.faults; log = calls.log.passages } };
}

impl CallLog {
    /// The log of an object just made.
    pub fn new() -> CallLog
        ensures { result ≡ record { faults = 0; log = [] } }
    {
        CallLog {
            faults: 0,
            log: Log::new(),
        }
    }

    /// The count of faults.
    pub fn faults(&self) -> u64
        ensures { result ≡ self.now.faults }
    {
        self.faults
    }

    /// Counts one fault more.
    pub fn fault(&mut self)
        ensures counted { self.new ≡ record self.old { faults = one_more self.old.faults } }
        ensures later { self.old.faults ≤ self.new.faults }
    {
        self.faults = self.faults.saturating_add(1);
    }

    /// Adds a passage.
    pub fn note(&mut self, note: &Note<'_>)
        ensures { self.new ≡ record self.old { log = self.old.log ++ passage_of note.now ∷ [] } }
    {
        self.log = self.log.then(note);
    }
}
