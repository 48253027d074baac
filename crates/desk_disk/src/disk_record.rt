//! The count of the faults of a disk, with its log.
ghost use Rattle.std.specs.Prelude.{◌≡◌, ◌≤◌, ◌++◌, ◌∷◌, []};
ghost use Rattle.desk_outside.specs.Cause.{one_more};
ghost use Rattle.desk_disk.specs.Noted.{disk_passage_of};

use crate::disk_log::{DiskLog, DiskNote};
use std::marker::Model;

/// How often a call of a disk has failed, and in proofs alone its calls.
#[derive(Drop)]
pub(crate) struct DiskRecord {
    faults: u64,
    log: DiskLog,
}

impl Model for DiskRecord {
    ghost use Rattle.desk_disk.specs.Disks.{CountedDisk};

    ghost Value = { CountedDisk };

    ghost view = { λ r. record { faults = r.faults; log = r.log.passages } };
}

impl DiskRecord {
    /// The record of a disk just opened.
    pub(crate) fn new() -> DiskRecord
        ensures { result ≡ record { faults = 0; log = [] } }
    {
        DiskRecord {
            faults: 0,
            log: DiskLog::new(),
        }
    }

    /// The count of faults.
    pub(crate) fn faults(&self) -> u64
        ensures { result ≡ self.now.faults }
    {
        self.faults
    }

    /// Counts one fault more.
    pub(crate) fn fault(&mut self)
        ensures counted { self.new ≡ record self.old { faults = one_more self.old.faults } }
        ensures later { self.old.faults ≤ self.new.faults }
    {
        self.faults = self.faults.saturating_add(1);
    }

    /// Adds a call.
    pub(crate) fn note(&mut self, note: &DiskNote<'_>)
        ensures { self.new
            ≡ record self.old { log = self.old.log ++ disk_passage_of note.now ∷ [] } }
    {
        self.log = self.log.then(note);
    }
}
