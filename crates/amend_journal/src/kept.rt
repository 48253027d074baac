//! A journal beside the history of a ledger, in the same turn.

ghost use Rattle.std.specs.Prelude.{◌≡◌, ◌≤◌, [], None};
ghost use Rattle.amend_journal.specs.Kept.{IsKept};
ghost use Rattle.amend_journal.specs.declared.asked.TheConstants.{MOST_PAIRS};

use crate::journal::Journal;
use crate::put::SlotDisk;
use crate::told::{Failure, Told};
use desk_disk::laws::joined_calls;
use scr_reader::Item;
use slot_ledger::{Beside, EnterFault};
use std::alloc::Global;
use std::marker::Model;
use std::snapshot::Snapshot;

/// The journal of a ledger. Contracts see it as it was when the ledger began, as it is, and the put
/// that failed, after which nothing more is kept.
#[derive(Drop)]
pub struct JournalKept<K: SlotDisk> {
    journal: Journal<K>,
    began: Snapshot<Journal<K>>,
    found: u32,
    failure: Option<Failure>,
}

impl<K: SlotDisk> Model for JournalKept<K> {
    ghost use Rattle.std.specs.Prelude.{◌≡◌, ◌≤◌};
    ghost use Rattle.amend_journal.specs.Kept.{KeptView};
    ghost use Rattle.amend_journal.specs.declared.asked.TheConstants.{MOST_PAIRS};

    ghost Value = { KeptView };

    ghost view = { λ k. record {
      began = k.began.value;
      journal = k.journal;
      failure = k.failure;
    } };

    ghost invariant = { λ k. (k.found ≡ k.began.value.count) × (k.found ≤ MOST_PAIRS) };
}

impl<K: SlotDisk> JournalKept<K> {
    /// A journal of which no put has failed, as a ledger finds it.
    pub fn of(journal: Journal<K>) -> JournalKept<K>
        ensures began { result.began ≡ journal }
        ensures journal { result.journal ≡ journal }
        ensures whole { result.failure ≡ None }
        ensures kept { IsKept result [] }
    {
        let found = journal.count();
        JournalKept {
            began: Snapshot::of(&journal),
            journal,
            found,
            failure: None,
        }
    }

    /// How many pairs were found.
    pub fn found_pairs(&self) -> u32
        ensures value { result ≡ self.now.began.count }
        ensures few { result ≤ MOST_PAIRS }
    {
        self.found
    }

    /// The put that failed, if one did.
    pub fn failure(&self) -> Option<Failure>
        ensures { result ≡ self.now.failure }
    {
        self.failure
    }

    /// The disk of the journal.
    pub fn into_disk(self) -> K
        ensures { K.stored result ≡ self.journal.disk }
    {
        self.journal.into_disk()
    }
}

impl<K: SlotDisk> Beside for JournalKept<K> {
    ghost use Rattle.amend_journal.specs.Told.{told_list, read_told, told_caller, EndsBroken};
    ghost use Rattle.amend_journal.specs.Kept.{CanKeep};
    ghost use Rattle.amend_journal.specs.declared.told.Told.TheVariants.{Done};

    type Start = Journal<K>;

    type Told = Told;

    ghost start = { λ k. k.began };

    ghost found = { λ began. began.count };

    ghost takes = { CanKeep };

    ghost told = { λ k history. told_list history k.failure };

    ghost done = { Done };

    ghost number = { told_caller };

    ghost read = { read_told };

    ghost broken = { EndsBroken };

    ghost agrees = { IsKept };

    fn laws(&self) {}

    fn length(&self, count: u64) -> u64 {
        match self.failure {
            None => count,
            Some(_) => count + 1,
        }
    }

    fn found(&self) -> u64 {
        u64::from(self.found)
    }

    fn failed(&self) -> Option<u64> {
        match self.failure {
            None => None,
            Some(failure) => Some(failure.faults),
        }
    }

    fn keep(&mut self, alloc: Global, caller: u32, ask: &Item) -> Result<(), EnterFault> {
        joined_calls();
        let slot = self.journal.ready(alloc, caller as u8, ask)?;
        match self.journal.put(slot) {
            Ok(()) => Ok(()),
            Err(_fault) => {
                let faults = self.journal.faults();
                self.failure = Some(Failure { caller, faults });
                Err(EnterFault::Broken { faults })
            }
        }
    }
}
