//! The amendment journal.

ghost use Rattle.std.specs.Prelude.{◌≡◌, ◌⊎◌, ◌+◌, ◌<◌, ◌≤◌, ◌++◌, ◌∷◌, [], ℕ, List, length, IfOk};
ghost use Rattle.std.specs.Prelude.{IfErr, IfSome, OnOk, OnErr, MatchResult, All};
ghost use Rattle.desk_outside.specs.Cause.{HasCause};
ghost use Rattle.desk_disk.specs.Stops.{DiskStart, Agrees, AtEachMoment};
ghost use Rattle.desk_disk.specs.Disks.{TellsTruly};
ghost use Rattle.amend_journal.specs.Format.{IsFit, IsJournalOf};
ghost use Rattle.amend_journal.specs.Standing.{StandsFor, HasFault};
ghost use Rattle.amend_journal.specs.Durable.{ReadsAs, AreDurable, LeavesNoWorse, StandsFromSync};
ghost use Rattle.amend_journal.specs.Durable.{MayHavePair};
ghost use Rattle.amend_journal.specs.Durable.{IsReady, IsLaterDisk};
ghost use Rattle.amend_journal.specs.Faults.{CountsFault};
ghost use Rattle.amend_journal.specs.declared.asked.Asked.{Asked as AskedValue};

use crate::asked::{Asked, MOST_PAIRS};
use crate::fault::OpenFault;
use crate::open::open_file;
use crate::put::SlotDisk;
use crate::slot::Slot;
use desk_disk::laws::joined_calls;
use desk_disk::{Disk, DiskFault};
use scr_reader::Item;
use scr_reader::laws::printed_items;
use season_days::Season;
use slot_text::Memory;
use std::alloc::Global;
use std::marker::Model;

/// A journal on a disk, in one season, with so many pairs.
///
/// Contracts see the disk, the season and the number of pairs. Which pairs are durable is said for
/// every first content of the disk, over the log of its calls (`AreDurable`).
#[derive(Drop)]
pub struct Journal<K: SlotDisk> {
    pub(crate) disk: K,
    season: Season,
    count: u32,
}

impl<K: SlotDisk> Model for Journal<K> {
    ghost use Rattle.std.specs.Prelude.{◌+◌, ◌*◌, ◌≤◌};
    ghost use Rattle.desk_disk.specs.Disks.{shown_length};
    ghost use Rattle.amend_journal.specs.Durable.{JournalView};
    ghost use Rattle.amend_journal.specs.declared.asked.TheConstants.{MOST_PAIRS};

    ghost Value = { JournalView };

    ghost view = { λ j. record {
      disk = K.stored j.disk;
      season = j.season;
      count = j.count;
    } };

    ghost invariant = { λ j. (j.count ≤ MOST_PAIRS)
        × (17 + 256 * j.count ≤ shown_length (K.stored j.disk).log) };
}

impl<K: Disk> Journal<K> {
    /// Opens the file of a disk as a journal, and gives its pairs. It begins with a sync. Of up to
    /// 17 bytes none is read: the file is begun afresh. Nor is any behind the first closed gate. It
    /// takes memory for the pairs, and for the text of one at a time.
    pub fn open(
        alloc: Global,
        disk: K,
        season: &Season,
    ) -> Result<(Journal<K>, Vec<Asked>), (OpenFault, K)>
        ensures found { IfOk result (λ opened. (s : DiskStart) (file : List ℕ)
            → ReadsAs s (K.view disk).log file → Agrees s opened.0.disk.log
            → StandsFor season.now opened.1.items file) }
        ensures durable { IfOk result (λ opened. (s : DiskStart) (file : List ℕ)
            → ReadsAs s (K.view disk).log file → Agrees s opened.0.disk.log
            → AreDurable s opened.0.disk.log season.now opened.1.items) }
        ensures fit { IfOk result (λ opened. All (IsFit season.now) opened.1.items) }
        ensures journal { IfOk result (λ opened. (opened.0.season ≡ season.now)
            × (opened.0.count ≡ length opened.1.items)) }
        ensures refused { IfErr result (λ refused. (s : DiskStart) (file : List ℕ)
            → ReadsAs s (K.view disk).log file → Agrees s (K.view refused.1).log
            → HasFault season.now refused.0 file) }
        ensures told_found { IfOk result (λ opened. IfSome (K.view disk).told
            (λ t. StandsFor season.now opened.1.items t.bytes)) }
        ensures told_refused { IfErr result (λ refused. IfSome (K.view disk).told
            (λ t. HasFault season.now refused.0 t.bytes)) }
        ensures moments { (s : DiskStart) (file : List ℕ) (asks : List AskedValue)
            → ReadsAs s (K.view disk).log file → StandsFor season.now asks file
            → MatchResult result
            (λ opened. Agrees s opened.0.disk.log
            → StandsFromSync s (K.view disk).log opened.0.disk.log season.now asks)
            (λ refused. Agrees s (K.view refused.1).log
            → StandsFromSync s (K.view disk).log (K.view refused.1).log season.now asks) }
        ensures unharmed { (s : DiskStart) (file : List ℕ) → ReadsAs s (K.view disk).log file
            → MatchResult result
            (λ opened. Agrees s opened.0.disk.log
            → LeavesNoWorse s (K.view disk).log opened.0.disk.log season.now file)
            (λ refused. Agrees s (K.view refused.1).log
            → LeavesNoWorse s (K.view disk).log (K.view refused.1).log season.now file) }
        ensures later { MatchResult result (λ opened. IsLaterDisk (K.view disk) opened.0.disk)
            (λ refused. IsLaterDisk (K.view disk) (K.view refused.1)) }
        ensures truly { MatchResult result (λ opened. TellsTruly opened.0.disk)
            (λ refused. TellsTruly (K.view refused.1)) }
        ensures kept { IfOk result (λ opened. opened.0.disk.faults ≡ (K.view disk).faults) }
        ensures cause { IfErr result (λ refused.
            CountsFault refused.0 (K.view disk).faults (K.view refused.1).faults) }
    {
        let mut disk = disk;
        match open_file(alloc, &mut disk, season) {
            Ok(asks) => {
                let count = asks.len() as u32;
                let season = *season;
                Ok((
                    Journal {
                        disk,
                        season,
                        count,
                    },
                    asks,
                ))
            }
            Err(fault) => Err((fault, disk)),
        }
    }
}

impl<K: SlotDisk> Journal<K> {
    /// How many pairs the journal holds.
    pub fn count(&self) -> u32
        ensures count { result ≡ self.now.count }
        ensures few { result ≤ MOST_PAIRS }
    {
        self.count
    }

    /// How often the disk has failed.
    pub fn faults(&self) -> u64
        ensures { result ≡ self.now.disk.faults }
    {
        self.disk.count_faults()
    }

    /// A pair laid out for its slot. It takes memory for the text of what is asked, and is refused
    /// for nothing else.
    pub fn ready(&self, alloc: Global, caller: u8, ask: &Item) -> Result<Slot, Memory>
        requires { IsFit self.now.season (record { caller = caller; ask = ask.now }) }
        ensures { IfOk result
            (IsReady self.now.season (record { caller = caller; ask = ask.now })) }
    {
        Slot::of(alloc, &self.season, &Asked { caller, ask: *ask })
    }

    /// Adds a pair behind the others: writes its slot with the closed gate of the next one, syncs,
    /// opens the gate, and syncs. After `Ok` a stop leaves the pair. It takes no memory. After a
    /// fault a stop may leave the pair or not, and no pair may be added any more: nothing is
    /// promised then of the journal.
    pub fn put(&mut self, slot: Slot) -> Result<(), DiskFault>
        requires { self.old.count < MOST_PAIRS }
        ensures moments { (s : DiskStart) (asks : List AskedValue) (asked : AskedValue)
            → AreDurable s self.old.disk.log self.old.season asks
            → length asks ≡ self.old.count
            → IsReady self.old.season asked slot
            → AtEachMoment s self.old.disk.log self.new.disk.log
            (λ c. IsJournalOf self.old.season asks c
            ⊎ IsJournalOf self.old.season (asks ++ asked ∷ []) c) }
        ensures kept { OnOk result ((s : DiskStart) (asks : List AskedValue) (asked : AskedValue)
            → AreDurable s self.old.disk.log self.old.season asks
            → length asks ≡ self.old.count
            → IsReady self.old.season asked slot
            → AreDurable s self.new.disk.log self.old.season (asks ++ asked ∷ [])) }
        ensures left { (s : DiskStart) (asks : List AskedValue) (asked : AskedValue)
            → AreDurable s self.old.disk.log self.old.season asks
            → length asks ≡ self.old.count
            → IsReady self.old.season asked slot
            → MayHavePair s self.new.disk.log self.old.season asks asked }
        ensures count { OnOk result (self.new.count ≡ self.old.count + 1) }
        ensures unchanged { OnErr result (self.new.count ≡ self.old.count) }
        ensures season { self.new.season ≡ self.old.season }
        ensures later { IsLaterDisk self.old.disk self.new.disk }
        ensures cause { HasCause self.old.disk.faults self.new.disk.faults result }
    {
        joined_calls();
        printed_items();
        let gate = 16 + 256 * u64::from(self.count);
        self.disk.put_slot(gate, slot.bytes())?;
        self.count += 1;
        Ok(())
    }

    /// The disk of the journal.
    pub fn into_disk(self) -> K
        ensures { K.stored result ≡ self.disk }
    {
        self.disk
    }
}
