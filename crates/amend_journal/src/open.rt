//! The opening of a file as a journal.

ghost use Rattle.std.specs.Prelude.{◌≡◌, ◌+◌, ◌*◌, ◌<◌, ◌≤◌, ◌++◌, ◌∷◌, [], List, ℕ, length, IfOk};
ghost use Rattle.std.specs.Prelude.{IfErr, IfSome, OnOk, All};
ghost use Rattle.season_days.specs.Term.{Term};
ghost use Rattle.desk_outside.specs.Cause.{HasCause};
ghost use Rattle.desk_disk.specs.Stops.{DiskStart, Agrees, MayRead, MayLeave, AtEachMoment};
ghost use Rattle.desk_disk.specs.Disks.{shown_length, TellsTruly};
ghost use Rattle.amend_journal.specs.Format.{header, IsFit, IsJournalOf};
ghost use Rattle.amend_journal.specs.Standing.{StandsFor, HasFault};
ghost use Rattle.amend_journal.specs.Durable.{ReadsAs, AreDurable, LeavesNoWorse, StandsFromSync};
ghost use Rattle.amend_journal.specs.Durable.{IsLaterDisk};
ghost use Rattle.amend_journal.specs.Faults.{HasOpenCause};
ghost use Rattle.amend_journal.specs.Private.{IsShort};
ghost use Rattle.amend_journal.specs.declared.asked.Asked.{Asked as AskedValue};

use crate::asked::{Asked, MOST_PAIRS};
use crate::fault::OpenFault;
use crate::read::read_journal;
use desk_disk::laws::joined_calls;
use desk_disk::{Disk, DiskFault};
use season_days::Season;
use std::alloc::Global;

/// The most bytes of a file that stands for no pair, whatever it holds.
const SHORTEST: u64 = 17;

/// Opens the file of a disk.
pub(crate) fn open_file<K: Disk>(
    alloc: Global,
    disk: &mut K,
    season: &Season,
) -> Result<Vec<Asked>, OpenFault>
    ensures found { IfOk result (λ asks. (s : DiskStart) (file : List ℕ)
        → ReadsAs s (K.view disk.old).log file → Agrees s (K.view disk.new).log
        → StandsFor season.now asks.items file) }
    ensures durable { IfOk result (λ asks. (s : DiskStart) (file : List ℕ)
        → ReadsAs s (K.view disk.old).log file → Agrees s (K.view disk.new).log
        → AreDurable s (K.view disk.new).log season.now asks.items) }
    ensures within { IfOk result (λ asks.
        17 + 256 * length asks.items ≤ shown_length (K.view disk.new).log) }
    ensures few { IfOk result (λ asks. length asks.items ≤ MOST_PAIRS) }
    ensures fit { IfOk result (λ asks. All (IsFit season.now) asks.items) }
    ensures refused { IfErr result (λ fault. (s : DiskStart) (file : List ℕ)
        → ReadsAs s (K.view disk.old).log file → Agrees s (K.view disk.new).log
        → HasFault season.now fault file) }
    ensures told_found { IfOk result (λ asks. IfSome (K.view disk.old).told
        (λ t. StandsFor season.now asks.items t.bytes)) }
    ensures told_refused { IfErr result (λ fault. IfSome (K.view disk.old).told
        (λ t. HasFault season.now fault t.bytes)) }
    ensures moments { (s : DiskStart) (file : List ℕ) (asks : List AskedValue)
        → ReadsAs s (K.view disk.old).log file → Agrees s (K.view disk.new).log
        → StandsFor season.now asks file
        → StandsFromSync s (K.view disk.old).log (K.view disk.new).log season.now asks }
    ensures unharmed { (s : DiskStart) (file : List ℕ)
        → ReadsAs s (K.view disk.old).log file → Agrees s (K.view disk.new).log
        → LeavesNoWorse s (K.view disk.old).log (K.view disk.new).log season.now file }
    ensures later { IsLaterDisk (K.view disk.old) (K.view disk.new) }
    ensures truly { TellsTruly (K.view disk.new) }
    ensures cause { HasOpenCause (K.view disk.old).faults (K.view disk.new).faults result }
{
    joined_calls();
    disk.sync()?;
    open_synced(alloc, disk, season)
}

/// Opens the file of a disk of which a stop leaves what a read gives.
fn open_synced<K: Disk>(
    alloc: Global,
    disk: &mut K,
    season: &Season,
) -> Result<Vec<Asked>, OpenFault>
    ensures found { IfOk result (λ asks. (s : DiskStart) (file : List ℕ)
        → ReadsAs s (K.view disk.old).log file → Agrees s (K.view disk.new).log
        → StandsFor season.now asks.items file) }
    ensures durable { IfOk result (λ asks. (s : DiskStart) (file : List ℕ)
        → ((c : List ℕ) → MayLeave s (K.view disk.old).log c → c ≡ file)
        → Agrees s (K.view disk.new).log
        → AreDurable s (K.view disk.new).log season.now asks.items) }
    ensures within { IfOk result (λ asks.
        17 + 256 * length asks.items ≤ shown_length (K.view disk.new).log) }
    ensures few { IfOk result (λ asks. length asks.items ≤ MOST_PAIRS) }
    ensures fit { IfOk result (λ asks. All (IsFit season.now) asks.items) }
    ensures refused { IfErr result (λ fault. (s : DiskStart) (file : List ℕ)
        → ReadsAs s (K.view disk.old).log file → Agrees s (K.view disk.new).log
        → HasFault season.now fault file) }
    ensures told_found { IfOk result (λ asks. IfSome (K.view disk.old).told
        (λ t. StandsFor season.now asks.items t.bytes)) }
    ensures told_refused { IfErr result (λ fault. IfSome (K.view disk.old).told
        (λ t. HasFault season.now fault t.bytes)) }
    ensures moments { (s : DiskStart) (file : List ℕ) (asks : List AskedValue)
        → ((c : List ℕ) → MayLeave s (K.view disk.old).log c → c ≡ file)
        → Agrees s (K.view disk.new).log
        → StandsFor season.now asks file
        → AtEachMoment s (K.view disk.old).log (K.view disk.new).log
        (StandsFor season.now asks) }
    ensures unharmed { (s : DiskStart) (file : List ℕ)
        → ((c : List ℕ) → MayLeave s (K.view disk.old).log c → c ≡ file)
        → Agrees s (K.view disk.new).log
        → LeavesNoWorse s (K.view disk.old).log (K.view disk.new).log season.now file }
    ensures later { IsLaterDisk (K.view disk.old) (K.view disk.new) }
    ensures cause { HasOpenCause (K.view disk.old).faults (K.view disk.new).faults result }
{
    joined_calls();
    let size = disk.length()?;
    if size <= SHORTEST {
        make_new(disk)?;
        Ok(Vec::new(alloc))
    } else {
        read_journal(alloc, disk, season, size)
    }
}

/// Makes the file anew, as a journal of no pairs.
fn make_new<K: Disk>(disk: &mut K) -> Result<(), DiskFault>
    ensures short { (s : DiskStart) → IsShort s (K.view disk.old).log
        → AtEachMoment s (K.view disk.old).log (K.view disk.new).log (λ c. length c ≤ 17) }
    ensures empty { OnOk result ((s : DiskStart) (c : List ℕ) → MayLeave s (K.view disk.new).log c
        → (season : Term) → IsJournalOf season [] c) }
    ensures shown { OnOk result (17 ≤ shown_length (K.view disk.new).log) }
    ensures agrees { (s : DiskStart) → Agrees s (K.view disk.new).log
        → Agrees s (K.view disk.old).log }
    ensures later { IsLaterDisk (K.view disk.old) (K.view disk.new) }
    ensures cause { HasCause (K.view disk.old).faults (K.view disk.new).faults result }
{
    joined_calls();
    let empty = empty_journal();
    disk.cut(0)?;
    disk.write_at(0, &empty)?;
    disk.sync()?;
    Ok(())
}

/// The header and a closed gate.
#[tactic(auto, unfolding(crate::specs::Format::header))]
fn empty_journal() -> [u8; 17]
    ensures { result ≡ header ++ 0 ∷ [] }
{
    *b"SLOT JOURNAL 01\n\0"
}
