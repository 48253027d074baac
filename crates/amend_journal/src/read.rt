//! The pairs of a journal, read slot by slot up to its first closed gate.

ghost use Rattle.std.specs.Prelude.{◌≡◌, ◌↔◌, ◌+◌, ◌*◌, ◌<◌, ◌≤◌, [], List, ℕ, length, IfOk, IfErr};
ghost use Rattle.std.specs.Prelude.{OnOk, IsTrue, All};
ghost use Rattle.season_days.specs.Term.{Term};
ghost use Rattle.desk_disk.specs.Disks.{shown_length};
ghost use Rattle.amend_journal.specs.Format.{header, IsFit};
ghost use Rattle.amend_journal.specs.Durable.{IsLaterDisk};
ghost use Rattle.amend_journal.specs.Faults.{HasOpenCause};
ghost use Rattle.amend_journal.specs.Private.{OnlyLooked, IsSized, HasRead, HasReadSlot};
ghost use Rattle.amend_journal.specs.Private.{AlwaysFaulty, AlwaysJournalOf};
ghost use Rattle.amend_journal.specs.declared.asked.Asked.{Asked as AskedValue};

use crate::asked::{Asked, MOST_PAIRS};
use crate::fault::OpenFault;
use crate::slot::pair_in;
use desk_disk::Disk;
use desk_disk::laws::joined_calls;
use scr_reader::laws::printed_items;
use season_days::Season;
use std::alloc::Global;

/// The gate of a slot that counts.
const OPEN_GATE: u8 = 1;

/// The pairs of a file of so many bytes, more than 17.
pub(crate) fn read_journal<K: Disk>(
    alloc: Global,
    disk: &mut K,
    season: &Season,
    size: u64,
) -> Result<Vec<Asked>, OpenFault>
    requires sized { IsSized (K.view disk.old).log size }
    requires long { 17 < size }
    ensures looks { OnlyLooked (K.view disk.old).log (K.view disk.new).log }
    ensures found { IfOk result (λ asks.
        AlwaysJournalOf season.now (K.view disk.new).log asks.items) }
    ensures within { IfOk result (λ asks.
        17 + 256 * length asks.items ≤ shown_length (K.view disk.new).log) }
    ensures few { IfOk result (λ asks. length asks.items ≤ MOST_PAIRS) }
    ensures fit { IfOk result (λ asks. All (IsFit season.now) asks.items) }
    ensures refused { IfErr result (AlwaysFaulty season.now (K.view disk.new).log) }
    ensures later { IsLaterDisk (K.view disk.old) (K.view disk.new) }
    ensures told { (K.view disk.new).told ≡ (K.view disk.old).told }
    ensures cause { HasOpenCause (K.view disk.old).faults (K.view disk.new).faults result }
{
    let gate = read_head(disk, size)?;
    read_slots(alloc, disk, season, size, gate)
}

/// Reads the header and the first gate.
fn read_head<K: Disk>(disk: &mut K, size: u64) -> Result<u8, OpenFault>
    requires sized { IsSized (K.view disk.old).log size }
    requires long { 17 < size }
    ensures looks { OnlyLooked (K.view disk.old).log (K.view disk.new).log }
    ensures read { IfOk result (λ gate.
        (season : Term) → HasRead season (K.view disk.new).log size [] gate) }
    ensures refused { IfErr result (λ fault.
        (season : Term) → AlwaysFaulty season (K.view disk.new).log fault) }
    ensures later { IsLaterDisk (K.view disk.old) (K.view disk.new) }
    ensures told { (K.view disk.new).told ≡ (K.view disk.old).told }
    ensures cause { HasOpenCause (K.view disk.old).faults (K.view disk.new).faults result }
{
    joined_calls();
    let mut head = [0; 17];
    disk.read(0, &mut head)?;
    if is_header(&head[..16]) {
        Ok(head[16])
    } else {
        Err(OpenFault::NotJournal)
    }
}

#[tactic(auto, unfolding(crate::specs::Format::header))]
fn is_header(bytes: &[u8]) -> bool
    ensures { IsTrue result ↔ (bytes.now ≡ header) }
{
    bytes == b"SLOT JOURNAL 01\n".as_slice()
}

/// Reads slots while their gates are open.
fn read_slots<K: Disk>(
    alloc: Global,
    disk: &mut K,
    season: &Season,
    size: u64,
    first: u8,
) -> Result<Vec<Asked>, OpenFault>
    requires read { HasRead season.now (K.view disk.old).log size [] first }
    requires long { 17 < size }
    ensures looks { OnlyLooked (K.view disk.old).log (K.view disk.new).log }
    ensures found { IfOk result (λ asks.
        AlwaysJournalOf season.now (K.view disk.new).log asks.items) }
    ensures within { IfOk result (λ asks.
        17 + 256 * length asks.items ≤ shown_length (K.view disk.new).log) }
    ensures few { IfOk result (λ asks. length asks.items ≤ MOST_PAIRS) }
    ensures fit { IfOk result (λ asks. All (IsFit season.now) asks.items) }
    ensures refused { IfErr result (AlwaysFaulty season.now (K.view disk.new).log) }
    ensures later { IsLaterDisk (K.view disk.old) (K.view disk.new) }
    ensures told { (K.view disk.new).told ≡ (K.view disk.old).told }
    ensures cause { HasOpenCause (K.view disk.old).faults (K.view disk.new).faults result }
{
    let mut asks = Vec::new(alloc);
    let mut gate = first;
    for number in 0..MOST_PAIRS {
        if gate != OPEN_GATE {
            return Ok(asks);
        }
        gate = push_slot(alloc, disk, season, size, number, &mut asks)?;
    }
    if gate == OPEN_GATE {
        Err(OpenFault::BadSlot { number: MOST_PAIRS })
    } else {
        Ok(asks)
    }
}

/// Adds the pair of the slot of this number, whose gate is open, and gives the next gate.
fn push_slot<K: Disk>(
    alloc: Global,
    disk: &mut K,
    season: &Season,
    size: u64,
    number: u32,
    asks: &mut Vec<Asked>,
) -> Result<u8, OpenFault>
    requires read { HasRead season.now (K.view disk.old).log size asks.old.items 1 }
    requires number { length asks.old.items ≡ number }
    requires few { number < MOST_PAIRS }
    requires long { 17 < size }
    ensures looks { OnlyLooked (K.view disk.old).log (K.view disk.new).log }
    ensures read { IfOk result (λ gate.
        HasRead season.now (K.view disk.new).log size asks.new.items gate) }
    ensures number { OnOk result (length asks.new.items ≡ number + 1) }
    ensures refused { IfErr result (AlwaysFaulty season.now (K.view disk.new).log) }
    ensures later { IsLaterDisk (K.view disk.old) (K.view disk.new) }
    ensures told { (K.view disk.new).told ≡ (K.view disk.old).told }
    ensures cause { HasOpenCause (K.view disk.old).faults (K.view disk.new).faults result }
{
    let mut bytes = [0; 256];
    read_slot(disk, season, size, number, &mut bytes)?;
    match pair_in(alloc, season, &bytes)? {
        Some(asked) => {
            asks.push(asked)?;
            Ok(bytes[255])
        }
        None => Err(OpenFault::BadSlot { number }),
    }
}

/// Reads the bytes of the slot of this number behind its gate, which is open, and the next gate.
fn read_slot<K: Disk>(
    disk: &mut K,
    season: &Season,
    size: u64,
    number: u32,
    bytes: &mut [u8],
) -> Result<(), OpenFault>
    requires room { length bytes.old ≡ 256 }
    requires sized { IsSized (K.view disk.old).log size }
    requires few { number < MOST_PAIRS }
    requires long { 17 < size }
    ensures room { length bytes.new ≡ 256 }
    ensures looks { OnlyLooked (K.view disk.old).log (K.view disk.new).log }
    ensures read { OnOk result ((asks : List AskedValue)
        → HasRead season.now (K.view disk.old).log size asks 1 → length asks ≡ number
        → HasReadSlot season.now (K.view disk.new).log size asks bytes.new) }
    ensures refused { IfErr result (λ fault. (asks : List AskedValue)
        → HasRead season.now (K.view disk.old).log size asks 1 → length asks ≡ number
        → AlwaysFaulty season.now (K.view disk.new).log fault) }
    ensures later { IsLaterDisk (K.view disk.old) (K.view disk.new) }
    ensures told { (K.view disk.new).told ≡ (K.view disk.old).told }
    ensures cause { HasOpenCause (K.view disk.old).faults (K.view disk.new).faults result }
{
    joined_calls();
    printed_items();
    let place = 17 + 256 * u64::from(number);
    if size < place + 256 {
        return Err(OpenFault::BadSlot { number });
    }
    disk.read(place, bytes)?;
    Ok(())
}
