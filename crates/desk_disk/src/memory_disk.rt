//! A disk in memory.
ghost use Rattle.std.specs.Prelude.{is_ok, ◌≡◌, ◌≤◌, ◌+◌, IfOk, length};
ghost use Rattle.desk_outside.specs.Cause.{HasCause};
ghost use Rattle.desk_disk.specs.Disks.{TellsTruly, shown_length, Stores, Shortens, with_length};
ghost use Rattle.desk_disk.specs.Disks.{with_read_at, with_write_at, with_cut, with_sync};
ghost use Rattle.desk_disk.specs.DisksInMemory.{disk_view, new_disk, serves_call, stores_bytes};

use crate::disk::{Disk, DiskFault};
use crate::disk_log::DiskNote;
use crate::disk_record::DiskRecord;
use crate::file_room::FileRoom;
use crate::turns::Turns;
use desk_outside::{Failure, sent};
use slot_text::Memory;
use std::alloc::Global;
use std::marker::Model;

/// A file in memory, in room that is taken when it is made.
///
/// A call fails where its number is listed or there is no room for one more call, and a write also
/// where its bytes pass the room for bytes. A failed write leaves the front of the bytes that its
/// entry says, as far as it fits; any other call that fails leaves the file as it was. So the bytes
/// of a disk whose call failed are one of the images that a stop within that call may leave.
#[derive(Drop)]
pub struct MemoryDisk {
    first: Vec<u8>,
    file: FileRoom,
    turns: Turns,
    record_of: DiskRecord,
}

impl Model for MemoryDisk {
    ghost use Rattle.std.specs.Prelude.{◌≤◌, length};
    ghost use Rattle.desk_disk.specs.Stops.{MayRead};
    ghost use Rattle.desk_disk.specs.Disks.{shown_length};
    ghost use Rattle.desk_disk.specs.DisksInMemory.{HeldDisk, started};

    ghost Value = { HeldDisk };

    ghost view = { λ d. record {
      first = d.first.items;
      bytes = d.file.bytes;
      byte_limit = d.file.room;
      turns = d.turns;
      faults = d.record_of.faults;
      log = d.record_of.log;
    } };

    ghost invariant = { λ d. MayRead (started d.first.items) d.record_of.log d.file.bytes
        × (shown_length d.record_of.log ≤ length d.file.bytes) };
}

impl MemoryDisk {
    /// A disk that holds these bytes, with room for `byte_limit` bytes and `call_limit` calls,
    /// whose calls named in `failing` will fail. `Memory` where that room could not be taken; no
    /// later call wants memory.
    pub fn new(
        alloc: Global,
        bytes: &[u8],
        byte_limit: usize,
        call_limit: usize,
        failing: Vec<Failure>,
    ) -> Result<MemoryDisk, Memory>
        requires { length bytes.now ≤ byte_limit }
        ensures { IfOk result (λ disk.
            disk ≡ new_disk bytes.now byte_limit call_limit failing.items) }
    {
        let first = Vec::from_slice(alloc, bytes)?;
        let file = FileRoom::new(alloc, bytes, byte_limit)?;
        Ok(MemoryDisk {
            first,
            file,
            turns: Turns::new(failing, call_limit),
            record_of: DiskRecord::new(),
        })
    }

    /// What it holds. This is no call that is counted.
    pub fn bytes(&self) -> &[u8]
        ensures { result.now ≡ self.now.bytes }
    {
        self.file.bytes()
    }
}

impl Disk for MemoryDisk {
    ghost view = { disk_view };

    fn faults(&self) -> u64 {
        self.record_of.faults()
    }

    fn length(&mut self) -> Result<u64, DiskFault>
        ensures log { self.new.log ≡ with_length self.old.log result }
        ensures told { (disk_view self.new).told ≡ (disk_view self.old).told }
        ensures truly { TellsTruly (disk_view self.new) }
        ensures cause { HasCause self.old.faults self.new.faults result }
        ensures gives { is_ok result ≡ serves_call self.old }
    {
        if self.turns.next_failure().is_some() {
            self.record_of.fault();
            return Err(DiskFault);
        }
        let length = self.file.bytes().len() as u64;
        self.record_of.note(&DiskNote::Measured(length));
        Ok(length)
    }

    fn read(&mut self, at: u64, into: &mut [u8]) -> Result<(), DiskFault>
        requires { at + length into.old ≤ shown_length self.old.log }
        ensures whole { length into.new ≡ length into.old }
        ensures log { self.new.log ≡ with_read_at self.old.log at into.new result }
        ensures told { (disk_view self.new).told ≡ (disk_view self.old).told }
        ensures truly { TellsTruly (disk_view self.new) }
        ensures cause { HasCause self.old.faults self.new.faults result }
        ensures gives { is_ok result ≡ serves_call self.old }
    {
        if self.turns.next_failure().is_some() {
            self.record_of.fault();
            return Err(DiskFault);
        }
        self.file.read(at as usize, into);
        self.record_of.note(&DiskNote::Read(at, into));
        Ok(())
    }

    fn write_at(&mut self, at: u64, bytes: &[u8]) -> Result<(), DiskFault>
        requires { at ≤ shown_length self.old.log }
        ensures log { self.new.log ≡ with_write_at self.old.log at bytes.now result }
        ensures told { Stores (disk_view self.old).told at bytes.now result
            (disk_view self.new).told }
        ensures truly { TellsTruly (disk_view self.new) }
        ensures cause { HasCause self.old.faults self.new.faults result }
        ensures gives { is_ok result ≡ stores_bytes self.old at bytes.now }
    {
        let failure = self.turns.next_failure();
        let place = at as usize;
        let free = self.file.free_from(place);
        if failure.is_none() && bytes.len() <= free {
            self.file.write(place, bytes);
            self.record_of.note(&DiskNote::Wrote(at, bytes));
            Ok(())
        } else {
            self.file.write(place, sent(&failure, bytes, free));
            self.record_of.note(&DiskNote::WriteFailed(at, bytes));
            self.record_of.fault();
            Err(DiskFault)
        }
    }

    fn cut(&mut self, size: u64) -> Result<(), DiskFault>
        requires { size ≤ shown_length self.old.log }
        ensures log { self.new.log ≡ with_cut self.old.log size result }
        ensures told { Shortens (disk_view self.old).told size result (disk_view self.new).told }
        ensures truly { TellsTruly (disk_view self.new) }
        ensures cause { HasCause self.old.faults self.new.faults result }
        ensures gives { is_ok result ≡ serves_call self.old }
    {
        if self.turns.next_failure().is_some() {
            self.record_of.note(&DiskNote::CutFailed(size));
            self.record_of.fault();
            return Err(DiskFault);
        }
        self.file.cut(size as usize);
        self.record_of.note(&DiskNote::Cut(size));
        Ok(())
    }

    fn sync(&mut self) -> Result<(), DiskFault>
        ensures log { self.new.log ≡ with_sync self.old.log result }
        ensures told { (disk_view self.new).told ≡ (disk_view self.old).told }
        ensures truly { TellsTruly (disk_view self.new) }
        ensures cause { HasCause self.old.faults self.new.faults result }
        ensures gives { is_ok result ≡ serves_call self.old }
    {
        if self.turns.next_failure().is_some() {
            self.record_of.note(&DiskNote::SyncFailed);
            self.record_of.fault();
            return Err(DiskFault);
        }
        self.record_of.note(&DiskNote::Synced);
        Ok(())
    }
}
