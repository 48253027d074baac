//! A disk over a file of the system.
ghost use Rattle.std.specs.Prelude.{◌≡◌, [], None, length};

use crate::disk::{Disk, DiskFault};
use crate::disk_log::DiskNote;
use crate::disk_record::DiskRecord;
use std::fs::OpenFile;
use std::marker::Model;
use std::os::unix::fs::FileExt;

/// A file of the system. A file that could not be opened is a disk whose every call fails. It does
/// not tell what it holds: contracts see the count of its faults and its calls.
#[derive(Drop)]
pub struct RealDisk<F: Drop> {
    file: Option<F>,
    record_of: DiskRecord,
}

impl<F: Drop> Model for RealDisk<F> {
    ghost use Rattle.std.specs.Prelude.{None};
    ghost use Rattle.desk_disk.specs.Disks.{DiskView};

    ghost Value = { DiskView };

    ghost view = { λ d. record {
      told = None;
      faults = d.record_of.faults;
      log = d.record_of.log;
    } };
}

impl<F: Drop> RealDisk<F> {
    /// A disk over this file, with no call so far.
    pub fn new(file: Option<F>) -> RealDisk<F>
        ensures { result ≡ record { told = None; faults = 0; log = [] } }
    {
        RealDisk {
            file,
            record_of: DiskRecord::new(),
        }
    }
}

impl<F: OpenFile + FileExt + Send + Drop> Disk for RealDisk<F> {
    ghost view = { λ disk. disk };

    fn faults(&self) -> u64 {
        self.record_of.faults()
    }

    fn length(&mut self) -> Result<u64, DiskFault> {
        match file_length(&self.file) {
            Some(length) => {
                self.record_of.note(&DiskNote::Measured(length));
                Ok(length)
            }
            None => {
                self.record_of.fault();
                Err(DiskFault)
            }
        }
    }

    fn read(&mut self, at: u64, into: &mut [u8]) -> Result<(), DiskFault> {
        if read_whole(&self.file, at, into) {
            self.record_of.note(&DiskNote::Read(at, into));
            Ok(())
        } else {
            self.record_of.fault();
            Err(DiskFault)
        }
    }

    fn write_at(&mut self, at: u64, bytes: &[u8]) -> Result<(), DiskFault> {
        if write_whole(&self.file, at, bytes) {
            self.record_of.note(&DiskNote::Wrote(at, bytes));
            Ok(())
        } else {
            self.record_of.note(&DiskNote::WriteFailed(at, bytes));
            self.record_of.fault();
            Err(DiskFault)
        }
    }

    fn cut(&mut self, size: u64) -> Result<(), DiskFault> {
        if is_cut(&self.file, size) {
            self.record_of.note(&DiskNote::Cut(size));
            Ok(())
        } else {
            self.record_of.note(&DiskNote::CutFailed(size));
            self.record_of.fault();
            Err(DiskFault)
        }
    }

    fn sync(&mut self) -> Result<(), DiskFault> {
        if is_synced(&self.file) {
            self.record_of.note(&DiskNote::Synced);
            Ok(())
        } else {
            self.record_of.note(&DiskNote::SyncFailed);
            self.record_of.fault();
            Err(DiskFault)
        }
    }
}

fn file_length<F: OpenFile>(file: &Option<F>) -> Option<u64> {
    match file {
        Some(file) => match file.metadata() {
            Ok(data) => Some(data.len()),
            Err(_) => None,
        },
        None => None,
    }
}

/// All bytes were read. `into` keeps its length.
fn read_whole<F: FileExt>(file: &Option<F>, at: u64, into: &mut [u8]) -> bool
    ensures { length into.new ≡ length into.old }
{
    match file {
        Some(file) => file.read_exact_at(into, at).is_ok(),
        None => false,
    }
}

fn write_whole<F: FileExt>(file: &Option<F>, at: u64, bytes: &[u8]) -> bool {
    match file {
        Some(file) => file.write_all_at(bytes, at).is_ok(),
        None => false,
    }
}

fn is_cut<F: OpenFile>(file: &Option<F>, size: u64) -> bool {
    match file {
        Some(file) => file.set_len(size).is_ok(),
        None => false,
    }
}

/// What was done is on the disk, a new length among it.
fn is_synced<F: OpenFile>(file: &Option<F>) -> bool {
    match file {
        Some(file) => file.sync_data().is_ok(),
        None => false,
    }
}
