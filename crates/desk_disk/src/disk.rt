//! The trait of a disk.
ghost use Rattle.std.specs.Prelude.{◌≡◌, ◌≤◌, ◌+◌, length};
ghost use Rattle.desk_outside.specs.Cause.{HasCause};
ghost use Rattle.desk_disk.specs.Disks.{DiskView, TellsTruly, shown_length, Stores, Shortens};
ghost use Rattle.desk_disk.specs.Disks.{with_length, with_read_at, with_write_at, with_cut};
ghost use Rattle.desk_disk.specs.Disks.{with_sync};

/// A call of a disk failed; the count of its faults has risen.
#[derive(Clone, Copy, Debug, PartialEq, Eq)]
pub struct DiskFault;

/// One file of bytes, which a stop of the machine may leave in another state than a read gives it,
/// until a sync has followed.
///
/// Every disk has a log of its calls, in proofs alone. What a read may give after them, and which
/// images a stop may leave at each moment, are definitions over that log, for every first content.
/// A disk may tell besides how the file stood at first and what it holds.
///
/// A caller knows of the file's length what the calls so far show of it: `length`, or a read or
/// write that reached so far.
pub trait Disk: Send + Drop {
    ghost view: { Self → DiskView };

    /// The count of faults. It stands still at the last value of a `u64`.
    fn faults(&self) -> u64
        ensures { result ≡ (view self.now).faults };

    /// The length of the file.
    fn length(&mut self) -> Result<u64, DiskFault>
        ensures log { (view self.new).log ≡ with_length (view self.old).log result }
        ensures told { (view self.new).told ≡ (view self.old).told }
        ensures truly { TellsTruly (view self.new) }
        ensures cause { HasCause (view self.old).faults (view self.new).faults result };

    /// Fills `into` with the bytes from the place `at` on, which lie within the file.
    fn read(&mut self, at: u64, into: &mut [u8]) -> Result<(), DiskFault>
        requires { at + length into.old ≤ shown_length (view self.old).log }
        ensures whole { length into.new ≡ length into.old }
        ensures log { (view self.new).log ≡ with_read_at (view self.old).log at into.new result }
        ensures told { (view self.new).told ≡ (view self.old).told }
        ensures truly { TellsTruly (view self.new) }
        ensures cause { HasCause (view self.old).faults (view self.new).faults result };

    /// Writes the bytes from the place `at` on, which is no later than the end of the file. After a
    /// fault their place and what lies past the old end may hold any bytes.
    fn write_at(&mut self, at: u64, bytes: &[u8]) -> Result<(), DiskFault>
        requires { at ≤ shown_length (view self.old).log }
        ensures log { (view self.new).log ≡ with_write_at (view self.old).log at bytes.now result }
        ensures told { Stores (view self.old).told at bytes.now result (view self.new).told }
        ensures truly { TellsTruly (view self.new) }
        ensures cause { HasCause (view self.old).faults (view self.new).faults result };

    /// Cuts the file to a length, which is no greater than the one that it has. After a fault it
    /// has some length from that one on.
    fn cut(&mut self, size: u64) -> Result<(), DiskFault>
        requires { size ≤ shown_length (view self.old).log }
        ensures log { (view self.new).log ≡ with_cut (view self.old).log size result }
        ensures told { Shortens (view self.old).told size result (view self.new).told }
        ensures truly { TellsTruly (view self.new) }
        ensures cause { HasCause (view self.old).faults (view self.new).faults result };

    /// Brings all that was done to the disk: after `Ok` a stop leaves what a read gives.
    fn sync(&mut self) -> Result<(), DiskFault>
        ensures log { (view self.new).log ≡ with_sync (view self.old).log result }
        ensures told { (view self.new).told ≡ (view self.old).told }
        ensures truly { TellsTruly (view self.new) }
        ensures cause { HasCause (view self.old).faults (view self.new).faults result };
}
