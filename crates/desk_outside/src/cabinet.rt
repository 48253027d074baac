//! The trait of a cabinet of files.
ghost use Rattle.std.specs.Prelude.{◌≡◌, ◌≤◌, ℕ, List, Option, OnOk, OnErr, IfErr};
ghost use Rattle.desk_outside.specs.Cause.{HasCause};
ghost use Rattle.desk_outside.specs.Files.{Files, Reads, Writes, WritesPart};
ghost use Rattle.desk_outside.specs.Passages.{Passage, with_read, with_write};

use std::alloc::Global;

/// Why a cabinet did not hand a file out, or did not take one.
#[derive(Clone, Copy, Debug, PartialEq, Eq)]
pub enum CabinetFault {
    /// The call failed; the count of faults has risen.
    Failed,
    /// No file has the name. Where the cabinet does not tell what it holds, the count of faults has
    /// risen.
    Missing,
    /// The file has more bytes than the caller takes. Where the cabinet does not tell, the count
    /// has risen.
    Larger,
    /// Memory for the bytes ran out. Only a read answers this.
    Memory,
}

/// Files by name.
///
/// A cabinet may tell what it holds; then contracts know the bytes under each name, and what a call
/// answers and leaves is exact but for want of memory. One that does not tell answers with a fault
/// only where the count of its faults rose in that call. No call lowers the count, and none raises
/// it that answers `Ok`.
///
/// Every cabinet has a log of what passed through it, whether it tells what it holds or not: the
/// name and the bytes of each read that answered `Ok` and of each write, also of one that failed.
/// It stands in proofs alone.
pub trait Cabinet {
    /// The bytes under each name, where they are told.
    ghost files: { Self → Option Files };

    /// How often a call has failed. The count stands still at the last value of a `u64`.
    ghost fault_count: { Self → ℕ };

    /// What passed so far, the earliest first.
    ghost log: { Self → List Passage };

    /// The count of faults.
    fn faults(&self) -> u64
        ensures { result ≡ fault_count self.now };

    /// The whole file, read to its end, if it has at most `most` bytes. No file changes.
    fn read(&mut self, alloc: Global, name: &str, most: usize) -> Result<Vec<u8>, CabinetFault>
        ensures answer { Reads (files self.old) name.now most
            (fault_count self.old) (fault_count self.new) result }
        ensures unchanged { files self.new ≡ files self.old }
        ensures later { fault_count self.old ≤ fault_count self.new }
        ensures kept { OnOk result (fault_count self.new ≡ fault_count self.old) }
        ensures passed { log self.new ≡ with_read (log self.old) name.now result };

    /// Replaces the file, or makes it. After `Failed`, its only fault, the file is as before or
    /// holds a front of the bytes. Other files stay in both cases.
    fn write(&mut self, name: &str, bytes: &[u8]) -> Result<(), CabinetFault>
        ensures ok { OnOk result (Writes (files self.old) name.now bytes.now (files self.new)) }
        ensures part { OnErr result
            (WritesPart (files self.old) name.now bytes.now (files self.new)) }
        ensures failed { IfErr result (λ e. e ≡ CabinetFault.Failed) }
        ensures cause { HasCause (fault_count self.old) (fault_count self.new) result }
        ensures passed { log self.new ≡ with_write (log self.old) name.now bytes.now result };
}
