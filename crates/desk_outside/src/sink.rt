//! The trait of a sink of bytes.
ghost use Rattle.std.specs.Prelude.{◌≡◌, ℕ, List, Option, OnOk, OnErr};
ghost use Rattle.desk_outside.specs.Cause.{HasCause};
ghost use Rattle.desk_outside.specs.Bytes.{Puts, PutsPart};
ghost use Rattle.desk_outside.specs.Passages.{Passage, with_put};

/// A sink did not take all bytes; the count of its faults has risen.
#[derive(Clone, Copy, Debug, PartialEq, Eq)]
pub struct SinkFault;

/// Where bytes go, one after the other.
///
/// Every sink has a log of the bytes of each put, also of one that failed, whether it tells its
/// contents or not. It stands in proofs alone.
pub trait Sink {
    /// What was put so far, where it is told.
    ghost contents: { Self → Option (List ℕ) };

    /// How often a call has failed. The count stands still at the last value of a `u64`.
    ghost fault_count: { Self → ℕ };

    /// What passed so far, the earliest first.
    ghost log: { Self → List Passage };

    /// The count of faults.
    fn faults(&self) -> u64
        ensures { result ≡ fault_count self.now };

    /// Appends all bytes. After a fault a front of them was appended, perhaps none.
    fn put(&mut self, bytes: &[u8]) -> Result<(), SinkFault>
        ensures ok { OnOk result (Puts (contents self.old) bytes.now (contents self.new)) }
        ensures part { OnErr result (PutsPart (contents self.old) bytes.now (contents self.new)) }
        ensures cause { HasCause (fault_count self.old) (fault_count self.new) result }
        ensures passed { log self.new ≡ with_put (log self.old) bytes.now result };
}
