//! The trait of a link.
ghost use Rattle.std.specs.Prelude.{◌≡◌, ◌<◌, length};
ghost use Rattle.desk_outside.specs.Cause.{HasCause};
ghost use Rattle.desk_links.specs.Links.{LinkView, TakesBytes, SendsBytes};

/// A link did not give or take bytes; the count of its faults has risen.
#[derive(Clone, Copy, Debug, PartialEq, Eq)]
pub struct LinkFault;

/// A connection: bytes come from it, and bytes go to it.
///
/// A link may tell its whole input and what it was given. Whether it tells or not, it has a log of
/// the bytes of each take that answered `Ok` and of each put, also of one that failed. The log
/// stands in proofs alone.
pub trait Link: Send + Drop {
    ghost view: { Self → LinkView };

    /// The count of faults. It stands still at the last value of a `u64`.
    fn faults(&self) -> u64
        ensures { result ≡ (view self.now).faults };

    /// The input has ended: a take answered 0.
    fn ended(&self) -> bool
        ensures { result ≡ (view self.now).ended };

    /// The next bytes, at the front of `into`; 0 is the end of the input.
    fn take(&mut self, into: &mut [u8]) -> Result<usize, LinkFault>
        requires { 0 < length into.old }
        ensures taken { TakesBytes (view self.old) result into.new (view self.new) }
        ensures cause { HasCause (view self.old).faults (view self.new).faults result };

    /// Sends all bytes. After a fault a front of them was sent, perhaps none.
    fn put(&mut self, bytes: &[u8]) -> Result<(), LinkFault>
        ensures sent { SendsBytes (view self.old) bytes.now result (view self.new) }
        ensures cause { HasCause (view self.old).faults (view self.new).faults result };
}
