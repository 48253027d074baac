//! What passed through an object of the outside, in proofs alone.
ghost use Rattle.std.specs.Prelude.{◌≡◌, List, [], ◌∷◌, ◌++◌};
ghost use Rattle.std.specs.Borrow.{ftrue};
ghost use Rattle.desk_outside.specs.Passages.{Passage};

use std::marker::Model;

/// The passages so far, the earliest first. It has no bytes at run time, and its methods do nothing
/// there.
#[derive(Drop)]
pub(crate) struct Log {
    ghost passages: { List Passage },
}

impl Model for Log {
    ghost also_owns = { λ _. ftrue };
}

// It owns nothing.
unsafe impl Send for Log {}

unsafe impl Sync for Log {}

/// What one call let through.
#[derive(Clone, Copy, Drop)]
pub enum Note<'a> {
    /// A file of this name was read, and these bytes were handed out.
    Read(&'a str, &'a [u8]),
    /// A file of this name was written with these bytes.
    Wrote(&'a str, &'a [u8]),
    /// A write of these bytes failed.
    WriteFailed(&'a str, &'a [u8]),
    /// These bytes were taken.
    Took(&'a [u8]),
    /// These bytes were put.
    Put(&'a [u8]),
    /// A put of these bytes failed.
    PutFailed(&'a [u8]),
}

impl Log {
    ghost use Rattle.desk_outside.specs.Noted.{passage_of};

    /// The log of an object just made.
    pub(crate) fn new() -> Log
        ensures { result.passages ≡ [] }
    {
        Log {}
    }

    /// The log with one passage more.
    #[inline(always)]
    pub(crate) fn then(&self, _note: &Note<'_>) -> Log
        ensures { result.passages ≡ self.now.passages ++ passage_of _note.now ∷ [] }
    {
        Log {}
    }
}
