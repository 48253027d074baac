//! The calls of a disk, in proofs alone.
ghost use Rattle.std.specs.Prelude.{◌≡◌, List, [], ◌∷◌, ◌++◌};
ghost use Rattle.std.specs.Borrow.{ftrue};
ghost use Rattle.desk_disk.specs.Stops.{DiskPassage};

use std::marker::Model;

/// The calls so far, the earliest first. It has no bytes at run time, and its methods do nothing
/// there.
#[derive(Drop)]
pub(crate) struct DiskLog {
    ghost passages: { List DiskPassage },
}

impl Model for DiskLog {
    ghost also_owns = { λ _. ftrue };
}

// It owns nothing.
unsafe impl Send for DiskLog {}

unsafe impl Sync for DiskLog {}

/// What one call did.
#[derive(Clone, Copy, Drop)]
pub(crate) enum DiskNote<'a> {
    Measured(u64),
    Read(u64, &'a [u8]),
    Wrote(u64, &'a [u8]),
    WriteFailed(u64, &'a [u8]),
    Cut(u64),
    CutFailed(u64),
    Synced,
    SyncFailed,
}

impl DiskLog {
    ghost use Rattle.desk_disk.specs.Noted.{disk_passage_of};

    /// The log of a disk just opened.
    pub(crate) fn new() -> DiskLog
        ensures { result.passages ≡ [] }
    {
        DiskLog {}
    }

    /// The log with one passage more.
    #[inline(always)]
    pub(crate) fn then(&self, _note: &DiskNote<'_>) -> DiskLog
        ensures { result.passages ≡ self.now.passages ++ disk_passage_of _note.now ∷ [] }
    {
        DiskLog {}
    }
}
