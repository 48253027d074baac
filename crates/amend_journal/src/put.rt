//! The calls of a disk by which a slot is added.

ghost use Rattle.std.specs.Prelude.{◌≡◌, ◌⊎◌, ◌+◌, ◌^◌, ◌<◌, ◌≤◌, ◌++◌, ◌∷◌, [], ℕ, List, length};
ghost use Rattle.std.specs.Prelude.{OnOk};
ghost use Rattle.desk_outside.specs.Cause.{HasCause};
ghost use Rattle.desk_disk.specs.Stops.{DiskStart, MayLeave, AtEachMoment};
ghost use Rattle.desk_disk.specs.Disks.{DiskView, shown_length};
ghost use Rattle.amend_journal.specs.Format.{ClosedAfter};
ghost use Rattle.amend_journal.specs.Durable.{IsLaterDisk};

use desk_disk::laws::joined_calls;
use desk_disk::{Disk, DiskFault};

/// The calls of a disk by which a journal grows. Every disk has them; nothing is promised of
/// threads, so that what is kept in a turn can make them.
pub trait SlotDisk: Drop {
    ghost stored: { Self → DiskView };

    /// The count of faults.
    fn count_faults(&self) -> u64
        ensures { result ≡ (stored self.now).faults };

    /// Writes a slot behind the closed gate at this place, with the closed gate of the next slot,
    /// and then opens the gate; a sync after each.
    fn put_slot(&mut self, gate: u64, slot: &[u8]) -> Result<(), DiskFault>
        requires place { gate + 1 ≤ shown_length (stored self.old).log }
        requires room { gate + 257 < 2 ^ 64 }
        ensures moments { (s : DiskStart) (block pair : List ℕ) → length block ≡ gate
            → slot.now ≡ pair ++ 0 ∷ []
            → ((c : List ℕ) → MayLeave s (stored self.old).log c → ClosedAfter block c)
            → AtEachMoment s (stored self.old).log (stored self.new).log
            (λ c. ClosedAfter block c ⊎ ClosedAfter (block ++ 1 ∷ pair) c) }
        ensures kept { OnOk result ((s : DiskStart) (block pair : List ℕ) → length block ≡ gate
            → slot.now ≡ pair ++ 0 ∷ []
            → ((c : List ℕ) → MayLeave s (stored self.old).log c → ClosedAfter block c)
            → (c : List ℕ) → MayLeave s (stored self.new).log c
            → ClosedAfter (block ++ 1 ∷ pair) c) }
        ensures shown { OnOk result (gate + 1 + length slot.now
            ≤ shown_length (stored self.new).log) }
        ensures longer { shown_length (stored self.old).log ≤ shown_length (stored self.new).log }
        ensures later { IsLaterDisk (stored self.old) (stored self.new) }
        ensures cause { HasCause (stored self.old).faults (stored self.new).faults result };
}

impl<K: Disk> SlotDisk for K {
    ghost stored = { K.view };

    fn count_faults(&self) -> u64 {
        self.faults()
    }

    fn put_slot(&mut self, gate: u64, slot: &[u8]) -> Result<(), DiskFault> {
        joined_calls();
        self.write_at(gate + 1, slot)?;
        self.sync()?;
        self.write_at(gate, &[1])?;
        self.sync()?;
        Ok(())
    }
}
