//! The calls that a disk in memory has had, and those for which it has room.
ghost use Rattle.std.specs.Prelude.{◌≡◌};
ghost use Rattle.desk_disk.specs.DisksInMemory.{turn_failure, after_turn};

use desk_outside::{Calls, Failure};
use std::marker::Model;

/// The calls that are to fail, and how many calls more there is room for.
#[derive(Drop)]
pub(crate) struct Turns {
    calls: Calls,
    left: usize,
}

impl Model for Turns {
    ghost use Rattle.desk_disk.specs.DisksInMemory.{TurnsView};

    ghost Value = { TurnsView };

    ghost view = { λ t. record {
      failing = t.calls.failing;
      made = t.calls.made;
      left = t.left;
    } };
}

impl Turns {
    pub(crate) fn new(failing: Vec<Failure>, left: usize) -> Turns
        ensures { result ≡ record { failing = failing.items; made = 0; left = left } }
    {
        Turns {
            calls: Calls::new(failing),
            left,
        }
    }

    /// Counts a call, and says whether it is to fail.
    pub(crate) fn next_failure(&mut self) -> Option<Failure>
        ensures failure { result ≡ turn_failure self.old }
        ensures counted { self.new ≡ after_turn self.old }
    {
        let listed = self.calls.next_failure();
        if self.left == 0 {
            return Some(Failure::at(0));
        }
        self.left -= 1;
        listed
    }
}
