//! Nothing beside the history.
ghost use Rattle.std.specs.Prelude.{◌≡◌, ◌≤◌, ◌<◌, ◌+◌, ◌++◌, ◌∷◌, [], List, ℕ, length};

use crate::beside::Beside;
use crate::fault::EnterFault;
use holding_book::Entry;
use scr_reader::Item;
use std::alloc::Global;

/// Nothing is kept beside the history: the list of the turn is the history.
#[derive(Clone, Copy, Debug, PartialEq, Eq)]
pub struct Nothing;

impl Beside for Nothing {
    ghost use Rattle.slot_ledger.specs.Starts.{entry_caller};

    type Start = ();

    type Told = Entry;

    ghost start = { λ _. tt };

    ghost found = { λ _. 0 };

    ghost takes = { λ _ _ _. Unit {0} };

    ghost told = { λ _ history. history };

    ghost done = { λ entry. entry };

    ghost number = { entry_caller };

    ghost read = { λ history. history };

    ghost broken = { λ _ _. ⊥ };

    ghost agrees = { λ _ _. Unit {0} };

    fn laws(&self) {}

    fn length(&self, count: u64) -> u64 {
        count
    }

    fn found(&self) -> u64 {
        0
    }

    fn failed(&self) -> Option<u64> {
        None
    }

    fn keep(&mut self, _alloc: Global, _caller: u32, _ask: &Item) -> Result<(), EnterFault> {
        Ok(())
    }
}
