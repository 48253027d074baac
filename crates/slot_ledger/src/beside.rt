//! What may be kept beside a history, in the same turn.
ghost use Rattle.std.specs.Prelude.{◌≡◌, ◌≤◌, ◌<◌, ◌+◌, ◌++◌, ◌∷◌, [], List, ℕ, length};
ghost use Rattle.std.specs.Prelude.{IfErr, IfNone, IfSome, OnOk};
ghost use Rattle.holding_book.specs.declared.answer.Answer.{Answer as AnswerValue};
ghost use Rattle.holding_book.specs.declared.answer.Entry.{Entry as EntryValue};
ghost use Rattle.slot_ledger.specs.Starts.{new_entry};
ghost use Rattle.slot_ledger.specs.Beside.{ReadsParts, ReadsEntries, ReadsOwn, TellsNext};
ghost use Rattle.slot_ledger.specs.Beside.{MayMark, IsKeepFault, IsUnbroken};

use crate::fault::EnterFault;
use scr_reader::Item;
use std::alloc::Global;

/// What is kept beside a history behind the turn, as a journal of what was asked.
///
/// The turn has one list: the entries of the history, and behind them a mark where what is kept has
/// failed. How that list is read as the history is for the type to say.
pub trait Beside: Drop {
    ghost use Rattle.scr_reader.specs.declared.line.Item.{Item as ItemValue};
    ghost use Rattle.holding_book.specs.declared.answer.Entry.{Entry as EntryValue};

    /// How it was when the ledger began. Proofs alone have values of it.
    type Start;

    /// What the turn's list has. Proofs alone have values of it.
    type Told;

    ghost start: { Self → Self.Start };

    /// How many entries were found when the ledger began.
    ghost found: { Self.Start → ℕ };

    /// It keeps such an ask of a caller of this number.
    ghost takes: { Self.Start → ℕ → ItemValue → Type 0 };

    /// The turn's list, by the history.
    ghost told: { Self → List EntryValue → List Self.Told };

    /// An entry in that list.
    ghost done: { EntryValue → Self.Told };

    /// Who told it.
    ghost number: { Self.Told → ℕ };

    /// What the list is read as.
    ghost read: { List Self.Told → List EntryValue };

    /// The list says that what is kept has failed, with this count of faults.
    ghost broken: { List Self.Told → ℕ → Type 0 };

    /// What is kept agrees with the history.
    ghost agrees: { Self → List EntryValue → Type 0 };

    /// How lists are read. It does nothing.
    fn laws(&self)
        ensures parts { ReadsParts read }
        ensures entries { ReadsEntries read done number }
        ensures own { ReadsOwn read number }
        ensures told { (history : List EntryValue) → read (told self.now history) ≡ history };

    /// The length of the list, where the history has so many entries.
    fn length(&self, count: u64) -> u64
        requires { count ≤ 100000 }
        ensures { (history : List EntryValue) → length history ≡ count
            → result ≡ length (told self.now history) };

    /// How many entries were found when the ledger began.
    fn found(&self) -> u64
        ensures value { result ≡ found (start self.now) }
        ensures few { result ≤ 100000 };

    /// The count of faults with which it has failed. Until then each entry is told behind the list.
    fn failed(&self) -> Option<u64>
        ensures open { IfNone result (TellsNext done (told self.now) (told self.now)) }
        ensures unbroken { IfNone result ((history : List EntryValue)
            → IsUnbroken broken (told self.now history)) }
        ensures broken { IfSome result (λ faults. (history : List EntryValue)
            → broken (told self.now history) faults) };

    /// Keeps the ask of a caller, before it is entered. Once it has failed it marks the list.
    fn keep(&mut self, alloc: Global, caller: u32, ask: &Item) -> Result<(), EnterFault>
        requires takes { takes (start self.old) caller ask.now }
        requires open { TellsNext done (told self.old) (told self.old) }
        requires unbroken { (history : List EntryValue)
            → IsUnbroken broken (told self.old history) }
        requires agrees { (history : List EntryValue) × agrees self.old history
            × (found (start self.old) + length history < 100000) }
        ensures start { start self.new ≡ start self.old }
        ensures told { OnOk result (TellsNext done (told self.old) (told self.new)) }
        ensures kept { OnOk result ((history : List EntryValue) (answer : AnswerValue)
            → agrees self.old history
            → agrees self.new (history ++ new_entry caller ask.now answer ∷ [])) }
        ensures marks { IfErr result (λ _. (history : List EntryValue)
            → MayMark read number caller (told self.old history) (told self.new history)) }
        ensures stays { IfErr result (λ _. (history : List EntryValue)
            → agrees self.old history → agrees self.new history) }
        ensures fault { IfErr result (λ fault. (history : List EntryValue)
            → IsKeepFault broken (told self.new history) fault) };
}
