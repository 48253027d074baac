//! Laws of what a file stands for. Each function does nothing; its contract is the law.

ghost use Rattle.std.specs.Prelude.{◌≡◌, ◌<◌, ◌++◌, ℕ, List};
ghost use Rattle.season_days.specs.Term.{Term};
ghost use Rattle.holding_book.specs.declared.answer.Entry.{Entry as EntryValue};
ghost use Rattle.holding_book.specs.Books.{SlotBook};
ghost use Rattle.holding_book.specs.Histories.{replay};
ghost use Rattle.amend_journal.specs.Standing.{StandsFor, IsOther, IsBadSlot};
ghost use Rattle.amend_journal.specs.Kept.{asks_of, book_after};
ghost use Rattle.amend_journal.specs.declared.asked.Asked.{Asked as AskedValue};

use scr_reader::laws::{one_item, printed_items};

/// A file stands for one list of pairs at most, or has one fault, and never both.
pub fn one_standing()
    ensures asks { (season : Term) (file : List ℕ) (a b : List AskedValue) → season.year < 100
        → StandsFor season a file → StandsFor season b file → a ≡ b }
    ensures not_other { (season : Term) (file : List ℕ) (a : List AskedValue)
        → StandsFor season a file → IsOther file → ⊥ }
    ensures not_bad { (season : Term) (file : List ℕ) (a : List AskedValue) (number : ℕ)
        → season.year < 100 → StandsFor season a file → IsBadSlot season number file → ⊥ }
    ensures one_fault { (season : Term) (file : List ℕ) (number : ℕ)
        → IsBadSlot season number file → IsOther file → ⊥ }
    ensures one_number { (season : Term) (file : List ℕ) (m n : ℕ) → season.year < 100
        → IsBadSlot season m file → IsBadSlot season n file → m ≡ n }
{
    one_item();
    printed_items();
}

/// The book after what was asked in a history is the replay of the history: so a book that is made
/// anew of the pairs of a journal is the one that was amended. It can be made in two parts.
pub fn books_after()
    ensures replay { (b : SlotBook) (history : List EntryValue)
        → replay b history ≡ book_after b (asks_of history) }
    ensures parts { (b : SlotBook) (first later : List AskedValue)
        → book_after b (first ++ later) ≡ book_after (book_after b first) later }
{}
