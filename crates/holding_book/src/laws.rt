//! Laws of books and histories. Each function does nothing; its contract is the law.

ghost use Rattle.std.specs.Prelude.{◌≡◌, ◌↔◌, ◌+◌, ◌≤◌, ◌++◌, ◌∷◌, [], List, All, length};
ghost use Rattle.scr_reader.specs.declared.line.Item.{Item as ItemValue};
ghost use Rattle.holding_book.specs.declared.answer.Entry.{Entry as EntryValue};
ghost use Rattle.holding_book.specs.Books.{SlotBook, IsBook, BookFits};
ghost use Rattle.holding_book.specs.Asks.{CanAsk, reply, next};
ghost use Rattle.holding_book.specs.Replied.{HasAnswerLines};
ghost use Rattle.holding_book.specs.Histories.{replay, IsLegal};

use season_days::laws::{cut_counts, cut_parts};
use series_model::laws::{free_shift, movement_loads, shift_bounds, timed_movements};

/// One entry more: the book after it is the next one, and the history is legal where it was and the
/// answer is the one that is due.
pub fn one_more()
    ensures replay { (b : SlotBook) (history : List EntryValue) (entry : EntryValue) →
        replay b (history ++ entry ∷ []) ≡ next (replay b history) entry.ask }
    ensures legal { (b : SlotBook) (history : List EntryValue) (entry : EntryValue) →
        IsLegal b history → entry.answer ≡ reply (replay b history) entry.ask →
        IsLegal b (history ++ entry ∷ []) }
{}

/// A change keeps the declaration, and adds at most three holdings.
pub fn next_books()
    ensures declaration { (b : SlotBook) (ask : ItemValue) → (next b ask).declaration
        ≡ b.declaration }
    ensures few { (b : SlotBook) (ask : ItemValue) →
        length (next b ask).holdings ≤ length b.holdings + 3 }
{}

/// A book keeps what each book keeps after each ask: it fits, and its lines have a spelling.
pub fn next_fits()
    ensures fits { (b : SlotBook) (ask : ItemValue) → BookFits b → CanAsk b.declaration ask →
        BookFits (next b ask) }
    ensures book { (b : SlotBook) (ask : ItemValue) → IsBook b → CanAsk b.declaration ask →
        IsBook (next b ask) }
{
    movement_loads();
    cut_counts();
    cut_parts();
    timed_movements();
    free_shift();
    shift_bounds();
}

/// After any history the declaration is the same. Where each ask of it can be asked, the book keeps
/// what each book keeps: it fits, and its lines have a spelling.
pub fn replays_fit()
    ensures declaration { (b : SlotBook) (history : List EntryValue) →
        (replay b history).declaration ≡ b.declaration }
    ensures book { (b : SlotBook) (history : List EntryValue) → IsBook b →
        All (λ (entry : EntryValue). CanAsk b.declaration entry.ask) history →
        IsBook (replay b history) }
{
    next_fits();
}

/// The answer that is due is one that its ask can have, and all lines that are printed of both have
/// a spelling: the line or the lines of the ask, the offered one, and those that a query lists.
pub fn answer_lines()
    ensures reply { (b : SlotBook) (ask : ItemValue) → IsBook b → CanAsk b.declaration ask →
        HasAnswerLines b.declaration.season ask (reply b ask) }
    ensures history { (b : SlotBook) (history : List EntryValue) → IsBook b → IsLegal b history →
        All (λ (entry : EntryValue). CanAsk b.declaration entry.ask) history →
        All (λ (entry : EntryValue).
        HasAnswerLines b.declaration.season entry.ask entry.answer) history }
{
    shift_bounds();
    next_fits();
}
