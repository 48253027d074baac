//! The book of what a journal has.

ghost use Rattle.std.specs.Prelude.{◌≡◌, ◌+◌, ◌*◌, ◌≤◌, ◌<◌, ◌^◌, ◌++◌, List, All, length, IfOk};
ghost use Rattle.holding_book.specs.declared.answer.Entry.{Entry as EntryValue};
ghost use Rattle.holding_book.specs.Books.{SlotBook};
ghost use Rattle.holding_book.specs.Histories.{replay};
ghost use Rattle.amend_journal.specs.Format.{IsFit};
ghost use Rattle.amend_journal.specs.Kept.{asks_of, book_after};
ghost use Rattle.amend_journal.specs.declared.asked.Asked.{Asked as AskedValue};

use crate::asked::{Asked, MOST_PAIRS};
use holding_book::Book;
use holding_book::laws::next_books;
use slot_text::Memory;
use std::alloc::Global;

/// The book after the pairs of a journal are answered on it anew, one after the other. Where memory
/// runs out the book is dropped.
pub fn replayed(alloc: Global, book: Book, pairs: &[Asked]) -> Result<Book, Memory>
    requires fit { All (IsFit book.book.declaration.season) pairs.now }
    requires many { length pairs.now ≤ MOST_PAIRS }
    requires few { length book.book.holdings < 2 ^ 31 }
    ensures book { IfOk result (λ after. after.book ≡ book_after book.book pairs.now) }
    ensures declaration { IfOk result (λ after. after.book.declaration ≡ book.book.declaration) }
    ensures few { IfOk result (λ after. length after.book.holdings
        ≤ length book.book.holdings + 3 * length pairs.now) }
{
    next_books();
    let mut book = book;
    for asked in pairs {
        let _answer = book.apply(alloc, &asked.ask)?;
    }
    Ok(book)
}
