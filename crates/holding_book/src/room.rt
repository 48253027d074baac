//! What is made ready before a book changes.

ghost use Rattle.std.specs.Prelude.{◌≡◌, None};
ghost use Rattle.std.specs.Option.{ForSome};
ghost use Rattle.holding_book.specs.Asks.{reply, next};
ghost use Rattle.holding_book.specs.Private.Ready.{IsReadyRoom, IsReadyChange};

use crate::answer::Answer;
use crate::book::Book;
use crate::change::Change;
use crate::step::AskStep;
use scr_reader::Item;
use std::marker::Model;
use std::snapshot::Snapshot;

/// The answer to one ask on one book, with all memory that the change takes. Contracts see the book
/// and the ask for which it was made.
#[derive(Drop)]
pub struct Room {
    book: Snapshot<Book>,
    ask: Item,
    answer: Answer,
    change: Option<Change>,
}

impl Model for Room {
    ghost use Rattle.std.specs.Prelude.{◌≡◌};
    ghost use Rattle.holding_book.specs.Rooms.{RoomView};

    ghost Value = { RoomView };

    ghost use Rattle.holding_book.specs.Private.Ready.{IsReadyRoom};

    ghost view = { λ r. record { book = r.book.value.book; ask = r.ask } };

    ghost invariant = { λ r. IsReadyRoom r.book.value.book r.ask r.answer r.change };
}

impl Room {
    // What was made ready for an ask on this book.
    pub(crate) fn new(book: &Book, ask: &Item, step: AskStep) -> Room
        requires { IsReadyRoom book.now.book ask.now step.answer step.change }
        ensures book { result.book ≡ book.now.book }
        ensures ask { result.ask ≡ ask.now }
    {
        Room {
            book: Snapshot::of(book),
            ask: *ask,
            answer: step.answer,
            change: step.change,
        }
    }

    /// The answer that `Book::apply_with` will give. It takes no memory.
    pub fn answer(&self) -> &Answer
        ensures { result.now ≡ reply self.now.book self.now.ask }
    {
        &self.answer
    }

    // The answer, and the change if there is one.
    pub(crate) fn into_parts(self) -> (Answer, Option<Change>)
        ensures answer { result.0 ≡ reply self.book self.ask }
        ensures some { ForSome result.1 (IsReadyChange self.book self.ask) }
        ensures none { result.1 ≡ None → next self.book self.ask ≡ self.book }
    {
        (self.answer, self.change)
    }
}
