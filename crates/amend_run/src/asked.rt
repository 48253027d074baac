//! One message of asks.

ghost use Rattle.std.specs.Prelude.{◌≡◌, ◌+◌, ◌*◌, ◌<◌, ◌≤◌, ◌^◌, ◌++◌, ◌∷◌, [], All, IfOk, OnOk, length};
ghost use Rattle.slot_text.specs.Lines.{lines_of};
ghost use Rattle.scr_reader.specs.Streams.{AreOfMessage};
ghost use Rattle.scr_reader.specs.declared.message.Placed.{Placed as PlacedValue};
ghost use Rattle.holding_book.specs.Asks.{CanAsk, reply, next};
ghost use Rattle.scr_replies.specs.Replies.{reply_text};
ghost use Rattle.amend_run.specs.Private.Due.{due_answers, due_entry, due_entries, book_after, IsMessageStep};

use holding_book::laws::{answer_lines, next_books, next_fits};
use holding_book::{Answer, Book, Entry};
use scr_reader::{Message, Placed};
use scr_replies::{Received, put_bad, put_reply, receive};
use slot_text::Memory;
use std::alloc::Global;

// Answers an item, changes the book by it, and appends its entry.
fn answer_item(
    alloc: Global,
    book: &mut Book,
    history: &mut Vec<Entry>,
    placed: &Placed,
) -> Result<Answer, Memory>
    requires can { CanAsk book.old.book.declaration placed.now.item }
    requires few { length book.old.book.holdings + 4 < 2 ^ 32 }
    ensures answer { IfOk result (λ answer. answer ≡ reply book.old.book placed.now.item) }
    ensures entry { OnOk result (history.new.items
        ≡ history.old.items ++ due_entry book.old.book placed.now ∷ []) }
    ensures book { OnOk result (book.new.book ≡ next book.old.book placed.now.item) }
{
    let answer = book.apply(alloc, &placed.item)?;
    let kept = answer.copy(alloc)?;
    history.push(Entry {
        caller: 0,
        ask: placed.item,
        answer: kept,
    })?;
    Ok(answer)
}

// Answers items one after the other, changes the book by each, and appends their entries.
fn answer_items(
    alloc: Global,
    book: &mut Book,
    history: &mut Vec<Entry>,
    items: &[Placed],
) -> Result<Vec<Answer>, Memory>
    requires can { All (λ (placed : PlacedValue). CanAsk book.old.book.declaration placed.item)
        items.now }
    requires few { length book.old.book.holdings + 3 * length items.now + 4 < 2 ^ 32 }
    ensures answers { IfOk result
        (λ answers. answers.items ≡ due_answers book.old.book items.now) }
    ensures entries { OnOk result
        (history.new.items ≡ history.old.items ++ due_entries book.old.book items.now) }
    ensures book { OnOk result (book.new.book ≡ book_after book.old.book items.now) }
{
    next_books();
    let mut answers = Vec::new(alloc);
    for placed in items {
        let answer = answer_item(alloc, book, history, placed)?;
        answers.push(answer)?;
    }
    Ok(answers)
}

// Answers the items of a message, and appends their entries and its reply.
fn answer_message(
    alloc: Global,
    book: &mut Book,
    history: &mut Vec<Entry>,
    out: &mut Vec<u8>,
    message: &Message,
) -> Result<(), Memory>
    requires can { All (λ (placed : PlacedValue). CanAsk book.old.book.declaration placed.item)
        message.now.items }
    requires season { message.now.season ≡ book.old.book.declaration.season }
    requires few { length book.old.book.holdings + 3 * length message.now.items + 4 < 2 ^ 32 }
    ensures text { OnOk result (out.new.items ≡ out.old.items
        ++ reply_text message.now (due_answers book.old.book message.now.items)) }
    ensures entries { OnOk result
        (history.new.items ≡ history.old.items ++ due_entries book.old.book message.now.items) }
    ensures book { OnOk result
        (book.new.book ≡ book_after book.old.book message.now.items) }
{
    answer_lines();
    next_fits();
    next_books();
    let _declaration = book.declaration();
    let items = message.items.items();
    let answers = answer_items(alloc, book, history, items)?;
    put_reply(alloc, out, message, &answers)
}

/// Answers the lines of one message, and appends its entries and its reply. A message that is not
/// good changes nothing of the book, and has no entry.
pub(crate) fn amend_message(
    alloc: Global,
    book: &mut Book,
    history: &mut Vec<Entry>,
    out: &mut Vec<u8>,
    bytes: &[u8],
) -> Result<(), Memory>
    requires lines { AreOfMessage (lines_of bytes.now) }
    requires short { length bytes.now + 6 < 2 ^ 32 }
    requires few { length book.old.book.holdings + 3 * length (lines_of bytes.now) + 4 < 2 ^ 32 }
    ensures step { OnOk result (IsMessageStep book.old.book (lines_of bytes.now) out.old.items
        out.new.items history.old.items history.new.items book.new.book) }
    ensures few { OnOk result (length history.new.items
        ≤ length history.old.items + length (lines_of bytes.now)) }
    ensures grown { OnOk result (length book.new.book.holdings + 3 * length history.old.items
        ≤ length book.old.book.holdings + 3 * length history.new.items) }
{
    next_books();
    let declaration = book.declaration();
    let received = receive(alloc, declaration.season, declaration.airport, bytes)?;
    match received {
        Received::Good(message) => answer_message(alloc, book, history, out, &message),
        Received::Bad { line } => put_bad(alloc, out, line),
    }
}
