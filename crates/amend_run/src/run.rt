//! All messages of a text.

ghost use Rattle.std.specs.Prelude.{◌≡◌, ◌+◌, ◌*◌, ◌<◌, ◌≤◌, ◌^◌, ℕ, List, All, IfOk, length, map};
ghost use Rattle.slot_text.specs.Lines.{lines_of};
ghost use Rattle.scr_reader.specs.Streams.{HoldsMessage, AreOfMessage, piece_lines, messages_at_end};
ghost use Rattle.holding_book.specs.declared.answer.Entry.{Entry as EntryValue};
ghost use Rattle.amend_run.specs.Amended.{IsAmended, IsAskedBy, IsFirstHeader};
ghost use Rattle.amend_run.specs.Private.Due.{line_total, IsRun, IsHeaderOf};

use crate::asked::amend_message;
use holding_book::laws::{next_books, next_fits, replays_fit};
use holding_book::{Book, Entry};
use scr_reader::laws::pieces_are_messages;
use scr_reader::{Header, Piece, cut_messages};
use scr_replies::{Received, one_received, receive};
use season_days::Season;
use slot_text::{Memory, Station};
use std::alloc::Global;

/// What comes of a text of amendments: the book after it, the replies to its messages in order, and
/// what was asked and answered, as entries of caller 0.
#[derive(Drop)]
pub struct Amended {
    pub book: Book,
    pub text: Vec<u8>,
    pub history: Vec<Entry>,
}

// Answers the messages that stand in these places of a text, one after the other.
fn amend_pieces(
    alloc: Global,
    start: Book,
    asks: &[u8],
    pieces: &[Piece],
) -> Result<Amended, Memory>
    requires held { All (HoldsMessage asks.now) pieces.now }
    requires short { length asks.now + 6 < 2 ^ 32 }
    requires total { line_total (map (piece_lines asks.now) pieces.now) ≤ length asks.now }
    requires few { length start.book.holdings + 3 * length asks.now + 10 < 2 ^ 32 }
    ensures run { IfOk result (λ amended. IsRun start.book (map (piece_lines asks.now) pieces.now)
        amended.text.items amended.history.items amended.book.book) }
    ensures few { IfOk result (λ amended. length amended.history.items ≤ length asks.now) }
{
    replays_fit();
    let mut book = start;
    let mut text = Vec::new(alloc);
    let mut history = Vec::new(alloc);
    for piece in pieces {
        let bytes = &asks[piece.from..piece.to];
        amend_message(alloc, &mut book, &mut history, &mut text, bytes)?;
    }
    Ok(Amended {
        book,
        text,
        history,
    })
}

/// Answers the messages of a text, one after the other, on a book of their season and airport, all
/// as asks of one caller, whose number is 0. Messages are the longest runs of lines that are not
/// empty; the end of the text ends the last one.
///
/// Each item of a good message is answered on the book that the asks before it left, and the reply
/// has the answers in order. A message that is not good changes nothing, and its reply names its
/// bad line. After want of memory there is no book.
///
/// Beside the book, memory is taken for the places of the messages, for the items and answers of
/// one message at a time, for the replies, and for the entries, some 400 bytes each.
pub fn amend_messages(alloc: Global, book: Book, asks: &[u8]) -> Result<Amended, Memory>
    requires few { length book.book.holdings + 3 * length asks.now + 10 < 2 ^ 32 }
    ensures amended { IfOk result (IsAmended book.book asks.now) }
    ensures few { IfOk result (λ amended. length amended.history.items ≤ length asks.now) }
    // By no other history the text is answered.
    ensures only { (history : List EntryValue) (texts : List (List ℕ)) →
        IsAskedBy book.book asks.now history texts →
        IfOk result (λ amended. amended.history.items ≡ history) }
{
    next_fits();
    next_books();
    pieces_are_messages();
    one_received();
    let _declaration = book.declaration();
    let pieces = cut_messages(alloc, asks)?;
    let amended = amend_pieces(alloc, book, asks, &pieces)?;
    Ok(amended)
}

/// The header of the first message of a text that can be read and is of this season and airport;
/// none where there is no such message.
pub fn first_header(
    alloc: Global,
    season: Season,
    airport: Station,
    asks: &[u8],
) -> Result<Option<Header>, Memory>
    requires short { length asks.now + 6 < 2 ^ 32 }
    ensures { IfOk result (IsFirstHeader season airport (messages_at_end asks.now)) }
{
    pieces_are_messages();
    let pieces = cut_messages(alloc, asks)?;
    let header = header_among(alloc, season, airport, asks, &pieces)?;
    Ok(header)
}

// The header of the first good message in these places of a text.
fn header_among(
    alloc: Global,
    season: Season,
    airport: Station,
    asks: &[u8],
    pieces: &[Piece],
) -> Result<Option<Header>, Memory>
    requires held { All (HoldsMessage asks.now) pieces.now }
    requires short { length asks.now + 6 < 2 ^ 32 }
    ensures { IfOk result
        (IsFirstHeader season airport (map (piece_lines asks.now) pieces.now)) }
{
    for piece in pieces {
        let lines = &asks[piece.from..piece.to];
        if let Some(header) = header_of(alloc, season, airport, lines)? {
            return Ok(Some(header));
        }
    }
    Ok(None)
}

// The header of a message, where it is good.
fn header_of(
    alloc: Global,
    season: Season,
    airport: Station,
    bytes: &[u8],
) -> Result<Option<Header>, Memory>
    requires message { AreOfMessage (lines_of bytes.now) }
    requires short { length bytes.now + 6 < 2 ^ 32 }
    ensures { IfOk result (IsHeaderOf season airport (lines_of bytes.now)) }
{
    match receive(alloc, season, airport, bytes)? {
        Received::Good(message) => Ok(Some(message.header())),
        Received::Bad { line: _ } => Ok(None),
    }
}
