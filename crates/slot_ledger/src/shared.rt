//! What lies behind the turn.
ghost use Rattle.std.specs.Prelude.{◌≡◌, ◌+◌, ◌<◌, ◌≤◌, ◌^◌, ◌++◌, ◌∷◌, [], List, length, All};
ghost use Rattle.std.specs.Prelude.{IfOk, IfErr, OnOk};
ghost use Rattle.holding_book.specs.Asks.{CanAsk, reply};
ghost use Rattle.holding_book.specs.Books.{IsBook};
ghost use Rattle.holding_book.specs.Histories.{replay, IsLegal};
ghost use Rattle.holding_book.specs.declared.answer.Entry.{Entry as EntryValue};
ghost use Rattle.holding_book.specs.declared.book.TheConstants.{MOST_NEW_FLIGHTS};
ghost use Rattle.slot_ledger.specs.Starts.{first_book, new_entry};
ghost use Rattle.slot_ledger.specs.Beside.{MayMark, RefusedAt, TellsNext, IsUnbroken};
ghost use Rattle.slot_ledger.specs.Beside.{ReadsParts, ReadsEntries, ReadsOwn};
ghost use Rattle.slot_ledger.specs.Passes.{IsDue};

use crate::beside::Beside;
use crate::fault::EnterFault;
use holding_book::laws::{next_books, one_more};
use holding_book::{Answer, Book, Entry, HoldingList, Room};
use scr_reader::Item;
use season_days::Declaration;
use slot_text::Memory;
use std::alloc::Global;
use std::marker::Model;
use turn_lock::Story;

/// What a history was begun with: its book's declaration and holdings, and its greatest length.
#[derive(Drop)]
pub struct Start {
    pub declaration: Declaration,
    pub holdings: HoldingList,
    pub most: u32,
}

// The beginning that a book is, copied, with the greatest length of its history.
fn start_of(alloc: Global, book: &Book, most: u32) -> Result<Start, Memory>
    ensures declaration { IfOk result (λ start. start.declaration
        ≡ book.now.book.declaration) }
    ensures holdings { IfOk result (λ start. start.holdings ≡ book.now.book.holdings) }
    ensures most { IfOk result (λ start. start.most ≡ most) }
{
    let declaration = book.declaration().copy(alloc)?;
    let holdings = HoldingList::new(Vec::from_slice(alloc, book.holdings())?);
    Ok(Start {
        declaration,
        holdings,
        most,
    })
}

/// What a ledger was started with, as its passes show it. Proofs alone have values of it.
pub struct Origin<S> {
    pub start: Start,
    pub beside: S,
}

// What an ask is entered with: the room for its change, and its entry.
#[derive(Drop)]
struct Ready {
    room: Room,
    entry: Entry,
}

// Takes the memory of the change and of the entry. The holdings stay as they are.
fn make_ready(alloc: Global, book: &mut Book, caller: u32, ask: &Item) -> Result<Ready, Memory>
    requires ask { CanAsk book.old.book.declaration ask.now }
    requires few { length book.old.book.holdings + 4 < 2 ^ 32 }
    ensures stays { book.new.book ≡ book.old.book }
    ensures book { IfOk result (λ ready. ready.room.book ≡ book.old.book) }
    ensures ask { IfOk result (λ ready. ready.room.ask ≡ ask.now) }
    ensures entry { IfOk result (λ ready. ready.entry
        ≡ new_entry caller ask.now (reply book.old.book ask.now)) }
    ensures spare { OnOk result (MOST_NEW_FLIGHTS ≤ book.new.spare) }
{
    let room = book.prepare(alloc, ask)?;
    let answer = room.answer().copy(alloc)?;
    let entry = Entry {
        caller,
        ask: *ask,
        answer,
    };
    Ok(Ready { room, entry })
}

/// A book, the history that led to it, and what is kept beside the history.
///
/// Contracts see what it began with, the history, and what is kept; the book is the replay of the
/// history from the first book.
#[derive(Drop)]
pub struct Shared<B: Beside> {
    start: Start,
    book: Book,
    history: Vec<Entry>,
    beside: B,
}

impl<B: Beside> Model for Shared<B> {
    ghost use Rattle.std.specs.Prelude.{◌≤◌, ◌+◌};
    ghost use Rattle.slot_ledger.specs.Shared.{SharedView, IsReplayed};

    ghost Value = { SharedView B };

    ghost view = { λ s. record {
      start = s.start;
      history = s.history.items;
      beside = s.beside;
    } };

    ghost invariant = { λ s. IsReplayed s.start s.book s.history.items
        × B.agrees s.beside s.history.items
        × (B.found (B.start s.beside) + s.start.most ≤ 100000) };
}

impl<B: Beside> Story for Shared<B> {
    type Origin = Origin<B::Start>;

    type Entry = B::Told;

    ghost origin = { λ s. record { start = s.start; beside = B.start s.beside } };

    ghost entries = { λ s. B.told s.beside s.history };

    ghost caller = { B.number };

    fn length(&self) -> u64 {
        self.beside.length(self.history.len() as u64)
    }
}

impl<B: Beside> Shared<B> {
    /// A book with no history. What it began with is copied.
    pub(crate) fn begin(
        alloc: Global,
        book: Book,
        beside: B,
        most: u32,
    ) -> Result<Shared<B>, Memory>
        requires most { B.found (B.start beside) + most ≤ 100000 }
        requires agrees { B.agrees beside [] }
        requires few { length book.book.holdings < 2 ^ 31 }
        ensures first { IfOk result (λ shared. first_book shared.start ≡ book.book) }
        ensures most { IfOk result (λ shared. shared.start.most ≡ most) }
        ensures empty { IfOk result (λ shared. shared.history ≡ []) }
        ensures beside { IfOk result (λ shared. shared.beside ≡ beside) }
    {
        let start = start_of(alloc, &book, most)?;
        Ok(Shared {
            start,
            book,
            history: Vec::new(alloc),
            beside,
        })
    }

    /// How the list of the turn is read. It does nothing.
    pub(crate) fn laws(&self)
        ensures parts { ReadsParts B.read }
        ensures entries { ReadsEntries B.read B.done B.number }
        ensures own { ReadsOwn B.read B.number }
        ensures told { B.read (B.told self.now.beside self.now.history) ≡ self.now.history }
    {
        self.beside.laws();
    }

    // Refused where nothing more may be entered.
    fn open(&self) -> Result<(), EnterFault>
        ensures room { OnOk result (length self.now.history < self.now.start.most) }
        ensures next { OnOk result (TellsNext B.done (B.told self.now.beside)
            (B.told self.now.beside)) }
        ensures unbroken { OnOk result ((history : List EntryValue)
            → IsUnbroken B.broken (B.told self.now.beside history)) }
        ensures fault { IfErr result (RefusedAt B.read B.broken (B.found (B.start self.now.beside))
            self.now.start.most (B.told self.now.beside self.now.history)) }
    {
        self.beside.laws();
        if let Some(faults) = self.beside.failed() {
            return Err(EnterFault::Broken { faults });
        }
        let length = self.history.len() as u64;
        if length >= u64::from(self.start.most) {
            let found = self.beside.found();
            return Err(EnterFault::Full {
                length: found + length,
            });
        }
        Ok(())
    }

    /// The book, the history, and what was kept beside it.
    pub(crate) fn into_parts(self) -> (Book, Vec<Entry>, B)
        ensures history { result.1.items ≡ self.history }
        ensures book { result.0.book ≡ replay (first_book self.start) self.history }
        ensures beside { result.2 ≡ self.beside }
        ensures agrees { B.agrees self.beside self.history }
        ensures legal { IsLegal (first_book self.start) self.history }
        ensures few { length self.history ≤ self.start.most }
        ensures asked { All (λ entry. CanAsk self.start.declaration entry.ask) self.history }
        ensures fits { IsBook result.0.book }
    {
        let _ = self.book.declaration();
        (self.book, self.history, self.beside)
    }

    /// Answers an ask of a caller and enters it. All memory is taken, and the ask is kept, before
    /// the book changes; after a fault the history is as before.
    pub(crate) fn enter(
        &mut self,
        alloc: Global,
        caller: u32,
        ask: &Item,
    ) -> Result<Answer, EnterFault>
        requires ask { CanAsk self.old.start.declaration ask.now }
        requires takes { B.takes (B.start self.old.beside) caller ask.now }
        ensures start { self.new.start ≡ self.old.start }
        ensures beside { B.start self.new.beside ≡ B.start self.old.beside }
        ensures entered { IfOk result (λ answer. self.new.history
            ≡ self.old.history ++ new_entry caller ask.now answer ∷ []) }
        ensures due { IfOk result (IsDue self.old.start.declaration ask.now) }
        ensures told { IfOk result (λ answer. B.told self.new.beside self.new.history
            ≡ B.told self.old.beside self.old.history
            ++ B.done (new_entry caller ask.now answer) ∷ []) }
        ensures stays { IfErr result (λ _. self.new.history ≡ self.old.history) }
        ensures marks { IfErr result (λ _. MayMark B.read B.number caller
            (B.told self.old.beside self.old.history) (B.told self.new.beside self.new.history)) }
        ensures fault { IfErr result (RefusedAt B.read B.broken (B.found (B.start self.old.beside))
            self.old.start.most (B.told self.new.beside self.new.history)) }
        ensures legal { IsLegal (first_book self.new.start) self.new.history }
        ensures few { length self.new.history ≤ self.new.start.most }
    {
        self.beside.laws();
        next_books();
        one_more();
        let _ = self.book.declaration();
        self.open()?;
        self.history.reserve(1)?;
        let ready = make_ready(alloc, &mut self.book, caller, ask)?;
        match self.beside.keep(alloc, caller, ask) {
            Ok(()) => {}
            Err(fault) => return Err(fault),
        }
        let given = self.book.apply_with(ask, ready.room);
        self.history.push_reserved(ready.entry);
        Ok(given)
    }
}
