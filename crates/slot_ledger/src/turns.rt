//! A shared history, amended in turn.
ghost use Rattle.std.specs.Prelude.{◌≡◌, ◌≤◌, ◌<◌, ◌+◌, ◌^◌, [], All, Any, length};
ghost use Rattle.std.specs.Prelude.{IfOk, IfErr};
ghost use Rattle.turn_lock.specs.Seats.{new_seats, IsAtRest, HasSeen, IsNumber};
ghost use Rattle.holding_book.specs.Asks.{CanAsk};
ghost use Rattle.holding_book.specs.Books.{IsBook};
ghost use Rattle.holding_book.specs.Histories.{replay, IsLegal};
ghost use Rattle.slot_ledger.specs.Starts.{first_book, entry_caller};
ghost use Rattle.slot_ledger.specs.Passes.{HasEntered, HasSeenMore, IsStillPass, IsDue, read_pass};
ghost use Rattle.slot_ledger.specs.Beside.{RefusedAt};

use crate::beside::Beside;
use crate::fault::EnterFault;
use crate::shared::Shared;
use holding_book::{Answer, Book, Entry};
use scr_reader::Item;
use slot_text::Memory;
use std::alloc::Global;
use std::marker::Model;
use std::sync::Wait;
use turn_lock::{Turn, TurnSeat};

/// The right of one caller to amend a shared history.
pub type SharedPass<B> = TurnSeat<Shared<B>>;

/// A book that callers amend in turn, with something kept beside its history.
///
/// Contracts see which turn it is, what it was started with, and the number of callers. They speak
/// of what the list of the turn is read as.
#[derive(Drop)]
pub struct SharedLedger<B: Beside> {
    turn: Turn<Shared<B>>,
}

impl<B: Beside> Model for SharedLedger<B> {
    ghost use Rattle.turn_lock.specs.Seats.{TurnView};
    ghost use Rattle.slot_ledger.specs.declared.shared.Origin.{Origin};

    ghost Value = { TurnView (Origin B.Start) };

    ghost view = { λ l. l.turn };
}

impl<B: Beside> SharedLedger<B> {
    /// A ledger over a book with no history, and a pass for each caller, with the numbers from 0 on
    /// in their order. Where memory runs out the book and what is kept are dropped.
    pub fn start(
        alloc: Global,
        book: Book,
        beside: B,
        callers: u32,
        most: u32,
    ) -> Result<(SharedLedger<B>, Vec<SharedPass<B>>), Memory>
        requires callers { 1 ≤ callers }
        requires most { B.found (B.start beside) + most ≤ 100000 }
        requires agrees { B.agrees beside [] }
        requires empty { B.told beside [] ≡ [] }
        requires few { length book.book.holdings < 2 ^ 31 }
        ensures first { IfOk result (λ r. first_book r.0.origin.start ≡ book.book) }
        ensures most { IfOk result (λ r. r.0.origin.start.most ≡ most) }
        ensures beside { IfOk result (λ r. r.0.origin.beside ≡ B.start beside) }
        ensures callers { IfOk result (λ r. r.0.callers ≡ callers) }
        ensures passes { IfOk result (λ r. r.1.items ≡ new_seats r.0.id r.0.origin 0 callers) }
        ensures rest { IfOk result (λ r. All (IsAtRest r.0) r.1.items) }
    {
        let shared = Shared::begin(alloc, book, beside, most)?;
        let (turn, passes) = Turn::new(alloc, shared, callers)?;
        Ok((SharedLedger { turn }, passes))
    }

    /// Answers one ask of the pass's caller on the book as it is in its turn, and enters it. In
    /// that one turn the times of an N or B ask are searched too.
    pub fn amend<R: Wait>(
        &self,
        rt: &R,
        alloc: Global,
        pass: &mut SharedPass<B>,
        ask: &Item,
    ) -> Result<Answer, EnterFault>
        requires rest { IsAtRest self.now pass.old }
        requires ask { CanAsk self.now.origin.start.declaration ask.now }
        requires takes { B.takes self.now.origin.beside pass.old.number ask.now }
        ensures rest { IsAtRest self.now pass.new }
        ensures pass { IsStillPass (first_book self.now.origin.start) self.now.origin.start.most
            (read_pass B.read pass.old) (read_pass B.read pass.new) }
        ensures entered { IfOk result (λ answer. HasEntered ask.now answer
            (read_pass B.read pass.old) (read_pass B.read pass.new)) }
        ensures due { IfOk result (IsDue self.now.origin.start.declaration ask.now) }
        ensures others { IfErr result (λ _. HasSeenMore (read_pass B.read pass.old)
            (read_pass B.read pass.new)) }
        ensures fault { IfErr result (RefusedAt B.read B.broken (B.found self.now.origin.beside)
            self.now.origin.start.most pass.new.seen) }
    {
        let mut shared = self.turn.take(rt, pass);
        shared.laws();
        let answer = shared.enter(alloc, pass.number(), ask);
        shared.laws();
        self.turn.give(rt, pass, shared);
        answer
    }

    /// Ends the ledger. The passes are all that were made with it, in any order.
    ///
    /// The history is legal from the first book, and the book is its replay, which fits. What each
    /// pass has seen begins the history, and its own calls are the entries of its number.
    pub fn close(self, passes: Vec<SharedPass<B>>) -> (Book, Vec<Entry>, B)
        requires all { length passes.items ≡ self.callers }
        requires rest { All (IsAtRest self) passes.items }
        ensures book { result.0.book ≡ replay (first_book self.origin.start) result.1.items }
        ensures fits { IsBook result.0.book }
        ensures legal { IsLegal (first_book self.origin.start) result.1.items }
        ensures few { length result.1.items ≤ self.origin.start.most }
        ensures asked { All (λ entry. CanAsk self.origin.start.declaration entry.ask)
            result.1.items }
        ensures seen { All (λ pass. HasSeen entry_caller result.1.items (read_pass B.read pass))
            passes.items }
        ensures callers { All (λ entry. IsNumber passes.items entry.caller) result.1.items }
        ensures start { B.start result.2 ≡ self.origin.beside }
        ensures agrees { B.agrees result.2 result.1.items }
        ensures told { All (HasSeen B.number (B.told result.2 result.1.items)) passes.items }
        ensures whole { Any (λ pass. pass.seen ≡ B.told result.2 result.1.items) passes.items }
    {
        let shared = self.turn.close(passes);
        shared.laws();
        shared.into_parts()
    }
}
