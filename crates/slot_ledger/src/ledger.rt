//! The ledger.
ghost use Rattle.std.specs.Prelude.{◌≡◌, ◌≤◌, ◌<◌, ◌^◌, [], All, length, IfOk, IfErr};
ghost use Rattle.turn_lock.specs.Seats.{new_seats, IsAtRest, HasSeen, IsNumber};
ghost use Rattle.holding_book.specs.Asks.{CanAsk};
ghost use Rattle.holding_book.specs.Books.{IsBook};
ghost use Rattle.holding_book.specs.Histories.{replay, IsLegal};
ghost use Rattle.slot_ledger.specs.Starts.{first_book, entry_caller};
ghost use Rattle.slot_ledger.specs.Passes.{HasEntered, HasSeenMore, IsStillPass, IsFullAt, IsDue};

use crate::fault::{EnterFault, LedgerFault};
use crate::nothing::Nothing;
use crate::turns::{SharedLedger, SharedPass};
use holding_book::{Answer, Book, Entry};
use scr_reader::Item;
use slot_text::Memory;
use std::alloc::Global;
use std::marker::Model;
use std::sync::Wait;

/// The right of one caller to amend the book.
pub type Pass = SharedPass<Nothing>;

/// A book that callers amend in turn. Contracts see which ledger it is, the book and the greatest
/// length with which it was started, and the number of callers.
#[derive(Drop)]
pub struct Ledger {
    shared: SharedLedger<Nothing>,
}

impl Model for Ledger {
    ghost use Rattle.turn_lock.specs.Seats.{TurnView};
    ghost use Rattle.slot_ledger.specs.declared.shared.Origin.{Origin};

    ghost Value = { TurnView (Origin (Unit {0})) };

    ghost view = { λ l. l.shared };
}

impl Ledger {
    /// A ledger over a book, and a pass for each caller, with the numbers from 0 on in their order.
    /// The history may hold so many entries. Where memory runs out the book is dropped.
    pub fn start(
        alloc: Global,
        book: Book,
        callers: u32,
        most: u32,
    ) -> Result<(Ledger, Vec<Pass>), Memory>
        requires callers { 1 ≤ callers }
        requires most { most ≤ 100000 }
        requires few { length book.book.holdings < 2 ^ 31 }
        ensures first { IfOk result (λ r. first_book r.0.origin.start ≡ book.book) }
        ensures most { IfOk result (λ r. r.0.origin.start.most ≡ most) }
        ensures callers { IfOk result (λ r. r.0.callers ≡ callers) }
        ensures passes { IfOk result (λ r. r.1.items ≡ new_seats r.0.id r.0.origin 0 callers) }
        ensures rest { IfOk result (λ r. All (IsAtRest r.0) r.1.items) }
    {
        let (shared, passes) = SharedLedger::start(alloc, book, Nothing, callers, most)?;
        Ok((Ledger { shared }, passes))
    }

    /// Answers one ask of the pass's caller on the book as it is in its turn, and enters it. It may
    /// wait for its turn.
    ///
    /// The new history is what the pass had seen, then entries of other callers, then this one. It
    /// is legal from the book at the start. After a fault nothing was entered.
    pub fn amend<R: Wait>(
        &self,
        rt: &R,
        alloc: Global,
        pass: &mut Pass,
        ask: &Item,
    ) -> Result<Answer, LedgerFault>
        requires rest { IsAtRest self.now pass.old }
        requires ask { CanAsk self.now.origin.start.declaration ask.now }
        ensures rest { IsAtRest self.now pass.new }
        ensures pass { IsStillPass (first_book self.now.origin.start) self.now.origin.start.most
            pass.old pass.new }
        ensures entered { IfOk result (λ answer. HasEntered ask.now answer pass.old pass.new) }
        ensures due { IfOk result (IsDue self.now.origin.start.declaration ask.now) }
        ensures others { IfErr result (λ _. HasSeenMore pass.old pass.new) }
        ensures fault { IfErr result (IsFullAt self.now.origin.start.most pass.new.seen) }
    {
        match self.shared.amend(rt, alloc, pass, ask) {
            Ok(answer) => Ok(answer),
            Err(EnterFault::Full { length }) => Err(LedgerFault::Full { length }),
            Err(EnterFault::Broken { faults: _ }) => unreachable!(),
            Err(EnterFault::Memory) => Err(LedgerFault::Memory),
        }
    }

    /// The same ledger, as one that keeps something beside its history.
    pub fn shared(&self) -> &SharedLedger<Nothing>
        ensures { result.now ≡ self.now }
    {
        &self.shared
    }

    /// Ends the ledger. The passes are all that were made with it, in any order.
    ///
    /// The history is legal from the book at the start, and the book is its replay, which fits.
    /// What each pass has seen begins the history, and its own calls are the entries of its number.
    pub fn close(self, passes: Vec<Pass>) -> (Book, Vec<Entry>)
        requires all { length passes.items ≡ self.callers }
        requires rest { All (IsAtRest self) passes.items }
        ensures book { result.0.book ≡ replay (first_book self.origin.start) result.1.items }
        ensures fits { IsBook result.0.book }
        ensures legal { IsLegal (first_book self.origin.start) result.1.items }
        ensures few { length result.1.items ≤ self.origin.start.most }
        ensures asked { All (λ entry. CanAsk self.origin.start.declaration entry.ask)
            result.1.items }
        ensures seen { All (HasSeen entry_caller result.1.items) passes.items }
        ensures callers { All (λ entry. IsNumber passes.items entry.caller) result.1.items }
    {
        let (book, history, _) = self.shared.close(passes);
        (book, history)
    }
}
