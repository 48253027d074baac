//! The ledger with a journal.

ghost use Rattle.std.specs.Prelude.{◌≡◌, ◌⊎◌, ◌+◌, ◌≤◌, ◌<◌, ◌^◌, ℕ, [], All, length, IfOk, IfErr};
ghost use Rattle.turn_lock.specs.Seats.{new_seats, IsAtRest, HasSeen, IsNumber};
ghost use Rattle.desk_outside.specs.Cause.{Rose};
ghost use Rattle.scr_reader.specs.Again.{IsFitItem};
ghost use Rattle.holding_book.specs.Asks.{CanAsk};
ghost use Rattle.holding_book.specs.Books.{IsBook};
ghost use Rattle.holding_book.specs.Histories.{replay, IsLegal};
ghost use Rattle.slot_ledger.specs.Starts.{first_book, entry_caller};
ghost use Rattle.slot_ledger.specs.Passes.{HasEntered, HasSeenMore, IsStillPass, IsDue, read_pass};
ghost use Rattle.slot_ledger.specs.Beside.{RefusedAt, IsUnbroken};
ghost use Rattle.amend_journal.specs.Durable.{IsLaterDisk};
ghost use Rattle.amend_journal.specs.Told.{read_told, EndsBroken};
ghost use Rattle.amend_journal.specs.Kept.{asks_of, AllKept, MayHaveOneMore};

use crate::asked::MOST_PAIRS;
use crate::journal::Journal;
use crate::kept::JournalKept;
use desk_disk::Disk;
use holding_book::{Answer, Book, Entry};
use scr_reader::Item;
use slot_ledger::{EnterFault, SharedLedger, SharedPass};
use slot_text::Memory;
use std::alloc::Global;
use std::marker::Model;
use std::sync::Wait;

/// The right of one caller to amend the book.
pub type JournalPass<K> = SharedPass<JournalKept<K>>;

/// Why an ask was not entered.
pub type JournalFault = EnterFault;

/// A book that callers amend in turn, and a journal that has each ask before it is answered.
///
/// Contracts see which ledger it is, the book, the journal and the greatest length with which it
/// was started, and the number of callers.
#[derive(Drop)]
pub struct JournalLedger<K: Disk> {
    shared: SharedLedger<JournalKept<K>>,
}

impl<K: Disk> Model for JournalLedger<K> {
    ghost use Rattle.std.specs.Prelude.{◌≡◌, ◌≤◌};
    ghost use Rattle.turn_lock.specs.Seats.{TurnView};
    ghost use Rattle.slot_ledger.specs.declared.shared.Origin.{Origin};
    ghost use Rattle.amend_journal.specs.Durable.{JournalView};

    ghost Value = { TurnView (Origin JournalView) };

    ghost view = { λ l. l.shared };

    ghost invariant = { λ l. (l.shared.origin.beside.season
        ≡ l.shared.origin.start.declaration.season) × (l.shared.callers ≤ 256) };
}

impl<K: Disk> JournalLedger<K> {
    /// A ledger over a book and the journal of its season, and a pass for each caller, with the
    /// numbers from 0 on in their order. The journal is one of which no put has failed. Where
    /// memory runs out book, journal and disk are dropped.
    pub fn start(
        alloc: Global,
        journal: Journal<K>,
        book: Book,
        callers: u32,
    ) -> Result<(JournalLedger<K>, Vec<JournalPass<K>>), Memory>
        requires some { 1 ≤ callers }
        requires callers { callers ≤ 256 }
        requires season { journal.season ≡ book.book.declaration.season }
        requires few { length book.book.holdings < 2 ^ 31 }
        ensures first { IfOk result (λ r. first_book r.0.origin.start ≡ book.book) }
        ensures most { IfOk result (λ r. r.0.origin.start.most + journal.count ≡ MOST_PAIRS) }
        ensures journal { IfOk result (λ r. r.0.origin.beside ≡ journal) }
        ensures callers { IfOk result (λ r. r.0.callers ≡ callers) }
        ensures passes { IfOk result (λ r. r.1.items ≡ new_seats r.0.id r.0.origin 0 callers) }
        ensures rest { IfOk result (λ r. All (IsAtRest r.0) r.1.items) }
    {
        let kept = JournalKept::of(journal);
        let most = MOST_PAIRS - kept.found_pairs();
        let (shared, passes) = SharedLedger::start(alloc, book, kept, callers, most)?;
        Ok((JournalLedger { shared }, passes))
    }

    /// Answers one ask of the pass's caller on the book as it is in its turn, and enters it: the
    /// journal has it before. It may wait for its turn.
    ///
    /// The new history is what the pass had seen, then entries of other callers, then this one. It
    /// is legal from the book at the start. After a fault nothing was entered. Once a put has
    /// failed every ask is refused, with the count of the disk's faults behind it; the number of
    /// `Full` counts the pairs too that were found.
    pub fn amend<R: Wait>(
        &self,
        rt: &R,
        alloc: Global,
        pass: &mut JournalPass<K>,
        ask: &Item,
    ) -> Result<Answer, JournalFault>
        requires rest { IsAtRest self.now pass.old }
        requires ask { IsFitItem self.now.origin.start.declaration.season ask.now }
        ensures rest { IsAtRest self.now pass.new }
        ensures pass { IsStillPass (first_book self.now.origin.start) self.now.origin.start.most
            (read_pass read_told pass.old) (read_pass read_told pass.new) }
        ensures entered { IfOk result (λ answer. HasEntered ask.now answer
            (read_pass read_told pass.old) (read_pass read_told pass.new)) }
        ensures due { IfOk result (IsDue self.now.origin.start.declaration ask.now) }
        ensures others { IfErr result (λ _. HasSeenMore (read_pass read_told pass.old)
            (read_pass read_told pass.new)) }
        ensures fault { IfErr result (RefusedAt read_told EndsBroken self.now.origin.beside.count
            self.now.origin.start.most pass.new.seen) }
    {
        self.shared.amend(rt, alloc, pass, ask)
    }

    /// The same ledger, as one that keeps a journal beside its history.
    pub fn shared(&self) -> &SharedLedger<JournalKept<K>>
        ensures ledger { result.now ≡ self.now }
        ensures season { self.now.origin.beside.season
            ≡ self.now.origin.start.declaration.season }
        ensures few { self.now.callers ≤ 256 }
    {
        &self.shared
    }

    /// Ends the ledger. The passes are all that were made with it, in any order.
    ///
    /// The history is legal from the book at the start, and the book is its replay, which fits.
    /// What each pass has seen begins the history, and its own calls are the entries of its number.
    /// Where no pass has seen a put that failed, what a stop leaves of the disk is a journal of the
    /// pairs that were found and of all that was asked; else it may have one pair more. While the
    /// ledger ran a stop left all that was asked before the put that was under way.
    pub fn close(self, passes: Vec<JournalPass<K>>) -> (Book, Vec<Entry>, K)
        requires all { length passes.items ≡ self.callers }
        requires rest { All (IsAtRest self) passes.items }
        ensures book { result.0.book ≡ replay (first_book self.origin.start) result.1.items }
        ensures fits { IsBook result.0.book }
        ensures legal { IsLegal (first_book self.origin.start) result.1.items }
        ensures few { length result.1.items ≤ self.origin.start.most }
        ensures asked { All (λ entry. CanAsk self.origin.start.declaration entry.ask)
            result.1.items }
        ensures seen { All (λ pass. HasSeen entry_caller result.1.items (read_pass read_told pass))
            passes.items }
        ensures callers { All (λ entry. IsNumber passes.items entry.caller) result.1.items }
        ensures later { IsLaterDisk self.origin.beside.disk (K.view result.2) }
        ensures disk { AllKept self.origin.beside (K.view result.2) (asks_of result.1.items)
            ⊎ MayHaveOneMore self.origin.beside (K.view result.2) (asks_of result.1.items) }
        ensures kept { All (λ pass. IsUnbroken EndsBroken pass.seen) passes.items
            → AllKept self.origin.beside (K.view result.2) (asks_of result.1.items) }
        ensures broken { All (λ pass. (faults : ℕ) → EndsBroken pass.seen faults
            → Rose self.origin.beside.disk.faults faults × (faults ≤ (K.view result.2).faults))
            passes.items }
    {
        let (book, history, kept) = self.shared.close(passes);
        (book, history, kept.into_disk())
    }
}
