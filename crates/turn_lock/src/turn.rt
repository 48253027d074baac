//! The turn: one value that callers take, one at a time.
ghost use Rattle.std.specs.Prelude.{◌≡◌, ◌≤◌, ◌<◌, true, false, [], ◌∷◌, Some, IfOk, IfSome};
ghost use Rattle.std.specs.Prelude.{IfNone, All, Any, map, length};
ghost use Rattle.turn_lock.specs.History.{own, GoesOnFrom, MayGive, Grew};
ghost use Rattle.turn_lock.specs.Seats.{new_seats, IsSeatOf, IsAtRest, HasSeen, IsNumber};
ghost use Rattle.turn_lock.specs.Inside.{seen_of, caller_of, caller_after, IsSeat};

use crate::seat::TurnSeat;
use crate::steps::{Decide, Give, HandOver, TurnRule, Unite, Win};
use crate::story::Story;
use crate::view::{Start, View};
use atomic_table::{Refused, Seat, Table};
use slot_text::Memory;
use std::alloc::Global;
use std::marker::Model;
use std::snapshot::Snapshot;
use std::sync::Wait;
use std::{hint, thread};

/// The word that is 1 while a seat has the turn, and else 0.
const TURN: usize = 0;

/// The word that counts the entries of the history.
const COUNT: usize = 1;

/// The slot of the value, which is empty while a seat has the turn.
const VALUE: usize = 0;

/// How often a thread that waits for the turn pauses before it asks again, some tens of
/// microseconds in all.
const PAUSES: u32 = 2_000;

/// A value that callers take in turn, one at a time.
///
/// Contracts see which turn it is, the value's origin, and the number of callers.
#[derive(Drop)]
pub struct Turn<T: Story> {
    table: Table<Option<T>, View<T::Origin, T::Entry>, Start<T>, TurnRule<T>, Global>,
}

impl<T: Story> Model for Turn<T> {
    ghost use Rattle.std.specs.Prelude.{◌≡◌, ◌≤◌};
    ghost use Rattle.turn_lock.specs.Seats.{TurnView};

    ghost Value = { TurnView T.Origin };

    ghost view = { λ t. record {
      id = t.table.shared.table_id;
      origin = T.origin t.table.shared.key.value.value;
      callers = t.table.shared.key.callers;
    } };

    ghost invariant = { λ t. (t.table.shared.table_id.words ≡ 2)
        × (t.table.shared.table_id.slots ≡ 1)
        × (1 ≤ t.table.shared.key.callers) };
}

impl<T: Story> Turn<T> {
    /// A turn over a value that has no entries yet, and a seat for each caller, with the numbers
    /// from 0 on in their order.
    ///
    /// Where memory runs out the value is dropped.
    pub fn new(alloc: Global, value: T, callers: u32) -> Result<(Turn<T>, Vec<TurnSeat<T>>), Memory>
        requires callers { 1 ≤ callers }
        requires empty { T.entries value ≡ [] }
        ensures origin { IfOk result (λ r. r.0.origin ≡ T.origin value) }
        ensures callers { IfOk result (λ r. r.0.callers ≡ callers) }
        ensures seats { IfOk result (λ r. r.1.items ≡ new_seats r.0.id (T.origin value) 0 callers) }
        ensures all { IfOk result (λ r. length r.1.items ≡ callers) }
        ensures rest { IfOk result (λ r. All (IsAtRest r.0) r.1.items) }
    {
        let start = Start {
            value: Snapshot::of(&value),
            callers,
        };
        let mut seats = Vec::with_capacity(alloc, callers as usize)?;
        let mut slots = Vec::with_capacity(alloc, 1)?;
        slots.push_reserved(Some(value));
        let (table, mut rest) = match Table::new(alloc, &[0, 0], slots, &start) {
            Ok(made) => made,
            Err(Refused { slots: _ }) => return Err(Memory),
        };
        for number in 0..callers - 1 {
            let seat = table.shared.split_seat::<HandOver>(&mut rest);
            seats.push_reserved(TurnSeat {
                seat,
                number,
                taken: 0,
            });
        }
        seats.push_reserved(TurnSeat {
            seat: rest,
            number: callers - 1,
            taken: 0,
        });
        Ok((Turn { table }, seats))
    }

    /// Waits until no seat has the turn, takes it, and hands out the value.
    ///
    /// The value's history begins with all that this seat had seen, and goes on with entries of
    /// other callers. While it waits the thread pauses, yields and asks again. Which of several
    /// waiting seats comes next, and when, is open: one that asks again at once mostly comes before
    /// those that wait. A seat that keeps the turn makes all others wait. It takes no memory.
    pub fn take<R: Wait>(&self, rt: &R, seat: &mut TurnSeat<T>) -> T
        requires rest { IsAtRest self.now seat.old }
        ensures few { seat.old.number < self.now.callers }
        ensures seat { seat.new ≡ record seat.old { seen = T.entries result; holds = true } }
        ensures origin { T.origin result ≡ self.now.origin }
        ensures longer { GoesOnFrom T.caller seat.old.number seat.old.seen (T.entries result) }
        ensures own { own T.caller seat.old.number (T.entries result) ≡ seat.old.own }
    {
        for _ in rt.forever() {
            if let Some(value) = self.try_take(seat) {
                return value;
            }
            wait_a_little();
        }
        unreachable!()
    }

    /// Gives the turn back, with the value as it was taken, or with one entry more, which has this
    /// seat's number.
    ///
    /// It does not wait, and takes no memory. The history has the new entry from within this call
    /// on.
    pub fn give<R>(&self, _rt: &R, seat: &mut TurnSeat<T>, value: T)
        requires of_turn { IsSeatOf self.now seat.old }
        requires holds { seat.old.holds ≡ true }
        requires origin { T.origin value ≡ self.now.origin }
        requires entry { MayGive T.caller seat.old.number seat.old.seen (T.entries value) }
        ensures seat { seat.new ≡ record seat.old {
          seen = T.entries value;
          own = own T.caller seat.old.number (T.entries value);
          holds = false;
        } }
        ensures grew { Grew seat.old.seen (T.entries value) seat.old.own seat.new.own }
    {
        self.put(&mut seat.seat, seat.number, seat.taken, value);
        self.table.shared.swap::<Give<T>>(&mut seat.seat, TURN, 0);
    }

    /// Ends the turn, and hands the value out. The seats are all that were made with it, in any
    /// order.
    ///
    /// The time grows with the number of seats.
    pub fn close(self, seats: Vec<TurnSeat<T>>) -> T
        requires all { length seats.items ≡ self.callers }
        requires rest { All (IsAtRest self) seats.items }
        ensures origin { T.origin result ≡ self.origin }
        ensures seen { All (HasSeen T.caller (T.entries result)) seats.items }
        ensures callers { All (λ e. IsNumber seats.items (T.caller e)) (T.entries result) }
        ensures whole { Any (λ s. s.seen ≡ T.entries result) seats.items }
    {
        let last = self.unite(seats);
        let Turn { table } = self;
        let mut closed = table.close_with(last);
        let value = closed.take(VALUE);
        closed.free();
        let Some(value) = value else { unreachable!() };
        value
    }

    // Takes the value, if no seat has the turn.
    fn try_take(&self, seat: &mut TurnSeat<T>) -> Option<T>
        requires rest { IsAtRest self.now seat.old }
        ensures none { IfNone result (seat.new ≡ seat.old) }
        ensures seat { IfSome result (λ x. seat.new
            ≡ record seat.old { seen = T.entries x; holds = true }) }
        ensures origin { IfSome result (λ x. T.origin x ≡ self.now.origin) }
        ensures longer { IfSome result (λ x.
            GoesOnFrom T.caller seat.old.number seat.old.seen (T.entries x)) }
        ensures own { IfSome result (λ x. own T.caller seat.old.number (T.entries x)
            ≡ seat.old.own) }
    {
        let shared = &self.table.shared;
        if shared.compare_exchange::<Win<T>>(&mut seat.seat, TURN, 0, 1) != 0 {
            return None;
        }
        let Some(value) = shared.exchange(&mut seat.seat, VALUE, None) else {
            unreachable!()
        };
        seat.taken = value.length();
        Some(value)
    }

    // Puts the value into the slot. If it has an entry more than were taken, the history has it
    // from now on.
    fn put(
        &self,
        seat: &mut Seat<Option<T>, View<T::Origin, T::Entry>>,
        number: u32,
        taken: u64,
        value: T,
    )
        requires of_turn { seat.old.table_id ≡ self.now.id }
        requires seat { IsSeat T.caller number taken seat.old.me }
        requires holds { seat.old.me.0.holds ≡ true }
        requires entry { MayGive T.caller number (seen_of seat.old.me.0.callers) (T.entries value) }
        ensures same { (seat.new.table_id ≡ seat.old.table_id) × (seat.new.id ≡ seat.old.id) }
        ensures slot { seat.new.me.1 ≡ (0, Some value) ∷ [] }
        ensures view { seat.new.me.0 ≡ record {
          origin = seat.old.me.0.origin;
          callers = caller_after T.caller number (T.entries value) ∷ [];
          holds = true;
        } }
    {
        let shared = &self.table.shared;
        let grew = value.length() > taken;
        let None = shared.exchange(seat, VALUE, Some(value)) else {
            unreachable!()
        };
        if grew {
            shared.fetch_add::<Decide<T>>(seat, COUNT, 1);
        }
    }

    // Joins the seats into one, which has the callers of them all.
    fn unite(&self, mut seats: Vec<TurnSeat<T>>) -> Seat<Option<T>, View<T::Origin, T::Entry>>
        requires some { 0 < length seats.items }
        requires rest { All (IsAtRest self.now) seats.items }
        ensures seat { (result.table_id ≡ self.now.id) × (result.me.1 ≡ [])
            × (result.me.0.holds ≡ false) }
        ensures callers { result.me.0.callers ≡ map caller_of seats.items }
    {
        let Some(first) = seats.pop() else {
            unreachable!()
        };
        let mut last = first.into_seat();
        while let Some(other) = seats.pop() {
            self.table
                .shared
                .join_seat::<Unite>(&mut last, other.into_seat());
        }
        last
    }
}

// Lets the seat that has the turn go on. Threads that ask seldom mostly leave the turn to the one
// that has just given it back and asks again, and so the value to the cache of its processor.
fn wait_a_little() {
    for _ in 0..PAUSES {
        hint::spin_loop();
    }
    thread::yield_now();
}
