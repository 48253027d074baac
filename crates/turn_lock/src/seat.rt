//! The seats of a turn.
ghost use Rattle.std.specs.Prelude.{◌≡◌, false, [], ◌∷◌};
ghost use Rattle.turn_lock.specs.History.{own};
ghost use Rattle.turn_lock.specs.Inside.{caller_of};

use crate::story::Story;
use crate::view::View;
use atomic_table::Seat;
use std::marker::Model;

/// The right of one caller to take the turn.
///
/// Contracts see its turn, its number, the origin, the history that it has seen, its own entries,
/// and whether it has the turn.
#[derive(Drop)]
pub struct TurnSeat<T: Story> {
    pub(crate) seat: Seat<Option<T>, View<T::Origin, T::Entry>>,
    pub(crate) number: u32,
    // The length of the history that the value had when it was taken.
    pub(crate) taken: u64,
}

impl<T: Story> Model for TurnSeat<T> {
    ghost use Rattle.turn_lock.specs.Seats.{SeatView};
    ghost use Rattle.turn_lock.specs.Inside.{seen_of, own_of, IsSeat};

    ghost Value = { SeatView T.Origin T.Entry };

    ghost view = { λ s. record {
      turn = s.seat.table_id;
      origin = s.seat.me.0.origin;
      number = s.number;
      seen = seen_of s.seat.me.0.callers;
      own = own_of s.seat.me.0.callers;
      holds = s.seat.me.0.holds;
    } };

    ghost invariant = { λ s. IsSeat T.caller s.number s.taken s.seat.me };
}

impl<T: Story> TurnSeat<T> {
    /// The number of the seat's caller, from 0 on. It takes no memory.
    pub fn number(&self) -> u32
        ensures number { result ≡ self.now.number }
        ensures own { self.now.own ≡ own T.caller self.now.number self.now.seen }
    {
        self.number
    }

    // The seat of the table, for the join.
    pub(crate) fn into_seat(self) -> Seat<Option<T>, View<T::Origin, T::Entry>>
        ensures turn { result.table_id ≡ self.turn }
        ensures holds { result.me.0.holds ≡ self.holds }
        ensures empty { self.holds ≡ false → result.me.1 ≡ [] }
        ensures caller { result.me.0.callers ≡ caller_of self ∷ [] }
    {
        self.seat
    }
}
