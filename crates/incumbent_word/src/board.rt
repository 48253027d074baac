//! A board and its seats.
ghost use Rattle.std.specs.Prelude.{◌≡◌, ℕ, ◌+◌, ◌-◌, ◌^◌, ◌<◌, ◌≤◌, ◌==◌, length, min, true};
ghost use Rattle.std.specs.Prelude.{false, Some, None, IfOk, IfSome, IfNone};
ghost use Rattle.std.specs.List.{count_by};
ghost use Rattle.std.specs.Option.{ForSome};
ghost use Rattle.incumbent_word.specs.Core.{AtMost, lesser, EachOnce};
ghost use Rattle.incumbent_word.specs.Rule.{cost_in_word};
ghost use Rattle.incumbent_word.specs.Calls.{with_piece, with_number, Posted, Looked, Parted};
ghost use Rattle.incumbent_word.specs.Calls.{United};
ghost use Rattle.incumbent_word.specs.Calls.{first_view, left_half, right_half, both_views};
ghost use Rattle.incumbent_word.specs.Seats.{IsSeatOf, IsSameSeat, IsClaim, IsTake, EndsAs};

use crate::steps::{
    BoardRule, ClaimStep, JoinStep, PostStep, ReadStep, SeatGuest, SplitStep, TakeGuest, TakeStep,
};
use crate::view::{SeatState, Terms};
use atomic_table::{Seat, Table};
use slot_text::Memory;
use std::alloc::Global;
use std::marker::Model;

// What the word of the least cost has where there is none.
const NO_COST: u64 = u64::MAX;

const CLAIMED: usize = 0;

const TAKEN: usize = 1;

const LEAST: usize = 2;

// The cost that a word stands for.
fn read_cost(word: u64) -> Option<u64>
    ensures { result ≡ cost_in_word word }
{
    if word == NO_COST { None } else { Some(word) }
}

/// What the workers of one search share: how many pieces are claimed, how many numbers are taken,
/// and the least cost posted. These are three words. `claim`, `take`, `post` and `least` each make
/// one atomic step on one of them, and `split` and `join` two loads. No call waits, and only `new`
/// takes memory.
#[derive(Drop)]
pub struct Board {
    table: Table<(), SeatState, Terms, BoardRule, Global>,
    pieces: u32,
    budget: u32,
}

impl Model for Board {
    ghost use Rattle.std.specs.Prelude.{◌≡◌};
    ghost use Rattle.incumbent_word.specs.Seats.{BoardView};

    ghost Value = { BoardView };

    ghost view = { λ b. record { id = b.table.shared.table_id; terms = b.table.shared.key } };

    ghost invariant = { λ b. (b.table.shared.table_id.words ≡ 3)
        × (b.table.shared.table_id.slots ≡ 0)
        × (b.table.shared.key.pieces ≡ b.pieces)
        × (b.table.shared.key.budget ≡ b.budget) };
}

/// The right of one worker to take part in a search. Workers come and go by `split` and `join`. A
/// seat has no bytes but two marks, which say that it once found no piece or no number left. A seat
/// that is dropped takes its share with it: its board can then be dropped, but not closed.
#[derive(Drop)]
pub struct BoardSeat {
    seat: Seat<(), SeatState>,
    no_piece_left: bool,
    no_number_left: bool,
}

impl Model for BoardSeat {
    ghost use Rattle.std.specs.Prelude.{◌≡◌, ◌≤◌, [], None};
    ghost use Rattle.incumbent_word.specs.Seats.{SeatView};

    ghost Value = { SeatView };

    ghost view = { λ s. record { board = s.seat.table_id; view = s.seat.me.0.view } };

    ghost invariant = { λ s. (s.seat.me.1 ≡ [])
        × (s.seat.me.0.guest ≡ None)
        × (1 ≤ s.seat.me.0.view.share)
        × (s.seat.me.0.view.no_piece_left ≡ s.no_piece_left)
        × (s.seat.me.0.view.no_number_left ≡ s.no_number_left) };
}

/// What a search came to. The counts are cut at the number of pieces and at the budget.
#[derive(Clone, Copy, Debug)]
pub struct BoardEnd {
    pub claimed: u32,
    pub taken: u32,
    pub least: Option<u64>,
}

impl Board {
    /// A board with nothing claimed or taken, and its one seat, which has seen the start cost.
    /// Pieces are numbered from 0 to `pieces` - 1, and the numbers to take are 0 to `budget` - 1. A
    /// cost is below 2^64 - 1, which stands for none.
    pub fn new(
        alloc: Global,
        budget: u32,
        pieces: u32,
        start: Option<u64>,
    ) -> Result<(Board, BoardSeat), Memory>
        requires { ForSome start (λ c. c < 2 ^ 64 - 1) }
        ensures board { IfOk result (λ b. b.0.terms
            ≡ record { pieces = pieces; budget = budget; start = start }) }
        ensures seat { IfOk result (λ b. IsSeatOf b.0 b.1 × (b.1.view ≡ first_view b.0.terms)) }
    {
        let least = start.unwrap_or(NO_COST);
        let terms = Terms {
            pieces,
            budget,
            start,
        };
        let (table, seat) = Table::of_words(alloc, &[0, 0, least], &terms)?;
        let board = Board {
            table,
            pieces,
            budget,
        };
        let seat = BoardSeat {
            seat,
            no_piece_left: false,
            no_number_left: false,
        };
        Ok((board, seat))
    }
}

impl BoardSeat {
    /// A piece that no other seat has. `None` where this step, or an earlier one of this seat or of
    /// a seat that it came from or took in, found all pieces claimed; from then on this seat makes
    /// no step here.
    pub fn claim(&mut self, board: &Board) -> Option<u32>
        requires { IsSeatOf board.now self.old }
        ensures own { IsSeatOf board.now self.new }
        ensures step { IsClaim self.old.view result self.new.view }
        ensures some { IfSome result (λ n. (n < self.old.view.terms.pieces)
            × (self.new.view ≡ with_piece self.old.view n self.new.view.log)) }
        ensures none { IfNone result (self.new.view
            ≡ record self.old.view { no_piece_left = true; log = self.new.view.log }) }
        ensures rising { IfSome result (λ n. (x : ℕ) → n ≤ x
            → count_by (λ y. y == x) self.old.view.worker.pieces ≡ 0) }
        ensures seen { AtMost self.new.view.worker.seen self.old.view.worker.seen }
        ensures same { IsSameSeat self.old.view self.new.view }
    {
        if self.no_piece_left {
            return None;
        }
        let found = board
            .table
            .shared
            .fetch_add::<ClaimStep>(&mut self.seat, CLAIMED, 1);
        if found < u64::from(board.pieces) {
            Some(found as u32)
        } else {
            self.no_piece_left = true;
            None
        }
    }

    /// A number below the budget that no other seat has. `None` where this step, or an earlier one
    /// of this seat or of a seat that it came from or took in, found the budget reached; from then
    /// on this seat makes no step here.
    pub fn take(&mut self, board: &Board) -> Option<u64>
        requires { IsSeatOf board.now self.old }
        ensures own { IsSeatOf board.now self.new }
        ensures step { IsTake self.old.view result self.new.view }
        ensures some { IfSome result (λ n. (n < self.old.view.terms.budget)
            × (self.new.view ≡ with_number self.old.view n self.new.view.log)) }
        ensures none { IfNone result (self.new.view
            ≡ record self.old.view { no_number_left = true; log = self.new.view.log }) }
        ensures rising { IfSome result (λ n. (x : ℕ) → n ≤ x
            → count_by (λ y. y == x) self.old.view.worker.numbers ≡ 0) }
        ensures seen { AtMost self.new.view.worker.seen self.old.view.worker.seen }
        ensures same { IsSameSeat self.old.view self.new.view }
    {
        if self.no_number_left {
            return None;
        }
        let found = board
            .table
            .shared
            .fetch_add::<TakeStep>(&mut self.seat, TAKEN, 1);
        if found < u64::from(board.budget) {
            Some(found)
        } else {
            self.no_number_left = true;
            None
        }
    }

    /// Lowers the least cost to this one, if it is smaller. This seat has then seen the least cost
    /// that is left.
    pub fn post(&mut self, board: &Board, cost: u64)
        requires own { IsSeatOf board.now self.old }
        requires cost { cost < 2 ^ 64 - 1 }
        ensures own { IsSeatOf board.now self.new }
        ensures step { Posted self.old.view cost self.new.view }
        ensures best { self.new.view.worker.best ≡ lesser self.old.view.worker.best (Some cost) }
        ensures low { AtMost self.new.view.worker.seen (Some cost) }
        ensures seen { AtMost self.new.view.worker.seen self.old.view.worker.seen }
        ensures same { IsSameSeat self.old.view self.new.view }
    {
        board
            .table
            .shared
            .fetch_min::<PostStep>(&mut self.seat, LEAST, cost);
    }

    /// The least cost so far, which this seat has then seen. `None` where there was no start cost
    /// and nothing was posted.
    pub fn least(&mut self, board: &Board) -> Option<u64>
        requires { IsSeatOf board.now self.old }
        ensures own { IsSeatOf board.now self.new }
        ensures step { Looked self.old.view result self.new.view }
        ensures result { self.new.view.worker.seen ≡ result }
        ensures start { AtMost result self.old.view.terms.start }
        ensures seen { AtMost self.new.view.worker.seen self.old.view.worker.seen }
        ensures same { IsSameSeat self.old.view self.new.view }
    {
        let found = board.table.shared.load::<ReadStep>(&mut self.seat, LEAST);
        read_cost(found)
    }

    /// A second seat, for a new worker that has seen what this one has, and has nothing else. It
    /// has this seat's marks, and each of the two has one half of the share, so that a seat can be
    /// split 32 times in a row.
    pub fn split(&mut self, board: &Board) -> BoardSeat
        requires own { IsSeatOf board.now self.old }
        requires share { 2 ≤ self.old.view.share }
        ensures own { IsSeatOf board.now self.new × IsSeatOf board.now result }
        ensures kept { self.new.view ≡ left_half self.old.view self.new.view.log }
        ensures given { result.view
            ≡ right_half self.old.view result.view.number self.new.view.log }
        ensures step { Parted self.old.view result.view.number self.new.view.log }
    {
        let shared = &board.table.shared;
        shared.load::<SplitStep>(&mut self.seat, CLAIMED);
        let seat = shared.split_seat::<SeatGuest>(&mut self.seat);
        BoardSeat {
            seat,
            no_piece_left: self.no_piece_left,
            no_number_left: self.no_number_left,
        }
    }

    /// Takes in what another seat has: its pieces, its numbers, the smaller costs, its share and
    /// its marks.
    pub fn join(&mut self, board: &Board, other: BoardSeat)
        requires own { IsSeatOf board.now self.old }
        requires other { IsSeatOf board.now other }
        ensures own { IsSeatOf board.now self.new }
        ensures both { self.new.view ≡ both_views self.old.view other.view self.new.view.log }
        ensures step { United self.old.view other.view.number other.view.worker other.view.log
            self.new.view.log }
    {
        let BoardSeat {
            seat,
            no_piece_left,
            no_number_left,
        } = other;
        let shared = &board.table.shared;
        shared.join_seat::<TakeGuest>(&mut self.seat, seat);
        shared.load::<JoinStep>(&mut self.seat, CLAIMED);
        self.no_piece_left |= no_piece_left;
        self.no_number_left |= no_number_left;
    }
}

impl Board {
    /// Ends the search. The seat is the last one: all others were joined into it, so it has the
    /// whole share again.
    pub fn close(self, seat: BoardSeat) -> BoardEnd
        requires own { IsSeatOf self seat }
        requires last { seat.view.share ≡ 2 ^ 32 }
        ensures last { EndsAs self.terms seat.view result.claimed result.taken result.least }
        ensures counts { (result.claimed ≤ self.terms.pieces) × (result.taken ≤ self.terms.budget) }
        ensures pieces { EachOnce (λ x. count_by (λ y. y == x) seat.view.worker.pieces)
            result.claimed }
        ensures numbers { EachOnce (λ x. count_by (λ y. y == x) seat.view.worker.numbers)
            result.taken }
        ensures piece_count { length seat.view.worker.pieces ≡ result.claimed }
        ensures number_count { length seat.view.worker.numbers ≡ result.taken }
        ensures least { result.least ≡ lesser self.terms.start seat.view.worker.best }
        ensures seen { AtMost result.least seat.view.worker.seen }
        ensures all_pieces { seat.view.no_piece_left ≡ true → result.claimed ≡ self.terms.pieces }
        ensures all_numbers { seat.view.no_number_left ≡ true → result.taken ≡ self.terms.budget }
    {
        let Board {
            table,
            pieces,
            budget,
        } = self;
        let closed = table.close_with(seat.seat);
        let claimed = closed.word(CLAIMED);
        let taken = closed.word(TAKEN);
        let least = closed.word(LEAST);
        closed.free();
        BoardEnd {
            claimed: claimed.min(u64::from(pieces)) as u32,
            taken: taken.min(u64::from(budget)) as u32,
            least: read_cost(least),
        }
    }
}
