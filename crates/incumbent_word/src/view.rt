//! What a seat knows of its board. Values of these types, but for `Terms`, are made in proofs
//! alone.
use std::collections::LinkedList;

/// What a board is made with: how many pieces there are to claim, how many numbers may be taken,
/// and a cost that is known at the start.
#[derive(Drop)]
pub struct Terms {
    pub pieces: u32,
    pub budget: u32,
    pub start: Option<u64>,
}

/// What one worker of the search has: its pieces, its numbers, the least cost that it posted, and
/// the cost that it saw last.
pub struct Worker {
    pub pieces: LinkedList<u32>,
    pub numbers: LinkedList<u64>,
    pub best: Option<u64>,
    pub seen: Option<u64>,
}

/// One event of the search, with the number of the worker that makes it. `Post` has the cost, and
/// `Join` the number of the worker that is joined into the first.
pub enum Event {
    Claim(u64),
    Take(u64),
    Post(u64, u64),
    Read(u64),
    Split(u64),
    Join(u64, u64),
}

/// A worker at its seat. `log` is the beginning, as far as the seat knows it, of the board's one
/// list of events. The shares of all seats add up to 2^32. A seat that once found nothing left is
/// marked.
pub struct View {
    pub terms: Terms,
    pub number: u64,
    pub worker: Worker,
    pub log: LinkedList<Event>,
    pub share: u64,
    pub no_piece_left: bool,
    pub no_number_left: bool,
}

/// A second worker that a seat has for a moment: one that is split off and has no seat yet, or one
/// that has left its seat and is to be joined.
pub struct Guest {
    pub number: u64,
    pub worker: Worker,
    pub log: LinkedList<Event>,
}

/// What the table keeps of a seat. A seat with no share is spent, and has no worker.
pub struct SeatState {
    pub view: View,
    pub guest: Option<Guest>,
}
