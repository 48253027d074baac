//! Busy links are served in time slices, round robin.
//!
//! A link is busy from a whole piece of input on, behind which more is mostly at hand, until a
//! shorter one has been answered. The asks of one busy link are answered for a time slice, then
//! those of the next, so that the counts of the book stay in the cache of one processor. A link
//! that is not busy never waits here. What is answered does not depend on time slices, so contracts
//! do not see them.
//!
//! No link waits for ever. A ticket is drawn only by a link that then waits until its slice has
//! come, and nobody waits here who has the turn, so no ticket in the line is without a link.
//! Whoever has the slice gives it up when its link is no longer busy, and at the end of its link.
//! Where it does not, as for a client that is silent or takes nothing of its replies, the next in
//! line, which sleeps for a slice at most, takes it over; the other then draws a new ticket for its
//! next ask. So the link at place `n` of the line waits for at most `n` slices.
//!
//! A worker asks the ledger while no other of the line does. Those that wait for it sleep: with a
//! journal an ask lasts as long as two syncs, and whoever waits for the turn of a ledger keeps a
//! processor busy, which the one that has the turn may need.

use std::sync::Wait;
use std::sync::atomic::{AtomicBool, AtomicU64, Ordering};
use std::thread;
use std::time::Duration;

/// How long a time slice lasts while another busy link waits.
const SLICE_MILLIS: u64 = 200;

/// How often a worker yields while another asks, before it sleeps.
const YIELDS: u32 = 50;

/// No worker asks the ledger.
const NOBODY: u64 = 0;

/// A worker asks the ledger, and none sleeps until it has been answered.
const ASKING: u64 = 1;

/// A worker asks the ledger, and others may sleep until it has been answered.
const AWAITED: u64 = 2;

/// The line of busy links.
#[derive(Drop)]
pub(crate) struct TimeSlices {
    /// The ticket that the next link in line draws.
    next: AtomicU64,
    /// The ticket whose slice it is. Where no link has the slice it is `next`.
    current: AtomicU64,
    /// Whether a worker asks the ledger, and whether others may sleep until it has been answered.
    asks: AtomicU64,
}

/// The time slices of one worker's links.
#[derive(Drop)]
pub(crate) struct LinkSlices<'a> {
    line: &'a TimeSlices,
    /// Whether the link is busy.
    busy: AtomicBool,
    /// The ticket that was drawn last, or 0.
    ticket: AtomicU64,
}

impl TimeSlices {
    /// A line without links.
    pub(crate) fn new() -> TimeSlices {
        TimeSlices {
            next: AtomicU64::new(1),
            current: AtomicU64::new(1),
            asks: AtomicU64::new(NOBODY),
        }
    }

    // Takes the ledger for a worker, if no other asks it.
    fn try_begin(&self) -> bool {
        self.asks
            .compare_exchange(NOBODY, ASKING, Ordering::SeqCst, Ordering::SeqCst)
            .is_ok()
    }

    // Whether it is the slice of this ticket.
    fn is_slice_of(&self, ticket: u64) -> bool {
        self.current.load(Ordering::SeqCst) == ticket
    }

    // Whether the slice of a ticket has come, and may be over again. Else sleeps for a slice, or
    // until another ticket has it; whoever is next in line then takes it over.
    fn has_come<R: Wait>(&self, rt: &R, ticket: u64) -> bool {
        let current = self.current.load(Ordering::SeqCst);
        if current >= ticket {
            return true;
        }
        let slice = Duration::from_millis(SLICE_MILLIS);
        let low = (current % 0x1_0000_0000) as u32;
        self.current.park_timeout(rt, low, slice);
        if current.wrapping_add(1) == ticket {
            self.end(current);
        }
        false
    }

    // If it is the slice of this ticket, the next ticket has it from now on.
    fn end(&self, ticket: u64) {
        let next = ticket.wrapping_add(1);
        let ended = self
            .current
            .compare_exchange(ticket, next, Ordering::SeqCst, Ordering::SeqCst);
        if ended.is_ok() {
            self.current.wake_all();
        }
    }
}

impl<'a> LinkSlices<'a> {
    /// Of a worker whose link is not busy.
    pub(crate) fn of(line: &'a TimeSlices) -> LinkSlices<'a> {
        LinkSlices {
            line,
            busy: AtomicBool::new(false),
            ticket: AtomicU64::new(0),
        }
    }

    /// A piece of input has come. From a whole one on the link is busy.
    pub(crate) fn piece_came(&self, whole: bool) {
        if whole {
            self.busy.store(true, Ordering::SeqCst);
        }
    }

    /// A piece has been answered, or the link has ended. Behind a piece that is not whole the link
    /// is not busy, and its slice ends, if it has it.
    pub(crate) fn piece_done(&self, whole: bool) {
        if whole {
            return;
        }
        self.busy.store(false, Ordering::SeqCst);
        let ticket = self.ticket.load(Ordering::SeqCst);
        if self.line.is_slice_of(ticket) {
            self.line.end(ticket);
        }
    }

    /// If the link is busy, waits for its slice, unless it has it.
    pub(crate) fn wait<R: Wait>(&self, rt: &R) {
        let busy = self.busy.load(Ordering::SeqCst);
        if !busy || self.line.is_slice_of(self.ticket.load(Ordering::SeqCst)) {
            return;
        }
        let ticket = self.line.next.fetch_add(1, Ordering::SeqCst);
        self.ticket.store(ticket, Ordering::SeqCst);
        for _ in rt.forever() {
            if self.line.has_come(rt, ticket) {
                return;
            }
        }
        unreachable!()
    }

    /// Waits until no other worker asks the ledger. It yields for a while and then sleeps.
    pub(crate) fn begin_ask<R: Wait>(&self, rt: &R) {
        for _ in 0..YIELDS {
            if self.line.try_begin() {
                return;
            }
            thread::yield_now();
        }
        for _ in rt.forever() {
            if self.line.asks.swap(AWAITED, Ordering::SeqCst) == NOBODY {
                return;
            }
            self.line.asks.park(rt, AWAITED as u32);
        }
        unreachable!()
    }

    /// The worker's ask has been answered. Wakes one of those that sleep.
    pub(crate) fn end_ask(&self) {
        if self.line.asks.swap(NOBODY, Ordering::SeqCst) == AWAITED {
            self.line.asks.wake_one();
        }
    }
}
