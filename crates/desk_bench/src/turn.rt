//! How often in a second callers take a turn, add an entry and give it back.
ghost use Rattle.std.specs.Prelude.{◌≡◌, ◌<◌, All};
ghost use Rattle.turn_lock.specs.Seats.{IsAtRest};

use crate::report::{Size, now, print_row, rate};
use slot_text::Memory;
use std::alloc::Global;
use std::io::Print;
use std::sync::Wait;
use std::thread;
use std::thread::Threads;
use std::time::{Clock, Instant};
use turn_lock::{Story, Turn, TurnSeat};

// The numbers of threads that are tried, each thread with a seat of its own.
const THREADS: [u32; 4] = [1, 2, 4, 8];

// The callers in the order in which they had the turn.
#[derive(Drop)]
struct Visits {
    callers: Vec<u32>,
}

impl Story for Visits {
    type Origin = bool;

    type Entry = u32;

    ghost use Rattle.std.specs.Prelude.{true};

    ghost origin = { λ _. true };

    ghost entries = { λ visits. visits.callers.items };

    ghost caller = { λ entry. entry };

    fn length(&self) -> u64 {
        self.callers.len() as u64
    }
}

/// Adds entries by 1, 2, 4 and 8 threads over one turn, and prints how many there are; at full size
/// also how many takes and gives that is in a second.
pub fn run<R: Threads + Wait + Sync + Print + Clock>(
    rt: &R,
    alloc: Global,
    size: Size,
) -> anyhow::Result<()> {
    let entries = match size {
        Size::Short => 800,
        Size::Full => 1_000_000,
    };
    for threads in THREADS {
        add_by(rt, alloc, size, threads, entries)?;
    }
    Ok(())
}

// Adds entries by so many threads.
fn add_by<R: Threads + Wait + Sync + Print + Clock>(
    rt: &R,
    alloc: Global,
    size: Size,
    threads: u32,
    entries: u32,
) -> anyhow::Result<()>
    requires { 0 < threads }
{
    let start = now(rt);
    let visits = visits_by(rt, alloc, threads, entries)?;
    print_visits(rt, size, threads, visits.length(), start)
}

fn print_visits<R: Print + Clock>(
    rt: &R,
    size: Size,
    threads: u32,
    made: u64,
    start: Option<Instant>,
) -> anyhow::Result<()> {
    rate(rt, size, "entries", made, start)?;
    let numbers = [("threads", u64::from(threads)), ("entries", made)];
    print_row(rt, "turn", &numbers)
}

// The threads add the entries, each its part.
fn visits_by<R: Threads + Wait + Sync>(
    rt: &R,
    alloc: Global,
    threads: u32,
    entries: u32,
) -> Result<Visits, Memory>
    requires { 0 < threads }
{
    let callers = Vec::with_capacity(alloc, entries as usize)?;
    let (turn, mut seats) = Turn::new(alloc, Visits { callers }, threads)?;
    add_on_threads(rt, &turn, seats.as_mut_slice(), entries / threads);
    Ok(turn.close(seats))
}

fn add_on_threads<R: Threads + Wait + Sync>(
    rt: &R,
    turn: &Turn<Visits>,
    seats: &mut [TurnSeat<Visits>],
    each: u32,
)
    requires { All (IsAtRest turn.now) seats.old }
    ensures { All (IsAtRest turn.now) seats.new }
{
    thread::for_each_mut(rt, seats, 8, &|_, seat| add_many(rt, turn, seat, each));
}

fn add_many<R: Wait>(rt: &R, turn: &Turn<Visits>, seat: &mut TurnSeat<Visits>, each: u32)
    requires { IsAtRest turn.now seat.old }
    ensures { IsAtRest turn.now seat.new }
{
    for _ in 0..each {
        add_one(rt, turn, seat);
    }
}

// Where there is no memory the value goes back as it came.
fn add_one<R: Wait>(rt: &R, turn: &Turn<Visits>, seat: &mut TurnSeat<Visits>)
    requires { IsAtRest turn.now seat.old }
    ensures { IsAtRest turn.now seat.new }
{
    let mut visits = turn.take(rt, seat);
    if let Err(_full) = visits.callers.push(seat.number()) {}
    turn.give(rt, seat, visits);
}
