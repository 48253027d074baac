//! How many operations in a second workers make on one board.
ghost use Rattle.std.specs.Prelude.{◌≡◌, ◌≤◌, ◌^◌, IfOk};
ghost use Rattle.std.specs.Thread.{IsSync};
ghost use Rattle.incumbent_word.specs.Seats.{IsSeatOf};

use crate::report::{Size, now, print_row, rate};
use incumbent_word::{Board, BoardEnd, BoardSeat};
use slot_text::Memory;
use std::alloc::Global;
use std::io::Print;
use std::thread::{Threads, join};
use std::time::Clock;

// The numbers of threads that are tried, each with a seat of its own.
const THREADS: [u32; 4] = [1, 2, 4, 8];

// The rounds that all threads together make: a claim, a take, a post and a look at the least cost.
fn rounds_of(size: Size) -> u32 {
    match size {
        Size::Short => 800,
        Size::Full => 4_000_000,
    }
}

/// Prints what each number of threads drew from one board, and at full size how many operations
/// that is in a second.
pub fn run<R: Threads + Sync + Print + Clock>(
    rt: &R,
    alloc: Global,
    size: Size,
) -> anyhow::Result<()> {
    for threads in THREADS {
        let rounds = rounds_of(size);
        let start = now(rt);
        let end = draw(rt, alloc, threads, rounds)?;
        rate(rt, size, "operations", u64::from(rounds) * 4, start)?;
        let numbers = [
            ("threads", u64::from(threads)),
            ("pieces", u64::from(end.claimed)),
            ("numbers", u64::from(end.taken)),
            ("least cost", end.least.unwrap_or(0)),
        ];
        print_row(rt, "board", &numbers)?;
    }
    Ok(())
}

// Makes the rounds on a new board, each thread its part.
fn draw<R: Threads + Sync>(
    rt: &R,
    alloc: Global,
    threads: u32,
    rounds: u32,
) -> Result<BoardEnd, Memory> {
    let (board, seat) = Board::new(alloc, rounds, rounds, None)?;
    let threads = threads.max(1);
    let seat = work_together(rt, &board, seat, threads, rounds / threads);
    Ok(board.close(seat))
}

// So many workers, each on a thread of its own, with a seat split from this one and joined again.
fn work_together<R: Threads + Sync>(
    rt: &R,
    board: &Board,
    mut seat: BoardSeat,
    workers: u32,
    each: u32,
) -> BoardSeat
    requires own { IsSeatOf board.now seat }
    requires some { 1 ≤ workers }
    requires share { workers ≤ seat.view.share }
    ensures own { IsSeatOf board.now result }
    ensures share { result.view.share ≡ seat.view.share }
{
    if workers <= 1 {
        return work(board, seat, each);
    }
    let half = workers / 2;
    let rest = workers - half;
    let other = seat.split(board);
    let (mut seat, other) = join(
        rt,
        || -> BoardSeat
            requires { IsSync R.row × IsSeatOf board.now seat × (1 ≤ rest)
                × (rest ≤ seat.view.share) }
            ensures own { IsSeatOf board.entry.now result }
            ensures share { result.view.share ≡ seat.view.share }
        { work_together(rt, board, seat, rest, each) },
        || -> BoardSeat
            requires { IsSync R.row × IsSeatOf board.now other × (1 ≤ half)
                × (half ≤ other.view.share) }
            ensures own { IsSeatOf board.entry.now result }
            ensures share { result.view.share ≡ other.view.share }
        { work_together(rt, board, other, half, each) },
    );
    seat.join(board, other);
    seat
}

// One worker's rounds.
fn work(board: &Board, mut seat: BoardSeat, each: u32) -> BoardSeat
    requires { IsSeatOf board.now seat }
    ensures { IsSeatOf board.now result × (result.view.share ≡ seat.view.share) }
{
    for round in 0..each {
        work_once(board, &mut seat, u64::from(each - round));
    }
    seat
}

fn work_once(board: &Board, seat: &mut BoardSeat, cost: u64)
    requires own { IsSeatOf board.now seat.old }
    requires cost { cost ≤ 2 ^ 32 }
    ensures { IsSeatOf board.now seat.new × (seat.new.view.share ≡ seat.old.view.share) }
{
    seat.claim(board);
    seat.take(board);
    seat.post(board, cost);
    seat.least(board);
}
