//! The seats of the workers of one board.

ghost use Rattle.std.specs.Prelude.{◌≡◌, ℕ, [], None, ◌+◌, ◌^◌, ◌<◌, ◌≤◌, true, ◌||◌, All, length, slice_index_or, OnOk, IfOk};
ghost use Rattle.choice_problem.specs.Bounds.{AreRanges};
ghost use Rattle.choice_problem.specs.Driven.{IsSeenBetween};
ghost use Rattle.incumbent_word.specs.Core.{lesser};
ghost use Rattle.incumbent_word.specs.Calls.{first_view};
ghost use Rattle.incumbent_word.specs.Seats.{IsSeatOf};
ghost use Rattle.search_workers.specs.declared.searchers.Searcher.{Searcher};
ghost use Rattle.search_workers.specs.Work.{lesser_choice};
ghost use Rattle.search_workers.specs.Rounds.{IsReady, HasStopped, shares};

use crate::searchers::Searcher;
use crate::tasks::Task;
use choice_problem::{Choice, Ranges};
use incumbent_word::{Board, BoardSeat};
use slot_text::Memory;
use std::alloc::Global;
use std::thread;
use std::thread::Threads;
use worker_gate::Gate;

// So many workers, with seats split from the first one.
pub(crate) fn seat_all(
    alloc: Global,
    board: &Board,
    task: &Task<'_>,
    _pieces: &[Ranges],
    seat: BoardSeat,
    workers: u32,
) -> Result<Vec<Searcher>, Memory>
    requires workers { (1 ≤ workers) × (workers ≤ 16) }
    requires seat { IsSeatOf board.now seat × (seat.view ≡ first_view board.now.terms) }
    requires start { IsSeenBetween board.now.terms.start task.now.greedy board.now.terms.start }
    ensures some { IfOk result (λ r. 1 ≤ length r.items) }
    ensures ready { IfOk result (λ r. All (IsReady task.now _pieces.now board.now) r.items) }
    ensures shares { IfOk result (λ r. shares r.items ≡ 2 ^ 32) }
{
    let mut first = worker(alloc, task, 0, seat);
    let mut all = Vec::new(alloc);
    for number in 1..workers {
        let seat = first.seat.split(board);
        all.push(worker(alloc, task, number, seat))?;
    }
    all.push(first)?;
    Ok(all)
}

// A worker who has done nothing.
fn worker(alloc: Global, _task: &Task<'_>, number: u32, seat: BoardSeat) -> Searcher
    ensures seat { result.seat ≡ seat }
    ensures none { (result.cost ≡ None) × (result.best ≡ None) }
    ensures done { result.done.items ≡ [] }
{
    Searcher {
        number,
        seat,
        cost: None,
        best: None,
        done: Vec::new(alloc),
        failed: false,
    }
}

// Each worker claims and searches pieces until none is left, in threads of their own.
pub(crate) fn search_all<R: Threads + Sync, G: Gate>(
    rt: &R,
    alloc: Global,
    gate: &G,
    board: &Board,
    task: &Task<'_>,
    pieces: &[Ranges],
    searchers: Vec<Searcher>,
) -> Result<Vec<Searcher>, Memory>
    requires many { board.now.terms.pieces ≡ length pieces.now }
    requires some { 1 ≤ length pieces.now }
    requires pieces { All (AreRanges task.now.problem) pieces.now }
    requires ready { All (IsReady task.now pieces.now board.now) searchers.items }
    ensures finished { IfOk result (λ r. All (HasStopped task.now pieces.now board.now) r.items) }
    ensures count { IfOk result (λ r. length r.items ≡ length searchers.items) }
    ensures shares { IfOk result (λ r. (i : ℕ) (d : Searcher) → i < length searchers.items →
        (slice_index_or r.items i d).seat.view.share
        ≡ (slice_index_or searchers.items i d).seat.view.share) }
{
    let all = thread::map_vec(
        rt,
        searchers,
        &|searcher: Searcher| -> Searcher
            requires many { board.now.terms.pieces ≡ length pieces.now }
            requires some { 1 ≤ length pieces.now }
            requires pieces { All (AreRanges task.now.problem) pieces.now }
            requires ready { IsReady task.now pieces.now board.now searcher }
            ensures finished { HasStopped task.entry.now pieces.entry.now board.entry.now result }
            ensures share { result.seat.view.share ≡ searcher.seat.view.share }
        { search_out(searcher, alloc, gate, board, task, pieces) },
    )?;
    Ok(all)
}

// Searches pieces until none is left, and notes a want of memory.
fn search_out<G: Gate>(
    searcher: Searcher,
    alloc: Global,
    gate: &G,
    board: &Board,
    task: &Task<'_>,
    pieces: &[Ranges],
) -> Searcher
    requires many { board.now.terms.pieces ≡ length pieces.now }
    requires some { 1 ≤ length pieces.now }
    requires pieces { All (AreRanges task.now.problem) pieces.now }
    requires ready { IsReady task.now pieces.now board.now searcher }
    ensures finished { HasStopped task.now pieces.now board.now result }
    ensures share { result.seat.view.share ≡ searcher.seat.view.share }
{
    let mut searcher = searcher;
    if let Err(Memory) = searcher.search_pieces(alloc, gate, board, task, pieces) {
        searcher.failed = true;
    }
    searcher
}

// All workers joined into one.
pub(crate) fn unite_all(
    board: &Board,
    task: &Task<'_>,
    pieces: &[Ranges],
    searchers: Vec<Searcher>,
) -> Result<Searcher, Memory>
    requires some { 1 ≤ length searchers.items }
    requires finished { All (HasStopped task.now pieces.now board.now) searchers.items }
    ensures ready { IfOk result (IsReady task.now pieces.now board.now) }
    ensures share { IfOk result (λ s. s.seat.view.share ≡ shares searchers.items) }
    ensures mark { IfOk result (λ s. s.seat.view.no_piece_left ≡ true) }
{
    let mut rest = searchers;
    let Some(mut all) = rest.pop() else {
        unreachable!()
    };
    if all.failed {
        return Err(Memory);
    }
    while let Some(other) = rest.pop() {
        if other.failed {
            return Err(Memory);
        }
        unite(&mut all, board, task, pieces, other)?;
    }
    Ok(all)
}

// Joins a worker's seat into another's, with what it made.
fn unite(
    searcher: &mut Searcher,
    board: &Board,
    _task: &Task<'_>,
    _pieces: &[Ranges],
    other: Searcher,
) -> Result<(), Memory>
    requires first { IsReady _task.now _pieces.now board.now searcher.old }
    requires second { IsReady _task.now _pieces.now board.now other }
    ensures ready { OnOk result (IsReady _task.now _pieces.now board.now searcher.new) }
    ensures share { OnOk result (searcher.new.seat.view.share
        ≡ searcher.old.seat.view.share + other.seat.view.share) }
    ensures mark { OnOk result (searcher.new.seat.view.no_piece_left
        ≡ searcher.old.seat.view.no_piece_left || other.seat.view.no_piece_left) }
{
    let Searcher {
        seat,
        cost,
        best,
        mut done,
        ..
    } = other;
    searcher.seat.join(board, seat);
    searcher.done.append(&mut done)?;
    keep_lesser(searcher, cost, best);
    Ok(())
}

// Keeps another worker's best choice, if it is cheaper.
fn keep_lesser(searcher: &mut Searcher, cost: Option<u64>, best: Option<Choice>)
    ensures seat { searcher.new.seat ≡ searcher.old.seat }
    ensures done { searcher.new.done.items ≡ searcher.old.done.items }
    ensures cost { searcher.new.cost ≡ lesser searcher.old.cost cost }
    ensures best { searcher.new.best
        ≡ lesser_choice searcher.old.cost cost searcher.old.best best }
{
    match (searcher.cost, cost) {
        (None, Some(_)) => {}
        (Some(least), Some(found)) if found < least => {}
        _ => return,
    }
    searcher.cost = cost;
    searcher.best = best;
}
