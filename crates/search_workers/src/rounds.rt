//! A round: a board of open parts, the workers who search them, and the tree that they leave.

ghost use Rattle.std.specs.Prelude.{◌≡◌, ℕ, ◌+◌, ◌^◌, ◌<◌, ◌≤◌, true, [], ◌∷◌, take, All, length, IfOk};
ghost use Rattle.choice_problem.specs.Bounds.{AreRanges, whole_of};
ghost use Rattle.choice_problem.specs.Grafts.{open_ranges};
ghost use Rattle.choice_problem.specs.Driven.{IsSeenBetween};
ghost use Rattle.choice_problem.specs.Trees.{IsWhole};
ghost use Rattle.incumbent_word.specs.Calls.{first_view};
ghost use Rattle.incumbent_word.specs.Seats.{IsSeatOf};
ghost use Rattle.search_workers.specs.Work.{IsSoFar};
ghost use Rattle.search_workers.specs.Rounds.{IsReady, IsRound};

use crate::searchers::Searcher;
use crate::seats::{search_all, seat_all, unite_all};
use crate::states::{State, cheaper, cost_if_any};
use crate::tasks::Task;
use crate::trees::{graft_nodes, trees_of};
use choice_problem::{Ranges, open_pieces, part_ranges};
use incumbent_word::{Board, BoardSeat};
use slot_text::Memory;
use std::alloc::Global;
use std::thread::Threads;
use worker_gate::Gate;

// How many pieces a round has for each worker, at most.
const MOST_PIECES: u32 = 64;

// One round: a board with what is left of the budget, and the first undone nodes as its pieces.
pub(crate) fn round<R: Threads + Sync, G: Gate>(
    rt: &R,
    alloc: Global,
    gate: &G,
    task: &Task<'_>,
    rest: u32,
    workers: u32,
    state: State,
) -> Result<(State, u32), Memory>
    requires workers { (1 ≤ workers) × (workers ≤ 16) }
    requires rest { 1 ≤ rest }
    requires so_far { IsSoFar task.now state.cost state.best state.tree.items }
    requires open_node { IsWhole state.tree.items → ⊥ }
    ensures { IfOk result (λ r. IsRound task.now rest r.1 state.cost r.0.cost r.0.best
        state.tree.items r.0.tree.items) }
{
    let pieces = first_open(alloc, task, &state, MOST_PIECES as usize * workers as usize)?;
    let start = cost_if_any(task.problem(), &state.best);
    let (board, seat) = Board::new(alloc, rest, pieces.len() as u32, start)?;
    let count = workers.min(pieces.len() as u32);
    let last = work_all(rt, alloc, gate, &board, task, &pieces, seat, count)?;
    end_round(alloc, board, task, &pieces, last, state)
}

// What so many workers do at a board, until all are joined into one.
fn work_all<R: Threads + Sync, G: Gate>(
    rt: &R,
    alloc: Global,
    gate: &G,
    board: &Board,
    task: &Task<'_>,
    pieces: &[Ranges],
    seat: BoardSeat,
    workers: u32,
) -> Result<Searcher, Memory>
    requires workers { (1 ≤ workers) × (workers ≤ 16) }
    requires seat { IsSeatOf board.now seat × (seat.view ≡ first_view board.now.terms) }
    requires start { IsSeenBetween board.now.terms.start task.now.greedy board.now.terms.start }
    requires many { board.now.terms.pieces ≡ length pieces.now }
    requires some { 1 ≤ length pieces.now }
    requires pieces { All (AreRanges task.now.problem) pieces.now }
    ensures ready { IfOk result (IsReady task.now pieces.now board.now) }
    ensures share { IfOk result (λ s. s.seat.view.share ≡ 2 ^ 32) }
    ensures mark { IfOk result (λ s. s.seat.view.no_piece_left ≡ true) }
{
    let searchers = seat_all(alloc, board, task, pieces, seat, workers)?;
    let searchers = search_all(rt, alloc, gate, board, task, pieces, searchers)?;
    unite_all(board, task, pieces, searchers)
}

// The ranges of the first undone nodes, at most so many.
pub(crate) fn first_open(
    alloc: Global,
    task: &Task<'_>,
    state: &State,
    most: usize,
) -> Result<Vec<Ranges>, Memory>
    requires so_far { IsSoFar task.now state.now.cost state.now.best state.now.tree.items }
    requires some { 1 ≤ most }
    requires open_node { IsWhole state.now.tree.items → ⊥ }
    ensures first { IfOk result (λ r. r.items ≡ take most
        (open_ranges (whole_of task.now.problem ∷ []) state.now.tree.items)) }
    ensures some { IfOk result (λ r. 1 ≤ length r.items) }
    ensures most { IfOk result (λ r. length r.items ≤ most) }
    ensures valid { IfOk result (λ r. All (AreRanges task.now.problem) r.items) }
{
    part_ranges();
    let whole = Ranges::whole(alloc, task.problem())?;
    match open_pieces(alloc, whole, &state.tree, most)? {
        Some(pieces) => Ok(pieces),
        None => unreachable!(),
    }
}

// Closes the board, and puts what the workers made in the place of the pieces.
fn end_round(
    alloc: Global,
    board: Board,
    task: &Task<'_>,
    pieces: &[Ranges],
    last: Searcher,
    state: State,
) -> Result<(State, u32), Memory>
    requires ready { IsReady task.now pieces.now board last }
    requires share { last.seat.view.share ≡ 2 ^ 32 }
    requires mark { last.seat.view.no_piece_left ≡ true }
    requires terms { (board.terms.pieces ≡ length pieces.now) × (board.terms.start ≡ state.cost) }
    requires pieces { (1 ≤ length pieces.now) × ((m : ℕ) × (pieces.now
        ≡ take m (open_ranges (whole_of task.now.problem ∷ []) state.tree.items))) }
    requires so_far { IsSoFar task.now state.cost state.best state.tree.items }
    ensures { IfOk result (λ r. IsRound task.now board.terms.budget r.1 state.cost r.0.cost r.0.best
        state.tree.items r.0.tree.items) }
{
    let Searcher {
        seat,
        cost,
        best,
        done,
        ..
    } = last;
    let end = board.close(seat);
    let trees = trees_of(alloc, task, pieces, done)?;
    let tree = graft_nodes(alloc, &state.tree, &trees)?;
    let best = cheaper(state.cost, state.best, cost, best);
    Ok((
        State {
            tree,
            cost: end.least,
            best,
        },
        end.taken,
    ))
}
