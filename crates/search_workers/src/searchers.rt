//! One worker of a search.

ghost use Rattle.std.specs.Prelude.{◌≡◌, ◌+◌, ◌<◌, ◌≤◌, ℕ, List, [], ◌∷◌, ◌++◌, true, reverse, OnOk, IfSome, Option, ◌⊎◌, All, length};
ghost use Rattle.choice_problem.specs.Choices.{IsFeasible};
ghost use Rattle.choice_problem.specs.Bounds.{AreRanges};
ghost use Rattle.choice_problem.specs.Trees.{node_count};
ghost use Rattle.incumbent_word.specs.Core.{lesser};
ghost use Rattle.incumbent_word.specs.Seats.{IsSeatOf};
ghost use Rattle.search_workers.specs.Settings.{IsPlaceIn};
ghost use Rattle.search_workers.specs.Work.{IsWork, IsAhead, IsKeeping, lesser_choice};
ghost use Rattle.search_workers.specs.Searchers.{made, pieces_of, HasProgress, IsBegun, IsSearcher};

use crate::growths::Growth;
use crate::looks::look;
use crate::places::Place;
use crate::tasks::Task;
use choice_problem::{Choice, Node, Problem, Ranges, cost_of, part_ranges};
use incumbent_word::{Board, BoardSeat};
use slot_text::Memory;
use std::alloc::Global;
use worker_gate::Gate;

// How many visits a worker makes in one piece before it claims another.
const MOST_VISITS: u32 = 1024;

// The tree that a worker made in a piece.
#[derive(Drop)]
pub(crate) struct Done {
    pub(crate) piece: u32,
    pub(crate) tree: Vec<Node>,
}

// A worker: its number, its seat at the board, the best choice that it found with its cost, the
// trees that it made, and whether it wanted memory.
#[derive(Drop)]
pub(crate) struct Searcher {
    pub(crate) number: u32,
    pub(crate) seat: BoardSeat,
    pub(crate) cost: Option<u64>,
    pub(crate) best: Option<Choice>,
    pub(crate) done: Vec<Done>,
    pub(crate) failed: bool,
}

impl Searcher {
    // Visits the next ranges of a tree, unless none are left, or no number is.
    fn step<'a, G: Gate>(
        &mut self,
        alloc: Global,
        gate: &G,
        board: &Board,
        task: &Task<'a>,
        place: &mut Place<'a>,
        _root: &Ranges,
        growth: &mut Growth,
    ) -> Result<bool, Memory>
        requires own { IsSeatOf board.now self.old.seat }
        requires place { IsPlaceIn task.now place.old }
        requires work { IsWork task.now self.old.seat.view.worker self.old.best
            (made self.old.done.items ++ growth.old.nodes.items) }
        requires cost { self.old.cost ≡ self.old.seat.view.worker.best }
        requires tree { IsBegun task.now _root.now growth.old.nodes.items
            (reverse growth.old.pending.items) }
        ensures own { IsSeatOf board.now self.new.seat }
        ensures place { OnOk result (IsPlaceIn task.now place.new) }
        ensures share { self.new.seat.view.share ≡ self.old.seat.view.share }
        ensures done { self.new.done.items ≡ self.old.done.items }
        ensures pieces { self.new.seat.view.worker.pieces ≡ self.old.seat.view.worker.pieces }
        ensures work { OnOk result (IsWork task.now self.new.seat.view.worker self.new.best
            (made self.new.done.items ++ growth.new.nodes.items)) }
        ensures cost { OnOk result (self.new.cost ≡ self.new.seat.view.worker.best) }
        ensures tree { OnOk result (IsBegun task.now _root.now growth.new.nodes.items
            (reverse growth.new.pending.items)) }
        ensures marks { (self.old.seat.view.no_number_left ≡ true →
            self.new.seat.view.no_number_left ≡ true)
            × (self.new.seat.view.no_piece_left ≡ self.old.seat.view.no_piece_left) }
        ensures goes_on { OnOk result (HasProgress self.old.seat.view growth.old.nodes.items →
            HasProgress self.new.seat.view growth.new.nodes.items) }
        ensures begun { OnOk result (HasProgress self.new.seat.view growth.new.nodes.items
            ⊎ growth.old.pending.items ≡ []) }
    {
        if growth.pending.is_empty() {
            return Ok(false);
        }
        gate.before_node(self.number);
        let Some(_number) = self.seat.take(board) else {
            return Ok(false);
        };
        let Some(ranges) = growth.pending.pop() else {
            unreachable!()
        };
        self.enter(alloc, board, task, place, _root, growth, &ranges)?;
        Ok(true)
    }

    // Visits ranges for the number taken last, and enters the node.
    fn enter<'a>(
        &mut self,
        alloc: Global,
        board: &Board,
        task: &Task<'a>,
        place: &mut Place<'a>,
        _root: &Ranges,
        growth: &mut Growth,
        ranges: &Ranges,
    ) -> Result<(), Memory>
        requires own { IsSeatOf board.now self.old.seat }
        requires place { IsPlaceIn task.now place.old }
        requires work { IsAhead task.now self.old.seat.view.worker self.old.best
            (made self.old.done.items ++ growth.old.nodes.items) }
        requires cost { self.old.cost ≡ self.old.seat.view.worker.best }
        requires tree { IsBegun task.now _root.now growth.old.nodes.items
            (ranges.now ∷ reverse growth.old.pending.items) }
        ensures own { IsSeatOf board.now self.new.seat }
        ensures place { OnOk result (IsPlaceIn task.now place.new) }
        ensures share { self.new.seat.view.share ≡ self.old.seat.view.share }
        ensures done { self.new.done.items ≡ self.old.done.items }
        ensures pieces { self.new.seat.view.worker.pieces ≡ self.old.seat.view.worker.pieces }
        ensures work { OnOk result (IsWork task.now self.new.seat.view.worker self.new.best
            (made self.new.done.items ++ growth.new.nodes.items)) }
        ensures cost { OnOk result (self.new.cost ≡ self.new.seat.view.worker.best) }
        ensures tree { OnOk result (IsBegun task.now _root.now growth.new.nodes.items
            (reverse growth.new.pending.items)) }
        ensures marks { (self.new.seat.view.no_number_left ≡ self.old.seat.view.no_number_left)
            × (self.new.seat.view.no_piece_left ≡ self.old.seat.view.no_piece_left) }
        ensures counted { OnOk result (node_count growth.new.nodes.items
            ≡ node_count growth.old.nodes.items + 1) }
    {
        part_ranges();
        let seen = self.seat.least(board);
        place.go(alloc, task, ranges)?;
        let (node, found) = look(alloc, task, place, seen)?;
        growth.enter(alloc, task, ranges, node)?;
        self.keep_found(board, task.problem(), found);
        Ok(())
    }

    // Posts the cost of a choice that was found, and keeps the choice if it is cheaper than the
    // best one.
    fn keep_found(&mut self, board: &Board, problem: &Problem, found: Option<Choice>)
        requires own { IsSeatOf board.now self.old.seat }
        requires found { IfSome found (IsFeasible problem.now) }
        ensures own { IsSeatOf board.now self.new.seat }
        ensures share { self.new.seat.view.share ≡ self.old.seat.view.share }
        ensures done { self.new.done.items ≡ self.old.done.items }
        ensures pieces { self.new.seat.view.worker.pieces ≡ self.old.seat.view.worker.pieces }
        ensures marks { (self.new.seat.view.no_number_left ≡ self.old.seat.view.no_number_left)
            × (self.new.seat.view.no_piece_left ≡ self.old.seat.view.no_piece_left) }
        ensures keeping { IsKeeping problem.now found self.old.seat.view self.new.seat.view
            self.old.cost self.new.cost self.old.best self.new.best }
    {
        if let Some(choice) = found {
            let cost = cost_of(problem, &choice);
            self.seat.post(board, cost);
            self.keep(cost, choice);
        }
    }

    // Keeps a choice of this cost, if it is cheaper than the best one.
    fn keep(&mut self, cost: u64, choice: Choice)
        ensures seat { self.new.seat ≡ self.old.seat }
        ensures done { self.new.done.items ≡ self.old.done.items }
        ensures cost { self.new.cost ≡ lesser self.old.cost (Option.Some cost) }
        ensures best { self.new.best ≡ lesser_choice self.old.cost (Option.Some cost) self.old.best
            (Option.Some choice) }
    {
        if let Some(least) = self.cost
            && least <= cost
        {
            return;
        }
        self.cost = Some(cost);
        self.best = Some(choice);
    }

    // Visits until the tree is done, no number is left, or there were as many visits as one piece
    // gets.
    fn visit_on<'a, G: Gate>(
        &mut self,
        alloc: Global,
        gate: &G,
        board: &Board,
        task: &Task<'a>,
        place: &mut Place<'a>,
        _root: &Ranges,
        growth: &mut Growth,
    ) -> Result<(), Memory>
        requires own { IsSeatOf board.now self.old.seat }
        requires place { IsPlaceIn task.now place.old }
        requires work { IsWork task.now self.old.seat.view.worker self.old.best
            (made self.old.done.items ++ growth.old.nodes.items) }
        requires cost { self.old.cost ≡ self.old.seat.view.worker.best }
        requires tree { IsBegun task.now _root.now growth.old.nodes.items
            (reverse growth.old.pending.items) }
        requires begun { HasProgress self.old.seat.view growth.old.nodes.items }
        ensures own { IsSeatOf board.now self.new.seat }
        ensures place { OnOk result (IsPlaceIn task.now place.new) }
        ensures share { self.new.seat.view.share ≡ self.old.seat.view.share }
        ensures done { self.new.done.items ≡ self.old.done.items }
        ensures pieces { self.new.seat.view.worker.pieces ≡ self.old.seat.view.worker.pieces }
        ensures work { OnOk result (IsWork task.now self.new.seat.view.worker self.new.best
            (made self.new.done.items ++ growth.new.nodes.items)) }
        ensures cost { OnOk result (self.new.cost ≡ self.new.seat.view.worker.best) }
        ensures tree { OnOk result (IsBegun task.now _root.now growth.new.nodes.items
            (reverse growth.new.pending.items)) }
        ensures marks { (self.old.seat.view.no_number_left ≡ true →
            self.new.seat.view.no_number_left ≡ true)
            × (self.new.seat.view.no_piece_left ≡ self.old.seat.view.no_piece_left) }
        ensures begun { OnOk result (HasProgress self.new.seat.view growth.new.nodes.items) }
    {
        for _visited in 1..MOST_VISITS {
            if !self.step(alloc, gate, board, task, place, _root, growth)? {
                return Ok(());
            }
        }
        Ok(())
    }

    // Searches the piece that was claimed last.
    fn search_piece<'a, G: Gate>(
        &mut self,
        alloc: Global,
        gate: &G,
        board: &Board,
        task: &Task<'a>,
        place: &mut Place<'a>,
        pieces: &[Ranges],
        piece: u32,
    ) -> Result<(), Memory>
        requires own { IsSeatOf board.now self.old.seat }
        requires place { IsPlaceIn task.now place.old }
        requires searcher { IsSearcher task.now pieces.now self.old.seat.view self.old.cost
            self.old.best self.old.done.items }
        requires claims { self.old.seat.view.worker.pieces
            ≡ pieces_of self.old.done.items ++ piece ∷ [] }
        requires piece { piece < length pieces.now }
        requires pieces { All (AreRanges task.now.problem) pieces.now }
        ensures own { IsSeatOf board.now self.new.seat }
        ensures place { OnOk result (IsPlaceIn task.now place.new) }
        ensures share { self.new.seat.view.share ≡ self.old.seat.view.share }
        ensures same { self.new.seat.view.worker.pieces ≡ self.old.seat.view.worker.pieces }
        ensures searcher { OnOk result (IsSearcher task.now pieces.now self.new.seat.view
            self.new.cost self.new.best self.new.done.items) }
        ensures claims { OnOk result (self.new.seat.view.worker.pieces
            ≡ pieces_of self.new.done.items) }
    {
        let root = &pieces[piece as usize];
        let mut growth = Growth::new(alloc, root)?;
        self.step(alloc, gate, board, task, place, root, &mut growth)?;
        self.visit_on(alloc, gate, board, task, place, root, &mut growth)?;
        let tree = growth.finish()?;
        self.done.push(Done { piece, tree })?;
        Ok(())
    }

    // Claims pieces until none is left, and searches each.
    pub(crate) fn search_pieces<G: Gate>(
        &mut self,
        alloc: Global,
        gate: &G,
        board: &Board,
        task: &Task<'_>,
        pieces: &[Ranges],
    ) -> Result<(), Memory>
        requires own { IsSeatOf board.now self.old.seat }
        requires searcher { IsSearcher task.now pieces.now self.old.seat.view self.old.cost
            self.old.best self.old.done.items }
        requires claims { self.old.seat.view.worker.pieces ≡ pieces_of self.old.done.items }
        requires many { board.now.terms.pieces ≡ length pieces.now }
        requires some { 1 ≤ length pieces.now }
        requires pieces { All (AreRanges task.now.problem) pieces.now }
        ensures own { IsSeatOf board.now self.new.seat }
        ensures share { self.new.seat.view.share ≡ self.old.seat.view.share }
        ensures searcher { OnOk result (IsSearcher task.now pieces.now self.new.seat.view
            self.new.cost self.new.best self.new.done.items) }
        ensures claims { OnOk result (self.new.seat.view.worker.pieces
            ≡ pieces_of self.new.done.items) }
        ensures marked { OnOk result (self.new.seat.view.no_piece_left ≡ true) }
    {
        let first = pieces[0].copy(alloc)?;
        let mut place = Place::at(alloc, task, first)?;
        // Pieces are claimed in rising order: those below this number are gone, so that the loop
        // ends.
        let mut _next = 0u64;
        while let Some(piece) = self.seat.claim(board) {
            self.search_piece(alloc, gate, board, task, &mut place, pieces, piece)?;
            _next = u64::from(piece) + 1;
        }
        Ok(())
    }
}
