//! The first visits, which the caller makes until enough parts are open for all workers.

ghost use Rattle.std.specs.Prelude.{◌≡◌, ℕ, ◌+◌, ◌<◌, ◌≤◌, List, [], ◌∷◌, ◌++◌, IfOk, IfSome, OnOk, IsTrue, length, slice_index_or};
ghost use Rattle.std.specs.Option.{option_map};
ghost use Rattle.choice_problem.specs.declared.nodes.Node.{Node};
ghost use Rattle.choice_problem.specs.Bounds.{whole_of};
ghost use Rattle.choice_problem.specs.Choices.{IsFeasible, choice_cost};
ghost use Rattle.choice_problem.specs.Grafts.{graft, AreOn};
ghost use Rattle.choice_problem.specs.Trees.{IsWhole, node_count};
ghost use Rattle.incumbent_word.specs.Core.{AtMost, lesser};
ghost use Rattle.branch_tree.specs.Visits.{NoneOver};
ghost use Rattle.search_workers.specs.Settings.{IsPlaceIn, Drives};
ghost use Rattle.search_workers.specs.Work.{IsMadeOf, IsSoFar, IsStart, all_nodes, lesser_choice, with_undone_parts};
ghost use Rattle.search_workers.specs.Rounds.{AreVisitsMade};

use crate::looks::look;
use crate::places::Place;
use crate::rounds::first_open;
use crate::searchers::Done;
use crate::states::{Start, State};
use crate::tasks::Task;
use crate::trees::{graft_nodes, is_whole, trees_of};
use choice_problem::{Choice, Node, Ranges};
use slot_text::Memory;
use std::alloc::Global;

// How many parts are to be open for each worker before they begin.
const OPEN_PARTS: u32 = 4;

// The visit of all alternatives, which records the cost of the best choice that is known.
pub(crate) fn first_visit(
    alloc: Global,
    task: &Task<'_>,
    place: &Place<'_>,
    start: Start,
) -> Result<State, Memory>
    requires place { IsPlaceIn task.now place.now }
    requires whole { place.now.walk.ranges ≡ whole_of task.now.problem }
    requires start { IsStart task.now.problem start }
    requires greedy { task.now.greedy ≡ start.greedy }
    requires none_over { NoneOver task.now.problem (whole_of task.now.problem) }
    ensures so_far { IfOk result (λ s. IsSoFar task.now s.cost s.best s.tree.items) }
    ensures count { IfOk result (λ s. node_count s.tree.items ≡ 1) }
    ensures fell { IfOk result (λ s. AtMost s.cost start.cost) }
{
    let Start { cost, best, .. } = start;
    let (node, found) = look(alloc, task, place, cost)?;
    let tree = with_undone_parts(alloc, node)?;
    Ok(State::with_found(task.problem(), tree, cost, best, found))
}

// A node, with its parts undone.
fn with_undone_parts(alloc: Global, node: Node) -> Result<Vec<Node>, Memory>
    ensures { IfOk result (λ tree. tree.items ≡ with_undone_parts node) }
{
    let mut tree = Vec::new(alloc);
    tree.push(node)?;
    if let Node::Split { .. } = node {
        tree.push(Node::Undone)?;
        tree.push(Node::Undone)?;
    }
    Ok(tree)
}

// Visits open parts, the shallowest first, until enough are open, none is, or the budget is spent.
// It says how many visits there were in all.
pub(crate) fn open_parts<'a>(
    alloc: Global,
    task: &Task<'a>,
    place: &mut Place<'a>,
    budget: u32,
    workers: u32,
    state: State,
) -> Result<(State, u32), Memory>
    requires place { IsPlaceIn task.now place.old }
    requires budget { 1 ≤ budget }
    requires workers { workers ≤ 16 }
    requires so_far { IsSoFar task.now state.cost state.best state.tree.items }
    requires count { node_count state.tree.items ≡ 1 }
    ensures so_far { IfOk result (λ r. IsSoFar task.now r.0.cost r.0.best r.0.tree.items) }
    ensures count { IfOk result (λ r. node_count r.0.tree.items ≡ r.1) }
    ensures within { IfOk result (λ r. r.1 ≤ budget) }
    ensures fell { IfOk result (λ r. AtMost r.0.cost state.cost) }
{
    let mut state = state;
    let mut taken = 1;
    while taken < budget && has_room(&state.tree, OPEN_PARTS * workers) {
        state = visit_part(alloc, task, place, state)?;
        taken += 1;
    }
    Ok((state, taken))
}

// Whether parts are open, but fewer than so many.
fn has_room(tree: &[Node], most: u32) -> bool
    ensures { IsTrue result → IsWhole tree.now → ⊥ }
{
    if is_whole(tree) {
        return false;
    }
    let mut open: u32 = 0;
    for node in tree {
        if *node == Node::Undone {
            open = open.saturating_add(1);
        }
    }
    open < most
}

// Visits the shallowest open part.
fn visit_part<'a>(
    alloc: Global,
    task: &Task<'a>,
    place: &mut Place<'a>,
    state: State,
) -> Result<State, Memory>
    requires place { IsPlaceIn task.now place.old }
    requires so_far { IsSoFar task.now state.cost state.best state.tree.items }
    requires open_node { IsWhole state.tree.items → ⊥ }
    ensures place { OnOk result (IsPlaceIn task.now place.new) }
    ensures visits { IfOk result (λ s. AreVisitsMade task.now 1 state.cost s.cost s.best
        state.tree.items s.tree.items) }
{
    let (tree, found) = part_visited(alloc, task, place, &state)?;
    Ok(State::with_found(task.problem(), tree, state.cost, state.best, found))
}

// The tree after a visit of the shallowest open part, and the choice that was found.
fn part_visited<'a>(
    alloc: Global,
    task: &Task<'a>,
    place: &mut Place<'a>,
    state: &State,
) -> Result<(Vec<Node>, Option<Choice>), Memory>
    requires place { IsPlaceIn task.now place.old }
    requires so_far { IsSoFar task.now state.now.cost state.now.best state.now.tree.items }
    requires open_node { IsWhole state.now.tree.items → ⊥ }
    ensures place { OnOk result (IsPlaceIn task.now place.new) }
    ensures found { IfOk result (λ r. IfSome r.1 (IsFeasible task.now.problem)) }
    ensures visits { IfOk result (λ r. AreVisitsMade task.now 1 state.now.cost
        (lesser state.now.cost (option_map (choice_cost task.now.problem) r.1))
        (lesser_choice state.now.cost (option_map (choice_cost task.now.problem) r.1)
        state.now.best r.1) state.now.tree.items r.0.items) }
{
    let part = shallowest(alloc, &state.tree)?;
    let pieces = first_open(alloc, task, state, part as usize + 1)?;
    let piece = pieces.len() - 1;
    place.go(alloc, task, &pieces[piece])?;
    let (node, found) = look(alloc, task, place, state.cost)?;
    let tree = with_part(alloc, task, &state.tree, &pieces, piece as u32, node)?;
    Ok((tree, found))
}

// The tree with a node, and undone parts of it, in the place of a piece.
fn with_part(
    alloc: Global,
    task: &Task<'_>,
    tree: &[Node],
    pieces: &[Ranges],
    piece: u32,
    node: Node,
) -> Result<Vec<Node>, Memory>
    requires piece { piece < length pieces.now }
    requires node { Drives task.now (slice_index_or pieces.now piece []) node }
    ensures { IfOk result (λ r. (trees : List (List Node)) × (r.items ≡ graft tree.now trees)
        × AreOn (λ ranges node. Drives task.now ranges node) pieces.now trees
        × IsMadeOf (all_nodes trees) (with_undone_parts node ++ [])) }
{
    let part = with_undone_parts(alloc, node)?;
    let done = one_done(alloc, piece, part)?;
    let trees = trees_of(alloc, task, pieces, done)?;
    graft_nodes(alloc, tree, &trees)
}

// One tree.
fn one_done(alloc: Global, piece: u32, tree: Vec<Node>) -> Result<Vec<Done>, Memory>
    ensures { IfOk result (λ done. done.items ≡ record { piece = piece; tree = tree } ∷ []) }
{
    let mut done = Vec::new(alloc);
    done.push(Done { piece, tree })?;
    Ok(done)
}

// Which of the undone nodes is the shallowest, the first one on ties, counted from 0.
fn shallowest(alloc: Global, tree: &[Node]) -> Result<u32, Memory> {
    let mut depths = Vec::new(alloc);
    depths.push(0u32)?;
    let mut open: u32 = 0;
    let mut least = u32::MAX;
    let mut which = 0;
    for node in tree {
        let depth = depths.pop().unwrap_or(0);
        match node {
            Node::Split { .. } => {
                depths.push(depth.saturating_add(1))?;
                depths.push(depth.saturating_add(1))?;
            }
            Node::Undone => {
                if depth < least {
                    least = depth;
                    which = open;
                }
                open = open.saturating_add(1);
            }
            _ => {}
        }
    }
    Ok(which)
}
