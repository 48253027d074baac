//! Trees put in the place of undone nodes.

ghost use Rattle.std.specs.Prelude.{◌≡◌, ◌↔◌, ℕ, ◌+◌, ◌<◌, ◌≤◌, List, [], ◌∷◌, ◌++◌, All, IsTrue, length, slice_index_or, slice_set, OnOk, IfOk, map, drop};
ghost use Rattle.choice_problem.specs.declared.nodes.Node.{Node};
ghost use Rattle.choice_problem.specs.Trees.{IsWhole};
ghost use Rattle.choice_problem.specs.Grafts.{graft, AreOn};
ghost use Rattle.search_workers.specs.Settings.{AreGrown, Drives};
ghost use Rattle.search_workers.specs.Searchers.{made, pieces_of};
ghost use Rattle.search_workers.specs.Work.{IsMadeOf, all_nodes};
ghost use Rattle.search_workers.specs.Rounds.{AreApart};

use crate::searchers::Done;
use crate::tasks::Task;
use choice_problem::{Node, Ranges};
use slot_text::Memory;
use std::alloc::Global;

// Whether no node is undone.
pub(crate) fn is_whole(nodes: &[Node]) -> bool
    ensures { IsTrue result ↔ IsWhole nodes.now }
{
    for node in nodes {
        if *node == Node::Undone {
            return false;
        }
    }
    true
}

// The trees, in preorder, in the place of the first undone nodes.
pub(crate) fn graft_nodes(
    alloc: Global,
    nodes: &[Node],
    trees: &[Vec<Node>],
) -> Result<Vec<Node>, Memory>
    ensures { IfOk result (λ all. all.items ≡ graft nodes.now (map (λ t. t.items) trees.now)) }
{
    let mut all = Vec::new(alloc);
    let mut next = 0;
    for node in nodes {
        next = grow(&mut all, *node, trees, next)?;
    }
    Ok(all)
}

// Enters a node, or the next tree in its place, and says which tree is the next one.
fn grow(all: &mut Vec<Node>, node: Node, trees: &[Vec<Node>], next: usize) -> Result<usize, Memory>
    requires { next ≤ length trees.now }
    ensures within { IfOk result (λ n. n ≤ length trees.now) }
    ensures grown { IfOk result (λ n. (rest : List Node) →
        all.new.items ++ graft rest (drop n (map (λ t. t.items) trees.now))
        ≡ all.old.items ++ graft (node ∷ rest) (drop next (map (λ t. t.items) trees.now))) }
{
    if node == Node::Undone && next < trees.len() {
        push_all(all, &trees[next])?;
        return Ok(next + 1);
    }
    all.push(node)?;
    Ok(next)
}

// Adds nodes.
fn push_all(all: &mut Vec<Node>, more: &[Node]) -> Result<(), Memory>
    ensures { OnOk result (all.new.items ≡ all.old.items ++ more.now) }
{
    for node in more {
        all.push(*node)?;
    }
    Ok(())
}

// One tree for each piece: what was made in it, or an undone node.
pub(crate) fn trees_of(
    alloc: Global,
    task: &Task<'_>,
    pieces: &[Ranges],
    done: Vec<Done>,
) -> Result<Vec<Vec<Node>>, Memory>
    requires there { All (λ d. d.piece < length pieces.now) done.items }
    requires trees { All (λ d.
        AreGrown task.now (slice_index_or pieces.now d.piece [] ∷ []) d.tree.items) done.items }
    requires apart { AreApart (pieces_of done.items) }
    ensures shape { IfOk result (λ r. AreOn (λ ranges node. Drives task.now ranges node) pieces.now
        (map (λ t. t.items) r.items)) }
    ensures nodes { IfOk result (λ r. IsMadeOf (all_nodes (map (λ t. t.items) r.items))
        (made done.items)) }
{
    let mut trees = undone_trees(alloc, pieces.len())?;
    let mut rest = done;
    while let Some(last) = rest.pop() {
        set_tree(&mut trees, last.piece, last.tree);
    }
    let _task = task;
    Ok(trees)
}

// Replaces a tree.
fn set_tree(trees: &mut Vec<Vec<Node>>, place: u32, tree: Vec<Node>)
    requires { place < length trees.old.items }
    ensures { trees.new.items ≡ slice_set trees.old.items place tree }
{
    trees[place as usize] = tree;
}

// So many trees of one undone node each.
fn undone_trees(alloc: Global, count: usize) -> Result<Vec<Vec<Node>>, Memory>
    ensures count { IfOk result (λ r. length r.items ≡ count) }
    ensures each { IfOk result (λ r. All (λ t. t.items ≡ Node.Undone ∷ []) r.items) }
{
    let mut trees = Vec::new(alloc);
    for _ in 0..count {
        trees.push(vec![in alloc; Node::Undone; 1]?)?;
    }
    Ok(trees)
}
