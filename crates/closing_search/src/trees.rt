//! Trees that may close a problem, and the choices for them.

use crate::growing::grow;
use crate::improving::improve;
use crate::leftovers::Ground;
use crate::pieces::{bit_of, nodes_of};
use crate::splits::WHOLE;
use crate::states::{State, Task, copy_if_any};
use choice_problem::{Choice, Node, Vector, VectorList};
use relaxed_problem::{End, Relaxation, Share};
use slot_text::Memory;
use std::alloc::Global;
use std::thread::Threads;
use tested_trees::{Found, are_listable};

/// The most nodes of a tree.
pub(crate) const MOST_NODES: u32 = 40_000;

// The most steps of the relaxations of all trees but the first one, and of that; and how many trees
// there are at most, that one among them.
const TREE_STEPS: u64 = 2_000_000_000;

const FIRST_STEPS: u64 = 20_000_000;

const MOST_TREES: u32 = 4;

// With so many alternatives the steps of the first tree end with the looks at its first node.
const MANY_COLUMNS: usize = 100_000;

/// Looks for a small tree, and for a choice on the way, from a start, if there is one.
pub(crate) fn first_tree<R: Threads + Sync>(
    rt: &R,
    alloc: Global,
    task: &Task<'_>,
    ground: Ground<'_>,
    start: &Option<Choice>,
) -> Result<(Option<Found>, Option<Choice>), Memory> {
    if is_too_large(alloc, task, ground)? {
        return Ok((None, copy_if_any(alloc, start)?));
    }
    let mut state = State::of_all(alloc, task, ground.root, FIRST_STEPS, ground.workers)?;
    let found = found_from(rt, alloc, task, &mut state, start, ground.most)?;
    Ok((found, state.into_best()))
}

// Whether there are too many alternatives for a first tree, whose first node must be split. Where
// nodes are few there are no trees of guesses after it, and it is grown in any case.
fn is_too_large(alloc: Global, task: &Task<'_>, ground: Ground<'_>) -> Result<bool, Memory> {
    let is_large = task.program.columns().len() >= MANY_COLUMNS;
    if !is_large || ground.most <= FEW_VISITS || ground.ended.end != End::Solved {
        return Ok(false);
    }
    let shares = ground.root.shares(alloc, task.program)?;
    Ok(has_parts(&shares))
}

// Whether some share is not the whole.
fn has_parts(shares: &[Share]) -> bool {
    for share in shares {
        if share.share < WHOLE {
            return true;
        }
    }
    false
}

// Grows a tree from a start, if there is one.
fn found_from<R: Threads + Sync>(
    rt: &R,
    alloc: Global,
    task: &Task<'_>,
    state: &mut State,
    start: &Option<Choice>,
    most: u32,
) -> Result<Option<Found>, Memory> {
    let copy = copy_if_any(alloc, start)?;
    state.take_any(alloc, task.problem, copy)?;
    let _goes_on = grow(rt, alloc, task, state, most)?;
    found_in(alloc, task, state, most)
}

/// Looks for better choices, and where none is known, for trees of the whole problem.
pub(crate) fn further_trees<R: Threads + Sync>(
    rt: &R,
    alloc: Global,
    task: &Task<'_>,
    ground: Ground<'_>,
    best: Option<Choice>,
) -> Result<(Option<Found>, Option<Choice>), Memory> {
    let mut state = State::of_all(alloc, task, ground.root, TREE_STEPS, ground.workers)?;
    let is_known = best.is_some();
    state.take_any(alloc, task.problem, best)?;
    let found = improve_and_grow(rt, alloc, task, &mut state, ground, is_known)?;
    Ok((found, state.into_best()))
}

// Looks for better choices, and where none was known, for trees.
fn improve_and_grow<R: Threads + Sync>(
    rt: &R,
    alloc: Global,
    task: &Task<'_>,
    state: &mut State,
    ground: Ground<'_>,
    is_known: bool,
) -> Result<Option<Found>, Memory> {
    if ground.ended.end == End::Solved {
        improve(rt, alloc, task, state, ground.root)?;
    }
    if is_known && ground.most > FEW_VISITS {
        return Ok(None);
    }
    grow_trees(rt, alloc, task, state, ground.root, ground.most)
}

/// With at most so many nodes no fixing is tried, and trees of the whole problem are.
pub(crate) const FEW_VISITS: u32 = 64;

// A tree. Where a tree does not close, the next one is grown with the best choice that was found;
// and where no better one was found, with splits by numbers alone.
fn grow_trees<R: Threads + Sync>(
    rt: &R,
    alloc: Global,
    task: &Task<'_>,
    state: &mut State,
    root: &Relaxation,
    most: u32,
) -> Result<Option<Found>, Memory> {
    for _ in 1..MOST_TREES {
        let known = state.cost;
        let _goes_on = grow(rt, alloc, task, state, most)?;
        let found = found_in(alloc, task, state, most)?;
        if found.is_some() || !begin_next(alloc, task, state, root, known)? {
            return Ok(found);
        }
    }
    Ok(None)
}

// Begins the next tree, where steps are left and it differs from the last one, before which this
// was the least cost. Answers whether it did.
fn begin_next(
    alloc: Global,
    task: &Task<'_>,
    state: &mut State,
    root: &Relaxation,
    known: Option<u64>,
) -> Result<bool, Memory> {
    let is_better = state.cost != known;
    if state.steps == 0 || (!is_better && !state.is_by_quotas) {
        return Ok(false);
    }
    let is_by_quotas = state.is_by_quotas && is_better;
    state.begin_again(alloc, task, root)?;
    state.is_by_quotas = is_by_quotas;
    Ok(true)
}

/// The tree of ranges that was found, with its vectors and the best choice.
pub(crate) fn found_in(
    alloc: Global,
    task: &Task<'_>,
    state: &State,
    most: u32,
) -> Result<Option<Found>, Memory> {
    match nodes_of(alloc, task, state, most)? {
        Some((nodes, used)) => listed(alloc, state, nodes, used),
        None => Ok(None),
    }
}

// The tree of these nodes with the vectors that are used, if these can be listed.
fn listed(
    alloc: Global,
    state: &State,
    mut nodes: Vec<Node>,
    used: u128,
) -> Result<Option<Found>, Memory> {
    let vectors = used_vectors(alloc, state, used)?;
    if !are_listable(&vectors) {
        return Ok(None);
    }
    renumber(alloc, state, &mut nodes, used)?;
    let choice = copy_if_any(alloc, &state.best)?;
    Ok(Some(Found {
        choice,
        fixing: None,
        nodes,
        vectors,
    }))
}

// The vectors that are used, but for the one without prices.
fn used_vectors(alloc: Global, state: &State, used: u128) -> Result<VectorList, Memory> {
    let mut vectors = Vec::new(alloc);
    for (number, pricing) in (0..).zip(&state.pricings) {
        if is_listed(number, used) {
            vectors.push(vector_of(alloc, &pricing.vector)?)?;
        }
    }
    Ok(VectorList::new(vectors))
}

/// A copy of a vector.
pub(crate) fn vector_of(alloc: Global, vector: &Vector) -> Result<Vector, Memory> {
    Ok(Vector::new(Vec::from_slice(alloc, vector.items())?))
}

// Whether a vector is used, and is not the one without prices.
fn is_listed(number: u32, used: u128) -> bool {
    number > 0 && used & bit_of(number) != 0
}

// Lets leaves name their vectors by their numbers among those that are used.
fn renumber(alloc: Global, state: &State, nodes: &mut [Node], used: u128) -> Result<(), Memory> {
    let numbers = numbers_of(alloc, state.pricings.len(), used)?;
    for node in nodes.iter_mut() {
        *node = renamed(*node, &numbers);
    }
    Ok(())
}

// For each of so many vectors, how many up to it are used, but for the one without prices.
fn numbers_of(alloc: Global, count: usize, used: u128) -> Result<Vec<u32>, Memory> {
    let mut numbers = Vec::with_capacity(alloc, count)?;
    let mut last: u32 = 0;
    for (number, _) in (0..).zip(0..count) {
        if is_listed(number, used) {
            last = last.saturating_add(1);
        }
        numbers.push(last)?;
    }
    Ok(numbers)
}

// A node, where a leaf names its vector by one of these numbers.
fn renamed(node: Node, numbers: &[u32]) -> Node {
    match node {
        Node::Leaf {
            vector,
            scale,
            seen,
        } => Node::Leaf {
            vector: match numbers.get(vector as usize) {
                Some(number) => *number,
                None => u32::MAX,
            },
            scale,
            seen,
        },
        other => other,
    }
}
