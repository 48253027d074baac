//! The exact test of a tree: whether it is whole and each of its leaves is closed.

ghost use Rattle.std.specs.Prelude.{◌≡◌, ◌∷◌, ◌++◌, List, [], All, IsTrue, IfOk};
ghost use denote.Param.Send.{IsSync};
ghost use Rattle.choice_problem.specs.declared.nodes.Node.{Node};
ghost use Rattle.choice_problem.specs.Bounds.{AreRanges, IsVector, whole_of};
ghost use Rattle.choice_problem.specs.Trees.{AreSound, IsSound, IsWhole, NodeHolds};
ghost use Rattle.choice_problem.specs.Walks.{CanStand};
ghost use Rattle.price_table.specs.Tables.{IsTableFor, vectors_of};
ghost use Rattle.kept_bounds.specs.Kept.{AreKept, AreKeptFirst};

use choice_problem::{Node, Problem, RangeWalk, Ranges, Vector, VectorList, over_closes};
use kept_bounds::{KeptBounds, NamedBound, walked_bounds};
use price_table::{PriceTable, tables_of};
use slot_text::Memory;
use std::alloc::Global;
use std::thread;
use std::thread::Threads;

// Whether a node that is no split is closed on ranges, after these changes of ranges.
fn node_holds(
    alloc: Global,
    problem: &Problem,
    vectors: &VectorList,
    bounds: &mut KeptBounds,
    ranges: &Ranges,
    changes: &[u32],
    cost: Option<u64>,
    node: Node,
) -> Result<bool, Memory>
    requires vectors { All (IsVector problem.now) vectors.now }
    requires ranges { AreRanges problem.now ranges.now }
    requires bounds { AreKept problem.now vectors.now ranges.now changes.now bounds.old }
    ensures bounds { IfOk result
        (λ yes. AreKept problem.now vectors.now ranges.now changes.now bounds.new) }
    ensures holds { IfOk result (λ yes. IsTrue yes → CanStand ranges.now node →
        NodeHolds problem.now vectors.now cost ranges.now node) }
    ensures done { IfOk result (λ yes. IsTrue yes → (rest : List Node) → IsWhole rest →
        IsWhole (node ∷ rest)) }
{
    match node {
        Node::Split { .. } => Ok(true),
        Node::Leaf { vector, scale, .. } => {
            let named = NamedBound { vector, scale };
            bounds.leaf_holds(alloc, problem, vectors, ranges, changes, cost, named)
        }
        Node::Over { resource } => {
            Ok(resource < problem.resources() && over_closes(problem, ranges, resource))
        }
        Node::Undone => Ok(false),
    }
}

// Tests a node on the first ranges of a walk, and goes on by it.
fn passes(
    alloc: Global,
    problem: &Problem,
    vectors: &VectorList,
    walk: &mut RangeWalk,
    bounds: &mut KeptBounds,
    changes: &mut Vec<u32>,
    cost: Option<u64>,
    node: Node,
) -> Result<bool, Memory>
    requires vectors { All (IsVector problem.now) vectors.now }
    requires ranges { All (AreRanges problem.now) walk.old }
    requires bounds { AreKeptFirst problem.now vectors.now walk.old changes.old.items bounds.old }
    ensures ranges { IfOk result (λ yes. IsTrue yes → All (AreRanges problem.now) walk.new) }
    ensures bounds { IfOk result (λ yes. IsTrue yes →
        AreKeptFirst problem.now vectors.now walk.new changes.new.items bounds.new) }
    ensures sound { IfOk result (λ yes. IsTrue yes → (rest : List Node) →
        AreSound problem.now vectors.now cost walk.new rest →
        AreSound problem.now vectors.now cost walk.old (node ∷ rest)) }
    ensures whole { IfOk result (λ yes. IsTrue yes → (rest : List Node) → IsWhole rest →
        IsWhole (node ∷ rest)) }
{
    walked_bounds();
    if walk.is_done() {
        return Ok(false);
    }
    let ranges = walk.ranges();
    if !node_holds(alloc, problem, vectors, bounds, ranges, changes, cost, node)? {
        return Ok(false);
    }
    let goes_on = walk.advance(node, changes)?;
    Ok(goes_on)
}

/// Whether the nodes are one whole tree that is sound for the cost, or for none, with these
/// vectors. A leaf takes one step for each change of a range since a leaf last named its vector,
/// and one an alternative of each range that differs; the first leaf that names a vector, and one
/// that names another scale than the leaf before, takes one an alternative in range. The changes
/// are listed: 4 bytes for each range that a step of the walk changes, which over the whole tree is
/// three ranges a split.
pub(crate) fn is_proof(
    alloc: Global,
    problem: &Problem,
    vectors: &VectorList,
    bounds: KeptBounds,
    cost: Option<u64>,
    nodes: &[Node],
) -> Result<bool, Memory>
    requires vectors { All (IsVector problem.now) vectors.now }
    requires bounds { AreKept problem.now vectors.now (whole_of problem.now) [] bounds }
    ensures sound { IfOk result (λ yes. IsTrue yes →
        IsSound problem.now vectors.now cost (whole_of problem.now) nodes.now) }
    ensures whole { IfOk result (λ yes. IsTrue yes → IsWhole nodes.now) }
{
    let whole = Ranges::whole(alloc, problem)?;
    let mut walk = RangeWalk::new(alloc, whole);
    let mut kept = bounds;
    let mut changes = Vec::new(alloc);
    for node in nodes {
        let goes_on = passes(
            alloc,
            problem,
            vectors,
            &mut walk,
            &mut kept,
            &mut changes,
            cost,
            *node,
        )?;
        if !goes_on {
            return Ok(false);
        }
    }
    Ok(walk.is_done())
}

/// Whether each of these is a vector for the problem.
pub(crate) fn are_vectors(problem: &Problem, vectors: &[Vector]) -> bool
    ensures { IsTrue result → All (IsVector problem.now) vectors.now }
{
    for vector in vectors {
        if !vector.is_for(problem) {
            return false;
        }
    }
    true
}

/// The tables of vectors, on up to four threads.
pub(crate) fn leaf_tables<R: Threads + Sync>(
    rt: &R,
    alloc: Global,
    problem: &Problem,
    vectors: &[Vector],
    workers: u32,
) -> Result<Vec<PriceTable>, Memory>
    requires vectors { All (IsVector problem.now) vectors.now }
    ensures valid { IfOk result (λ tables. All (IsTableFor problem.now) tables.items) }
    ensures vectors { IfOk result (λ tables. vectors_of tables.items ≡ vectors.now) }
{
    match workers {
        0 | 1 => tables_of(alloc, problem, vectors),
        2 | 3 => tables_by_two(rt, alloc, problem, vectors),
        _ => tables_by_four(rt, alloc, problem, vectors),
    }
}

// The tables of vectors, on two threads.
fn tables_by_two<R: Threads + Sync>(
    rt: &R,
    alloc: Global,
    problem: &Problem,
    vectors: &[Vector],
) -> Result<Vec<PriceTable>, Memory>
    requires vectors { All (IsVector problem.now) vectors.now }
    ensures valid { IfOk result (λ tables. All (IsTableFor problem.now) tables.items) }
    ensures vectors { IfOk result (λ tables. vectors_of tables.items ≡ vectors.now) }
{
    let (front, back) = vectors.split_at(vectors.len() / 2);
    tables_of_both(rt, alloc, problem, front, back)
}

// The tables of vectors, on four threads.
fn tables_by_four<R: Threads + Sync>(
    rt: &R,
    alloc: Global,
    problem: &Problem,
    vectors: &[Vector],
) -> Result<Vec<PriceTable>, Memory>
    requires vectors { All (IsVector problem.now) vectors.now }
    ensures valid { IfOk result (λ tables. All (IsTableFor problem.now) tables.items) }
    ensures vectors { IfOk result (λ tables. vectors_of tables.items ≡ vectors.now) }
{
    let (front, back) = vectors.split_at(vectors.len() / 2);
    tables_of_four(rt, alloc, problem, front, back)
}

// The tables of some vectors and of others, on two threads.
fn tables_of_both<R: Threads + Sync>(
    rt: &R,
    alloc: Global,
    problem: &Problem,
    front: &[Vector],
    back: &[Vector],
) -> Result<Vec<PriceTable>, Memory>
    requires front { All (IsVector problem.now) front.now }
    requires back { All (IsVector problem.now) back.now }
    ensures valid { IfOk result (λ tables. All (IsTableFor problem.now) tables.items) }
    ensures vectors { IfOk result (λ tables. vectors_of tables.items ≡ front.now ++ back.now) }
{
    let (first, last) = thread::join(
        rt,
        || -> Result<Vec<PriceTable>, Memory>
            requires { All (IsVector problem.now) front.now }
            ensures valid { IfOk result
                (λ tables. All (IsTableFor problem.entry.now) tables.items) }
            ensures vectors { IfOk result (λ tables. vectors_of tables.items ≡ front.entry.now) }
        { tables_of(alloc, problem, front) },
        || -> Result<Vec<PriceTable>, Memory>
            requires { All (IsVector problem.now) back.now }
            ensures valid { IfOk result
                (λ tables. All (IsTableFor problem.entry.now) tables.items) }
            ensures vectors { IfOk result (λ tables. vectors_of tables.items ≡ back.entry.now) }
        { tables_of(alloc, problem, back) },
    );
    joined(problem, front, back, first?, last?)
}

// The tables of some vectors and of others, on four threads.
fn tables_of_four<R: Threads + Sync>(
    rt: &R,
    alloc: Global,
    problem: &Problem,
    front: &[Vector],
    back: &[Vector],
) -> Result<Vec<PriceTable>, Memory>
    requires front { All (IsVector problem.now) front.now }
    requires back { All (IsVector problem.now) back.now }
    ensures valid { IfOk result (λ tables. All (IsTableFor problem.now) tables.items) }
    ensures vectors { IfOk result (λ tables. vectors_of tables.items ≡ front.now ++ back.now) }
{
    let (first, last) = thread::join(
        rt,
        || -> Result<Vec<PriceTable>, Memory>
            requires { IsSync R.row × All (IsVector problem.now) front.now }
            ensures valid { IfOk result
                (λ tables. All (IsTableFor problem.entry.now) tables.items) }
            ensures vectors { IfOk result (λ tables. vectors_of tables.items ≡ front.entry.now) }
        { tables_by_two(rt, alloc, problem, front) },
        || -> Result<Vec<PriceTable>, Memory>
            requires { IsSync R.row × All (IsVector problem.now) back.now }
            ensures valid { IfOk result
                (λ tables. All (IsTableFor problem.entry.now) tables.items) }
            ensures vectors { IfOk result (λ tables. vectors_of tables.items ≡ back.entry.now) }
        { tables_by_two(rt, alloc, problem, back) },
    );
    joined(problem, front, back, first?, last?)
}

// The tables of some vectors and of others, one after another.
fn joined(
    _problem: &Problem,
    _front: &[Vector],
    _back: &[Vector],
    first: Vec<PriceTable>,
    last: Vec<PriceTable>,
) -> Result<Vec<PriceTable>, Memory>
    requires first { All (IsTableFor _problem.now) first.items }
    requires last { All (IsTableFor _problem.now) last.items }
    requires front { vectors_of first.items ≡ _front.now }
    requires back { vectors_of last.items ≡ _back.now }
    ensures valid { IfOk result (λ tables. All (IsTableFor _problem.now) tables.items) }
    ensures vectors { IfOk result (λ tables. vectors_of tables.items ≡ _front.now ++ _back.now) }
{
    let mut tables = first;
    let mut rest = last;
    tables.append(&mut rest)?;
    Ok(tables)
}
