//! A walk over the nodes of a search tree, with the ranges of alternatives in place.

ghost use Rattle.std.specs.Prelude.{◌≡◌, ◌↔◌, ◌<◌, ◌≤◌, ◌∷◌, ◌++◌, [], ℕ, List, length, take, reverse, slice_set, IsTrue, IsSome, IfOk, IfSome, OnOk};
ghost use Rattle.choice_problem.specs.Bounds.{low_of, high_of};
ghost use Rattle.choice_problem.specs.Grafts.{open_ranges};
ghost use Rattle.choice_problem.specs.Loops.{opened};
ghost use Rattle.choice_problem.specs.Trees.{CanSplit, low_part, high_part, parts_of};
ghost use Rattle.choice_problem.specs.Walks.{CanStand, AreWalkable, AreFrames, AreChanges, pending_of, walk_of};

use crate::nodes::Node;
use crate::spans::Ranges;
use slot_text::Memory;
use std::alloc::Global;
use std::marker::Model;

// A split above the walk: the unit's range before it, the cut, and whether the walk is in the high
// part.
#[derive(Clone, Copy, Debug, PartialEq, Eq)]
pub(crate) struct Frame {
    pub(crate) unit: u32,
    pub(crate) low: u32,
    pub(crate) high: u32,
    pub(crate) cut: u32,
    pub(crate) in_high: bool,
}

/// A walk over the nodes of trees in preorder, which keeps the ranges of the next node: a node in
/// the low part of a split has ranges up to the cut, one in the high part ranges from the cut on.
/// Contracts see the list of ranges that trees are still to come for, those of the next node first.
/// It keeps one copy of the ranges and 20 bytes a split that is open, and does not recurse.
#[derive(Drop)]
pub struct RangeWalk {
    ranges: Ranges,
    frames: Vec<Frame>,
    is_on: bool,
}

impl Model for RangeWalk {
    ghost use Rattle.std.specs.Prelude.{List, ℕ, reverse, length};
    ghost use Rattle.choice_problem.specs.Walks.{walk_of, AreFrames};

    ghost Value = { List (List (ℕ × ℕ)) };

    ghost view = { λ w. walk_of w.is_on w.ranges (reverse w.frames.items) };

    ghost invariant = { λ w. AreFrames (length w.ranges) w.frames.items };
}

impl RangeWalk {
    ghost use Rattle.std.specs.Prelude.{◌≡◌, ◌↔◌, ◌<◌, ◌∷◌, [], ℕ, length, drop, All, IsTrue, IfOk};
    ghost use Rattle.choice_problem.specs.Problems.{ProblemView};
    ghost use Rattle.choice_problem.specs.Bounds.{AreRanges};
    ghost use Rattle.choice_problem.specs.Walks.{IsStep, CanStep, ChangesFirst};

    /// The walk over one tree on these ranges, before its first node.
    pub fn new(alloc: Global, ranges: Ranges) -> RangeWalk
        ensures { result ≡ ranges ∷ [] }
    {
        RangeWalk {
            ranges,
            frames: Vec::new(alloc),
            is_on: true,
        }
    }

    /// Whether the tree is at its end, so that no node may follow.
    pub fn is_done(&self) -> bool
        ensures { IsTrue result ↔ (self.now ≡ []) }
    {
        !self.is_on
    }

    /// The ranges of the next node. The tree is not at its end.
    pub fn ranges(&self) -> &Ranges
        requires { 0 < length self.now }
        ensures { self.now ≡ result.now ∷ drop 1 self.now }
    {
        &self.ranges
    }

    /// Goes on by a node: after a split to its low part, after another node to the high part of the
    /// last split in whose low part the walk was, or to the end. It answers false, and stays, where
    /// the tree is at its end or a split is not possible. The list gets the units whose ranges the
    /// step changed: after a split its unit, otherwise one unit for each split that the step leaves
    /// or whose high part it enters. A unit may come more than once, and where the answer is false
    /// none is added. A step costs what it changes: one range and 4 bytes of the list a split that
    /// it enters or leaves, which over a whole tree is three ranges a split. After want of memory
    /// nothing is said of where the walk stands or of the list.
    pub fn advance(&mut self, node: Node, changed: &mut Vec<u32>) -> Result<bool, Memory>
        ensures step { IfOk result (λ yes. IsTrue yes → IsStep self.old node self.new) }
        ensures stop { IfOk result (λ yes. CanStep self.old node → IsTrue yes) }
        ensures same { IfOk result (λ yes. (IsTrue yes → ⊥) → self.new ≡ self.old) }
        ensures valid { IfOk result (λ yes. (p : ProblemView) →
            All (AreRanges p) self.old → All (AreRanges p) self.new) }
        ensures changed { IfOk result (λ yes. IsTrue yes →
            ChangesFirst self.old self.new changed.old.items changed.new.items) }
        ensures none { IfOk result (λ yes. (IsTrue yes → ⊥) →
            changed.new.items ≡ changed.old.items) }
    {
        if !self.is_on || !can_stand(&self.ranges, node) {
            return Ok(false);
        }
        self.is_on = go_on(&mut self.ranges, &mut self.frames, node, changed)?;
        Ok(true)
    }
}

// Whether a node may stand on ranges.
fn can_stand(ranges: &Ranges, node: Node) -> bool
    ensures { IsTrue result ↔ CanStand ranges.now node }
{
    match node {
        Node::Split { unit, cut, .. } => can_split(ranges, unit, cut),
        _ => true,
    }
}

// Whether both sides of a cut have an alternative.
fn can_split(ranges: &Ranges, unit: u32, cut: u32) -> bool
    ensures { IsTrue result ↔ CanSplit ranges.now unit cut }
{
    (unit as usize) < ranges.len() && ranges.low(unit) < cut && cut <= ranges.high(unit)
}

// Goes below a split, or on to the ranges after another node; whether there are any.
fn go_on(
    ranges: &mut Ranges,
    frames: &mut Vec<Frame>,
    node: Node,
    changed: &mut Vec<u32>,
) -> Result<bool, Memory>
    requires frames { AreFrames (length ranges.old) frames.old.items }
    requires stands { CanStand ranges.old node }
    ensures length { length ranges.new ≡ length ranges.old }
    ensures frames { AreFrames (length ranges.new) frames.new.items }
    ensures walk { IfOk result (λ on. walk_of on ranges.new (reverse frames.new.items) ≡
        parts_of ranges.old node ++ pending_of ranges.old (reverse frames.old.items)) }
    ensures changed { OnOk result (AreChanges ranges.old ranges.new
        changed.old.items changed.new.items) }
{
    match node {
        Node::Split { unit, cut, .. } => go_down(ranges, frames, unit, cut, changed),
        _ => go_up(ranges, frames, changed),
    }
}

// Goes into the low part of a split.
fn go_down(
    ranges: &mut Ranges,
    frames: &mut Vec<Frame>,
    unit: u32,
    cut: u32,
    changed: &mut Vec<u32>,
) -> Result<bool, Memory>
    requires frames { AreFrames (length ranges.old) frames.old.items }
    requires split { CanSplit ranges.old unit cut }
    ensures length { length ranges.new ≡ length ranges.old }
    ensures frames { AreFrames (length ranges.new) frames.new.items }
    ensures walk { IfOk result (λ on. walk_of on ranges.new (reverse frames.new.items) ≡
        low_part ranges.old unit cut ∷ high_part ranges.old unit cut
        ∷ pending_of ranges.old (reverse frames.old.items)) }
    ensures changed { OnOk result (AreChanges ranges.old ranges.new
        changed.old.items changed.new.items) }
{
    let low = ranges.low(unit);
    let high = ranges.high(unit);
    frames.push(Frame {
        unit,
        low,
        high,
        cut,
        in_high: false,
    })?;
    change(ranges, changed, unit, (low, cut - 1))?;
    Ok(true)
}

// Goes up to the last split in whose low part the walk was, and into its high part; whether there
// is one.
fn go_up(
    ranges: &mut Ranges,
    frames: &mut Vec<Frame>,
    changed: &mut Vec<u32>,
) -> Result<bool, Memory>
    requires frames { AreFrames (length ranges.old) frames.old.items }
    ensures length { length ranges.new ≡ length ranges.old }
    ensures frames { AreFrames (length ranges.new) frames.new.items }
    ensures walk { IfOk result (λ on. walk_of on ranges.new (reverse frames.new.items) ≡
        pending_of ranges.old (reverse frames.old.items)) }
    ensures changed { OnOk result (AreChanges ranges.old ranges.new
        changed.old.items changed.new.items) }
{
    while let Some(frame) = frames.pop() {
        if !frame.in_high {
            change(ranges, changed, frame.unit, (frame.cut, frame.high))?;
            frames.push(Frame {
                in_high: true,
                ..frame
            })?;
            return Ok(true);
        }
        change(ranges, changed, frame.unit, (frame.low, frame.high))?;
    }
    Ok(false)
}

// Replaces the range of a unit, and adds the unit to the list.
fn change(
    ranges: &mut Ranges,
    changed: &mut Vec<u32>,
    unit: u32,
    range: (u32, u32),
) -> Result<(), Memory>
    requires { unit < length ranges.old }
    ensures value { ranges.new ≡ slice_set ranges.old unit range }
    ensures added { OnOk result (changed.new.items ≡ changed.old.items ++ (unit ∷ [])) }
{
    ranges.set(unit, range.0, range.1);
    changed.push(unit)?;
    Ok(())
}

/// The ranges of the first undone nodes of a tree on these ranges, at most so many, in preorder;
/// None exactly where the nodes are not one tree there with possible splits. One step a node and
/// what the walk changes, and a copy of the ranges for each undone node that is asked for.
pub fn open_pieces(
    alloc: Global,
    ranges: Ranges,
    tree: &[Node],
    most: usize,
) -> Result<Option<Vec<Ranges>>, Memory>
    ensures tree { IfOk result (λ found. IsSome found ↔ AreWalkable (ranges ∷ []) tree.now) }
    ensures pieces { IfOk result (λ found. IfSome found (λ pieces.
        pieces.items ≡ take most (open_ranges (ranges ∷ []) tree.now))) }
{
    let mut walk = RangeWalk::new(alloc, ranges);
    let mut pieces = Vec::new(alloc);
    let mut changed = Vec::new(alloc);
    for node in tree {
        keep_piece(alloc, &walk, *node, most, &mut pieces)?;
        changed.clear();
        let goes_on = walk.advance(*node, &mut changed)?;
        if !goes_on {
            return Ok(None);
        }
    }
    if walk.is_done() {
        Ok(Some(pieces))
    } else {
        Ok(None)
    }
}

// Keeps the ranges of an undone node, where fewer are kept than asked for.
fn keep_piece(
    alloc: Global,
    walk: &RangeWalk,
    node: Node,
    most: usize,
    pieces: &mut Vec<Ranges>,
) -> Result<(), Memory>
    requires { length pieces.old.items ≤ most }
    ensures few { OnOk result (length pieces.new.items ≤ most) }
    ensures kept { OnOk result ((rest : List (List (ℕ × ℕ))) → take most (pieces.new.items ++ rest)
        ≡ take most (pieces.old.items ++ (opened walk.now node ++ rest))) }
{
    match node {
        Node::Undone => keep_ranges(alloc, walk, most, pieces),
        _ => Ok(()),
    }
}

// Keeps the ranges of the next node, where there is one and fewer are kept than asked for.
fn keep_ranges(
    alloc: Global,
    walk: &RangeWalk,
    most: usize,
    pieces: &mut Vec<Ranges>,
) -> Result<(), Memory>
    requires { length pieces.old.items ≤ most }
    ensures few { OnOk result (length pieces.new.items ≤ most) }
    ensures kept { OnOk result ((rest : List (List (ℕ × ℕ))) → take most (pieces.new.items ++ rest)
        ≡ take most (pieces.old.items ++ (take 1 walk.now ++ rest))) }
{
    if walk.is_done() {
        return Ok(());
    }
    if pieces.len() == most {
        return Ok(());
    }
    pieces.push(walk.ranges().copy(alloc)?)?;
    Ok(())
}
