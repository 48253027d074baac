//! The tree of ranges that a grown tree stands for.

use crate::entries::{Entry, has_open};
use crate::fewer::with_fewer;
use crate::rules::Rule;
use crate::sides::Sides;
use crate::spans::Spans;
use crate::states::{State, Task};
use choice_problem::Node;
use slot_text::Memory;
use std::alloc::Global;

// A part of the tree that is to be made: an entry of the grown tree, the ranges, and their bounds
// at the vectors.
#[derive(Drop)]
struct Piece {
    entry: u32,
    spans: Spans,
    values: Vec<i64>,
}

/// The nodes, in preorder, of a tree of ranges whose leaves the vectors close, at most so many, and
/// the vectors that the leaves name, as bits; none where an entry is open or so many nodes do not
/// suffice. A split by uses becomes at most as many splits of ranges as the alternatives of its two
/// parts take turns there, and what follows it stands in each of these ranges.
pub(crate) fn nodes_of(
    alloc: Global,
    task: &Task<'_>,
    state: &State,
    most: u32,
) -> Result<Option<(Vec<Node>, u128)>, Memory> {
    if has_open(&state.entries) {
        return Ok(None);
    }
    let mut nodes = Vec::new(alloc);
    let mut closing = Vec::new(alloc);
    if !make_all(alloc, task, state, most, &mut nodes, &mut closing)? {
        return Ok(None);
    }
    let used = cover(state, &mut nodes, &mut closing);
    Ok(Some(with_fewer(alloc, task, state, most, (nodes, used))?))
}

// Makes the nodes, at most so many, and for each the vectors that close it, as bits. Answers
// whether these are all.
fn make_all(
    alloc: Global,
    task: &Task<'_>,
    state: &State,
    most: u32,
    nodes: &mut Vec<Node>,
    closing: &mut Vec<u128>,
) -> Result<bool, Memory> {
    let closers = closers_of(alloc, state)?;
    let mut pieces = Vec::new(alloc);
    pieces.push(whole(alloc, task, state)?)?;
    for _ in 0..most {
        if pieces.is_empty() {
            break;
        }
        match make_next(alloc, task, state, &closers, &mut pieces, closing)? {
            Some(node) => nodes.push(node)?,
            None => return Ok(false),
        }
    }
    Ok(pieces.is_empty())
}

// The node of the last piece, if there is one, and the vectors that close it.
fn make_next(
    alloc: Global,
    task: &Task<'_>,
    state: &State,
    closers: &[u128],
    pieces: &mut Vec<Piece>,
    closing: &mut Vec<u128>,
) -> Result<Option<Node>, Memory> {
    let Some(mut piece) = pieces.pop() else {
        return Ok(None);
    };
    closing.push(piece.closing(state))?;
    make(alloc, task, state, closers, &mut piece, pieces)
}

// Lets few vectors close the leaves: in turn the one that closes most of those which none closes
// yet. Answers them as bits.
fn cover(state: &State, nodes: &mut [Node], closing: &mut [u128]) -> u128 {
    let mut used = 0;
    for _ in 0..state.pricings.len() {
        let Some(vector) = most_closing(closing) else {
            break;
        };
        used |= bit_of(vector);
        close_leaves(state, nodes, closing, vector);
    }
    used
}

// The vector that closes most pieces, the lowest of several; none where none closes any.
fn most_closing(closing: &[u128]) -> Option<u32> {
    let mut found = None;
    let mut most: u32 = 0;
    for vector in 0..128 {
        let count = closed_by(closing, vector);
        if count > most {
            most = count;
            found = Some(vector);
        }
    }
    found
}

// How many pieces a vector closes.
fn closed_by(closing: &[u128], vector: u32) -> u32 {
    let mut count: u32 = 0;
    for bits in closing {
        if *bits & bit_of(vector) != 0 {
            count = count.saturating_add(1);
        }
    }
    count
}

// Lets the leaves that a vector closes name it, of those that are in the list still, and takes them
// out of it.
fn close_leaves(state: &State, nodes: &mut [Node], closing: &mut [u128], vector: u32) {
    for (node, bits) in nodes.iter_mut().zip(closing.iter_mut()) {
        if *bits & bit_of(vector) != 0 {
            *bits = 0;
            *node = leaf_by(state, vector);
        }
    }
}

/// A leaf that a vector closes.
pub(crate) fn leaf_by(state: &State, vector: u32) -> Node {
    Node::Leaf {
        vector,
        scale: match state.pricings.get(vector as usize) {
            Some(pricing) => u64::from(pricing.scale),
            None => 0,
        },
        seen: state.cost,
    }
}

// The first entry on all alternatives.
fn whole(alloc: Global, task: &Task<'_>, state: &State) -> Result<Piece, Memory> {
    let spans = Spans::whole(alloc, task.problem)?;
    let mut values = Vec::with_capacity(alloc, state.pricings.len())?;
    for pricing in &state.pricings {
        values.push(pricing.range_value(task.problem, task.reduced, &spans))?;
    }
    Ok(Piece {
        entry: 0,
        spans,
        values,
    })
}

// The node of a piece, if there is one: a leaf, where a vector closes it; or a split, whose parts
// become pieces.
fn make(
    alloc: Global,
    task: &Task<'_>,
    state: &State,
    closers: &[u128],
    piece: &mut Piece,
    pieces: &mut Vec<Piece>,
) -> Result<Option<Node>, Memory> {
    if piece.closing(state) != 0 {
        return Ok(Some(leaf_by(state, 0)));
    }
    let Some((unit, cut)) = piece.settle(alloc, task, state, closers)? else {
        return Ok(None);
    };
    push_halves(alloc, task, state, piece, unit, cut, pieces)?;
    Ok(Some(Node::Split {
        unit,
        cut,
        seen: state.cost,
    }))
}

// Adds the two parts of a piece, where a unit's range is cut, the low one last.
fn push_halves(
    alloc: Global,
    task: &Task<'_>,
    state: &State,
    piece: &Piece,
    unit: u32,
    cut: u32,
    pieces: &mut Vec<Piece>,
) -> Result<(), Memory> {
    let (low, high) = piece.spans.of(unit);
    let mut below = piece.with_range(alloc, unit, (low, cut.saturating_sub(1)))?;
    let mut above = piece.with_range(alloc, unit, (cut, high))?;
    push_values(task, state, piece, unit, &mut below, &mut above)?;
    pieces.push(above)?;
    pieces.push(below)?;
    Ok(())
}

// Adds the bounds of the two parts of a piece, where a unit's range is cut.
fn push_values(
    task: &Task<'_>,
    state: &State,
    piece: &Piece,
    unit: u32,
    below: &mut Piece,
    above: &mut Piece,
) -> Result<(), Memory> {
    let (low, high) = (below.spans.of(unit), above.spans.of(unit));
    for (pricing, value) in state.pricings.iter().zip(&piece.values) {
        let one = pricing.least_within(task.problem, task.reduced, unit, low);
        let other = pricing.least_within(task.problem, task.reduced, unit, high);
        let least = one.min(other);
        let value_below = value.saturating_add(one.saturating_sub(least));
        let value_above = value.saturating_add(other.saturating_sub(least));
        below.values.push(value_below)?;
        above.values.push(value_above)?;
    }
    Ok(())
}

// For each entry the vectors that close entries below it, as bits.
fn closers_of(alloc: Global, state: &State) -> Result<Vec<u128>, Memory> {
    let mut closers = vec![in alloc; 0; state.entries.len()]?;
    for back in 0..state.entries.len() {
        let place = state.entries.len() - 1 - back;
        let bits = match state.entries.get(place) {
            Some(Entry::Closed(vector)) => bit_of(*vector),
            Some(Entry::Split { low, high, .. }) => {
                closers_at(&closers, *low) | closers_at(&closers, *high)
            }
            _ => 0,
        };
        if let Some(slot) = closers.get_mut(place) {
            *slot = bits;
        }
    }
    Ok(closers)
}

// The vectors that close entries below one.
fn closers_at(closers: &[u128], entry: u32) -> u128 {
    match closers.get(entry as usize) {
        Some(bits) => *bits,
        None => 0,
    }
}

/// The bit of a vector.
pub(crate) fn bit_of(vector: u32) -> u128 {
    if vector < 128 { 1 << vector } else { 0 }
}

impl Piece {
    // The vectors that close the piece, as bits.
    fn closing(&self, state: &State) -> u128 {
        let mut bits = 0;
        for (number, (pricing, value)) in (0..).zip(state.pricings.iter().zip(&self.values)) {
            if pricing.closes(*value, state.cost) {
                bits |= bit_of(number);
            }
        }
        bits
    }

    // The piece with another range of a unit, and no bounds yet.
    fn with_range(&self, alloc: Global, unit: u32, span: (u32, u32)) -> Result<Piece, Memory> {
        let mut spans = self.spans.copy(alloc)?;
        spans.set(unit, span);
        Ok(Piece {
            entry: self.entry,
            spans,
            values: Vec::with_capacity(alloc, self.values.len())?,
        })
    }

    // Where the piece is split: its entry goes on past splits that leave its ranges whole.
    fn settle(
        &mut self,
        alloc: Global,
        task: &Task<'_>,
        state: &State,
        closers: &[u128],
    ) -> Result<Option<(u32, u32)>, Memory> {
        for _ in 0..state.entries.len() {
            let Some(
                Entry::Split {
                    unit,
                    rule,
                    low,
                    high,
                },
            ) = state.entries.get(self.entry as usize)
            else {
                return Ok(None);
            };
            let needed = (closers_at(closers, *low), closers_at(closers, *high));
            let (cut, is_low) = self.turn(alloc, task, state, *unit, *rule, needed)?;
            if let Some(cut) = cut {
                return Ok(Some((*unit, cut)));
            }
            self.entry = if is_low { *low } else { *high };
        }
        Ok(None)
    }

    // Where a split by a rule, with the vectors that are needed in its two parts, changes the
    // part, if it does; and whether else the piece goes on in the low part.
    fn turn(
        &self,
        alloc: Global,
        task: &Task<'_>,
        state: &State,
        unit: u32,
        rule: Rule,
        needed: (u128, u128),
    ) -> Result<(Option<u32>, bool), Memory> {
        let mut sides = Sides::of(alloc, task, unit, rule, self.spans.of(unit))?;
        self.test(task, state, needed, &mut sides);
        Ok(sides.turn())
    }

    // Takes the vectors that are needed into sides.
    fn test(&self, task: &Task<'_>, state: &State, needed: (u128, u128), sides: &mut Sides) {
        let (below, above) = needed;
        for (number, (pricing, value)) in (0..).zip(state.pricings.iter().zip(&self.values)) {
            let bit = bit_of(number);
            if (below | above) & bit != 0 {
                let needs = (below & bit != 0, above & bit != 0);
                sides.test(task, pricing, *value, state.cost, needs);
            }
        }
    }
}
