//! Fewer vectors for a tree of ranges: a leaf of a vector that few leaves name is split further, by
//! what other vectors close, until one of them closes the rest.

use crate::costs::{Costs, least_of};
use crate::pieces::{bit_of, leaf_by};
use crate::spans::Spans;
use crate::states::{State, Task};
use choice_problem::Node;
use slot_text::Memory;
use std::alloc::Global;

// How many vectors leaves may name, so that there is room for that of a fixing.
const ROOM: u32 = 63;

// How many parts may be cut off a leaf.
const MOST_PARTS: u32 = 64;

// A part is cut off where the bound of the rest at one of so many vectors is greater, those that
// lack least of closing it.
const NEAREST: usize = 8;

// A length that no run has.
const NO_LENGTH: u32 = u32::MAX;

// A problem, what is known of its tree, and the priced costs at the vectors of that.
#[derive(Clone, Copy)]
struct Priced<'a> {
    task: &'a Task<'a>,
    state: &'a State,
    costs: &'a Costs,
}

/// The nodes of a tree, at most so many, and the vectors that its leaves name, as bits: where there
/// is no room for these, without some, as far as others close the parts of their leaves.
pub(crate) fn with_fewer(
    alloc: Global,
    task: &Task<'_>,
    state: &State,
    most: u32,
    tree: (Vec<Node>, u128),
) -> Result<(Vec<Node>, u128), Memory> {
    if has_room(tree.1) {
        return Ok(tree);
    }
    let costs = Costs::of(alloc, task, &state.pricings)?;
    let priced = Priced {
        task,
        state,
        costs: &costs,
    };
    spared(alloc, priced, most, tree)
}

// Whether there is room for vectors.
fn has_room(used: u128) -> bool {
    count_of(used) <= ROOM
}

// How many vectors are used, but for the one without prices.
fn count_of(used: u128) -> u32 {
    let mut count: u32 = 0;
    for vector in 1..128 {
        if used & bit_of(vector) != 0 {
            count = count.saturating_add(1);
        }
    }
    count
}

// Spares vectors, those that the fewest leaves name first, until there is room for the others, or
// too few are left to be tried. There may be so many nodes.
fn spared(
    alloc: Global,
    priced: Priced<'_>,
    most: u32,
    tree: (Vec<Node>, u128),
) -> Result<(Vec<Node>, u128), Memory> {
    let (mut nodes, mut used) = tree;
    let mut left = used;
    for _ in 0..128 {
        if has_room(used) || count_of(used).saturating_sub(ROOM) > count_of(left) {
            break;
        }
        let Some(vector) = least_named(&nodes, left) else {
            break;
        };
        left = without_bit(left, vector);
        let others = without_bit(used, vector);
        let found = without(alloc, priced, most, &nodes, vector, others)?;
        if let Some(fewer) = found {
            nodes = fewer;
            used = others;
        }
    }
    Ok((nodes, used))
}

// Bits without that of a vector.
fn without_bit(bits: u128, vector: u32) -> u128 {
    if bits & bit_of(vector) != 0 {
        bits ^ bit_of(vector)
    } else {
        bits
    }
}

// Of these vectors, but for the one without prices, the one that the fewest leaves name.
fn least_named(nodes: &[Node], vectors: u128) -> Option<u32> {
    let counts = leaves_of(nodes);
    let mut found = None;
    let mut least = u32::MAX;
    for (vector, count) in (0..).zip(&counts) {
        if vector > 0 && vectors & bit_of(vector) != 0 && *count < least {
            found = Some(vector);
            least = *count;
        }
    }
    found
}

// How many leaves name each vector.
fn leaves_of(nodes: &[Node]) -> [u32; 128] {
    let mut counts = [0; 128];
    for node in nodes {
        if let Node::Leaf { vector, .. } = node {
            if let Some(count) = counts.get_mut(*vector as usize) {
                *count = u32::saturating_add(*count, 1);
            }
        }
    }
    counts
}

// The nodes, at most so many, with each leaf of a vector split into parts that others close; none
// where that cannot be.
fn without(
    alloc: Global,
    priced: Priced<'_>,
    most: u32,
    nodes: &[Node],
    vector: u32,
    others: u128,
) -> Result<Option<Vec<Node>>, Memory> {
    let closers = numbers_of(alloc, others)?;
    let mut waiting = Vec::new(alloc);
    waiting.push(Spans::whole(alloc, priced.task.problem)?)?;
    let mut made = Vec::new(alloc);
    for node in nodes {
        let Some(spans) = waiting.pop() else {
            return Ok(None);
        };
        if is_leaf_of(node, vector) {
            let rest = Remainder::of(alloc, priced, &closers, spans)?;
            if !rest.split_up(alloc, priced, &mut made)? {
                return Ok(None);
            }
        } else {
            made.push(*node)?;
            push_ranges(alloc, node, spans, &mut waiting)?;
        }
        if made.len() > most as usize {
            return Ok(None);
        }
    }
    Ok(Some(made))
}

// The numbers of vectors.
fn numbers_of(alloc: Global, vectors: u128) -> Result<Vec<u32>, Memory> {
    let mut numbers = Vec::new(alloc);
    for vector in 0..128 {
        if vectors & bit_of(vector) != 0 {
            numbers.push(vector)?;
        }
    }
    Ok(numbers)
}

// Whether a node is a leaf of a vector.
fn is_leaf_of(node: &Node, vector: u32) -> bool {
    match node {
        Node::Leaf { vector: named, .. } => *named == vector,
        _ => false,
    }
}

// Adds the ranges of the two parts of a node with these ranges, if it is split, the low one last.
fn push_ranges(
    alloc: Global,
    node: &Node,
    spans: Spans,
    waiting: &mut Vec<Spans>,
) -> Result<(), Memory> {
    let Node::Split { unit, cut, .. } = node else {
        return Ok(());
    };
    let (low, high) = spans.of(*unit);
    let mut above = spans.copy(alloc)?;
    above.set(*unit, (*cut, high));
    let mut below = spans;
    below.set(*unit, (low, cut.saturating_sub(1)));
    waiting.push(above)?;
    waiting.push(below)?;
    Ok(())
}

// What is left of a leaf: its ranges; the vectors that may close it, and how much its bound at each
// lacks of closing it; for each unit the least priced cost in its range at each vector; and the
// unit that is looked at.
#[derive(Drop)]
struct Remainder<'a> {
    spans: Spans,
    closers: &'a [u32],
    lacks: Vec<i64>,
    leasts: Vec<i64>,
    unit: u32,
}

// Alternatives at an end of a unit's range that a vector closes: how many, and whether they are
// the lowest ones.
#[derive(Clone, Copy)]
struct Run {
    vector: u32,
    length: u32,
    is_low: bool,
}

impl Run {
    // Where it cuts a range.
    fn cut(self, span: (u32, u32)) -> u32 {
        if self.is_low {
            span.0.saturating_add(self.length)
        } else {
            span.1.saturating_add(1).saturating_sub(self.length)
        }
    }

    // The rest of a range.
    fn rest(self, span: (u32, u32)) -> (u32, u32) {
        if self.is_low {
            (self.cut(span), span.1)
        } else {
            (span.0, self.cut(span).saturating_sub(1))
        }
    }
}

impl<'a> Remainder<'a> {
    // All of a leaf.
    fn of(
        alloc: Global,
        priced: Priced<'_>,
        closers: &'a [u32],
        spans: Spans,
    ) -> Result<Remainder<'a>, Memory> {
        let units = priced.task.problem.units();
        let costs = closers.len().saturating_mul(units as usize);
        let mut rest = Remainder {
            spans,
            closers,
            lacks: lacks_of(alloc, priced.state, closers)?,
            leasts: Vec::with_capacity(alloc, costs)?,
            unit: 0,
        };
        for unit in 0..units {
            rest.unit = unit;
            rest.add_leasts(priced)?;
        }
        rest.unit = 0;
        Ok(rest)
    }

    // Adds the least costs in the unit's range.
    fn add_leasts(&mut self, priced: Priced<'_>) -> Result<(), Memory> {
        for place in 0..self.closers.len() {
            let least = least_of(self.costs(priced, place));
            self.leasts.push(least)?;
            self.shorten(place, least);
        }
        Ok(())
    }

    // Takes so much off what the bound at the vector of a place lacks.
    fn shorten(&mut self, place: usize, more: i64) {
        if let Some(lack) = self.lacks.get_mut(place) {
            *lack = lack.saturating_sub(more);
        }
    }

    // Cuts off runs of units in turn, until a vector closes the rest. Adds the nodes of this, and
    // answers whether it came to that.
    fn split_up(
        self,
        alloc: Global,
        priced: Priced<'_>,
        made: &mut Vec<Node>,
    ) -> Result<bool, Memory> {
        let mut rest = self;
        let mut behind = Vec::new(alloc);
        for _ in 0..MOST_PARTS {
            let nearest = rest.nearest(alloc)?;
            if let Some(vector) = rest.closer(&nearest) {
                made.push(leaf_by(priced.state, vector))?;
                push_back(&behind, made)?;
                return Ok(true);
            }
            let Some(run) = rest.next_run(priced, &nearest) else {
                return Ok(false);
            };
            rest.cut_off(priced, run, made, &mut behind)?;
        }
        Ok(false)
    }

    // What the bounds lack that lack least, and the places of their vectors: the least first.
    fn nearest(&self, alloc: Global) -> Result<Vec<(i64, usize)>, Memory> {
        let mut lacks = Vec::with_capacity(alloc, self.lacks.len())?;
        for (place, lack) in (0..).zip(&self.lacks) {
            lacks.push((*lack, place))?;
        }
        lacks.sort_unstable_by_key(|lack| *lack);
        lacks.truncate(NEAREST);
        Ok(lacks)
    }

    // The first of the nearest vectors, if it closes what is left.
    fn closer(&self, nearest: &[(i64, usize)]) -> Option<u32> {
        match nearest.get(0) {
            Some((lack, place)) if *lack <= 0 => match self.closers.get(*place) {
                Some(vector) => Some(*vector),
                None => None,
            },
            _ => None,
        }
    }

    // The run of the next unit that has a useful one, if there is one.
    fn next_run(&mut self, priced: Priced<'_>, nearest: &[(i64, usize)]) -> Option<Run> {
        let units = priced.task.problem.units();
        for _ in 0..units {
            let found = self.useful_run(priced, nearest);
            if found.is_some() {
                return found;
            }
            let next = self.unit.saturating_add(1);
            self.unit = if next < units { next } else { 0 };
        }
        None
    }

    // The longest run at the low end of the unit, or at the high one, without which the bound at
    // one of these vectors is greater.
    fn useful_run(&self, priced: Priced<'_>, nearest: &[(i64, usize)]) -> Option<Run> {
        for is_low in [true, false] {
            let needed = self.useful_length(priced, nearest, is_low);
            if needed < NO_LENGTH {
                let run = self.longest_run(priced, needed, is_low);
                if run.is_some() {
                    return run;
                }
            }
        }
        None
    }

    // How long a run at an end of the unit must be at least, so that the bound at one of these
    // vectors is greater without it: it has all alternatives of the least cost there.
    fn useful_length(&self, priced: Priced<'_>, nearest: &[(i64, usize)], is_low: bool) -> u32 {
        let mut needed = NO_LENGTH;
        for (_, place) in nearest {
            let costs = self.costs(priced, *place);
            needed = needed.min(reach_of(costs, self.least(*place), is_low));
        }
        needed
    }

    // The longest run at an end of the unit that a vector closes, if one has so many alternatives.
    fn longest_run(&self, priced: Priced<'_>, needed: u32, is_low: bool) -> Option<Run> {
        let mut found = None;
        let mut longest = needed.saturating_sub(1);
        for (place, vector) in (0..).zip(self.closers) {
            let closed = self.least(place).saturating_add(self.lack(place));
            let length = run_of(self.costs(priced, place), closed, is_low);
            if length > longest {
                longest = length;
                found = Some(Run {
                    vector: *vector,
                    length,
                    is_low,
                });
            }
        }
        found
    }

    // The costs in the unit's range at the vector of a place.
    fn costs<'b>(&self, priced: Priced<'b>, place: usize) -> &'b [i64] {
        match self.closers.get(place) {
            Some(vector) => priced
                .costs
                .within(*vector, self.unit, self.spans.of(self.unit)),
            None => &[],
        }
    }

    // What the bound at the vector of a place lacks.
    fn lack(&self, place: usize) -> i64 {
        match self.lacks.get(place) {
            Some(lack) => *lack,
            None => i64::MAX,
        }
    }

    // The least cost in the unit's range at the vector of a place.
    fn least(&self, place: usize) -> i64 {
        match self.leasts.get(self.least_place(place)) {
            Some(least) => *least,
            None => i64::MAX,
        }
    }

    // Where that stands.
    fn least_place(&self, place: usize) -> usize {
        let first = self.closers.len().saturating_mul(self.unit as usize);
        first.saturating_add(place)
    }

    // Cuts a run of the unit off: adds the split and the leaf, or keeps that for behind the rest.
    fn cut_off(
        &mut self,
        priced: Priced<'_>,
        run: Run,
        made: &mut Vec<Node>,
        behind: &mut Vec<Node>,
    ) -> Result<(), Memory> {
        let span = self.spans.of(self.unit);
        made.push(Node::Split {
            unit: self.unit,
            cut: run.cut(span),
            seen: priced.state.cost,
        })?;
        let leaf = leaf_by(priced.state, run.vector);
        if run.is_low {
            made.push(leaf)?;
        } else {
            behind.push(leaf)?;
        }
        self.spans.set(self.unit, run.rest(span));
        for place in 0..self.closers.len() {
            self.raise(priced, place);
        }
        Ok(())
    }

    // Notes the least cost that the unit's range has now at the vector of a place.
    fn raise(&mut self, priced: Priced<'_>, place: usize) {
        let after = least_of(self.costs(priced, place));
        let more = after.saturating_sub(self.least(place));
        let at = self.least_place(place);
        if let Some(least) = self.leasts.get_mut(at) {
            *least = after;
        }
        self.shorten(place, more);
    }
}

// How much the bounds at vectors lack of closing ranges, while no unit costs anything.
fn lacks_of(alloc: Global, state: &State, vectors: &[u32]) -> Result<Vec<i64>, Memory> {
    let mut lacks = Vec::with_capacity(alloc, vectors.len())?;
    for vector in vectors {
        lacks.push(lack_of(state, *vector))?;
    }
    Ok(lacks)
}

// That of a vector.
fn lack_of(state: &State, vector: u32) -> i64 {
    let Some(pricing) = state.pricings.get(vector as usize) else {
        return i64::MAX;
    };
    match pricing.needed(state.cost) {
        Some(needed) => needed.saturating_add(pricing.limits),
        None => i64::MAX,
    }
}

// How many alternatives at an end of a range have all those that cost the least; no length, where
// that is all of them.
fn reach_of(costs: &[i64], least: i64, is_low: bool) -> u32 {
    let mut reach: u32 = 0;
    for (number, place) in (1..).zip(0..costs.len()) {
        if end_cost(costs, place, is_low) == least {
            reach = number;
        }
    }
    if (reach as usize) < costs.len() {
        reach
    } else {
        NO_LENGTH
    }
}

// How many alternatives at an end of a range cost so much at least.
fn run_of(costs: &[i64], closed: i64, is_low: bool) -> u32 {
    let mut length: u32 = 0;
    for place in 0..costs.len() {
        if end_cost(costs, place, is_low) < closed {
            break;
        }
        length = length.saturating_add(1);
    }
    length
}

// The cost at a place from an end.
fn end_cost(costs: &[i64], place: usize, is_low: bool) -> i64 {
    let last = costs.len().saturating_sub(1);
    let at = if is_low {
        place
    } else {
        last.saturating_sub(place)
    };
    match costs.get(at) {
        Some(cost) => *cost,
        None => i64::MIN,
    }
}

// Adds nodes to others, the last one first.
fn push_back(nodes: &[Node], made: &mut Vec<Node>) -> Result<(), Memory> {
    for node in nodes.iter().rev() {
        made.push(*node)?;
    }
    Ok(())
}
