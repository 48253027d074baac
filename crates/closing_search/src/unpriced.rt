//! A problem that is closed without prices.

use choice_problem::{Alt, Choice, Node, Problem, VectorList};
use slot_text::Memory;
use std::alloc::Global;
use tested_trees::Found;

/// The choice of each unit's cheapest alternative, and a leaf that closes all of them without
/// prices.
pub(crate) fn unpriced(alloc: Global, problem: &Problem) -> Result<Found, Memory> {
    let mut alts = Vec::with_capacity(alloc, problem.units() as usize)?;
    let mut cost: u64 = 0;
    for unit in 0..problem.units() {
        let (alt, least) = cheapest(problem.unit_alts(unit));
        alts.push(alt)?;
        cost = cost.saturating_add(least);
    }
    let leaf = Node::Leaf {
        vector: 0,
        scale: 1,
        seen: Some(cost),
    };
    Ok(Found {
        choice: Some(Choice::new(alts)),
        fixing: None,
        nodes: vec![in alloc; leaf; 1]?,
        vectors: VectorList::new(Vec::new(alloc)),
    })
}

// The number of the first cheapest alternative, and its cost.
fn cheapest(alts: &[Alt]) -> (u32, u64) {
    let mut best = 0;
    let mut least = u64::MAX;
    for (number, alt) in (0..).zip(alts) {
        if alt.cost < least {
            least = alt.cost;
            best = number;
        }
    }
    (best, least)
}
