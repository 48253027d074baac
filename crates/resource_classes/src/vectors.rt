//! Vectors of prices at classes.

ghost use Rattle.std.specs.Prelude.{IfOk};
ghost use Rattle.choice_problem.specs.Bounds.{IsVector};

use crate::classes::Class;
use choice_problem::{HIGHEST_PRICE, Price, Problem, Vector};
use slot_text::Memory;
use std::alloc::Global;

/// The vector of the prices of these classes that are above 0, each at most the highest price. Where
/// this is no vector of the problem, since a class names a resource that is not there or the classes
/// do not rise, the one without prices. A few steps a class.
pub fn priced_vector(
    alloc: Global,
    problem: &Problem,
    classes: &[Class],
    prices: &[i64],
) -> Result<Vector, Memory>
    ensures { IfOk result (λ vector. IsVector problem.now vector) }
{
    let entries = entries_of(alloc, classes, prices)?;
    Ok(vector_for(alloc, problem, entries))
}

// The entries of the prices that are above 0.
fn entries_of(alloc: Global, classes: &[Class], prices: &[i64]) -> Result<Vec<Price>, Memory> {
    let mut entries = Vec::new(alloc);
    for (class, price) in classes.iter().zip(prices) {
        if *price > 0 {
            entries.push(Price {
                resource: class.resource,
                price: (*price).min(HIGHEST_PRICE),
            })?;
        }
    }
    Ok(entries)
}

// The vector of these prices, where it is one for the problem, and else the one without prices.
fn vector_for(alloc: Global, problem: &Problem, entries: Vec<Price>) -> Vector
    ensures { IsVector problem.now result }
{
    let vector = Vector::new(entries);
    if vector.is_for(problem) {
        vector
    } else {
        Vector::new(Vec::new(alloc))
    }
}
