//! Vectors of prices.

ghost use Rattle.std.specs.Prelude.{◌≡◌, ◌↔◌, IsTrue};
ghost use Rattle.choice_problem.specs.Bounds.{IsVector};

use crate::problems::Problem;
use std::marker::Model;

/// The highest price that a vector for a problem may have.
pub const HIGHEST_PRICE: i64 = (1 << 40) - 1;

/// How many subgradient steps a root vector takes.
pub const ROOT_STEPS: u32 = 64;

/// The most vectors of a list, among them the root vector.
pub const MOST_VECTORS: usize = 64;

/// The most vectors that a search takes beside its root vector.
pub const MOST_FURTHER: usize = MOST_VECTORS - 1;

/// The most prices that the vectors of a list after the first have together.
pub const MOST_PRICES: usize = 1_000_000;

/// The price of one use of a resource.
#[derive(Clone, Copy, Debug, PartialEq, Eq)]
pub struct Price {
    /// The number of the resource, from 0.
    pub resource: u32,
    /// The price of one use: in a vector for a problem from 1 to 2^40 - 1.
    pub price: i64,
}

impl Price {
    ghost use Rattle.std.specs.Prelude.{◌≡◌, ◌↔◌, ◌<◌, IsTrue, pos, ◌≤ℤ◌};
    ghost use Rattle.choice_problem.specs.declared.problems.TheConstants.{MOST_RESOURCES};
    ghost use Rattle.choice_problem.specs.Problems.{amount};
    ghost use Rattle.choice_problem.specs.Bounds.{IsPrice};
    ghost use Rattle.choice_problem.specs.Loops.{PriceFollows};

    /// The price as a number. It is at least 1.
    pub fn amount(&self) -> u64
        requires { pos 1 ≤ℤ self.now.price }
        ensures { result ≡ amount self.now.price }
    {
        self.price as u64
    }

    /// Whether the resource is the problem's and the price from 1 to 2^40 - 1, in one step.
    pub fn is_for(&self, problem: &Problem) -> bool
        ensures exact { IsTrue result ↔ IsPrice problem.now self.now }
        ensures few { IsTrue result → self.now.resource < MOST_RESOURCES }
    {
        self.resource < problem.resources() && self.price >= 1 && self.price <= HIGHEST_PRICE
    }

    // Whether the resource is at least the next one, and the price is one for the problem.
    fn follows(&self, problem: &Problem, next: u32) -> bool
        ensures exact { IsTrue result ↔ PriceFollows problem.now next self.now }
        ensures few { IsTrue result → self.now.resource < MOST_RESOURCES }
    {
        next <= self.resource && self.is_for(problem)
    }
}

/// A vector of prices, by rising resource. A resource that it does not name has the price 0.
#[derive(Drop)]
pub struct Vector {
    prices: Vec<Price>,
}

impl Model for Vector {
    ghost use Rattle.std.specs.Prelude.{List};
    ghost use Rattle.choice_problem.specs.declared.vectors.Price.{Price};

    ghost Value = { List Price };

    ghost view = { λ v. v.prices.items };
}

impl Vector {
    /// The vector of these prices. `is_for` tests whether it is one for a problem.
    pub fn new(prices: Vec<Price>) -> Vector
        ensures { result ≡ prices.items }
    {
        Vector { prices }
    }

    /// The prices.
    pub fn items(&self) -> &[Price]
        ensures { result.now ≡ self.now }
    {
        &self.prices
    }

    /// Whether the resources rise and are the problem's, and the prices are from 1 to 2^40 - 1: one
    /// step a price.
    pub fn is_for(&self, problem: &Problem) -> bool
        ensures { IsTrue result ↔ IsVector problem.now self.now }
    {
        let mut next = 0;
        for entry in &self.prices {
            if !entry.follows(problem, next) {
                return false;
            }
            next = entry.resource + 1;
        }
        true
    }
}

/// A list of vectors. The nodes of a tree number them from 1: vector 0 is the one without prices
/// and is not listed.
#[derive(Drop)]
pub struct VectorList {
    vectors: Vec<Vector>,
}

impl Model for VectorList {
    ghost use Rattle.std.specs.Prelude.{List};
    ghost use Rattle.choice_problem.specs.declared.vectors.Price.{Price};

    ghost Value = { List (List Price) };

    ghost view = { λ l. l.vectors.items };
}

impl VectorList {
    /// The list of these vectors.
    pub fn new(vectors: Vec<Vector>) -> VectorList
        ensures { result ≡ vectors.items }
    {
        VectorList { vectors }
    }

    /// The vectors, number 1 first.
    pub fn items(&self) -> &[Vector]
        ensures { result.now ≡ self.now }
    {
        &self.vectors
    }

    /// The vectors as a `Vec`, number 1 first, without a copy.
    pub fn into_items(self) -> Vec<Vector>
        ensures { result.items ≡ self }
    {
        self.vectors
    }
}
