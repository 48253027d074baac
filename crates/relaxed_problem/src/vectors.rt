//! Vectors of prices from a relaxation.

ghost use Rattle.std.specs.Prelude.{IfOk};
ghost use Rattle.choice_problem.specs.Bounds.{IsVector};

use crate::named::Pair;
use crate::programs::Program;
use crate::relaxations::Relaxation;
use crate::slots::{place_after, value_at};
use choice_problem::{PRICED_SCALE, Problem, Vector};
use resource_classes::priced_vector;
use slot_text::Memory;
use std::alloc::Global;
use std::num::{nearest_i64_to_f64, saturating_f64_to_i64};

// A price that keeps alternatives away from a resource of limit 0, where it costs nothing.
const GREAT_PRICE: i64 = 1 << 32;

// The prices of the classes as whole numbers, how costs count beside them, and their sums over the
// named parts.
#[derive(Drop)]
struct Rounded {
    scale: f64,
    prices: Vec<i64>,
    parts: Vec<f64>,
}

impl Relaxation {
    /// The prices of the basis at the costs themselves, times 1024, rounded, as a vector of the
    /// problem: the one that the program was made from. Where an excluded alternative would be
    /// cheaper at these prices than all others of its unit that may be taken, a resource of limit 0
    /// that it uses gets a price of 2^32.
    pub fn vector(
        &self,
        alloc: Global,
        problem: &Problem,
        program: &Program<'_>,
    ) -> Result<Vector, Memory>
        ensures { IfOk result (λ vector. IsVector problem.now vector) }
    {
        let mut rounded = self.rounded_prices(alloc, program)?;
        self.entries_of(alloc, problem, program, &mut rounded)
    }

    // The prices of the basis at the costs themselves, times 1024, rounded.
    fn rounded_prices(&self, alloc: Global, program: &Program<'_>) -> Result<Rounded, Memory> {
        let scale = f64::from(PRICED_SCALE as u32);
        let weights = self.weights(alloc, program)?;
        let prices = self.inverse.weighted(alloc, &weights)?;
        let mut rounded = Rounded::zeros(alloc, program, scale)?;
        rounded.set_all(program, &self.priced, &prices);
        Ok(rounded)
    }

    // How much more than the basic alternatives the keys of their units cost.
    fn weights(&self, alloc: Global, program: &Program<'_>) -> Result<Vec<f64>, Memory> {
        let mut weights = Vec::with_capacity(alloc, self.basics.len())?;
        for place in &self.basics {
            let column = program.column(*place);
            let key = program.column(self.key_place(column.unit));
            weights.push(key.cost - column.cost)?;
        }
        Ok(weights)
    }

    /// Where the relaxation has no solution: prices that show it, as a vector of the problem for
    /// the scale 0, whose greatest price is about this one.
    pub fn ray(
        &self,
        alloc: Global,
        problem: &Problem,
        program: &Program<'_>,
        greatest: u32,
    ) -> Result<Vector, Memory>
        ensures { IfOk result (λ vector. IsVector problem.now vector) }
    {
        let mut rounded = Rounded::zeros(alloc, program, 0.0)?;
        let most = greatest_of(&self.ray);
        for (class, step) in &self.ray {
            rounded.set(program, *class, *step / most * f64::from(greatest));
        }
        self.entries_of(alloc, problem, program, &mut rounded)
    }

    // The vector of these prices.
    fn entries_of(
        &self,
        alloc: Global,
        problem: &Problem,
        program: &Program<'_>,
        rounded: &mut Rounded,
    ) -> Result<Vector, Memory>
        ensures { IfOk result (λ vector. IsVector problem.now vector) }
    {
        self.keep_away(program, rounded);
        let classes = program.reduced().classes();
        priced_vector(alloc, problem, classes, &rounded.prices)
    }

    // Raises the prices of resources of limit 0 where excluded alternatives are cheaper than the
    // others of their unit.
    fn keep_away(&self, program: &Program<'_>, rounded: &mut Rounded) {
        let mut unit = u32::MAX;
        let mut least = 0.0;
        for barred in program.barred() {
            if barred.column.unit != unit {
                unit = barred.column.unit;
                least = self.least_cost(program, rounded, unit);
            }
            let pair = program.barred_pair(barred);
            if rounded.cost(barred.column.cost, pair) < least {
                put_price(&mut rounded.prices, barred.class, GREAT_PRICE);
            }
        }
    }

    // The least priced cost of a unit's allowed alternatives, or 0.
    fn least_cost(&self, program: &Program<'_>, rounded: &Rounded, unit: u32) -> f64 {
        let mut least: Option<f64> = None;
        let first = program.first_column(unit);
        for (number, column) in program.unit_columns(unit).iter().enumerate() {
            let place = place_after(first, number);
            let cost = rounded.cost(column.cost, program.pair(place));
            let is_less = match least {
                Some(other) => cost < other,
                None => true,
            };
            if is_less && !self.is_shut(place) {
                least = Some(cost);
            }
        }
        least.unwrap_or(0.0)
    }
}

impl Rounded {
    // No prices.
    fn zeros(alloc: Global, program: &Program<'_>, scale: f64) -> Result<Rounded, Memory> {
        Ok(Rounded {
            scale,
            prices: vec![in alloc; 0; program.limits().len()]?,
            parts: vec![in alloc; 0.0; program.parts()]?,
        })
    }

    // Gives a class the nearest whole price.
    fn set(&mut self, program: &Program<'_>, class: u32, price: f64) {
        let whole = saturating_f64_to_i64(price + 0.5);
        if whole > 0 {
            put_price(&mut self.prices, class, whole);
            program.add_price(class, nearest_i64_to_f64(whole), &mut self.parts);
        }
    }

    // Gives classes the nearest whole prices to these, times the scale.
    fn set_all(&mut self, program: &Program<'_>, classes: &[u32], prices: &[f64]) {
        for (class, price) in classes.iter().zip(prices) {
            self.set(program, *class, *price * self.scale);
        }
    }

    // The priced cost of an alternative.
    fn cost(&self, cost: f64, pair: Pair) -> f64 {
        let parts = value_at(&self.parts, pair.one as usize)
            + value_at(&self.parts, pair.two as usize);
        self.scale * cost + parts
    }
}

// Puts a price at a class.
fn put_price(prices: &mut [i64], class: u32, price: i64) {
    if let Some(slot) = prices.get_mut(class as usize) {
        *slot = price;
    }
}

// The greatest step of a ray.
fn greatest_of(ray: &[(u32, f64)]) -> f64 {
    let mut most = 0.0;
    for (_, step) in ray {
        if *step > most {
            most = *step;
        }
    }
    most
}
