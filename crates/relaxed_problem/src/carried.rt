//! A basis that is carried from one program to another.

use crate::inverses::Inverse;
use crate::programs::Program;
use crate::relaxations::Relaxation;
use crate::slots::{number_or_max, place_after, put, put_number};
use slot_text::Memory;
use std::alloc::Global;

impl Relaxation {
    /// The same basis for another program of the same units, which numbers their parts alike.
    /// `classes` has for each class of the first program the number of one of the other program
    /// that the same parts use equally often, or `reduced_problem::NO_CLASS`; where it is empty,
    /// both have the same classes. None where a key or a basic alternative does not take part in
    /// the other program, or where a class with a price has no class there. All alternatives may be
    /// taken. Prices and values are computed anew, with the changed costs of the other program.
    ///
    /// It takes a step for each class and part, for each use of a key, for each alternative beside
    /// a key or a basic alternative, and some for each entry of the inverse.
    pub fn carried(
        &self,
        alloc: Global,
        from: &Program<'_>,
        to: &Program<'_>,
        classes: &[u32],
    ) -> Result<Option<Relaxation>, Memory> {
        let mut moved = Relaxation::unpriced(alloc, to)?;
        let is_carried = moved.carry_keys(from, to, &self.keys)?
            && moved.carry_basics(from, to, &self.basics)?
            && moved.carry_classes(&self.priced, classes)?;
        if !is_carried {
            return Ok(None);
        }
        moved.take_inverse(alloc, &self.inverse)?;
        moved.take_prices(alloc, to)?;
        moved.take_values(alloc, to)?;
        Ok(Some(moved))
    }

    // Takes the alternatives that are keys in another program. Answers whether all take part.
    fn carry_keys(
        &mut self,
        from: &Program<'_>,
        to: &Program<'_>,
        keys: &[u32],
    ) -> Result<bool, Memory> {
        for key in keys {
            let Some(place) = place_in(from, to, *key) else {
                return Ok(false);
            };
            self.keys.push(place)?;
            self.heads.push(to.near(place))?;
            to.add_uses(&to.column(place), 1.0, &mut self.loads);
        }
        Ok(true)
    }

    // Takes the alternatives that are basic in another program. Answers whether all take part.
    fn carry_basics(
        &mut self,
        from: &Program<'_>,
        to: &Program<'_>,
        basics: &[u32],
    ) -> Result<bool, Memory> {
        for basic in basics {
            let Some(place) = place_in(from, to, *basic) else {
                return Ok(false);
            };
            self.basics.push(place)?;
        }
        Ok(true)
    }

    // Takes the classes that have prices in another program. Answers whether each of them has its
    // own class.
    fn carry_classes(&mut self, priced: &[u32], classes: &[u32]) -> Result<bool, Memory> {
        for (place, class) in (0..).zip(priced) {
            let own = if classes.is_empty() {
                *class
            } else {
                number_or_max(classes, *class as usize)
            };
            if own as usize >= self.places.len() || self.is_priced(own) {
                return Ok(false);
            }
            put_number(&mut self.places, own as usize, place);
            self.priced.push(own)?;
        }
        Ok(true)
    }

    // Takes a copy of an inverse.
    fn take_inverse(&mut self, alloc: Global, inverse: &Inverse) -> Result<(), Memory> {
        self.inverse = inverse.copy(alloc)?;
        Ok(())
    }

    // Computes the prices of the basis with changed costs, what the parts cost at them, and the
    // value.
    fn take_prices(&mut self, alloc: Global, program: &Program<'_>) -> Result<(), Memory> {
        let weights = self.changed_weights(alloc, program)?;
        let prices = self.inverse.weighted(alloc, &weights)?;
        let mut limits = 0.0;
        for (at, price) in prices.iter().enumerate() {
            let class = number_or_max(&self.priced, at);
            put(&mut self.prices, class as usize, *price);
            program.add_price(class, *price, &mut self.parts);
            limits += *price * program.limit(class);
        }
        self.value = self.keys_cost(program) - limits;
        Ok(())
    }

    // How much more than the basic alternatives the keys of their units cost, with changed costs.
    fn changed_weights(&self, alloc: Global, program: &Program<'_>) -> Result<Vec<f64>, Memory> {
        let mut weights = Vec::with_capacity(alloc, self.basics.len())?;
        for place in &self.basics {
            let key = self.key_place(program.column(*place).unit);
            weights.push(program.changed_cost(key) - program.changed_cost(*place))?;
        }
        Ok(weights)
    }

    // What the keys cost with their parts.
    fn keys_cost(&self, program: &Program<'_>) -> f64 {
        let mut total = 0.0;
        for key in &self.keys {
            total += self.cost_at(program, *key);
        }
        total
    }
}

// The place in another program of an alternative of the same parts and cost.
fn place_in(from: &Program<'_>, to: &Program<'_>, place: u32) -> Option<u32> {
    let column = from.column(place);
    let first = to.first_column(column.unit);
    for (number, other) in to.unit_columns(column.unit).iter().enumerate() {
        if other.is_alike(&column) {
            return Some(place_after(first, number));
        }
    }
    None
}
