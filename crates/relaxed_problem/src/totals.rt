//! How often each class is used by the shares of a relaxation.

use crate::leaving::Work;
use crate::named::Pair;
use crate::nearby::MANY_COLUMNS;
use crate::programs::Program;
use crate::relaxations::Relaxation;
use crate::slots::{
    NOTHING, add, clear_span, copy_into, number_or_max, part_of, place_after, put_number,
    size_of_number, square_distance, value_at,
};

// At most the square of a change of how much of a part is taken, by which it counts as the same.
const NO_SQUARE: f64 = 0.0000000000000000000000001;

impl Relaxation {
    // Computes how often each class is used: for programs of many alternatives from how often it
    // was used when this was last computed.
    pub(crate) fn take_loads(&mut self, program: &Program<'_>, work: &mut Work) {
        if program.columns().len() < MANY_COLUMNS {
            self.sum_loads(program, &mut work.loads);
        } else {
            self.take_targets(program, work);
            self.move_totals(program, work);
        }
    }

    // How often each class is used, as it was computed.
    pub(crate) fn class_loads<'a>(&'a self, program: &Program<'_>, work: &'a Work) -> &'a [f64] {
        if program.columns().len() < MANY_COLUMNS {
            &work.loads
        } else {
            &self.totals
        }
    }

    // Adds up how often each class is used.
    fn sum_loads(&self, program: &Program<'_>, loads: &mut [f64]) {
        copy_into(loads, &self.loads);
        for at in 0..self.basics.len() {
            let value = self.basic_value(at);
            if size_of_number(value) > NOTHING {
                let column = program.column(self.basic(at));
                let key = program.column(self.key_place(column.unit));
                program.add_uses(&column, value, loads);
                program.add_uses(&key, -value, loads);
            }
        }
    }

    // Whether a unit takes its key alone, as when all uses were last counted.
    fn is_alone(&self, work: &Work, unit: u32) -> bool {
        value_at(&work.counts, unit as usize) == 0.0
            && number_or_max(&self.alone, unit as usize) == self.key_place(unit)
    }

    // Computes how much is taken of each named part of the other units.
    fn take_targets(&self, program: &Program<'_>, work: &mut Work) {
        for unit in 0..program.units() {
            if !self.is_alone(work, unit) {
                clear_span(&mut work.targets, program.part_span(unit));
                add_pair(&mut work.targets, program.pair(self.key_place(unit)), 1.0);
            }
        }
        let Work { targets, pairs, .. } = work;
        for (at, (basic, key)) in pairs.iter().enumerate() {
            let value = self.basic_value(at);
            add_pair(targets, *basic, value);
            add_pair(targets, *key, -value);
        }
    }

    // Changes how often each class is used, where so much of each named part of these is taken.
    fn move_totals(&mut self, program: &Program<'_>, work: &Work) {
        for unit in 0..program.units() {
            if !self.is_alone(work, unit) {
                self.move_unit(program, &work.targets, program.part_span(unit));
                let is_key = value_at(&work.counts, unit as usize) == 0.0;
                let key = if is_key {
                    self.key_place(unit)
                } else {
                    u32::MAX
                };
                put_number(&mut self.alone, unit as usize, key);
            }
        }
    }

    // The same for the named parts of a unit.
    fn move_unit(&mut self, program: &Program<'_>, targets: &[f64], span: (usize, usize)) {
        let taken = part_of(targets, span);
        if square_distance(part_of(&self.amounts, span), taken) > NO_SQUARE {
            self.move_span(program, taken, span);
        }
    }

    // The same for the named parts from one place to another.
    fn move_span(&mut self, program: &Program<'_>, targets: &[f64], span: (usize, usize)) {
        let (first, end) = span;
        let start = place_after(0, first);
        if first <= end && end <= self.amounts.len() {
            for (number, amount) in self.amounts[first..end].iter_mut().enumerate() {
                let target = value_at(targets, number);
                let more = target - *amount;
                if size_of_number(more) > NOTHING {
                    program.add_named(place_after(start, number), more, &mut self.totals);
                    *amount = target;
                }
            }
        }
    }
}

// Adds to the numbers of both parts of an alternative.
fn add_pair(values: &mut [f64], pair: Pair, by: f64) {
    add(values, pair.one as usize, by);
    add(values, pair.two as usize, by);
}
