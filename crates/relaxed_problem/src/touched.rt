//! The units of which prices of parts move in a pivot: what a pivot does for parts, it does for
//! those of these units alone.

use crate::leaving::Work;
use crate::programs::Program;
use crate::slots::{add_span, clear_span, is_set, number_or_max, put, put_flag, value_at};
use slot_text::Memory;

impl Work {
    // Moves the price of a class.
    pub(crate) fn move_price(&mut self, program: &Program<'_>, class: u32, price: f64) {
        program.move_price(class, price, &mut self.parts, &mut self.marks);
    }

    // Lists the units of which prices of parts move.
    pub(crate) fn list_touched(&mut self, program: &Program<'_>) -> Result<(), Memory> {
        self.touched.clear();
        for unit in 0..program.units() {
            if is_set(&self.marks, unit as usize) {
                self.touched.push(unit)?;
            }
        }
        Ok(())
    }

    // Moves the prices of the parts by so many steps.
    pub(crate) fn move_parts(&mut self, program: &Program<'_>, parts: &mut [f64], length: f64) {
        for number in 0..self.touched.len() {
            let unit = number_or_max(&self.touched, number);
            add_span(parts, &self.parts, program.part_span(unit), length);
            let least = value_at(&self.leasts, unit as usize);
            self.nearby.slip(unit, least * length);
        }
    }

    // Makes the steps of the parts 0.
    pub(crate) fn clear_touched(&mut self, program: &Program<'_>) {
        for number in 0..self.touched.len() {
            let unit = number_or_max(&self.touched, number);
            clear_span(&mut self.parts, program.part_span(unit));
            put(&mut self.leasts, unit as usize, 0.0);
            put_flag(&mut self.marks, unit as usize, false);
        }
    }
}
