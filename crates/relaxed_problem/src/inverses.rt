//! The inverse of a basis: a row for each basic alternative, a column for each resource with a
//! price.

ghost use Rattle.std.specs.Prelude.{◌<◌};
ghost use Rattle.std.specs.Slice.Iter.{chunks_size};

use crate::slots::{add_multiple, copy_into, part_of, product, put, value_at};
use slot_text::Memory;
use std::alloc::Global;
use std::slice::Chunks;

// How many entries more than before rows get room for.
const MORE_ROOM: usize = 32;

// The rows of the inverse, one after another. Each has room for so many entries, of which those
// past the number of rows are 0.
#[derive(Drop)]
pub(crate) struct Inverse {
    cells: Vec<f64>,
    room: usize,
    count: usize,
}

impl Inverse {
    // The inverse of the empty basis.
    pub(crate) fn new(alloc: Global) -> Inverse {
        Inverse {
            cells: Vec::new(alloc),
            room: MORE_ROOM,
            count: 0,
        }
    }

    // A copy.
    pub(crate) fn copy(&self, alloc: Global) -> Result<Inverse, Memory> {
        Ok(Inverse {
            cells: Vec::from_slice(alloc, &self.cells)?,
            room: self.room,
            count: self.count,
        })
    }

    // Becomes a copy of another one.
    pub(crate) fn copy_from(&mut self, other: &Inverse) -> Result<(), Memory> {
        self.cells.clear();
        self.cells.extend_from_slice(&other.cells)?;
        self.room = other.room;
        self.count = other.count;
        Ok(())
    }

    // The rows, each with its room.
    pub(crate) fn rows(&self) -> Chunks<'_, f64>
        ensures { 0 < chunks_size result }
    {
        self.cells.chunks(self.room.max(1))
    }

    // The entries of a row.
    fn entries(&self, place: usize) -> &[f64] {
        let first = place.saturating_mul(self.room);
        part_of(&self.cells, (first, first.saturating_add(self.count)))
    }

    // A copy of a row.
    pub(crate) fn row(&self, alloc: Global, place: usize) -> Result<Vec<f64>, Memory> {
        Ok(Vec::from_slice(alloc, self.entries(place))?)
    }

    // The square of the length of a row.
    pub(crate) fn square(&self, place: usize) -> f64 {
        let row = self.entries(place);
        product(row, row)
    }

    // Replaces a row.
    pub(crate) fn put_row(&mut self, place: usize, row: Vec<f64>) {
        self.put_entries(place, &row);
    }

    // Replaces the entries of a row.
    fn put_entries(&mut self, place: usize, row: &[f64]) {
        let first = place.saturating_mul(self.room);
        if first <= self.cells.len() {
            copy_into(&mut self.cells[first..], row);
        }
    }

    // The product with a column, of which many entries are 0.
    pub(crate) fn times(&self, alloc: Global, column: &[f64]) -> Result<Vec<f64>, Memory> {
        let entries = entries_of(alloc, column)?;
        let mut products = Vec::with_capacity(alloc, self.count)?;
        let room = self.room;
        for block in self.cells.chunks(room.saturating_mul(AT_ONCE).max(1)) {
            add_products(block, room, &entries, &mut products)?;
        }
        Ok(products)
    }

    // The sum of the rows, each as often as its weight says.
    pub(crate) fn weighted(&self, alloc: Global, weights: &[f64]) -> Result<Vec<f64>, Memory> {
        let mut sums = vec![in alloc; 0.0; self.count]?;
        for (row, weight) in self.rows().zip(weights) {
            if *weight != 0.0 {
                add_multiple(&mut sums, row, *weight);
            }
        }
        Ok(sums)
    }

    // Lets an alternative with these entries take the place of a basic one.
    pub(crate) fn exchange(
        &mut self,
        alloc: Global,
        place: usize,
        entries: &[f64],
    ) -> Result<(), Memory> {
        let mut pivot_row = self.row(alloc, place)?;
        divide(&mut pivot_row, value_at(entries, place));
        for (row, entry) in self.cells.chunks_mut(self.room.max(1)).zip(entries) {
            if *entry != 0.0 {
                add_multiple(row, &pivot_row, -*entry);
            }
        }
        self.put_entries(place, &pivot_row);
        Ok(())
    }

    // Adds a row and a column: for an alternative with these entries, and a resource with this
    // direction and pivot.
    pub(crate) fn grow(
        &mut self,
        alloc: Global,
        entries: &[f64],
        direction: &[f64],
        pivot: f64,
    ) -> Result<(), Memory> {
        if self.count >= self.room {
            self.cells = self.widened(alloc)?;
            self.room = self.room.saturating_add(MORE_ROOM);
        }
        let last = divided(alloc, direction, pivot)?;
        self.add_column(entries, &last, pivot);
        self.add_row(&last, 1.0 / pivot)
    }

    // The cells with more room in each row.
    fn widened(&self, alloc: Global) -> Result<Vec<f64>, Memory> {
        let room = self.room.saturating_add(MORE_ROOM);
        let mut cells = vec![in alloc; 0.0; room.saturating_mul(self.count)]?;
        for (wide, row) in cells.chunks_mut(room.max(1)).zip(self.rows()) {
            copy_into(wide, row);
        }
        Ok(cells)
    }

    // Adds a column for the resource with this pivot, beside this row.
    fn add_column(&mut self, entries: &[f64], last: &[f64], pivot: f64) {
        let place = self.count;
        for (row, entry) in self.cells.chunks_mut(self.room.max(1)).zip(entries) {
            add_multiple(row, last, -*entry);
            put(row, place, -*entry / pivot);
        }
    }

    // Adds a row of these entries and one more.
    fn add_row(&mut self, entries: &[f64], last: f64) -> Result<(), Memory> {
        let first = self.cells.len();
        self.cells.resize(first.saturating_add(self.room), 0.0)?;
        self.put_entries(self.count, entries);
        put(&mut self.cells, first.saturating_add(self.count), last);
        self.count = self.count.saturating_add(1);
        Ok(())
    }

    // Takes away a row and a column, where the row has the pivot in the column. The last ones take
    // their places.
    pub(crate) fn shrink(
        &mut self,
        alloc: Global,
        place: usize,
        column: usize,
    ) -> Result<(), Memory> {
        let gone = self.row(alloc, place)?;
        let pivot = value_at(&gone, column);
        let last = self.count.saturating_sub(1);
        for row in self.cells.chunks_mut(self.room.max(1)) {
            let share = value_at(row, column) / pivot;
            add_multiple(row, &gone, -share);
            take_out(row, column, last);
        }
        let moved = self.row(alloc, last)?;
        self.put_entries(place, &moved);
        self.cells.truncate(last.saturating_mul(self.room));
        self.count = last;
        Ok(())
    }

    // Lets a resource with this direction take the place of another one.
    pub(crate) fn replace_column(&mut self, column: usize, direction: &[f64]) {
        let pivot = -value_at(direction, column);
        for row in self.cells.chunks_mut(self.room.max(1)) {
            let scaled = value_at(row, column) / pivot;
            add_multiple(row, direction, scaled);
            put(row, column, scaled);
        }
    }

    // Adds a multiple of a row to sums.
    pub(crate) fn add_row_to(&self, sums: &mut [f64], place: usize, by: f64) {
        add_multiple(sums, self.entries(place), by);
    }
}

// How many products are added up side by side.
const AT_ONCE: usize = 4;

// The entries of a column that are not 0, and their places.
fn entries_of(alloc: Global, column: &[f64]) -> Result<Vec<(usize, f64)>, Memory> {
    let mut entries = Vec::with_capacity(alloc, column.len())?;
    for (place, entry) in column.iter().enumerate() {
        if *entry != 0.0 {
            entries.push((place, *entry))?;
        }
    }
    Ok(entries)
}

// Adds the products of some rows with a column of these entries.
fn add_products(
    block: &[f64],
    room: usize,
    entries: &[(usize, f64)],
    products: &mut Vec<f64>,
) -> Result<(), Memory> {
    if block.len() / AT_ONCE == room {
        products.extend_from_slice(&products_at_once(block, room, entries))?;
        return Ok(());
    }
    for row in block.chunks(room.max(1)) {
        products.push(product_with(row, entries))?;
    }
    Ok(())
}

// The products of four rows with a column, each added up in the column's order.
fn products_at_once(block: &[f64], room: usize, entries: &[(usize, f64)]) -> [f64; AT_ONCE] {
    let one = row_of(block, room, 0);
    let two = row_of(block, room, 1);
    let three = row_of(block, room, 2);
    let four = row_of(block, room, 3);
    let mut sums = [0.0; AT_ONCE];
    for (place, entry) in entries {
        let (first, second) = (one.get(*place), two.get(*place));
        let (third, fourth) = (three.get(*place), four.get(*place));
        if let (Some(a), Some(b), Some(c), Some(d)) = (first, second, third, fourth) {
            sums[0] += *a * *entry;
            sums[1] += *b * *entry;
            sums[2] += *c * *entry;
            sums[3] += *d * *entry;
        }
    }
    sums
}

// The product of a row with a column, added up in the column's order.
fn product_with(row: &[f64], entries: &[(usize, f64)]) -> f64 {
    let mut total = 0.0;
    for (place, entry) in entries {
        total += value_at(row, *place) * *entry;
    }
    total
}

// A row of some.
fn row_of(block: &[f64], room: usize, place: usize) -> &[f64] {
    let first = place.saturating_mul(room);
    part_of(block, (first, first.saturating_add(room)))
}

// The numbers, each divided.
fn divided(alloc: Global, values: &[f64], by: f64) -> Result<Vec<f64>, Memory> {
    let mut parts = Vec::with_capacity(alloc, values.len())?;
    for value in values {
        parts.push(*value / by)?;
    }
    Ok(parts)
}

// Divides each number.
fn divide(values: &mut [f64], by: f64) {
    for value in values.iter_mut() {
        *value = *value / by;
    }
}

// Takes an entry out of a row; the last one takes its place.
fn take_out(row: &mut [f64], place: usize, last: usize) {
    let moved = value_at(row, last);
    put(row, place, moved);
    put(row, last, 0.0);
}
