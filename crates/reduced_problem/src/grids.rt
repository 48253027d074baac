//! The classes in order of columns: with a gap, a resource has a row, how often the gap goes into
//! its number, and a column, what is left. The first resources of a strip's runs are one below
//! another.

use crate::classes::{is_marked, set_mark};
use crate::numbers::{as_number, number_at};
use resource_classes::Class;
use slot_text::Memory;
use std::alloc::Global;

// The classes for one gap.
#[derive(Drop)]
pub(crate) struct Grid {
    // How many columns there are: the gap, or for gap 0 as many as resources.
    columns: u32,
    rows: u32,
    // How many columns with classes the grids before have.
    first: u32,
    // For each column, and for the end, how many lower ones have classes.
    ranks: Vec<u32>,
    // For each row of the columns with classes, and for the end, the place of the next class.
    places: Vec<u32>,
}

// Classes of a column that follow one another, by their places, and the number of the column.
#[derive(Clone, Copy)]
pub(crate) struct Stretch {
    pub(crate) column: u32,
    pub(crate) from: u32,
    pub(crate) to: u32,
}

impl Grid {
    // Counts the columns with classes.
    fn set_ranks(&mut self, alloc: Global, classes: &[Class]) -> Result<(), Memory> {
        let mut marks = vec![in alloc; false; self.columns as usize]?;
        mark_columns(self, &mut marks, classes);
        self.ranks = counts_below(alloc, &marks, 0)?;
        Ok(())
    }

    // Counts the classes in the rows of these columns, from a place on.
    fn set_places(&mut self, alloc: Global, classes: &[Class], first: u32) -> Result<(), Memory> {
        let count = number_at(&self.ranks, self.columns as usize);
        let mut marks = vec![in alloc; false; place_of(count, self.rows, 0)]?;
        mark_cells(self, &mut marks, classes);
        self.places = counts_below(alloc, &marks, first)?;
        Ok(())
    }

    // The column and the row of a resource.
    pub(crate) fn cell(&self, resource: u32) -> (u32, u32) {
        if self.columns == 0 {
            (0, resource)
        } else {
            (resource % self.columns, resource / self.columns)
        }
    }

    // How many columns there are.
    pub(crate) fn columns(&self) -> u32 {
        self.columns
    }

    // Which of the columns with classes are between two columns.
    pub(crate) fn ranks(&self, from: u32, to: u32) -> (u32, u32) {
        (
            number_at(&self.ranks, from as usize),
            number_at(&self.ranks, to as usize),
        )
    }

    // The classes in some rows of a column with classes.
    pub(crate) fn stretch(&self, rank: u32, row: u32, rows: u32) -> Stretch {
        let end = row.saturating_add(rows).min(self.rows);
        Stretch {
            column: self.first.saturating_add(rank),
            from: self.place(rank, row.min(self.rows)),
            to: self.place(rank, end),
        }
    }

    // The place of the next class at or behind a row of a column with classes.
    fn place(&self, rank: u32, row: u32) -> u32 {
        number_at(&self.places, place_of(rank, self.rows, row))
    }
}

// Where the row of a column with classes stands.
fn place_of(rank: u32, rows: u32, row: u32) -> usize {
    (rank as usize)
        .saturating_mul(rows as usize)
        .saturating_add(row as usize)
}

// Grids of several gaps. A place is one of a class in a grid: the places of the grids follow one
// another.
#[derive(Drop)]
pub(crate) struct Grids {
    items: Vec<Grid>,
    // The class of each place.
    pub(crate) order: Vec<u32>,
    // The first place of each column with classes of the grids, and the end of the last one.
    pub(crate) columns: Vec<u32>,
}

impl Grids {
    // The grids of gaps: some steps a resource and a gap.
    pub(crate) fn of(
        alloc: Global,
        gaps: &[u32],
        resources: u32,
        classes: &[Class],
    ) -> Result<Grids, Memory> {
        let mut grids = Grids {
            items: Vec::new(alloc),
            order: Vec::new(alloc),
            columns: Vec::new(alloc),
        };
        for gap in gaps {
            let columns = if *gap == 0 { resources } else { *gap };
            let grid = grids.grid(alloc, columns, resources, classes)?;
            grids.add(alloc, grid, classes)?;
        }
        grids.columns.push(as_number(grids.order.len()))?;
        Ok(grids)
    }

    // The grid of a gap, by its number.
    pub(crate) fn grid_of(&self, gap: u32) -> Option<&Grid> {
        self.items.get(gap as usize)
    }

    // For each place, and for the end, how many lower ones are of classes with a flag.
    pub(crate) fn places_below(&self, alloc: Global, flags: &[bool]) -> Result<Vec<u32>, Memory> {
        let mut marks = Vec::with_capacity(alloc, self.order.len())?;
        for class in &self.order {
            marks.push(is_marked(flags, *class))?;
        }
        counts_below(alloc, &marks, 0)
    }

    // The next grid.
    fn grid(
        &self,
        alloc: Global,
        columns: u32,
        resources: u32,
        classes: &[Class],
    ) -> Result<Grid, Memory> {
        let mut grid = Grid {
            columns,
            rows: resources
                .checked_div(columns)
                .unwrap_or(0)
                .saturating_add(1),
            first: as_number(self.columns.len()),
            ranks: Vec::new(alloc),
            places: Vec::new(alloc),
        };
        grid.set_ranks(alloc, classes)?;
        grid.set_places(alloc, classes, as_number(self.order.len()))?;
        Ok(grid)
    }

    // Adds a grid with its places and columns.
    fn add(&mut self, alloc: Global, grid: Grid, classes: &[Class]) -> Result<(), Memory> {
        let start = self.order.len();
        self.order.resize(start.saturating_add(classes.len()), 0)?;
        put_classes(&grid, &mut self.order, classes);
        let (_, count) = grid.ranks(0, grid.columns);
        for rank in 0..count {
            self.columns.push(grid.place(rank, 0))?;
        }
        self.items.push(grid)?;
        Ok(())
    }
}

// Marks the columns that have classes.
fn mark_columns(grid: &Grid, marks: &mut [bool], classes: &[Class]) {
    for class in classes {
        let (column, _) = grid.cell(class.resource);
        set_mark(marks, column, true);
    }
}

// Where a resource stands among the rows of the columns with classes.
fn cell_place(grid: &Grid, resource: u32) -> usize {
    let (column, row) = grid.cell(resource);
    let rank = number_at(&grid.ranks, column as usize);
    place_of(rank, grid.rows, row)
}

// Marks the rows of the columns with classes that have one.
fn mark_cells(grid: &Grid, marks: &mut [bool], classes: &[Class]) {
    for class in classes {
        let place = cell_place(grid, class.resource);
        if place < marks.len() {
            marks[place] = true;
        }
    }
}

// For each place, and for the end, how many lower ones are marked, and a number more.
pub(crate) fn counts_below(alloc: Global, marks: &[bool], first: u32) -> Result<Vec<u32>, Memory> {
    let mut counts = Vec::with_capacity(alloc, marks.len().saturating_add(1))?;
    let mut count = first;
    for mark in marks {
        counts.push(count)?;
        count = count.wrapping_add(u32::from(*mark));
    }
    counts.push(count)?;
    Ok(counts)
}

// Writes the number of each class at its place.
fn put_classes(grid: &Grid, order: &mut [u32], classes: &[Class]) {
    for (number, class) in (0..).zip(classes) {
        let place = number_at(&grid.places, cell_place(grid, class.resource)) as usize;
        if place < order.len() {
            order[place] = number;
        }
    }
}
