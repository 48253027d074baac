//! Lists in several pieces.

use crate::rows::{Rows, Span};
use slot_text::Memory;
use std::alloc::Global;

// Where a list stands: in which piece, and where in it.
#[derive(Clone, Copy)]
struct Spot {
    piece: usize,
    span: Span,
}

// Lists of items, numbered from 0, each in one of several pieces. Several may stand at one place.
#[derive(Drop)]
pub(crate) struct Lists<T> {
    pieces: Vec<Vec<T>>,
    spots: Vec<Spot>,
    empty: Vec<T>,
}

impl<T: Copy + Drop> Lists<T> {
    // No lists.
    pub(crate) fn new(alloc: Global) -> Lists<T> {
        Lists {
            pieces: Vec::new(alloc),
            spots: Vec::new(alloc),
            empty: Vec::new(alloc),
        }
    }

    // A list for each row.
    pub(crate) fn of(alloc: Global, rows: Rows<T>) -> Result<Lists<T>, Memory> {
        let mut lists = Lists::new(alloc);
        lists.add_rows(rows)?;
        Ok(lists)
    }

    // Adds a piece with a list for each row.
    pub(crate) fn add_rows(&mut self, rows: Rows<T>) -> Result<(), Memory> {
        for row in 0..rows.len() {
            self.add(rows.span(row))?;
        }
        self.end_piece(rows.items)
    }

    // Adds a list that stands in the next piece.
    pub(crate) fn add(&mut self, span: Span) -> Result<(), Memory> {
        self.spots.push(Spot {
            piece: self.pieces.len(),
            span,
        })?;
        Ok(())
    }

    // Adds a list that stands where the one with this number does, or an empty one.
    pub(crate) fn add_same(&mut self, number: usize) -> Result<(), Memory> {
        let spot = match self.spots.get(number) {
            Some(spot) => *spot,
            None => Spot {
                piece: 0,
                span: Span { start: 0, end: 0 },
            },
        };
        self.spots.push(spot)?;
        Ok(())
    }

    // Adds the items of the next piece, whose lists were added.
    pub(crate) fn end_piece(&mut self, items: Vec<T>) -> Result<(), Memory> {
        self.pieces.push(items)?;
        Ok(())
    }

    // How many lists there are.
    pub(crate) fn len(&self) -> usize {
        self.spots.len()
    }

    // A list, or an empty one past the last.
    pub(crate) fn row(&self, number: u32) -> &[T] {
        match self.spots.get(number as usize) {
            Some(spot) => self.at(spot),
            None => &self.empty[0..0],
        }
    }

    // The list at a spot.
    fn at(&self, spot: &Spot) -> &[T] {
        match self.pieces.get(spot.piece) {
            Some(items) => spot.span.of(items),
            None => &self.empty[0..0],
        }
    }
}
