//! The classes that each part uses.

use crate::classes::ClassUse;
use crate::edges::{Edge, Edges};
use crate::lists::Lists;
use crate::numbers::{as_number, number_at};
use crate::rows::Span;
use crate::tally::Tally;
use slot_text::Memory;
use std::alloc::Global;

// How many pieces the lists have, at most: small ones have memory that was in use before, where
// one great one would have memory anew.
const MOST_PIECES: usize = 32;

// What lists are made of: the edges of parts, whose places are in `order`, for each part the first
// one with the same list, and how many classes there are.
#[derive(Clone, Copy)]
pub(crate) struct Ground<'a> {
    pub(crate) edges: &'a Edges,
    pub(crate) order: &'a [u32],
    pub(crate) same: &'a [u32],
    pub(crate) classes: usize,
}

// Pieces of all parts, without lists. Each begins with a unit.
pub(crate) fn list_pieces(
    alloc: Global,
    units: &[u32],
    parts: usize,
) -> Result<Vec<ListPiece>, Memory> {
    let mut found = Vec::new(alloc);
    let least = as_number(parts / MOST_PIECES).saturating_add(1);
    let mut first = 0;
    for unit in units {
        if unit.saturating_sub(first) >= least {
            found.push(ListPiece::new(alloc, first, *unit))?;
            first = *unit;
        }
    }
    found.push(ListPiece::new(alloc, first, as_number(parts)))?;
    Ok(found)
}

// The lists of parts from one number to another, one for each that is the first one with its list.
// The first one begins a unit.
#[derive(Drop)]
pub(crate) struct ListPiece {
    first: u32,
    end: u32,
    items: Vec<ClassUse>,
    spans: Vec<Span>,
    is_made: bool,
}

impl ListPiece {
    // No lists yet.
    fn new(alloc: Global, first: u32, end: u32) -> ListPiece {
        ListPiece {
            first,
            end,
            items: Vec::new(alloc),
            spans: Vec::new(alloc),
            is_made: false,
        }
    }

    // Makes the lists. Where memory runs out, some are missing.
    pub(crate) fn make(&mut self, alloc: Global, ground: Ground<'_>) {
        self.is_made = match self.add_lists(alloc, ground) {
            Ok(()) => true,
            Err(Memory) => false,
        };
    }

    fn add_lists(&mut self, alloc: Global, ground: Ground<'_>) -> Result<(), Memory> {
        self.items = Vec::with_capacity(alloc, self.use_count(ground))?;
        let mut tally = Tally::new(alloc, ground.classes)?;
        for part in self.first..self.end {
            if part > self.first {
                tally.lessen(ground.order, ground.edges.ends(part));
            }
            tally.add_all(ground.order, ground.edges.begins(part));
            if number_at(ground.same, part as usize) == part {
                let span = tally.add_uses(&mut self.items)?;
                self.spans.push(span)?;
            }
        }
        Ok(())
    }

    // How many uses the lists have together, where no class has several in one.
    fn use_count(&self, ground: Ground<'_>) -> usize {
        let mut uses: usize = 0;
        let mut count: usize = 0;
        for part in self.first..self.end {
            if part > self.first {
                uses = uses.saturating_sub(class_count(ground.edges.ends(part)));
            }
            uses = uses.saturating_add(class_count(ground.edges.begins(part)));
            if number_at(ground.same, part as usize) == part {
                count = count.saturating_add(uses);
            }
        }
        count
    }
}

// How many classes edges have together.
fn class_count(edges: &[Edge]) -> usize {
    let mut count: usize = 0;
    for edge in edges {
        count = count.saturating_add(edge.to.saturating_sub(edge.from) as usize);
    }
    count
}

// The lists of all parts, whose pieces follow one another.
pub(crate) fn all_lists(
    alloc: Global,
    pieces: Vec<ListPiece>,
    same: &[u32],
) -> Result<Lists<ClassUse>, Memory> {
    let mut lists = Lists::new(alloc);
    for piece in pieces {
        if !piece.is_made {
            return Err(Memory);
        }
        add_lists(&mut lists, &piece, same)?;
        lists.end_piece(piece.items)?;
    }
    Ok(lists)
}

// Adds the lists of a piece's parts.
fn add_lists(lists: &mut Lists<ClassUse>, piece: &ListPiece, same: &[u32]) -> Result<(), Memory> {
    let mut next: usize = 0;
    for part in piece.first..piece.end {
        let first = number_at(same, part as usize) as usize;
        match piece.spans.get(next) {
            Some(span) if first >= lists.len() => {
                lists.add(*span)?;
                next = next.saturating_add(1);
            }
            _ => lists.add_same(first)?,
        }
    }
    Ok(())
}
