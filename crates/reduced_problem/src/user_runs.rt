//! The runs of users that sweeps make, each once.

use crate::classes::UserRun;
use crate::numbers::{as_number, number_at};
use crate::rows::Span;
use crate::sweeps::{Sweep, Sweeps};
use slot_text::Memory;
use std::alloc::Global;

// How many of the last sweeps are looked at for one with the same parts, moves, width and uses.
const LOOKED_BACK: usize = 8;

// Resources of a sweep that follow one another and have the same users: from which on, and to
// which, counted from its first one, and the number of the run of these users.
#[derive(Clone, Copy)]
pub(crate) struct Piece {
    pub(crate) from: u32,
    pub(crate) to: u32,
    pub(crate) run: u32,
}

// A run of users, and the place where its number is written: ordered by the run.
#[derive(Clone, Copy, Debug, PartialEq, Eq, PartialOrd, Ord)]
pub(crate) struct Tag {
    pub(crate) first: u32,
    pub(crate) end: u32,
    pub(crate) uses: u32,
    pub(crate) place: usize,
}

impl Tag {
    pub(crate) fn run(&self) -> UserRun {
        UserRun {
            first: self.first,
            end: self.end,
            uses: self.uses,
        }
    }
}

// Runs of users, each once, by rising part, with the first part of the unit of each, and for each
// sweep the pieces that it has.
#[derive(Drop)]
pub(crate) struct UserRuns {
    pub(crate) items: Vec<UserRun>,
    pub(crate) units: Vec<u32>,
    // How many of them are sorted: those behind are of several strips.
    pub(crate) sorted: u32,
    pieces: Vec<Piece>,
    spans: Vec<Span>,
    // The runs of the last unit, until they are numbered.
    tags: Vec<Tag>,
}

impl UserRuns {
    // The runs of users of sweeps: one step a part of a sweep.
    pub(crate) fn of(alloc: Global, sweeps: &Sweeps) -> Result<UserRuns, Memory> {
        let mut runs = UserRuns {
            items: Vec::new(alloc),
            units: Vec::new(alloc),
            sorted: 0,
            pieces: Vec::new(alloc),
            spans: Vec::with_capacity(alloc, sweeps.items.len())?,
            tags: Vec::new(alloc),
        };
        let mut unit = 0;
        for sweep in &sweeps.items {
            if sweep.unit != unit {
                runs.end_unit(unit)?;
            }
            unit = sweep.unit;
            runs.add_sweep(sweeps, sweep)?;
        }
        runs.end_unit(unit)?;
        runs.sorted = as_number(runs.items.len());
        Ok(runs)
    }

    // The pieces of a sweep, by its number.
    pub(crate) fn pieces_of(&self, sweep: usize) -> &[Piece] {
        match self.spans.get(sweep) {
            Some(span) => span.of(&self.pieces),
            None => &self.pieces[0..0],
        }
    }

    // Adds the pieces of the next sweep, or lets it have those of one before.
    fn add_sweep(&mut self, sweeps: &Sweeps, sweep: &Sweep) -> Result<(), Memory> {
        let span = match self.known_span(sweeps, sweep) {
            Some(known) => known,
            None => {
                let start = self.pieces.len();
                self.add_pieces(sweep, sweeps.moves_of(sweep))?;
                let end = self.pieces.len();
                Span { start, end }
            }
        };
        self.spans.push(span)?;
        Ok(())
    }

    // The pieces of one of the last sweeps that are the same as those of the next one.
    fn known_span(&self, sweeps: &Sweeps, sweep: &Sweep) -> Option<Span> {
        let count = self.spans.len();
        for back in 1..count.min(LOOKED_BACK).saturating_add(1) {
            let number = count.saturating_sub(back);
            let known = sweeps.items.get(number)?;
            if has_same_users(sweeps, known, sweep) {
                return self.spans.get(number).copied();
            }
        }
        None
    }

    // Adds the pieces of a sweep whose parts have these moves.
    fn add_pieces(&mut self, sweep: &Sweep, moves: &[u32]) -> Result<(), Memory> {
        let width = sweep.strip.width;
        let (mut first, mut end) = (0, 0);
        let mut from = 0;
        for _ in 0..moves.len().saturating_mul(2) {
            first = place_above(moves, first, from, width);
            end = place_above(moves, end, from, 0);
            if first >= moves.len() {
                return Ok(());
            }
            let leaves = number_at(moves, first).saturating_add(width);
            let enters = moves.get(end).copied().unwrap_or(u32::MAX);
            let to = leaves.min(enters);
            if first < end {
                self.add_piece(sweep, from, to, (as_number(first), as_number(end)))?;
            }
            from = to;
        }
        Ok(())
    }

    // Adds a piece of a sweep, whose users are those from one of its parts to another.
    fn add_piece(
        &mut self,
        sweep: &Sweep,
        from: u32,
        to: u32,
        users: (u32, u32),
    ) -> Result<(), Memory> {
        self.tags.push(Tag {
            first: sweep.part.saturating_add(users.0),
            end: sweep.part.saturating_add(users.1),
            uses: sweep.uses(),
            place: self.pieces.len(),
        })?;
        self.pieces.push(Piece { from, to, run: 0 })?;
        Ok(())
    }

    // Numbers the runs of a unit's pieces.
    fn end_unit(&mut self, unit: u32) -> Result<(), Memory> {
        self.tags.sort_unstable();
        for tag in &self.tags {
            let run = tag.run();
            if self.items.last() != Some(&run) {
                self.items.push(run)?;
                self.units.push(unit)?;
            }
            if tag.place < self.pieces.len() {
                self.pieces[tag.place].run = as_number(self.items.len().saturating_sub(1));
            }
        }
        self.tags.truncate(0);
        Ok(())
    }
}

// Whether the resources of two sweeps, counted from their first ones, have the same users.
fn has_same_users(sweeps: &Sweeps, one: &Sweep, other: &Sweep) -> bool {
    one.part == other.part
        && one.parts == other.parts
        && one.strip.width == other.strip.width
        && one.uses() == other.uses()
        && sweeps.moves_of(one) == sweeps.moves_of(other)
}

// The first place from one on whose move, and a width, are above a number, or the end.
fn place_above(moves: &[u32], from: usize, number: u32, width: u32) -> usize {
    for place in from..moves.len() {
        if moves[place].saturating_add(width) > number {
            return place;
        }
    }
    moves.len()
}
