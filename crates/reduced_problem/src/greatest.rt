//! How often the units together can use each resource.

use crate::classes::is_marked;
use crate::outline::{Outline, UnitParts};
use crate::sums::Sums;
use choice_problem::{Problem, Strip};
use slot_text::Memory;
use std::alloc::Global;

// A strip in an order in which strips that can be joined follow one another.
#[derive(Clone, Copy, Debug, PartialEq, Eq, PartialOrd, Ord)]
struct Placed {
    gap: u32,
    times: u32,
    first: u32,
    width: u32,
    // The number of the part whose strip it is.
    part: u32,
}

impl Placed {
    // No resources.
    fn none() -> Placed {
        Placed {
            gap: 0,
            times: 0,
            first: 0,
            width: 0,
            part: 0,
        }
    }

    // A strip of a part.
    fn of(strip: &Strip, part: u32) -> Placed {
        Placed {
            gap: strip.gap,
            times: strip.times,
            first: strip.first,
            width: strip.width,
            part,
        }
    }

    // The resource after the first run.
    fn end(&self) -> u32 {
        self.first.saturating_add(self.width)
    }

    // Whether both have as many runs as far apart.
    fn is_like(&self, other: &Placed) -> bool {
        self.gap == other.gap && self.times == other.times
    }

    // The strip of the resources of both, if there is one: both have runs as far apart and as many,
    // and the first run of the other begins within this one's or at its end.
    fn joined(&self, other: &Placed) -> Option<Placed> {
        let width = self.end().max(other.end()).saturating_sub(self.first);
        let alike = self.is_like(other) && other.first <= self.end();
        if alike && (width <= self.gap || width == self.width || self.times == 1) {
            Some(Placed { width, ..*self })
        } else {
            None
        }
    }

    fn strip(&self) -> Strip {
        Strip {
            first: self.first,
            width: self.width,
            gap: self.gap,
            times: self.times,
        }
    }
}

// For each resource at least as many uses as the units together can have: for each unit the strips
// of the first parts of its alternatives, joined, and those of the second parts. One step a strip
// of each part, and a few a joined strip.
pub(crate) fn joined_uses(
    alloc: Global,
    problem: &Problem,
    outline: &Outline,
) -> Result<Vec<u64>, Memory> {
    let mut joined = Joined {
        sums: Sums::new(alloc, problem.resources())?,
        placed: Vec::new(alloc),
        last: Vec::new(alloc),
    };
    for unit in 0..problem.units() {
        let parts = outline.of_unit(unit, problem.unit_parts(unit));
        joined.add_parts(alloc, &parts, parts.firsts)?;
        joined.add_parts(alloc, &parts, parts.seconds)?;
    }
    Ok(joined.sums.total())
}

// The uses of strips, joined where they can be. `last` keeps the last strip of each part.
#[derive(Drop)]
struct Joined {
    sums: Sums,
    placed: Vec<Placed>,
    last: Vec<Placed>,
}

impl Joined {
    // Adds the strips of the marked ones of a unit's parts.
    fn add_parts(
        &mut self,
        alloc: Global,
        parts: &UnitParts<'_>,
        marks: &[bool],
    ) -> Result<(), Memory> {
        self.placed.truncate(0);
        for place in 0..parts.most_strips() {
            add_placed(&mut self.placed, parts, marks, place)?;
        }
        self.placed.sort()?;
        self.last.truncate(0);
        self.last.resize(parts.len() as usize, Placed::none())?;
        self.join(alloc)
    }

    // Adds the strips of all places of a list, joined where they can be.
    fn join(&mut self, alloc: Global) -> Result<(), Memory> {
        let mut open = Placed::none();
        for next in &self.placed {
            let again = is_again(&mut self.last, next);
            open = join_next(alloc, &mut self.sums, &open, next, again)?;
        }
        self.sums.add(alloc, &open.strip(), 1)
    }
}

// Adds the strips of marked parts that stand at a place of their lists.
fn add_placed(
    placed: &mut Vec<Placed>,
    parts: &UnitParts<'_>,
    marks: &[bool],
    place: usize,
) -> Result<(), Memory> {
    for part in 0..parts.len() {
        if is_marked(marks, part) {
            if let Some(strip) = parts.strips(part).get(place) {
                placed.push(Placed::of(strip, part))?;
            }
        }
    }
    Ok(())
}

// Whether a strip has resources of the part's last one, and so must not be joined with it. It
// becomes the last one.
fn is_again(last: &mut [Placed], next: &Placed) -> bool {
    let at = next.part as usize;
    if at >= last.len() {
        return false;
    }
    let before = last[at];
    last[at] = *next;
    before.is_like(next) && next.first < before.end()
}

// What is open after one strip more: both joined, or the strip alone, where the open one is added.
fn join_next(
    alloc: Global,
    sums: &mut Sums,
    open: &Placed,
    next: &Placed,
    again: bool,
) -> Result<Placed, Memory> {
    match open.joined(next) {
        Some(joined) if !again => Ok(joined),
        _ => {
            sums.add(alloc, &open.strip(), 1)?;
            Ok(*next)
        }
    }
}
