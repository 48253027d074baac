//! Strips that parts of a unit, one after another, have further and further on.

use crate::outline::{Outline, UnitParts};
use choice_problem::{Problem, Strip};
use slot_text::Memory;
use std::alloc::Global;

// How many distances of runs there are at most: a strip of another distance counts run by run.
const MOST_GAPS: usize = 8;

// How far on a strip may be from that of the part before.
const MOST_STEP: u32 = 64;

// In how many strips one of a lesser gap is cut, at most.
const MOST_CUTS: u32 = 16;

// A strip of a part, and those that the parts behind it have in the same place of their lists, each
// as far on as the one before, or further.
#[derive(Clone, Copy)]
pub(crate) struct Sweep {
    // The strip of the first part, with gap 0 where it has one run alone.
    pub(crate) strip: Strip,
    // The number of its gap among all.
    pub(crate) gap: u32,
    // The first part of the unit.
    pub(crate) unit: u32,
    // The first part.
    pub(crate) part: u32,
    // How many parts there are.
    pub(crate) parts: u32,
    // Where the moves of the parts begin: how far on the strip of each is from the first one.
    pub(crate) moves: usize,
    // The last move.
    far: u32,
}

impl Sweep {
    // How many runs of a strip differ.
    pub(crate) fn runs(&self) -> u32 {
        if self.strip.gap == 0 {
            1
        } else {
            self.strip.times
        }
    }

    // How often a strip uses each resource of a run.
    pub(crate) fn uses(&self) -> u32 {
        if self.strip.gap == 0 {
            self.strip.times
        } else {
            1
        }
    }

    // The sweep with the strip of one part more, if it goes on with it: the first runs of all parts
    // together stay within the gap.
    fn moved(&self, strip: &Strip) -> Option<Sweep> {
        let before = self.strip.first.saturating_add(self.far);
        if !self.is_like(strip) || strip.first < before {
            return None;
        }
        let far = strip.first.saturating_sub(self.strip.first);
        let whole = far.saturating_add(strip.width);
        if strip.first - before > MOST_STEP || (strip.gap > 0 && whole > strip.gap) {
            return None;
        }
        Some(Sweep {
            parts: self.parts.saturating_add(1),
            far,
            ..*self
        })
    }

    // Whether a strip differs from the first one at most by its first resource.
    fn is_like(&self, strip: &Strip) -> bool {
        self.strip.width == strip.width
            && self.strip.gap == strip.gap
            && self.strip.times == strip.times
    }
}

// The sweeps of all parts, by unit, and the gaps of their strips, each once, the first one 0.
#[derive(Drop)]
pub(crate) struct Sweeps {
    pub(crate) items: Vec<Sweep>,
    pub(crate) gaps: Vec<u32>,
    moves: Vec<u32>,
    // The greatest gap: strips of a lesser one that divides it are cut into strips of it, so that
    // the strips of one line have one gap, whether they have all its dates or those of a weekday.
    greatest: u32,
}

impl Sweeps {
    // The sweeps of a problem: one step a strip of a part, or of those that it is cut into.
    pub(crate) fn of(
        alloc: Global,
        problem: &Problem,
        outline: &Outline,
    ) -> Result<Sweeps, Memory> {
        let mut sweeps = Sweeps {
            items: Vec::new(alloc),
            gaps: Vec::new(alloc),
            moves: Vec::new(alloc),
            greatest: greatest_gap(problem, outline),
        };
        sweeps.gaps.push(0)?;
        for unit in 0..problem.units() {
            sweeps.add_unit(&outline.of_unit(unit, problem.unit_parts(unit)))?;
        }
        Ok(sweeps)
    }

    // How far on the strip of each part of a sweep is from the first one.
    pub(crate) fn moves_of(&self, sweep: &Sweep) -> &[u32] {
        let end = sweep.moves.saturating_add(sweep.parts as usize);
        if sweep.moves <= end && end <= self.moves.len() {
            &self.moves[sweep.moves..end]
        } else {
            &self.moves[0..0]
        }
    }

    // Adds the sweeps of a unit's parts, for one place of their lists after another.
    fn add_unit(&mut self, parts: &UnitParts<'_>) -> Result<(), Memory> {
        for place in 0..parts.most_strips() {
            for number in 0..most_cuts(parts, place, self.greatest) {
                self.add_place(parts, place, number)?;
            }
        }
        Ok(())
    }

    // Adds the sweeps of the strips at one place, or of those with a number among what they are cut
    // into.
    fn add_place(
        &mut self,
        parts: &UnitParts<'_>,
        place: usize,
        number: u32,
    ) -> Result<(), Memory> {
        let mut is_open = false;
        for (at, part) in (0..parts.len()).zip(parts.first..) {
            is_open = match cut_at(parts, at, place, self.greatest, number) {
                Some(strip) => self.add_strip(&strip, parts.first, part, is_open)?,
                None => false,
            };
        }
        Ok(())
    }

    // Adds a strip of a part: to the last sweep, if that is open and goes on with it. Answers
    // whether the last sweep is open then.
    fn add_strip(
        &mut self,
        strip: &Strip,
        unit: u32,
        part: u32,
        is_open: bool,
    ) -> Result<bool, Memory> {
        if is_open && self.goes_on(strip)? {
            return Ok(true);
        }
        if strip.gap == 0 || strip.width <= strip.gap {
            if let Some(gap) = self.gap_number(strip.gap)? {
                self.begin(*strip, gap, unit, part)?;
                return Ok(true);
            }
        }
        self.begin_runs(strip, unit, part)?;
        Ok(false)
    }

    // Adds a strip of the next part to the last sweep, if that goes on with it. Answers whether it
    // does.
    fn goes_on(&mut self, strip: &Strip) -> Result<bool, Memory> {
        let count = self.items.len();
        if count == 0 {
            return Ok(false);
        }
        match self.items[count - 1].moved(strip) {
            Some(moved) => {
                self.items[count - 1] = moved;
                self.moves.push(moved.far)?;
                Ok(true)
            }
            None => Ok(false),
        }
    }

    // The number of a gap, which is added if it is new and there is a place for it.
    fn gap_number(&mut self, gap: u32) -> Result<Option<u32>, Memory> {
        for (number, known) in (0..).zip(&self.gaps) {
            if *known == gap {
                return Ok(Some(number));
            }
        }
        let number = self.gaps.len();
        if number >= MOST_GAPS {
            return Ok(None);
        }
        self.gaps.push(gap)?;
        Ok(Some(number as u32))
    }

    // Begins a sweep with a strip of a part.
    fn begin(&mut self, strip: Strip, gap: u32, unit: u32, part: u32) -> Result<(), Memory> {
        let moves = self.moves.len();
        self.moves.push(0)?;
        self.items.push(Sweep {
            strip,
            gap,
            unit,
            part,
            parts: 1,
            moves,
            far: 0,
        })?;
        Ok(())
    }

    // Adds each run of a strip as a sweep of its own.
    fn begin_runs(&mut self, strip: &Strip, unit: u32, part: u32) -> Result<(), Memory> {
        for run in 0..strip.times {
            let (start, _) = strip.run(run);
            if start <= u64::from(u32::MAX) {
                let one = Strip {
                    first: start as u32,
                    width: strip.width,
                    gap: 0,
                    times: 1,
                };
                self.begin(one, 0, unit, part)?;
            }
        }
        Ok(())
    }
}

// The greatest gap of strips of several runs.
fn greatest_gap(problem: &Problem, outline: &Outline) -> u32 {
    let mut greatest = 0;
    for unit in 0..problem.units() {
        let parts = outline.of_unit(unit, problem.unit_parts(unit));
        for part in 0..parts.len() {
            greatest = greatest_of(parts.strips(part)).max(greatest);
        }
    }
    greatest
}

// The greatest gap of those strips that have several runs.
fn greatest_of(strips: &[Strip]) -> u32 {
    let mut greatest = 0;
    for strip in strips {
        if strip.times > 1 {
            greatest = strip.gap.max(greatest);
        }
    }
    greatest
}

// In how many strips of the greatest gap a strip is cut.
fn cuts_of(strip: &Strip, greatest: u32) -> u32 {
    if strip.gap == greatest {
        return 1;
    }
    let cuts = greatest.checked_div(strip.gap).unwrap_or(1).max(1);
    if cuts > MOST_CUTS || cuts.saturating_mul(strip.gap) != greatest {
        1
    } else {
        cuts
    }
}

// In how many strips those at a place of the lists of parts are cut, at most.
fn most_cuts(parts: &UnitParts<'_>, place: usize, greatest: u32) -> u32 {
    let mut most = 1;
    for part in 0..parts.len() {
        if let Some(strip) = parts.strips(part).get(place) {
            most = cuts_of(strip, greatest).max(most);
        }
    }
    most
}

// Of the strips that the one at a place of a part's list is cut into, the one with a number, if
// there is one: with gap 0 where it has one run alone.
fn cut_at(
    parts: &UnitParts<'_>,
    part: u32,
    place: usize,
    greatest: u32,
    number: u32,
) -> Option<Strip> {
    let strip = parts.strips(part).get(place)?;
    let cuts = cuts_of(strip, greatest);
    if number >= cuts || strip.times <= number || strip.width == 0 {
        return None;
    }
    let times = if cuts == 1 {
        strip.times
    } else {
        (strip.times - number).div_ceil(cuts)
    };
    Some(Strip {
        first: strip.first.saturating_add(strip.gap.saturating_mul(number)),
        gap: if times == 1 {
            0
        } else {
            strip.gap.saturating_mul(cuts)
        },
        times,
        ..*strip
    })
}
