//! Looks at the parts of the splits of a node. What a look finds depends on the node, on the split
//! and on the least cost alone, so what was seen of a node before its turn serves at its turn.

use crate::rules::Rule;
use crate::splits::{Candidate, Looks, Split, gain_of, is_no_better, room_below};
use crate::states::Task;
use relaxed_problem::{Ended, Relaxation, Work};
use slot_text::Memory;
use std::alloc::Global;
use std::mem;

/// The solved relaxation of a node, its splits in the order in which they are looked at, how they
/// are, and the value at which a look stops.
#[derive(Clone, Copy)]
pub(crate) struct Field<'a> {
    pub(crate) relaxation: &'a Relaxation,
    pub(crate) candidates: &'a [Candidate],
    pub(crate) looks: Looks,
    pub(crate) enough: f64,
}

/// How a look at a part of a split ended, and the value that it reached.
#[derive(Clone, Copy)]
pub(crate) struct Reached {
    pub(crate) ended: Ended,
    value: f64,
}

/// What was seen of a split: of the part that is looked at first, and of the other one, where that
/// was looked at; and what counts as the gains of both.
#[derive(Clone, Copy)]
pub(crate) struct Seen {
    pub(crate) split: Split,
    pub(crate) first: Reached,
    pub(crate) other: Option<Reached>,
    pub(crate) gain: f64,
    pub(crate) other_gain: f64,
}

/// The best split of those that were looked at, the product of its gains, and how many looks
/// followed it.
#[derive(Clone, Copy)]
pub(crate) struct Pick {
    pub(crate) best: Option<Split>,
    most: f64,
    idle: u32,
}

impl Pick {
    // None was looked at.
    fn none() -> Pick {
        Pick {
            best: None,
            most: -1.0,
            idle: 0,
        }
    }

    // Takes in what was seen of a split. Answers whether it is better than the others. The part
    // that gains less is searched first.
    fn take(&mut self, seen: &Seen) -> bool {
        self.idle = self.idle.saturating_add(1);
        let product = seen.gain * seen.other_gain;
        if product <= self.most {
            return false;
        }
        self.most = product;
        self.idle = 0;
        self.best = Some(Split {
            is_low_first: (seen.gain <= seen.other_gain) == seen.split.is_low_first,
            ..seen.split
        });
        true
    }
}

/// A relaxation of a part of a split, as far as it was looked at, and how that ended.
#[derive(Drop)]
pub(crate) struct Half {
    pub(crate) relaxation: Relaxation,
    pub(crate) ended: Option<Ended>,
}

impl Half {
    // A relaxation from which nothing was made.
    fn new(alloc: Global, root: &Relaxation) -> Result<Half, Memory> {
        Ok(Half {
            relaxation: root.copy(alloc)?,
            ended: None,
        })
    }

    // Goes on from the node in one part of a split.
    fn look(
        &mut self,
        alloc: Global,
        task: &Task<'_>,
        field: Field<'_>,
        split: Split,
        is_high: bool,
        work: &mut Work,
    ) -> Result<Reached, Memory> {
        self.relaxation.copy_from(field.relaxation)?;
        task.keep(&mut self.relaxation, split.unit, split.rule, is_high);
        let (pivots, enough) = (field.looks.pivots, field.enough);
        let ended = self
            .relaxation
            .solve_by(alloc, task.program, work, pivots, enough)?;
        self.ended = Some(ended);
        Ok(Reached {
            ended,
            value: self.relaxation.value(),
        })
    }
}

/// What looks are made with: two relaxations for the parts of a split, those of the parts of the
/// best split so far, and which one that is; and relaxations that nothing needs any more, in whose
/// place others are written.
#[derive(Drop)]
pub(crate) struct Looker {
    pub(crate) work: Work,
    one: Half,
    two: Half,
    low: Half,
    high: Half,
    kept: Option<Split>,
    spares: Vec<Relaxation>,
}

impl Looker {
    // One for a program, of which this is a relaxation.
    pub(crate) fn new(alloc: Global, task: &Task<'_>, root: &Relaxation) -> Result<Looker, Memory> {
        Ok(Looker {
            work: Work::new(alloc, task.program)?,
            one: Half::new(alloc, root)?,
            two: Half::new(alloc, root)?,
            low: Half::new(alloc, root)?,
            high: Half::new(alloc, root)?,
            kept: None,
            spares: Vec::new(alloc),
        })
    }

    // Keeps a relaxation that nothing needs any more.
    pub(crate) fn spare(&mut self, relaxation: Relaxation) -> Result<(), Memory> {
        self.spares.push(relaxation)?;
        Ok(())
    }

    // Gives of its spares to another one, until that has so many.
    pub(crate) fn share_spares(&mut self, other: &mut Looker, most: usize) -> Result<(), Memory> {
        for _ in other.spares.len()..most {
            let Some(relaxation) = self.spares.pop() else {
                break;
            };
            other.spares.push(relaxation)?;
        }
        Ok(())
    }

    // A copy of a relaxation, in the place of a spare, if there is one.
    pub(crate) fn copy_of(
        &mut self,
        alloc: Global,
        relaxation: &Relaxation,
    ) -> Result<Relaxation, Memory> {
        match self.spares.pop() {
            Some(mut copy) => {
                copy.copy_from(relaxation)?;
                Ok(copy)
            }
            None => relaxation.copy(alloc),
        }
    }

    // Looks at the splits of a node in turn, as far as this was not done before, until so many
    // without a better one followed a best one. Adds what was seen. The parts of the best split are
    // kept then, unless they are those that are there already.
    pub(crate) fn pick(
        &mut self,
        alloc: Global,
        task: &Task<'_>,
        field: Field<'_>,
        before: Before<'_>,
        seen: &mut Vec<Seen>,
    ) -> Result<Pick, Memory> {
        self.kept = None;
        let mut pick = Pick::none();
        for candidate in field.candidates {
            if pick.idle >= field.looks.idle {
                break;
            }
            let known = seen_of(before.seen, candidate.split);
            let one = self.see(alloc, task, field, candidate.split, known, pick.most)?;
            seen.push(one)?;
            if pick.take(&one) && known.is_none() {
                self.keep(one.split);
            }
        }
        self.keep_best(alloc, task, field, before.kept, pick.best)?;
        Ok(pick)
    }

    // What is seen of a split, of which this was seen before, where the product of its gains must
    // pass another one. Where the part that is looked at first shows that it does not, the other
    // one counts as if it gained all that it can.
    fn see(
        &mut self,
        alloc: Global,
        task: &Task<'_>,
        field: Field<'_>,
        split: Split,
        known: Option<Seen>,
        most: f64,
    ) -> Result<Seen, Memory> {
        let room = room_below(field.enough, field.relaxation);
        let first = match known {
            Some(seen) => seen.first,
            None => self.look_at_first(alloc, task, field, split)?,
        };
        let gain = part_gain(field, first, room);
        let mut other = None;
        let mut other_gain = room;
        if !is_no_better(gain, room, most) {
            let reached = match known {
                Some(
                    Seen {
                        other: Some(reached),
                        ..
                    },
                ) => reached,
                _ => self.look_at_other(alloc, task, field, split)?,
            };
            other = Some(reached);
            other_gain = part_gain(field, reached, room);
        }
        Ok(Seen {
            split,
            first,
            other,
            gain,
            other_gain,
        })
    }

    // Looks at the first part of a split.
    fn look_at_first(
        &mut self,
        alloc: Global,
        task: &Task<'_>,
        field: Field<'_>,
        split: Split,
    ) -> Result<Reached, Memory> {
        let is_high = !split.is_low_first;
        self.one
            .look(alloc, task, field, split, is_high, &mut self.work)
    }

    // Looks at the other part of a split.
    fn look_at_other(
        &mut self,
        alloc: Global,
        task: &Task<'_>,
        field: Field<'_>,
        split: Split,
    ) -> Result<Reached, Memory> {
        let is_high = split.is_low_first;
        self.two
            .look(alloc, task, field, split, is_high, &mut self.work)
    }

    // Takes the relaxation of a part of the best split; a spare, or a new one, takes its place.
    pub(crate) fn take_part(&mut self, alloc: Global, is_high: bool) -> Result<Half, Memory> {
        let relaxation = match self.spares.pop() {
            Some(relaxation) => relaxation,
            None => self.one.relaxation.copy(alloc)?,
        };
        let other = Half {
            relaxation,
            ended: None,
        };
        let part = if is_high {
            &mut self.high
        } else {
            &mut self.low
        };
        Ok(mem::replace(part, other))
    }

    // Keeps the parts of a split, which were looked at last.
    fn keep(&mut self, split: Split) {
        if split.is_low_first {
            mem::swap(&mut self.low, &mut self.one);
            mem::swap(&mut self.high, &mut self.two);
        } else {
            mem::swap(&mut self.high, &mut self.one);
            mem::swap(&mut self.low, &mut self.two);
        }
        self.kept = Some(split);
    }

    // Keeps the parts of the best split, unless they are kept or there already.
    fn keep_best(
        &mut self,
        alloc: Global,
        task: &Task<'_>,
        field: Field<'_>,
        there: Option<Split>,
        best: Option<Split>,
    ) -> Result<(), Memory> {
        let Some(split) = best else {
            return Ok(());
        };
        if is_split(there, split) || is_split(self.kept, split) {
            return Ok(());
        }
        let _first = self.look_at_first(alloc, task, field, split)?;
        let _other = self.look_at_other(alloc, task, field, split)?;
        self.keep(split);
        Ok(())
    }
}

/// What was seen of a node before: its splits, and the one whose parts are there.
#[derive(Clone, Copy)]
pub(crate) struct Before<'a> {
    pub(crate) seen: &'a [Seen],
    pub(crate) kept: Option<Split>,
}

// What was seen of a split, if it was looked at.
fn seen_of(seen: &[Seen], split: Split) -> Option<Seen> {
    for one in seen {
        if is_same(one.split, split) {
            return Some(*one);
        }
    }
    None
}

// Whether there is a split, and it is this one.
pub(crate) fn is_split(found: Option<Split>, split: Split) -> bool {
    match found {
        Some(other) => is_same(other, split),
        None => false,
    }
}

// Whether two splits are the same.
fn is_same(one: Split, other: Split) -> bool {
    one.unit == other.unit && is_same_rule(one.rule, other.rule)
}

// Whether two rules are the same.
fn is_same_rule(one: Rule, other: Rule) -> bool {
    match (one, other) {
        (Rule::From(from), Rule::From(start)) => from == start,
        (
            Rule::Uses { class, least },
            Rule::Uses {
                class: named,
                least: count,
            },
        ) => { class == named && least == count }
        _ => false,
    }
}

// What counts as the gain of a part.
fn part_gain(field: Field<'_>, reached: Reached, room: f64) -> f64 {
    gain_of(
        reached.ended,
        reached.value - field.relaxation.value(),
        room,
    )
}
