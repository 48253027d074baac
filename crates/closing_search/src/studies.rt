//! Studies of open nodes before their turn, side by side on threads: their relaxations are solved,
//! and their splits looked at. At its turn a node takes of its study what it needs, as one thread
//! alone would make it then; so the answer is the same for each number of threads.

ghost use Rattle.std.specs.Thread.{IsSync};

use crate::allowed::Allowed;
use crate::looks::{Before, Field, Half, Looker, Seen, is_split};
use crate::pricings::{Pricing, closing};
use crate::scores::Scores;
use crate::splits::{Looks, Split, candidates, first_of};
use crate::states::{Open, Task};
use relaxed_problem::{End, Ended, Relaxation};
use slot_text::Memory;
use std::alloc::Global;
use std::thread;
use std::thread::Threads;

/// The most pivots of one node.
pub(crate) const NODE_PIVOTS: u32 = 20_000;

/// At most how many threads study nodes, and how many nodes each of them at a time.
pub(crate) const MOST_HELPERS: usize = 16;

const AT_A_TIME: usize = 2;

// How many of the nodes that are to be searched next may be studied, and of how many studies are
// kept at most.
const MOST_AHEAD: usize = 64;

const MOST_STUDIED: usize = 48;

// How many relaxations a study keeps.
const SPARES_OF_STUDY: usize = 3;

/// What the threads of a tree know: the vectors, and whether there is room for more of them; the
/// least cost, and the value above which a relaxation shows that no choice in its ranges is
/// cheaper; the alternatives that the search may take; what splits gained so far; and how they are
/// looked at.
#[derive(Clone, Copy)]
pub(crate) struct Known<'a> {
    pub(crate) pricings: &'a [Pricing],
    pub(crate) has_room: bool,
    pub(crate) cost: Option<u64>,
    pub(crate) enough: f64,
    pub(crate) base: &'a Allowed,
    pub(crate) scores: &'a Scores,
    pub(crate) is_by_quotas: bool,
    pub(crate) looks: Looks,
}

/// A solved relaxation, and how it ended.
#[derive(Drop)]
pub(crate) struct Solved {
    pub(crate) relaxation: Relaxation,
    pub(crate) ended: Ended,
}

// The relaxations of the parts of a split.
#[derive(Drop)]
struct Parts {
    split: Split,
    low: Option<Half>,
    high: Option<Half>,
}

/// What was made of a node before its turn, when this was the least cost: its relaxation, until the
/// node takes it; its prices, where they may be needed; what was seen of its splits; and the
/// relaxations of the parts of the best one of these.
#[derive(Drop)]
pub(crate) struct Study {
    cost: Option<u64>,
    solved: Option<Solved>,
    pricing: Option<Pricing>,
    seen: Vec<Seen>,
    parts: Option<Parts>,
}

impl Study {
    // Looks at the splits of the relaxation, if it is solved, and makes the prices, where they may
    // be needed.
    fn look(
        &mut self,
        alloc: Global,
        task: &Task<'_>,
        known: Known<'_>,
        looker: &mut Looker,
    ) -> Result<(), Memory> {
        let Some(solved) = &self.solved else {
            return Ok(());
        };
        let relaxation = &solved.relaxation;
        let end = solved.ended.end;
        let may_close = end == End::Solved && relaxation.value() > known.enough - 1.0;
        if end == End::Above || may_close || (end == End::Solved && known.has_room) {
            self.pricing = Some(Pricing::of(alloc, task, known.base, relaxation)?);
        }
        if end != End::Solved {
            return Ok(());
        }
        self.parts = parts_of(alloc, task, known, relaxation, looker, &mut self.seen)?;
        Ok(())
    }
}

// The relaxations of the parts of the best split of a solved relaxation, if it has splits. Adds
// what was seen.
fn parts_of(
    alloc: Global,
    task: &Task<'_>,
    known: Known<'_>,
    relaxation: &Relaxation,
    looker: &mut Looker,
    seen: &mut Vec<Seen>,
) -> Result<Option<Parts>, Memory> {
    let shares = relaxation.shares(alloc, task.program)?;
    let found = candidates(
        alloc,
        task,
        known.scores,
        known.is_by_quotas,
        relaxation,
        &shares,
    )?;
    let field = Field {
        relaxation,
        candidates: first_of(&found, known.looks.most),
        looks: known.looks,
        enough: known.enough,
    };
    let before = Before {
        seen: &[],
        kept: None,
    };
    let pick = looker.pick(alloc, task, field, before, seen)?;
    let Some(split) = pick.best else {
        return Ok(None);
    };
    Ok(Some(Parts {
        split,
        low: Some(looker.take_part(alloc, false)?),
        high: Some(looker.take_part(alloc, true)?),
    }))
}

impl Open {
    // Whether it was studied for this cost.
    pub(crate) fn is_studied(&self, cost: Option<u64>) -> bool {
        match &self.study {
            Some(study) => study.cost == cost,
            None => false,
        }
    }

    // Forgets a study that was made for another cost.
    pub(crate) fn forget_others(&mut self, cost: Option<u64>) {
        if !self.is_studied(cost) {
            self.study = None;
        }
    }

    // Takes the relaxation of its study, if that has it.
    pub(crate) fn take_solved(&mut self) -> Option<Solved> {
        match &mut self.study {
            Some(study) => study.solved.take(),
            None => None,
        }
    }

    // Takes the prices of its study, if that has them.
    pub(crate) fn take_pricing(&mut self) -> Option<Pricing> {
        match &mut self.study {
            Some(study) => study.pricing.take(),
            None => None,
        }
    }

    // What was seen of its splits.
    pub(crate) fn before(&self) -> Before<'_> {
        match &self.study {
            Some(study) => Before {
                seen: &study.seen,
                kept: match &study.parts {
                    Some(parts) => Some(parts.split),
                    None => None,
                },
            },
            None => Before {
                seen: &[],
                kept: None,
            },
        }
    }

    // Takes the relaxation of a part of a split, if its study has it.
    pub(crate) fn take_part(&mut self, split: Split, is_high: bool) -> Option<Half> {
        let study = match &mut self.study {
            Some(study) => study,
            None => return None,
        };
        match &mut study.parts {
            Some(parts) if is_split(Some(parts.split), split) => {
                if is_high {
                    parts.high.take()
                } else {
                    parts.low.take()
                }
            }
            _ => None,
        }
    }

    // Studies it, where no vector that there is closes it. Where memory runs out, it has no study.
    fn study(&mut self, alloc: Global, task: &Task<'_>, known: Known<'_>, looker: &mut Looker) {
        self.study = match self.studied(alloc, task, known, looker) {
            Ok(study) => study,
            Err(Memory) => None,
        };
    }

    // A study of it, where no vector closes it.
    fn studied(
        &mut self,
        alloc: Global,
        task: &Task<'_>,
        known: Known<'_>,
        looker: &mut Looker,
    ) -> Result<Option<Study>, Memory> {
        self.complete_values(task, known.pricings)?;
        if closing(known.pricings, &self.values, known.cost).is_some() {
            return Ok(None);
        }
        let mut relaxation = looker.copy_of(alloc, &self.relaxation)?;
        let work = &mut looker.work;
        let ended = relaxation.solve_by(alloc, task.program, work, NODE_PIVOTS, known.enough)?;
        let mut study = Study {
            cost: known.cost,
            solved: Some(Solved { relaxation, ended }),
            pricing: None,
            seen: Vec::new(alloc),
            parts: None,
        };
        study.look(alloc, task, known, looker)?;
        Ok(Some(study))
    }

    // Computes the bounds of the vectors that were added since it was made.
    pub(crate) fn complete_values(
        &mut self,
        task: &Task<'_>,
        pricings: &[Pricing],
    ) -> Result<(), Memory> {
        let known = self.values.len();
        for pricing in pricings.iter().skip(known) {
            let value = pricing.value(task.problem, task.reduced, &self.allowed);
            self.values.push(value)?;
        }
        Ok(())
    }

    // Computes the bound of a vector anew, in whose place there is another one now.
    pub(crate) fn revalue(&mut self, task: &Task<'_>, vector: u32, pricing: &Pricing) {
        if let Some(value) = self.values.get_mut(vector as usize) {
            *value = pricing.value(task.problem, task.reduced, &self.allowed);
        }
    }
}

// An open node that is lent, and its place among these.
#[derive(Drop)]
struct Lent {
    place: usize,
    open: Open,
}

/// What a thread studies nodes with, and the nodes that are lent to it, those of the greatest
/// places first.
#[derive(Drop)]
pub(crate) struct Helper {
    looker: Looker,
    nodes: Vec<Lent>,
}

impl Helper {
    // Studies its nodes.
    fn study(&mut self, alloc: Global, task: &Task<'_>, known: Known<'_>) {
        let Helper { looker, nodes } = self;
        for lent in nodes.iter_mut() {
            lent.open.study(alloc, task, known, looker);
        }
    }

    // Takes back the node of this place, if it was lent to this one.
    fn give_back(&mut self, place: usize) -> Option<Open> {
        match self.nodes.last() {
            Some(lent) if lent.place == place => match self.nodes.pop() {
                Some(Lent { open, .. }) => Some(open),
                None => None,
            },
            _ => None,
        }
    }
}

/// So many helpers for a program, of which this is a relaxation.
pub(crate) fn helpers_of(
    alloc: Global,
    task: &Task<'_>,
    root: &Relaxation,
    count: usize,
) -> Result<Vec<Helper>, Memory> {
    let mut helpers = Vec::new(alloc);
    for _ in 0..count {
        helpers.push(Helper {
            looker: Looker::new(alloc, task, root)?,
            nodes: Vec::new(alloc),
        })?;
    }
    Ok(helpers)
}

/// Studies nodes that are to come next, among them the last one, which is to come first, side by
/// side.
pub(crate) fn study_nodes<R: Threads + Sync>(
    rt: &R,
    alloc: Global,
    task: &Task<'_>,
    known: Known<'_>,
    looker: &mut Looker,
    helpers: &mut [Helper],
    nodes: &mut Vec<Open>,
) -> Result<(), Memory> {
    let end = nodes.len();
    let lent = lend(task, known, looker, helpers, nodes)?;
    let first = helpers.len().saturating_sub(lent);
    let errand = Errand { alloc, task, known };
    if first <= helpers.len() {
        run_all(rt, &mut helpers[first..], errand);
    }
    take_back(helpers, nodes, end)
}

// Lends nodes that are to be studied to helpers, the last one to the last. Answers how many there
// are.
fn lend(
    task: &Task<'_>,
    known: Known<'_>,
    looker: &mut Looker,
    helpers: &mut [Helper],
    nodes: &mut Vec<Open>,
) -> Result<usize, Memory> {
    let end = nodes.len();
    let most = most_lent(known.cost, helpers.len(), nodes);
    let mut lent: usize = 0;
    for place in (end.saturating_sub(MOST_AHEAD)..end).rev() {
        if lent < most && is_due_at(task, known, nodes, place)? {
            lend_one(looker, helpers, nodes, place, lent)?;
            lent = lent.saturating_add(1);
        }
    }
    Ok(lent)
}

// How many nodes are lent at most to so many helpers.
fn most_lent(cost: Option<u64>, helpers: usize, nodes: &[Open]) -> usize {
    let mut studied: usize = 0;
    for open in nodes {
        if open.is_studied(cost) {
            studied = studied.saturating_add(1);
        }
    }
    let most = MOST_STUDIED.saturating_sub(studied).max(1);
    most.min(helpers.saturating_mul(AT_A_TIME))
}

// Whether the node at a place was not studied, and no vector that there is closes it.
fn is_due_at(
    task: &Task<'_>,
    known: Known<'_>,
    nodes: &mut [Open],
    place: usize,
) -> Result<bool, Memory> {
    let Some(open) = nodes.get_mut(place) else {
        return Ok(false);
    };
    if open.is_studied(known.cost) {
        return Ok(false);
    }
    open.complete_values(task, known.pricings)?;
    Ok(closing(known.pricings, &open.values, known.cost).is_none())
}

// Lends the node at a place: one after another from the last helper to the first, and then back;
// and with it spares for its study.
fn lend_one(
    looker: &mut Looker,
    helpers: &mut [Helper],
    nodes: &mut Vec<Open>,
    place: usize,
    number: usize,
) -> Result<(), Memory> {
    let count = helpers.len();
    let at = if number < count {
        count.saturating_sub(number).saturating_sub(1)
    } else {
        number.saturating_sub(count)
    };
    if let Some(helper) = helpers.get_mut(at) {
        if place < nodes.len() {
            let open = nodes.remove(place);
            helper.nodes.push(Lent { place, open })?;
            let spares = helper.nodes.len().saturating_mul(SPARES_OF_STUDY);
            looker.share_spares(&mut helper.looker, spares)?;
        }
    }
    Ok(())
}

// Takes all nodes back, of which there were so many.
fn take_back(helpers: &mut [Helper], nodes: &mut Vec<Open>, end: usize) -> Result<(), Memory> {
    for place in end.saturating_sub(MOST_AHEAD)..end {
        if let Some(open) = lent_at(helpers, place) {
            if place <= nodes.len() {
                nodes.insert(place, open)?;
            }
        }
    }
    Ok(())
}

// Takes the node of a place from the helper to which it was lent, if it was.
fn lent_at(helpers: &mut [Helper], place: usize) -> Option<Open> {
    for helper in helpers.iter_mut() {
        if let Some(open) = helper.give_back(place) {
            return Some(open);
        }
    }
    None
}

// What helpers are to do: to study their nodes.
#[derive(Clone, Copy)]
struct Errand<'a> {
    alloc: Global,
    task: &'a Task<'a>,
    known: Known<'a>,
}

impl Errand<'_> {
    // Does it on one thread.
    fn run(&self, helper: &mut Helper) {
        helper.study(self.alloc, self.task, self.known);
    }
}

// Of so many helpers the last one's thread, which is the caller's, starts those of all others.
const STARTED_BY_CALLER: usize = 3;

// Lets all do it, the last one on the caller's thread. Of four, `for_each_mut` would let the caller
// start two threads and the first of these a third one; two that different threads start at the
// same time often come to one processor while another one is idle. So the caller starts them all.
fn run_all<R: Threads + Sync>(rt: &R, helpers: &mut [Helper], errand: Errand<'_>) {
    let before = helpers.len().saturating_sub(STARTED_BY_CALLER);
    if before == 0 {
        run_some(rt, helpers, errand);
        return;
    }
    let (others, last) = helpers.split_at_mut(before);
    thread::join_mut(
        rt,
        &mut ||
            requires { IsSync R.row }
        { run_some(rt, others, errand) },
        &mut ||
            requires { IsSync R.row }
        { run_some(rt, last, errand) },
    );
}

// Lets some do it.
fn run_some<R: Threads + Sync>(rt: &R, helpers: &mut [Helper], errand: Errand<'_>) {
    let threads = helpers.len().max(1);
    thread::for_each_mut(rt, helpers, threads, &|_, helper| errand.run(helper));
}
