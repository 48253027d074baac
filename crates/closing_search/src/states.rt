//! What a search knows while its tree grows.

use crate::allowed::Allowed;
use crate::entries::{Entry, named_in};
use crate::looks::Looker;
use crate::pieces::bit_of;
use crate::pricings::{Pricing, closing};
use crate::rules::Rule;
use crate::scores::Scores;
use crate::studies::{Helper, MOST_HELPERS, Study, helpers_of};
use choice_problem::{Choice, Problem, Vector, cost_of, fits};
use reduced_problem::Reduced;
use relaxed_problem::{Ended, Program, Relaxation, Work};
use slot_text::Memory;
use std::alloc::Global;
use std::num::nearest_i64_to_f64;

// How many steps a pivot takes beside one for each alternative, and how many pivots it takes to
// begin.
const STEPS_APART: u64 = 5_000;

const STARTING: u64 = 4;

// The most vectors, that without prices among them: as many as bits tell which of them are used.
// And how many there may be while those of split nodes are taken in.
const MOST_PRICINGS: usize = 128;

const MOST_TAKEN: usize = 64;

// With fewer alternatives than this one thread does all.
const MANY_COLUMNS: usize = 1_000;

/// The problem, its resources that matter, those of which some part uses several, and the
/// alternatives that take part in the relaxations.
#[derive(Drop)]
pub(crate) struct Task<'a> {
    pub(crate) problem: &'a Problem,
    pub(crate) reduced: &'a Reduced,
    pub(crate) quotas: &'a [u32],
    pub(crate) program: &'a Program<'a>,
}

impl Task<'_> {
    // Lets a relaxation take the alternatives of one part of a split alone.
    pub(crate) fn keep(&self, relaxation: &mut Relaxation, unit: u32, rule: Rule, is_high: bool) {
        let first = self.program.first_column(unit);
        for (number, column) in (0..).zip(self.program.unit_columns(unit)) {
            let column_is_high = rule.is_high(self.problem, self.reduced, unit, column.number);
            if column_is_high != is_high {
                relaxation.shut(first.saturating_add(number));
            }
        }
    }
}

/// An open node: its entry, the alternatives that may be taken, their bounds at the first vectors,
/// as far as they were computed, and a relaxation from which to go on.
#[derive(Drop)]
pub(crate) struct Open {
    pub(crate) entry: u32,
    pub(crate) allowed: Allowed,
    pub(crate) values: Vec<i64>,
    pub(crate) relaxation: Relaxation,
    // What its relaxation took since it left that of the node that was split.
    pub(crate) made: Option<Ended>,
    // What was made of it before its turn.
    pub(crate) study: Option<Study>,
}

impl Open {
    // The first node, on these alternatives, which goes on from a relaxation.
    fn first(alloc: Global, root: &Relaxation, allowed: Allowed) -> Result<Open, Memory> {
        let relaxation = root.copy(alloc)?;
        Ok(Open {
            entry: 0,
            allowed,
            values: Vec::new(alloc),
            relaxation,
            made: None,
            study: None,
        })
    }

    // What a solution took, with what was made before it.
    pub(crate) fn whole(&self, ended: Ended) -> Ended {
        match self.made {
            Some(made) => Ended {
                pivots: ended.pivots.saturating_add(made.pivots),
                changes: ended.changes.saturating_add(made.changes),
                ..ended
            },
            None => ended,
        }
    }
}

// With so many open nodes, the last ones are searched first in any case.
const MANY_OPEN: usize = 160;

// How much lower a bound must be that is searched first.
const LOWER: f64 = 0.01;

/// The tree so far; its open nodes, those to be searched first last; the vectors that close leaves
/// and those of split nodes, the one without prices first; the best choice; how many steps of
/// relaxations may still be made, and the numbers of these steps; and whether splits by the uses of
/// quotas come first.
#[derive(Drop)]
pub(crate) struct State {
    pub(crate) entries: Vec<Entry>,
    pub(crate) open: Vec<Open>,
    pub(crate) pricings: Vec<Pricing>,
    pub(crate) best: Option<Choice>,
    pub(crate) cost: Option<u64>,
    pub(crate) steps: u64,
    pub(crate) work: Work,
    pub(crate) is_by_quotas: bool,
    pub(crate) is_thorough: bool,
    // Whether open nodes of low bounds are searched first, while there are not many.
    pub(crate) is_by_bounds: bool,
    // The alternatives that may be taken before any split.
    pub(crate) base: Allowed,
    // What splits gained so far.
    pub(crate) scores: Scores,
    // What splits are looked at with, what several threads study nodes with, and how many threads
    // there may be.
    pub(crate) looker: Looker,
    pub(crate) helpers: Vec<Helper>,
    pub(crate) workers: u32,
}

impl State {
    // One open node on these alternatives, which goes on from a relaxation.
    pub(crate) fn new(
        alloc: Global,
        task: &Task<'_>,
        root: &Relaxation,
        allowed: Allowed,
        steps: u64,
        workers: u32,
    ) -> Result<State, Memory> {
        let mut state = State::without_nodes(alloc, task, root, &allowed, steps, workers)?;
        state.begin(alloc, task, root, allowed)?;
        Ok(state)
    }

    // One open node on all alternatives, which goes on from a relaxation.
    pub(crate) fn of_all(
        alloc: Global,
        task: &Task<'_>,
        root: &Relaxation,
        steps: u64,
        workers: u32,
    ) -> Result<State, Memory> {
        let allowed = Allowed::all(alloc, task.problem)?;
        State::new(alloc, task, root, allowed, steps, workers)
    }

    // No nodes yet.
    fn without_nodes(
        alloc: Global,
        task: &Task<'_>,
        root: &Relaxation,
        allowed: &Allowed,
        steps: u64,
        workers: u32,
    ) -> Result<State, Memory> {
        let is_alone = workers < 2 || task.program.columns().len() < MANY_COLUMNS;
        let helpers = if is_alone { 0 } else { workers as usize };
        let base = allowed.copy(alloc)?;
        let work = Work::new(alloc, task.program)?;
        let scores = Scores::none(alloc, task.problem.units())?;
        let looker = Looker::new(alloc, task, root)?;
        let helpers = helpers_of(alloc, task, root, helpers.min(MOST_HELPERS))?;
        Ok(State {
            entries: Vec::new(alloc),
            open: Vec::new(alloc),
            pricings: Vec::new(alloc),
            best: None,
            cost: None,
            steps,
            work,
            is_by_quotas: !task.quotas.is_empty(),
            is_thorough: false,
            is_by_bounds: false,
            base,
            scores,
            looker,
            helpers,
            workers,
        })
    }

    // Adds an open node: the last one, or where those of low bounds are searched first, behind
    // those of no lower bounds.
    pub(crate) fn add_open(&mut self, open: Open) -> Result<(), Memory> {
        let place = self.place_of(open.relaxation.value());
        if place <= self.open.len() {
            self.open.insert(place, open)?;
        }
        Ok(())
    }

    // The place of an open node with this bound.
    fn place_of(&self, bound: f64) -> usize {
        if self.goes_by_bounds() {
            self.open
                .partition_point(|other| other.relaxation.value() >= bound)
        } else {
            self.open.len()
        }
    }

    // Whether open nodes of low bounds are searched first now.
    fn goes_by_bounds(&self) -> bool {
        self.is_by_bounds && self.open.len() < MANY_OPEN
    }

    // Whether a node with this bound must wait for the next open one, whose bound is lower.
    pub(crate) fn is_behind(&self, bound: f64) -> bool {
        match self.open.last() {
            Some(next) => self.goes_by_bounds() && next.relaxation.value() + LOWER < bound,
            None => false,
        }
    }

    // Adds the first node, on these alternatives, which goes on from a relaxation.
    fn begin(
        &mut self,
        alloc: Global,
        task: &Task<'_>,
        root: &Relaxation,
        allowed: Allowed,
    ) -> Result<(), Memory> {
        let first = Open::first(alloc, root, allowed)?;
        self.open.push(first)?;
        self.entries.push(Entry::Open)?;
        let none = Vector::new(Vec::new(alloc));
        let unpriced = Pricing::new(alloc, task, &self.base, none, 1)?;
        self.pricings.push(unpriced)?;
        Ok(())
    }

    // Begins a tree of all alternatives again, with the best choice and the steps that are left.
    pub(crate) fn begin_again(
        &mut self,
        alloc: Global,
        task: &Task<'_>,
        root: &Relaxation,
    ) -> Result<(), Memory> {
        *self = self.anew(alloc, task, root)?;
        Ok(())
    }

    // One open node on all alternatives, with the best choice and the steps that are left.
    fn anew(&self, alloc: Global, task: &Task<'_>, root: &Relaxation) -> Result<State, Memory> {
        let mut state = State::of_all(alloc, task, root, self.steps, self.workers)?;
        state.best = copy_if_any(alloc, &self.best)?;
        state.cost = self.cost;
        Ok(state)
    }

    // The best choice.
    pub(crate) fn into_best(self) -> Option<Choice> {
        let State { best, .. } = self;
        best
    }

    // Takes a choice, where it is feasible and cheaper than the best one.
    pub(crate) fn take(
        &mut self,
        alloc: Global,
        problem: &Problem,
        choice: Choice,
    ) -> Result<(), Memory> {
        if !choice.is_for(problem) {
            return Ok(());
        }
        let cost = cost_of(problem, &choice);
        if self.is_cheaper(cost) && fits(alloc, problem, &choice)? {
            self.best = Some(choice);
            self.cost = Some(cost);
        }
        Ok(())
    }

    // Takes a choice, if there is one.
    pub(crate) fn take_any(
        &mut self,
        alloc: Global,
        problem: &Problem,
        choice: Option<Choice>,
    ) -> Result<(), Memory> {
        match choice {
            Some(choice) => self.take(alloc, problem, choice),
            None => Ok(()),
        }
    }

    // Whether a cost is below that of the best choice, if there is one.
    fn is_cheaper(&self, cost: u64) -> bool {
        match self.cost {
            Some(best) => cost < best,
            None => true,
        }
    }

    // Counts the steps of a solution over a program: of its pivots, of what is done once for all of
    // them, and of changes of keys, each of which takes one for each unit and for each alternative
    // of one.
    pub(crate) fn spend(&mut self, program: &Program<'_>, ended: Ended) {
        let alternatives = program.columns().len() as u64;
        let units = u64::from(program.units());
        let times = u64::from(ended.pivots).saturating_add(STARTING);
        let pivots = alternatives
            .saturating_add(STEPS_APART)
            .saturating_mul(times);
        let change = units.saturating_add(alternatives / units.max(1));
        let changes = change.saturating_mul(u64::from(ended.changes));
        self.steps = self.steps.saturating_sub(pivots.saturating_add(changes));
    }

    // The least bound of an open node.
    pub(crate) fn least_bound(&self) -> f64 {
        let mut least = NEVER;
        for open in &self.open {
            if open.relaxation.value() < least {
                least = open.relaxation.value();
            }
        }
        least
    }

    // Closes an entry.
    pub(crate) fn close(&mut self, entry: u32, closed: Entry) {
        if let Some(place) = self.entries.get_mut(entry as usize) {
            *place = closed;
        }
    }

    // Takes in the vector of a node that is split, if there is one: it may close ranges that the
    // node becomes in the end.
    pub(crate) fn take_pricing(&mut self, pricing: Option<Pricing>) -> Result<(), Memory> {
        match pricing {
            Some(pricing) if self.has_room() => {
                self.pricings.push(pricing)?;
                Ok(())
            }
            _ => Ok(()),
        }
    }

    // Whether the prices of a solved relaxation of this value may close its node.
    pub(crate) fn may_close(&self, value: f64) -> bool {
        value > self.enough() - 1.0
    }

    // Whether there is room for the vectors of nodes that are split.
    pub(crate) fn has_room(&self) -> bool {
        self.pricings.len() < MOST_TAKEN
    }

    // Whether a vector closes a node.
    pub(crate) fn is_closed_by(&self, task: &Task<'_>, open: &Open, pricing: &Pricing) -> bool {
        let value = pricing.value(task.problem, task.reduced, &open.allowed);
        pricing.closes(value, self.cost)
    }

    // Closes a node by a new vector that does. Where there is no room for it, it takes the place of
    // one that closes no node; where each closes some, the entry stays open, and the search goes on
    // for better choices alone.
    pub(crate) fn close_by(
        &mut self,
        task: &Task<'_>,
        open: &Open,
        pricing: Pricing,
    ) -> Result<(), Memory> {
        let count = self.pricings.len();
        if count < MOST_PRICINGS {
            let vector = u32::try_from(count).unwrap_or(u32::MAX);
            self.close(open.entry, Entry::Closed(vector));
            self.pricings.push(pricing)?;
        } else if let Some(vector) = self.idle_vector() {
            self.close(open.entry, Entry::Closed(vector));
            self.replace(task, vector, pricing);
        }
        Ok(())
    }

    // The first vector with prices that closes no node, if there is one.
    fn idle_vector(&self) -> Option<u32> {
        let named = named_in(&self.entries);
        for (vector, _) in (0..).zip(&self.pricings) {
            if vector > 0 && named & bit_of(vector) == 0 {
                return Some(vector);
            }
        }
        None
    }

    // Puts a vector in the place of another one that closes no node.
    fn replace(&mut self, task: &Task<'_>, vector: u32, pricing: Pricing) {
        for open in self.open.iter_mut() {
            open.revalue(task, vector, &pricing);
        }
        if let Some(place) = self.pricings.get_mut(vector as usize) {
            *place = pricing;
        }
    }

    // Closes a node by a vector that there is. Answers whether one does.
    pub(crate) fn close_by_known(&mut self, open: &Open) -> bool {
        match closing(&self.pricings, &open.values, self.cost) {
            Some(vector) => {
                self.close(open.entry, Entry::Closed(vector));
                true
            }
            None => false,
        }
    }

    // Adds an open entry, and answers its number.
    pub(crate) fn add_entry(&mut self) -> Result<u32, Memory> {
        let number = u32::try_from(self.entries.len()).unwrap_or(u32::MAX);
        self.entries.push(Entry::Open)?;
        Ok(number)
    }

    // The value above which a relaxation shows that no choice in its ranges is cheaper than the
    // best one.
    pub(crate) fn enough(&self) -> f64 {
        match self.cost {
            Some(cost) => number_of(cost) - 0.98,
            None => NEVER,
        }
    }
}

/// A value that no relaxation has.
pub(crate) const NEVER: f64 = 1000000000000000000000000000000.0;

/// A copy of a choice.
pub(crate) fn copy_of(alloc: Global, choice: &Choice) -> Result<Choice, Memory> {
    Ok(Choice::new(Vec::from_slice(alloc, choice.items())?))
}

/// A copy of a choice, if there is one.
pub(crate) fn copy_if_any(
    alloc: Global,
    choice: &Option<Choice>,
) -> Result<Option<Choice>, Memory> {
    match choice {
        Some(choice) => Ok(Some(copy_of(alloc, choice)?)),
        None => Ok(None),
    }
}

// A cost as a float.
fn number_of(cost: u64) -> f64 {
    match i64::try_from(cost) {
        Ok(cost) => nearest_i64_to_f64(cost),
        Err(_) => NEVER,
    }
}
