//! Trees of what fixings leave below guesses of the least cost. Below a low guess few alternatives
//! are left, and a tree of them in which cheaper choices alone are looked for ends soon: with none,
//! and then the guess rises; or with a best one.

ghost use Rattle.choice_problem.specs.Bounds.{IsVector};
ghost use Rattle.price_table.specs.Tables.{IsTableFor};

use crate::barred::unbarred_program;
use crate::leftovers::{Ground, Grown, Limits, grow_left};
use crate::quotas::quotas_of;
use crate::states::{NEVER, Task, copy_of};
use crate::trees::vector_of;
use choice_problem::{Choice, PRICED_SCALE, Problem, Ranges, Vector, VectorList, cost_of};
use cost_fixing::{Fixing, Left, left_of};
use price_table::{PriceTable, bound, price_table};
use relaxed_problem::Relaxation;
use slot_text::Memory;
use std::alloc::Global;
use std::thread::Threads;
use tested_trees::{Found, are_listable};

// The most trees of all guesses, and the most steps of the relaxations of all of them.
const MOST_GUESSES: u32 = 96;

const ALL_STEPS: u64 = 6_000_000_000;

// The most pivots of the first relaxation of a guess.
const FIRST_PIVOTS: u32 = 50_000;

// The most visits and steps of the trees of a guess: one that splits by uses of quotas first; where
// its first visits did not raise its bound, a short one by numbers alone; and where that one did
// not end, one by quotas whose bound need not rise.
const LIMITS: [(u32, u64); 3] = [
    (20_000, 1_000_000_000),
    (600, 100_000_000),
    (20_000, 1_000_000_000),
];

// Within how many steps a tree must find a choice at first, while none is known, and at most:
// another guess makes other relaxations, and some trees find a good choice soon that others do not.
const FIRST_PATIENCE: u64 = 300_000_000;

const MOST_PATIENCE: u64 = 1_000_000_000;

// The most steps of trees after which the guess rises very fast, and fast.
const VERY_FEW_STEPS: u64 = 1_000_000;

const FEW_STEPS: u64 = 20_000_000;

// In so many steps of a tree that found a better choice the looks at more splits of the next one
// are paid for by the nodes that they spare.
const MANY_STEPS: u64 = 200_000_000;

// The first guess is above the bound by one part in so many, or by less where a fixing would leave
// many alternatives for each unit; and no guess by more than the bound.
const FIRST_PART: u64 = 1_000;

const MANY_LEFT: u64 = 8;

const LEAST_GAP: u64 = 16;

/// What is known between guesses: the best choice and its cost, if there is one; how much the next
/// guess is above the bound of the problem; how many steps are left; and what the trees showed.
#[derive(Drop)]
pub(crate) struct Guesses {
    best: Option<Choice>,
    cost: Option<u64>,
    bound: u64,
    gap: u64,
    steps: u64,
    // Whether the best choice is best, as far as a tree showed it that could not be listed.
    is_best: bool,
    // How many trees the guess has had, and whether they look at more splits, for fewer nodes and
    // vectors: after a tree that showed the best choice and could not be listed, after one that
    // found a better choice in many steps, and after one that began with the best choice and did
    // not end.
    ways: usize,
    is_thorough: bool,
    // Within how many steps a tree must find a choice while none is known.
    patience: u64,
    // How many trees there were.
    trees: u32,
    // Whether the next first relaxation is solved from the start, not from that of the problem, and
    // the last nodes are searched first, not those of low bounds.
    is_anew: bool,
    is_over: bool,
}

/// What guesses came to: what may close the problem, the best choice that is known, and whether a
/// tree showed that it is best.
#[derive(Drop)]
pub(crate) struct Guessed {
    pub(crate) found: Option<Found>,
    pub(crate) best: Option<Choice>,
    pub(crate) is_best: bool,
}

/// Looks for a tree of what a fixing at the vector leaves, and for choices on the way, from a
/// choice that is known, if one is.
pub(crate) fn close_by_guesses<R: Threads + Sync>(
    rt: &R,
    alloc: Global,
    task: &Task<'_>,
    ground: Ground<'_>,
    vector: &Vector,
    best: Option<Choice>,
) -> Result<Guessed, Memory>
    requires { IsVector task.now.problem.now vector.now }
{
    let problem = task.problem;
    let table = price_table(alloc, problem, vector)?;
    let priced = priced_flags(alloc, task, ground.root)?;
    let whole = Whole {
        task,
        ground,
        priced: &priced,
        vector,
        table: &table,
    };
    let mut guesses = Guesses::new(problem, best, bound_at(alloc, problem, &table)?);
    let found = close_in_turn(rt, alloc, whole, &mut guesses)?;
    Ok(guesses.with(found))
}

// The whole problem, its first relaxation, flags of the classes that have a price there, the vector
// of these prices, and its price table.
#[derive(Clone, Copy)]
struct Whole<'a> {
    task: &'a Task<'a>,
    ground: Ground<'a>,
    priced: &'a [bool],
    vector: &'a Vector,
    table: &'a PriceTable,
}

// For each class whether it has a price.
fn priced_flags(alloc: Global, task: &Task<'_>, root: &Relaxation) -> Result<Vec<bool>, Memory> {
    let mut flags = Vec::with_capacity(alloc, task.reduced.classes().len())?;
    for (class, _) in (0..).zip(task.reduced.classes()) {
        flags.push(root.is_priced(class))?;
    }
    Ok(flags)
}

// Tries guesses one after the other.
fn close_in_turn<R: Threads + Sync>(
    rt: &R,
    alloc: Global,
    whole: Whole<'_>,
    guesses: &mut Guesses,
) -> Result<Option<Found>, Memory>
    requires { IsTableFor whole.task.now.problem.now whole.table.now }
{
    for _ in 0..MOST_GUESSES {
        if guesses.is_over {
            break;
        }
        let found = close_at(rt, alloc, whole, guesses)?;
        if found.is_some() {
            return Ok(found);
        }
    }
    Ok(None)
}

// What the bound of a problem at a vector of the search's scale gives as a cost.
fn bound_at(alloc: Global, problem: &Problem, table: &PriceTable) -> Result<u64, Memory>
    requires { IsTableFor problem.now table.now }
{
    let whole = Ranges::whole(alloc, problem)?;
    let scaled = bound(problem, &whole, table, PRICED_SCALE);
    Ok(u64::try_from(scaled / 1_024).unwrap_or(0))
}

// Tries the next guess.
fn close_at<R: Threads + Sync>(
    rt: &R,
    alloc: Global,
    whole: Whole<'_>,
    guesses: &mut Guesses,
) -> Result<Option<Found>, Memory>
    requires { IsTableFor whole.task.now.problem.now whole.table.now }
{
    let cost = guesses.next();
    let Some(left) = left_of(alloc, whole.task.problem, whole.table, PRICED_SCALE, cost)? else {
        guesses.rise(FAST);
        return Ok(None);
    };
    if guesses.lower(left.problem()) {
        return Ok(None);
    }
    let fixed = Fixed {
        whole,
        left: &left,
        cost,
    };
    close_left(rt, alloc, fixed, guesses)
}

// Tries a guess by trees of what a fixing leaves.
fn close_left<R: Threads + Sync>(
    rt: &R,
    alloc: Global,
    fixed: Fixed<'_>,
    guesses: &mut Guesses,
) -> Result<Option<Found>, Memory> {
    let (whole, problem) = (fixed.whole, fixed.left.problem());
    let narrowed = whole.task.reduced.narrowed(alloc, problem, whole.priced)?;
    let mut program = unbarred_program(alloc, problem, &narrowed.reduced)?;
    if !guesses.is_anew {
        program.change_as(whole.task.program);
    }
    let quotas = quotas_of(alloc, &narrowed.reduced)?;
    let task = Task {
        problem,
        reduced: &narrowed.reduced,
        quotas: &quotas,
        program: &program,
    };
    close_task(rt, alloc, fixed, &task, &narrowed.numbers, guesses)
}

// Tries a guess by trees over a program of what a fixing leaves, where these are the numbers of the
// whole problem's classes.
fn close_task<R: Threads + Sync>(
    rt: &R,
    alloc: Global,
    fixed: Fixed<'_>,
    task: &Task<'_>,
    numbers: &[u32],
    guesses: &mut Guesses,
) -> Result<Option<Found>, Memory> {
    let mut root = first_root(alloc, fixed.whole, task, numbers, guesses.is_anew)?;
    let ended = root.solve(alloc, task.program, FIRST_PIVOTS, NEVER)?;
    let ground = Ground {
        root: &root,
        ended,
        ..fixed.whole.ground
    };
    trees_at(rt, alloc, fixed, task, ground, guesses)
}

// The relaxation from which that of what is left goes on: the one of the whole problem, whose
// alternatives the fixing leaves, on the classes that have these numbers now; or where that is not
// wanted, or cannot be, the start.
fn first_root(
    alloc: Global,
    whole: Whole<'_>,
    task: &Task<'_>,
    numbers: &[u32],
    is_anew: bool,
) -> Result<Relaxation, Memory> {
    if !is_anew {
        let solved = whole.ground.root;
        let carried = solved.carried(alloc, whole.task.program, task.program, numbers)?;
        if let Some(root) = carried {
            return Ok(root);
        }
    }
    Relaxation::start(alloc, task.program)
}

// A problem, what a fixing of it leaves, and the cost of the fixing.
#[derive(Clone, Copy)]
struct Fixed<'a> {
    whole: Whole<'a>,
    left: &'a Left,
    cost: u64,
}

// Grows the trees of a guess one after the other, until one closes the problem, or the guess
// changes.
fn trees_at<R: Threads + Sync>(
    rt: &R,
    alloc: Global,
    fixed: Fixed<'_>,
    task: &Task<'_>,
    ground: Ground<'_>,
    guesses: &mut Guesses,
) -> Result<Option<Found>, Memory> {
    for _ in 0..MOST_GUESSES {
        let found = tree_at(rt, alloc, fixed, task, ground, guesses)?;
        if found.is_some() || guesses.is_over || guesses.next() != fixed.cost {
            return Ok(found);
        }
    }
    Ok(None)
}

// Grows the next tree of a guess.
fn tree_at<R: Threads + Sync>(
    rt: &R,
    alloc: Global,
    fixed: Fixed<'_>,
    task: &Task<'_>,
    ground: Ground<'_>,
    guesses: &mut Guesses,
) -> Result<Option<Found>, Memory> {
    let start = guesses.start_in(alloc, fixed.left, fixed.cost)?;
    let limits = guesses.limits();
    let is_known = start.is_some();
    let grown = grow_left(rt, alloc, task, ground, start, fixed.cost, limits)?;
    take_grown(alloc, fixed, guesses, grown, limits.steps, is_known)
}

// Takes what a tree of at most so many steps came to, which began with the best choice or not.
fn take_grown(
    alloc: Global,
    fixed: Fixed<'_>,
    guesses: &mut Guesses,
    grown: Grown,
    most: u64,
    is_known: bool,
) -> Result<Option<Found>, Memory> {
    let Grown {
        found,
        best,
        is_ended,
        is_flat,
        steps,
    } = grown;
    let choice = whole_choice(alloc, fixed.left, best)?;
    guesses.learn(
        fixed.whole.task.problem,
        choice,
        is_known,
        is_ended,
        is_flat,
        most.saturating_sub(steps),
    );
    match found {
        Some(found) => fixed_found(alloc, guesses, found, fixed.whole.vector, fixed.cost),
        None => Ok(None),
    }
}

// The choice of the whole problem that a choice of what is left is, if there is one.
fn whole_choice(
    alloc: Global,
    left: &Left,
    choice: Option<Choice>,
) -> Result<Option<Choice>, Memory> {
    match choice {
        Some(choice) if choice.is_for(left.problem()) => {
            Ok(Some(left.whole_choice(alloc, &choice)?))
        }
        _ => Ok(None),
    }
}

// What was found, with the best choice of the whole problem and with the fixing, whose vector
// stands behind the others, if there is room for it.
fn fixed_found(
    alloc: Global,
    guesses: &Guesses,
    found: Found,
    vector: &Vector,
    cost: u64,
) -> Result<Option<Found>, Memory> {
    let Some(best) = &guesses.best else {
        return Ok(None);
    };
    let Found { nodes, vectors, .. } = found;
    let vectors = with_vector(alloc, vectors, vector)?;
    if !are_listable(&vectors) {
        return Ok(None);
    }
    let number = u32::try_from(vectors.items().len()).unwrap_or(u32::MAX);
    let choice = copy_of(alloc, best)?;
    Ok(Some(Found {
        choice: Some(choice),
        fixing: Some(Fixing {
            vector: number,
            scale: PRICED_SCALE,
            cost,
        }),
        nodes,
        vectors,
    }))
}

// Vectors with one more behind them.
fn with_vector(alloc: Global, list: VectorList, vector: &Vector) -> Result<VectorList, Memory> {
    let mut items = list.into_items();
    items.push(vector_of(alloc, vector)?)?;
    Ok(VectorList::new(items))
}

impl Guesses {
    // What is known at first.
    fn new(problem: &Problem, best: Option<Choice>, bound: u64) -> Guesses {
        let mut guesses = Guesses {
            best: None,
            cost: None,
            bound,
            gap: bound / FIRST_PART + 1,
            steps: ALL_STEPS,
            is_best: false,
            ways: 0,
            is_thorough: false,
            patience: FIRST_PATIENCE,
            trees: 0,
            is_anew: false,
            is_over: false,
        };
        guesses.take(problem, best);
        guesses
    }

    // Takes a choice, if there is one and it is cheaper than the best one. Answers whether it is.
    fn take(&mut self, problem: &Problem, choice: Option<Choice>) -> bool {
        match choice {
            Some(choice) if choice.is_for(problem) => {
                let cost = cost_of(problem, &choice);
                let is_cheaper = match self.cost {
                    Some(best) => cost < best,
                    None => true,
                };
                if is_cheaper {
                    self.best = Some(choice);
                    self.cost = Some(cost);
                }
                is_cheaper
            }
            _ => false,
        }
    }

    // What the guesses came to.
    fn with(self, found: Option<Found>) -> Guessed {
        let Guesses { best, is_best, .. } = self;
        Guessed {
            found,
            best,
            is_best,
        }
    }

    // The next guess: at most one more than the cost of the best choice.
    fn next(&self) -> u64 {
        let guess = self.bound.saturating_add(self.gap);
        match self.cost {
            Some(cost) if self.is_best || cost < guess => cost.saturating_add(1),
            _ => guess,
        }
    }

    // The best choice as one of what is left, where the guess is one more than its cost.
    fn start_in(&self, alloc: Global, left: &Left, guess: u64) -> Result<Option<Choice>, Memory> {
        match (&self.best, self.cost) {
            (Some(best), Some(cost)) if cost < guess => {
                if best.items().len() == left.problem().units() as usize {
                    return left.left_choice(alloc, best);
                }
                Ok(None)
            }
            _ => Ok(None),
        }
    }

    // What the next tree may take.
    fn limits(&self) -> Limits {
        let (visits, most) = match LIMITS.get(self.ways) {
            Some(limits) => *limits,
            None => (0, 0),
        };
        let is_last = (self.is_best || self.is_thorough) && self.ways != 1;
        let steps = if is_last {
            self.steps
        } else {
            self.steps.min(most)
        };
        let is_by_bounds = !self.is_anew;
        Limits {
            visits,
            steps,
            first_steps: if self.cost.is_some() || is_by_bounds {
                steps
            } else {
                self.patience
            },
            is_by_quotas: self.ways != 1,
            is_thorough: self.is_thorough,
            is_by_bounds,
            must_rise: is_by_bounds && self.ways == 0,
        }
    }

    // Notes what a tree of so many steps showed, which began with the best choice or not: whether
    // it ended, or was stopped since its bound did not rise. One that ended with a better choice
    // and could not be listed, or found one in many steps, is followed by one that looks at more
    // splits; and one by numbers that found one and did not end by another one by numbers, since
    // the bound did not rise by uses.
    fn learn(
        &mut self,
        problem: &Problem,
        choice: Option<Choice>,
        is_known: bool,
        is_ended: bool,
        is_flat: bool,
        steps: u64,
    ) {
        let is_better = self.take(problem, choice);
        self.steps = self.steps.saturating_sub(steps);
        self.trees = self.trees.saturating_add(1);
        if self.steps == 0 || self.trees >= MOST_GUESSES {
            self.is_over = true;
        } else if is_better {
            self.is_best = is_ended;
            self.is_thorough = self.is_thorough || is_ended || steps >= MANY_STEPS;
            self.ways = if is_ended { 0 } else { self.ways.min(1) };
            self.is_anew = false;
        } else if is_ended && is_known {
            self.is_best = true;
            self.look_on();
        } else if !is_ended && (self.ways == 1 || is_flat) {
            self.ways = self.ways.saturating_add(1);
        } else if is_known {
            self.look_on();
        } else if !is_ended && self.cost.is_none() && self.patience < MOST_PATIENCE {
            self.draw_again();
        } else {
            self.rise(rise_after(is_ended, steps));
        }
    }

    // Goes on with a guess that is one greater, where the last nodes are searched first, and with
    // more steps before a choice must be found, where that was so.
    fn draw_again(&mut self) {
        self.gap = self.gap.saturating_add(1);
        if self.is_anew {
            self.patience = self.patience.saturating_mul(2);
        }
        self.is_anew = true;
        self.ways = 0;
    }

    // Goes on with trees that look at more splits, or ends.
    fn look_on(&mut self) {
        self.is_over = self.is_thorough;
        self.is_thorough = true;
        self.ways = 0;
    }

    // Takes a lower guess, where it is the first one and many alternatives are left. Answers
    // whether it does.
    fn lower(&mut self, left: &Problem) -> bool {
        let most = u64::from(left.units()).saturating_mul(MANY_LEFT);
        let is_low = self.trees > 0 || self.gap < LEAST_GAP || count_alts(left) <= most;
        if !is_low {
            self.gap = self.gap / 4;
        }
        !is_low
    }

    // Takes a greater guess: what it is above the bound rises by so many eighths.
    fn rise(&mut self, eighths: u64) {
        let more = self.gap.saturating_mul(eighths) / 8;
        self.gap = self.gap.saturating_add(more).saturating_add(1);
        self.ways = 0;
        if self.gap > self.bound.saturating_add(self.bound) {
            self.is_over = true;
        }
    }
}

// How many alternatives all units have.
fn count_alts(problem: &Problem) -> u64 {
    let mut count: u64 = 0;
    for unit in 0..problem.units() {
        count = count.saturating_add(u64::from(problem.alts(unit)));
    }
    count
}

// By how many eighths guesses rise fast.
const FAST: u64 = 8;

// By how many eighths a guess rises after a tree of so many steps, that ended or did not. The nodes
// of a tree grow fast with the guess while no choice is below it, and less fast from there on.
fn rise_after(is_ended: bool, steps: u64) -> u64 {
    if steps <= VERY_FEW_STEPS {
        3 * FAST
    } else if steps <= FEW_STEPS {
        FAST
    } else if is_ended {
        4
    } else {
        1
    }
}
