//! Where a search splits a node: at a unit of whose alternatives the relaxation takes shares, so
//! that both parts have a greater bound.

use crate::looks::{Field, Seen};
use crate::rules::{Rule, uses_of_part};
use crate::scores::Scores;
use crate::states::{NEVER, Open, State, Task};
use relaxed_problem::{End, Ended, Relaxation, Share};
use slot_text::Memory;
use std::alloc::Global;
use std::num::saturating_f64_to_i64;

/// How many splits are looked at, after how many without a better one the rest is not, and by how
/// many pivots for each part.
#[derive(Clone, Copy)]
pub(crate) struct Looks {
    pub(crate) most: usize,
    pub(crate) idle: u32,
    pub(crate) pivots: u32,
}

const FEW_LOOKS: Looks = Looks {
    most: 32,
    idle: 4,
    pivots: 8,
};

const MANY_LOOKS: Looks = Looks {
    most: 64,
    idle: 8,
    pivots: 50,
};

/// How the splits of a tree are looked at: more of them, or not.
pub(crate) fn looks_of(is_thorough: bool) -> Looks {
    if is_thorough { MANY_LOOKS } else { FEW_LOOKS }
}

/// A share that counts as the whole.
pub(crate) const WHOLE: f64 = 0.999999;

/// A split: the unit, what tells its parts apart, and whether the low part is looked at first, and
/// once the split is chosen, searched first.
#[derive(Clone, Copy, Debug)]
pub(crate) struct Split {
    pub(crate) unit: u32,
    pub(crate) rule: Rule,
    pub(crate) is_low_first: bool,
}

/// The split of a node whose relaxation is solved; none where it takes one alternative of each
/// unit. Where the relaxation takes shares of alternatives that use a quota differently, the split
/// is by their uses: the other alternatives of a unit make up for a split by numbers, but not for
/// one by uses. The relaxations of its two parts, as far as they were looked at, are those of the
/// node's study then, or of the state.
pub(crate) fn best_split(
    alloc: Global,
    task: &Task<'_>,
    state: &mut State,
    open: &Open,
    shares: &[Share],
) -> Result<Option<Split>, Memory> {
    let relaxation = &open.relaxation;
    let found = candidates(
        alloc,
        task,
        &state.scores,
        state.is_by_quotas,
        relaxation,
        shares,
    )?;
    let looks = looks_of(state.is_thorough);
    let field = Field {
        relaxation,
        candidates: first_of(&found, looks.most),
        looks,
        enough: state.enough(),
    };
    let mut seen = Vec::new(alloc);
    let pick = state
        .looker
        .pick(alloc, task, field, open.before(), &mut seen)?;
    for one in &seen {
        take_seen(task, state, one);
    }
    Ok(pick.best)
}

// Counts the steps of looks at a split, and notes what its parts gain.
fn take_seen(task: &Task<'_>, state: &mut State, seen: &Seen) {
    state.spend(task.program, seen.first.ended);
    if let Some(other) = seen.other {
        state.spend(task.program, other.ended);
    }
    state
        .scores
        .note(seen.split.unit, seen.gain, seen.other_gain);
}

/// The first ones, at most so many.
pub(crate) fn first_of(candidates: &[Candidate], most: usize) -> &[Candidate] {
    if most < candidates.len() {
        &candidates[..most]
    } else {
        candidates
    }
}

/// The splits of a solved relaxation, the first ones to be looked at first: those by the uses of
/// quotas that have prices, where they come first and there are some, else those by numbers; those
/// of the units of the greatest scores, and of these those of the smallest greatest share.
pub(crate) fn candidates(
    alloc: Global,
    task: &Task<'_>,
    scores: &Scores,
    is_by_quotas: bool,
    relaxation: &Relaxation,
    shares: &[Share],
) -> Result<Vec<Candidate>, Memory> {
    let mut found = Vec::new(alloc);
    if is_by_quotas {
        for class in task.quotas {
            if relaxation.is_priced(*class) {
                add_splits(task, relaxation, shares, Some(*class), &mut found)?;
            }
        }
    }
    if found.is_empty() {
        add_splits(task, relaxation, shares, None, &mut found)?;
    }
    let mean = scores.mean();
    for candidate in found.iter_mut() {
        candidate.order = scores.order(candidate.split.unit, mean);
    }
    found.sort_unstable_by_key(|candidate| (candidate.order, candidate.rank, candidate.place));
    Ok(found)
}

/// A split that is looked at, the order by its unit's score, the rank of its unit's greatest share,
/// and its place among those that were found.
#[derive(Clone, Copy)]
pub(crate) struct Candidate {
    order: u64,
    rank: u64,
    place: usize,
    pub(crate) split: Split,
}

// Adds the splits of the units of which the relaxation takes several alternatives: by the uses of a
// class, or by numbers.
fn add_splits(
    task: &Task<'_>,
    relaxation: &Relaxation,
    shares: &[Share],
    class: Option<u32>,
    found: &mut Vec<Candidate>,
) -> Result<(), Memory> {
    let mut rest = shares;
    for _ in 0..shares.len() {
        let (group, others) = first_group(rest);
        rest = others;
        let most = greatest_share(group);
        if group.len() >= 2 && most < WHOLE {
            let split = match class {
                Some(class) => split_by_uses(task, group, class),
                None => Some(split_by_number(task, relaxation, group)),
            };
            if let Some(split) = split {
                found.push(Candidate {
                    order: 0,
                    rank: rank_of(most),
                    place: found.len(),
                    split,
                })?;
            }
        }
    }
    Ok(())
}

// The split of a unit by its uses of a class that comes nearest to halves of its shares, if these
// use it differently. The part of the greater half, which mostly gains less, is looked at first.
fn split_by_uses(task: &Task<'_>, group: &[Share], class: u32) -> Option<Split> {
    let mut found = None;
    let mut nearest = 0.5;
    for share in group {
        let least = share_uses(task, share, class);
        let below = part_below(task, group, class, least);
        let distance = size_of(below - 0.5);
        if distance < nearest {
            nearest = distance;
            found = Some(Split {
                unit: share.unit,
                rule: Rule::Uses { class, least },
                is_low_first: below >= 0.5,
            });
        }
    }
    found
}

// The shares of the alternatives that use a class less often than this.
fn part_below(task: &Task<'_>, group: &[Share], class: u32, least: i64) -> f64 {
    let mut part = 0.0;
    for share in group {
        if share_uses(task, share, class) < least {
            part += share.share;
        }
    }
    part
}

// How often the alternative of a share uses a class.
fn share_uses(task: &Task<'_>, share: &Share, class: u32) -> i64 {
    for column in task.program.unit_columns(share.unit) {
        if column.number == share.alt {
            let one = uses_of_part(task.reduced, column.one, class);
            return one.saturating_add(uses_of_part(task.reduced, column.two, class));
        }
    }
    0
}

// The size of a number.
fn size_of(value: f64) -> f64 {
    if value < 0.0 { -value } else { value }
}

// The shares of the first unit, and the others.
fn first_group(shares: &[Share]) -> (&[Share], &[Share]) {
    let mut count: usize = 0;
    for share in shares {
        if share.unit != unit_of(shares) {
            break;
        }
        count = count.saturating_add(1);
    }
    if count <= shares.len() {
        (&shares[..count], &shares[count..])
    } else {
        (shares, &[])
    }
}

// The unit of the first share.
fn unit_of(shares: &[Share]) -> u32 {
    match shares.get(0) {
        Some(share) => share.unit,
        None => u32::MAX,
    }
}

// The greatest share.
fn greatest_share(shares: &[Share]) -> f64 {
    let mut most = 0.0;
    for share in shares {
        if share.share > most {
            most = share.share;
        }
    }
    most
}

// A share in millionths.
fn rank_of(share: f64) -> u64 {
    u64::try_from(saturating_f64_to_i64(share * 1000000.0)).unwrap_or(0)
}

// The split of a unit that comes nearest to halves of its shares. The part of the greater half,
// which mostly gains less, is looked at first.
fn split_by_number(task: &Task<'_>, relaxation: &Relaxation, group: &[Share]) -> Split {
    let mut split = Split {
        unit: unit_of(group),
        rule: Rule::From(1),
        is_low_first: true,
    };
    let mut sum = 0.0;
    let mut nearest = NEVER;
    for (one, next) in group.iter().zip(group.iter().skip(1)) {
        sum += one.share;
        let distance = size_of(sum - 0.5);
        if distance < nearest {
            nearest = distance;
            split.is_low_first = sum >= 0.5;
            split.rule = Rule::From(cut_between(task, relaxation, one, next));
        }
    }
    split
}

// The place between two alternatives of a unit whose neighbours have the greatest reduced costs.
fn cut_between(task: &Task<'_>, relaxation: &Relaxation, from: &Share, to: &Share) -> u32 {
    let first = task.program.first_column(from.unit);
    let mut cut = from.alt.saturating_add(1);
    let mut most = -1.0;
    let mut before = 0.0;
    for (number, column) in (0..).zip(task.program.unit_columns(from.unit)) {
        let cost = relaxation.reduced_cost(task.program, first.saturating_add(number));
        let least = if cost < before { cost } else { before };
        if column.number > from.alt && column.number <= to.alt && least > most {
            most = least;
            cut = column.number;
        }
        before = cost;
    }
    cut
}

/// What counts as the gain of a part whose look ended so, with so much gained: a thousandth at
/// least, and at most what it can gain.
pub(crate) fn gain_of(ended: Ended, gain: f64, room: f64) -> f64 {
    let is_closed = ended.end == End::Above || ended.end == End::Infeasible;
    at_least(if is_closed || gain > room { room } else { gain })
}

/// Whether a split of which one part gains this, and the other one all that it can, is no better
/// than the best one so far, of this product of gains.
pub(crate) fn is_no_better(gain: f64, room: f64, most: f64) -> bool {
    gain * room <= most
}

/// How much a part of a node with this relaxation can gain at most.
pub(crate) fn room_below(enough: f64, relaxation: &Relaxation) -> f64 {
    let value = relaxation.value();
    if enough < value + MOST_GAIN {
        enough - value
    } else {
        MOST_GAIN
    }
}

// The most that a part can gain.
const MOST_GAIN: f64 = 1000000.0;

// A gain, or a thousandth where it is less.
fn at_least(gain: f64) -> f64 {
    if gain > 0.001 { gain } else { 0.001 }
}
