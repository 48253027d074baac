//! The reduction of what is left of a problem, from the classes of the whole one.

ghost use Rattle.std.specs.Prelude.{IfOk};
ghost use Rattle.resource_classes.specs.Classes.{ArePicked};

use crate::candidates::{Candidates, candidates_of};
use crate::classes::{is_marked, set_mark};
use crate::left_parts::LeftParts;
use crate::left_uses::{kept_uses, uses_of};
use crate::numbers::{number_at, put_number};
use crate::reduce::Reduced;
use crate::within::unmark_within;
use choice_problem::Problem;
use resource_classes::{Class, ClassList, marked_classes};
use slot_text::Memory;
use std::alloc::Global;

/// The number of no class.
pub const NO_CLASS: u32 = u32::MAX;

/// The reduction of what is left of a problem, and what the classes of the whole one became.
#[derive(Drop)]
pub struct Narrowed {
    /// The classes of what is left.
    pub reduced: Reduced,
    /// For each class of the whole problem the one that now has its users among the parts that are
    /// still named, as often as it; or `NO_CLASS` where there is none.
    pub numbers: Vec<u32>,
}

impl Reduced {
    /// The reduction of a problem with the same units, parts and resources as the whole one that
    /// this is of, and some of its alternatives. Left out are the classes of the whole that the
    /// units' greatest uses cannot pass any more, all but one of those that have the same users
    /// now, and those whose users are among those of another with no greater limit, as far as that
    /// is found. Of the classes with a flag of their number, only those are left out that have the
    /// users of another one, or none.
    ///
    /// Some steps a part, an alternative that is left, a run of a class's users, and a class that a
    /// named part uses.
    pub fn narrowed(
        &self,
        alloc: Global,
        problem: &Problem,
        wanted: &[bool],
    ) -> Result<Narrowed, Memory>
        ensures { IfOk result (λ narrowed. ArePicked problem.now narrowed.reduced) }
    {
        let parts = LeftParts::of(alloc, problem, self)?;
        let candidates = candidates_of(alloc, self, &parts, wanted)?;
        let leasts = candidates.leasts(alloc)?;
        let mut marks = least_marks(alloc, &leasts)?;
        let uses = uses_of(alloc, &candidates, &marks, parts.count())?;
        unmark_within(&candidates, &uses, &mut marks);
        mark_wanted(&candidates, &leasts, wanted, &mut marks);
        let ranks = ranks_of(alloc, &marks)?;
        let kept = kept_numbers(alloc, &candidates, &marks, self.classes().len())?;
        let classes = classes_of(alloc, problem, self.classes(), &kept)?;
        let users = candidates.users_of(alloc, &parts, &marks)?;
        let uses = kept_uses(alloc, &parts, &uses, &marks, &ranks)?;
        let numbers = numbers_of(alloc, &candidates, &leasts, &marks, &ranks, kept.len())?;
        let reduced = self.with(alloc, classes, uses, users)?;
        Ok(Narrowed { reduced, numbers })
    }
}

// Marks of the places that are the least of those with their users.
fn least_marks(alloc: Global, leasts: &[u32]) -> Result<Vec<bool>, Memory> {
    let mut marks = vec![in alloc; false; leasts.len()]?;
    for least in leasts {
        set_mark(&mut marks, *least, true);
    }
    Ok(marks)
}

// Marks the places that stand for wanted classes.
fn mark_wanted(candidates: &Candidates, leasts: &[u32], wanted: &[bool], marks: &mut [bool]) {
    for (one, least) in candidates.items.iter().zip(leasts) {
        if is_marked(wanted, one.class) {
            set_mark(marks, *least, true);
        }
    }
}

// Marks of the classes of the whole problem that stay.
fn kept_numbers(
    alloc: Global,
    candidates: &Candidates,
    marks: &[bool],
    classes: usize,
) -> Result<Vec<bool>, Memory> {
    let mut kept = vec![in alloc; false; classes]?;
    for one in &candidates.items {
        if is_marked(marks, one.place) {
            set_mark(&mut kept, one.class, true);
        }
    }
    Ok(kept)
}

// The marked ones of the whole problem's classes.
fn classes_of(
    alloc: Global,
    problem: &Problem,
    whole: &[Class],
    kept: &[bool],
) -> Result<ClassList, Memory>
    ensures { IfOk result (λ classes. ArePicked problem.now classes) }
{
    let mut marks = vec![in alloc; false; problem.resources() as usize]?;
    for (class, is_kept) in whole.iter().zip(kept) {
        if *is_kept {
            set_mark(&mut marks, class.resource, true);
        }
    }
    marked_classes(alloc, problem, &marks)
}

// For each class of the whole problem the number of the one that has its users now.
fn numbers_of(
    alloc: Global,
    candidates: &Candidates,
    leasts: &[u32],
    marks: &[bool],
    ranks: &[u32],
    classes: usize,
) -> Result<Vec<u32>, Memory> {
    let mut numbers = vec![in alloc; NO_CLASS; classes]?;
    for (one, least) in candidates.items.iter().zip(leasts) {
        if is_marked(marks, *least) {
            put_number(&mut numbers, one.class, number_at(ranks, *least as usize));
        }
    }
    Ok(numbers)
}

// For each place how many lower ones are marked.
fn ranks_of(alloc: Global, marks: &[bool]) -> Result<Vec<u32>, Memory> {
    let mut ranks = Vec::with_capacity(alloc, marks.len())?;
    let mut count: u32 = 0;
    for mark in marks {
        ranks.push(count)?;
        count = count.saturating_add(u32::from(*mark));
    }
    Ok(ranks)
}
