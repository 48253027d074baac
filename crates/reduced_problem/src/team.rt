//! Steps of a reduction that workers make side by side. What each makes does not depend on how many
//! there are.

ghost use Rattle.std.specs.Thread.{IsSync};

use crate::classes::{ClassUse, UserRun};
use crate::covered::{Near, judged_pieces, unmark_covered};
use crate::found::{Found, Swept};
use crate::greatest::joined_uses;
use crate::lists::Lists;
use crate::marks::least_limits;
use crate::outline::Outline;
use crate::part_uses::{all_lists, list_pieces};
use crate::sums::resource_keys;
use crate::users::{Users, kept_lists, kept_pieces, row_pieces};
use choice_problem::Problem;
use slot_text::Memory;
use std::alloc::Global;
use std::thread;
use std::thread::Threads;

// So many workers.
#[derive(Drop)]
pub(crate) struct Team<'a, R> {
    pub(crate) rt: &'a R,
    pub(crate) workers: usize,
}

impl<R: Threads + Sync> Team<'_, R> {
    // Marks of one resource for each set of users, where it can be passed, and the sweeps.
    pub(crate) fn marks_and_sweeps(
        &self,
        alloc: Global,
        problem: &Problem,
        outline: &Outline,
    ) -> Result<(Vec<bool>, Swept), Memory> {
        let (marks, swept) = thread::join(
            self.rt,
            || -> Result<Vec<bool>, Memory>
                requires { IsSync R.row }
            { self.least_marks(alloc, problem, outline) },
            || -> Result<Swept, Memory> { Swept::of(alloc, problem, outline) },
        );
        Ok((marks?, swept?))
    }

    // Marks of one resource for each set of users, where it can be passed.
    fn least_marks(
        &self,
        alloc: Global,
        problem: &Problem,
        outline: &Outline,
    ) -> Result<Vec<bool>, Memory> {
        let (keys, uses) = thread::join(
            self.rt,
            || -> Result<Vec<u64>, Memory> { resource_keys(alloc, problem, outline) },
            || -> Result<Vec<u64>, Memory> { joined_uses(alloc, problem, outline) },
        );
        least_limits(alloc, problem, &uses?, &keys?)
    }

    // Takes the marks of classes away that are contained in others, and gives the users of the
    // others.
    pub(crate) fn kept_classes(
        &self,
        alloc: Global,
        found: &Found,
        marks: &mut [bool],
    ) -> Result<Lists<UserRun>, Memory> {
        let (users, near) = thread::join(
            self.rt,
            || -> Result<Users, Memory>
                requires { IsSync R.row }
            { self.class_users(alloc, found) },
            || -> Result<Near, Memory> { Near::of(alloc, found.compared()) },
        );
        let users = users?;
        self.judge(alloc, found, &near?, &users, marks)?;
        self.kept_users(alloc, found, &users, marks)
    }

    // The users of all classes.
    fn class_users(&self, alloc: Global, found: &Found) -> Result<Users, Memory> {
        let mut pieces = row_pieces(alloc, &found.grids)?;
        thread::for_each_mut(
            self.rt,
            &mut pieces,
            self.workers.max(1),
            &|_, piece| piece.make(alloc, &found.grids, &found.columns),
        );
        Users::of(
            alloc,
            pieces,
            &found.grids.order,
            found.classes.items().len(),
        )
    }

    // Takes the marks of classes away whose users are among those of others.
    fn judge(
        &self,
        alloc: Global,
        found: &Found,
        near: &Near,
        users: &Users,
        marks: &mut [bool],
    ) -> Result<(), Memory> {
        let compared = found.compared();
        let mut pieces = judged_pieces(alloc, compared.classes.len(), self.workers)?;
        thread::for_each_mut(
            self.rt,
            &mut pieces,
            self.workers.max(1),
            &|_, piece| piece.make(compared, near, users),
        );
        unmark_covered(compared.classes, &pieces, marks)
    }

    // The users of the classes whose resource is marked.
    fn kept_users(
        &self,
        alloc: Global,
        found: &Found,
        users: &Users,
        marks: &[bool],
    ) -> Result<Lists<UserRun>, Memory> {
        let kept = found.kept_users(users, marks);
        let mut pieces = kept_pieces(alloc, kept.classes.len())?;
        thread::for_each_mut(
            self.rt,
            &mut pieces,
            self.workers.max(1),
            &|_, piece| piece.make(alloc, kept),
        );
        kept_lists(alloc, pieces)
    }

    // What all parts use of the marked resources.
    pub(crate) fn part_lists(
        &self,
        alloc: Global,
        outline: &Outline,
        found: &Found,
        marks: &[bool],
    ) -> Result<Lists<ClassUse>, Memory> {
        let kept = found.kept(alloc, outline, marks)?;
        let ground = kept.ground();
        let mut pieces = list_pieces(alloc, &outline.units, outline.parts())?;
        thread::for_each_mut(
            self.rt,
            &mut pieces,
            self.workers.max(1),
            &|_, piece| piece.make(alloc, ground),
        );
        all_lists(alloc, pieces, ground.same)
    }
}
