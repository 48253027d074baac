//! The reduction of a problem.

ghost use Rattle.std.specs.Prelude.{IfOk};
ghost use Rattle.resource_classes.specs.Classes.{ArePicked};

use crate::classes::{ClassUse, UserRun};
use crate::covered::{Near, judged_pieces, unmark_covered};
use crate::found::{Found, Swept};
use crate::greatest::joined_uses;
use crate::lists::Lists;
use crate::marks::least_limits;
use crate::numbers::as_number;
use crate::outline::Outline;
use crate::part_uses::{all_lists, list_pieces};
use crate::rows::Rows;
use crate::sums::resource_keys;
use crate::team::Team;
use crate::users::{Users, kept_lists, kept_pieces, row_pieces};
use choice_problem::Problem;
use resource_classes::{Class, ClassList, marked_classes};
use slot_text::Memory;
use std::alloc::Global;
use std::marker::Model;
use std::thread::Threads;

// A problem with fewer parts is reduced by one worker.
const LEAST_PARTS: usize = 4_096;

/// The classes of a problem's resources that are kept, by rising resource, the classes that each
/// part uses, and the parts that use each class. Contracts see the classes. Parts are numbered
/// through all units, from 0. 8 bytes a class that a part uses, once for parts with the same uses,
/// 24 bytes a part and a class, and 12 bytes a run of a class's users.
#[derive(Drop)]
pub struct Reduced {
    classes: ClassList,
    units: Vec<u32>,
    uses: Lists<ClassUse>,
    users: Lists<UserRun>,
}

impl Model for Reduced {
    ghost use Rattle.std.specs.Prelude.{List};
    ghost use Rattle.resource_classes.specs.declared.classes.Class.{Class};

    ghost Value = { List Class };

    ghost view = { λ r. r.classes };
}

impl Reduced {
    ghost use Rattle.std.specs.Prelude.{◌≡◌, IfOk};
    ghost use Rattle.resource_classes.specs.Classes.{ArePicked};

    /// The classes of a problem. A resource is left out where the units' greatest uses of it
    /// together are within its limit, where another one with the same users and uses has a lower
    /// limit, or as low a one and a lower number, and where its users are among those of another
    /// that has no greater limit, as far as that was found. So a choice that keeps the limits of
    /// all classes keeps those of all resources; this is tested, and no clause says it.
    ///
    /// Time and memory of some steps a resource, a strip of each part, a run of users of a class,
    /// and a class that a part uses, once for parts with the same uses, and for each part with other
    /// uses than those before one step for 64 classes: 500 daily turnarounds under 16 capacity lines
    /// take less than a tenth of a second.
    pub fn of(alloc: Global, problem: &Problem) -> Result<Reduced, Memory>
        ensures { IfOk result (λ kept. ArePicked problem.now kept) }
    {
        let outline = Outline::of(alloc, problem)?;
        let mut marks = least_marks(alloc, problem, &outline)?;
        let swept = Swept::of(alloc, problem, &outline)?;
        let found = Found::of(alloc, problem, swept, &marks)?;
        finish(alloc, problem, &outline, &found, &mut marks)
    }

    /// The same reduction as that of `of`, for each number of workers. Of a problem of 4,096 parts
    /// or more, so many of them list the users of classes, compare classes, and list what parts
    /// use, side by side; three more threads run while the resources' keys, their greatest uses and
    /// the sweeps of strips are found, and one while the users of classes are.
    pub fn by_workers<R: Threads + Sync>(
        rt: &R,
        alloc: Global,
        problem: &Problem,
        workers: u32,
    ) -> Result<Reduced, Memory>
        ensures { IfOk result (λ kept. ArePicked problem.now kept) }
    {
        if workers < 2 || part_count(problem) < LEAST_PARTS {
            return Reduced::of(alloc, problem);
        }
        let outline = Outline::of(alloc, problem)?;
        let team = Team {
            rt,
            workers: workers as usize,
        };
        let (mut marks, swept) = team.marks_and_sweeps(alloc, problem, &outline)?;
        let found = Found::of(alloc, problem, swept, &marks)?;
        finish_by(&team, alloc, problem, &outline, &found, &mut marks)
    }

    // The reduction with other classes, uses and users over the same parts.
    pub(crate) fn with(
        &self,
        alloc: Global,
        classes: ClassList,
        uses: Rows<ClassUse>,
        users: Rows<UserRun>,
    ) -> Result<Reduced, Memory>
        ensures { IfOk result (λ other. other ≡ classes) }
    {
        Ok(Reduced {
            classes,
            units: Vec::from_slice(alloc, &self.units)?,
            uses: Lists::of(alloc, uses)?,
            users: Lists::of(alloc, users)?,
        })
    }

    /// The classes, by rising resource.
    pub fn classes(&self) -> &[Class]
        ensures { result.now ≡ self.now }
    {
        self.classes.items()
    }

    /// The number of a unit's first part, or past the units how many parts there are.
    pub fn first_part(&self, unit: u32) -> u32 {
        if (unit as usize) < self.units.len() {
            self.units[unit as usize]
        } else {
            self.parts()
        }
    }

    /// How many parts all units have.
    pub fn parts(&self) -> u32 {
        as_number(self.uses.len())
    }

    /// The classes that a part uses, by rising number; none if there is no such part, or no
    /// alternative names it.
    pub fn part_uses(&self, part: u32) -> &[ClassUse] {
        self.uses.row(part)
    }

    /// The parts that use a class, by rising number; none if there is no such class.
    pub fn users(&self, class: u32) -> &[UserRun] {
        self.users.row(class)
    }
}

// How many parts all units have.
fn part_count(problem: &Problem) -> usize {
    let mut count: usize = 0;
    for unit in 0..problem.units() {
        count = count.saturating_add(problem.unit_parts(unit).len());
    }
    count
}

// Marks of one resource for each set of users, where it can be passed.
pub(crate) fn least_marks(
    alloc: Global,
    problem: &Problem,
    outline: &Outline,
) -> Result<Vec<bool>, Memory> {
    let keys = resource_keys(alloc, problem, outline)?;
    let uses = joined_uses(alloc, problem, outline)?;
    least_limits(alloc, problem, &uses, &keys)
}

// The reduction by what was found of the marked resources. Takes the marks of those away that are
// not kept.
fn finish(
    alloc: Global,
    problem: &Problem,
    outline: &Outline,
    found: &Found,
    marks: &mut [bool],
) -> Result<Reduced, Memory>
    ensures { IfOk result (λ kept. ArePicked problem.now kept) }
{
    let users = kept_classes(alloc, found, marks)?;
    let uses = part_lists(alloc, outline, found, marks)?;
    Ok(Reduced {
        classes: marked_classes(alloc, problem, marks)?,
        units: Vec::from_slice(alloc, &outline.units)?,
        uses,
        users,
    })
}

// The same, by several workers.
fn finish_by<R: Threads + Sync>(
    team: &Team<'_, R>,
    alloc: Global,
    problem: &Problem,
    outline: &Outline,
    found: &Found,
    marks: &mut [bool],
) -> Result<Reduced, Memory>
    ensures { IfOk result (λ kept. ArePicked problem.now kept) }
{
    let users = team.kept_classes(alloc, found, marks)?;
    let uses = team.part_lists(alloc, outline, found, marks)?;
    Ok(Reduced {
        classes: marked_classes(alloc, problem, marks)?,
        units: Vec::from_slice(alloc, &outline.units)?,
        uses,
        users,
    })
}

// Takes the marks of classes away that are contained in others, and gives the users of the others.
fn kept_classes(
    alloc: Global,
    found: &Found,
    marks: &mut [bool],
) -> Result<Lists<UserRun>, Memory> {
    let users = class_users(alloc, found)?;
    judge(alloc, found, &users, marks)?;
    let kept = found.kept_users(&users, marks);
    let mut pieces = kept_pieces(alloc, found.classes.items().len())?;
    for piece in pieces.iter_mut() {
        piece.make(alloc, kept);
    }
    kept_lists(alloc, pieces)
}

// The users of all classes.
fn class_users(alloc: Global, found: &Found) -> Result<Users, Memory> {
    let mut pieces = row_pieces(alloc, &found.grids)?;
    for piece in pieces.iter_mut() {
        piece.make(alloc, &found.grids, &found.columns);
    }
    Users::of(
        alloc,
        pieces,
        &found.grids.order,
        found.classes.items().len(),
    )
}

// Takes the marks of classes away whose users are among those of others.
fn judge(alloc: Global, found: &Found, users: &Users, marks: &mut [bool]) -> Result<(), Memory> {
    let compared = found.compared();
    let near = Near::of(alloc, compared)?;
    let mut pieces = judged_pieces(alloc, compared.classes.len(), 1)?;
    for piece in pieces.iter_mut() {
        piece.make(compared, &near, users);
    }
    unmark_covered(compared.classes, &pieces, marks)
}

// What all parts use of the marked resources.
fn part_lists(
    alloc: Global,
    outline: &Outline,
    found: &Found,
    marks: &[bool],
) -> Result<Lists<ClassUse>, Memory> {
    let kept = found.kept(alloc, outline, marks)?;
    let ground = kept.ground();
    let mut pieces = list_pieces(alloc, &outline.units, outline.parts())?;
    for piece in pieces.iter_mut() {
        piece.make(alloc, ground);
    }
    all_lists(alloc, pieces, ground.same)
}
