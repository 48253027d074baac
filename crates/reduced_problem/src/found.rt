//! What is found of a problem's marked resources, before it is known which of them are kept.

use crate::classes::is_marked;
use crate::covered::Compared;
use crate::edges::{Edges, KeptHits};
use crate::grids::{Grids, counts_below};
use crate::hits::{Hit, by_column, hits_of};
use crate::numbers::number_at;
use crate::outline::Outline;
use crate::part_uses::Ground;
use crate::rows::Rows;
use crate::same_lists::{listed_parts, same_lists};
use crate::settled::{settled, unsettled};
use crate::sweeps::Sweeps;
use crate::user_runs::UserRuns;
use crate::users::{KeptUsers, Users};
use choice_problem::Problem;
use resource_classes::{Class, ClassList, marked_classes};
use slot_text::Memory;
use std::alloc::Global;

// The marked resources, which are the classes, and where sweeps have them: the hits of each class
// are at one of its places alone, and say which parts use it and how often.
#[derive(Drop)]
pub(crate) struct Found {
    pub(crate) classes: ClassList,
    pub(crate) grids: Grids,
    pub(crate) hits: Vec<Hit>,
    // The hits by column.
    pub(crate) columns: Rows<Hit>,
    pub(crate) runs: UserRuns,
}

// The sweeps of a problem, and the runs of users that they make.
#[derive(Drop)]
pub(crate) struct Swept {
    sweeps: Sweeps,
    runs: UserRuns,
}

impl Swept {
    // Those of a problem.
    pub(crate) fn of(alloc: Global, problem: &Problem, outline: &Outline) -> Result<Swept, Memory> {
        let sweeps = Sweeps::of(alloc, problem, outline)?;
        let runs = UserRuns::of(alloc, &sweeps)?;
        Ok(Swept { sweeps, runs })
    }
}

impl Found {
    // What is found of marked resources.
    pub(crate) fn of(
        alloc: Global,
        problem: &Problem,
        swept: Swept,
        marks: &[bool],
    ) -> Result<Found, Memory> {
        let classes = marked_classes(alloc, problem, marks)?;
        let gaps = &swept.sweeps.gaps;
        let grids = Grids::of(alloc, gaps, problem.resources(), classes.items())?;
        let mut found = Found {
            classes,
            grids,
            hits: Vec::new(alloc),
            columns: Rows::new(alloc)?,
            runs: swept.runs,
        };
        found.find(alloc, &swept.sweeps)?;
        Ok(found)
    }

    // Finds the hits of sweeps.
    fn find(&mut self, alloc: Global, sweeps: &Sweeps) -> Result<(), Memory> {
        self.hits = hits_of(alloc, sweeps, &self.runs, &self.grids)?;
        self.columns = by_column(alloc, &self.hits, self.grids.columns.len())?;
        let classes = self.classes.items().len();
        let flags = unsettled(alloc, &self.grids, &self.columns, &self.runs, classes)?;
        if flags.contains(&true) {
            self.settle(alloc, &flags)?;
        }
        Ok(())
    }

    // Makes the hits of flagged classes anew.
    fn settle(&mut self, alloc: Global, flags: &[bool]) -> Result<(), Memory> {
        self.hits = settled(alloc, &self.grids, &self.hits, flags, &mut self.runs)?;
        self.columns = by_column(alloc, &self.hits, self.grids.columns.len())?;
        Ok(())
    }

    // What is compared.
    pub(crate) fn compared(&self) -> Compared<'_> {
        Compared {
            classes: self.classes.items(),
            order: &self.grids.order,
            hits: &self.columns.items,
            runs: &self.runs,
        }
    }

    // The users of classes that are kept, by the marks of their resources.
    pub(crate) fn kept_users<'a>(&'a self, users: &'a Users, marks: &'a [bool]) -> KeptUsers<'a> {
        KeptUsers {
            users,
            runs: &self.runs,
            classes: self.classes.items(),
            marks,
        }
    }

    // What of it the classes have whose resource is marked.
    pub(crate) fn kept(
        &self,
        alloc: Global,
        outline: &Outline,
        marks: &[bool],
    ) -> Result<Kept, Memory> {
        let flags = kept_flags(alloc, self.classes.items(), marks)?;
        let numbers = counts_below(alloc, &flags, 0)?;
        let order = kept_order(alloc, &self.grids.order, &flags, &numbers)?;
        let places = self.grids.places_below(alloc, &flags)?;
        let hits = KeptHits {
            hits: &self.hits,
            runs: &self.runs,
            places: &places,
        };
        let parts = outline.parts();
        let same = same_lists(alloc, &hits.part_keys(alloc, &order, parts)?)?;
        let listed = listed_parts(alloc, &outline.units, &same)?;
        let edges = hits.edges(alloc, &listed, parts)?;
        Ok(Kept {
            order,
            edges,
            same,
            classes: number_at(&numbers, flags.len()) as usize,
        })
    }
}

// Where uses of the classes that are kept begin and end: the classes in order of their places, the
// edges of the parts of units with a new list, for each part the first one with the same list, and
// how many classes there are.
#[derive(Drop)]
pub(crate) struct Kept {
    order: Vec<u32>,
    edges: Edges,
    same: Vec<u32>,
    classes: usize,
}

impl Kept {
    // What lists of uses are made of.
    pub(crate) fn ground(&self) -> Ground<'_> {
        Ground {
            edges: &self.edges,
            order: &self.order,
            same: &self.same,
            classes: self.classes,
        }
    }
}

// For each class whether its resource is marked.
fn kept_flags(alloc: Global, classes: &[Class], marks: &[bool]) -> Result<Vec<bool>, Memory> {
    let mut kept = Vec::with_capacity(alloc, classes.len())?;
    for class in classes {
        kept.push(is_marked(marks, class.resource))?;
    }
    Ok(kept)
}

// The numbers of the classes that are kept, in order of their places.
fn kept_order(
    alloc: Global,
    order: &[u32],
    kept: &[bool],
    numbers: &[u32],
) -> Result<Vec<u32>, Memory> {
    let mut found = Vec::with_capacity(alloc, order.len())?;
    for class in order {
        if is_marked(kept, *class) {
            found.push(number_at(numbers, *class as usize))?;
        }
    }
    Ok(found)
}
