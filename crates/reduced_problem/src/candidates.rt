//! The classes of a whole problem that can be passed by what is left of it.

use crate::classes::{UserRun, is_marked};
use crate::left_parts::LeftParts;
use crate::numbers::{as_number, mix, put_number};
use crate::reduce::Reduced;
use crate::rows::{Rows, from_place};
use slot_text::Memory;
use std::alloc::Global;

// A class that can still be passed, with the key of its users: ordered by key, then limit, then
// number.
#[derive(Clone, Copy, Debug, PartialEq, Eq, PartialOrd, Ord)]
pub(crate) struct Candidate {
    key: u64,
    pub(crate) limit: i64,
    // Its place among the candidates.
    pub(crate) place: u32,
    // Its number in the whole problem.
    pub(crate) class: u32,
}

// The classes that can still be passed, by rising number, and for each the runs of its users, by
// their numbers among the parts that are still named.
#[derive(Drop)]
pub(crate) struct Candidates {
    pub(crate) items: Vec<Candidate>,
    pub(crate) users: Rows<UserRun>,
}

// How often the units together can use a class, as far as they were counted, and the unit that is
// being counted: how often its first parts and its second ones use the class at most.
#[derive(Clone, Copy)]
struct Most {
    total: u64,
    unit: u32,
    one: u32,
    two: u32,
}

impl Most {
    // Nothing counted.
    fn none() -> Most {
        Most {
            total: 0,
            unit: 0,
            one: 0,
            two: 0,
        }
    }

    // Counts a run of parts that are still named.
    fn count(&mut self, parts: &LeftParts, run: &UserRun) {
        let unit = parts.unit(run.first);
        if unit != self.unit {
            *self = Most {
                total: self.all(),
                unit,
                one: 0,
                two: 0,
            };
        }
        if parts.has_first(run) {
            self.one = self.one.max(run.uses);
        }
        if parts.has_second(run) {
            self.two = self.two.max(run.uses);
        }
    }

    // How often the units that were counted can use the class.
    fn all(&self) -> u64 {
        let last = u64::from(self.one).saturating_add(u64::from(self.two));
        self.total.saturating_add(last)
    }
}

impl Candidates {
    // No classes.
    fn none(alloc: Global) -> Result<Candidates, Memory> {
        Ok(Candidates {
            items: Vec::new(alloc),
            users: Rows::new(alloc)?,
        })
    }

    // Adds a class with the named ones of these users, if it can be passed, or is wanted and has
    // users.
    fn add(
        &mut self,
        parts: &LeftParts,
        class: u32,
        limit: i64,
        users: &[UserRun],
        is_wanted: bool,
    ) -> Result<(), Memory> {
        let start = self.users.items.len();
        let most = self.add_runs(parts, start, users)?;
        if is_wanted && most > 0 || i128::from(most) > i128::from(limit) {
            let place = as_number(self.items.len());
            let key = key_of(&self.users.items, start);
            self.items.push(Candidate {
                key,
                limit,
                place,
                class,
            })?;
            return self.users.end_row();
        }
        self.users.items.truncate(start);
        Ok(())
    }

    // Adds the named ones of these users to the row that begins at this place. Answers how often
    // the units together can use the class.
    fn add_runs(
        &mut self,
        parts: &LeftParts,
        start: usize,
        users: &[UserRun],
    ) -> Result<u64, Memory> {
        let mut most = Most::none();
        for run in users {
            let named = parts.run(run);
            if named.first < named.end {
                most.count(parts, &named);
                self.add_run(parts, start, named)?;
            }
        }
        Ok(most.all())
    }

    // Adds a run to the row that begins at this place: to the last one, where it goes on with that.
    fn add_run(&mut self, parts: &LeftParts, start: usize, run: UserRun) -> Result<(), Memory> {
        let count = self.users.items.len();
        if count > start {
            let last = self.users.items[count - 1];
            let goes_on = last.end == run.first && last.uses == run.uses;
            if goes_on && parts.unit(last.first) == parts.unit(run.first) {
                self.users.items[count - 1].end = run.end;
                return Ok(());
            }
        }
        self.users.items.push(run)?;
        Ok(())
    }

    // The limit at a place, or 0 past the last.
    pub(crate) fn limit(&self, place: u32) -> i64 {
        match self.items.get(place as usize) {
            Some(one) => one.limit,
            None => 0,
        }
    }

    // For each class the place of the one with the same users that has the least limit, and of
    // several the lowest number.
    pub(crate) fn leasts(&self, alloc: Global) -> Result<Vec<u32>, Memory> {
        let mut order = Vec::from_slice(alloc, &self.items)?;
        order.sort_unstable();
        let mut leasts = vec![in alloc; 0; order.len()]?;
        let mut last = None;
        let mut least = 0;
        for one in &order {
            if last != Some(one.key) {
                least = one.place;
            }
            last = Some(one.key);
            put_number(&mut leasts, one.place, least);
        }
        Ok(leasts)
    }

    // The users of the classes at marked places, by their numbers among all parts.
    pub(crate) fn users_of(
        &self,
        alloc: Global,
        parts: &LeftParts,
        marks: &[bool],
    ) -> Result<Rows<UserRun>, Memory> {
        let mut users = Rows::new(alloc)?;
        for one in &self.items {
            if is_marked(marks, one.place) {
                parts.add_whole(&mut users.items, self.users.row(one.place))?;
                users.end_row()?;
            }
        }
        Ok(users)
    }
}

// The classes that can still be passed, or are wanted.
pub(crate) fn candidates_of(
    alloc: Global,
    whole: &Reduced,
    parts: &LeftParts,
    wanted: &[bool],
) -> Result<Candidates, Memory> {
    let mut candidates = Candidates::none(alloc)?;
    for (number, class) in (0..).zip(whole.classes()) {
        let is_wanted = is_marked(wanted, number);
        candidates.add(parts, number, class.limit, whole.users(number), is_wanted)?;
    }
    Ok(candidates)
}

// A key of the runs from a place on, that depends on them alone.
fn key_of(runs: &[UserRun], start: usize) -> u64 {
    let mut key: u64 = 0;
    for run in from_place(runs, start) {
        let ends = (u64::from(run.first) << 32) | u64::from(run.end);
        key = key.wrapping_add(mix(mix(ends).wrapping_add(u64::from(run.uses))));
    }
    key
}
