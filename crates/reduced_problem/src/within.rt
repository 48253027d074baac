//! Classes of what is left whose users are among those of another one with no greater limit.

use crate::candidates::Candidates;
use crate::classes::{ClassUse, UserRun, set_mark};
use crate::rows::{Rows, from_place};

// How many classes are tried for one.
const MOST_TRIED: usize = 256;

// Takes the mark of each class away whose users are among those of another marked one with no
// greater limit, which uses them as often. `uses` are the rows of the marked classes.
pub(crate) fn unmark_within(candidates: &Candidates, uses: &Rows<ClassUse>, marks: &mut [bool]) {
    for one in &candidates.items {
        let runs = candidates.users.row(one.place);
        if is_within(
            candidates,
            uses.row(rarest(uses, runs)),
            one.place,
            one.limit,
        ) {
            set_mark(marks, one.place, false);
        }
    }
}

// Of the first parts of runs, the one that the fewest classes use.
fn rarest(uses: &Rows<ClassUse>, runs: &[UserRun]) -> u32 {
    let mut rarest = 0;
    let mut fewest = usize::MAX;
    for run in runs {
        let count = uses.row(run.first).len();
        if count < fewest {
            fewest = count;
            rarest = run.first;
        }
    }
    rarest
}

// Whether the users of a class are among those of one of these others.
fn is_within(candidates: &Candidates, others: &[ClassUse], place: u32, limit: i64) -> bool {
    let inner = candidates.users.row(place);
    for other in others.iter().take(MOST_TRIED) {
        if other.class != place && candidates.limit(other.class) <= limit {
            if has_all(candidates.users.row(other.class), inner) {
                return true;
            }
        }
    }
    false
}

// Whether the parts of all runs of one list are among those of another one, which are used as
// often, both by rising part.
fn has_all(outer: &[UserRun], inner: &[UserRun]) -> bool {
    let mut found = 0;
    for run in outer {
        found = found_after(run, inner, found);
        match inner.get(found) {
            Some(wanted) if wanted.first >= run.end => {}
            Some(_) => return false,
            None => return true,
        }
    }
    found >= inner.len()
}

// How many of these runs are done, of which so many were, where those within this one are, too.
fn found_after(run: &UserRun, inner: &[UserRun], found: usize) -> usize {
    let mut count = found;
    for wanted in from_place(inner, found) {
        if wanted.first < run.first || run.end < wanted.end || run.uses < wanted.uses {
            return count;
        }
        count = count.saturating_add(1);
    }
    count
}
