//! The first place whose count is above its limit.

ghost use Rattle.std.specs.Prelude.{◌≡◌, ◌+◌, ◌≤◌, false, length, IfSome, IfNone};
ghost use Rattle.branch_tree.specs.declared.scans.TheConstants.{TOGETHER};
ghost use Rattle.branch_tree.specs.Walks.{AreWithinPlaces, AreWithinFrom, IsFirstPlaceAbove};

// How many places are looked at together.
const TOGETHER: usize = 64;

// The first place whose count is above its limit. It tests 64 places at once, without stopping at
// the first that is above, which processors do by several numbers in one step; only where one is
// above, and behind the last 64, it looks at each.
pub(crate) fn first_above(counts: &[u32], limits: &[u32]) -> Option<usize>
    requires { length limits.now ≡ length counts.now }
    ensures some { IfSome result (IsFirstPlaceAbove counts.now limits.now) }
    ensures none { IfNone result (AreWithinPlaces counts.now limits.now (length counts.now)) }
{
    let together = counts.len() / TOGETHER;
    for run in 0..together {
        if is_any_above(counts, limits, run * TOGETHER) {
            return next_above(counts, limits, run * TOGETHER);
        }
    }
    next_above(counts, limits, together * TOGETHER)
}

// Whether a count from a place on is above its limit, among those that are looked at together.
fn is_any_above(counts: &[u32], limits: &[u32], from: usize) -> bool
    requires count { length limits.now ≡ length counts.now }
    requires there { from + TOGETHER ≤ length counts.now }
    ensures { result ≡ false → AreWithinFrom counts.now limits.now from (from + TOGETHER) }
{
    let mut is_any = false;
    for place in from..from + TOGETHER {
        if counts[place] > limits[place] {
            is_any = true;
        }
    }
    is_any
}

// The first place from one on whose count is above its limit, where none before it is.
fn next_above(counts: &[u32], limits: &[u32], from: usize) -> Option<usize>
    requires count { length limits.now ≡ length counts.now }
    requires there { from ≤ length counts.now }
    requires before { AreWithinPlaces counts.now limits.now from }
    ensures some { IfSome result (IsFirstPlaceAbove counts.now limits.now) }
    ensures none { IfNone result (AreWithinPlaces counts.now limits.now (length counts.now)) }
{
    for place in from..counts.len() {
        if counts[place] > limits[place] {
            return Some(place);
        }
    }
    None
}
