//! The uses of the stops of a line.

ghost use Rattle.std.specs.Prelude.{◌≡◌, ◌≢◌, ◌↔◌, ℕ, ◌+◌, ◌^◌, ◌<◌, ◌≤◌, length, slice_index, Some, IsTrue};
ghost use Rattle.std.specs.Option.{ForSome};
ghost use Rattle.choice_problem.specs.Counts.{GrowsBy, HasRoom, HasUses};
ghost use Rattle.choice_problem.specs.Strips.{IsPartInRange};
ghost use Rattle.window_counts.specs.Counts.{some_uses, both_uses};
ghost use Rattle.holding_book.specs.Private.Uses.{book_uses_of, AreInRange, AreNone, AreUsedOnce};

use choice_problem::{Part, strip_list};
use left_counts::LeftCounts;

/// The uses of the stops of a line.
#[derive(Drop)]
pub struct Uses {
    pub one: Option<Part>,
    pub two: Option<Part>,
}

/// No uses.
pub(crate) fn no_uses() -> Uses
    ensures { AreNone result }
{
    Uses {
        one: None,
        two: None,
    }
}

/// Gives the uses back.
pub(crate) fn give_back(left: &mut LeftCounts, uses: &Uses)
    requires there { AreInRange (length left.old) uses.now }
    requires room { HasRoom left.old (λ r. book_uses_of uses.now r) }
    ensures length { length left.new ≡ length left.old }
    ensures uses { GrowsBy left.old left.new (λ r. book_uses_of uses.now r) }
{
    if let Some(part) = &uses.one {
        left.add(part);
    }
    if let Some(part) = &uses.two {
        left.add(part);
    }
}

/// Takes the uses.
pub(crate) fn take_away(left: &mut LeftCounts, uses: &Uses)
    requires there { AreInRange (length left.old) uses.now }
    requires left { HasUses left.old (λ r. book_uses_of uses.now r) }
    ensures length { length left.new ≡ length left.old }
    ensures uses { GrowsBy left.new left.old (λ r. book_uses_of uses.now r) }
{
    if let Some(part) = &uses.one {
        left.take(part);
    }
    if let Some(part) = &uses.two {
        left.take(part);
    }
}

/// Whether each number is at least what two parts use of it, of which each may be missing. A part
/// uses each resource at most once but the night quota.
pub(crate) fn has_uses(
    left: &LeftCounts,
    one: &Option<Part>,
    two: &Option<Part>,
    night: Option<u32>,
) -> bool
    requires one { ForSome one.now (IsPartInRange (length left.now)) }
    requires two { ForSome two.now (IsPartInRange (length left.now)) }
    requires few { (r : ℕ) → both_uses one.now two.now r < 2 ^ 20 }
    requires once { (r : ℕ) → r < length left.now → night ≢ Some r →
        AreUsedOnce one.now two.now r }
    requires quota { ForSome night (λ r. r < length left.now) }
    ensures { IsTrue result ↔ HasUses left.now (λ r. both_uses one.now two.now r) }
{
    strip_list();
    has_part(left, one)
        && has_part(left, two)
        && has_shared(left, one, two)
        && has_quota(left, one, two, night)
}

/// The same, where each of the two parts alone has what it uses: only what both use is looked at.
pub(crate) fn has_both(
    left: &LeftCounts,
    one: &Option<Part>,
    two: &Option<Part>,
    night: Option<u32>,
) -> bool
    requires there { ForSome one.now (IsPartInRange (length left.now)) }
    requires few { (r : ℕ) → both_uses one.now two.now r < 2 ^ 20 }
    requires once { (r : ℕ) → r < length left.now → night ≢ Some r →
        AreUsedOnce one.now two.now r }
    requires quota { ForSome night (λ r. r < length left.now) }
    requires one { HasUses left.now (λ r. some_uses one.now r) }
    requires two { HasUses left.now (λ r. some_uses two.now r) }
    ensures { IsTrue result ↔ HasUses left.now (λ r. both_uses one.now two.now r) }
{
    strip_list();
    has_shared(left, one, two) && has_quota(left, one, two, night)
}

// Whether each number of which a part uses something is at least 1.
fn has_part(left: &LeftCounts, part: &Option<Part>) -> bool
    requires { ForSome part.now (IsPartInRange (length left.now)) }
    ensures { IsTrue result
        ↔ ((r : ℕ) → 0 < some_uses part.now r → 1 ≤ slice_index left.now r) }
{
    match part {
        Some(part) => left.has_one(part),
        None => true,
    }
}

// Whether each number of which both parts use something is at least 2.
fn has_shared(left: &LeftCounts, one: &Option<Part>, two: &Option<Part>) -> bool
    requires there { ForSome one.now (IsPartInRange (length left.now)) }
    requires few { (r : ℕ) → both_uses one.now two.now r < 2 ^ 20 }
    ensures { IsTrue result ↔ ((r : ℕ) → 0 < some_uses one.now r →
        0 < some_uses two.now r → 2 ≤ slice_index left.now r) }
{
    match (one, two) {
        (Some(one), Some(two)) => left.has_two(one, two),
        _ => true,
    }
}

// Whether the night quota, if there is one, has what is used of it.
fn has_quota(left: &LeftCounts, one: &Option<Part>, two: &Option<Part>, night: Option<u32>) -> bool
    requires few { (r : ℕ) → both_uses one.now two.now r < 2 ^ 20 }
    requires quota { ForSome night (λ r. r < length left.now) }
    ensures { IsTrue result
        ↔ ForSome night (λ r. both_uses one.now two.now r ≤ slice_index left.now r) }
{
    match night {
        Some(quota) => count_uses(one, quota) + count_uses(two, quota) <= left.count(quota),
        None => true,
    }
}

// How often a part uses a resource.
fn count_uses(part: &Option<Part>, resource: u32) -> u32
    requires { some_uses part.now resource < 2 ^ 20 }
    ensures { result ≡ some_uses part.now resource }
{
    match part {
        Some(part) => part.uses(resource),
        None => 0,
    }
}
