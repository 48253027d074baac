//! Two parts that are added together, where they fit together.

ghost use Rattle.std.specs.Prelude.{◌≡◌, ◌↔◌, ℕ, ◌+◌, ◌^◌, ◌<◌, length, slice_index, option_copied, IsTrue, pos, ◌≤ℤ◌};
ghost use Rattle.std.specs.Option.{ForSome};
ghost use Rattle.choice_problem.specs.Strips.{IsPartInRange};
ghost use Rattle.choice_problem.specs.Counts.{GrowsBy, HasRoom, HasUses, limit_at};
ghost use Rattle.window_counts.specs.Counts.{some_uses, both_uses, AreWithin, FitsWith};

use crate::fitting::part_fits;
use choice_problem::{Part, strip_list};

// Adds two parts that may be there, where both fit together. Else the counts stay.
pub(crate) fn add_both(
    counts: &mut [u32],
    one: Option<&Part>,
    two: Option<&Part>,
    limits: &[i64],
) -> bool
    requires one { ForSome (option_copied one) (IsPartInRange (length counts.old)) }
    requires two { ForSome (option_copied two) (IsPartInRange (length counts.old)) }
    requires room { HasRoom counts.old (λ r. both_uses (option_copied one) (option_copied two) r) }
    requires resources { length counts.old < 2 ^ 32 }
    requires limits { length limits.now ≡ length counts.old }
    ensures exact { IsTrue result ↔ FitsWith counts.old
        (λ r. both_uses (option_copied one.entry) (option_copied two.entry) r) limits.now }
    ensures added { IsTrue result → GrowsBy counts.old counts.new
        (λ r. both_uses (option_copied one.entry) (option_copied two.entry) r) }
    ensures left { (IsTrue result → ⊥) → counts.new ≡ counts.old }
    ensures within { AreWithin counts.old limits.now → AreWithin counts.new limits.now }
{
    strip_list();
    add_some(counts, one);
    add_some(counts, two);
    if are_within(counts, one, two, limits) {
        return true;
    }
    take_some(counts, two);
    take_some(counts, one);
    false
}

// Whether no resource that one of the parts uses is counted above its limit.
fn are_within(counts: &[u32], one: Option<&Part>, two: Option<&Part>, limits: &[i64]) -> bool
    requires one { ForSome (option_copied one) (IsPartInRange (length counts.now)) }
    requires two { ForSome (option_copied two) (IsPartInRange (length counts.now)) }
    requires resources { length counts.now < 2 ^ 32 }
    requires limits { length limits.now ≡ length counts.now }
    ensures { IsTrue result ↔ (
        ((r : ℕ) → 0 < some_uses (option_copied one.entry) r →
        pos (slice_index counts.now r) ≤ℤ limit_at limits.now r)
        × ((r : ℕ) → 0 < some_uses (option_copied two.entry) r →
        pos (slice_index counts.now r) ≤ℤ limit_at limits.now r)) }
{
    is_some_within(counts, one, limits) && is_some_within(counts, two, limits)
}

// Counts the uses of a part that may be there.
fn add_some(counts: &mut [u32], part: Option<&Part>)
    requires there { ForSome (option_copied part) (IsPartInRange (length counts.old)) }
    requires room { HasRoom counts.old (λ r. some_uses (option_copied part) r) }
    ensures { GrowsBy counts.old counts.new (λ r. some_uses (option_copied part.entry) r) }
{
    if let Some(part) = part {
        part.add_uses(counts);
    }
}

// Takes the uses of a part that may be there away.
fn take_some(counts: &mut [u32], part: Option<&Part>)
    requires there { ForSome (option_copied part) (IsPartInRange (length counts.old)) }
    requires added { HasUses counts.old (λ r. some_uses (option_copied part) r) }
    ensures { GrowsBy counts.new counts.old (λ r. some_uses (option_copied part.entry) r) }
{
    if let Some(part) = part {
        part.take_uses(counts);
    }
}

// Whether no resource that a part uses, if it is there, is counted above its limit: one step a use.
fn is_some_within(counts: &[u32], part: Option<&Part>, limits: &[i64]) -> bool
    requires there { ForSome (option_copied part) (IsPartInRange (length counts.now)) }
    requires resources { length counts.now < 2 ^ 32 }
    requires limits { length limits.now ≡ length counts.now }
    ensures { IsTrue result ↔ ((r : ℕ) → 0 < some_uses (option_copied part.entry) r →
        pos (slice_index counts.now r) ≤ℤ limit_at limits.now r) }
{
    match part {
        Some(part) => part_fits(counts, part, 0, limits),
        None => true,
    }
}
