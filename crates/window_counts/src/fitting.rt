//! Whether the resources that a part uses have room.

ghost use Rattle.std.specs.Prelude.{◌≡◌, ◌↔◌, ℕ, ◌+◌, ◌^◌, ◌<◌, ◌≤◌, length, IsTrue, pos, ◌≤ℤ◌};
ghost use Rattle.choice_problem.specs.Strips.{strip_uses, part_uses, IsStripInRange, IsPartInRange};
ghost use Rattle.window_counts.specs.Counts.{KeepsLimit};

use choice_problem::{Part, Strip};

// Whether at each resource that the part uses, the count and so many more are together at most the
// limit.
pub(crate) fn part_fits(counts: &[u32], part: &Part, more: u32, limits: &[i64]) -> bool
    requires there { IsPartInRange (length counts.now) part.now }
    requires resources { length counts.now < 2 ^ 32 }
    requires limits { length limits.now ≡ length counts.now }
    ensures { IsTrue result
        ↔ ((r : ℕ) → 0 < part_uses part.now r →
        KeepsLimit counts.now (λ _. more) limits.now r) }
{
    for strip in part.strips() {
        if !strip_fits(counts, strip, more, limits) {
            return false;
        }
    }
    true
}

// The same at each resource that a strip uses.
fn strip_fits(counts: &[u32], strip: &Strip, more: u32, limits: &[i64]) -> bool
    requires there { IsStripInRange (length counts.now) strip.now }
    requires resources { length counts.now < 2 ^ 32 }
    requires limits { length limits.now ≡ length counts.now }
    ensures { IsTrue result
        ↔ ((r : ℕ) → 0 < strip_uses strip.now r →
        KeepsLimit counts.now (λ _. more) limits.now r) }
{
    for i in 0..strip.times {
        let (start, end) = strip.run(i);
        if !run_fits(counts, start as usize, end as usize, more, limits) {
            return false;
        }
    }
    true
}

// The same at each resource from one place to another.
fn run_fits(counts: &[u32], start: usize, end: usize, more: u32, limits: &[i64]) -> bool
    requires ordered { start ≤ end }
    requires there { end ≤ length counts.now }
    requires limits { length limits.now ≡ length counts.now }
    ensures { IsTrue result
        ↔ ((r : ℕ) → start ≤ r → r < end →
        KeepsLimit counts.now (λ _. more) limits.now r) }
{
    for at in start..end {
        if !is_within(counts[at], more, limits[at]) {
            return false;
        }
    }
    true
}

// Whether a count and more uses are together at most a limit.
fn is_within(count: u32, uses: u32, limit: i64) -> bool
    ensures { IsTrue result ↔ (pos (count + uses) ≤ℤ limit) }
{
    i64::from(count) + i64::from(uses) <= limit
}
