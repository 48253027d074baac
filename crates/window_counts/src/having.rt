//! Whether the resources that parts use have enough counted, where counts are of what is left.

ghost use Rattle.std.specs.Prelude.{◌≡◌, ◌↔◌, ℕ, ◌+◌, ◌^◌, ◌<◌, ◌≤◌, length, slice_index, IsTrue};
ghost use Rattle.choice_problem.specs.Strips.{strip_uses, part_uses, IsStripInRange, IsPartInRange};

use choice_problem::{Part, Strip};

// Whether each resource that the part uses has at least one.
pub(crate) fn part_has(counts: &[u32], part: &Part) -> bool
    requires there { IsPartInRange (length counts.now) part.now }
    requires resources { length counts.now < 2 ^ 32 }
    ensures { IsTrue result ↔ ((r : ℕ) → 0 < part_uses part.now r → 1 ≤ slice_index counts.now r) }
{
    for strip in part.strips() {
        if !strip_has(counts, strip) {
            return false;
        }
    }
    true
}

// The same of a strip.
fn strip_has(counts: &[u32], strip: &Strip) -> bool
    requires there { IsStripInRange (length counts.now) strip.now }
    requires resources { length counts.now < 2 ^ 32 }
    ensures { IsTrue result
        ↔ ((r : ℕ) → 0 < strip_uses strip.now r → 1 ≤ slice_index counts.now r) }
{
    for i in 0..strip.times {
        let (start, end) = strip.run(i);
        if !run_has(counts, start as usize, end as usize) {
            return false;
        }
    }
    true
}

// The same from one place to another.
fn run_has(counts: &[u32], start: usize, end: usize) -> bool
    requires ordered { start ≤ end }
    requires there { end ≤ length counts.now }
    ensures { IsTrue result ↔ ((r : ℕ) → start ≤ r → r < end → 1 ≤ slice_index counts.now r) }
{
    for at in start..end {
        if counts[at] == 0 {
            return false;
        }
    }
    true
}

// Whether each resource that both parts use has at least two.
pub(crate) fn both_have(counts: &[u32], one: &Part, two: &Part) -> bool
    requires there { IsPartInRange (length counts.now) one.now }
    requires few { (r : ℕ) → part_uses two.now r < 2 ^ 32 }
    requires resources { length counts.now < 2 ^ 32 }
    ensures { IsTrue result ↔ ((r : ℕ) → 0 < part_uses one.now r → 0 < part_uses two.now r →
        2 ≤ slice_index counts.now r) }
{
    for strip in one.strips() {
        if !strip_both(counts, strip, two) {
            return false;
        }
    }
    true
}

// The same of a strip and a part.
fn strip_both(counts: &[u32], strip: &Strip, two: &Part) -> bool
    requires there { IsStripInRange (length counts.now) strip.now }
    requires few { (r : ℕ) → part_uses two.now r < 2 ^ 32 }
    requires resources { length counts.now < 2 ^ 32 }
    ensures { IsTrue result ↔ ((r : ℕ) → 0 < strip_uses strip.now r → 0 < part_uses two.now r →
        2 ≤ slice_index counts.now r) }
{
    for i in 0..strip.times {
        let (start, end) = strip.run(i);
        if !run_both(counts, start as usize, end as usize, two) {
            return false;
        }
    }
    true
}

// The same from one place to another.
fn run_both(counts: &[u32], start: usize, end: usize, two: &Part) -> bool
    requires ordered { start ≤ end }
    requires there { end ≤ length counts.now }
    requires few { (r : ℕ) → part_uses two.now r < 2 ^ 32 }
    requires resources { length counts.now < 2 ^ 32 }
    ensures { IsTrue result ↔ ((r : ℕ) → start ≤ r → r < end → 0 < part_uses two.now r →
        2 ≤ slice_index counts.now r) }
{
    for at in start..end {
        if counts[at] < 2 && two.uses(at as u32) > 0 {
            return false;
        }
    }
    true
}
