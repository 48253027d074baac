//! The marks of the resources that parts use.

ghost use Rattle.std.specs.Prelude.{◌≡◌, ◌↔◌, ℕ, ◌*◌, ◌^◌, ◌<◌, ◌≤◌, ◌≢◌, length, slice_index, IsTrue};
ghost use Rattle.choice_problem.specs.Strips.{strip_uses, part_uses, IsStripInRange, IsPartInRange};
ghost use Rattle.choice_problem.specs.Loops.{run_uses};
ghost use Rattle.left_counts.specs.Private.Marks.{mark_at, AreCleared, AreMarked};

use crate::words::{are_clear, set_mark};
use choice_problem::{Part, Strip};
use window_counts::Counts;

/// Whether no resource that the part uses is marked.
pub(crate) fn part_is_clear(words: &[u64], part: &Part) -> bool
    requires { IsPartInRange (64 * length words.now) part.now }
    ensures { IsTrue result ↔ ((r : ℕ) → 0 < part_uses part.now r → mark_at words.now r ≡ 0) }
{
    for strip in part.strips() {
        if !strip_is_clear(words, strip) {
            return false;
        }
    }
    true
}

// The same of a strip.
fn strip_is_clear(words: &[u64], strip: &Strip) -> bool
    requires { IsStripInRange (64 * length words.now) strip.now }
    ensures { IsTrue result ↔ ((r : ℕ) → 0 < strip_uses strip.now r → mark_at words.now r ≡ 0) }
{
    for i in 0..strip.times {
        let (start, end) = strip.run(i);
        if !are_clear(words, start as usize, end as usize) {
            return false;
        }
    }
    true
}

/// Marks what the part uses and of which nothing is left: one step a use.
pub(crate) fn mark_part(words: &mut [u64], left: &Counts, part: &Part)
    requires there { IsPartInRange (length left.now) part.now }
    requires room { length left.now ≤ 64 * length words.old }
    requires few { length left.now < 2 ^ 32 }
    ensures length { length words.new ≡ length words.old }
    ensures marks { AreMarked left.now (λ r. part_uses part.now r) words.old words.new }
{
    for strip in part.strips() {
        mark_strip(words, left, strip);
    }
}

// The same of a strip.
fn mark_strip(words: &mut [u64], left: &Counts, strip: &Strip)
    requires there { IsStripInRange (length left.now) strip.now }
    requires room { length left.now ≤ 64 * length words.old }
    requires few { length left.now < 2 ^ 32 }
    ensures length { length words.new ≡ length words.old }
    ensures marks { AreMarked left.now (λ r. strip_uses strip.now r) words.old words.new }
{
    for i in 0..strip.times {
        let (start, end) = strip.run(i);
        mark_run(words, left, start as usize, end as usize);
    }
}

/// The same from one resource to another.
pub(crate) fn mark_run(words: &mut [u64], left: &Counts, start: usize, end: usize)
    requires ordered { start ≤ end }
    requires there { end ≤ length left.now }
    requires room { length left.now ≤ 64 * length words.old }
    requires few { length left.now < 2 ^ 32 }
    ensures length { length words.new ≡ length words.old }
    ensures marks { AreMarked left.now (λ r. run_uses start end r) words.old words.new }
{
    for at in start..end {
        mark_one(words, left, at);
    }
}

// The same of one resource.
fn mark_one(words: &mut [u64], left: &Counts, at: usize)
    requires there { at < length left.now }
    requires room { length left.now ≤ 64 * length words.old }
    requires few { length left.now < 2 ^ 32 }
    ensures length { length words.new ≡ length words.old }
    ensures full { slice_index left.now at ≡ 0 → mark_at words.new at ≡ 1 }
    ensures some { 1 ≤ slice_index left.now at → mark_at words.new at ≡ mark_at words.old at }
    ensures others { (r : ℕ) → r ≢ at → mark_at words.new r ≡ mark_at words.old r }
{
    if left.count(at as u32) == 0 {
        set_mark(words, at, true);
    }
}

/// Takes the marks of what the part uses away: one step for each run and each word of it, and one
/// more a use where something was marked.
pub(crate) fn clear_part(words: &mut [u64], part: &Part)
    requires { IsPartInRange (64 * length words.old) part.now }
    ensures length { length words.new ≡ length words.old }
    ensures marks { AreCleared (λ r. part_uses part.now r) words.old words.new }
{
    for strip in part.strips() {
        clear_strip(words, strip);
    }
}

// The same of a strip.
fn clear_strip(words: &mut [u64], strip: &Strip)
    requires { IsStripInRange (64 * length words.old) strip.now }
    ensures length { length words.new ≡ length words.old }
    ensures marks { AreCleared (λ r. strip_uses strip.now r) words.old words.new }
{
    for i in 0..strip.times {
        let (start, end) = strip.run(i);
        if !are_clear(words, start as usize, end as usize) {
            clear_run(words, start as usize, end as usize);
        }
    }
}

// The same from one resource to another.
fn clear_run(words: &mut [u64], start: usize, end: usize)
    requires ordered { start ≤ end }
    requires there { end ≤ 64 * length words.old }
    ensures length { length words.new ≡ length words.old }
    ensures marks { AreCleared (λ r. run_uses start end r) words.old words.new }
{
    for at in start..end {
        set_mark(words, at, false);
    }
}
