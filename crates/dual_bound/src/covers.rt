//! Strips that together use each resource at least as often as each of some parts.
//!
//! A chain of strips at nearby times may be held by one that is wider than its gap. Its runs then
//! overlap, and a resource in two of them counts twice, even if each part uses it once: the uses
//! are then too high, never too low.

ghost use Rattle.std.specs.Prelude.{◌≡◌, ℕ, ◌+◌, ◌^◌, ◌<◌, ◌≤◌, IfOk, IsTrue, [], false, true, length, slice_index_or, All};
ghost use Rattle.std.specs.Option.{ForSome};
ghost use Rattle.choice_problem.specs.Strips.{strip_uses, part_uses, IsStripInRange, IsPartInRange};
ghost use Rattle.dual_bound.specs.Covers.{AreHeldIn, CanHold, LiesIn, cover_uses, held_at, held_uses};

use choice_problem::{Part, Strip};
use slot_text::Memory;
use std::alloc::Global;

// A strip, and the last part of which it holds a strip.
#[derive(Clone, Copy)]
pub(crate) struct Held {
    pub(crate) strip: Strip,
    pub(crate) part: usize,
}

// Strips that together use each resource at least as often as each marked part: a strip of a part
// lies in one that holds no other of that part. The strips of parts at nearby times are held by
// few.
pub(crate) fn cover_of(alloc: Global, parts: &[Part], marks: &[bool]) -> Result<Vec<Held>, Memory>
    requires marks { length marks.now ≡ length parts.now }
    ensures covers { IfOk result (λ cover. (n : ℕ) → n < length parts.now →
        slice_index_or marks.now n false ≡ true → (r : ℕ) →
        part_uses (slice_index_or parts.now n []) r ≤ cover_uses cover.items r) }
    ensures there { IfOk result (λ cover. (resources : ℕ) →
        All (λ strips. IsPartInRange resources strips) parts.now →
        AreHeldIn resources cover.items) }
{
    let mut cover = Vec::new(alloc);
    for place in 0..parts.len() {
        if marks[place] {
            hold_part(&mut cover, &parts[place], place)?;
        }
    }
    Ok(cover)
}

// Holds the strips of a part of this number.
fn hold_part(cover: &mut Vec<Held>, part: &Part, number: usize) -> Result<(), Memory>
    ensures part { IfOk result (λ _. (r : ℕ) →
        part_uses part.now r ≤ cover_uses cover.new.items r) }
    ensures more { IfOk result (λ _. (r : ℕ) →
        cover_uses cover.old.items r ≤ cover_uses cover.new.items r) }
    ensures there { IfOk result (λ _. (resources : ℕ) → IsPartInRange resources part.now →
        AreHeldIn resources cover.old.items → AreHeldIn resources cover.new.items) }
{
    for strip in part.strips() {
        hold_strip(cover, strip, number)?;
    }
    Ok(())
}

// Holds a strip of a part of this number.
fn hold_strip(cover: &mut Vec<Held>, strip: &Strip, part: usize) -> Result<(), Memory>
    ensures strip { IfOk result (λ _. (r : ℕ) →
        held_uses part cover.old.items r + strip_uses strip.now r
        ≤ held_uses part cover.new.items r) }
    ensures more { IfOk result (λ _. (r : ℕ) →
        cover_uses cover.old.items r ≤ cover_uses cover.new.items r) }
    ensures there { IfOk result (λ _. (resources : ℕ) → IsStripInRange resources strip.now →
        AreHeldIn resources cover.old.items → AreHeldIn resources cover.new.items) }
{
    match place_for(cover, strip, part) {
        Some(place) => {
            let strip = hull(&cover[place].strip, strip);
            cover[place] = Held { strip, part };
        }
        None => cover.push(Held {
            strip: *strip,
            part,
        })?,
    }
    Ok(())
}

// The first place whose strip can hold one more.
fn place_for(cover: &[Held], strip: &Strip, part: usize) -> Option<usize>
    ensures there { ForSome result (λ k. k < length cover.now) }
    ensures held { ForSome result (λ k. CanHold (held_at cover.now k) strip.now part) }
{
    for place in 0..cover.len() {
        if can_hold(&cover[place], strip, part) {
            return Some(place);
        }
    }
    None
}

// Whether a held strip holds none of this part, and its runs meet those of the strip.
fn can_hold(held: &Held, strip: &Strip, part: usize) -> bool
    ensures { IsTrue result → CanHold held.now strip.now part }
{
    if held.part == part || held.strip.gap != strip.gap || held.strip.times != strip.times {
        return false;
    }
    let (one, other) = (end_of(&held.strip), end_of(strip));
    let meet = u64::from(held.strip.first) <= other && u64::from(strip.first) <= one;
    meet && one < 1 << 32 && other < 1 << 32
}

// Where the first run ends.
fn end_of(strip: &Strip) -> u64
    ensures { result ≡ strip.now.first + strip.now.width }
{
    u64::from(strip.first) + u64::from(strip.width)
}

// The strip whose runs go from the first begin to the last end of the runs of two.
fn hull(one: &Strip, other: &Strip) -> Strip
    requires gap { one.now.gap ≡ other.now.gap }
    requires times { one.now.times ≡ other.now.times }
    requires one { one.now.first + one.now.width < 2 ^ 32 }
    requires other { other.now.first + other.now.width < 2 ^ 32 }
    ensures one { LiesIn one.now result }
    ensures other { LiesIn other.now result }
    ensures least { (end : ℕ) → one.now.first + one.now.width ≤ end →
        other.now.first + other.now.width ≤ end → result.first + result.width ≤ end }
{
    let first = one.first.min(other.first);
    let end = end_of(one).max(end_of(other)) as u32;
    Strip {
        first,
        width: end - first,
        gap: one.gap,
        times: one.times,
    }
}
