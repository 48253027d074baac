//! Kept counts.

ghost use Rattle.std.specs.Prelude.{◌≡◌, ℕ, ◌^◌, ◌<◌, length, slice_index, All};
ghost use Rattle.choice_problem.specs.Counts.{GrowsBy, HasRoom};
ghost use Rattle.choice_problem.specs.Strips.{IsPartInRange};
ghost use Rattle.window_counts.specs.Counts.{listed_uses};

use crate::adding::add_all;
use crate::fitting::part_fits;
use crate::having::{both_have, part_has};
use crate::joint::add_both;
use choice_problem::{Part, first_above_limit};
use slot_text::Memory;
use std::alloc::Global;
use std::marker::Model;

/// How often each resource is used by the parts that were added and not taken away, or how often it
/// can still be used: 4 bytes a resource. Contracts see the counts, resource by resource. Only `of`
/// and `copy` take memory.
#[derive(Drop)]
pub struct Counts {
    counts: Vec<u32>,
}

impl Model for Counts {
    ghost use Rattle.std.specs.Prelude.{List, ℕ, ◌<◌, ◌^◌, length};

    ghost Value = { List ℕ };

    ghost view = { λ c. c.counts.items };

    ghost invariant = { λ c. length c.counts.items < 2 ^ 32 };
}

impl Counts {
    ghost use Rattle.std.specs.Prelude.{◌≡◌, ◌↔◌, ℕ, ◌+◌, ◌^◌, ◌<◌, ◌≤◌, List, [], ◌++◌, ◌∷◌, length, slice_index, All, IsTrue, IfOk, IfSome, IfNone, option_copied, pos, ◌≤ℤ◌, ◌<ℤ◌};
    ghost use Rattle.choice_problem.specs.declared.strips.Strip.{Strip};
    ghost use Rattle.choice_problem.specs.Strips.{part_uses, IsPartInRange};
    ghost use Rattle.choice_problem.specs.Counts.{GrowsBy, HasRoom, HasUses, IsFirstAbove, limit_at};
    ghost use Rattle.window_counts.specs.Counts.{listed_uses, both_uses, AreCountsOf, AreWithin, FitsWith, KeepsLimit};
    ghost use Rattle.std.specs.Option.{ForSome};

    /// The counts of these parts: one step a resource and a use. The resources are numbered from 0;
    /// the parts stay within them, and each is used fewer than 2^32 times.
    pub fn of(alloc: Global, parts: &[Part], resources: u32) -> Result<Counts, Memory>
        requires there { All (λ strips. IsPartInRange resources strips) parts.now }
        requires few { (r : ℕ) → r < resources → listed_uses parts.now r < 2 ^ 32 }
        ensures length { IfOk result (λ counts. length counts ≡ resources) }
        ensures listed { IfOk result (AreCountsOf parts.now) }
    {
        let mut counts = vec![in alloc; 0; resources as usize]?;
        add_all(&mut counts, parts);
        Ok(Counts { counts })
    }

    /// These numbers as counts, as what each resource has left before parts take it. It takes no
    /// memory.
    pub fn with(counts: Vec<u32>) -> Counts
        requires { length counts.items < 2 ^ 32 }
        ensures { result ≡ counts.items }
    {
        Counts { counts }
    }

    /// The same counts again: one step a resource.
    pub fn copy(&self, alloc: Global) -> Result<Counts, Memory>
        ensures { IfOk result (λ counts. counts ≡ self.now) }
    {
        Ok(Counts {
            counts: Vec::from_slice(alloc, &self.counts)?,
        })
    }

    /// Takes over other counts of as many resources: one step a resource, and no memory.
    pub fn copy_from(&mut self, other: &Counts)
        requires { length other.now ≡ length self.old }
        ensures { self.new ≡ other.now }
    {
        self.counts.copy_from_slice(&other.counts);
    }

    /// Adds the uses of a part: one step a use. No count reaches 2^32.
    pub fn add(&mut self, part: &Part)
        requires there { IsPartInRange (length self.old) part.now }
        requires room { HasRoom self.old (λ r. part_uses part.now r) }
        ensures length { length self.new ≡ length self.old }
        ensures uses { GrowsBy self.old self.new (λ r. part_uses part.now r) }
        ensures listed { (parts : List (List Strip)) → AreCountsOf parts self.old →
            AreCountsOf (parts ++ part.now ∷ []) self.new }
    {
        part.add_uses(&mut self.counts);
    }

    /// Takes the uses of a part away again, which was added before: one step a use.
    pub fn take(&mut self, part: &Part)
        requires there { IsPartInRange (length self.old) part.now }
        requires added { HasUses self.old (λ r. part_uses part.now r) }
        ensures length { length self.new ≡ length self.old }
        ensures uses { GrowsBy self.new self.old (λ r. part_uses part.now r) }
        ensures listed { (before after : List (List Strip)) →
            AreCountsOf (before ++ part.now ∷ after) self.old →
            AreCountsOf (before ++ after) self.new }
    {
        part.take_uses(&mut self.counts);
    }

    /// Adds the uses of two parts, of which each may be missing, where both fit together: where at
    /// each resource that they use, the count and the uses of both are together at most the limit.
    /// Else the counts stay. So counts within limits stay within them. No count reaches 2^32 with
    /// both. At most four steps a use.
    pub fn add_if_fits(&mut self, one: Option<&Part>, two: Option<&Part>, limits: &[i64]) -> bool
        requires one { ForSome (option_copied one) (IsPartInRange (length self.old)) }
        requires two { ForSome (option_copied two) (IsPartInRange (length self.old)) }
        requires room { HasRoom self.old (λ r. both_uses (option_copied one)
            (option_copied two) r) }
        requires limits { length limits.now ≡ length self.old }
        ensures length { length self.new ≡ length self.old }
        ensures exact { IsTrue result
            ↔ FitsWith self.old (λ r. both_uses (option_copied one.entry)
            (option_copied two.entry) r) limits.now }
        ensures added { IsTrue result →
            GrowsBy self.old self.new (λ r. both_uses (option_copied one.entry)
            (option_copied two.entry) r) }
        ensures left { (IsTrue result → ⊥) → self.new ≡ self.old }
        ensures within { AreWithin self.old limits.now → AreWithin self.new limits.now }
    {
        add_both(&mut self.counts, one, two, limits)
    }

    /// Whether each resource that the part uses is counted at least once: one step a use, and none
    /// after the first that is not.
    pub fn has_one(&self, part: &Part) -> bool
        requires { IsPartInRange (length self.now) part.now }
        ensures { IsTrue result
            ↔ ((r : ℕ) → 0 < part_uses part.now r → 1 ≤ slice_index self.now r) }
    {
        part_has(&self.counts, part)
    }

    /// Whether each resource that both parts use is counted at least twice. One step a use of the
    /// first part, and two divisions a strip of the second for each that is counted less.
    pub fn has_two(&self, one: &Part, two: &Part) -> bool
        requires there { IsPartInRange (length self.now) one.now }
        requires few { (r : ℕ) → part_uses two.now r < 2 ^ 32 }
        ensures { IsTrue result ↔ ((r : ℕ) → 0 < part_uses one.now r → 0 < part_uses two.now r →
            2 ≤ slice_index self.now r) }
    {
        both_have(&self.counts, one, two)
    }

    // Whether there is room for one more use of each resource that the part uses: whether its count
    // is below its limit. One step for each use and each of the part's strips, and none after the
    // first resource that has no room.
    pub(crate) fn has_room(&self, part: &Part, limits: &[i64]) -> bool
        requires there { IsPartInRange (length self.now) part.now }
        requires limits { length limits.now ≡ length self.now }
        ensures { IsTrue result
            ↔ ((r : ℕ) → 0 < part_uses part.now r →
            KeepsLimit self.now (λ _. 1) limits.now r) }
    {
        part_fits(&self.counts, part, 1, limits)
    }

    /// How often a resource is used.
    pub fn count(&self, resource: u32) -> u32
        requires { resource < length self.now }
        ensures { result ≡ slice_index self.now resource }
    {
        self.counts[resource as usize]
    }

    /// The lowest resource whose count is above its limit: one step a resource.
    pub fn first_over(&self, limits: &[i64]) -> Option<u32>
        requires { length limits.now ≡ length self.now }
        ensures some { IfSome result (IsFirstAbove self.now limits.now) }
        ensures none { IfNone result ((r : ℕ) → r < length self.now → pos (slice_index self.now r)
            ≤ℤ limit_at limits.now r) }
    {
        first_above_limit(&self.counts, limits)
    }
}
