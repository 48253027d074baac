//! What is left, with its marks.

use crate::marks::{clear_part, mark_part, mark_run, part_is_clear};
use choice_problem::{Part, strip_list};
use slot_text::Memory;
use std::alloc::Global;
use std::marker::Model;
use window_counts::Counts;

/// How often each resource can still be used: 4 bytes a resource, and one bit that says whether it
/// is full. Contracts see the counts, resource by resource. Only `with` and `copy` take memory.
#[derive(Drop)]
pub struct LeftCounts {
    left: Counts,
    full: Vec<u64>,
}

impl Model for LeftCounts {
    ghost use Rattle.std.specs.Prelude.{List, ℕ};
    ghost use Rattle.left_counts.specs.Private.Marks.{AreMarks};

    ghost Value = { List ℕ };

    ghost view = { λ l. l.left };

    ghost invariant = { λ l. AreMarks l.left l.full.items };
}

impl LeftCounts {
    ghost use Rattle.std.specs.Prelude.{◌≡◌, ◌↔◌, ℕ, ◌^◌, ◌<◌, ◌≤◌, length, slice_index, IsTrue, IfOk};
    ghost use Rattle.choice_problem.specs.Strips.{part_uses, IsPartInRange};
    ghost use Rattle.choice_problem.specs.Counts.{GrowsBy, HasRoom, HasUses};

    /// These numbers, resource by resource from 0: one step a resource.
    pub fn with(alloc: Global, counts: Vec<u32>) -> Result<LeftCounts, Memory>
        requires { length counts.items < 2 ^ 32 }
        ensures { IfOk result (λ left. left ≡ counts.items) }
    {
        let resources = counts.len();
        let mut full = vec![in alloc; 0; resources / 64 + 1]?;
        let left = Counts::with(counts);
        mark_run(&mut full, &left, 0, resources);
        Ok(LeftCounts { left, full })
    }

    /// The same again: one step a resource.
    pub fn copy(&self, alloc: Global) -> Result<LeftCounts, Memory>
        ensures { IfOk result (λ left. left ≡ self.now) }
    {
        Ok(LeftCounts {
            left: self.left.copy(alloc)?,
            full: Vec::from_slice(alloc, &self.full)?,
        })
    }

    /// Gives the uses of a part back: one step a use, and one more in runs with a full resource. No
    /// count reaches 2^32.
    pub fn add(&mut self, part: &Part)
        requires there { IsPartInRange (length self.old) part.now }
        requires room { HasRoom self.old (λ r. part_uses part.now r) }
        ensures length { length self.new ≡ length self.old }
        ensures uses { GrowsBy self.old self.new (λ r. part_uses part.now r) }
    {
        self.left.add(part);
        clear_part(&mut self.full, part);
    }

    /// Takes the uses of a part, which are left: two steps a use.
    pub fn take(&mut self, part: &Part)
        requires there { IsPartInRange (length self.old) part.now }
        requires left { HasUses self.old (λ r. part_uses part.now r) }
        ensures length { length self.new ≡ length self.old }
        ensures uses { GrowsBy self.new self.old (λ r. part_uses part.now r) }
    {
        self.left.take(part);
        mark_part(&mut self.full, &self.left, part);
    }

    /// Whether each resource that the part uses has something left: one step for each run of the
    /// part and each word of marks in it, and none after the first run with a full resource.
    pub fn has_one(&self, part: &Part) -> bool
        requires { IsPartInRange (length self.now) part.now }
        ensures { IsTrue result
            ↔ ((r : ℕ) → 0 < part_uses part.now r → 1 ≤ slice_index self.now r) }
    {
        strip_list();
        part_is_clear(&self.full, part)
    }

    /// Whether each resource that both parts use has at least two left. One step a use of the first
    /// part, and two divisions a strip of the second for each that has less.
    pub fn has_two(&self, one: &Part, two: &Part) -> bool
        requires there { IsPartInRange (length self.now) one.now }
        requires few { (r : ℕ) → part_uses two.now r < 2 ^ 32 }
        ensures { IsTrue result ↔ ((r : ℕ) → 0 < part_uses one.now r → 0 < part_uses two.now r →
            2 ≤ slice_index self.now r) }
    {
        self.left.has_two(one, two)
    }

    /// What a resource has left.
    pub fn count(&self, resource: u32) -> u32
        requires { resource < length self.now }
        ensures { result ≡ slice_index self.now resource }
    {
        self.left.count(resource)
    }
}
