//! The resources that an alternative uses, in strips.

ghost use Rattle.std.specs.Prelude.{◌≡◌, ◌+◌, ◌^◌, ◌<◌, ◌≤◌, length, All};
ghost use Rattle.choice_problem.specs.Counts.{GrowsBy, HasRoom, HasUses};
ghost use Rattle.choice_problem.specs.Loops.{run_uses};

use std::marker::Model;

/// The resources `first + i * gap + j`, for i below `times` and j below `width`: runs of `width`
/// resources, `gap` apart. A resource that comes several times, as where runs overlap or `gap` is
/// 0, counts as often.
#[derive(Clone, Copy, Debug, PartialEq, Eq)]
pub struct Strip {
    /// The number of the first run's first resource, from 0.
    pub first: u32,
    /// How many resources a run has.
    pub width: u32,
    /// How far the first resource of a run is from that of the run before it.
    pub gap: u32,
    /// How many runs there are.
    pub times: u32,
}

impl Strip {
    ghost use Rattle.std.specs.Prelude.{◌≡◌, ◌↔◌, ◌+◌, ◌-◌, ◌*◌, ◌<◌, nat_le, IsTrue};
    ghost use Rattle.finite_sums.specs.Sums.{count_below};
    ghost use Rattle.choice_problem.specs.Strips.{run_start, strip_uses, IsStripInRange};
    ghost use Rattle.choice_problem.specs.Allowed.{strip_most};
    ghost use Rattle.choice_problem.specs.Counts.{GrowsBy, HasRoom, HasUses};

    /// Where a run, numbered from 0, begins and ends: its first resource, and the first one after
    /// it.
    pub fn run(&self, run: u32) -> (u64, u64)
        ensures start { result.0 ≡ run_start self.now run }
        ensures end { result.1 ≡ run_start self.now run + self.now.width }
    {
        let start = u64::from(self.first) + u64::from(run) * u64::from(self.gap);
        (start, start + u64::from(self.width))
    }

    /// A number that mixes those of the strip, for tables of strips: the sum of products, modulo
    /// 2^32, with constants of the xxHash family. Equal strips have equal numbers; its high bits
    /// are the well mixed ones.
    pub fn hash_code(&self) -> u32 {
        let first = self.first.wrapping_mul(0x9E37_79B1);
        let times = self.times.wrapping_mul(0x85EB_CA77);
        let gap = self.gap.wrapping_mul(0xC2B2_AE3D);
        let width = self.width.wrapping_mul(0x27D4_EB2F);
        first
            .wrapping_add(times)
            .wrapping_add(gap)
            .wrapping_add(width)
    }

    /// How often the strip uses a resource, by at most two divisions: the runs that begin at or
    /// before it, less those that end before it.
    pub fn uses(&self, resource: u32) -> u32
        ensures { result ≡ strip_uses self.now resource }
    {
        if resource < self.first {
            return 0;
        }
        if self.is_within(resource) {
            return 0;
        }
        let distance = resource - self.first;
        let begun = self.runs_begun(distance);
        if distance < self.width {
            begun
        } else {
            begun - self.runs_begun(distance - self.width)
        }
    }

    // How many runs begin at most this far from the first one's begin.
    fn runs_begun(&self, distance: u32) -> u32
        ensures { result ≡ count_below self.now.times (λ i. nat_le (i * self.now.gap) distance) }
    {
        if self.gap == 0 {
            return self.times;
        }
        let last = distance / self.gap;
        if last < self.times {
            last + 1
        } else {
            self.times
        }
    }

    // How many runs can hold one resource.
    fn most_uses(&self) -> u32
        ensures { result ≡ strip_most self.now }
    {
        if self.gap == 0 {
            return self.times;
        }
        let starts = (u64::from(self.width) + u64::from(self.gap - 1)) / u64::from(self.gap);
        u64::from(self.times).min(starts) as u32
    }

    // Whether the last run ends within the resources.
    fn is_within(&self, resources: u32) -> bool
        ensures { IsTrue result ↔ IsStripInRange resources self.now }
    {
        self.times == 0 || self.end() <= u64::from(resources)
    }

    // Where the last run ends.
    fn end(&self) -> u64
        requires { 0 < self.now.times }
        ensures { result ≡ run_start self.now (self.now.times - 1) + self.now.width }
    {
        self.run(self.times - 1).1
    }

    // Counts the strip's uses.
    fn add_uses(&self, counts: &mut [u32])
        requires there { IsStripInRange (length counts.old) self.now }
        requires room { HasRoom counts.old (λ r. strip_uses self.now r) }
        ensures { GrowsBy counts.old counts.new (λ r. strip_uses self.now r) }
    {
        for i in 0..self.times {
            let (start, end) = self.run(i);
            add_run(counts, start as usize, end as usize);
        }
    }

    // Takes the strip's uses away.
    fn take_uses(&self, counts: &mut [u32])
        requires there { IsStripInRange (length counts.old) self.now }
        requires added { HasUses counts.old (λ r. strip_uses self.now r) }
        ensures { GrowsBy counts.new counts.old (λ r. strip_uses self.now r) }
    {
        for i in 0..self.times {
            let (start, end) = self.run(i);
            take_run(counts, start as usize, end as usize);
        }
    }
}

// Adds one to each count from one place to another.
fn add_run(counts: &mut [u32], start: usize, end: usize)
    requires ordered { start ≤ end }
    requires there { end ≤ length counts.old }
    requires room { HasRoom counts.old (λ r. run_uses start end r) }
    ensures { GrowsBy counts.old counts.new (λ r. run_uses start end r) }
{
    for at in start..end {
        counts[at] += 1;
    }
}

// Takes one from each count from one place to another.
fn take_run(counts: &mut [u32], start: usize, end: usize)
    requires ordered { start ≤ end }
    requires there { end ≤ length counts.old }
    requires added { HasUses counts.old (λ r. run_uses start end r) }
    ensures { GrowsBy counts.new counts.old (λ r. run_uses start end r) }
{
    for at in start..end {
        counts[at] -= 1;
    }
}

/// A list of strips: the resources of all of them together, each as often as it comes.
#[derive(Drop)]
pub struct Part {
    strips: Vec<Strip>,
}

impl Model for Part {
    ghost use Rattle.std.specs.Prelude.{List};
    ghost use Rattle.choice_problem.specs.declared.strips.Strip.{Strip};

    ghost Value = { List Strip };

    ghost view = { λ p. p.strips.items };
}

impl Part {
    ghost use Rattle.std.specs.Prelude.{◌≡◌, ◌↔◌, ◌^◌, ◌<◌, ◌≤◌, length, IsTrue};
    ghost use Rattle.choice_problem.specs.Strips.{part_uses, IsPartInRange};
    ghost use Rattle.choice_problem.specs.Allowed.{part_most};
    ghost use Rattle.choice_problem.specs.Counts.{GrowsBy, HasRoom, HasUses};

    /// The part of these strips.
    pub fn new(strips: Vec<Strip>) -> Part
        ensures { result ≡ strips.items }
    {
        Part { strips }
    }

    /// The strips.
    pub fn strips(&self) -> &[Strip]
        ensures { result.now ≡ self.now }
    {
        &self.strips
    }

    /// How often the strips together use a resource, which is fewer than 2^32 times: at most two
    /// divisions a strip.
    pub fn uses(&self, resource: u32) -> u32
        requires { part_uses self.now resource < 2 ^ 32 }
        ensures { result ≡ part_uses self.now resource }
    {
        let mut uses = 0;
        for strip in &self.strips {
            uses += strip.uses(resource);
        }
        uses
    }

    /// Whether the strips stay within the resources, which are numbered from 0: one step a strip.
    pub fn is_within(&self, resources: u32) -> bool
        ensures { IsTrue result ↔ IsPartInRange resources self.now }
    {
        for strip in &self.strips {
            if !strip.is_within(resources) {
                return false;
            }
        }
        true
    }

    // How often the strips together can use one resource.
    pub(crate) fn most_uses(&self) -> u128
        ensures most { result ≡ part_most self.now }
        ensures small { result ≤ 2 ^ 96 }
    {
        let mut most = 0;
        for strip in &self.strips {
            most += u128::from(strip.most_uses());
        }
        most
    }

    /// Adds the uses of the strips together to counts, one for each resource from 0: one step a
    /// use. The strips stay within these resources, and no count reaches 2^32.
    pub fn add_uses(&self, counts: &mut [u32])
        requires there { IsPartInRange (length counts.old) self.now }
        requires room { HasRoom counts.old (λ r. part_uses self.now r) }
        ensures { GrowsBy counts.old counts.new (λ r. part_uses self.now r) }
    {
        for strip in &self.strips {
            strip.add_uses(counts);
        }
    }

    /// Takes the uses of the strips together away from counts, one for each resource from 0: one
    /// step a use. The strips stay within these resources, and each count is at least the uses of
    /// its resource.
    pub fn take_uses(&self, counts: &mut [u32])
        requires there { IsPartInRange (length counts.old) self.now }
        requires added { HasUses counts.old (λ r. part_uses self.now r) }
        ensures { GrowsBy counts.new counts.old (λ r. part_uses self.now r) }
    {
        for strip in &self.strips {
            strip.take_uses(counts);
        }
    }
}
