//! Lists and runs of places, counted.

ghost use Rattle.std.specs.Prelude.{◌≡◌, ℕ, ◌+◌, ◌^◌, ◌<◌, ◌≤◌, min, take, All, length, slice_index};
ghost use Rattle.choice_problem.specs.Counts.{GrowsBy, HasRoom, HasUses};
ghost use Rattle.choice_problem.specs.Loops.{run_uses};
ghost use Rattle.branch_tree.specs.Lists.{times_in, AreWithin, HasListed};
ghost use Rattle.branch_tree.specs.Runs.{times_held, IsRunBelow};
ghost use Rattle.window_counts.specs.Placed.{AreZero};

use crate::runs::Run;

// Adds one to the count of each listed place.
pub(crate) fn add_list(counts: &mut [u32], list: &[u32])
    requires within { AreWithin (length counts.old) list.now }
    requires room { HasRoom counts.old (λ r. times_in list.now r) }
    ensures { GrowsBy counts.old counts.new (λ r. times_in list.now r) }
{
    for resource in list {
        counts[*resource as usize] += 1;
    }
}

// Takes one from the count of each listed place.
pub(crate) fn take_list(counts: &mut [u32], list: &[u32])
    requires within { AreWithin (length counts.old) list.now }
    requires held { HasListed counts.old list.now }
    ensures { GrowsBy counts.new counts.old (λ r. times_in list.now r) }
{
    for resource in list {
        counts[*resource as usize] -= 1;
    }
}

// Adds one to the count of each place for each run that holds it.
pub(crate) fn add_runs(counts: &mut [u32], runs: &[Run])
    requires below { All (IsRunBelow (length counts.old)) runs.now }
    requires room { HasRoom counts.old (λ i. times_held runs.now i) }
    ensures { GrowsBy counts.old counts.new (λ i. times_held runs.now i) }
{
    for run in runs {
        add_run(counts, run.from, run.to);
    }
}

// Adds one to each count from one place to another.
fn add_run(counts: &mut [u32], from: u32, to: u32)
    requires ordered { from ≤ to }
    requires there { to ≤ length counts.old }
    requires room { HasRoom counts.old (λ i. run_uses from to i) }
    ensures { GrowsBy counts.old counts.new (λ i. run_uses from to i) }
{
    for at in from..to {
        counts[at as usize] += 1;
    }
}

// Takes one from the count of each place for each run that holds it.
pub(crate) fn take_runs(counts: &mut [u32], runs: &[Run])
    requires below { All (IsRunBelow (length counts.old)) runs.now }
    requires held { HasUses counts.old (λ i. times_held runs.now i) }
    ensures { GrowsBy counts.new counts.old (λ i. times_held runs.now i) }
{
    for run in runs {
        take_run(counts, run.from, run.to);
    }
}

// Takes one from each count from one place to another.
fn take_run(counts: &mut [u32], from: u32, to: u32)
    requires ordered { from ≤ to }
    requires there { to ≤ length counts.old }
    requires held { HasUses counts.old (λ i. run_uses from to i) }
    ensures { GrowsBy counts.new counts.old (λ i. run_uses from to i) }
{
    for at in from..to {
        counts[at as usize] -= 1;
    }
}

// Keeps of the list each place at most as often as the runs hold it and it comes in the other list
// together. `zeros` is room to count in.
pub(crate) fn lower(list: &mut Vec<u32>, runs: &[Run], other: &[u32], zeros: &mut [u32])
    requires within { AreWithin (length zeros.old) list.old.items }
    requires below { All (IsRunBelow (length zeros.old)) runs.now }
    requires other_within { AreWithin (length zeros.old) other.now }
    requires few { (i : ℕ) → i < length zeros.old →
        times_held runs.now i + times_in other.now i < 2 ^ 32 }
    requires zeros { AreZero zeros.old }
    ensures lowered { (i : ℕ) → i < length zeros.old → times_in list.new.items i
        ≡ min (times_in list.old.items i) (times_held runs.now i + times_in other.now i) }
    ensures within { AreWithin (length zeros.old) list.new.items }
    ensures same { zeros.new ≡ zeros.old }
{
    add_runs(zeros, runs);
    add_list(zeros, other);
    keep(list, zeros);
    add_list(zeros, list);
    take_list(zeros, other);
    take_runs(zeros, runs);
}

// Keeps of the list each place at most as often as its count says, and takes what is kept from the
// counts.
pub(crate) fn keep(list: &mut Vec<u32>, counts: &mut [u32])
    requires { AreWithin (length counts.old) list.old.items }
    ensures kept { (r : ℕ) → times_in list.new.items r
        ≡ min (times_in list.old.items r) (slice_index counts.old r) }
    ensures taken { GrowsBy counts.new counts.old (λ r. times_in list.new.items r) }
{
    let kept = keep_front(list, counts);
    list.truncate(kept);
}

// The same, with what is kept at the front of the list; and how much that is.
fn keep_front(list: &mut [u32], counts: &mut [u32]) -> usize
    requires { AreWithin (length counts.old) list.old }
    ensures few { result ≤ length list.old }
    ensures kept { (r : ℕ) → times_in (take result list.new) r
        ≡ min (times_in list.old r) (slice_index counts.old r) }
    ensures taken { GrowsBy counts.new counts.old (λ r. times_in (take result list.new) r) }
{
    let mut kept = 0;
    for at in 0..list.len() {
        let resource = list[at];
        if counts[resource as usize] > 0 {
            counts[resource as usize] -= 1;
            list[kept] = resource;
            kept += 1;
        }
    }
    kept
}
