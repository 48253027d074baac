//! Where resources stand in a list of some of them.

ghost use Rattle.std.specs.Prelude.{ℕ, ◌+◌, ◌-◌, ◌^◌, ◌<◌, ◌≤◌, length, slice_index, IfOk};
ghost use Rattle.branch_tree.specs.Lists.{IsRankAt, AreRanksOf};

use slot_text::Memory;
use std::alloc::Global;

// At each resource, and behind the last, how many of the listed ones come before it.
pub(crate) fn ranks_of(alloc: Global, listed: &[u32], resources: u32) -> Result<Vec<u32>, Memory>
    requires rising { (i j : ℕ) → i < j → j < length listed.now →
        slice_index listed.now i < slice_index listed.now j }
    requires there { (i : ℕ) → i < length listed.now → slice_index listed.now i < resources }
    ensures { IfOk result (λ ranks. AreRanksOf resources listed.now ranks.items) }
{
    let mut ranks = Vec::with_capacity(alloc, resources as usize + 1)?;
    let mut rank = 0;
    for resource in 0..resources {
        ranks.push(rank)?;
        rank = next_rank(listed, resource, rank);
    }
    ranks.push(rank)?;
    Ok(ranks)
}

// The rank of the next resource.
fn next_rank(listed: &[u32], resource: u32, rank: u32) -> u32
    requires rising { (i j : ℕ) → i < j → j < length listed.now →
        slice_index listed.now i < slice_index listed.now j }
    requires rank { IsRankAt listed.now resource rank }
    requires few { rank ≤ resource }
    requires room { resource < 2 ^ 32 - 1 }
    ensures next { IsRankAt listed.now (resource + 1) result }
    ensures more { result ≤ rank + 1 }
{
    if rank as usize == listed.len() {
        return rank;
    }
    if listed[rank as usize] > resource {
        return rank;
    }
    rank + 1
}
