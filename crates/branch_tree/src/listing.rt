//! Runs of places as a list of the places.

ghost use Rattle.std.specs.Prelude.{◌≡◌, ℕ, ◌+◌, ◌≤◌, All, length, IfOk, OnOk};
ghost use Rattle.choice_problem.specs.Loops.{run_uses};
ghost use Rattle.branch_tree.specs.Lists.{times_in, AreWithin};
ghost use Rattle.branch_tree.specs.Runs.{times_held, IsRunBelow};

use crate::runs::Run;
use slot_text::Memory;
use std::alloc::Global;

// The places that the runs hold, each as often as they do.
pub(crate) fn places_of(alloc: Global, runs: &[Run], listed: &[u32]) -> Result<Vec<u32>, Memory>
    requires { All (IsRunBelow (length listed.now)) runs.now }
    ensures places { IfOk result (λ list. (i : ℕ) → times_in list.items i
        ≡ times_held runs.now i) }
    ensures within { IfOk result (λ list. AreWithin (length listed.now) list.items) }
{
    let mut list = Vec::new(alloc);
    for run in runs {
        push_numbers(&mut list, run.from, run.to, listed)?;
    }
    Ok(list)
}

// Appends the numbers from one to another, which are places of the list.
fn push_numbers(list: &mut Vec<u32>, from: u32, to: u32, listed: &[u32]) -> Result<(), Memory>
    requires ordered { from ≤ to }
    requires there { to ≤ length listed.now }
    requires within { AreWithin (length listed.now) list.old.items }
    ensures uses { OnOk result ((i : ℕ) → times_in list.new.items i
        ≡ times_in list.old.items i + run_uses from to i) }
    ensures within { OnOk result (AreWithin (length listed.now) list.new.items) }
{
    let _listed = listed;
    for at in from..to {
        list.push(at)?;
    }
    Ok(())
}
