//! The resources of a problem that can matter.

use crate::report::{Size, now, print_row, step};
use crate::stages::new_requests;
use choice_problem::Problem;
use reduced_problem::Reduced;
use std::alloc::Global;
use std::time::Instant;

/// Reduces the problem of a season of new requests, and prints how many resources, classes and
/// parts there are, and how many uses of classes all parts have.
pub fn run(rt: &HostRuntime, alloc: Global, size: Size) -> anyhow::Result<()> {
    let problem = new_requests(alloc, size)?;
    reduce(rt, alloc, size, &problem)
}

fn reduce(rt: &HostRuntime, alloc: Global, size: Size, problem: &Problem) -> anyhow::Result<()> {
    let start = now(rt);
    let kept = Reduced::of(alloc, problem)?;
    print_kept(rt, size, problem.resources(), &kept, start)
}

fn print_kept(
    rt: &HostRuntime,
    size: Size,
    resources: u32,
    kept: &Reduced,
    start: Option<Instant>,
) -> anyhow::Result<()> {
    step(rt, size, "reduction", start)?;
    let numbers = [
        ("resources", u64::from(resources)),
        ("classes", kept.classes().len() as u64),
        ("parts", u64::from(kept.parts())),
        ("uses", count_uses(kept)),
    ];
    print_row(rt, "reductions", &numbers)
}

// How many classes all parts use together.
fn count_uses(kept: &Reduced) -> u64 {
    let mut uses = 0_u64;
    for part in 0..kept.parts() {
        uses = uses.saturating_add(kept.part_uses(part).len() as u64);
    }
    uses
}
