//! A visit of ranges.

ghost use Rattle.std.specs.Prelude.{[], IfOk};
ghost use Rattle.choice_problem.specs.Bounds.{AreRanges};
ghost use Rattle.price_table.specs.Tables.{IsTableFor};
ghost use Rattle.branch_tree.specs.Visits.{IsVisit};

use crate::answers::Visit;
use crate::walks::Walk;
use choice_problem::{Problem, Ranges};
use price_table::PriceTable;
use slot_text::Memory;
use std::alloc::Global;

/// Visits ranges, where `seen` is the best cost so far, if any, and `root` the table of the root
/// vector. The answer is the first of the cases of `Visit` that applies; there is no further
/// vector. It makes a `Walk` and asks it once, in the time and memory of `Walk::of`: for several
/// ranges of one problem keep a walk, and narrow it.
pub fn visit(
    alloc: Global,
    problem: &Problem,
    ranges: &Ranges,
    root: &PriceTable,
    seen: Option<u64>,
) -> Result<Visit, Memory>
    requires ranges { AreRanges problem.now ranges.now }
    requires root { IsTableFor problem.now root.now }
    ensures { IfOk result (IsVisit problem.now root.now.prices [] ranges.now seen) }
{
    let walk = Walk::of(alloc, problem, ranges.copy(alloc)?)?;
    walk.visit(alloc, problem, root, seen)
}
