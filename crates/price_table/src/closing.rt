//! What a table closes.

ghost use Rattle.std.specs.Prelude.{◌↔◌, ◌^◌, ◌<◌, IsTrue};
ghost use Rattle.choice_problem.specs.declared.closing.TheConstants.{SCALE_BOUND};
ghost use Rattle.choice_problem.specs.Bounds.{AreRanges, Closes};
ghost use Rattle.price_table.specs.Tables.{IsTableFor};

use crate::bounds::bound;
use crate::tables::PriceTable;
use choice_problem::{Problem, Ranges, bound_passes};

/// Whether the bound at a table's vector and a scale closes ranges for a cost, or where no cost is
/// known: for a cost it shows that no feasible choice within them costs less, and with none, which
/// takes scale 0, that there is none. One step an alternative in range.
pub fn closes(
    problem: &Problem,
    ranges: &Ranges,
    table: &PriceTable,
    scale: u64,
    seen: Option<u64>,
) -> bool
    requires ranges { AreRanges problem.now ranges.now }
    requires table { IsTableFor problem.now table.now }
    requires scale { scale < SCALE_BOUND }
    ensures { IsTrue result ↔ Closes problem.now ranges.now table.now.prices scale seen }
{
    match seen {
        Some(cost) => bound_passes(bound(problem, ranges, table, scale), scale, cost),
        None => scale == 0 && bound(problem, ranges, table, scale) > 0,
    }
}
