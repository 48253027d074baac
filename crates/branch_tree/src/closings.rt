//! Which vector with prices closes ranges.

ghost use Rattle.std.specs.Prelude.{◌≡◌, ◌≤◌, ◌∷◌, length, IfSome, IfNone};
ghost use Rattle.choice_problem.specs.declared.vectors.TheConstants.{MOST_FURTHER};
ghost use Rattle.price_table.specs.Tables.{vectors_of};
ghost use Rattle.price_table.specs.Totals.{AreKeptFor};
ghost use Rattle.branch_tree.specs.Visits.{IsClosingLeaf, StaysOpenToAll, NeedsPrices};

use choice_problem::{Node, PRICED_SCALE, Problem, Ranges};
use price_table::{PriceTable, Totals};

// The leaf of the first vector with prices that closes ranges which nothing else closes, by totals
// that are kept for the vectors.
pub(crate) fn kept_leaf(
    problem: &Problem,
    ranges: &Ranges,
    root: &PriceTable,
    further: &[PriceTable],
    totals: &[Totals],
    seen: Option<u64>,
) -> Option<Node>
    requires few { length further.now ≤ MOST_FURTHER }
    requires kept { AreKeptFor problem.now (root.now.prices ∷ vectors_of further.now) ranges.now
        totals.now }
    requires needs { NeedsPrices problem.now ranges.now seen }
    ensures some { IfSome result (IsClosingLeaf problem.now root.now.prices (vectors_of further.now)
        ranges.now seen) }
    ensures none { IfNone result (StaysOpenToAll problem.now root.now.prices
        (vectors_of further.now) ranges.now seen) }
{
    let (_problem, _ranges, _root, _further) = (problem, ranges, root, further);
    for place in 0..totals.len() {
        if totals[place].closes(seen) {
            return Some(leaf(place as u32 + 1, PRICED_SCALE, seen));
        }
    }
    None
}

// The leaf that names a vector and a scale, with what was seen.
pub(crate) fn leaf(vector: u32, scale: u64, seen: Option<u64>) -> Node
    ensures { result ≡ Node.Leaf vector scale seen }
{
    Node::Leaf {
        vector,
        scale,
        seen,
    }
}
