//! Verdicts.

/// Why a line of a certificate is refused.
#[derive(Clone, Copy, Debug, PartialEq, Eq)]
pub enum Reason {
    /// `STAGE`: NOT TRIED, though stages 1 and 2 have allotments as far as they come before it; or
    /// tried, though one has none. `CHOICES`: none under OPTIMAL, or some under INFEASIBLE.
    Mark,
    /// Not as many alternatives as the stage has units.
    Units,
    /// The unit has no such alternative.
    Choice,
    /// Not the sum of the chosen alternatives' costs.
    Cost,
    /// The chosen movements pass a limit of the stage.
    Fit,
    /// The stage has a cost, and the bound is above it.
    Bound,
    /// The resource is not there or not above the one before, or the price is not from 1 to 2^40 -
    /// 1.
    Price,
    /// The stage is not OPTIMAL, there is no such vector, the scale is 2^20 or more, the cost is
    /// below the stage's, or a unit has no alternative left.
    Fixing,
    /// The nodes are not one tree.
    Shape,
    /// Under OPEN no node is undone.
    Closed,
    /// There is no such unit, or the cut leaves one side without alternatives.
    Split,
    /// There is no such vector, the scale is 2^20 or more, or the bound does not close the node's
    /// ranges.
    Leaf,
    /// There is no such resource, or its least load is at most its limit.
    Over,
    /// A node is undone under OPTIMAL or INFEASIBLE.
    Undone,
    /// There is no such vector, the scale is 2^20 or more, or the vector's bound does not show the
    /// stated one.
    Floor,
}

/// What a check says of a certificate.
#[derive(Clone, Copy, Debug, PartialEq, Eq)]
pub enum Verdict {
    /// It is valid.
    Yes,
    /// The lowest line that fails, from 1, and of its reasons the first.
    No { line: u32, reason: Reason },
}
