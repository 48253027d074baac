//! Certificates as values.

ghost use Rattle.std.specs.Prelude.{◌≡◌};
ghost use Rattle.cert_format.specs.declared.cert.Mark.TheVariants.{NotTried};
ghost use Rattle.cert_format.specs.Spelling.{is_tried, not_tried};

use choice_problem::{Choice, Tree, VectorList};
use cost_fixing::Fixing;
use std::alloc::Global;
use std::marker::Model;

/// The most nodes of the tree of a stage of a season: 1,000,000 splits and closed leaves, and what
/// they leave undone.
pub const MOST_NODES: usize = 2_000_001;

/// The most splits and closed leaves of the tree of a stage of a season: the greatest budget.
pub const MOST_BUDGET: usize = 1_000_000;

/// The most bytes of a certificate whose stages are within the limits of a season: 512 MiB.
pub const MOST_SEASON_BYTES: usize = 536_870_912;

/// The most lines of a certificate.
pub const MOST_LINES: u64 = (1 << 32) - 1;

/// The most bytes of a certificate that is read.
pub const LONGEST_CERT: usize = (1 << 31) - 1;

/// What a stage claims of its allotment.
#[derive(Clone, Copy, Debug, PartialEq, Eq)]
pub enum Mark {
    /// The choice is feasible, and none costs less.
    Optimal,
    /// No choice is feasible.
    Infeasible,
    /// The search did not end. Printed as OPEN.
    Unsettled,
    /// An earlier stage has no allotment.
    NotTried,
}

impl Mark {
    /// Whether the stage was tried.
    pub fn is_tried(self) -> bool
        ensures { result ≡ is_tried self }
    {
        match self {
            Mark::NotTried => false,
            Mark::Optimal | Mark::Infeasible | Mark::Unsettled => true,
        }
    }
}

/// The vector and the scale whose Lagrangian bound is the floor of an undone node. Vector 0 has no
/// prices.
#[derive(Clone, Copy, Debug, PartialEq, Eq)]
pub struct Floor {
    pub vector: u32,
    pub scale: u64,
}

/// One floor for each undone node, in preorder.
#[derive(Drop)]
pub struct FloorList {
    floors: Vec<Floor>,
}

impl Model for FloorList {
    ghost use Rattle.std.specs.Prelude.{List};
    ghost use Rattle.cert_format.specs.declared.cert.Floor.{Floor};

    ghost Value = { List Floor };

    ghost view = { λ f. f.floors.items };
}

impl FloorList {
    /// The list of these floors.
    pub fn new(floors: Vec<Floor>) -> FloorList
        ensures { result ≡ floors.items }
    {
        FloorList { floors }
    }

    /// The floors, that of the first undone node first.
    pub fn items(&self) -> &[Floor]
        ensures { result.now ≡ self.now }
    {
        &self.floors
    }
}

/// A stage with its proof: its allotment, if any, with the displacement in minutes; under OPEN from
/// version 2 on a cost below which no feasible allotment lies; the vectors that its tree and its
/// fixing name, number 1 first; in version 3, if there is one, the fixing, whose left problem the
/// tree is of; the search tree; and from version 2 on one floor for each undone node, in preorder.
#[derive(Drop)]
pub struct StageCert {
    pub mark: Mark,
    pub choice: Option<Choice>,
    pub cost: Option<u64>,
    pub bound: Option<u64>,
    pub vectors: VectorList,
    pub fixing: Option<Fixing>,
    pub tree: Tree,
    pub floors: FloorList,
}

impl StageCert {
    /// A stage that was not tried, with nothing but its mark. It takes no memory.
    pub fn not_tried(alloc: Global) -> StageCert
        ensures { result ≡ not_tried NotTried }
    {
        StageCert {
            mark: Mark::NotTried,
            choice: None,
            cost: None,
            bound: None,
            vectors: VectorList::new(Vec::new(alloc)),
            fixing: None,
            tree: Tree::new(Vec::new(alloc)),
            floors: FloorList::new(Vec::new(alloc)),
        }
    }
}

/// The stages of a season, in order.
#[derive(Drop)]
pub struct StageList {
    stages: Vec<StageCert>,
}

impl Model for StageList {
    ghost use Rattle.std.specs.Prelude.{List};
    ghost use Rattle.cert_format.specs.declared.cert.StageCert.{StageCert};

    ghost Value = { List StageCert };

    ghost view = { λ s. s.stages.items };
}

impl StageList {
    /// The list of these stages.
    pub fn new(stages: Vec<StageCert>) -> StageList
        ensures { result ≡ stages.items }
    {
        StageList { stages }
    }

    /// The stages, stage 1 first.
    pub fn items(&self) -> &[StageCert]
        ensures { result.now ≡ self.now }
    {
        &self.stages
    }
}

/// The four stages of a season with their proofs, and the version of the text, from 1 to 3.
#[derive(Drop)]
pub struct Certificate {
    pub version: u32,
    pub stages: StageList,
}
