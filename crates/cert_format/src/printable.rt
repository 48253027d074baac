//! Whether a certificate can be printed.

ghost use Rattle.std.specs.Prelude.{◌≡◌, ◌↔◌, ◌+◌, ◌<◌, ◌≤◌, [], ◌∷◌, IsTrue, IfSome, MatchOption, length, sum_by};
ghost use Rattle.std.specs.List.{AllByRecursion};
ghost use Rattle.std.specs.Option.{option_map_or};
ghost use Rattle.cert_format.specs.Spelling.{undone_count, floor_count, cert_lines, extra_lines, HoldsNothing};
ghost use Rattle.cert_format.specs.Printable.{IsPrintableProof, IsPrintableStage, IsPrintable, IsPrintableExtra, proof_line_count};
ghost use Rattle.cert_format.specs.Private.Ranges.{prices_line_count, stage_line_count};

use crate::blocks::{has_bound, has_floors};
use crate::cert::{Certificate, MOST_LINES, Mark, StageCert};
use choice_problem::{Choice, MOST_VECTORS, Node, Tree, Vector};
use cost_fixing::Fixing;

// 1 for an undone node, else 0.
fn undone_of(node: Node) -> usize
    ensures { result ≡ undone_count (node ∷ []) }
{
    match node {
        Node::Undone => 1,
        Node::Split { .. } => 0,
        Node::Leaf { .. } => 0,
        Node::Over { .. } => 0,
    }
}

// How many nodes are undone.
fn count_undone(nodes: &[Node]) -> usize
    ensures { result ≡ undone_count nodes.now }
{
    let mut count = 0;
    for node in nodes {
        count += undone_of(*node);
    }
    count
}

// How many floors belong to a tree.
fn count_floors(version: u32, tree: &Tree) -> usize
    ensures { result ≡ floor_count version tree.now }
{
    if has_floors(version) {
        count_undone(tree.items())
    } else {
        0
    }
}

// Whether a version has such a fixing, or none.
fn may_be_fixed(version: u32, fixing: &Option<Fixing>) -> bool
    ensures { IsTrue result ↔ IfSome fixing.now (λ f. 3 ≤ version) }
{
    match fixing {
        None => true,
        Some(_) => version >= 3,
    }
}

// Whether the parts of a stage that was tried belong together.
fn is_printable_proof(version: u32, stage: &StageCert) -> bool
    ensures { IsTrue result ↔ IsPrintableProof version stage.now }
{
    stage.cost.is_some() == stage.choice.is_some()
        && stage.bound.is_some() == has_bound(version, stage.mark)
        && stage.vectors.items().len() <= MOST_VECTORS
        && may_be_fixed(version, &stage.fixing)
        && stage.floors.items().len() == count_floors(version, &stage.tree)
}

// Whether a stage has no parts.
fn holds_nothing(stage: &StageCert) -> bool
    ensures { IsTrue result ↔ HoldsNothing stage.now }
{
    stage.choice.is_none()
        && stage.cost.is_none()
        && stage.bound.is_none()
        && stage.vectors.items().is_empty()
        && stage.fixing.is_none()
        && stage.tree.items().is_empty()
        && stage.floors.items().is_empty()
}

fn is_printable_stage(version: u32, stage: &StageCert) -> bool
    ensures { IsTrue result ↔ IsPrintableStage version stage.now }
{
    match stage.mark {
        Mark::NotTried => holds_nothing(stage),
        Mark::Optimal | Mark::Infeasible | Mark::Unsettled => is_printable_proof(version, stage),
    }
}

fn are_printable(version: u32, stages: &[StageCert]) -> bool
    ensures { IsTrue result ↔ AllByRecursion (IsPrintableStage version) stages.now }
{
    for stage in stages {
        if !is_printable_stage(version, stage) {
            return false;
        }
    }
    true
}

// The room that so many lines leave; none where it is too small.
fn take_lines(room: u64, lines: u64) -> Option<u64>
    ensures { MatchOption result (room < lines) (λ left. left + lines ≡ room) }
{
    if room < lines {
        None
    } else {
        Some(room - lines)
    }
}

// The room that the vectors leave.
fn take_vectors(room: u64, vectors: &[Vector]) -> Option<u64>
    ensures { MatchOption result (room < sum_by prices_line_count vectors.now)
        (λ left. left + sum_by prices_line_count vectors.now ≡ room) }
{
    let mut left = room;
    for vector in vectors {
        left = take_vector(left, vector)?;
    }
    Some(left)
}

// The room that a vector and its prices leave.
fn take_vector(room: u64, vector: &Vector) -> Option<u64>
    ensures { MatchOption result (room < prices_line_count vector.now)
        (λ left. left + prices_line_count vector.now ≡ room) }
{
    let left = take_lines(room, 1)?;
    take_lines(left, vector.items().len() as u64)
}

// How many units have a choice.
fn count_choices(choice: &Option<Choice>) -> u64
    ensures { result ≡ option_map_or (λ alts. length alts) choice.now 0 }
{
    match choice {
        Some(choice) => choice.items().len() as u64,
        None => 0,
    }
}

fn count_lines(number: Option<u64>) -> u64
    ensures { result ≡ option_map_or (λ n. 1) number 0 }
{
    match number {
        Some(_) => 1,
        None => 0,
    }
}

fn count_fixings(fixing: &Option<Fixing>) -> u64
    ensures { result ≡ option_map_or (λ f. 1) fixing.now 0 }
{
    match fixing {
        Some(_) => 1,
        None => 0,
    }
}

// The room that the lines below the mark of a stage that was tried leave.
fn take_proof(room: u64, stage: &StageCert) -> Option<u64>
    ensures { MatchOption result (room < proof_line_count stage.now)
        (λ left. left + proof_line_count stage.now ≡ room) }
{
    let counts = 3
        + count_lines(stage.cost)
        + count_lines(stage.bound)
        + count_fixings(&stage.fixing);
    let left = take_lines(room, counts)?;
    let left = take_lines(left, count_choices(&stage.choice))?;
    let left = take_vectors(left, stage.vectors.items())?;
    take_lines(left, stage.tree.items().len() as u64)
}

// The room that a stage leaves.
fn take_stage(room: u64, stage: &StageCert) -> Option<u64>
    ensures { MatchOption result (room < stage_line_count stage.now)
        (λ left. left + stage_line_count stage.now ≡ room) }
{
    let left = take_lines(room, 1)?;
    match stage.mark {
        Mark::NotTried => Some(left),
        Mark::Optimal | Mark::Infeasible | Mark::Unsettled => take_proof(left, stage),
    }
}

// The room that the stages leave.
fn take_stages(room: u64, stages: &[StageCert]) -> Option<u64>
    ensures { MatchOption result (room < sum_by stage_line_count stages.now)
        (λ left. left + sum_by stage_line_count stages.now ≡ room) }
{
    let mut left = room;
    for stage in stages {
        left = take_stage(left, stage)?;
    }
    Some(left)
}

// Whether the stages of a certificate have few enough lines.
#[tactic(auto, using(crate::proofs::CountLemmas::cert_length))]
fn has_few_lines(cert: &Certificate) -> bool
    ensures { IsTrue result ↔ (length (cert_lines cert.now) ≤ MOST_LINES) }
{
    take_stages(MOST_LINES - 2, cert.stages.items()).is_some()
}

// Whether one more stage has few enough lines.
#[tactic(auto, using(crate::proofs::CountLemmas::extra_length))]
fn has_few_extra_lines(stage: &StageCert) -> bool
    ensures { IsTrue result ↔ (length (extra_lines stage.now) ≤ MOST_LINES) }
{
    take_proof(MOST_LINES - 3, stage).is_some()
}

/// Whether `print_cert` takes the certificate. One step a stage, a vector and a node; it takes no
/// memory.
pub fn is_printable(cert: &Certificate) -> bool
    ensures { IsTrue result ↔ IsPrintable cert.now }
{
    if cert.version < 1 || cert.version > 3 {
        return false;
    }
    if cert.stages.items().len() != 4 {
        return false;
    }
    if !are_printable(cert.version, cert.stages.items()) {
        return false;
    }
    has_few_lines(cert)
}

/// Whether `print_extra` takes the stage. Cost as `is_printable`.
pub fn is_printable_extra(stage: &StageCert) -> bool
    ensures { IsTrue result ↔ IsPrintableExtra stage.now }
{
    if !stage.mark.is_tried() {
        return false;
    }
    if !is_printable_proof(3, stage) {
        return false;
    }
    has_few_extra_lines(stage)
}
