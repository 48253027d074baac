//! The parts of a certificate, line after line.

ghost use Rattle.std.specs.Prelude.{◌≡◌, ◌^◌, ◌+◌, ◌<◌, ◌≤◌, ◌∷◌, ◌++◌, List, OnOk, IfErr, codes, option_to_list};
ghost use Rattle.cert_format.specs.Private.Words.{most_small, most_large};
ghost use Rattle.cert_format.specs.Private.Rows.{count_row, choices_row, tree_row, node_row, mark_row};
ghost use Rattle.cert_format.specs.Spelling.{has_floors, has_bound};
ghost use Rattle.cert_format.specs.Private.Spots.{spot_of, line_by};
ghost use Rattle.cert_format.specs.Forms.{Gives};
ghost use Rattle.cert_format.specs.Private.Reading.{many, alternative_at, alternatives_at, choice_at, price_at, one_vector, vector_at, vectors_at, optional_at, nodes_at, after_head, head_at, tree_at, proof_at, stage_at};

use crate::cert::{Floor, FloorList, Mark, StageCert};
use crate::fault::CertFault;
use crate::place::Place;
use crate::rows::{
    AlternativeRow, ChoicesRow, CountRow, FixLine, MarkRow, NodeRow, PriceRow, SmallCountRow,
    TreeLine, TreeRow, fix_line,
};
use choice_problem::{Choice, MOST_VECTORS, Node, Price, Tree, Vector, VectorList};
use cost_fixing::Fixing;
use std::alloc::Global;

// The alternatives of the units below the count.
fn some_alternatives(
    alloc: Global,
    count: u32,
    place: Place<'_>,
) -> Result<(Vec<u32>, Place<'_>), CertFault>
    ensures { Gives (λ x. (x.0.items, spot_of x.1)) result
        (many alternative_at 0 count (spot_of place.entry)) }
{
    let mut alts = Vec::new(alloc);
    let mut next = place;
    for unit in 0..count {
        let (alt, after) = next.read(&AlternativeRow { unit })?;
        alts.push(alt)?;
        next = after;
    }
    Ok((alts, next))
}

// How many units have a choice, and the alternative of each.
#[tactic(auto, unfolding(crate::specs::Private::Reading::choice_at, crate::specs::Private::Reading::alternatives_at))]
fn choice_at(alloc: Global, place: Place<'_>) -> Result<(Option<Choice>, Place<'_>), CertFault>
    ensures { Gives (λ x. (x.0, spot_of x.1)) result (choice_at (spot_of place.entry)) }
{
    let (count, place) = place.read(&ChoicesRow)?;
    match count {
        None => Ok((None, place)),
        Some(count) => {
            let (alts, place) = some_alternatives(alloc, count, place)?;
            Ok((Some(Choice::new(alts)), place))
        }
    }
}

// As many prices as the count says.
fn some_prices(
    alloc: Global,
    count: u32,
    place: Place<'_>,
) -> Result<(Vec<Price>, Place<'_>), CertFault>
    ensures { Gives (λ x. (x.0.items, spot_of x.1)) result
        (many price_at 0 count (spot_of place.entry)) }
{
    let mut prices = Vec::new(alloc);
    let mut next = place;
    for _ in 0..count {
        let (price, after) = next.read(&PriceRow)?;
        prices.push(price)?;
        next = after;
    }
    Ok((prices, next))
}

// How many prices a vector has, and each of them.
#[tactic(auto, unfolding(crate::specs::Private::Reading::one_vector))]
fn vector_at(alloc: Global, place: Place<'_>) -> Result<(Vector, Place<'_>), CertFault>
    ensures { Gives (λ x. (x.0, spot_of x.1)) result (one_vector (spot_of place.entry)) }
{
    let (count, place) = place.read(&SmallCountRow { tag: b"VECTOR" })?;
    let (prices, place) = some_prices(alloc, count, place)?;
    Ok((Vector::new(prices), place))
}

// As many vectors as the count says.
fn some_vectors(
    alloc: Global,
    count: u64,
    place: Place<'_>,
) -> Result<(Vec<Vector>, Place<'_>), CertFault>
    ensures { Gives (λ x. (x.0.items, spot_of x.1)) result
        (many vector_at 0 count (spot_of place.entry)) }
{
    let mut vectors = Vec::new(alloc);
    let mut next = place;
    for _ in 0..count {
        let (vector, after) = vector_at(alloc, next)?;
        vectors.push(vector)?;
        next = after;
    }
    Ok((vectors, next))
}

// How many vectors there are, and each of them.
#[tactic(auto, unfolding(crate::specs::Private::Reading::vectors_at))]
fn vectors_at(alloc: Global, place: Place<'_>) -> Result<(VectorList, Place<'_>), CertFault>
    ensures { Gives (λ x. (x.0, spot_of x.1)) result (vectors_at (spot_of place.entry)) }
{
    let (count, place) = place.read(&CountRow {
        tag: b"VECTORS",
        most: MOST_VECTORS as u64,
    })?;
    let (vectors, place) = some_vectors(alloc, count, place)?;
    Ok((VectorList::new(vectors), place))
}

// A line with a number, where it is wanted.
#[tactic(auto, unfolding(crate::specs::Private::Reading::optional_at))]
fn optional_at<'a>(
    tag: &[u8],
    wanted: bool,
    place: Place<'a>,
) -> Result<(Option<u64>, Place<'a>), CertFault>
    ensures { Gives (λ x. (x.0, spot_of x.1)) result
        (optional_at tag.now wanted (spot_of place.entry)) }
{
    if !wanted {
        return Ok((None, place));
    }
    let (number, place) = place.read(&CountRow {
        tag,
        most: u64::MAX,
    })?;
    Ok((Some(number), place))
}

// As many nodes as the count says, and the floors among them.
fn some_nodes(
    alloc: Global,
    version: u32,
    count: u32,
    place: Place<'_>,
) -> Result<(Vec<Node>, Vec<Floor>, Place<'_>), CertFault>
    ensures { Gives (λ x. ((x.0.items, x.1.items), spot_of x.2)) result
        (nodes_at version count (spot_of place.entry)) }
{
    let mut nodes = Vec::new(alloc);
    let mut floors = Vec::new(alloc);
    let mut next = place;
    for _ in 0..count {
        let ((node, floor), after) = next.read(&NodeRow { version })?;
        nodes.push(node)?;
        push_some(&mut floors, floor)?;
        next = after;
    }
    Ok((nodes, floors, next))
}

// One more floor, if there is one.
fn push_some(floors: &mut Vec<Floor>, floor: Option<Floor>) -> Result<(), CertFault>
    ensures ok { OnOk result (floors.new.items ≡ floors.old.items ++ option_to_list floor) }
    ensures err { IfErr result (λ e. e ≡ CertFault.Memory) }
{
    if let Some(floor) = floor {
        floors.push(floor)?;
    }
    Ok(())
}

// What follows the first line of a tree, up to its nodes.
#[tactic(auto, unfolding(crate::specs::Private::Reading::after_head))]
fn after_head(
    line: TreeLine,
    place: Place<'_>,
) -> Result<((Option<Fixing>, u32), Place<'_>), CertFault>
    ensures { Gives (λ x. (x.0, spot_of x.1)) result (after_head line (spot_of place.entry)) }
{
    match line {
        TreeLine::Counted { nodes } => Ok(((None, nodes), place)),
        TreeLine::Fixed { fixing } => {
            let (nodes, place) = place.read(&SmallCountRow { tag: b"TREE" })?;
            Ok(((Some(fixing), nodes), place))
        }
    }
}

// A fixing, if there is one, and how many nodes follow.
#[tactic(auto, unfolding(crate::specs::Private::Reading::head_at))]
fn head_at(fix: FixLine, place: Place<'_>) -> Result<((Option<Fixing>, u32), Place<'_>), CertFault>
    ensures { Gives (λ x. (x.0, spot_of x.1)) result (head_at fix (spot_of place.entry)) }
{
    let (line, place) = place.read(&TreeRow { fix })?;
    after_head(line, place)
}

// The fixing of a tree, if it has one, how many nodes it has, and each of them.
#[tactic(auto, unfolding(crate::specs::Private::Reading::tree_at))]
fn tree_at(
    alloc: Global,
    version: u32,
    fix: FixLine,
    place: Place<'_>,
) -> Result<(Option<Fixing>, Tree, FloorList, Place<'_>), CertFault>
    ensures { Gives (λ x. ((x.0, (x.1, x.2)), spot_of x.3)) result
        (tree_at version fix (spot_of place.entry)) }
{
    let ((fixing, count), place) = head_at(fix, place)?;
    let (nodes, floors, place) = some_nodes(alloc, version, count, place)?;
    Ok((fixing, Tree::new(nodes), FloorList::new(floors), place))
}

/// Whether a version has bounds and floors.
pub fn has_floors(version: u32) -> bool
    ensures { result ≡ has_floors version }
{
    version >= 2
}

/// Whether a stage has a line with its bound.
pub fn has_bound(version: u32, mark: Mark) -> bool
    ensures { result ≡ has_bound version mark }
{
    match mark {
        Mark::Unsettled => has_floors(version),
        Mark::Optimal | Mark::Infeasible | Mark::NotTried => false,
    }
}

/// What follows the line of the mark of a stage that was tried.
#[tactic(auto, unfolding(crate::specs::Private::Reading::proof_at))]
pub fn proof_at(
    alloc: Global,
    version: u32,
    fix: FixLine,
    mark: Mark,
    place: Place<'_>,
) -> Result<(StageCert, Place<'_>), CertFault>
    ensures { Gives (λ x. (x.0, spot_of x.1)) result
        (proof_at version fix mark (spot_of place.entry)) }
{
    let (choice, place) = choice_at(alloc, place)?;
    let (cost, place) = optional_at(b"COST", choice.is_some(), place)?;
    let (bound, place) = optional_at(b"BOUND", has_bound(version, mark), place)?;
    let (vectors, place) = vectors_at(alloc, place)?;
    let (fixing, tree, floors, place) = tree_at(alloc, version, fix, place)?;
    let stage = StageCert {
        mark,
        choice,
        cost,
        bound,
        vectors,
        fixing,
        tree,
        floors,
    };
    Ok((stage, place))
}

/// A stage, by its number.
#[tactic(auto, unfolding(crate::specs::Private::Reading::stage_at))]
pub fn stage_at(
    alloc: Global,
    version: u32,
    stage: u32,
    place: Place<'_>,
) -> Result<(StageCert, Place<'_>), CertFault>
    ensures { Gives (λ x. (x.0, spot_of x.1)) result
        (stage_at version stage (spot_of place.entry)) }
{
    let (mark, place) = place.read(&MarkRow { stage })?;
    match mark {
        Mark::NotTried => Ok((StageCert::not_tried(alloc), place)),
        Mark::Optimal | Mark::Infeasible | Mark::Unsettled => {
            proof_at(alloc, version, fix_line(version), mark, place)
        }
    }
}
