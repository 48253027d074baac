//! Printing a certificate.

ghost use Rattle.std.specs.Prelude.{◌≡◌, ◌++◌, ◌∷◌, ◌<◌, ◌≤◌, ◌^◌, List, ℕ, true, OnOk, IfOk, IfSome, codes, length};
ghost use Rattle.std.specs.List.{AllByRecursion};
ghost use Rattle.choice_problem.specs.declared.nodes.Node.{Node};
ghost use Rattle.cert_format.specs.Lines.{text_of};
ghost use Rattle.cert_format.specs.Spelling.{numbered, count_words, alternative_lines, price_lines, vector_lines, fixing_lines, node_words, node_lines, optional_lines, choice_lines, proof_lines, stage_lines, spelling, is_undone, is_tried, undone_count, SeenFits, PriceFits, FixingFits, NodeFits, FloorFits, IsCert};
ghost use Rattle.cert_format.specs.Printable.{IsPrintable};
ghost use Rattle.cert_format.specs.Private.Ranges.{HasRanges, RangesAs};

use crate::cert::{Certificate, Floor, FloorList, Mark, StageCert};
use crate::printed_lines::{
    put_alternative, put_count, put_end, put_fixing, put_mark, put_node, put_none, put_price,
};
use choice_problem::{Choice, Node, Price, Tree, Vector, VectorList};
use cost_fixing::Fixing;
use slot_text::Memory;
use std::alloc::Global;

// The floor of a node, if it has one, and the floors after it.
fn split_floor(node: Node, floors: &[Floor]) -> (Option<Floor>, &[Floor])
    ensures lines { (nodes : List Node) →
        node_lines (node ∷ nodes) floors.now ≡ node_words node result.0
        ∷ node_lines nodes result.1.now }
    ensures range { (is_undone node ≡ true → IfSome result.0 FloorFits) →
        AllByRecursion FloorFits result.1.now → AllByRecursion FloorFits floors.now }
    ensures count { (nodes : List Node) → length floors.now ≤ undone_count (node ∷ nodes) →
        length result.1.now ≤ undone_count nodes }
{
    if node != Node::Undone {
        return (None, floors);
    }
    match floors {
        [] => (None, floors),
        [floor, rest @ ..] => (Some(*floor), rest),
    }
}

// The alternatives of the units, from unit 0 on.
fn put_alternatives(alloc: Global, out: &mut Vec<u8>, alts: &[u32]) -> Result<(), Memory>
    ensures text { OnOk result (out.new.items ≡ out.old.items
        ++ text_of (numbered alternative_lines 0 alts.now)) }
    ensures range { OnOk result (AllByRecursion (λ alt. alt < 2 ^ 32) alts.now) }
{
    for (unit, alt) in alts.iter().enumerate() {
        put_alternative(alloc, out, unit as u64, *alt)?;
    }
    Ok(())
}

// How many units have a choice, and the alternative of each.
fn put_choice(alloc: Global, out: &mut Vec<u8>, choice: &Option<Choice>) -> Result<(), Memory>
    ensures text { OnOk result
        (out.new.items ≡ out.old.items ++ text_of (choice_lines choice.now)) }
    ensures range { OnOk result
        (IfSome choice.now (λ alts. AllByRecursion (λ alt. alt < 2 ^ 32) alts)) }
{
    match choice {
        None => put_none(out),
        Some(choice) => {
            let alts = choice.items();
            put_count(alloc, out, b"CHOICES", alts.len() as u64)?;
            put_alternatives(alloc, out, alts)
        }
    }
}

// A line with a number, if there is one.
fn put_optional(
    alloc: Global,
    out: &mut Vec<u8>,
    tag: &[u8],
    number: Option<u64>,
) -> Result<(), Memory>
    ensures text { OnOk result
        (out.new.items ≡ out.old.items ++ text_of (optional_lines tag.now number)) }
    ensures range { OnOk result (SeenFits number) }
{
    match number {
        None => Ok(()),
        Some(number) => put_count(alloc, out, tag, number),
    }
}

// The prices of a vector.
fn put_prices(alloc: Global, out: &mut Vec<u8>, prices: &[Price]) -> Result<(), Memory>
    ensures text { OnOk result
        (out.new.items ≡ out.old.items ++ text_of (numbered price_lines 0 prices.now)) }
    ensures range { OnOk result (AllByRecursion PriceFits prices.now) }
{
    for price in prices {
        put_price(alloc, out, *price)?;
    }
    Ok(())
}

// How many prices a vector has, and each of them.
fn put_vector(alloc: Global, out: &mut Vec<u8>, vector: &Vector) -> Result<(), Memory>
    ensures text { OnOk result ((number : ℕ) →
        out.new.items ≡ out.old.items ++ text_of (vector_lines number vector.now)) }
    ensures range { OnOk result (AllByRecursion PriceFits vector.now) }
{
    let prices = vector.items();
    put_count(alloc, out, b"VECTOR", prices.len() as u64)?;
    put_prices(alloc, out, prices)
}

// The vectors, from vector 1 on.
fn put_vectors(alloc: Global, out: &mut Vec<u8>, vectors: &[Vector]) -> Result<(), Memory>
    ensures text { OnOk result (out.new.items ≡ out.old.items
        ++ text_of (numbered vector_lines 0 vectors.now)) }
    ensures range { OnOk result (AllByRecursion (AllByRecursion PriceFits) vectors.now) }
{
    for vector in vectors {
        put_vector(alloc, out, vector)?;
    }
    Ok(())
}

// The nodes, each undone one with its floor, if it has one.
fn put_nodes(
    alloc: Global,
    out: &mut Vec<u8>,
    nodes: &[Node],
    floors: &[Floor],
) -> Result<(), Memory>
    ensures text { OnOk result
        (out.new.items ≡ out.old.items ++ text_of (node_lines nodes.now floors.now)) }
    ensures nodes { OnOk result (AllByRecursion NodeFits nodes.now) }
    ensures floors { OnOk result (length floors.now ≤ undone_count nodes.now →
        AllByRecursion FloorFits floors.now) }
{
    let mut rest = floors;
    for node in nodes {
        let (floor, after) = split_floor(*node, rest);
        put_node(alloc, out, *node, floor)?;
        rest = after;
    }
    Ok(())
}

// How many vectors there are, and each of them.
fn put_vector_list(alloc: Global, out: &mut Vec<u8>, vectors: &VectorList) -> Result<(), Memory>
    ensures text { OnOk result (out.new.items ≡ out.old.items
        ++ text_of (count_words (codes "VECTORS") (length vectors.now)
        ∷ numbered vector_lines 0 vectors.now)) }
    ensures range { OnOk result (AllByRecursion (AllByRecursion PriceFits) vectors.now) }
{
    let vectors = vectors.items();
    put_count(alloc, out, b"VECTORS", vectors.len() as u64)?;
    put_vectors(alloc, out, vectors)
}

// How many nodes a tree has, and each of them.
fn put_tree(alloc: Global, out: &mut Vec<u8>, tree: &Tree, floors: &FloorList) -> Result<(), Memory>
    ensures text { OnOk result (out.new.items ≡ out.old.items
        ++ text_of (count_words (codes "TREE") (length tree.now)
        ∷ node_lines tree.now floors.now)) }
    ensures range { OnOk result (AllByRecursion NodeFits tree.now
        × (length floors.now ≤ undone_count tree.now → AllByRecursion FloorFits floors.now)) }
{
    let nodes = tree.items();
    put_count(alloc, out, b"TREE", nodes.len() as u64)?;
    put_nodes(alloc, out, nodes, floors.items())
}

// The line of a fixing, if there is one.
fn put_some_fixing(alloc: Global, out: &mut Vec<u8>, fixing: &Option<Fixing>) -> Result<(), Memory>
    ensures text { OnOk result
        (out.new.items ≡ out.old.items ++ text_of (fixing_lines fixing.now)) }
    ensures range { OnOk result (IfSome fixing.now FixingFits) }
{
    match fixing {
        None => Ok(()),
        Some(fixing) => put_fixing(alloc, out, *fixing),
    }
}

// The fixing of a tree, if it has one, and the tree.
fn put_fixed_tree(alloc: Global, out: &mut Vec<u8>, stage: &StageCert) -> Result<(), Memory>
    ensures text { OnOk result (out.new.items ≡ out.old.items
        ++ text_of (fixing_lines stage.now.fixing
        ++ (count_words (codes "TREE") (length stage.now.tree)
        ∷ node_lines stage.now.tree stage.now.floors))) }
    ensures range { OnOk result (IfSome stage.now.fixing FixingFits
        × AllByRecursion NodeFits stage.now.tree
        × (length stage.now.floors ≤ undone_count stage.now.tree →
        AllByRecursion FloorFits stage.now.floors)) }
{
    put_some_fixing(alloc, out, &stage.fixing)?;
    put_tree(alloc, out, &stage.tree, &stage.floors)
}

/// What follows the line of the mark of a stage that was tried.
pub fn put_proof(alloc: Global, out: &mut Vec<u8>, stage: &StageCert) -> Result<(), Memory>
    ensures text { OnOk result (out.new.items ≡ out.old.items ++ text_of (proof_lines stage.now)) }
    ensures range { OnOk result (HasRanges stage.now) }
{
    put_choice(alloc, out, &stage.choice)?;
    put_optional(alloc, out, b"COST", stage.cost)?;
    put_optional(alloc, out, b"BOUND", stage.bound)?;
    put_vector_list(alloc, out, &stage.vectors)?;
    put_fixed_tree(alloc, out, stage)
}

// A stage by its number.
fn put_stage(alloc: Global, out: &mut Vec<u8>, number: u64, stage: &StageCert) -> Result<(), Memory>
    ensures text { OnOk result
        (out.new.items ≡ out.old.items ++ text_of (stage_lines number stage.now)) }
    ensures range { OnOk result (RangesAs stage.now (is_tried stage.now.mark)) }
{
    put_mark(alloc, out, number, stage.mark)?;
    match stage.mark {
        Mark::NotTried => Ok(()),
        Mark::Optimal | Mark::Infeasible | Mark::Unsettled => put_proof(alloc, out, stage),
    }
}

// The stages, from stage 1 on.
fn put_stages(alloc: Global, out: &mut Vec<u8>, stages: &[StageCert]) -> Result<(), Memory>
    ensures text { OnOk result
        (out.new.items ≡ out.old.items ++ text_of (numbered stage_lines 1 stages.now)) }
    ensures range { OnOk result
        (AllByRecursion (λ stage. RangesAs stage (is_tried stage.mark)) stages.now) }
{
    for (i, stage) in stages.iter().enumerate() {
        put_stage(alloc, out, i as u64 + 1, stage)?;
    }
    Ok(())
}

/// The one spelling of a certificate, as `read_cert` reads it: one pass, and no further memory than
/// the text.
///
/// A caller owes what `IsPrintable` asks: choice and cost both or neither, a stage that was not
/// tried without parts, at most 64 vectors, four stages, version 1 to 3 with bounds, floors and
/// fixings as the version has them, and fewer than 2^32 lines.
#[tactic(auto, using(crate::proofs::RangeLemmas::cert_is))]
pub fn print_cert(alloc: Global, cert: &Certificate) -> Result<Vec<u8>, Memory>
    requires { IsPrintable cert.now }
    ensures text { IfOk result (λ v. v.items ≡ spelling cert.now) }
    // What was printed is in the form, so it is read again as the same.
    ensures again { IfOk result (λ v. IsCert cert.now) }
{
    let mut out = Vec::new(alloc);
    put_count(alloc, &mut out, b"CERT", u64::from(cert.version))?;
    put_stages(alloc, &mut out, cert.stages.items())?;
    put_end(&mut out)?;
    Ok(out)
}
