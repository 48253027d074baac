//! The line of a stage's tree, and the lines of its nodes, on the problem that the tree is a tree
//! of.

ghost use Rattle.std.specs.Prelude.{◌≡◌, ◌↔◌, ◌+◌, ◌<◌, ◌≤◌, ◌^◌, [], ◌∷◌, true, false, None, Some, All, IsTrue, IfOk, MatchOption, length};
ghost use Rattle.std.specs.List.{AllByRecursion};
ghost use Rattle.choice_problem.specs.Problems.{unit_count};
ghost use Rattle.choice_problem.specs.Bounds.{AreRanges, IsVector, whole_of};
ghost use Rattle.choice_problem.specs.Trees.{CanSplit, IsWhole};
ghost use Rattle.cert_checker.specs.Tests.{MayBeUndone, Passes, undone_tests, node_line, node_tests, floors_after};
ghost use Rattle.cert_checker.specs.States.{IsState, IsStateFirst};
ghost use Rattle.cert_checker.specs.Parts.{IsLineFault, GoesOnBy, IsPart, tree_part, unfixed};

use crate::lines::Judged;
use crate::states::{State, first_state, go_on, leaf_holds, resource_over};
use crate::trees::{is_tree, is_whole};
use crate::verdict::Reason;
use cert_format::{Floor, Mark, StageCert};
use choice_problem::{Node, Problem, RangeWalk, Ranges};
use kept_bounds::NamedBound;
use slot_text::Memory;
use std::alloc::Global;

// Whether both sides of a cut have an alternative.
fn can_split(problem: &Problem, ranges: &Ranges, unit: u32, cut: u32) -> bool
    requires { AreRanges problem.now ranges.now }
    ensures { IsTrue result ↔ CanSplit ranges.now unit cut }
{
    unit < problem.units() && ranges.low(unit) < cut && cut <= ranges.high(unit)
}

fn may_be_undone(mark: Mark) -> bool
    ensures { IsTrue result ↔ MayBeUndone mark }
{
    match mark {
        Mark::Unsettled => true,
        Mark::Optimal | Mark::Infeasible | Mark::NotTried => false,
    }
}

fn fault_unless(holds: bool, reason: Reason) -> Option<Reason>
    ensures yes { holds ≡ true → result ≡ None }
    ensures no { holds ≡ false → result ≡ Some reason }
{
    if holds { None } else { Some(reason) }
}

// Why the line of an undone node fails, if it does.
fn undone_fault(
    alloc: Global,
    problem: &Problem,
    cert: &StageCert,
    state: &mut State,
    ranges: &Ranges,
    floors: &[Floor],
) -> Result<Option<Reason>, Memory>
    requires ranges { AreRanges problem.now ranges.now }
    requires vectors { All (IsVector problem.now) cert.now.vectors }
    requires state { IsState problem.now cert.now.vectors ranges.now state.old }
    ensures state { IfOk result
        (λ fault. IsState problem.now cert.now.vectors ranges.now state.new) }
    ensures fault { IfOk result (λ fault. IsLineFault (Passes problem.now (unfixed cert.now))
        (undone_tests ranges.now floors.now) fault) }
{
    if !may_be_undone(cert.mark) {
        return Ok(Some(Reason::Undone));
    }
    match (floors, cert.bound) {
        ([floor, ..], Some(bound)) => {
            let named = NamedBound {
                vector: floor.vector,
                scale: floor.scale,
            };
            let vectors = &cert.vectors;
            let stated = Some(bound);
            let holds = leaf_holds(alloc, problem, vectors, state, stated, ranges, named)?;
            Ok(fault_unless(holds, Reason::Floor))
        }
        _ => Ok(None),
    }
}

// Why the line of a node fails, if it does.
fn node_fault(
    alloc: Global,
    problem: &Problem,
    cert: &StageCert,
    state: &mut State,
    ranges: &Ranges,
    node: Node,
    floors: &[Floor],
) -> Result<Option<Reason>, Memory>
    requires ranges { AreRanges problem.now ranges.now }
    requires vectors { All (IsVector problem.now) cert.now.vectors }
    requires state { IsState problem.now cert.now.vectors ranges.now state.old }
    ensures state { IfOk result
        (λ fault. IsState problem.now cert.now.vectors ranges.now state.new) }
    ensures fault { IfOk result (λ fault. IsLineFault (Passes problem.now (unfixed cert.now))
        (node_line ranges.now node floors.now) fault) }
{
    match node {
        Node::Split { unit, cut, .. } => Ok(fault_unless(
            can_split(problem, ranges, unit, cut),
            Reason::Split,
        )),
        Node::Leaf { vector, scale, .. } => {
            let named = NamedBound { vector, scale };
            let vectors = &cert.vectors;
            let cost = cert.cost;
            let holds = leaf_holds(alloc, problem, vectors, state, cost, ranges, named)?;
            Ok(fault_unless(holds, Reason::Leaf))
        }
        Node::Over { resource } => {
            let vectors = &cert.vectors;
            let holds = resource_over(alloc, problem, vectors, state, ranges, resource)?;
            Ok(fault_unless(holds, Reason::Over))
        }
        Node::Undone => undone_fault(alloc, problem, cert, state, ranges, floors),
    }
}

// The floors after a node.
fn floors_after(node: Node, floors: &[Floor]) -> &[Floor]
    ensures { result.now ≡ floors_after node floors.now }
{
    match (node, floors) {
        (Node::Undone, [_, rest @ ..]) => rest,
        _ => floors,
    }
}

// Checks a node on the first ranges of the walk, and goes on by it.
fn check_node(
    alloc: Global,
    problem: &Problem,
    cert: &StageCert,
    state: &mut State,
    walk: &mut RangeWalk,
    node: Node,
    floors: &[Floor],
) -> Result<Option<Reason>, Memory>
    requires vectors { All (IsVector problem.now) cert.now.vectors }
    requires state { IsStateFirst problem.now cert.now.vectors walk.old state.old }
    requires some { 0 < length walk.old }
    requires ranges { All (AreRanges problem.now) walk.old }
    ensures state { IfOk result (λ fault. fault ≡ None →
        IsStateFirst problem.now cert.now.vectors walk.new state.new) }
    ensures ranges { IfOk result (λ fault. fault ≡ None → All (AreRanges problem.now) walk.new) }
    ensures fault { IfOk result (λ fault.
        GoesOnBy problem.now (unfixed cert.now) walk.old node floors.now walk.new fault) }
{
    let fault = node_fault(alloc, problem, cert, state, walk.ranges(), node, floors)?;
    if fault.is_some() {
        return Ok(fault);
    }
    if go_on(problem, &cert.vectors, walk, node, state)? {
        Ok(None)
    } else {
        Ok(Some(Reason::Split))
    }
}

// One line for each node.
fn check_nodes(
    alloc: Global,
    problem: &Problem,
    cert: &StageCert,
    line: u32,
) -> Result<Judged, Memory>
    requires vectors { All (IsVector problem.now) cert.now.vectors }
    requires room { line + length cert.now.tree < 2 ^ 32 }
    ensures { IfOk result (λ judged. IsPart problem.now (unfixed cert.now) line
        (node_tests (whole_of problem.now ∷ []) cert.now.tree cert.now.floors)
        judged.verdict judged.next) }
{
    let whole = Ranges::whole(alloc, problem)?;
    let mut walk = RangeWalk::new(alloc, whole);
    let mut state = first_state(alloc, problem, &cert.vectors, cert.tree.items())?;
    walk_nodes(alloc, problem, cert, line, &mut state, &mut walk)
}

// One line for each node, from the first ranges of a walk on.
fn walk_nodes(
    alloc: Global,
    problem: &Problem,
    cert: &StageCert,
    line: u32,
    state: &mut State,
    walk: &mut RangeWalk,
) -> Result<Judged, Memory>
    requires vectors { All (IsVector problem.now) cert.now.vectors }
    requires room { line + length cert.now.tree < 2 ^ 32 }
    requires ranges { All (AreRanges problem.now) walk.old }
    requires state { IsStateFirst problem.now cert.now.vectors walk.old state.old }
    ensures { IfOk result (λ judged. IsPart problem.now (unfixed cert.now) line
        (node_tests walk.old cert.now.tree cert.now.floors) judged.verdict judged.next) }
{
    let nodes = cert.tree.items();
    let mut floors = cert.floors.items();
    let mut at = line;
    for node in nodes {
        if walk.is_done() {
            return Ok(Judged::passed(line + nodes.len() as u32));
        }
        let fault = check_node(alloc, problem, cert, state, walk, *node, floors)?;
        if let Some(reason) = fault {
            return Ok(Judged::refused(at, reason));
        }
        floors = floors_after(*node, floors);
        at += 1;
    }
    Ok(Judged::passed(at))
}

/// The line of the tree and its nodes.
pub(crate) fn check_tree(
    alloc: Global,
    problem: &Problem,
    cert: &StageCert,
    line: u32,
) -> Result<Judged, Memory>
    requires vectors { All (IsVector problem.now) cert.now.vectors }
    requires room { line + length (tree_part problem.now (unfixed cert.now)) < 2 ^ 32 }
    ensures { IfOk result (λ judged. IsPart problem.now (unfixed cert.now) line
        (tree_part problem.now (unfixed cert.now)) judged.verdict judged.next) }
{
    if !is_tree(cert.tree.items()) {
        return Ok(Judged::refused(line, Reason::Shape));
    }
    if cert.mark == Mark::Unsettled && is_whole(cert.tree.items()) {
        return Ok(Judged::refused(line, Reason::Closed));
    }
    check_nodes(alloc, problem, cert, line + 1)
}
