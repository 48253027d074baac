//! Problems, choices and trees.

ghost use Rattle.std.specs.Prelude.{◌<◌, ◌≤◌, length};
ghost use Rattle.choice_problem.specs.Problems.{unit_count};

use crate::problems::{problem, read_problem, strips};
use crate::texts::{Case, add, number, numbers, piece, small_at, walk, yes_no};
use choice_problem::{
    Choice, Node, Problem, Ranges, Strip, Tree, cost_of, count_nodes, first_passed, fits,
    greatest_named, open_pieces,
};
use std::alloc::Global;
use std::process::Abort;

// A strip, and its uses of seven resources.
const STRIPS: &str = "2 3 0 4 = 0 0 4 4 4 0 0
0 2 1 3 = 1 2 2 1 0 0 0
1 1 3 2 = 0 1 0 0 1 0 0
1 0 3 2 = 0 0 0 0 0 0 0
1 3 1 0 = 0 0 0 0 0 0 0";

// The uses of a strip, where the alternative of a unit has the same.
struct UseCase;

impl Case for UseCase {
    fn find(rt: &impl Abort, alloc: Global, text: &str) -> String {
        let problem = of_strips(rt, alloc, text);
        let strips = strips(rt, alloc, &numbers(rt, alloc, text));
        uses(rt, alloc, &problem, &strips)
    }
}

// The problem of a unit whose first alternative uses the strips of a text.
fn of_strips(rt: &impl Abort, alloc: Global, text: &str) -> Problem {
    let clauses = format!(in alloc; "P {text}; A 0 0 -; A 5 - -; U; L 9 9 9 9 9 9 9");
    problem(rt, alloc, &clauses.expect(rt, "memory"))
}

// The uses of strips, of seven resources each.
fn uses(rt: &impl Abort, alloc: Global, problem: &Problem, strips: &[Strip]) -> String {
    let mut out = String::new(alloc);
    for resource in 0..7 {
        add_uses(rt, &mut out, problem, strips, resource);
    }
    out
}

// Adds the uses of strips of a resource, each as often as the problem says.
fn add_uses(rt: &impl Abort, out: &mut String, problem: &Problem, strips: &[Strip], resource: u32) {
    for strip in strips {
        let uses = strip.uses(resource);
        let found = uses_at(problem, resource);
        assert!(rt; found == Some(uses), "the uses of the problem");
        add(rt, out, " ", i128::from(uses));
    }
}

// How often the first alternative of the first unit uses a resource.
fn uses_at(problem: &Problem, resource: u32) -> Option<u32> {
    if problem.units() > 0 && problem.alts(0) > 0 {
        Some(problem.uses(0, 0, resource))
    } else {
        None
    }
}

#[test]
fn strips_count_each_use(rt: HostRuntime) {
    walk::<UseCase>(&rt, rt.alloc(), STRIPS);
}

// Clauses, and whether they make a problem.
const CONDITIONS: &str = "P 0 1 0 434; A 0 - 0; U; L 0 = yes
P 0 1 0 435; A 0 - 0; U; L 0 = no
P 0 1 0 217; A 16777215 0 0; U; L 0 = yes
P 0 1 0 218; A 0 0 0; U; L 0 = no
P 0 1 0 1; A 16777216 - -; U; L 0 = no
P 0 1 0 1; A 0 1 -; U; L 0 = no
P 0 1 0 1; A 0 - 1; U; L 0 = no
L 0 = yes
L 999999 = yes
L -1 = no
L 1000000 = no
P 0 2 2 3; A 0 0 -; A 0 - -; U; L 1 1 1 1 1 1 = yes
P 0 2 2 3; A 0 0 -; A 0 - -; U; L 1 1 1 1 1 = no";

struct ConditionCase;

impl Case for ConditionCase {
    fn find(rt: &impl Abort, alloc: Global, text: &str) -> String {
        yes_no(rt, alloc, read_problem(rt, alloc, text).is_some())
    }
}

#[test]
fn conditions_can_be_tested(rt: HostRuntime) {
    walk::<ConditionCase>(&rt, rt.alloc(), CONDITIONS);
}

// What the accessors give of a unit: the numbers of units, alternatives, parts and resources; the
// cost of its second alternative, the limit of resource 2, and how often the first alternative uses
// that; its alternatives and the strips of its part.
fn accessors(rt: &impl Abort, alloc: Global, problem: &Problem, unit: u32) -> String {
    assert!(rt; unit < problem.units(), "a unit");
    let mut out = String::new(alloc);
    add_numbers(rt, &mut out, problem, unit);
    add_uses_of(rt, &mut out, problem, unit);
    add_lengths(rt, &mut out, problem, unit);
    out
}

fn add_numbers(rt: &impl Abort, out: &mut String, problem: &Problem, unit: u32)
    requires { unit < unit_count problem.now }
{
    let (units, alts) = (problem.units(), problem.alts(unit));
    let (parts, resources) = (problem.parts(unit), problem.resources());
    add(rt, out, "", i128::from(units));
    add(rt, out, " ", i128::from(alts));
    add(rt, out, " ", i128::from(parts));
    add(rt, out, " ", i128::from(resources));
}

fn add_uses_of(rt: &impl Abort, out: &mut String, problem: &Problem, unit: u32)
    requires { unit < unit_count problem.now }
{
    assert!(rt;
        problem.alts(unit) >= 2 && problem.resources() >= 3,
        "two alternatives and three resources"
    );
    let (cost, limit) = (problem.alt_cost(unit, 1), problem.limit(2));
    let uses = problem.uses(unit, 0, 2);
    add(rt, out, ", ", i128::from(cost));
    add(rt, out, " ", i128::from(limit));
    add(rt, out, " ", i128::from(uses));
}

fn add_lengths(rt: &impl Abort, out: &mut String, problem: &Problem, unit: u32)
    requires { unit < unit_count problem.now }
{
    assert!(rt; problem.parts(unit) > 0, "a part");
    let (alts, parts) = (
        problem.unit_alts(unit).len(),
        problem.unit_parts(unit).len(),
    );
    let strips = problem.part(unit, 0).strips().len();
    let limits = problem.limits().len();
    add(rt, out, ", ", alts as i128);
    add(rt, out, " ", parts as i128);
    add(rt, out, " ", strips as i128);
    add(rt, out, " ", limits as i128);
}

const ACCESSORS: &str = "0 = 3 2 1 3, 20 1 0, 2 1 2 3
1 = 3 2 1 3, 20 1 1, 2 1 2 3
2 = 3 2 1 3, 20 1 1, 2 1 2 3";

struct AccessorCase;

impl Case for AccessorCase {
    fn find(rt: &impl Abort, alloc: Global, unit: &str) -> String {
        let three = problem(rt, alloc, "three");
        accessors(rt, alloc, &three, number(rt, alloc, unit))
    }
}

#[test]
fn accessors_give_what_was_put_in(rt: HostRuntime) {
    walk::<AccessorCase>(&rt, rt.alloc(), ACCESSORS);
}

/// The choice of the alternatives of a text.
pub(crate) fn choice(rt: &impl Abort, alloc: Global, text: &str) -> Choice {
    let numbers = numbers(rt, alloc, text);
    let mut alts = Vec::new(alloc);
    for place in 0..numbers.len() {
        alts.push(small_at(&numbers, place)).expect(rt, "memory");
    }
    Choice::new(alts)
}

// The cost of a choice, the lowest resource above its limit, and whether it fits; or that it is
// none for the problem.
struct JudgedCase;

impl Case for JudgedCase {
    fn find(rt: &impl Abort, alloc: Global, row: &str) -> String {
        let problem = problem(rt, alloc, piece(row, 0));
        let choice = choice(rt, alloc, piece(row, 1));
        judged(rt, alloc, &problem, &choice)
    }
}

fn judged(rt: &impl Abort, alloc: Global, problem: &Problem, choice: &Choice) -> String {
    if !choice.is_for(problem) {
        return String::from_str(alloc, "none").expect(rt, "memory");
    }
    let cost = cost_of(problem, choice);
    let passed = first_passed(alloc, problem, choice).expect(rt, "memory");
    let fits = fits(alloc, problem, choice).expect(rt, "memory");
    format!(in alloc; "{cost} {passed:?} {fits}").expect(rt, "memory")
}

const CHOICES: &str = "three | 1 1 1 = 60 None true
three | 0 1 1 = 40 None true
three | 1 0 1 = 40 None true
three | 0 0 1 = 20 Some(1) false
three | 0 1 0 = 20 Some(0) false
three | 1 0 0 = 20 Some(2) false
three | 0 0 0 = 0 Some(0) false
three | 0 0 2 = none
three | 0 0 = none
three | 0 0 0 0 = none
L | = 0 None true";

#[test]
fn choices_of_small_problems(rt: HostRuntime) {
    walk::<JudgedCase>(&rt, rt.alloc(), CHOICES);
}

// The node of a word: `U` is undone, `O` an over leaf of resource 0, `L` a leaf of vector 0, and a
// number the unit of a split.
fn node(word: &str) -> Node {
    match word {
        "U" => Node::Undone,
        "O" => Node::Over { resource: 0 },
        "L" => leaf(0),
        _ => Node::Split {
            unit: word.parse::<u32>().unwrap_or(9),
            cut: 1,
            seen: None,
        },
    }
}

fn leaf(vector: u32) -> Node {
    Node::Leaf {
        vector,
        scale: 1,
        seen: Some(40),
    }
}

fn nodes(rt: &impl Abort, alloc: Global, text: &str) -> Vec<Node> {
    let mut nodes = Vec::new(alloc);
    for word in text.split_whitespace() {
        nodes.push(node(word)).expect(rt, "memory");
    }
    nodes
}

// Adds the ranges of the units.
fn add_ranges(rt: &impl Abort, out: &mut String, ranges: &Ranges) {
    assert!(rt; ranges.len() == 3, "three ranges");
    for unit in 0..3 {
        let (low, high) = (ranges.low(unit), ranges.high(unit));
        add(rt, out, " ", i128::from(low));
        add(rt, out, "-", i128::from(high));
    }
    out.push_str(",").expect(rt, "memory");
}

// The ranges of the undone nodes of a tree on three units of two alternatives, at most so many, if
// the nodes are one tree.
struct UndoneCase;

impl Case for UndoneCase {
    fn find(rt: &impl Abort, alloc: Global, row: &str) -> String {
        let problem = problem(rt, alloc, "three");
        let nodes = nodes(rt, alloc, piece(row, 0));
        let most = number(rt, alloc, piece(row, 1)) as usize;
        undone(rt, alloc, &problem, &nodes, most)
    }
}

fn undone(
    rt: &impl Abort,
    alloc: Global,
    problem: &Problem,
    nodes: &[Node],
    most: usize,
) -> String {
    let whole = Ranges::whole(alloc, problem).expect(rt, "memory");
    match open_pieces(alloc, whole, nodes, most).expect(rt, "memory") {
        Some(pieces) => ranges_text(rt, alloc, &pieces),
        None => String::from_str(alloc, "none").expect(rt, "memory"),
    }
}

fn ranges_text(rt: &impl Abort, alloc: Global, pieces: &[Ranges]) -> String {
    let mut out = String::new(alloc);
    for ranges in pieces {
        add_ranges(rt, &mut out, ranges);
    }
    out
}

// A tree: the low part of unit 1, then the high parts of units 1 and 0. A whole one. A split of one
// alternative, a node too few and one too many.
const TREES: &str = "1 U 0 O U | 9 = 0-1 0-0 0-1, 1-1 1-1 0-1,
1 U 0 O U | 1 = 0-1 0-0 0-1,
1 O O | 9 =
1 1 O O O | 9 = none
1 O | 9 = none
O O | 9 = none";

#[test]
fn undone_ranges_of_trees(rt: HostRuntime) {
    walk::<UndoneCase>(&rt, rt.alloc(), TREES);
}

#[test]
fn nodes_are_counted(rt: HostRuntime) {
    let alloc = rt.alloc();
    let list = nodes(&rt, alloc, "1 O U L U");
    assert!(rt; list.len() <= 5);
    let tree = Tree::new(list);
    let again = nodes(&rt, alloc, "1 O U L U");
    check_tree(&rt, &tree, &again);
}

fn check_tree(rt: &impl Abort, tree: &Tree, want: &[Node])
    requires { length tree.now ≤ 5 }
{
    assert!(rt; tree.items() == want);
    assert!(rt; are_counted(tree));
}

// Whether three nodes of a tree count, and the greatest vector that its leaves and some others
// name.
fn are_counted(tree: &Tree) -> bool
    requires { length tree.now ≤ 5 }
{
    count_nodes(tree) == 3
        && greatest_named(tree.items()) == 0
        && greatest_named(&[leaf(3), Node::Undone, leaf(7), leaf(1)]) == 7
}
