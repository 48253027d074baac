//! Searches of plain problems: worked rows, budgets, numbers of workers, and what is handed in.

ghost use Rattle.std.specs.Prelude.{◌≤◌, IfSome, length};
ghost use Rattle.choice_problem.specs.Choices.{IsFeasible};
ghost use Rattle.choice_problem.specs.Bounds.{IsVector};
ghost use Rattle.search_workers.specs.Outcomes.{AreFurther};

use choice_problem::{
    Alt, Choice, Chooser, Node, Part, Price, Problem, Strip, Tree, Vector, VectorList, cost_of,
    fits,
};
use search_workers::{Outcome, search, search_from};
use std::alloc::Global;
use std::process::Abort;
use std::sync::atomic::{AtomicU64, Ordering};
use std::thread::Threads;
use worker_gate::{Gate, RealGate};

fn alt(cost: u64, one: Option<u32>) -> Alt {
    Alt {
        cost,
        one,
        two: None,
    }
}

fn once(resource: u32) -> Strip {
    Strip {
        first: resource,
        width: 1,
        gap: 0,
        times: 1,
    }
}

// A unit of these parts and alternatives, if it is allowed.
fn chooser(rt: &impl Abort, parts: Vec<Part>, alts: Vec<Alt>) -> Chooser {
    assert!(rt; Chooser::allows(&parts, &alts), "no unit");
    Chooser::new(parts, alts)
}

// A unit of one part.
fn unit(rt: &impl Abort, alloc: Global, strips: &[Strip], alts: Vec<Alt>) -> Chooser {
    let strips = Vec::from_slice(alloc, strips).expect(rt, "memory");
    let parts = vec![in alloc; Part::new(strips)].expect(rt, "memory");
    chooser(rt, parts, alts)
}

// The problem of units, with one limit for so many resources.
fn evenly(rt: &impl Abort, alloc: Global, units: Vec<Chooser>, limit: i64, count: u32) -> Problem {
    let limits = vec![in alloc; limit; count as usize].expect(rt, "memory");
    problem(rt, units, limits)
}

fn problem(rt: &impl Abort, units: Vec<Chooser>, limits: Vec<i64>) -> Problem {
    assert!(rt; Problem::allows(&units, &limits), "no problem");
    Problem::new(units, limits)
}

// Two units that want one place each, of which there is one.
fn crowd(rt: &impl Abort, alloc: Global) -> Problem {
    let mut units = Vec::new(alloc);
    for _ in 0..2 {
        let alts = vec![in alloc; alt(0, Some(0))].expect(rt, "memory");
        let unit = unit(rt, alloc, &[once(0)], alts);
        units.push(unit).expect(rt, "memory");
    }
    evenly(rt, alloc, units, 1, 1)
}

// A unit that uses these strips for nothing, or pays a price.
fn payer(rt: &impl Abort, alloc: Global, strips: &[Strip], price: u64) -> Chooser {
    let alts = vec![in alloc; alt(0, Some(0)), alt(price, None)].expect(rt, "memory");
    unit(rt, alloc, strips, alts)
}

// Three units of which each two exclude each other: each uses two of three resources with limit 1,
// or pays 20.
fn three(rt: &impl Abort, alloc: Global) -> Problem {
    let mut units = Vec::new(alloc);
    for (one, two) in [(0, 1), (1, 2), (0, 2)] {
        let unit = payer(rt, alloc, &[once(one), once(two)], 20);
        units.push(unit).expect(rt, "memory");
    }
    evenly(rt, alloc, units, 1, 3)
}

// One unit on so many dates, whose times lie 5 minutes apart, the requested one in the middle; from
// half an hour before to 25 minutes after it they use a window that is full on each date.
fn shifted(rt: &impl Abort, alloc: Global, dates: u32) -> Problem {
    let strip = Strip {
        first: 0,
        width: 1,
        gap: 1,
        times: dates,
    };
    let alts = shifted_alts(rt, alloc, dates);
    let unit = unit(rt, alloc, &[strip], alts);
    let units = vec![in alloc; unit].expect(rt, "memory");
    evenly(rt, alloc, units, 0, dates)
}

fn shifted_alts(rt: &impl Abort, alloc: Global, dates: u32) -> Vec<Alt> {
    let mut alts = Vec::new(alloc);
    for place in 0..25u64 {
        let minutes = 5 * place.abs_diff(12);
        let held = 6 <= place && place < 18;
        let alt = alt(
            minutes * u64::from(dates),
            if held { Some(0) } else { None },
        );
        alts.push(alt).expect(rt, "memory");
    }
    alts
}

// The place after this one in a ring.
fn after(place: u32, count: u32) -> u32 {
    let next = place.saturating_add(1);
    if next == count { 0 } else { next }
}

// So many units in a ring, each of which excludes the next one and the one after it, or pays a
// price of its own.
fn ring(rt: &impl Abort, alloc: Global, count: u32) -> Problem {
    let mut units = Vec::new(alloc);
    for place in 0..count {
        let next = after(place, count);
        let later = after(next, count);
        let price = u64::from(place).wrapping_mul(u64::from(place)) % 7 + 20;
        let unit = payer(rt, alloc, &[once(place), once(next), once(later)], price);
        units.push(unit).expect(rt, "memory");
    }
    evenly(rt, alloc, units, 1, count)
}

fn seen_text(seen: Option<u64>) -> i64 {
    match seen {
        Some(cost) if cost < 1_000_000 => cost as i64,
        _ => -1,
    }
}

// Adds a node of a tree: S unit cut seen, L vector scale seen, O resource, U; -1 stands for none.
fn put_node(rt: &impl Abort, text: &mut String, node: Node) {
    match node {
        Node::Split { unit, cut, seen } => put_seen(rt, text, 'S', unit, u64::from(cut), seen),
        Node::Leaf {
            vector,
            scale,
            seen,
        } => put_seen(rt, text, 'L', vector, scale, seen),
        Node::Over { resource } => write!(text, " O {resource}").expect(rt, "memory"),
        Node::Undone => text.push_str(" U").expect(rt, "memory"),
    }
}

fn put_seen(rt: &impl Abort, text: &mut String, mark: char, one: u32, two: u64, seen: Option<u64>) {
    let seen = seen_text(seen);
    write!(text, " {mark} {one} {two} {seen}").expect(rt, "memory");
}

// Adds how many vectors there are, and the nodes of the tree.
fn put_tree(rt: &impl Abort, text: &mut String, outcome: &Outcome) {
    write!(text, " {}", vectors_of(outcome).items().len()).expect(rt, "memory");
    for node in tree_of(outcome).items() {
        put_node(rt, text, *node);
    }
}

// The mark, the cost, the number of vectors, and the tree where it is short.
fn outcome_text(
    rt: &impl Abort,
    alloc: Global,
    problem: &Problem,
    outcome: &Outcome,
    tree: bool,
) -> String {
    let mut text = String::new(alloc);
    put_mark(rt, &mut text, problem, outcome);
    if tree {
        put_tree(rt, &mut text, outcome);
    }
    text
}

fn put_mark(rt: &impl Abort, text: &mut String, problem: &Problem, outcome: &Outcome) {
    match outcome {
        Outcome::Optimal { cost, .. } => write!(text, "OPTIMAL {cost}").expect(rt, "memory"),
        Outcome::Infeasible { .. } => text.push_str("INFEASIBLE").expect(rt, "memory"),
        Outcome::Spent { best, .. } => put_spent(rt, text, problem, best),
    }
}

fn put_spent(rt: &impl Abort, text: &mut String, problem: &Problem, best: &Option<Choice>) {
    match best {
        Some(choice) if choice.is_for(problem) => {
            write!(text, "SPENT {}", cost_of(problem, choice)).expect(rt, "memory")
        }
        _ => text.push_str("SPENT NONE").expect(rt, "memory"),
    }
}

// What so many workers find.
fn found<R: Abort + Threads + Sync, G: Gate>(
    rt: &R,
    alloc: Global,
    problem: &Problem,
    budget: u32,
    workers: u32,
    gate: &G,
) -> Outcome {
    search(rt, alloc, problem, budget, workers.clamp(1, 16), gate).expect(rt, "memory")
}

fn searched<R: Abort + Threads + Sync>(
    rt: &R,
    alloc: Global,
    problem: &Problem,
    budget: u32,
    workers: u32,
    tree: bool,
) -> String {
    let outcome = found(rt, alloc, problem, budget, workers, &RealGate);
    outcome_text(rt, alloc, problem, &outcome, tree)
}

// The problem of a row.
fn named(rt: &impl Abort, alloc: Global, name: &str) -> Problem {
    match name {
        "empty" => problem(rt, Vec::new(alloc), Vec::new(alloc)),
        "crowd" => crowd(rt, alloc),
        "shifted" => shifted(rt, alloc, 210),
        _ => three(rt, alloc),
    }
}

#[test]
fn worked_rows(rt: HostRuntime) {
    for (name, budget, workers, tree, want) in [
        ("empty", 100, 4, true, "OPTIMAL 0 0 L 0 1 0"),
        ("crowd", 100, 4, true, "INFEASIBLE 0 O 0"),
        ("shifted", 100, 4, true, "OPTIMAL 6300 1 L 1 1024 6300"),
        ("three", 1, 1, true, "SPENT 40 1 S 0 1 40 U U"),
        ("three", 0, 1, true, "SPENT 40 0 U"),
        ("three", 1, 16, true, "SPENT 40 1 S 0 1 40 U U"),
        ("three", 15, 1, false, "OPTIMAL 40"),
    ] {
        check_named(&rt, rt.alloc(), name, budget, workers, tree, want);
    }
}

fn check_named<R: Abort + Threads + Sync>(
    rt: &R,
    alloc: Global,
    name: &str,
    budget: u32,
    workers: u32,
    tree: bool,
    want: &str,
) {
    let problem = named(rt, alloc, name);
    let text = searched(rt, alloc, &problem, budget, workers, tree);
    assert!(rt;
        text.as_str() == want,
        "{name}, {budget}: {text}, not {want}"
    );
}

// What is found by several workers is what one finds: the least costs are those of all choices,
// tried one by one.
#[test]
fn any_number_of_workers(rt: HostRuntime) {
    for (count, want) in [(5, "OPTIMAL 85"), (8, "OPTIMAL 126"), (12, "OPTIMAL 172")] {
        let problem = ring(&rt, rt.alloc(), count);
        check_workers(&rt, rt.alloc(), &problem, want);
    }
}

fn check_workers<R: Abort + Threads + Sync>(rt: &R, alloc: Global, problem: &Problem, want: &str) {
    for workers in [1, 2, 4, 16] {
        let text = searched(rt, alloc, problem, 100_000, workers, false);
        assert!(rt;
            text.as_str() == want,
            "{workers} workers: {text}, not {want}"
        );
    }
}

fn vectors_of(outcome: &Outcome) -> &VectorList {
    match outcome {
        Outcome::Optimal { vectors, .. } => vectors,
        Outcome::Infeasible { vectors, .. } => vectors,
        Outcome::Spent { vectors, .. } => vectors,
    }
}

fn tree_of(outcome: &Outcome) -> &Tree {
    match outcome {
        Outcome::Optimal { tree, .. } => tree,
        Outcome::Infeasible { tree, .. } => tree,
        Outcome::Spent { tree, .. } => tree,
    }
}

// How many nodes but undone ones.
fn visits(outcome: &Outcome) -> u32 {
    let mut count: u32 = 0;
    for node in tree_of(outcome).items() {
        if *node != Node::Undone {
            count = count.saturating_add(1);
        }
    }
    count
}

// A budget is spent to its last visit, and one that is just enough is enough.
#[test]
fn budgets(rt: HostRuntime) {
    let problem = ring(&rt, rt.alloc(), 8);
    check_budgets(&rt, rt.alloc(), &problem);
}

fn check_budgets<R: Abort + Threads + Sync>(rt: &R, alloc: Global, problem: &Problem) {
    let needed = visits_of(rt, alloc, problem);
    let less = needed.saturating_sub(1);
    for (budget, count, want) in [
        (0, 0, "SPENT 132"),
        (1, 1, "SPENT 132"),
        (2, 2, "SPENT 132"),
        (3, 3, "SPENT 132"),
        (less, less, "SPENT 126"),
        (needed, needed, "OPTIMAL 126"),
        (u32::MAX, needed, "OPTIMAL 126"),
    ] {
        check_budget(rt, alloc, problem, budget, count, want);
    }
}

// A budget ends so, with so many visits.
fn check_budget<R: Abort + Threads + Sync>(
    rt: &R,
    alloc: Global,
    problem: &Problem,
    budget: u32,
    count: u32,
    want: &str,
) {
    let outcome = found(rt, alloc, problem, budget, 1, &RealGate);
    check_spent(rt, alloc, problem, &outcome, budget, count, want);
}

fn check_spent(
    rt: &impl Abort,
    alloc: Global,
    problem: &Problem,
    outcome: &Outcome,
    budget: u32,
    count: u32,
    want: &str,
) {
    let visits = visits(outcome);
    assert!(rt;
        visits == count,
        "a budget of {budget} has {visits} visits, not {count}"
    );
    let text = outcome_text(rt, alloc, problem, outcome, false);
    assert!(rt;
        text.as_str() == want,
        "a budget of {budget} has {text}, not {want}"
    );
}

// How many visits a problem needs.
fn visits_of<R: Abort + Threads + Sync>(rt: &R, alloc: Global, problem: &Problem) -> u32 {
    let whole = found(rt, alloc, problem, 100_000, 1, &RealGate);
    visits(&whole)
}

// An outcome has this text, without its tree.
fn check_text(rt: &impl Abort, alloc: Global, problem: &Problem, outcome: &Outcome, want: &str) {
    let text = outcome_text(rt, alloc, problem, outcome, false);
    assert!(rt; text.as_str() == want, "{text}, not {want}");
}

// Three units, each of which takes one of two places.
fn places(rt: &impl Abort, alloc: Global) -> Problem {
    let mut units = Vec::new(alloc);
    for _ in 0..3 {
        units.push(seat(rt, alloc, &[0, 0])).expect(rt, "memory");
    }
    evenly(rt, alloc, units, 1, 2)
}

// A unit that takes one of the first places, at these costs.
fn seat(rt: &impl Abort, alloc: Global, costs: &[u64]) -> Chooser {
    let parts = place_parts(rt, alloc, costs.len());
    let alts = place_alts(rt, alloc, costs);
    chooser(rt, parts, alts)
}

fn place_parts(rt: &impl Abort, alloc: Global, count: usize) -> Vec<Part> {
    let mut parts = Vec::new(alloc);
    for place in 0..count {
        let place = u32::try_from(place).expect(rt, "a place");
        let strips = vec![in alloc; once(place); 1].expect(rt, "memory");
        parts.push(Part::new(strips)).expect(rt, "memory");
    }
    parts
}

fn place_alts(rt: &impl Abort, alloc: Global, costs: &[u64]) -> Vec<Alt> {
    let mut alts = Vec::new(alloc);
    for (place, cost) in costs.iter().enumerate() {
        let place = u32::try_from(place).expect(rt, "a place");
        alts.push(alt(*cost, Some(place))).expect(rt, "memory");
    }
    alts
}

// The list of one small vector of a problem.
fn one_further(rt: &impl Abort, alloc: Global, problem: &Problem, vector: Vector) -> Vec<Vector>
    ensures { AreFurther problem.now result.items }
{
    assert!(rt; vector.is_for(problem), "no prices of the problem");
    assert!(rt; vector.items().len() <= 2, "too many prices");
    vec_of(rt, alloc, problem, vector)
}

fn vec_of(rt: &impl Abort, alloc: Global, _problem: &Problem, vector: Vector) -> Vec<Vector>
    requires vector { IsVector _problem.now vector }
    requires few { length vector ≤ 2 }
    ensures { AreFurther _problem.now result.items }
{
    let mut further = Vec::new(alloc);
    further.push(vector).expect(rt, "memory");
    further
}

// A choice of these alternatives, if it is feasible.
fn feasible(rt: &impl Abort, alloc: Global, problem: &Problem, alts: &[u32]) -> Choice
    ensures { IsFeasible problem.now result }
{
    let choice = Choice::new(Vec::from_slice(alloc, alts).expect(rt, "memory"));
    assert!(rt; choice.is_for(problem), "no choice");
    let fits = fits(alloc, problem, &choice).expect(rt, "memory");
    assert!(rt; fits, "does not fit");
    choice
}

// What is found with a choice and vectors that are handed in.
fn handed_in<R: Abort + Threads + Sync>(
    rt: &R,
    alloc: Global,
    problem: &Problem,
    budget: u32,
    start: Option<Choice>,
    further: Vec<Vector>,
) -> String
    requires start { IfSome start (IsFeasible problem.now) }
    requires further { AreFurther problem.now further.items }
{
    let outcome = search_from(rt, alloc, problem, budget, 1, &RealGate, start, further).expect(
        rt, "memory",
    );
    outcome_text(rt, alloc, problem, &outcome, true)
}

// A vector of the price 1 for each of two resources shows at scale 0 that three units have no room
// in two places.
#[test]
fn a_vector_handed_in(rt: HostRuntime) {
    let problem = places(&rt, rt.alloc());
    let text = with_vector(&rt, rt.alloc(), &problem);
    assert_eq!(rt; text.as_str(), "INFEASIBLE 2 L 2 0 -1");
}

fn with_vector<R: Abort + Threads + Sync>(rt: &R, alloc: Global, problem: &Problem) -> String {
    let prices = vec![in alloc; price_of_one(0), price_of_one(1)].expect(rt, "memory");
    let further = one_further(rt, alloc, problem, Vector::new(prices));
    handed_in(rt, alloc, problem, 100, None, further)
}

fn price_of_one(resource: u32) -> Price {
    Price { resource, price: 1 }
}

// The cost of a choice that is handed in is recorded by the first visit, and the result costs no
// more.
#[test]
fn a_choice_handed_in(rt: HostRuntime) {
    let problem = ring(&rt, rt.alloc(), 5);
    let text = with_choice(&rt, rt.alloc(), &problem);
    assert_eq!(rt; text.as_str(), "SPENT 85 1 S 0 1 85 U U");
}

fn with_choice<R: Abort + Threads + Sync>(rt: &R, alloc: Global, problem: &Problem) -> String {
    let choice = feasible(rt, alloc, problem, &[1, 1, 0, 1, 1]);
    handed_in(rt, alloc, problem, 1, Some(choice), Vec::new(alloc))
}

// Holds each of two workers at its first node until the other has come to so many of its own, for a
// limited number of turns.
#[derive(Drop)]
struct Meeting {
    wanted: [u64; 2],
    came: [AtomicU64; 2],
    met: AtomicU64,
}

impl Meeting {
    // Worker 0 waits for so many nodes of worker 1, and worker 1 for so many of worker 0.
    fn of(of_one: u64, of_zero: u64) -> Meeting {
        Meeting {
            wanted: [of_one, of_zero],
            came: [AtomicU64::new(0), AtomicU64::new(0)],
            met: AtomicU64::new(0),
        }
    }
}

const TURNS: u64 = 400_000_000;

impl Gate for Meeting {
    fn before_node(&self, worker: u32) {
        let place = (worker % 2) as usize;
        if self.came[place].fetch_add(1, Ordering::SeqCst) > 0 {
            return;
        }
        for _ in 0..TURNS {
            if self.came[1 - place].load(Ordering::SeqCst) >= self.wanted[place] {
                self.met.fetch_add(1, Ordering::SeqCst);
                return;
            }
        }
    }

    fn before_line(&self, _worker: u32) {}
}

#[test]
fn two_workers_meet(rt: HostRuntime) {
    let problem = ring(&rt, rt.alloc(), 12);
    let gate = Meeting::of(1, 1);
    check_meeting(&rt, rt.alloc(), &problem, &gate);
}

fn check_meeting<R: Abort + Threads + Sync>(
    rt: &R,
    alloc: Global,
    problem: &Problem,
    gate: &Meeting,
) {
    let outcome = found(rt, alloc, problem, 100_000, 2, gate);
    check_text(rt, alloc, problem, &outcome, "OPTIMAL 172");
    let met = gate.met.load(Ordering::SeqCst);
    assert!(rt; met == 2, "{met} workers met, not 2");
}

// Four units, each of which takes one of four places at a cost of its own.
fn seated(rt: &impl Abort, alloc: Global) -> Problem {
    let mut units = Vec::new(alloc);
    for costs in [[0, 10, 7, 4], [1, 10, 6, 2], [2, 10, 5, 0], [3, 10, 4, 11]] {
        units.push(seat(rt, alloc, &costs)).expect(rt, "memory");
    }
    evenly(rt, alloc, units, 1, 4)
}

// The place behind the tree that begins at a place of a list of nodes.
fn behind(nodes: &[Node], place: usize) -> usize {
    let mut open: u32 = 1;
    for at in place..nodes.len() {
        open = match nodes[at] {
            Node::Split { .. } => open.saturating_add(1),
            _ => open.saturating_sub(1),
        };
        if open == 0 {
            return at + 1;
        }
    }
    nodes.len()
}

// What is recorded at the nodes of a whole tree that stand where a shorter one has undone nodes.
fn seen_at_pieces(rt: &impl Abort, alloc: Global, short: &[Node], whole: &[Node]) -> Vec<i64> {
    let mut costs = Vec::new(alloc);
    let mut at: usize = 0;
    for node in short {
        if *node != Node::Undone {
            at = at.saturating_add(1);
        } else if at < whole.len() {
            costs.push(recorded(&whole[at])).expect(rt, "memory");
            at = behind(whole, at);
        }
    }
    costs
}

fn recorded(node: &Node) -> i64 {
    match *node {
        Node::Split { seen, .. } => seen_text(seen),
        Node::Leaf { seen, .. } => seen_text(seen),
        _ => -1,
    }
}

// Worker 0 begins when worker 1 has come to its first node, and worker 1 goes on when worker 0 has
// come to its sixth: in either of the first two pieces it has then posted a cost below that of the
// greedy choice, 17. So one of their first nodes records 17, and the other, at which worker 1
// stood, less.
#[test]
fn a_worker_reads_what_another_posted(rt: HostRuntime) {
    let problem = seated(&rt, rt.alloc());
    let gate = Meeting::of(1, 6);
    let outcome = found(&rt, rt.alloc(), &problem, 1_000, 2, &gate);
    let met = gate.met.load(Ordering::SeqCst);
    assert!(rt; met == 2, "{met} workers met, not 2");
    check_with_opening(&rt, rt.alloc(), &problem, &outcome);
}

fn check_with_opening<R: Abort + Threads + Sync>(
    rt: &R,
    alloc: Global,
    problem: &Problem,
    outcome: &Outcome,
) {
    let opening = found(rt, alloc, problem, 13, 2, &RealGate);
    check_posted(rt, alloc, problem, &opening, outcome);
}

fn check_posted(
    rt: &impl Abort,
    alloc: Global,
    problem: &Problem,
    opening: &Outcome,
    outcome: &Outcome,
) {
    check_text(rt, alloc, problem, opening, "SPENT 17");
    check_text(rt, alloc, problem, outcome, "OPTIMAL 14");
    let costs = seen_at_pieces(
        rt,
        alloc,
        tree_of(opening).items(),
        tree_of(outcome).items(),
    );
    check_costs(rt, &costs);
}

// What two workers that meet so record at the pieces of the opening.
fn check_costs(rt: &impl Abort, costs: &[i64]) {
    assert!(rt; costs.len() == 8, "not eight pieces");
    let (one, other) = (costs[0], costs[1]);
    let (least, most) = (one.min(other), one.max(other));
    assert!(rt;
        14 <= least && least < 17 && most == 17,
        "{least} and {most}"
    );
}

// More visits than the pieces of one round can make: the four of the first have at most 1,024 each.
#[test]
fn more_than_one_round(rt: HostRuntime) {
    let problem = ring(&rt, rt.alloc(), 25);
    let outcome = found(&rt, rt.alloc(), &problem, 10_000, 1, &RealGate);
    check_rounds(&rt, &outcome);
}

fn check_rounds(rt: &impl Abort, outcome: &Outcome) {
    let count = visits(outcome);
    assert!(rt; matches!(outcome, Outcome::Optimal { .. }), "{count}");
    assert!(rt; count >= 6000, "{count}");
}
