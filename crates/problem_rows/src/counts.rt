//! Counts over six resources.

ghost use Rattle.std.specs.Prelude.{◌≡◌, ℕ, ◌≤◌, length, IsTrue};
ghost use Rattle.choice_problem.specs.Strips.{part_uses, IsPartInRange};

use crate::problems::{limits, strips};
use crate::texts::{Case, add, numbers, piece, small_at, walk};
use choice_problem::{Part, Strip, strip_list};
use std::alloc::Global;
use std::process::Abort;
use window_counts::Counts;

// Whether the strips use no resource more than 400 times.
fn is_small(strips: &[Strip]) -> bool
    ensures { IsTrue result → (r : ℕ) → part_uses strips.now r ≤ 400 }
{
    strip_list();
    for strip in strips {
        if strip.times > 10 {
            return false;
        }
    }
    strips.len() <= 40
}

// A part of few uses within six resources.
fn part(rt: &impl Abort, alloc: Global, text: &str) -> Part
    ensures few { (r : ℕ) → part_uses result r ≤ 400 }
    ensures there { IsPartInRange 6 result }
{
    let strips = strips(rt, alloc, &numbers(rt, alloc, text));
    let small = is_small(&strips);
    let part = Part::new(strips);
    assert!(rt;
        small && part.is_within(6),
        "a part of few uses of six resources"
    );
    part
}

// Adds the six counts to a text.
fn add_counts(rt: &impl Abort, out: &mut String, counts: &Counts)
    requires { length counts.now ≡ 6 }
{
    for resource in 0..6 {
        add(rt, out, " ", i128::from(counts.count(resource)));
    }
    out.push_str(",").expect(rt, "memory");
}

// The counts of nothing, then with each of two parts added, of which a copy is kept, then with the
// first one taken away.
struct StepCase;

impl Case for StepCase {
    fn find(rt: &impl Abort, alloc: Global, row: &str) -> String {
        let first = part(rt, alloc, piece(row, 0));
        let second = part(rt, alloc, piece(row, 1));
        let mut out = String::new(alloc);
        add_steps(rt, alloc, &mut out, &first, &second);
        out
    }
}

fn add_steps(rt: &impl Abort, alloc: Global, out: &mut String, first: &Part, second: &Part)
    requires first { IsPartInRange 6 first.now × ((r : ℕ) → part_uses first.now r ≤ 400) }
    requires second { IsPartInRange 6 second.now × ((r : ℕ) → part_uses second.now r ≤ 400) }
{
    let mut counts = Counts::of(alloc, &[], 6).expect(rt, "memory");
    add_counts(rt, out, &counts);
    counts.add(first);
    add_counts(rt, out, &counts);
    counts.add(second);
    let both = counts.copy(alloc).expect(rt, "memory");
    counts.take(first);
    add_counts(rt, out, &both);
    add_counts(rt, out, &counts);
}

// Runs that overlap, and one resource four times beside another once. Runs apart, strips of no
// width, and two strips on the same resources.
const STEPS: &str =
    "0 2 1 3 0 0 0 0 | 2 1 0 4 5 1 0 1 = 0 0 0 0 0 0, 1 2 2 1 0 0, 1 2 6 1 0 1, 0 0 4 0 0 1,
0 1 3 2 4 0 1 2 | 0 6 0 1 3 3 3 1 = 0 0 0 0 0 0, 1 0 0 1 0 0, 2 1 1 3 2 2, 1 1 1 2 2 2,";

#[test]
fn counts_follow_what_is_added_and_taken(rt: HostRuntime) {
    walk::<StepCase>(&rt, rt.alloc(), STEPS);
}

// Whether the second of two parts fits beside the first one, and the lowest resource that the first
// one alone takes above its limit.
struct FittingCase;

impl Case for FittingCase {
    fn find(rt: &impl Abort, alloc: Global, row: &str) -> String {
        let limits = limits(rt, alloc, &numbers(rt, alloc, row));
        assert!(rt; limits.len() == 6, "six limits");
        let (fits, over) = fitted(rt, alloc, &limits);
        format!(in alloc; "{fits} {over:?}").expect(rt, "memory")
    }
}

fn fitted(rt: &impl Abort, alloc: Global, limits: &[i64]) -> (bool, Option<u32>)
    requires { length limits.now ≡ 6 }
{
    let parts = vec![in alloc; part(rt, alloc, "0 2 1 3")].expect(rt, "memory");
    let second = part(rt, alloc, "2 1 0 4 5 1 0 1");
    let mut counts = Counts::of(alloc, &parts, 6).expect(rt, "memory");
    let over = counts.first_over(limits);
    let fits = counts.add_if_fits(Some(&second), None, limits);
    (fits, over)
}

// Counts 1, 2, 2, 1, 0, 0; further uses 0, 0, 4, 0, 0, 1. What the part does not use is not asked.
const LIMITS: &str = "1 2 6 1 0 1 = true None
1 2 5 1 0 1 = false None
1 2 6 1 0 0 = false None
9 9 9 9 9 -1 = false Some(5)
0 0 6 0 -1 1 = true Some(0)
1 1 1 1 0 1 = false Some(1)
1 2 2 0 0 1 = false Some(3)
1 2 2 1 -1 1 = false Some(4)";

#[test]
fn parts_fit_up_to_the_limit(rt: HostRuntime) {
    walk::<FittingCase>(&rt, rt.alloc(), LIMITS);
}

// Whether what is left has one use for a part, and two for each resource that it shares with
// another part; the same of the numbers copied over other counts.
struct LeftCase;

impl Case for LeftCase {
    fn find(rt: &impl Abort, alloc: Global, row: &str) -> String {
        let left = left_of(rt, alloc, row);
        let mut kept = Counts::of(alloc, &[], 6).expect(rt, "memory");
        kept.copy_from(&left);
        let (one, two) = served(rt, alloc, &left, &kept);
        format!(in alloc; "{one} {two} {}", kept.count(5)).expect(rt, "memory")
    }
}

// The six numbers of a text as counts.
fn left_of(rt: &impl Abort, alloc: Global, text: &str) -> Counts
    ensures { length result ≡ 6 }
{
    let given = numbers(rt, alloc, text);
    let mut left = Vec::new(alloc);
    for place in 0..6 {
        left.push(small_at(&given, place)).expect(rt, "memory");
    }
    assert!(rt; left.len() == 6, "six numbers");
    Counts::with(left)
}

fn served(rt: &impl Abort, alloc: Global, left: &Counts, kept: &Counts) -> (bool, bool)
    requires { (length left.now ≡ 6) × (length kept.now ≡ 6) }
{
    let first = part(rt, alloc, "0 2 1 3");
    let second = part(rt, alloc, "2 1 0 1 5 1 0 1");
    (left.has_one(&first), kept.has_two(&first, &second))
}

// The first part uses resources 0 to 3, the second 2 and 5, so both share resource 2.
const LEFT: &str = "1 1 2 1 0 0 = true true 0
1 1 1 1 0 9 = true false 9
1 1 2 0 0 1 = false true 1
0 1 0 1 5 5 = false false 5";

#[test]
fn what_is_left_serves_parts(rt: HostRuntime) {
    walk::<LeftCase>(&rt, rt.alloc(), LEFT);
}
