//! Reductions: which resources are kept, who uses them, and what the parts use.

use crate::draws::{Draws, choices_of, drawn, numbered};
use crate::problems::problem;
use crate::texts::{Case, add, walk};
use choice_problem::{Alt, Choice, Problem, fits};
use reduced_problem::Reduced;
use std::alloc::Global;
use std::process::Abort;

// The classes with their users, and what each part uses.
struct KeptCase;

impl Case for KeptCase {
    fn find(rt: &impl Abort, alloc: Global, text: &str) -> String {
        let problem = problem(rt, alloc, text);
        let kept = Reduced::of(alloc, &problem).expect(rt, "memory");
        shown(rt, alloc, &kept)
    }
}

fn shown(rt: &impl Abort, alloc: Global, kept: &Reduced) -> String {
    let mut out = String::new(alloc);
    add_classes(rt, &mut out, kept);
    out.push_str("/").expect(rt, "memory");
    for part in 0..kept.parts() {
        add_uses(rt, &mut out, kept, part);
    }
    out
}

// The classes with their limits and their users.
fn add_classes(rt: &impl Abort, out: &mut String, kept: &Reduced) {
    for (number, class) in kept.classes().iter().enumerate() {
        add(rt, out, "", i128::from(class.resource));
        add(rt, out, " to ", i128::from(class.limit));
        out.push_str(":").expect(rt, "memory");
        add_users(rt, out, kept, number);
        out.push_str(" ").expect(rt, "memory");
    }
}

// The users of a class: from part to part, and how often.
fn add_users(rt: &impl Abort, out: &mut String, kept: &Reduced, class: usize) {
    assert!(rt; class <= 1_000, "class {class}");
    for run in kept.users(class as u32) {
        add(rt, out, " ", i128::from(run.first));
        add(rt, out, "-", i128::from(run.end));
        add(rt, out, "*", i128::from(run.uses));
    }
}

// What a part uses: classes, and how often.
fn add_uses(rt: &impl Abort, out: &mut String, kept: &Reduced, part: u32) {
    for class_use in kept.part_uses(part) {
        add(rt, out, " ", i128::from(class_use.class));
        add(rt, out, "*", i128::from(class_use.uses));
    }
    out.push_str(",").expect(rt, "memory");
}

// In turn: three resources with two users each. A limit that holds both users, and one that does
// not. Equal users, of which the least limit stands for all. Users among those of another with as
// low a limit, and with a higher one. Uses on three dates in one resource. Parts of one unit that
// follow one another, whose unit uses the resource once, in a unit alone and in two. Two parts of
// one alternative, and a part with one strip twice. A resource in the middle of runs.
const KEPT: &str =
    "three = 0 to 1: 0-1*1 2-3*1 1 to 1: 0-1*1 1-2*1 2 to 1: 1-2*1 2-3*1 / 0*1 1*1, 1*1 2*1, 0*1 2*1,
P 0 1 0 1; A 0 0 -; U; P 0 1 0 1; A 0 0 -; U; L 2 = /,,
pair = 0 to 1: 0-1*1 1-2*1 / 0*1, 0*1,
P 0 3 0 1; A 0 0 -; U; P 0 3 0 1; A 0 0 -; U; L 1 1 0 = 2 to 0: 0-1*1 1-2*1 / 0*1, 0*1,
P 0 2 0 1; A 0 0 -; U; P 0 2 0 1; A 0 0 -; U; P 1 1 0 1; A 0 0 -; U; L 1 1 = 1 to 1: 0-1*1 1-2*1 2-3*1 / 0*1, 0*1, 0*1,
P 0 2 0 1; A 0 0 -; U; P 0 2 0 1; A 0 0 -; U; P 1 1 0 1; A 0 0 -; U; L 1 2 = 0 to 1: 0-1*1 1-2*1 1 to 2: 0-1*1 1-2*1 2-3*1 / 0*1 1*1, 0*1 1*1, 1*1,
P 0 1 0 3; A 0 0 -; U; P 0 1 0 3; A 0 - 0; U; L 5 = 0 to 5: 0-1*3 1-2*3 / 0*3, 0*3,
P 0 2 1 1; P 1 2 1 1; P 2 2 1 1; A 0 0 -; A 1 1 -; A 2 2 -; U; L 1 1 1 1 = /,,,
P 0 1 1 1; P 0 1 1 1; A 0 0 -; A 1 1 -; U; P 0 1 1 1; P 0 1 1 1; A 0 0 -; A 1 1 -; U; L 1 = 0 to 1: 0-2*1 2-4*1 / 0*1, 0*1, 0*1, 0*1,
P 0 1 1 1; P 0 1 1 1; A 0 0 1; U; L 1 = 0 to 1: 0-2*1 / 0*1, 0*1,
P 0 1 1 1 0 1 1 1; A 0 0 -; U; L 1 = 0 to 1: 0-1*2 / 0*2,
P 0 2 3 3; A 0 0 -; U; P 4 1 1 1; A 0 0 -; U; L 1 1 1 1 1 1 1 1 = 4 to 1: 0-1*1 1-2*1 / 0*1, 0*1,";

#[test]
fn what_cannot_be_passed_is_left_out(rt: HostRuntime) {
    walk::<KeptCase>(&rt, rt.alloc(), KEPT);
}

// How often a unit's alternative uses a class.
fn class_uses(kept: &Reduced, unit: u32, alt: &Alt, class: usize) -> u64 {
    let first = kept.first_part(unit);
    part_class_uses(kept, first, alt.one, class).saturating_add(part_class_uses(
        kept, first, alt.two, class,
    ))
}

fn part_class_uses(kept: &Reduced, first: u32, part: Option<u32>, class: usize) -> u64 {
    let Some(part) = part else {
        return 0;
    };
    for class_use in kept.part_uses(first.saturating_add(part)) {
        if class_use.class as usize == class {
            return u64::from(class_use.uses);
        }
    }
    0
}

// How often a choice uses a class.
fn class_load(problem: &Problem, kept: &Reduced, choice: &[u32], class: usize) -> u64 {
    let mut load = 0_u64;
    for unit in 0..problem.units() {
        let chosen = small_place(choice, unit as usize);
        if let Some(alt) = problem.unit_alts(unit).get(chosen) {
            load = load.saturating_add(class_uses(kept, unit, alt, class));
        }
    }
    load
}

fn small_place(choice: &[u32], unit: usize) -> usize {
    if unit < choice.len() {
        choice[unit] as usize
    } else {
        0
    }
}

// Whether a choice is within the limits of all classes.
fn fits_classes(problem: &Problem, kept: &Reduced, choice: &[u32]) -> bool {
    for (number, class) in kept.classes().iter().enumerate() {
        let load = class_load(problem, kept, choice, number);
        if i128::from(load) > i128::from(class.limit) {
            return false;
        }
    }
    true
}

/// Whether each choice of a problem fits exactly where it is within the limits of all classes.
pub(crate) fn agrees(rt: &impl Abort, alloc: Global, problem: &Problem, kept: &Reduced) -> bool {
    for number in 0..choices_of(problem) {
        if !agrees_at(rt, alloc, problem, kept, number) {
            return false;
        }
    }
    true
}

// The same of the choice of a number, if it is one.
fn agrees_at(
    rt: &impl Abort,
    alloc: Global,
    problem: &Problem,
    kept: &Reduced,
    number: u32,
) -> bool {
    let choice = numbered(rt, alloc, problem, number);
    choice_agrees(rt, alloc, problem, kept, &choice)
}

fn choice_agrees(
    rt: &impl Abort,
    alloc: Global,
    problem: &Problem,
    kept: &Reduced,
    choice: &Choice,
) -> bool {
    if !choice.is_for(problem) {
        return true;
    }
    let fits = fits(alloc, problem, choice).expect(rt, "memory");
    fits == fits_classes(problem, kept, choice.items())
}

// Whether the next problem that is drawn agrees.
fn drawn_agrees(rt: &impl Abort, alloc: Global, draws: &mut Draws) -> bool {
    let problem = drawn(rt, alloc, draws);
    let kept = Reduced::of(alloc, &problem).expect(rt, "memory");
    agrees(rt, alloc, &problem, &kept)
}

#[test]
fn what_fits_the_classes_fits(rt: HostRuntime) {
    let alloc = rt.alloc();
    let mut draws = Draws { last: 1 };
    for number in 0..1_000 {
        assert!(rt; drawn_agrees(&rt, alloc, &mut draws), "{number}");
    }
}
