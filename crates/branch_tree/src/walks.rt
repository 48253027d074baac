//! A walk through ranges, which keeps what a visit asks of them.

ghost use Rattle.std.specs.Prelude.{◌≡◌, ◌↔◌, ℕ, ◌<◌, ◌≤◌, [], length, slice_index, IsTrue, IfOk, IfSome, IfNone};
ghost use Rattle.choice_problem.specs.Problems.{unit_count, resource_count};
ghost use Rattle.choice_problem.specs.Choices.{IsChoice, IsFirstPassed, Fits, choice_cost};
ghost use Rattle.choice_problem.specs.Bounds.{AreRanges, Closes, IsOver};
ghost use Rattle.choice_problem.specs.Splits.{IsCheapest, IsFirstOver};
ghost use Rattle.branch_tree.specs.Walks.{AreLeast, AreLoadsAt, AreLimitsAt};
ghost use Rattle.dual_bound.specs.Kept.{ListPassable};

use crate::answers::Visit;
use crate::branching::found_or_split;
use crate::closings::{kept_leaf, leaf};
use crate::kept::{cheapest, first_cheapest, least_loads, move_least, move_loads};
use crate::least_uses::least_list;
use crate::placed::{choice_loads, limits_at};
use crate::ranks::ranks_of;
use crate::scans::first_above;
use crate::uses::Uses;
use choice_problem::{Node, Problem, Ranges};
use dual_bound::passable_resources;
use price_table::{PriceTable, Totals, push_totals, totals_of};
use slot_text::Memory;
use std::alloc::Global;
use std::marker::Model;
use std::slice::from_ref;

/// Ranges of a problem, with what a visit asks of them: each unit's first cheapest alternative,
/// what these together cost, and the listed resources, with what they use of each and its least
/// load, and what each unit adds to these. Where a range changes, what changes with it is counted
/// anew, and nothing else. Contracts see the problem and the ranges.
///
/// The listed resources are those that `dual_bound::passable_resources` lists: the resources that
/// can be passed, but of equal ones perhaps the first alone. So the lowest of all resources that
/// are above their limits is a listed one.
///
/// Memory: 4 bytes a resource (8 while it is made), 20 bytes a listed resource, and for each unit
/// up to 76 bytes and 8 a use that the first alternative in its range has of those. `of` takes,
/// before this, what listing the resources takes.
#[derive(Drop)]
pub struct Walk<'a> {
    problem: &'a Problem,
    ranges: Ranges,
    cheapest: Vec<u32>,
    cost: u64,
    loads: Vec<u32>,
    least: Vec<u32>,
    zeros: Vec<u32>,
    passable: Vec<u32>,
    ranks: Vec<u32>,
    limits: Vec<u32>,
    lists: Vec<Uses>,
}

impl<'a> Model for Walk<'a> {
    ghost use Rattle.branch_tree.specs.Walks.{WalkView, IsKeptWith};

    ghost Value = { WalkView };

    ghost view = { λ w. record { problem = w.problem.now; ranges = w.ranges } };

    ghost invariant = { λ w. IsKeptWith w.problem.now w.ranges w.cheapest.items w.cost
        w.loads.items w.least.items w.zeros.items w.passable.items w.ranks.items w.limits.items
        w.lists.items };
}

impl<'a> Walk<'a> {
    ghost use Rattle.std.specs.Prelude.{◌≡◌, ◌<◌, ◌≤◌, ℕ, List, [], ◌∷◌, All, length, slice_set, IfOk, IfSome, IfNone, OnOk, OnErr};
    ghost use Rattle.choice_problem.specs.declared.vectors.TheConstants.{MOST_FURTHER};
    ghost use Rattle.choice_problem.specs.Problems.{unit_count, alt_count, resource_count};
    ghost use Rattle.choice_problem.specs.Bounds.{AreRanges};
    ghost use Rattle.choice_problem.specs.Named.{NamesUpTo};
    ghost use Rattle.price_table.specs.Tables.{IsTableFor, vectors_of};
    ghost use Rattle.price_table.specs.Totals.{AreKeptFor};
    ghost use Rattle.choice_problem.specs.declared.vectors.Price.{Price};
    ghost use Rattle.dual_bound.specs.Kept.{ListPassable};
    ghost use Rattle.branch_tree.specs.Lists.{AreRanksOf};
    ghost use Rattle.branch_tree.specs.Walks.{AreLimitsAt};
    ghost use Rattle.branch_tree.specs.Visits.{IsVisit, ClosesBy, NeedsPrices};

    /// The walk at these ranges. A unit takes a step an alternative in range, and, for each part
    /// that these name, some steps a run and a use of a listed resource; it ends early where
    /// nothing is left that all of them use. This counts on alternatives that name the same first
    /// part standing together, and on their second parts being those of the next such row, or these
    /// and others in front: else the second parts of a row are listed anew. Beside this it takes
    /// the steps of listing the resources, some a use of each unit's first cheapest alternative,
    /// and some a resource.
    pub fn of(alloc: Global, problem: &'a Problem, ranges: Ranges) -> Result<Walk<'a>, Memory>
        requires { AreRanges problem.now ranges }
        ensures problem { IfOk result (λ walk. walk.problem ≡ problem.now) }
        ensures ranges { IfOk result (λ walk. walk.ranges ≡ ranges) }
    {
        let resources = problem.resources();
        let passable = passable_resources(alloc, problem)?;
        let ranks = ranks_of(alloc, &passable, resources)?;
        let limits = limits_at(alloc, problem, &passable)?;
        Walk::over(alloc, problem, ranges, passable, ranks, limits)
    }

    /// A walk of the same problem at these ranges. What does not change with ranges is copied, so
    /// that it takes far fewer steps than `of` where there are many resources.
    pub fn copy_at(&self, alloc: Global, ranges: Ranges) -> Result<Walk<'a>, Memory>
        requires { AreRanges self.now.problem ranges }
        ensures problem { IfOk result (λ walk. walk.problem ≡ self.now.problem) }
        ensures ranges { IfOk result (λ walk. walk.ranges ≡ ranges) }
    {
        let passable = Vec::from_slice(alloc, &self.passable)?;
        let ranks = Vec::from_slice(alloc, &self.ranks)?;
        let limits = Vec::from_slice(alloc, &self.limits)?;
        Walk::over(alloc, self.problem, ranges, passable, ranks, limits)
    }

    // The walk at these ranges, with the listed resources, and the ranks and limits of these.
    fn over(
        alloc: Global,
        problem: &'a Problem,
        ranges: Ranges,
        passable: Vec<u32>,
        ranks: Vec<u32>,
        limits: Vec<u32>,
    ) -> Result<Walk<'a>, Memory>
        requires ranges { AreRanges problem.now ranges }
        requires passable { ListPassable problem.now passable.items }
        requires ranks { AreRanksOf (resource_count problem.now) passable.items ranks.items }
        requires count { length limits.items ≡ length passable.items }
        requires limits { AreLimitsAt problem.now passable.items limits.items }
        ensures problem { IfOk result (λ walk. walk.problem ≡ problem.now) }
        ensures ranges { IfOk result (λ walk. walk.ranges ≡ ranges) }
    {
        let cheapest = cheapest(alloc, problem, &ranges)?;
        let (cost, loads) = choice_loads(alloc, problem, &cheapest, &passable)?;
        let (least, zeros, lists) = least_loads(alloc, problem, &ranges, &passable, &ranks)?;
        Ok(Walk {
            problem,
            ranges,
            cheapest,
            cost,
            loads,
            least,
            zeros,
            passable,
            ranks,
            limits,
            lists,
        })
    }

    /// The problem.
    pub fn problem(&self) -> &'a Problem
        ensures { result.now ≡ self.now.problem }
    {
        self.problem
    }

    /// The ranges.
    pub fn ranges(&self) -> &Ranges
        ensures value { result.now ≡ self.now.ranges }
        ensures valid { AreRanges self.now.problem result.now }
    {
        &self.ranges
    }

    /// Visits the walk's ranges: the answer of `visit`. `problem` is the one of `of`.
    pub fn visit(
        &self,
        alloc: Global,
        problem: &Problem,
        root: &PriceTable,
        seen: Option<u64>,
    ) -> Result<Visit, Memory>
        requires problem { problem.now ≡ self.now.problem }
        requires root { IsTableFor problem.now root.now }
        ensures { IfOk result (IsVisit problem.now root.now.prices [] self.now.ranges seen) }
    {
        self.visit_with(alloc, problem, root, &[], seen)
    }

    /// Visits the walk's ranges with further vectors, whose tables these are, from number 2 on: at
    /// most 63. `problem` is the one of `of`. It makes the totals of the vectors and asks
    /// `visit_kept`, in one step a listed resource, and one an alternative in range for each vector
    /// with prices: where ranges change unit by unit, keep the totals.
    pub fn visit_with(
        &self,
        alloc: Global,
        problem: &Problem,
        root: &PriceTable,
        further: &[PriceTable],
        seen: Option<u64>,
    ) -> Result<Visit, Memory>
        requires problem { problem.now ≡ self.now.problem }
        requires root { IsTableFor problem.now root.now }
        requires further { All (IsTableFor problem.now) further.now }
        requires few { length further.now ≤ MOST_FURTHER }
        ensures { IfOk result (IsVisit problem.now root.now.prices (vectors_of further.now)
            self.now.ranges seen) }
    {
        let mut totals = totals_of(alloc, problem, &self.ranges, from_ref(root))?;
        push_totals(alloc, problem, &self.ranges, further, &mut totals)?;
        self.visit_kept(alloc, problem, root, further, &totals, seen)
    }

    /// The leaf that closes the walk's ranges without prices, and so at each visit, whatever the
    /// vectors are: of the lowest resource whose least load is above its limit, or of vector 0.
    /// Where there is none, the prices decide: the root vector is wanted only there. `problem` is
    /// the one of `of`. One step a listed resource.
    pub fn unpriced_leaf(&self, problem: &Problem, seen: Option<u64>) -> Option<Node>
        requires problem { problem.now ≡ self.now.problem }
        ensures some { IfSome result (λ leaf. (root : List Price) (further : List (List Price)) →
            ClosesBy problem.now root further self.now.ranges seen leaf) }
        ensures zero { IfSome result (NamesUpTo 0) }
        ensures none { IfNone result (NeedsPrices problem.now self.now.ranges seen) }
    {
        if let Some(resource) = first_over(
            problem,
            &self.ranges,
            &self.least,
            &self.passable,
            &self.limits,
        ) {
            return Some(Node::Over { resource });
        }
        if zero_closes(problem, &self.ranges, &self.cheapest, self.cost, seen) {
            return Some(leaf(0, 1, seen));
        }
        None
    }

    /// The answer of `visit_with` by totals that are kept for the vectors at scale 1024, those of
    /// the root vector first, while the walk's ranges change: one step a listed resource and a
    /// vector, and none an alternative. Both tables are those for which the totals are.
    pub fn visit_kept(
        &self,
        alloc: Global,
        problem: &Problem,
        root: &PriceTable,
        further: &[PriceTable],
        totals: &[Totals],
        seen: Option<u64>,
    ) -> Result<Visit, Memory>
        requires problem { problem.now ≡ self.now.problem }
        requires few { length further.now ≤ MOST_FURTHER }
        requires kept { AreKeptFor problem.now (root.now.prices ∷ vectors_of further.now)
            self.now.ranges totals.now }
        ensures { IfOk result (IsVisit problem.now root.now.prices (vectors_of further.now)
            self.now.ranges seen) }
    {
        if let Some(leaf) = self.unpriced_leaf(problem, seen) {
            return Ok(Visit::Close(leaf));
        }
        if let Some(leaf) = kept_leaf(problem, &self.ranges, root, further, totals, seen) {
            return Ok(Visit::Close(leaf));
        }
        let passed = first_passed(
            problem,
            &self.cheapest,
            &self.loads,
            &self.passable,
            &self.limits,
        );
        found_or_split(alloc, problem, &self.ranges, &self.cheapest, passed)
    }

    /// Sets a unit's range, which is not empty and of its alternatives. `problem` is the one of
    /// `of`. After want of memory the walk is as before. The steps of `of` for the unit at its new
    /// range, and for the alternatives that are cheapest in its old and in its new range.
    pub fn narrow(
        &mut self,
        alloc: Global,
        problem: &Problem,
        unit: u32,
        low: u32,
        high: u32,
    ) -> Result<(), Memory>
        requires problem { problem.now ≡ self.old.problem }
        requires unit { unit < unit_count problem.now }
        requires ordered { low ≤ high }
        requires there { high < alt_count problem.now unit }
        ensures problem { self.new.problem ≡ self.old.problem }
        ensures ok { OnOk result (self.new.ranges ≡ slice_set self.old.ranges unit (low, high)) }
        ensures err { OnErr result (self.new ≡ self.old) }
    {
        let now = least_list(
            alloc,
            problem,
            unit,
            low,
            high,
            &self.passable,
            &self.ranks,
            &mut self.zeros,
        )?;
        let old_alt = self.cheapest[unit as usize];
        let alt = first_cheapest(problem, unit, low, high);
        move_loads(
            alloc,
            problem,
            unit,
            old_alt,
            alt,
            &self.passable,
            &self.ranks,
            &mut self.loads,
        )?;
        let was = self.lists[unit as usize].places();
        move_least(&mut self.least, was, &now);
        self.lists[unit as usize] = Uses::of(now);
        self.cost = self.cost - problem.alt_cost(unit, old_alt) + problem.alt_cost(unit, alt);
        self.cheapest[unit as usize] = alt;
        self.ranges.set(unit, low, high);
        Ok(())
    }
}

// The lowest resource whose least load is above its limit.
fn first_over(
    problem: &Problem,
    ranges: &Ranges,
    least: &[u32],
    passable: &[u32],
    limits: &[u32],
) -> Option<u32>
    requires ranges { AreRanges problem.now ranges.now }
    requires count { length least.now ≡ length passable.now }
    requires least { AreLeast problem.now ranges.now passable.now least.now }
    requires passable { ListPassable problem.now passable.now }
    requires limits_count { length limits.now ≡ length passable.now }
    requires limits { AreLimitsAt problem.now passable.now limits.now }
    ensures some { IfSome result (IsFirstOver problem.now ranges.now) }
    ensures none { IfNone result ((r : ℕ) → r < resource_count problem.now →
        IsOver problem.now ranges.now r → ⊥) }
{
    let _problem = problem;
    let _ranges = ranges;
    let place = first_above(least, limits)?;
    Some(passable[place])
}

// Whether vector 0 closes ranges at scale 1: whether their first cheapest alternatives together
// cost at least what was seen.
fn zero_closes(
    problem: &Problem,
    ranges: &Ranges,
    alts: &[u32],
    cost: u64,
    seen: Option<u64>,
) -> bool
    requires ranges { AreRanges problem.now ranges.now }
    requires alts { IsCheapest problem.now ranges.now alts.now }
    requires cost { cost ≡ choice_cost problem.now alts.now }
    ensures { IsTrue result ↔ Closes problem.now ranges.now [] 1 seen }
{
    let _problem = problem;
    let _ranges = ranges;
    let _alts = alts;
    match seen {
        Some(seen) => seen <= cost,
        None => false,
    }
}

// The lowest resource that the choice uses above its limit.
fn first_passed(
    problem: &Problem,
    alts: &[u32],
    loads: &[u32],
    passable: &[u32],
    limits: &[u32],
) -> Option<u32>
    requires alts { IsChoice problem.now alts.now }
    requires count { length loads.now ≡ length passable.now }
    requires loads { AreLoadsAt problem.now alts.now passable.now loads.now }
    requires passable { ListPassable problem.now passable.now }
    requires limits_count { length limits.now ≡ length passable.now }
    requires limits { AreLimitsAt problem.now passable.now limits.now }
    ensures some { IfSome result (IsFirstPassed problem.now alts.now) }
    ensures none { IfNone result (Fits problem.now alts.now) }
{
    let _problem = problem;
    let _alts = alts;
    let place = first_above(loads, limits)?;
    Some(passable[place])
}
