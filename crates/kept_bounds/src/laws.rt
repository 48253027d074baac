//! Laws of ranges that change and of what is kept for them. The functions do nothing; their
//! contracts are the laws.

ghost use Rattle.std.specs.Prelude.{◌≡◌, ◌<◌, ◌≤◌, ◌+◌, ℕ, List, All, drop, length, slice_index_or, slice_set};
ghost use Rattle.choice_problem.specs.declared.vectors.Price.{Price};
ghost use Rattle.choice_problem.specs.Problems.{ProblemView, unit_count};
ghost use Rattle.choice_problem.specs.Bounds.{AreRanges, low_of, high_of};
ghost use Rattle.choice_problem.specs.Walks.{AreChanges, ChangesFirst};
ghost use Rattle.kept_bounds.specs.Changes.{AgreeBut, HasSeen};
ghost use Rattle.kept_bounds.specs.Kept.{BoundsView, AreKept, AreKeptFirst};

/// Ranges that agree with others but for some units: each of these units that gets the other range
/// leaves the units after it; with none left all ranges are the same. What has seen all changes but
/// the last ones has, after more of them, still seen all but the last ones.
pub fn agreeing_ranges()
    ensures next { (old new ranges : List (ℕ × ℕ)) (units : List ℕ) (i unit d : ℕ) →
        i < length units → unit ≡ slice_index_or units i d → unit < length old →
        new ≡ slice_set old unit (low_of ranges unit, high_of ranges unit) →
        AgreeBut (drop i units) old ranges → AgreeBut (drop (i + 1) units) new ranges }
    ensures all { (one ranges : List (ℕ × ℕ)) (units : List ℕ) (i : ℕ) →
        length units ≤ i → length one ≡ length ranges →
        AgreeBut (drop i units) one ranges → one ≡ ranges }
    ensures seen { (at old new : List (ℕ × ℕ)) (before after : List ℕ) (seen : ℕ) →
        AreChanges old new before after →
        HasSeen at old before seen → HasSeen at new after seen }
{}

/// What is kept for ranges is kept for those that a step of a walk makes of them, after the changes
/// that it adds; and so for the first of the ranges that are pending before and after the step.
pub fn walked_bounds()
    ensures ranges { (p : ProblemView) (vectors : List (List Price)) (old new : List (ℕ × ℕ))
        (before after : List ℕ) (kept : BoundsView) →
        length old ≡ unit_count p → AreChanges old new before after →
        AreKept p vectors old before kept → AreKept p vectors new after kept }
    ensures first { (p : ProblemView) (vectors : List (List Price))
        (old new : List (List (ℕ × ℕ))) (before after : List ℕ) (kept : BoundsView) →
        0 < length old → All (AreRanges p) old → ChangesFirst old new before after →
        AreKeptFirst p vectors old before kept → AreKeptFirst p vectors new after kept }
{}
