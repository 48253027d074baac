//! Laws of alternatives that are out, of what is left, and of trees over it. The functions do
//! nothing; their contracts are the laws.

ghost use Rattle.std.specs.Prelude.{◌≡◌, ◌↔◌, ℕ, ◌<◌, ◌≤◌, ◌^◌, List, length, All, Option, Some, IfSome, true, false, slice_index, map, pos};
ghost use Rattle.choice_problem.specs.declared.vectors.Price.{Price};
ghost use Rattle.choice_problem.specs.declared.nodes.Node.{Node};
ghost use Rattle.choice_problem.specs.Problems.{ProblemView, IsChooser, IsProblem, unit_count};
ghost use Rattle.choice_problem.specs.Alike.{AreAlike};
ghost use Rattle.choice_problem.specs.Choices.{IsFeasible, IsBest, HasNone, choice_cost};
ghost use Rattle.choice_problem.specs.Bounds.{IsVector, Closes, whole_of};
ghost use Rattle.choice_problem.specs.Trees.{IsSound, IsWhole};
ghost use Rattle.price_table.specs.Tables.{TableView, IsTableFor};
ghost use Rattle.cost_fixing.specs.declared.fixings.Fixing.{Fixing};
ghost use Rattle.cost_fixing.specs.Fixings.{
  fixed_at,
  is_out,
  LeavesSome,
  left_problem,
  left_view,
  whole_choice,
  FixingHolds,
  tree_problem,
};

use choice_problem::{alike_problems, closed_ranges, floored_tree};

/// What it means that an alternative is out: the bound with it closes for the cost. So a feasible
/// choice below the cost takes none that is out.
pub fn out_alternatives()
    ensures closes { (p : ProblemView) (prices : List Price) (scale cost u a : ℕ) →
        is_out p prices scale cost u a ≡ true
        ↔ Closes p (fixed_at p u a) prices scale (Some cost) }
    ensures none { (p : ProblemView) (prices : List Price) (scale cost : ℕ) (x : List ℕ) (u : ℕ) →
        IsVector p prices → IsFeasible p x → choice_cost p x < cost → u < unit_count p →
        is_out p prices scale cost u (slice_index x u) ≡ false }
{
    closed_ranges();
}

/// A feasible choice below the cost is one of what is left, at the same cost; and each feasible
/// choice of what is left is one of the whole problem.
pub fn fixed_choices()
    ensures below { (p : ProblemView) (prices : List Price) (scale cost : ℕ) (x : List ℕ) →
        IsVector p prices → IsFeasible p x → choice_cost p x < cost →
        (y : List ℕ) × IsFeasible (left_problem p prices scale cost) y
        × (choice_cost (left_problem p prices scale cost) y ≡ choice_cost p x)
        × (whole_choice (left_view p prices scale cost).alts y ≡ x) }
    ensures back { (p : ProblemView) (prices : List Price) (scale cost : ℕ) (y : List ℕ) →
        IsFeasible (left_problem p prices scale cost) y →
        IsFeasible p (whole_choice (left_view p prices scale cost).alts y)
        × (choice_cost p (whole_choice (left_view p prices scale cost).alts y)
        ≡ choice_cost (left_problem p prices scale cost) y) }
{
    closed_ranges();
}

/// What is left decides below the cost: its best choice is best of the whole problem where it costs
/// at most the cost, and where it has none, each feasible choice costs at least that. So does a
/// whole and sound tree over what is left.
pub fn fixed_best()
    ensures best { (p : ProblemView) (prices : List Price) (scale cost : ℕ) (y : List ℕ) →
        IsVector p prices → IsBest (left_problem p prices scale cost) y →
        choice_cost (left_problem p prices scale cost) y ≤ cost →
        IsBest p (whole_choice (left_view p prices scale cost).alts y) }
    ensures none { (p : ProblemView) (prices : List Price) (scale cost : ℕ) (x : List ℕ) →
        IsVector p prices → HasNone (left_problem p prices scale cost) → IsFeasible p x →
        cost ≤ choice_cost p x }
    ensures tree { (p : ProblemView) (vectors : List (List Price)) (fixing : Option Fixing)
        (nodes : List Node) (x : List ℕ) →
        All (IsVector p) vectors → IsFeasible p x →
        IfSome fixing (FixingHolds p vectors (Some (choice_cost p x))) →
        IsSound (tree_problem p vectors fixing) vectors (Some (choice_cost p x))
        (whole_of (tree_problem p vectors fixing)) nodes →
        IsWhole nodes → IsBest p x }
{
    closed_ranges();
    floored_tree();
}

/// What is left is a problem within the limits where the whole problem is one and each unit has an
/// alternative left. Its vectors are those of the whole problem, and so are its price tables.
pub fn left_problems()
    ensures units { (p : ProblemView) (prices : List Price) (scale cost : ℕ) →
        All IsChooser p.units → LeavesSome p prices scale cost →
        All IsChooser (left_problem p prices scale cost).units }
    ensures limits { (p : ProblemView) (prices : List Price) (scale cost : ℕ) →
        IsProblem p.units (map pos p.limits) →
        IsProblem (left_problem p prices scale cost).units (map pos p.limits) }
    ensures vectors { (p : ProblemView) (prices vector : List Price) (scale cost : ℕ) →
        IsVector (left_problem p prices scale cost) vector ↔ IsVector p vector }
    ensures tables { (p : ProblemView) (prices : List Price) (scale cost : ℕ) (t : TableView) →
        IsTableFor p t → IsTableFor (left_problem p prices scale cost) t }
{}

/// Of problems with the same numbers the same alternatives are out: what is left of one has the
/// same numbers as what is left of the other, and a fixing holds of both or of none.
pub fn alike_fixings()
    ensures tree { (p q : ProblemView) (vectors : List (List Price)) (fixing : Option Fixing) →
        AreAlike p q → AreAlike (tree_problem p vectors fixing) (tree_problem q vectors fixing) }
    ensures holds { (p q : ProblemView) (vectors : List (List Price)) (cost : Option ℕ)
        (f : Fixing) →
        AreAlike p q → FixingHolds p vectors cost f → FixingHolds q vectors cost f }
{
    alike_problems();
}
