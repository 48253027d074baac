//! Laws of closed ranges, of trees, and of what trees prove. The functions do nothing; their
//! contracts are the laws.

ghost use Rattle.std.specs.Prelude.{◌≡◌, ℕ, ◌+◌, ◌*◌, ◌/◌, ◌<◌, ◌≤◌, ◌^◌, List, length, slice_set, Option, Some, None, All, [], ◌∷◌, ◌++◌, count_by, ◌==◌};
ghost use Rattle.choice_problem.specs.declared.vectors.TheConstants.{ROOT_STEPS};
ghost use Rattle.choice_problem.specs.declared.problems.TheConstants.{MOST_UNITS, MOST_USES};
ghost use Rattle.choice_problem.specs.declared.strips.Strip.{Strip};
ghost use Rattle.finite_sums.specs.Sums.{sum_below};
ghost use Rattle.choice_problem.specs.Strips.{strip_uses, strip_resources, part_uses, IsPartInRange};
ghost use Rattle.choice_problem.specs.declared.nodes.Node.{Node};
ghost use Rattle.choice_problem.specs.declared.nodes.Node.TheVariants as node;
ghost use Rattle.choice_problem.specs.declared.vectors.Price.{Price};
ghost use Rattle.choice_problem.specs.Problems.{ChooserView, ProblemView, IsChooser, unit_count, alt_count, resource_count};
ghost use Rattle.choice_problem.specs.Allowed.{UseAtMost, IsNamedAlt};
ghost use Rattle.choice_problem.specs.Choices.{IsFeasible, IsBest, HasNone, choice_cost};
ghost use Rattle.choice_problem.specs.Bounds.{AreRanges, IsWithin, IsVector, Closes, IsOver, whole_of, bound_of};
ghost use Rattle.choice_problem.specs.Trees.{
  AreSound,
  NodeHolds,
  IsSound,
  IsWhole,
  IsTree,
  OverHolds,
  CanSplit,
  low_part,
  high_part,
  parts_of,
};
ghost use Rattle.choice_problem.specs.Greedy.{IsGreedy, IsGreedyCost, FitsOn};
ghost use Rattle.choice_problem.specs.Roots.{IsNodeVector, vector_of, step_length};
ghost use Rattle.choice_problem.specs.Driven.{IsDriven, AreDriven};
ghost use Rattle.choice_problem.specs.Floors.{IsFloored, AreFloors, IsAtMost};
ghost use Rattle.choice_problem.specs.Alike.{AreAlike};
ghost use Rattle.choice_problem.specs.Named.{NamesUpTo};

/// A strip uses a resource as often as the resource comes in the list that the strip stands for,
/// and at most once a run. Strips that stay within the resources use nothing beyond them.
pub fn strip_list()
    ensures list { (s : Strip) (r : ℕ) → strip_uses s r ≡ count_by (λ c. c == r)
        (strip_resources s) }
    ensures few { (s : Strip) (r : ℕ) → strip_uses s r ≤ s.times }
    ensures beyond { (strips : List Strip) (resources r : ℕ) → IsPartInRange resources strips →
        resources ≤ r → part_uses strips r ≡ 0 }
{}

/// Parts that use no resource more than half of `MOST_USES` times make units, whatever strips they
/// are in: an alternative names two of them.
pub fn few_uses()
    ensures { (m : ChooserView) → UseAtMost (MOST_USES / 2) m.parts → 0 < length m.alts →
        length m.alts < 2 ^ 32 →
        length m.parts < 2 ^ 32 → All (IsNamedAlt m.parts) m.alts → IsChooser m }
{}

/// Which lists of spans are ranges of a problem: all alternatives, the two parts at a cut of
/// ranges, and ranges of which one unit's span is replaced by another that is not empty and whose
/// alternatives are there.
pub fn part_ranges()
    ensures whole { (p : ProblemView) → ((u : ℕ) → u < unit_count p → 0 < alt_count p u) →
        AreRanges p (whole_of p) }
    ensures low { (p : ProblemView) (ranges : List (ℕ × ℕ)) (unit cut : ℕ) →
        AreRanges p ranges → CanSplit ranges unit cut → AreRanges p (low_part ranges unit cut) }
    ensures high { (p : ProblemView) (ranges : List (ℕ × ℕ)) (unit cut : ℕ) →
        AreRanges p ranges → CanSplit ranges unit cut → AreRanges p (high_part ranges unit cut) }
    ensures set { (p : ProblemView) (ranges : List (ℕ × ℕ)) (unit low high : ℕ) →
        unit < length ranges → AreRanges p ranges → low ≤ high → high < alt_count p unit →
        AreRanges p (slice_set ranges unit (low, high)) }
{}

/// Prices below 2^40, one a resource, make a vector, and the lengths of up to 64 subgradient steps
/// are together at most 261,120.
pub fn price_vectors()
    ensures valid { (p : ProblemView) (prices : ℕ → ℕ) →
        ((r : ℕ) → r < resource_count p → prices r < 2 ^ 40) →
        IsVector p (vector_of (resource_count p) prices) }
    ensures steps { (n : ℕ) → n ≤ ROOT_STEPS → sum_below n step_length ≤ 261120 }
{}

/// What closed ranges say of the feasible choices within them, by weak Lagrangian duality. What
/// closes for none closes for every cost, and what closes for a cost closes for every smaller one.
/// A feasible choice within ranges that are closed for a cost costs at least that; within ranges
/// that are closed for none, or by an over leaf, there is none.
pub fn closed_ranges()
    ensures none_closes_all { (p : ProblemView) (ranges : List (ℕ × ℕ)) (prices : List Price)
        (scale u : ℕ) →
        Closes p ranges prices scale None → Closes p ranges prices scale (Some u) }
    ensures smaller { (p : ProblemView) (ranges : List (ℕ × ℕ)) (prices : List Price)
        (scale u v : ℕ) →
        v ≤ u → Closes p ranges prices scale (Some u) → Closes p ranges prices scale (Some v) }
    ensures cost { (p : ProblemView) (ranges : List (ℕ × ℕ)) (prices : List Price) (scale u : ℕ)
        (x : List ℕ) →
        IsVector p prices → Closes p ranges prices scale (Some u) → IsFeasible p x →
        IsWithin p ranges x →
        u ≤ choice_cost p x }
    ensures none { (p : ProblemView) (ranges : List (ℕ × ℕ)) (prices : List Price) (scale : ℕ)
        (x : List ℕ) →
        IsVector p prices → Closes p ranges prices scale None → IsFeasible p x →
        IsWithin p ranges x → ⊥ }
    ensures over { (p : ProblemView) (ranges : List (ℕ × ℕ)) (resource : ℕ) (x : List ℕ) →
        OverHolds p ranges resource → IsFeasible p x → IsWithin p ranges x → ⊥ }
{}

/// What a sound and whole tree on all alternatives says of all choices: with the cost of a feasible
/// choice it makes that choice best, and without a cost it leaves no feasible choice.
pub fn sound_tree()
    ensures best { (p : ProblemView) (vectors : List (List Price)) (nodes : List Node)
        (x : List ℕ) →
        All (IsVector p) vectors → IsFeasible p x →
        IsSound p vectors (Some (choice_cost p x)) (whole_of p) nodes → IsWhole nodes → IsBest p x }
    ensures none { (p : ProblemView) (vectors : List (List Price)) (nodes : List Node) →
        All (IsVector p) vectors → IsSound p vectors None (whole_of p) nodes → IsWhole nodes →
        HasNone p }
{}

/// Trees that are closed for a floor but may have undone nodes: where the bound of each undone node
/// closes its ranges for the floor, no feasible choice costs less. `listed` says the same of a tree
/// that is sound for a cost, or for none, with one vector and scale for each undone node.
pub fn floored_tree()
    ensures closed { (p : ProblemView) (vectors : List (List Price)) (floor : ℕ) (nodes : List Node)
        (x : List ℕ) →
        All (IsVector p) vectors → IsFloored p vectors floor nodes → IsFeasible p x →
        floor ≤ choice_cost p x }
    ensures listed { (p : ProblemView) (vectors : List (List Price)) (cost : Option ℕ) (floor : ℕ)
        (nodes : List Node)
        (floors : List (ℕ × ℕ)) (x : List ℕ) →
        All (IsVector p) vectors → IsSound p vectors cost (whole_of p) nodes → IsAtMost floor cost →
        AreFloors p vectors floor nodes floors → IsFeasible p x → floor ≤ choice_cost p x }
{}

/// The shape of trees: a sound split is followed by exactly two trees, sound on the low and on the
/// high part, and two such trees make one; nothing follows another node; no tree is the beginning
/// of another.
pub fn split_trees()
    ensures split { (p : ProblemView) (vectors : List (List Price)) (cost : Option ℕ)
        (ranges : List (ℕ × ℕ))
        (unit cut : ℕ) (seen : Option ℕ) (nodes : List Node) →
        IsSound p vectors cost ranges (node.Split unit cut seen ∷ nodes) →
        CanSplit ranges unit cut × ((low high : List Node) × (nodes ≡ low ++ high)
        × IsSound p vectors cost (low_part ranges unit cut) low
        × IsSound p vectors cost (high_part ranges unit cut) high) }
    ensures joined { (p : ProblemView) (vectors : List (List Price)) (cost : Option ℕ)
        (ranges : List (ℕ × ℕ))
        (unit cut : ℕ) (seen : Option ℕ) (low high : List Node) →
        CanSplit ranges unit cut → IsSound p vectors cost (low_part ranges unit cut) low →
        IsSound p vectors cost (high_part ranges unit cut) high →
        IsSound p vectors cost ranges (node.Split unit cut seen ∷ low ++ high) }
    ensures shape { (p : ProblemView) (vectors : List (List Price)) (cost : Option ℕ)
        (ranges : List (ℕ × ℕ))
        (nodes : List Node) → IsSound p vectors cost ranges nodes → IsTree nodes }
    ensures leaf { (first : Node) (nodes : List Node) → IsTree (first ∷ nodes) → parts_of [] first
        ≡ [] → nodes ≡ [] }
    ensures only { (one two more other : List Node) → IsTree one → IsTree two → one ++ more ≡ two
        ++ other → one ≡ two }
{}

/// The greedy choice is feasible, and its cost, or that there is none, is determined by the
/// problem. So is the node vector of ranges, and with it the root vector, whose prices are those of
/// a vector for the problem: all are below 2^40. What fits on some loads fits on the same loads.
pub fn search_start()
    ensures feasible { (p : ProblemView) (x : List ℕ) → IsGreedy p (unit_count p) x →
        IsFeasible p x }
    ensures one_cost { (p : ProblemView) (one other : Option ℕ) →
        IsGreedyCost p one → IsGreedyCost p other → one ≡ other }
    ensures same_loads { (p : ProblemView) (one other : ℕ → ℕ) (u a : ℕ) →
        ((r : ℕ) → r < resource_count p → one r ≡ other r) → FitsOn p one u a → FitsOn p other u a }
    ensures one_vector { (p : ProblemView) (ranges : List (ℕ × ℕ)) (one other : List Price) →
        IsNodeVector p ranges one → IsNodeVector p ranges other → one ≡ other }
    ensures prices { (p : ProblemView) (ranges : List (ℕ × ℕ)) (prices : List Price) →
        unit_count p ≤ MOST_UNITS → All IsChooser p.units → AreRanges p ranges →
        IsNodeVector p ranges prices → IsVector p prices }
{}

/// A tree that is driven for a result is sound for it, and stays driven where vectors are added to
/// the list.
pub fn driven_tree()
    ensures sound { (p : ProblemView) (vectors : List (List Price)) (result : Option ℕ)
        (nodes : List Node) →
        IsDriven p vectors result nodes → IsSound p vectors result (whole_of p) nodes }
    ensures more { (p : ProblemView) (vectors more : List (List Price)) (result : Option ℕ)
        (nodes : List Node) →
        IsDriven p vectors result nodes → IsDriven p (vectors ++ more) result nodes }
{}

/// What is said of a problem depends on its numbers alone: problems that are alike have the same
/// feasible and best choices, ranges, vectors and bounds, sound, floored and driven trees, greedy
/// cost and node vectors. Where parts or strips differ, nothing of this changes.
pub fn alike_problems()
    ensures back { (p q : ProblemView) → AreAlike p q → AreAlike q p }
    ensures whole { (p q : ProblemView) → AreAlike p q → whole_of p ≡ whole_of q }
    ensures cost { (p q : ProblemView) (x : List ℕ) → AreAlike p q → choice_cost p x
        ≡ choice_cost q x }
    ensures feasible { (p q : ProblemView) (x : List ℕ) → AreAlike p q → IsFeasible p x →
        IsFeasible q x }
    ensures best { (p q : ProblemView) (x : List ℕ) → AreAlike p q → IsBest p x → IsBest q x }
    ensures none { (p q : ProblemView) → AreAlike p q → HasNone p → HasNone q }
    ensures ranges { (p q : ProblemView) (ranges : List (ℕ × ℕ)) →
        AreAlike p q → AreRanges p ranges → AreRanges q ranges }
    ensures vector { (p q : ProblemView) (prices : List Price) →
        AreAlike p q → IsVector p prices → IsVector q prices }
    ensures bound { (p q : ProblemView) (ranges : List (ℕ × ℕ)) (prices : List Price) (scale : ℕ) →
        AreAlike p q → bound_of p ranges prices scale ≡ bound_of q ranges prices scale }
    ensures node { (p q : ProblemView) (vectors : List (List Price)) (cost : Option ℕ)
        (ranges : List (ℕ × ℕ))
        (node : Node) → AreAlike p q → NodeHolds p vectors cost ranges node →
        NodeHolds q vectors cost ranges node }
    ensures sound { (p q : ProblemView) (vectors : List (List Price)) (cost : Option ℕ)
        (pending : List (List (ℕ × ℕ))) (nodes : List Node) →
        AreAlike p q → AreSound p vectors cost pending nodes →
        AreSound q vectors cost pending nodes }
    ensures floored { (p q : ProblemView) (vectors : List (List Price)) (floor : ℕ)
        (nodes : List Node) →
        AreAlike p q → IsFloored p vectors floor nodes → IsFloored q vectors floor nodes }
    ensures floors { (p q : ProblemView) (vectors : List (List Price)) (floor : ℕ)
        (nodes : List Node)
        (floors : List (ℕ × ℕ)) →
        AreAlike p q → AreFloors p vectors floor nodes floors →
        AreFloors q vectors floor nodes floors }
    ensures greedy { (p q : ProblemView) (cost : Option ℕ) →
        AreAlike p q → IsGreedyCost p cost → IsGreedyCost q cost }
    ensures node_vector { (p q : ProblemView) (ranges : List (ℕ × ℕ)) (prices : List Price) →
        AreAlike p q → IsNodeVector p ranges prices → IsNodeVector q ranges prices }
    ensures driven_nodes { (p q : ProblemView) (vectors : List (List Price)) (root : List Price)
        (pending : List (List (ℕ × ℕ))) (nodes : List Node) →
        AreAlike p q → AreDriven p vectors root pending nodes →
        AreDriven q vectors root pending nodes }
    ensures driven { (p q : ProblemView) (vectors : List (List Price)) (result : Option ℕ)
        (nodes : List Node) →
        AreAlike p q → IsDriven p vectors result nodes → IsDriven q vectors result nodes }
{}

/// Trees over a list of vectors hold over its beginning, where no leaf and no floor names a later
/// one.
pub fn fewer_vectors()
    ensures sound { (p : ProblemView) (vectors more : List (List Price)) (cost : Option ℕ)
        (pending : List (List (ℕ × ℕ))) (nodes : List Node) →
        All (NamesUpTo (length vectors)) nodes →
        AreSound p (vectors ++ more) cost pending nodes → AreSound p vectors cost pending nodes }
    ensures driven_nodes { (p : ProblemView) (vectors more : List (List Price)) (root : List Price)
        (pending : List (List (ℕ × ℕ))) (nodes : List Node) →
        All (NamesUpTo (length vectors)) nodes →
        AreDriven p (vectors ++ more) root pending nodes → AreDriven p vectors root pending nodes }
    ensures driven { (p : ProblemView) (vectors more : List (List Price)) (result : Option ℕ)
        (nodes : List Node) →
        All (NamesUpTo (length vectors)) nodes →
        IsDriven p (vectors ++ more) result nodes → IsDriven p vectors result nodes }
    ensures floors { (p : ProblemView) (vectors more : List (List Price)) (floor : ℕ)
        (nodes : List Node)
        (floors : List (ℕ × ℕ)) → All (λ named. named.0 ≤ length vectors) floors →
        AreFloors p (vectors ++ more) floor nodes floors → AreFloors p vectors floor nodes floors }
{}

/// Each problem and list of spans has a node vector, so a driven tree can be stated where none was
/// computed.
pub fn node_vector_exists()
    ensures { (p : ProblemView) (ranges : List (ℕ × ℕ)) → (prices : List Price)
        × IsNodeVector p ranges prices }
{}
