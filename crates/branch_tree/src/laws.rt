//! A law of visits. The function does nothing; its contract is the law.

ghost use Rattle.std.specs.Prelude.{ℕ, List, ◌∷◌, Option};
ghost use Rattle.choice_problem.specs.declared.nodes.Node.{Node};
ghost use Rattle.choice_problem.specs.declared.nodes.Node.TheVariants as node;
ghost use Rattle.choice_problem.specs.declared.vectors.Price.{Price};
ghost use Rattle.choice_problem.specs.Problems.{ProblemView};
ghost use Rattle.choice_problem.specs.Bounds.{AreRanges};
ghost use Rattle.choice_problem.specs.Driven.{IsDrivenNode};
ghost use Rattle.branch_tree.specs.Visits.{ClosesBy, IsFound, IsSplit, StaysOpenToAll};

/// What a visit answers is a node of a driven tree: the leaf of closed ranges, the leaf of a choice
/// that was found, and the split with what was seen. The root vector is the first of the tree's
/// vectors, and the further ones follow.
pub fn visited_nodes()
    ensures closed { (p : ProblemView) (root : List Price) (further : List (List Price))
        (ranges : List (ℕ × ℕ))
        (seen : Option ℕ) (leaf : Node) →
        ClosesBy p root further ranges seen leaf →
        IsDrivenNode p (root ∷ further) root ranges leaf }
    ensures found { (p : ProblemView) (vectors : List (List Price)) (root : List Price)
        (ranges : List (ℕ × ℕ))
        (x : List ℕ) (leaf : Node) →
        AreRanges p ranges → IsFound p ranges x leaf → IsDrivenNode p vectors root ranges leaf }
    ensures split { (p : ProblemView) (vectors : List (List Price)) (root : List Price)
        (further : List (List Price))
        (ranges : List (ℕ × ℕ)) (seen : Option ℕ) (unit cut : ℕ) →
        StaysOpenToAll p root further ranges seen → IsSplit p ranges unit cut →
        IsDrivenNode p vectors root ranges (node.Split unit cut seen) }
{}
