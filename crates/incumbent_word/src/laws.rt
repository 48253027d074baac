//! Laws of the search itself, which no thread has a part in.
ghost use Rattle.std.specs.Prelude.{◌≡◌, ◌⊎◌, ◌+◌, ◌==◌, ℕ, List, ◌++◌, length, Option, None};
ghost use Rattle.std.specs.List.{count_by};
ghost use Rattle.incumbent_word.specs.Core.{Core, opening, Runs, IsLawful, AtMost, lesser};
ghost use Rattle.incumbent_word.specs.Core.{EachOnce};
ghost use Rattle.incumbent_word.specs.declared.view.Terms.{Terms};
ghost use Rattle.incumbent_word.specs.declared.view.Event.{Event};

/// Over every list of events: the least cost is the start or a posted cost, whichever is lowest,
/// and it never rises. No worker ever saw a cost below the last least one, above the start or above
/// its own best. Each piece below the claimed count and each number below the taken count, cut at
/// their bounds, is one worker's, once.
pub fn search_core()
    ensures { (t : Terms) (xs ys : List Event) (middle last : Core)
        → Runs t (opening t) xs middle → Runs t middle ys last → IsLawful t xs ys middle last }
{}

/// How costs compare, where no cost counts as greater than every cost.
pub fn costs()
    ensures itself { (a : Option ℕ) → AtMost a a }
    ensures none_is_greatest { (a : Option ℕ) → AtMost a None }
    ensures chain { (a b c : Option ℕ) → AtMost a b → AtMost b c → AtMost a c }
    ensures both_ways { (a b : Option ℕ) → AtMost a b → AtMost b a → a ≡ b }
    ensures left { (a b : Option ℕ) → AtMost (lesser a b) a }
    ensures right { (a b : Option ℕ) → AtMost (lesser a b) b }
    ensures greatest { (a b c : Option ℕ) → AtMost c a → AtMost c b → AtMost c (lesser a b) }
    ensures with_none { (a : Option ℕ) → lesser a None ≡ a }
    ensures grouping { (a b c : Option ℕ) → lesser (lesser a b) c ≡ lesser a (lesser b c) }
    ensures either { (a b : Option ℕ) → (lesser a b ≡ a) ⊎ (lesser a b ≡ b) }
{}

/// How often a number stands in a list, and how long a list is in which each number below a bound
/// stands once.
pub fn counts()
    ensures appended { (x : ℕ) (xs ys : List ℕ) → count_by (λ y. y == x) (xs ++ ys)
        ≡ count_by (λ y. y == x) xs + count_by (λ y. y == x) ys }
    ensures once { (xs : List ℕ) (n : ℕ) → EachOnce (λ x. count_by (λ y. y == x) xs) n
        → length xs ≡ n }
{}
