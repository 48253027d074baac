//! Laws of the logs of links, for callers that add to them.
ghost use Rattle.std.specs.Prelude.{◌≡◌, ◌++◌, ◌∷◌, [], ℕ, List};
ghost use Rattle.desk_outside.specs.Passages.{Passage};
ghost use Rattle.desk_outside.specs.Passages.{took};
ghost use Rattle.desk_links.specs.Links.{taken_of, puts_of};

/// What was taken and put over a link, of logs that are joined, and of one passage more.
pub fn joined_logs()
    ensures taken { (log more : List Passage) → taken_of (log ++ more)
        ≡ taken_of log ++ taken_of more }
    ensures puts { (log more : List Passage) → puts_of (log ++ more)
        ≡ puts_of log ++ puts_of more }
    ensures next { (log : List Passage) (bytes : List ℕ) → taken_of (log ++ took bytes ∷ [])
        ≡ taken_of log ++ bytes }
{}
