//! Laws of files, for callers that write several.
ghost use Rattle.std.specs.Prelude.{◌≡◌, ℕ, List, Option, Some, Contains};
ghost use Rattle.desk_outside.specs.Files.{Files, with_file, Writes, WritesPart, ChangesOnly};

/// Which files change: a file that is put under one name is seen there and nowhere else, and calls
/// that each change only some files change, one after the other, only these.
pub fn file_changes()
    ensures own { (files : Files) (name bytes : List ℕ) → with_file files name bytes name
        ≡ Some bytes }
    ensures other { (files : Files) (name bytes asked : List ℕ) → (name ≡ asked → ⊥)
        → with_file files name bytes asked ≡ files asked }
    ensures unchanged { (files after : Option Files) (names : List (List ℕ)) → after ≡ files
        → ChangesOnly files names after }
    ensures whole { (files after : Option Files) (names : List (List ℕ)) (name bytes : List ℕ)
        → Contains names name → Writes files name bytes after → ChangesOnly files names after }
    ensures part { (files after : Option Files) (names : List (List ℕ)) (name bytes : List ℕ)
        → Contains names name → WritesPart files name bytes after → ChangesOnly files names after }
    ensures chained { (files between after : Option Files) (names : List (List ℕ))
        → ChangesOnly files names between → ChangesOnly between names after
        → ChangesOnly files names after }
{}
