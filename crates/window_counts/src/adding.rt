//! Adding the uses of parts.

ghost use Rattle.std.specs.Prelude.{◌≡◌, ℕ, ◌^◌, ◌<◌, length, slice_index, All};
ghost use Rattle.choice_problem.specs.Strips.{IsPartInRange};
ghost use Rattle.window_counts.specs.Counts.{listed_uses};

use choice_problem::Part;

// Counts the uses of parts, from counts of 0.
pub(crate) fn add_all(counts: &mut [u32], parts: &[Part])
    requires there { All (λ strips. IsPartInRange (length counts.old) strips) parts.now }
    requires few { (r : ℕ) → r < length counts.old → listed_uses parts.now r < 2 ^ 32 }
    requires empty { (r : ℕ) → r < length counts.old → slice_index counts.old r ≡ 0 }
    ensures { (r : ℕ) → r < length counts.old → slice_index counts.new r ≡ listed_uses parts.now r }
{
    for part in parts {
        part.add_uses(counts);
    }
}
