//! Laws of windows. Each function does nothing; its contract is the law.

ghost use Rattle.std.specs.Prelude.{◌≡◌, ◌⊎◌, ◌<◌, ℕ, true, sum_by};
ghost use Rattle.season_days.specs.declared.declaration.Rule.{Rule};
ghost use Rattle.season_days.specs.declared.declaration.TheConstants.{MINUTES_OF_DAY};
ghost use Rattle.capacity_windows.specs.Windows.{Capacity, IsCapacity, windows_of, declared_resources, resource_at, holds, IsWindowAgo};
ghost use Rattle.capacity_windows.specs.declared.movement.Movement.{Movement};

/// What holds a movement is the night quota, the last number, or a window of a capacity line that
/// begins on the movement's day or on the day before: a window is at most a day long.
pub fn held_windows()
    ensures { (c : Capacity) (m : Movement) (r : ℕ) → IsCapacity c → m.minute < MINUTES_OF_DAY →
        r < declared_resources c → holds c (resource_at c r) m ≡ true →
        (r ≡ sum_by (windows_of c) c.rules)
        ⊎ ((rule ago day start : ℕ) × (of : Rule) × IsWindowAgo c m r rule ago day start of) }
{}
