//! Laws of the calls of a disk, for callers that make several.
ghost use Rattle.std.specs.Prelude.{◌≡◌, ◌++◌, ◌∷◌, [], ℕ, List};
ghost use Rattle.desk_disk.specs.Stops.{DiskPassage, ReadAfter, LeftAfter, DiskStart, MayRead};
ghost use Rattle.desk_disk.specs.Stops.{MayLeave};
ghost use Rattle.desk_disk.specs.Disks.{shown_by, shown_length};

/// What may be read and what a stop may leave after calls that were made in two parts; that the
/// file as it reads is among the images that a stop may leave; and what one call more shows of the
/// length.
pub fn joined_calls()
    ensures read { (s : DiskStart) (log more : List DiskPassage) (c : List ℕ)
        → MayRead s (log ++ more) c → ReadAfter (MayRead s log) more c }
    ensures read_back { (s : DiskStart) (log more : List DiskPassage) (c : List ℕ)
        → ReadAfter (MayRead s log) more c → MayRead s (log ++ more) c }
    ensures left { (s : DiskStart) (log more : List DiskPassage) (c : List ℕ)
        → MayLeave s (log ++ more) c → LeftAfter (MayRead s log) (MayLeave s log) more c }
    ensures left_back { (s : DiskStart) (log more : List DiskPassage) (c : List ℕ)
        → LeftAfter (MayRead s log) (MayLeave s log) more c → MayLeave s (log ++ more) c }
    ensures among { (s : DiskStart) (log : List DiskPassage) (c : List ℕ)
        → MayRead s log c → MayLeave s log c }
    ensures shown { (log : List DiskPassage) (passage : DiskPassage)
        → shown_length (log ++ passage ∷ []) ≡ shown_by passage (shown_length log) }
{}
