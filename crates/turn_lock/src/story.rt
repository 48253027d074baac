//! Values that have a history.
ghost use Rattle.std.specs.Prelude.{◌≡◌, ℕ, List, length};

/// A value of such a type stands for an origin and for entries in a list; each entry has its
/// caller's number.
///
/// The origin is what the value was made with, as the state before the first entry. No seat changes
/// it.
pub trait Story: Drop {
    /// Proofs alone have values of it.
    type Origin;

    /// Proofs alone need values of it.
    type Entry;

    ghost origin: { Self → Self.Origin };

    ghost entries: { Self → List Self.Entry };

    ghost caller: { Self.Entry → ℕ };

    /// The number of entries. Each [`Turn::take`](crate::Turn::take) and
    /// [`Turn::give`](crate::Turn::give) asks it once, so it should not count them anew.
    fn length(&self) -> u64
        ensures { result ≡ length (entries self.now) };
}
