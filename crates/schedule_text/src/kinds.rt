//! The words of the kinds of movements.

ghost use Rattle.std.specs.Prelude.{◌≡◌, MatchOption};
ghost use Rattle.season_days.specs.declared.declaration.Kind.{Kind as KindValue};
ghost use Rattle.schedule_text.specs.Kinds.{kind_text};

use season_days::Kind;

/// The movements that a word names: `ARR`, `DEP`, or `TOT` for both. None for every other text.
pub fn read_kind(text: &[u8]) -> Option<Kind>
    ensures { MatchOption result ((kind : KindValue) → text.now ≡ kind_text kind → ⊥)
        (λ kind. text.now ≡ kind_text kind) }
{
    match text {
        b"ARR" => Some(Kind::Arr),
        b"DEP" => Some(Kind::Dep),
        b"TOT" => Some(Kind::Tot),
        _ => None,
    }
}

/// The word that names the movements of a kind.
pub fn kind_text(kind: Kind) -> [u8; 3]
    ensures { result ≡ kind_text kind }
{
    match kind {
        Kind::Arr => *b"ARR",
        Kind::Dep => *b"DEP",
        Kind::Tot => *b"TOT",
    }
}
