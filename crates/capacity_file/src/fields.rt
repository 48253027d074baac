//! The fields of a line behind its word: one, three or six.

ghost use Rattle.std.specs.Prelude.{◌≡◌, ℕ, List, [], ◌∷◌, MatchOption};
ghost use Rattle.slot_text.specs.Fields.{fields_of};

use slot_text::split_field;

/// The fields of a night's line behind its word.
#[derive(Clone, Copy)]
pub(crate) struct NightFields<'a> {
    pub from: &'a [u8],
    pub to: &'a [u8],
    pub limit: &'a [u8],
}

/// The fields of a capacity line behind its word.
#[derive(Clone, Copy)]
pub(crate) struct RuleFields<'a> {
    pub kind: &'a [u8],
    pub length: &'a [u8],
    pub from: &'a [u8],
    pub to: &'a [u8],
    pub days: &'a [u8],
    pub limit: &'a [u8],
}

/// The last field, if one is left and no more.
pub(crate) fn last_field(text: &[u8]) -> Option<&[u8]>
    ensures { MatchOption result ((a : List ℕ) → fields_of text.now ≡ a ∷ [] → ⊥)
        (λ a. fields_of text.now ≡ a.now ∷ []) }
{
    let (field, rest) = split_field(text)?;
    match split_field(rest) {
        None => Some(field),
        Some(_) => None,
    }
}

/// Three fields, if no more are left.
pub(crate) fn night_fields(text: &[u8]) -> Option<NightFields<'_>>
    ensures { MatchOption result ((a b c : List ℕ) → fields_of text.now ≡ a ∷ b ∷ c ∷ [] → ⊥)
        (λ x. fields_of text.now ≡ x.from.now ∷ x.to.now ∷ x.limit.now ∷ []) }
{
    let (from, rest) = split_field(text)?;
    let (to, rest) = split_field(rest)?;
    let limit = last_field(rest)?;
    Some(NightFields { from, to, limit })
}

/// Six fields, if no more are left.
pub(crate) fn rule_fields(text: &[u8]) -> Option<RuleFields<'_>>
    ensures { MatchOption result
        ((a b c d e f : List ℕ) → fields_of text.now ≡ a ∷ b ∷ c ∷ d ∷ e ∷ f ∷ [] → ⊥)
        (λ x. fields_of text.now ≡ x.kind.now ∷ x.length.now ∷ x.from.now ∷ x.to.now
        ∷ x.days.now ∷ x.limit.now ∷ []) }
{
    let (kind, rest) = split_field(text)?;
    let (length, rest) = split_field(rest)?;
    let (from, rest) = split_field(rest)?;
    let (to, rest) = split_field(rest)?;
    let (days, rest) = split_field(rest)?;
    let limit = last_field(rest)?;
    Some(RuleFields {
        kind,
        length,
        from,
        to,
        days,
        limit,
    })
}
