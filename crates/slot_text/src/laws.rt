//! Laws of texts. Each function does nothing; its contract is the law.

ghost use Rattle.std.specs.Prelude.{◌≡◌, ◌≢◌, ◌<◌, ◌^◌, ◌++◌, ◌∷◌, [], List, ℕ};
ghost use Rattle.std.specs.Fmt.{decimal};
ghost use Rattle.slot_text.specs.Fields.{fields_of};
ghost use Rattle.slot_text.specs.Lines.{lines_of};
ghost use Rattle.slot_text.specs.Spelled.{IsLineText, IsFieldText};

/// Where a text is cut behind an LF, its lines are those of the front and then those of the back.
pub fn lines_of_parts()
    ensures { (front back : List ℕ) →
        lines_of ((front ++ 10 ∷ []) ++ back) ≡ lines_of (front ++ 10 ∷ []) ++ lines_of back }
{}

/// A line without control bytes, and its LF, are read as that line.
pub fn spelled_lines()
    ensures { (line rest : List ℕ) → IsLineText line → lines_of (line ++ 10 ∷ rest) ≡ line
        ∷ lines_of rest }
{}

/// A field without blanks and control bytes is read as that field, before a space and at the end of
/// a line. The digits of a number are such a field.
pub fn spelled_fields()
    ensures inside { (field rest : List ℕ) → IsFieldText field → field ≢ [] →
        fields_of (field ++ 32 ∷ rest) ≡ field ∷ fields_of rest }
    ensures last { (field : List ℕ) → IsFieldText field → field ≢ [] → fields_of field ≡ field
        ∷ [] }
    ensures digits { (n : ℕ) → n < 2 ^ 64 → IsFieldText (decimal n) }
{}
