//! Which word a field is.

ghost use Rattle.std.specs.Prelude.{◌≡◌, MatchOption};
ghost use Rattle.capacity_file.specs.Words.{word_text};
ghost use Rattle.capacity_file.specs.declared.entry.Word.{Word as WordValue};

use crate::entry::Word;

/// The word that a field is.
pub(crate) fn read_word(text: &[u8]) -> Option<Word>
    ensures { MatchOption result ((word : WordValue) → text.now ≡ word_text word → ⊥)
        (λ word. text.now ≡ word_text word) }
{
    match text {
        b"AIRPORT" => Some(Word::Airport),
        b"SEASON" => Some(Word::Season),
        b"STEP" => Some(Word::Step),
        b"FLEX" => Some(Word::Flex),
        b"GROUND" => Some(Word::Ground),
        b"SHARE" => Some(Word::Share),
        b"REFUSE" => Some(Word::Refuse),
        b"NIGHT" => Some(Word::Night),
        b"CAP" => Some(Word::Cap),
        _ => None,
    }
}
