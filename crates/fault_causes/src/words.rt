//! The words of lines of a capacity file, and its limits.

ghost use Rattle.std.specs.Prelude.{◌≡◌, MatchOption};
ghost use Rattle.fault_causes.specs.Causes.{line_word_text};
ghost use Rattle.fault_causes.specs.Capacities.{needed, most_of};
ghost use Rattle.fault_causes.specs.declared.cause.LineWord.{LineWord as LineWordValue};

use crate::cause::LineWord;
use capacity_file::{CapLimit, CapWord, MOST_FLEX};
use season_days::{MOST_RULES, MOST_WINDOWS};

/// The word that a text is.
pub(crate) fn line_word(text: &[u8]) -> Option<LineWord>
    ensures { MatchOption result ((word : LineWordValue) → text.now ≡ line_word_text word → ⊥)
        (λ word. text.now ≡ line_word_text word) }
{
    match text {
        b"AIRPORT" => Some(LineWord::Airport),
        b"SEASON" => Some(LineWord::Season),
        b"STEP" => Some(LineWord::Step),
        b"FLEX" => Some(LineWord::Flex),
        b"GROUND" => Some(LineWord::Ground),
        b"SHARE" => Some(LineWord::Share),
        b"REFUSE" => Some(LineWord::Refuse),
        b"NIGHT" => Some(LineWord::Night),
        b"CAP" => Some(LineWord::Cap),
        _ => None,
    }
}

/// The word of a line that is missing.
pub(crate) fn needed(word: CapWord) -> LineWord
    ensures { result ≡ needed word }
{
    match word {
        CapWord::Airport => LineWord::Airport,
        CapWord::Season => LineWord::Season,
        CapWord::Step => LineWord::Step,
        CapWord::Flex => LineWord::Flex,
        CapWord::Ground => LineWord::Ground,
        CapWord::Refuse => LineWord::Refuse,
    }
}

/// The limit of a declaration.
pub(crate) fn most_of(limit: CapLimit) -> u64
    ensures { result ≡ most_of limit }
{
    match limit {
        CapLimit::Flex => u64::from(MOST_FLEX),
        CapLimit::Caps => u64::from(MOST_RULES),
        CapLimit::Windows => u64::from(MOST_WINDOWS),
    }
}
