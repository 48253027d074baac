//! The words of a line.

ghost use Rattle.std.specs.Prelude.{◌≡◌};
ghost use Rattle.slot_text.specs.Fields.{fields_of};
ghost use Rattle.report_page.specs.Filled.{word_at, word_is};
ghost use Rattle.report_page.specs.Rows.{is_profile};

use slot_text::field;

/// The n-th word of a line, counted from 1; of a shorter line no byte.
pub(crate) fn word_at(line: &[u8], n: u32) -> &[u8]
    ensures { result.now ≡ word_at n (fields_of line.now) }
{
    match field(line, n) {
        Some(word) => word,
        None => &[],
    }
}

/// Whether the n-th word of a line is this one.
pub(crate) fn word_is(line: &[u8], n: u32, word: &[u8]) -> bool
    ensures { result ≡ word_is n word.now (fields_of line.now) }
{
    word_at(line, n) == word
}

/// Whether a line tells the load of the capacity line with this number, or of the night quota.
pub(crate) fn is_profile(number: &[u8], line: &[u8]) -> bool
    ensures { result ≡ is_profile number.now (fields_of line.now) }
{
    word_is(line, 1, b"PROFILE") && word_is(line, 2, number)
}
