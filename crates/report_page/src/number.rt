//! Numbers of a report.

ghost use Rattle.std.specs.Prelude.{◌≡◌};
ghost use Rattle.report_page.specs.Filled.{next_number, number_of, minute_of};

// The number with one more digit, modulo 2^64.
fn with_digit(number: u64, digit: u8) -> u64
    ensures { result ≡ next_number number digit }
{
    number
        .wrapping_mul(10)
        .wrapping_add(u64::from(digit.saturating_sub(b'0')))
}

/// The number that a word of digits spells, modulo 2^64.
pub(crate) fn number_of(word: &[u8]) -> u64
    ensures { result ≡ number_of word.now }
{
    let mut number = 0;
    for digit in word {
        number = with_digit(number, *digit);
    }
    number
}

/// The minute of the day that a word of hours and minutes spells.
pub(crate) fn minute_of(word: &[u8]) -> u64
    ensures { result ≡ minute_of word.now }
{
    let number = number_of(word);
    number / 100 * 60 + number % 100
}
