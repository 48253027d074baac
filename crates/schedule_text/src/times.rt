//! Times of the day, and numbers of two digits.

ghost use Rattle.std.specs.Prelude.{◌≡◌, ◌<◌, ℕ, IfSome, Some};
ghost use Rattle.season_days.specs.declared.declaration.TheConstants.{MINUTES_OF_DAY};
ghost use Rattle.schedule_text.specs.Times.{two_digits, time_text};

const HOURS_OF_DAY: u8 = 24;

const MINUTES_OF_HOUR: u8 = 60;

/// The minute of the day that the text names: two digits of hours and two of minutes, from `0000`
/// to `2359`. None for every other text.
pub fn read_time(text: &[u8]) -> Option<u16>
    ensures found { IfSome result
        (λ minute. (minute < MINUTES_OF_DAY) × (text.now ≡ time_text minute)) }
    ensures only { (minute : ℕ) → minute < MINUTES_OF_DAY → text.now ≡ time_text minute →
        result ≡ Some minute }
{
    if text.len() != 4 {
        return None;
    }
    let (front, back) = text.split_at(2);
    let hour = read_two_digits(front)?;
    let minute = read_two_digits(back)?;
    if hour >= HOURS_OF_DAY {
        return None;
    }
    if minute >= MINUTES_OF_HOUR {
        return None;
    }
    Some(u16::from(MINUTES_OF_HOUR) * u16::from(hour) + u16::from(minute))
}

/// The number below 100 that exactly two digits spell, as `07`. None for every other text.
pub fn read_two_digits(text: &[u8]) -> Option<u8>
    ensures found { IfSome result (λ n. (n < 100) × (text.now ≡ two_digits n)) }
    ensures only { (n : ℕ) → n < 100 → text.now ≡ two_digits n → result ≡ Some n }
{
    match text {
        [tens @ b'0'..=b'9', ones @ b'0'..=b'9'] => Some(10 * (tens - b'0') + (ones - b'0')),
        _ => None,
    }
}
