//! Single values: numbers, minutes of the day, and steps.

ghost use Rattle.std.specs.Prelude.{◌≡◌, ◌<◌, ◌≤◌, ℕ, List, IfSome, Some};
ghost use Rattle.std.specs.Fmt.{decimal};
ghost use Rattle.season_days.specs.declared.declaration.TheConstants.{MINUTES_OF_DAY};
ghost use Rattle.schedule_text.specs.Times.{time_text};
ghost use Rattle.capacity_file.specs.Values.{is_step};

use schedule_text::read_time;
use slot_text::read_u64;

/// The number that the text spells, if it is at most `most`.
pub(crate) fn read_number(text: &[u8], most: u32) -> Option<u32>
    ensures found { IfSome result (λ n. (n ≤ most) × (text.now ≡ decimal n)) }
    ensures only { (n : ℕ) → n ≤ most → text.now ≡ decimal n → result ≡ Some n }
{
    let value = read_u64(text).ok()?;
    if value > u64::from(most) {
        return None;
    }
    Some(value as u32)
}

/// The minute of the day that hours and minutes spell.
pub(crate) fn read_minute(text: &[u8]) -> Option<u32>
    ensures found { IfSome result
        (λ minute. (minute < MINUTES_OF_DAY) × (text.now ≡ time_text minute)) }
    ensures only { (minute : ℕ) → minute < MINUTES_OF_DAY → text.now ≡ time_text minute →
        result ≡ Some minute }
{
    let minute = read_time(text)?;
    Some(u32::from(minute))
}

/// Whether times that are offered may be so many minutes apart.
pub(crate) fn is_allowed_step(n: u32) -> bool
    ensures { result ≡ is_step n }
{
    n == 5 || n == 10 || n == 15 || n == 20 || n == 30 || n == 60
}
