//! Days of operation: as seven places, or as rising digits.

ghost use Rattle.std.specs.Prelude.{◌≡◌, ◌<◌, ◌≤◌, ◌↔◌, ◌++◌, [], ℕ, List, IfSome, IfNone, IsSomeAnd, IsTrue, Some, length, slice_index_or};
ghost use Rattle.schedule_text.specs.Days.{IsDays, days_text, place_of_day, rising_text, rising_digit};
ghost use Rattle.schedule_text.specs.Bits.{bit_of_place, digit_bit, digit_bits};

/// The days of operation that the text names, bit 0 for Monday to bit 6 for Sunday: seven places,
/// each with the digit of its weekday or 0 (`1030500`), or one to six rising digits (`135`). None
/// for every other text.
pub fn read_weekdays(text: &[u8]) -> Option<u8>
    ensures found { IfSome result (λ days. IsDays text.now days) }
    ensures only { (days : ℕ) → IsDays text.now days → result ≡ Some days }
{
    if text.len() == 7 {
        return read_places(text);
    }
    read_rising(text)
}

/// The weekdays of one to six rising digits.
fn read_rising(text: &[u8]) -> Option<u8>
    ensures found { IfSome result
        (λ days. (days < 128) × (text.now ≡ rising_text days) × (1 ≤ length text.now)
        × (length text.now ≤ 6)) }
    ensures only { (days : ℕ) → days < 128 → text.now ≡ rising_text days → 1 ≤ length text.now →
        length text.now ≤ 6 → result ≡ Some days }
{
    if text.is_empty() {
        return None;
    }
    if text.len() > 6 {
        return None;
    }
    let days = sum_bits(text);
    if days >= 128 {
        return None;
    }
    let days = days as u8;
    if is_rising(days, text) {
        Some(days)
    } else {
        None
    }
}

/// The bits of the weekdays whose digits stand at six places.
fn sum_bits(text: &[u8]) -> u16
    ensures { result ≡ digit_bits text.now }
{
    day_bit(text, 0)
        + day_bit(text, 1)
        + day_bit(text, 2)
        + day_bit(text, 3)
        + day_bit(text, 4)
        + day_bit(text, 5)
}

/// The bit of the weekday whose digit stands at a place.
fn day_bit(text: &[u8], place: usize) -> u16
    ensures exact { result ≡ digit_bit (slice_index_or text.now place 0) }
    ensures bound { result ≤ 64 }
{
    let Some(b) = text.get(place) else {
        return 0;
    };
    match *b {
        b'1' => 1,
        b'2' => 2,
        b'3' => 4,
        b'4' => 8,
        b'5' => 16,
        b'6' => 32,
        b'7' => 64,
        _ => 0,
    }
}

/// Whether a text has the digits of the weekdays.
fn is_rising(days: u8, text: &[u8]) -> bool
    ensures { IsTrue result ↔ (text.now ≡ rising_text days) }
{
    is_some_and_empty(strip_week(days, text))
}

fn is_some_and_empty(rest: Option<&[u8]>) -> bool
    ensures { IsTrue result ↔ IsSomeAnd rest.entry (λ r. r.now ≡ []) }
{
    match rest {
        Some(text) => text.is_empty(),
        None => false,
    }
}

/// What follows the digits of the weekdays.
fn strip_week(days: u8, text: &[u8]) -> Option<&[u8]>
    ensures found { IfSome result (λ rest. text.now ≡ rising_text days ++ rest.now) }
    ensures only { text.now ≡ rising_text days → IsSomeAnd result (λ rest. rest.now ≡ []) }
{
    let rest = strip_day(days, 1, text)?;
    let rest = strip_day(days, 2, rest)?;
    let rest = strip_day(days, 3, rest)?;
    let rest = strip_day(days, 4, rest)?;
    let rest = strip_day(days, 5, rest)?;
    let rest = strip_day(days, 6, rest)?;
    strip_day(days, 7, rest)
}

/// What follows the digit of a weekday, if it is in the set.
fn strip_day(days: u8, weekday: u8, text: &[u8]) -> Option<&[u8]>
    requires { (1 ≤ weekday) × (weekday ≤ 7) }
    ensures found { IfSome result (λ rest. text.now ≡ rising_digit days weekday ++ rest.now) }
    ensures only { (rest : List ℕ) → text.now ≡ rising_digit days weekday ++ rest →
        IsSomeAnd result (λ r. r.now ≡ rest) }
{
    if (days >> (weekday - 1)) % 2 != 1 {
        return Some(text);
    }
    match text {
        [b, rest @ ..] if *b == b'0' + weekday => Some(rest),
        _ => None,
    }
}

/// The days of operation that seven places name, bit 0 for Monday: each place has the digit of its
/// weekday or 0 (`1030500`). None for every other text.
pub fn read_places(text: &[u8]) -> Option<u8>
    ensures found { IfSome result (λ days. (days < 128) × (text.now ≡ days_text days)) }
    ensures only { (days : ℕ) → days < 128 → text.now ≡ days_text days → result ≡ Some days }
{
    let days = bits_of(text)?;
    if text == places_of(days).as_slice() {
        Some(days)
    } else {
        None
    }
}

/// The bits of seven places, of which each holds 0 or a digit.
fn bits_of(text: &[u8]) -> Option<u8>
    ensures week { IfSome result (λ days. days < 128) }
    ensures only { IfSome result (λ days. (named : ℕ) → named < 128 → text.now ≡ days_text named →
        days ≡ named) }
    ensures none { IfNone result ((named : ℕ) → text.now ≡ days_text named → ⊥) }
{
    let [
        monday,
        tuesday,
        wednesday,
        thursday,
        friday,
        saturday,
        sunday,
    ] = text
    else {
        return None;
    };
    let days = bit(*monday)
        + 2 * bit(*tuesday)
        + 4 * bit(*wednesday)
        + 8 * bit(*thursday)
        + 16 * bit(*friday)
        + 32 * bit(*saturday)
        + 64 * bit(*sunday);
    Some(days)
}

/// 1 where the place holds the digit of its weekday.
fn bit(place: u8) -> u8
    ensures value { result ≡ bit_of_place place }
    ensures bound { result ≤ 1 }
{
    if place == b'0' { 0 } else { 1 }
}

/// The seven places of a set of weekdays, as `1030500`.
pub fn places_of(days: u8) -> [u8; 7]
    ensures { result ≡ days_text days }
{
    [
        place_of(days, 1),
        place_of(days, 2),
        place_of(days, 3),
        place_of(days, 4),
        place_of(days, 5),
        place_of(days, 6),
        place_of(days, 7),
    ]
}

fn place_of(days: u8, weekday: u8) -> u8
    requires { (1 ≤ weekday) × (weekday ≤ 7) }
    ensures { result ≡ place_of_day days weekday }
{
    if (days >> (weekday - 1)) % 2 == 1 {
        b'0' + weekday
    } else {
        b'0'
    }
}
