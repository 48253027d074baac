//! Marks in words of 64 bits.

ghost use Rattle.std.specs.Prelude.{◌≡◌, ◌≢◌, ◌↔◌, ℕ, ◌+◌, ◌*◌, ◌^◌, ◌<◌, ◌≤◌, length, if◌then◌else◌, IsTrue};
ghost use Rattle.std.specs.Int.{bit_at};
ghost use Rattle.left_counts.specs.Private.Marks.{mark_at};

// The word of which `count` bits from `low` on are 1.
fn mask(low: u32, count: u32) -> u64
    requires some { 0 < count }
    requires within { low + count ≤ 64 }
    ensures inside { (i : ℕ) → low ≤ i → i < low + count → bit_at result i ≡ 1 }
    ensures below { (i : ℕ) → i < low → bit_at result i ≡ 0 }
    ensures above { (i : ℕ) → low + count ≤ i → bit_at result i ≡ 0 }
{
    (u64::MAX >> (64 - count)) << low
}

// Whether `count` of a word's bits from `low` on are 0.
fn has_none(word: u64, low: u32, count: u32) -> bool
    requires some { 0 < count }
    requires within { low + count ≤ 64 }
    ensures { IsTrue result ↔ ((i : ℕ) → low ≤ i → i < low + count → bit_at word i ≡ 0) }
{
    word & mask(low, count) == 0
}

/// Whether no place from one to another is marked: one step where they lie in one word.
pub(crate) fn are_clear(words: &[u64], start: usize, end: usize) -> bool
    requires there { end ≤ 64 * length words.now }
    ensures { IsTrue result ↔ ((r : ℕ) → start ≤ r → r < end → mark_at words.now r ≡ 0) }
{
    if start >= end {
        return true;
    }
    if start / 64 != (end - 1) / 64 {
        return are_clear_across(words, start, end);
    }
    has_none(words[start / 64], (start % 64) as u32, (end - start) as u32)
}

// The same, by one step for each word that the places reach.
fn are_clear_across(words: &[u64], start: usize, end: usize) -> bool
    requires there { end ≤ 64 * length words.now }
    ensures { IsTrue result ↔ ((r : ℕ) → start ≤ r → r < end → mark_at words.now r ≡ 0) }
{
    let mut at = start;
    while at < end {
        let low = at % 64;
        let count = (end - at).min(64 - low);
        if !has_none(words[at / 64], low as u32, count as u32) {
            return false;
        }
        at += count;
    }
    true
}

// A word with one bit set or cleared.
fn with_bit(word: u64, bit: u32, is_set: bool) -> u64
    requires { bit < 64 }
    ensures set { bit_at result bit ≡ (if is_set then 1 else 0) }
    ensures others { (i : ℕ) → i < 64 → i ≢ bit → bit_at result i ≡ bit_at word i }
{
    if is_set {
        word | (1 << bit)
    } else {
        word & !(1 << bit)
    }
}

// Whether a bit of a word is 1.
fn has_bit(word: u64, bit: u32) -> bool
    requires { bit < 64 }
    ensures { bit_at word bit ≡ (if result then 1 else 0) }
{
    word & (1 << bit) != 0
}

/// Marks a place, or takes its mark away. Nothing is written where it is as it shall be.
pub(crate) fn set_mark(words: &mut [u64], at: usize, is_set: bool)
    requires { at < 64 * length words.old }
    ensures length { length words.new ≡ length words.old }
    ensures set { mark_at words.new at ≡ (if is_set then 1 else 0) }
    ensures others { (r : ℕ) → r ≢ at → mark_at words.new r ≡ mark_at words.old r }
{
    let word = words[at / 64];
    let bit = (at % 64) as u32;
    if has_bit(word, bit) != is_set {
        words[at / 64] = with_bit(word, bit, is_set);
    }
}
