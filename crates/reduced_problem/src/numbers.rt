//! Numbers of things in lists, and how they are mixed into keys.

// The number at a place of a list, or 0 past its end.
pub(crate) fn number_at(numbers: &[u32], at: usize) -> u32 {
    if at < numbers.len() { numbers[at] } else { 0 }
}

// The count at a place of a list, or 0 past its end.
pub(crate) fn count_at(counts: &[usize], at: usize) -> usize {
    if at < counts.len() { counts[at] } else { 0 }
}

// The amount at a place of a list, or 0 past its end.
pub(crate) fn amount_at(amounts: &[u64], at: usize) -> u64 {
    if at < amounts.len() { amounts[at] } else { 0 }
}

// Puts a number at a place of a list, or nowhere past its end.
pub(crate) fn put_number(numbers: &mut [u32], place: u32, number: u32) {
    let at = place as usize;
    if at < numbers.len() {
        numbers[at] = number;
    }
}

// A length as a number, of at most 2^32 - 1.
pub(crate) fn as_number(length: usize) -> u32 {
    if length < 0xffff_ffff {
        length as u32
    } else {
        u32::MAX
    }
}

// Adds an amount at a place of a list, modulo 2^64, or nothing past its end.
pub(crate) fn add_at(amounts: &mut [u64], at: u64, amount: u64) {
    if at < amounts.len() as u64 {
        amounts[at as usize] = amounts[at as usize].wrapping_add(amount);
    }
}

// A number whose bits all depend on all bits of another (the last steps of SplitMix64, by Steele,
// Lea and Flood 2014).
pub(crate) fn mix(number: u64) -> u64 {
    let first = number.wrapping_add(0x9e37_79b9_7f4a_7c15);
    let second = (first ^ (first >> 30)).wrapping_mul(0xbf58_476d_1ce4_e5b9);
    let third = (second ^ (second >> 27)).wrapping_mul(0x94d0_49bb_1331_11eb);
    third ^ (third >> 31)
}
