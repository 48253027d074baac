//! Entries of lists by their place, where a place beyond the end holds 0, or no number, and takes
//! nothing.

// The least size of a pivot.
pub(crate) const LEAST_PIVOT: f64 = 0.000000001;

// How far above a limit, or below 0, a value passes it.
pub(crate) const PASSED: f64 = 0.0000001;

// What counts as 0.
pub(crate) const NOTHING: f64 = 0.000000000001;

// The number at a place.
pub(crate) fn value_at(values: &[f64], place: usize) -> f64 {
    match values.get(place) {
        Some(value) => *value,
        None => 0.0,
    }
}

// The number of a thing at a place, or `u32::MAX`, which is no number of a thing, past the end.
pub(crate) fn number_or_max(numbers: &[u32], place: usize) -> u32 {
    match numbers.get(place) {
        Some(number) => *number,
        None => u32::MAX,
    }
}

// Whether the flag at a place is set.
pub(crate) fn is_set(flags: &[bool], place: usize) -> bool {
    match flags.get(place) {
        Some(flag) => *flag,
        None => false,
    }
}

// Whether the bit at a place is set, in words of 64 bits. Past the end all are.
pub(crate) fn has_bit(words: &[u64], place: u32) -> bool {
    match words.get((place / 64) as usize) {
        Some(word) => *word & bit_at(place) != 0,
        None => true,
    }
}

// Sets the bit at a place.
pub(crate) fn put_bit(words: &mut [u64], place: u32) {
    if let Some(word) = words.get_mut((place / 64) as usize) {
        *word |= bit_at(place);
    }
}

// The bit of a place in its word.
fn bit_at(place: u32) -> u64 {
    1 << (place % 64)
}

// Whether a number is among these.
pub(crate) fn is_among(numbers: &[u32], number: u32) -> bool {
    for other in numbers {
        if *other == number {
            return true;
        }
    }
    false
}

// How many numbers are looked at side by side.
const AT_ONCE: usize = 4;

// The least of some numbers, or 0 where it is less.
pub(crate) fn least_or_zero(values: &[f64]) -> f64 {
    let (blocks, rest) = values.as_chunks::<AT_ONCE>();
    let mut leasts = [0.0; AT_ONCE];
    for block in blocks {
        leasts[0] = lesser(block[0], leasts[0]);
        leasts[1] = lesser(block[1], leasts[1]);
        leasts[2] = lesser(block[2], leasts[2]);
        leasts[3] = lesser(block[3], leasts[3]);
    }
    lesser(least_of(&leasts), least_of(rest))
}

// The least of some numbers, or 0 where it is less, looked at one after another.
fn least_of(values: &[f64]) -> f64 {
    let mut least = 0.0;
    for value in values {
        least = lesser(*value, least);
    }
    least
}

// The lesser of two numbers.
fn lesser(one: f64, other: f64) -> f64 {
    if one < other { one } else { other }
}

// The sum of the squares of the differences of the numbers of two lists of equal
// length.
pub(crate) fn square_distance(values: &[f64], others: &[f64]) -> f64 {
    let (blocks, rest) = values.as_chunks::<AT_ONCE>();
    let (other_blocks, other_rest) = others.as_chunks::<AT_ONCE>();
    let mut sums = [0.0; AT_ONCE];
    for (block, other) in blocks.iter().zip(other_blocks) {
        sums[0] += square(block[0] - other[0]);
        sums[1] += square(block[1] - other[1]);
        sums[2] += square(block[2] - other[2]);
        sums[3] += square(block[3] - other[3]);
    }
    sums[0] + sums[1] + sums[2] + sums[3] + rest_distance(rest, other_rest)
}

// The sum of the squares of the differences of the numbers of two lists.
fn rest_distance(values: &[f64], others: &[f64]) -> f64 {
    let mut total = 0.0;
    for (value, other) in values.iter().zip(others) {
        total += square(*value - *other);
    }
    total
}

// The square of a number.
fn square(value: f64) -> f64 {
    value * value
}

// The place that is so many after another one.
pub(crate) fn place_after(first: u32, number: usize) -> u32 {
    first.saturating_add(u32::try_from(number).unwrap_or(u32::MAX))
}

// The numbers from one place to another.
pub(crate) fn part_of(values: &[f64], span: (usize, usize)) -> &[f64] {
    let (first, end) = span;
    if first <= end && end <= values.len() {
        &values[first..end]
    } else {
        &[]
    }
}

// Puts a number at a place.
pub(crate) fn put(values: &mut [f64], place: usize, value: f64) {
    if let Some(slot) = values.get_mut(place) {
        *slot = value;
    }
}

// Adds to the number at a place.
pub(crate) fn add(values: &mut [f64], place: usize, value: f64) {
    if let Some(slot) = values.get_mut(place) {
        *slot += value;
    }
}

// Puts the number of a thing at a place.
pub(crate) fn put_number(numbers: &mut [u32], place: usize, number: u32) {
    if let Some(slot) = numbers.get_mut(place) {
        *slot = number;
    }
}

// Sets or clears the flag at a place.
pub(crate) fn put_flag(flags: &mut [bool], place: usize, flag: bool) {
    if let Some(slot) = flags.get_mut(place) {
        *slot = flag;
    }
}

// Puts one value into each place.
pub(crate) fn fill(values: &mut [f64], value: f64) {
    for slot in values.iter_mut() {
        *slot = value;
    }
}

// Copies numbers into the places of others.
pub(crate) fn copy_into(values: &mut [f64], from: &[f64]) {
    for (slot, value) in values.iter_mut().zip(from) {
        *slot = *value;
    }
}

// Copies the numbers from one place to another.
pub(crate) fn copy_span(values: &mut [f64], from: &[f64], span: (usize, usize)) {
    let (first, end) = span;
    if first <= end && end <= values.len() {
        copy_into(&mut values[first..end], part_of(from, span));
    }
}

// Adds one list of numbers to another.
pub(crate) fn add_each(values: &mut [f64], other: &[f64]) {
    for (slot, value) in values.iter_mut().zip(other) {
        *slot += *value;
    }
}

// Adds a multiple of one list of numbers to another.
pub(crate) fn add_multiple(values: &mut [f64], other: &[f64], by: f64) {
    for (slot, value) in values.iter_mut().zip(other) {
        *slot += by * *value;
    }
}

// Adds a multiple of one list of numbers to another, from one place to another.
pub(crate) fn add_span(values: &mut [f64], other: &[f64], span: (usize, usize), by: f64) {
    let (first, end) = span;
    if first <= end && end <= values.len() {
        add_multiple(&mut values[first..end], part_of(other, span), by);
    }
}

// Makes the numbers from one place to another 0.
pub(crate) fn clear_span(values: &mut [f64], span: (usize, usize)) {
    let (first, end) = span;
    if first <= end && end <= values.len() {
        fill(&mut values[first..end], 0.0);
    }
}

// The sum of the products of two lists of numbers.
pub(crate) fn product(one: &[f64], other: &[f64]) -> f64 {
    let mut total = 0.0;
    for (left, right) in one.iter().zip(other) {
        total += *left * *right;
    }
    total
}

// The greater of a number and 0.
pub(crate) fn above_zero(value: f64) -> f64 {
    if value > 0.0 { value } else { 0.0 }
}

// The size of a number.
pub(crate) fn size_of_number(value: f64) -> f64 {
    if value < 0.0 { -value } else { value }
}
