//! Why an alternative was not given.

use series_model::Times;

/// The lowest resource that an alternative would put above its limit, how often the alternative
/// uses that, and on how many dates a window that it puts above its limit holds one of its
/// movements.
#[derive(Clone, Copy, Debug, PartialEq, Eq)]
pub struct Barred {
    pub resource: u32,
    pub uses: u32,
    pub dates: u32,
}

/// An alternative that costs less than the one that was given, what it costs, and what bars it:
/// none where it fits while all others keep theirs.
#[derive(Clone, Copy, Debug, PartialEq, Eq)]
pub struct Cheaper {
    pub times: Times,
    pub cost: u64,
    pub barred: Option<Barred>,
}

/// Neighbours that are told in one line: the first and the last times, how many they are, the least
/// cost, and what bars them, with the fewest dates.
#[derive(Clone, Copy, Debug, PartialEq, Eq)]
pub struct Row {
    pub first: Times,
    pub last: Times,
    pub count: u32,
    pub cost: u64,
    pub barred: Option<Barred>,
}
