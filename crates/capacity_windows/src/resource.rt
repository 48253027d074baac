//! What the numbers of resources stand for.

use season_days::{Night, Rule};

/// What a number stands for: the window of a capacity line on a day that begins at one of the
/// line's starts, counted from 0; the night quota; or nothing.
#[derive(Clone, Copy, Debug, PartialEq, Eq)]
pub enum Resource {
    Window { rule: Rule, day: u32, start: u32 },
    Quota(Night),
    Nothing,
}
