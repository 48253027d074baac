//! The words of lines, and what a line states.

use season_days::{Night, Rule, Season};
use slot_text::Station;

/// The word with which a line begins.
#[derive(Clone, Copy, Debug, PartialEq, Eq)]
pub(crate) enum Word {
    Airport,
    Season,
    Step,
    Flex,
    Ground,
    Share,
    Refuse,
    Night,
    Cap,
}

/// What a line states.
#[derive(Clone, Copy, Debug, PartialEq, Eq)]
pub(crate) enum Entry {
    Airport(Station),
    Season(Season),
    Step(u32),
    Flex(u64),
    Ground(u32),
    Share(u32),
    Refuse(Option<u32>),
    Night(Night),
    Cap(Rule),
}
