//! A run of the starts of a capacity line.

// The windows of a capacity line at some of its starts, on the day some days before a movement's:
// the starts from `low` on and below `high` of the `starts` of a day, where `first` is the number
// of the line's first window.
#[derive(Clone, Copy, Debug, PartialEq, Eq)]
pub(crate) struct Band {
    pub days: u8,
    pub first: u32,
    pub starts: u32,
    pub low: u32,
    pub high: u32,
    pub ago: u32,
}
