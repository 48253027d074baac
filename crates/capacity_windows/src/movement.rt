//! Movements.

use season_days::Kind;

/// An arrival or a departure (its kind is never `Tot`), on a day of the season and a minute of that
/// day. The day may lie past the season's last: then no window holds the movement.
#[derive(Clone, Copy, Debug, PartialEq, Eq)]
pub struct Movement {
    pub kind: Kind,
    pub day: u32,
    pub minute: u32,
}
