//! The capacity declaration of an airport in a season.

ghost use Rattle.std.specs.Prelude.{◌≡◌, IfOk};

use crate::season::Season;
use slot_text::{Memory, Station};
use std::alloc::Global;
use std::marker::Model;

/// Minutes of a day. A minute of the day is below this number.
pub const MINUTES_OF_DAY: u32 = 1440;

/// The most capacity lines that a declaration may have.
pub const MOST_RULES: u32 = 64;

/// The most windows that a declaration may have, the night quota counted as one.
pub const MOST_WINDOWS: u32 = 1_000_000;

/// The highest limit of a window.
pub const HIGHEST_WINDOW_LIMIT: u32 = 9_999;

/// The highest limit of the night quota.
pub const HIGHEST_NIGHT_LIMIT: u32 = 999_999;

/// The highest price of a refused movement on one date, in minutes.
pub const HIGHEST_REFUSAL_PRICE: u32 = 9_999;

/// The highest share of new entrants, in per cent.
pub const HIGHEST_SHARE: u32 = 100;

/// Which movements a window holds: arrivals, departures, or both.
#[derive(Clone, Copy, Debug, PartialEq, Eq)]
pub enum Kind {
    Arr,
    Dep,
    Tot,
}

/// A capacity line. On each day of the season whose weekday is in `days` (bit 0 is Monday) it has
/// windows of `length` minutes, the first from minute `from` of the day and then one each step of
/// the declaration up to minute `to`. No window may have more than `limit` movements of the kind.
#[derive(Clone, Copy, Debug, PartialEq, Eq)]
pub struct Rule {
    pub kind: Kind,
    pub length: u32,
    pub from: u32,
    pub to: u32,
    pub days: u8,
    pub limit: u32,
}

/// A quota of movements at night over the whole season. The night begins at minute `from` of the
/// day and ends before minute `to`; where `from` is the later one it reaches over midnight.
#[derive(Clone, Copy, Debug, PartialEq, Eq)]
pub struct Night {
    pub from: u32,
    pub to: u32,
    pub limit: u32,
}

/// The capacity lines of a declaration, in the order of the file.
#[derive(Drop)]
pub struct RuleList {
    items: Vec<Rule>,
}

impl Model for RuleList {
    ghost use Rattle.std.specs.Prelude.{List};
    ghost use Rattle.season_days.specs.declared.declaration.Rule.{Rule};

    ghost Value = { List Rule };

    ghost view = { λ l. l.items.items };
}

impl RuleList {
    /// A list of these capacity lines. It takes no memory.
    pub fn new(items: Vec<Rule>) -> RuleList
        ensures { result ≡ items.items }
    {
        RuleList { items }
    }

    /// The capacity lines, in their order.
    pub fn items(&self) -> &[Rule]
        ensures { result.now ≡ self.now }
    {
        &self.items
    }

    /// The same capacity lines again.
    pub fn copy(&self, alloc: Global) -> Result<RuleList, Memory>
        ensures { IfOk result (λ copy. copy ≡ self.now) }
    {
        Ok(RuleList::new(Vec::from_slice(alloc, &self.items)?))
    }
}

/// The declared capacity of an airport in a season, and how requests may be moved.
#[derive(Drop)]
pub struct Declaration {
    pub airport: Station,
    pub season: Season,
    /// Minutes between two times that may be offered, and between the starts of two windows of a
    /// line.
    pub step: u32,
    /// How many minutes at most a new request may be moved to either side.
    pub flex: u32,
    /// The least ground time of a turnaround, in minutes, where it asked for no less.
    pub ground: u32,
    /// The part of the remaining capacity that new entrants may have first, in per cent.
    pub share: u32,
    /// The price of a refused movement on one date, in minutes. Where there is none, nothing may be
    /// refused.
    pub refuse: Option<u32>,
    pub night: Option<Night>,
    pub rules: RuleList,
}

impl Declaration {
    /// The same declaration again.
    pub fn copy(&self, alloc: Global) -> Result<Declaration, Memory>
        ensures { IfOk result (λ copy. copy ≡ self.now) }
    {
        Ok(Declaration {
            airport: self.airport,
            season: self.season,
            step: self.step,
            flex: self.flex,
            ground: self.ground,
            share: self.share,
            refuse: self.refuse,
            night: self.night,
            rules: self.rules.copy(alloc)?,
        })
    }
}
