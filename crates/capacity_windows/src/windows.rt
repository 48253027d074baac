//! The windows of a declaration, their numbers and limits.

ghost use Rattle.std.specs.Prelude.{◌≡◌, nat_lt, ◌+◌, ◌*◌, ◌<◌, ◌≤◌, IfOk, IfSome, IfNone, IsNone, ◌↔◌, slice_get, length, sum_by, take};
ghost use Rattle.std.specs.Option.{ForSome};
ghost use Rattle.season_days.specs.Seasons.{date_count, is_on};
ghost use Rattle.season_days.specs.declared.declaration.Night.{Night};
ghost use Rattle.season_days.specs.declared.declaration.Rule.{Rule};
ghost use Rattle.season_days.specs.declared.season.TheConstants.{MOST_DATES};
ghost use Rattle.season_days.specs.declared.declaration.TheConstants.{MINUTES_OF_DAY, MOST_RULES, MOST_WINDOWS, HIGHEST_NIGHT_LIMIT};
ghost use Rattle.capacity_windows.specs.Windows.{Capacity, IsCapacity, IsRule, capacity_of, starts_of, windows_of, first_of, declared_resources, resource_at, window_limit, start_of};
ghost use Rattle.capacity_windows.specs.Kept.{IsResource};
ghost use Rattle.capacity_windows.specs.declared.resource.Resource.TheVariants.{Window, Quota};

use crate::resource::Resource;
use season_days::{Day, Declaration, Night, Rule, Season};
use slot_text::Memory;
use std::alloc::Global;
use std::marker::Model;

/// The windows of a declaration, and its night quota. Both are resources: each has a number, from
/// 0, and a limit on the movements that it may hold. Windows come capacity line by capacity line in
/// the order of the file, then day by day, then start by start; the night quota comes last. Lines
/// with equal values have windows of their own.
#[derive(Drop)]
pub struct Windows {
    season: Season,
    days: u32,
    step: u32,
    night: Option<Night>,
    rules: Vec<Rule>,
    resources: u32,
}

impl Model for Windows {
    ghost use Rattle.capacity_windows.specs.Windows.{Capacity};
    ghost use Rattle.capacity_windows.specs.Kept.{IsKept};

    ghost Value = { Capacity };

    ghost view = { λ w. record {
      season = w.season;
      step = w.step;
      night = w.night;
      rules = w.rules.items;
    } };

    ghost invariant = { λ w. IsKept
        (record {
          season = w.season;
          step = w.step;
          night = w.night;
          rules = w.rules.items;
        }) w.days w.resources };
}

impl Windows {
    /// The windows of a declaration that keeps the limits: a step above 0, at most 64 capacity
    /// lines within a day, and at most 1,000,000 resources. The capacity lines are copied; the one
    /// fault is want of memory.
    pub fn new(alloc: Global, declaration: &Declaration) -> Result<Windows, Memory>
        requires limits { IsCapacity (capacity_of declaration.now) }
        ensures value { IfOk result (λ windows. windows ≡ capacity_of declaration.now) }
    {
        let rules = Vec::from_slice(alloc, declaration.rules.items())?;
        let season = declaration.season;
        let resources = season.count_windows(declaration.step, &declaration.night, &rules) as u32;
        Ok(Windows {
            season,
            days: season.length(),
            step: declaration.step,
            night: declaration.night,
            rules,
            resources,
        })
    }

    /// The same windows once more. The capacity lines are copied; the one fault is want of memory.
    pub fn copy(&self, alloc: Global) -> Result<Windows, Memory>
        ensures value { IfOk result (λ windows. windows ≡ self.now) }
    {
        let rules = Vec::from_slice(alloc, &self.rules)?;
        Ok(Windows {
            season: self.season,
            days: self.days,
            step: self.step,
            night: self.night,
            rules,
            resources: self.resources,
        })
    }

    /// How many capacity lines there are.
    pub fn lines(&self) -> u32
        ensures count { result ≡ length self.now.rules }
        ensures few { result ≤ MOST_RULES }
    {
        self.rules.len() as u32
    }

    /// How many resources there are, the night quota counted.
    pub fn resources(&self) -> u32
        ensures count { result ≡ declared_resources self.now }
        ensures few { result ≤ MOST_WINDOWS }
    {
        self.resources
    }

    /// The number of the night quota, the last one; none where the declaration has no quota.
    pub fn night(&self) -> Option<u32>
        ensures none { IsNone result ↔ IsNone self.now.night }
        ensures number { IfSome result (λ r. r ≡ sum_by (windows_of self.now) self.now.rules) }
        ensures quota { IfSome result (λ r. (night : Night) → self.now.night ≡ Some night →
            resource_at self.now r ≡ Quota night) }
    {
        match self.night {
            Some(_) => Some(self.resources - 1),
            None => None,
        }
    }

    /// How many windows a capacity line has on a day of the season, at least one and at most 1,440:
    /// one for each start, a step apart. `rule` is the position of the line in the file, from 0.
    pub fn starts(&self, rule: u32) -> u32
        requires { rule < length self.now.rules }
        ensures starts { IfSome (slice_get self.now.rules rule)
            (λ of. result ≡ starts_of self.now.step of) }
        ensures few { result ≤ MINUTES_OF_DAY }
    {
        starts_of(self.step, &self.rules[rule as usize])
    }

    /// The number of a window: `rule` is the position of its capacity line, `day` a day of the
    /// season, and `start` counts the line's starts from 0, of which `starts` says how many there
    /// are. On a day whose weekday is not in the line's set the window is there and has limit 0.
    pub fn resource_of(&self, rule: u32, day: Day, start: u32) -> u32
        requires rule { rule < length self.now.rules }
        requires day { day.0 < date_count self.now.season }
        requires start { ForSome (slice_get self.now.rules rule)
            (λ of. start < starts_of self.now.step of) }
        ensures number { IfSome (slice_get self.now.rules rule)
            (λ of. result ≡ first_of self.now rule + day.0 * starts_of self.now.step of + start) }
        ensures window { IfSome (slice_get self.now.rules rule)
            (λ of. resource_at self.now result ≡ Window of day.0 start) }
    {
        self.first_of(rule) + day.0 * starts_of(self.step, &self.rules[rule as usize]) + start
    }

    // The number of a capacity line's first window.
    pub(crate) fn first_of(&self, rule: u32) -> u32
        requires { rule < length self.now.rules }
        ensures { result ≡ first_of self.now rule }
    {
        let mut first = 0;
        for earlier in &self.rules[..rule as usize] {
            first += self.days * starts_of(self.step, earlier);
        }
        first
    }

    // What a number stands for.
    pub(crate) fn resource_at(&self, number: u32) -> Resource
        ensures value { result ≡ resource_at self.now number }
        ensures bound { IsResource self.now result }
    {
        let mut rest = number;
        for rule in &self.rules {
            let starts = starts_of(self.step, rule);
            let windows = self.days * starts;
            if rest < windows {
                return Resource::Window {
                    rule: *rule,
                    day: rest / starts,
                    start: rest % starts,
                };
            }
            rest -= windows;
        }
        match self.night {
            Some(night) if rest == 0 => Resource::Quota(night),
            _ => Resource::Nothing,
        }
    }

    // Whether a day lies in the season.
    pub(crate) fn is_listed(&self, day: u32) -> bool
        ensures value { result ≡ nat_lt day (date_count self.now.season) }
        ensures few { date_count self.now.season ≤ MOST_DATES }
    {
        day < self.days
    }

    /// How many dates the season has.
    pub fn days(&self) -> u32
        ensures value { result ≡ date_count self.now.season }
        ensures few { result ≤ MOST_DATES }
    {
        self.days
    }

    pub(crate) fn step(&self) -> u32
        ensures { result ≡ self.now.step }
    {
        self.step
    }

    pub(crate) fn rules(&self) -> &[Rule]
        ensures items { result.now ≡ self.now.rules }
        ensures limits { IsCapacity self.now }
        ensures few { date_count self.now.season ≤ MOST_DATES }
    {
        &self.rules
    }

    pub(crate) fn quota(&self) -> Option<Night>
        ensures { result ≡ self.now.night }
    {
        self.night
    }

    // How many windows a capacity line has on a day.
    pub(crate) fn starts_of(&self, rule: &Rule) -> u32
        requires { IsRule rule.now }
        ensures value { result ≡ starts_of self.now.step rule.now }
        ensures bound { result ≤ MINUTES_OF_DAY }
    {
        starts_of(self.step, rule)
    }

    // How many windows a capacity line has in the season.
    pub(crate) fn windows_of(&self, rule: &Rule) -> u32
        requires { IsRule rule.now }
        ensures { result ≡ windows_of self.now rule.now }
    {
        self.days * self.starts_of(rule)
    }

    // Whether the weekday of a day is in a set.
    pub(crate) fn is_on(&self, days: u8, day: Day) -> bool
        ensures { result ≡ is_on self.now.season days day.0 }
    {
        self.season.is_on(days, day)
    }

    // The minute of the day at which a start of a capacity line lies.
    pub(crate) fn start_of(&self, rule: &Rule, start: u32) -> u32
        requires { start_of self.now.step rule.now start < MINUTES_OF_DAY }
        ensures { result ≡ start_of self.now.step rule.now start }
    {
        rule.from + start * self.step
    }

    /// How many movements the resource of a number may hold: the capacity line's limit, 0 on a day
    /// whose weekday is not in the line's set, and 0 for a number past the last. One step for each
    /// capacity line.
    pub fn limit(&self, resource: u32) -> u32
        ensures value { result ≡ window_limit self.now resource }
        ensures bound { result ≤ HIGHEST_NIGHT_LIMIT }
    {
        match self.resource_at(resource) {
            Resource::Window { rule, day, .. } => self.day_limit(&rule, Day(day)),
            Resource::Quota(night) => night.limit,
            Resource::Nothing => 0,
        }
    }
}

// How many windows a capacity line has on a day.
pub(crate) fn starts_of(step: u32, rule: &Rule) -> u32
    requires step { 0 < step }
    requires rule { IsRule rule.now }
    ensures value { result ≡ starts_of step rule.now }
    ensures bound { result ≤ MINUTES_OF_DAY }
{
    (rule.to - rule.from) / step + 1
}
