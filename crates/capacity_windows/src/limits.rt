//! The limits of all resources at once.

ghost use Rattle.std.specs.Prelude.{◌≡◌, ◌+◌, ◌*◌, ◌<◌, ◌≤◌, ℕ, IfOk, OnOk, Some, slice_get, length, sum_by};
ghost use Rattle.season_days.specs.Seasons.{date_count};
ghost use Rattle.season_days.specs.declared.declaration.TheConstants.{HIGHEST_NIGHT_LIMIT};
ghost use Rattle.capacity_windows.specs.Windows.{IsRule, starts_of, windows_of, resource_at, day_limit, window_limit, declared_resources};
ghost use Rattle.capacity_windows.specs.Kept.{AreLimits};
ghost use Rattle.capacity_windows.specs.declared.resource.Resource.TheVariants.{Window};

use crate::windows::Windows;
use season_days::{Day, Rule};
use slot_text::Memory;
use std::alloc::Global;

impl Windows {
    /// The limits of all resources in the order of their numbers: what `limit` says of each, in one
    /// step, where `limit` looks through the capacity lines. The memory is taken once, four bytes
    /// each. The one fault is want of memory.
    pub fn limits(&self, alloc: Global) -> Result<Vec<u32>, Memory>
        ensures count { IfOk result (λ limits. length limits.items ≡ declared_resources self.now) }
        ensures each { IfOk result (λ limits. (r : ℕ) → r < declared_resources self.now →
            slice_get limits.items r ≡ Some (window_limit self.now r)) }
        ensures few { OnOk result ((r : ℕ) → window_limit self.now r ≤ HIGHEST_NIGHT_LIMIT) }
    {
        let mut limits = Vec::with_capacity(alloc, self.resources() as usize)?;
        for rule in self.rules() {
            self.push_rule(&mut limits, rule)?;
        }
        self.push_night(&mut limits)?;
        Ok(limits)
    }

    // Appends the limits of a capacity line's windows, day by day.
    fn push_rule(&self, limits: &mut Vec<u32>, rule: &Rule) -> Result<(), Memory>
        requires rule { IsRule rule.now }
        requires before { AreLimits self.now limits.old.items }
        requires windows { (day start : ℕ) → day < date_count self.now.season →
            start < starts_of self.now.step rule.now →
            resource_at self.now (length limits.old.items + day * starts_of self.now.step rule.now
            + start)
            ≡ Window rule.now day start }
        ensures limits { OnOk result (AreLimits self.now limits.new.items) }
        ensures count { OnOk result
            (length limits.new.items ≡ length limits.old.items + windows_of self.now rule.now) }
    {
        let starts = self.starts_of(rule);
        for day in 0..self.days() {
            let limit = self.day_limit(rule, Day(day));
            self.push_day(limits, limit, starts)?;
        }
        Ok(())
    }

    // Appends the limits of the windows of a day, which are equal.
    fn push_day(&self, limits: &mut Vec<u32>, limit: u32, starts: u32) -> Result<(), Memory>
        requires before { AreLimits self.now limits.old.items }
        requires same { (start : ℕ) → start < starts →
            window_limit self.now (length limits.old.items + start) ≡ limit }
        ensures limits { OnOk result (AreLimits self.now limits.new.items) }
        ensures count { OnOk result (length limits.new.items ≡ length limits.old.items + starts) }
    {
        limits.resize(limits.len() + starts as usize, limit)?;
        Ok(())
    }

    // Appends the limit of the night quota, if there is one, behind those of all windows.
    fn push_night(&self, limits: &mut Vec<u32>) -> Result<(), Memory>
        requires before { AreLimits self.now limits.old.items }
        requires windows { length limits.old.items ≡ sum_by (windows_of self.now) self.now.rules }
        ensures limits { OnOk result (AreLimits self.now limits.new.items) }
        ensures count { OnOk result (length limits.new.items ≡ declared_resources self.now) }
    {
        let Some(night) = self.quota() else {
            return Ok(());
        };
        limits.push(night.limit)?;
        Ok(())
    }

    // The limit of a capacity line's windows on a day: 0 where the day's weekday is not in the
    // line's set.
    pub(crate) fn day_limit(&self, rule: &Rule, day: Day) -> u32
        ensures { result ≡ day_limit self.now rule.now day.0 }
    {
        if self.is_on(rule.days, day) {
            rule.limit
        } else {
            0
        }
    }
}
