//! Which windows hold a movement, and how many movements of a list one holds.

ghost use Rattle.std.specs.Prelude.{◌≡◌, ◌<◌, ◌≤◌, ◌^◌, IfOk, OnOk, length};
ghost use Rattle.season_days.specs.declared.declaration.TheConstants.{MINUTES_OF_DAY};
ghost use Rattle.capacity_windows.specs.Windows.{is_of_kind, is_within, is_at_night, holds, window_load, resource_at, declared_resources, uses_below};
ghost use Rattle.capacity_windows.specs.Kept.{IsResource};

use crate::movement::Movement;
use crate::resource::Resource;
use crate::windows::Windows;
use season_days::{Day, Kind, MINUTES_OF_DAY, Night};
use slot_text::Memory;
use std::alloc::Global;

impl Windows {
    // Whether a resource holds a movement.
    fn holds(&self, resource: &Resource, movement: &Movement) -> bool
        requires { IsResource self.now resource.now }
        ensures { result ≡ holds self.now resource.now movement.now }
    {
        if !self.is_listed(movement.day) {
            return false;
        }
        match *resource {
            Resource::Window { rule, day, start } => {
                let begin = MINUTES_OF_DAY * day + self.start_of(&rule, start);
                let minute = u64::from(MINUTES_OF_DAY) * u64::from(movement.day)
                    + u64::from(movement.minute);
                self.is_on(rule.days, Day(day))
                    && is_of_kind(rule.kind, movement.kind)
                    && is_within(begin, rule.length, minute)
            }
            Resource::Quota(night) => is_at_night(&night, movement.minute),
            Resource::Nothing => false,
        }
    }

    /// Whether the resource of a number holds a movement: one step for each capacity line.
    pub fn is_held(&self, resource: u32, movement: &Movement) -> bool
        ensures { result ≡ holds self.now (resource_at self.now resource) movement.now }
    {
        self.holds(&self.resource_at(resource), movement)
    }

    /// How many movements of a list, of fewer than 2^32, the resource of a number holds: one step
    /// for each movement and for each capacity line. A movement after the season's last date is
    /// held by none.
    pub fn count_listed(&self, list: &[Movement], resource: u32) -> u32
        requires few { length list.now < 2 ^ 32 }
        ensures count { result ≡ window_load self.now list.now resource }
    {
        let at = self.resource_at(resource);
        let mut count = 0;
        for movement in list {
            if self.holds(&at, movement) {
                count += 1;
            }
        }
        count
    }

    /// The resources that hold a movement, whose minute of the day is below 1,440, in rising order.
    /// Only windows of the movement's day and of the day before are looked at, each in one step for
    /// each capacity line. The one fault is want of memory.
    pub fn uses_of(&self, alloc: Global, movement: Movement) -> Result<Vec<u32>, Memory>
        requires minute { movement.minute < MINUTES_OF_DAY }
        ensures value { IfOk result
            (λ uses. uses.items ≡ uses_below self.now movement (declared_resources self.now)) }
    {
        let mut uses = Vec::new(alloc);
        if !self.is_listed(movement.day) {
            return Ok(uses);
        }
        let mut first = 0;
        for rule in self.rules() {
            // Only windows of the movement's day and of the day before can hold it.
            let starts = self.starts_of(rule);
            let from = first + movement.day.saturating_sub(1) * starts;
            let to = first + (movement.day + 1) * starts;
            self.push_uses(&mut uses, &movement, from, to)?;
            first += self.windows_of(rule);
        }
        self.push_uses(&mut uses, &movement, first, self.resources())?;
        Ok(uses)
    }

    // Appends those of a range of resources that hold a movement.
    fn push_uses(
        &self,
        uses: &mut Vec<u32>,
        movement: &Movement,
        from: u32,
        to: u32,
    ) -> Result<(), Memory>
        requires ordered { from ≤ to }
        requires before { uses.old.items ≡ uses_below self.now movement.now from }
        ensures { OnOk result (uses.new.items ≡ uses_below self.now movement.now to) }
    {
        for resource in from..to {
            if self.holds(&self.resource_at(resource), movement) {
                uses.push(resource)?;
            }
        }
        Ok(())
    }
}

// Whether windows of one kind hold movements of another.
pub(crate) fn is_of_kind(window: Kind, movement: Kind) -> bool
    ensures { result ≡ is_of_kind window movement }
{
    match (window, movement) {
        (Kind::Tot, _) | (Kind::Arr, Kind::Arr) | (Kind::Dep, Kind::Dep) => true,
        _ => false,
    }
}

// Whether a span of minutes holds one.
fn is_within(begin: u32, length: u32, minute: u64) -> bool
    ensures { result ≡ is_within begin length minute }
{
    u64::from(begin) <= minute && minute < u64::from(begin) + u64::from(length)
}

// Whether a minute of the day is at night.
pub(crate) fn is_at_night(night: &Night, minute: u32) -> bool
    ensures { result ≡ is_at_night night.now minute }
{
    if night.to < night.from {
        night.from <= minute || minute < night.to
    } else {
        night.from <= minute && minute < night.to
    }
}
