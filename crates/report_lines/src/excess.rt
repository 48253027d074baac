//! Where a load is above a limit: for each capacity line and start the first day on which it is so
//! by most.

ghost use Rattle.std.specs.Prelude.{◌≡◌, ◌++◌, ◌+◌, ◌*◌, ◌<◌, ◌≤◌, ◌^◌, ℕ, length, sum_by, OnOk, IfSome, Some, slice_get};
ghost use Rattle.std.specs.List.{range_with_len};
ghost use Rattle.season_days.specs.Seasons.{date_count};
ghost use Rattle.season_days.specs.Capacity.{capacity_of, declared_resources, starts_of};
ghost use Rattle.season_days.specs.declared.season.TheConstants.{MOST_DATES};
ghost use Rattle.season_days.specs.declared.declaration.TheConstants.{MOST_RULES};
ghost use Rattle.capacity_windows.specs.Windows.{first_of, windows_of};
ghost use Rattle.report_lines.specs.Peaks.{Excess as ExcessValue, excess_line, rule_excess, quota_excess, excess_lines};
ghost use Rattle.report_lines.specs.Private.{IsExcess, HasExcess, IsAbove, AddsDay, excess_word, told_by, above_text, above_night};

use crate::appends::{put, put_name, put_tagged};
use crate::names::WindowName;
use capacity_windows::Windows;
use season_days::{Declaration, Rule};
use slot_text::Memory;
use std::alloc::Global;

// A limit and a load of each resource. Where earlier stages gave some of it, that is told too.
#[derive(Clone, Copy)]
pub(crate) struct ExcessLists<'a> {
    pub(crate) limits: &'a [u32],
    pub(crate) loads: &'a [u32],
    pub(crate) earlier: Option<&'a [u32]>,
}

// On how many of the days so far a window is above its limit, and the first of them on which it is
// so by most.
#[derive(Clone, Copy, Debug, PartialEq, Eq)]
pub(crate) struct Above {
    day: u32,
    by: u32,
    count: u32,
}

impl<'a> ExcessLists<'a> {
    // The word of the lines.
    fn word(self) -> &'static [u8]
        ensures { result.now ≡ excess_word self.entry }
    {
        match self.earlier {
            Some(_) => b"OVER ",
            None => b"DEMAND ",
        }
    }

    // Appends what a line says of its resource.
    fn put_told(self, alloc: Global, out: &mut Vec<u8>, resource: u32) -> Result<(), Memory>
        requires has { HasExcess self }
        requires there { resource < length self.limits.now }
        ensures { OnOk result (out.new.items ≡ out.old.items ++ told_by self.entry resource) }
    {
        let limit = u64::from(self.limits[resource as usize]);
        let load = u64::from(self.loads[resource as usize]);
        put_tagged(alloc, out, b" LIMIT ", limit)?;
        match self.earlier {
            Some(earlier) => {
                let given = earlier[resource as usize];
                put_tagged(alloc, out, b" EARLIER ", u64::from(given))?;
                put_tagged(alloc, out, b" LEAST ", load)
            }
            None => put_tagged(alloc, out, b" LOAD ", load),
        }
    }

    // What is found with one more day.
    fn with_day(self, found: Option<Above>, day: u32, resource: u32) -> Option<Above>
        requires has { HasExcess self }
        requires there { resource < length self.limits.now }
        requires few { IfSome found (λ above. above.count < 2 ^ 31) }
        ensures { AddsDay self.entry found day resource result }
    {
        let limit = self.limits[resource as usize];
        let load = self.loads[resource as usize];
        if load <= limit {
            return found;
        }
        let by = load - limit;
        match found {
            None => Some(Above { day, by, count: 1 }),
            Some(best) if by > best.by => Some(Above {
                day,
                by,
                count: best.count + 1,
            }),
            Some(best) => Some(Above {
                count: best.count + 1,
                ..best
            }),
        }
    }

    // The days on which the window at a start is above, where there are so many starts a day.
    fn days_above(self, days: u32, first: u32, starts: u32, start: u32) -> Option<Above>
        requires has { HasExcess self }
        requires there { (day : ℕ) → day < days →
            first + day * starts + start < length self.limits.now }
        requires few { days ≤ MOST_DATES }
        ensures day { IfSome result (λ above. above.day < days) }
        ensures found { (e : ExcessValue) → IsExcess e self.entry →
            IsAbove e (λ day. first + day * starts + start) (range_with_len 0 days) result }
    {
        let mut found = None;
        for day in 0..days {
            found = self.with_day(found, day, first + day * starts + start);
        }
        found
    }

    // Appends the line of a window of these days.
    fn put_above(
        self,
        alloc: Global,
        out: &mut Vec<u8>,
        declaration: &Declaration,
        line: u32,
        minute: u32,
        resource: u32,
        above: Above,
    ) -> Result<(), Memory>
        requires has { HasExcess self }
        requires there { resource < length self.limits.now }
        requires day { above.day < date_count declaration.now.season }
        ensures { OnOk result (out.new.items ≡ out.old.items
            ++ above_text self.entry declaration.now.season line minute resource above) }
    {
        let name = WindowName::Window {
            line,
            day: above.day,
            minute,
        };
        put(out, self.word())?;
        put_name(alloc, out, &declaration.season, name)?;
        put_tagged(alloc, out, b" DAYS ", u64::from(above.count))?;
        self.put_told(alloc, out, resource)?;
        put(out, b"\n")?;
        Ok(())
    }

    // Appends the line of a start of a capacity line, the first of whose windows has this number,
    // if the window is above on a day.
    fn put_start(
        self,
        alloc: Global,
        out: &mut Vec<u8>,
        declaration: &Declaration,
        windows: &Windows,
        rule: u32,
        of: Rule,
        first: u32,
        start: u32,
    ) -> Result<(), Memory>
        requires windows { windows.now ≡ capacity_of declaration.now }
        requires has { HasExcess self }
        requires count { length self.limits.now ≡ declared_resources windows.now }
        requires rule { rule < length windows.now.rules }
        requires few { rule < MOST_RULES }
        requires of { slice_get windows.now.rules rule ≡ Some of }
        requires first { first ≡ first_of windows.now rule }
        requires start { start < starts_of windows.now.step of }
        ensures { OnOk result ((e : ExcessValue) → IsExcess e self.entry →
            out.new.items ≡ out.old.items
            ++ excess_line windows.now e (rule + 1) of first start) }
    {
        let starts = windows.starts(rule);
        match self.days_above(windows.days(), first, starts, start) {
            Some(above) => {
                let minute = of.from + start * declaration.step;
                let resource = first + above.day * starts + start;
                self.put_above(alloc, out, declaration, rule + 1, minute, resource, above)?;
                Ok(())
            }
            None => Ok(()),
        }
    }

    // Appends the lines of a capacity line, the first of whose windows has this number.
    fn put_rule(
        self,
        alloc: Global,
        out: &mut Vec<u8>,
        declaration: &Declaration,
        windows: &Windows,
        rule: u32,
        of: Rule,
        first: u32,
    ) -> Result<(), Memory>
        requires windows { windows.now ≡ capacity_of declaration.now }
        requires has { HasExcess self }
        requires count { length self.limits.now ≡ declared_resources windows.now }
        requires rule { rule < length windows.now.rules }
        requires few { rule < MOST_RULES }
        requires of { slice_get windows.now.rules rule ≡ Some of }
        requires first { first ≡ first_of windows.now rule }
        ensures { OnOk result ((e : ExcessValue) → IsExcess e self.entry →
            out.new.items ≡ out.old.items ++ rule_excess windows.now e (rule + 1) of first) }
    {
        for start in 0..windows.starts(rule) {
            self.put_start(alloc, out, declaration, windows, rule, of, first, start)?;
        }
        Ok(())
    }

    // Appends the line of the night quota, which has this number.
    fn put_night(self, alloc: Global, out: &mut Vec<u8>, quota: u32) -> Result<(), Memory>
        requires has { HasExcess self }
        requires there { quota < length self.limits.now }
        ensures { OnOk result (out.new.items ≡ out.old.items ++ above_night self.entry quota) }
    {
        put(out, self.word())?;
        put(out, b"NIGHT")?;
        self.put_told(alloc, out, quota)?;
        put(out, b"\n")?;
        Ok(())
    }

    // Appends the line of the night quota, if it is above.
    fn put_quota(self, alloc: Global, out: &mut Vec<u8>, windows: &Windows) -> Result<(), Memory>
        requires has { HasExcess self }
        requires count { length self.limits.now ≡ declared_resources windows.now }
        ensures { OnOk result ((e : ExcessValue) → IsExcess e self.entry →
            out.new.items ≡ out.old.items
            ++ quota_excess e windows.now.night
            (sum_by (windows_of windows.now) windows.now.rules)) }
    {
        let Some(quota) = windows.night() else {
            return Ok(());
        };
        if self.loads[quota as usize] <= self.limits[quota as usize] {
            return Ok(());
        }
        self.put_night(alloc, out, quota)?;
        Ok(())
    }

    // Appends a line for each capacity line and start, in order, whose window is above its limit on
    // a day, and last for the night quota: one step a resource.
    pub(crate) fn put_lines(
        self,
        alloc: Global,
        out: &mut Vec<u8>,
        declaration: &Declaration,
        windows: &Windows,
    ) -> Result<(), Memory>
        requires windows { windows.now ≡ capacity_of declaration.now }
        requires has { HasExcess self }
        requires count { length self.limits.now ≡ declared_resources windows.now }
        ensures { OnOk result ((e : ExcessValue) → IsExcess e self.entry →
            out.new.items ≡ out.old.items ++ excess_lines windows.now e) }
    {
        let rules = declaration.rules.items();
        let mut first = 0;
        for rule in 0..windows.lines() {
            let of = rules[rule as usize];
            self.put_rule(alloc, out, declaration, windows, rule, of, first)?;
            first += windows.days() * windows.starts(rule);
        }
        self.put_quota(alloc, out, windows)?;
        Ok(())
    }
}
