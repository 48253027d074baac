//! How many windows a declaration has.

ghost use Rattle.std.specs.Prelude.{◌≡◌, ◌≤◌, ◌<◌, ◌*◌, length, All};
ghost use Rattle.season_days.specs.Capacity.{declared_resources, starts_of, IsRule};

use crate::declaration::{MINUTES_OF_DAY, MOST_RULES, Night, Rule};
use crate::season::{MOST_DATES, Season};

impl Season {
    /// How many windows the season has, the night quota counted as one, where times are so many
    /// minutes apart.
    pub fn count_windows(&self, step: u32, night: &Option<Night>, rules: &[Rule]) -> u64
        requires step { 0 < step }
        requires few { length rules.now ≤ MOST_RULES }
        requires rules { All IsRule rules.now }
        ensures { result ≡ declared_resources (record {
          season = self.now;
          step = step;
          night = night.now;
          rules = rules.now;
        }) }
    {
        let days = self.length();
        let mut count: u64 = 0;
        for rule in rules {
            count += windows_of(days, step, rule);
        }
        if night.is_some() { count + 1 } else { count }
    }
}

/// How many windows a capacity line has on so many days.
fn windows_of(days: u32, step: u32, rule: &Rule) -> u64
    requires days { days ≤ MOST_DATES }
    requires step { 0 < step }
    requires rule { IsRule rule.now }
    ensures exact { result ≡ days * starts_of step rule.now }
    ensures bound { result ≤ MOST_DATES * MINUTES_OF_DAY }
{
    let starts = (rule.to - rule.from) / step + 1;
    u64::from(days) * u64::from(starts)
}
