//! The declaration that all lines make: what it must have, and its limits as a whole.

ghost use Rattle.std.specs.Prelude.{◌≡◌, ℕ, ◌<◌, List, length, Some, MatchResult, MatchOption, All};
ghost use Rattle.std.specs.Option.{ForSome};
ghost use Rattle.slot_text.specs.Reads.{AnswersBy};
ghost use Rattle.season_days.specs.Capacity.{declared_resources};
ghost use Rattle.capacity_file.specs.Values.{IsCapacityLine};
ghost use Rattle.capacity_file.specs.Declares.{LinesDeclare, AreWithinLimits};
ghost use Rattle.capacity_file.specs.Faults.{LinesHaveFault, PassesLimit};
ghost use Rattle.capacity_file.specs.Readings.{Collected};
ghost use Rattle.capacity_file.specs.Needed.{AreNeeded, IsFirstMissing};
ghost use Rattle.capacity_file.specs.declared.fault.CapFault.TheVariants.{Memory as NoMemory};

use crate::draft::{Draft, FlexLine, Singles};
use crate::fault::{CapFault, CapLimit, CapWord};
use crate::limits::{MOST_FLEX, USUAL_SHARE};
use season_days::{Declaration, MOST_RULES, MOST_WINDOWS, Night, Rule, RuleList, Season};
use slot_text::Station;

/// The values that no declaration lacks.
#[derive(Clone, Copy)]
pub(crate) struct Needed {
    pub airport: Station,
    pub season: Season,
    pub step: u32,
    pub flex: FlexLine,
    pub ground_time: u32,
    pub refuse: Option<u32>,
}

/// The declaration that all lines make.
pub(crate) fn finish(draft: Draft) -> Result<Declaration, CapFault>
    requires step { ForSome draft.singles.step (λ n. 0 < n) }
    requires rules { All IsCapacityLine draft.rules.items }
    ensures { (lines : List (List ℕ)) →
        Collected lines (length lines) draft.singles draft.rules.items →
        AnswersBy NoMemory (LinesDeclare lines) (LinesHaveFault lines) result }
{
    let Draft { singles, rules } = draft;
    let needed = match needed_of(&singles) {
        Ok(needed) => needed,
        Err(name) => return Err(CapFault::Missing { name }),
    };
    if needed.flex.minutes % u64::from(needed.step) != 0 {
        return Err(CapFault::BadLine {
            line: needed.flex.line,
        });
    }
    if let Some((name, number)) = passed_limit(&needed, &singles.night, &rules) {
        return Err(CapFault::OverLimit { name, number });
    }
    Ok(Declaration {
        airport: needed.airport,
        season: needed.season,
        step: needed.step,
        flex: needed.flex.minutes as u32,
        ground: needed.ground_time,
        share: singles.share.unwrap_or(USUAL_SHARE),
        refuse: needed.refuse,
        night: singles.night,
        rules: RuleList::new(rules),
    })
}

/// The values that no declaration lacks, or the first word that is missing.
fn needed_of(singles: &Singles) -> Result<Needed, CapWord>
    ensures { MatchResult result (λ needed. AreNeeded singles.now needed)
        (λ name. IsFirstMissing singles.now name) }
{
    Ok(Needed {
        airport: singles.airport.ok_or(CapWord::Airport)?,
        season: singles.season.ok_or(CapWord::Season)?,
        step: singles.step.ok_or(CapWord::Step)?,
        flex: singles.flex.ok_or(CapWord::Flex)?,
        ground_time: singles.ground_time.ok_or(CapWord::Ground)?,
        refuse: singles.refuse.ok_or(CapWord::Refuse)?,
    })
}

/// The first limit that is passed, and by which number.
fn passed_limit(needed: &Needed, night: &Option<Night>, rules: &[Rule]) -> Option<(CapLimit, u64)>
    requires step { 0 < needed.now.step }
    requires rules { All IsCapacityLine rules.now }
    ensures { let windows = declared_resources (record {
      season = needed.now.season;
      step = needed.now.step;
      night = night.now;
      rules = rules.now;
    }) in
        MatchOption result (AreWithinLimits needed.now.flex.minutes (length rules.now) windows)
        (λ x. PassesLimit x.0 x.1 needed.now.flex.minutes (length rules.now) windows) }
{
    if needed.flex.minutes > MOST_FLEX {
        return Some((CapLimit::Flex, needed.flex.minutes));
    }
    if rules.len() > MOST_RULES as usize {
        return Some((CapLimit::Caps, rules.len() as u64));
    }
    let windows = needed.season.count_windows(needed.step, night, rules);
    if windows > u64::from(MOST_WINDOWS) {
        return Some((CapLimit::Windows, windows));
    }
    None
}
