//! The watch over all holdings.

ghost use Rattle.std.specs.Prelude.{◌≡◌, ◌+◌, ◌*◌, ◌<◌, ◌≤◌, ◌^◌, ◌++◌, [], All, length, if◌then◌else◌, IfOk, OnOk};
ghost use Rattle.std.specs.List.{cons_option};
ghost use Rattle.scr_reader.specs.Printed.{LineFits};
ghost use Rattle.holding_book.specs.Lines.{is_state};
ghost use Rattle.holding_book.specs.declared.holding.State.TheVariants.{Confirmed as confirmed_state};
ghost use Rattle.usage_watch.specs.NextLines.{series_of, kept_of, next_line, confirmed_lines, series_in, kept_in, next_lines};

use crate::lines::LineList;
use crate::next::in_next;
use crate::operated::OperatedList;
use crate::reported::Reported;
use crate::weekdays::weekdays_of;
use holding_book::{Holding, State};
use scr_reader::Line;
use season_days::Season;
use slot_text::Memory;
use std::alloc::Global;

/// How many series the confirmed holdings have, how many of these have precedence, and the historic
/// lines of the next season in the order of the holdings.
#[derive(Drop)]
pub struct Usage {
    pub series: u64,
    pub kept: u64,
    pub next: LineList,
}

/// What was found so far.
#[derive(Drop)]
pub(crate) struct Found {
    pub series: u64,
    pub kept: u64,
    pub lines: Vec<Line>,
}

/// Appends a line, if there is one.
fn push_line(lines: &mut Vec<Line>, line: Option<Line>) -> Result<(), Memory>
    ensures { OnOk result (lines.new.items ≡ lines.old.items ++ cons_option line []) }
{
    if let Some(line) = line {
        lines.push(line)?;
    }
    Ok(())
}

impl Found {
    /// Adds the series of one line.
    fn add_line(
        &mut self,
        reported: &Reported<'_>,
        next: &Season,
        line: &Line,
    ) -> Result<(), Memory>
        requires fits { LineFits reported.now.season line.now }
        requires series_few { self.old.series < 2 ^ 40 }
        requires kept_few { self.old.kept < 2 ^ 40 }
        ensures series { OnOk result (self.new.series
            ≡ self.old.series + series_of reported.now.season line.now) }
        ensures kept { OnOk result (self.new.kept
            ≡ self.old.kept + kept_of reported.now.season reported.now.reports line.now) }
        ensures lines { OnOk result (self.new.lines.items ≡ self.old.lines.items
            ++ cons_option
            (next_line reported.now.season next.now reported.now.reports line.now) []) }
        ensures series_few { OnOk result (self.new.series ≤ self.old.series + 7) }
        ensures kept_few { OnOk result (self.new.kept ≤ self.old.kept + 7) }
    {
        let weekdays = weekdays_of(reported, line);
        push_line(&mut self.lines, in_next(next, line, weekdays.days))?;
        self.series += weekdays.series;
        self.kept += weekdays.kept;
        Ok(())
    }

    /// Adds the series of a holding, where it is confirmed.
    fn add(
        &mut self,
        reported: &Reported<'_>,
        next: &Season,
        holding: &Holding,
    ) -> Result<(), Memory>
        requires fits { LineFits reported.now.season holding.now.line }
        requires series_few { self.old.series < 2 ^ 40 }
        requires kept_few { self.old.kept < 2 ^ 40 }
        ensures series { OnOk result (self.new.series ≡ self.old.series
            + (if is_state confirmed_state holding.now.state
            then series_of reported.now.season holding.now.line else 0)) }
        ensures kept { OnOk result (self.new.kept ≡ self.old.kept
            + (if is_state confirmed_state holding.now.state
            then kept_of reported.now.season reported.now.reports holding.now.line else 0)) }
        ensures lines { OnOk result (self.new.lines.items ≡ self.old.lines.items
            ++ (if is_state confirmed_state holding.now.state
            then cons_option
            (next_line reported.now.season next.now reported.now.reports holding.now.line) []
            else [])) }
        ensures series_few { OnOk result (self.new.series ≤ self.old.series + 7) }
        ensures kept_few { OnOk result (self.new.kept ≤ self.old.kept + 7) }
    {
        match holding.state {
            State::Confirmed => self.add_line(reported, next, &holding.line),
            State::Offered => Ok(()),
        }
    }
}

/// What the confirmed holdings of a season keep in the next one, by the reports of what was
/// operated; offered holdings have no part in it.
///
/// A report costs one step for each day that a season may have, and a holding seven for each day of
/// its period.
pub fn watch(
    alloc: Global,
    season: &Season,
    next: &Season,
    held: &[Holding],
    operated: &OperatedList,
) -> Result<Usage, Memory>
    requires fit { All (λ holding. LineFits season.now holding.line) held.now }
    requires few { length held.now < 2 ^ 32 }
    ensures series { IfOk result
        (λ usage. usage.series ≡ series_in season.now (confirmed_lines held.now)) }
    ensures kept { IfOk result
        (λ usage. usage.kept ≡ kept_in season.now operated.now (confirmed_lines held.now)) }
    ensures next { IfOk result (λ usage. usage.next
        ≡ next_lines season.now next.now operated.now (confirmed_lines held.now)) }
{
    let reported = Reported::of(alloc, season, operated.items())?;
    let mut found = Found {
        series: 0,
        kept: 0,
        lines: Vec::new(alloc),
    };
    for holding in held {
        found.add(&reported, next, holding)?;
    }
    Ok(Usage {
        series: found.series,
        kept: found.kept,
        next: LineList::new(found.lines),
    })
}
