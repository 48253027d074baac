//! Reports, made ready to be looked up by flight and day.

ghost use Rattle.std.specs.Prelude.{◌≡◌, ◌<◌, ◌++◌, ◌∷◌, [], List, IfOk, OnOk};
ghost use Rattle.season_days.specs.declared.declaration.Kind.TheVariants.{Arr, Dep};
ghost use Rattle.season_days.specs.declared.season.TheConstants.{MOST_DATES};
ghost use Rattle.usage_watch.specs.Precedence.{is_stop_reported, is_operated};
ghost use Rattle.usage_watch.specs.Private.Marks.{AreMarked};
ghost use Rattle.usage_watch.specs.declared.operated.Operated.{Operated as OperatedValue};

use crate::marks::FlightDays;
use crate::operated::Operated;
use scr_reader::{Line, Stop};
use season_days::{Day, Kind, Season};
use slot_text::Memory;
use std::alloc::Global;
use std::marker::Model;

/// The days on which arrivals and departures are reported.
#[derive(Drop)]
pub(crate) struct Marks {
    pub(crate) arrivals: FlightDays,
    pub(crate) departures: FlightDays,
}

/// Reports, and the days that they name.
#[derive(Drop)]
pub(crate) struct Reported<'a> {
    season: Season,
    reports: &'a [Operated],
    marks: Marks,
}

impl<'a> Model for Reported<'a> {
    ghost use Rattle.season_days.specs.declared.declaration.Kind.TheVariants.{Arr, Dep};
    ghost use Rattle.usage_watch.specs.Private.Marks.{ReportedView, AreMarked};

    ghost Value = { ReportedView };

    ghost view = { λ r. record { season = r.season; reports = r.reports.now } };

    ghost invariant = { λ r. AreMarked r.season r.reports.now Arr r.marks.arrivals
        × AreMarked r.season r.reports.now Dep r.marks.departures };
}

impl Marks {
    /// Marks the dates of one more report.
    fn add(&mut self, alloc: Global, season: &Season, report: Operated) -> Result<(), Memory>
        ensures arrivals { OnOk result ((reports : List OperatedValue) →
            AreMarked season.now reports Arr self.old.arrivals →
            AreMarked season.now (reports ++ report ∷ []) Arr self.new.arrivals) }
        ensures departures { OnOk result ((reports : List OperatedValue) →
            AreMarked season.now reports Dep self.old.departures →
            AreMarked season.now (reports ++ report ∷ []) Dep self.new.departures) }
    {
        match report.kind {
            Kind::Arr => self
                .arrivals
                .mark(alloc, season, report.flight, report.period),
            Kind::Dep => self
                .departures
                .mark(alloc, season, report.flight, report.period),
            Kind::Tot => Ok(()),
        }
    }

    /// Marks the dates of all reports.
    fn of(alloc: Global, season: &Season, reports: &[Operated]) -> Result<Marks, Memory>
        ensures arrivals { IfOk result
            (λ marks. AreMarked season.now reports.now Arr marks.arrivals) }
        ensures departures { IfOk result
            (λ marks. AreMarked season.now reports.now Dep marks.departures) }
    {
        let mut marks = Marks {
            arrivals: FlightDays::new(alloc),
            departures: FlightDays::new(alloc),
        };
        for report in reports {
            marks.add(alloc, season, *report)?;
        }
        Ok(marks)
    }
}

impl<'a> Reported<'a> {
    /// The reports of a season, looked at once: one step for each day that a season may have.
    pub(crate) fn of(
        alloc: Global,
        season: &Season,
        reports: &'a [Operated],
    ) -> Result<Reported<'a>, Memory>
        ensures season { IfOk result (λ reported. reported.season ≡ season.now) }
        ensures reports { IfOk result (λ reported. reported.reports ≡ reports.now) }
    {
        let marks = Marks::of(alloc, season, reports)?;
        Ok(Reported {
            season: *season,
            reports,
            marks,
        })
    }

    /// The season.
    pub(crate) fn season(&self) -> &Season
        ensures { result.now ≡ self.now.season }
    {
        &self.season
    }

    /// Whether a line's arrival, if it has one, is reported for a day.
    fn has_arrival(&self, stop: Option<Stop>, day: Day) -> bool
        requires { day.0 < MOST_DATES }
        ensures { result
            ≡ is_stop_reported self.now.season self.now.reports Arr stop day.0 }
    {
        match stop {
            Some(stop) => self.marks.arrivals.has(&stop.flight, day),
            None => true,
        }
    }

    /// Whether a line's departure, if it has one, is reported for a day.
    fn has_departure(&self, stop: Option<Stop>, day: Day) -> bool
        requires { day.0 < MOST_DATES }
        ensures { result
            ≡ is_stop_reported self.now.season self.now.reports Dep stop day.0 }
    {
        match stop {
            Some(stop) => self.marks.departures.has(&stop.flight, day),
            None => true,
        }
    }

    /// Whether each movement of a line is reported for a day.
    pub(crate) fn is_operated(&self, line: &Line, day: Day) -> bool
        requires { day.0 < MOST_DATES }
        ensures { result ≡ is_operated self.now.season self.now.reports line.now day.0 }
    {
        self.has_arrival(line.arrival, day) && self.has_departure(line.departure, day)
    }
}
