//! Shifts of a line's movements within spans of minutes.

ghost use Rattle.std.specs.Prelude.{◌≡◌, ℕ, ◌⊎◌, ◌+◌, ◌*◌, ◌-◌, ◌<◌, ◌≤◌, OnOk, IfSome, IfNone, ◌++◌, ◌∷◌, [], map, min, max};
ghost use Rattle.season_days.specs.declared.declaration.TheConstants.{MINUTES_OF_DAY};
ghost use Rattle.scr_reader.specs.Printed.{StopsFit};
ghost use Rattle.series_model.specs.Options.{pairs_of};
ghost use Rattle.series_model.specs.Loops.{shifts_from, all_shifts, AreShifts, shifts_in, shifts_within, line_shifts, AreLineShifts, IsShiftOf};
ghost use Rattle.series_model.specs.declared.shifts.TheConstants.{MINUTE_BOUND};
ghost use Rattle.series_model.specs.declared.times.Times.TheVariants.{At as at_times};

use crate::times::Times;
use scr_reader::Line;
use season_days::{Declaration, MINUTES_OF_DAY};
use slot_text::Memory;

// Above each minute of a movement, counted from the beginning of a line's date: more days than a
// number of nights has.
pub(crate) const MINUTE_BOUND: u32 = 2_000_000;

// Minutes from the beginning of a line's date, both included.
#[derive(Clone, Copy, Debug, PartialEq, Eq)]
pub(crate) struct Span {
    pub low: u32,
    pub high: u32,
}

impl Span {
    /// The minutes of the date some nights later.
    pub fn of_date(nights: u8) -> Span
        ensures low { result.low ≡ MINUTES_OF_DAY * nights }
        ensures high { result.high ≡ MINUTES_OF_DAY * nights + (MINUTES_OF_DAY - 1) }
    {
        let low = MINUTES_OF_DAY * u32::from(nights);
        Span {
            low,
            high: low + (MINUTES_OF_DAY - 1),
        }
    }

    /// Those of them from the earlier to the later of two minutes.
    pub fn between(self, one: u32, other: u32) -> Span
        ensures low { result.low ≡ max self.low (min one other) }
        ensures high { result.high ≡ min self.high (max one other) }
    {
        Span {
            low: self.low.max(one.min(other)),
            high: self.high.min(one.max(other)),
        }
    }
}

// The minutes from `low` to `high` that differ from the requested one by a multiple of the step of
// at most `flex`.
#[derive(Clone, Copy, Debug, PartialEq, Eq)]
pub(crate) struct Shifts {
    pub requested: u32,
    pub low: u32,
    pub high: u32,
    pub step: u32,
    pub flex: u32,
}

impl Shifts {
    /// The shifts of a declaration within a span.
    pub fn of(declaration: &Declaration, requested: u32, span: Span) -> Shifts
        ensures { result ≡ shifts_in declaration.now requested span }
    {
        Shifts {
            requested,
            low: span.low,
            high: span.high,
            step: declaration.step,
            flex: declaration.flex,
        }
    }

    /// The last minute that may be a shift.
    pub fn last(&self) -> u32
        ensures high { result ≤ self.now.high }
        ensures late { result ≤ self.now.requested + self.now.flex }
        ensures most { (k : ℕ) → k ≤ self.now.high → k ≤ self.now.requested + self.now.flex →
            k ≤ result }
    {
        self.high.min(self.requested.saturating_add(self.flex))
    }

    /// The first shift from a minute on.
    pub fn first_from(&self, from: u32) -> Option<u32>
        requires { AreShifts self.now }
        ensures found { IfSome result
            (λ minute. shifts_from self.now from ≡ minute ∷ shifts_from self.now (minute + 1)) }
        ensures within { IfSome result (λ minute. (from ≤ minute) × (minute ≤ self.now.high)) }
        ensures shift { IfSome result (λ minute. IsShiftOf self.now minute) }
        ensures none { IfNone result (shifts_from self.now from ≡ []) }
    {
        let from = from.max(self.requested.saturating_sub(self.flex));
        let last = self.last();
        if from > last {
            return None;
        }
        let gap = gap_to(from % self.step, self.requested % self.step, self.step);
        if gap > last - from {
            return None;
        }
        Some(from + gap)
    }
}

// How far it is from a minute with one remainder by the step to the next one with another.
fn gap_to(from: u32, to: u32, step: u32) -> u32
    requires from { from < step }
    requires to { to < step }
    ensures there { (from + result ≡ to) ⊎ (from + result ≡ to + step) }
    ensures first { result < step }
{
    if from <= to {
        to - from
    } else {
        step - (from - to)
    }
}

// Appends the shifts of an arrival.
fn push_arrivals(options: &mut Vec<Times>, arrivals: &Shifts) -> Result<(), Memory>
    requires { AreShifts arrivals.now }
    ensures { OnOk result
        (options.new.items ≡ options.old.items
        ++ map (λ arrival. at_times arrival 0) (all_shifts arrivals.now)) }
{
    let mut from = arrivals.low;
    while let Some(arrival) = arrivals.first_from(from) {
        options.push(Times::At {
            arrival,
            departure: 0,
        })?;
        from = arrival + 1;
    }
    Ok(())
}

// Appends the shifts of a departure from a minute on, each with an arrival.
fn push_departures(
    options: &mut Vec<Times>,
    arrival: u32,
    departures: &Shifts,
    from: u32,
) -> Result<(), Memory>
    requires { AreShifts departures.now }
    ensures { OnOk result
        (options.new.items ≡ options.old.items ++ map (λ departure. at_times arrival departure)
        (shifts_from departures.now from)) }
{
    let mut from = from;
    while let Some(departure) = departures.first_from(from) {
        options.push(Times::At { arrival, departure })?;
        from = departure + 1;
    }
    Ok(())
}

// Appends the pairs of shifts whose departure is at least so long after the arrival.
fn push_pairs(
    options: &mut Vec<Times>,
    arrivals: &Shifts,
    departures: &Shifts,
    least: u32,
) -> Result<(), Memory>
    requires arrivals { AreShifts arrivals.now }
    requires departures { AreShifts departures.now }
    requires least { least < MINUTE_BOUND }
    ensures { OnOk result
        (options.new.items ≡ options.old.items ++ pairs_of least (all_shifts arrivals.now)
        (all_shifts departures.now)) }
{
    let mut from = arrivals.low;
    while let Some(arrival) = arrivals.first_from(from) {
        let first = departures.low.max(arrival + least);
        push_departures(options, arrival, departures, first)?;
        from = arrival + 1;
    }
    Ok(())
}

// The shifts of a line: of its one movement, or of its two the pairs whose departure is at least so
// long after the arrival.
#[derive(Clone, Copy, Debug, PartialEq, Eq)]
pub(crate) enum LineShifts {
    Neither,
    Arrivals(Shifts),
    Departures(Shifts),
    Pairs {
        arrivals: Shifts,
        departures: Shifts,
        least: u32,
    },
}

impl LineShifts {
    /// Those of a declaration, each movement within its span.
    pub fn of(declaration: &Declaration, line: &Line, coming_in: Span, going_in: Span) -> LineShifts
        requires step { 0 < declaration.now.step }
        requires stops { StopsFit line.now line.now.arrival line.now.departure }
        requires coming { coming_in.high < MINUTE_BOUND }
        requires going { going_in.high < MINUTE_BOUND }
        ensures shifts { line_shifts result
            ≡ shifts_within declaration.now line.now coming_in going_in }
        ensures valid { AreLineShifts result }
    {
        match (line.arrival, line.departure) {
            (Some(coming), None) => LineShifts::Arrivals(Shifts::of(
                declaration,
                u32::from(coming.minute),
                coming_in,
            )),
            (None, Some(going)) => {
                let requested = minute_after(line.nights, going.minute);
                LineShifts::Departures(Shifts::of(declaration, requested, going_in))
            }
            (Some(coming), Some(going)) => {
                let arrivals = Shifts::of(declaration, u32::from(coming.minute), coming_in);
                let requested = minute_after(line.nights, going.minute);
                let departures = Shifts::of(declaration, requested, going_in);
                let least = declaration.ground.min(requested - arrivals.requested);
                LineShifts::Pairs {
                    arrivals,
                    departures,
                    least,
                }
            }
            (None, None) => LineShifts::Neither,
        }
    }
}

// Appends the shifts of a line: the time of a single movement in rising order; of a turnaround the
// pairs, by rising arrival and then by rising departure.
pub(crate) fn push_line(options: &mut Vec<Times>, shifts: &LineShifts) -> Result<(), Memory>
    requires { AreLineShifts shifts.now }
    ensures { OnOk result (options.new.items ≡ options.old.items ++ line_shifts shifts.now) }
{
    match shifts {
        LineShifts::Arrivals(arrivals) => push_arrivals(options, arrivals),
        LineShifts::Departures(departures) => {
            push_departures(options, 0, departures, departures.low)
        }
        LineShifts::Pairs {
            arrivals,
            departures,
            least,
        } => push_pairs(options, arrivals, departures, *least),
        LineShifts::Neither => Ok(()),
    }
}

// A minute of the date some nights later, from the beginning of the first date.
pub(crate) fn minute_after(nights: u8, minute: u16) -> u32
    ensures { result ≡ MINUTES_OF_DAY * nights + minute }
{
    MINUTES_OF_DAY * u32::from(nights) + u32::from(minute)
}
