//! What each resource of a declaration has left.

ghost use Rattle.std.specs.Prelude.{◌≡◌, ◌↔◌, ℕ, ◌+◌, ◌<◌, ◌≤◌, ◌^◌, false, [], length, slice_index, None, IsTrue, IfOk, OnOk};
ghost use Rattle.season_days.specs.Capacity.{capacity_of, declared_resources, IsDeclaration};
ghost use Rattle.season_days.specs.Seasons.{date_count};
ghost use Rattle.season_days.specs.declared.declaration.Rule.{Rule as RuleValue};
ghost use Rattle.std.specs.List.{list_any};
ghost use Rattle.scr_reader.specs.Printed.{LineFits};
ghost use Rattle.series_model.specs.Options.{TimesFit};
ghost use Rattle.series_model.specs.Movements.{movements_at};
ghost use Rattle.series_model.specs.TimedLines.{line_movements};
ghost use Rattle.capacity_windows.specs.Windows.{window_limit};
ghost use Rattle.season_days.specs.declared.declaration.TheConstants.{HIGHEST_NIGHT_LIMIT};
ghost use Rattle.choice_problem.specs.Counts.{GrowsBy, HasRoom, HasUses};
ghost use Rattle.holding_book.specs.Private.Loads.{AreLeft, fits_left, can_share, is_tot};
ghost use Rattle.holding_book.specs.Private.Trials.{IsTimesTrial};
ghost use Rattle.season_days.specs.declared.declaration.Kind.TheVariants.{Arr, Dep};
ghost use Rattle.series_model.specs.declared.times.Times.TheVariants.{At as at_times};
ghost use Rattle.holding_book.specs.Private.Uses.{book_uses_of, AreInRange, AreOncePerWindow, AreUsesOf, IsStopPart};

use crate::trials::Trial;
use crate::uses::{Uses, give_back, has_both, has_uses, no_uses, take_away};
use capacity_windows::Windows;
use choice_problem::Part;
use left_counts::LeftCounts;
use scr_reader::{Line, Stop};
use season_days::{Declaration, Kind, MINUTES_OF_DAY, Period, Rule};
use series_model::laws::{movement_loads, requested_shift, shift_bounds};
use series_model::{Times, line_times};
use slot_text::Memory;
use std::alloc::Global;
use std::marker::Model;

/// A declaration, its windows, and what each resource has left. Contracts see the
/// declaration and what is left.
#[derive(Drop)]
pub(crate) struct Loads {
    declaration: Declaration,
    windows: Windows,
    left: LeftCounts,
}

impl Model for Loads {
    ghost use Rattle.holding_book.specs.Private.Loads.{LoadsView, IsLoads};

    ghost Value = { LoadsView };

    ghost view = { λ l. record { declaration = l.declaration; left = l.left } };

    ghost invariant = { λ l. IsLoads l.declaration l.windows l.left };
}

impl Loads {
    /// All resources of a declaration, of which nothing is taken: one step each.
    pub fn of(alloc: Global, declaration: &Declaration) -> Result<Loads, Memory>
        requires { IsDeclaration declaration.now }
        ensures value { IfOk result (λ loads. loads.declaration ≡ declaration.now) }
        ensures left { IfOk result (λ loads.
            AreLeft (capacity_of declaration.now) [] loads.left) }
        ensures limits { OnOk result ((r : ℕ) →
            window_limit (capacity_of declaration.now) r ≤ HIGHEST_NIGHT_LIMIT) }
    {
        let windows = Windows::new(alloc, declaration)?;
        let limits = windows.limits(alloc)?;
        Ok(Loads {
            declaration: declaration.copy(alloc)?,
            windows,
            left: LeftCounts::with(alloc, limits)?,
        })
    }

    /// The same again: one step a resource.
    pub fn copy(&self, alloc: Global) -> Result<Loads, Memory>
        ensures { IfOk result (λ copy. copy ≡ self.now) }
    {
        Ok(Loads {
            declaration: self.declaration.copy(alloc)?,
            windows: self.windows.copy(alloc)?,
            left: self.left.copy(alloc)?,
        })
    }

    /// The declaration.
    pub fn declaration(&self) -> &Declaration
        ensures value { result.now ≡ self.now.declaration }
        ensures keeps { IsDeclaration result.now }
    {
        &self.declaration
    }

    /// What a resource has left.
    pub fn left(&self, resource: u32) -> u32
        requires { resource < length self.now.left }
        ensures { result ≡ slice_index self.now.left resource }
    {
        self.left.count(resource)
    }

    /// The uses of a line at some times: one part for each of its movements.
    pub fn parts_at(&self, alloc: Global, line: &Line, times: Times) -> Result<Uses, Memory>
        requires line { LineFits self.now.declaration.season line.now }
        requires times { TimesFit None times }
        ensures { IfOk result (λ uses. AreUsesOf (capacity_of self.now.declaration)
            (movements_at self.now.declaration.season line.now times) uses) }
    {
        movement_loads();
        let Times::At { arrival, departure } = times else {
            return Ok(no_uses());
        };
        let one = self.stop_part(alloc, Kind::Arr, line.arrival, arrival, line.period)?;
        let two = self.stop_part(alloc, Kind::Dep, line.departure, departure, line.period)?;
        Ok(Uses { one, two })
    }

    // The uses of a movement of a line on all dates of its period, if the line has the movement.
    fn stop_part(
        &self,
        alloc: Global,
        kind: Kind,
        stop: Option<Stop>,
        minute: u32,
        period: Period,
    ) -> Result<Option<Part>, Memory>
        requires first { period.first.0 < date_count self.now.declaration.season }
        requires last { period.last.0 < date_count self.now.declaration.season }
        ensures { IfOk result
            (IsStopPart (capacity_of self.now.declaration) kind stop minute period) }
    {
        let Some(_) = stop else {
            return Ok(None);
        };
        let part = self.windows.strips_of(
            alloc,
            kind,
            minute % MINUTES_OF_DAY,
            minute / MINUTES_OF_DAY,
            period,
        )?;
        Ok(Some(part))
    }

    /// The uses of a line at its own times.
    pub fn parts_of(&self, alloc: Global, line: &Line) -> Result<Uses, Memory>
        requires line { LineFits self.now.declaration.season line.now }
        ensures { IfOk result (λ uses. AreUsesOf (capacity_of self.now.declaration)
            (line_movements self.now.declaration.season line.now) uses) }
    {
        shift_bounds();
        requested_shift();
        self.parts_at(alloc, line, line_times(line))
    }

    /// Whether each resource has left what is used of it: at most three steps a use, and none after
    /// the first use of a window that is full.
    pub fn fits_uses(&self, uses: &Uses) -> bool
        requires there { AreInRange (length self.now.left) uses.now }
        requires once { AreOncePerWindow (capacity_of self.now.declaration) uses.now }
        requires few { (r : ℕ) → book_uses_of uses.now r < 2 ^ 20 }
        ensures { IsTrue result ↔ HasUses self.now.left (λ r. book_uses_of uses.now r) }
    {
        has_uses(&self.left, &uses.one, &uses.two, self.windows.night())
    }

    /// The uses of a movement of a line at a minute, and whether they are left.
    pub fn try_stop(
        &self,
        alloc: Global,
        kind: Kind,
        stop: Option<Stop>,
        minute: u32,
        period: Period,
    ) -> Result<Trial, Memory>
        requires first { period.first.0 < date_count self.now.declaration.season }
        requires last { period.last.0 < date_count self.now.declaration.season }
        ensures trial { IfOk result (IsTimesTrial self.now kind stop period) }
        ensures minute { IfOk result (λ trial. trial.minute ≡ minute) }
    {
        let part = self.stop_part(alloc, kind, stop, minute, period)?;
        let none = None;
        let fits = has_uses(&self.left, &part, &none, self.windows.night());
        Ok(Trial { minute, part, fits })
    }

    /// Whether a line fits at the minutes of two trials of its movements: whether each fits alone,
    /// and both together. Their uses are looked at only where they may share a resource.
    pub fn fits_both(&self, line: &Line, one: &Trial, two: &Trial) -> bool
        requires one { IsTimesTrial self.now Arr line.now.arrival line.now.period one.now }
        requires two { IsTimesTrial self.now Dep line.now.departure line.now.period two.now }
        ensures { result ≡ fits_left self.now line.now (at_times one.now.minute two.now.minute) }
    {
        movement_loads();
        let night = self.windows.night();
        if !one.fits {
            return false;
        }
        if !two.fits {
            return false;
        }
        if !can_share(&self.declaration) {
            return true;
        }
        has_both(&self.left, &one.part, &two.part, night)
    }

    /// Whether a line fits at no times with the minute of a trial of its arrival, since that does
    /// not fit alone.
    pub fn is_full(&self, line: &Line, one: &Trial) -> bool
        requires { IsTimesTrial self.now Arr line.now.arrival line.now.period one.now }
        ensures { IsTrue result → (departure : ℕ) →
            fits_left self.now line.now (at_times one.now.minute departure) ≡ false }
    {
        movement_loads();
        let _left = &self.left;
        !one.fits
    }

    /// Whether each resource would have left what is used of it, if other uses were given back
    /// before. All is left as it was.
    pub fn fits_instead(&mut self, freed: &Uses, taken: &Uses) -> bool
        requires freed { AreInRange (length self.old.left) freed.now }
        requires taken { AreInRange (length self.old.left) taken.now }
        requires once { AreOncePerWindow (capacity_of self.old.declaration) taken.now }
        requires few { (r : ℕ) → book_uses_of taken.now r < 2 ^ 20 }
        requires room { HasRoom self.old.left (λ r. book_uses_of freed.now r) }
        ensures same { self.new ≡ self.old }
        ensures fits { IsTrue result ↔ ((r : ℕ) → r < length self.old.left →
            book_uses_of taken.now r ≤ slice_index self.old.left r + book_uses_of freed.now r) }
    {
        self.give_back(freed);
        let fits = self.fits_uses(taken);
        self.take(freed);
        fits
    }

    /// Gives uses back.
    pub fn give_back(&mut self, uses: &Uses)
        requires there { AreInRange (length self.old.left) uses.now }
        requires room { HasRoom self.old.left (λ r. book_uses_of uses.now r) }
        ensures declaration { self.new.declaration ≡ self.old.declaration }
        ensures length { length self.new.left ≡ length self.old.left }
        ensures uses { GrowsBy self.old.left self.new.left (λ r. book_uses_of uses.now r) }
    {
        give_back(&mut self.left, uses);
    }

    /// Takes uses that are left.
    pub fn take(&mut self, uses: &Uses)
        requires there { AreInRange (length self.old.left) uses.now }
        requires left { HasUses self.old.left (λ r. book_uses_of uses.now r) }
        ensures declaration { self.new.declaration ≡ self.old.declaration }
        ensures length { length self.new.left ≡ length self.old.left }
        ensures uses { GrowsBy self.new.left self.old.left (λ r. book_uses_of uses.now r) }
    {
        take_away(&mut self.left, uses);
    }
}

// Whether a resource may hold both an arrival and a departure: the night quota, or the windows of a
// capacity line for both kinds.
fn can_share(declaration: &Declaration) -> bool
    ensures { result ≡ can_share (capacity_of declaration.now) }
{
    declaration.night.is_some() || has_tot(declaration.rules.items())
}

// Whether a capacity line is for both kinds.
fn has_tot(rules: &[Rule]) -> bool
    ensures { result ≡ list_any (λ (rule : RuleValue). is_tot rule.kind) rules.now }
{
    rules.iter().any(|rule| is_tot(rule.kind))
}

fn is_tot(kind: Kind) -> bool
    ensures { result ≡ is_tot kind }
{
    matches!(kind, Kind::Tot)
}
