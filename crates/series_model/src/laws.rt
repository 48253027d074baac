//! Laws of the model. Each function does nothing; its contract is the law.

ghost use Rattle.std.specs.Prelude.{◌≡◌, ◌+◌, ◌*◌, ◌<◌, ◌≤◌, ◌^◌, ℕ, List, [], ◌∷◌, ◌++◌, All, Contains, length, map, Option, Some, None};
ghost use Rattle.std.specs.Option.{ForSome};
ghost use Rattle.season_days.specs.Term.{Term};
ghost use Rattle.season_days.specs.declared.declaration.Declaration.{Declaration as DeclarationValue};
ghost use Rattle.season_days.specs.declared.declaration.Kind.TheVariants.{Arr, Dep};
ghost use Rattle.season_days.specs.declared.declaration.TheConstants.{MINUTES_OF_DAY, HIGHEST_REFUSAL_PRICE, HIGHEST_SHARE};
ghost use Rattle.scr_reader.specs.Messages.{ReadsAll};
ghost use Rattle.scr_reader.specs.Printed.{LineFits};
ghost use Rattle.scr_reader.specs.declared.line.Line.{Line as LineValue};
ghost use Rattle.scr_reader.specs.declared.message.Message.{Message as MessageValue};
ghost use Rattle.capacity_windows.specs.Windows.{Capacity, window_load};
ghost use Rattle.series_model.specs.Units.{UnitFits};
ghost use Rattle.series_model.specs.Options.{line_times, shifts_of, options_of, TimesFit};
ghost use Rattle.series_model.specs.Displacement.{cost_at, displacement_of};
ghost use Rattle.series_model.specs.TimedLines.{line_at, line_movements};
ghost use Rattle.series_model.specs.Submissions.{HasNumbers, MessagePairs, item_count};
ghost use Rattle.series_model.specs.Movements.{movements_at, movements_of, stop_load};
ghost use Rattle.series_model.specs.declared.times.Times.TheVariants.{At as at_times};
ghost use Rattle.series_model.specs.declared.state.UnitState.{UnitState as UnitStateValue};
ghost use Rattle.series_model.specs.declared.times.Times.{Times as TimesValue};
ghost use Rattle.series_model.specs.declared.unit.Unit.{Unit as SlotUnit};
ghost use Rattle.series_model.specs.Allotments.{IsFeasibleAllotment};
ghost use Rattle.series_model.specs.Stages.{first_states, movements_given, stage_units, stage_limit, after_allotment, after_stage, states_after, AreFeasibleChoices, GivenFits};

use season_days::laws::lengths;

/// Messages that are read of fewer than 2^31 bytes have what a submission asks of them: each pair
/// is a historic line and a request to change it, there are fewer than 2^31 items, and each line
/// has a number.
pub fn read_messages()
    ensures pairs { (bytes : List ℕ) (messages : List MessageValue) → ReadsAll bytes messages →
        All MessagePairs messages }
    ensures few { (bytes : List ℕ) (messages : List MessageValue) → length bytes < 2 ^ 31 →
        ReadsAll bytes messages → item_count messages < 2 ^ 31 }
    ensures numbers { (bytes : List ℕ) (messages : List MessageValue) → length bytes < 2 ^ 31 →
        ReadsAll bytes messages → All HasNumbers messages }
{}

/// The load of a unit's movements on a resource is the sum of the loads of its stops: of the
/// arrivals on the dates of the line, and of the departures so many days later. So a part of strips
/// for each stop has the load of the movements.
pub fn movement_loads()
    ensures { (c : Capacity) (line : LineValue) (arrival departure r : ℕ) →
        window_load c (movements_at c.season line (at_times arrival departure)) r
        ≡ stop_load c Arr line.arrival arrival line.period r
        + stop_load c Dep line.departure departure line.period r }
{}

/// A unit has at least one alternative, and no more than there are pairs of minutes and a refusal,
/// or historic times. Alternatives stay within what windows and problems of choice ask: an arrival
/// is on its date, a departure at most nine nights later, only a priced refusal is there, and where
/// the price is within its limit each costs less than 2^24.
pub fn option_bounds()
    ensures some { (d : DeclarationValue) (unit : SlotUnit) → UnitFits d.season unit →
        0 < length (options_of d unit) }
    ensures few { (d : DeclarationValue) (unit : SlotUnit) → UnitFits d.season unit →
        length (options_of d unit) ≤ MINUTES_OF_DAY * MINUTES_OF_DAY + 1 }
    ensures times { (d : DeclarationValue) (unit : SlotUnit) → UnitFits d.season unit →
        All (TimesFit d.refuse) (options_of d unit) }
    ensures costs { (d : DeclarationValue) (unit : SlotUnit) → UnitFits d.season unit →
        ForSome d.refuse (λ price. price ≤ HIGHEST_REFUSAL_PRICE) →
        All (λ times. displacement_of d unit times < 2 ^ 24) (options_of d unit) }
{
    lengths();
}

/// At each of its alternatives the line that a unit asks with has a spelling, so that an offer can
/// be printed.
pub fn spelled_alternatives()
    ensures { (d : DeclarationValue) (unit : SlotUnit) → UnitFits d.season unit →
        All (λ times. LineFits d.season (line_at unit.request times)) (options_of d unit) }
{}

/// The shifts of a line are times, each an arrival on its date and a departure at most nine nights
/// later, and the line at each of them has a spelling.
pub fn shift_bounds()
    ensures times { (d : DeclarationValue) (line : LineValue) → LineFits d.season line →
        All (TimesFit None) (shifts_of d line) }
    ensures spelled { (d : DeclarationValue) (line : LineValue) → LineFits d.season line →
        All (λ times. LineFits d.season (line_at line times)) (shifts_of d line) }
{}

/// The times that a line names are one of its shifts.
pub fn requested_shift()
    ensures { (d : DeclarationValue) (line : LineValue) → LineFits d.season line →
        Contains (shifts_of d line) (line_times line) }
{}

/// The times that a line names cost nothing, and no other shift does.
pub fn free_shift()
    ensures own { (d : DeclarationValue) (line : LineValue) →
        cost_at d line (line_times line) ≡ 0 }
    ensures free { (d : DeclarationValue) (line : LineValue) (times : TimesValue) →
        LineFits d.season line → Contains (shifts_of d line) times → cost_at d line times ≡ 0 →
        line_times line ≡ times }
{}

/// The line at the times of a shift has the movements of these times, and so has the line of a unit
/// at those of an alternative. The historic line of a pair has the movements of its unit at the
/// historic times.
pub fn timed_movements()
    ensures shifts { (d : DeclarationValue) (line : LineValue) (times : TimesValue) →
        LineFits d.season line → Contains (shifts_of d line) times →
        line_movements d.season (line_at line times) ≡ movements_at d.season line times }
    ensures alternatives { (d : DeclarationValue) (unit : SlotUnit) (arrival departure : ℕ) →
        UnitFits d.season unit → Contains (options_of d unit) (at_times arrival departure) →
        line_movements d.season (line_at unit.request (at_times arrival departure))
        ≡ movements_of d.season unit (at_times arrival departure) }
    ensures historic { (season : Term) (unit : SlotUnit) (historic : LineValue) →
        UnitFits season unit → unit.historic ≡ Some historic →
        line_movements season historic ≡ movements_of season unit (line_times historic) }
{}

/// What the stages give fits. Before the first stage nothing is given. Where all that was given
/// fits the declared limits, and a stage gives a feasible allotment, all that is given after it
/// fits too, since a share of at most 100 per cent is no more than what is left. So after feasible
/// choices of the first stages, all movements fit the declared limits.
pub fn feasible_fits()
    ensures start { (season : Term) (units : List SlotUnit) →
        movements_given season (first_states units) ≡ [] }
    ensures step { (d : DeclarationValue) (stage : ℕ) (states : List UnitStateValue)
        (times : List TimesValue) →
        d.share ≤ HIGHEST_SHARE → GivenFits d states →
        IsFeasibleAllotment d (stage_units stage states) (stage_limit d stage states) times →
        GivenFits d (after_allotment stage states times) }
    ensures all { (d : DeclarationValue) (units : List SlotUnit)
        (choices : List (Option (List ℕ))) →
        d.share ≤ HIGHEST_SHARE → AreFeasibleChoices d units choices →
        GivenFits d (states_after d units choices) }
{}

/// After one more stage the units are as that stage leaves them.
pub fn one_more_stage()
    ensures { (d : DeclarationValue) (units : List SlotUnit) (choices : List (Option (List ℕ)))
        (choice : Option (List ℕ)) →
        states_after d units (choices ++ choice ∷ [])
        ≡ after_stage d (length choices + 1) (states_after d units choices) choice }
{}

/// A stage leaves the units as they are, in their order.
pub fn stages_keep_units()
    ensures { (stage : ℕ) (states : List UnitStateValue) (times : List TimesValue) →
        map (λ (state : UnitStateValue). state.unit) (after_allotment stage states times)
        ≡ map (λ (state : UnitStateValue). state.unit) states }
{}
