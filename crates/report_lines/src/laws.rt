//! Laws of lines on loads. Each function does nothing; its contract is the law.

ghost use Rattle.std.specs.Prelude.{◌≡◌, ◌<◌, ◌↔◌, ℕ, List, [], true, false, map};
ghost use Rattle.season_days.specs.Capacity.{Capacity, capacity_of, declared_resources};
ghost use Rattle.season_days.specs.declared.declaration.Declaration.{Declaration as DeclarationValue};
ghost use Rattle.series_model.specs.declared.unit.Unit.{Unit as SlotUnit};
ghost use Rattle.series_model.specs.declared.state.UnitState.{UnitState as UnitStateValue};
ghost use Rattle.series_model.specs.Allotments.{HasNoAllotment, IsFeasibleAllotment};
ghost use Rattle.series_model.specs.Options.{line_times};
ghost use Rattle.series_model.specs.Stages.{stage_units, stage_limit, first_states};
ghost use Rattle.report_lines.specs.Peaks.{Excess, is_above, excess_lines, stage_excess, over_lines};

/// Lines on what is above a limit. There is none exactly where no window, and not the night quota,
/// is above its limit (`told`). Each one that even the least load of a stage puts above the stage's
/// limit rules out all allotments of the stage (`over`). In stage 1 these are all that can rule
/// them out, since a historic series has one alternative: where no line says so, all historic
/// series can have their times (`first`). So `over_lines` of stage 1 has a line exactly where that
/// stage has no allotment.
pub fn ruled_out()
    ensures told { (c : Capacity) (e : Excess) →
        ((r : ℕ) → r < declared_resources c → is_above e r ≡ false) ↔ (excess_lines c e ≡ []) }
    ensures over { (d : DeclarationValue) (stage : ℕ) (states : List UnitStateValue) (r : ℕ) →
        r < declared_resources (capacity_of d) → is_above (stage_excess d stage states) r ≡ true →
        HasNoAllotment d (stage_units stage states) (stage_limit d stage states) }
    ensures first { (d : DeclarationValue) (units : List SlotUnit) →
        over_lines d 1 (first_states units) ≡ [] →
        IsFeasibleAllotment d (stage_units 1 (first_states units))
        (stage_limit d 1 (first_states units))
        (map (λ (unit : SlotUnit). line_times unit.request) (stage_units 1 (first_states units))) }
{}
