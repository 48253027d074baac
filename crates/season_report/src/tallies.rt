//! Tallies of units.

ghost use Rattle.std.specs.Prelude.{◌≡◌, ◌++◌, ◌≤◌, ◌<◌, ◌^◌, length, filter, All, IfOk, OnOk};
ghost use Rattle.choice_problem.specs.declared.problems.TheConstants.{MOST_UNITS};
ghost use Rattle.season_report.specs.Decisions.{is_of_stage};
ghost use Rattle.season_report.specs.Tallies.{slots_cost, tally_of, tally_words};
ghost use Rattle.season_report.specs.Private.{IsTold, IsSmallTally, with_unit};

use crate::decided::{Decided, Decision};
use report_lines::put_tagged;
use season_days::Declaration;
use series_model::{Times, displacement};
use slot_text::Memory;
use std::alloc::Global;

/// How many units there are, how many of them were decided how, and what their slots cost, in
/// minutes over all their dates.
#[derive(Clone, Copy, Debug, PartialEq, Eq)]
pub struct Tally {
    pub units: u64,
    pub kept: u64,
    pub historic: u64,
    pub moved: u64,
    pub refused: u64,
    pub unallotted: u64,
    pub minutes: u64,
}

// What the slots of a unit cost.
fn slots_cost(declaration: &Declaration, unit: &Decided) -> u64
    requires { IsTold declaration.now unit.now }
    ensures value { result ≡ slots_cost declaration.now unit.now }
    ensures small { slots_cost declaration.now unit.now < 2 ^ 24 }
{
    match unit.given {
        Some(Times::At { arrival, departure }) => {
            displacement(&unit.unit, Times::At { arrival, departure }, declaration)
        }
        Some(Times::Refused) | None => 0,
    }
}

// A tally with one unit more.
fn with_unit(declaration: &Declaration, tally: Tally, unit: &Decided) -> Tally
    requires told { IsTold declaration.now unit.now }
    requires small { IsSmallTally tally }
    ensures { result ≡ with_unit declaration.now tally unit.now }
{
    let units = tally.units + 1;
    let minutes = tally.minutes + slots_cost(declaration, unit);
    match unit.decision() {
        Decision::Unallotted => Tally {
            units,
            minutes,
            unallotted: tally.unallotted + 1,
            ..tally
        },
        Decision::Refused => Tally {
            units,
            minutes,
            refused: tally.refused + 1,
            ..tally
        },
        Decision::Kept => Tally {
            units,
            minutes,
            kept: tally.kept + 1,
            ..tally
        },
        Decision::Historic => Tally {
            units,
            minutes,
            historic: tally.historic + 1,
            ..tally
        },
        Decision::Moved => Tally {
            units,
            minutes,
            moved: tally.moved + 1,
            ..tally
        },
    }
}

/// The tally of units.
pub(crate) fn tally_of(declaration: &Declaration, units: &[Decided]) -> Tally
    requires told { All (IsTold declaration.now) units.now }
    requires few { length units.now ≤ MOST_UNITS }
    ensures { result ≡ tally_of declaration.now units.now }
{
    let mut tally = Tally {
        units: 0,
        kept: 0,
        historic: 0,
        moved: 0,
        refused: 0,
        unallotted: 0,
        minutes: 0,
    };
    for unit in units {
        tally = with_unit(declaration, tally, unit);
    }
    tally
}

/// Appends a tally.
pub(crate) fn put_tally(alloc: Global, out: &mut Vec<u8>, tally: &Tally) -> Result<(), Memory>
    ensures { OnOk result (out.new.items ≡ out.old.items ++ tally_words tally.now) }
{
    put_tagged(alloc, out, b"UNITS ", tally.units)?;
    put_tagged(alloc, out, b" KEPT ", tally.kept)?;
    put_tagged(alloc, out, b" HISTORIC ", tally.historic)?;
    put_tagged(alloc, out, b" MOVED ", tally.moved)?;
    put_tagged(alloc, out, b" REFUSED ", tally.refused)?;
    put_tagged(alloc, out, b" NONE ", tally.unallotted)?;
    put_tagged(alloc, out, b" MINUTES ", tally.minutes)
}

/// The units that were decided in a stage.
pub(crate) fn of_stage(alloc: Global, units: &[Decided], stage: u32) -> Result<Vec<Decided>, Memory>
    ensures found { IfOk result (λ found. found.items ≡ filter (is_of_stage stage) units.now) }
    ensures few { IfOk result (λ found. length found.items ≤ length units.now) }
{
    let mut found = Vec::new(alloc);
    for unit in units {
        if unit.stage == stage {
            found.push(*unit)?;
        }
    }
    Ok(found)
}
