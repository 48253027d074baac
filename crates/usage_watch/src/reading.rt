//! All reports of a text.

ghost use Rattle.std.specs.Prelude.{◌≡◌, ◌⊎◌, ◌<◌, ◌^◌, List, length, Ok, Err, IfOk, IfErr, OnOk};
ghost use Rattle.slot_text.specs.Reads.{GivesOr};
ghost use Rattle.usage_watch.specs.Reports.{IsNoReport, SaysOperated, HasOperatedFault};
ghost use Rattle.usage_watch.specs.Private.Reading.{AddsLine};
ghost use Rattle.usage_watch.specs.declared.operated.Operated.{Operated as OperatedValue};
ghost use Rattle.usage_watch.specs.declared.fault.OperatedFault.{OperatedFault as OperatedFaultValue};
ghost use Rattle.usage_watch.specs.declared.fault.OperatedFault.TheVariants.{BadLine as AtLine, Memory as NoMemory};

use crate::fault::OperatedFault;
use crate::operated::{Operated, OperatedList};
use crate::report::read_report;
use season_days::Season;
use slot_text::{Lines, is_blank_line};
use std::alloc::Global;

/// The reports of a text, or its first bad line.
///
/// Empty lines are passed over, at any length. One pass over the bytes; memory is taken for what is
/// read alone.
pub fn read_operated(
    alloc: Global,
    season: &Season,
    bytes: &[u8],
) -> Result<OperatedList, OperatedFault>
    requires { length bytes.now < 2 ^ 32 }
    ensures found { IfOk result (λ reports. SaysOperated season.now bytes.now reports) }
    ensures only { (reports : List OperatedValue) → SaysOperated season.now bytes.now reports →
        GivesOr NoMemory result (Ok reports) }
    ensures fault { IfErr result
        (λ e. HasOperatedFault season.now bytes.now e ⊎ (e ≡ NoMemory)) }
    ensures exact { (e : OperatedFaultValue) → HasOperatedFault season.now bytes.now e →
        GivesOr NoMemory result (Err e) }
{
    let mut reports = Vec::new(alloc);
    let mut lines = Lines::new(bytes);
    let mut count = 0;
    while let Some(line) = lines.next_line() {
        add_line(&mut reports, season, count + 1, line)?;
        count += 1;
    }
    Ok(OperatedList::new(reports))
}

/// Passes over an empty line, or adds the report of a line that has the number.
fn add_line(
    reports: &mut Vec<Operated>,
    season: &Season,
    number: u32,
    line: &[u8],
) -> Result<(), OperatedFault>
    ensures on { OnOk result (AddsLine season.now line.now reports.old.items reports.new.items) }
    ensures fault { IfErr result
        (λ e. (IsNoReport season.now line.now × (e ≡ AtLine number)) ⊎ (e ≡ NoMemory)) }
{
    if is_blank_line(line) {
        return Ok(());
    }
    let Some(report) = read_report(season, line) else {
        return Err(OperatedFault::BadLine { line: number });
    };
    reports.push(report)?;
    Ok(())
}
