//! What is left of a holding where the dates of a period are taken out.

ghost use Rattle.std.specs.Prelude.{◌≡◌, ◌++◌, [], map, IfOk, OnOk, All};
ghost use Rattle.std.specs.List.{cons_option};
ghost use Rattle.holding_book.specs.Lines.{in_period, cut_holding};
ghost use Rattle.holding_book.specs.Private.Steps.{HasFlightsOf};

use crate::holding::Holding;
use scr_reader::Line;
use season_days::{Period, Season};
use slot_text::Memory;
use std::alloc::Global;

/// The same data and state in another period.
pub(crate) fn in_period(holding: &Holding, period: Period) -> Holding
    ensures { result ≡ in_period holding.now period }
{
    Holding {
        line: Line {
            period,
            ..holding.line
        },
        ..*holding
    }
}

// Appends the holding in the period of a part, if there is one.
fn push_part(
    parts: &mut Vec<Holding>,
    holding: &Holding,
    part: Option<Period>,
) -> Result<(), Memory>
    ensures { OnOk result (parts.new.items
        ≡ parts.old.items ++ map (in_period holding.now) (cons_option part [])) }
{
    if let Some(period) = part {
        parts.push(in_period(holding, period))?;
    }
    Ok(())
}

/// What is left of a holding: its days before the period, those within it on the weekdays that the
/// period lacks, and those after it.
#[tactic(auto, using(crate::proofs::RowLemmas::cut_flights))]
pub(crate) fn cut_holding(
    alloc: Global,
    season: &Season,
    holding: &Holding,
    period: Period,
) -> Result<Vec<Holding>, Memory>
    ensures parts { IfOk result (λ parts. parts.items ≡ cut_holding season.now period holding.now) }
    ensures flights { IfOk result (λ parts. All (HasFlightsOf holding.now.line) parts.items) }
{
    let cut = season.cut(holding.line.period, period);
    let mut parts = Vec::new(alloc);
    push_part(&mut parts, holding, cut.before)?;
    push_part(&mut parts, holding, cut.between)?;
    push_part(&mut parts, holding, cut.after)?;
    Ok(parts)
}
