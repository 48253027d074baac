//! The first lines of a report.

ghost use Rattle.std.specs.Prelude.{◌≡◌, ◌++◌, OnOk};
ghost use Rattle.report_lines.specs.Heads.{season_line, price_word, rules_line, capacity_line, capacity_lines, night_line, head_text};

use crate::appends::{put, put_tagged, put_time};
use schedule_text::{kind_text, places_of};
use season_days::{Declaration, Night, Rule};
use slot_text::{Memory, put_number};
use std::alloc::Global;

// Appends the airport and the season.
fn put_season(out: &mut Vec<u8>, declaration: &Declaration) -> Result<(), Memory>
    ensures { OnOk result (out.new.items ≡ out.old.items ++ season_line declaration.now) }
{
    put(out, b"AIRPORT ")?;
    put(out, &declaration.airport.0)?;
    put(out, b" SEASON ")?;
    put(out, &declaration.season.text())?;
    put(out, b"\n")?;
    Ok(())
}

// Appends the price of a refusal, if it has one.
fn put_price(alloc: Global, out: &mut Vec<u8>, price: Option<u32>) -> Result<(), Memory>
    ensures { OnOk result (out.new.items ≡ out.old.items ++ price_word price) }
{
    match price {
        Some(price) => put_number(alloc, out, u64::from(price)),
        None => put(out, b"NONE"),
    }
}

// Appends the rules for moving requests.
fn put_rules(alloc: Global, out: &mut Vec<u8>, declaration: &Declaration) -> Result<(), Memory>
    ensures { OnOk result (out.new.items ≡ out.old.items ++ rules_line declaration.now) }
{
    put_tagged(alloc, out, b"RULES STEP ", u64::from(declaration.step))?;
    put_tagged(alloc, out, b" FLEX ", u64::from(declaration.flex))?;
    put_tagged(alloc, out, b" GROUND ", u64::from(declaration.ground))?;
    put_tagged(alloc, out, b" SHARE ", u64::from(declaration.share))?;
    put(out, b" REFUSE ")?;
    put_price(alloc, out, declaration.refuse)?;
    put(out, b"\n")?;
    Ok(())
}

// Appends a capacity line with its number.
fn put_capacity(alloc: Global, out: &mut Vec<u8>, line: u64, rule: &Rule) -> Result<(), Memory>
    ensures { OnOk result (out.new.items ≡ out.old.items ++ capacity_line line rule.now) }
{
    put_tagged(alloc, out, b"CAPACITY ", line)?;
    put(out, b" ")?;
    put(out, &kind_text(rule.kind))?;
    put_tagged(alloc, out, b" ", u64::from(rule.length))?;
    put(out, b" ")?;
    put_time(out, rule.from)?;
    put(out, b" ")?;
    put_time(out, rule.to)?;
    put(out, b" ")?;
    put(out, &places_of(rule.days))?;
    put_tagged(alloc, out, b" ", u64::from(rule.limit))?;
    put(out, b"\n")?;
    Ok(())
}

// Appends all capacity lines.
fn put_capacities(alloc: Global, out: &mut Vec<u8>, rules: &[Rule]) -> Result<(), Memory>
    ensures { OnOk result (out.new.items ≡ out.old.items ++ capacity_lines 1 rules.now) }
{
    for (i, rule) in rules.iter().enumerate() {
        put_capacity(alloc, out, i as u64 + 1, rule)?;
    }
    Ok(())
}

// Appends the night quota, if there is one.
fn put_night(alloc: Global, out: &mut Vec<u8>, night: Option<Night>) -> Result<(), Memory>
    ensures { OnOk result (out.new.items ≡ out.old.items ++ night_line night) }
{
    match night {
        Some(night) => {
            put(out, b"NIGHT ")?;
            put_time(out, night.from)?;
            put(out, b" ")?;
            put_time(out, night.to)?;
            put_tagged(alloc, out, b" ", u64::from(night.limit))?;
            put(out, b"\n")
        }
        None => Ok(()),
    }
}

/// Appends what was declared.
pub fn put_head(alloc: Global, out: &mut Vec<u8>, declaration: &Declaration) -> Result<(), Memory>
    ensures { OnOk result (out.new.items ≡ out.old.items ++ head_text declaration.now) }
{
    put(out, b"REPORT 1\n")?;
    put_season(out, declaration)?;
    put_rules(alloc, out, declaration)?;
    put_capacities(alloc, out, declaration.rules.items())?;
    put_night(alloc, out, declaration.night)?;
    Ok(())
}
