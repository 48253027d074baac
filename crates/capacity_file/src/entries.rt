//! The values of one line, by its word.

ghost use Rattle.std.specs.Prelude.{◌≡◌, ℕ, ◌≤◌, ◌↔◌, IsTrue};
ghost use Rattle.slot_text.specs.Fields.{fields_of};
ghost use Rattle.capacity_file.specs.Readings.{IsValueOf, IsEntryOf, IsEntry};
ghost use Rattle.capacity_file.specs.declared.entry.Entry.{Entry as EntryValue};

use crate::entry::{Entry, Word};
use crate::fields::{last_field, night_fields, rule_fields};
use crate::values::{is_allowed_step, read_minute, read_number};
use crate::words::read_word;
use schedule_text::{read_kind, read_weekdays};
use season_days::{
    HIGHEST_NIGHT_LIMIT, HIGHEST_REFUSAL_PRICE, HIGHEST_SHARE, HIGHEST_WINDOW_LIMIT,
    MINUTES_OF_DAY, Night, Rule, Season,
};
use slot_text::{Station, read_u64};

/// The entry whose word this is, with the values in the fields of the rest.
pub(crate) fn read_entry(word: &[u8], rest: &[u8]) -> Option<Entry>
    ensures { IsEntry word.now (fields_of rest.now) result }
{
    read_values(read_word(word)?, rest)
}

/// The entry of a word, with the values in the fields of the rest.
fn read_values(word: Word, rest: &[u8]) -> Option<Entry>
    ensures { IsEntryOf word (fields_of rest.now) result }
{
    match word {
        Word::Airport => Some(Entry::Airport(read_airport(rest)?)),
        Word::Season => Some(Entry::Season(read_season(rest)?)),
        Word::Step => Some(Entry::Step(read_step(rest)?)),
        Word::Flex => Some(Entry::Flex(read_flex(rest)?)),
        Word::Ground => Some(Entry::Ground(read_ground(rest)?)),
        Word::Share => Some(Entry::Share(read_share(rest)?)),
        Word::Refuse => Some(Entry::Refuse(read_refuse(rest)?)),
        Word::Night => Some(Entry::Night(read_night(rest)?)),
        Word::Cap => Some(Entry::Cap(read_rule(rest)?)),
    }
}

fn read_airport(rest: &[u8]) -> Option<Station>
    ensures { IsValueOf Entry.Airport (fields_of rest.now) result }
{
    Station::read(last_field(rest)?)
}

fn read_season(rest: &[u8]) -> Option<Season>
    ensures { IsValueOf Entry.Season (fields_of rest.now) result }
{
    Season::read(last_field(rest)?)
}

fn read_step(rest: &[u8]) -> Option<u32>
    ensures { IsValueOf Entry.Step (fields_of rest.now) result }
{
    let step = read_number(last_field(rest)?, 60)?;
    if is_allowed_step(step) {
        Some(step)
    } else {
        None
    }
}

fn read_flex(rest: &[u8]) -> Option<u64>
    ensures { IsValueOf Entry.Flex (fields_of rest.now) result }
{
    read_u64(last_field(rest)?).ok()
}

fn read_ground(rest: &[u8]) -> Option<u32>
    ensures { IsValueOf Entry.Ground (fields_of rest.now) result }
{
    read_number(last_field(rest)?, MINUTES_OF_DAY)
}

fn read_share(rest: &[u8]) -> Option<u32>
    ensures { IsValueOf Entry.Share (fields_of rest.now) result }
{
    read_number(last_field(rest)?, HIGHEST_SHARE)
}

fn read_refuse(rest: &[u8]) -> Option<Option<u32>>
    ensures { IsValueOf Entry.Refuse (fields_of rest.now) result }
{
    let price = last_field(rest)?;
    if price == b"NONE".as_slice() {
        return Some(None);
    }
    let price = read_number(price, HIGHEST_REFUSAL_PRICE)?;
    if price > 0 { Some(Some(price)) } else { None }
}

fn read_night(rest: &[u8]) -> Option<Night>
    ensures { IsValueOf Entry.Night (fields_of rest.now) result }
{
    let fields = night_fields(rest)?;
    let from = read_minute(fields.from)?;
    let to = read_minute(fields.to)?;
    let limit = read_number(fields.limit, HIGHEST_NIGHT_LIMIT)?;
    if from == to {
        return None;
    }
    Some(Night { from, to, limit })
}

fn read_rule(rest: &[u8]) -> Option<Rule>
    ensures { IsValueOf Entry.Cap (fields_of rest.now) result }
{
    let fields = rule_fields(rest)?;
    let rule = Rule {
        kind: read_kind(fields.kind)?,
        length: read_number(fields.length, MINUTES_OF_DAY)?,
        from: read_minute(fields.from)?,
        to: read_minute(fields.to)?,
        days: read_weekdays(fields.days)?,
        limit: read_number(fields.limit, HIGHEST_WINDOW_LIMIT)?,
    };
    if is_usable(&rule) { Some(rule) } else { None }
}

/// Whether windows have minutes, a start and a weekday.
fn is_usable(rule: &Rule) -> bool
    ensures { IsTrue result ↔ ((1 ≤ rule.now.length) × (rule.now.from ≤ rule.now.to)
        × (1 ≤ rule.now.days)) }
{
    rule.length > 0 && rule.from <= rule.to && rule.days > 0
}
