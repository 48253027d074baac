//! The units of messages, and what of the messages is refused.

ghost use Rattle.std.specs.Prelude.{◌≡◌, ◌+◌, ◌<◌, ◌^◌, IfOk, OnOk, length, All, ◌++◌, []};
ghost use Rattle.std.specs.List.{filter_map, cons_option};
ghost use Rattle.series_model.specs.Units.{group_of, pair_group, placed_unit, units_of};
ghost use Rattle.series_model.specs.Submissions.{HasNumbers, item_count, items_fault, message_fault, first_fault, MakesUnits};

use crate::fault::ModelFault;
use crate::group::Group;
use crate::unit::Unit;
use scr_reader::{Code, Item, Message, Placed, StrayLine};
use season_days::Declaration;
use slot_text::Memory;
use std::alloc::Global;

// The group of a line that stands by itself, if it makes a unit.
fn group_of(code: Code) -> Option<Group>
    ensures { result ≡ group_of code }
{
    match code {
        Code::F => Some(Group::F),
        Code::B => Some(Group::B),
        Code::N => Some(Group::N),
        _ => None,
    }
}

// The group of a pair, by the code of the line that asks for the change.
fn pair_group(code: Code) -> Group
    ensures { result ≡ pair_group code }
{
    match code {
        Code::R => Group::R,
        _ => Group::L,
    }
}

// The unit that an item makes, if it makes one.
fn unit_of(placed: &Placed) -> Option<Unit>
    ensures { result ≡ placed_unit placed.now }
{
    match placed.item {
        Item::One(request) => Some(Unit {
            line: placed.line,
            group: group_of(request.code)?,
            request,
            historic: None,
        }),
        Item::Pair(historic, request) => Some(Unit {
            line: placed.line,
            group: pair_group(request.code),
            request,
            historic: Some(historic),
        }),
        Item::Query(_) => None,
    }
}

// The first item that makes no unit.
fn items_fault(items: &[Placed]) -> Option<ModelFault>
    ensures { result ≡ items_fault items.now }
{
    for placed in items {
        if unit_of(placed).is_none() {
            return Some(ModelFault::NotInitial { line: placed.line });
        }
    }
    None
}

// What is wrong with a message, its lines from the first on.
fn message_fault(declaration: &Declaration, message: &Message) -> Option<ModelFault>
    requires { HasNumbers message.now }
    ensures { result ≡ message_fault declaration.now message.now }
{
    match message.stray_line(declaration.season, declaration.airport) {
        Some(StrayLine::Season(line)) => Some(ModelFault::OtherSeason { line }),
        Some(StrayLine::Airport(line)) => Some(ModelFault::OtherAirport { line }),
        None => items_fault(message.items.items()),
    }
}

// What is wrong with the first message with which something is.
pub(crate) fn first_fault(declaration: &Declaration, messages: &[Message]) -> Option<ModelFault>
    requires { All HasNumbers messages.now }
    ensures { result ≡ first_fault declaration.now messages.now }
{
    for message in messages {
        if let Some(fault) = message_fault(declaration, message) {
            return Some(fault);
        }
    }
    None
}

// How many units the messages make, each of whose items makes one.
pub(crate) fn count_units(messages: &[Message]) -> u32
    requires few { item_count messages.now < 2 ^ 31 }
    requires each { All MakesUnits messages.now }
    ensures { result ≡ length (units_of messages.now) }
{
    let mut count = 0;
    for message in messages {
        count += message.items.items().len() as u32;
    }
    count
}

// Appends the units that the items make.
fn push_units(units: &mut Vec<Unit>, items: &[Placed]) -> Result<(), Memory>
    ensures { OnOk result (units.new.items ≡ units.old.items ++ filter_map placed_unit items.now) }
{
    for placed in items {
        push_unit(units, placed)?;
    }
    Ok(())
}

// Appends the unit that an item makes, if it makes one.
fn push_unit(units: &mut Vec<Unit>, placed: &Placed) -> Result<(), Memory>
    ensures { OnOk result
        (units.new.items ≡ units.old.items ++ cons_option (placed_unit placed.now) []) }
{
    if let Some(unit) = unit_of(placed) {
        units.push(unit)?;
    }
    Ok(())
}

// The units of all messages.
pub(crate) fn collect_units(alloc: Global, messages: &[Message]) -> Result<Vec<Unit>, Memory>
    ensures { IfOk result (λ units. units.items ≡ units_of messages.now) }
{
    let mut units = Vec::new(alloc);
    for message in messages {
        push_units(&mut units, message.items.items())?;
    }
    Ok(units)
}
