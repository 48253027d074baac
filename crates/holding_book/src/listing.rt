//! Changes of a list of holdings, with the places that are listed anew.

ghost use Rattle.std.specs.Prelude.{◌≡◌, ◌+◌, ◌<◌, ◌≤◌, ◌^◌, ◌++◌, ◌∷◌, [], All, length, map, slice_get, IfOk};
ghost use Rattle.std.specs.Option.{ForSome};
ghost use Rattle.scr_reader.specs.declared.line.Flight.{Flight as FlightValue};
ghost use Rattle.holding_book.specs.Books.{places_of};
ghost use Rattle.holding_book.specs.Private.Changes.{after_list_puts};
ghost use Rattle.holding_book.specs.Private.Places.{moved};
ghost use Rattle.holding_book.specs.Private.Uses.{AreNone};
ghost use Rattle.holding_book.specs.Private.Steps.{replaced_at, HasFlightsOf, IsListing};

use crate::change::{Change, Listed, Lists};
use crate::finding::holding_at;
use crate::holding::Holding;
use crate::lines::has_flight;
use crate::uses::{Uses, no_uses};
use scr_reader::{Flight, Line, Stop};
use slot_text::Memory;
use std::alloc::Global;

// The places of a flight among holdings: one step a holding.
fn list_places(alloc: Global, holdings: &[Holding], flight: &Flight) -> Result<Vec<u32>, Memory>
    requires few { length holdings.now < 2 ^ 32 }
    ensures { IfOk result (λ places. places.items ≡ places_of flight.now holdings.now) }
{
    let mut places = Vec::new(alloc);
    for n in 0..holdings.len() {
        if has_flight(flight, &holdings[n].line) {
            places.push(n as u32)?;
        }
    }
    Ok(places)
}

// The flight of a stop, if there is one, with its places.
fn list_stop(
    alloc: Global,
    holdings: &[Holding],
    stop: Option<Stop>,
) -> Result<Option<Listed>, Memory>
    requires few { length holdings.now < 2 ^ 32 }
    ensures { IfOk result (IsListing holdings.now stop) }
{
    let Some(stop) = stop else {
        return Ok(None);
    };
    let places = list_places(alloc, holdings, &stop.flight)?;
    Ok(Some(Listed {
        flight: stop.flight,
        places,
    }))
}

// The holdings with the one at a place replaced by others.
fn replace_at(
    alloc: Global,
    holdings: &[Holding],
    at: u32,
    others: &[Holding],
) -> Result<Vec<Holding>, Memory>
    requires at { at < length holdings.now }
    requires few { length holdings.now + length others.now < 2 ^ 32 }
    ensures { IfOk result (λ next. next.items ≡ replaced_at at others.now holdings.now) }
{
    let place = at as usize;
    let mut next = Vec::with_capacity(alloc, holdings.len() + others.len() + 1)?;
    next.extend_from_slice(&holdings[..place])?;
    next.extend_from_slice(others)?;
    next.extend_from_slice(&holdings[place + 1..])?;
    Ok(next)
}

/// The change by which a holding comes at the end and takes uses.
pub(crate) fn append_change(
    alloc: Global,
    holdings: &[Holding],
    new: &Holding,
    taken: Uses,
) -> Result<Change, Memory>
    requires few { length holdings.now + 1 < 2 ^ 32 }
    ensures holdings { IfOk result (λ change.
        change.holdings.items ≡ holdings.now ++ new.now ∷ []) }
    ensures places { IfOk result (λ change. (flight : FlightValue) →
        places_of flight change.holdings.items
        ≡ after_list_puts change.lists flight (map (moved change.at change.count)
        (places_of flight holdings.now))) }
    ensures freed { IfOk result (λ change. AreNone change.freed) }
    ensures taken { IfOk result (λ change. change.taken ≡ taken) }
{
    let mut next = Vec::with_capacity(alloc, holdings.len() + 1)?;
    next.extend_from_slice(holdings)?;
    next.push(*new)?;
    let third = list_stop(alloc, &next, new.line.arrival)?;
    let fourth = list_stop(alloc, &next, new.line.departure)?;
    let lists = Lists {
        first: None,
        second: None,
        third,
        fourth,
    };
    Ok(Change {
        holdings: next,
        at: holdings.len() as u32,
        count: 1,
        lists,
        freed: no_uses(),
        taken,
    })
}

/// The change by which the holding at a place is replaced by others, which have its flights.
pub(crate) fn replace_change(
    alloc: Global,
    holdings: &[Holding],
    at: u32,
    others: &[Holding],
    freed: Uses,
) -> Result<Change, Memory>
    requires at { at < length holdings.now }
    requires few { length holdings.now + length others.now < 2 ^ 32 }
    requires flights { ForSome (slice_get holdings.now at)
        (λ holding. All (HasFlightsOf holding.line) others.now) }
    ensures holdings { IfOk result (λ change.
        change.holdings.items ≡ replaced_at at others.now holdings.now) }
    ensures places { IfOk result (λ change. (flight : FlightValue) →
        places_of flight change.holdings.items
        ≡ after_list_puts change.lists flight (map (moved change.at change.count)
        (places_of flight holdings.now))) }
    ensures freed { IfOk result (λ change. change.freed ≡ freed) }
    ensures taken { IfOk result (λ change. AreNone change.taken) }
{
    let line = holding_at(holdings, at).line;
    let next = replace_at(alloc, holdings, at, others)?;
    let first = list_stop(alloc, &next, line.arrival)?;
    let second = list_stop(alloc, &next, line.departure)?;
    let lists = Lists {
        first,
        second,
        third: None,
        fourth: None,
    };
    Ok(Change {
        holdings: next,
        at,
        count: others.len() as u32,
        lists,
        freed,
        taken: no_uses(),
    })
}

/// The change by which the holding at a place is replaced by others, which have its flights, and a
/// further one comes at the end.
pub(crate) fn swap_change(
    alloc: Global,
    holdings: &[Holding],
    at: u32,
    others: &[Holding],
    new: &Holding,
    uses: (Uses, Uses),
) -> Result<Change, Memory>
    requires at { at < length holdings.now }
    requires few { length holdings.now + length others.now + 1 < 2 ^ 32 }
    requires flights { ForSome (slice_get holdings.now at)
        (λ holding. All (HasFlightsOf holding.line) others.now) }
    ensures holdings { IfOk result (λ change.
        change.holdings.items ≡ replaced_at at others.now holdings.now ++ new.now ∷ []) }
    ensures places { IfOk result (λ change. (flight : FlightValue) →
        places_of flight change.holdings.items
        ≡ after_list_puts change.lists flight (map (moved change.at change.count)
        (places_of flight holdings.now))) }
    ensures freed { IfOk result (λ change. change.freed ≡ uses.0) }
    ensures taken { IfOk result (λ change. change.taken ≡ uses.1) }
{
    let line = holding_at(holdings, at).line;
    let mut next = replace_at(alloc, holdings, at, others)?;
    next.push(*new)?;
    let lists = Lists {
        first: list_stop(alloc, &next, line.arrival)?,
        second: list_stop(alloc, &next, line.departure)?,
        third: list_stop(alloc, &next, new.line.arrival)?,
        fourth: list_stop(alloc, &next, new.line.departure)?,
    };
    Ok(Change {
        holdings: next,
        at,
        count: others.len() as u32,
        lists,
        freed: uses.0,
        taken: uses.1,
    })
}
