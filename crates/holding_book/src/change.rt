//! What a change of the book does, made ready before it.

ghost use Rattle.std.specs.Prelude.{◌≡◌, ◌+◌, ◌<◌, ◌≤◌};
ghost use Rattle.holding_book.specs.Private.Changes.{after_list_put, after_list_puts};
ghost use Rattle.holding_book.specs.Private.Places.{kept_places};
ghost use Rattle.scr_reader.specs.declared.line.Flight.{Flight as FlightValue};

use crate::holding::Holding;
use crate::places::Places;
use crate::uses::Uses;
use scr_reader::Flight;

/// The places of a flight.
#[derive(Drop)]
pub struct Listed {
    pub flight: Flight,
    pub places: Vec<u32>,
}

/// The places that are listed anew: of the two flights of what is replaced, and the two of what is
/// new.
#[derive(Drop)]
pub struct Lists {
    pub first: Option<Listed>,
    pub second: Option<Listed>,
    pub third: Option<Listed>,
    pub fourth: Option<Listed>,
}

/// The holdings after a change, in which the one at a place is replaced by so many; the places that
/// are listed anew; and the uses that are given back and taken.
#[derive(Drop)]
pub struct Change {
    pub holdings: Vec<Holding>,
    pub at: u32,
    pub count: u32,
    pub lists: Lists,
    pub freed: Uses,
    pub taken: Uses,
}

// Puts the places of a flight, if there are any.
fn put_some(places: &mut Places, listed: Option<Listed>)
    requires { 0 < places.old.spare }
    ensures places { (flight : FlightValue) → kept_places places.new flight
        ≡ after_list_put listed flight (kept_places places.old flight) }
    ensures spare { places.old.spare ≤ places.new.spare + 1 }
{
    if let Some(listed) = listed {
        places.put(listed.flight, listed.places);
    }
}

/// Puts all of them.
pub(crate) fn put_lists(places: &mut Places, lists: Lists)
    requires { 4 ≤ places.old.spare }
    ensures { (flight : FlightValue) → kept_places places.new flight
        ≡ after_list_puts lists flight (kept_places places.old flight) }
{
    put_some(places, lists.first);
    put_some(places, lists.second);
    put_some(places, lists.third);
    put_some(places, lists.fourth);
}
