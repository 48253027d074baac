//! The places of each flight, kept while holdings are replaced.

ghost use Rattle.std.specs.Prelude.{◌≡◌, ℕ, ◌+◌, ◌<◌, ◌≤◌, ◌^◌, ◌++◌, ◌∷◌, ◌&&◌, not, [], length, map, OnOk, IfOk, if◌then◌else◌, Vec};
ghost use Rattle.holding_book.specs.Lines.{is_flight, has_flight, has_stop_flight};
ghost use Rattle.holding_book.specs.Private.Kept.{ArePlacesKept};
ghost use Rattle.holding_book.specs.Private.Places.{kept_places, moved, place_lists};
ghost use Rattle.scr_reader.specs.declared.line.Flight.{Flight as FlightValue};

use crate::finding::holding_at;
use crate::holding::Holding;
use crate::lines::has_stop_flight;
use indexmap::IndexSet;
use scr_reader::{Flight, Line, Stop};
use slot_text::Memory;
use std::alloc::Global;
use std::marker::Model;

/// For each flight a list of places. A flight has a number, by the order in which the flights came,
/// and its list is the one of that number. Contracts see the flights, the lists, and for how many
/// further flights there is room.
#[derive(Drop)]
pub(crate) struct Places {
    flights: IndexSet<Flight>,
    lists: Vec<Vec<u32>>,
}

impl Model for Places {
    ghost use Rattle.std.specs.Prelude.{◌≡◌, ◌-◌, length, min};
    ghost use Rattle.indexmap.specs.IndexSet.{spare};
    ghost use Rattle.holding_book.specs.Private.Places.{PlacesView, place_lists};

    ghost Value = { PlacesView };

    ghost view = { λ p. record {
      flights = p.flights.keys;
      lists = place_lists p.lists.items;
      spare = min (spare p.flights) (p.lists.cap - length p.lists.items);
    } };

    ghost invariant = { λ p. length p.lists.items ≡ length p.flights.keys };
}

// A place after another one, where that is replaced by so many.
fn moved(place: u32, at: u32, count: u32) -> u32
    ensures { result ≡ moved at count place }
{
    if place > at {
        place.saturating_add(count) - 1
    } else {
        place
    }
}

// The places of one flight, where a holding is replaced by so many.
fn move_list(places: &mut [u32], at: u32, count: u32)
    ensures { places.new ≡ map (moved at count) places.old }
{
    for place in places.iter_mut() {
        *place = moved(*place, at, count);
    }
}

// The same of all flights.
fn move_lists(lists: &mut [Vec<u32>], at: u32, count: u32)
    ensures { place_lists lists.new ≡ map (map (moved at count)) (place_lists lists.old) }
{
    for list in lists.iter_mut() {
        move_list(list, at, count);
    }
}

impl Places {
    /// No flights.
    pub fn new(alloc: Global) -> Places
        ensures { (flight : FlightValue) → kept_places result flight ≡ [] }
    {
        Places {
            flights: IndexSet::new(alloc),
            lists: Vec::new(alloc),
        }
    }

    /// The places of all holdings: one step a holding, and one for each earlier place of its
    /// flights.
    pub fn of(alloc: Global, holdings: &[Holding]) -> Result<Places, Memory>
        requires { length holdings.now < 2 ^ 32 }
        ensures { IfOk result (λ places. ArePlacesKept places holdings.now) }
    {
        let mut places = Places::new(alloc);
        for n in 0..holdings.len() {
            let held = holding_at(holdings, n as u32);
            places.add_line(alloc, &held.line, n as u32)?;
        }
        Ok(places)
    }

    // Adds a place behind those of the flights of a line.
    fn add_line(&mut self, alloc: Global, line: &Line, place: u32) -> Result<(), Memory>
        ensures { OnOk result ((flight : FlightValue) → kept_places self.new flight
            ≡ kept_places self.old flight
            ++ (if has_flight flight line.now then place ∷ [] else [])) }
    {
        self.add_stop(alloc, line.arrival, None, place)?;
        self.add_stop(alloc, line.departure, line.arrival, place)?;
        Ok(())
    }

    // Adds a place behind those of the flight of a stop, if there is one, and if another stop is
    // not of the same flight.
    fn add_stop(
        &mut self,
        alloc: Global,
        stop: Option<Stop>,
        other: Option<Stop>,
        place: u32,
    ) -> Result<(), Memory>
        ensures { OnOk result ((flight : FlightValue) → kept_places self.new flight
            ≡ kept_places self.old flight
            ++ (if has_stop_flight flight stop && not (has_stop_flight flight other)
            then place ∷ [] else [])) }
    {
        let Some(stop) = stop else {
            return Ok(());
        };
        if has_stop_flight(&stop.flight, &other) {
            return Ok(());
        }
        let mut list = Vec::from_slice(alloc, self.of_flight(&stop.flight))?;
        list.push(place)?;
        self.reserve(1)?;
        self.put(stop.flight, list);
        Ok(())
    }

    /// The places of a flight.
    pub fn of_flight(&self, flight: &Flight) -> &[u32]
        ensures { result.now ≡ kept_places self.now flight.now }
    {
        match self.flights.get_index_of(flight) {
            Some(number) => self.lists[number].as_slice(),
            None => &[],
        }
    }

    /// Makes room for so many further flights.
    pub fn reserve(&mut self, count: u32) -> Result<(), Memory>
        ensures flights { self.new.flights ≡ self.old.flights }
        ensures lists { self.new.lists ≡ self.old.lists }
        ensures room { OnOk result (count ≤ self.new.spare) }
    {
        self.flights.reserve(count as usize)?;
        self.lists.reserve(count as usize)?;
        Ok(())
    }

    /// Moves all places after one whose holding is replaced by so many. It takes no memory.
    pub fn move_all(&mut self, at: u32, count: u32)
        ensures flights { self.new.flights ≡ self.old.flights }
        ensures lists { self.new.lists ≡ map (map (moved at count)) self.old.lists }
        ensures spare { self.new.spare ≡ self.old.spare }
    {
        move_lists(&mut self.lists, at, count);
    }

    /// Gives a flight a list of places, in the place of the one that it has. It takes no memory.
    pub fn put(&mut self, flight: Flight, list: Vec<u32>)
        requires { 0 < self.old.spare }
        ensures places { (other : FlightValue) → kept_places self.new other
            ≡ (if is_flight other flight then list.items else kept_places self.old other) }
        ensures spare { self.old.spare ≤ self.new.spare + 1 }
    {
        let Ok((number, added)) = self.flights.insert_full(flight) else {
            unreachable!()
        };
        if added {
            self.lists.push_reserved(list);
        } else {
            self.lists[number] = list;
        }
    }
}
