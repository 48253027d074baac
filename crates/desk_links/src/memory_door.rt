//! A door in memory.
ghost use Rattle.std.specs.Prelude.{is_ok, ◌≡◌, ◌≤◌, All, IfOk};
ghost use Rattle.desk_outside.specs.Cause.{HasCause, one_more};
ghost use Rattle.desk_links.specs.Doors.{Admits};
ghost use Rattle.desk_links.specs.LinksInMemory.{link_view, IsUnused, door_view, new_door};
ghost use Rattle.desk_links.specs.LinksInMemory.{admits_next};

use crate::door::{Door, DoorFault};
use crate::memory_link::MemoryLink;
use desk_outside::{Calls, Failure};
use slot_text::Memory;
use std::alloc::Global;
use std::collections::VecDeque;
use std::marker::Model;

/// A door whose links are there from the start.
///
/// An accept fails where its number is listed, and where a link comes that there is no room for. No
/// more links come exactly where the list is used up.
#[derive(Drop)]
pub struct MemoryDoor {
    links: VecDeque<MemoryLink>,
    admitted: u64,
    served: Vec<MemoryLink>,
    places: usize,
    calls: Calls,
    failed: u64,
}

impl Model for MemoryDoor {
    ghost use Rattle.std.specs.Prelude.{◌≤◌, ◌<◌, ◌+◌, ◌^◌, All, length, vec_capacity, vec_len};
    ghost use Rattle.desk_links.specs.LinksInMemory.{HeldDoor, IsUnused};

    ghost Value = { HeldDoor };

    ghost view = { λ d. record {
      coming = d.links.items;
      admitted = d.admitted;
      kept = d.served.items;
      room = d.places;
      failing = d.calls.failing;
      made = d.calls.made;
      faults = d.failed;
    } };

    ghost invariant = { λ d. (d.places ≤ vec_capacity d.served) × (vec_len d.served ≤ d.places)
        × All IsUnused d.links.items × (d.admitted + length d.links.items < 2 ^ 64) };
}

impl MemoryDoor {
    /// A door that hands out these links in their order, and has room for `room` links that are
    /// kept; whose calls of accept named in `failing` will fail. `Memory` where that room could not
    /// be taken; no later call wants memory.
    pub fn new(
        alloc: Global,
        links: Vec<MemoryLink>,
        room: usize,
        failing: Vec<Failure>,
    ) -> Result<MemoryDoor, Memory>
        requires { All IsUnused links.items }
        ensures { IfOk result (λ door. door ≡ new_door links.items room failing.items) }
    {
        let served = Vec::with_capacity(alloc, room)?;
        Ok(MemoryDoor {
            links: VecDeque::from(links),
            admitted: 0,
            served,
            places: room,
            calls: Calls::new(failing),
            failed: 0,
        })
    }

    /// The links that it kept, in their order.
    pub fn kept(&self) -> &[MemoryLink]
        ensures { result.now ≡ self.now.kept }
    {
        self.served.as_slice()
    }

    fn fail(&mut self) -> DoorFault
        ensures counted { self.new ≡ record self.old { faults = one_more self.old.faults } }
        ensures later { self.old.faults ≤ self.new.faults }
    {
        self.failed = self.failed.saturating_add(1);
        DoorFault
    }
}

impl Door for MemoryDoor {
    type Link = MemoryLink;

    ghost view = { door_view };

    fn faults(&self) -> u64 {
        self.failed
    }

    fn accept(&mut self) -> Result<Option<MemoryLink>, DoorFault>
        ensures link { Admits link_view (door_view self.old) result (door_view self.new) }
        ensures cause { HasCause self.old.faults self.new.faults result }
        ensures admits { is_ok result ≡ admits_next self.old }
    {
        if self.calls.next_failure().is_some() {
            return Err(self.fail());
        }
        if self.links.is_empty() {
            return Ok(None);
        }
        if self.served.len() >= self.places {
            return Err(self.fail());
        }
        match self.links.pop_front() {
            Some(link) => {
                self.admitted += 1;
                Ok(Some(link))
            }
            None => Ok(None),
        }
    }

    fn finish(&mut self, link: MemoryLink) {
        self.served.push_reserved(link);
    }
}
