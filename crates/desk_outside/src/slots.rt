//! The places of files in memory.
ghost use Rattle.std.specs.Prelude.{◌≡◌, ◌<◌, ◌≤◌, ℕ, IfOk, IfSome, MatchOption, None, Some};
ghost use Rattle.std.specs.Prelude.{length, map, slice_index_or};
ghost use Rattle.std.specs.Str.{bytes_eq};
ghost use Rattle.desk_outside.specs.InMemory.{bytes_under};
ghost use Rattle.desk_outside.specs.Slots.{file_in, HaveRoom};
ghost use Rattle.desk_outside.specs.Places.{IsPlaceOf};

use crate::buffer::Buffer;
use slot_text::Memory;
use std::alloc::Global;

/// The longest name of a file in memory, in bytes.
pub(crate) const NAME_ROOM: usize = 255;

/// A place for one file in memory.
#[derive(Drop)]
pub(crate) struct Slot {
    pub(crate) name: Buffer,
    pub(crate) bytes: Buffer,
}

fn new_slot(alloc: Global, room: usize) -> Result<Slot, Memory>
    ensures { IfOk result (λ slot. (slot.name.room ≡ NAME_ROOM) × (slot.bytes.room ≡ room)) }
{
    Ok(Slot {
        name: Buffer::new(alloc, NAME_ROOM)?,
        bytes: Buffer::new(alloc, room)?,
    })
}

/// That many places, each for a file of that many bytes.
pub(crate) fn new_slots(alloc: Global, count: usize, room: usize) -> Result<Vec<Slot>, Memory>
    ensures count { IfOk result (λ slots. length slots.items ≡ count) }
    ensures room { IfOk result (λ slots. HaveRoom room slots.items) }
{
    let mut slots = Vec::with_capacity(alloc, count)?;
    for _ in 0..count {
        let slot = new_slot(alloc, room)?;
        slots.push(slot)?;
    }
    Ok(slots)
}

/// The place of the file with this name.
pub(crate) fn find_slot(slots: &[Slot], name: &str) -> Option<usize>
    ensures within { IfSome result (λ at. at < length slots.now) }
    ensures place { MatchOption result (bytes_under (map file_in slots.now) name.now ≡ None)
        (IsPlaceOf slots.now name.now) }
{
    for (at, slot) in slots.iter().enumerate() {
        if has_name(slot, name) {
            return Some(at);
        }
    }
    None
}

fn has_name(slot: &Slot, name: &str) -> bool
    ensures { result ≡ bytes_eq slot.now.name.bytes name.now }
{
    slot.name.bytes() == name.as_bytes()
}
