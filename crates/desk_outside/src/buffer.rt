//! Bytes in room that was taken at the start.
ghost use Rattle.std.specs.Prelude.{◌≡◌, ◌+◌, ◌-◌, ◌≤◌, ◌++◌, [], IfOk, length, vec_capacity};

use slot_text::Memory;
use std::alloc::Global;
use std::marker::Model;

/// Bytes in room that was taken when the buffer was made, so that no later call wants memory.
#[derive(Drop)]
pub struct Buffer {
    bytes: Vec<u8>,
    room: usize,
}

impl Model for Buffer {
    ghost use Rattle.std.specs.Prelude.{◌≤◌, vec_capacity, vec_len};
    ghost use Rattle.desk_outside.specs.Buffers.{BufferView};

    ghost Value = { BufferView };

    ghost view = { λ buffer. record { bytes = buffer.bytes.items; room = buffer.room } };

    ghost invariant = { λ buffer. (buffer.room ≤ vec_capacity buffer.bytes)
        × (vec_len buffer.bytes ≤ buffer.room) };
}

impl Buffer {
    /// An empty buffer with that room. `Memory` where it could not be taken.
    pub fn new(alloc: Global, room: usize) -> Result<Buffer, Memory>
        ensures { IfOk result (λ buffer. buffer ≡ record { bytes = []; room = room }) }
    {
        let bytes = Vec::with_capacity(alloc, room)?;
        Ok(Buffer { bytes, room })
    }

    /// The bytes so far.
    pub fn bytes(&self) -> &[u8]
        ensures { result.now ≡ self.now.bytes }
    {
        self.bytes.as_slice()
    }

    /// How many bytes more there is room for.
    pub fn free(&self) -> usize
        ensures { result ≡ self.now.room - length self.now.bytes }
    {
        self.room - self.bytes.len()
    }

    /// Adds bytes behind those that are there.
    pub fn append(&mut self, bytes: &[u8])
        requires { length bytes.now ≤ self.old.room - length self.old.bytes }
        ensures { self.new ≡ record self.old { bytes = self.old.bytes ++ bytes.now } }
    {
        self.bytes.extend_from_slice(bytes).unwrap();
    }

    /// Puts bytes in the place of those that are there.
    pub fn replace(&mut self, bytes: &[u8])
        requires { length bytes.now ≤ self.old.room }
        ensures { self.new ≡ record self.old { bytes = bytes.now } }
    {
        self.bytes.clear();
        self.bytes.extend_from_slice(bytes).unwrap();
    }
}
