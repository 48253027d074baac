//! The bytes of a file in memory.
ghost use Rattle.std.specs.Prelude.{◌≡◌, ◌≤◌, ◌+◌, ◌-◌, IfOk, length, take, drop};
ghost use Rattle.desk_disk.specs.Stops.{over};

use slot_text::Memory;
use std::alloc::Global;
use std::marker::Model;

/// Bytes in room that was taken when they were put there.
#[derive(Drop)]
pub(crate) struct FileRoom {
    bytes: Vec<u8>,
    room: usize,
}

impl Model for FileRoom {
    ghost use Rattle.std.specs.Prelude.{◌≤◌, vec_capacity, vec_len};
    ghost use Rattle.desk_outside.specs.Buffers.{BufferView};

    ghost Value = { BufferView };

    ghost view = { λ f. record { bytes = f.bytes.items; room = f.room } };

    ghost invariant = { λ f. (f.room ≤ vec_capacity f.bytes) × (vec_len f.bytes ≤ f.room) };
}

impl FileRoom {
    pub(crate) fn new(alloc: Global, bytes: &[u8], room: usize) -> Result<FileRoom, Memory>
        requires { length bytes.now ≤ room }
        ensures { IfOk result (λ f. f ≡ record { bytes = bytes.now; room = room }) }
    {
        let mut copy = Vec::with_capacity(alloc, room)?;
        copy.extend_from_slice(bytes)?;
        Ok(FileRoom { bytes: copy, room })
    }

    pub(crate) fn bytes(&self) -> &[u8]
        ensures { result.now ≡ self.now.bytes }
    {
        self.bytes.as_slice()
    }

    /// How many bytes there is room for from the place on.
    pub(crate) fn free_from(&self, at: usize) -> usize
        requires { at ≤ length self.now.bytes }
        ensures { result ≡ self.now.room - at }
    {
        self.room - at
    }

    /// Fills `into` with the bytes from the place on.
    pub(crate) fn read(&self, at: usize, into: &mut [u8])
        requires { at + length into.old ≤ length self.now.bytes }
        ensures whole { length into.new ≡ length into.old }
        ensures bytes { into.new ≡ take (length into.old) (drop at self.now.bytes) }
    {
        let rest = &self.bytes[at..];
        into.copy_from_slice(&rest[..into.len()]);
    }

    /// Writes the bytes from the place on, over what is there and past its end.
    pub(crate) fn write(&mut self, at: usize, bytes: &[u8])
        requires place { at ≤ length self.old.bytes }
        requires room { length bytes.now ≤ self.old.room - at }
        ensures { self.new ≡ record self.old { bytes = over self.old.bytes at bytes.now } }
    {
        let inner = bytes.len().min(self.bytes.len() - at);
        self.bytes[at..at + inner].copy_from_slice(&bytes[..inner]);
        self.bytes.extend_from_slice(&bytes[inner..]).unwrap();
    }

    pub(crate) fn cut(&mut self, size: usize)
        ensures { self.new ≡ record self.old { bytes = take size self.old.bytes } }
    {
        self.bytes.truncate(size);
    }
}
