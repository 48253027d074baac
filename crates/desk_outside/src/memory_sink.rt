//! A sink in memory.
ghost use Rattle.std.specs.Prelude.{is_ok, ◌≡◌, ◌≤◌, ◌++◌, ◌∷◌, [], ℕ, List, Option, Some, IfOk};
ghost use Rattle.std.specs.Prelude.{OnOk, OnErr};
ghost use Rattle.desk_outside.specs.Cause.{HasCause};
ghost use Rattle.desk_outside.specs.Bytes.{Puts, PutsPart};
ghost use Rattle.desk_outside.specs.InMemory.{new_sink, takes_bytes, after_put};
ghost use Rattle.desk_outside.specs.Noted.{passage_of};
ghost use Rattle.desk_outside.specs.Passages.{with_put};

use crate::buffer::Buffer;
use crate::call_log::CallLog;
use crate::failures::{Calls, Failure, sent};
use crate::log::Note;
use crate::sink::{Sink, SinkFault};
use slot_text::Memory;
use std::alloc::Global;
use std::marker::Model;

/// Bytes in memory, in room that is taken when the sink is made.
///
/// Contracts see its bytes, its room, the calls that are to fail, how many calls of `put` it has
/// had and how many of them failed, and what passed. A put fails where its number is listed, and
/// where its bytes pass the room that is left; in the second case none of them is appended.
#[derive(Drop)]
pub struct MemorySink {
    buffer: Buffer,
    calls: Calls,
    passed: CallLog,
}

impl Model for MemorySink {
    ghost use Rattle.desk_outside.specs.InMemory.{SinkView};

    ghost Value = { SinkView };

    ghost view = { λ s. record {
      bytes = s.buffer.bytes;
      byte_limit = s.buffer.room;
      failing = s.calls.failing;
      made = s.calls.made;
      faults = s.passed.faults;
      log = s.passed.log;
    } };
}

impl MemorySink {
    /// An empty sink with room for `byte_limit` bytes, whose calls named in `failing` will fail.
    /// `Memory` where that room could not be taken; no later call wants memory.
    pub fn new(
        alloc: Global,
        byte_limit: usize,
        failing: Vec<Failure>,
    ) -> Result<MemorySink, Memory>
        ensures { IfOk result (λ sink. sink ≡ new_sink byte_limit failing.items) }
    {
        let buffer = Buffer::new(alloc, byte_limit)?;
        Ok(MemorySink {
            buffer,
            calls: Calls::new(failing),
            passed: CallLog::new(),
        })
    }

    /// What was put so far.
    pub fn bytes(&self) -> &[u8]
        ensures { result.now ≡ self.now.bytes }
    {
        self.buffer.bytes()
    }

    /// Notes a passage in the log.
    fn note(&mut self, note: &Note<'_>)
        ensures { self.new ≡ record self.old { log = self.old.log ++ passage_of note.now ∷ [] } }
    {
        self.passed.note(note);
    }

    fn put_counted(&mut self, bytes: &[u8]) -> bool
        ensures answer { result ≡ takes_bytes self.old bytes.now }
        ensures after { self.new ≡ after_put self.old bytes.now }
        ensures later { self.old.faults ≤ self.new.faults }
    {
        let failure = self.calls.next_failure();
        let free = self.buffer.free();
        self.buffer.append(sent(&failure, bytes, free));
        let whole = failure.is_none() && bytes.len() <= free;
        if !whole {
            self.passed.fault();
        }
        whole
    }
}

impl Sink for MemorySink {
    ghost contents = { λ sink. Some sink.bytes };

    ghost fault_count = { λ sink. sink.faults };

    ghost log = { λ sink. sink.log };

    fn faults(&self) -> u64 {
        self.passed.faults()
    }

    fn put(&mut self, bytes: &[u8]) -> Result<(), SinkFault>
        ensures ok { OnOk result (Puts (Some self.old.bytes) bytes.now (Some self.new.bytes)) }
        ensures part { OnErr result
            (PutsPart (Some self.old.bytes) bytes.now (Some self.new.bytes)) }
        ensures cause { HasCause self.old.faults self.new.faults result }
        ensures passed { self.new.log ≡ with_put self.old.log bytes.now result }
        ensures gives { is_ok result ≡ takes_bytes self.old bytes.now }
        ensures after { self.new ≡ record (after_put self.old bytes.now) {
          log = with_put self.old.log bytes.now result;
        } }
    {
        if self.put_counted(bytes) {
            self.note(&Note::Put(bytes));
            Ok(())
        } else {
            self.note(&Note::PutFailed(bytes));
            Err(SinkFault)
        }
    }
}
