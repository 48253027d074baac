//! A link in memory.
ghost use Rattle.std.specs.Prelude.{is_ok, ◌≡◌, ◌<◌, ◌+◌, Some, IfOk, length};
ghost use Rattle.desk_outside.specs.Cause.{HasCause};
ghost use Rattle.desk_links.specs.Links.{TakesBytes, SendsBytes};
ghost use Rattle.desk_links.specs.LinksInMemory.{link_view, new_link, take_count, gives_bytes};
ghost use Rattle.desk_links.specs.LinksInMemory.{sends_bytes};

use crate::link::{Link, LinkFault};
use crate::link_record::either;
use crate::pieces::Pieces;
use crate::script::Script;
use desk_outside::{Buffer, CallLog, Calls, Failure, Note, sent};
use slot_text::Memory;
use std::alloc::Global;
use std::marker::Model;

/// A connection in memory: its input is there from the start, and what it is given has room that is
/// taken when it is made.
///
/// Each take hands out at most as many bytes as the list of sizes says for it, so that the input
/// comes in stated pieces; where the list is used up, as many as the caller has room for. A call
/// fails where its number is listed, takes and puts being counted in one row, and a put also where
/// its bytes pass the room that is left. A take that fails takes nothing.
#[derive(Drop)]
pub struct MemoryLink {
    script: Script,
    pieces: Pieces,
    given: Buffer,
    calls: Calls,
    over: bool,
    passed: CallLog,
}

impl Model for MemoryLink {
    ghost use Rattle.std.specs.Prelude.{◌≡◌, true, take, length};
    ghost use Rattle.desk_links.specs.Links.{taken_of};
    ghost use Rattle.desk_links.specs.LinksInMemory.{HeldLink};

    ghost Value = { HeldLink };

    ghost view = { λ l. record {
      input = l.script.input;
      taken = l.script.taken;
      sizes = l.pieces;
      sent = l.given.bytes;
      byte_limit = l.given.room;
      failing = l.calls.failing;
      made = l.calls.made;
      ended = l.over;
      faults = l.passed.faults;
      log = l.passed.log;
    } };

    ghost invariant = { λ l. (taken_of l.passed.log ≡ take l.script.taken l.script.input)
        × (l.over ≡ true → l.script.taken ≡ length l.script.input) };
}

impl MemoryLink {
    /// A link with this input, handed out in pieces of these sizes, a size of 0 being read as 1;
    /// with room for `byte_limit` bytes that are put; whose calls named in `failing` will fail.
    /// `Memory` where that room could not be taken; no later call wants memory.
    pub fn new(
        alloc: Global,
        input: Vec<u8>,
        sizes: Vec<usize>,
        byte_limit: usize,
        failing: Vec<Failure>,
    ) -> Result<MemoryLink, Memory>
        ensures { IfOk result (λ link.
            link ≡ new_link input.items sizes.items byte_limit failing.items) }
    {
        let given = Buffer::new(alloc, byte_limit)?;
        Ok(MemoryLink {
            script: Script::new(input),
            pieces: Pieces::new(sizes),
            given,
            calls: Calls::new(failing),
            over: false,
            passed: CallLog::new(),
        })
    }

    /// What was put so far.
    pub fn sent(&self) -> &[u8]
        ensures { result.now ≡ self.now.sent }
    {
        self.given.bytes()
    }
}

impl Link for MemoryLink {
    ghost view = { link_view };

    fn faults(&self) -> u64 {
        self.passed.faults()
    }

    fn ended(&self) -> bool {
        self.over
    }

    fn take(&mut self, into: &mut [u8]) -> Result<usize, LinkFault>
        requires { 0 < length into.old }
        ensures taken { TakesBytes (link_view self.old) result into.new (link_view self.new) }
        ensures cause { HasCause self.old.faults self.new.faults result }
        ensures gives { is_ok result ≡ gives_bytes self.old }
        ensures count { IfOk result (λ n. n ≡ take_count self.old (length into.old)) }
    {
        if self.calls.next_failure().is_some() {
            self.passed.fault();
            return Err(LinkFault);
        }
        let most = self.pieces.next_size(into.len());
        let count = self.script.give(into, most);
        self.over = either(self.over, count == 0);
        self.passed.note(&Note::Took(&into[..count]));
        Ok(count)
    }

    fn put(&mut self, bytes: &[u8]) -> Result<(), LinkFault>
        ensures sent { SendsBytes (link_view self.old) bytes.now result (link_view self.new) }
        ensures cause { HasCause self.old.faults self.new.faults result }
        ensures sends { is_ok result ≡ sends_bytes self.old bytes.now }
    {
        let failure = self.calls.next_failure();
        let free = self.given.free();
        self.given.append(sent(&failure, bytes, free));
        if failure.is_none() && bytes.len() <= free {
            self.passed.note(&Note::Put(bytes));
            Ok(())
        } else {
            self.passed.note(&Note::PutFailed(bytes));
            self.passed.fault();
            Err(LinkFault)
        }
    }
}
