//! A cabinet in memory.
ghost use Rattle.std.specs.Prelude.{is_ok, ◌≡◌, ◌≤◌, ◌++◌, ◌∷◌, [], ℕ, Some, Option, IfOk, IfErr};
ghost use Rattle.std.specs.Prelude.{OnOk, OnErr, if◌then◌else◌};
ghost use Rattle.std.specs.Option.{option_copied};
ghost use Rattle.desk_outside.specs.Cause.{HasCause};
ghost use Rattle.desk_outside.specs.Files.{Files, Reads, Writes, WritesPart};
ghost use Rattle.desk_outside.specs.InMemory.{new_cabinet, bytes_under, has_room, with_loaded};
ghost use Rattle.desk_outside.specs.InMemory.{next_failure, with_call, with_fault};
ghost use Rattle.desk_outside.specs.InMemory.{found_file, read_answer, GivesFile, after_read};
ghost use Rattle.desk_outside.specs.InMemory.{takes_file, with_taken, after_write};
ghost use Rattle.desk_outside.specs.Noted.{passage_of};
ghost use Rattle.desk_outside.specs.Passages.{with_read, with_write};

use crate::cabinet::{Cabinet, CabinetFault};
use crate::call_log::CallLog;
use crate::failures::{Calls, Failure, taken};
use crate::log::Note;
use crate::slots::{NAME_ROOM, Slot, find_slot, new_slots};
use slot_text::Memory;
use std::alloc::Global;
use std::marker::Model;

/// Files in memory, in room that is taken when the cabinet is made.
///
/// Contracts see its files by name, its room, the calls that are to fail, how many calls it has had
/// and how many of them failed, and what passed. A call is a `read` or a `write`; it fails where
/// its number is listed, and a `write` also where its file has no room: a name over 255 bytes, more
/// bytes than the room of a file, or no place for one more file.
#[derive(Drop)]
pub struct MemoryCabinet {
    slots: Vec<Slot>,
    used: usize,
    byte_limit: usize,
    calls: Calls,
    passed: CallLog,
}

impl Model for MemoryCabinet {
    ghost use Rattle.std.specs.Prelude.{◌≤◌, vec_len};
    ghost use Rattle.desk_outside.specs.InMemory.{CabinetView};
    ghost use Rattle.desk_outside.specs.Slots.{files_in, HaveRoom};

    ghost Value = { CabinetView };

    ghost view = { λ c. record {
      files = files_in c.used c.slots.items;
      file_limit = vec_len c.slots;
      byte_limit = c.byte_limit;
      failing = c.calls.failing;
      made = c.calls.made;
      faults = c.passed.faults;
      log = c.passed.log;
    } };

    ghost invariant = { λ c. (c.used ≤ vec_len c.slots) × HaveRoom c.byte_limit c.slots.items };
}

impl MemoryCabinet {
    /// An empty cabinet with room for `file_limit` files of at most `byte_limit` bytes each, whose
    /// calls named in `failing` will fail. `Memory` where that room could not be taken; no later
    /// call but a read wants memory.
    pub fn new(
        alloc: Global,
        file_limit: usize,
        byte_limit: usize,
        failing: Vec<Failure>,
    ) -> Result<MemoryCabinet, Memory>
        ensures { IfOk result (λ cabinet.
            cabinet ≡ new_cabinet file_limit byte_limit failing.items) }
    {
        let slots = new_slots(alloc, file_limit, byte_limit)?;
        Ok(MemoryCabinet {
            slots,
            used: 0,
            byte_limit,
            calls: Calls::new(failing),
            passed: CallLog::new(),
        })
    }

    /// The bytes under a name. This is no call that is counted.
    pub fn file(&self, name: &str) -> Option<&[u8]>
        ensures { option_copied result ≡ bytes_under self.now.files name.now }
    {
        let at = find_slot(&self.slots[..self.used], name)?;
        Some(self.slots[at].bytes.bytes())
    }

    /// Puts a file in, or other bytes under its name, before or between the calls that are counted.
    /// False where it has no room, and then nothing changes.
    pub fn load(&mut self, name: &str, bytes: &[u8]) -> bool
        ensures answer { result ≡ has_room self.old name.now bytes.now }
        ensures files { self.new ≡ with_loaded self.old name.now bytes.now }
    {
        if bytes.len() > self.byte_limit {
            return false;
        }
        let found = find_slot(&self.slots[..self.used], name);
        match found {
            Some(at) => {
                let slot = &mut self.slots[at];
                slot.bytes.replace(bytes);
                true
            }
            None => {
                if self.used >= self.slots.len() || name.len() > NAME_ROOM {
                    return false;
                }
                let slot = &mut self.slots[self.used];
                slot.name.replace(name.as_bytes());
                slot.bytes.replace(bytes);
                self.used += 1;
                true
            }
        }
    }

    /// Counts a call, and says whether it is to fail.
    fn begin_call(&mut self) -> Option<Failure>
        ensures failure { result ≡ next_failure self.old }
        ensures counted { self.new ≡ with_call self.old }
    {
        self.calls.next_failure()
    }

    fn add_fault(&mut self)
        ensures fault { self.new ≡ with_fault self.old }
        ensures later { self.old.faults ≤ self.new.faults }
    {
        self.passed.fault();
    }

    /// Notes a passage in the log.
    fn note(&mut self, note: &Note<'_>)
        ensures { self.new ≡ record self.old { log = self.old.log ++ passage_of note.now ∷ [] } }
    {
        self.passed.note(note);
    }

    /// A copy of the file.
    fn copy_file(&self, alloc: Global, name: &str, most: usize) -> Result<Vec<u8>, CabinetFault>
        ensures { GivesFile (found_file most (bytes_under self.now.files name.now)) result }
    {
        let Some(bytes) = self.file(name) else {
            return Err(CabinetFault::Missing);
        };
        if bytes.len() > most {
            return Err(CabinetFault::Larger);
        }
        match Vec::from_slice(alloc, bytes) {
            Ok(copy) => Ok(copy),
            Err(_) => Err(CabinetFault::Memory),
        }
    }

    fn read_counted(
        &mut self,
        alloc: Global,
        name: &str,
        most: usize,
    ) -> Result<Vec<u8>, CabinetFault>
        ensures answer { GivesFile (read_answer self.old name.now most) result }
        ensures after { self.new ≡ after_read self.old }
        ensures later { self.old.faults ≤ self.new.faults }
    {
        if self.begin_call().is_some() {
            self.add_fault();
            return Err(CabinetFault::Failed);
        }
        self.copy_file(alloc, name, most)
    }

    fn write_counted(&mut self, name: &str, bytes: &[u8]) -> bool
        ensures answer { result ≡ takes_file self.old name.now bytes.now }
        ensures after { self.new ≡ after_write self.old name.now bytes.now }
        ensures later { self.old.faults ≤ self.new.faults }
    {
        let failure = self.begin_call();
        let loaded = match taken(&failure, bytes) {
            Some(left) => self.load(name, left),
            None => false,
        };
        let whole = loaded && failure.is_none();
        if !whole {
            self.add_fault();
        }
        whole
    }
}

impl Cabinet for MemoryCabinet {
    ghost files = { λ cabinet. Some (bytes_under cabinet.files) };

    ghost fault_count = { λ cabinet. cabinet.faults };

    ghost log = { λ cabinet. cabinet.log };

    fn faults(&self) -> u64 {
        self.passed.faults()
    }

    fn read(&mut self, alloc: Global, name: &str, most: usize) -> Result<Vec<u8>, CabinetFault>
        ensures answer { Reads (Some (bytes_under self.old.files)) name.now most
            self.old.faults self.new.faults result }
        ensures unchanged { self.new.files ≡ self.old.files }
        ensures later { self.old.faults ≤ self.new.faults }
        ensures kept { OnOk result (self.new.faults ≡ self.old.faults) }
        ensures passed { self.new.log ≡ with_read self.old.log name.now result }
        ensures gives { GivesFile (read_answer self.old name.now most) result }
        ensures after { self.new
            ≡ record (after_read self.old) { log = with_read self.old.log name.now result } }
    {
        let answer = self.read_counted(alloc, name, most);
        if let Ok(bytes) = &answer {
            self.note(&Note::Read(name, bytes));
        }
        answer
    }

    fn write(&mut self, name: &str, bytes: &[u8]) -> Result<(), CabinetFault>
        ensures ok { OnOk result (Writes (Some (bytes_under self.old.files)) name.now bytes.now
            (Some (bytes_under self.new.files))) }
        ensures part { OnErr result (WritesPart (Some (bytes_under self.old.files))
            name.now bytes.now (Some (bytes_under self.new.files))) }
        ensures failed { IfErr result (λ e. e ≡ CabinetFault.Failed) }
        ensures cause { HasCause self.old.faults self.new.faults result }
        ensures passed { self.new.log ≡ with_write self.old.log name.now bytes.now result }
        ensures gives { is_ok result ≡ takes_file self.old name.now bytes.now }
        ensures after { self.new ≡ record (after_write self.old name.now bytes.now) {
          log = with_write self.old.log name.now bytes.now result;
        } }
    {
        if self.write_counted(name, bytes) {
            self.note(&Note::Wrote(name, bytes));
            Ok(())
        } else {
            self.note(&Note::WriteFailed(name, bytes));
            Err(CabinetFault::Failed)
        }
    }
}
