//! The files of the system.
ghost use Rattle.std.specs.Prelude.{◌≡◌, ◌<◌, ◌≤◌, [], None, IfOk, IfErr, IfSome, length, vec_len};
ghost use Rattle.std.specs.IoError.{error_kind};
ghost use Rattle.std.specs.declared.io.ErrorKind.{ErrorKind};

use crate::cabinet::{Cabinet, CabinetFault};
use crate::call_log::CallLog;
use crate::log::Note;
use std::alloc::Global;
use std::fs::OpenFile;
use std::io::{ErrorKind, Read};
use std::marker::Model;
use std::rt::Files;
use std::{fs, io};

/// The files of the system, by their paths. It does not tell what they hold: contracts see the
/// count of its faults and what passed.
///
/// `Missing` where no file stands under the path, `Larger` where its bytes are more than the caller
/// takes, `Failed` for everything else that the system refuses, a folder in the place of a file
/// among them. Each of the three raises the count.
#[derive(Drop)]
pub struct RealCabinet<'a, R: Files> {
    rt: &'a R,
    calls: CallLog,
}

impl<'a, R: Files> Model for RealCabinet<'a, R> {
    ghost use Rattle.desk_outside.specs.Passages.{Counted};

    ghost Value = { Counted };

    ghost view = { λ cabinet. cabinet.calls };
}

impl<'a, R: Files> RealCabinet<'a, R> {
    /// The files that the runtime reaches, with no fault so far.
    pub fn new(rt: &'a R) -> RealCabinet<'a, R>
        ensures { result ≡ record { faults = 0; log = [] } }
    {
        RealCabinet {
            rt,
            calls: CallLog::new(),
        }
    }
}

impl<'a, R: Files> Cabinet for RealCabinet<'a, R> {
    ghost files = { λ _. None };

    ghost fault_count = { λ cabinet. cabinet.faults };

    ghost log = { λ cabinet. cabinet.log };

    fn faults(&self) -> u64 {
        self.calls.faults()
    }

    fn read(&mut self, alloc: Global, name: &str, most: usize) -> Result<Vec<u8>, CabinetFault> {
        match read_file(self.rt, alloc, name, most) {
            Ok(bytes) => {
                self.calls.note(&Note::Read(name, &bytes));
                Ok(bytes)
            }
            Err(CabinetFault::Memory) => Err(CabinetFault::Memory),
            Err(fault) => {
                self.calls.fault();
                Err(fault)
            }
        }
    }

    fn write(&mut self, name: &str, bytes: &[u8]) -> Result<(), CabinetFault> {
        match fs::write(self.rt, name, bytes) {
            Ok(()) => {
                self.calls.note(&Note::Wrote(name, bytes));
                Ok(())
            }
            Err(_) => {
                self.calls.note(&Note::WriteFailed(name, bytes));
                self.calls.fault();
                Err(CabinetFault::Failed)
            }
        }
    }
}

/// The file to its end.
fn read_file<R: Files>(
    rt: &R,
    alloc: Global,
    name: &str,
    most: usize,
) -> Result<Vec<u8>, CabinetFault>
    ensures { IfOk result (λ bytes. vec_len bytes ≤ most) }
{
    let file = match fs::open(rt, name) {
        Ok(file) => file,
        Err(error) => return Err(open_fault(&error)),
    };
    let expected = file.metadata().map_or(0, |data| data.len());
    read_whole(file, alloc, expected, most)
}

fn open_fault(error: &io::Error) -> CabinetFault
    ensures missing { error_kind error.now ≡ ErrorKind.NotFound → result ≡ CabinetFault.Missing }
    ensures failed { (error_kind error.now ≡ ErrorKind.NotFound → ⊥)
        → result ≡ CabinetFault.Failed }
{
    match error.kind() {
        ErrorKind::NotFound => CabinetFault::Missing,
        _ => CabinetFault::Failed,
    }
}

/// All bytes of the reader, if they are no more than `most`; of others no more than `most + 1` are
/// read. Room for `expected` bytes is taken at once, so a file of that length is read into its
/// place and never moved.
fn read_whole<F: Read + Drop>(
    file: F,
    alloc: Global,
    expected: u64,
    most: usize,
) -> Result<Vec<u8>, CabinetFault>
    ensures within { IfOk result (λ bytes. vec_len bytes ≤ most) }
    ensures whole { IfOk result (λ bytes.
        IfSome (F.remaining file) (λ known. bytes.items ≡ known)) }
    ensures larger { IfErr result (λ fault. fault ≡ CabinetFault.Larger
        → IfSome (F.remaining file) (λ known. most < length known)) }
{
    let room = usize::try_from(expected).map_or(most, |expected| expected.min(most));
    let Ok(mut bytes) = Vec::with_capacity(alloc, room) else {
        return Err(CabinetFault::Memory);
    };
    let mut limited = file.take((most as u64).saturating_add(1));
    match limited.read_to_end(&mut bytes) {
        Ok(_) => {
            if bytes.len() > most {
                return Err(CabinetFault::Larger);
            }
            Ok(bytes)
        }
        Err(error) => {
            if error.kind() == ErrorKind::OutOfMemory {
                Err(CabinetFault::Memory)
            } else {
                Err(CabinetFault::Failed)
            }
        }
    }
}
