//! The standard output.
ghost use Rattle.std.specs.Prelude.{◌≡◌, [], None};

use crate::call_log::CallLog;
use crate::log::Note;
use crate::sink::{Sink, SinkFault};
use std::io;
use std::io::Write;
use std::marker::Model;

/// The standard output. It does not tell what it was given: contracts see the count of its faults
/// and what passed. Nothing is held back: what a put was given stands in the output when it
/// returns.
#[derive(Drop)]
pub struct RealSink<'a, R: Print> {
    rt: &'a R,
    calls: CallLog,
}

impl<'a, R: Print> Model for RealSink<'a, R> {
    ghost use Rattle.desk_outside.specs.Passages.{Counted};

    ghost Value = { Counted };

    ghost view = { λ sink. sink.calls };
}

impl<'a, R: Print> RealSink<'a, R> {
    /// The standard output of the runtime, with no fault so far.
    pub fn new(rt: &'a R) -> RealSink<'a, R>
        ensures { result ≡ record { faults = 0; log = [] } }
    {
        RealSink {
            rt,
            calls: CallLog::new(),
        }
    }
}

impl<'a, R: Print> Sink for RealSink<'a, R> {
    ghost contents = { λ _. None };

    ghost fault_count = { λ sink. sink.faults };

    ghost log = { λ sink. sink.log };

    fn faults(&self) -> u64 {
        self.calls.faults()
    }

    fn put(&mut self, bytes: &[u8]) -> Result<(), SinkFault> {
        let mut out = io::writer(self.rt);
        match out.write_all(bytes) {
            Ok(()) => {
                self.calls.note(&Note::Put(bytes));
                Ok(())
            }
            Err(_) => {
                self.calls.note(&Note::PutFailed(bytes));
                self.calls.fault();
                Err(SinkFault)
            }
        }
    }
}
