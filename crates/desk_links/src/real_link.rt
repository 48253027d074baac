//! A link over a stream of the system.
ghost use Rattle.std.specs.Prelude.{◌≡◌, None, false, []};
ghost use Rattle.std.specs.Io.{ReadsAtMost};

use crate::link::{Link, LinkFault};
use crate::link_record::LinkRecord;
use desk_outside::Note;
use std::io;
use std::io::{ErrorKind, Read, Write};
use std::marker::Model;

/// How often a call is made again that a signal interrupted, or that a client gave up.
pub(crate) const MOST_TRIES: u32 = 100;

/// A connection over a stream of the system. It does not tell its input, nor what the client
/// received: contracts see its record.
#[derive(Drop)]
pub struct RealLink<S: Drop> {
    stream: S,
    record_of: LinkRecord,
}

impl<S: Drop> Model for RealLink<S> {
    ghost use Rattle.std.specs.Prelude.{◌≡◌, None};
    ghost use Rattle.desk_links.specs.Links.{LinkView};

    ghost Value = { LinkView };

    ghost view = { λ link. link.record_of };

    ghost invariant = { λ link. link.record_of.told ≡ None };
}

impl<S: Drop> RealLink<S> {
    /// A link over a stream that was just opened.
    pub fn new(stream: S) -> RealLink<S>
        ensures { result ≡ record { told = None; ended = false; faults = 0; log = [] } }
    {
        RealLink {
            stream,
            record_of: LinkRecord::new(),
        }
    }

    /// The stream, and what is kept of the link.
    pub(crate) fn into_parts(self) -> (S, LinkRecord)
        ensures { result.1 ≡ self }
    {
        let RealLink { stream, record_of } = self;
        (stream, record_of)
    }
}

impl<S: Read + Write + Send + Drop> Link for RealLink<S> {
    ghost view = { λ link. link };

    fn faults(&self) -> u64 {
        self.record_of.faults()
    }

    fn ended(&self) -> bool {
        self.record_of.ended()
    }

    fn take(&mut self, into: &mut [u8]) -> Result<usize, LinkFault> {
        match read_some(&mut self.stream, into) {
            Ok(n) => {
                self.record_of.took(&into[..n]);
                Ok(n)
            }
            Err(_) => {
                self.record_of.fault();
                Err(LinkFault)
            }
        }
    }

    fn put(&mut self, bytes: &[u8]) -> Result<(), LinkFault> {
        match self.stream.write_all(bytes) {
            Ok(()) => {
                self.record_of.note(&Note::Put(bytes));
                Ok(())
            }
            Err(_) => {
                self.record_of.note(&Note::PutFailed(bytes));
                self.record_of.fault();
                Err(LinkFault)
            }
        }
    }
}

/// The next bytes of the stream. A read that a signal interrupted is made again.
fn read_some<S: Read>(stream: &mut S, into: &mut [u8]) -> io::Result<usize>
    ensures { ReadsAtMost result into.new }
{
    for _ in 1..MOST_TRIES {
        match stream.read(into) {
            Ok(n) => return Ok(n),
            Err(error) => {
                if error.kind() != ErrorKind::Interrupted {
                    return Err(error);
                }
            }
        }
    }
    stream.read(into)
}
