//! A door over a listener of the system.
ghost use Rattle.std.specs.Prelude.{◌≡◌, ◌++◌, ◌∷◌, [], None, IfOk};

use crate::door::{Door, DoorFault};
use crate::link_record::LinkRecord;
use crate::real_link::{MOST_TRIES, RealLink};
use slot_text::Memory;
use std::alloc::Global;
use std::io::{ErrorKind, Read, Write};
use std::marker::Model;
use std::net::{OpenListener, OpenStream, Shutdown};
use std::time::Duration;

/// How long a read may wait for a client, in seconds.
const READ_SECONDS: u64 = 300;

/// How long a write may wait for a client, in seconds.
const WRITE_SECONDS: u64 = 60;

/// What a link that is closed may still send is read and dropped, in so many reads of 4,096 bytes
/// at most.
const DRAIN_READS: u32 = 16;

/// How long each of these reads may wait, in milliseconds: all together wait one second at most.
const DRAIN_MILLIS: u64 = 62;

/// A copy of a listener, with room for so many links. A door without a listener, since none could
/// be bound, fails at each accept; so does one that has handed out as many links as a `u64` counts.
/// It does not tell what comes.
///
/// A read of its links that waits longer than 300 seconds for the client, and a write that waits
/// longer than 60, is a fault of the link.
#[derive(Drop)]
pub struct RealDoor<T: Drop> {
    listener: Option<T>,
    admitted: u64,
    kept: Vec<LinkRecord>,
    room: usize,
    faults: u64,
}

impl<T: Drop> Model for RealDoor<T> {
    ghost use Rattle.std.specs.Prelude.{None, ◌≤◌, vec_capacity, vec_len};
    ghost use Rattle.desk_links.specs.Doors.{DoorView};

    ghost Value = { DoorView };

    ghost view = { λ door. record {
      coming = None;
      admitted = door.admitted;
      kept = door.kept.items;
      faults = door.faults;
      room = door.room;
    } };

    ghost invariant = { λ door. (door.room ≤ vec_capacity door.kept)
        × (vec_len door.kept ≤ door.room) };
}

impl<T: Drop> RealDoor<T> {
    /// A door with room for so many links. `Memory` where that room could not be taken; no later
    /// call wants memory.
    pub fn new(alloc: Global, listener: Option<T>, links: usize) -> Result<RealDoor<T>, Memory>
        ensures { IfOk result (λ door.
            door ≡ record { coming = None; admitted = 0; kept = []; faults = 0; room = links }) }
    {
        let kept = Vec::with_capacity(alloc, links)?;
        Ok(RealDoor {
            listener,
            admitted: 0,
            kept,
            room: links,
            faults: 0,
        })
    }
}

impl<T: OpenListener + Send + Drop> Door for RealDoor<T>
where
    T::Stream: OpenStream + Read + Write + Send + Drop,
{
    type Link = RealLink<T::Stream>;

    ghost view = { λ door. door };

    fn faults(&self) -> u64 {
        self.faults
    }

    fn accept(&mut self) -> Result<Option<RealLink<T::Stream>>, DoorFault> {
        if self.kept.len() < self.room {
            if let Some(admitted) = self.admitted.checked_add(1) {
                if let Some(stream) = next_stream(&self.listener) {
                    self.admitted = admitted;
                    return Ok(Some(RealLink::new(stream)));
                }
            }
        }
        self.faults = self.faults.saturating_add(1);
        Err(DoorFault)
    }

    fn finish(&mut self, link: RealLink<T::Stream>) {
        let (stream, record_of) = link.into_parts();
        self.kept.push_reserved(record_of);
        close(stream);
    }
}

/// The stream of the next client. One that gave up before it was accepted is passed over, and so is
/// one whose stream takes no time limits.
fn next_stream<T: OpenListener>(listener: &Option<T>) -> Option<T::Stream>
where
    T::Stream: OpenStream,
{
    let Some(listener) = listener else {
        return None;
    };
    for _ in 0..MOST_TRIES {
        match listener.accept() {
            Ok((stream, _)) => {
                if has_limits(&stream) {
                    return Some(stream);
                }
            }
            Err(error) => {
                if !gave_up(error.kind()) {
                    return None;
                }
            }
        }
    }
    None
}

/// Gives a stream its time limits, and lets it send what is put at once. False where the system
/// refused a limit.
fn has_limits<S: OpenStream>(stream: &S) -> bool {
    let reads = stream.set_read_timeout(Some(Duration::from_secs(READ_SECONDS)));
    let writes = stream.set_write_timeout(Some(Duration::from_secs(WRITE_SECONDS)));
    let at_once = stream.set_nodelay(true);
    reads.is_ok() && writes.is_ok() && at_once.is_ok()
}

/// An accept failed for the client alone, so the next one may succeed.
fn gave_up(kind: ErrorKind) -> bool {
    kind == ErrorKind::ConnectionAborted || kind == ErrorKind::Interrupted
}

/// Ends what is sent to the client, and drops what it still sends, for a short while: where the
/// system has bytes that nobody read, it may reset the connection and with it what is under way.
fn close<S: OpenStream + Read + Drop>(mut stream: S) {
    let ended = stream.shutdown(Shutdown::Write);
    let limit = stream.set_read_timeout(Some(Duration::from_millis(DRAIN_MILLIS)));
    if ended.is_err() || limit.is_err() {
        return;
    }
    let mut dropped = [0u8; 4096];
    for _ in 0..DRAIN_READS {
        match stream.read(&mut dropped) {
            Ok(0) | Err(_) => return,
            Ok(_) => {}
        }
    }
}
