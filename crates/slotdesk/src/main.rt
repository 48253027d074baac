//! The slot coordination desk of one airport and one season, over the real files, the standard
//! output, sockets of this machine, and the file of a journal.
#![tactic(auto)]

ghost use Rattle.std.specs.Prelude.{◌≤◌, ℕ, length, IfOk};

use command_words::{Job, WordFault, read_words};
use desk_disk::RealDisk;
use desk_links::RealDoor;
use desk_outside::{RealCabinet, RealSink, Sink};
use slot_program::desk;
use slot_text::Memory;
use std::alloc::Global;
use std::env;
use std::fs::{File, OpenOptions};
use std::io::ErrorKind;
use std::net::{Net, OpenListener, TcpListener, TcpStream};
use std::path::Path;
use std::process::ExitCode;
use std::rt::Files;
use worker_gate::RealGate;

fn main(rt: HostRuntime) -> ExitCode {
    let alloc = rt.alloc();
    let mut cabinet = RealCabinet::new(&rt);
    let mut out = RealSink::new(&rt);
    let args = match env::args(&rt) {
        Ok(args) => args,
        Err(error) => return ExitCode::from(refuse_words(error.kind(), &mut out)),
    };
    let mut words = Vec::new(alloc);
    for word in args.skip(1) {
        if words.push(word).is_err() {
            return ExitCode::from(7);
        }
    }
    let Ok(mut doors) = doors_for(&rt, alloc, &words) else {
        return ExitCode::from(7);
    };
    let Ok(mut disk) = disk_for(&rt, alloc, &words) else {
        return ExitCode::from(7);
    };
    ExitCode::from(desk(
        &rt,
        alloc,
        &words,
        &mut cabinet,
        &mut out,
        &mut doors,
        &RealGate,
        &mut disk,
    ))
}

/// The status where the words could not be had: one of them is no text, or memory ran out.
fn refuse_words<S: Sink>(kind: ErrorKind, out: &mut S) -> u8 {
    if kind == ErrorKind::OutOfMemory {
        return 7;
    }
    match out.put(b"WORDS\n") {
        Ok(()) => 2,
        Err(_) => 6,
    }
}

/// The doors that the words ask for: one for each worker of `serve` and `resume`, and else none.
fn doors_for<R: Net<Listener = TcpListener, Stream = TcpStream>>(
    rt: &R,
    alloc: Global,
    words: &[String],
) -> Result<Vec<RealDoor<TcpListener>>, Memory>
    ensures { IfOk result (λ doors. length doors.items ≤ 16) }
{
    match read_words(alloc, words) {
        Ok(
            Job::Serve {
                names: _,
                links,
                port,
                workers,
            },
        ) => bound_doors(rt, alloc, links, port, workers),
        Ok(
            Job::Resume {
                names: _,
                links,
                port,
                workers,
            },
        ) => bound_doors(rt, alloc, links, port, workers),
        Err(WordFault::Memory) => Err(Memory),
        _ => Ok(Vec::new(alloc)),
    }
}

/// So many doors at a port.
///
/// The port is bound here, before any file is read, so that clients may connect at once. It is
/// bound on 127.0.0.1 alone: who reaches it may change any airline's slots, so identity and
/// encryption belong to a proxy on the same machine. Where it could not be bound each accept fails.
fn bound_doors<R: Net<Listener = TcpListener, Stream = TcpStream>>(
    rt: &R,
    alloc: Global,
    links: u32,
    port: u32,
    workers: u32,
) -> Result<Vec<RealDoor<TcpListener>>, Memory>
    requires { workers ≤ 16 }
    ensures { IfOk result (λ doors. length doors.items ≤ 16) }
{
    let address = format!(in alloc; "127.0.0.1:{port}")?;
    let listener = TcpListener::bind(rt, address.as_str()).ok();
    doors_over(alloc, listener, links, workers)
}

/// So many doors over one listener, each with a copy of its own and room for so many links.
fn doors_over(
    alloc: Global,
    listener: Option<TcpListener>,
    links: u32,
    workers: u32,
) -> Result<Vec<RealDoor<TcpListener>>, Memory>
    requires { workers ≤ 16 }
    ensures { IfOk result (λ doors. length doors.items ≤ 16) }
{
    let mut doors = Vec::new(alloc);
    for _worker in 0..workers {
        let copy = match &listener {
            Some(listener) => listener.try_clone().ok(),
            None => None,
        };
        doors.push(RealDoor::new(alloc, copy, links as usize)?)?;
    }
    Ok(doors)
}

/// The disk that the words ask for: the file of the journal of `resume`, which is made where there
/// is none. A file that cannot be opened is a disk whose every call fails.
fn disk_for<R: Files<File = File>>(
    rt: &R,
    alloc: Global,
    words: &[String],
) -> Result<Option<RealDisk<File>>, Memory> {
    match read_words(alloc, words) {
        Ok(
            Job::Resume {
                names,
                links: _,
                port: _,
                workers: _,
            },
        ) => match names.items().get(3) {
            Some(name) => Ok(Some(RealDisk::new(open_journal(rt, name.text())))),
            None => Ok(None),
        },
        Err(WordFault::Memory) => Err(Memory),
        _ => Ok(None),
    }
}

/// The file of a journal, with an exclusive lock, so that no second desk writes it. Its folder is
/// synced, so that a file just made is found again after a stop.
///
/// The folder is opened three times before it: where the standard input, output and error of the
/// program are closed, these take their places, and what is printed does not get into the journal.
fn open_journal<R: Files<File = File>>(rt: &R, name: &str) -> Option<File> {
    let folder = File::open(rt, folder_of(name)).ok()?;
    let _second = File::open(rt, folder_of(name)).ok()?;
    let _third = File::open(rt, folder_of(name)).ok()?;
    let file = OpenOptions::new()
        .read(true)
        .write(true)
        .create(true)
        .open(rt, name)
        .ok()?;
    if file.try_lock().is_err() {
        return None;
    }
    folder.sync_all().ok()?;
    Some(file)
}

/// The path of the folder in which a file stands.
fn folder_of(name: &str) -> &str {
    let parent = match Path::new(name).parent() {
        Some(parent) => parent.to_str().unwrap_or("."),
        None => ".",
    };
    if parent.is_empty() { "." } else { parent }
}
