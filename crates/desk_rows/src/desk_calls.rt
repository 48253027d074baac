//! Calls of the desk over files, an output and doors in memory.

use crate::texts::{folded, spelled_out};
use desk_disk::MemoryDisk;
use desk_links::{MemoryDoor, MemoryLink};
use desk_outside::{Failure, MemoryCabinet, MemorySink};
use memory_desk::{Clients, list_of, split_words};
use slot_program::desk;
use std::alloc::Global;
use std::process::Abort;
use std::sync::Wait;
use std::thread::Threads;
use worker_gate::{Gate, RealGate};

/// An empty cabinet with room for six files.
pub(crate) fn new_cabinet(
    rt: &impl Abort,
    alloc: Global,
    room: usize,
    failing: Option<Failure>,
) -> MemoryCabinet {
    let failing = list_of(alloc, failing).expect(rt, "memory");
    MemoryCabinet::new(alloc, 6, room, failing).expect(rt, "memory")
}

/// Runs the desk without a disk on these words, with a blank between two. Gives the status, a
/// blank, and what was printed.
pub(crate) fn call_desk<R: Abort + Threads + Wait + Sync, G: Gate>(
    rt: &R,
    alloc: Global,
    words: &str,
    cabinet: &mut MemoryCabinet,
    failing: Option<Failure>,
    doors: &mut Vec<MemoryDoor>,
    gate: &G,
) -> String {
    let mut none = None;
    call_with_disk(rt, alloc, words, cabinet, failing, doors, gate, &mut none)
}

/// The same with a disk, if there is one.
pub(crate) fn call_with_disk<R: Abort + Threads + Wait + Sync, G: Gate>(
    rt: &R,
    alloc: Global,
    words: &str,
    cabinet: &mut MemoryCabinet,
    failing: Option<Failure>,
    doors: &mut Vec<MemoryDoor>,
    gate: &G,
    disk: &mut Option<MemoryDisk>,
) -> String {
    assert!(rt; doors.len() <= 16, "more than 16 doors");
    let list = split_words(alloc, words).expect(rt, "memory");
    let mut sink = new_sink(rt, alloc, failing);
    let status = desk(rt, alloc, &list, cabinet, &mut sink, doors, gate, disk);
    said(rt, alloc, status, sink.bytes())
}

/// An output of which this put is to fail.
fn new_sink(rt: &impl Abort, alloc: Global, failing: Option<Failure>) -> MemorySink {
    let failing = list_of(alloc, failing).expect(rt, "memory");
    MemorySink::new(alloc, 1000, failing).expect(rt, "memory")
}

/// The status, a blank, and what was printed.
fn said(rt: &impl Abort, alloc: Global, status: u8, printed: &[u8]) -> String {
    let text = folded(rt, alloc, printed);
    format!(in alloc; "{status} {text}").expect(rt, "memory")
}

/// Room for a journal of six pairs.
const ROOM: usize = 1553;

/// A disk that holds these bytes, of which this call is to fail.
pub(crate) fn disk_of(
    rt: &impl Abort,
    alloc: Global,
    file: &[u8],
    failing: Option<Failure>,
) -> Option<MemoryDisk> {
    assert!(rt; file.len() <= ROOM, "too long");
    let failing = list_of(alloc, failing).expect(rt, "memory");
    Some(MemoryDisk::new(alloc, file, ROOM, 99, failing).expect(rt, "memory"))
}

/// What a disk holds that the desk has put back.
pub(crate) fn bytes_of(rt: &impl Abort, alloc: Global, disk: &Option<MemoryDisk>) -> Vec<u8> {
    let Some(disk) = disk else {
        panic!(rt; "the disk is gone");
    };
    Vec::from_slice(alloc, disk.bytes()).expect(rt, "memory")
}

/// Runs the desk without doors, where no put fails.
pub(crate) fn call_alone<R: Abort + Threads + Wait + Sync>(
    rt: &R,
    alloc: Global,
    words: &str,
    cabinet: &mut MemoryCabinet,
) -> String {
    let mut none = Vec::new(alloc);
    call_desk(rt, alloc, words, cabinet, None, &mut none, &RealGate)
}

/// A door with links whose inputs stand between bars, handed out in pieces of so many bytes, or
/// whole where that is 0. An accept is to fail, or a call of the first link.
pub(crate) fn door_of(
    rt: &impl Abort,
    alloc: Global,
    texts: &str,
    piece: usize,
    call: Option<Failure>,
    accept: Option<Failure>,
) -> MemoryDoor {
    let clients = clients_of(rt, alloc, texts);
    memory_desk::door_of(alloc, &clients, piece, call, accept).expect(rt, "memory")
}

/// The clients whose inputs stand between bars.
fn clients_of(rt: &impl Abort, alloc: Global, texts: &str) -> Clients {
    let mut inputs = Vec::new(alloc);
    for text in texts.split('|') {
        let input = spelled_out(rt, alloc, text);
        inputs.push(input).expect(rt, "memory");
    }
    Clients { inputs }
}

/// A door for each text of clients, without pieces. An accept of the first one is to fail.
pub(crate) fn doors_of(
    rt: &impl Abort,
    alloc: Global,
    clients: &[&str],
    accept: Option<Failure>,
) -> Vec<MemoryDoor> {
    let mut doors = Vec::new(alloc);
    for texts in clients {
        let fails = if doors.is_empty() { accept } else { None };
        let door = door_of(rt, alloc, *texts, 0, None, fails);
        doors.push(door).expect(rt, "memory");
    }
    doors
}

/// The first link that a door handed out.
pub(crate) fn first_link(doors: &[MemoryDoor], door: usize) -> Option<&MemoryLink> {
    doors.get(door)?.kept().get(0)
}

/// What the first link of the first door was sent, nothing where there is none.
pub(crate) fn first_sent(rt: &impl Abort, alloc: Global, doors: &[MemoryDoor]) -> String {
    match first_link(doors, 0) {
        Some(link) => folded(rt, alloc, link.sent()),
        None => String::new(alloc),
    }
}
