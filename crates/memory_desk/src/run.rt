//! One run of the desk, and what it left.

use crate::clients::{door_of, list_of};
use crate::fault::RunFault;
use crate::given::Given;
use desk_disk::MemoryDisk;
use desk_links::MemoryDoor;
use desk_outside::{MemoryCabinet, MemorySink};
use slot_program::desk;
use std::alloc::{AllocError, Global};
use std::sync::Wait;
use std::thread::Threads;
use worker_gate::Gate;

/// The most files of a cabinet.
const MOST_FILES: usize = 16;

/// The most doors of a desk.
const MOST_DOORS: usize = 16;

/// The most bytes that are printed.
const MOST_PRINTED: usize = 60_000;

/// The most bytes of a disk: a journal of 255 pairs.
const MOST_STORED: usize = 65_297;

/// The most calls of a disk.
const MOST_CALLS: usize = 2_000;

/// The status with which a run ended, and what it left outside of the desk.
#[derive(Drop)]
pub struct RunEnd {
    pub status: u8,
    pub cabinet: MemoryCabinet,
    pub sink: MemorySink,
    pub doors: Vec<MemoryDoor>,
    pub disk: Option<MemoryDisk>,
}

/// Runs the desk on these words, with a blank between two, over what it is given.
pub fn run_desk<R: Threads + Wait + Sync, G: Gate>(
    rt: &R,
    alloc: Global,
    words: &str,
    given: &Given,
    gate: &G,
) -> Result<RunEnd, RunFault> {
    let words = split_words(alloc, words)?;
    let mut end = unrun(alloc, given)?;
    if end.doors.len() > MOST_DOORS {
        return Err(RunFault::NoRoom);
    }
    end.status = desk(
        rt,
        alloc,
        &words,
        &mut end.cabinet,
        &mut end.sink,
        &mut end.doors,
        gate,
        &mut end.disk,
    );
    Ok(end)
}

/// The words of a text, with a blank between two.
pub fn split_words(alloc: Global, words: &str) -> Result<Vec<String>, AllocError> {
    let mut list = Vec::new(alloc);
    for word in words.split(' ') {
        list.push(String::from_str(alloc, word)?)?;
    }
    Ok(list)
}

/// What stands outside before a run, which has no status yet.
fn unrun(alloc: Global, given: &Given) -> Result<RunEnd, RunFault> {
    let cabinet = cabinet_of(alloc, given)?;
    let sink = MemorySink::new(alloc, MOST_PRINTED, list_of(alloc, given.fails.sink)?)?;
    let doors = doors_of(alloc, given)?;
    let disk = disk_of(alloc, given)?;
    Ok(RunEnd {
        status: 0,
        cabinet,
        sink,
        doors,
        disk,
    })
}

fn cabinet_of(alloc: Global, given: &Given) -> Result<MemoryCabinet, RunFault> {
    let failing = list_of(alloc, given.fails.cabinet)?;
    let mut cabinet = MemoryCabinet::new(alloc, MOST_FILES, given.room, failing)?;
    for file in &given.files {
        if !cabinet.load(file.name.as_str(), &file.bytes) {
            return Err(RunFault::NoRoom);
        }
    }
    Ok(cabinet)
}

fn doors_of(alloc: Global, given: &Given) -> Result<Vec<MemoryDoor>, RunFault> {
    let mut doors = Vec::new(alloc);
    for clients in &given.clients {
        let is_first = doors.is_empty();
        let call = if is_first { given.fails.link } else { None };
        let accept = if is_first { given.fails.accept } else { None };
        doors.push(door_of(alloc, clients, given.piece, call, accept)?)?;
    }
    Ok(doors)
}

fn disk_of(alloc: Global, given: &Given) -> Result<Option<MemoryDisk>, RunFault> {
    let Some(bytes) = &given.journal else {
        return Ok(None);
    };
    if bytes.len() > MOST_STORED {
        return Err(RunFault::NoRoom);
    }
    let failing = list_of(alloc, given.fails.disk)?;
    let disk = MemoryDisk::new(alloc, bytes, MOST_STORED, MOST_CALLS, failing)?;
    Ok(Some(disk))
}
