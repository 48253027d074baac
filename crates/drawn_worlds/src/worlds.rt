//! What the runs of a case are given: a drawn season, and for each command the files, clients and
//! journal that it takes, most of them made by other commands.

use crate::commands::{Command, has_name};
use crate::damage::{damage, damaged_bytes};
use crate::draws::Draws;
use crate::seasons::{put_message, put_reports, put_season};
use crate::texts::{file_text, held_lines, put_bytes};
use memory_desk::{Given, RunEnd, RunFault, run_desk};
use slot_text::Memory;
use std::alloc::Global;
use std::sync::Wait;
use std::thread::Threads;
use worker_gate::RealGate;

/// Room for each file.
const ROOM: usize = 400_000;

/// What stood under a name that is written.
const OLD: &[u8] = b"what stood there\n";

/// What a command is given in a case, without damage: no call fails.
pub fn whole_world<R: Threads + Wait + Sync>(
    rt: &R,
    alloc: Global,
    draws: &mut Draws,
    case: u64,
    command: Command,
) -> Result<Given, RunFault> {
    let mut given = Given::new(alloc, ROOM);
    put_world(rt, alloc, draws, case, command, &mut given)?;
    Ok(given)
}

fn put_world<R: Threads + Wait + Sync>(
    rt: &R,
    alloc: Global,
    draws: &mut Draws,
    case: u64,
    command: Command,
    given: &mut Given,
) -> Result<(), RunFault> {
    put_season(alloc, draws, case, given)?;
    put_made_files(rt, alloc, draws, case, command, given)?;
    put_old_files(alloc, draws, command, given)?;
    put_idle_disk(alloc, draws, command, given)?;
    Ok(())
}

/// The files that other commands made, and what is asked and reported.
fn put_made_files<R: Threads + Wait + Sync>(
    rt: &R,
    alloc: Global,
    draws: &mut Draws,
    case: u64,
    command: Command,
    given: &mut Given,
) -> Result<(), RunFault> {
    if has_name(command.reads(), "CERT") {
        make(rt, alloc, Command::Allocate, given)?;
    }
    match command {
        Command::Amend | Command::Reclear => put_asks(rt, alloc, draws, case, given),
        Command::Recheck => {
            put_asks(rt, alloc, draws, case, given)?;
            make(rt, alloc, Command::Reclear, given)
        }
        Command::Usage => put_operated(alloc, draws, case, given),
        Command::Serve => put_clients(rt, alloc, draws, case, given),
        Command::Resume => put_journal(rt, alloc, draws, case, given),
        _ => Ok(()),
    }
}

/// The file of what was operated.
fn put_operated(
    alloc: Global,
    draws: &mut Draws,
    case: u64,
    given: &mut Given,
) -> Result<(), RunFault> {
    let mut text = String::new(alloc);
    put_reports(draws, &mut text, case)?;
    given.put(alloc, "OPERATED", text.into_bytes())?;
    Ok(())
}

/// Runs a command, and keeps what it wrote, and its journal.
fn make<R: Threads + Wait + Sync>(
    rt: &R,
    alloc: Global,
    command: Command,
    given: &mut Given,
) -> Result<(), RunFault> {
    let ran = run_desk(rt, alloc, command.words(), given, &RealGate)?;
    keep_run(alloc, command, &ran, given)
}

fn keep_run(
    alloc: Global,
    command: Command,
    ran: &RunEnd,
    given: &mut Given,
) -> Result<(), RunFault> {
    keep_writes(alloc, command, ran, given)?;
    if let Some(disk) = &ran.disk {
        keep_journal(given, Vec::from_slice(alloc, disk.bytes())?);
    }
    Ok(())
}

/// Keeps what a run wrote.
pub fn keep_writes(
    alloc: Global,
    command: Command,
    ran: &RunEnd,
    given: &mut Given,
) -> Result<(), Memory> {
    for name in command.writes().split_whitespace() {
        if let Some(bytes) = ran.cabinet.file(name) {
            put_bytes(alloc, given, name, bytes)?;
        }
    }
    Ok(())
}

fn keep_journal(given: &mut Given, bytes: Vec<u8>) {
    given.journal = Some(bytes);
}

/// A copy of the files alone.
pub fn copied(alloc: Global, given: &Given) -> Result<Given, Memory> {
    let mut copy = Given::new(alloc, ROOM);
    put_copies(alloc, given, &mut copy)?;
    Ok(copy)
}

fn put_copies(alloc: Global, given: &Given, copy: &mut Given) -> Result<(), Memory> {
    for file in &given.files {
        put_bytes(alloc, copy, file.name.as_str(), &file.bytes)?;
    }
    Ok(())
}

/// Two messages, the second of which may ask about what the first was answered.
fn put_asks<R: Threads + Wait + Sync>(
    rt: &R,
    alloc: Global,
    draws: &mut Draws,
    case: u64,
    given: &mut Given,
) -> Result<(), RunFault> {
    add_message(alloc, draws, case, given, "REPLIES")?;
    make(rt, alloc, Command::Amend, given)?;
    add_message(alloc, draws, case, given, "ANSWERS")?;
    Ok(())
}

/// Adds a message of asks to the file of them, some about the lines of a file of replies.
fn add_message(
    alloc: Global,
    draws: &mut Draws,
    case: u64,
    given: &mut Given,
    name: &str,
) -> Result<(), Memory> {
    let mut text = file_text(alloc, given.file("ASKS"))?;
    put_drawn(alloc, draws, case, given, name, &mut text)?;
    given.put(alloc, "ASKS", text.into_bytes())
}

/// Appends a message of asks, some about the lines of a file of replies.
fn put_drawn(
    alloc: Global,
    draws: &mut Draws,
    case: u64,
    given: &Given,
    name: &str,
    text: &mut String,
) -> Result<(), Memory> {
    let held = held_in(alloc, given, name)?;
    put_message(draws, text, case, &held)
}

fn held_in(alloc: Global, given: &Given, name: &str) -> Result<String, Memory> {
    let replies = file_text(alloc, given.file(name))?;
    held_lines(alloc, &replies)
}

/// The bytes of a message of asks, some about the lines of a file of replies.
fn drawn_message(
    alloc: Global,
    draws: &mut Draws,
    case: u64,
    given: &Given,
    name: &str,
) -> Result<Vec<u8>, Memory> {
    let mut text = String::new(alloc);
    put_drawn(alloc, draws, case, given, name, &mut text)?;
    Ok(text.into_bytes())
}

/// One door, or two, the first with one client, two or three; the asks stand in a file, too.
fn put_clients<R: Threads + Wait + Sync>(
    rt: &R,
    alloc: Global,
    draws: &mut Draws,
    case: u64,
    given: &mut Given,
) -> Result<(), RunFault> {
    put_asks(rt, alloc, draws, case, given)?;
    open_door_of_asks(alloc, given)?;
    put_more_clients(alloc, draws, case, given)?;
    given.piece = [0, 1, 7, 4096].get(draws.place(4)).copied().unwrap_or(0);
    Ok(())
}

/// At most two clients more at the first door, and a second door.
fn put_more_clients(
    alloc: Global,
    draws: &mut Draws,
    case: u64,
    given: &mut Given,
) -> Result<(), Memory> {
    for _ in 0..2 {
        if draws.once_in(2) {
            let text = drawn_message(alloc, draws, case, given, "ANSWERS")?;
            given.add_client(text)?;
        }
    }
    if draws.once_in(3) {
        let text = drawn_message(alloc, draws, case, given, "REPLIES")?;
        given.open_door(alloc, text)?;
    }
    Ok(())
}

/// A door with one client, which sends what stands in the file of asks.
fn open_door_of_asks(alloc: Global, given: &mut Given) -> Result<(), Memory> {
    let asks = Vec::from_slice(alloc, given.file("ASKS").unwrap_or(b""))?;
    given.open_door(alloc, asks)
}

/// A journal that an earlier desk kept, with its record, or an empty file; and the clients of the
/// desk that opens it.
fn put_journal<R: Threads + Wait + Sync>(
    rt: &R,
    alloc: Global,
    draws: &mut Draws,
    case: u64,
    given: &mut Given,
) -> Result<(), RunFault> {
    put_asks(rt, alloc, draws, case, given)?;
    keep_journal(given, Vec::new(alloc));
    open_door_of_asks(alloc, given)?;
    if !draws.once_in(4) {
        make(rt, alloc, Command::Resume, given)?;
        let text = drawn_message(alloc, draws, case, given, "ANSWERS")?;
        given.replace_client(text);
    }
    if draws.once_in(2) {
        put_more_clients(alloc, draws, case, given)?;
    }
    given.piece = draws.place(3);
    Ok(())
}

/// Half of the files that the command writes have other bytes before.
fn put_old_files(
    alloc: Global,
    draws: &mut Draws,
    command: Command,
    given: &mut Given,
) -> Result<(), Memory> {
    for name in command.writes().split_whitespace() {
        if given.file(name).is_none() && draws.once_in(2) {
            put_bytes(alloc, given, name, OLD)?;
        }
    }
    Ok(())
}

/// A disk of a command that asks none, in one of eight cases.
fn put_idle_disk(
    alloc: Global,
    draws: &mut Draws,
    command: Command,
    given: &mut Given,
) -> Result<(), Memory> {
    if command != Command::Resume && draws.once_in(8) {
        keep_journal(given, Vec::from_slice(alloc, OLD)?);
    }
    Ok(())
}

/// Damages one thing that the command takes, and names it: a file that it reads, or that is away
/// then; what a client says; or its journal, or that is away.
pub fn damage_world(
    alloc: Global,
    draws: &mut Draws,
    command: Command,
    given: &mut Given,
) -> Result<&'static str, Memory> {
    let is_client = command == Command::Serve && draws.once_in(2)
        || command == Command::Resume && draws.once_in(3);
    if is_client {
        damage_client(alloc, draws, given)?;
        return Ok("CLIENT");
    }
    if command == Command::Resume && draws.once_in(2) {
        damage_journal(alloc, draws, given)?;
        return Ok("JOURNAL");
    }
    let place = draws.place(command.reads().split_whitespace().count());
    let name = command.file_of(place);
    damage_file(alloc, draws, given, name)?;
    Ok(name)
}

/// Damages a file, or it is away then.
fn damage_file(
    alloc: Global,
    draws: &mut Draws,
    given: &mut Given,
    name: &str,
) -> Result<(), Memory> {
    if draws.once_in(12) {
        given.rename(alloc, name, "AWAY")
    } else if name == "CAP" && draws.once_in(6) {
        put_more_lines(alloc, given)
    } else {
        damage(alloc, draws, given, name)
    }
}

/// One capacity line more than there may be, or more.
fn put_more_lines(alloc: Global, given: &mut Given) -> Result<(), Memory> {
    let mut text = file_text(alloc, given.file("CAP"))?;
    for _ in 0..65 {
        text.push_str("CAP TOT 60 0600 0600 1234567 9\n")?;
    }
    given.put(alloc, "CAP", text.into_bytes())
}

fn damage_client(alloc: Global, draws: &mut Draws, given: &mut Given) -> Result<(), Memory> {
    let damaged = match given.client() {
        Some(input) => damaged_bytes(alloc, draws, input)?,
        None => return Ok(()),
    };
    given.replace_client(damaged);
    Ok(())
}

fn damage_journal(alloc: Global, draws: &mut Draws, given: &mut Given) -> Result<(), Memory> {
    if draws.once_in(6) {
        given.journal = None;
        return Ok(());
    }
    let damaged = match &given.journal {
        Some(bytes) => damaged_bytes(alloc, draws, bytes)?,
        None => return Ok(()),
    };
    given.journal = Some(damaged);
    Ok(())
}
