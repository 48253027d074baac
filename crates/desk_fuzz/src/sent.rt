//! What links were sent, beside the record of the run and beside a file of the same asks.

use crate::laws::law;
use crate::records::{answers_to, own_lines, put_replies};
use desk_links::MemoryDoor;
use drawn_worlds::{begins, put_text};
use memory_desk::{Clients, Given, RunEnd, RunFault};
use slot_text::Memory;
use std::alloc::Global;
use std::sync::Wait;
use std::thread::Threads;

/// Whether the links of each door were sent the answers of its caller in their order: all of them;
/// of those to a link that failed, and where the disk failed, a front.
pub fn are_sent(
    alloc: Global,
    given: &Given,
    ran: &RunEnd,
    record: &str,
) -> Result<&'static str, Memory> {
    let is_cut = given.fails.link.is_some();
    for (place, door) in ran.doors.iter().enumerate() {
        let own = own_lines(alloc, record, place as u64)?;
        if !is_sent(alloc, &own, door, ran.status == 14, is_cut && place == 0)? {
            return Ok("what was sent");
        }
    }
    Ok("")
}

/// Whether the links of a door were sent these answers: all of them; a front of them where the disk
/// failed; or where its first link failed, the last of them behind a front of the rest.
fn is_sent(
    alloc: Global,
    own: &str,
    door: &MemoryDoor,
    is_ended: bool,
    is_cut: bool,
) -> Result<bool, Memory> {
    let from = if is_cut && !is_ended { 1 } else { 0 };
    let mut lines = String::new(alloc);
    put_lines(alloc, &mut lines, door, from)?;
    if is_ended {
        Ok(own.starts_with(lines.as_str()))
    } else if is_cut {
        is_rest_sent(alloc, own, &lines, door)
    } else {
        Ok(lines.as_str() == own)
    }
}

/// Whether these lines are the last answers, and the first link was sent a front of the rest.
fn is_rest_sent(alloc: Global, own: &str, last: &str, door: &MemoryDoor) -> Result<bool, Memory> {
    match own.strip_suffix(last) {
        Some(rest) => is_front_sent(alloc, rest, door),
        None => Ok(false),
    }
}

/// Whether the first link of a door was sent a front of these answers.
fn is_front_sent(alloc: Global, own: &str, door: &MemoryDoor) -> Result<bool, Memory> {
    let mut sent = String::new(alloc);
    if let Some(link) = door.kept().first() {
        put_text(&mut sent, link.sent())?;
    }
    is_front(alloc, own, &sent)
}

/// Whether the answer lines of what was sent are a front of these.
fn is_front(alloc: Global, own: &str, sent: &str) -> Result<bool, Memory> {
    let mut lines = String::new(alloc);
    put_whole(&mut lines, sent)?;
    Ok(own.starts_with(lines.as_str()))
}

/// Appends the answer lines that the links of a door were sent, from one of them on.
fn put_lines(
    alloc: Global,
    lines: &mut String,
    door: &MemoryDoor,
    from: usize,
) -> Result<(), Memory> {
    let mut sent = String::new(alloc);
    put_sent(&mut sent, door, from)?;
    put_whole(lines, &sent)
}

/// Appends the answer lines of what was sent, without a last line that is cut.
fn put_whole(lines: &mut String, sent: &str) -> Result<(), Memory> {
    match sent.rsplit_once('\n') {
        Some((whole, _)) => put_replies(lines, whole),
        None => Ok(()),
    }
}

/// Appends what the links of a door were sent, from one of them on.
fn put_sent(text: &mut String, door: &MemoryDoor, from: usize) -> Result<(), Memory> {
    for link in door.kept().iter().skip(from) {
        put_text(text, link.sent())?;
    }
    Ok(())
}

/// Whether the clients of one door were sent, one after the other, what a file of all they say is
/// answered.
pub fn broken_door<R: Threads + Wait + Sync>(
    rt: &R,
    alloc: Global,
    given: &Given,
    ran: &RunEnd,
) -> Result<&'static str, RunFault> {
    match ran.doors.as_slice() {
        [door] => broken_sent(rt, alloc, given, door),
        _ => Ok(""),
    }
}

fn broken_sent<R: Threads + Wait + Sync>(
    rt: &R,
    alloc: Global,
    given: &Given,
    door: &MemoryDoor,
) -> Result<&'static str, RunFault> {
    let due = due_text(rt, alloc, given, door.kept().len())?;
    let is_due = is_text_sent(alloc, door, &due)?;
    Ok(law(is_due, "clients beside a file"))
}

/// What a file of all that so many clients of the first door say is answered.
fn due_text<R: Threads + Wait + Sync>(
    rt: &R,
    alloc: Global,
    given: &Given,
    count: usize,
) -> Result<String, RunFault> {
    let mut asks = String::new(alloc);
    if let Some(clients) = given.clients.first() {
        put_inputs(&mut asks, clients, count)?;
    }
    answers_to(rt, alloc, given, &asks)
}

/// Appends what so many clients of a door say.
fn put_inputs(text: &mut String, clients: &Clients, count: usize) -> Result<(), Memory> {
    for input in clients.inputs.iter().take(count) {
        put_text(text, input)?;
    }
    Ok(())
}

/// Whether all links of a door were sent a text.
fn is_text_sent(alloc: Global, door: &MemoryDoor, due: &str) -> Result<bool, Memory> {
    let mut sent = String::new(alloc);
    put_sent(&mut sent, door, 0)?;
    Ok(sent.as_str() == due)
}

/// Whether the first link of a single door was sent a front of what the other run sent it, where it
/// was handed out.
pub fn is_front_of(calm: &RunEnd, ran: &RunEnd) -> bool {
    if ran.doors.len() != 1 || first_sent(ran).is_none() {
        return true;
    }
    begins(first_sent(ran), first_sent(calm))
}

/// What the first link of the first door was sent.
fn first_sent(ran: &RunEnd) -> Option<&[u8]> {
    Some(ran.doors.first()?.kept().first()?.sent())
}
