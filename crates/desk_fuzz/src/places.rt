//! Replies to messages: one to each, in its place, behind those to the messages before it.

use crate::plain::{declared, first_line};
use crate::records::answers_to;
use drawn_worlds::{HEAD, number};
use memory_desk::{Given, RunFault};
use slot_text::Memory;
use std::alloc::Global;
use std::sync::Wait;
use std::thread::Threads;

/// What the reply to each message has to be: one of its header; one that names its season, which is
/// another one; or any, where messages are damaged.
#[derive(Clone, Copy)]
pub enum Due {
    Good,
    OtherSeason,
    Either,
}

/// What replies have to be by the season that a capacity file declares.
pub fn reply_due(capacity: &str, is_damaged: bool) -> Due {
    if is_damaged {
        Due::Either
    } else if declared(capacity, "SEASON") == "S25" {
        Due::Good
    } else {
        Due::OtherSeason
    }
}

/// Whether each ask of whole messages was counted, a pair once; none of another season.
pub fn is_count_of(alloc: Global, said: &str, asks: &str, due: Due) -> Result<bool, Memory> {
    let count = match due {
        Due::Good => asks_in(asks),
        Due::OtherSeason => 0,
        Due::Either => return Ok(true),
    };
    let line = format!(in alloc; "ENTRIES {count}\n")?;
    Ok(said == line.as_str())
}

/// How many asks messages have: no line of a header has six characters.
fn asks_in(asks: &str) -> u64 {
    let mut count = 0_u64;
    for line in asks.lines() {
        let is_ask = line.len() > 5 && !line.starts_with('C');
        count = count.saturating_add(u64::from(is_ask));
    }
    count
}

/// The messages so far, and what they are answered.
#[derive(Drop)]
struct Front {
    asks: String,
    replies: String,
}

/// Whether the replies to each front of the messages begin the replies to all, and end with one to
/// the last message of that front.
pub fn are_by_their_places<R: Threads + Wait + Sync>(
    rt: &R,
    alloc: Global,
    given: &Given,
    asks: &str,
    answers: &str,
    due: Due,
) -> Result<bool, RunFault> {
    let mut front = Front {
        asks: String::new(alloc),
        replies: String::new(alloc),
    };
    are_in_place(rt, alloc, given, &mut front, asks, answers, due)
}

fn are_in_place<R: Threads + Wait + Sync>(
    rt: &R,
    alloc: Global,
    given: &Given,
    front: &mut Front,
    asks: &str,
    answers: &str,
    due: Due,
) -> Result<bool, RunFault> {
    for message in asks.split("\n\n") {
        front.asks.push_str(message)?;
        front.asks.push_str("\n\n")?;
        let is_reply = is_in_place(rt, alloc, given, front, message, due)?;
        if !is_reply || !answers.starts_with(front.replies.as_str()) {
            return Ok(false);
        }
    }
    Ok(front.replies.as_str() == answers)
}

/// Whether a message more has one reply more, behind those to the messages before it.
fn is_in_place<R: Threads + Wait + Sync>(
    rt: &R,
    alloc: Global,
    given: &Given,
    front: &mut Front,
    message: &str,
    due: Due,
) -> Result<bool, RunFault> {
    let replies = answers_to(rt, alloc, given, &front.asks)?;
    let is_reply = match replies.strip_prefix(front.replies.as_str()) {
        Some(reply) => is_reply_to(message, reply, due),
        None => false,
    };
    front.replies = replies;
    Ok(is_reply)
}

/// Whether a text can be the reply to a message; there is none where no message stands.
fn is_reply_to(message: &str, reply: &str, due: Due) -> bool {
    if message.is_empty() {
        return reply.is_empty();
    }
    match due {
        Due::Good => reply.starts_with(HEAD) && reply.ends_with("\n\n"),
        Due::OtherSeason => reply == "BAD 2\n\n",
        Due::Either => reply.is_empty() || is_some_reply(message, reply),
    }
}

/// Whether a reply is one of a header, or names a line of the message, or the one behind its last.
fn is_some_reply(message: &str, reply: &str) -> bool {
    if !reply.ends_with("\n\n") || !reply.starts_with("BAD ") {
        return reply.ends_with("\n\n") && reply.starts_with("SCR\n");
    }
    let last = (message.lines().count() as u64).saturating_add(1);
    match number(first_line(reply), 1) {
        Some(place) => 1 <= place && place <= last,
        None => false,
    }
}
