//! What holds of the work of the commands that answer asks: replies come one after the other, a
//! record is one history, what is held fits, and a stage for those that wait is found valid.

use crate::laws::{first_of, law};
use crate::next_season::{counted, is_next};
use crate::places::{are_by_their_places, is_count_of, reply_due};
use crate::plain::first_line;
use crate::printed::{links_due, links_of, stage_lines};
use crate::records::{History, answers_to, history_of};
use crate::refusals::open_slots;
use crate::seen::Seen;
use crate::sent::{are_sent, broken_door};
use crate::works::{fit_replies, held_slots, is_found_valid, replied, said_of};
use drawn_worlds::{Command, copied, count_of, number, queries_text};
use memory_desk::{Given, RunEnd, RunFault};
use slot_text::Memory;
use std::alloc::Global;
use std::sync::Wait;
use std::thread::Threads;

/// Asks were answered: each ask of whole messages is counted, the replies to each front of the
/// messages begin the replies to them all, and what is held behind them all fits.
pub fn amended<R: Threads + Wait + Sync>(
    rt: &R,
    alloc: Global,
    given: &Given,
    seen: &Seen,
    damaged: &str,
) -> Result<&'static str, RunFault> {
    let asks = seen.before("ASKS");
    let due = reply_due(seen.before("CAP"), damaged == "ASKS");
    if !is_count_of(alloc, &seen.said, asks, due)? {
        return Ok("entries of asks");
    }
    if !asks.ends_with('\n') {
        return Ok("");
    }
    let are_placed = are_by_their_places(rt, alloc, given, asks, seen.after("ANSWERS"), due)?;
    let later = broken_behind(rt, alloc, given, seen)?;
    Ok(first_of(law(are_placed, "replies by their places"), later))
}

/// The first law that is broken where all flights are asked for behind the asks.
fn broken_behind<R: Threads + Wait + Sync>(
    rt: &R,
    alloc: Global,
    given: &Given,
    seen: &Seen,
) -> Result<&'static str, RunFault> {
    let listed = listed_behind(rt, alloc, given, seen.before("ASKS"))?;
    let answers = seen.after("ANSWERS");
    let fit = fit_replies(alloc, seen.before("CAP"), behind(&listed, answers))?;
    Ok(first_of(
        law(listed.starts_with(answers), "replies before later asks"),
        law(fit, "loads behind asks"),
    ))
}

/// The replies to asks, and behind them what all flights hold then.
fn listed_behind<R: Threads + Wait + Sync>(
    rt: &R,
    alloc: Global,
    given: &Given,
    asks: &str,
) -> Result<String, RunFault> {
    let all = with_queries(alloc, asks)?;
    answers_to(rt, alloc, given, &all)
}

/// Asks, and a message that asks for all flights behind them.
fn with_queries(alloc: Global, asks: &str) -> Result<String, Memory> {
    let queries = queries_text(alloc)?;
    let all = format!(in alloc; "{asks}\n{queries}")?;
    Ok(all)
}

fn behind<'a>(whole: &'a str, front: &str) -> &'a str {
    whole.strip_prefix(front).unwrap_or("")
}

/// Clients were served: what was printed counts the entries and the links, the record is one
/// history from the start, and each door's clients were sent the answers of its caller, in their
/// order.
pub fn served<R: Threads + Wait + Sync>(
    rt: &R,
    alloc: Global,
    given: &Given,
    ran: &RunEnd,
    seen: &Seen,
    damaged: &str,
) -> Result<&'static str, RunFault> {
    let record = seen.after("RECORD");
    let counts = broken_counts(alloc, given, ran, seen, "")?;
    let is_history = is_one_history(rt, alloc, given, record)?;
    let sent = are_sent(alloc, given, ran, record)?;
    let first = first_of(counts, first_of(law(is_history, "a record"), sent));
    let is_calm = given.fails.link.is_none() && given.fails.accept.is_none();
    if !is_calm || damaged == "CLIENT" {
        return Ok(first);
    }
    Ok(first_of(first, broken_door(rt, alloc, given, ran)?))
}

/// The first law that what was printed of clients breaks: a front, the entries of the record, and
/// the links that the doors handed out, which are all where none failed.
fn broken_counts(
    alloc: Global,
    given: &Given,
    ran: &RunEnd,
    seen: &Seen,
    front: &str,
) -> Result<&'static str, Memory> {
    let entries = count_of(seen.after("RECORD"), "ENTRY ");
    let links = links_of(ran);
    let are_all = ran.status != 0 || links == links_due(given);
    let due = format!(in alloc; "{front}ENTRIES {entries}\nLINKS {links}\n")?;
    Ok(first_of(
        law(seen.said.as_str() == due.as_str(), "entries and links"),
        law(are_all, "links"),
    ))
}

/// Whether the asks of a record have its answers where `amend` is asked.
fn is_one_history<R: Threads + Wait + Sync>(
    rt: &R,
    alloc: Global,
    given: &Given,
    record: &str,
) -> Result<bool, RunFault> {
    let history = history_of(alloc, record, u64::MAX)?;
    is_answered(rt, alloc, given, &history.asks, &history.due)
}

/// Whether `amend` answers asks with these answers in the end.
fn is_answered<R: Threads + Wait + Sync>(
    rt: &R,
    alloc: Global,
    given: &Given,
    asks: &str,
    due: &str,
) -> Result<bool, RunFault> {
    let answers = answers_to(rt, alloc, given, asks)?;
    Ok(answers.as_str() == due)
}

/// Clients were served with a journal: the pairs that were found are its open slots, the record
/// follows them, and a desk that opens the journal then finds these and each entry; where the disk
/// failed maybe one more.
pub fn resumed<R: Threads + Wait + Sync>(
    rt: &R,
    alloc: Global,
    given: &Given,
    ran: &RunEnd,
    seen: &Seen,
    damaged: &str,
) -> Result<&'static str, RunFault> {
    if seen.said.starts_with("JOURNAL ") {
        return Ok(law(is_journal_left(given, ran), "a journal that was refused"));
    }
    let kept = match &given.journal {
        Some(bytes) => open_slots(bytes.as_slice()),
        None => u64::MAX,
    };
    let counts = broken_kept(alloc, given, ran, seen, kept)?;
    let sent = are_sent(alloc, given, ran, seen.after("RECORD"))?;
    let record = broken_record(rt, alloc, given, ran, seen, kept, damaged == "JOURNAL")?;
    Ok(first_of(first_of(counts, sent), record))
}

/// The first law that what was printed breaks where so many pairs were found.
fn broken_kept(
    alloc: Global,
    given: &Given,
    ran: &RunEnd,
    seen: &Seen,
    kept: u64,
) -> Result<&'static str, Memory> {
    let front = format!(in alloc; "KEPT {kept}\n")?;
    broken_counts(alloc, given, ran, seen, &front)
}

/// The first law that a record breaks, and the journal beside it, in which so many pairs were
/// found.
fn broken_record<R: Threads + Wait + Sync>(
    rt: &R,
    alloc: Global,
    given: &Given,
    ran: &RunEnd,
    seen: &Seen,
    kept: u64,
    is_damaged: bool,
) -> Result<&'static str, RunFault> {
    let entries = count_of(seen.after("RECORD"), "ENTRY ") as u64;
    let found = found_again(rt, alloc, given, ran)?;
    let all = kept.saturating_add(entries);
    let stands = found == Some(all) || ran.status == 14 && found == Some(all.saturating_add(1));
    let follows = is_damaged || follows_kept(rt, alloc, given, seen, kept)?;
    Ok(first_of(
        law(stands, "a journal opened again"),
        law(follows, "a record behind a journal"),
    ))
}

/// Whether a journal that was refused, without a fault of its disk, is as it was.
fn is_journal_left(given: &Given, ran: &RunEnd) -> bool {
    match (&given.journal, &ran.disk) {
        (Some(before), Some(disk)) => ran.status == 14 || disk.bytes() == before.as_slice(),
        (None, None) => true,
        _ => false,
    }
}

/// How many pairs a desk finds that opens the journal which a run left.
fn found_again<R: Threads + Wait + Sync>(
    rt: &R,
    alloc: Global,
    given: &Given,
    ran: &RunEnd,
) -> Result<Option<u64>, RunFault> {
    match &ran.disk {
        Some(disk) => found_on(rt, alloc, given, disk.bytes()),
        None => Ok(None),
    }
}

fn found_on<R: Threads + Wait + Sync>(
    rt: &R,
    alloc: Global,
    given: &Given,
    bytes: &[u8],
) -> Result<Option<u64>, RunFault> {
    let mut world = copied(alloc, given)?;
    world.journal = Some(Vec::from_slice(alloc, bytes)?);
    found_in(rt, alloc, &world)
}

fn found_in<R: Threads + Wait + Sync>(
    rt: &R,
    alloc: Global,
    world: &Given,
) -> Result<Option<u64>, RunFault> {
    let said = said_of(rt, alloc, Command::Resume.words(), world)?;
    Ok(number(first_line(&said), 2))
}

/// Whether the answers of a record are those behind the first entries of the record before it.
fn follows_kept<R: Threads + Wait + Sync>(
    rt: &R,
    alloc: Global,
    given: &Given,
    seen: &Seen,
    kept: u64,
) -> Result<bool, RunFault> {
    let history = history_of(alloc, seen.after("RECORD"), u64::MAX)?;
    follows(rt, alloc, given, seen.before("RECORD"), kept, &history)
}

/// Whether the answers of a history are those behind the first entries of a record.
fn follows<R: Threads + Wait + Sync>(
    rt: &R,
    alloc: Global,
    given: &Given,
    earlier: &str,
    kept: u64,
    history: &History,
) -> Result<bool, RunFault> {
    let asks = joined(alloc, earlier, kept, &history.asks)?;
    ends_answered(rt, alloc, given, &asks, &history.due)
}

/// Whether `amend` answers asks with these answers at the end.
fn ends_answered<R: Threads + Wait + Sync>(
    rt: &R,
    alloc: Global,
    given: &Given,
    asks: &str,
    due: &str,
) -> Result<bool, RunFault> {
    let answers = answers_to(rt, alloc, given, asks)?;
    Ok(answers.ends_with(due))
}

/// The asks of the first entries of a record, where pairs were kept, and others behind them.
fn joined(alloc: Global, earlier: &str, kept: u64, asks: &str) -> Result<String, Memory> {
    if kept == 0 {
        return Ok(String::from_str(alloc, asks)?);
    }
    let mut before = history_of(alloc, earlier, kept)?.asks;
    before.push_str(asks)?;
    Ok(before)
}

/// A waiting list was cleared: its stage is found valid, each line that waits has one reply, and
/// the book and what was allotted beside it fit together.
pub fn recleared<R: Threads + Wait + Sync>(
    rt: &R,
    alloc: Global,
    given: &Given,
    ran: &RunEnd,
    seen: &Seen,
) -> Result<&'static str, RunFault> {
    let is_whole = is_waiting_text(alloc, seen)?;
    let is_valid = is_found_valid(rt, alloc, given, ran, Command::Reclear, Command::Recheck)?;
    let fit = fit_together(rt, alloc, given, seen)?;
    Ok(first_of(
        law(is_valid, "a stage that was written"),
        first_of(
            law(is_whole, "replies to those that wait"),
            law(fit, "loads beside a book"),
        ),
    ))
}

/// Whether what was printed counts the lines that were replied to, and has the cost, the bound and
/// the status of the stage that was written.
fn is_waiting_text(alloc: Global, seen: &Seen) -> Result<bool, Memory> {
    let lines = stage_lines(alloc, seen.after("EXTRA"))?;
    is_waiting(alloc, seen, &lines)
}

fn is_waiting(alloc: Global, seen: &Seen, lines: &str) -> Result<bool, Memory> {
    let count = replied(seen.after("REPLIES"));
    let status = if lines.contains(" OPEN ") { 9 } else { 0 };
    let due = format!(in alloc; "WAITING {count}\n{lines}")?;
    Ok(seen.said.as_str() == due.as_str() && seen.status == status)
}

/// Whether what the book holds behind the asks fits beside the slots of replies.
fn fit_together<R: Threads + Wait + Sync>(
    rt: &R,
    alloc: Global,
    given: &Given,
    seen: &Seen,
) -> Result<bool, RunFault> {
    let asks = seen.before("ASKS");
    if !asks.ends_with('\n') {
        return Ok(true);
    }
    let answers = answers_to(rt, alloc, given, asks)?;
    fit_behind(rt, alloc, given, seen, &answers)
}

fn fit_behind<R: Threads + Wait + Sync>(
    rt: &R,
    alloc: Global,
    given: &Given,
    seen: &Seen,
    answers: &str,
) -> Result<bool, RunFault> {
    let listed = listed_behind(rt, alloc, given, seen.before("ASKS"))?;
    let held = behind(&listed, answers);
    Ok(fit_both(alloc, seen, held)?)
}

/// Whether held lines and those of replies are within the limits together.
fn fit_both(alloc: Global, seen: &Seen, held: &str) -> Result<bool, Memory> {
    let replies = seen.after("REPLIES");
    let both = format!(in alloc; "{held}{replies}")?;
    fit_replies(alloc, seen.before("CAP"), &both)
}

/// Usage was watched: the numbers of series, and of those with precedence, are those of a count
/// date by date, and the next season has the lines of the latter.
pub fn watched<R: Threads + Wait + Sync>(
    rt: &R,
    alloc: Global,
    given: &Given,
    seen: &Seen,
    damaged: &str,
) -> Result<&'static str, RunFault> {
    if !damaged.is_empty() {
        return Ok("");
    }
    let held = held_slots(rt, alloc, given)?;
    Ok(broken_usage(alloc, seen, &held)?)
}

/// The first law that what was printed and written of these holdings breaks.
fn broken_usage(alloc: Global, seen: &Seen, held: &str) -> Result<&'static str, Memory> {
    let operated = seen.before("OPERATED");
    let is_next = is_next(alloc, seen.after("NEXT"), held, operated)?;
    let (series, kept) = counted(held, operated);
    let due = format!(in alloc; "SERIES {series} KEPT {kept}\n")?;
    Ok(first_of(
        law(seen.said.as_str() == due.as_str(), "numbers of series"),
        law(is_next, "the next season"),
    ))
}
