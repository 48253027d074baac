//! What holds of the work of the commands that allot, check, tell and make: what was allotted is
//! within the limits, each unit has one reply, certificates are found valid, and what is told
//! counts the same units.

use crate::laws::{first_of, law};
use crate::made::{made_capacity, made_requests};
use crate::plain::{first_line, fits, movements_of};
use crate::printed::stage_lines;
use crate::records::{Wanted, answers_to, push_line, text_of_run};
use crate::seen::Seen;
use crate::told::broken_lines;
use drawn_worlds::{
    Command, copied, count_of, held_lines, keep_writes, number, queries_text, word,
};
use memory_desk::{Given, RunEnd, RunFault};
use slot_text::Memory;
use std::alloc::Global;
use std::sync::Wait;
use std::thread::Threads;

/// The status of a run, a blank, and what it printed.
pub fn said_of<R: Threads + Wait + Sync>(
    rt: &R,
    alloc: Global,
    words: &str,
    given: &Given,
) -> Result<String, RunFault> {
    text_of_run(rt, alloc, words, given, Wanted::Said)
}

/// Whether the lines of replies are within the limits of a capacity file.
pub fn fit_replies(alloc: Global, capacity: &str, replies: &str) -> Result<bool, Memory> {
    let held = held_lines(alloc, replies)?;
    fit_lines(alloc, capacity, &held)
}

fn fit_lines(alloc: Global, capacity: &str, held: &str) -> Result<bool, Memory> {
    let list = movements_of(alloc, held)?;
    Ok(fits(capacity, &list))
}

/// Stages were allotted: the status is that of their lines, which are those of the certificate, it
/// is valid, what was allotted is within the limits, and each unit has one reply.
pub fn allotted<R: Threads + Wait + Sync>(
    rt: &R,
    alloc: Global,
    given: &Given,
    ran: &RunEnd,
    seen: &Seen,
) -> Result<&'static str, RunFault> {
    let replies = seen.after("REPLIES");
    let fit = fit_replies(alloc, seen.before("CAP"), replies)?;
    let is_valid = is_found_valid(rt, alloc, given, ran, Command::Allocate, Command::Check)?;
    let is_whole = has_each_reply(rt, alloc, given, replies)?;
    let are_told = are_stages(alloc, seen.after("CERT"), &seen.said)?;
    let first = first_of(
        law(seen.status == marked_status(&seen.said), "marks"),
        law(fit, "loads"),
    );
    let second = first_of(
        law(is_valid, "a certificate that was written"),
        law(is_whole, "replies"),
    );
    let third = law(are_told, "costs and bounds");
    Ok(first_of(first, first_of(second, third)))
}

/// Whether a text is the marks, the costs and the bounds of a certificate.
fn are_stages(alloc: Global, certificate: &str, told: &str) -> Result<bool, Memory> {
    let lines = stage_lines(alloc, certificate)?;
    Ok(lines.as_str() == told)
}

/// The status that the lines of stages give.
fn marked_status(said: &str) -> u8 {
    if said.contains(" INFEASIBLE") {
        8
    } else if said.contains(" OPEN ") {
        9
    } else {
        0
    }
}

/// Whether another command finds valid what a run of this one wrote.
pub fn is_found_valid<R: Threads + Wait + Sync>(
    rt: &R,
    alloc: Global,
    given: &Given,
    ran: &RunEnd,
    command: Command,
    checker: Command,
) -> Result<bool, RunFault> {
    let after = after_run(alloc, given, ran, command)?;
    is_valid(rt, alloc, &after, checker)
}

fn is_valid<R: Threads + Wait + Sync>(
    rt: &R,
    alloc: Global,
    given: &Given,
    checker: Command,
) -> Result<bool, RunFault> {
    let verdict = said_of(rt, alloc, checker.words(), given)?;
    Ok(verdict.as_str() == "0 YES\n")
}

/// The files that are given, and those that a run wrote.
fn after_run(
    alloc: Global,
    given: &Given,
    ran: &RunEnd,
    command: Command,
) -> Result<Given, Memory> {
    let mut after = copied(alloc, given)?;
    keep_writes(alloc, command, ran, &mut after)?;
    Ok(after)
}

/// Whether there is one K or U for each unit that `inspect` counts.
fn has_each_reply<R: Threads + Wait + Sync>(
    rt: &R,
    alloc: Global,
    given: &Given,
    replies: &str,
) -> Result<bool, RunFault> {
    let told = said_of(rt, alloc, Command::Inspect.words(), given)?;
    Ok(units_told(&told) == Some(replied(replies)))
}

/// How many units `inspect` counts.
fn units_told(told: &str) -> Option<u64> {
    for line in told.lines() {
        if line.starts_with("UNITS ") {
            return number(line, 1);
        }
    }
    None
}

/// How many replies are K or U.
pub fn replied(replies: &str) -> u64 {
    count_of(replies, "K").saturating_add(count_of(replies, "U")) as u64
}

/// A certificate was found valid: the book with its slots is within the limits.
pub fn checked<R: Threads + Wait + Sync>(
    rt: &R,
    alloc: Global,
    given: &Given,
    seen: &Seen,
) -> Result<&'static str, RunFault> {
    let held = held_slots(rt, alloc, given)?;
    let fit = fit_replies(alloc, seen.before("CAP"), &held)?;
    Ok(law(fit, "loads of a book"))
}

/// What all flights hold in the book of the certificate that is given.
pub fn held_slots<R: Threads + Wait + Sync>(
    rt: &R,
    alloc: Global,
    given: &Given,
) -> Result<String, RunFault> {
    let queries = queries_text(alloc)?;
    answers_to(rt, alloc, given, &queries)
}

/// A season was told of, or refused: as `allocate` does; and what is told counts its lines.
pub fn inspected<R: Threads + Wait + Sync>(
    rt: &R,
    alloc: Global,
    given: &Given,
    seen: &Seen,
    is_whole: bool,
) -> Result<&'static str, RunFault> {
    let allotted = said_of(rt, alloc, Command::Allocate.words(), given)?;
    Ok(broken_inspection(alloc, seen, &allotted, is_whole)?)
}

fn broken_inspection(
    alloc: Global,
    seen: &Seen,
    allotted: &str,
    is_whole: bool,
) -> Result<&'static str, Memory> {
    if seen.status == 0 {
        return broken_told(alloc, seen, allotted, is_whole);
    }
    let (status, line) = (seen.status, first_line(&seen.said));
    let due = format!(in alloc; "{status} {line}\n")?;
    Ok(law(allotted == due.as_str(), "a refusal beside allocate"))
}

/// The first law that what is told of a season breaks, beside what `allocate` says.
fn broken_told(
    alloc: Global,
    seen: &Seen,
    allotted: &str,
    is_whole: bool,
) -> Result<&'static str, Memory> {
    let lines = broken_lines(alloc, seen, is_whole)?;
    let is_done = matches!(word(allotted, 0), "0" | "8" | "9");
    let is_over = count_of(&seen.said, "OVER ") > 0;
    let first = first_of(
        law(is_done, "inspect beside allocate"),
        law(
            is_over == allotted.contains("STAGE 1 INFEASIBLE"),
            "what is over the limits",
        ),
    );
    Ok(first_of(first, lines))
}

/// A certificate was reported on: the numbers that are printed are those of the units of the
/// report, its stages are those of the certificate, and in a stage that is settled nothing cheaper
/// fits.
pub fn reported(alloc: Global, seen: &Seen) -> Result<&'static str, RunFault> {
    let report = seen.after("REPORT");
    let are_told = are_stages_of(alloc, seen.before("CERT"), report)?;
    let first = first_of(
        law(are_numbers_of(&seen.said, report), "numbers of a report"),
        law(!has_cheaper(report), "what fits in a settled stage"),
    );
    let second = first_of(
        law(
            is_page(seen.after("PAGE")) && is_report(report),
            "forms of a report",
        ),
        law(are_told, "stages of a report"),
    );
    Ok(first_of(first, second))
}

fn is_page(page: &str) -> bool {
    page.starts_with("<!DOCTYPE html>") && page.ends_with("</html>\n")
}

fn is_report(report: &str) -> bool {
    report.starts_with("REPORT 1\n") && report.ends_with("\nEND\n")
}

/// Whether the stages of a report are those of the certificate.
fn are_stages_of(alloc: Global, certificate: &str, report: &str) -> Result<bool, Memory> {
    let mut told = String::new(alloc);
    put_stages(&mut told, report)?;
    are_stages(alloc, certificate, &told)
}

/// Appends the marks, the costs and the bounds that a report tells.
fn put_stages(text: &mut String, report: &str) -> Result<(), Memory> {
    for line in report.lines() {
        if line.starts_with("STAGE ") {
            let (stage, _) = line.split_once(" UNITS ").unwrap_or((line, ""));
            push_line(text, stage)?;
        }
    }
    Ok(())
}

/// The words of outcomes, in the order in which they are printed.
const OUTCOMES: [&str; 5] = ["KEPT", "HISTORIC", "MOVED", "REFUSED", "NONE"];

/// Whether the numbers of outcomes are those of the units, and they add up, as do their minutes.
fn are_numbers_of(said: &str, report: &str) -> bool {
    let mut sum = 0_u64;
    for place in 0..OUTCOMES.len() {
        let count = units_with(report, OUTCOMES[place]);
        if number(said, place.saturating_mul(2).saturating_add(3)) != Some(count) {
            return false;
        }
        sum = sum.saturating_add(count);
    }
    number(said, 1) == Some(sum) && minutes_told(said) == minutes_of(report)
}

/// The minutes at the end of a tally.
fn minutes_told(said: &str) -> Option<u64> {
    let (_, minutes) = said.split_once(" MINUTES ")?;
    minutes.strip_suffix('\n')?.parse().ok()
}

/// What the units of a report cost that have slots: None where one does not cost its minutes of
/// change on each of its dates.
fn minutes_of(report: &str) -> Option<u64> {
    let mut sum = 0_u64;
    for line in report.lines() {
        sum = sum.checked_add(minutes_in(line)?)?;
    }
    Some(sum)
}

/// What a unit costs, if a line tells of one that has slots.
fn minutes_in(line: &str) -> Option<u64> {
    if !line.starts_with("UNIT ") || !matches!(word(line, 4), "KEPT" | "HISTORIC" | "MOVED") {
        return Some(0);
    }
    let due = number(line, 6)?.checked_mul(number(line, 8)?)?;
    if number(line, 10) == Some(due) {
        Some(due)
    } else {
        None
    }
}

fn units_with(report: &str, outcome: &str) -> u64 {
    let mut count = 0_u64;
    for line in report.lines() {
        let is_of = line.starts_with("UNIT ") && word(line, 4) == outcome;
        count = count.saturating_add(u64::from(is_of));
    }
    count
}

/// Whether a line says that something cheaper fits in a stage that is settled.
fn has_cheaper(report: &str) -> bool {
    has_cheaper_in(report, "STAGE 1 OPTIMAL ", "FITS 1 ")
        || has_cheaper_in(report, "STAGE 2 OPTIMAL ", "FITS 2 ")
        || has_cheaper_in(report, "STAGE 3 OPTIMAL ", "FITS 3 ")
        || has_cheaper_in(report, "STAGE 4 OPTIMAL ", "FITS 4 ")
}

fn has_cheaper_in(report: &str, stage: &str, line: &str) -> bool {
    count_of(report, stage) > 0 && count_of(report, line) > 0
}

/// A season was made: its files are those of the rule.
pub fn made(alloc: Global, words: &str, seen: &Seen) -> Result<&'static str, RunFault> {
    let units = number(words, 2).unwrap_or(0);
    let is_capacity = is_made_capacity(alloc, units, seen.after("CAP"))?;
    let are_requests = are_made_requests(alloc, words, seen.after("SCR"))?;
    Ok(law(is_capacity && are_requests, "a made season"))
}

fn is_made_capacity(alloc: Global, units: u64, found: &str) -> Result<bool, Memory> {
    let capacity = made_capacity(alloc, units)?;
    Ok(capacity.as_str() == found)
}

fn are_made_requests(alloc: Global, words: &str, found: &str) -> Result<bool, Memory> {
    let requests = requests_of(alloc, words)?;
    Ok(requests.as_str() == found)
}

/// The requests of the season that words name.
fn requests_of(alloc: Global, words: &str) -> Result<String, Memory> {
    let seed = number(words, 1).unwrap_or(0);
    let units = number(words, 2).unwrap_or(0);
    made_requests(alloc, seed, units)
}

/// A season was tried: what was printed of its stages is what `allocate` prints of its files, and
/// the nodes are those of the certificate that it writes.
pub fn tried<R: Threads + Wait + Sync>(
    rt: &R,
    alloc: Global,
    words: &str,
    seen: &Seen,
) -> Result<&'static str, RunFault> {
    let mut given = Given::new(alloc, 400_000);
    put_made(alloc, words, &mut given)?;
    tried_on(rt, alloc, &given, seen)
}

fn tried_on<R: Threads + Wait + Sync>(
    rt: &R,
    alloc: Global,
    given: &Given,
    seen: &Seen,
) -> Result<&'static str, RunFault> {
    let due = text_of_run(rt, alloc, TRIED, given, Wanted::Trial)?;
    Ok(law(is_trial(alloc, seen, &due)?, "a trial"))
}

/// Whether a trial ended with a status and printed what it is due to.
fn is_trial(alloc: Global, seen: &Seen, due: &str) -> Result<bool, Memory> {
    let (status, said) = (seen.status, seen.said.as_str());
    let found = format!(in alloc; "{status} {said}")?;
    Ok(found.as_str() == due)
}

/// The words of `allocate` with the budget of a trial.
const TRIED: &str = "allocate CAP SCR CERT REPLIES --workers 1 --nodes 10000";

/// Puts the files of the season that words name.
fn put_made(alloc: Global, words: &str, given: &mut Given) -> Result<(), Memory> {
    let units = number(words, 2).unwrap_or(0);
    given.put(alloc, "CAP", made_capacity(alloc, units)?.into_bytes())?;
    given.put(alloc, "SCR", requests_of(alloc, words)?.into_bytes())
}
