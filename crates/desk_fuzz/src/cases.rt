//! One case: a command on a drawn world, first where no call fails, and then where one may.

use crate::answers::{amended, recleared, resumed, served, watched};
use crate::compared::broken_beside;
use crate::general::{broken_law, is_refused_behind};
use crate::laws::{first_of, law};
use crate::seen::Seen;
use crate::sent::is_front_of;
use crate::works::{allotted, checked, inspected, made, reported, tried};
use desk_outside::Failure;
use drawn_worlds::{COMMANDS, Command, Draws, damage_world, whole_world};
use memory_desk::{Fails, Given, NO_FAILS, RunEnd, RunFault, run_desk};
use slot_text::Memory;
use std::alloc::Global;
use std::sync::Wait;
use std::thread::Threads;
use worker_gate::RealGate;

/// The statuses of a desk are below this.
pub const STATUSES: usize = 16;

/// A case: its command with its words, what of its world is damaged, and whether its words are such
/// that they are refused.
#[derive(Drop)]
struct Case {
    command: Command,
    words: String,
    refused: bool,
    damaged: &'static str,
}

/// The name of the first law that a case breaks, or nothing. The statuses of its runs are counted.
pub fn broken_case<R: Threads + Wait + Sync>(
    rt: &R,
    alloc: Global,
    number: u64,
    counts: &mut [u64],
) -> Result<&'static str, RunFault> {
    let mut draws = Draws::new(number, 0);
    let place = draws.place(COMMANDS.len());
    let mut case = Case {
        command: COMMANDS.get(place).copied().unwrap_or(Command::Check),
        words: String::new(alloc),
        refused: false,
        damaged: "",
    };
    broken_drawn(rt, alloc, &mut draws, number, &mut case, counts)
}

/// Draws the words and the world of a case, and runs it.
fn broken_drawn<R: Threads + Wait + Sync>(
    rt: &R,
    alloc: Global,
    draws: &mut Draws,
    number: u64,
    case: &mut Case,
    counts: &mut [u64],
) -> Result<&'static str, RunFault> {
    put_words(draws, &mut case.words, case.command)?;
    if draws.once_in(25) {
        case.refused = true;
        put_more(draws, &mut case.words)?;
    }
    let mut given = whole_world(rt, alloc, draws, number, case.command)?;
    broken_given(rt, alloc, draws, case, &mut given, counts)
}

/// Damages half of the worlds, and runs the case.
fn broken_given<R: Threads + Wait + Sync>(
    rt: &R,
    alloc: Global,
    draws: &mut Draws,
    case: &mut Case,
    given: &mut Given,
    counts: &mut [u64],
) -> Result<&'static str, RunFault> {
    if draws.once_in(2) {
        case.damaged = damage_world(alloc, draws, case.command, given)?;
    }
    broken_runs(rt, alloc, draws, case, given, counts)
}

/// Words more than a command has.
fn put_more(draws: &mut Draws, words: &mut String) -> Result<(), Memory> {
    let more = draws.pick(&["MORE", "--nodes 0", "--help", "-x", "--links=1001", "--"]);
    write!(words, " {more} X")?;
    Ok(())
}

/// Appends the words of a command.
fn put_words(draws: &mut Draws, words: &mut String, command: Command) -> Result<(), Memory> {
    let seed = draws.below(65_537);
    let units = draws.below(6).wrapping_add(1);
    let nodes = draws.pick(&["1", "2", "200"]);
    match command {
        Command::Allocate => {
            write!(
                words,
                "allocate CAP SCR CERT REPLIES --workers 1 --nodes {nodes}"
            )?;
        }
        Command::Reclear => {
            let files = "CAP SCR CERT ASKS EXTRA REPLIES";
            write!(words, "reclear {files} --workers 1 --nodes {nodes}")?;
        }
        Command::Make => write!(words, "make {seed} {units} CAP SCR")?,
        Command::Trial => write!(words, "trial {seed} {units}")?,
        _ => words.push_str(command.words())?,
    }
    Ok(())
}

/// The run where no call fails, and the one where one may.
fn broken_runs<R: Threads + Wait + Sync>(
    rt: &R,
    alloc: Global,
    draws: &mut Draws,
    case: &Case,
    given: &mut Given,
    counts: &mut [u64],
) -> Result<&'static str, RunFault> {
    given.fails = NO_FAILS;
    let calm = counted_run(rt, alloc, case, given, counts)?;
    broken_beside_calm(rt, alloc, draws, case, given, &calm, counts)
}

/// The first law that the run without failing calls breaks, or else the one with them.
fn broken_beside_calm<R: Threads + Wait + Sync>(
    rt: &R,
    alloc: Global,
    draws: &mut Draws,
    case: &Case,
    given: &mut Given,
    calm: &RunEnd,
    counts: &mut [u64],
) -> Result<&'static str, RunFault> {
    let first = broken_run(rt, alloc, case, given, None, calm)?;
    if !first.is_empty() {
        return Ok(first);
    }
    given.fails = drawn_fails(draws, case.command, given.journal.is_some());
    broken_second(rt, alloc, case, given, calm, counts)
}

/// The run where one call may fail, beside the one where none does.
fn broken_second<R: Threads + Wait + Sync>(
    rt: &R,
    alloc: Global,
    case: &Case,
    given: &Given,
    calm: &RunEnd,
    counts: &mut [u64],
) -> Result<&'static str, RunFault> {
    let ran = counted_run(rt, alloc, case, given, counts)?;
    broken_run(rt, alloc, case, given, Some(calm), &ran)
}

/// Runs the desk, and counts the status.
fn counted_run<R: Threads + Wait + Sync>(
    rt: &R,
    alloc: Global,
    case: &Case,
    given: &Given,
    counts: &mut [u64],
) -> Result<RunEnd, RunFault> {
    let ran = run_desk(rt, alloc, case.words.as_str(), given, &RealGate)?;
    note(counts, case.command, ran.status);
    Ok(ran)
}

/// Counts a status of a command.
fn note(counts: &mut [u64], command: Command, status: u8) {
    let place = command.place().saturating_mul(STATUSES);
    if let Some(count) = counts.get_mut(place.saturating_add(usize::from(status))) {
        *count = count.saturating_add(1);
    }
}

/// A call of one object that is to fail.
fn drawn_fails(draws: &mut Draws, command: Command, has_disk: bool) -> Fails {
    let part = if draws.once_in(2) {
        None
    } else {
        Some(draws.place(40))
    };
    let serves = command == Command::Serve || command == Command::Resume;
    let mut fails = NO_FAILS;
    match draws.below(5) {
        0 => fails.sink = Some(Failure {
            call: draws.below(2),
            part,
        }),
        1 if serves => fails.accept = Some(Failure {
            call: draws.below(3),
            part,
        }),
        2 if serves => fails.link = Some(Failure {
            call: draws.below(9),
            part,
        }),
        3 if has_disk => {
            fails.disk = Some(Failure {
                call: draws.below(30),
                part,
            });
        }
        _ => fails.cabinet = Some(Failure {
            call: draws.below(8),
            part,
        }),
    }
    fails
}

/// The first law that a run breaks: where calls may fail, beside the one where none does.
fn broken_run<R: Threads + Wait + Sync>(
    rt: &R,
    alloc: Global,
    case: &Case,
    given: &Given,
    calm: Option<&RunEnd>,
    ran: &RunEnd,
) -> Result<&'static str, RunFault> {
    let mut seen = Seen::new(alloc);
    seen.look(alloc, case.command, given, ran)?;
    broken_seen(rt, alloc, case, given, calm, ran, &seen)
}

fn broken_seen<R: Threads + Wait + Sync>(
    rt: &R,
    alloc: Global,
    case: &Case,
    given: &Given,
    calm: Option<&RunEnd>,
    ran: &RunEnd,
    seen: &Seen,
) -> Result<&'static str, RunFault> {
    let general = broken_law(alloc, case.command, given, ran, seen)?;
    if !general.is_empty() {
        return Ok(general);
    }
    match calm {
        Some(calm) => broken_failing(rt, alloc, case, given, calm, ran, seen),
        None => broken_calm(rt, alloc, case, given, ran, seen),
    }
}

/// The first law that a run breaks where no call fails.
fn broken_calm<R: Threads + Wait + Sync>(
    rt: &R,
    alloc: Global,
    case: &Case,
    given: &Given,
    ran: &RunEnd,
    seen: &Seen,
) -> Result<&'static str, RunFault> {
    if case.refused {
        return Ok(law(ran.status == 2, "words that are no command's"));
    }
    let refusal = broken_refusal(case, ran.status, &seen.said);
    let work = broken_work(rt, alloc, case, given, ran, seen)?;
    Ok(first_of(refusal, work))
}

/// The first law that a refusal breaks where no call fails.
fn broken_refusal(case: &Case, status: u8, said: &str) -> &'static str {
    let is_done = case.command.ends(status) || status == 15;
    let is_behind = is_refused_behind(case.command, case.damaged, status, said);
    first_of(
        law(
            is_done || !case.damaged.is_empty(),
            "a refused world that is whole",
        ),
        law(is_behind, "a refused file that is whole"),
    )
}

/// The first law that work which is done breaks, or a refusal that another command gives too.
fn broken_work<R: Threads + Wait + Sync>(
    rt: &R,
    alloc: Global,
    case: &Case,
    given: &Given,
    ran: &RunEnd,
    seen: &Seen,
) -> Result<&'static str, RunFault> {
    let command = case.command;
    if command == Command::Inspect {
        return inspected(rt, alloc, given, seen, case.damaged.is_empty());
    }
    if !command.ends(ran.status) && ran.status != 13 {
        return Ok("");
    }
    match command {
        Command::Allocate => allotted(rt, alloc, given, ran, seen),
        Command::Check => checked(rt, alloc, given, seen),
        Command::Amend => amended(rt, alloc, given, seen, case.damaged),
        Command::Serve => served(rt, alloc, given, ran, seen, case.damaged),
        Command::Resume => resumed(rt, alloc, given, ran, seen, case.damaged),
        Command::Usage => watched(rt, alloc, given, seen, case.damaged),
        Command::Reclear => recleared(rt, alloc, given, ran, seen),
        Command::Report => reported(alloc, seen),
        Command::Make => made(alloc, case.words.as_str(), seen),
        Command::Trial => tried(rt, alloc, case.words.as_str(), seen),
        Command::Recheck | Command::Inspect => Ok(""),
    }
}

/// The first law that a run breaks of which calls may fail.
fn broken_failing<R: Threads + Wait + Sync>(
    rt: &R,
    alloc: Global,
    case: &Case,
    given: &Given,
    calm: &RunEnd,
    ran: &RunEnd,
    seen: &Seen,
) -> Result<&'static str, RunFault> {
    let fails = given.fails;
    let is_session = fails.accept.is_some() || fails.link.is_some() || fails.disk.is_some();
    if !is_session && given.clients.len() < 2 {
        return Ok(broken_beside(case.command, given, calm, ran, &seen.said));
    }
    if case.refused || !case.command.ends(ran.status) {
        return Ok("");
    }
    let sent = law(is_front_of(calm, ran), "what a first link was sent");
    let work = broken_work(rt, alloc, case, given, ran, seen)?;
    Ok(first_of(sent, work))
}
