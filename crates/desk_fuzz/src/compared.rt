//! A run of which calls fail, beside the same run of which none does.

use crate::laws::{first_of, law};
use crate::plain::first_line;
use desk_outside::{Cabinet, Sink};
use drawn_worlds::{Command, are_same, begins, word};
use memory_desk::{Given, RunEnd};

/// The name of the first law that the run with failing calls breaks, or nothing: where none of them
/// came it is the other run; where the sink failed the files are the other's, and a front of its
/// text went out; where a write failed the files before it are the other's, its own is as before or
/// a front of the other's, and those behind it are as before.
pub fn broken_beside(
    command: Command,
    given: &Given,
    calm: &RunEnd,
    ran: &RunEnd,
    said: &str,
) -> &'static str {
    match ran.status {
        5 if said.ends_with("WRITE\n") => {
            let failed = word(first_line(said), 1);
            law(
                are_written_up_to(command, given, calm, ran, failed),
                "a failed write",
            )
        }
        6 => broken_put(command, calm, ran),
        _ if ran.cabinet.faults() > 0 || ran.sink.faults() > 0 => "",
        _ => broken_other(command, calm, ran),
    }
}

fn broken_put(command: Command, calm: &RunEnd, ran: &RunEnd) -> &'static str {
    let is_front = calm.sink.bytes().starts_with(ran.sink.bytes());
    first_of(
        law(is_front, "a failed put"),
        law(
            are_files_of(command, calm, ran),
            "files behind a failed put",
        ),
    )
}

fn broken_other(command: Command, calm: &RunEnd, ran: &RunEnd) -> &'static str {
    if calm.status != ran.status {
        "another status"
    } else if calm.sink.bytes() != ran.sink.bytes() {
        "another text"
    } else {
        law(are_files_of(command, calm, ran), "other files")
    }
}

/// Whether both runs left the same files.
fn are_files_of(command: Command, calm: &RunEnd, ran: &RunEnd) -> bool {
    for name in command.writes().split_whitespace() {
        if !are_same(calm.cabinet.file(name), ran.cabinet.file(name)) {
            return false;
        }
    }
    true
}

fn are_written_up_to(
    command: Command,
    given: &Given,
    calm: &RunEnd,
    ran: &RunEnd,
    failed: &str,
) -> bool {
    let mut is_behind = false;
    for name in command.writes().split_whitespace() {
        let left = ran.cabinet.file(name);
        let due = calm.cabinet.file(name);
        let is_failed = name == failed;
        if !is_written(given.file(name), due, left, is_failed, is_behind) {
            return false;
        }
        is_behind = is_behind || is_failed;
    }
    true
}

/// Whether a file is left as it is due: the failed one as before, or a front of the other run's;
/// one behind it as before; one before it as the other run's.
fn is_written(
    before: Option<&[u8]>,
    due: Option<&[u8]>,
    left: Option<&[u8]>,
    is_failed: bool,
    is_behind: bool,
) -> bool {
    if is_failed {
        are_same(before, left) || begins(left, due)
    } else if is_behind {
        are_same(before, left)
    } else {
        are_same(due, left)
    }
}
