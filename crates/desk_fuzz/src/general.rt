//! What holds of each run of the desk, whatever it was given: its status is one of the command's,
//! what was printed is of that status and names what it may, a fault is answered only where a call
//! failed, no file but those that the command writes has other bytes than before, and the disk is
//! where it was.

use crate::laws::{first_of, law};
use crate::plain::first_line;
use crate::refusals::{is_cause, is_named};
use crate::seen::Seen;
use desk_disk::Disk;
use desk_links::Door;
use desk_outside::{Cabinet, Sink};
use drawn_worlds::{Command, are_same, has_name, word};
use memory_desk::{Given, RunEnd};
use slot_text::Memory;
use std::alloc::Global;

/// The name of the first law that a run breaks, or nothing.
pub fn broken_law(
    alloc: Global,
    command: Command,
    given: &Given,
    ran: &RunEnd,
    seen: &Seen,
) -> Result<&'static str, Memory> {
    let said = seen.said.as_str();
    let status = ran.status;
    let is_named = is_named(alloc, command, given, seen)?;
    let first = first_of(
        law(may_end(command, status), "status"),
        law(is_text_of(command, status, said), "text"),
    );
    let second = first_of(law(is_named, "name"), law(has_cause(ran, said), "cause"));
    let third = first_of(
        law(are_files_left(command, given, ran, said), "files"),
        law(is_disk_back(command, given, ran), "disk"),
    );
    let told = law(tells_why(command, seen), "why");
    Ok(first_of(first_of(first, second), first_of(third, told)))
}

/// Whether `inspect` says why it refuses.
fn tells_why(command: Command, seen: &Seen) -> bool {
    let tells = command == Command::Inspect && (seen.status == 3 || seen.status == 4);
    !tells || is_cause(seen)
}

/// Whether a command may end with a status.
fn may_end(command: Command, status: u8) -> bool {
    let reads = command.reads();
    match status {
        1 => has_name(reads, "CERT"),
        2 | 6 => true,
        3 | 4 => !reads.is_empty(),
        5 => command != Command::Trial,
        13 | 14 => command == Command::Resume,
        15 => command == Command::Usage,
        _ => command.ends(status),
    }
}

/// Whether a text is printed at a status: at a refusal one line, or two where a command says why.
fn is_text_of(command: Command, status: u8, said: &str) -> bool {
    let begin = match status {
        1 => "NO ",
        2 => "WORDS\n",
        3 => "FORM ",
        4 => "LIMIT ",
        5 => "CABINET ",
        13 => "JOURNAL ",
        15 => "NEXT NONE\n",
        _ => return status == 6 || are_done_lines(command, status, said),
    };
    let tells_why = command == Command::Inspect && (status == 3 || status == 4);
    let lines = if tells_why { 2 } else { 1 };
    said.starts_with(begin) && said.ends_with('\n') && said.lines().count() == lines
}

/// Whether a text is one of work that is done.
fn are_done_lines(command: Command, status: u8, said: &str) -> bool {
    let begins = match command {
        Command::Allocate => "STAGE 1 ",
        Command::Trial => "STAGE 1 ",
        Command::Check | Command::Recheck => "YES\n",
        Command::Amend | Command::Serve => "ENTRIES ",
        Command::Resume if status == 14 && said == "JOURNAL FAULT\n" => "JOURNAL FAULT\n",
        Command::Resume => "KEPT ",
        Command::Usage => "SERIES ",
        Command::Reclear => "WAITING ",
        Command::Report => "UNITS ",
        Command::Inspect => "AIRPORT ",
        Command::Make => "",
    };
    let ends = said.ends_with('\n') || command == Command::Make && said.is_empty();
    said.starts_with(begins) && ends
}

/// Whether what was refused where no call failed is the file that was damaged, or one behind it, by
/// the order in which the command reads. What a client says and a journal stand behind all files.
pub fn is_refused_behind(command: Command, damaged: &str, status: u8, said: &str) -> bool {
    let second = word(first_line(said), 1);
    let refused = match status {
        1 if second == "EXTRA" => "EXTRA",
        1 => "CERT",
        3 | 5 => second,
        4 => limited_file(second),
        _ => return true,
    };
    place_in(command.reads(), damaged) <= place_in(command.reads(), refused)
}

/// The file that passes a limit.
fn limited_file(limit: &str) -> &'static str {
    match limit {
        "UNITS" => "SCR",
        "WAITING" => "ASKS",
        _ => "CAP",
    }
}

/// The place of a name among names; behind them all where it is none of them.
fn place_in(names: &str, name: &str) -> usize {
    for (place, one) in names.split_whitespace().enumerate() {
        if one == name {
            return place;
        }
    }
    names.len()
}

/// Whether calls failed where the status says so, and none where it says that none did.
fn has_cause(ran: &RunEnd, said: &str) -> bool {
    let cabinet = ran.cabinet.faults() > 0;
    let sink = ran.sink.faults() > 0;
    let doors = have_doors_failed(ran);
    let disk = has_disk_failed(ran);
    let was_told = said.ends_with("READ\n") || said.ends_with("WRITE\n");
    let status = ran.status;
    let is_cut = status == 5 || status == 6;
    let exact = (status == 6) == sink && (status != 5 || was_told == cabinet);
    let calm = (is_cut || !cabinet) && (is_cut || status == 10 || status == 14 || !doors);
    let disks = (is_cut || status == 14 || !disk) && (status != 14 || disk);
    exact && calm && disks && (status != 10 || doors)
}

/// Whether there is a disk exactly where one was given, which no command but `resume` asked.
fn is_disk_back(command: Command, given: &Given, ran: &RunEnd) -> bool {
    match (&given.journal, &ran.disk) {
        (Some(before), Some(disk)) => {
            command == Command::Resume || disk.faults() == 0 && disk.bytes() == before.as_slice()
        }
        (None, None) => true,
        _ => false,
    }
}

fn have_doors_failed(ran: &RunEnd) -> bool {
    for door in &ran.doors {
        if door.faults() > 0 {
            return true;
        }
    }
    false
}

fn has_disk_failed(ran: &RunEnd) -> bool {
    match &ran.disk {
        Some(disk) => disk.faults() > 0,
        None => false,
    }
}

/// The names that any command gives to a file, and the one of a file that is away.
const NAMES: [&str; 13] = [
    "CAP", "SCR", "CERT", "REPLIES", "ASKS", "ANSWERS", "OPERATED", "NEXT", "EXTRA", "RECORD",
    "REPORT", "PAGE", "AWAY",
];

/// Whether each file is as it was, but for those that the command writes, and these too where it
/// was refused before its writes.
fn are_files_left(command: Command, given: &Given, ran: &RunEnd, said: &str) -> bool {
    let refused = match ran.status {
        1 | 2 | 3 | 4 | 13 | 15 => true,
        5 => !said.ends_with("WRITE\n"),
        14 => said == "JOURNAL FAULT\n",
        _ => false,
    };
    for name in NAMES {
        let may_change = !refused && has_name(command.writes(), name);
        if !may_change && !is_file_left(given, ran, name) {
            return false;
        }
    }
    true
}

fn is_file_left(given: &Given, ran: &RunEnd, name: &str) -> bool {
    are_same(given.file(name), ran.cabinet.file(name))
}
