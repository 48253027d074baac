//! Scripts of runs of the desk.
//!
//! A line of a script is a word and what follows it. In a text `;` stands for LF, `~` for CR, `^`
//! for the byte 255, and `{3 AB}` for `AB` three times.
//! - `file NAME TEXT` puts a file into the cabinet of each run below.
//! - `words WORDS` sets the words of each run below.
//! - `says SAID` runs the desk, and wants this status and this printed text.
//! - `again` runs the desk, and wants what the last run said.
//! - `line OLD|NEW|SAID` runs it where the lines OLD of each file are NEW; OLD may be the numbers
//!   of a first and a last line, as `3-5`, and NEW may be `(none)`.
//! - `cabinet CALL|SAID` and `sink CALL|SAID` run it where this call fails; `2:6` is call 2, which
//!   takes six bytes.
//! - `fronts NAME` runs it with each front of this file, which fails at its first line that is not
//!   whole.
//! - `holds NAME TEXT` wants this text of a file after the last run, `(none)` where there is none.
//! - `take NAME` puts this file, as the last run left it, into the cabinet of each run below.
//! - `door INPUT|INPUT` gives each run below one door more, with a link of each of these inputs;
//!   `shut` takes all doors away; `piece N` lets each take of a link give N bytes at most, 0 all.
//! - `accept CALL|SAID` and `link CALL|SAID` run it where this accept of the first door fails, or
//!   this call of that door's first link.
//! - `sent DOOR LINK TEXT` wants that this link was sent this text in the last run.
//! - `journal` gives each run below a disk with an empty file; `kept N`, the last line about a run,
//!   lets a desk without clients open what the run left there, and wants that it finds N pairs.
//!
//! In what is wanted `*` stands for any text. Each certificate that a run wrote is checked.

use crate::desk_calls::{bytes_of, call_alone, call_with_disk, disk_of, door_of, new_cabinet};
use crate::texts::{edited, fits, folded, spelled_out};
use desk_disk::MemoryDisk;
use desk_links::MemoryDoor;
use desk_outside::{Failure, MemoryCabinet};
use memory_desk::{Fails, NO_FAILS};
use std::alloc::Global;
use std::process::Abort;
use std::sync::Wait;
use std::thread::Threads;
use worker_gate::RealGate;

/// A file of a script, by its text.
#[derive(Drop)]
struct File {
    name: String,
    text: String,
}

/// What the lines of a script have set so far, and what the last run said and left.
#[derive(Drop)]
struct Play {
    files: Vec<File>,
    words: String,
    said: String,
    cabinet: MemoryCabinet,
    clients: Vec<String>,
    piece: usize,
    doors: Vec<MemoryDoor>,
    is_journaled: bool,
    disk: Option<MemoryDisk>,
}

/// Plays a script, and fails with the first of its lines that is not as it says.
pub(crate) fn play_script<R: Abort + Threads + Wait + Sync>(rt: &R, alloc: Global, script: &str) {
    let mut play = new_play(rt, alloc);
    play_lines(rt, alloc, &mut play, script);
}

/// A play of which no line has set anything.
fn new_play(rt: &impl Abort, alloc: Global) -> Play {
    Play {
        files: Vec::new(alloc),
        words: String::new(alloc),
        said: String::new(alloc),
        cabinet: new_cabinet(rt, alloc, 0, None),
        clients: Vec::new(alloc),
        piece: 0,
        doors: Vec::new(alloc),
        is_journaled: false,
        disk: None,
    }
}

fn play_lines<R: Abort + Threads + Wait + Sync>(
    rt: &R,
    alloc: Global,
    play: &mut Play,
    script: &str,
) {
    for line in script.split('\n') {
        assert!(rt;
            play_line(rt, alloc, play, line),
            "{line} has {}",
            play.said
        );
    }
}

/// Whether a line is as it says.
fn play_line<R: Abort + Threads + Wait + Sync>(
    rt: &R,
    alloc: Global,
    play: &mut Play,
    line: &str,
) -> bool {
    let (word, rest) = line.split_once(' ').unwrap_or((line, ""));
    match word {
        "says" => run_desk(rt, alloc, play, &plain(rest)),
        "again" => run_again(rt, alloc, play),
        "line" | "cabinet" | "sink" | "accept" | "link" => {
            run_desk(rt, alloc, play, &changed_run(rt, word, rest))
        }
        "holds" => is_held(rt, alloc, play, rest),
        "fronts" => is_each_front_refused(rt, alloc, play, rest),
        "sent" => is_sent(rt, alloc, play, rest),
        "kept" => is_kept(rt, alloc, play, rest),
        _ => {
            set(rt, alloc, play, word, rest);
            true
        }
    }
}

/// Sets what each run below has.
fn set(rt: &impl Abort, alloc: Global, play: &mut Play, word: &str, rest: &str) {
    match word {
        "" => {}
        "file" => put_file(rt, alloc, play, rest),
        "words" => play.words = String::from_str(alloc, rest).expect(rt, "memory"),
        "take" => take_file(rt, alloc, play, rest),
        "door" => put_clients(rt, alloc, play, rest),
        "shut" => play.clients = Vec::new(alloc),
        "piece" => play.piece = rest.parse().expect(rt, "a number of bytes"),
        "journal" => play.is_journaled = true,
        _ => panic!(rt; "{word} is no word of a script"),
    }
}

fn put_file(rt: &impl Abort, alloc: Global, play: &mut Play, rest: &str) {
    let (name, text) = rest.split_once(' ').unwrap_or((rest, ""));
    let text = String::from_str(alloc, text).expect(rt, "memory");
    keep_file(rt, alloc, &mut play.files, name, text);
}

/// Keeps a file in place of the one of its name.
fn keep_file(rt: &impl Abort, alloc: Global, files: &mut Vec<File>, name: &str, text: String) {
    match file_of(files.as_mut_slice(), name) {
        Some(file) => file.text = text,
        None => add_file(rt, alloc, files, name, text),
    }
}

fn file_of<'a>(files: &'a mut [File], name: &str) -> Option<&'a mut File> {
    for file in files {
        if file.name.as_str() == name {
            return Some(file);
        }
    }
    None
}

fn add_file(rt: &impl Abort, alloc: Global, files: &mut Vec<File>, name: &str, text: String) {
    let name = String::from_str(alloc, name).expect(rt, "memory");
    files.push(File { name, text }).expect(rt, "memory");
}

fn take_file(rt: &impl Abort, alloc: Global, play: &mut Play, name: &str) {
    let text = file_text(rt, alloc, &play.cabinet, name);
    keep_file(rt, alloc, &mut play.files, name, text);
}

/// The text of a file that a run left.
fn file_text(rt: &impl Abort, alloc: Global, cabinet: &MemoryCabinet, name: &str) -> String {
    match cabinet.file(name) {
        Some(bytes) => folded(rt, alloc, bytes),
        None => String::from_str(alloc, "(none)").expect(rt, "memory"),
    }
}

/// One door more of each run below, with these clients.
fn put_clients(rt: &impl Abort, alloc: Global, play: &mut Play, clients: &str) {
    let clients = String::from_str(alloc, clients).expect(rt, "memory");
    play.clients.push(clients).expect(rt, "memory");
}

/// Whether the last run left this text of a file.
fn is_held(rt: &impl Abort, alloc: Global, play: &mut Play, rest: &str) -> bool {
    let (name, wanted) = rest.split_once(' ').unwrap_or((rest, ""));
    play.said = file_text(rt, alloc, &play.cabinet, name);
    fits(play.said.as_str(), wanted)
}

/// Whether a link of the last run was sent this text.
fn is_sent(rt: &impl Abort, alloc: Global, play: &mut Play, rest: &str) -> bool {
    let (door, rest) = rest.split_once(' ').expect(rt, "a link");
    let (link, wanted) = rest.split_once(' ').unwrap_or((rest, ""));
    let door: usize = door.parse().expect(rt, "the number of a door");
    let link: usize = link.parse().expect(rt, "the number of a link");
    let door = play.doors.get(door).expect(rt, "no such door");
    let link = door.kept().get(link).expect(rt, "no such link");
    play.said = folded(rt, alloc, link.sent());
    fits(play.said.as_str(), wanted)
}

/// Whether a desk without clients finds so many pairs in the journal that the last run left.
fn is_kept<R: Abort + Threads + Wait + Sync>(
    rt: &R,
    alloc: Global,
    play: &mut Play,
    count: &str,
) -> bool {
    reopen(rt, alloc, play);
    play.said = call_with_disk(
        rt,
        alloc,
        "resume CAP SCR CERT JOURNAL RECORD",
        &mut play.cabinet,
        None,
        &mut play.doors,
        &RealGate,
        &mut play.disk,
    );
    has_found(play.said.as_str(), count)
}

/// A disk with what the last run left of it, and no doors.
fn reopen(rt: &impl Abort, alloc: Global, play: &mut Play) {
    let bytes = bytes_of(rt, alloc, &play.disk);
    play.disk = disk_of(rt, alloc, &bytes, None);
    play.doors = Vec::new(alloc);
}

/// Whether a desk without clients said that it found so many pairs.
fn has_found(said: &str, count: &str) -> bool {
    let Some(found) = said.strip_prefix("0 KEPT ") else {
        return false;
    };
    found.strip_suffix(";ENTRIES 0;LINKS 0;") == Some(count)
}

/// A run: the lines that stand in place of others, the calls that fail, and what it is to say.
#[derive(Clone, Copy)]
struct Run<'a> {
    old: &'a str,
    new: &'a str,
    fails: Fails,
    said: &'a str,
}

/// A run on the files as they are, of which these calls fail.
fn failing_run(fails: Fails, said: &str) -> Run<'_> {
    Run {
        old: "",
        new: "",
        fails,
        said,
    }
}

/// A run on the files as they are, of which no call fails.
fn plain(said: &str) -> Run<'_> {
    failing_run(NO_FAILS, said)
}

/// A run with other lines, or of which a call fails.
fn changed_run<'a>(rt: &impl Abort, word: &str, rest: &'a str) -> Run<'a> {
    let (what, said) = rest.split_once('|').expect(rt, "a bar");
    if word == "line" {
        edited_run(rt, what, said)
    } else {
        failing_run(fails_of(word, read_failure(rt, what)), said)
    }
}

/// This call of the cabinet, the sink, the door, or else of its link fails.
fn fails_of(word: &str, failure: Failure) -> Fails {
    let mut fails = NO_FAILS;
    match word {
        "cabinet" => fails.cabinet = Some(failure),
        "sink" => fails.sink = Some(failure),
        "accept" => fails.accept = Some(failure),
        _ => fails.link = Some(failure),
    }
    fails
}

fn edited_run<'a>(rt: &impl Abort, old: &'a str, rest: &'a str) -> Run<'a> {
    let (new, said) = rest.split_once('|').expect(rt, "a second bar");
    Run {
        old,
        new,
        fails: NO_FAILS,
        said,
    }
}

/// A call that fails, and how many bytes it takes.
fn read_failure(rt: &impl Abort, text: &str) -> Failure {
    let Some((call, bytes)) = text.split_once(':') else {
        return Failure::at(read_call(rt, text));
    };
    let bytes: usize = bytes.parse().expect(rt, "a number of bytes");
    Failure::after(read_call(rt, call), bytes)
}

fn read_call(rt: &impl Abort, text: &str) -> u64 {
    text.parse().expect(rt, "the number of a call")
}

/// Runs the desk, and says whether it says what the last run said.
fn run_again<R: Abort + Threads + Wait + Sync>(rt: &R, alloc: Global, play: &mut Play) -> bool {
    let said = play.said.clone().expect(rt, "memory");
    run_desk(rt, alloc, play, &plain(said.as_str()))
}

/// Runs the desk, and says whether it says what it is to say.
fn run_desk<R: Abort + Threads + Wait + Sync>(
    rt: &R,
    alloc: Global,
    play: &mut Play,
    run: &Run<'_>,
) -> bool {
    fill(rt, alloc, play, run);
    play.said = call_with_disk(
        rt,
        alloc,
        play.words.as_str(),
        &mut play.cabinet,
        run.fails.sink,
        &mut play.doors,
        &RealGate,
        &mut play.disk,
    );
    fits(play.said.as_str(), run.said) && has_valid_certificate(rt, alloc, play)
}

/// Gives a run its cabinet, its doors and its disk.
fn fill(rt: &impl Abort, alloc: Global, play: &mut Play, run: &Run<'_>) {
    play.cabinet = filled_cabinet(rt, alloc, &play.files, run);
    play.doors = filled_doors(rt, alloc, &play.clients, play.piece, &run.fails);
    play.disk = if play.is_journaled {
        disk_of(rt, alloc, b"", None)
    } else {
        None
    };
}

/// The doors of a run.
fn filled_doors(
    rt: &impl Abort,
    alloc: Global,
    clients: &[String],
    piece: usize,
    fails: &Fails,
) -> Vec<MemoryDoor> {
    let mut doors = Vec::new(alloc);
    for texts in clients {
        let is_first = doors.is_empty();
        let call = if is_first { fails.link } else { None };
        let accept = if is_first { fails.accept } else { None };
        let door = door_of(rt, alloc, texts.as_str(), piece, call, accept);
        doors.push(door).expect(rt, "memory");
    }
    doors
}

/// A cabinet with the files of a run.
fn filled_cabinet(rt: &impl Abort, alloc: Global, files: &[File], run: &Run<'_>) -> MemoryCabinet {
    let mut cabinet = new_cabinet(rt, alloc, room_for(files, run), run.fails.cabinet);
    load_files(rt, alloc, &mut cabinet, files, run);
    cabinet
}

fn load_files(
    rt: &impl Abort,
    alloc: Global,
    cabinet: &mut MemoryCabinet,
    files: &[File],
    run: &Run<'_>,
) {
    for file in files {
        let text = edited(rt, alloc, file.text.as_str(), run.old, run.new);
        let bytes = spelled_out(rt, alloc, text.as_str());
        let name = file.name.as_str();
        assert!(rt; cabinet.load(name, &bytes), "{name} has no room");
    }
}

/// Room for each file of a run: more where a text repeats a part.
fn room_for(files: &[File], run: &Run<'_>) -> usize {
    if run.new.contains('{') {
        return 4_300_000;
    }
    let mut room = 300_000;
    for file in files {
        if file.text.as_str().contains('{') {
            room = 4_194_305;
        }
    }
    room
}

/// Whether the certificate is valid that the last run wrote, where it wrote one.
fn has_valid_certificate<R: Abort + Threads + Wait + Sync>(
    rt: &R,
    alloc: Global,
    play: &mut Play,
) -> bool {
    if !play.words.as_str().starts_with("allocate CAP SCR CERT ")
        || !play.said.as_str().contains("STAGE 4")
    {
        return true;
    }
    let verdict = call_alone(rt, alloc, "check CAP SCR CERT", &mut play.cabinet);
    verdict.as_str() == "0 YES;"
}

/// Whether the form of a file fails at its first line that is not whole, for each front of it.
fn is_each_front_refused<R: Abort + Threads + Wait + Sync>(
    rt: &R,
    alloc: Global,
    play: &mut Play,
    name: &str,
) -> bool {
    let whole = filled_cabinet(rt, alloc, &play.files, &plain(""));
    let bytes = whole.file(name).expect(rt, "no such file");
    are_fronts_refused(rt, alloc, play, name, bytes)
}

fn are_fronts_refused<R: Abort + Threads + Wait + Sync>(
    rt: &R,
    alloc: Global,
    play: &mut Play,
    name: &str,
    bytes: &[u8],
) -> bool {
    for end in 0..bytes.len() {
        if !is_front_refused(rt, alloc, play, name, &bytes[..end]) {
            return false;
        }
    }
    true
}

/// Whether the form of a file fails at its first line that is not whole, where it has these bytes.
/// What else was said is kept.
fn is_front_refused<R: Abort + Threads + Wait + Sync>(
    rt: &R,
    alloc: Global,
    play: &mut Play,
    name: &str,
    front: &[u8],
) -> bool {
    play.cabinet = filled_cabinet(rt, alloc, &play.files, &plain(""));
    let _ = play.cabinet.load(name, front);
    play.said = call_alone(rt, alloc, play.words.as_str(), &mut play.cabinet);
    is_form_fault(rt, alloc, play.said.as_str(), name, front)
}

/// Whether this was said, that the first line is not whole.
fn is_form_fault(rt: &impl Abort, alloc: Global, said: &str, name: &str, front: &[u8]) -> bool {
    let line = whole_lines(front).saturating_add(1);
    let due = format!(in alloc; "3 FORM {name} {line};").expect(rt, "memory");
    said == due.as_str()
}

/// How many whole lines the bytes have.
fn whole_lines(bytes: &[u8]) -> usize {
    bytes.iter().filter(|b| **b == b'\n').count()
}
