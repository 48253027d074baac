//! Records: their asks and answers, as messages of one ask each, so that `amend` can be asked anew.

use crate::printed::nodes_of;
use desk_outside::{Cabinet, Sink};
use drawn_worlds::{Command, HEAD, copied, file_text, number, put_bytes, put_text};
use memory_desk::{Given, RunEnd, RunFault, run_desk};
use slot_text::Memory;
use std::alloc::Global;
use std::sync::Wait;
use std::thread::Threads;
use worker_gate::RealGate;

/// What a line of a record is read as, after the lines before it.
#[derive(Clone, Copy)]
enum Next {
    Nothing,
    Ask,
    Request,
    Answer,
}

impl Next {
    fn is_answer(self) -> bool {
        match self {
            Next::Answer => true,
            _ => false,
        }
    }
}

/// The asks of a record, each a message of its own, and the answers that are due.
#[derive(Drop)]
pub struct History {
    pub asks: String,
    pub due: String,
    next: Next,
}

impl History {
    /// One more line of a record.
    fn take(&mut self, line: &str) -> Result<(), Memory> {
        if line.starts_with("ENTRY ") {
            return self.begin();
        }
        if self.next.is_answer() {
            push_line(&mut self.due, line)?;
        } else {
            push_line(&mut self.asks, line)?;
        }
        self.next = behind(self.next, line);
        Ok(())
    }

    /// The headers of an ask and of its answer.
    fn begin(&mut self) -> Result<(), Memory> {
        self.end()?;
        self.asks.push_str(HEAD)?;
        self.due.push_str(HEAD)?;
        self.next = Next::Ask;
        Ok(())
    }

    /// The empty line behind an ask and its answer.
    fn end(&mut self) -> Result<(), Memory> {
        match self.next {
            Next::Nothing => Ok(()),
            _ => {
                self.asks.push('\n')?;
                self.due.push('\n')?;
                Ok(())
            }
        }
    }
}

/// Appends a line.
pub fn push_line(text: &mut String, line: &str) -> Result<(), Memory> {
    text.push_str(line)?;
    text.push('\n')?;
    Ok(())
}

/// The history of the first entries of a record, at most so many.
pub fn history_of(alloc: Global, record: &str, most: u64) -> Result<History, Memory> {
    let mut history = History {
        asks: String::new(alloc),
        due: String::new(alloc),
        next: Next::Nothing,
    };
    read_history(&mut history, record, most)?;
    Ok(history)
}

fn read_history(history: &mut History, record: &str, most: u64) -> Result<(), Memory> {
    for line in record.lines() {
        if line.starts_with("ENTRY ") && number(line, 1).unwrap_or(u64::MAX) > most {
            return history.end();
        }
        history.take(line)?;
    }
    history.end()
}

/// What `amend` answers to these asks, beside the files that are given.
pub fn answers_to<R: Threads + Wait + Sync>(
    rt: &R,
    alloc: Global,
    given: &Given,
    asks: &str,
) -> Result<String, RunFault> {
    let mut world = copied(alloc, given)?;
    put_bytes(alloc, &mut world, "ASKS", asks.as_bytes())?;
    text_of_run(rt, alloc, Command::Amend.words(), &world, Wanted::Answers)
}

/// What is wanted of a run, as one text: its status and what it printed; the answers that it wrote;
/// or what a trial is due to print where this run allotted its season.
#[derive(Clone, Copy)]
pub enum Wanted {
    Said,
    Answers,
    Trial,
}

/// Runs the desk: what is wanted of the run.
pub fn text_of_run<R: Threads + Wait + Sync>(
    rt: &R,
    alloc: Global,
    words: &str,
    given: &Given,
    wanted: Wanted,
) -> Result<String, RunFault> {
    let ran = run_desk(rt, alloc, words, given, &RealGate)?;
    wanted_text(alloc, &ran, wanted)
}

fn wanted_text(alloc: Global, ran: &RunEnd, wanted: Wanted) -> Result<String, RunFault> {
    let mut text = String::new(alloc);
    put_wanted(alloc, &mut text, ran, wanted)?;
    Ok(text)
}

fn put_wanted(
    alloc: Global,
    text: &mut String,
    ran: &RunEnd,
    wanted: Wanted,
) -> Result<(), Memory> {
    match wanted {
        Wanted::Said => put_said(text, ran),
        Wanted::Answers => put_text(text, ran.cabinet.file("ANSWERS").unwrap_or(b"")),
        Wanted::Trial => {
            put_said(text, ran)?;
            put_nodes(alloc, text, ran.cabinet.file("CERT"))
        }
    }
}

fn put_said(text: &mut String, ran: &RunEnd) -> Result<(), Memory> {
    let status = ran.status;
    write!(text, "{status} ")?;
    put_text(text, ran.sink.bytes())
}

/// What a trial prints behind the lines of stages.
fn put_nodes(alloc: Global, text: &mut String, certificate: Option<&[u8]>) -> Result<(), Memory> {
    let certificate = file_text(alloc, certificate)?;
    let nodes = nodes_of(&certificate);
    write!(text, "NODES {nodes}\nCHECK YES\n")?;
    Ok(())
}

/// The answer lines of one caller of a record, in their order.
pub fn own_lines(alloc: Global, record: &str, caller: u64) -> Result<String, Memory> {
    let mut text = String::new(alloc);
    put_own(&mut text, record, caller)?;
    Ok(text)
}

fn put_own(text: &mut String, record: &str, caller: u64) -> Result<(), Memory> {
    let mut next = Next::Nothing;
    let mut is_own = false;
    for line in record.lines() {
        if line.starts_with("ENTRY ") {
            is_own = number(line, 3) == Some(caller);
        } else if is_own && next.is_answer() {
            push_line(text, line)?;
        }
        next = behind(next, line);
    }
    Ok(())
}

/// What comes behind a line of a record.
fn behind(next: Next, line: &str) -> Next {
    match next {
        _ if line.starts_with("ENTRY ") => Next::Ask,
        Next::Ask if line.starts_with('C') => Next::Request,
        _ => Next::Answer,
    }
}

/// Appends the lines of replies without their headers, and without those of bad messages.
pub fn put_replies(text: &mut String, replies: &str) -> Result<(), Memory> {
    for line in replies.lines() {
        if !line.starts_with("BAD ") && !is_header(line) {
            push_line(text, line)?;
        }
    }
    Ok(())
}

fn is_header(line: &str) -> bool {
    line.len() < 6
}
