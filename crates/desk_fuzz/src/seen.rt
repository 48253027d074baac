//! What the laws look at of a run: its files and what it printed, as texts.

use desk_outside::{Cabinet, Sink};
use drawn_worlds::{Command, put_text};
use memory_desk::{Given, RunEnd};
use slot_text::Memory;
use std::alloc::Global;

/// The text of a file, by its name.
#[derive(Drop)]
struct Text {
    name: &'static str,
    text: String,
}

/// The status with which a run ended, what it printed, the files before it, and those that its
/// command writes behind it.
#[derive(Drop)]
pub struct Seen {
    pub status: u8,
    pub said: String,
    before: Vec<Text>,
    after: Vec<Text>,
}

impl Seen {
    /// Nothing was looked at yet.
    pub fn new(alloc: Global) -> Seen {
        Seen {
            status: 0,
            said: String::new(alloc),
            before: Vec::new(alloc),
            after: Vec::new(alloc),
        }
    }

    /// Looks at a run of a command.
    pub fn look(
        &mut self,
        alloc: Global,
        command: Command,
        given: &Given,
        ran: &RunEnd,
    ) -> Result<(), Memory> {
        self.status = ran.status;
        put_text(&mut self.said, ran.sink.bytes())?;
        for name in looked_at(command).split_whitespace() {
            put_file(alloc, &mut self.before, name, given.file(name))?;
        }
        for name in command.writes().split_whitespace() {
            put_file(alloc, &mut self.after, name, ran.cabinet.file(name))?;
        }
        Ok(())
    }

    /// The text of a file before the run; empty where it is not there.
    pub fn before(&self, name: &str) -> &str {
        text_in(&self.before, name)
    }

    /// The text of a file behind the run; empty where it is not there.
    pub fn after(&self, name: &str) -> &str {
        text_in(&self.after, name)
    }
}

/// The files before a run that laws look at.
fn looked_at(command: Command) -> &'static str {
    match command {
        Command::Report => "CAP SCR CERT",
        _ => "CAP SCR ASKS OPERATED RECORD",
    }
}

fn put_file(
    alloc: Global,
    files: &mut Vec<Text>,
    name: &'static str,
    bytes: Option<&[u8]>,
) -> Result<(), Memory> {
    let mut text = String::new(alloc);
    put_text(&mut text, bytes.unwrap_or(b""))?;
    files.push(Text { name, text })?;
    Ok(())
}

fn text_in<'a>(files: &'a [Text], name: &str) -> &'a str {
    for file in files {
        if file.name == name {
            return file.text.as_str();
        }
    }
    ""
}
