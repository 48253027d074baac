//! Declarations and submissions of worked seasons.

ghost use Rattle.season_days.specs.Capacity.{IsDeclaration};

use crate::lines::put_lines;
use capacity_file::read_capacity;
use scr_reader::laws::read_lines_fit;
use scr_reader::read_all;
use season_days::Declaration;
use series_model::laws::read_messages;
use series_model::{ModelFault, Submission};
use std::alloc::Global;
use std::process::Abort;

/// The submission of season S25 at airport ABC, with a step of five minutes and these lines of its
/// capacity file below the ground time, and of messages.
pub fn submission(rt: &impl Abort, alloc: Global, capacity: &str, messages: &str) -> Submission {
    made(rt, alloc, "S25", capacity, messages).expect(rt, "a submission")
}

/// The same of a season, or why there is none. The messages are a whole text, or the lines of one
/// message below its header.
pub fn made(
    rt: &impl Abort,
    alloc: Global,
    season: &str,
    capacity: &str,
    messages: &str,
) -> Result<Submission, ModelFault> {
    let declaration = declaration(rt, alloc, season, capacity);
    let text = whole(rt, alloc, season, messages);
    with_messages(rt, alloc, declaration, text.as_str())
}

/// The declaration of a season, with these lines of its capacity file below the ground time.
pub fn declaration(rt: &impl Abort, alloc: Global, season: &str, capacity: &str) -> Declaration
    ensures { IsDeclaration result }
{
    let text = capacity_text(rt, alloc, season, capacity);
    assert!(rt; text.len() <= 1_000_000, "too long");
    read_capacity(alloc, text.as_bytes()).expect(rt, "a capacity file")
}

// The text of a capacity file with these lines below the ground time.
fn capacity_text(rt: &impl Abort, alloc: Global, season: &str, capacity: &str) -> String {
    let mut text = format!(in alloc; "AIRPORT ABC\nSEASON {season}\nSTEP 5\nGROUND 40\n").expect(
        rt, "memory",
    );
    put_lines(rt, &mut text, capacity, ';');
    text
}

fn with_messages(
    rt: &impl Abort,
    alloc: Global,
    declaration: Declaration,
    text: &str,
) -> Result<Submission, ModelFault>
    requires { IsDeclaration declaration }
{
    read_lines_fit();
    read_messages();
    assert!(rt; text.len() <= 1_000_000, "too long");
    let messages = read_all(alloc, text.as_bytes()).expect(rt, "messages");
    Submission::make(alloc, declaration, messages)
}

/// The text of messages, with the header of one message where they have none.
pub fn whole(rt: &impl Abort, alloc: Global, season: &str, messages: &str) -> String {
    let mut text = String::new(alloc);
    if !messages.starts_with("SCR") {
        write!(text, "SCR\n{season}\n20NOV\nABC\n").expect(rt, "memory");
    }
    put_lines(rt, &mut text, messages, ';');
    text
}
