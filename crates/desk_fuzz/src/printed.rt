//! Printed lines of stages and of links, counted anew from the files and the doors of a run.

use drawn_worlds::word;
use memory_desk::{Given, RunEnd};
use slot_text::Memory;
use std::alloc::Global;

/// How many links of a door are served at most, by the words of each command that serves clients.
const LINKS: usize = 2;

/// A stage of a certificate: its line, its cost, and its bound.
#[derive(Clone, Copy)]
struct Stage<'a> {
    line: &'a str,
    cost: &'a str,
    bound: &'a str,
}

/// What is printed of the stages that a certificate has, or a stage of a waiting list.
pub fn stage_lines(alloc: Global, certificate: &str) -> Result<String, Memory> {
    let mut text = String::new(alloc);
    put_stages(&mut text, certificate)?;
    Ok(text)
}

fn put_stages(text: &mut String, certificate: &str) -> Result<(), Memory> {
    let mut stage = begun("");
    for line in certificate.lines() {
        if line.starts_with("STAGE ") || line == "END" {
            put_stage(text, stage)?;
        }
        stage = with_line(stage, line);
    }
    Ok(())
}

/// A stage of which no more than its line was read.
fn begun(line: &str) -> Stage<'_> {
    Stage {
        line,
        cost: "NONE",
        bound: "",
    }
}

/// A stage of which one line more was read.
fn with_line<'a>(stage: Stage<'a>, line: &'a str) -> Stage<'a> {
    match word(line, 0) {
        "STAGE" => begun(line),
        "COST" => Stage {
            cost: word(line, 1),
            ..stage
        },
        "BOUND" => Stage {
            bound: word(line, 1),
            ..stage
        },
        _ => stage,
    }
}

fn put_stage(text: &mut String, stage: Stage<'_>) -> Result<(), Memory> {
    let (line, cost, bound) = (stage.line, stage.cost, stage.bound);
    match word(line, 2) {
        _ if line.is_empty() => {}
        "OPTIMAL" => write!(text, "{line} {cost}\n")?,
        "OPEN" => write!(text, "{line} {cost} BOUND {bound}\n")?,
        _ => write!(text, "{line}\n")?,
    }
    Ok(())
}

/// How many splits and closed leaves the trees of a certificate have.
pub fn nodes_of(certificate: &str) -> u64 {
    let mut count = 0_u64;
    for line in certificate.lines() {
        let is_node = matches!(word(line, 0), "S" | "L" | "O");
        count = count.saturating_add(u64::from(is_node));
    }
    count
}

/// How many links the doors handed out.
pub fn links_of(ran: &RunEnd) -> u64 {
    let mut count = 0_u64;
    for door in &ran.doors {
        count = count.saturating_add(door.kept().len() as u64);
    }
    count
}

/// How many links the doors hand out where none fails.
pub fn links_due(given: &Given) -> u64 {
    let mut count = 0_u64;
    for clients in &given.clients {
        count = count.saturating_add(clients.inputs.len().min(LINKS) as u64);
    }
    count
}
