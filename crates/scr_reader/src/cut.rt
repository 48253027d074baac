//! Where the messages of a text stand.

ghost use Rattle.std.specs.Prelude.{◌≡◌, ◌+◌, ◌<◌, ◌≤◌, ◌^◌, IfOk, length, drop};
ghost use Rattle.slot_text.specs.Lines.{after_line, lines_of};
ghost use Rattle.scr_reader.specs.Messages.{runs_in, front_length};
ghost use Rattle.scr_reader.specs.Places.{after_lines, StandAt};

use crate::message::Piece;
use slot_text::{Lines, Memory, is_blank_line};
use std::alloc::Global;

/// Lines at the front of a text: how many, and how many bytes they have with their ends.
#[derive(Clone, Copy, Debug, PartialEq, Eq)]
struct Front {
    lines: usize,
    bytes: usize,
}

/// Where the messages of a text stand: the longest runs of lines that are not empty, in order. An
/// empty line has no byte but blanks. One pass over the bytes; memory for the list alone.
pub fn cut_messages(alloc: Global, bytes: &[u8]) -> Result<Vec<Piece>, Memory>
    requires { length bytes.now + 6 < 2 ^ 32 }
    ensures { IfOk result (λ pieces. StandAt bytes.now (runs_in bytes.now) pieces.items) }
{
    let mut pieces = Vec::new(alloc);
    let mut line = 1;
    let mut from = 0;
    while from < bytes.len() {
        let (_, rest) = bytes.split_at(from);
        let run = measure_run(rest);
        if run.lines == 0 {
            line += 1;
            from += measure_line(rest);
        } else {
            let to = from + run.bytes;
            pieces.push(Piece {
                line: line as u32,
                from,
                to,
            })?;
            line += run.lines;
            from = to;
        }
    }
    Ok(pieces)
}

/// The lines before the first empty one.
fn measure_run(text: &[u8]) -> Front
    ensures lines { result.lines ≡ front_length (lines_of text.now) }
    ensures few { result.lines ≤ result.bytes }
    ensures within { result.bytes ≤ length text.now }
    ensures behind { drop result.bytes text.now ≡ after_lines result.lines text.now }
{
    let mut lines = 0;
    let mut bytes = 0;
    let mut rest = Lines::new(text);
    while let Some(line) = rest.next_line() {
        if is_blank_line(line) {
            return Front { lines, bytes };
        }
        lines += 1;
        bytes = text.len() - rest.rest().len();
    }
    Front { lines, bytes }
}

/// How many bytes the first line has with its end.
fn measure_line(text: &[u8]) -> usize
    requires { 0 < length text.now }
    ensures some { 1 ≤ result }
    ensures within { result ≤ length text.now }
    ensures behind { drop result text.now ≡ after_line text.now }
{
    let mut rest = Lines::new(text);
    let _line = rest.next_line();
    text.len() - rest.rest().len()
}
