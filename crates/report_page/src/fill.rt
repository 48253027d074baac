//! Templates, filled with the words of lines.

ghost use Rattle.std.specs.Prelude.{◌≡◌, ◌++◌, OnOk, IfOk};
ghost use Rattle.slot_text.specs.Fields.{fields_of};
ghost use Rattle.report_page.specs.Filled.{is_stop, told_words, after_told, word_piece, next_piece, after_next, piece, words_left, filled};

use crate::escape::put_escaped;
use crate::layout::{MINUTE, NUMBER, PASSED, WORD, WORDS};
use crate::number::{minute_of, number_of};
use slot_text::{Memory, put_number, split_field};
use std::alloc::Global;

// Whether a word ends the words that are told together.
fn is_stop(word: &[u8]) -> bool
    ensures { result ≡ is_stop word.now }
{
    word == b"UNITS".as_slice() || word == b"LIMIT".as_slice()
}

// Appends the words up to one that ends them, each with a blank before it; what follows them.
fn put_words<'a>(out: &mut Vec<u8>, line: &'a [u8]) -> Result<&'a [u8], Memory>
    ensures text { OnOk result (out.new.items
        ≡ out.old.items ++ told_words (fields_of line.now)) }
    ensures rest { IfOk result (λ rest.
        fields_of rest.now ≡ after_told (fields_of line.now)) }
{
    let mut rest = line;
    while let Some((word, after)) = split_field(rest) {
        if is_stop(word) {
            return Ok(rest);
        }
        out.push(b' ')?;
        put_escaped(out, word)?;
        rest = after;
    }
    Ok(rest)
}

// Appends what a mark of a template tells of a word.
fn put_word(alloc: Global, out: &mut Vec<u8>, mark: u8, word: &[u8]) -> Result<(), Memory>
    ensures { OnOk result (out.new.items ≡ out.old.items ++ word_piece mark word.now) }
{
    match mark {
        WORD => put_escaped(out, word),
        NUMBER => put_number(alloc, out, number_of(word)),
        MINUTE => put_number(alloc, out, minute_of(word)),
        _ => Ok(()),
    }
}

// Appends what a mark of a template tells of the next word; what follows that word.
fn put_next<'a>(
    alloc: Global,
    out: &mut Vec<u8>,
    mark: u8,
    line: &'a [u8],
) -> Result<&'a [u8], Memory>
    ensures text { OnOk result (out.new.items
        ≡ out.old.items ++ next_piece mark (fields_of line.now)) }
    ensures rest { IfOk result (λ rest.
        fields_of rest.now ≡ after_next (fields_of line.now)) }
{
    let Some((word, after)) = split_field(line) else {
        return Ok(line);
    };
    put_word(alloc, out, mark, word)?;
    Ok(after)
}

// Appends what stands for a byte of a template; the words that are left.
fn put_piece<'a>(
    alloc: Global,
    out: &mut Vec<u8>,
    byte: u8,
    line: &'a [u8],
) -> Result<&'a [u8], Memory>
    ensures text { OnOk result (out.new.items
        ≡ out.old.items ++ piece byte (fields_of line.now)) }
    ensures rest { IfOk result (λ rest.
        fields_of rest.now ≡ words_left byte (fields_of line.now)) }
{
    match byte {
        WORD | NUMBER | MINUTE | PASSED => put_next(alloc, out, byte, line),
        WORDS => put_words(out, line),
        _ => {
            out.push(byte)?;
            Ok(line)
        }
    }
}

/// Appends a template, filled with the words of a line.
#[tactic(auto, unfolding(crate::specs::Filled::filled))]
pub(crate) fn put_filled(
    alloc: Global,
    out: &mut Vec<u8>,
    template: &[u8],
    line: &[u8],
) -> Result<(), Memory>
    ensures { OnOk result (out.new.items
        ≡ out.old.items ++ filled template.now (fields_of line.now)) }
{
    let mut rest = line;
    for byte in template {
        rest = put_piece(alloc, out, *byte, rest)?;
    }
    Ok(())
}
