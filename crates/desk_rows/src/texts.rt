//! Texts of scripts, in which `;` stands for a line end.

use std::alloc::Global;
use std::process::Abort;

/// The bytes for which a text stands: `^` is the byte 255, `~` a CR, and each `{3 AB}` is `AB`
/// three times.
pub(crate) fn spelled_out(rt: &impl Abort, alloc: Global, text: &str) -> Vec<u8> {
    let mut out = Vec::new(alloc);
    for (place, part) in text.split('{').enumerate() {
        if place == 0 {
            put_text(rt, &mut out, part);
        } else {
            put_group(rt, &mut out, part);
        }
    }
    out
}

/// What stands behind an opening brace: a part that is put so many times, and a text.
fn put_group(rt: &impl Abort, out: &mut Vec<u8>, text: &str) {
    let (group, back) = text.split_once('}').expect(rt, "a closing brace");
    let (times, part) = group.split_once(' ').expect(rt, "a blank in braces");
    let times: u32 = times.parse().expect(rt, "a number of times");
    for _ in 0..times {
        put_text(rt, out, part);
    }
    put_text(rt, out, back);
}

fn put_text(rt: &impl Abort, out: &mut Vec<u8>, text: &str) {
    for byte in text.as_bytes() {
        out.push(spelled_byte(*byte)).expect(rt, "memory");
    }
}

/// The byte for which a byte of a text stands.
fn spelled_byte(byte: u8) -> u8 {
    match byte {
        b';' => b'\n',
        b'^' => 255,
        b'~' => b'\r',
        other => other,
    }
}

/// The text of bytes that are ASCII.
pub(crate) fn folded(rt: &impl Abort, alloc: Global, bytes: &[u8]) -> String {
    let mut out = String::new(alloc);
    for byte in bytes {
        let byte = if *byte == b'\n' { b';' } else { *byte };
        out.push(char::from(byte)).expect(rt, "memory");
    }
    out
}

/// The numbers of the lines from a first to a last one, if that is what the text names.
fn span(text: &str) -> Option<(usize, usize)> {
    let (first, last) = text.split_once('-')?;
    Some((first.parse().ok()?, last.parse().ok()?))
}

/// The lines of a text, with others in the place of one, or of some.
pub(crate) fn edited(rt: &impl Abort, alloc: Global, text: &str, old: &str, new: &str) -> String {
    let (first, last) = span(old).unwrap_or((0, 0));
    let mut out = String::new(alloc);
    for (before, line) in text.split_inclusive(';').enumerate() {
        let number = before + 1;
        if number == first || is_line(line, old) {
            put_lines(rt, &mut out, new);
        } else if number < first || last < number {
            out.push_str(line).expect(rt, "memory");
        }
    }
    out
}

fn is_line(line: &str, old: &str) -> bool {
    line.strip_suffix(';').unwrap_or(line) == old
}

fn put_lines(rt: &impl Abort, out: &mut String, lines: &str) {
    if lines != "(none)" {
        out.push_str(lines).expect(rt, "memory");
        out.push(';').expect(rt, "memory");
    }
}

/// Whether a text is what is wanted, where `*` stands for any text.
pub(crate) fn fits(found: &str, wanted: &str) -> bool {
    let Some((front, rest)) = wanted.split_once('*') else {
        return found == wanted;
    };
    let Some(found) = found.strip_prefix(front) else {
        return false;
    };
    has_pieces(found, rest)
}

/// Whether these pieces stand in the text in order, and the last one at its end.
fn has_pieces(found: &str, pieces: &str) -> bool {
    let mut left = found;
    for piece in pieces.split('*') {
        if piece.is_empty() {
            return true;
        }
        let Some((_, after)) = left.split_once(piece) else {
            return false;
        };
        left = after;
    }
    left.is_empty()
}
