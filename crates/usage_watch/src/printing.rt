//! The message of the next season's lines, printed.

ghost use Rattle.std.specs.Prelude.{◌≡◌, All, IfOk};
ghost use Rattle.usage_watch.specs.NextTexts.{IsHistoric, next_text};

use scr_reader::{Header, Item, Line, print_header, print_item};
use slot_text::Memory;
use std::alloc::Global;

/// The text of one message with these lines and an empty line behind it; nothing where there is no
/// line.
pub fn print_next(alloc: Global, header: &Header, lines: &[Line]) -> Result<Vec<u8>, Memory>
    requires { All (IsHistoric header.now.season) lines.now }
    ensures { IfOk result (λ text. text.items ≡ next_text header.now lines.now) }
{
    let mut text = Vec::new(alloc);
    if lines.is_empty() {
        return Ok(text);
    }
    print_header(alloc, &mut text, header)?;
    for line in lines {
        print_item(alloc, &mut text, &header.season, &Item::One(*line))?;
    }
    text.push(b'\n')?;
    Ok(text)
}
