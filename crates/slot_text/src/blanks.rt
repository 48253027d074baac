//! Blanks: space and tab, and lines of nothing else.

ghost use Rattle.std.specs.Prelude.{◌≡◌, ◌↔◌, IsTrue};
ghost use Rattle.slot_text.specs.Fields.{is_blank, is_blank_line, IsTrimmed};

/// Whether the byte is a space or a tab.
pub fn is_blank_byte(byte: u8) -> bool
    ensures { result ≡ is_blank byte }
{
    byte == b' ' || byte == b'\t'
}

/// Whether a line has no byte but blanks; an empty line has none.
pub fn is_blank_line(line: &[u8]) -> bool
    ensures { result ≡ is_blank_line line.now }
{
    for byte in line {
        if !is_blank_byte(*byte) {
            return false;
        }
    }
    true
}

/// Whether neither end of a line is a blank. An empty line is trimmed.
pub fn is_trimmed(line: &[u8]) -> bool
    ensures { IsTrue result ↔ IsTrimmed line.now }
{
    match line {
        [] => true,
        [only] => !is_blank_byte(*only),
        [first, .., last] => !is_blank_byte(*first) && !is_blank_byte(*last),
    }
}
