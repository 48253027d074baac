//! Text in a page.

ghost use Rattle.std.specs.Prelude.{◌≡◌, ◌++◌, OnOk, take};
ghost use Rattle.std.specs.List.{flat_map};
ghost use Rattle.report_page.specs.Filled.{shown_byte, escaped};

use slot_text::Memory;

/// Appends bytes.
pub(crate) fn put(out: &mut Vec<u8>, bytes: &[u8]) -> Result<(), Memory>
    ensures { OnOk result (out.new.items ≡ out.old.items ++ bytes.now) }
{
    out.extend_from_slice(bytes)?;
    Ok(())
}

// Appends a byte as a page shows it.
fn put_byte(out: &mut Vec<u8>, byte: u8) -> Result<(), Memory>
    ensures { OnOk result (out.new.items ≡ out.old.items ++ shown_byte byte) }
{
    match byte {
        b'&' => put(out, b"&amp;"),
        b'<' => put(out, b"&lt;"),
        b'>' => put(out, b"&gt;"),
        b'"' => put(out, b"&quot;"),
        b'\'' => put(out, b"&#39;"),
        b' '..=b'~' => put(out, &[byte]),
        _ => put(out, b"?"),
    }
}

/// Appends a text as a page shows it.
pub(crate) fn put_escaped(out: &mut Vec<u8>, text: &[u8]) -> Result<(), Memory>
    ensures { OnOk result (out.new.items ≡ out.old.items ++ escaped text.now) }
{
    for byte in text {
        put_byte(out, *byte)?;
    }
    Ok(())
}
