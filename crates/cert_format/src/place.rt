//! Where a reading stands: the lines of a text, and the words of a line.

ghost use Rattle.std.specs.Prelude.{◌≡◌, ◌+◌, ◌^◌, ◌<◌, ◌∷◌, [], length, MatchOption};
ghost use Rattle.cert_format.specs.Private.Cuts.{line_words, cert_lines_of};

use crate::fault::CertFault;
use crate::rows::Row;

/// What is left of a text, and the number of its first line.
#[derive(Clone, Copy)]
pub struct Place<'a> {
    pub rest: &'a [u8],
    pub line: u32,
    ghost fits: { line + length rest.now < 2 ^ 32 },
}

/// The words that are left of a line.
#[derive(Clone, Copy)]
pub struct Words<'a> {
    pub rest: Option<&'a [u8]>,
}

impl<'a> Place<'a> {
    ghost use Rattle.cert_format.specs.Private.Spots.{spot_of, line_by};
    ghost use Rattle.cert_format.specs.Forms.{Gives};
    ghost use Rattle.cert_format.specs.Private.Left.{words_left};

    /// The beginning of a text.
    pub fn start(text: &'a [u8]) -> Place<'a>
        requires { length text.now < 2 ^ 31 }
        ensures line { result.line ≡ 1 }
        ensures rest { result.rest.now ≡ text.now }
    {
        Place {
            rest: text,
            line: 1,
        }
    }

    /// The words of the next line, and the place after it; None at the end. Bytes that no LF ends
    /// are a line of no words.
    pub fn next_line(self) -> Option<(Words<'a>, Place<'a>)>
        ensures { MatchOption result ((spot_of self.entry).lines ≡ [])
            (λ x. ((spot_of self.entry).lines ≡ words_left x.0 ∷ (spot_of x.1).lines)
            × (x.1.line ≡ self.entry.line + 1)) }
    {
        if self.rest.is_empty() {
            return None;
        }
        let (words, rest) = split_line(self.rest);
        Some((
            words,
            Place {
                rest,
                line: self.line + 1,
            },
        ))
    }

    /// What the next line says in this form, and the place after it, or the fault that names the
    /// line.
    pub fn read<R: Row>(self, row: &R) -> Result<(R::Value, Place<'a>), CertFault>
        ensures { Gives (λ x. (x.0, spot_of x.1)) result
            (line_by (R.said row.now) (spot_of self.entry)) }
    {
        let bad_line = CertFault::BadLine { line: self.line };
        let (words, after) = self.next_line().ok_or(bad_line)?;
        let value = row.read(words).ok_or(bad_line)?;
        Ok((value, after))
    }
}

ghost use Rattle.cert_format.specs.Private.Left.{words_left};

// The first line of a text that isn't empty, and what follows it.
fn split_line(text: &[u8]) -> (Words<'_>, &[u8])
    requires { 0 < length text.now }
    ensures lines { cert_lines_of text.now ≡ words_left result.0 ∷ cert_lines_of result.1.now }
    ensures shorter { length result.1.now < length text.now }
{
    for (i, b) in text.iter().enumerate() {
        if *b == b'\n' {
            let words = Words {
                rest: Some(&text[..i]),
            };
            return (words, &text[i + 1..]);
        }
    }
    (Words { rest: None }, &[])
}

/// The first word of a line, and the words after it.
pub fn split_word(line: &[u8]) -> (&[u8], Words<'_>)
    ensures { line_words line.now ≡ result.0.now ∷ words_left result.1 }
{
    for (i, b) in line.iter().enumerate() {
        if *b == b' ' {
            let rest = Words {
                rest: Some(&line[i + 1..]),
            };
            return (&line[..i], rest);
        }
    }
    (line, Words { rest: None })
}
