//! The fields of a line, cut once.

ghost use Rattle.std.specs.Prelude.{◌≡◌, ◌≤◌, ◌++◌, [], ◌∷◌, take};
ghost use Rattle.std.specs.Option.{option_copied};
ghost use Rattle.slot_text.specs.Fields.{fields_of, field_at};
ghost use Rattle.scr_reader.specs.Rows.{line_fields};
ghost use Rattle.scr_reader.specs.Private.Texts.{empty_fields};

use slot_text::split_field;
use std::marker::Model;

/// One more than the most fields that a line has.
const MOST_FIELDS: usize = 9;

/// The fields of a line, cut once; of many, the first nine.
#[derive(Drop)]
pub(crate) struct Fields<'a> {
    items: [&'a [u8]; MOST_FIELDS],
    count: usize,
}

impl<'a> Model for Fields<'a> {
    ghost use Rattle.std.specs.Prelude.{List, ℕ, ◌≤◌, map, take};
    ghost use Rattle.scr_reader.specs.Private.Texts.{text_in};

    ghost Value = { List (List ℕ) };

    ghost view = { λ s. map text_in (take s.count s.items) };

    ghost invariant = { λ s. s.count ≤ 9 };
}

impl<'a> Fields<'a> {
    /// Cuts a line. A blank in front of it makes an empty first field.
    pub(crate) fn cut(line: &'a [u8]) -> Fields<'a>
        ensures { result ≡ take 9 (line_fields line.now) }
    {
        match line {
            [b, ..] if *b != b' ' && *b != b'\t' => Fields::cut_from(line, 0),
            _ => Fields::cut_from(line, 1),
        }
    }

    /// Cuts a line, with so many empty fields in front.
    fn cut_from(line: &'a [u8], first: usize) -> Fields<'a>
        requires { first ≤ 1 }
        ensures { result ≡ take 9 (empty_fields first ++ fields_of line.now) }
    {
        let nothing: &'a [u8] = &[];
        let mut items = [nothing; MOST_FIELDS];
        let mut rest = line;
        for n in first..MOST_FIELDS {
            let Some((field, after)) = split_field(rest) else {
                return Fields { items, count: n };
            };
            items[n] = field;
            rest = after;
        }
        Fields {
            items,
            count: MOST_FIELDS,
        }
    }

    /// The field of a number, counted from 1.
    pub(crate) fn get(&self, n: u32) -> Option<&'a [u8]>
        ensures { option_copied result ≡ field_at self.now n }
    {
        let n = n as usize;
        if n == 0 || n > self.count {
            return None;
        }
        Some(self.items[n - 1])
    }
}
