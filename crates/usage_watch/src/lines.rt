//! Lists of lines.

use scr_reader::Line;
use std::marker::Model;

/// Lines in an order.
#[derive(Drop)]
pub struct LineList {
    items: Vec<Line>,
}

impl Model for LineList {
    ghost use Rattle.std.specs.Prelude.{List};
    ghost use Rattle.scr_reader.specs.declared.line.Line.{Line as LineValue};

    ghost Value = { List LineValue };

    ghost view = { λ l. l.items.items };
}

impl LineList {
    ghost use Rattle.std.specs.Prelude.{◌≡◌};

    /// A list of these lines. It takes no memory.
    pub fn new(items: Vec<Line>) -> LineList
        ensures { result ≡ items.items }
    {
        LineList { items }
    }

    /// The lines, in their order.
    pub fn items(&self) -> &[Line]
        ensures { result.now ≡ self.now }
    {
        self.items.as_slice()
    }
}
