//! What is made ready for an ask.

ghost use Rattle.std.specs.Prelude.{◌≡◌};
ghost use Rattle.holding_book.specs.Books.{SlotBook};
ghost use Rattle.holding_book.specs.Asks.{stays};
ghost use Rattle.holding_book.specs.Private.Steps.{IsAskStep};

use crate::answer::Answer;
use crate::change::Change;

/// An answer, and the change, if the book changes.
#[derive(Drop)]
pub struct AskStep {
    pub answer: Answer,
    pub change: Option<Change>,
}

/// An answer after which the book is as before.
pub(crate) fn stays(answer: Answer) -> AskStep
    ensures { (b : SlotBook) → IsAskStep b (stays b answer) result }
{
    AskStep {
        answer,
        change: None,
    }
}
