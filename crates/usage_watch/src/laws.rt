//! Laws of what is kept. Each function does nothing; its contract is the law.

ghost use Rattle.std.specs.Prelude.{◌≡◌, ◌≢◌, ◌<◌, ◌≤◌, ℕ, List, [], All};
ghost use Rattle.season_days.specs.Term.{Term};
ghost use Rattle.season_days.specs.Seasons.{has_weekday};
ghost use Rattle.scr_reader.specs.Again.{HeaderFits};
ghost use Rattle.scr_reader.specs.Messages.{ReadsAll};
ghost use Rattle.scr_reader.specs.Printed.{LineFits};
ghost use Rattle.scr_reader.specs.declared.header.Header.{Header as HeaderValue};
ghost use Rattle.scr_reader.specs.declared.line.Line.{Line as LineValue};
ghost use Rattle.holding_book.specs.declared.holding.Holding.{Holding as HoldingValue};
ghost use Rattle.usage_watch.specs.Precedence.{has_precedence};
ghost use Rattle.usage_watch.specs.NextLines.{kept_days, confirmed_lines, next_lines};
ghost use Rattle.usage_watch.specs.NextTexts.{IsHistoric, next_messages, next_text};
ghost use Rattle.usage_watch.specs.declared.operated.Operated.{Operated as OperatedValue};

use scr_reader::laws::printed_messages_are_read;
use season_days::laws::{lengths, period_dates};

/// The kept set of weekdays has those whose series have precedence, and no others.
pub fn kept_weekdays()
    ensures { (season : Term) (reports : List OperatedValue) (line : LineValue) (weekday : ℕ) →
        1 ≤ weekday → weekday ≤ 7 →
        has_weekday (kept_days season reports line) weekday
        ≡ has_precedence season reports line weekday }
{}

/// The lines of the next season are historic ones that have a spelling in it.
pub fn next_lines_fit()
    ensures { (season next : Term) (reports : List OperatedValue) (held : List HoldingValue) →
        All (λ (holding : HoldingValue). LineFits season holding.line) held →
        All (IsHistoric next) (next_lines season next reports (confirmed_lines held)) }
{
    lengths();
    period_dates();
}

/// The text of the next season's lines is read as one message of exactly these lines, and as none
/// where there is no line, whatever the header is then.
pub fn next_is_read()
    ensures { (header : HeaderValue) (lines : List LineValue) → (lines ≢ [] → HeaderFits header) →
        All (IsHistoric header.season) lines →
        ReadsAll (next_text header lines) (next_messages header lines) }
{
    printed_messages_are_read();
}
