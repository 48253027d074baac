//! Why a text is no capacity file.

ghost use Rattle.std.specs.Prelude.{◌≡◌, ◌≢◌, ◌<◌, ◌-◌, ◌^◌, [], ℕ, List, Some, length, slice_get};
ghost use Rattle.slot_text.specs.Fields.{fields_of};
ghost use Rattle.slot_text.specs.Lines.{lines_of};
ghost use Rattle.capacity_file.specs.Faults.{HasCapacityFault};
ghost use Rattle.fault_causes.specs.declared.cause.Cause.{Cause as CauseValue};
ghost use Rattle.fault_causes.specs.Capacities.{IsBadLineCause, IsTwiceCause, IsCapacityCause};

use crate::cause::{Cause, FieldName, Flaw};
use crate::fields::field_cause;
use crate::words::{line_word, most_of, needed};
use capacity_file::CapFault;
use slot_text::{LONGEST_LINE, Lines, is_trimmed, split_field};

// The line of a number, counted from 1; without bytes where there is none.
pub(crate) fn line_of(text: &[u8], number: u32) -> &[u8]
    ensures { (line : List ℕ) → slice_get (lines_of text.now) (number - 1) ≡ Some line →
        result.now ≡ line }
{
    let mut lines = Lines::new(text);
    let mut left = number;
    while let Some(line) = lines.next_line() {
        if left <= 1 {
            return line;
        }
        left -= 1;
    }
    &[]
}

// Why a line is bad.
fn bad_line_cause(line: &[u8]) -> Cause
    requires { fields_of line.now ≢ [] }
    ensures { IsBadLineCause line.now result }
{
    if line.len() > LONGEST_LINE {
        return Cause::Long;
    }
    if !is_trimmed(line) {
        return Cause::Blank;
    }
    match split_field(line) {
        Some((word, rest)) => match line_word(word) {
            Some(word) => field_cause(word, rest),
            None => Cause::Field(1, FieldName::Word, Flaw::Form),
        },
        None => Cause::Blank,
    }
}

// The word of a line that stands twice.
fn twice_cause(line: &[u8]) -> Cause
    requires { (cause : CauseValue) × IsTwiceCause line.now cause }
    ensures { IsTwiceCause line.now result }
{
    match split_field(line) {
        Some((word, _)) => match line_word(word) {
            Some(word) => Cause::Twice(word),
            None => Cause::Blank,
        },
        None => Cause::Blank,
    }
}

/// Why a text is no capacity file, by the fault that `capacity_file::read_capacity` answers.
pub fn capacity_cause(text: &[u8], fault: CapFault) -> Cause
    requires short { length text.now < 2 ^ 32 }
    requires has { HasCapacityFault text.now fault }
    ensures { IsCapacityCause text.now fault result }
{
    match fault {
        CapFault::BadLine { line } => bad_line_cause(line_of(text, line)),
        CapFault::Missing { name } => Cause::NoLine(needed(name)),
        CapFault::Twice { line } => twice_cause(line_of(text, line)),
        CapFault::OverLimit { name, .. } => Cause::Most(most_of(name)),
        CapFault::Memory => Cause::Blank,
    }
}
