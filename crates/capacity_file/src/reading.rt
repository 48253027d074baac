//! The whole file, line by line.

ghost use Rattle.std.specs.Prelude.{◌≡◌, ◌⊎◌, ℕ, ◌<◌, ◌^◌, length, Ok, Err, IfOk, IfErr, MatchResult};
ghost use Rattle.slot_text.specs.Lines.{lines_of};
ghost use Rattle.slot_text.specs.Reads.{GivesOr};
ghost use Rattle.season_days.specs.Capacity.{capacity_of, IsCapacity, IsDeclaration};
ghost use Rattle.season_days.specs.declared.declaration.Declaration.{Declaration as DeclarationValue};
ghost use Rattle.capacity_file.specs.Declares.{IsCapacityFile, HasAllowedValues};
ghost use Rattle.capacity_file.specs.Faults.{HasCapacityFault};
ghost use Rattle.capacity_file.specs.Readings.{Collected};
ghost use Rattle.capacity_file.specs.declared.fault.CapFault.{CapFault as CapFaultValue};
ghost use Rattle.capacity_file.specs.declared.fault.CapFault.TheVariants.{Memory as NoMemory};

use crate::draft::Draft;
use crate::fault::CapFault;
use crate::finish::finish;
use schedule_text::laws::one_value;
use season_days::Declaration;
use slot_text::Lines;
use std::alloc::Global;

/// The declaration of a capacity file.
///
/// Its lines stand in any order, and empty ones are passed over. One pass over the bytes; memory is
/// taken for the capacity lines alone.
pub fn read_capacity(alloc: Global, bytes: &[u8]) -> Result<Declaration, CapFault>
    requires { length bytes.now < 2 ^ 32 }
    // What is read is what the text declares.
    ensures found { IfOk result (λ d. IsCapacityFile bytes.now d) }
    // What the text declares is read, unless memory runs out.
    ensures only { (d : DeclarationValue) → IsCapacityFile bytes.now d →
        GivesOr NoMemory result (Ok d) }
    // A fault is one that the text has.
    ensures fault { IfErr result (λ e. HasCapacityFault bytes.now e ⊎ (e ≡ NoMemory)) }
    // The fault that the text has is answered, unless memory runs out.
    ensures exact { (e : CapFaultValue) → HasCapacityFault bytes.now e →
        GivesOr NoMemory result (Err e) }
    // What is read keeps the limits that the windows of a declaration ask for.
    ensures capacity { IfOk result (λ d. IsCapacity (capacity_of d)) }
    // It keeps what the layers above ask of a declaration.
    ensures keeps { IfOk result (λ d. IsDeclaration d) }
    // Its values are those that a file may state.
    ensures allowed { IfOk result (λ d. HasAllowedValues d) }
{
    one_value();
    let draft = collect(alloc, bytes)?;
    finish(draft)
}

/// What all lines state.
fn collect(alloc: Global, bytes: &[u8]) -> Result<Draft, CapFault>
    requires { length bytes.now < 2 ^ 32 }
    ensures { MatchResult result
        (λ draft. Collected (lines_of bytes.now) (length (lines_of bytes.now))
        draft.singles draft.rules.items)
        (λ e. HasCapacityFault bytes.now e ⊎ (e ≡ NoMemory)) }
{
    let mut draft = Draft::new(alloc);
    let mut lines = Lines::new(bytes);
    let mut count = 0;
    while let Some(line) = lines.next_line() {
        draft.add_line(count, line)?;
        count += 1;
    }
    Ok(draft)
}
