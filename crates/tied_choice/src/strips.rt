//! Parts over classes of resources.

use choice_problem::{Part, Strip};
use reduced_problem::{ClassUse, Reduced};
use slot_text::Memory;
use std::alloc::Global;

/// The part that uses the classes of a part, and where there is another one, behind them those of
/// that one.
pub(crate) fn class_part(
    alloc: Global,
    reduced: &Reduced,
    part: u32,
    behind: Option<(&Reduced, u32)>,
) -> Result<Part, Memory> {
    let mut strips = Vec::new(alloc);
    add_strips(&mut strips, reduced.part_uses(part), 0)?;
    if let Some((other, other_part)) = behind {
        let count = u32::try_from(reduced.classes().len()).unwrap_or(u32::MAX);
        add_strips(&mut strips, other.part_uses(other_part), count)?;
    }
    Ok(Part::new(strips))
}

// Adds the strips of classes that are used, whose numbers are so many higher.
fn add_strips(strips: &mut Vec<Strip>, uses: &[ClassUse], by: u32) -> Result<(), Memory> {
    for class_use in uses {
        add_use(strips, by.saturating_add(class_use.class), class_use.uses)?;
    }
    Ok(())
}

// Adds the uses of a class: to the last strip, where it ends there and is used as often.
fn add_use(strips: &mut Vec<Strip>, class: u32, uses: u32) -> Result<(), Memory> {
    if let Some(last) = strips.last_mut() {
        if last.times == uses && last.first.saturating_add(last.width) == class {
            last.width = last.width.saturating_add(1);
            return Ok(());
        }
    }
    strips.push(Strip {
        first: class,
        width: 1,
        gap: 0,
        times: uses,
    })?;
    Ok(())
}
