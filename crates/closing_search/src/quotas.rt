//! The resources of which a part may use several.

use reduced_problem::{Reduced, UserRun};
use slot_text::Memory;
use std::alloc::Global;

/// The numbers of the classes that some part uses more than once: quotas that hold for many dates
/// together.
pub(crate) fn quotas_of(alloc: Global, reduced: &Reduced) -> Result<Vec<u32>, Memory> {
    let mut quotas = Vec::new(alloc);
    for (number, _) in (0..).zip(reduced.classes()) {
        if has_several(reduced.users(number)) {
            quotas.push(number)?;
        }
    }
    Ok(quotas)
}

// Whether a part uses a class more than once.
fn has_several(users: &[UserRun]) -> bool {
    for run in users {
        if run.uses > 1 {
            return true;
        }
    }
    false
}
