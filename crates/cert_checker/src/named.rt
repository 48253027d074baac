//! The resources that nodes of a tree name.

ghost use Rattle.std.specs.Prelude.{◌≡◌, ◌<◌, IfSome, length, slice_index};

use choice_problem::Node;
use slot_text::Memory;
use std::alloc::Global;

/// The resources that nodes name, each once, in rising order: one step a node, and the time of
/// sorting those that differ from the one named before.
pub(crate) fn named_resources(alloc: Global, nodes: &[Node]) -> Result<Vec<u32>, Memory> {
    let mut named = Vec::new(alloc);
    let mut last = None;
    for node in nodes {
        if let Node::Over { resource } = *node {
            if last != Some(resource) {
                named.push(resource)?;
                last = Some(resource);
            }
        }
    }
    named.sort_unstable();
    named.dedup();
    Ok(named)
}

/// The rank of a resource among some in rising order, from 0: as many steps as these can be halved.
pub(crate) fn rank_of(named: &[u32], resource: u32) -> Option<usize>
    ensures there { IfSome result (λ at. at < length named.now) }
    ensures resource { IfSome result (λ at. slice_index named.now at ≡ resource) }
{
    let Ok(at) = named.binary_search(&resource) else {
        return None;
    };
    if named[at] == resource {
        Some(at)
    } else {
        None
    }
}
