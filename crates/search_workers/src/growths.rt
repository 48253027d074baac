//! A tree under way.

ghost use Rattle.std.specs.Prelude.{◌≡◌, ◌∷◌, ◌++◌, [], IfOk, OnOk, length, replicate, reverse};
ghost use Rattle.choice_problem.specs.Trees.{parts_of};
ghost use Rattle.search_workers.specs.Settings.{Drives};

use crate::tasks::Task;
use choice_problem::{Node, Ranges};
use slot_text::Memory;
use std::alloc::Global;

// The nodes so far, and the ranges to visit, the next ones last.
#[derive(Drop)]
pub(crate) struct Growth {
    pub(crate) nodes: Vec<Node>,
    pub(crate) pending: Vec<Ranges>,
}

impl Growth {
    // A tree with nothing visited.
    pub(crate) fn new(alloc: Global, root: &Ranges) -> Result<Growth, Memory>
        ensures nodes { IfOk result (λ g. g.nodes.items ≡ []) }
        ensures pending { IfOk result (λ g. g.pending.items ≡ root.now ∷ []) }
    {
        let mut pending = Vec::new(alloc);
        pending.push(root.copy(alloc)?)?;
        Ok(Growth {
            nodes: Vec::new(alloc),
            pending,
        })
    }

    // Enters the node of ranges, whose parts are to be visited next, the low part first.
    pub(crate) fn enter(
        &mut self,
        alloc: Global,
        _task: &Task<'_>,
        ranges: &Ranges,
        node: Node,
    ) -> Result<(), Memory>
        requires { Drives _task.now ranges.now node }
        ensures nodes { OnOk result (self.new.nodes.items ≡ self.old.nodes.items ++ node ∷ []) }
        ensures pending { OnOk result (reverse self.new.pending.items
            ≡ parts_of ranges.now node ++ reverse self.old.pending.items) }
    {
        self.nodes.push(node)?;
        if let Node::Split { unit, cut, .. } = node {
            let (low, high) = ranges.split(alloc, unit, cut)?;
            self.pending.push(high)?;
            self.pending.push(low)?;
        }
        Ok(())
    }

    // The nodes, with an undone node for each of the ranges left.
    pub(crate) fn finish(self) -> Result<Vec<Node>, Memory>
        ensures { IfOk result (λ all. all.items
            ≡ self.nodes.items ++ replicate (length self.pending.items) Node.Undone) }
    {
        let Growth { nodes, pending } = self;
        let mut all = nodes;
        for _ in 0..pending.len() {
            all.push(Node::Undone)?;
        }
        Ok(all)
    }
}
