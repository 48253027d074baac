//! The shape of a tree.

ghost use Rattle.std.specs.Prelude.{◌≡◌, ◌↔◌, ◌+◌, ◌<◌, ◌≤◌, ◌^◌, ◌∷◌, List, true, false, IsTrue, length};
ghost use Rattle.choice_problem.specs.Trees.{IsTree, IsWhole};
ghost use Rattle.cert_checker.specs.Shapes.{GoesOn};

use choice_problem::Node;

// How many trees are to come after a node, where so many were before it.
fn after_node(pending: u64, node: Node) -> u64
    requires some { 0 < pending }
    requires few { pending < 2 ^ 33 }
    ensures goes { GoesOn pending node result }
    ensures few { result ≤ pending + 1 }
{
    match node {
        Node::Split { .. } => pending + 1,
        Node::Leaf { .. } => pending - 1,
        Node::Over { .. } => pending - 1,
        Node::Undone => pending - 1,
    }
}

// Whether the nodes are exactly one tree in preorder. One step a node.
pub(crate) fn is_tree(nodes: &[Node]) -> bool
    requires { length nodes.now < 2 ^ 32 }
    ensures { IsTrue result ↔ IsTree nodes.now }
{
    let mut pending = 1;
    for node in nodes {
        if pending == 0 {
            return false;
        }
        pending = after_node(pending, *node);
    }
    pending == 0
}

fn is_undone(node: Node) -> bool
    ensures yes { result ≡ true → (rest : List Node) → IsWhole (node ∷ rest) → ⊥ }
    ensures no { result ≡ false → (rest : List Node) →
        (IsWhole (node ∷ rest) → IsWhole rest) × (IsWhole rest → IsWhole (node ∷ rest)) }
{
    match node {
        Node::Undone => true,
        Node::Split { .. } => false,
        Node::Leaf { .. } => false,
        Node::Over { .. } => false,
    }
}

// Whether no node is undone. One step a node.
pub(crate) fn is_whole(nodes: &[Node]) -> bool
    ensures { IsTrue result ↔ IsWhole nodes.now }
{
    for node in nodes {
        if is_undone(*node) {
            return false;
        }
    }
    true
}
