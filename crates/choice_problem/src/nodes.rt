//! Search trees of branch and bound, as the lists of their nodes.

ghost use Rattle.std.specs.Prelude.{◌≡◌, ◌⊎◌, ◌<◌, ◌≤◌, ◌^◌, length};
ghost use Rattle.choice_problem.specs.Trees.{node_count};
ghost use Rattle.choice_problem.specs.Named.{IsGreatestNamed, Names, NamesUpTo};

use std::marker::Model;

/// A node of a search tree. Each has ranges of alternatives, which the splits above it cut out of
/// the whole ones. `seen` is the cost that was known when the node was made, if any.
#[derive(Clone, Copy, Debug, PartialEq, Eq)]
pub enum Node {
    /// The unit's range is cut in two, and two trees follow: on the alternatives below the cut, and
    /// from the cut on.
    Split {
        /// The number of the unit, from 0.
        unit: u32,
        /// The lowest alternative of the high part.
        cut: u32,
        /// The cost that was known.
        seen: Option<u64>,
    },
    /// The bound at a vector of prices and a scale closes the ranges. Vector 0 is the one without
    /// prices.
    Leaf {
        /// The number of the vector: 0, or its place in the list, from 1.
        vector: u32,
        /// The number by which costs are multiplied beside the prices, below 2^20.
        scale: u64,
        /// The cost that was known.
        seen: Option<u64>,
    },
    /// Even the least load of a resource in range is above its limit.
    Over {
        /// The number of the resource, from 0.
        resource: u32,
    },
    /// The ranges were not searched.
    Undone,
}

/// A search tree: its nodes in preorder, the low part of a split first.
#[derive(Drop)]
pub struct Tree {
    nodes: Vec<Node>,
}

impl Model for Tree {
    ghost use Rattle.std.specs.Prelude.{List};
    ghost use Rattle.choice_problem.specs.declared.nodes.Node.{Node};

    ghost Value = { List Node };

    ghost view = { λ t. t.nodes.items };
}

impl Tree {
    /// The list of these nodes. Whether they are one tree is not asked here.
    pub fn new(nodes: Vec<Node>) -> Tree
        ensures { result ≡ nodes.items }
    {
        Tree { nodes }
    }

    /// The nodes in preorder.
    pub fn items(&self) -> &[Node]
        ensures { result.now ≡ self.now }
    {
        &self.nodes
    }

    /// The nodes in preorder as a `Vec`, without a copy.
    pub fn into_items(self) -> Vec<Node>
        ensures { result.items ≡ self }
    {
        self.nodes
    }
}

/// How many splits and closed leaves a tree has; undone nodes are not counted. One step a node.
pub fn count_nodes(tree: &Tree) -> u32
    requires { length tree.now < 2 ^ 32 }
    ensures { result ≡ node_count tree.now }
{
    let mut count = 0;
    for node in tree.items() {
        if *node != Node::Undone {
            count += 1;
        }
    }
    count
}

/// The greatest number of a vector that a leaf of a tree names, and 0 where none does: one step a
/// node.
pub fn greatest_named(tree: &[Node]) -> u32
    ensures { IsGreatestNamed tree.now result }
{
    let mut most = 0;
    for node in tree {
        most = greater_named(most, *node);
    }
    most
}

// The greater of a number and the vector that a node may name.
fn greater_named(most: u32, node: Node) -> u32
    ensures least { most ≤ result }
    ensures names { NamesUpTo result node }
    ensures which { (result ≡ most) ⊎ Names result node }
{
    match node {
        Node::Leaf { vector, .. } if vector > most => vector,
        _ => most,
    }
}
