//! Whether a tree has a target.

ghost use Rattle.std.specs.Prelude.{◌↔◌, IsTrue};
ghost use Rattle.split_tree.specs.Leaves.{HasTarget};

use split_tree::{Target, Tree};

/// Whether a target is a leaf of the tree, or one of its inner nodes.
pub fn has_target(tree: &Tree, target: Target) -> bool
    ensures { IsTrue result ↔ HasTarget tree.now target }
{
    match target {
        Target::Leaf(leaf) => tree.has_leaf(leaf),
        Target::Node(node) => node.number() < tree.size() && tree.leaf_at(node).is_none(),
    }
}
