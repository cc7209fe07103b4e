//! Ways down the tree below a root, by places from that root.

ghost use Rattle.std.specs.Prelude.{ℕ, ◌≡◌, ◌+◌, ◌<◌, ◌≤◌, length, slice_index};
ghost use Rattle.split_tree.specs.SplitTree.{size, subtree_at};
ghost use Rattle.split_tree.specs.Navigation.{IsBelow, HasBelow};
ghost use Rattle.mark_board.specs.Inner.Rows.{StepsDown, TakesWeight};

use split_tree::{NodeId, Tree};

/// The branch of a node that is, or leads to, a node below it.
pub fn toward(tree: &Tree, root: usize, node: usize, target: usize) -> usize
    requires root { root < size tree.now }
    requires below { IsBelow (subtree_at tree.now root) node target }
    ensures { StepsDown (subtree_at tree.now root) node target result }
{
    // The proof takes from this call that the tree has fewer than 2 to the power 32 nodes.
    let _few = tree.size();
    let here = NodeId::new((root + node) as u32);
    let end = NodeId::new((root + target) as u32);
    tree.toward(here, end).index() - root
}

/// Takes what is open below a node from it and from each node above it, down from the node `first`.
pub fn cover(tree: &Tree, root: usize, weights: &mut [u64], first: usize, target: usize)
    // A weight for each node below the root, and a target there with no more than any above it.
    requires root { root < size tree.now }
    requires long { length weights.old ≡ size (subtree_at tree.now root) }
    requires first { HasBelow (subtree_at tree.now root) first target }
    requires target { target < size (subtree_at tree.now root) }
    requires enough { (j : ℕ) → first ≤ j → j < length weights.old
        → HasBelow (subtree_at tree.now root) j target
        → slice_index weights.old target ≤ slice_index weights.old j }
    // The target's weight is taken from each node above it, from the first on, and from itself.
    ensures { TakesWeight (subtree_at tree.now root) first target (slice_index weights.old target)
        weights.old weights.new }
{
    let taken = weights[target];
    let mut node = first;
    while node < target {
        weights[node] -= taken;
        node = toward(tree, root, node, target);
    }
    weights[target] -= taken;
}
