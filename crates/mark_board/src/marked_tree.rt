//! Trees whose nodes have marks, whoever says them.

ghost use Rattle.std.specs.Prelude.{◌≡◌, ◌<◌, ℕ, List, IfOk};
ghost use Rattle.split_tree.specs.SplitTree.{SplitTree, size, subtree_at};
ghost use Rattle.split_tree.specs.Leaves.{HasTarget, IsTargetAt};
ghost use Rattle.mark_board.specs.declared.mark.Mark.{Mark};
ghost use Rattle.mark_board.specs.Marking.{open_weight, open_branches, refuted_by, mark_at};
ghost use Rattle.mark_board.specs.Boards.{AreTargetsAt};
ghost use Rattle.mark_board.specs.TopPlaces.{worth_of};

use crate::mark::Mark;
use case_core::{NodeId, Target, Tree};
use std::alloc::{AllocError, Global};

/// A tree whose nodes have marks, whoever says them. What is told of it is a function of the tree
/// and these marks alone.
pub trait MarkedTree {
    // The tree.
    ghost splits: { Self → SplitTree };

    // The marks of its nodes, in tree order.
    ghost marks: { Self → List Mark };

    /// The tree.
    fn tree(&self) -> &Tree
        ensures { result.now ≡ splits self.now };

    /// The mark of a node. It asks for a node of the tree.
    fn mark_at(&self, node: NodeId) -> Mark
        requires { node < size (splits self.now) }
        ensures { result ≡ mark_at (marks self.now) node };

    /// The weight of the leaves under a node that lie under no marked node from there on. It asks
    /// for a node of the tree.
    fn open_under(&self, node: NodeId) -> u64
        requires { node < size (splits self.now) }
        ensures { result
            ≡ open_weight (worth_of (splits self.now)) (refuted_by (marks self.now)) node
            (subtree_at (splits self.now) node) };
}

/// The open branches of a marked tree, in tree order: each wholly open node that is the root or
/// whose parent isn't wholly open, where a node is wholly open if neither it nor a node above or
/// under it is marked. `AllocError` where a growth was refused.
pub fn open_branches_of<M: MarkedTree>(alloc: Global, marked: &M) -> Result<Vec<Target>, AllocError>
    ensures { IfOk result
        (λ targets. AreTargetsAt (M.splits marked.now) targets.items
        (open_branches (refuted_by (M.marks marked.now)) 0 (M.splits marked.now))) }
{
    let tree = marked.tree();
    let mut targets = Vec::new(alloc);
    let mut number = 0;
    while number < tree.size() {
        let node = NodeId::new(number);
        let weight = marked.open_under(node);
        let whole = tree.weight_under(node);
        number = if weight == 0 {
            tree.end_of(node)
        } else if weight == whole {
            targets.push(tree.target_at(node))?;
            tree.end_of(node)
        } else {
            number + 1
        };
    }
    Ok(targets)
}
