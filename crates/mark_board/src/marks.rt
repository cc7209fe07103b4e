//! The marks of all nodes of a tree, whoever says them.

ghost use Rattle.std.specs.Prelude.{◌≡◌, ◌<◌, ℕ, length, IfOk};
ghost use Rattle.split_tree.specs.SplitTree.{size, subtree_at};
ghost use Rattle.split_tree.specs.Leaves.{HasTarget, IsTargetAt};
ghost use Rattle.mark_board.specs.Marking.{open_weight, open_branches, refuted_by, mark_at};
ghost use Rattle.mark_board.specs.Boards.{AreTargetsAt};
ghost use Rattle.mark_board.specs.TopPlaces.{worth_of};
ghost use Rattle.mark_board.specs.Rows.{AreRowsKept};
ghost use Rattle.mark_board.specs.declared.mark.Mark.TheVariants.{Open};
ghost use Rattle.std.specs.Prelude.{slice_set};

use crate::mark::Mark;
use crate::marked_tree::MarkedTree;
use crate::rows::Rows;
use case_core::{NodeId, Target, Tree};
use std::alloc::{AllocError, Global};
use std::marker::Model;

/// The marks of all nodes of a tree, with the open weight below each. Nothing says that what is
/// marked refuted has no model: so marks that somebody else tells can stand here.
#[derive(Drop)]
pub struct Marks<'t> {
    tree: &'t Tree,
    rows: Rows,
}

/// Gives a node that has no mark this one.
fn give(rows: &mut Rows, tree: &Tree, node: usize, mark: Mark)
    requires node { node < size tree.now }
    requires free { mark_at rows.old.marks.items node ≡ Open }
    requires kept { AreRowsKept tree.now (worth_of tree.now) rows.old.marks.items
        rows.old.weights.items }
    ensures marks { rows.new.marks.items ≡ slice_set rows.old.marks.items node mark }
    ensures kept { AreRowsKept tree.now (worth_of tree.now) rows.new.marks.items
        rows.new.weights.items }
{
    if let Mark::Open = mark {
        return;
    }
    let _ = rows.post(tree, 0, node, mark);
}

impl<'t> Model for Marks<'t> {
    ghost use Rattle.std.specs.Coded.{codes};
    ghost use Rattle.split_tree.specs.TreeCode.{tree_code};
    ghost use Rattle.mark_board.specs.Rows.{AreRowsKept};
    ghost use Rattle.mark_board.specs.Marks.{MarksOf};
    ghost use Rattle.mark_board.specs.TopPlaces.{worth_of};

    ghost Value = { MarksOf };

    ghost coded = { Prim.hlevel (codes, tree_code) };

    ghost view = { λ m. record { tree = m.tree.now; marks = m.rows.marks.items } };

    ghost invariant = { λ m. AreRowsKept m.tree.now (worth_of m.tree.now) m.rows.marks.items
        m.rows.weights.items };
}

impl<'t> Marks<'t> {
    /// These marks, one for each node of the tree in tree order. `AllocError` where a growth was
    /// refused.
    pub fn of(alloc: Global, tree: &'t Tree, marks: &[Mark]) -> Result<Marks<'t>, AllocError>
        requires { length marks.now ≡ size tree.now }
        ensures { IfOk result (λ made. (made.tree ≡ tree.now) × (made.marks ≡ marks.now)) }
    {
        let mut rows = Rows::new(alloc, tree.weights())?;
        for node in 0..marks.len() {
            give(&mut rows, tree, node, marks[node]);
        }
        Ok(Marks { tree, rows })
    }
}

impl<'t> MarkedTree for Marks<'t> {
    ghost splits = { λ m. m.tree };

    ghost marks = { λ m. m.marks };

    fn tree(&self) -> &Tree {
        self.tree
    }

    fn mark_at(&self, node: NodeId) -> Mark {
        self.rows.mark_of(node.index())
    }

    fn open_under(&self, node: NodeId) -> u64 {
        self.rows.weight_of(node.index())
    }
}
