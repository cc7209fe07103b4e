//! The marks of the nodes of a tree, and the open weight below each.

ghost use Rattle.std.specs.Prelude.{◌≡◌, ◌≢◌, ◌<◌, ◌↔◌, ℕ, length, IfOk, IsTrue, slice_index};
ghost use Rattle.std.specs.Prelude.{slice_set, replicate};
ghost use Rattle.split_tree.specs.SplitTree.{size, subtree_at};
ghost use Rattle.mark_board.specs.declared.mark.Mark.TheVariants.{Open, Refuted};
ghost use Rattle.mark_board.specs.Marking.{refuted_by, mark_at};
ghost use Rattle.mark_board.specs.Rows.{AreRowsKept};
ghost use Rattle.mark_board.specs.Inner.Rows.{CoversFrom, HasKept};
ghost use Rattle.mark_board.specs.Posting.{marks_after, MarksRoot};

use crate::mark::Mark;
use crate::walk::{cover, toward};
use split_tree::Tree;
use std::alloc::{AllocError, Global};

/// What a post did.
#[derive(Clone, Copy)]
pub enum Answer {
    /// The node stands as the finding says.
    Marked,
    /// The same, and this marked the root.
    RootMarked,
    /// The node had a mark, and nothing changed.
    Already,
}

/// A row for each node below a root, in tree order: its mark, and the open weight below it.
#[derive(Drop)]
pub(crate) struct Rows {
    pub marks: Vec<Mark>,
    pub weights: Vec<u64>,
}

impl Rows {
    /// The rows of nodes under which the leaves weigh so much together, with nothing marked.
    pub fn new(alloc: Global, worths: &[u64]) -> Result<Rows, AllocError>
        ensures marks { IfOk result
            (λ rows. rows.marks.items ≡ replicate (length worths.now) Open) }
        ensures weights { IfOk result (λ rows. rows.weights.items ≡ worths.now) }
    {
        let marks = Vec::from_elem(alloc, Mark::Open, worths.len())?;
        let mut weights = Vec::new(alloc);
        weights.extend_from_slice(worths)?;
        Ok(Rows { marks, weights })
    }

    /// What is posted of a node itself.
    pub fn mark_of(&self, node: usize) -> Mark
        requires { node < length self.now.marks.items }
        ensures { result ≡ mark_at self.now.marks.items node }
    {
        self.marks[node]
    }

    /// The open weight below a node.
    pub fn weight_of(&self, node: usize) -> u64
        requires { node < length self.now.weights.items }
        ensures { result ≡ slice_index self.now.weights.items node }
    {
        self.weights[node]
    }

    /// The first node on the way down to a node behind which no node above it is refuted.
    fn first_open(&self, tree: &Tree, root: usize, node: usize) -> usize
        requires root { root < size tree.now }
        requires node { node < size (subtree_at tree.now root) }
        requires long { length self.now.marks.items ≡ size (subtree_at tree.now root) }
        ensures { (worth : ℕ → ℕ)
            → CoversFrom (subtree_at tree.now root) worth
            (refuted_by self.now.marks.items) node result }
    {
        // The proof takes from this call that the tree has fewer than 2 to the power 32 nodes.
        let _few = tree.size();
        let mut here = 0;
        let mut first = 0;
        while here < node {
            let next = toward(tree, root, here, node);
            if let Mark::Refuted = self.marks[here] {
                first = next;
            }
            here = next;
        }
        first
    }

    /// Marks a node refuted, and says whether this marked the root.
    fn refute(&mut self, tree: &Tree, root: usize, node: usize) -> bool
        requires root { root < size tree.now }
        requires node { node < size (subtree_at tree.now root) }
        requires kept { HasKept (subtree_at tree.now root) self.old.marks.items
            self.old.weights.items }
        ensures marks { self.new.marks.items ≡ slice_set self.old.marks.items node Refuted }
        ensures kept { (worth : ℕ → ℕ)
            → AreRowsKept (subtree_at tree.now root) worth self.old.marks.items
            self.old.weights.items
            → AreRowsKept (subtree_at tree.now root) worth self.new.marks.items
            self.new.weights.items }
        ensures root { IsTrue result
            ↔ MarksRoot (subtree_at tree.now root) self.old.marks.items self.new.marks.items }
    {
        let first = self.first_open(tree, root, node);
        let was_open = self.weights[0] > 0;
        self.marks[node] = Mark::Refuted;
        cover(tree, root, &mut self.weights, first, node);
        was_open && self.weights[0] == 0
    }

    /// Marks a node as its finding says, if it has no mark yet.
    pub fn post(&mut self, tree: &Tree, root: usize, node: usize, mark: Mark) -> Answer
        // A node of the tree below the root, a mark, and open weights that are those of the marks.
        requires root { root < size tree.now }
        requires node { node < size (subtree_at tree.now root) }
        requires judged { mark ≢ Open }
        requires kept { HasKept (subtree_at tree.now root) self.old.marks.items
            self.old.weights.items }
        // The mark stands where none was, and the open weights are those of the new marks.
        ensures marks { self.new.marks.items ≡ marks_after result self.old.marks.items node mark }
        ensures kept { (worth : ℕ → ℕ)
            → AreRowsKept (subtree_at tree.now root) worth self.old.marks.items
            self.old.weights.items
            → AreRowsKept (subtree_at tree.now root) worth self.new.marks.items
            self.new.weights.items }
        // When it answers that the node had a mark, and when that the root became marked.
        ensures already { (result ≡ Answer.Already) ↔ (mark_at self.old.marks.items node ≢ Open) }
        ensures root { (result ≡ Answer.RootMarked)
            ↔ MarksRoot (subtree_at tree.now root) self.old.marks.items self.new.marks.items }
    {
        let Mark::Open = self.marks[node] else {
            return Answer::Already;
        };
        let Mark::Refuted = mark else {
            self.marks[node] = mark;
            return Answer::Marked;
        };
        if self.refute(tree, root, node) {
            Answer::RootMarked
        } else {
            Answer::Marked
        }
    }
}
