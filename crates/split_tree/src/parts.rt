//! The parts of a cut.

ghost use Rattle.std.specs.Prelude.{◌≡◌, ◌≤◌, ◌<◌, ◌++◌, length, IfOk, OnOk};
ghost use Rattle.split_tree.specs.SplitTree.{size, subtree_at};
ghost use Rattle.split_tree.specs.Parts.{part_nodes};

use crate::node::NodeId;
use crate::nodes::Nodes;
use crate::tree::Tree;
use std::alloc::{AllocError, Global};

impl Nodes {
    /// Adds the parts below a node, which lies so many levels above the cut.
    fn push_parts(&self, node: usize, cut: u32, parts: &mut Vec<NodeId>) -> Result<(), AllocError>
        requires { node < size self.now }
        ensures { OnOk result
            (parts.new.items ≡ parts.old.items ++ part_nodes cut node (subtree_at self.now node)) }
    {
        // The proof takes from this call that the tree has fewer than 2 to the power 32 nodes.
        let _few = self.size();
        if cut > 0 {
            if let Some((positive, negative)) = self.branches(node) {
                self.push_parts(positive, cut - 1, parts)?;
                return self.push_parts(negative, cut - 1, parts);
            }
        }
        parts.push(NodeId::new(node as u32))?;
        Ok(())
    }
}

impl Tree {
    /// The parts of a cut, in tree order, each by its root: the nodes at the cut's depth and the
    /// leaves above it. The part's number is its place, from 0. It asks for a cut from 0 to 6.
    /// `AllocError` where a growth was refused.
    pub fn parts(&self, alloc: Global, cut: u32) -> Result<Vec<NodeId>, AllocError>
        requires { cut ≤ 6 }
        ensures nodes { IfOk result (λ parts. parts.items ≡ part_nodes cut 0 self.now) }
        ensures few { IfOk result (λ parts. length parts.items ≤ 64) }
    {
        let mut parts = Vec::new(alloc);
        self.nodes.push_parts(0, cut, &mut parts)?;
        Ok(parts)
    }
}
