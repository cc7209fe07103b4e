//! The tree above a cut.

ghost use Rattle.std.specs.List.{All};
ghost use Rattle.split_tree.specs.Inner.Nodes.{HasVariable, preorder};
ghost use Rattle.std.specs.Prelude.{◌≡◌, ◌≤◌, ◌<◌, ◌++◌, IfOk, OnOk};
ghost use Rattle.split_tree.specs.SplitTree.{size, subtree_at};
ghost use Rattle.split_tree.specs.Parts.{top, top_nodes};

use crate::node::NodeId;
use crate::nodes::Nodes;
use crate::shape::Shape;
use crate::tree::Tree;
use std::alloc::{AllocError, Global};

/// The nodes above a cut, with the parts as leaves, and their numbers in the whole tree.
#[derive(Drop)]
pub struct Top {
    /// The nodes above the cut, with the parts as missing leaves.
    pub tree: Tree,
    /// For each of its nodes, in tree order, the node of the whole tree.
    pub nodes: Vec<NodeId>,
}

impl Nodes {
    /// Adds the top of the tree below a node.
    fn push_top(
        &self,
        alloc: Global,
        node: usize,
        cut: u32,
        shapes: &mut Vec<Shape>,
        nodes: &mut Vec<NodeId>,
    ) -> Result<(), AllocError>
        requires { node < size self.now }
        ensures shapes { OnOk result
            (shapes.new.items ≡ shapes.old.items ++ preorder (top cut (subtree_at self.now node))) }
        ensures variables { All HasVariable shapes.old.items
            → OnOk result (All HasVariable shapes.new.items) }
        ensures nodes { OnOk result
            (nodes.new.items ≡ nodes.old.items ++ top_nodes cut node (subtree_at self.now node)) }
    {
        // The proof takes from this call that the tree has fewer than 2 to the power 32 nodes.
        let _few = self.size();
        nodes.push(NodeId::new(node as u32))?;
        if cut > 0 {
            if let Some((positive, negative)) = self.branches(node) {
                shapes.push(Shape::Split(self.variable_of(node)))?;
                self.push_top(alloc, positive, cut - 1, shapes, nodes)?;
                return self.push_top(alloc, negative, cut - 1, shapes, nodes);
            }
        }
        shapes.push(Shape::Missing)?;
        Ok(())
    }
}

impl Tree {
    /// The tree above a cut: the nodes at its depth and the leaves above it become missing leaves,
    /// the parts. It asks for a cut from 0 to 6. `AllocError` where a growth was refused.
    pub fn top(&self, alloc: Global, cut: u32) -> Result<Top, AllocError>
        requires { cut ≤ 6 }
        ensures tree { IfOk result (λ above. above.tree ≡ top cut self.now) }
        ensures nodes { IfOk result (λ above. above.nodes.items ≡ top_nodes cut 0 self.now) }
    {
        // The proof takes from this call that the tree has fewer than 2 to the power 32 nodes.
        let _few = self.nodes.size();
        let mut shapes = Vec::new(alloc);
        let mut nodes = Vec::new(alloc);
        self.nodes.push_top(alloc, 0, cut, &mut shapes, &mut nodes)?;
        let above = Nodes::of_shapes(alloc, shapes)?;
        let tree = Tree::of_nodes(alloc, above, 0)?;
        Ok(Top { tree, nodes })
    }
}
