//! What a tree answers. None of these but `path_of` takes memory.

ghost use Rattle.std.specs.Prelude.{ℕ, ◌≡◌, ◌≤◌, ◌+◌, ◌<◌, ◌↔◌, length, IfOk, IsTrue};
ghost use Rattle.split_tree.specs.SplitTree.{size, total, subtree_at, depth_at, path_at};
ghost use Rattle.split_tree.specs.Navigation.{IsBelow, StepsToward, HasBranches, IsParentOf};
ghost use Rattle.split_tree.specs.Navigation.{AreTotals};
ghost use Rattle.split_tree.specs.Leaves.{missing_nodes, cube_count, leaf_count, IsLeafAt};
ghost use Rattle.split_tree.specs.Leaves.{IsLeafOf, HasLeaf, IsTargetAt, HasTarget, IsPathOf};
ghost use Rattle.split_tree.specs.Leaves.{IsWeightOf, IsNodeOf};

use crate::node::{Leaf, NodeId, Target};
use crate::shape::Shape;
use crate::tree::Tree;
use cnf_text::literal::Lit;
use std::alloc::{AllocError, Global};

impl Tree {
    /// The root.
    pub fn root(&self) -> NodeId
        ensures value { result ≡ 0 }
        ensures within { result < size self.now }
    {
        NodeId::new(0)
    }

    /// How many nodes it has, inner ones and leaves: their numbers are those below it.
    pub fn size(&self) -> u32
        ensures { result ≡ size self.now }
    {
        self.nodes.size() as u32
    }

    /// How many leaves it has, of cubes and missing ones.
    pub fn leaf_count(&self) -> u32
        ensures { result ≡ leaf_count self.now }
    {
        (self.cube_nodes.len() + self.missing_nodes.len()) as u32
    }

    /// How many cubes it has. Their leaves are `Cube(1)` to `Cube` of this number.
    pub fn cube_count(&self) -> u32
        ensures count { result ≡ cube_count self.now }
        ensures leaves { (k : ℕ) → 1 ≤ k → k ≤ result → HasLeaf self.now (Leaf.Cube k) }
    {
        self.cube_nodes.len() as u32
    }

    /// How many missing leaves it has. They are `Missing(1)` to `Missing` of this number.
    pub fn missing_count(&self) -> u32
        ensures { result ≡ length (missing_nodes self.now) }
    {
        self.missing_nodes.len() as u32
    }

    /// Whether it has this leaf.
    pub fn has_leaf(&self, leaf: Leaf) -> bool
        ensures { IsTrue result ↔ HasLeaf self.now leaf }
    {
        match leaf {
            Leaf::Cube(number) => 1 <= number && number as usize <= self.cube_nodes.len(),
            Leaf::Missing(number) => 1 <= number && number as usize <= self.missing_nodes.len(),
        }
    }

    /// The branches of a node, the positive one first, or `None` for a leaf. It asks for a node of
    /// the tree.
    pub fn branches(&self, node: NodeId) -> Option<(NodeId, NodeId)>
        requires { node < size self.now }
        ensures { HasBranches self.now node result }
    {
        let (first, second) = self.nodes.branches(node.index())?;
        Some((NodeId::new(first as u32), NodeId::new(second as u32)))
    }

    /// The leaf that stands at a node, or `None` for an inner node. It asks for a node of the tree.
    pub fn leaf_at(&self, node: NodeId) -> Option<Leaf>
        requires { node < size self.now }
        ensures { IsLeafOf self.now node result }
    {
        match self.nodes.shape(node.index()) {
            Shape::Cube(number) => Some(Leaf::Cube(number)),
            Shape::Split(_) => None,
            Shape::Missing => match self.missing_nodes.binary_search(&node.number()) {
                Ok(place) => Some(Leaf::Missing(place as u32 + 1)),
                Err(_) => unreachable!(),
            },
        }
    }

    /// The target that stands at a node: the leaf there, or the inner node. It asks for a node of
    /// the tree.
    pub fn target_at(&self, node: NodeId) -> Target
        requires { node < size self.now }
        ensures { IsTargetAt self.now node result }
    {
        match self.leaf_at(node) {
            Some(leaf) => Target::Leaf(leaf),
            None => Target::Node(node),
        }
    }

    /// The node at which a leaf stands. It asks for a leaf of the tree.
    pub fn node_of_leaf(&self, leaf: Leaf) -> NodeId
        // The tree has the leaf.
        requires { HasLeaf self.now leaf }
        // The leaf stands at this node, and at no other.
        ensures here { IsLeafAt self.now result leaf }
        ensures only { (node : ℕ) → IsLeafAt self.now node leaf → node ≡ result }
        // The answer is a node of the tree.
        ensures within { result < size self.now }
    {
        NodeId::new(match leaf {
            Leaf::Cube(number) => self.cube_nodes[number as usize - 1],
            Leaf::Missing(number) => self.missing_nodes[number as usize - 1],
        })
    }

    /// The node at which a target stands. It asks for a target of the tree: a leaf, or an inner
    /// node.
    pub fn node_of_target(&self, target: Target) -> NodeId
        // The tree has the target.
        requires { HasTarget self.now target }
        // The target stands at this node, and at no other.
        ensures here { IsTargetAt self.now result target }
        ensures only { (node : ℕ) → IsTargetAt self.now node target → node ≡ result }
        // The answer is a node of the tree.
        ensures within { result < size self.now }
    {
        match target {
            Target::Leaf(leaf) => self.node_of_leaf(leaf),
            Target::Node(node) => node,
        }
    }

    /// The node of which this one is a branch, or `None` for the root. It asks for a node of the
    /// tree.
    pub fn parent(&self, node: NodeId) -> Option<NodeId>
        requires { node < size self.now }
        ensures { IsParentOf self.now node result }
    {
        if node.number() == 0 {
            None
        } else {
            Some(NodeId::new(self.parents[node.index()]))
        }
    }

    /// The number behind the last node under a node: the nodes under it, itself among them, are
    /// those from its own number up to this one. It asks for a node of the tree.
    pub fn end_of(&self, node: NodeId) -> u32
        requires { node < size self.now }
        ensures { result ≡ node + size (subtree_at self.now node) }
    {
        self.nodes.end(node.index())
    }

    /// The branch of a node that is, or leads to, a target below it. It asks for a target that lies
    /// below the node.
    pub fn toward(&self, node: NodeId, target: NodeId) -> NodeId
        requires { IsBelow self.now node target }
        ensures { StepsToward self.now node target result }
    {
        NodeId::new(self.nodes.toward(node.index(), target.index()) as u32)
    }

    /// The path of a target: the literals on the way down to it from the root. It asks for a target
    /// of the tree: a leaf, or an inner node. `AllocError` where a growth was refused.
    pub fn path_of(&self, alloc: Global, target: Target) -> Result<Vec<Lit>, AllocError>
        requires { HasTarget self.now target }
        ensures { IfOk result (λ path. IsPathOf self.now target path.items) }
    {
        self.path_to(alloc, self.node_of_target(target))
    }

    /// The path of a node: the literals on the way down to it from the root. It asks for a node of
    /// the tree. `AllocError` where a growth was refused.
    pub fn path_to(&self, alloc: Global, node: NodeId) -> Result<Vec<Lit>, AllocError>
        requires { node < size self.now }
        ensures { IfOk result (λ path. path.items ≡ path_at self.now node) }
    {
        self.nodes.path_to(alloc, node.index())
    }

    /// The weight of a leaf: 2 to the power 60 - d at depth d up to 60, and 1 below. It asks for a
    /// leaf of the tree.
    pub fn weight_of(&self, leaf: Leaf) -> u64
        requires { HasLeaf self.now leaf }
        ensures weight { IsWeightOf self.now leaf result }
        ensures some { 1 ≤ result }
    {
        self.weight_under(self.node_of_leaf(leaf))
    }

    /// What the leaves under a node weigh together. It asks for a node of the tree.
    pub fn weight_under(&self, node: NodeId) -> u64
        requires { node < size self.now }
        ensures { result ≡ total (depth_at self.now node) (subtree_at self.now node) }
    {
        self.weights[node.index()]
    }

    /// For each node, in tree order, what the leaves under it weigh together.
    pub fn weights(&self) -> &[u64]
        ensures { AreTotals self.now result.now }
    {
        &self.weights
    }

    /// What all leaves weigh together.
    pub fn total(&self) -> u64
        ensures { result ≡ total 0 self.now }
    {
        self.weight_under(self.root())
    }

    /// The inner node with this path, or `None` where the path is a leaf's or leaves the tree.
    pub fn node_of(&self, path: &[Lit]) -> Option<NodeId>
        ensures { IsNodeOf self.now path.now result }
    {
        let mut here = 0;
        for literal in path {
            let (first, second) = self.nodes.branches(here)?;
            if literal.variable() != self.nodes.variable_of(here) {
                return None;
            }
            here = if literal.positive() { first } else { second };
        }
        self.nodes.branches(here)?;
        Some(NodeId::new(here as u32))
    }
}
