//! The nodes of a tree in tree order, and the way from each to its branches.

ghost use Rattle.cnf_text.specs.Literal.{IsVariable};
ghost use Rattle.std.specs.List.{All};
ghost use Rattle.std.specs.Prelude.{◌≡◌, ◌+◌, ◌^◌, ◌<◌, length, IfOk};
ghost use Rattle.split_tree.specs.SplitTree.{IsSplit, size, path_at, subtree_at, split_variable};
ghost use Rattle.split_tree.specs.Inner.Nodes.{preorder, tree_of, root_shape, HasVariable};
ghost use Rattle.split_tree.specs.Navigation.{IsBelow, StepsToward, HasBranches};

use crate::rows::ends_of;
use crate::shape::Shape;
use cnf_text::literal::Lit;
use std::alloc::{AllocError, Global};
use std::marker::Model;

/// What stands at each node, and where the nodes under it end.
#[derive(Drop)]
pub struct Nodes {
    shapes: Vec<Shape>,
    ends: Vec<u32>,
}

impl Model for Nodes {
    ghost use Rattle.split_tree.specs.SplitTree.{SplitTree};
    ghost use Rattle.split_tree.specs.Inner.Nodes.{tree_of, IsStored};
    ghost use Rattle.split_tree.specs.TreeCode.{tree_code};

    ghost Value = { SplitTree };

    ghost coded = { tree_code };

    ghost view = { λ t. tree_of t.shapes.items };

    ghost invariant = { λ t. IsStored t.shapes.items t.ends.items };
}

impl Nodes {
    /// The tree of these nodes in tree order.
    pub fn of_shapes(alloc: Global, shapes: Vec<Shape>) -> Result<Nodes, AllocError>
        // They are the nodes of one tree, a node before its branches, and fewer than 2 ^ 32.
        requires nodes { shapes.items ≡ preorder (tree_of shapes.items) }
        requires few { length shapes.items < 2 ^ 32 }
        // Each split is on a variable that the formats allow.
        requires variables { All HasVariable shapes.items }
        // The value is the tree whose nodes these are.
        ensures { IfOk result (λ nodes. nodes ≡ tree_of shapes.items) }
    {
        let ends = ends_of(alloc, &shapes)?;
        Ok(Nodes { shapes, ends })
    }

    /// The branch of a node that is, or leads to, a node below it.
    pub fn toward(&self, node: usize, target: usize) -> usize
        requires { IsBelow self.now node target }
        ensures { StepsToward self.now node target result }
    {
        let negative = self.ends[node + 1] as usize;
        if target < negative {
            node + 1
        } else {
            negative
        }
    }

    /// The variable on which an inner node splits.
    pub fn variable_of(&self, node: usize) -> u32
        // It is an inner node of the tree.
        requires within { node < size self.now }
        requires inner { IsSplit (subtree_at self.now node) }
        // The answer is the variable on which it splits, which the formats allow.
        ensures value { result ≡ split_variable (subtree_at self.now node) }
        ensures range { IsVariable result }
    {
        match self.shapes[node] {
            Shape::Split(variable) => variable,
            _ => unreachable!(),
        }
    }

    /// The branches of a node, the positive one first, or `None` at a leaf.
    pub fn branches(&self, node: usize) -> Option<(usize, usize)>
        requires { node < size self.now }
        ensures { HasBranches self.now node result }
    {
        if let Shape::Split(_) = self.shapes[node] {
            Some((node + 1, self.ends[node + 1] as usize))
        } else {
            None
        }
    }

    /// The path of a node.
    pub fn path_to(&self, alloc: Global, node: usize) -> Result<Vec<Lit>, AllocError>
        requires { node < size self.now }
        ensures { IfOk result (λ path. path.items ≡ path_at self.now node) }
    {
        let mut path = Vec::new(alloc);
        let mut here = 0;
        while here < node {
            let next = self.toward(here, node);
            path.push(Lit::from_parts(self.variable_of(here), next == here + 1))?;
            here = next;
        }
        Ok(path)
    }

    /// What stands at a node.
    pub fn shape(&self, node: usize) -> Shape
        requires { node < size self.now }
        ensures { result ≡ root_shape (subtree_at self.now node) }
    {
        self.shapes[node]
    }

    /// The number behind the last node under a node.
    pub fn end(&self, node: usize) -> u32
        requires { node < size self.now }
        ensures { result ≡ node + size (subtree_at self.now node) }
    {
        self.ends[node]
    }

    /// How many nodes it has.
    pub fn size(&self) -> usize
        ensures size { result ≡ size self.now }
        ensures few { result < 2 ^ 32 }
    {
        self.shapes.len()
    }
}
