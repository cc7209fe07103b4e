//! Names of nodes and leaves.

ghost use Rattle.std.specs.Prelude.{◌≡◌, ◌<◌, ◌^◌};

use std::marker::Model;

/// A node of a tree, by its place in tree order, from 0: a node stands before its branches, and the
/// positive branch before the negative one. So the nodes under a node are a run of numbers that
/// begins with its own, and `<` is tree order.
#[derive(Clone, Copy, PartialEq, Eq, PartialOrd, Ord, Debug)]
pub struct NodeId {
    number: u32,
}

impl Model for NodeId {
    ghost use Rattle.std.specs.Prelude.{ℕ};

    ghost Value = { ℕ };

    ghost view = { λ n. n.number };

    ghost inverse = { λ n. record { number = n } };
}

impl NodeId {
    /// The node of this place in tree order. Nothing is said of whether a tree has it.
    pub fn new(number: u32) -> NodeId
        ensures { result ≡ number }
    {
        NodeId { number }
    }

    /// Its place in tree order.
    pub fn number(self) -> u32
        ensures { result ≡ self }
    {
        self.number
    }

    /// Its place in tree order, to read a table with.
    pub fn index(self) -> usize
        ensures value { result ≡ self }
        ensures few { result < 2 ^ 32 }
    {
        let NodeId { number } = self;
        number as usize
    }
}

/// A leaf of a tree.
#[derive(Clone, Copy, PartialEq, Eq, Debug)]
pub enum Leaf {
    /// The leaf of the cube of this number, from 1 in the order of the list.
    Cube(u32),
    /// The missing leaf of this number, from 1 in tree order: a branch without a cube.
    Missing(u32),
}

/// A node of a tree that a proof may be given for. A leaf is always named by `Leaf`.
#[derive(Clone, Copy, PartialEq, Eq, Debug)]
pub enum Target {
    /// A leaf.
    Leaf(Leaf),
    /// An inner node.
    Node(NodeId),
}
