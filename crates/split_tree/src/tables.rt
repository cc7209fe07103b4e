//! Tables over the nodes of a tree, each made once.

ghost use Rattle.std.specs.Prelude.{◌≡◌, ◌+◌, ◌<◌, ℕ, suc, IfOk};
ghost use Rattle.split_tree.specs.SplitTree.{size, weight};
ghost use Rattle.split_tree.specs.Leaves.{missing_nodes};
ghost use Rattle.split_tree.specs.Inner.Tables.{AreParents, AreWeights, AreCubeLeaves};
ghost use Rattle.split_tree.specs.Inner.Tables.{AreCubeNodes};
ghost use Rattle.split_tree.specs.Navigation.{AreTotals};

use crate::nodes::Nodes;
use crate::shape::Shape;
use std::alloc::{AllocError, Global};

/// The weight of a leaf at the root.
const ROOT_WEIGHT: u64 = 1_152_921_504_606_846_976;

/// The weight of a leaf one level below the depth whose leaves weigh so much.
fn branch_weight(above: u64) -> u64
    ensures { (depth : ℕ) → above ≡ weight depth → result ≡ weight (suc depth) }
{
    if above > 1 { above / 2 } else { 1 }
}

impl Nodes {
    /// The node of which each node is a branch, and 0 for the root.
    pub fn parents(&self, alloc: Global) -> Result<Vec<u32>, AllocError>
        ensures { IfOk result (λ parents. AreParents self.now parents.items) }
    {
        let count = self.size();
        let mut parents = vec![in alloc; 0; count]?;
        for i in 0..count {
            if let Some((first, second)) = self.branches(i) {
                parents[first] = i as u32;
                parents[second] = i as u32;
            }
        }
        Ok(parents)
    }

    /// For each node what a leaf at its depth weighs.
    pub fn weights(&self, alloc: Global, parents: &[u32]) -> Result<Vec<u64>, AllocError>
        requires { AreParents self.now parents.now }
        ensures { IfOk result (λ weights. AreWeights self.now weights.items) }
    {
        let mut weights = Vec::new(alloc);
        for i in 0..self.size() {
            let weight = if i == 0 {
                ROOT_WEIGHT
            } else {
                branch_weight(weights[parents[i] as usize])
            };
            weights.push(weight)?;
        }
        Ok(weights)
    }

    /// Adds up what the leaves under each node weigh together.
    pub fn add_up(&self, weights: &mut [u64])
        requires { AreWeights self.now weights.old }
        ensures { AreTotals self.now weights.new }
    {
        for i in (0..self.size()).rev() {
            if let Some((first, second)) = self.branches(i) {
                weights[i] = weights[first] + weights[second];
            }
        }
    }

    /// The node of each cube's leaf.
    pub fn cube_nodes(&self, alloc: Global, cubes: usize) -> Result<Vec<u32>, AllocError>
        requires { AreCubeLeaves self.now cubes }
        ensures { IfOk result (λ nodes. AreCubeNodes self.now nodes.items) }
    {
        let mut nodes = vec![in alloc; 0; cubes]?;
        for i in 0..self.size() {
            if let Shape::Cube(number) = self.shape(i) {
                nodes[number as usize - 1] = i as u32;
            }
        }
        Ok(nodes)
    }

    /// The node of each missing leaf.
    pub fn missing_nodes(&self, alloc: Global) -> Result<Vec<u32>, AllocError>
        ensures { IfOk result (λ nodes. nodes.items ≡ missing_nodes self.now) }
    {
        let mut nodes = Vec::new(alloc);
        for i in 0..self.size() {
            if let Shape::Missing = self.shape(i) {
                nodes.push(i as u32)?;
            }
        }
        Ok(nodes)
    }
}
