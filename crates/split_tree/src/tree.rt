//! The splitting tree of a list of cubes.

ghost use Rattle.std.specs.Prelude.{◌≡◌, ◌≤◌, ◌⊎◌, ◌+◌, ◌^◌, ◌<◌, length, IfOk, IfErr, IsOk};
ghost use Rattle.std.specs.List.{AllByRecursion};
ghost use Rattle.split_tree.specs.Clash.{cube_lists, IsClashFault, AllFit};
ghost use Rattle.cnf_text.specs.Icnf.{literal_count};
ghost use Rattle.split_tree.specs.SplitTree.{numbered, IsTreeOf, total};
ghost use Rattle.split_tree.specs.declared.clash.TreeFault.TheVariants.{Memory};
ghost use Rattle.split_tree.specs.Inner.Tables.{AreCubeLeaves};

use crate::clash::{TreeFault, fault_of};
use crate::grow::{at_root, grow};
use crate::nodes::Nodes;
use cnf_text::literal::Lit;
use std::alloc::{AllocError, Global};
use std::marker::Model;

/// A splitting tree: its nodes in tree order, the parent and the weight of each, and where each
/// leaf stands.
#[derive(Drop)]
pub struct Tree {
    pub(crate) nodes: Nodes,
    pub(crate) parents: Vec<u32>,
    pub(crate) weights: Vec<u64>,
    pub(crate) cube_nodes: Vec<u32>,
    pub(crate) missing_nodes: Vec<u32>,
}

impl Model for Tree {
    ghost use Rattle.split_tree.specs.SplitTree.{SplitTree};
    ghost use Rattle.split_tree.specs.Inner.Tables.{IsTabled};
    ghost use Rattle.split_tree.specs.TreeCode.{tree_code};

    ghost Value = { SplitTree };

    ghost coded = { tree_code };

    ghost view = { λ t. t.nodes };

    ghost invariant = { λ t. IsTabled t.nodes t.parents.items t.weights.items t.cube_nodes.items
        t.missing_nodes.items };
}

/// The tree of these cubes, numbered from 1 in their order. A cube's literals are read, in the
/// order as written, as its splits.
///
/// It asks for at most 1,048,576 cubes, of at most 4,096 literals each and 16,777,216 together.
///
/// # Errors
///
/// Where two cubes clash, the clash of the pair with the least second cube and, among those, the
/// least first: `Repeats` (by the second's number), `NotATree` or `Overlap`. `Memory` where a
/// growth was refused.
pub fn build(alloc: Global, cubes: &[Vec<Lit>]) -> Result<Tree, TreeFault>
    // The cubes keep the limits of an iCNF text: their number, their literals and their lengths.
    requires count { length cubes.now ≤ 1048576 }
    requires literals { literal_count (cube_lists cubes.now) ≤ 16777216 }
    requires each { AllByRecursion (λ cube. length cube ≤ 4096) (cube_lists cubes.now) }
    // The value is the tree of the cubes, which then all fit.
    ensures tree { IfOk result (λ tree. IsTreeOf tree (numbered 1 (cube_lists cubes.now))) }
    ensures fit { IsOk result → AllFit (cube_lists cubes.now) }
    // All its leaves together weigh little enough for 64 bits.
    ensures total { IfOk result (λ tree. total 0 tree ≤ 2 ^ 60 + 2 ^ 24) }
    // A refusal names the clash of the cubes, unless memory ran out.
    ensures fault { IfErr result
        (λ fault. (fault ≡ Memory) ⊎ IsClashFault (cube_lists cubes.now) fault) }
{
    let start = at_root(alloc, cubes)?;
    let Some(shapes) = grow(alloc, start)? else {
        return Err(fault_of(alloc, cubes)?);
    };
    let nodes = Nodes::of_shapes(alloc, shapes)?;
    let tree = Tree::of_nodes(alloc, nodes, cubes.len())?;
    Ok(tree)
}

impl Tree {
    /// The tree of these nodes, with leaves of so many cubes.
    pub(crate) fn of_nodes(alloc: Global, nodes: Nodes, cubes: usize) -> Result<Tree, AllocError>
        requires { AreCubeLeaves nodes cubes }
        ensures { IfOk result (λ tree. tree ≡ nodes) }
    {
        let parents = nodes.parents(alloc)?;
        let mut weights = nodes.weights(alloc, &parents)?;
        nodes.add_up(&mut weights);
        let cube_nodes = nodes.cube_nodes(alloc, cubes)?;
        let missing_nodes = nodes.missing_nodes(alloc)?;
        // The proof takes from this call that the tree has fewer than 2 to the power 32 nodes.
        let _few = nodes.size();
        Ok(Tree {
            nodes,
            parents,
            weights,
            cube_nodes,
            missing_nodes,
        })
    }
}
