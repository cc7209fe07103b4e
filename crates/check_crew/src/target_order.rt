//! In which order a run reads the proofs that lie elsewhere.

ghost use Rattle.std.specs.Prelude.{◌≡◌, ◌<◌, All, IfOk, OnOk, vec_len};
ghost use Rattle.case_core.specs.SplitTree.{size};
ghost use Rattle.proof_folder.specs.TargetProofs.{Known};
ghost use Rattle.check_crew.specs.Inner.Apart.{AreAbsent};

use crate::gate::Elsewhere;
use case_core::{Case, Leaf, NodeId, Target};
use proof_folder::TargetProofs;
use std::alloc::{AllocError, Global};
use std::cmp::Reverse;

/// The targets of a case in the order in which their proofs are read, what is known of all these
/// proofs beforehand, and for which inner nodes none lies there.
#[derive(Drop)]
pub(crate) struct TargetOrder {
    pub(crate) targets: Vec<Target>,
    pub(crate) elsewhere: Elsewhere,
    /// For each node whether it is an inner one, for which nothing lies elsewhere.
    pub(crate) absent: Vec<bool>,
}

/// Targets with the lengths of their proofs, and what is known of all these proofs.
#[derive(Drop)]
struct Measured {
    lengths: Vec<(u64, Target)>,
    elsewhere: Elsewhere,
}

impl Measured {
    /// One target more, whose proof is so long, as far as that can be told.
    fn add(&mut self, target: Target, length: Option<u64>) -> Result<(), AllocError> {
        if let Some(length) = length {
            self.elsewhere.proofs = self.elsewhere.proofs.saturating_add(1);
            self.elsewhere.bytes = self.elsewhere.bytes.saturating_add(length);
        }
        self.lengths.push((length.unwrap_or(0), target))?;
        Ok(())
    }

    /// The targets, those of longer proofs first.
    fn in_order(self, alloc: Global) -> Result<Vec<Target>, AllocError> {
        let Measured { mut lengths, .. } = self;
        lengths.sort_by_key(|one| Reverse(one.0))?;
        lengths.iter().map(|one| one.1).collect(alloc)
    }
}

/// The leaf of this number, from 0: the cubes in their order, and then the missing leaves.
fn leaf_of(cubes: u32, number: u32) -> Leaf {
    if number < cubes {
        Leaf::Cube(number + 1)
    } else {
        Leaf::Missing((number - cubes).saturating_add(1))
    }
}

/// Adds the leaves of a case, by the first of the readers.
fn add_leaves<P: TargetProofs>(
    case: &Case,
    first: &P,
    measured: &mut Measured,
) -> Result<(), AllocError> {
    let cubes = case.tree().cube_count();
    for number in 0..case.tree().leaf_count() {
        let asked = Target::Leaf(leaf_of(cubes, number));
        let length = first.length(asked);
        measured.add(Target::Leaf(leaf_of(cubes, number)), length)?;
    }
    Ok(())
}

/// Adds a node, if it is an inner one for which something may lie there; other inner nodes are
/// noted.
fn add_node<P: TargetProofs>(
    case: &Case,
    first: &P,
    node: NodeId,
    measured: &mut Measured,
    absent: &mut Vec<bool>,
) -> Result<(), AllocError>
    requires node { node < size case.now.tree }
    requires long { vec_len absent.old ≡ size case.now.tree }
    ensures len { vec_len absent.new ≡ vec_len absent.old }
    ensures absent { AreAbsent (P.held first.now) absent.old.items
        → AreAbsent (P.held first.now) absent.new.items }
{
    if case.tree().leaf_at(node).is_some() {
        return Ok(());
    }
    if first.may_have(Target::Node(node)) {
        let length = first.length(Target::Node(node));
        return measured.add(Target::Node(node), length);
    }
    absent[node.index()] = true;
    Ok(())
}

/// Adds the inner nodes of a case for which something may lie there, and answers for which nodes
/// nothing does.
fn add_nodes<P: TargetProofs>(
    alloc: Global,
    case: &Case,
    first: &P,
    measured: &mut Measured,
) -> Result<Vec<bool>, AllocError>
    ensures long { IfOk result (λ absent. vec_len absent ≡ size case.now.tree) }
    ensures absent { IfOk result (λ absent. AreAbsent (P.held first.now) absent.items) }
{
    let count = case.tree().size();
    let mut absent = vec![in alloc; false; count as usize]?;
    for number in 0..count {
        add_node(case, first, NodeId::new(number), measured, &mut absent)?;
    }
    Ok(absent)
}

/// All leaves of a case, and those of its inner nodes for which something may lie there. Those of
/// longer proofs come first, ties in the order of the cubes, then of the missing leaves, and then
/// of the inner nodes: so no worker begins a long proof when the others are nearly done.
/// `AllocError` where a growth was refused.
///
/// No contract speaks of the order: that each target was read is compared when the workers have
/// ended, by what is noted of inner nodes.
pub(crate) fn targets_in_order<P: TargetProofs>(
    alloc: Global,
    case: &Case,
    first: &P,
) -> Result<TargetOrder, AllocError>
    ensures long { IfOk result (λ order. vec_len order.absent ≡ size case.now.tree) }
    ensures absent { IfOk result (λ order. AreAbsent (P.held first.now) order.absent.items) }
{
    let mut measured = Measured {
        lengths: Vec::with_capacity(alloc, case.tree().leaf_count() as usize)?,
        elsewhere: Elsewhere {
            proofs: 0,
            bytes: 0,
        },
    };
    add_leaves(case, first, &mut measured)?;
    let absent = add_nodes(alloc, case, first, &mut measured)?;
    let elsewhere = measured.elsewhere;
    let targets = measured.in_order(alloc)?;
    Ok(TargetOrder {
        targets,
        elsewhere,
        absent,
    })
}
