ghost use Rattle.std.specs.Prelude.{◌≡◌, ◌<◌, ◌^◌, ◌-◌, length, IfOk, MatchBool};
ghost use Rattle.split_tree.specs.Clash.{relation_of, AllFit, IsClashFault, cube_lists};
ghost use Rattle.split_tree.specs.Inner.Clash.{IsFitting, FaultAfter};

use crate::second::fitting;
use cnf_text::literal::Lit;
use std::alloc::{AllocError, Global};
use thiserror::Error;

/// How two cubes lie to each other, after their longest common beginning.
#[derive(Clone, Copy)]
pub enum Relation {
    /// Their next literals are complementary.
    Fit,
    /// They are equal.
    Equal,
    /// Just one of them has ended.
    Prefix,
    /// Their next literals are of different variables.
    Unrelated,
}

/// Why cubes have no tree. Cubes are numbered from 1.
#[derive(PartialEq, Eq, Debug, Drop, Error)]
pub enum TreeFault {
    /// This cube equals an earlier one.
    #[error("F7 cube {cube} repeats")]
    Repeats { cube: u32 },
    /// These cubes go on with different variables.
    #[error("F8 cubes {first} and {second} are not of one tree")]
    NotATree { first: u32, second: u32 },
    /// One of these cubes begins the other.
    #[error("F9 cubes {first} and {second} overlap")]
    Overlap { first: u32, second: u32 },
    /// A growth was refused.
    #[error("F6 memory")]
    Memory,
}

impl From<AllocError> for TreeFault {
    ghost use Rattle.split_tree.specs.declared.clash.TreeFault.TheVariants.{Memory};

    ghost from_gives = { λ _ fault. fault ≡ Memory };

    fn from(_: AllocError) -> Self {
        TreeFault::Memory
    }
}

/// How these two cubes lie to each other.
pub fn compare(left: &[Lit], right: &[Lit]) -> Relation
    ensures { result ≡ relation_of left.now right.now }
{
    for (i, a) in left.iter().enumerate() {
        let Some(b) = right.get(i) else {
            return Relation::Prefix;
        };
        if a.variable() != b.variable() {
            return Relation::Unrelated;
        }
        if a.positive() != b.positive() {
            return Relation::Fit;
        }
    }
    if left.len() == right.len() {
        Relation::Equal
    } else {
        Relation::Prefix
    }
}

/// The fault of these cubes, of which some two clash.
pub fn fault_of(alloc: Global, cubes: &[Vec<Lit>]) -> Result<TreeFault, AllocError>
    requires few { length cubes.now < 2 ^ 32 }
    requires clash { AllFit (cube_lists cubes.now) → ⊥ }
    ensures { IfOk result (IsClashFault (cube_lists cubes.now)) }
{
    let second = fitting(alloc, cubes)?;
    match fault_with(&cubes[..second], &cubes[second]) {
        Some(fault) => Ok(fault),
        None => unreachable!(),
    }
}

/// The fault that this cube makes after those before it, which fit each other.
fn fault_with(before: &[Vec<Lit>], right: &[Lit]) -> Option<TreeFault>
    requires { length before.now < 2 ^ 32 - 1 }
    ensures { FaultAfter result (cube_lists before.now) right.now }
{
    let second = before.len() as u32 + 1;
    for (i, left) in before.iter().enumerate() {
        let first = i as u32 + 1;
        match compare(left, right) {
            Relation::Fit => {}
            Relation::Equal => return Some(TreeFault::Repeats { cube: second }),
            Relation::Prefix => return Some(TreeFault::Overlap { first, second }),
            Relation::Unrelated => return Some(TreeFault::NotATree { first, second }),
        }
    }
    None
}
