//! The second cube of the first clash, found in one walk down the tree.

ghost use Rattle.std.specs.Prelude.{◌≡◌, ◌<◌, ◌≤◌, ◌^◌, IfOk, MatchOption};
ghost use Rattle.std.specs.Prelude.{length, take, min, slice_get, Some};
ghost use Rattle.std.specs.List.{AllByRecursion};
ghost use Rattle.split_tree.specs.Clash.{AllFit, cube_lists};
ghost use Rattle.split_tree.specs.SplitTree.{SplitsOn};
ghost use Rattle.split_tree.specs.Inner.Clash.{IsFitting};
ghost use Rattle.split_tree.specs.Inner.Grow.{cubes_ahead, group_ahead};
ghost use Rattle.split_tree.specs.Inner.Second.{AreAlike};

use crate::group::{Ahead, Group, gathered};
use crate::grow::{at_root, push_branches};
use cnf_text::literal::Lit;
use std::alloc::{AllocError, Global};

/// How many of these cubes, from the first on, go on with a literal of this variable.
fn split_len(variable: u32, cubes: &[Ahead]) -> usize
    ensures within { result ≤ length cubes.now }
    ensures split { AllByRecursion (λ c. SplitsOn variable c.literals)
        (cubes_ahead (take result cubes.now)) }
    ensures next { (c : Ahead) → Some c ≡ slice_get cubes.now result
        → SplitsOn variable c.literals.now → ⊥ }
{
    for (index, cube) in cubes.iter().enumerate() {
        if !cube.splits_on(variable) {
            return index;
        }
    }
    cubes.len()
}

/// How many of these cubes, from the first on, may fit: those that go on with a literal of the
/// first one's variable, or that one alone where it has ended.
fn alike_len(cubes: &[Ahead]) -> usize
    ensures { AreAlike (cubes_ahead cubes.now) result }
{
    let Some(first) = cubes.first() else {
        return 0;
    };
    match first.literals.first() {
        Some(literal) => split_len(literal.variable(), cubes),
        None => 1,
    }
}

/// How many of this group's cubes, from the first on, may fit: all, where they go on together.
fn alike_in(group: &Group) -> usize
    ensures { AreAlike (group_ahead group.now) result }
{
    if group.shared.is_empty() {
        alike_len(&group.cubes)
    } else {
        group.cubes.len()
    }
}

/// The bound, or the number of the cube behind so many, where that is below it.
fn bound_behind(cubes: &[Ahead], count: usize, bound: u32) -> u32
    ensures { MatchOption (slice_get cubes.now count) (result ≡ bound)
        (λ c. result ≡ min c.number bound) }
{
    match cubes.get(count) {
        Some(cube) => cube.number.min(bound),
        None => bound,
    }
}

/// How many cubes fit before the first that clashes with one before it, where some two clash. The
/// bound is the least second cube of a clash that was found so far. Where the cubes at a node don't
/// all go on alike, the first that doesn't is the second of a clash, and only those before it can
/// be that of a lesser one. So all literals together are looked at a few times at most.
pub fn fitting(alloc: Global, cubes: &[Vec<Lit>]) -> Result<usize, AllocError>
    requires few { length cubes.now < 2 ^ 32 }
    requires clash { AllFit (cube_lists cubes.now) → ⊥ }
    ensures { IfOk result (IsFitting (cube_lists cubes.now)) }
{
    let mut bound = cubes.len() as u32;
    let mut pending = Vec::new(alloc);
    pending.push(gathered(at_root(alloc, cubes)?))?;
    while let Some(mut group) = pending.pop() {
        let alike = alike_in(&group);
        bound = bound_behind(&group.cubes, alike, bound);
        if alike > 1 {
            group.cubes.truncate(alike);
            push_branches(alloc, group, &mut pending)?;
        }
    }
    Ok(bound as usize - 1)
}
