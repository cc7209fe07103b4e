//! The nodes of the tree of some cubes, each before its branches.

ghost use Rattle.std.specs.Prelude.{length, ◌<◌, ◌^◌, true, false, OnOk, ◌∷◌, ◌++◌, ◌≡◌, IfOk};
ghost use Rattle.std.specs.Prelude.{IfSome, IsTrue, ◌↔◌, []};
ghost use Rattle.std.specs.List.{All, AllByRecursion};
ghost use Rattle.split_tree.specs.Inner.Nodes.{HasVariable};
ghost use Rattle.split_tree.specs.SplitTree.{numbered, going, SplitsOn};
ghost use Rattle.split_tree.specs.Clash.{cube_lists};
ghost use Rattle.split_tree.specs.Inner.Grow.{cubes_ahead, group_ahead, IsShapeAt, AreShapesOf};
ghost use Rattle.split_tree.specs.Inner.Grow.{waiting};

use crate::group::{Ahead, Group, gathered};
use crate::shape::Shape;
use cnf_text::literal::Lit;
use std::alloc::{AllocError, Global};

/// Whether each of these cubes goes on with a literal of this variable.
fn all_split_on(variable: u32, cubes: &[Ahead]) -> bool
    ensures { IsTrue result ↔ AllByRecursion (λ c. SplitsOn variable c.literals)
        (cubes_ahead cubes.now) }
{
    for cube in cubes {
        if !cube.splits_on(variable) {
            return false;
        }
    }
    true
}

/// What stands where these cubes have come to, or `None` where two of them clash.
fn shape_of(cubes: &[Ahead]) -> Option<Shape>
    ensures shape { IsShapeAt result (cubes_ahead cubes.now) }
    ensures variable { IfSome result HasVariable }
{
    let Some(first) = cubes.first() else {
        return Some(Shape::Missing);
    };
    let Some(literal) = first.literals.first() else {
        return if cubes.len() == 1 {
            Some(Shape::Cube(first.number))
        } else {
            None
        };
    };
    let variable = literal.variable();
    if all_split_on(variable, cubes) {
        Some(Shape::Split(variable))
    } else {
        None
    }
}

/// What stands where this group has come to, or `None` where two of its cubes clash.
fn shape_at(group: &Group) -> Option<Shape>
    ensures shape { IsShapeAt result (group_ahead group.now) }
    ensures variable { IfSome result HasVariable }
{
    if group.cubes.is_empty() {
        return Some(Shape::Missing);
    }
    match group.shared.first() {
        Some(next) => {
            let variable = next.variable();
            Some(Shape::Split(variable))
        }
        None => shape_of(&group.cubes),
    }
}

/// The cubes that go the way of this sign.
fn cubes_going<'a>(
    alloc: Global,
    sign: bool,
    cubes: &[Ahead<'a>],
) -> Result<Vec<Ahead<'a>>, AllocError>
    ensures { IfOk result (λ way. cubes_ahead way.items ≡ going sign (cubes_ahead cubes.now)) }
{
    let mut way = Vec::new(alloc);
    for cube in cubes {
        if let Some(next) = cube.going(sign) {
            way.push(next)?;
        }
    }
    Ok(way)
}

/// The groups of both branches of a split on this group's cubes, the positive one first. What all
/// of them go on with leads all of them to one branch.
fn branches_of<'a>(alloc: Global, group: Group<'a>) -> Result<(Group<'a>, Group<'a>), AllocError>
    ensures positive { IfOk result
        (λ branches. group_ahead branches.0 ≡ going true (group_ahead group.entry)) }
    ensures negative { IfOk result
        (λ branches. group_ahead branches.1 ≡ going false (group_ahead group.entry)) }
{
    match group.shared {
        [next, rest @ ..] => {
            let all = Group {
                shared: rest,
                cubes: group.cubes,
            };
            let none = Group {
                shared: &[],
                cubes: Vec::new(alloc),
            };
            Ok(if next.positive() {
                (all, none)
            } else {
                (none, all)
            })
        }
        [] => {
            let positive = gathered(cubes_going(alloc, true, &group.cubes)?);
            let negative = gathered(cubes_going(alloc, false, &group.cubes)?);
            Ok((positive, negative))
        }
    }
}

/// Lets the branches of a split on this group's cubes wait, the positive one on top.
pub fn push_branches<'a>(
    alloc: Global,
    group: Group<'a>,
    pending: &mut Vec<Group<'a>>,
) -> Result<(), AllocError>
    ensures { OnOk result (waiting pending.new.items
        ≡ (waiting pending.old.items ++ going false (group_ahead group.entry) ∷ [])
        ++ going true (group_ahead group.entry) ∷ []) }
{
    let (positive, negative) = branches_of(alloc, group)?;
    pending.push(negative)?;
    pending.push(positive)?;
    Ok(())
}

/// The nodes of the tree of these cubes in tree order, or `None` where two of them clash.
pub fn grow(alloc: Global, start: Vec<Ahead>) -> Result<Option<Vec<Shape>>, AllocError>
    ensures shapes { IfOk result (AreShapesOf (cubes_ahead start.entry.items)) }
    ensures variables { IfOk result (λ shapes. IfSome shapes (λ rows. All HasVariable rows.items)) }
{
    let mut shapes = Vec::new(alloc);
    let mut pending = Vec::new(alloc);
    pending.push(gathered(start))?;
    while let Some(group) = pending.pop() {
        let Some(shape) = shape_at(&group) else {
            return Ok(None);
        };
        shapes.push(shape)?;
        let Shape::Split(_) = shape else {
            continue;
        };
        push_branches(alloc, group, &mut pending)?;
    }
    Ok(Some(shapes))
}

/// The cubes of a list at the root, numbered from 1.
pub fn at_root<'a>(alloc: Global, cubes: &'a [Vec<Lit>]) -> Result<Vec<Ahead<'a>>, AllocError>
    requires { length cubes.now < 2 ^ 32 }
    ensures { IfOk result (λ start. cubes_ahead start.items ≡ numbered 1 (cube_lists cubes.now)) }
{
    let mut start = Vec::new(alloc);
    for (i, cube) in cubes.iter().enumerate() {
        start.push(Ahead {
            number: i as u32 + 1,
            literals: cube,
        })?;
    }
    Ok(start)
}
