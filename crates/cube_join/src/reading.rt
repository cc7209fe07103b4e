//! The marks by which a text may be the report on a tree.

ghost use Rattle.std.specs.Prelude.{◌≡◌, ◌<◌, ◌^◌, ◌++◌, ℕ, length, IfOk, IfSome, IsSomeAnd, List};
ghost use Rattle.split_tree.specs.SplitTree.{size, path_at, subtree_at, subtrees, IsSplit};
ghost use Rattle.split_tree.specs.Leaves.{cube_count, missing_nodes};
ghost use Rattle.case_core.specs.Literal.{Literal};
ghost use Rattle.mark_board.specs.declared.mark.Mark.{Mark};
ghost use Rattle.cube_report.specs.Report.{cube_line, missing_line, node_line};
ghost use Rattle.cube_report.specs.Report.{cube_lines, missing_lines, node_lines};
ghost use Rattle.cube_join.specs.Joined.{HasSmallSteps, IsLegible, IsToldBy};
ghost use Rattle.cube_join.specs.Inner.Fields.{HasSmallStep, AreVariables};
ghost use Rattle.cube_join.specs.Inner.Reading.{AreFound, HasCube, HasMissing, HasMarked, IsOther};

use crate::fields::{behind, behind_line, number_at_front, path_at_front};
use crate::status::status_at_front;
use case_core::{Leaf, Tree};
use mark_board::Mark;
use std::alloc::{AllocError, Global};

/// The marks by which a text may be the report on this tree, one for each node; `None` where it is
/// the report by none. They are the right ones where there are such; nothing is said of other
/// texts, so the report by them is compared with the text. `AllocError` where a growth was refused.
pub(crate) fn marks_in(
    alloc: Global,
    tree: &Tree,
    report: &[u8],
) -> Result<Option<Vec<Mark>>, AllocError>
    ensures long { IfOk result
        (λ found. IfSome found (λ marks. length marks.items ≡ size tree.now)) }
    ensures complete { IfOk result (λ found. IsLegible tree.now → (marks : List Mark)
        → HasSmallSteps marks → IsToldBy tree.now report.now marks
        → IsSomeAnd found (λ read. read.items ≡ marks)) }
{
    let mut found = Vec::from_elem(alloc, Mark::Open, tree.size() as usize)?;
    let Some(lines) = behind_line(report) else {
        return Ok(None);
    };
    let Some(lines) = read_cubes(tree, lines, &mut found) else {
        return Ok(None);
    };
    let Some(lines) = read_missing_leaves(alloc, tree, lines, &mut found)? else {
        return Ok(None);
    };
    read_nodes(alloc, tree, lines, &mut found)?;
    Ok(Some(found))
}

/// Reads the line of each cube, in order; answers what stands behind them, or `None` where one of
/// them isn't there.
fn read_cubes<'t>(tree: &Tree, text: &'t [u8], found: &mut Vec<Mark>) -> Option<&'t [u8]>
    requires { length found.old.items ≡ size tree.now }
    ensures long { length found.new.items ≡ size tree.now }
    ensures complete { (marks : List Mark) (rest : List ℕ) → HasSmallSteps marks
        → text.now ≡ cube_lines tree.now marks 1 (cube_count tree.now) ++ rest
        → AreFound marks (HasCube tree.now (cube_count tree.now)) found.old.items found.new.items
        × IsSomeAnd result (λ left. left.now ≡ rest) }
{
    let mut left = text;
    for before in 0..tree.cube_count() {
        let Some((mark, rest)) = cube_at_front(left) else {
            return None;
        };
        let node = tree.node_of_leaf(Leaf::Cube(before + 1));
        found[node.index()] = mark;
        left = rest;
    }
    Some(left)
}

/// Reads the line of each missing leaf, in order; answers what stands behind them, or `None` where
/// one of them isn't there. `AllocError` where a growth was refused.
fn read_missing_leaves<'t>(
    alloc: Global,
    tree: &Tree,
    text: &'t [u8],
    found: &mut Vec<Mark>,
) -> Result<Option<&'t [u8]>, AllocError>
    requires { length found.old.items ≡ size tree.now }
    ensures long { length found.new.items ≡ size tree.now }
    ensures complete { IfOk result (λ answer. (marks : List Mark) (rest : List ℕ)
        → IsLegible tree.now → HasSmallSteps marks
        → text.now ≡ missing_lines tree.now marks 1 (missing_nodes tree.now) ++ rest
        → AreFound marks (HasMissing tree.now (length (missing_nodes tree.now))) found.old.items
        found.new.items × IsSomeAnd answer (λ left. left.now ≡ rest)) }
{
    let mut left = text;
    for before in 0..tree.missing_count() {
        let node = tree.node_of_leaf(Leaf::Missing(before + 1));
        let Some((mark, rest)) = missing_at_front(alloc, left)? else {
            return Ok(None);
        };
        found[node.index()] = mark;
        left = rest;
    }
    Ok(Some(left))
}

/// Reads the lines of inner nodes with which a text begins. `AllocError` where a growth was
/// refused.
fn read_nodes(
    alloc: Global,
    tree: &Tree,
    text: &[u8],
    found: &mut Vec<Mark>,
) -> Result<(), AllocError>
    requires { length found.old.items ≡ size tree.now }
    ensures long { length found.new.items ≡ size tree.now }
    ensures complete { IfOk result (λ _. (marks : List Mark) (rest : List ℕ)
        → IsLegible tree.now → HasSmallSteps marks → IsOther rest
        → text.now ≡ node_lines tree.now marks 0 (subtrees tree.now) ++ rest
        → AreFound marks (HasMarked tree.now marks (size tree.now)) found.old.items
        found.new.items) }
{
    let mut left = text;
    for _turn in 0..tree.size() {
        let Some((node, mark, rest)) = node_at_front(alloc, tree, left)? else {
            return Ok(());
        };
        found[node] = mark;
        left = rest;
    }
    Ok(())
}

/// The mark of the cube with whose line a text begins, and what stands behind the line.
fn cube_at_front(text: &[u8]) -> Option<(Mark, &[u8])>
    ensures { (number : ℕ) (mark : Mark) (rest : List ℕ) → number < 2 ^ 64 → HasSmallStep mark
        → text.now ≡ cube_line number mark ++ rest
        → IsSomeAnd result (λ read. (read.0 ≡ mark) × (read.1.now ≡ rest)) }
{
    let Some(number) = behind(text, b"a ") else {
        return None;
    };
    let (_, status) = number_at_front(number);
    status_at_front(status)
}

/// The mark of the missing leaf with whose line a text begins, and what stands behind the line.
/// `AllocError` where a growth was refused.
fn missing_at_front(alloc: Global, text: &[u8]) -> Result<Option<(Mark, &[u8])>, AllocError>
    ensures { IfOk result (λ found. (number : ℕ) (path : List Literal) (mark : Mark)
        (rest : List ℕ) → number < 2 ^ 64 → AreVariables path → HasSmallStep mark
        → text.now ≡ missing_line number path mark ++ rest
        → IsSomeAnd found (λ read. (read.0 ≡ mark) × (read.1.now ≡ rest))) }
{
    let Some(number) = behind(text, b"m ") else {
        return Ok(None);
    };
    let (_, path) = number_at_front(number);
    let Some((_, status)) = path_at_front(alloc, path)? else {
        return Ok(None);
    };
    Ok(status_at_front(status))
}

/// The inner node with whose line a text begins, its mark, and what stands behind the line.
/// `AllocError` where a growth was refused.
fn node_at_front<'t>(
    alloc: Global,
    tree: &Tree,
    text: &'t [u8],
) -> Result<Option<(usize, Mark, &'t [u8])>, AllocError>
    ensures within { IfOk result (λ found. IfSome found (λ read. read.0 < size tree.now)) }
    ensures other { IfOk result (λ found. IfSome found (λ _. IsOther text.now → ⊥)) }
    ensures complete { IfOk result (λ found. (node : ℕ) (mark : Mark) (rest : List ℕ)
        → node < size tree.now → IsSplit (subtree_at tree.now node)
        → AreVariables (path_at tree.now node) → HasSmallStep mark
        → text.now ≡ node_line (path_at tree.now node) mark ++ rest
        → IsSomeAnd found (λ read. (read.0 ≡ node) × (read.1 ≡ mark) × (read.2.now ≡ rest))) }
{
    let Some(path) = behind(text, b"n") else {
        return Ok(None);
    };
    let Some((path, status)) = path_at_front(alloc, path)? else {
        return Ok(None);
    };
    let Some(node) = tree.node_of(&path) else {
        return Ok(None);
    };
    let Some((mark, rest)) = status_at_front(status) else {
        return Ok(None);
    };
    Ok(Some((node.index(), mark, rest)))
}
