//! The cell of a node: a rectangle with what is told of the node.

ghost use Rattle.std.specs.Prelude.{◌≡◌, ◌<◌, ◌≤◌, ◌++◌, ◌^◌, OnOk};
ghost use Rattle.split_tree.specs.SplitTree.{size, subtree_at};
ghost use Rattle.mark_board.specs.Marking.{mark_at, open_weight, refuted_by};
ghost use Rattle.mark_board.specs.TopPlaces.{worth_of};
ghost use Rattle.tree_map.specs.Picture.{attribute, edges, rectangle, is_rejected, one_rejected};
ghost use Rattle.tree_map.specs.Picture.{color, frame, nodes_shown, own_status, path_fields, told};
ghost use Rattle.tree_map.specs.Inner.Picture.{cell_of};

use case_core::{Case, Leaf, NodeId, Target};
use itoa::Buffer;
use mark_board::{Boards, Mark};
use node_fields::{write_number, write_path, write_status};
use std::alloc::{AllocError, Global};

/// Where a node's cell lies.
#[derive(Clone, Copy)]
pub(crate) struct Cell {
    /// How many rows there are below its own.
    pub(crate) level: u32,
    /// Its left edge.
    pub(crate) left: u32,
    /// Its node.
    pub(crate) node: NodeId,
    /// Whether a node above is marked.
    pub(crate) covered: bool,
}

/// The cell, where this weight is open under its node.
#[tactic(auto, unfolding(crate::specs::Picture::cell))]
pub(crate) fn write_cell(
    alloc: Global,
    text: &mut Vec<u8>,
    boards: &Boards<'_>,
    cell: Cell,
    open_under: u64,
) -> Result<(), AllocError>
    requires node { cell.node < size boards.now.case.tree }
    requires level { cell.level ≤ 11 }
    requires weight { open_under
        ≡ open_weight (worth_of boards.now.case.tree) (refuted_by boards.now.marks) cell.node
        (subtree_at boards.now.case.tree cell.node) }
    ensures { OnOk result
        (text.new.items ≡ text.old.items ++ cell_of boards.now.case boards.now.marks cell) }
{
    let Cell {
        level,
        left,
        node,
        covered,
    } = cell;
    let first = color(boards, level, node, covered, open_under);
    let second = frame(boards, node);
    write_rectangle(
        text,
        first,
        second,
        left,
        40 + 24 * (11 - level),
        width(level),
    )?;
    text.extend_from_slice(b"<title>")?;
    write_told(alloc, text, boards, node, open_under)?;
    text.extend_from_slice(b"</title></rect>\n")?;
    Ok(())
}

/// How wide a cell of this level is.
pub(crate) fn width(level: u32) -> u32
    requires { level ≤ 11 }
    ensures value { result ≡ 2 ^ level }
    ensures few { result ≤ 2048 }
{
    1 << level
}

/// A rectangle, not closed, of a class and the one behind it.
#[tactic(auto, unfolding(crate::specs::Picture::rectangle))]
pub(crate) fn write_rectangle(
    text: &mut Vec<u8>,
    class: &[u8],
    second: &[u8],
    left: u32,
    top: u32,
    width: u32,
) -> Result<(), AllocError>
    ensures { OnOk result (text.new.items
        ≡ text.old.items ++ rectangle class.now second.now left top width) }
{
    text.extend_from_slice(b"<rect class=\"")?;
    text.extend_from_slice(class)?;
    text.extend_from_slice(second)?;
    text.extend_from_slice(b"\"")?;
    write_edges(text, left, top, width)?;
    Ok(())
}

/// Where a rectangle lies: its left edge, its upper edge and its width.
#[tactic(auto, unfolding(crate::specs::Picture::edges))]
fn write_edges(text: &mut Vec<u8>, left: u32, top: u32, width: u32) -> Result<(), AllocError>
    ensures { OnOk result (text.new.items ≡ text.old.items ++ edges left top width) }
{
    write_attribute(text, b" x=\"", left)?;
    write_attribute(text, b" y=\"", top)?;
    write_attribute(text, b" width=\"", width)?;
    text.extend_from_slice(b" height=\"22\">")?;
    Ok(())
}

/// What opens an attribute, the number, and what closes it.
#[tactic(auto, unfolding(crate::specs::Picture::attribute))]
pub(crate) fn write_attribute(
    text: &mut Vec<u8>,
    name: &[u8],
    number: u32,
) -> Result<(), AllocError>
    ensures { OnOk result (text.new.items ≡ text.old.items ++ attribute name.now number) }
{
    text.extend_from_slice(name)?;
    text.extend_from_slice(Buffer::new().format(number).as_bytes())?;
    text.extend_from_slice(b"\"")?;
    Ok(())
}

/// The class of a cell by its color.
fn color(
    boards: &Boards<'_>,
    level: u32,
    node: NodeId,
    covered: bool,
    open_under: u64,
) -> &'static [u8]
    requires node { node < size boards.now.case.tree }
    requires weight { open_under
        ≡ open_weight (worth_of boards.now.case.tree) (refuted_by boards.now.marks) node
        (subtree_at boards.now.case.tree node) }
    ensures { result.now ≡ color boards.now.marks level node covered
        (subtree_at boards.now.case.tree node) }
{
    if open_under == 0 {
        b"r"
    } else if covered {
        b"c"
    } else if shows_rejected(boards, level, node) {
        b"x"
    } else if open_under == boards.case().tree().weight_under(node) {
        b"o"
    } else {
        b"p"
    }
}

/// Whether the proof of a node for which a cell of this level stands is rejected.
fn shows_rejected(boards: &Boards<'_>, level: u32, node: NodeId) -> bool
    requires { node < size boards.now.case.tree }
    ensures { result ≡ one_rejected boards.now.marks node
        (nodes_shown level (subtree_at boards.now.case.tree node)) }
{
    if level == 0 {
        rejected_under(boards, node)
    } else {
        rejected(boards, node)
    }
}

/// Whether the proof of a node, or of one under it, is rejected.
fn rejected_under(boards: &Boards<'_>, node: NodeId) -> bool
    requires { node < size boards.now.case.tree }
    ensures { result ≡ one_rejected boards.now.marks node
        (size (subtree_at boards.now.case.tree node)) }
{
    for number in node.number()..boards.case().tree().end_of(node) {
        if rejected(boards, NodeId::new(number)) {
            return true;
        }
    }
    false
}

/// Whether the proof of a node is rejected.
fn rejected(boards: &Boards<'_>, node: NodeId) -> bool
    requires { node < size boards.now.case.tree }
    ensures { result ≡ is_rejected (mark_at boards.now.marks node) }
{
    matches!(boards.mark_at(node), Mark::Rejected { .. })
}

/// Another class for an inner node that has a mark of its own.
fn frame(boards: &Boards<'_>, node: NodeId) -> &'static [u8]
    requires { node < size boards.now.case.tree }
    ensures { result.now
        ≡ frame boards.now.marks node (subtree_at boards.now.case.tree node) }
{
    let mark = boards.mark_at(node);
    match boards.case().tree().target_at(node) {
        Target::Leaf(_) => b"",
        Target::Node(_) => match mark {
            Mark::Open => b"",
            _ => b" n",
        },
    }
}

/// What is told of a node, where this weight is open under it.
fn write_told(
    alloc: Global,
    text: &mut Vec<u8>,
    boards: &Boards<'_>,
    node: NodeId,
    open_under: u64,
) -> Result<(), AllocError>
    requires node { node < size boards.now.case.tree }
    requires weight { open_under
        ≡ open_weight (worth_of boards.now.case.tree) (refuted_by boards.now.marks) node
        (subtree_at boards.now.case.tree node) }
    ensures { OnOk result (text.new.items ≡ text.old.items
        ++ told boards.now.case boards.now.marks node (subtree_at boards.now.case.tree node)) }
{
    let mark = boards.mark_at(node);
    match boards.case().tree().target_at(node) {
        Target::Leaf(Leaf::Cube(number)) => {
            text.extend_from_slice(b"a")?;
            write_number(text, number as u64)?;
            write_status(text, mark)?;
        }
        Target::Leaf(Leaf::Missing(_)) => {
            text.extend_from_slice(b"m")?;
            write_path_to(alloc, text, boards.case(), node)?;
            write_status(text, mark)?;
        }
        Target::Node(_) => {
            text.extend_from_slice(b"n")?;
            write_path_to(alloc, text, boards.case(), node)?;
            write_own_status(text, mark)?;
            text.extend_from_slice(b" w")?;
            write_number(text, open_under)?;
        }
    }
    Ok(())
}

/// The status of an inner node, if a proof of its own has been judged.
fn write_own_status(text: &mut Vec<u8>, mark: Mark) -> Result<(), AllocError>
    ensures { OnOk result (text.new.items ≡ text.old.items ++ own_status mark) }
{
    match mark {
        Mark::Open => Ok(()),
        other => write_status(text, other),
    }
}

/// The path of a node, and the end of it.
fn write_path_to(
    alloc: Global,
    text: &mut Vec<u8>,
    case: &Case,
    node: NodeId,
) -> Result<(), AllocError>
    requires { node < size case.now.tree }
    ensures { OnOk result (text.new.items ≡ text.old.items ++ path_fields case.now.tree node) }
{
    write_path(text, &case.tree().path_to(alloc, node)?)?;
    text.extend_from_slice(b" 0")?;
    Ok(())
}
