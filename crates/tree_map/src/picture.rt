//! The picture of a tree by the marks of its nodes.

ghost use Rattle.std.specs.Prelude.{◌≡◌, ◌<◌, ◌≤◌, ◌++◌, false, suc, OnOk, IfOk};
ghost use Rattle.split_tree.specs.SplitTree.{size, subtree_at};
ghost use Rattle.tree_map.specs.Picture.{map_text, head, style, legend, key, word_at, weights};
ghost use Rattle.tree_map.specs.Picture.{title, open_tenths, per_cent, cells, rows};
ghost use Rattle.tree_map.specs.Inner.Picture.{IsPending, cell_of, below, next_cells};

use crate::cell::{Cell, width, write_attribute, write_cell, write_rectangle};
use case_core::{NodeId, Tree};
use itoa::Buffer;
use mark_board::Boards;
use node_fields::{answer, write_number};
use std::alloc::{AllocError, Global};

/// The picture of the boards' tree by their marks, as SVG: the root at the top, and each node as
/// wide as its weight, down to the twelfth row, where a cell stands for all nodes under its own.
/// What is told of a node, a viewer shows over its cell. `AllocError` where a growth was refused.
pub fn map_of(alloc: Global, boards: &Boards<'_>) -> Result<Vec<u8>, AllocError>
    ensures { IfOk result (λ text. text.items ≡ map_text boards.now.case boards.now.marks) }
{
    let tree = boards.case().tree();
    let mut text = Vec::new(alloc);
    write_head(&mut text, 42 + 24 * rows(tree, tree.root(), 11))?;
    write_legend(&mut text)?;
    let whole = tree.total();
    write_title(&mut text, boards.root_marked(), boards.open_weight(), whole)?;
    write_cells(alloc, &mut text, boards)?;
    text.extend_from_slice(b"</svg>\n")?;
    Ok(text)
}

/// How many rows the cells of a node and of those below it take. It calls itself no deeper than the
/// level.
fn rows(tree: &Tree, node: NodeId, level: u32) -> u32
    requires node { node < size tree.now }
    requires level { level ≤ 11 }
    ensures rows { result ≡ rows level (subtree_at tree.now node) }
    ensures few { result ≤ suc level }
{
    if level == 0 {
        return 1;
    }
    match tree.branches(node) {
        Some((first, second)) => {
            1 + rows(tree, first, level - 1).max(rows(tree, second, level - 1))
        }
        None => 1,
    }
}

/// The picture's size and its colors. Cells that are narrower than 4 have no edge.
#[tactic(auto, unfolding(crate::specs::Picture::head))]
fn write_head(text: &mut Vec<u8>, height: u32) -> Result<(), AllocError>
    ensures { OnOk result (text.new.items ≡ text.old.items ++ head height) }
{
    text.extend_from_slice(b"<svg xmlns=\"http://www.w3.org/2000/svg\"")?;
    write_attribute(text, b" viewBox=\"0 0 2048 ", height)?;
    text.extend_from_slice(b" width=\"2048\"")?;
    write_attribute(text, b" height=\"", height)?;
    text.extend_from_slice(style())?;
    Ok(())
}

/// The picture's colors, behind its size.
fn style() -> &'static [u8]
    ensures { result.now ≡ style }
{
    b">\n<style>text{font:18px sans-serif}\
rect{fill:#FFFFFF;stroke:#FFFFFF;stroke-width:0.2}\
rect[width=\"1\"],rect[width=\"2\"]{stroke-width:0}\
.c{fill:#BBBBBB}.r{fill:#0072B2}.x{fill:#D55E00}.o{fill:#F0E442}.p{fill:#56B4E9}\
rect.n{stroke:#000000;stroke-width:2}</style>\n"
}

/// What each color means.
#[tactic(auto, unfolding(crate::specs::Picture::legend))]
fn write_legend(text: &mut Vec<u8>) -> Result<(), AllocError>
    ensures { OnOk result (text.new.items ≡ text.old.items ++ legend) }
{
    write_key(text, b"r", 760, b"refuted")?;
    write_key(text, b"x", 900, b"rejected")?;
    write_key(text, b"o", 1050, b"open")?;
    write_key(text, b"p", 1170, b"partly open")?;
    write_key(text, b"c", 1350, b"under a refuted node")?;
    write_key(text, b"n", 1620, b"own proof")?;
    Ok(())
}

/// An entry of the legend: a rectangle of this class, and the word behind it.
#[tactic(auto, unfolding(crate::specs::Picture::key))]
fn write_key(text: &mut Vec<u8>, class: &[u8], left: u32, word: &[u8]) -> Result<(), AllocError>
    requires { left ≤ 2048 }
    ensures { OnOk result (text.new.items ≡ text.old.items ++ key class.now left word.now) }
{
    write_rectangle(text, class, b"", left, 8, 22)?;
    text.extend_from_slice(b"</rect>")?;
    write_word(text, left + 30, word)?;
    Ok(())
}

/// A word of the first line.
#[tactic(auto, unfolding(crate::specs::Picture::word_at))]
fn write_word(text: &mut Vec<u8>, left: u32, word: &[u8]) -> Result<(), AllocError>
    ensures { OnOk result (text.new.items ≡ text.old.items ++ word_at left word.now) }
{
    text.extend_from_slice(b"<text")?;
    write_attribute(text, b" x=\"", left)?;
    text.extend_from_slice(b" y=\"26\">")?;
    text.extend_from_slice(word)?;
    text.extend_from_slice(b"</text>\n")?;
    Ok(())
}

/// The answer, and how much of the whole weight, which isn't 0, is open.
#[tactic(auto, unfolding(crate::specs::Picture::title))]
fn write_title(
    text: &mut Vec<u8>,
    refuted: bool,
    open_under: u64,
    whole: u64,
) -> Result<(), AllocError>
    requires { 0 < whole }
    ensures { OnOk result (text.new.items ≡ text.old.items ++ title refuted open_under whole) }
{
    text.extend_from_slice(b"<text x=\"8\" y=\"26\">")?;
    text.extend_from_slice(answer(refuted))?;
    text.extend_from_slice(b"</text>\n")?;
    write_weights(text, open_under, whole)?;
    Ok(())
}

/// How much of the whole weight, which isn't 0, is open.
#[tactic(auto, unfolding(crate::specs::Picture::weights))]
fn write_weights(text: &mut Vec<u8>, open_under: u64, whole: u64) -> Result<(), AllocError>
    requires { 0 < whole }
    ensures { OnOk result (text.new.items ≡ text.old.items ++ weights open_under whole) }
{
    text.extend_from_slice(b"<text x=\"130\" y=\"26\">")?;
    write_per_cent(text, open_tenths(open_under, whole))?;
    write_number(text, open_under)?;
    text.extend_from_slice(b" of")?;
    write_number(text, whole)?;
    text.extend_from_slice(b"</text>\n")?;
    Ok(())
}

/// How many tenths of a per cent of the whole weight, which isn't 0, are open, rounded up.
fn open_tenths(open_under: u64, whole: u64) -> u128
    requires { 0 < whole }
    ensures { result ≡ open_tenths open_under whole }
{
    (1000 * u128::from(open_under)).div_ceil(u128::from(whole))
}

/// So many tenths of a per cent.
#[tactic(auto, unfolding(crate::specs::Picture::per_cent))]
fn write_per_cent(text: &mut Vec<u8>, tenths: u128) -> Result<(), AllocError>
    ensures { OnOk result (text.new.items ≡ text.old.items ++ per_cent tenths) }
{
    text.extend_from_slice(Buffer::new().format(tenths / 10).as_bytes())?;
    text.extend_from_slice(b".")?;
    text.extend_from_slice(Buffer::new().format(tenths % 10).as_bytes())?;
    text.extend_from_slice(b" % open, w")?;
    Ok(())
}

/// The cells of all nodes that have one, each node's before those of its branches.
fn write_cells(alloc: Global, text: &mut Vec<u8>, boards: &Boards<'_>) -> Result<(), AllocError>
    ensures { OnOk result (text.new.items ≡ text.old.items
        ++ cells boards.now.case boards.now.marks 11 0 0 false boards.now.case.tree) }
{
    let mut pending = Vec::new(alloc);
    pending.push(Cell {
        level: 11,
        left: 0,
        node: boards.case().tree().root(),
        covered: false,
    })?;
    while let Some(cell) = pending.pop() {
        write_next(alloc, text, boards, &mut pending, cell)?;
    }
    Ok(())
}

/// The cell, while those of its branches become the next ones.
fn write_next(
    alloc: Global,
    text: &mut Vec<u8>,
    boards: &Boards<'_>,
    pending: &mut Vec<Cell>,
    cell: Cell,
) -> Result<(), AllocError>
    requires { IsPending boards.now.case.tree cell }
    ensures text { OnOk result
        (text.new.items ≡ text.old.items ++ cell_of boards.now.case boards.now.marks cell) }
    ensures pending { OnOk result (pending.new.items ≡ pending.old.items
        ++ next_cells boards.now.case boards.now.marks cell) }
{
    let Cell {
        level,
        left,
        node,
        covered,
    } = cell;
    let open_under = boards.open_under(node);
    write_cell(alloc, text, boards, cell, open_under)?;
    let covered = covered || open_under == 0;
    push_below(
        pending,
        boards.case().tree(),
        Cell {
            level,
            left,
            node,
            covered,
        },
    )?;
    Ok(())
}

/// Adds the cells of a cell's branches, the second one first, unless its row is the last.
fn push_below(pending: &mut Vec<Cell>, tree: &Tree, cell: Cell) -> Result<(), AllocError>
    requires { IsPending tree.now cell }
    ensures { OnOk result (pending.new.items ≡ pending.old.items
        ++ below cell.level cell.left cell.node cell.covered (subtree_at tree.now cell.node)) }
{
    let Cell {
        level,
        left,
        node,
        covered,
    } = cell;
    if level == 0 {
        return Ok(());
    }
    if let Some((first, second)) = tree.branches(node) {
        let level = level - 1;
        let middle = left + width(level);
        pending.push(Cell {
            level,
            left: middle,
            node: second,
            covered,
        })?;
        pending.push(Cell {
            level,
            left,
            node: first,
            covered,
        })?;
    }
    Ok(())
}
