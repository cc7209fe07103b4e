//! The text of a report.

ghost use Rattle.std.specs.Prelude.{◌≡◌, ◌<◌, ◌++◌, length, OnOk, IfOk};
ghost use Rattle.split_tree.specs.SplitTree.{size, subtrees, total, path_at};
ghost use Rattle.split_tree.specs.Leaves.{cube_count, missing_nodes, HasTarget};
ghost use Rattle.mark_board.specs.Marking.{open_branches, refuted_by, mark_at};
ghost use Rattle.node_fields.specs.Fields.{answer_line};
ghost use Rattle.cube_report.specs.Report.{total_line, cube_line, missing_line, node_line};
ghost use Rattle.cube_report.specs.Report.{open_line, weight_line, cube_lines, missing_lines};
ghost use Rattle.cube_report.specs.Report.{node_lines, open_lines, marked_line, report_text};
ghost use Rattle.cube_report.specs.Report.{IsLineOf};
ghost use Rattle.mark_board.specs.Findings.{mark_as};

use case_core::{Judged, Leaf, Lit, NodeId, Target, Tree};
use mark_board::{Mark, MarkedTree, open_branches_of};
use node_fields::{answer, write_number, write_path, write_status};
use std::alloc::{AllocError, Global};

/// The report by the marks of a tree's nodes, whoever says them: the totals, each cube, each
/// missing leaf, each inner node with a mark, each open branch, the open weight, and the answer.
/// `AllocError` where a growth was refused.
pub fn report_of<M: MarkedTree>(alloc: Global, told: &M) -> Result<Vec<u8>, AllocError>
    ensures { IfOk result
        (λ text. text.items ≡ report_text (M.splits told.now) (M.marks told.now)) }
{
    let mut text = Vec::new(alloc);
    write_totals(&mut text, told)?;
    write_cubes(&mut text, told)?;
    write_missing_leaves(alloc, &mut text, told)?;
    write_nodes(alloc, &mut text, told)?;
    write_open_branches(alloc, &mut text, told)?;
    let open = told.open_under(told.tree().root());
    write_closing(&mut text, open, open == 0)?;
    Ok(text)
}

/// The line that a report has of a target of the tree whose proof is judged so: a cube's, a missing
/// leaf's or an inner node's. `AllocError` where a growth was refused.
pub fn line_of(
    alloc: Global,
    tree: &Tree,
    target: Target,
    judged: Judged,
) -> Result<Vec<u8>, AllocError>
    requires { HasTarget tree.now target }
    ensures { IfOk result (λ line. IsLineOf tree.now target judged line.items) }
{
    let mut line = Vec::new(alloc);
    let asked = target;
    let path = tree.path_of(alloc, asked)?;
    let mark = mark_by(judged);
    match target {
        Target::Leaf(Leaf::Cube(number)) => write_cube(&mut line, number as u64, mark)?,
        Target::Leaf(Leaf::Missing(number)) => {
            write_missing(&mut line, number as u64, &path, mark)?;
        }
        Target::Node(_) => write_node(&mut line, &path, mark)?,
    }
    Ok(line)
}

/// The mark of what a proof is judged.
fn mark_by(judged: Judged) -> Mark
    ensures { result ≡ mark_as judged }
{
    match judged {
        Judged::Refuted => Mark::Refuted,
        Judged::Rejected { step, reason } => Mark::Rejected { step, reason },
    }
}

#[tactic(auto, unfolding(crate::specs::Report::total_line))]
fn write_totals<M: MarkedTree>(text: &mut Vec<u8>, told: &M) -> Result<(), AllocError>
    ensures { OnOk result (text.new.items ≡ text.old.items
        ++ total_line (cube_count (M.splits told.now))
        (length (missing_nodes (M.splits told.now))) (total 0 (M.splits told.now))) }
{
    let tree = told.tree();
    text.extend_from_slice(b"t")?;
    write_number(text, tree.cube_count() as u64)?;
    write_number(text, tree.missing_count() as u64)?;
    write_number(text, tree.total())?;
    text.extend_from_slice(b"\n")?;
    Ok(())
}

/// The line of each cube, in order.
fn write_cubes<M: MarkedTree>(text: &mut Vec<u8>, told: &M) -> Result<(), AllocError>
    ensures { OnOk result
        (text.new.items
        ≡ text.old.items
        ++ cube_lines (M.splits told.now) (M.marks told.now) 1 (cube_count (M.splits told.now))) }
{
    for before in 0..told.tree().cube_count() {
        let number = before + 1;
        let mark = told.mark_at(told.tree().node_of_leaf(Leaf::Cube(number)));
        write_cube(text, number as u64, mark)?;
    }
    Ok(())
}

/// The line of each missing leaf, in order.
fn write_missing_leaves<M: MarkedTree>(
    alloc: Global,
    text: &mut Vec<u8>,
    told: &M,
) -> Result<(), AllocError>
    ensures { OnOk result
        (text.new.items
        ≡ text.old.items
        ++ missing_lines (M.splits told.now) (M.marks told.now) 1
        (missing_nodes (M.splits told.now))) }
{
    let tree = told.tree();
    for before in 0..tree.missing_count() {
        let number = before + 1;
        let node = tree.node_of_leaf(Leaf::Missing(number));
        let path = tree.path_to(alloc, node)?;
        write_missing(text, number as u64, &path, told.mark_at(node))?;
    }
    Ok(())
}

/// The line of each inner node that has a mark, in tree order.
fn write_nodes<M: MarkedTree>(alloc: Global, text: &mut Vec<u8>, told: &M) -> Result<(), AllocError>
    ensures { OnOk result
        (text.new.items
        ≡ text.old.items
        ++ node_lines (M.splits told.now) (M.marks told.now) 0 (subtrees (M.splits told.now))) }
{
    let tree = told.tree();
    for number in 0..tree.size() {
        let node = NodeId::new(number);
        if let Some((_, _)) = tree.branches(node) {
            write_marked(alloc, text, told, node)?;
        }
    }
    Ok(())
}

/// The line of an inner node, if it has a mark.
fn write_marked<M: MarkedTree>(
    alloc: Global,
    text: &mut Vec<u8>,
    told: &M,
    node: NodeId,
) -> Result<(), AllocError>
    requires { node < size (M.splits told.now) }
    ensures { OnOk result (text.new.items ≡ text.old.items
        ++ marked_line (path_at (M.splits told.now) node) (mark_at (M.marks told.now) node)) }
{
    let mark = told.mark_at(node);
    if let Mark::Open = mark {
        return Ok(());
    }
    let path = told.tree().path_to(alloc, node)?;
    write_node(text, &path, mark)
}

/// The line of each open branch, in tree order.
fn write_open_branches<M: MarkedTree>(
    alloc: Global,
    text: &mut Vec<u8>,
    told: &M,
) -> Result<(), AllocError>
    ensures { OnOk result (text.new.items ≡ text.old.items
        ++ open_lines (M.splits told.now)
        (open_branches (refuted_by (M.marks told.now)) 0 (M.splits told.now))) }
{
    let tree = told.tree();
    let targets = open_branches_of(alloc, told)?;
    for target in &targets {
        let path = tree.path_to(alloc, tree.node_of_target(*target))?;
        write_open(text, &path)?;
    }
    Ok(())
}

#[tactic(auto, unfolding(crate::specs::Report::cube_line))]
fn write_cube(text: &mut Vec<u8>, number: u64, mark: Mark) -> Result<(), AllocError>
    ensures { OnOk result (text.new.items ≡ text.old.items ++ cube_line number mark) }
{
    text.extend_from_slice(b"a")?;
    write_number(text, number)?;
    write_status(text, mark)?;
    text.extend_from_slice(b"\n")?;
    Ok(())
}

#[tactic(auto, unfolding(crate::specs::Report::missing_line))]
fn write_missing(
    text: &mut Vec<u8>,
    number: u64,
    path: &[Lit],
    mark: Mark,
) -> Result<(), AllocError>
    ensures { OnOk result (text.new.items ≡ text.old.items ++ missing_line number path.now mark) }
{
    text.extend_from_slice(b"m")?;
    write_number(text, number)?;
    write_path(text, path)?;
    text.extend_from_slice(b" 0")?;
    write_status(text, mark)?;
    text.extend_from_slice(b"\n")?;
    Ok(())
}

#[tactic(auto, unfolding(crate::specs::Report::node_line))]
fn write_node(text: &mut Vec<u8>, path: &[Lit], mark: Mark) -> Result<(), AllocError>
    ensures { OnOk result (text.new.items ≡ text.old.items ++ node_line path.now mark) }
{
    text.extend_from_slice(b"n")?;
    write_path(text, path)?;
    text.extend_from_slice(b" 0")?;
    write_status(text, mark)?;
    text.extend_from_slice(b"\n")?;
    Ok(())
}

#[tactic(auto, unfolding(crate::specs::Report::open_line))]
fn write_open(text: &mut Vec<u8>, path: &[Lit]) -> Result<(), AllocError>
    ensures { OnOk result (text.new.items ≡ text.old.items ++ open_line path.now) }
{
    text.extend_from_slice(b"o")?;
    write_path(text, path)?;
    text.extend_from_slice(b" 0\n")?;
    Ok(())
}

/// The lines of the open weight and of the answer.
#[tactic(auto, unfolding(crate::specs::Report::weight_line))]
fn write_closing(text: &mut Vec<u8>, open_weight: u64, refuted: bool) -> Result<(), AllocError>
    ensures { OnOk result
        (text.new.items ≡ text.old.items ++ (weight_line open_weight ++ answer_line refuted)) }
{
    text.extend_from_slice(b"w")?;
    write_number(text, open_weight)?;
    text.extend_from_slice(b"\n")?;
    text.extend_from_slice(answer(refuted))?;
    Ok(())
}
